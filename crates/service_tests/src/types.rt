//! Types of messages.

ghost use Rattle.std.specs.Prelude.{codes, refl};
ghost use Rattle.std.proofs.Common.{lit≤};
ghost use Rattle.iceoryx2_types.proofs.Powers.{powers};
ghost use Rattle.iceoryx2_types.specs.Types.{fixed_size};

use self::TypeVariant::*;
use crate::support::{assert_same, granted};
use iceoryx2_types::types::publish_subscribe::Header;
use iceoryx2_types::types::request_response::{RequestHeader, ResponseHeader};
use iceoryx2_types::types::{
    Alignment, CustomHeaderMarker, CustomKeyMarker, CustomPayloadMarker, MessageTypeDetails, Slice,
    TypeDetail, TypeVariant, ZeroCopySend,
};
use std::alloc::Global;
use std::mem::{align_of, size_of};
use std::process::Abort;

/// What is known of a type: its variant, its name, its size and its alignment.
pub type TypeFacts<'a> = (TypeVariant, &'a str, u64, u64);

/// What is known of one `i64`.
pub const I64: TypeFacts<'static> = (FixedSize, "i64", 8, 8);

/// What is known of a number of them.
pub const SLICE: TypeFacts<'static> = (Dynamic, "i64", 8, 8);

/// What is known of `u32`.
pub const U32: TypeFacts<'static> = (FixedSize, "u32", 4, 4);

/// What each type gives of itself.
const TYPES: [TypeFacts<'static>; 22] = [
    (FixedSize, "()", 0, 1),
    (FixedSize, "bool", 1, 1),
    (FixedSize, "u8", 1, 1),
    (FixedSize, "i8", 1, 1),
    (FixedSize, "u16", 2, 2),
    (FixedSize, "i16", 2, 2),
    (FixedSize, "u32", 4, 4),
    (FixedSize, "i32", 4, 4),
    (FixedSize, "u64", 8, 8),
    (FixedSize, "i64", 8, 8),
    (FixedSize, "usize", 8, 8),
    (FixedSize, "isize", 8, 8),
    (FixedSize, "u128", 16, 16),
    (FixedSize, "i128", 16, 16),
    (FixedSize, "CustomHeaderMarker", 0, 1),
    (FixedSize, "CustomPayloadMarker", 1, 1),
    (FixedSize, "CustomKeyMarker", 1, 1),
    (FixedSize, "publish_subscribe::Header", 32, 8),
    (FixedSize, "request_response::RequestHeader", 32, 8),
    (FixedSize, "request_response::ResponseHeader", 32, 8),
    (Dynamic, "u16", 2, 2),
    (Dynamic, "CustomPayloadMarker", 1, 1),
];

/// What a type gives of itself.
fn constants_of<T: ZeroCopySend>() -> TypeFacts<'static> {
    (T::variant(), T::type_name(), T::size(), T::alignment())
}

#[test]
fn each_type_says_its_constants(rt: HostRuntime) {
    let found = [
        constants_of::<()>(),
        constants_of::<bool>(),
        constants_of::<u8>(),
        constants_of::<i8>(),
        constants_of::<u16>(),
        constants_of::<i16>(),
        constants_of::<u32>(),
        constants_of::<i32>(),
        constants_of::<u64>(),
        constants_of::<i64>(),
        constants_of::<usize>(),
        constants_of::<isize>(),
        constants_of::<u128>(),
        constants_of::<i128>(),
        constants_of::<CustomHeaderMarker>(),
        constants_of::<CustomPayloadMarker>(),
        constants_of::<CustomKeyMarker>(),
        constants_of::<Header>(),
        constants_of::<RequestHeader>(),
        constants_of::<ResponseHeader>(),
        constants_of::<Slice<u16>>(),
        constants_of::<Slice<CustomPayloadMarker>>(),
    ];
    assert_same(&rt, found, TYPES);
}

/// A type of the tests' own.
#[repr(C)]
struct MyPayload {
    _words: [u64; 2],
}

impl ZeroCopySend for MyPayload {
    ghost detail = { fixed_size (codes "MyPayload") 16 8 };

    ghost has_name_length = { (lit≤ tt, lit≤ tt) };

    ghost is_aligned = { (powers 8).1 (3, refl) };

    ghost fills_its_place = { (2, refl) };

    fn variant() -> TypeVariant {
        FixedSize
    }

    fn type_name() -> &'static str {
        "MyPayload"
    }

    fn size() -> u64 {
        size_of::<MyPayload>() as u64
    }

    fn alignment() -> u64 {
        align_of::<MyPayload>() as u64
    }
}

/// What is known of a type.
fn facts_of(detail: &TypeDetail) -> TypeFacts {
    (
        detail.variant(),
        detail.type_name(),
        detail.size(),
        detail.alignment(),
    )
}

/// Whether this is known of a message's header, user header and payload.
fn consists_of(message: &MessageTypeDetails, wanted: [TypeFacts; 3]) -> bool {
    let found = [
        facts_of(&message.header),
        facts_of(&message.user_header),
        facts_of(&message.payload),
    ];
    found == wanted
}

/// What a message of one value of the tests' own type is made of.
const OWN: [TypeFacts<'static>; 3] = [
    (FixedSize, "i32", 4, 4),
    (FixedSize, "i64", 8, 8),
    (FixedSize, "MyPayload", 16, 8),
];

/// What a message of a number of values is made of that are aligned further than they ask for.
const MANY: [TypeFacts<'static>; 3] = [
    (FixedSize, "i32", 4, 4),
    (FixedSize, "bool", 1, 1),
    (Dynamic, "i64", 8, 16),
];

/// A message whose payload is aligned to 16 bytes.
fn aligned(message: MessageTypeDetails) -> MessageTypeDetails {
    message.with_overrides(None, None, Alignment::new(16))
}

#[test]
fn a_message_holds_what_its_types_say(rt: HostRuntime) {
    let own = MessageTypeDetails::from::<i32, i64, MyPayload>(rt.alloc(), FixedSize);
    let many = MessageTypeDetails::from::<i32, bool, i64>(rt.alloc(), Dynamic);
    let found = (
        consists_of(&granted(&rt, own), OWN),
        consists_of(&aligned(granted(&rt, many)), MANY),
    );
    assert_same(&rt, found, (true, true));
}

/// The details of a type.
pub fn detail(rt: &impl Abort, alloc: Global, facts_of: TypeFacts) -> TypeDetail {
    let (variant, name, size, alignment) = facts_of;
    granted(rt, TypeDetail::new(alloc, variant, name, size, alignment))
}
