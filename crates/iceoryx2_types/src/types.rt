//! Types of messages: the details that nodes need, and the types that state their own details.

ghost use Rattle.std.specs.Prelude.{◌≡◌, ◌↔◌, ℕ, IsTrue, codes};
ghost use Rattle.std.specs.Int.{IsPowerOfTwo};
ghost use Rattle.iceoryx2_types.specs.Types.{Message, HasNameLength, IsAlignment, IsCompatible, compatible};
ghost use Rattle.iceoryx2_types.specs.Types.{Detail, fixed_size, with_variant};
ghost use Rattle.iceoryx2_types.specs.declared.types.TypeVariant.TheVariants.{Dynamic};

use std::error::Error;
use std::fmt;

mod alignment;
mod detail;
mod integers;
mod markers;
mod message;
pub mod publish_subscribe;
pub mod request_response;
mod zero_copy_send;

pub use alignment::Alignment;
pub use detail::TypeDetail;
pub use markers::{CustomHeaderMarker, CustomKeyMarker, CustomPayloadMarker};
pub use message::MessageTypeDetails;
pub use zero_copy_send::{Slice, ZeroCopySend};

/// The length of the shortest name of a type, in bytes.
pub const MIN_TYPE_NAME_LENGTH: usize = 1;

/// The length of the longest name of a type, in bytes.
pub const MAX_TYPE_NAME_LENGTH: usize = 256;

/// States the limits as numbers, because a wrong constant would also change the definitions that cite
/// it.
pub fn limits_of_type_names()
    ensures min_name { MIN_TYPE_NAME_LENGTH ≡ 1 }
    ensures max_name { MAX_TYPE_NAME_LENGTH ≡ 256 }
{}

/// Whether a message holds one value of its type, or a number of them that is known when it is sent.
#[derive(Clone, Copy, Debug, PartialEq, Eq)]
pub enum TypeVariant {
    /// One value.
    FixedSize,
    /// A number of values.
    Dynamic,
}

/// Why details aren't those of a type. The errors are tested in this order.
#[derive(Clone, Copy, Debug, PartialEq, Eq)]
pub enum TypeDetailError {
    /// The name has no byte, or more than 256.
    NameLength,
    /// The alignment is not a power of two.
    Alignment,
    /// There was no memory for a copy of the name.
    OutOfMemory,
}

impl fmt::Display for TypeDetailError {
    ghost use Rattle.std.specs.Prelude.{Some};
    ghost use Rattle.iceoryx2_types.specs.Errors.{type_detail_error_text};

    ghost output = { λ error. Some (type_detail_error_text error) };

    fn fmt<W: fmt::Write>(&self, f: &mut fmt::Formatter<W>) -> fmt::Result {
        match self {
            TypeDetailError::NameLength => write!(f, "a type's name has 1 to 256 bytes"),
            TypeDetailError::Alignment => write!(f, "a type's alignment is a power of two"),
            TypeDetailError::OutOfMemory => write!(f, "out of memory"),
        }
    }
}

impl Error for TypeDetailError {}

/// States compatibility as a relation. Each message is compatible with itself. If one message is
/// compatible with a second, and the second with a third, then the first is compatible with the third.
/// The test for compatibility decides the relation. A number that is taken for an alignment is 2 to
/// some power.
#[tactic(auto, using(crate::proofs::Compatible::reflexive, crate::proofs::Compatible::transitive))]
pub fn laws_of_compatibility()
    ensures reflexive { (a : Message) → IsCompatible a a }
    ensures transitive { (a b c : Message) → IsCompatible a b → IsCompatible b c → IsCompatible a c }
    ensures decided { (a b : Message) → IsTrue (compatible a b) ↔ IsCompatible a b }
    ensures alignments { (n : ℕ) → IsAlignment n ↔ IsPowerOfTwo n }
{}

/// States the details of each type as written values, because a wrong name, size or alignment would
/// also change the ghost `detail` of its implementation. All are of one value.
pub fn details_of_types()
    ensures unit { ⟦<() as ZeroCopySend>⟧.detail ≡ fixed_size (codes "()") 0 1 }
    ensures truth { ⟦<bool as ZeroCopySend>⟧.detail ≡ fixed_size (codes "bool") 1 1 }
    ensures u8 { ⟦<u8 as ZeroCopySend>⟧.detail ≡ fixed_size (codes "u8") 1 1 }
    ensures i8 { ⟦<i8 as ZeroCopySend>⟧.detail ≡ fixed_size (codes "i8") 1 1 }
    ensures u16 { ⟦<u16 as ZeroCopySend>⟧.detail ≡ fixed_size (codes "u16") 2 2 }
    ensures i16 { ⟦<i16 as ZeroCopySend>⟧.detail ≡ fixed_size (codes "i16") 2 2 }
    ensures u32 { ⟦<u32 as ZeroCopySend>⟧.detail ≡ fixed_size (codes "u32") 4 4 }
    ensures i32 { ⟦<i32 as ZeroCopySend>⟧.detail ≡ fixed_size (codes "i32") 4 4 }
    ensures u64 { ⟦<u64 as ZeroCopySend>⟧.detail ≡ fixed_size (codes "u64") 8 8 }
    ensures i64 { ⟦<i64 as ZeroCopySend>⟧.detail ≡ fixed_size (codes "i64") 8 8 }
    ensures usize { ⟦<usize as ZeroCopySend>⟧.detail ≡ fixed_size (codes "usize") 8 8 }
    ensures isize { ⟦<isize as ZeroCopySend>⟧.detail ≡ fixed_size (codes "isize") 8 8 }
    ensures u128 { ⟦<u128 as ZeroCopySend>⟧.detail ≡ fixed_size (codes "u128") 16 16 }
    ensures i128 { ⟦<i128 as ZeroCopySend>⟧.detail ≡ fixed_size (codes "i128") 16 16 }
    ensures header_marker { ⟦<CustomHeaderMarker as ZeroCopySend>⟧.detail
        ≡ fixed_size (codes "CustomHeaderMarker") 0 1 }
    ensures payload_marker { ⟦<CustomPayloadMarker as ZeroCopySend>⟧.detail
        ≡ fixed_size (codes "CustomPayloadMarker") 1 1 }
    ensures key_marker { ⟦<CustomKeyMarker as ZeroCopySend>⟧.detail ≡ fixed_size (codes "CustomKeyMarker") 1 1 }
    ensures header { ⟦<publish_subscribe::Header as ZeroCopySend>⟧.detail
        ≡ fixed_size (codes "publish_subscribe::Header") 32 8 }
    ensures request_header { ⟦<request_response::RequestHeader as ZeroCopySend>⟧.detail
        ≡ fixed_size (codes "request_response::RequestHeader") 32 8 }
    ensures response_header { ⟦<request_response::ResponseHeader as ZeroCopySend>⟧.detail
        ≡ fixed_size (codes "request_response::ResponseHeader") 32 8 }
{}

/// States that a number of values has the name, the size and the alignment of one value.
pub fn details_of_slices<P: ZeroCopySend>()
    ensures { ⟦<Slice<P> as ZeroCopySend>⟧.detail ≡ with_variant P.detail Dynamic }
{}

/// States that two values of one of these types are equal by `==` exactly if they are the same value:
/// the same variant, or the same in all fields.
#[tactic(auto, using(crate::proofs::Equality::messages))]
pub fn equality_of_types()
    ensures variant { (a b : TypeVariant) → IsTrue (⟦<TypeVariant as PartialEq>⟧.eq a b) ↔ (a ≡ b) }
    ensures error { (a b : TypeDetailError) → IsTrue (⟦<TypeDetailError as PartialEq>⟧.eq a b) ↔ (a ≡ b) }
    ensures alignment { (a b : ℕ) → IsTrue (⟦<Alignment as PartialEq>⟧.eq a b) ↔ (a ≡ b) }
    ensures detail { (a b : Detail) → IsTrue (⟦<TypeDetail as PartialEq>⟧.eq a b) ↔ (a ≡ b) }
    ensures message { (a b : Message) → IsTrue (⟦<MessageTypeDetails as PartialEq>⟧.eq a b) ↔ (a ≡ b) }
{}

/// Returns whether a text has as many bytes as a type's name may have.
fn has_name_length(name: &str) -> bool
    ensures { IsTrue result ↔ HasNameLength name.now }
{
    MIN_TYPE_NAME_LENGTH <= name.len() && name.len() <= MAX_TYPE_NAME_LENGTH
}
