//! Placeholders for types that are known by their details.

ghost use Rattle.std.specs.Prelude.{codes, refl};
ghost use Rattle.std.proofs.Common.{lit≤};
ghost use Rattle.iceoryx2_types.specs.Alignments.{one};
ghost use Rattle.iceoryx2_types.specs.Types.{fixed_size};

use super::{TypeVariant, ZeroCopySend};

/// A placeholder for a user header.
/// Hidden in iceoryx2.
#[derive(Clone, Copy, Debug, PartialEq, Eq)]
pub struct CustomHeaderMarker;

/// A placeholder for a payload.
/// Hidden in iceoryx2.
#[derive(Clone, Copy, Debug, PartialEq, Eq)]
pub struct CustomPayloadMarker(u8);

/// A placeholder for a key.
/// Hidden in iceoryx2.
#[derive(Clone, Copy, Debug, PartialEq, Eq)]
pub struct CustomKeyMarker(u8);

impl ZeroCopySend for CustomHeaderMarker {
    ghost detail = { fixed_size (codes "CustomHeaderMarker") 0 1 };

    ghost has_name_length = { (lit≤ tt, lit≤ tt) };

    ghost is_aligned = { one };

    ghost fills_its_place = { (0, refl) };

    fn variant() -> TypeVariant {
        TypeVariant::FixedSize
    }

    fn type_name() -> &'static str {
        "CustomHeaderMarker"
    }

    fn size() -> u64 {
        0
    }

    fn alignment() -> u64 {
        1
    }
}

impl ZeroCopySend for CustomPayloadMarker {
    ghost detail = { fixed_size (codes "CustomPayloadMarker") 1 1 };

    ghost has_name_length = { (lit≤ tt, lit≤ tt) };

    ghost is_aligned = { one };

    ghost fills_its_place = { (1, refl) };

    fn variant() -> TypeVariant {
        TypeVariant::FixedSize
    }

    fn type_name() -> &'static str {
        "CustomPayloadMarker"
    }

    fn size() -> u64 {
        1
    }

    fn alignment() -> u64 {
        1
    }
}

impl ZeroCopySend for CustomKeyMarker {
    ghost detail = { fixed_size (codes "CustomKeyMarker") 1 1 };

    ghost has_name_length = { (lit≤ tt, lit≤ tt) };

    ghost is_aligned = { one };

    ghost fills_its_place = { (1, refl) };

    fn variant() -> TypeVariant {
        TypeVariant::FixedSize
    }

    fn type_name() -> &'static str {
        "CustomKeyMarker"
    }

    fn size() -> u64 {
        1
    }

    fn alignment() -> u64 {
        1
    }
}
