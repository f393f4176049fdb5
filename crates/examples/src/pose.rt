//! A payload type that states its name, and its size and alignment in bytes.

ghost use Rattle.std.specs.Prelude.{codes, refl};
ghost use Rattle.std.proofs.Common.{lit≤};
ghost use Rattle.iceoryx2_types.proofs.Powers.{powers};
ghost use Rattle.iceoryx2_types.specs.Types.{fixed_size};

use iceoryx2_service::types::{TypeVariant, ZeroCopySend};
use std::mem::{align_of, size_of};

/// A robot's place in millimetres, and its angle in thousandths of a degree.
#[derive(Clone, Copy)]
#[repr(C)]
pub struct Pose {
    pub x: i64,
    pub y: i64,
    pub angle: i64,
}

impl ZeroCopySend for Pose {
    // The name, size and alignment that the methods are proved to return.
    ghost detail = { fixed_size (codes "Pose") 24 8 };

    // Its name has 1 to 256 bytes.
    ghost has_name_length = { (lit≤ tt, lit≤ tt) };

    // Its alignment is a power of two: 8 is 2 to the 3.
    ghost is_aligned = { (powers 8).1 (3, refl) };

    // Its size is 3 times its alignment.
    ghost fills_its_place = { (3, refl) };

    fn variant() -> TypeVariant {
        TypeVariant::FixedSize
    }

    fn type_name() -> &'static str {
        "Pose"
    }

    fn size() -> u64 {
        size_of::<Pose>() as u64
    }

    fn alignment() -> u64 {
        align_of::<Pose>() as u64
    }
}
