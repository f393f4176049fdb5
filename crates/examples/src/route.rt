//! A second payload type.

ghost use Rattle.std.specs.Prelude.{codes, refl};
ghost use Rattle.std.proofs.Common.{lit≤};
ghost use Rattle.iceoryx2_types.proofs.Powers.{powers};
ghost use Rattle.iceoryx2_types.specs.Types.{fixed_size};

use iceoryx2_service::types::{TypeVariant, ZeroCopySend};
use std::mem::{align_of, size_of};

/// A route's length in millimetres, and its duration in nanoseconds.
#[derive(Clone, Copy)]
#[repr(C)]
pub struct Route {
    pub length: u64,
    pub nanoseconds: u64,
}

impl ZeroCopySend for Route {
    ghost detail = { fixed_size (codes "Route") 16 8 };

    ghost has_name_length = { (lit≤ tt, lit≤ tt) };

    ghost is_aligned = { (powers 8).1 (3, refl) };

    ghost fills_its_place = { (2, refl) };

    fn variant() -> TypeVariant {
        TypeVariant::FixedSize
    }

    fn type_name() -> &'static str {
        "Route"
    }

    fn size() -> u64 {
        size_of::<Route>() as u64
    }

    fn alignment() -> u64 {
        align_of::<Route>() as u64
    }
}
