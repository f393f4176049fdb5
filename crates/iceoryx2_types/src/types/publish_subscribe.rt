//! The header of a published message.

ghost use Rattle.std.specs.Prelude.{codes, refl};
ghost use Rattle.std.proofs.Common.{lit≤};
ghost use Rattle.iceoryx2_types.specs.Alignments.{eight};
ghost use Rattle.iceoryx2_types.specs.Types.{fixed_size};

use super::{TypeVariant, ZeroCopySend};

/// A message's header: 32 bytes.
#[derive(Clone, Copy, Debug, PartialEq, Eq)]
pub struct Header {
    words: [u64; 4],
}

impl ZeroCopySend for Header {
    ghost detail = { fixed_size (codes "publish_subscribe::Header") 32 8 };

    ghost has_name_length = { (lit≤ tt, lit≤ tt) };

    ghost is_aligned = { eight };

    ghost fills_its_place = { (4, refl) };

    fn variant() -> TypeVariant {
        TypeVariant::FixedSize
    }

    fn type_name() -> &'static str {
        "publish_subscribe::Header"
    }

    fn size() -> u64 {
        32
    }

    fn alignment() -> u64 {
        8
    }
}
