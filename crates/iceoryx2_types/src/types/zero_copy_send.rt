//! Types that messages can be made of.

ghost use Rattle.std.specs.Prelude.{◌≡◌, codes, refl};
ghost use Rattle.std.proofs.Common.{lit≤};
ghost use Rattle.iceoryx2_types.specs.Alignments.{one};
ghost use Rattle.iceoryx2_types.specs.Types.{Detail, FillsItsPlace, HasNameLength, IsAlignment};
ghost use Rattle.iceoryx2_types.specs.Types.{fixed_size, with_variant};
ghost use Rattle.iceoryx2_types.specs.declared.types.TypeVariant.TheVariants.{Dynamic};

use super::TypeVariant;
use std::marker::PhantomData;

/// A type whose values may be sent without a copy. The details that the type states are constant.
pub trait ZeroCopySend {
    /// The details of the type.
    ghost detail: { Detail };

    /// The name has 1 to 256 bytes.
    ghost has_name_length: { HasNameLength detail.name };

    /// The alignment is a power of two.
    ghost is_aligned: { IsAlignment detail.alignment };

    /// The size is a multiple of the alignment.
    ghost fills_its_place: { FillsItsPlace detail };

    /// Returns whether a message holds one value of the type or a number of them.
    fn variant() -> TypeVariant
        ensures { result ≡ detail.variant };

    /// Returns the type's name. If a message holds a number of values, returns the name of one of them.
    fn type_name() -> &'static str
        ensures { result.now ≡ detail.name };

    /// Returns the size of one value, in bytes.
    fn size() -> u64
        ensures { result ≡ detail.size };

    /// Returns the alignment in bytes, a power of two.
    fn alignment() -> u64
        ensures { result ≡ detail.alignment };
}

/// A number of values of one type, one after the other.
pub struct Slice<P> {
    of: PhantomData<P>,
}

impl<P: ZeroCopySend> ZeroCopySend for Slice<P> {
    ghost detail = { with_variant P.detail Dynamic };

    ghost has_name_length = { P.has_name_length };

    ghost is_aligned = { P.is_aligned };

    ghost fills_its_place = { P.fills_its_place };

    fn variant() -> TypeVariant {
        TypeVariant::Dynamic
    }

    fn type_name() -> &'static str {
        P::type_name()
    }

    fn size() -> u64 {
        P::size()
    }

    fn alignment() -> u64 {
        P::alignment()
    }
}

impl ZeroCopySend for () {
    ghost detail = { fixed_size (codes "()") 0 1 };

    ghost has_name_length = { (lit≤ tt, lit≤ tt) };

    ghost is_aligned = { one };

    ghost fills_its_place = { (0, refl) };

    fn variant() -> TypeVariant {
        TypeVariant::FixedSize
    }

    fn type_name() -> &'static str {
        "()"
    }

    fn size() -> u64 {
        0
    }

    fn alignment() -> u64 {
        1
    }
}

impl ZeroCopySend for bool {
    ghost detail = { fixed_size (codes "bool") 1 1 };

    ghost has_name_length = { (lit≤ tt, lit≤ tt) };

    ghost is_aligned = { one };

    ghost fills_its_place = { (1, refl) };

    fn variant() -> TypeVariant {
        TypeVariant::FixedSize
    }

    fn type_name() -> &'static str {
        "bool"
    }

    fn size() -> u64 {
        1
    }

    fn alignment() -> u64 {
        1
    }
}
