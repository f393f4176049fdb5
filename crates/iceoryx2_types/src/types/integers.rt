//! The details that integers state.

ghost use Rattle.std.specs.Prelude.{codes, refl};
ghost use Rattle.std.proofs.Common.{lit≤};
ghost use Rattle.iceoryx2_types.specs.Alignments.{one, two, four, eight, sixteen};
ghost use Rattle.iceoryx2_types.specs.Types.{fixed_size};

use super::{TypeVariant, ZeroCopySend};

impl ZeroCopySend for u8 {
    ghost detail = { fixed_size (codes "u8") 1 1 };

    ghost has_name_length = { (lit≤ tt, lit≤ tt) };

    ghost is_aligned = { one };

    ghost fills_its_place = { (1, refl) };

    fn variant() -> TypeVariant {
        TypeVariant::FixedSize
    }

    fn type_name() -> &'static str {
        "u8"
    }

    fn size() -> u64 {
        1
    }

    fn alignment() -> u64 {
        1
    }
}

impl ZeroCopySend for i8 {
    ghost detail = { fixed_size (codes "i8") 1 1 };

    ghost has_name_length = { (lit≤ tt, lit≤ tt) };

    ghost is_aligned = { one };

    ghost fills_its_place = { (1, refl) };

    fn variant() -> TypeVariant {
        TypeVariant::FixedSize
    }

    fn type_name() -> &'static str {
        "i8"
    }

    fn size() -> u64 {
        1
    }

    fn alignment() -> u64 {
        1
    }
}

impl ZeroCopySend for u16 {
    ghost detail = { fixed_size (codes "u16") 2 2 };

    ghost has_name_length = { (lit≤ tt, lit≤ tt) };

    ghost is_aligned = { two };

    ghost fills_its_place = { (1, refl) };

    fn variant() -> TypeVariant {
        TypeVariant::FixedSize
    }

    fn type_name() -> &'static str {
        "u16"
    }

    fn size() -> u64 {
        2
    }

    fn alignment() -> u64 {
        2
    }
}

impl ZeroCopySend for i16 {
    ghost detail = { fixed_size (codes "i16") 2 2 };

    ghost has_name_length = { (lit≤ tt, lit≤ tt) };

    ghost is_aligned = { two };

    ghost fills_its_place = { (1, refl) };

    fn variant() -> TypeVariant {
        TypeVariant::FixedSize
    }

    fn type_name() -> &'static str {
        "i16"
    }

    fn size() -> u64 {
        2
    }

    fn alignment() -> u64 {
        2
    }
}

impl ZeroCopySend for u32 {
    ghost detail = { fixed_size (codes "u32") 4 4 };

    ghost has_name_length = { (lit≤ tt, lit≤ tt) };

    ghost is_aligned = { four };

    ghost fills_its_place = { (1, refl) };

    fn variant() -> TypeVariant {
        TypeVariant::FixedSize
    }

    fn type_name() -> &'static str {
        "u32"
    }

    fn size() -> u64 {
        4
    }

    fn alignment() -> u64 {
        4
    }
}

impl ZeroCopySend for i32 {
    ghost detail = { fixed_size (codes "i32") 4 4 };

    ghost has_name_length = { (lit≤ tt, lit≤ tt) };

    ghost is_aligned = { four };

    ghost fills_its_place = { (1, refl) };

    fn variant() -> TypeVariant {
        TypeVariant::FixedSize
    }

    fn type_name() -> &'static str {
        "i32"
    }

    fn size() -> u64 {
        4
    }

    fn alignment() -> u64 {
        4
    }
}

impl ZeroCopySend for u64 {
    ghost detail = { fixed_size (codes "u64") 8 8 };

    ghost has_name_length = { (lit≤ tt, lit≤ tt) };

    ghost is_aligned = { eight };

    ghost fills_its_place = { (1, refl) };

    fn variant() -> TypeVariant {
        TypeVariant::FixedSize
    }

    fn type_name() -> &'static str {
        "u64"
    }

    fn size() -> u64 {
        8
    }

    fn alignment() -> u64 {
        8
    }
}

impl ZeroCopySend for i64 {
    ghost detail = { fixed_size (codes "i64") 8 8 };

    ghost has_name_length = { (lit≤ tt, lit≤ tt) };

    ghost is_aligned = { eight };

    ghost fills_its_place = { (1, refl) };

    fn variant() -> TypeVariant {
        TypeVariant::FixedSize
    }

    fn type_name() -> &'static str {
        "i64"
    }

    fn size() -> u64 {
        8
    }

    fn alignment() -> u64 {
        8
    }
}

impl ZeroCopySend for usize {
    ghost detail = { fixed_size (codes "usize") 8 8 };

    ghost has_name_length = { (lit≤ tt, lit≤ tt) };

    ghost is_aligned = { eight };

    ghost fills_its_place = { (1, refl) };

    fn variant() -> TypeVariant {
        TypeVariant::FixedSize
    }

    fn type_name() -> &'static str {
        "usize"
    }

    fn size() -> u64 {
        8
    }

    fn alignment() -> u64 {
        8
    }
}

impl ZeroCopySend for isize {
    ghost detail = { fixed_size (codes "isize") 8 8 };

    ghost has_name_length = { (lit≤ tt, lit≤ tt) };

    ghost is_aligned = { eight };

    ghost fills_its_place = { (1, refl) };

    fn variant() -> TypeVariant {
        TypeVariant::FixedSize
    }

    fn type_name() -> &'static str {
        "isize"
    }

    fn size() -> u64 {
        8
    }

    fn alignment() -> u64 {
        8
    }
}

impl ZeroCopySend for u128 {
    ghost detail = { fixed_size (codes "u128") 16 16 };

    ghost has_name_length = { (lit≤ tt, lit≤ tt) };

    ghost is_aligned = { sixteen };

    ghost fills_its_place = { (1, refl) };

    fn variant() -> TypeVariant {
        TypeVariant::FixedSize
    }

    fn type_name() -> &'static str {
        "u128"
    }

    fn size() -> u64 {
        16
    }

    fn alignment() -> u64 {
        16
    }
}

impl ZeroCopySend for i128 {
    ghost detail = { fixed_size (codes "i128") 16 16 };

    ghost has_name_length = { (lit≤ tt, lit≤ tt) };

    ghost is_aligned = { sixteen };

    ghost fills_its_place = { (1, refl) };

    fn variant() -> TypeVariant {
        TypeVariant::FixedSize
    }

    fn type_name() -> &'static str {
        "i128"
    }

    fn size() -> u64 {
        16
    }

    fn alignment() -> u64 {
        16
    }
}
