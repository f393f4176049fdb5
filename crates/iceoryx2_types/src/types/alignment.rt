//! Alignments.

ghost use Rattle.std.specs.Prelude.{◌≡◌, IfSome, MatchOption};
ghost use Rattle.iceoryx2_types.specs.Types.{IsAlignment};

use super::ZeroCopySend;
use std::marker::Model;

/// An alignment in bytes: a power of two.
#[derive(Clone, Copy, Debug, PartialEq, Eq)]
pub struct Alignment {
    value: u64,
}

impl Model for Alignment {
    ghost use Rattle.std.specs.Prelude.{ℕ};
    ghost use Rattle.iceoryx2_types.specs.Types.{IsAlignment};

    ghost Value = { ℕ };

    ghost view = { λ a. a.value };

    ghost invariant = { λ a. IsAlignment a.value };

    ghost inverse = { λ n. record { value = n } };
}

impl Alignment {
    /// Returns the alignment of this many bytes, or `None` if the number is not a power of two.
    pub fn new(value: u64) -> Option<Alignment>
        ensures value { IfSome result (λ alignment. alignment ≡ value) }
        ensures limit { MatchOption result (IsAlignment value → ⊥) (λ _. IsAlignment value) }
    {
        if value.is_power_of_two() {
            Some(Alignment { value })
        } else {
            None
        }
    }

    /// Returns the alignment that a type states.
    pub(super) fn of_type<T: ZeroCopySend>() -> Alignment
        ensures { result ≡ T.detail.alignment }
    {
        Alignment {
            value: T::alignment(),
        }
    }

    /// Returns the alignment in bytes.
    pub fn value(&self) -> u64
        ensures value { result ≡ self.now }
        ensures limit { IsAlignment self.now }
    {
        self.value
    }
}
