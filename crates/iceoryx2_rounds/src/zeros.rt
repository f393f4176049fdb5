//! Settings that a create raises.

ghost use Rattle.std.specs.Prelude.{◌≡◌};
ghost use Rattle.iceoryx2_rounds.specs.Zeros.{at_least_one};

/// Returns the value, or one instead of zero.
pub fn raise_zero(value: u64) -> u64
    ensures { result ≡ at_least_one value }
{
    if value == 0 { 1 } else { value }
}
