//! What is true of every run over a counted storage.

ghost use Rattle.std.specs.Prelude.{List};
ghost use Rattle.iceoryx2_access.specs.Letter.{Letter};
ghost use Rattle.counted.specs.Counted.{CountedState, GoesInside, CountsAccesses};

use iceoryx2_access::storage::Storage;

/// What a word of accesses makes of a counted storage, whatever is inside.
pub fn counts<S: Storage>()
    ensures inside { (a b : CountedState S) (word : List Letter) → GoesInside S.step a b word }
    ensures total { (a b : CountedState S) (word : List Letter) → CountsAccesses S.step a b word }
{}
