//! The refusals after which an open or create goes on.

ghost use Rattle.std.specs.Prelude.{◌≡◌};
ghost use Rattle.iceoryx2_rounds.specs.Retried.{Retried, retried_by};

use crate::pattern::{CreateRefusal, OpenRefusal, Pattern};

/// A pattern whose errors can be compared. So an open or create knows after which errors there is
/// another round.
pub trait Retries: Pattern<OpenError: PartialEq, CreateError: PartialEq> {
    /// The errors after which there is another round.
    ghost retried: { Retried Self.OpenError Self.CreateError };

    /// They are those of the refusals that are retried with every pattern, whatever a builder asks.
    ghost told: { (asked : Self) → retried ≡ retried_by Self.OpenError.eq Self.CreateError.eq
        (Self.meaning asked).open_refusal (Self.meaning asked).create_refusal };
}

/// Returns true if there is another round after an open that is refused so.
pub fn retries_open<P: Retries>(pattern: &P, error: P::OpenError) -> bool
    ensures { result ≡ P.retried.of_open error }
{
    let is_gone = error == pattern.open_refusal(OpenRefusal::DoesNotExist);
    let is_corrupted = error == pattern.open_refusal(OpenRefusal::ServiceInCorruptedState);
    let is_marked = error == pattern.open_refusal(OpenRefusal::IsMarkedForDestruction);
    is_gone | is_corrupted | is_marked
}

/// Returns true if there is another round after a create that is refused so.
pub fn retries_create<P: Retries>(pattern: &P, error: P::CreateError) -> bool
    ensures { result ≡ P.retried.of_create error }
{
    let is_there = error == pattern.create_refusal(CreateRefusal::AlreadyExists);
    let is_locked = error == pattern.create_refusal(CreateRefusal::IsBeingCreatedByAnotherInstance);
    let is_corrupted = error == pattern.create_refusal(CreateRefusal::ServiceInCorruptedState);
    is_there | is_locked | is_corrupted
}
