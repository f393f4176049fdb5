//! The part of the rounds that is a pattern's own.

ghost use Rattle.std.specs.Prelude.{◌≡◌, IfOk};
ghost use Rattle.iceoryx2_rounds.specs.PatternRules.{PatternRules};
ghost use Rattle.iceoryx2_rounds.specs.Verdict.{verdict};

use iceoryx2_description::description::{MessagingPattern, StaticConfig};
use iceoryx2_description::time::Time;
use std::alloc::AllocError;

/// The refusals of an open that every pattern has. A service that doesn't fit or doesn't meet the
/// requirement has other refusals.
#[derive(Clone, Copy, Debug, PartialEq, Eq)]
pub enum OpenRefusal {
    DoesNotExist,
    ExceedsMaxNumberOfNodes,
    HangsInCreation,
    IncompatibleAttributes,
    InsufficientPermissions,
    InternalFailure,
    IsMarkedForDestruction,
    OutOfMemory,
    ServiceInCorruptedState,
}

/// The refusals of a create that every pattern has.
#[derive(Clone, Copy, Debug, PartialEq, Eq)]
pub enum CreateRefusal {
    AlreadyExists,
    HangsInCreation,
    InsufficientPermissions,
    InternalFailure,
    IsBeingCreatedByAnotherInstance,
    OutOfMemory,
    ServiceInCorruptedState,
}

/// The demands of a pattern's builder, and the errors by which its calls name what goes wrong.
///
/// It stands for one call: its settings and marks, and the message types that it prepared.
/// Hidden; iceoryx2 has no such trait.
pub trait Pattern: Drop {
    /// The reason why an open is refused.
    type OpenError: Copy;

    /// The reason why a create is refused.
    type CreateError: Copy;

    /// What it asks, and its errors.
    ghost meaning: { Self → PatternRules Self.OpenError Self.CreateError };

    /// The same demand, with one for each zero that a create raises.
    ghost adjusted: { Self → Self };

    /// Raises the zeros that a create may not leave.
    fn adjust(&mut self)
        ensures { self.new ≡ adjusted self.old };

    /// Returns the reason why a service of the right hash isn't opened if it has another pattern or
    /// other message types.
    fn misfit(&self, existing: &StaticConfig) -> Option<Self::OpenError>
        ensures { result ≡ (meaning self.now).misfit existing.now };

    /// Tests if an existing service meets the requirement, clause by clause.
    fn verify(&self, existing: &StaticConfig) -> Result<(), Self::OpenError>
        ensures { result ≡ verdict ((meaning self.now).requirement existing.now) };

    /// Returns the error of a refused open.
    fn open_refusal(&self, refusal: OpenRefusal) -> Self::OpenError
        ensures { result ≡ (meaning self.now).open_refusal refusal };

    /// Returns the error of a refused create, whatever is asked.
    fn create_error(refusal: CreateRefusal) -> Self::CreateError
        ensures { (asked : Self) → result ≡ (meaning asked).create_refusal refusal };

    /// Returns the error of a refused create.
    fn create_refusal(&self, refusal: CreateRefusal) -> Self::CreateError
        ensures { result ≡ (meaning self.now).create_refusal refusal }
    {
        Self::create_error(refusal)
    }

    /// Returns the error of settings that no create may have. It is answered before any access.
    fn settings_refusal(&self) -> Option<Self::CreateError>
        ensures { result ≡ (meaning self.now).settings_refusal };

    /// Returns true if a create has to know the time.
    fn needs_clock(&self) -> bool
        ensures { result ≡ (meaning self.now).needs_clock };

    /// Returns a copy of what is asked. `AllocError` if there was no memory for it.
    fn copy(&self) -> Result<Self, AllocError>
        ensures { IfOk result (λ copy. copy ≡ self.now) };

    /// Returns what a create at this time publishes of the pattern. It takes over the types of
    /// messages.
    fn into_published(self, now: Time) -> MessagingPattern
        ensures { result ≡ (meaning self).published now };
}
