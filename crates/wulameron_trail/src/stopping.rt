//! Why no more of a log is shown.

ghost use Rattle.std.specs.Prelude.{◌≡◌};
ghost use Rattle.wulameron_trail.specs.Stopping.{stop_of};

use negotiate_serve::ending::ServeError;
use std::alloc::AllocError;
use wulameron_place::trouble::Trouble;

/// Why no more of a log is shown.
#[derive(Clone, Copy)]
pub enum Stop {
    /// There is no entry, and nothing that a dead writer leaves.
    Damaged,
    /// The services before the entry don't answer what it says.
    NotAnswered,
    /// The log's file or database refused.
    Refused(Trouble),
    /// The output failed, or there was no memory.
    Failed(ServeError),
}

/// Why an entry isn't shown.
#[derive(Clone, Copy)]
pub enum ShowError {
    /// There was no memory.
    OutOfMemory,
    /// The services before the entry don't answer what it says.
    NotAnswered,
}

impl From<AllocError> for ShowError {
    ghost use Rattle.wulameron_trail.specs.declared.stopping.ShowError.TheVariants as why;

    ghost from_gives = { λ _ given. given ≡ why.OutOfMemory };

    fn from(_: AllocError) -> ShowError {
        ShowError::OutOfMemory
    }
}

/// Returns the stop at an entry that isn't shown.
pub(crate) fn stop_at(error: ShowError) -> Stop
    ensures { result ≡ stop_of error }
{
    match error {
        ShowError::OutOfMemory => Stop::Failed(ServeError::OutOfMemory),
        ShowError::NotAnswered => Stop::NotAnswered,
    }
}
