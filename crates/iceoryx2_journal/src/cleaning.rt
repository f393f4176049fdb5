//! The release of what a node has, if the node doesn't do it itself.

ghost use Rattle.std.specs.Prelude.{◌≡◌, false, Some};
ghost use Rattle.iceoryx2_access.specs.Letter.{Letter};
ghost use Rattle.iceoryx2_journal.specs.Cleaning.{GivesUp, given_back, if_granted, nothing_given, step_with, with_one};
ghost use Rattle.iceoryx2_journal.specs.Cleaning.{has_segment as has_segment_spec};
ghost use Rattle.iceoryx2_journal.specs.declared.cleaning.GivenBack.TheVariants as given;
ghost use Rattle.iceoryx2_journal.specs.Logged.{IsLoggedPart};

use crate::log_recorder::LogRecorder;
use crate::parts;
use iceoryx2_access::storage::RemoveError;
use iceoryx2_log::log::Log;
use iceoryx2_table::holdings::Holding;
use iceoryx2_table::table::stored::StoredWorld;
use iceoryx2_world::world::Phase;
use std::error::Error;
use std::fmt;

/// What was given back for a node. Each count stops at `u64::MAX`.
#[derive(Clone, Copy, Debug, PartialEq, Eq)]
pub struct Cleaned {
    /// How many tickets were released.
    pub releases: u64,
    /// How many segments, descriptions, locks and tags were removed.
    pub removals: u64,
}

impl Cleaned {
    /// Returns counts of nothing.
    pub(crate) fn nothing() -> Cleaned
        ensures { result ≡ nothing_given }
    {
        Cleaned {
            releases: 0,
            removals: 0,
        }
    }

    /// Returns these counts with one more.
    pub(crate) fn with(self, given: GivenBack) -> Cleaned
        ensures { result ≡ with_one self (Some given) }
    {
        match given {
            GivenBack::Ticket => Cleaned {
                releases: self.releases.saturating_add(1),
                removals: self.removals,
            },
            GivenBack::Thing => Cleaned {
                releases: self.releases,
                removals: self.removals.saturating_add(1),
            },
        }
    }
}

/// One thing that was given back.
#[derive(Clone, Copy, Debug, PartialEq, Eq)]
pub enum GivenBack {
    /// A ticket.
    Ticket,
    /// A segment, what is written under a hash, or a tag.
    Thing,
}

/// The outcome of one step of cleaning.
#[derive(Clone, Copy, Debug, PartialEq, Eq)]
pub enum Step {
    /// Something was given back.
    Gave(GivenBack),
    /// There was nothing left.
    Finished,
    /// The log refused, or the journal is over. Nothing was given back.
    Refused,
}

/// Returns the step in which this was given back.
pub(crate) fn step_of(given: Option<GivenBack>) -> Step
    ensures { result ≡ step_with given }
{
    match given {
        Some(given) => Step::Gave(given),
        None => Step::Refused,
    }
}

/// Why a node isn't clean.
#[derive(Clone, Copy, Debug, PartialEq, Eq)]
pub enum CleanError {
    /// The node is an own one. Nothing was given back.
    IsOwn,
    /// The log can't be held, read or written, or the journal is over. Anything that was given back before stays so,
    /// and the node can be cleaned again.
    Refused,
}

/// Why a node doesn't become an own one. The own nodes stay.
#[derive(Clone, Copy, Debug, PartialEq, Eq)]
pub enum AdoptError {
    /// The log can't be held or read, or the journal is over.
    Refused,
    /// There was no memory.
    OutOfMemory,
}

impl fmt::Display for CleanError {
    ghost use Rattle.std.specs.Prelude.{Some};
    ghost use Rattle.iceoryx2_journal.specs.Cleaning.{clean_error_text};

    ghost output = { λ error. Some (clean_error_text error) };

    fn fmt<W: fmt::Write>(&self, f: &mut fmt::Formatter<W>) -> fmt::Result {
        match self {
            CleanError::IsOwn => write!(f, "the node is an own one"),
            CleanError::Refused => write!(f, "the log refused"),
        }
    }
}

impl Error for CleanError {}

impl fmt::Display for AdoptError {
    ghost use Rattle.std.specs.Prelude.{Some};
    ghost use Rattle.iceoryx2_journal.specs.Cleaning.{adopt_error_text};

    ghost output = { λ error. Some (adopt_error_text error) };

    fn fmt<W: fmt::Write>(&self, f: &mut fmt::Formatter<W>) -> fmt::Result {
        match self {
            AdoptError::Refused => write!(f, "the log refused"),
            AdoptError::OutOfMemory => write!(f, "out of memory"),
        }
    }
}

impl Error for AdoptError {}

/// Returns whether there is a segment that a node of this phase has to remove.
pub(crate) fn has_segment(phase: Phase) -> bool
    ensures { result ≡ has_segment_spec phase }
{
    match phase {
        Phase::Made(_) | Phase::Leaving(_) => true,
        _ => false,
    }
}

// Returns what was removed, if the removal was granted.
pub(crate) fn thing(removed: Result<(), RemoveError>) -> Option<GivenBack>
    ensures { result ≡ if_granted given.Thing removed }
{
    match removed {
        Ok(()) => Some(GivenBack::Thing),
        Err(_) => None,
    }
}

/// Gives back what the node has, by an access in its name. `None` if that is refused. The log is held before, and isn't
/// held after.
pub(crate) fn give_back<L: Log>(
    world: &mut StoredWorld,
    recorder: &mut LogRecorder<L>,
    node: u64,
    held: Holding,
) -> Option<GivenBack>
    ensures gives { (l : Letter) × GivesUp node held l × (given_back l ≡ result)
        × IsLoggedPart L.contents world.old l world.new recorder.old.log recorder.new.log }
    ensures free { L.held recorder.new.log ≡ false }
{
    match held {
        Holding::Ticket {
            ticket,
            hash,
            number,
        } => match parts::release(world, recorder, ticket, node, &hash, number) {
            Ok(_) => Some(GivenBack::Ticket),
            Err(_) => None,
        },
        Holding::Service { hash, phase } => {
            if has_segment(phase) {
                return thing(parts::remove_segment(world, recorder, node, &hash));
            }
            thing(parts::remove_description(world, recorder, node, &hash))
        }
        Holding::Tag { hash } => thing(parts::remove_tag(world, recorder, node, &hash)),
    }
}
