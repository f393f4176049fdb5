//! A log that processes share.

ghost use Rattle.std.specs.Prelude.{◌≡◌, Option, Bool, true, false, IfOk, OnOk, OnErr};
ghost use Rattle.std.specs.Prelude.{if◌then◌else◌};
ghost use Rattle.iceoryx2_log.specs.declared.log.LogError.TheVariants.{OutOfMemory};
ghost use Rattle.iceoryx2_log.specs.Log.{Contents, WhereKnown, Grows, Shows, Accepts, Appends, is_shown};
ghost use Rattle.iceoryx2_log.specs.Log.{Rejoins, Compacts};

use crate::entry::Entry;
use std::alloc::{AllocError, AllocFailed};
use std::error::Error;
use std::fmt;

/// The reason why a log refused a call.
#[derive(Clone, Copy, Debug, PartialEq, Eq)]
pub enum LogError {
    /// Other handles held the log for as long as the call tried.
    Busy,
    /// There was no memory.
    OutOfMemory,
    /// The log isn't held, entries of other handles are unread, or the file or other medium of the log
    /// refused.
    Failed,
    /// The content of the log is not a list of entries.
    Damaged,
    /// The log goes on in another place, where `rejoin` finds it.
    Moved,
}

impl fmt::Display for LogError {
    ghost use Rattle.std.specs.Prelude.{Some};
    ghost use Rattle.iceoryx2_log.specs.Errors.{log_error_text};

    ghost output = { λ error. Some (log_error_text error) };

    fn fmt<W: fmt::Write>(&self, f: &mut fmt::Formatter<W>) -> fmt::Result {
        match self {
            LogError::Busy => write!(f, "others hold the log"),
            LogError::OutOfMemory => write!(f, "out of memory"),
            LogError::Failed => write!(f, "the log refused"),
            LogError::Damaged => write!(f, "the log is damaged"),
            LogError::Moved => write!(f, "the log has moved"),
        }
    }
}

impl Error for LogError {}

impl From<AllocError> for LogError {
    ghost from_gives = { λ _ e. e ≡ OutOfMemory };

    fn from(_: AllocError) -> Self {
        Self::OutOfMemory
    }
}

impl<T: Drop> From<AllocFailed<T>> for LogError {
    ghost from_gives = { λ _ e. e ≡ OutOfMemory };

    fn from(_: AllocFailed<T>) -> Self {
        Self::OutOfMemory
    }
}

/// A handle of a log of entries that processes share. A handle takes over the entries of all other
/// handles in order, one at a time, by `next` and `accept`. It appends its own entries behind them.
/// Between `hold` and `let_go`, or a `pause` that lets go of the log, no other handle appends.
pub trait Log {
    /// The entries that this handle has taken over or appended in its current place, in order, and the
    /// entries behind them, if these are known.
    ghost contents: { Self → Option Contents };

    /// True if this handle holds the log.
    ghost held: { Self → Bool };

    /// True if `next` has shown the entry that `accept` takes over.
    ghost shown: { Self → Bool };

    /// Holds the log until `let_go`. `Busy` if other handles held the log for all of a bounded time.
    /// Returns an `Err` if this handle holds the log already.
    fn hold(&mut self) -> Result<(), LogError>
        // What others appended stands behind what was unread before.
        ensures ok { OnOk result (WhereKnown Grows (contents self.old) (contents self.new)) }
        ensures err { OnErr result (contents self.new ≡ contents self.old) }
        ensures was_free { OnOk result (held self.old ≡ false) }
        ensures held { OnOk result (held self.new ≡ true) }
        ensures held_err { OnErr result (held self.new ≡ held self.old) };

    /// Measures how far the log goes, and holds the log only for as long as that takes. Until the next
    /// `hold` or `let_go`, `next` shows the entries that the log had at that moment, though the log isn't
    /// held. `Busy` if other handles held the log for all of a bounded time. Returns an `Err` if this
    /// handle holds the log.
    fn look(&mut self) -> Result<(), LogError>
        ensures ok { OnOk result (WhereKnown Grows (contents self.old) (contents self.new)) }
        ensures err { OnErr result (contents self.new ≡ contents self.old) }
        ensures was_free { OnOk result (held self.old ≡ false) }
        ensures held { held self.new ≡ held self.old };

    /// Returns the next entry of another handle, which stays unread. `Failed` if the log is neither held
    /// nor was looked at. `Moved` if the log goes on in another place.
    fn next(&mut self) -> Result<Option<Entry>, LogError>
        ensures shows { IfOk result (λ found. WhereKnown (Shows found) (contents self.old) (contents self.new)) }
        ensures same { contents self.new ≡ contents self.old }
        ensures held { held self.new ≡ held self.old }
        ensures shown { shown self.new ≡ is_shown result };

    /// Takes over the entry that `next` has shown, after it has had its effect. From then on the entry is
    /// read. Takes nothing over if no entry was shown.
    fn accept(&mut self)
        ensures shown { shown self.old ≡ true → WhereKnown Accepts (contents self.old) (contents self.new) }
        ensures none { shown self.old ≡ false → contents self.new ≡ contents self.old }
        ensures once { shown self.new ≡ false }
        ensures held { held self.new ≡ held self.old };

    /// Appends an entry: all of it, or nothing. From then on the entry stays, whatever becomes of this
    /// handle. `Failed` if the log isn't held, or if an entry is unread.
    fn append(&mut self, entry: &Entry) -> Result<(), LogError>
        ensures ok { OnOk result (WhereKnown (Appends entry.now) (contents self.old) (contents self.new)) }
        ensures err { OnErr result (contents self.new ≡ contents self.old) }
        ensures was_held { OnOk result (held self.old ≡ true) }
        ensures held { held self.new ≡ held self.old };

    /// Lets go of the log.
    fn let_go(&mut self)
        ensures same { contents self.new ≡ contents self.old }
        ensures held { held self.new ≡ false };

    /// Lets go of the log and waits for a short time, so that other handles may append. The pauses of one
    /// wait are numbered from 0. Returns false if the wait is over; the log then stays as it was, held or
    /// not.
    fn pause(&mut self, number: u64) -> bool
        ensures same { contents self.new ≡ contents self.old }
        ensures held { held self.new ≡ (if result then false else held self.old) };

    // ---- compaction: the log goes on in another place, which begins with a snapshot

    /// Goes to the place where the log goes on now, and stands before its first entry. If the log was
    /// held, it is held in the new place; if it was looked at, it is looked at there. Returns the number
    /// with which the counter begins there. `Failed` if the log is neither held nor was looked at. An
    /// `Err` leaves this handle where it was.
    fn rejoin(&mut self) -> Result<u64, LogError>
        ensures ok { IfOk result (λ counter. WhereKnown (Rejoins counter) (contents self.old) (contents self.new)) }
        ensures err { OnErr result (contents self.new ≡ contents self.old) }
        ensures held { held self.new ≡ held self.old };

    /// Returns true if the next entry belongs to the snapshot with which the place begins.
    fn is_in_snapshot(&self) -> bool;

    /// Returns true if the log has grown so long that a compaction may be worth it.
    fn is_long(&self) -> bool;

    /// Continues the log in another place, which begins with these entries and with the counter from 0
    /// on. All handles find that place from now on, and this handle stands behind the entries. `Failed`
    /// if the log isn't held, if an entry is unread, or if the compaction would save too little. An `Err`
    /// leaves this handle where it was.
    fn compact(&mut self, snapshot: &[Entry]) -> Result<(), LogError>
        ensures ok { OnOk result (WhereKnown (Compacts snapshot.now) (contents self.old) (contents self.new)) }
        ensures err { OnErr result (contents self.new ≡ contents self.old) }
        ensures held { held self.new ≡ held self.old };

    /// Puts the next compaction off: it is worth a try only later.
    fn put_off_compaction(&mut self)
        ensures same { contents self.new ≡ contents self.old }
        ensures held { held self.new ≡ held self.old };
}
