//! What goes wrong at a log.

ghost use Rattle.std.specs.Prelude.{◌≡◌, Option};
ghost use Rattle.wulameron_place.specs.declared.trouble.Trouble as declared;
ghost use Rattle.wulameron_place.specs.Troubles.{advice_of, database_advice_of, database_concern_of, file_concern_held_of};
ghost use Rattle.wulameron_place.specs.Troubles.{file_concern_of, is_cut, is_last, kind_advice_of, last_of, or_gone};
ghost use Rattle.wulameron_place.specs.Troubles.{trouble_of};

use iceoryx2_file_log::cursor::State;
use iceoryx2_file_log::error::FileFault;
use iceoryx2_file_log::file_log::FileLog;
use iceoryx2_journal::journal::Journal;
use iceoryx2_log::call_log::CallLog;
use iceoryx2_log::log::Log;
use iceoryx2_postgres_log::fault::PostgresFault;
use iceoryx2_postgres_log::postgres_log::PostgresLog;
use iceoryx2_testing::traced::Traced;
use std::fmt;
use std::fs::File;
use std::io::{BufRead, ErrorKind, Write};
use std::rt::Files;
use std::time::Clock;

/// What goes wrong at a log.
#[derive(Clone, Copy, PartialEq, Eq)]
pub enum Trouble {
    /// An entry is in the name of this program's node, or its world doesn't answer what it says. Nothing is followed or
    /// appended any more.
    Over,
    /// The log's file refused.
    Refused(FileFault),
    /// The database that has the log refused.
    Database(PostgresFault),
    /// The session with the database had ended, and meanwhile others released what this program's node had.
    Gone,
}

impl Trouble {
    /// Returns whether the log isn't used any more.
    pub fn is_last(self) -> bool
        ensures { result ≡ is_last self }
    {
        match self {
            Trouble::Over => true,
            Trouble::Refused(fault) => match fault {
                FileFault::Damaged { at: _ } => true,
                FileFault::Unsure => true,
                FileFault::Removed => true,
                _ => false,
            },
            Trouble::Database(fault) => match fault {
                PostgresFault::Damaged { number: _ } => true,
                _ => fault.is_over(),
            },
            Trouble::Gone => true,
        }
    }

    /// Returns whether a log in a database may go on in another session.
    pub fn is_cut(self) -> bool
        ensures { result ≡ is_cut self }
    {
        match self {
            Trouble::Database(fault) => match fault {
                PostgresFault::SessionEnded => true,
                PostgresFault::Unsure => true,
                PostgresFault::NotUnderstood => true,
                PostgresFault::ReadOnly => true,
                PostgresFault::Refused { state: _ } => true,
                _ => false,
            },
            _ => false,
        }
    }
}

/// Returns what can be done if the system refused with this kind.
fn kind_advice(kind: ErrorKind) -> &'static str
    ensures { result.now ≡ kind_advice_of kind }
{
    match kind {
        ErrorKind::NotFound => "make its folder, or name another file",
        ErrorKind::NotADirectory => "name another file",
        ErrorKind::InvalidFilename => "name another file",
        _ => "see whether its disk works",
    }
}

/// Returns what can be done if a file refused.
pub fn advice(fault: FileFault) -> &'static str
    ensures { result.now ≡ advice_of fault }
{
    match fault {
        FileFault::IsALink => "name the file itself",
        FileFault::IsAFolder => "name a file in it",
        FileFault::NotAFile => "name a file",
        FileFault::NotALog => "name another file",
        FileFault::AnotherVersion { found: _ } => "use a program of that version",
        FileFault::Damaged { at: _ } => "begin another log",
        FileFault::NoPermission => "let this user read and write it",
        FileFault::Busy => "try again, or with a longer --wait",
        FileFault::DiskFull => "make room, and try again",
        FileFault::OutOfMemory => "free memory, and try again",
        FileFault::TooLong => "give the service fewer attributes",
        FileFault::HeldAlready => "start the program again",
        FileFault::NotHeld => "start the program again",
        FileFault::ReadOnly => "start the program again",
        FileFault::Unread => "start the program again",
        FileFault::Unsure => "start the program again",
        FileFault::Moved => "try again",
        FileFault::Removed => "start the program again",
        FileFault::AnotherLog => "start the program again",
        FileFault::NothingSaved => "leave it",
        FileFault::Failed { kind } => kind_advice(kind),
    }
}

/// Returns what can be done if a database refused.
pub fn database_advice(fault: PostgresFault) -> &'static str
    ensures { result.now ≡ database_advice_of fault }
{
    match fault {
        PostgresFault::Busy => "try again, or with a longer --wait",
        PostgresFault::OutOfMemory => "free memory, and try again",
        PostgresFault::SessionEnded => "see whether the server runs, and start the program again",
        PostgresFault::Unsure => "start the program again",
        PostgresFault::NotUnderstood =>
            "start it by wulameron-postgres, with the server's messages in English",
        PostgresFault::NoSchema => "have its owner run schema.sql in it",
        PostgresFault::AnotherVersion { found: _ } => "use a program of that version",
        PostgresFault::NoLog => "name another log, or make it by `wulameron-postgres hold`",
        PostgresFault::BadName => "name it by letters, digits, points, dashes and underscores",
        PostgresFault::NoRight => "have its owner grant wulameron_node to the role",
        PostgresFault::ReadOnly => "connect to the server that takes writes",
        PostgresFault::AnotherHistory => "start the program again",
        PostgresFault::Damaged { number: _ } => "begin another log",
        PostgresFault::HeldAlready => "start the program again",
        PostgresFault::NotHeld => "start the program again",
        PostgresFault::IsAMark => "start the program again",
        PostgresFault::Unread => "start the program again",
        PostgresFault::TooLong => "give the service fewer attributes",
        PostgresFault::Moved => "try again",
        PostgresFault::NothingSaved => "leave it",
        PostgresFault::Refused { state: _ } => "see the server's log",
    }
}

impl fmt::Display for Trouble {
    ghost use Rattle.wulameron_place.specs.Troubles.{trouble_text};

    ghost output = { trouble_text };

    fn fmt<W: fmt::Write>(&self, f: &mut fmt::Formatter<W>) -> fmt::Result {
        match self {
            Trouble::Over => write!(
                f,
                "has an entry that this program can't follow; start it with a node of its own"
            ),
            Trouble::Refused(fault) => write!(f, "{fault}; {}", advice(*fault)),
            Trouble::Database(fault) => write!(f, "{fault}; {}", database_advice(*fault)),
            Trouble::Gone => write!(
                f,
                "the session had ended, and what this node held is gone; start the program again"
            ),
        }
    }
}

/// Returns what goes wrong if this is over, or its log refused last for this reason.
pub fn trouble_with(is_over: bool, refused: Option<Trouble>) -> Option<Trouble>
    ensures { result ≡ trouble_of is_over refused }
{
    if is_over {
        return Some(Trouble::Over);
    }
    refused
}

/// Returns that what was held may be gone, if so; otherwise this trouble, if any.
pub fn trouble_or_gone(is_gone: bool, trouble: Option<Trouble>) -> Option<Trouble>
    ensures { result ≡ or_gone is_gone trouble }
{
    match trouble {
        Some(trouble) => Some(trouble),
        None => {
            if is_gone {
                return Some(Trouble::Gone);
            }
            None
        }
    }
}

/// Returns what a user has to know of why a log in a file refused. Two reasons are left out, since the program goes on
/// by itself: that the log goes on in another file, and that a compaction would save too little.
fn file_concern(fault: Option<FileFault>) -> Option<Trouble>
    ensures { result ≡ file_concern_of fault }
{
    match fault {
        None => None,
        Some(FileFault::Moved) => None,
        Some(FileFault::NothingSaved) => None,
        Some(fault) => Some(Trouble::Refused(fault)),
    }
}

/// Does the same, except for damage that a handle of this state found while it didn't hold the log.
fn file_concern_held(state: State, fault: Option<FileFault>) -> Option<Trouble>
    ensures { result ≡ file_concern_held_of state fault }
{
    match fault {
        Some(FileFault::Damaged { at: _ }) => match state {
            State::Damaged { at: _ } => file_concern(fault),
            _ => None,
        },
        _ => file_concern(fault),
    }
}

/// Does the same for a log in a database.
fn database_concern(fault: Option<PostgresFault>) -> Option<Trouble>
    ensures { result ≡ database_concern_of fault }
{
    match fault {
        None => None,
        Some(PostgresFault::Moved) => None,
        Some(PostgresFault::NothingSaved) => None,
        Some(fault) => Some(Trouble::Database(fault)),
    }
}

/// Something over a log at which something may go wrong.
pub trait Troubled {
    /// What goes wrong there.
    ghost trouble: { Self → Option declared.Trouble };

    /// Returns what goes wrong there, or went wrong last.
    fn trouble(&self) -> Option<Trouble>
        ensures { result ≡ trouble self.now };
}

/// A log that keeps why it refused.
pub trait Refusing: Log {
    /// Why it refused last.
    ghost refused: { Self → Option declared.Trouble };

    /// Why it refused last, except for damage that was found while it wasn't held.
    ghost refused_held: { Self → Option declared.Trouble };

    /// Returns why it refused last.
    fn refused(&self) -> Option<Trouble>
        ensures { result ≡ refused self.now };

    /// Returns why it refused last, except for damage that was found while it wasn't held: others may have overwritten
    /// what a dead writer left. The next holder finds out.
    fn refused_held(&self) -> Option<Trouble>
        ensures { result ≡ refused_held self.now };
}

impl<R: Files<File = File> + Clock + AllocGlobal> Refusing for FileLog<R> {
    ghost refused = { λ log. file_concern_of log.fault };

    ghost refused_held = { λ log. file_concern_held_of log.cursor.state log.fault };

    fn refused(&self) -> Option<Trouble> {
        file_concern(self.fault())
    }

    fn refused_held(&self) -> Option<Trouble> {
        file_concern_held(self.state(), self.fault())
    }
}

// A row of a database is whole wherever it is read.
impl<R: BufRead, W: Write> Refusing for PostgresLog<R, W> {
    ghost refused = { λ log. database_concern_of log.fault };

    ghost refused_held = { λ log. database_concern_of log.fault };

    fn refused(&self) -> Option<Trouble> {
        database_concern(self.fault())
    }

    fn refused_held(&self) -> Option<Trouble> {
        database_concern(self.fault())
    }
}

// A caller holds it for each of its calls.
impl<L: Refusing> Refusing for CallLog<L> {
    ghost refused = { λ l. L.refused_held l.log };

    ghost refused_held = { λ l. L.refused_held l.log };

    fn refused(&self) -> Option<Trouble> {
        self.log().refused_held()
    }

    fn refused_held(&self) -> Option<Trouble> {
        self.log().refused_held()
    }
}

impl<S: Troubled> Troubled for Traced<S> {
    ghost trouble = { λ traced. S.trouble traced.inner };

    fn trouble(&self) -> Option<Trouble> {
        self.inner().trouble()
    }
}

impl<L: Refusing> Troubled for Journal<L> {
    ghost trouble = { λ journal. trouble_of journal.is_over (L.refused journal.log) };

    fn trouble(&self) -> Option<Trouble> {
        trouble_with(self.is_over(), self.log().refused())
    }
}

/// Returns what goes wrong, if it is the last of the log.
pub fn last_trouble(trouble: Option<Trouble>) -> Option<Trouble>
    ensures { result ≡ last_of trouble }
{
    match trouble {
        Some(trouble) => {
            if trouble.is_last() {
                return Some(trouble);
            }
            None
        }
        None => None,
    }
}
