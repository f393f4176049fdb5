//! The reason why a log in a database refused.

ghost use Rattle.std.specs.Prelude.{◌≡◌, ◌++◌};
ghost use Rattle.iceoryx2_postgres_log.specs.Faults.{behind_words, fault_text, is_over_by, log_error_of, state_fault};
ghost use Rattle.iceoryx2_postgres_log.specs.declared.fault.PostgresFault.TheVariants.{OutOfMemory};
ghost use Rattle.iceoryx2_postgres_log.specs.declared.fault.PostgresFault.TheVariants as fault;
ghost use Rattle.iceoryx2_log.specs.declared.log.LogError.TheVariants as error;

use iceoryx2_log::log::LogError;
use std::alloc::AllocError;
use std::error::Error;
use std::fmt;

/// The reason why a log in a database refused.
#[derive(Clone, Copy, Debug, PartialEq, Eq)]
pub enum PostgresFault {
    /// Other handles held the log for as long as the patience allows.
    Busy,
    /// There was no memory for a question, or for the reply.
    OutOfMemory,
    /// The session has ended: a question could not be written, or the lines ended before the question's
    /// reply did.
    SessionEnded,
    /// The commit of an entry was asked for, and no reply told of it. Nobody knows whether the entry
    /// stands.
    Unsure,
    /// The reply tells something else than what was asked for.
    NotUnderstood,
    /// The database lacks the tables or the functions of the log.
    NoSchema,
    /// The tables are of another version.
    AnotherVersion { found: u64 },
    /// There is no log of this name.
    NoLog,
    /// The name isn't 1 to 63 of the letters, digits, `.`, `_` and `-` of ASCII, with a letter or a digit first.
    BadName,
    /// The role lacks a right.
    NoRight,
    /// The server, or the session, takes no writes.
    ReadOnly,
    /// The server tells this handle's place otherwise: the log went back in time, or another log has its
    /// name.
    AnotherHistory,
    /// The row of this number holds no entry.
    Damaged { number: u64 },
    /// The handle holds the log already.
    HeldAlready,
    /// The handle doesn't hold the log.
    NotHeld,
    /// Entries of other handles are unread, so nothing is appended yet.
    Unread,
    /// The body of an entry is longer than any body that is read.
    TooLong,
    /// The entry is a mark, which only a compaction writes.
    IsAMark,
    /// The log goes on in its next generation.
    Moved,
    /// A compaction would save too little.
    NothingSaved,
    /// The server refused by another SQLSTATE.
    Refused { state: [u8; 5] },
}

impl PostgresFault {
    /// Returns the fault's text, up to the number or the SQLSTATE in it.
    fn words(self) -> &'static str
        ensures { fault_text self ≡ result.now ++ behind_words self }
    {
        match self {
            PostgresFault::Busy => "others hold the log",
            PostgresFault::OutOfMemory => "out of memory",
            PostgresFault::SessionEnded => "the session with the database has ended",
            PostgresFault::Unsure => "an append was not confirmed and may stand in the log",
            PostgresFault::NotUnderstood => "the database answered something else",
            PostgresFault::NoSchema => "the database has no tables for logs",
            PostgresFault::AnotherVersion { found: _ } => "the tables are of version ",
            PostgresFault::NoLog => "the database has no log of this name",
            PostgresFault::BadName => "is no name of a log",
            PostgresFault::NoRight => "the role lacks a right",
            PostgresFault::ReadOnly => "the database is read-only",
            PostgresFault::AnotherHistory => "the log is not the one that was read before",
            PostgresFault::Damaged { number: _ } => "is damaged at entry ",
            PostgresFault::HeldAlready => "the log is held already",
            PostgresFault::NotHeld => "the log is not held",
            PostgresFault::Unread => "entries of others are unread",
            PostgresFault::TooLong => "an entry's body has at most 1048576 bytes",
            PostgresFault::IsAMark => "a mark is not appended",
            PostgresFault::Moved => "the log has moved",
            PostgresFault::NothingSaved => "a compaction would save too little",
            PostgresFault::Refused { state: _ } => "the database refused (SQLSTATE ",
        }
    }
}

impl fmt::Display for PostgresFault {
    ghost use Rattle.std.specs.Prelude.{Some};

    ghost output = { λ fault. Some (fault_text fault) };

    fn fmt<W: fmt::Write>(&self, f: &mut fmt::Formatter<W>) -> fmt::Result {
        let words = self.words();
        match self {
            PostgresFault::AnotherVersion { found: number } | PostgresFault::Damaged { number } =>
                write!(f, "{words}{number}"),
            PostgresFault::Refused { state } => write!(
                f,
                "{words}{}{}{}{}{})",
                char::from(state[0]),
                char::from(state[1]),
                char::from(state[2]),
                char::from(state[3]),
                char::from(state[4]),
            ),
            _ => write!(f, "{words}"),
        }
    }
}

impl Error for PostgresFault {}

impl From<AllocError> for PostgresFault {
    ghost from_gives = { λ _ e. e ≡ OutOfMemory };

    fn from(_: AllocError) -> Self {
        Self::OutOfMemory
    }
}

impl PostgresFault {
    /// Returns true if a handle that meets this fault asks nothing any more.
    pub fn is_over(self) -> bool
        ensures { result ≡ is_over_by self }
    {
        match self {
            PostgresFault::SessionEnded
            | PostgresFault::Unsure
            | PostgresFault::NotUnderstood
            | PostgresFault::NoSchema
            | PostgresFault::NoRight
            | PostgresFault::ReadOnly
            | PostgresFault::AnotherHistory => true,
            PostgresFault::Refused { state: _ } => true,
            _ => false,
        }
    }
}

/// Returns the fault that an SQLSTATE other than `00000` means.
pub fn fault_of_state(state: [u8; 5]) -> PostgresFault
    ensures { result ≡ state_fault state }
{
    if &state == b"55P03" {
        return PostgresFault::Busy;
    }
    if &state == b"3F000" || &state == b"42883" || &state == b"42P01" {
        return PostgresFault::NoSchema;
    }
    if &state == b"42501" {
        return PostgresFault::NoRight;
    }
    if &state == b"25006" {
        return PostgresFault::ReadOnly;
    }
    PostgresFault::Refused { state }
}

/// Returns the error that a log answers if its database refused for this fault.
pub fn log_error(why: PostgresFault) -> LogError
    ensures value { result ≡ log_error_of why }
    ensures busy { result ≡ error.Busy → why ≡ fault.Busy }
    ensures memory { result ≡ error.OutOfMemory → why ≡ fault.OutOfMemory }
    ensures moved { result ≡ error.Moved → why ≡ fault.Moved }
{
    match why {
        PostgresFault::Busy => LogError::Busy,
        PostgresFault::OutOfMemory => LogError::OutOfMemory,
        PostgresFault::Damaged { number: _ } => LogError::Damaged,
        PostgresFault::Moved => LogError::Moved,
        _ => LogError::Failed,
    }
}
