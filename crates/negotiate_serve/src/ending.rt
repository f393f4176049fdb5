//! How the program ends, and its status.

ghost use Rattle.std.specs.Prelude.{◌≡◌};
ghost use Rattle.std.specs.IoError.{error_kind};
ghost use Rattle.negotiate_serve.specs.Endings.{IsOfReading, failure_of_reading, reason_of, status_of};

use std::alloc::AllocError;
use std::io::{self, ErrorKind};

/// The status after all lines were answered.
pub const DONE: u8 = 0;

/// The status after a line that is no command.
pub const NOT_A_COMMAND: u8 = 2;

/// The status after a failure.
pub const FAULT: u8 = 3;

/// How the program ends if nothing fails.
#[derive(Debug, Drop, PartialEq, Eq)]
pub enum Ending {
    /// The input ended, and each of its lines was answered.
    InputEnded,
    /// A line is neither blank nor a command.
    NotACommand {
        /// Its number, counted from 1.
        number: u64,
        /// Its bytes, without its end.
        line: Vec<u8>,
    },
}

/// What becomes of lines that are neither blank nor a command.
#[derive(Clone, Copy)]
pub enum WrongLines {
    /// The first of them ends the program.
    End,
    /// Each has a reply: what is wrong with it.
    Reply,
    /// The same, with an empty line after the reply.
    ReplyAndEmptyLine,
}

/// What keeps the program from going on.
#[derive(Clone, Copy, Debug, PartialEq, Eq)]
pub enum ServeError {
    /// The reader answered an error, other than an interruption or that memory ran out.
    Reading,
    /// The writer answered an error other than an interruption, or took nothing of a text that isn't empty.
    Writing,
    /// 2^64 - 2 lines were answered. No further line is read.
    TooManyLines,
    /// The writer was interrupted 2^64 - 1 times, one after the other.
    TooManyTries,
    /// Memory ran out outside a call.
    OutOfMemory,
}

impl ServeError {
    /// Returns the failure of a read that failed. It tells apart that memory ran out.
    pub fn of_reading(error: &io::Error) -> ServeError
        ensures is { result ≡ failure_of_reading (error_kind error.now) }
        ensures of_reading { IsOfReading result }
    {
        match error.kind() {
            ErrorKind::OutOfMemory => ServeError::OutOfMemory,
            _ => ServeError::Reading,
        }
    }

    /// Returns what is written after the program's name, on the writer of errors.
    pub fn reason(self) -> &'static str
        ensures { result.now ≡ reason_of self }
    {
        match self {
            ServeError::Reading => ": reading failed\n",
            ServeError::Writing => ": writing failed\n",
            ServeError::TooManyLines => ": too many lines\n",
            ServeError::TooManyTries => ": interrupted too often\n",
            ServeError::OutOfMemory => ": out of memory\n",
        }
    }
}

impl From<AllocError> for ServeError {
    ghost use Rattle.negotiate_serve.specs.declared.ending.ServeError.TheVariants as failure;

    ghost from_gives = { λ _ given. given ≡ failure.OutOfMemory };

    fn from(_error: AllocError) -> ServeError {
        ServeError::OutOfMemory
    }
}

/// Returns the status with which the program ends.
pub fn status(ended: &Result<Ending, ServeError>) -> u8
    ensures { result ≡ status_of ended.now }
{
    match ended {
        Ok(Ending::InputEnded) => DONE,
        Ok(Ending::NotACommand { number: _, line: _ }) => NOT_A_COMMAND,
        Err(_) => FAULT,
    }
}
