//! The whole program: an input, and its transcript.

ghost use Rattle.std.specs.Prelude.{◌≡◌, ℕ, List, Some};
ghost use Rattle.negotiate_serve.specs.Served.{HasNothing, WritesFailure, Serves, ServesBy};

use crate::answer::answer_lines;
use crate::answerer::Answerer;
use crate::ending::{Ending, ServeError};
use crate::output::write_out;
use iceoryx2_description::config::Config;
use iceoryx2_session::session::Session;
use iceoryx2_table::table::Table;
use std::alloc::Global;
use std::io::{BufReader, Read, Write};

/// Answers each line of an input, over a table of its own. It writes the input's transcript and nothing else, each
/// reply before it reads the next line, and returns how it ended. Then it closes the factories that are still open.
///
/// `ServeError` if the reader or the writer answers an error, if a count is at its end (`ServeError` tells which), or
/// if memory runs out outside a call. The writer has then taken a prefix of a transcript. If memory ran out, `out of
/// memory` follows it.
pub fn serve<R: Read + Drop, W: Write>(
    alloc: Global,
    input: R,
    output: &mut W,
) -> Result<Ending, ServeError>
    ensures { (bytes : List ℕ) → R.remaining input ≡ Some bytes → (unread : List ℕ)
        × Serves result bytes unread (W.contents output.old) (W.contents output.new) }
{
    let (ended, _table) = serve_session(alloc, input, output);
    ended
}

/// Answers each line of an input over a table of its own, and returns the table, in which nothing is left.
fn serve_session<R: Read + Drop, W: Write>(
    alloc: Global,
    input: R,
    output: &mut W,
) -> (Result<Ending, ServeError>, Table)
    ensures serves { (bytes : List ℕ) → R.remaining input ≡ Some bytes → (unread : List ℕ)
        × Serves result.0 bytes unread (W.contents output.old) (W.contents output.new) }
    ensures finished { HasNothing result.1 }
{
    let config = Config::default();
    let table = Table::new(alloc);
    let mut session = Session::new(config, table);
    let ended = serve_by(alloc, input, output, &mut session);
    (ended, session.finish())
}

/// Answers each line of an input by an answerer. It writes what this answers to the input and nothing else, each answer
/// before it reads the next line, and returns how it ended.
///
/// `ServeError` as `serve` does.
pub fn serve_by<A: Answerer, R: Read + Drop, W: Write>(
    alloc: Global,
    input: R,
    output: &mut W,
    answerer: &mut A,
) -> Result<Ending, ServeError>
    requires { A.stands answerer.old }
    ensures serves { (bytes : List ℕ) → R.remaining input ≡ Some bytes → (unread : List ℕ) × ServesBy A.answers
        answerer.old result bytes unread (W.contents output.old) (W.contents output.new) }
    ensures stands { A.stands answerer.new }
{
    match BufReader::new(alloc, input) {
        Ok(mut reader) => match answer_lines(alloc, &mut reader, output, answerer) {
            Ok(ending) => Ok(ending),
            Err(failure) => Err(write_failure(failure, output)),
        },
        Err(error) => Err(write_failure(ServeError::of_reading(&error), output)),
    }
}

/// Writes `out of memory` if that is the failure. If it can't be written, writing is the failure.
pub fn write_failure<W: Write>(failure: ServeError, output: &mut W) -> ServeError
    ensures { WritesFailure failure result (W.contents output.old) (W.contents output.new) }
{
    match failure {
        ServeError::OutOfMemory => match write_out(b"out of memory\n", output) {
            Ok(()) => ServeError::OutOfMemory,
            Err(writing) => writing,
        },
        _ => failure,
    }
}
