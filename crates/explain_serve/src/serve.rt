//! The whole program: an input, and its explanation.

ghost use Rattle.std.specs.Prelude.{◌≡◌, ℕ, List, Some};
ghost use Rattle.negotiate_serve.specs.Served.{ServesBy};
ghost use Rattle.explain_serve.specs.Answered.{Explains, ExplainsInput, first_state};

use crate::explainer::Explainer;
use crate::format::Format;
use negotiate_serve::ending::{Ending, ServeError};
use negotiate_serve::output::write_out;
use negotiate_serve::serve::{serve_by, write_failure};
use std::alloc::Global;
use std::io::{Read, Write};

/// Answers each line of an input as `negotiate` does, over a table of its own, and explains each reply in this format.
/// It writes nothing else, each answer before it reads the next line, and returns how it ended. Then it closes the
/// factories that are still open.
///
/// `ServeError` if the reader or the writer answers an error, if a count is at its end (`ServeError` tells which), or
/// if memory runs out outside a call, which is written.
pub fn serve<R: Read + Drop, W: Write>(
    alloc: Global,
    input: R,
    output: &mut W,
    format: Format,
) -> Result<Ending, ServeError>
    ensures { (bytes : List ℕ) → R.remaining input ≡ Some bytes
        → ExplainsInput format result bytes (W.contents output.old) (W.contents output.new) }
{
    write_out(format.head().as_bytes(), output)?;
    serve_lines(alloc, input, output, format)
}

/// Answers each line of an input over a table of its own, and explains each reply in this format.
fn serve_lines<R: Read + Drop, W: Write>(
    alloc: Global,
    input: R,
    output: &mut W,
    format: Format,
) -> Result<Ending, ServeError>
    ensures { (bytes : List ℕ) → R.remaining input ≡ Some bytes → (unread : List ℕ)
        × ServesBy (Explains format) first_state result bytes unread (W.contents output.old) (W.contents output.new) }
{
    match Explainer::new(alloc, format) {
        Ok(mut explainer) => {
            let ended = serve_by(alloc, input, output, &mut explainer);
            let _table = explainer.finish();
            ended
        }
        Err(_) => Err(write_failure(ServeError::OutOfMemory, output)),
    }
}
