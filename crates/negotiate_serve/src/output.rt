//! The program's output: one text after the other.

ghost use Rattle.std.specs.Prelude.{IfErr};
ghost use Rattle.std.specs.Io.KnownBytes.{Keeps};
ghost use Rattle.negotiate_serve.specs.Endings.{IsOfWriting};
ghost use Rattle.negotiate_serve.specs.Outputs.{Writes, TakesFront, TakesOnce};

use crate::ending::ServeError;
use std::io::{ErrorKind, Write};

/// Writes a text, and flushes it.
///
/// `ServeError` if the writer answers an error, takes nothing, or is interrupted 2^64 - 1 times in a row. It has then
/// taken a prefix of the text.
pub fn write_out<W: Write>(text: &[u8], output: &mut W) -> Result<(), ServeError>
    ensures { Writes text.now result (W.contents output.old) (W.contents output.new) }
{
    write_text(text, output)?;
    flush(output)
}

/// Writes a text, in as many pieces as the writer takes.
fn write_text<W: Write>(text: &[u8], output: &mut W) -> Result<(), ServeError>
    ensures { Writes text.now result (W.contents output.old) (W.contents output.new) }
{
    let mut rest = text;
    while !rest.is_empty() {
        let count = write_front(rest, output)?;
        rest = &rest[count..];
    }
    Ok(())
}

/// Writes a prefix of a text that isn't empty, and returns its length. An interrupted write is tried again.
fn write_front<W: Write>(text: &[u8], output: &mut W) -> Result<usize, ServeError>
    ensures { TakesFront text.now result (W.contents output.old) (W.contents output.new) }
{
    for _ in 0..u64::MAX {
        if let Some(count) = write_once(text, output)? {
            return Ok(count);
        }
    }
    Err(ServeError::TooManyTries)
}

/// Asks the writer once to take a text that isn't empty, and returns how much it took, or `None` if it was interrupted.
fn write_once<W: Write>(text: &[u8], output: &mut W) -> Result<Option<usize>, ServeError>
    ensures { TakesOnce text.now result (W.contents output.old) (W.contents output.new) }
{
    match output.write(text) {
        Ok(0) => Err(ServeError::Writing),
        Ok(count) => Ok(Some(count)),
        Err(error) => match error.kind() {
            ErrorKind::Interrupted => Ok(None),
            _ => Err(ServeError::Writing),
        },
    }
}

/// Flushes what was written. An interrupted flush is tried again.
fn flush<W: Write>(output: &mut W) -> Result<(), ServeError>
    ensures kept { Keeps (W.contents output.old) (W.contents output.new) }
    ensures err { IfErr result IsOfWriting }
{
    for _ in 0..u64::MAX {
        if flush_once(output)? {
            return Ok(());
        }
    }
    Err(ServeError::TooManyTries)
}

/// Asks the writer once to flush, and returns whether it did. It didn't if it was interrupted.
fn flush_once<W: Write>(output: &mut W) -> Result<bool, ServeError>
    ensures kept { Keeps (W.contents output.old) (W.contents output.new) }
    ensures err { IfErr result IsOfWriting }
{
    match output.flush() {
        Ok(()) => Ok(true),
        Err(error) => match error.kind() {
            ErrorKind::Interrupted => Ok(false),
            _ => Err(ServeError::Writing),
        },
    }
}
