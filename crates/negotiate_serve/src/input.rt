//! The program's input, line by line.

ghost use Rattle.std.specs.Prelude.{◌≡◌, ℕ, List, Some, IfOk, IfErr};
ghost use Rattle.negotiate_serve.specs.Endings.{IsOfReading};
ghost use Rattle.negotiate_serve.specs.Inputs.{ReadsLine};

use crate::ending::ServeError;
use negotiate_lines::line::without_end;
use std::io::BufRead;

/// Reads the next line, without its end, into `line` instead of what that held, and returns whether there was one.
///
/// `ServeError` if the reader answers an error, or there is no memory for the line. An interrupted read is tried again.
/// Don't use the reader after a failure.
pub fn next_line<R: BufRead>(reader: &mut R, line: &mut Vec<u8>) -> Result<bool, ServeError>
    ensures read { IfOk result (λ found. (input : List ℕ) → R.remaining reader.old ≡ Some input
        → ReadsLine input found line.new.items (R.remaining reader.new)) }
    ensures err { IfErr result IsOfReading }
{
    line.clear();
    match reader.read_until(b'\n', line) {
        Ok(0) => Ok(false),
        Ok(_) => {
            let length = without_end(line).len();
            line.truncate(length);
            Ok(true)
        }
        Err(error) => Err(ServeError::of_reading(&error)),
    }
}
