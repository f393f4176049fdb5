//! Tells a program that starts the former session, in frames, that it is gone.

ghost use Rattle.std.specs.Prelude.{◌≡◌};
ghost use Rattle.wulameron_serve.specs.Gone.{gone_line, other_version};
ghost use Rattle.wulameron_serve.specs.Telling.{IsTaken};

use negotiate_serve::ending::NOT_A_COMMAND;
use negotiate_serve::output::write_out;
use std::io::Write;

/// The text for the writer of errors.
const GONE: &str =
    "wulameron: there is no command session; start wulameron run --escaped, and write lines to it\n";

/// A frame whose version no former library has: the number 0, the number 2, and forty zero bytes.
const OTHER_VERSION: [u8; 48] = [
    0, 0, 0, 0, 2, 0, 0, 0, 0, 0, 0, 0, 0, 0, 0, 0, 0, 0, 0, 0, 0, 0, 0, 0, 0, 0, 0, 0, 0, 0, 0, 0,
    0, 0, 0, 0, 0, 0, 0, 0, 0, 0, 0, 0, 0, 0, 0, 0,
];

/// Tells that there are no sessions in frames any more, to a reader of lines and to a former library, and returns the
/// status. What can't be written is left out.
pub fn refuse_session<W: Write, E: Write>(output: &mut W, errors: &mut E) -> u8
    ensures status { result ≡ 2 }
    ensures told { IsTaken gone_line (E.contents errors.old) (E.contents errors.new) }
    ensures version { IsTaken other_version (W.contents output.old) (W.contents output.new) }
{
    let _ = write_out(GONE.as_bytes(), errors);
    let _ = write_out(&OTHER_VERSION, output);
    NOT_A_COMMAND
}
