//! Answers lines as long as the log can be used.

ghost use Rattle.std.specs.Prelude.{◌≡◌, ℕ, List, Some, IfOk};
ghost use Rattle.negotiate_serve.specs.Served.{AnswersAll, ServesLines};
ghost use Rattle.negotiate_serve.specs.Transcripts.{MayEnd};
ghost use Rattle.wulameron_serve.specs.Lines.{AnswersWhileUsable, IsEndOf, IsUsable, seen_as};

use negotiate_serve::answer::{Buffers, answer_next};
use negotiate_serve::ending::{Ending, ServeError};
use negotiate_serve::lines::Lines;
use negotiate_serve::serve::write_failure;
use std::io::{BufRead, BufReader, Read, Write};
use wulameron_place::halt::Halt;
use wulameron_place::reports::Reports;
use wulameron_place::trouble::Troubled;

/// Answers each line of an input until the input ends as in `serve_by`, or the log can't be used any more. It writes
/// these answers and nothing else. After a line at which something goes wrong at the log, it tells that.
pub fn answer_until<A: Troubled, L: Lines<A>, R: Read + Drop, W: Write, E: Write>(
    input: R,
    output: &mut W,
    answerer: &mut A,
    reports: &mut Reports<'_, E>,
    lines: &L,
) -> Result<Ending, Halt>
    requires stands { L.stands answerer.old }
    requires usable { IsUsable (A.trouble answerer.old) }
    ensures serves { (bytes : List ℕ) → R.remaining input ≡ Some bytes → (unread : List ℕ)
        × ServesLines (AnswersWhileUsable A.trouble (L.lines lines.now)) answerer.old (seen_as result)
        bytes unread (W.contents output.old) (W.contents output.new) }
    ensures may_end { IfOk result (MayEnd (L.ends_at_wrong lines.now)) }
    ensures stands { L.stands answerer.new }
    ensures log { IsEndOf (A.trouble answerer.new) result }
{
    match BufReader::new(reports.alloc(), input) {
        Ok(mut reader) => answer_each(&mut reader, output, answerer, reports, lines),
        Err(error) => {
            let fault = write_failure(ServeError::of_reading(&error), output);
            Err(Halt::Serving(fault))
        }
    }
}

/// Answers each line that a reader has left, and writes a failure.
fn answer_each<A: Troubled, L: Lines<A>, R: BufRead, W: Write, E: Write>(
    reader: &mut R,
    output: &mut W,
    answerer: &mut A,
    reports: &mut Reports<'_, E>,
    lines: &L,
) -> Result<Ending, Halt>
    requires stands { L.stands answerer.old }
    requires usable { IsUsable (A.trouble answerer.old) }
    ensures serves { (input : List ℕ) → R.remaining reader.old ≡ Some input → (unread : List ℕ)
        × ServesLines (AnswersWhileUsable A.trouble (L.lines lines.now)) answerer.old (seen_as result)
        input unread (W.contents output.old) (W.contents output.new) }
    ensures may_end { IfOk result (MayEnd (L.ends_at_wrong lines.now)) }
    ensures stands { L.stands answerer.new }
    ensures log { IsEndOf (A.trouble answerer.new) result }
{
    match answer_lines(reader, output, answerer, reports, lines) {
        Ok(ending) => Ok(ending),
        Err(halt) => match halt {
            Halt::Log(trouble) => Err(Halt::Log(trouble)),
            Halt::Owing => Err(Halt::Owing),
            Halt::Serving(fault) => {
                let fault = write_failure(fault, output);
                Err(Halt::Serving(fault))
            }
        },
    }
}

/// Answers line after line. A failure isn't written here.
fn answer_lines<A: Troubled, L: Lines<A>, R: BufRead, W: Write, E: Write>(
    reader: &mut R,
    output: &mut W,
    answerer: &mut A,
    reports: &mut Reports<'_, E>,
    lines: &L,
) -> Result<Ending, Halt>
    requires stands { L.stands answerer.old }
    requires usable { IsUsable (A.trouble answerer.old) }
    ensures answered { (input : List ℕ) → R.remaining reader.old ≡ Some input
        → AnswersAll (AnswersWhileUsable A.trouble (L.lines lines.now)) answerer.old (seen_as result) input
        (R.remaining reader.new) (W.contents output.old) (W.contents output.new) }
    ensures may_end { IfOk result (MayEnd (L.ends_at_wrong lines.now)) }
    ensures stands { L.stands answerer.new }
    ensures log { IsEndOf (A.trouble answerer.new) result }
{
    let mut buffers = Buffers::new(reports.alloc());
    for number in 1..u64::MAX {
        let ending = answer_next(number, lines, reader, output, answerer, &mut buffers)?;
        if let Some(ending) = ending {
            return Ok(ending);
        }
        if let Some(trouble) = reports.look(answerer) {
            return Err(Halt::Log(trouble));
        }
    }
    Err(Halt::Serving(ServeError::TooManyLines))
}
