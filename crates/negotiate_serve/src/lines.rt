//! How lines are answered: by which texts, and whether one ends the program.

ghost use Rattle.std.specs.Prelude.{◌≡◌, ℕ, List, IfOk, OnOk, false, string_bytes};
ghost use Rattle.negotiate_serve.specs.declared.ending.WrongLines.TheVariants as wrong;
ghost use Rattle.negotiate_serve.specs.Replies.{GrowsBy};
ghost use Rattle.negotiate_serve.specs.Served.{IsAnswerToWrong, GrowsByLine};
ghost use Rattle.negotiate_serve.specs.Transcripts.{AnsweringLines, IsReplyToWrong, LinesBy};

use crate::answerer::Answerer;
use crate::ending::WrongLines;
use negotiate_lines::line::{self, Line};
use negotiate_lines::line_error::LineError;
use negotiate_lines::wrong_text::wrong_text;
use std::alloc::AllocError;

/// Answers lines by an answerer.
pub trait Lines<A> {
    /// How a line is answered by a text, from a state of the answerer to the next one.
    ghost lines: { Self → AnsweringLines A };

    /// What holds of the answerer between two lines.
    ghost stands: { A → Type 0 };

    /// When a line that is no command ends the program.
    ghost ends_at_wrong: { Self → Type 0 };

    /// Writes the answer to one line, which has this number, into the text, and returns whether the program goes on.
    ///
    /// `AllocError` if memory runs out outside a call. The text may then have a part of the answer, and what holds of
    /// the answerer still does.
    fn answer_line(
        &self,
        number: u64,
        line: &[u8],
        answerer: &mut A,
        text: &mut String,
    ) -> Result<bool, AllocError>
        ensures answered { stands answerer.old → IfOk result (λ goes_on. GrowsByLine (lines self.now) goes_on
            answerer.old number line.now (string_bytes text.old) (string_bytes text.new) answerer.new) }
        ensures ends { IfOk result (λ goes_on. goes_on ≡ false → ends_at_wrong self.now) }
        ensures stands { stands answerer.old → stands answerer.new };
}

/// Plain lines: the answerer answers the commands, and wrong lines become this.
impl<A: Answerer> Lines<A> for WrongLines {
    ghost lines = { λ w. LinesBy w A.answers };

    ghost stands = { A.stands };

    ghost ends_at_wrong = { λ w. w ≡ wrong.End };

    fn answer_line(
        &self,
        number: u64,
        line: &[u8],
        answerer: &mut A,
        text: &mut String,
    ) -> Result<bool, AllocError> {
        let wrong_lines = *self;
        match line::parse(*text.allocator(), line)? {
            Line::Blank => Ok(true),
            Line::NotACommand(wrong) => answer_wrong(number, wrong_lines, wrong, text),
            Line::Command(command) => {
                answerer.answer(line, command, text)?;
                Ok(true)
            }
        }
    }
}

/// Writes what is written of a wrong line, and returns whether the program goes on.
fn answer_wrong(
    number: u64,
    wrong_lines: WrongLines,
    wrong: LineError<'_>,
    text: &mut String,
) -> Result<bool, AllocError>
    ensures { IfOk result (λ goes_on. GrowsBy (IsAnswerToWrong wrong_lines goes_on number wrong.entry)
        (string_bytes text.old) (string_bytes text.new)) }
{
    match wrong_lines {
        WrongLines::End => {
            writeln!(text, "line {number}: not a command")?;
            Ok(false)
        }
        WrongLines::Reply => {
            reply_wrong(wrong, "", text)?;
            Ok(true)
        }
        WrongLines::ReplyAndEmptyLine => {
            reply_wrong(wrong, "\n", text)?;
            Ok(true)
        }
    }
}

/// Writes the reply to a wrong line, and an end after it. `AllocError` if there is no memory.
pub fn reply_wrong(wrong: LineError<'_>, end: &str, text: &mut String) -> Result<(), AllocError>
    ensures { OnOk result (GrowsBy (IsReplyToWrong end.now wrong.entry)
        (string_bytes text.old) (string_bytes text.new)) }
{
    let told = wrong_text(*text.allocator(), wrong)?;
    write!(text, "error: {told}\n{end}")
}
