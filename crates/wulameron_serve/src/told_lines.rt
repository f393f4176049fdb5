//! Answers lines if their log can become unusable after one.

ghost use Rattle.std.specs.Prelude.{OnOk, string_bytes};
ghost use Rattle.negotiate_serve.specs.Replies.{GrowsBy};
ghost use Rattle.wulameron_place.specs.Troubles.{last_of};
ghost use Rattle.wulameron_serve.specs.Lines.{IsTold, TellsTrouble};

use crate::telling::tell_trouble;
use negotiate_serve::lines::Lines;
use std::alloc::AllocError;
use wulameron_place::trouble::{Troubled, last_trouble};

/// Room for each reply except long ones. It is asked for before a command that changes something, so that there is
/// memory for its reply.
const SHORT_REPLY: usize = 256;

/// Answers lines. If the log can't be used any more after one, the reply tells why, instead of what it would be.
#[derive(Clone, Copy)]
pub struct ToldLines<I> {
    pub lines: I,
}

impl<A: Troubled, I: Lines<A>> Lines<A> for ToldLines<I> {
    ghost lines = { λ told. TellsTrouble A.trouble (I.lines told.lines) };

    ghost stands = { I.stands };

    ghost ends_at_wrong = { λ told. I.ends_at_wrong told.lines };

    fn answer_line(
        &self,
        number: u64,
        line: &[u8],
        answerer: &mut A,
        text: &mut String,
    ) -> Result<bool, AllocError> {
        let mut reply = String::with_capacity(*text.allocator(), SHORT_REPLY)?;
        let goes_on = self.lines.answer_line(number, line, answerer, &mut reply)?;
        if !goes_on {
            text.push_str(&reply)?;
            return Ok(false);
        }
        tell(answerer, &reply, text)?;
        Ok(true)
    }
}

/// Writes the reply, or why the log can't be used any more.
fn tell<A: Troubled>(answerer: &A, reply: &str, text: &mut String) -> Result<(), AllocError>
    ensures { OnOk result (GrowsBy (IsTold (last_of (A.trouble answerer.now)) reply.now)
        (string_bytes text.old) (string_bytes text.new)) }
{
    match last_trouble(answerer.trouble()) {
        Some(trouble) => tell_trouble(trouble, text),
        None => text.push_str(reply),
    }
}
