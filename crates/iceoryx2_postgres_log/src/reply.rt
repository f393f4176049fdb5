//! A question, and the lines of its reply.

ghost use Rattle.std.specs.Prelude.{◌≡◌, ◌++◌, ◌∷◌, ◌≢◌, ◌⊎◌, [], Err, IfOk, IfSome, OnOk, OnErr, IsTrue, All};
ghost use Rattle.std.specs.Prelude.{◌≤◌, length};
ghost use Rattle.std.specs.Io.KnownBytes.{Appends, Consumes};
ghost use Rattle.iceoryx2_postgres_log.specs.declared.fault.PostgresFault.TheVariants as fault;
ghost use Rattle.iceoryx2_postgres_log.specs.Replies.{Hears, IsPart, IsExactly, EndsWith, Refuses};

use crate::fault::{PostgresFault, fault_of_state};
use crate::line::{Line, behind, is_same};
use std::alloc::Global;
use std::io::{BufRead, Write};

/// The lines of a reply: its rows, and the line that ends it.
#[derive(Debug)]
pub struct Reply {
    pub rows: Vec<Line>,
    pub end: Line,
}

// Written out, so that a proof of what lets one go doesn't take its fields apart.
impl Drop for Reply {
    fn drop(self) {
        let Reply { rows: _, end: _ } = self;
    }
}

impl Reply {
    /// Returns the only row, if there is exactly one, and this is the end.
    pub fn only_row(self, end: &[u8]) -> Option<Line>
        ensures { IfSome result (λ row. (self.rows.items ≡ row ∷ []) × (self.end ≡ end.now)) }
    {
        let Reply {
            mut rows,
            end: found,
        } = self;
        if found.as_slice() != end {
            return None;
        }
        let row = rows.pop()?;
        if rows.is_empty() { Some(row) } else { None }
    }

    /// Returns true if this is the end.
    pub fn ends(&self, end: &[u8]) -> bool
        ensures { IsTrue result → self.now.end ≡ end.now }
    {
        is_same(self.end.as_slice(), end)
    }

    /// Returns true if the reply is this row alone, and this end.
    pub fn is_exactly(&self, row: &[u8], end: &[u8]) -> bool
        ensures { IsTrue result → IsExactly self.now.rows.items self.now.end row.now end.now }
    {
        match self.rows.as_slice() {
            [only] => is_same(only.as_slice(), row) && is_same(self.end.as_slice(), end),
            _ => false,
        }
    }

    /// Returns true if the reply has at most two rows, whatever they tell, and this end.
    pub fn is_short(&self, end: &[u8]) -> bool
        ensures { IsTrue result → (length self.now.rows.items ≤ 2) × (self.now.end ≡ end.now) }
    {
        if self.rows.len() > 2 {
            return false;
        }
        is_same(self.end.as_slice(), end)
    }

    /// Returns the SQLSTATE of the last line, if that line is the mark, a space and five bytes.
    pub fn state(&self, mark: &[u8]) -> Option<[u8; 5]>
        ensures { IfSome result (λ state. EndsWith mark.now self.now.end state) }
    {
        let rest = behind(self.end.as_slice(), mark)?;
        let state = behind(rest, b" ")?;
        match <[u8; 5]>::try_from(state) {
            Ok(state) => Some(state),
            Err(_) => None,
        }
    }

    /// Returns the fault by which the server refused: the reply is one row, and the mark with another
    /// SQLSTATE than `00000`. Else returns `NotUnderstood`.
    pub fn refusal(&self, mark: &[u8]) -> PostgresFault
        ensures { (result ≡ fault.NotUnderstood) ⊎ Refuses mark.now self.now.rows.items self.now.end result }
    {
        let Some(state) = self.state(mark) else {
            return PostgresFault::NotUnderstood;
        };
        if &state == b"00000" {
            return PostgresFault::NotUnderstood;
        }
        if self.rows.len() != 1 {
            return PostgresFault::NotUnderstood;
        }
        fault_of_state(state)
    }
}

/// Writes a question, all of it. An `Err` is `SessionEnded`: nobody knows whether the question had its
/// effect.
pub fn write_question<W: Write>(questions: &mut W, question: &[u8]) -> Result<(), PostgresFault>
    ensures ok { OnOk result (Appends (W.contents questions.old) (W.contents questions.new) question.now) }
    ensures err { OnErr result (result ≡ Err fault.SessionEnded) }
{
    match questions.write_all(question) {
        Ok(()) => {}
        Err(_) => return Err(PostgresFault::SessionEnded),
    }
    match questions.flush() {
        Ok(()) => Ok(()),
        Err(_) => Err(PostgresFault::SessionEnded),
    }
}

/// Reads the next line.
fn read_line<R: BufRead>(alloc: Global, replies: &mut R) -> Result<Line, PostgresFault>
    ensures all { IfOk result
        (λ line. Consumes (R.remaining replies.old) (R.remaining replies.new) (line ++ 10 ∷ [])) }
    ensures one { IfOk result IsPart }
    ensures err { OnErr result (result ≡ Err fault.SessionEnded) }
{
    let mut bytes = Vec::new(alloc);
    match replies.read_until(b'\n', &mut bytes) {
        Ok(_) => {}
        Err(_) => return Err(PostgresFault::SessionEnded),
    }
    match bytes.pop() {
        Some(b'\n') => Ok(Line::new(bytes)),
        _ => Err(PostgresFault::SessionEnded),
    }
}

/// Reads the lines up to the first one that begins with the mark.
fn read_reply<R: BufRead>(
    alloc: Global,
    mark: &[u8],
    replies: &mut R,
) -> Result<Reply, PostgresFault>
    ensures ok { IfOk result (λ reply.
        Hears mark.now reply.rows.items reply.end (R.remaining replies.old) (R.remaining replies.new)) }
    ensures err { OnErr result (result ≡ Err fault.SessionEnded) }
{
    let mut rows = Vec::new(alloc);
    for _round in 0..u64::MAX {
        let line = read_line(alloc, replies)?;
        if line.as_slice().starts_with(mark) {
            return Ok(Reply { rows, end: line });
        }
        match rows.push(line) {
            Ok(()) => {}
            Err(_) => return Err(PostgresFault::SessionEnded),
        }
    }
    Err(PostgresFault::SessionEnded)
}

/// Asks, and reads the lines up to the first one that begins with the mark. An `Err` is `SessionEnded`:
/// the question was not written, the lines ended before its reply did, or there was no memory for them.
/// Nobody knows then whether the question had its effect, and the session is used no more.
pub fn ask<R: BufRead, W: Write>(
    alloc: Global,
    question: &[u8],
    mark: &[u8],
    questions: &mut W,
    replies: &mut R,
) -> Result<Reply, PostgresFault>
    ensures asked { OnOk result (Appends (W.contents questions.old) (W.contents questions.new) question.now) }
    ensures heard { IfOk result (λ reply.
        Hears mark.now reply.rows.items reply.end (R.remaining replies.old) (R.remaining replies.new)) }
    ensures err { OnErr result (result ≡ Err fault.SessionEnded) }
{
    match write_question(questions, question) {
        Ok(()) => {}
        Err(_) => return Err(PostgresFault::SessionEnded),
    }
    read_reply(alloc, mark, replies)
}
