//! A session over a table, and the reply to its last line.

ghost use Rattle.std.specs.Prelude.{OnOk};
ghost use Rattle.wulameron_c.specs.TableSessions.{AnswersInto, IsFresh, Replies, Stands, WritesReply};

use crate::{DONE, OUT_OF_MEMORY, TOO_SMALL};
use escaped_serve::answerer::TableAnswerer;
use escaped_serve::lines::EscapedLines;
use negotiate_serve::lines::Lines;
use std::alloc::{AllocError, Global};

/// Room for each reply but those that tell of descriptions and listings. So that there is memory for the reply to a line
/// that changes something, it is asked for before.
const SHORT_REPLY: usize = 512;

/// A session over a table of its own, and the reply to the last line. What it holds is closed where it is let go.
#[derive(Drop)]
pub struct TableSession {
    answerer: TableAnswerer,
    reply: String,
}

impl TableSession {
    /// A session over a new table, of which nothing was asked.
    pub(crate) fn new(alloc: Global) -> TableSession
        ensures { IsFresh result }
    {
        TableSession {
            answerer: TableAnswerer::new(alloc),
            reply: String::new(alloc),
        }
    }

    /// Answers a line, and keeps the reply until the next one. `AllocError` where memory runs out, after which there is
    /// none.
    fn answer(&mut self, line: &[u8]) -> Result<(), AllocError>
        ensures answered { Stands self.old → OnOk result (Replies line.now self.old self.new) }
        ensures stands { Stands self.old → Stands self.new }
    {
        self.reply.clear();
        self.reply.reserve(SHORT_REPLY)?;
        EscapedLines.answer_line(1, line, &mut self.answerer, &mut self.reply)?;
        Ok(())
    }

    /// Answers a line, unless it has no bytes, and writes the reply into its place.
    pub(crate) fn answer_into(&mut self, line: &[u8], output: &mut [u8], written: &mut usize) -> u32
        ensures { AnswersInto line.now self.old result output.old written.old self.new output.new written.new }
    {
        if line.is_empty() {
            return write_reply(self.reply.as_bytes(), output, written);
        }
        match self.answer(line) {
            Ok(()) => write_reply(self.reply.as_bytes(), output, written),
            Err(_) => {
                self.reply.clear();
                OUT_OF_MEMORY
            }
        }
    }
}

/// Writes a reply into its place, where it fits, and its length in either case. `TOO_SMALL` where it has more bytes than
/// the place, which is as it was then.
fn write_reply(reply: &[u8], output: &mut [u8], written: &mut usize) -> u32
    ensures { WritesReply reply.now output.old result output.new written.new }
{
    let length = reply.len();
    *written = length;
    if output.len() < length {
        return TOO_SMALL;
    }
    output[..length].copy_from_slice(reply);
    DONE
}
