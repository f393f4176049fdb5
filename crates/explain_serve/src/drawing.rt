//! What is printed of a reply in a diagram.

ghost use Rattle.std.specs.Prelude.{◌≡◌, OnOk, string_bytes};
ghost use Rattle.negotiate_lines.specs.Lines.{without_last};
ghost use Rattle.negotiate_serve.specs.Replies.{GrowsBy};
ghost use Rattle.explain_serve.specs.Explained.{IsTextInDiagram};

use crate::diagram::{draw_accesses, draw_note};
use iceoryx2_builder::command::Reply;
use iceoryx2_testing::traced::Traced;
use negotiate_serve::reply::describe;
use std::alloc::AllocError;

/// Writes the accesses that a command made, which are the latest of the storage, as messages, and the reply as a note.
/// An access that names no node is of this one.
///
/// `AllocError` if memory runs out. The text may then have a part of this.
pub fn draw_reply<S>(
    node: u64,
    slot: usize,
    reply: &Reply,
    made: u64,
    traced: &Traced<S>,
    text: &mut String,
) -> Result<(), AllocError>
    ensures { OnOk result (GrowsBy (IsTextInDiagram node slot reply.now made traced.now)
        (string_bytes text.old) (string_bytes text.new)) }
{
    draw_accesses(traced, made, node, text)?;
    let mut reply_text = String::new(*text.allocator());
    describe(reply, slot, &mut reply_text)?;
    draw_note(without_line_feed(&reply_text), text)
}

/// Returns the text without one line feed at its end.
fn without_line_feed(text: &str) -> &str
    ensures { result.now ≡ without_last 10 text.now }
{
    match text.strip_suffix('\n') {
        Some(front) => front,
        None => text,
    }
}
