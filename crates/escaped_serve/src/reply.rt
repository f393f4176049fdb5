//! The texts of replies to commands in an escaped session.

ghost use Rattle.std.specs.Prelude.{◌≡◌, ◌++◌, OnOk, string_bytes};
ghost use Rattle.negotiate_serve.specs.Replies.{GrowsBy};
ghost use Rattle.escaped_serve.specs.Replies.{IsEscapedReply, refused_reply};

use iceoryx2_builder::command::{Refusal, Reply};
use negotiate_lines::leaf::Form;
use negotiate_serve::reply::{describe, describe_services};
use std::alloc::AllocError;

/// Writes the text of a reply to a command for this slot: a line, and for a listing a line for each service before it.
///
/// `AllocError` if the text finds no memory, or if the reply is that there was none.
pub fn describe_escaped(reply: &Reply, slot: usize, text: &mut String) -> Result<(), AllocError>
    ensures { OnOk result (GrowsBy (IsEscapedReply slot reply.now) (string_bytes text.old) (string_bytes text.new)) }
{
    match reply {
        Reply::Refused(refusal) => describe_refused(*refusal, text),
        Reply::Listing(entries) => describe_services(Form::Escaped, entries, text),
        _ => describe(reply, slot, text),
    }
}

/// Writes the reply that is a refusal.
fn describe_refused(refusal: Refusal, text: &mut String) -> Result<(), AllocError>
    ensures { OnOk result (string_bytes text.new ≡ string_bytes text.old ++ refused_reply refusal) }
{
    let number = refusal.number();
    writeln!(text, "refused {number} {refusal}")
}
