//! What is printed of a reply in lines.

ghost use Rattle.std.specs.Prelude.{◌≡◌, OnOk, string_bytes};
ghost use Rattle.iceoryx2_builder.specs.declared.command.Call.{Call};
ghost use Rattle.negotiate_serve.specs.Replies.{GrowsBy};
ghost use Rattle.explain_serve.specs.Explained.{IsCallLine, MayHaveReason, IsFoundText, IsTextInLines, IsRefusalText};
ghost use Rattle.explain_serve.specs.Explained.{call_of, refusal_of};

use crate::accesses::describe_accesses;
use crate::refusals::describe_row;
use crate::settings::describe_offer;
use crate::standing::service_of;
use iceoryx2_builder::command::{Call, Command, Refusal, Reply};
use iceoryx2_session::world_storage::WorldStorage;
use iceoryx2_testing::traced::Traced;
use negotiate_lines::line::{self, Line};
use negotiate_serve::reply::describe;
use std::alloc::AllocError;

/// Writes the reply to a line's command, the accesses that it made, which are the latest of the storage, and for a
/// refusal when it comes, what can be done, what was required and what is offered.
///
/// `AllocError` if memory runs out. The text may then have a part of this.
pub fn describe_lines<S: WorldStorage>(
    line: &[u8],
    slot: usize,
    reply: &Reply,
    made: u64,
    traced: &Traced<S>,
    text: &mut String,
) -> Result<(), AllocError>
    requires { MayHaveReason line.now (refusal_of reply.now) }
    ensures { OnOk result (GrowsBy (IsTextInLines S.world line.now slot reply.now made traced.now)
        (string_bytes text.old) (string_bytes text.new)) }
{
    describe(reply, slot, text)?;
    describe_accesses(traced, made, text)?;
    match refusal_of(reply) {
        Some(refusal) => describe_refusal(line, refusal, traced, text),
        None => Ok(()),
    }
}

/// Returns the refusal of a reply.
fn refusal_of(reply: &Reply) -> Option<Refusal>
    ensures { result ≡ refusal_of reply.now }
{
    match reply {
        Reply::Refused(refusal) => Some(*refusal),
        _ => None,
    }
}

/// Writes why the line's call was refused.
fn describe_refusal<S: WorldStorage>(
    line: &[u8],
    refusal: Refusal,
    traced: &Traced<S>,
    text: &mut String,
) -> Result<(), AllocError>
    requires { (call : Call) × IsCallLine line.now call }
    ensures { OnOk result (GrowsBy (IsRefusalText line.now refusal (S.world traced.now.inner))
        (string_bytes text.old) (string_bytes text.new)) }
{
    describe_row(refusal, text)?;
    match call_of(line::parse(*text.allocator(), line)?) {
        Some(call) => describe_found(&call, refusal, traced, text),
        None => Ok(()),
    }
}

/// Returns the call of a line.
fn call_of(line: Line<'_>) -> Option<Call>
    ensures { result ≡ call_of line.entry }
{
    match line {
        Line::Command(Command::Call(call)) => Some(call),
        _ => None,
    }
}

/// Writes what a refused call required, and what the service that it found offers.
fn describe_found<S: WorldStorage>(
    call: &Call,
    refusal: Refusal,
    traced: &Traced<S>,
    text: &mut String,
) -> Result<(), AllocError>
    ensures { OnOk result (GrowsBy (IsFoundText call.entry.now refusal (S.world traced.now.inner))
        (string_bytes text.old) (string_bytes text.new)) }
{
    let entries = traced.list()?;
    match service_of(*text.allocator(), &entries, call)? {
        Some(existing) => describe_offer(call, refusal, &existing, text),
        None => Ok(()),
    }
}
