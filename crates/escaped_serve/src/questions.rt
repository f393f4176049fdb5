//! Answers questions over any storage that shows a world.

ghost use Rattle.std.specs.Prelude.{◌≡◌, ◌++◌, IfOk, OnErr, OnOk, slice_set, string_bytes, None, Some};
ghost use Rattle.iceoryx2_session.specs.SessionStates.{own_nodes, own_state, world_state};
ghost use Rattle.iceoryx2_session.specs.Slots.{held_at};
ghost use Rattle.iceoryx2_session.specs.StandingSlots.{SlotsStandInWorld};
ghost use Rattle.iceoryx2_errors.specs.Numbers.{numbered};
ghost use Rattle.negotiate_lines.specs.Leaves.{leaf_of};
ghost use Rattle.negotiate_lines.specs.declared.question.Question.TheVariants as question;
ghost use Rattle.negotiate_serve.specs.Replies.{GrowsBy};
ghost use Rattle.escaped_serve.specs.Asking.{asking};
ghost use Rattle.escaped_serve.specs.Questions.{AnswersQuestion, IsBytesReply, IsNoPlain};
ghost use Rattle.escaped_serve.specs.Questions.{abandoned_reply, agreed_reply, created_of, number_or_none};
ghost use Rattle.escaped_serve.specs.Questions.{refusal_reply, shown_reply, time_or_none};

use crate::asking::write_asking;
use crate::entries::describe_entries;
use explain_serve::refusals::RefusalRow;
use iceoryx2_builder::command::Refusal;
use iceoryx2_data::bytes::encode;
use iceoryx2_description::description::{MessagingPattern, StaticConfig};
use iceoryx2_description::time::Time;
use iceoryx2_rounds::port_factory::Registration;
use iceoryx2_session::session::Session;
use iceoryx2_session::world_storage::WorldStorage;
use negotiate_lines::leaf::escape_leaf;
use negotiate_lines::question::Question;
use std::alloc::{AllocError, Global};

/// Answers a question, by one line. A question that only a log can answer has an answer that says so. A plain line
/// isn't asked here. Makes no access.
///
/// `AllocError` if there is no memory for the answer, of which the text may then have a part. Then nothing changed.
pub fn answer_question<S: WorldStorage>(
    session: &mut Session<S>,
    question: &Question,
    text: &mut String,
) -> Result<(), AllocError>
    requires { IsNoPlain question.now }
    ensures answered { OnOk result (GrowsBy (λ added. AnswersQuestion S.world (own_state session.old) question.now added
        (own_state session.new)) (string_bytes text.old) (string_bytes text.new)) }
    ensures kept { OnErr result (own_state session.new ≡ own_state session.old) }

    // So the factories of all slots stand as before.
    ensures stands { let own = own_nodes S.own session.old in
        SlotsStandInWorld own (world_state S.world session.old)
        → SlotsStandInWorld own (world_state S.world session.new) }
{
    match question {
        Question::Show { slot } => show(session, *slot, text),
        Question::Bytes { slot } => show_bytes(session, *slot, text),
        Question::Abandon { slot } => abandon(session, *slot, text),
        Question::Entries => show_entries(session, text),
        Question::Refusal { number } => describe_refusal(*number, text),
        Question::Nodes => text.push_str("only over a log\n"),
        Question::Clean { node: _ } => text.push_str("only over a log\n"),
        Question::Rehearse { node: _ } => text.push_str("only over a log\n"),
        Question::Plain { line: _ } => Ok(()),
    }
}

// ---- of a slot

/// Writes what was agreed on in a slot.
fn show<S: WorldStorage>(
    session: &Session<S>,
    slot: usize,
    text: &mut String,
) -> Result<(), AllocError>
    ensures { OnOk result (string_bytes text.new
        ≡ string_bytes text.old ++ shown_reply slot (held_at (own_state session.now).slots slot)) }
{
    match session.registration(slot) {
        Some(held) => describe_agreed(slot, held, text),
        None => writeln!(text, "slot {slot} empty"),
    }
}

fn describe_agreed(slot: usize, held: &Registration, text: &mut String) -> Result<(), AllocError>
    ensures { OnOk result (string_bytes text.new ≡ string_bytes text.old ++ agreed_reply slot held.now) }
{
    let alloc = *text.allocator();
    let number = held.number();
    let node = held.node();
    let description = held.description();
    let creator = number_text(alloc, description.creator())?;
    let created = time_text(alloc, created_of(description.messaging_pattern()))?;
    let hash = description.service_hash().to_text(alloc)?;
    let line = asking_text(alloc, node, slot, description)?;
    writeln!(
        text,
        "agreed {slot} number={number} node={node} creator={creator} created={created} hash={hash} {line}"
    )
}

/// Returns a number, or `none`.
fn number_text(alloc: Global, number: Option<u64>) -> Result<String, AllocError>
    ensures { IfOk result (λ text. string_bytes text ≡ number_or_none number) }
{
    match number {
        Some(number) => format!(in alloc; "{number}"),
        None => format!(in alloc; "none"),
    }
}

/// Returns a time, or `none`.
fn time_text(alloc: Global, time: Option<Time>) -> Result<String, AllocError>
    ensures { IfOk result (λ text. string_bytes text ≡ time_or_none time) }
{
    match time {
        Some(time) => {
            let seconds = time.seconds();
            let nanoseconds = time.nanoseconds();
            format!(in alloc; "{seconds},{nanoseconds}")
        }
        None => format!(in alloc; "none"),
    }
}

/// Returns the line that asks for what was agreed on.
fn asking_text(
    alloc: Global,
    node: u64,
    slot: usize,
    description: &StaticConfig,
) -> Result<String, AllocError>
    ensures { IfOk result (λ text. string_bytes text ≡ asking node slot description.now) }
{
    let mut text = String::new(alloc);
    write_asking(node, slot, description, &mut text)?;
    Ok(text)
}

/// Returns when a service was created, if a service of events tells it.
fn created_of(pattern: &MessagingPattern) -> Option<Time>
    ensures { result ≡ created_of pattern.now }
{
    match pattern {
        MessagingPattern::Event(settings) => match settings.deadline {
            Some(deadline) => Some(deadline.creation_time),
            None => None,
        },
        MessagingPattern::PublishSubscribe(_) => None,
        MessagingPattern::RequestResponse(_) => None,
    }
}

/// Writes the bytes of the description in a slot.
fn show_bytes<S: WorldStorage>(
    session: &Session<S>,
    slot: usize,
    text: &mut String,
) -> Result<(), AllocError>
    ensures { OnOk result (GrowsBy (IsBytesReply slot (held_at (own_state session.now).slots slot))
        (string_bytes text.old) (string_bytes text.new)) }
{
    match session.registration(slot) {
        Some(held) => describe_bytes(slot, held, text),
        None => writeln!(text, "slot {slot} empty"),
    }
}

fn describe_bytes(slot: usize, held: &Registration, text: &mut String) -> Result<(), AllocError>
    ensures { OnOk result (GrowsBy (IsBytesReply slot (Some held.now))
        (string_bytes text.old) (string_bytes text.new)) }
{
    let alloc = *text.allocator();
    let bytes = encode(alloc, held.description())?;
    let digits = hex::encode(alloc, bytes.as_slice())?;
    writeln!(text, "bytes {slot} {digits}")
}

/// Lets go of what a slot holds, after it has written so.
fn abandon<S: WorldStorage>(
    session: &mut Session<S>,
    slot: usize,
    text: &mut String,
) -> Result<(), AllocError>
    ensures written { OnOk result (string_bytes text.new
        ≡ string_bytes text.old ++ abandoned_reply slot (held_at (own_state session.old).slots slot)) }
    ensures after { OnOk result (own_state session.new ≡ record (own_state session.old) {
      slots = slice_set (own_state session.old).slots slot None;
    }) }
    ensures kept { OnErr result (own_state session.new ≡ own_state session.old) }
    ensures stands { let own = own_nodes S.own session.old in
        SlotsStandInWorld own (world_state S.world session.old)
        → SlotsStandInWorld own (world_state S.world session.new) }
{
    write_abandoned(session, slot, text)?;
    session.abandon(slot);
    Ok(())
}

/// Writes the answer to an abandon of a slot.
fn write_abandoned<S: WorldStorage>(
    session: &Session<S>,
    slot: usize,
    text: &mut String,
) -> Result<(), AllocError>
    ensures { OnOk result (string_bytes text.new
        ≡ string_bytes text.old ++ abandoned_reply slot (held_at (own_state session.now).slots slot)) }
{
    match session.registration(slot) {
        Some(_) => writeln!(text, "abandoned {slot}"),
        None => writeln!(text, "slot {slot} empty"),
    }
}

// ---- of all services

/// Writes the entries of the storage's listing.
fn show_entries<S: WorldStorage>(session: &Session<S>, text: &mut String) -> Result<(), AllocError>
    ensures { OnOk result (GrowsBy (λ added. AnswersQuestion S.world (own_state session.now) question.Entries added
        (own_state session.now)) (string_bytes text.old) (string_bytes text.new)) }
{
    let entries = session.storage().list()?;
    describe_entries(entries.as_slice(), text)
}

// ---- of a refusal

/// Writes the texts of the refusal of a number, or that there is none.
fn describe_refusal(number: u64, text: &mut String) -> Result<(), AllocError>
    ensures { OnOk result (string_bytes text.new ≡ string_bytes text.old ++ refusal_reply number (numbered number)) }
{
    match Refusal::from_number(number) {
        Some(refusal) => describe_row(number, refusal, text),
        None => writeln!(text, "no refusal {number}"),
    }
}

fn describe_row(number: u64, refusal: Refusal, text: &mut String) -> Result<(), AllocError>
    ensures { OnOk result (string_bytes text.new ≡ string_bytes text.old ++ refusal_reply number (Some refusal)) }
{
    let alloc = *text.allocator();
    let error = format!(in alloc; "{refusal}")?;
    let row = RefusalRow::of(refusal);
    let name = leaf_text(alloc, &error)?;
    let comes_when = leaf_text(alloc, row.comes_when)?;
    let what_can_be_done = leaf_text(alloc, row.what_can_be_done)?;
    writeln!(
        text,
        "refusal {number} {name} {comes_when} {what_can_be_done}"
    )
}

/// Returns a text as a leaf.
fn leaf_text(alloc: Global, source: &str) -> Result<String, AllocError>
    ensures { IfOk result (λ text. string_bytes text ≡ leaf_of source.now) }
{
    let mut text = String::new(alloc);
    escape_leaf(source.as_bytes(), &mut text)?;
    Ok(text)
}
