//! The texts of replies.

ghost use Rattle.std.specs.Prelude.{◌≡◌, ◌++◌, IfOk, OnOk, string_bytes};
ghost use Rattle.negotiate_serve.specs.Replies.{GrowsBy, GrowsByEntry, GrowsByService, ListsServices, IsReplyText};
ghost use Rattle.negotiate_serve.specs.Replies.{how_many_it_has, name_in, pattern_term, who_it_is};

use iceoryx2_builder::command::Reply;
use iceoryx2_data::bytes::{DecodeError, decode};
use iceoryx2_description::description::{MessagingPattern, ServiceHash, StaticConfig};
use iceoryx2_world::listing::{Entry, ListedRow, ListedSegment};
use negotiate_lines::leaf::{Form, escape_leaf};
use std::alloc::AllocError;

/// Writes the text of a reply to a command for this slot: a line, and for a listing a line for each service before it.
///
/// `AllocError` if the text finds no memory, or if the reply is that there was none.
pub fn describe(reply: &Reply, slot: usize, text: &mut String) -> Result<(), AllocError>
    ensures { OnOk result (GrowsBy (IsReplyText slot reply.now) (string_bytes text.old) (string_bytes text.new)) }
{
    match reply {
        Reply::Opened { slot, number } => writeln!(text, "ok {slot} number={number}"),
        Reply::Refused(refusal) => writeln!(text, "{refusal}"),
        Reply::Closed { slot } => writeln!(text, "closed {slot}"),
        Reply::NotClosed { slot } => writeln!(text, "not closed {slot}"),
        Reply::SlotInUse => writeln!(text, "slot {slot} in use"),
        Reply::SlotEmpty => writeln!(text, "slot {slot} empty"),
        Reply::NoSuchSlot => writeln!(text, "no slot {slot}"),
        Reply::Listing(entries) => describe_services(Form::Plain, entries, text),
        Reply::OutOfMemory => Err(AllocError),
    }
}

/// Writes a line for each service among the entries, in their order, with names of this form, and how many there are.
/// `AllocError` as `describe`.
pub fn describe_services(form: Form, entries: &[Entry], text: &mut String) -> Result<(), AllocError>
    ensures { OnOk result (GrowsBy (ListsServices form entries.now) (string_bytes text.old) (string_bytes text.new)) }
{
    let mut count = 0usize;
    for entry in entries {
        if describe_entry(form, entry, text)? {
            count += 1;
        }
    }
    writeln!(text, "{count} services")
}

/// Writes the line of an entry that is a service, and returns whether it is one: its description is published, and its
/// segment is there.
fn describe_entry(form: Form, entry: &Entry, text: &mut String) -> Result<bool, AllocError>
    ensures { IfOk result (λ found.
        GrowsByEntry form found entry.now (string_bytes text.old) (string_bytes text.new)) }
{
    let Some(segment) = entry.segment else {
        return Ok(false);
    };
    let ListedRow::Published(number, bytes) = &entry.row else {
        return Ok(false);
    };
    match decode(*text.allocator(), bytes.as_slice()) {
        Ok(description) => describe_service(
            form,
            &entry.hash,
            &description,
            *number,
            segment,
            text,
        ),
        Err(DecodeError::Malformed) => Ok(false),
        Err(DecodeError::OutOfMemory) => Err(AllocError),
    }
}

/// Writes the line of a service, and returns that it is one.
fn describe_service(
    form: Form,
    hash: &ServiceHash,
    description: &StaticConfig,
    number: u64,
    segment: ListedSegment,
    text: &mut String,
) -> Result<bool, AllocError>
    ensures { IfOk result (λ found. GrowsByService found
        (who_it_is form hash.now.0 description.now ++ how_many_it_has number segment)
        (string_bytes text.old) (string_bytes text.new)) }
{
    describe_identity(form, hash, description, text)?;
    describe_segment(number, segment, text)?;
    Ok(true)
}

/// Returns the term with which a pattern's command lines begin.
pub fn term_of(pattern: &MessagingPattern) -> &'static str
    ensures { result.now ≡ pattern_term pattern.now }
{
    match pattern {
        MessagingPattern::Event(_) => "event",
        MessagingPattern::PublishSubscribe(_) => "pubsub",
        MessagingPattern::RequestResponse(_) => "rr",
    }
}

/// Writes the first part of a service's line: its pattern, its name and its hash.
fn describe_identity(
    form: Form,
    hash: &ServiceHash,
    description: &StaticConfig,
    text: &mut String,
) -> Result<(), AllocError>
    ensures { OnOk result (string_bytes text.new
        ≡ string_bytes text.old ++ who_it_is form hash.now.0 description.now) }
{
    let pattern = term_of(description.messaging_pattern());
    write!(text, "{pattern} ")?;
    describe_name(form, description.name().as_str(), text)?;
    let hash = hash.to_text(*text.allocator())?;
    write!(text, " {hash}")
}

/// Writes a service's name.
fn describe_name(form: Form, name: &str, text: &mut String) -> Result<(), AllocError>
    ensures { OnOk result (string_bytes text.new ≡ string_bytes text.old ++ name_in form name.now) }
{
    match form {
        Form::Plain => text.push_str(name),
        Form::Escaped => escape_leaf(name.as_bytes(), text),
    }
}

/// Writes the rest of it: its number, how many nodes it has, and how many it is for.
fn describe_segment(
    number: u64,
    segment: ListedSegment,
    text: &mut String,
) -> Result<(), AllocError>
    ensures { OnOk result (string_bytes text.new
        ≡ string_bytes text.old ++ how_many_it_has number segment) }
{
    let ListedSegment {
        number: _,
        max_nodes,
        participants,
        marked: _,
    } = segment;
    writeln!(text, " number={number} nodes={participants}/{max_nodes}")
}
