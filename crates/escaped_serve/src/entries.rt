//! The entries of a listing, each by a text.

ghost use Rattle.std.specs.Prelude.{◌≡◌, ◌++◌, IfOk, OnOk, string_bytes};
ghost use Rattle.negotiate_serve.specs.Replies.{GrowsBy};
ghost use Rattle.escaped_serve.specs.Entries.{AreEntryTexts, Describes, IsEntryText, TellsEntries, entry_text};
ghost use Rattle.escaped_serve.specs.Entries.{known_name, known_pattern, max_nodes_of, nodes_of, service_number};
ghost use Rattle.escaped_serve.specs.Entries.{state_term};

use iceoryx2_data::bytes::{DecodeError, decode};
use iceoryx2_description::description::StaticConfig;
use iceoryx2_world::listing::{Entry, ListedRow, ListedSegment};
use negotiate_lines::leaf::escape_leaf;
use negotiate_serve::reply::term_of;
use std::alloc::{AllocError, Global};

/// Writes in one line how many entries there are, and each, in their order. `AllocError` if there is no memory for the
/// text, or for reading a description.
pub fn describe_entries(entries: &[Entry], text: &mut String) -> Result<(), AllocError>
    ensures { OnOk result (GrowsBy (TellsEntries entries.now) (string_bytes text.old) (string_bytes text.new)) }
{
    let count = entries.len();
    write!(text, "entries {count}")?;
    describe_each(entries, text)?;
    text.push_str("\n")
}

/// Writes each entry, in their order.
fn describe_each(entries: &[Entry], text: &mut String) -> Result<(), AllocError>
    ensures { OnOk result (GrowsBy (AreEntryTexts entries.now) (string_bytes text.old) (string_bytes text.new)) }
{
    for entry in entries {
        describe_entry(entry, text)?;
    }
    Ok(())
}

/// Writes an entry.
fn describe_entry(entry: &Entry, text: &mut String) -> Result<(), AllocError>
    ensures { OnOk result (GrowsBy (IsEntryText entry.now) (string_bytes text.old) (string_bytes text.new)) }
{
    let known = description_of(*text.allocator(), &entry.row)?;
    describe_known(entry, &known, text)
}

/// Writes an entry, of which this is known.
fn describe_known(
    entry: &Entry,
    known: &Option<StaticConfig>,
    text: &mut String,
) -> Result<(), AllocError>
    ensures { OnOk result (string_bytes text.new ≡ string_bytes text.old ++ entry_text entry.now known.now) }
{
    let state = state_term(&entry.row, entry.segment);
    let pattern = pattern_of(known);
    let number = service_number(&entry.row, entry.segment);
    let (nodes, max_nodes) = nodes_in(entry.segment);
    let hash = entry.hash.to_text(*text.allocator())?;
    write!(
        text,
        " {state},{pattern},{number},{nodes},{max_nodes},{hash},"
    )?;
    describe_name(known, text)
}

fn state_term(row: &ListedRow, segment: Option<ListedSegment>) -> &'static str
    ensures { result.now ≡ state_term row.now segment }
{
    match row {
        ListedRow::Locked(_) => "being_created",
        ListedRow::Published(_, _) => match segment {
            Some(segment) => {
                if segment.marked {
                    "marked"
                } else {
                    "published"
                }
            }
            None => "marked",
        },
        ListedRow::Absent => "segment_alone",
    }
}

fn service_number(row: &ListedRow, segment: Option<ListedSegment>) -> u64
    ensures { result ≡ service_number row.now segment }
{
    match row {
        ListedRow::Locked(number) => *number,
        ListedRow::Published(number, _) => *number,
        ListedRow::Absent => match segment {
            Some(segment) => segment.number,
            None => 0,
        },
    }
}

/// Returns how many nodes a service has, and how many it is for.
fn nodes_in(segment: Option<ListedSegment>) -> (u64, u64)
    ensures nodes { result.0 ≡ nodes_of segment }
    ensures most { result.1 ≡ max_nodes_of segment }
{
    match segment {
        Some(segment) => (segment.participants, segment.max_nodes),
        None => (0, 0),
    }
}

/// Returns the description of a row, if it is published and its bytes are one. `AllocError` if there is no memory.
fn description_of(alloc: Global, row: &ListedRow) -> Result<Option<StaticConfig>, AllocError>
    ensures { IfOk result (Describes row.now) }
{
    match row {
        ListedRow::Published(_, bytes) => match decode(alloc, bytes.as_slice()) {
            Ok(description) => Ok(Some(description)),
            Err(DecodeError::Malformed) => Ok(None),
            Err(DecodeError::OutOfMemory) => Err(AllocError),
        },
        ListedRow::Locked(_) => Ok(None),
        ListedRow::Absent => Ok(None),
    }
}

fn pattern_of(known: &Option<StaticConfig>) -> &'static str
    ensures { result.now ≡ known_pattern known.now }
{
    match known {
        Some(description) => term_of(description.messaging_pattern()),
        None => "none",
    }
}

/// Writes the name as a leaf, and `%` if it isn't known.
fn describe_name(known: &Option<StaticConfig>, text: &mut String) -> Result<(), AllocError>
    ensures { OnOk result (string_bytes text.new ≡ string_bytes text.old ++ known_name known.now) }
{
    match known {
        Some(description) => escape_leaf(description.name().as_str().as_bytes(), text),
        None => text.push_str("%"),
    }
}
