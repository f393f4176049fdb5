//! The lines of a log's entries.

ghost use Rattle.std.specs.Prelude.{◌≡◌, ◌++◌, IfOk, OnOk, Some, codes, decimal, string_bytes};
ghost use Rattle.hex.specs.Hex.{encode_lower};
ghost use Rattle.negotiate_lines.specs.Escapes.{escaped};
ghost use Rattle.wulameron_trail.specs.EntryTexts.{AddsEntryLine, IsDone, doer as doer_text};
ghost use Rattle.wulameron_trail.specs.EntryTexts.{published_as as published_text, publishing_text as publishing_line};

use crate::descriptions::read;
use iceoryx2_description::description::StaticConfig;
use iceoryx2_log::entry::{Entry, Operation};
use negotiate_lines::escape::escape;
use std::alloc::{AllocError, Global};
use wulameron_view::list_text::term_of;

/// Writes the line of an entry: its number in the log, counted from 0, the node, what it did, the service's hash, and
/// the entry's numbers. A publishing also has the pattern and the name, without control characters. `AllocError` if
/// there is no memory; a prefix of the line may then be written.
pub fn entry_line(place: u64, entry: &Entry, text: &mut String) -> Result<(), AllocError>
    ensures { OnOk result (AddsEntryLine place entry.now (string_bytes text.old) (string_bytes text.new)) }
{
    let doer = doer(*text.allocator(), entry)?;
    let done = operation_text(*text.allocator(), entry)?;
    writeln!(text, "{place} {doer}{done}")
}

/// Returns the node of an entry, and a space. A mark has no node.
pub(crate) fn doer(alloc: Global, entry: &Entry) -> Result<String, AllocError>
    ensures { IfOk result (λ text. string_bytes text ≡ doer_text entry.now) }
{
    let node = entry.node;
    match &entry.operation {
        Operation::Moved => Ok(String::new(alloc)),
        _ => format!(in alloc; "node {node} "),
    }
}

/// Returns what an entry did, without its node.
pub(crate) fn operation_text(alloc: Global, entry: &Entry) -> Result<String, AllocError>
    ensures { IfOk result (λ text. IsDone entry.now.hash.0 entry.now.operation (string_bytes text)) }
{
    let hash = entry.hash.to_text(alloc)?;
    match &entry.operation {
        Operation::MakeTag => format!(in alloc; "makes tag {hash}"),
        Operation::RemoveTag => format!(in alloc; "removes tag {hash}"),
        Operation::Lock { number } => format!(in alloc; "locks {hash} number={number}"),
        Operation::MakeSegment { number, max_nodes } => {
            format!(in alloc; "makes segment {hash} number={number} max_nodes={max_nodes}")
        }
        Operation::RemoveSegment => format!(in alloc; "removes segment {hash}"),
        Operation::RemoveDescription => format!(in alloc; "removes description {hash}"),
        Operation::Publish { number, bytes } => {
            let found = read(alloc, bytes.as_slice())?;
            publishing_text(alloc, &hash, *number, &found)
        }
        Operation::OpenSegment { number, ticket } => {
            format!(in alloc; "opens {hash} number={number} ticket={ticket}")
        }
        Operation::Release { ticket, number: _ } => format!(in alloc;
            "releases {hash} ticket={ticket}"
        ),
        Operation::Spend { number } => format!(in alloc; "spends numbers up to {number}"),
        Operation::Moved => String::from_str(alloc, "the log goes on in another file"),
    }
}

/// Returns what the publishing of this description did to the service of this hash, written in hex.
fn publishing_text(
    alloc: Global,
    hash: &str,
    number: u64,
    found: &Option<StaticConfig>,
) -> Result<String, AllocError>
    ensures { IfOk result (λ text. string_bytes text
        ≡ codes "publishes " ++ (published_text found.now ++ (codes " " ++ (hash.now
        ++ (codes " " ++ (codes "number" ++ (codes "=" ++ decimal number))))))) }
{
    let what = published_as(alloc, found)?;
    format!(in alloc; "publishes {what} {hash} number={number}")
}

/// Returns the pattern and the name of a published service.
fn published_as(alloc: Global, found: &Option<StaticConfig>) -> Result<String, AllocError>
    ensures { IfOk result (λ text. string_bytes text ≡ published_text found.now) }
{
    match found {
        None => String::from_str(alloc, "no description"),
        Some(description) => pattern_and_name(alloc, description),
    }
}

/// Returns the term of a service's pattern, and its name without control characters.
pub(crate) fn pattern_and_name(
    alloc: Global,
    description: &StaticConfig,
) -> Result<String, AllocError>
    ensures { IfOk result (λ text. string_bytes text ≡ published_text (Some description.now)) }
{
    let term = term_of(description.messaging_pattern());
    let mut text = format!(in alloc; "{term} ")?;
    escape(description.name().as_str(), &mut text)?;
    Ok(text)
}
