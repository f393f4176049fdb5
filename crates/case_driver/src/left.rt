//! All that is left in a storage, as a text. Each part follows a separator, and the first separator is removed.

use crate::known::Known;
use crate::subject::{Seen, Subject};
use iceoryx2_builder::command::Reply;
use iceoryx2_description::description::ServiceHash;
use iceoryx2_world::listing::{Entry, ListedRow, ListedSegment};
use negotiate_serve::reply::describe;
use std::alloc::{AllocError, Global};

fn write_row(row: &ListedRow, text: &mut String) -> Result<(), AllocError> {
    match row {
        ListedRow::Absent => Ok(()),
        ListedRow::Locked(number) => write!(text, ", locked {number}"),
        ListedRow::Published(number, _) => write!(text, ", published {number}"),
    }
}

fn write_segment(segment: ListedSegment, text: &mut String) -> Result<(), AllocError> {
    let ListedSegment {
        number,
        max_nodes,
        participants,
        marked,
    } = segment;
    let mark = if marked { " marked" } else { "" };
    write!(text, ", segment {number} {participants}/{max_nodes}{mark}")
}

/// Writes the row and the segment that are listed for a hash.
fn write_entries(
    entries: &[Entry],
    hash: &ServiceHash,
    text: &mut String,
) -> Result<(), AllocError> {
    for entry in entries {
        if entry.hash == *hash {
            write_row(&entry.row, text)?;
            if let Some(segment) = entry.segment {
                write_segment(segment, text)?;
            }
        }
    }
    Ok(())
}

/// Writes whether a node has a tag, and how many tickets it has.
fn write_held(
    node: u64,
    (has_tag, tickets): (bool, u64),
    text: &mut String,
) -> Result<(), AllocError> {
    let tag = if has_tag { " tag" } else { "" };
    match (has_tag, tickets) {
        (false, 0) => Ok(()),
        (_, 0) => write!(text, ", node {node}{tag}"),
        (_, 1) => write!(text, ", node {node}{tag} ticket"),
        _ => write!(text, ", node {node}{tag} {tickets} tickets"),
    }
}

/// Writes all that there is of a service. The service's name comes first if several services were named.
fn write_service<S: Subject>(
    alloc: Global,
    storage: &S,
    entries: &[Entry],
    (known, service): (&Known, &(String, ServiceHash)),
    text: &mut String,
) -> Result<(), AllocError> {
    let mut part = String::new(alloc);
    write_entries(entries, &service.1, &mut part)?;
    for &node in &known.nodes {
        write_held(node, storage.held(node, &service.1), &mut part)?;
    }
    let Some(part) = part.as_str().strip_prefix(", ") else {
        return Ok(());
    };
    if known.services.len() > 1 {
        let title = service.0.as_str();
        return write!(text, "; {title}: {part}");
    }
    write!(text, "; {part}")
}

/// Writes the hashes that are listed, but belong to no service that was named.
fn write_others(
    alloc: Global,
    entries: &[Entry],
    known: &Known,
    text: &mut String,
) -> Result<(), AllocError> {
    for entry in entries {
        if !known.has(&entry.hash) {
            let hash = entry.hash.to_text(alloc)?;
            write!(text, "; {hash}")?;
        }
    }
    Ok(())
}

/// Writes the next number of a storage, its counts that aren't zero, and its note.
fn write_counts(seen: &Seen, text: &mut String) -> Result<(), AllocError> {
    if let Some(counter) = seen.counter {
        write!(text, "; counter {counter}")?;
    }
    if seen.pending != 0 {
        let pending = seen.pending;
        write!(text, "; {pending} batches wait")?;
    }
    if seen.skipped != 0 {
        let skipped = seen.skipped;
        write!(text, "; {skipped} skipped")?;
    }
    if !seen.note.is_empty() {
        let note = seen.note;
        write!(text, "; {note}")?;
    }
    Ok(())
}

/// Writes the answers of a script that weren't taken.
fn write_answers(answers: &[String], unsaid: usize, text: &mut String) -> Result<(), AllocError> {
    let said = answers.len().saturating_sub(unsaid);
    let mut is_first = true;
    for answer in answers.iter().skip(said) {
        if is_first {
            text.push_str("; ")?;
        } else {
            text.push_str(", ")?;
        }
        text.push_str(answer.as_str())?;
        is_first = false;
    }
    Ok(())
}

/// Writes all that is left in a storage. `answers` are all that its script began with.
pub fn write_left<S: Subject>(
    alloc: Global,
    storage: &S,
    (known, answers): (&Known, &[String]),
    text: &mut String,
) -> Result<(), AllocError> {
    let seen = storage.seen(alloc)?;
    let mut all = String::new(alloc);
    for service in &known.services {
        write_service(alloc, storage, &seen.entries, (known, service), &mut all)?;
    }
    write_others(alloc, &seen.entries, known, &mut all)?;
    write_counts(&seen, &mut all)?;
    write_answers(answers, seen.unsaid, &mut all)?;
    text.push_str(all.as_str().strip_prefix("; ").unwrap_or("nothing"))
}

/// Writes what is listed of a service, after its name, or after its hash if it wasn't named.
fn write_listed(
    alloc: Global,
    entry: &Entry,
    known: &Known,
    text: &mut String,
) -> Result<(), AllocError> {
    let mut part = String::new(alloc);
    write_row(&entry.row, &mut part)?;
    if let Some(segment) = entry.segment {
        write_segment(segment, &mut part)?;
    }
    let part = part.as_str().strip_prefix(", ").unwrap_or("");
    match known.title(&entry.hash) {
        Some(title) => write!(text, "; {title}: {part}"),
        None => {
            let hash = entry.hash.to_text(alloc)?;
            write!(text, "; {hash}: {part}")
        }
    }
}

/// Writes all that a storage lists, in its order.
pub fn write_list<S: Subject>(
    alloc: Global,
    storage: &S,
    known: &Known,
    text: &mut String,
) -> Result<(), AllocError> {
    let seen = storage.seen(alloc)?;
    let mut all = String::new(alloc);
    for entry in &seen.entries {
        write_listed(alloc, entry, known, &mut all)?;
    }
    text.push_str(all.as_str().strip_prefix("; ").unwrap_or("nothing"))
}

/// Writes the lines that the programs' `list` prints, with semicolons between them.
pub fn write_services<S: Subject>(
    alloc: Global,
    storage: &S,
    text: &mut String,
) -> Result<(), AllocError> {
    let seen = storage.seen(alloc)?;
    let mut lines = String::new(alloc);
    describe(&Reply::Listing(seen.entries), 0, &mut lines)?;
    let mut is_first = true;
    for line in lines.lines() {
        if !is_first {
            text.push_str("; ")?;
        }
        text.push_str(line)?;
        is_first = false;
    }
    Ok(())
}
