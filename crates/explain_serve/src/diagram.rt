//! A Mermaid sequence diagram of nodes and the storage.

ghost use Rattle.std.specs.Prelude.{◌≡◌, ◌++◌, OnOk, drop, string_bytes};
ghost use Rattle.std.specs.List.{flat_map};
ghost use Rattle.std.specs.Str.{chars};
ghost use Rattle.explain_serve.specs.Diagrams.{answered_line, asked_line, caller_of};
ghost use Rattle.explain_serve.specs.Diagrams.{escaped, message_lines, messages, note_head, note_line};

use iceoryx2_testing::traced::{Traced, TracedAccess};
use std::alloc::AllocError;

/// The beginning of a diagram.
pub const HEAD: &str = "sequenceDiagram\n    participant storage\n";

/// Writes the latest accesses of a traced storage, as many as a command made, as messages between a node and the
/// storage. Each is of the node that it names. `exists` names none, and is of the caller. `AllocError` if the text
/// finds no memory.
pub fn draw_accesses<S>(
    traced: &Traced<S>,
    made: u64,
    caller: u64,
    text: &mut String,
) -> Result<(), AllocError>
    ensures { OnOk result (string_bytes text.new
        ≡ string_bytes text.old ++ messages caller made traced.now.entries) }
{
    draw_from(
        traced.len().saturating_sub(made as usize),
        traced,
        caller,
        text,
    )
}

/// Writes the accesses from this entry on.
#[tactic(auto, using(crate::proofs::TextLines::next_messages, crate::proofs::TextLines::no_message))]
fn draw_from<S>(
    first: usize,
    traced: &Traced<S>,
    caller: u64,
    text: &mut String,
) -> Result<(), AllocError>
    ensures { OnOk result (string_bytes text.new
        ≡ string_bytes text.old ++ flat_map (message_lines caller) (drop first traced.now.entries)) }
{
    for index in first..traced.len() {
        match traced.get(index) {
            Some(entry) => draw_access(entry, caller, text)?,
            None => {}
        }
    }
    Ok(())
}

/// Writes an access and its answer.
fn draw_access(entry: &TracedAccess, caller: u64, text: &mut String) -> Result<(), AllocError>
    ensures { OnOk result (string_bytes text.new ≡ string_bytes text.old ++ message_lines caller entry.now) }
{
    let node = node_of(entry, caller);
    draw_asked(node, entry.access(), text)?;
    draw_answered(node, entry, text)
}

/// Writes what the node asks.
#[tactic(auto, unfolding(crate::specs::Diagrams::asked_line))]
fn draw_asked(node: u64, access: &str, text: &mut String) -> Result<(), AllocError>
    ensures { OnOk result (string_bytes text.new ≡ string_bytes text.old ++ asked_line node access.now) }
{
    writeln!(text, "    node {node}->>storage: {access}")
}

/// Writes what the storage answers it.
#[tactic(auto, unfolding(crate::specs::Diagrams::answered_line))]
fn draw_answered(node: u64, entry: &TracedAccess, text: &mut String) -> Result<(), AllocError>
    ensures { OnOk result (string_bytes text.new ≡ string_bytes text.old ++ answered_line node entry.now) }
{
    writeln!(text, "    storage-->>node {node}: {entry}")
}

/// Returns the node that an access names, or else the caller.
fn node_of(entry: &TracedAccess, caller: u64) -> u64
    ensures { result ≡ caller_of caller entry.now }
{
    match entry {
        TracedAccess::Exists { .. } => caller,
        TracedAccess::Fetch { node, .. } => *node,
        TracedAccess::Counts { node, .. } => *node,
        TracedAccess::MakeTag { node, .. } => *node,
        TracedAccess::RemoveTag { node, .. } => *node,
        TracedAccess::Lock { node, .. } => *node,
        TracedAccess::MakeSegment { node, .. } => *node,
        TracedAccess::RemoveSegment { node, .. } => *node,
        TracedAccess::RemoveDescription { node, .. } => *node,
        TracedAccess::Publish { node, .. } => *node,
        TracedAccess::OpenSegment { node, .. } => *node,
        TracedAccess::Release { node, .. } => *node,
    }
}

/// Writes a note with this text over the storage. What would end the note, or be taken for a mark of Mermaid's, is
/// written as an entity, and a line's end as `<br/>`. `AllocError` if there is no memory.
pub fn draw_note(text: &str, diagram: &mut String) -> Result<(), AllocError>
    ensures { OnOk result (string_bytes diagram.new ≡ string_bytes diagram.old ++ note_line text.now) }
{
    draw_head(diagram)?;
    draw_text(text, diagram)?;
    diagram.push_str("\n")
}

/// Writes the beginning of a note.
#[tactic(auto, unfolding(crate::specs::Diagrams::note_head))]
fn draw_head(diagram: &mut String) -> Result<(), AllocError>
    ensures { OnOk result (string_bytes diagram.new ≡ string_bytes diagram.old ++ note_head) }
{
    diagram.push_str("    Note over storage: ")
}

/// Writes a text with what has a meaning in Mermaid as entities, and a line's end as `<br/>`. `AllocError` if there is
/// no memory; a prefix may then be written.
pub fn draw_text(text: &str, diagram: &mut String) -> Result<(), AllocError>
    ensures { OnOk result (string_bytes diagram.new
        ≡ string_bytes diagram.old ++ flat_map escaped (chars text.now)) }
{
    for character in text.chars() {
        draw_character(character, diagram)?;
    }
    Ok(())
}

/// Writes one character of a note.
fn draw_character(character: char, diagram: &mut String) -> Result<(), AllocError>
    ensures { OnOk result (string_bytes diagram.new ≡ string_bytes diagram.old ++ escaped character) }
{
    match character {
        '\n' => diagram.push_str("<br/>"),
        '#' => diagram.push_str("#35;"),
        '%' => diagram.push_str("#37;"),
        '&' => diagram.push_str("#38;"),
        ';' => diagram.push_str("#59;"),
        '<' => diagram.push_str("#60;"),
        '>' => diagram.push_str("#62;"),
        '\0'..='\x1f' | '\x7f' => diagram.push_str(" "),
        _ => diagram.push(character),
    }
}
