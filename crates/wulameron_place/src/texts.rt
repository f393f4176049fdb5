//! Texts of cleaning up for nodes.

ghost use Rattle.std.specs.Prelude.{◌≡◌, ◌++◌, IfOk, OnOk, string_bytes};
ghost use Rattle.wulameron_place.specs.Texts.{RehearsesAll, cleaned_line, counts_text, is_nothing, rehearsed_line};
ghost use Rattle.wulameron_place.specs.Texts.{rehearsed_text};

use crate::rehearsal::rehearse;
use iceoryx2_journal::cleaning::Cleaned;
use iceoryx2_table::table::stored::StoredWorld;
use std::alloc::{AllocError, Global};

/// Returns whether nothing was released.
pub fn gave_nothing(cleaned: Cleaned) -> bool
    ensures { result ≡ is_nothing cleaned }
{
    cleaned.releases == 0 && cleaned.removals == 0
}

/// Writes the line of what was released for a node into the text.
pub fn describe_cleaned(node: u64, cleaned: Cleaned, text: &mut String) -> Result<(), AllocError>
    ensures { OnOk result (string_bytes text.new ≡ string_bytes text.old ++ cleaned_line node cleaned) }
{
    write!(text, "node {node}: ")?;
    write_counts(cleaned, text)
}

/// Writes how much was released, to the end of the line.
fn write_counts(cleaned: Cleaned, text: &mut String) -> Result<(), AllocError>
    ensures { OnOk result (string_bytes text.new ≡ string_bytes text.old ++ counts_text cleaned) }
{
    let Cleaned { releases, removals } = cleaned;
    writeln!(text, "{releases} releases, {removals} removals")
}

/// Why it isn't written what would be released.
#[derive(Clone, Copy)]
pub enum RehearsalError {
    /// What this node has can't be released in this world.
    Refused { node: u64 },
    OutOfMemory,
}

/// Returns the lines of what these nodes, one after the other, would release, each in the world that the one before
/// leaves. A node that has nothing has no line.
///
/// `Refused` if the world refuses a step, `OutOfMemory`.
pub fn rehearse_nodes(
    alloc: Global,
    world: &mut StoredWorld,
    nodes: &[u64],
) -> Result<String, RehearsalError>
    ensures { IfOk result (λ text. RehearsesAll nodes.now world.old (string_bytes text) world.new) }
{
    let mut text = String::new(alloc);
    for node in nodes {
        let node = *node;
        let Some(cleaned) = rehearse(world, node) else {
            return Err(RehearsalError::Refused { node });
        };
        let Ok(_) = describe_rehearsed(node, cleaned, &mut text) else {
            return Err(RehearsalError::OutOfMemory);
        };
    }
    Ok(text)
}

/// Writes the line of what would be released for a node into the text, if that is something.
fn describe_rehearsed(node: u64, cleaned: Cleaned, text: &mut String) -> Result<(), AllocError>
    ensures { OnOk result (string_bytes text.new ≡ string_bytes text.old ++ rehearsed_text (node, cleaned)) }
{
    if gave_nothing(cleaned) {
        return Ok(());
    }
    write_rehearsed(node, cleaned, text)
}

fn write_rehearsed(node: u64, cleaned: Cleaned, text: &mut String) -> Result<(), AllocError>
    ensures { OnOk result (string_bytes text.new ≡ string_bytes text.old ++ rehearsed_line node cleaned) }
{
    write!(text, "node {node}: would be ")?;
    write_counts(cleaned, text)
}
