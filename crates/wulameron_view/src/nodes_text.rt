//! The nodes at a log, line by line.

ghost use Rattle.std.specs.Prelude.{◌≡◌, ◌++◌, OnOk, string_bytes};
ghost use Rattle.std.specs.List.{flat_map};
ghost use Rattle.wulameron_view.specs.Nodes.{is_left, node_line, number_line};

use crate::states::{NodeStanding, Standing, word_of_standing};
use crate::table::write_red;
use std::alloc::AllocError;

/// Writes a line for each node, in their order: its number and its standing. `AllocError` if there is no memory; a
/// prefix may then be written.
pub fn nodes_text(
    is_coloured: bool,
    nodes: &[NodeStanding],
    text: &mut String,
) -> Result<(), AllocError>
    ensures { OnOk result
        (string_bytes text.new ≡ string_bytes text.old ++ flat_map (node_line is_coloured) nodes.now) }
{
    for node in nodes {
        write_node(is_coloured, *node, text)?;
    }
    Ok(())
}

/// Writes the line of a node.
fn write_node(is_coloured: bool, found: NodeStanding, text: &mut String) -> Result<(), AllocError>
    ensures { OnOk result (string_bytes text.new ≡ string_bytes text.old ++ node_line is_coloured found) }
{
    let NodeStanding { node, standing } = found;
    write!(text, "node {node} ")?;
    write_red(
        is_coloured && is_left(standing),
        word_of_standing(standing),
        text,
    )?;
    text.push_str("\n")
}

/// Returns whether something of a node of this standing is left.
fn is_left(standing: Standing) -> bool
    ensures { result ≡ is_left standing }
{
    match standing {
        Standing::Dead => true,
        _ => false,
    }
}

/// Writes the number of each node, a line each. `AllocError` if there is no memory; a prefix may then be written.
pub fn node_numbers(nodes: &[NodeStanding], text: &mut String) -> Result<(), AllocError>
    ensures { OnOk result (string_bytes text.new ≡ string_bytes text.old ++ flat_map number_line nodes.now) }
{
    for found in nodes {
        let node = found.node;
        writeln!(text, "{node}")?;
    }
    Ok(())
}
