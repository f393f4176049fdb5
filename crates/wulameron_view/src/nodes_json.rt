//! The nodes at a log as JSON.

ghost use Rattle.std.specs.Prelude.{◌≡◌, ◌++◌, IfOk, OnOk, map, string_bytes};
ghost use Rattle.std.specs.List.{flat_map};
ghost use Rattle.serde_json.specs.View.{view};
ghost use Rattle.wulameron_view.specs.Data.{json_line, leaf_data};
ghost use Rattle.wulameron_view.specs.Nodes.{node_data, nodes_data, standing_alive, standing_data};

use crate::json::{Leaf, leaves, write_value};
use crate::states::{NodeStanding, Standing};
use serde_json::Value;
use std::alloc::{AllocError, Global};

/// Writes an array of the nodes, in their order, as one line without a space; docs/CLI.md has the keys. `AllocError` if
/// there is no memory.
pub fn nodes_json(nodes: &[NodeStanding], text: &mut String) -> Result<(), AllocError>
    ensures { OnOk result (string_bytes text.new ≡ string_bytes text.old ++ json_line (nodes_data nodes.now)) }
{
    let value = nodes_value(*text.allocator(), nodes)?;
    write_value(&value, text)
}

/// Returns the array.
fn nodes_value(alloc: Global, nodes: &[NodeStanding]) -> Result<Value, AllocError>
    ensures { IfOk result (λ v. view v ≡ nodes_data nodes.now) }
{
    let mut values = Vec::new(alloc);
    for node in nodes {
        values.push(node_value(alloc, *node)?)?;
    }
    Ok(Value::Array(values))
}

/// Writes an object for each node, in their order, a line each. `AllocError` if there is no memory; a prefix may then
/// be written.
pub fn nodes_json_lines(nodes: &[NodeStanding], text: &mut String) -> Result<(), AllocError>
    ensures { OnOk result (string_bytes text.new
        ≡ string_bytes text.old ++ flat_map (λ n. json_line (node_data n)) nodes.now) }
{
    for node in nodes {
        write_node(*node, text)?;
    }
    Ok(())
}

/// Writes the line of a node.
fn write_node(node: NodeStanding, text: &mut String) -> Result<(), AllocError>
    ensures { OnOk result (string_bytes text.new ≡ string_bytes text.old ++ json_line (node_data node)) }
{
    let value = node_value(*text.allocator(), node)?;
    write_value(&value, text)
}

fn node_value(alloc: Global, node: NodeStanding) -> Result<Value, AllocError>
    ensures { IfOk result (λ v. view v ≡ node_data node) }
{
    let members = leaves(
        alloc,
        &[
            ("alive", alive_or_null(node.standing)),
            ("node", Leaf::Number(node.node)),
            ("state", Leaf::Word(key_word(node.standing))),
        ],
    )?;
    Ok(Value::Object(members))
}

/// Returns whether a node of this standing is alive, or `null` for a node that was never claimed.
fn alive_or_null<'a>(standing: Standing) -> Leaf<'a>
    ensures { leaf_data result ≡ standing_alive standing }
{
    match standing {
        Standing::Alive => Leaf::Truth(true),
        Standing::Lost | Standing::Dead | Standing::Ended => Leaf::Truth(false),
        Standing::NeverClaimed => Leaf::Null,
    }
}

/// Returns the word for a node's standing that JSON has, and that has no blank.
pub fn key_word(standing: Standing) -> &'static str
    ensures { result.now ≡ standing_data standing }
{
    match standing {
        Standing::Alive => "alive",
        Standing::Lost => "lost",
        Standing::Dead => "dead",
        Standing::Ended => "ended",
        Standing::NeverClaimed => "never_claimed",
    }
}
