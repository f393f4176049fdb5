//! All nodes of a log, and what the log comes to.

ghost use Rattle.std.specs.Prelude.{◌≡◌, ◌++◌, IfOk, OnOk, string_bytes};
ghost use Rattle.std.specs.List.{flat_map};
ghost use Rattle.wulameron_place.specs.Clean.{AreWanted};
ghost use Rattle.wulameron_serve.specs.Nodes.{IsNodesReply, node_word, nodes_reply};
ghost use Rattle.negotiate_serve.specs.Replies.{GrowsBy};

use crate::telling::refuse_for;
use iceoryx2_monitoring::state::NodeStatus;
use iceoryx2_table::table::stored::StoredWorld;
use std::alloc::{AllocError, Global};
use std::fs::File;
use std::io;
use std::random::RandomSource;
use std::rt::Files;
use std::time::Clock;
use wulameron_place::claims::{NodeError, list};
use wulameron_place::clean::{Unfound, caught_up, wanted_nodes};
use wulameron_place::dead::{DeadNodes, PlaceNodes};
use wulameron_place::opening::open_view;
use wulameron_place::reports::Reports;
use wulameron_view::nodes_json::key_word;
use wulameron_view::states::{NodeStanding, standings};

/// Finds all nodes of a log, and what the log comes to.
pub trait SharedNodes: DeadNodes {
    /// Returns each node that was ever claimed, by rising number, and whether it is alive.
    fn statuses(&self) -> Result<Vec<NodeStatus>, NodeError>;

    /// Returns the dead nodes, or the named one if it is dead.
    fn wanted(&self, named: Option<u64>) -> Result<Vec<u64>, Unfound>
        ensures { IfOk result (λ nodes. AreWanted named nodes.items) };

    /// Returns the world that the log comes to, apart from the world of a session. `None` if not all of the log can be
    /// taken over.
    fn world(&self, alloc: Global) -> Option<StoredWorld>;
}

impl<'a, F: Files<File = File> + Clock + RandomSource + AllocGlobal> SharedNodes
    for PlaceNodes<'a, F> {
    fn statuses(&self) -> Result<Vec<NodeStatus>, NodeError> {
        list(self.rt, self.place)
    }

    fn wanted(&self, named: Option<u64>) -> Result<Vec<u64>, Unfound> {
        wanted_nodes(self.rt, self.place, named)
    }

    fn world(&self, alloc: Global) -> Option<StoredWorld> {
        let place = self.place;
        let mut no_lines = Reports::new(alloc, place.at, io::sink());
        let journal = open_view(self.rt, place, &mut no_lines)?;
        caught_up(journal, &mut no_lines)
    }
}

/// Writes each node with its standing.
fn write_nodes(nodes: &[NodeStanding], text: &mut String) -> Result<(), AllocError>
    ensures { OnOk result (string_bytes text.new ≡ string_bytes text.old ++ flat_map node_word nodes.now) }
{
    for found in nodes {
        write_node(*found, text)?;
    }
    Ok(())
}

fn write_node(found: NodeStanding, text: &mut String) -> Result<(), AllocError>
    ensures { OnOk result (string_bytes text.new ≡ string_bytes text.old ++ node_word found) }
{
    let node = found.node;
    let standing = key_word(found.standing);
    write!(text, " {node},{standing}")
}

/// Writes the reply of these nodes.
fn reply_nodes(nodes: &[NodeStanding], text: &mut String) -> Result<(), AllocError>
    ensures { OnOk result (string_bytes text.new ≡ string_bytes text.old ++ nodes_reply nodes.now) }
{
    let count = nodes.len();
    write!(text, "nodes {count}")?;
    write_nodes(nodes, text)?;
    text.push_str("\n")
}

/// Writes the reply to the question which nodes there are: each with its standing in a world, or why they can't be had.
///
/// `AllocError` if there is no memory. The text may then have a part of the reply.
pub fn answer_nodes<D: SharedNodes>(
    dead: &D,
    world: &StoredWorld,
    text: &mut String,
) -> Result<(), AllocError>
    ensures { OnOk result (GrowsBy (IsNodesReply world.now) (string_bytes text.old) (string_bytes text.new)) }
{
    match dead.statuses() {
        Ok(states) => reply_states(world, &states, text),
        Err(error) => refuse_for(&error, text),
    }
}

/// Writes the reply of nodes of these states, as they stand in a world.
fn reply_states(
    world: &StoredWorld,
    states: &[NodeStatus],
    text: &mut String,
) -> Result<(), AllocError>
    ensures { OnOk result (GrowsBy (IsNodesReply world.now) (string_bytes text.old) (string_bytes text.new)) }
{
    let nodes = standings(*text.allocator(), world, states)?;
    reply_nodes(&nodes, text)
}
