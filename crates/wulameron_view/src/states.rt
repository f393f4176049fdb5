//! Whether nodes are alive, and whether something of them is left.

ghost use Rattle.std.specs.Prelude.{◌≡◌, ◌==◌, IfOk};
ghost use Rattle.std.specs.List.{find};
ghost use Rattle.std.specs.Option.{option_map};
ghost use Rattle.wulameron_view.specs.States.{AreStandings, IsStandingIn, dead_count, dead_holders, is_dead};
ghost use Rattle.wulameron_view.specs.States.{is_gone, is_lost, lost_count, lost_holders, standing_word};
ghost use Rattle.wulameron_view.specs.States.{state_of as state_among, state_word};

use crate::services::{Creation, Member};
use iceoryx2_monitoring::state::{NodeState, NodeStatus};
use iceoryx2_table::table::stored::StoredWorld;
use std::alloc::{AllocError, Global};

/// Whether a node is alive, and whether something of it is left.
#[derive(Clone, Copy)]
pub enum Standing {
    /// A process has claimed it.
    Alive,
    /// Its process may not know yet that its session with a database has ended.
    Lost,
    /// Its process is gone, and something that it had is left.
    Dead,
    /// Its process is gone, and nothing is left.
    Ended,
    /// No process ever claimed it.
    NeverClaimed,
}

/// A node and its standing.
#[derive(Clone, Copy)]
pub struct NodeStanding {
    pub node: u64,
    pub standing: Standing,
}

/// Returns the standing of each of these nodes in a world, in their order. `AllocError` if there is no memory.
pub fn standings(
    alloc: Global,
    world: &StoredWorld,
    states: &[NodeStatus],
) -> Result<Vec<NodeStanding>, AllocError>
    ensures { IfOk result (λ found. AreStandings world.now states.now found.items) }
{
    let mut found = Vec::new(alloc);
    for status in states {
        found.push(standing_in(world, status))?;
    }
    Ok(found)
}

/// Returns the standing in a world of a node of this state.
fn standing_in(world: &StoredWorld, status: &NodeStatus) -> NodeStanding
    ensures { IsStandingIn world.now status.now result }
{
    let node = status.node;
    let standing = match status.state {
        NodeState::Alive => Standing::Alive,
        NodeState::Lost => Standing::Lost,
        NodeState::DoesNotExist => Standing::NeverClaimed,
        NodeState::Dead => match world.holding(node) {
            Some(_) => Standing::Dead,
            None => Standing::Ended,
        },
    };
    NodeStanding { node, standing }
}

/// Returns the word for a node's standing.
pub(crate) fn word_of_standing(standing: Standing) -> &'static str
    ensures { result.now ≡ standing_word standing }
{
    match standing {
        Standing::Alive => "alive",
        Standing::Lost => "lost",
        Standing::Dead => "dead",
        Standing::Ended => "ended",
        Standing::NeverClaimed => "never claimed",
    }
}

/// Returns the state of a node among these. A node that has none was never claimed.
pub(crate) fn state_of(states: &[NodeStatus], node: u64) -> NodeState
    ensures { result ≡ state_among states.now node }
{
    match found_state(states, node) {
        None => NodeState::DoesNotExist,
        Some(state) => state,
    }
}

/// Returns the first state of the node among these.
fn found_state(states: &[NodeStatus], node: u64) -> Option<NodeState>
    ensures { result ≡ option_map (λ status. status.state) (find (λ status. status.node == node) states.now) }
{
    match states.iter().find(|status| status.node == node) {
        None => None,
        Some(status) => Some(status.state),
    }
}

/// Returns the word for whether a node is alive.
pub(crate) fn word_of(state: NodeState) -> &'static str
    ensures { result.now ≡ state_word state }
{
    match state {
        NodeState::Alive => "alive",
        NodeState::Lost => "lost",
        NodeState::Dead => "dead",
        NodeState::DoesNotExist => "never claimed",
    }
}

/// Returns whether the process of a node of this state is gone.
pub(crate) fn is_gone(state: NodeState) -> bool
    ensures { result ≡ is_gone state }
{
    match state {
        NodeState::Dead => true,
        _ => false,
    }
}

/// Returns whether a node of this state is lost.
fn is_lost(state: NodeState) -> bool
    ensures { result ≡ is_lost state }
{
    match state {
        NodeState::Lost => true,
        _ => false,
    }
}

/// Returns whether a node's process is gone.
fn is_dead(states: &[NodeStatus], node: u64) -> bool
    ensures { result ≡ is_dead states.now node }
{
    is_gone(state_of(states, node))
}

/// Returns how many of these nodes are dead.
pub(crate) fn dead_count(states: &[NodeStatus], members: &[Member]) -> usize
    ensures { result ≡ dead_count states.now members.now }
{
    members
        .iter()
        .filter(|member| is_dead(states, member.node))
        .count()
}

/// Returns how many of these nodes are lost.
pub(crate) fn lost_count(states: &[NodeStatus], members: &[Member]) -> usize
    ensures { result ≡ lost_count states.now members.now }
{
    members
        .iter()
        .filter(|member| is_lost(state_of(states, member.node)))
        .count()
}

/// Returns 1 if the holder of the lock is lost, and 0 otherwise.
pub(crate) fn lost_holders(states: &[NodeStatus], creation: &Creation) -> usize
    ensures { result ≡ lost_holders states.now creation.now }
{
    match creation.node {
        None => 0,
        Some(node) => {
            if is_lost(state_of(states, node)) {
                1
            } else {
                0
            }
        }
    }
}

/// Returns 1 if the holder of the lock is dead, and 0 otherwise.
pub(crate) fn dead_holders(states: &[NodeStatus], creation: &Creation) -> usize
    ensures { result ≡ dead_holders states.now creation.now }
{
    match creation.node {
        None => 0,
        Some(node) => { if is_dead(states, node) { 1 } else { 0 } }
    }
}
