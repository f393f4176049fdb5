//! Nodes whose processes are gone.

ghost use Rattle.std.specs.Prelude.{◌≡◌, ◌++◌, IfOk, OnOk};
ghost use Rattle.std.specs.List.{flat_map};
ghost use Rattle.wulameron_place.specs.Dead.{not_dead_of, number_if_dead, unclaimed_by};

use crate::claims::{
    Claim, NodeError, NodeFault, dead_lock, dead_token, give_lock_back, list, lock_again,
};
use iceoryx2_monitoring::error::MonitoringFault;
use iceoryx2_monitoring::state::{NodeState, NodeStatus};
use std::alloc::{AllocError, Global};
use std::fmt;
use std::fs::File;
use std::random::RandomSource;
use std::rt::Files;
use std::time::Clock;
use wulameron_arguments::asked::Place;

/// Finds dead nodes, and claims them.
pub trait DeadNodes {
    /// What keeps others from claiming a node, until it is released.
    type Claim: Drop;

    /// Returns nodes that were dead or lost a moment ago. None if they can't be had, or there is no memory.
    fn found(&self, alloc: Global) -> Vec<u64>;

    /// Claims a node, if it is still dead. It waits while the node is lost.
    fn claim(&self, node: u64) -> Result<Self::Claim, Unclaimed>;

    /// Releases a claim.
    fn give_back(&self, claim: Self::Claim);

    /// Claims a node of this program once more, in another session with the database after one had ended. Returns false
    /// if there is none, or another process has the node.
    fn reclaim(&self, node: u64) -> bool;
}

/// Why a node isn't claimed.
#[derive(Clone, Copy)]
pub enum Unclaimed {
    /// It is alive, or another process has claimed it meanwhile.
    IsAlive,
    /// Its file refused.
    Refused,
}

/// Returns why a node isn't claimed whose file or database refused with this error.
fn why_unclaimed(error: &NodeError) -> Unclaimed
    ensures { result ≡ unclaimed_by error.now }
{
    match error {
        NodeError::File(error) => match error.fault() {
            MonitoringFault::NodeIsAlive { node: _ } => Unclaimed::IsAlive,
            _ => Unclaimed::Refused,
        },
        NodeError::Database(fault) => match fault {
            NodeFault::IsAlive { node: _ } => Unclaimed::IsAlive,
            _ => Unclaimed::Refused,
        },
    }
}

/// Why a named node isn't cleaned up for.
#[derive(Clone, Copy)]
pub enum NotDead {
    /// A process has claimed it.
    IsAlive { node: u64 },
    /// There is no file of it.
    NeverClaimed { node: u64 },
}

impl fmt::Display for NotDead {
    ghost use Rattle.std.specs.Prelude.{Some};
    ghost use Rattle.wulameron_place.specs.Dead.{not_dead_text};

    ghost output = { λ why. Some (not_dead_text why) };

    fn fmt<W: fmt::Write>(&self, f: &mut fmt::Formatter<W>) -> fmt::Result {
        match self {
            NotDead::IsAlive { node } => write!(f, "node {node} is alive"),
            NotDead::NeverClaimed { node } => write!(f, "node {node} was never claimed"),
        }
    }
}

/// Returns why a node of this state isn't cleaned up for. `None` if it is: a lost node is, as soon as it can be claimed.
pub fn not_dead(node: u64, state: NodeState) -> Option<NotDead>
    ensures { result ≡ not_dead_of node state }
{
    match state {
        NodeState::Alive => Some(NotDead::IsAlive { node }),
        NodeState::Lost | NodeState::Dead => None,
        NodeState::DoesNotExist => Some(NotDead::NeverClaimed { node }),
    }
}

/// The nodes at a place. If nothing is to be cleaned up, it finds none.
#[derive(Drop)]
pub struct PlaceNodes<'a, F> {
    pub rt: &'a F,
    pub place: Place<'a>,
    pub cleans: bool,
}

impl<'a, F> PlaceNodes<'a, F> {
    /// Returns the nodes of this place, whose dead ones are to be cleaned up for.
    pub fn of(rt: &'a F, place: Place<'a>) -> PlaceNodes<'a, F> {
        PlaceNodes {
            rt,
            place,
            cleans: true,
        }
    }
}

/// Returns the dead and the lost ones, in their order. `AllocError` if there is no memory.
pub fn dead_of(alloc: Global, nodes: &[NodeStatus]) -> Result<Vec<u64>, AllocError>
    ensures { IfOk result (λ dead. dead.items ≡ flat_map number_if_dead nodes.now) }
{
    let mut dead = Vec::new(alloc);
    for status in nodes {
        push_if_dead(*status, &mut dead)?;
    }
    Ok(dead)
}

/// Adds a node to these, if it is dead or lost.
fn push_if_dead(status: NodeStatus, dead: &mut Vec<u64>) -> Result<(), AllocError>
    ensures { OnOk result (dead.new.items ≡ dead.old.items ++ number_if_dead status) }
{
    match status.state {
        NodeState::Lost | NodeState::Dead => {
            dead.push(status.node)?;
            Ok(())
        }
        NodeState::Alive | NodeState::DoesNotExist => Ok(()),
    }
}

impl<'a, F: Files<File = File> + Clock + RandomSource + AllocGlobal> DeadNodes
    for PlaceNodes<'a, F> {
    type Claim = Claim;

    fn found(&self, alloc: Global) -> Vec<u64> {
        if !self.cleans {
            return Vec::new(alloc);
        }
        let Ok(nodes) = list(self.rt, self.place) else {
            return Vec::new(alloc);
        };
        match dead_of(alloc, &nodes) {
            Ok(dead) => dead,
            Err(_) => Vec::new(alloc),
        }
    }

    fn claim(&self, node: u64) -> Result<Claim, Unclaimed> {
        match dead_claim(self.rt, self.place, node) {
            Ok(claim) => Ok(claim),
            Err(error) => Err(why_unclaimed(&error)),
        }
    }

    fn give_back(&self, claim: Claim) {
        if let Some(database) = self.place.database() {
            give_lock_back(self.rt.alloc(), database, claim.node());
        }
        drop(claim);
    }

    fn reclaim(&self, node: u64) -> bool {
        let Some(database) = self.place.database() else {
            return false;
        };
        if database.pipes.renew(self.rt).is_err() {
            return false;
        }
        lock_again(self.rt.alloc(), database, node).is_ok()
    }
}

/// Claims a dead node, if it is still dead.
fn dead_claim<F: Files<File = File> + Clock + RandomSource + AllocGlobal>(
    rt: &F,
    place: Place<'_>,
    node: u64,
) -> Result<Claim, NodeError> {
    match place.database() {
        Some(database) => match dead_lock(rt.alloc(), database, node) {
            Ok(claim) => Ok(claim),
            Err(fault) => Err(NodeError::Database(fault)),
        },
        None => dead_token(rt, place.at, node, place.options.sharing),
    }
}
