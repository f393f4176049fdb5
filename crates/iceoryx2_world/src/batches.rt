//! The steps that peers take before a node's accesses.

use iceoryx2_description::description::{ServiceHash, StaticConfig};

/// An act that a participant may do at a service.
#[derive(Debug, Drop, PartialEq, Eq)]
pub enum Act {
    /// The participant reads the published description.
    Read,
    /// The participant begins to create the service.
    Lock,
    /// The participant removes the segment, as the one that creates the service or was the last one to
    /// leave it.
    RemoveSegment,
    /// The participant removes the row, as the one that creates the service or was the last one to leave
    /// it.
    RemoveDescription,
    /// The participant makes the segment, for 1 or more nodes.
    Make { max_nodes: u64 },
    /// The participant publishes the service that it creates, and is registered.
    Publish(StaticConfig),
    /// The participant is registered, once more if it is registered already.
    Join,
    /// The participant is registered once less.
    Leave,
}

/// A step of a peer at a service. Peer 7 and node 7 are different participants.
#[derive(Debug, Drop, PartialEq, Eq)]
pub struct Step {
    pub peer: u64,
    pub hash: ServiceHash,
    pub act: Act,
}
