//! The content that a table holds of each service and of each participant.

ghost use Rattle.std.specs.Prelude.{◌≡◌, ℕ, List, IfOk};

use iceoryx2_description::description::ServiceHash;
use std::alloc::AllocError;
use std::marker::Model;

/// A participant that acts. Node 7 and peer 7 are different participants.
#[derive(Clone, Copy, Debug, PartialEq, Eq, PartialOrd, Ord)]
pub enum Participant {
    /// A participant whose calls come through the table's accesses.
    Node(u64),
    /// A participant that shares the table's services without the table.
    Peer(u64),
}

/// The phase of a participant with a service.
#[derive(Clone, Copy, Debug, PartialEq, Eq)]
pub enum Phase {
    Idle,
    /// The participant has read the description of this number.
    Read(u64),
    /// The participant holds the lock of this number.
    Locked(u64),
    /// The participant holds the lock of this number, and its segment.
    Made(u64),
    /// The participant is registered at this number, so many times.
    Joined(u64, u64),
    /// The participant was the last one to leave this number, and has to remove what is left.
    Leaving(u64),
    /// The participant was the last one to leave this number, and has removed the segment.
    Cleared(u64),
}

/// Bytes that are kept.
#[derive(Debug, Drop)]
pub struct Bytes {
    bytes: Vec<u8>,
}

impl Model for Bytes {
    ghost use Rattle.std.specs.Prelude.{ℕ, List};

    ghost Value = { List ℕ };

    ghost view = { λ b. b.bytes.items };
}

impl Bytes {
    pub fn from_vec(bytes: Vec<u8>) -> Self
        ensures { result ≡ bytes.items }
    {
        Bytes { bytes }
    }

    pub fn as_slice(&self) -> &[u8]
        ensures { result.now ≡ self.now }
    {
        &self.bytes
    }

    /// Returns a copy of the bytes.
    pub fn copy(&self) -> Result<Vec<u8>, AllocError>
        ensures { IfOk result (λ copy. copy.items ≡ self.now) }
    {
        self.bytes.clone()
    }
}

impl PartialEq for Bytes {
    ghost use Rattle.std.specs.Prelude.{bytes_eq};
    ghost use Rattle.std.proofs.Common.{rules};
    ghost use Rattle.std.specs.Cmp.Rules.{comparing};

    ghost eq = { bytes_eq };

    ghost laws = { Prim.search (comparing, rules) };

    fn eq(&self, other: &Bytes) -> bool {
        self.as_slice() == other.as_slice()
    }
}

impl Eq for Bytes {
    ghost use Rattle.std.proofs.Common.{rules};
    ghost use Rattle.std.specs.Cmp.Rules.{comparing};

    ghost laws = { Prim.search (comparing, rules) };
}

/// The row that is written under a hash.
#[derive(Drop)]
pub enum Row {
    /// Somebody is creating the service of this number.
    Locked(u64),
    /// The service of this number, and its description's bytes.
    Published(u64, Bytes),
}

/// The node of a ticket, with the service and the number that the ticket is for.
#[derive(Clone, Copy, Debug, PartialEq, Eq)]
pub struct Ticket {
    pub node: u64,
    pub hash: ServiceHash,
    pub number: u64,
}
