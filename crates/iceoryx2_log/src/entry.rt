//! An entry of a log: an access that had an effect, with its node.

ghost use Rattle.std.specs.Prelude.{◌≡◌};

use iceoryx2_description::description::ServiceHash;
use std::alloc::AllocError;
use std::marker::Model;

/// The byte form of a description, as it was published.
#[derive(Debug)]
pub struct FormBytes {
    bytes: Vec<u8>,
}

// Written out, so that a proof of what lets one go doesn't take its fields apart.
impl Drop for FormBytes {
    fn drop(self) {
        let FormBytes { bytes: _ } = self;
    }
}

impl Model for FormBytes {
    ghost use Rattle.std.specs.Prelude.{List, ℕ};

    ghost Value = { List ℕ };

    ghost view = { λ form. form.bytes.items };
}

impl FormBytes {
    pub fn new(bytes: Vec<u8>) -> FormBytes
        ensures { result ≡ bytes.items }
    {
        FormBytes { bytes }
    }

    pub fn as_slice(&self) -> &[u8]
        ensures { result.now ≡ self.now }
    {
        &self.bytes
    }
}

impl PartialEq for FormBytes {
    ghost use Rattle.std.specs.Prelude.{bytes_eq};
    ghost use Rattle.std.proofs.Common.{rules};
    ghost use Rattle.std.specs.Cmp.Rules.{comparing};

    ghost eq = { bytes_eq };

    ghost laws = { Prim.search (comparing, rules) };

    fn eq(&self, other: &FormBytes) -> bool {
        self.as_slice() == other.as_slice()
    }
}

impl Eq for FormBytes {
    ghost use Rattle.std.proofs.Common.{rules};
    ghost use Rattle.std.specs.Cmp.Rules.{comparing};

    ghost laws = { Prim.search (comparing, rules) };
}

impl Clone for FormBytes {
    ghost use Rattle.std.specs.Prelude.{◌≡◌};

    ghost is_clone = { λ form copy. copy ≡ form };

    fn clone(&self) -> Result<FormBytes, AllocError> {
        Ok(FormBytes {
            bytes: self.bytes.clone()?,
        })
    }
}

/// A node's operation on a service: a granted access that other nodes have to know.
#[derive(Debug, PartialEq, Eq)]
pub enum Operation {
    MakeTag,
    RemoveTag,
    /// The service's number.
    Lock { number: u64 },
    MakeSegment { number: u64, max_nodes: u64 },
    RemoveSegment,
    RemoveDescription,
    Publish { number: u64, bytes: FormBytes },
    OpenSegment { number: u64, ticket: u64 },
    Release { ticket: u64, number: u64 },
    /// The counter goes on at this number: the node locked each number before it, and gave it up.
    Spend { number: u64 },
    /// An operation of no node and no service: the log goes on in another place.
    Moved,
}

// Written out, so that a proof of what lets one go doesn't take its fields apart.
impl Drop for Operation {
    fn drop(self) {
        match self {
            Operation::MakeTag
            | Operation::RemoveTag
            | Operation::RemoveSegment
            | Operation::RemoveDescription => {}
            Operation::Moved => {}
            Operation::Lock { number: _ } => {}
            Operation::Spend { number: _ } => {}
            Operation::MakeSegment {
                number: _,
                max_nodes: _,
            } => {}
            Operation::Publish {
                number: _,
                bytes: _,
            } => {}
            Operation::OpenSegment {
                number: _,
                ticket: _,
            } => {}
            Operation::Release {
                ticket: _,
                number: _,
            } => {}
        }
    }
}

impl Clone for Operation {
    ghost use Rattle.std.specs.Prelude.{◌≡◌};

    ghost is_clone = { λ operation copy. copy ≡ operation };

    fn clone(&self) -> Result<Operation, AllocError> {
        Ok(match self {
            Operation::MakeTag => Operation::MakeTag,
            Operation::RemoveTag => Operation::RemoveTag,
            Operation::Lock { number } => Operation::Lock { number: *number },
            Operation::MakeSegment { number, max_nodes } => Operation::MakeSegment {
                number: *number,
                max_nodes: *max_nodes,
            },
            Operation::RemoveSegment => Operation::RemoveSegment,
            Operation::RemoveDescription => Operation::RemoveDescription,
            Operation::Spend { number } => Operation::Spend { number: *number },
            Operation::Moved => Operation::Moved,
            Operation::Publish { number, bytes } => Operation::Publish {
                number: *number,
                bytes: bytes.clone()?,
            },
            Operation::OpenSegment { number, ticket } => Operation::OpenSegment {
                number: *number,
                ticket: *ticket,
            },
            Operation::Release { ticket, number } => Operation::Release {
                ticket: *ticket,
                number: *number,
            },
        })
    }
}

/// An access that had an effect: its node, its service and its operation.
#[derive(Debug, PartialEq, Eq)]
pub struct Entry {
    pub node: u64,
    pub hash: ServiceHash,
    pub operation: Operation,
}

// Written out, so that a proof of what lets one go doesn't take its fields apart.
impl Drop for Entry {
    fn drop(self) {
        let Entry {
            node: _,
            hash: _,
            operation: _,
        } = self;
    }
}

impl Clone for Entry {
    ghost use Rattle.std.specs.Prelude.{◌≡◌};

    ghost is_clone = { λ entry copy. copy ≡ entry };

    fn clone(&self) -> Result<Entry, AllocError> {
        Ok(Entry {
            node: self.node,
            hash: self.hash,
            operation: self.operation.clone()?,
        })
    }
}
