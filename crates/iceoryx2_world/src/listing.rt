//! The list of a table.

use crate::world::Bytes;
use iceoryx2_description::description::ServiceHash;

/// The row under a hash, as it is listed.
#[derive(Debug, Drop, PartialEq, Eq)]
pub enum ListedRow {
    Absent,
    /// Somebody is creating the service of this number.
    Locked(u64),
    /// The service of this number, and its description's bytes.
    Published(u64, Bytes),
}

/// A segment, as it is listed.
#[derive(Clone, Copy, Debug, PartialEq, Eq)]
pub struct ListedSegment {
    pub number: u64,
    /// The number of participants that the segment takes.
    pub max_nodes: u64,
    /// The number of participants that the segment has.
    pub participants: u64,
    /// True if the last participant has left the segment.
    pub marked: bool,
}

/// The row and the segment of one service, as they are listed.
#[derive(Debug, Drop, PartialEq, Eq)]
pub struct Entry {
    pub hash: ServiceHash,
    pub row: ListedRow,
    pub segment: Option<ListedSegment>,
}
