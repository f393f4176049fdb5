//! The kinds of maps in which a table keeps its content.

use crate::keys::{Seat, TagKey};
use finite_map::FiniteMap;
use finite_map::chunks::ChunkedMap;
use finite_map::sorted::SortedVec;
use iceoryx2_description::description::ServiceHash;
use iceoryx2_table::rows::StoredRow;
use iceoryx2_table::segments::StoredSegment;
use iceoryx2_world::world::{Phase, Ticket};

/// The kinds of a table's five maps.
pub trait Kinds {
    /// Rows by hash.
    type Rows: FiniteMap<ServiceHash, StoredRow> + Drop;

    /// Segments by hash.
    type Segments: FiniteMap<ServiceHash, StoredSegment> + Drop;

    /// Phases by participant, nodes before peers, and then by hash. An absent participant is Idle.
    type Phases: FiniteMap<Seat, Phase> + Drop;

    /// Tags by node and then by hash.
    type Tags: FiniteMap<TagKey, ()> + Drop;

    /// Tickets by number.
    type Tickets: FiniteMap<u64, Ticket> + Drop;
}

/// A kind in which each map is a sorted vector.
pub struct Vectors;

impl Kinds for Vectors {
    type Rows = SortedVec<ServiceHash, StoredRow>;

    type Segments = SortedVec<ServiceHash, StoredSegment>;

    type Phases = SortedVec<Seat, Phase>;

    type Tags = SortedVec<TagKey, ()>;

    type Tickets = SortedVec<u64, Ticket>;
}

/// A kind in which each map keeps its entries in chunks.
pub struct Chunks;

impl Kinds for Chunks {
    type Rows = ChunkedMap<ServiceHash, StoredRow>;

    type Segments = ChunkedMap<ServiceHash, StoredSegment>;

    type Phases = ChunkedMap<Seat, Phase>;

    type Tags = ChunkedMap<TagKey, ()>;

    type Tickets = ChunkedMap<u64, Ticket>;
}
