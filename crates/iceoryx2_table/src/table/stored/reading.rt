//! The content of a stored world, read by key and as whole lists.

ghost use Rattle.std.specs.Prelude.{◌≡◌};
ghost use Rattle.std.specs.FinMap as map;
ghost use Rattle.std.specs.Option.{option_copied};
ghost use Rattle.iceoryx2_world.specs.declared.world.Participant.TheVariants.{Node};
ghost use Rattle.iceoryx2_world.specs.World.{phase_of, row_of, segment_of, ticket_of};

use super::StoredWorld;
use crate::rows::StoredRow;
use crate::segments::StoredSegment;
use iceoryx2_description::description::ServiceHash;
use iceoryx2_world::world::{Participant, Phase, Ticket};
use std::alloc::Global;

/// None of these takes memory. A list has each of its keys once, by rising key. A look-up by key is one
/// binary search.
impl StoredWorld {
    /// Returns the tickets of all nodes, by number.
    pub fn tickets_held(&self) -> &[(u64, Ticket)]
        ensures { result.now ≡ map.entries self.now.tickets }
    {
        self.tickets.entries()
    }

    /// Returns the tags of all nodes, by node and then by hash.
    pub fn tags_held(&self) -> &[((u64, ServiceHash), ())]
        ensures { result.now ≡ map.entries self.now.tags }
    {
        self.tags.entries()
    }

    /// Returns the phases of all participants, nodes before peers, each by number and then by hash. An
    /// absent participant is Idle.
    pub fn phases_held(&self) -> &[((Participant, ServiceHash), Phase)]
        ensures { result.now ≡ map.entries self.now.phases }
    {
        self.services.phases_held()
    }

    /// Returns the rows of all services, by hash.
    pub fn rows_held(&self) -> &[(ServiceHash, StoredRow)]
        ensures { result.now ≡ map.entries self.now.rows }
    {
        self.services.rows_held()
    }

    /// Returns the segments of all services, by hash.
    pub fn segments_held(&self) -> &[(ServiceHash, StoredSegment)]
        ensures { result.now ≡ map.entries self.now.segments }
    {
        self.services.segments_held()
    }

    /// Returns the row that is written under the hash.
    pub fn row(&self, hash: &ServiceHash) -> Option<&StoredRow>
        ensures { option_copied result ≡ row_of self.now hash.now }
    {
        self.services.row(hash)
    }

    /// Returns the service's segment.
    pub fn segment(&self, hash: &ServiceHash) -> Option<&StoredSegment>
        ensures { option_copied result ≡ segment_of self.now hash.now }
    {
        self.services.segment(hash)
    }

    /// Returns the phase of the node with the service: Idle if nothing is kept of it.
    pub fn phase(&self, node: u64, hash: &ServiceHash) -> Phase
        ensures { result ≡ phase_of self.now (Node node) hash.now }
    {
        self.services.position(Participant::Node(node), hash).phase
    }

    /// Returns the phase of the participant with the service: Idle if nothing is kept of it.
    pub fn phase_at(&self, participant: Participant, hash: &ServiceHash) -> Phase
        ensures { result ≡ phase_of self.now participant hash.now }
    {
        self.services.position(participant, hash).phase
    }

    /// Returns the allocator of its memory.
    pub fn allocator(&self) -> Global {
        self.tags.allocator()
    }

    /// Returns the node of the ticket, with its service and number. `None` if nobody has the ticket.
    pub fn ticket(&self, ticket: u64) -> Option<Ticket>
        ensures { result ≡ ticket_of self.now ticket }
    {
        match self.tickets.get(&ticket) {
            Some(held) => Some(*held),
            None => None,
        }
    }
}
