//! The content that a table keeps of all nodes, the own part of each access of one, and the recorder that
//! writes it down.

ghost use Rattle.std.specs.Prelude.{◌≡◌, filter, length};
ghost use Rattle.std.specs.FinMap as map;
ghost use Rattle.std.specs.Ordering.{nat_cmp};
ghost use Rattle.iceoryx2_access.specs.Letter as letter;
ghost use Rattle.iceoryx2_world.specs.Batches.{IsPeerStep};
ghost use Rattle.iceoryx2_world.specs.World.{belongs};
ghost use Rattle.iceoryx2_table.specs.Recorded.{IsRecordedPart};

mod unrecorded;

use crate::keys::TagKey;
use crate::kinds::Kinds;
use crate::services::Services;
use crate::steps::Steps;
use crate::taking::{has_segment_for, open_refusal, take};
use finite_map::FiniteMap;
use iceoryx2_access::storage::{
    LockError, MakeSegmentError, OpenSegmentError, PublishError, Release, ReleaseError,
    RemoveError, Tag, TagError,
};
use iceoryx2_description::description::{ServiceHash, StaticConfig};
use iceoryx2_table::recorder::Recorder;
use iceoryx2_table::rows::RowState;
use iceoryx2_table::table::stored::{count_after, has_made, is_held, may_make, ticket_for};
use iceoryx2_world::batches::Step;
use iceoryx2_world::world::{Participant, Ticket};
use std::alloc::{AllocError, Global};
use std::marker::Model;

/// The services, the tags and the tickets.
///
/// Nine of a node's accesses change facts that others may have to know, and take a `Recorder`. An access
/// that is granted and changes something asks the recorder once. It asks after all tests and after all
/// requests for memory, and before the first change, which can't fail then. An access that is refused,
/// finds no memory or changes nothing doesn't ask. If the recorder refuses, the access answers its
/// general fault, which each access names, and nothing has changed. With `Unrecorded` each access is the
/// node's own part alone.
#[derive(Drop)]
pub struct WorldOver<M: Kinds> {
    services: Services<M>,
    tags: M::Tags,
    tickets: M::Tickets,
}

impl<M: Kinds> Model for WorldOver<M> {
    ghost use Rattle.std.specs.Ordering.{nat_cmp};
    ghost use Rattle.iceoryx2_world.specs.Orders.{hash_cmp, place_cmp, tag_cmp};
    ghost use Rattle.iceoryx2_world.specs.World.{World};
    ghost use Rattle.iceoryx2_world.specs.Codes.{coded_world};

    ghost Value = { World };

    ghost coded = { coded_world };

    ghost view = { λ t. record {
      rows = M.Rows.seen hash_cmp t.services.rows;
      segments = M.Segments.seen hash_cmp t.services.segments;
      phases = M.Phases.seen place_cmp t.services.phases;
      tags = M.Tags.seen tag_cmp t.tags;
      tickets = M.Tickets.seen nat_cmp t.tickets;
      counter = t.services.counter;
    } };
}

// How many of the tickets are this node's for this service.
fn count_held<T: FiniteMap<u64, Ticket>>(tickets: &T, node: u64, hash: &ServiceHash) -> u64
    ensures { result ≡ length (filter (belongs node hash.now) (map.entries (T.seen nat_cmp tickets.now))) }
{
    let _most = tickets.len();
    let mut count = 0;
    let mut cursor = tickets.first();
    while let Some(found) = tickets.next(cursor) {
        let ticket = found.0.1;
        if ticket.node == node && ticket.hash.cmp(hash).is_eq() {
            count += 1;
        }
        cursor = found.1;
    }
    count
}

impl<M: Kinds> WorldOver<M> {
    // Takes a step of a peer, and gives the count of skipped steps after it.
    fn take(&mut self, step: &Step, skipped: u64) -> u64
        ensures { IsPeerStep (self.old, skipped) step.now (self.new, result) }
    {
        let peer = Participant::Peer(step.peer);
        let taken = take(&mut self.services, peer, &step.hash, &step.act);
        count_after(taken, skipped)
    }

    /// Makes the node's tag. Returns `Found` if the tag is there already, else `Made`. `OutOfMemory`, and
    /// `Fault` if the recorder refuses.
    pub fn make_tag<R: Recorder>(
        &mut self,
        recorder: &mut R,
        node: u64,
        hash: &ServiceHash,
    ) -> Result<Tag, TagError>
        ensures { IsRecordedPart R.written R.refused self.old (letter.MakeTag node hash.now result) self.new
            recorder.old recorder.new }
    {
        let key = TagKey { node, hash: *hash };
        let place = self.tags.place_of(&key);
        if self.tags.get_at(&key, place).is_some() {
            return Ok(Tag::Found);
        }
        let Ok(place) = self.tags.reserve_at(&key, place) else {
            return Err(TagError::OutOfMemory);
        };
        let Ok(_) = recorder.write_down() else {
            return Err(TagError::Fault);
        };
        self.tags.insert_at(key, place, ());
        Ok(Tag::Made)
    }

    /// Removes the node's tag. `Other` if the recorder refuses.
    pub fn remove_tag<R: Recorder>(
        &mut self,
        recorder: &mut R,
        node: u64,
        hash: &ServiceHash,
    ) -> Result<(), RemoveError>
        ensures { IsRecordedPart R.written R.refused self.old (letter.RemoveTag node hash.now result) self.new
            recorder.old recorder.new }
    {
        let key = TagKey { node, hash: *hash };
        let place = self.tags.place_of(&key);
        if self.tags.get_at(&key, place).is_none() {
            return Ok(());
        }
        let Ok(_) = recorder.write_down() else {
            return Err(RemoveError::Other);
        };
        let _ = self.tags.remove_at(&key, place);
        Ok(())
    }

    /// Gives the node the service's lock, and returns its number: the counter before. `Creation` while
    /// another node holds the lock, `AlreadyExists` if the service is published, and `OutOfMemory`.
    /// `Other` if no number is left, if the node holds something there, or if the recorder refuses.
    pub fn lock<R: Recorder>(
        &mut self,
        recorder: &mut R,
        node: u64,
        hash: &ServiceHash,
    ) -> Result<u64, LockError>
        ensures { IsRecordedPart R.written R.refused self.old (letter.Lock node hash.now result) self.new
            recorder.old recorder.new }
    {
        let row = self.services.row_place(hash);
        if let Some(standing) = self.services.row_at(hash, row) {
            match standing.state() {
                RowState::Locked(_) => return Err(LockError::Creation),
                RowState::Published(_) => return Err(LockError::AlreadyExists),
            }
        }
        let number = self.services.counter();
        let participant = Participant::Node(node);
        let Ok(locked) = self.services.lock(recorder, participant, hash, row) else {
            return Err(LockError::OutOfMemory);
        };
        if !locked {
            return Err(LockError::Other);
        }
        Ok(number)
    }

    /// Makes a segment for so many nodes, and puts the node into it. `AlreadyExists`, and `OutOfMemory`.
    /// `Other` if the node doesn't hold the lock of that number, for no nodes, or if the recorder
    /// refuses.
    pub fn make_segment<R: Recorder>(
        &mut self,
        recorder: &mut R,
        node: u64,
        hash: &ServiceHash,
        number: u64,
        max_nodes: u64,
    ) -> Result<(), MakeSegmentError>
        ensures { IsRecordedPart R.written R.refused self.old (letter.MakeSegment node hash.now number max_nodes result)
            self.new recorder.old recorder.new }
    {
        let participant = Participant::Node(node);
        let position = self.services.position(participant, hash);
        if !may_make(position.phase, number, max_nodes) {
            return Err(MakeSegmentError::Other);
        }
        let segment = self.services.segment_place(hash);
        if self.services.segment_at(hash, segment).is_some() {
            return Err(MakeSegmentError::AlreadyExists);
        }
        let Ok(made) = self.services.make(
            recorder,
            participant,
            hash,
            max_nodes,
            position.place,
            segment,
        )
        else {
            return Err(MakeSegmentError::OutOfMemory);
        };
        if !made {
            return Err(MakeSegmentError::Other);
        }
        Ok(())
    }

    /// Removes the segment. `Other` if the node may not remove it, or if the recorder refuses.
    pub fn remove_segment<R: Recorder>(
        &mut self,
        recorder: &mut R,
        node: u64,
        hash: &ServiceHash,
    ) -> Result<(), RemoveError>
        ensures { IsRecordedPart R.written R.refused self.old (letter.RemoveSegment node hash.now result) self.new
            recorder.old recorder.new }
    {
        let participant = Participant::Node(node);
        if self.services.remove_segment(recorder, participant, hash) {
            return Ok(());
        }
        Err(RemoveError::Other)
    }

    /// Removes what is written under the hash. `Other` if the node may not remove it, or if the recorder
    /// refuses.
    pub fn remove_description<R: Recorder>(
        &mut self,
        recorder: &mut R,
        node: u64,
        hash: &ServiceHash,
    ) -> Result<(), RemoveError>
        ensures { IsRecordedPart R.written R.refused self.old (letter.RemoveDescription node hash.now result) self.new
            recorder.old recorder.new }
    {
        let participant = Participant::Node(node);
        if self
            .services
            .remove_description(recorder, participant, hash)
        {
            return Ok(());
        }
        Err(RemoveError::Other)
    }

    /// Publishes the description under the number, which becomes the ticket of the node: the node is
    /// registered then. `OutOfMemory`. `Other` if the node hasn't made a segment of that number that the
    /// description fits, or if the recorder refuses.
    pub fn publish<R: Recorder>(
        &mut self,
        recorder: &mut R,
        node: u64,
        hash: &ServiceHash,
        number: u64,
        description: &StaticConfig,
    ) -> Result<u64, PublishError>
        ensures { IsRecordedPart R.written R.refused self.old
            (letter.Publish node hash.now number description.now result) self.new recorder.old recorder.new }
    {
        let participant = Participant::Node(node);
        let position = self.services.position(participant, hash);
        if !has_made(position.phase, number) {
            return Err(PublishError::Other);
        }
        if !has_segment_for(&self.services, hash, description) {
            return Err(PublishError::Other);
        }
        let ticket = number;
        let place = self.tickets.place_of(&ticket);
        let Ok(place) = self.tickets.reserve_at(&ticket, place) else {
            return Err(PublishError::OutOfMemory);
        };
        let Ok(published) = self
            .services
            .publish(recorder, participant, hash, description, position.place)
        else {
            return Err(PublishError::OutOfMemory);
        };
        if !published {
            return Err(PublishError::Other);
        }
        let held = ticket_for(node, hash, number);
        self.tickets.insert_at(ticket, place, held);
        Ok(ticket)
    }

    /// Registers the node in the segment of that number, and returns its ticket: the counter before.
    /// `DoesNotExist`, `Marked` if all have left, `Full`, `OutOfNumbers`, and `OutOfMemory`. `Failed` if
    /// the segment has another number, or the description that the node has read, if the node can't join,
    /// or if the recorder refuses.
    pub fn open_segment<R: Recorder>(
        &mut self,
        recorder: &mut R,
        node: u64,
        hash: &ServiceHash,
        number: u64,
    ) -> Result<u64, OpenSegmentError>
        ensures { IsRecordedPart R.written R.refused self.old (letter.OpenSegment node hash.now number result) self.new
            recorder.old recorder.new }
    {
        let participant = Participant::Node(node);
        let segment = self.services.segment_place(hash);
        let position = self.services.position(participant, hash);
        if let Some(refusal) = open_refusal(&self.services, hash, segment, number, position.phase) {
            return Err(refusal);
        }
        let ticket = self.services.counter();
        let place = self.tickets.place_of(&ticket);
        let Ok(place) = self.tickets.reserve_at(&ticket, place) else {
            return Err(OpenSegmentError::OutOfMemory);
        };
        let Ok(joined) = self
            .services
            .join(recorder, participant, hash, position.place, segment)
        else {
            return Err(OpenSegmentError::OutOfMemory);
        };
        if !joined {
            return Err(OpenSegmentError::Failed);
        }
        let _handed_out = self.services.next_number();
        let held = ticket_for(node, hash, number);
        self.tickets.insert_at(ticket, place, held);
        Ok(ticket)
    }

    /// Releases the ticket. Returns `StillCounted` if the node has others, else `Left`, or `Last` if
    /// nobody stays; the segment is then marked by the same entry. `NoSuchTicket` if the node has no such
    /// ticket for the service and number, or if the recorder refuses.
    pub fn release<R: Recorder>(
        &mut self,
        recorder: &mut R,
        ticket: u64,
        node: u64,
        hash: &ServiceHash,
        number: u64,
    ) -> Result<Release, ReleaseError>
        ensures { IsRecordedPart R.written R.refused self.old (letter.Release ticket node hash.now number result)
            self.new recorder.old recorder.new }
    {
        let place = self.tickets.place_of(&ticket);
        if !is_held(self.tickets.get_at(&ticket, place), node, hash, number) {
            return Err(ReleaseError::NoSuchTicket);
        }
        let participant = Participant::Node(node);
        let Some(release) = self.services.leave(recorder, participant, hash) else {
            return Err(ReleaseError::NoSuchTicket);
        };
        let _ = self.tickets.remove_at(&ticket, place);
        Ok(release)
    }
}
