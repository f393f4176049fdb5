//! The content that a storage keeps of all nodes, the own part of each access of one, and the recorder that
//! writes it down.

ghost use Rattle.std.specs.Prelude.{◌≡◌, ◌&&◌, IfOk, nat_lt, filter, length};
ghost use Rattle.iceoryx2_world.specs.World.{belongs, empty_world, ticket_count, tag_of};
ghost use Rattle.iceoryx2_world.specs.Listing.{Lists};
ghost use Rattle.std.specs.Option.{option_copied};
ghost use Rattle.iceoryx2_world.specs.Batches.{IsBatch, IsPeerStep, skipped_after};
ghost use Rattle.iceoryx2_access.specs.Letter as letter;
ghost use Rattle.iceoryx2_access.specs.Letter.{fetch_answer};
ghost use Rattle.iceoryx2_world.specs.Access.{IsOwnPart, has_lock, has_made as has_made_spec, is_ticket};
ghost use Rattle.iceoryx2_table.specs.Holdings.{IsHolding};
ghost use Rattle.iceoryx2_table.specs.Recorded.{IsRecordedPart};

pub mod reading;
pub mod spending;
pub mod unrecorded;

use crate::holdings::{Holding, first_tag, first_ticket};
use crate::recorder::Recorder;
use crate::rows::RowState;
use crate::services::Services;
use finite_map::sorted::SortedVec;
use iceoryx2_access::storage::{
    Existence, FetchError, LockError, MakeSegmentError, OpenSegmentError, PublishError, Release,
    ReleaseError, RemoveError, Tag, TagError,
};
use iceoryx2_description::description::{ServiceHash, StaticConfig};
use iceoryx2_world::batches::Step;
use iceoryx2_world::listing::Entry;
use iceoryx2_world::world::{Participant, Phase, Ticket};
use std::alloc::{AllocError, Global};
use std::marker::Model;

/// The services, the tags and the tickets.
///
/// Nine of a node's accesses change facts that others may have to know, and take a `Recorder`. An access
/// that is granted and changes something asks the recorder once. It asks after all tests and after all
/// requests for memory, and before the first change, which can't fail then. An access that is refused,
/// finds no memory or changes nothing doesn't ask. If the recorder refuses, the access answers its
/// general fault, which each access names, and nothing has changed. With `Unrecorded` each access is the
/// node's own part alone.
pub struct StoredWorld {
    services: Services,
    tags: SortedVec<(u64, ServiceHash), ()>,
    tickets: SortedVec<u64, Ticket>,
}

// Written out, so that a proof of what lets one go doesn't take its fields apart.
impl Drop for StoredWorld {
    fn drop(self) {
        let StoredWorld {
            services: _,
            tags: _,
            tickets: _,
        } = self;
    }
}

impl Model for StoredWorld {
    ghost use Rattle.std.specs.Ordering.{nat_cmp};
    ghost use Rattle.finite_map.specs.Sorted.{map_of};
    ghost use Rattle.iceoryx2_world.specs.Orders.{tag_cmp};
    ghost use Rattle.iceoryx2_world.specs.World.{World};
    ghost use Rattle.iceoryx2_world.specs.Codes.{coded_world};
    ghost use Rattle.iceoryx2_table.specs.ServicesState.{world_with};

    ghost Value = { World };

    ghost coded = { coded_world };

    ghost view = { λ t. world_with t.services (map_of tag_cmp t.tags) (map_of nat_cmp t.tickets) };
}

// How many of the tickets are this node's for this service.
fn count_held(tickets: &[(u64, Ticket)], node: u64, hash: &ServiceHash) -> usize
    ensures { result ≡ length (filter (belongs node hash.now) tickets.now) }
{
    tickets
        .iter()
        .filter(|entry| entry.1.node == node && entry.1.hash.cmp(hash).is_eq())
        .count()
}

/// Returns true if this is the node's ticket for this service and number.
pub fn is_held(held: Option<&Ticket>, node: u64, hash: &ServiceHash, number: u64) -> bool
    ensures { result ≡ is_ticket node hash.now number (option_copied held.entry) }
{
    match held {
        None => false,
        Some(held) => held.node == node && held.hash.cmp(hash).is_eq() && held.number == number,
    }
}

/// Returns the ticket that a node is given for a service and number.
pub fn ticket_for(node: u64, hash: &ServiceHash, number: u64) -> Ticket
    ensures { result ≡ record { node = node; hash = hash.now; number = number } }
{
    Ticket {
        node,
        hash: *hash,
        number,
    }
}

/// Returns true if the participant has made a segment under the lock of this number.
pub fn has_made(phase: Phase, number: u64) -> bool
    ensures { result ≡ has_made_spec number phase }
{
    match phase {
        Phase::Made(made) => made == number,
        _ => false,
    }
}

/// Returns true if the participant holds the lock of this number, for at least one node.
pub fn may_make(phase: Phase, number: u64, max_nodes: u64) -> bool
    ensures { result ≡ (has_lock number phase && nat_lt 0 max_nodes) }
{
    match phase {
        Phase::Locked(held) => held == number && max_nodes > 0,
        _ => false,
    }
}

/// Returns the count of skipped steps after a step that answered this.
pub fn count_after(taken: Result<bool, AllocError>, skipped: u64) -> u64
    ensures { result ≡ skipped_after taken skipped }
{
    match taken {
        Ok(_) => skipped,
        Err(_) => skipped.saturating_add(1),
    }
}

impl StoredWorld {
    // Takes a step of a peer, and gives the count of skipped steps after it.
    fn take(&mut self, step: &Step, skipped: u64) -> u64
        ensures { IsPeerStep (self.old, skipped) step.now (self.new, result) }
    {
        let taken = self
            .services
            .take(Participant::Peer(step.peer), &step.hash, &step.act);
        count_after(taken, skipped)
    }

    /// Takes a batch's steps in order, and returns the count of skipped steps after them.
    pub fn take_all(&mut self, batch: &[Step], skipped: u64) -> u64
        ensures { IsBatch (self.old, skipped) batch.now (self.new, result) }
    {
        let mut count = skipped;
        for step in batch {
            count = self.take(step, count);
        }
        count
    }

    /// Returns an empty world with the counter's first value. Takes no memory.
    pub fn starting_at(alloc: Global, counter: u64) -> StoredWorld
        ensures { result ≡ empty_world counter }
    {
        StoredWorld {
            services: Services::starting_at(alloc, counter),
            tags: SortedVec::new(alloc),
            tickets: SortedVec::new(alloc),
        }
    }

    /// Returns each service with a row or a segment, in the order of the hashes' bytes.
    pub fn list(&self) -> Result<Vec<Entry>, AllocError>
        ensures { IfOk result (λ entries. Lists self.now entries.items) }
    {
        self.services.list()
    }

    /// Returns true if the node has a tag for the service.
    pub fn has_tag(&self, node: u64, hash: &ServiceHash) -> bool
        ensures { result ≡ tag_of self.now node hash.now }
    {
        match self.tags.get(&(node, *hash)) {
            Some(_) => true,
            None => false,
        }
    }

    /// Returns the number of tickets that the node has for the service.
    pub fn tickets(&self, node: u64, hash: &ServiceHash) -> u64
        ensures { result ≡ ticket_count self.now.tickets node hash.now }
    {
        count_held(self.tickets.entries(), node, hash) as u64
    }

    /// Returns something that the node has. It is the node's first ticket; if the node has none, the
    /// first service that it is creating or has to remove; if there is none either, its first tag. `None`
    /// if the node has none of these.
    pub fn holding(&self, node: u64) -> Option<Holding>
        ensures { IsHolding self.now node result }
    {
        if let Some(ticket) = first_ticket(self.tickets.entries(), node) {
            return Some(ticket);
        }
        if let Some(service) = self.services.unfinished(node) {
            return Some(service);
        }
        first_tag(self.tags.entries(), node)
    }

    /// Returns the next number or ticket: the one that `lock` and `open_segment` hand out if they are
    /// granted.
    pub fn counter(&self) -> u64
        ensures { result ≡ self.now.counter }
    {
        self.services.counter()
    }

    /// Returns `No` if nothing is written under the hash, `BeingSetUp` if somebody holds its lock, and
    /// `Yes` if it is published.
    pub fn exists(&self, hash: &ServiceHash) -> Existence
        ensures { IsOwnPart self.now (letter.Exists hash.now result) self.now }
    {
        match self.services.row(hash) {
            None => Existence::No,
            Some(row) => match row.state() {
                RowState::Locked(_) => Existence::BeingSetUp,
                RowState::Published(_) => Existence::Yes,
            },
        }
    }

    /// Returns the number and the bytes of the published description. The node has read them then, which
    /// nobody else has to know, so nothing is written down. `DoesNotExist`, `NotFinalized` while the
    /// service is being set up, `OutOfMemory`.
    pub fn fetch(&mut self, node: u64, hash: &ServiceHash) -> Result<(u64, Vec<u8>), FetchError>
        ensures { IsOwnPart self.old (letter.Fetch node hash.now (fetch_answer result)) self.new }
    {
        let Some(row) = self.services.row(hash) else {
            return Err(FetchError::DoesNotExist);
        };
        let RowState::Published(number) = row.state() else {
            return Err(FetchError::NotFinalized);
        };
        let Ok(copy) = row.bytes().copy() else {
            return Err(FetchError::OutOfMemory);
        };
        let Ok(_) = self.services.read(Participant::Node(node), hash, number) else {
            return Err(FetchError::OutOfMemory);
        };
        Ok((number, copy))
    }

    /// Returns true if the node is registered in the service's segment.
    pub fn counts(&self, node: u64, hash: &ServiceHash) -> bool
        ensures { IsOwnPart self.now (letter.Counts node hash.now result) self.now }
    {
        match self.services.position(Participant::Node(node), hash).phase {
            Phase::Joined(_, _) => true,
            _ => false,
        }
    }

    /// Makes the node's tag. Returns `Found` if the tag is there already, else `Made`. `OutOfMemory`, and
    /// `Fault` if the recorder refuses.
    pub fn make_tag<R: Recorder>(
        &mut self,
        recorder: &mut R,
        node: u64,
        hash: &ServiceHash,
    ) -> Result<Tag, TagError>
        ensures { IsRecordedPart R.written R.refused self.old (letter.MakeTag node hash.now result) self.new
            recorder.old recorder.new }
    {
        let key = (node, *hash);
        let place = self.tags.place_of(&key);
        if place.is_ok() {
            return Ok(Tag::Found);
        }
        if self.tags.reserve().is_err() {
            return Err(TagError::OutOfMemory);
        }
        let Ok(_) = recorder.write_down() else {
            return Err(TagError::Fault);
        };
        self.tags.insert_at(key, place, ());
        Ok(Tag::Made)
    }

    /// Removes the node's tag. `Other` if the recorder refuses.
    pub fn remove_tag<R: Recorder>(
        &mut self,
        recorder: &mut R,
        node: u64,
        hash: &ServiceHash,
    ) -> Result<(), RemoveError>
        ensures { IsRecordedPart R.written R.refused self.old (letter.RemoveTag node hash.now result) self.new
            recorder.old recorder.new }
    {
        let key = (node, *hash);
        let place = self.tags.place_of(&key);
        if !place.is_ok() {
            return Ok(());
        }
        let Ok(_) = recorder.write_down() else {
            return Err(RemoveError::Other);
        };
        let _ = self.tags.remove_at(&key, place);
        Ok(())
    }

    /// Gives the node the service's lock, and returns its number: the counter before. `Creation` while
    /// another node holds the lock, `AlreadyExists` if the service is published, and `OutOfMemory`.
    /// `Other` if no number is left, if the node holds something there, or if the recorder refuses.
    pub fn lock<R: Recorder>(
        &mut self,
        recorder: &mut R,
        node: u64,
        hash: &ServiceHash,
    ) -> Result<u64, LockError>
        ensures { IsRecordedPart R.written R.refused self.old (letter.Lock node hash.now result) self.new
            recorder.old recorder.new }
    {
        let row = self.services.row_place(hash);
        if let Some(standing) = self.services.row_at(hash, row) {
            match standing.state() {
                RowState::Locked(_) => return Err(LockError::Creation),
                RowState::Published(_) => return Err(LockError::AlreadyExists),
            }
        }
        let number = self.services.counter();
        let Ok(locked) = self
            .services
            .lock(recorder, Participant::Node(node), hash, row)
        else {
            return Err(LockError::OutOfMemory);
        };
        if !locked {
            return Err(LockError::Other);
        }
        Ok(number)
    }

    /// Makes a segment for so many nodes, and puts the node into it. `AlreadyExists`, and `OutOfMemory`.
    /// `Other` if the node doesn't hold the lock of that number, for no nodes, or if the recorder
    /// refuses.
    pub fn make_segment<R: Recorder>(
        &mut self,
        recorder: &mut R,
        node: u64,
        hash: &ServiceHash,
        number: u64,
        max_nodes: u64,
    ) -> Result<(), MakeSegmentError>
        ensures { IsRecordedPart R.written R.refused self.old (letter.MakeSegment node hash.now number max_nodes result)
            self.new recorder.old recorder.new }
    {
        let participant = Participant::Node(node);
        let position = self.services.position(participant, hash);
        if !may_make(position.phase, number, max_nodes) {
            return Err(MakeSegmentError::Other);
        }
        let segment = self.services.segment_place(hash);
        if segment.is_ok() {
            return Err(MakeSegmentError::AlreadyExists);
        }
        let Ok(made) = self
            .services
            .make(recorder, participant, hash, max_nodes, position, segment)
        else {
            return Err(MakeSegmentError::OutOfMemory);
        };
        if !made {
            return Err(MakeSegmentError::Other);
        }
        Ok(())
    }

    /// Removes the segment. `Other` if the node may not remove it, or if the recorder refuses.
    pub fn remove_segment<R: Recorder>(
        &mut self,
        recorder: &mut R,
        node: u64,
        hash: &ServiceHash,
    ) -> Result<(), RemoveError>
        ensures { IsRecordedPart R.written R.refused self.old (letter.RemoveSegment node hash.now result) self.new
            recorder.old recorder.new }
    {
        if self
            .services
            .remove_segment(recorder, Participant::Node(node), hash)
        {
            return Ok(());
        }
        Err(RemoveError::Other)
    }

    /// Removes what is written under the hash. `Other` if the node may not remove it, or if the recorder
    /// refuses.
    pub fn remove_description<R: Recorder>(
        &mut self,
        recorder: &mut R,
        node: u64,
        hash: &ServiceHash,
    ) -> Result<(), RemoveError>
        ensures { IsRecordedPart R.written R.refused self.old (letter.RemoveDescription node hash.now result) self.new
            recorder.old recorder.new }
    {
        if self
            .services
            .remove_description(recorder, Participant::Node(node), hash)
        {
            return Ok(());
        }
        Err(RemoveError::Other)
    }

    /// Publishes the description under the number, which becomes the ticket of the node: the node is
    /// registered then. `OutOfMemory`. `Other` if the node hasn't made a segment of that number that the
    /// description fits, or if the recorder refuses.
    pub fn publish<R: Recorder>(
        &mut self,
        recorder: &mut R,
        node: u64,
        hash: &ServiceHash,
        number: u64,
        description: &StaticConfig,
    ) -> Result<u64, PublishError>
        ensures { IsRecordedPart R.written R.refused self.old
            (letter.Publish node hash.now number description.now result) self.new recorder.old recorder.new }
    {
        let participant = Participant::Node(node);
        let position = self.services.position(participant, hash);
        if !has_made(position.phase, number) {
            return Err(PublishError::Other);
        }
        if !self.services.has_segment_for(hash, description) {
            return Err(PublishError::Other);
        }
        if self.tickets.reserve().is_err() {
            return Err(PublishError::OutOfMemory);
        }
        let Ok(published) = self
            .services
            .publish(recorder, participant, hash, description, position)
        else {
            return Err(PublishError::OutOfMemory);
        };
        if !published {
            return Err(PublishError::Other);
        }
        let ticket = number;
        self.tickets.insert(ticket, ticket_for(node, hash, number));
        Ok(ticket)
    }

    /// Registers the node in the segment of that number, and returns its ticket: the counter before.
    /// `DoesNotExist`, `Marked` if all have left, `Full`, `OutOfNumbers`, and `OutOfMemory`. `Failed` if
    /// the segment has another number, or the description that the node has read, if the node can't join,
    /// or if the recorder refuses.
    pub fn open_segment<R: Recorder>(
        &mut self,
        recorder: &mut R,
        node: u64,
        hash: &ServiceHash,
        number: u64,
    ) -> Result<u64, OpenSegmentError>
        ensures { IsRecordedPart R.written R.refused self.old (letter.OpenSegment node hash.now number result) self.new
            recorder.old recorder.new }
    {
        let participant = Participant::Node(node);
        let segment = self.services.segment_place(hash);
        let position = self.services.position(participant, hash);
        if let Some(refusal) = self
            .services
            .open_refusal(hash, segment, number, position.phase)
        {
            return Err(refusal);
        }
        if self.tickets.reserve().is_err() {
            return Err(OpenSegmentError::OutOfMemory);
        }
        let Ok(joined) = self
            .services
            .join(recorder, participant, hash, position, segment)
        else {
            return Err(OpenSegmentError::OutOfMemory);
        };
        if !joined {
            return Err(OpenSegmentError::Failed);
        }
        let ticket = self.services.next_number();
        self.tickets.insert(ticket, ticket_for(node, hash, number));
        Ok(ticket)
    }

    /// Releases the ticket. Returns `StillCounted` if the node has others, else `Left`, or `Last` if
    /// nobody stays; the segment is then marked by the same entry. `NoSuchTicket` if the node has no such
    /// ticket for the service and number, or if the recorder refuses.
    pub fn release<R: Recorder>(
        &mut self,
        recorder: &mut R,
        ticket: u64,
        node: u64,
        hash: &ServiceHash,
        number: u64,
    ) -> Result<Release, ReleaseError>
        ensures { IsRecordedPart R.written R.refused self.old (letter.Release ticket node hash.now number result)
            self.new recorder.old recorder.new }
    {
        let place = self.tickets.place_of(&ticket);
        if !is_held(self.tickets.get_at(&ticket, place), node, hash, number) {
            return Err(ReleaseError::NoSuchTicket);
        }
        let Some(release) = self.services.leave(recorder, Participant::Node(node), hash) else {
            return Err(ReleaseError::NoSuchTicket);
        };
        let _ = self.tickets.remove_at(&ticket, place);
        Ok(release)
    }
}
