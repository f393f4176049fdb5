//! The table in its plain form, written from the rules of its steps and accesses alone.

use crate::standing::Standing;
use iceoryx2_access::storage::{
    Existence, FetchError, LockError, MakeSegmentError, OpenSegmentError, PublishError, Release,
    ReleaseError, RemoveError, Storage, Tag, TagError,
};
use iceoryx2_description::description::{ServiceHash, StaticConfig};
use iceoryx2_table::table::{Act, Step};
use iceoryx2_world::listing::Entry;
use iceoryx2_world::world::{Participant, Phase};
use std::alloc::{AllocError, Global};
use std::collections::BTreeMap;

/// One ordered map from a service's hash to all that stands under it, and a counter. Before each access
/// the next batch of peers' steps runs. Out of memory is answered as such, and may leave a step half made.
///
/// It stands for tests alone, which compare what it answers: its step relation says nothing.
pub struct PlainTable {
    alloc: Global,
    services: BTreeMap<ServiceHash, Standing>,
    counter: u64,
    // the batches, the next one first
    waiting: Vec<Vec<Step>>,
    skipped: u64,
}

// Written out, so that a proof of what lets one go doesn't take its fields apart.
impl Drop for PlainTable {
    fn drop(self) {
        let PlainTable {
            alloc: _,
            services: _,
            counter: _,
            waiting: _,
            skipped: _,
        } = self;
    }
}

impl PlainTable {
    /// Where a participant is with the service.
    fn phase(&self, participant: Participant, hash: &ServiceHash) -> Phase {
        match self.services.get(hash) {
            Some(standing) => standing.phase(participant),
            None => Phase::Idle,
        }
    }

    /// What the service's row says of it.
    fn existence(&self, hash: &ServiceHash) -> Existence {
        match self.services.get(hash) {
            Some(standing) => standing.existence(),
            None => Existence::No,
        }
    }

    /// Takes a step of a participant, and returns whether it was allowed. At a service of which nothing is
    /// kept only a lock is.
    fn take(
        &mut self,
        participant: Participant,
        hash: &ServiceHash,
        act: &Act,
    ) -> Result<bool, AllocError> {
        let alloc = self.alloc;
        if let Act::Lock = act {
            let standing = self.services.entry(*hash)?.or_insert(Standing::new(alloc));
            return standing.take(alloc, participant, hash, act, &mut self.counter);
        }
        match self.services.get_mut(hash) {
            Some(standing) => standing.take(alloc, participant, hash, act, &mut self.counter),
            None => Ok(false),
        }
    }

    /// Takes a step of a node.
    fn node_takes(&mut self, node: u64, hash: &ServiceHash, act: &Act) -> Result<bool, AllocError> {
        self.take(Participant::Node(node), hash, act)
    }

    /// Takes a node's step that removes something.
    fn remove(&mut self, node: u64, hash: &ServiceHash, act: &Act) -> Result<(), RemoveError> {
        match self.node_takes(node, hash, act) {
            Ok(true) => Ok(()),
            _ => Err(RemoveError::Other),
        }
    }

    /// Takes a step of a peer, or counts it where it finds no memory.
    fn peer_takes(&mut self, step: &Step) {
        match self.take(Participant::Peer(step.peer), &step.hash, &step.act) {
            Ok(_) => {}
            Err(_) => self.skipped = self.skipped.saturating_add(1),
        }
    }

    /// Runs the next batch, if one waits.
    fn run_batch(&mut self) {
        if self.waiting.is_empty() {
            return;
        }
        let batch = self.waiting.remove(0);
        for step in &batch {
            self.peer_takes(step);
        }
    }

    /// Keeps a ticket of a node.
    fn put_ticket(
        &mut self,
        ticket: u64,
        node: u64,
        hash: &ServiceHash,
        number: u64,
    ) -> Result<u64, AllocError> {
        let Some(standing) = self.services.get_mut(hash) else {
            return Ok(ticket);
        };
        standing.put_ticket(ticket, node, number)?;
        Ok(ticket)
    }
}

impl Storage for PlainTable {
    ghost step = { λ old letter new. Unit {0} };

    fn exists(&mut self, hash: &ServiceHash) -> Existence {
        self.run_batch();
        self.existence(hash)
    }

    fn fetch(&mut self, node: u64, hash: &ServiceHash) -> Result<(u64, Vec<u8>), FetchError> {
        self.run_batch();
        let Some(standing) = self.services.get(hash) else {
            return Err(FetchError::DoesNotExist);
        };
        let published = standing.published()?;
        match self.node_takes(node, hash, &Act::Read) {
            Ok(_) => Ok(published),
            Err(_) => Err(FetchError::OutOfMemory),
        }
    }

    fn counts(&mut self, node: u64, hash: &ServiceHash) -> bool {
        self.run_batch();
        match self.phase(Participant::Node(node), hash) {
            Phase::Joined(_, _) => true,
            _ => false,
        }
    }

    fn make_tag(&mut self, node: u64, hash: &ServiceHash) -> Result<Tag, TagError> {
        self.run_batch();
        let alloc = self.alloc;
        let Ok(entry) = self.services.entry(*hash) else {
            return Err(TagError::OutOfMemory);
        };
        match entry.or_insert(Standing::new(alloc)).tag(node) {
            Ok(true) => Ok(Tag::Made),
            Ok(false) => Ok(Tag::Found),
            Err(_) => Err(TagError::OutOfMemory),
        }
    }

    fn remove_tag(&mut self, node: u64, hash: &ServiceHash) -> Result<(), RemoveError> {
        self.run_batch();
        if let Some(standing) = self.services.get_mut(hash) {
            standing.untag(node);
        }
        Ok(())
    }

    fn lock(&mut self, node: u64, hash: &ServiceHash) -> Result<u64, LockError> {
        self.run_batch();
        match self.existence(hash) {
            Existence::BeingSetUp => return Err(LockError::Creation),
            Existence::Yes => return Err(LockError::AlreadyExists),
            Existence::No | Existence::Fault => {}
        }
        let number = self.counter;
        match self.node_takes(node, hash, &Act::Lock) {
            Ok(true) => Ok(number),
            Ok(false) => Err(LockError::Other),
            Err(_) => Err(LockError::OutOfMemory),
        }
    }

    fn make_segment(
        &mut self,
        node: u64,
        hash: &ServiceHash,
        number: u64,
        max_nodes: u64,
    ) -> Result<(), MakeSegmentError> {
        self.run_batch();
        let participant = Participant::Node(node);
        if self.phase(participant, hash) != Phase::Locked(number) || max_nodes == 0 {
            return Err(MakeSegmentError::Other);
        }
        let alloc = self.alloc;
        let Some(standing) = self.services.get_mut(hash) else {
            return Err(MakeSegmentError::Other);
        };
        match standing.make(alloc, participant, number, max_nodes) {
            Ok(true) => Ok(()),
            Ok(false) => Err(MakeSegmentError::AlreadyExists),
            Err(_) => Err(MakeSegmentError::OutOfMemory),
        }
    }

    fn remove_segment(&mut self, node: u64, hash: &ServiceHash) -> Result<(), RemoveError> {
        self.run_batch();
        self.remove(node, hash, &Act::RemoveSegment)
    }

    fn remove_description(&mut self, node: u64, hash: &ServiceHash) -> Result<(), RemoveError> {
        self.run_batch();
        self.remove(node, hash, &Act::RemoveDescription)
    }

    fn publish(
        &mut self,
        node: u64,
        hash: &ServiceHash,
        number: u64,
        description: &StaticConfig,
    ) -> Result<u64, PublishError> {
        self.run_batch();
        let participant = Participant::Node(node);
        if self.phase(participant, hash) != Phase::Made(number) {
            return Err(PublishError::Other);
        }
        let alloc = self.alloc;
        let Some(standing) = self.services.get_mut(hash) else {
            return Err(PublishError::Other);
        };
        match standing.publish_fitting(alloc, participant, number, hash, description) {
            Ok(true) => {}
            Ok(false) => return Err(PublishError::Other),
            Err(_) => return Err(PublishError::OutOfMemory),
        }
        match self.put_ticket(number, node, hash, number) {
            Ok(ticket) => Ok(ticket),
            Err(_) => Err(PublishError::OutOfMemory),
        }
    }

    fn open_segment(
        &mut self,
        node: u64,
        hash: &ServiceHash,
        number: u64,
    ) -> Result<u64, OpenSegmentError> {
        self.run_batch();
        let ticket = self.counter;
        let Some(standing) = self.services.get(hash) else {
            return Err(OpenSegmentError::DoesNotExist);
        };
        if let Some(refusal) = standing.refusal(node, number, ticket) {
            return Err(refusal);
        }
        match self.node_takes(node, hash, &Act::Join) {
            Ok(true) => {}
            Ok(false) => return Err(OpenSegmentError::Failed),
            Err(_) => return Err(OpenSegmentError::OutOfMemory),
        }
        self.counter = ticket.saturating_add(1);
        match self.put_ticket(ticket, node, hash, number) {
            Ok(ticket) => Ok(ticket),
            Err(_) => Err(OpenSegmentError::OutOfMemory),
        }
    }

    fn release(
        &mut self,
        ticket: u64,
        node: u64,
        hash: &ServiceHash,
        number: u64,
    ) -> Result<Release, ReleaseError> {
        self.run_batch();
        let Some(standing) = self.services.get_mut(hash) else {
            return Err(ReleaseError::NoSuchTicket);
        };
        if !standing.has_ticket(ticket, node, number) {
            return Err(ReleaseError::NoSuchTicket);
        }
        standing.spend(ticket);
        match self.node_takes(node, hash, &Act::Leave) {
            Ok(true) => {}
            _ => return Err(ReleaseError::NoSuchTicket),
        }
        match self.phase(Participant::Node(node), hash) {
            Phase::Joined(_, _) => Ok(Release::StillCounted),
            Phase::Leaving(_) => Ok(Release::Last),
            _ => Ok(Release::Left),
        }
    }
}

impl PlainTable {
    /// An empty table, which counts from 0 on.
    pub fn new(alloc: Global) -> PlainTable {
        PlainTable {
            alloc,
            services: BTreeMap::new(alloc),
            counter: 0,
            waiting: Vec::new(alloc),
            skipped: 0,
        }
    }

    /// Lets these batches of peers' steps wait, of which each access takes the first.
    pub fn schedule(&mut self, batches: Vec<Vec<Step>>) {
        self.waiting = batches;
    }

    /// How many batches wait.
    pub fn pending(&self) -> usize {
        self.waiting.len()
    }

    /// The next number.
    pub fn counter(&self) -> u64 {
        self.counter
    }

    /// How many steps found no memory.
    pub fn skipped(&self) -> u64 {
        self.skipped
    }

    /// Each service with a row or a segment.
    pub fn list(&self) -> Result<Vec<Entry>, AllocError> {
        let mut entries = Vec::new(self.alloc);
        for (hash, standing) in self.services.iter() {
            if let Some(entry) = standing.listed(*hash)? {
                entries.push(entry)?;
            }
        }
        Ok(entries)
    }

    /// Whether the node has a tag for the service.
    pub fn has_tag(&self, node: u64, hash: &ServiceHash) -> bool {
        match self.services.get(hash) {
            Some(standing) => standing.has_tag(node),
            None => false,
        }
    }

    /// How many tickets the node has for the service.
    pub fn tickets(&self, node: u64, hash: &ServiceHash) -> u64 {
        match self.services.get(hash) {
            Some(standing) => standing.tickets(node),
            None => 0,
        }
    }
}
