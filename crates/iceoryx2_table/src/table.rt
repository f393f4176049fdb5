//! A storage within one process.

ghost use Rattle.std.specs.Prelude.{◌≡◌, IfOk, [], length};
ghost use Rattle.iceoryx2_world.specs.World.{tag_of, empty_world, ticket_count};
ghost use Rattle.iceoryx2_world.specs.Agreement.{Agrees};
ghost use Rattle.iceoryx2_world.specs.Listing.{Lists};
ghost use Rattle.iceoryx2_world.specs.Tables.{batch_items, IsBatchRun};

pub mod stored;

use self::stored::StoredWorld;
use crate::own_parts::OwnParts;
use iceoryx2_access::storage::{
    Existence, FetchError, LockError, MakeSegmentError, OpenSegmentError, PublishError, Release,
    ReleaseError, RemoveError, Storage, Tag, TagError,
};
use iceoryx2_description::description::{ServiceHash, StaticConfig};
pub use iceoryx2_world::batches::{Act, Step};
use iceoryx2_world::listing::Entry;
use std::alloc::{AllocError, Global};
use std::marker::Model;

/// A storage within one process, over any type that keeps a world. Steps of peers may wait at it in
/// batches. Before each of the twelve accesses the next batch runs, step by step.
pub struct TableOver<W: OwnParts> {
    world: W,
    // the batches, the next one last, so that none is moved when it runs
    waiting: Vec<Vec<Step>>,
    skipped: u64,
}

/// A storage within one process. It keeps what there is of each service, the phase of each participant
/// with it, the nodes' tags and tickets, and a counter for numbers. Steps of peers may wait at it in
/// batches. Before each of the twelve accesses the next batch runs, step by step.
pub type Table = TableOver<StoredWorld>;

// Written out, so that a proof of what lets one go doesn't take its fields apart.
impl<W: OwnParts> Drop for TableOver<W> {
    fn drop(self) {
        let TableOver {
            world,
            waiting: _,
            skipped: _,
        } = self;
        world.let_go();
    }
}

impl<W: OwnParts> Model for TableOver<W> {
    ghost use Rattle.std.specs.Prelude.{reverse};
    ghost use Rattle.iceoryx2_world.specs.Tables.{TableState, batch_items, coded_table};

    ghost Value = { TableState };

    ghost coded = { coded_table };

    ghost view = { λ t. record {
      world = W.world t.world;
      waiting = batch_items (reverse t.waiting.items);
      skipped = t.skipped;
    } };
}

impl<W: OwnParts> TableOver<W> {
    /// Returns an empty table whose first number is 0. Nothing waits at it. Takes no memory.
    #[tactic(auto, using(iceoryx2_world::proofs::agreement::Empty::empty_agrees))]
    pub fn new(alloc: Global) -> Self
        ensures state { result ≡ record { world = empty_world 0; waiting = []; skipped = 0 } }
        ensures agrees { Agrees result.world }
    {
        TableOver::starting_at(alloc, 0)
    }

    /// Returns an empty table with the counter's first value. Nothing waits at it. At `u64::MAX` it hands
    /// out no number. Takes no memory.
    pub fn starting_at(alloc: Global, counter: u64) -> Self
        ensures state { result ≡ record { world = empty_world counter; waiting = []; skipped = 0 } }
        ensures agrees { Agrees result.world }
    {
        TableOver {
            world: W::starting_at(alloc, counter),
            waiting: Vec::new(alloc),
            skipped: 0,
        }
    }

    /// Replaces the batches that wait by these, the first of which runs next. Takes no memory.
    pub fn schedule(&mut self, batches: Vec<Vec<Step>>)
        ensures { self.new ≡ record self.old { waiting = batch_items batches.items } }
    {
        let mut batches = batches;
        batches.reverse();
        self.waiting = batches;
    }

    /// Returns the number of batches that wait.
    pub fn pending(&self) -> usize
        ensures { result ≡ length self.now.waiting }
    {
        self.waiting.len()
    }

    /// Returns the number of steps of batches that were allowed and found no memory. The count stops at
    /// `u64::MAX`.
    pub fn skipped(&self) -> u64
        ensures { result ≡ self.now.skipped }
    {
        self.skipped
    }

    // Runs the next batch, if one waits. Where none waits this is one comparison.
    #[tactic(auto, using(iceoryx2_world::proofs::Waiting::no_batch, std::proofs::lemmas::List::nil_from_length))]
    fn run_batch(&mut self)
        ensures { IsBatchRun self.old self.new }
    {
        if !self.waiting.is_empty() {
            self.run_next();
        }
    }

    // Takes the next batch, if one waits, and carries it out. It stays a function of its own, so that the comparison
    // before it is made in place at each access.
    #[inline(never)]
    #[tactic(auto, using(iceoryx2_world::proofs::Waiting::no_batch))]
    fn run_next(&mut self)
        ensures { IsBatchRun self.old self.new }
    {
        if let Some(batch) = self.waiting.pop() {
            self.skipped = self.world.take_all(&batch, self.skipped);
        }
    }

    /// Returns each service with a row or a segment, in the order of the hashes' bytes.
    pub fn list(&self) -> Result<Vec<Entry>, AllocError>
        ensures { IfOk result (λ entries. Lists self.now.world entries.items) }
    {
        self.world.list()
    }

    /// Returns true if the node has a tag for the service.
    pub fn has_tag(&self, node: u64, hash: &ServiceHash) -> bool
        ensures { result ≡ tag_of self.now.world node hash.now }
    {
        self.world.has_tag(node, hash)
    }

    /// Returns the number of tickets that the node has for the service. Goes through all tickets, and
    /// takes no memory.
    pub fn tickets(&self, node: u64, hash: &ServiceHash) -> u64
        ensures { result ≡ ticket_count self.now.world.tickets node hash.now }
    {
        self.world.tickets(node, hash)
    }

    /// Returns the next number or ticket.
    pub fn counter(&self) -> u64
        ensures { result ≡ self.now.world.counter }
    {
        self.world.counter()
    }
}

impl<W: OwnParts> Storage for TableOver<W> {
    ghost use Rattle.iceoryx2_world.specs.Agreement.{Agrees};
    ghost use Rattle.iceoryx2_world.specs.ServiceAgreement.{Later};
    ghost use Rattle.iceoryx2_world.specs.Tables.{IsTableAccess};
    ghost use Rattle.iceoryx2_access.specs.Letter.{fetch_answer};
    ghost use Rattle.iceoryx2_access.specs.Letter as letter;

    ghost step = { λ old letter new. IsTableAccess old letter new };

    fn exists(&mut self, hash: &ServiceHash) -> Existence
        ensures part { IsTableAccess self.old (letter.Exists hash.now result) self.new }
        ensures agrees { Agrees self.old.world → Agrees self.new.world }
        ensures later { Agrees self.old.world → Later self.old.world self.new.world }
    {
        self.run_batch();
        self.world.exists(hash)
    }

    fn fetch(&mut self, node: u64, hash: &ServiceHash) -> Result<(u64, Vec<u8>), FetchError>
        ensures part { IsTableAccess self.old (letter.Fetch node hash.now (fetch_answer result)) self.new }
        ensures agrees { Agrees self.old.world → Agrees self.new.world }
        ensures later { Agrees self.old.world → Later self.old.world self.new.world }
    {
        self.run_batch();
        self.world.fetch(node, hash)
    }

    fn counts(&mut self, node: u64, hash: &ServiceHash) -> bool
        ensures part { IsTableAccess self.old (letter.Counts node hash.now result) self.new }
        ensures agrees { Agrees self.old.world → Agrees self.new.world }
        ensures later { Agrees self.old.world → Later self.old.world self.new.world }
    {
        self.run_batch();
        self.world.counts(node, hash)
    }

    fn make_tag(&mut self, node: u64, hash: &ServiceHash) -> Result<Tag, TagError>
        ensures part { IsTableAccess self.old (letter.MakeTag node hash.now result) self.new }
        ensures agrees { Agrees self.old.world → Agrees self.new.world }
        ensures later { Agrees self.old.world → Later self.old.world self.new.world }
    {
        self.run_batch();
        self.world.make_tag(node, hash)
    }

    fn remove_tag(&mut self, node: u64, hash: &ServiceHash) -> Result<(), RemoveError>
        ensures part { IsTableAccess self.old (letter.RemoveTag node hash.now result) self.new }
        ensures agrees { Agrees self.old.world → Agrees self.new.world }
        ensures later { Agrees self.old.world → Later self.old.world self.new.world }
    {
        self.run_batch();
        self.world.remove_tag(node, hash)
    }

    fn lock(&mut self, node: u64, hash: &ServiceHash) -> Result<u64, LockError>
        ensures part { IsTableAccess self.old (letter.Lock node hash.now result) self.new }
        ensures agrees { Agrees self.old.world → Agrees self.new.world }
        ensures later { Agrees self.old.world → Later self.old.world self.new.world }
    {
        self.run_batch();
        self.world.lock(node, hash)
    }

    fn make_segment(
        &mut self,
        node: u64,
        hash: &ServiceHash,
        number: u64,
        max_nodes: u64,
    ) -> Result<(), MakeSegmentError>
        ensures part { IsTableAccess self.old (letter.MakeSegment node hash.now number max_nodes result) self.new }
        ensures agrees { Agrees self.old.world → Agrees self.new.world }
        ensures later { Agrees self.old.world → Later self.old.world self.new.world }
    {
        self.run_batch();
        self.world.make_segment(node, hash, number, max_nodes)
    }

    fn remove_segment(&mut self, node: u64, hash: &ServiceHash) -> Result<(), RemoveError>
        ensures part { IsTableAccess self.old (letter.RemoveSegment node hash.now result) self.new }
        ensures agrees { Agrees self.old.world → Agrees self.new.world }
        ensures later { Agrees self.old.world → Later self.old.world self.new.world }
    {
        self.run_batch();
        self.world.remove_segment(node, hash)
    }

    fn remove_description(&mut self, node: u64, hash: &ServiceHash) -> Result<(), RemoveError>
        ensures part { IsTableAccess self.old (letter.RemoveDescription node hash.now result) self.new }
        ensures agrees { Agrees self.old.world → Agrees self.new.world }
        ensures later { Agrees self.old.world → Later self.old.world self.new.world }
    {
        self.run_batch();
        self.world.remove_description(node, hash)
    }

    fn publish(
        &mut self,
        node: u64,
        hash: &ServiceHash,
        number: u64,
        description: &StaticConfig,
    ) -> Result<u64, PublishError>
        ensures part { IsTableAccess self.old (letter.Publish node hash.now number description.now result) self.new }
        ensures agrees { Agrees self.old.world → Agrees self.new.world }
        ensures later { Agrees self.old.world → Later self.old.world self.new.world }
    {
        self.run_batch();
        self.world.publish(node, hash, number, description)
    }

    fn open_segment(
        &mut self,
        node: u64,
        hash: &ServiceHash,
        number: u64,
    ) -> Result<u64, OpenSegmentError>
        ensures part { IsTableAccess self.old (letter.OpenSegment node hash.now number result) self.new }
        ensures agrees { Agrees self.old.world → Agrees self.new.world }
        ensures later { Agrees self.old.world → Later self.old.world self.new.world }
    {
        self.run_batch();
        self.world.open_segment(node, hash, number)
    }

    fn release(
        &mut self,
        ticket: u64,
        node: u64,
        hash: &ServiceHash,
        number: u64,
    ) -> Result<Release, ReleaseError>
        ensures part { IsTableAccess self.old (letter.Release ticket node hash.now number result) self.new }
        ensures agrees { Agrees self.old.world → Agrees self.new.world }
        ensures later { Agrees self.old.world → Later self.old.world self.new.world }
    {
        self.run_batch();
        self.world.release(ticket, node, hash, number)
    }
}
