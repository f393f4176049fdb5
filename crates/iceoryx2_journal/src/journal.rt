//! A storage that processes share: the world that a process makes of a log.

ghost use Rattle.std.specs.Prelude.{◌≡◌, Bool, false, true, IfOk};
ghost use Rattle.iceoryx2_world.specs.World.{empty_world};
ghost use Rattle.iceoryx2_world.specs.Interference.{Rely};
ghost use Rattle.iceoryx2_world.specs.Listing.{Lists};
ghost use Rattle.iceoryx2_journal.specs.Taking.{is_own};
ghost use Rattle.iceoryx2_journal.specs.Journal.{Begins, KeepsHold, Spans};

mod accesses;
mod cleaning;
mod resuming;

use crate::log_recorder::LogRecorder;
use crate::snapshot::compact;
use crate::taking::{has, take_over};
use iceoryx2_access::storage::{Existence, Service, Sha1Hasher};
use iceoryx2_description::description::ServiceHash;
use iceoryx2_log::call_log::SpansCalls;
use iceoryx2_log::log::Log;
use iceoryx2_table::table::stored::StoredWorld;
use iceoryx2_world::listing;
use std::alloc::{AllocError, Global};
use std::marker::{Model, PhantomData};

/// A storage that processes share: a log, and the world that this process makes of it. Before each
/// access the journal takes over what others appended. If an access is granted and changes
/// something, the journal appends it before it changes anything.
///
/// `exists`, `fetch` and `lock` wait while a node has the service's lock, as long as the log
/// pauses. They take over what others append meanwhile, and answer by that.
///
/// If the log has grown long, an access compacts it. If another process has compacted the log, the
/// access goes to the place where the log goes on.
///
/// A journal's accesses are in the names of its own nodes. If an entry of another process is in an
/// own node's name, or isn't what the world answers, the journal is over. Each access from then on
/// answers its general fault.
pub struct Journal<L> {
    world: StoredWorld,
    recorder: LogRecorder<L>,
    nodes: Vec<u64>,
    is_over: bool,
    // whether the log goes on in another place whose entries the world doesn't have yet
    is_lost: bool,
}

// Written out, so that the proof of a function that drops a journal doesn't go through its fields.
impl<L: Drop> Drop for Journal<L> {
    fn drop(self) {
        let Journal {
            world: _,
            recorder: _,
            nodes: _,
            is_over: _,
            is_lost: _,
        } = self;
    }
}

impl<L> Model for Journal<L> {
    ghost use Rattle.iceoryx2_journal.specs.Journal.{JournalState, coded_journal};

    ghost Value = { JournalState L };

    ghost coded = { coded_journal L.code };

    ghost view = { λ j. record {
      world = j.world;
      log = j.recorder.log;
      nodes = j.nodes.items;
      is_over = j.is_over;
      is_lost = j.is_lost;
    } };
}

impl<L> Journal<L> {
    /// Returns a journal that has taken nothing over yet, with its own nodes and its counter's
    /// first value. Takes no memory.
    pub fn starting_at(alloc: Global, log: L, nodes: Vec<u64>, counter: u64) -> Journal<L>
        ensures { result ≡ record {
          world = empty_world counter;
          log = log;
          nodes = nodes.items;
          is_over = false;
          is_lost = false;
        } }
    {
        Journal {
            world: StoredWorld::starting_at(alloc, counter),
            recorder: LogRecorder { log, entry: None },
            nodes,
            is_over: false,
            is_lost: false,
        }
    }

    /// Returns each service with a row or a segment, as far as the log has been taken over, in the
    /// order of the hashes' bytes. Once the journal is over, it returns those of its world at that
    /// time.
    pub fn list(&self) -> Result<Vec<listing::Entry>, AllocError>
        ensures { IfOk result (λ entries. Lists self.now.world entries.items) }
    {
        self.world.list()
    }

    /// Returns the world as far as the log has been taken over, for its readers. Once the journal
    /// is over, the world stays as it was then.
    pub fn world(&self) -> &StoredWorld
        ensures { result.now ≡ self.now.world }
    {
        &self.world
    }

    /// Returns true if an entry ended the journal.
    pub fn is_over(&self) -> bool
        ensures { result ≡ self.now.is_over }
    {
        self.is_over
    }

    /// Returns the log.
    pub fn log(&self) -> &L
        ensures { result.now ≡ self.now.log }
    {
        &self.recorder.log
    }

    // Returns whether the node is an own one.
    fn has_node(&self, node: u64) -> bool
        ensures { result ≡ is_own self.now.nodes node }
    {
        has(&self.nodes, node)
    }
}

impl<L: Drop> Journal<L> {
    /// Returns the world as far as the log has been taken over. The journal ends, and appends
    /// nothing more.
    pub fn into_world(self) -> StoredWorld
        ensures { result ≡ self.world }
    {
        let Journal {
            world,
            recorder: _,
            nodes: _,
            is_over: _,
            is_lost: _,
        } = self;
        world
    }
}

impl<L: Log> Journal<L> {
    // Holds the log and takes over what others appended, for an access. Returns false if that fails, or if the access
    // isn't in an own node's name. The log isn't held then.
    fn begin(&mut self, mine: bool) -> bool
        ensures begins { Begins L.contents mine result self.old self.new }
        ensures was_free { result ≡ true → L.held self.old.log ≡ false }
        ensures hold { result ≡ false → KeepsHold L.held self.old self.new }
    {
        if !mine {
            return false;
        }
        if !self.begin_reading() {
            return false;
        }
        compact(*self.nodes.allocator(), &self.world, &mut self.recorder.log);
        true
    }

    // Holds the log and takes over what others appended. Returns false if it didn't take over all. The log isn't held
    // then.
    fn begin_reading(&mut self) -> bool
        ensures begins { Begins L.contents true result self.old self.new }
        ensures was_free { result ≡ true → L.held self.old.log ≡ false }
        ensures hold { result ≡ false → KeepsHold L.held self.old self.new }
    {
        if self.is_over {
            return false;
        }
        let Ok(_) = self.recorder.log.hold() else {
            return false;
        };
        self.take_in()
    }

    // Takes over what others appended to a log that is held or was looked at. Returns false if it didn't take over all.
    // The log isn't held then.
    fn take_in(&mut self) -> bool
        requires { self.old.is_over ≡ false }
        ensures takes { Begins L.contents true result self.old self.new }
        ensures free { result ≡ false → L.held self.new.log ≡ false }
    {
        match take_over(
            *self.nodes.allocator(),
            &mut self.world,
            &mut self.recorder.log,
            &self.nodes,
            &mut self.is_lost,
        ) {
            Ok(()) => true,
            Err(stop) => {
                self.is_over = stop.ends();
                self.recorder.log.let_go();
                false
            }
        }
    }

    /// Takes over what others had appended when the log was measured, and reads it while others may
    /// go on. Returns true if it took over all of that. If not, the journal is as after `catch_up`.
    /// Compacts nothing.
    pub fn look(&mut self) -> bool
        ensures takes { Begins L.contents true result self.old self.new }
        ensures hold { KeepsHold L.held self.old self.new }
        ensures kept { Rely (is_own self.old.nodes) self.old.world self.new.world }
        ensures nodes { self.new.nodes ≡ self.old.nodes }
    {
        if self.is_over {
            return false;
        }
        let Ok(_) = self.recorder.log.look() else {
            return false;
        };
        if !self.take_in() {
            return false;
        }
        self.recorder.log.let_go();
        true
    }

    /// Takes over what others appended, and returns true if it took over all. It doesn't if the log
    /// can't be held or read, or if the journal is over. Then the journal stays as far as it was,
    /// or as far as it came.
    pub fn catch_up(&mut self) -> bool
        ensures takes { Begins L.contents true result self.old self.new }
        ensures hold { KeepsHold L.held self.old self.new }
        ensures kept { Rely (is_own self.old.nodes) self.old.world self.new.world }
        ensures nodes { self.new.nodes ≡ self.old.nodes }
    {
        if self.begin(true) {
            self.recorder.log.let_go();
            return true;
        }
        false
    }

    /// Takes over what others appended. If the log can't be held or read, or the journal is over,
    /// it stays as far as it was.
    pub fn refresh(&mut self)
        ensures takes { (has_begun : Bool) × Begins L.contents true has_begun self.old self.new }
        ensures hold { KeepsHold L.held self.old self.new }
        ensures kept { Rely (is_own self.old.nodes) self.old.world self.new.world }
        ensures nodes { self.new.nodes ≡ self.old.nodes }
    {
        let _ = self.catch_up();
    }

    // Begins an access of this node.
    fn begin_as(&mut self, node: u64) -> bool
        ensures begins { Begins L.contents (is_own self.old.nodes node) result self.old self.new }
        ensures was_free { result ≡ true → L.held self.old.log ≡ false }
        ensures hold { result ≡ false → KeepsHold L.held self.old self.new }
    {
        let mine = self.has_node(node);
        self.begin(mine)
    }

    // Releases the log for a while if a node has the service's lock and the log pauses. If not, the log stays held.
    fn has_paused(&mut self, hash: &ServiceHash, number: u64) -> bool
        ensures log { L.contents self.new.log ≡ L.contents self.old.log }
        ensures same { self.new ≡ record self.old { log = self.new.log } }
        ensures free { result ≡ true → L.held self.new.log ≡ false }
    {
        match self.world.exists(hash) {
            Existence::BeingSetUp => self.recorder.log.pause(number),
            _ => false,
        }
    }

    // Begins an access that looks for a service. While a node has the service's lock, others get time to append.
    fn begin_look(&mut self, mine: bool, hash: &ServiceHash) -> bool
        ensures begins { Begins L.contents mine result self.old self.new }
        ensures was_free { result ≡ true → L.held self.old.log ≡ false }
        ensures hold { result ≡ false → KeepsHold L.held self.old self.new }
    {
        if !self.begin(mine) {
            return false;
        }
        for number in 0..u64::MAX {
            if !self.has_paused(hash, number) {
                return true;
            }
            if !self.begin(mine) {
                return false;
            }
        }
        true
    }

    // Begins a look of this node.
    fn begin_look_as(&mut self, node: u64, hash: &ServiceHash) -> bool
        ensures begins { Begins L.contents (is_own self.old.nodes node) result self.old self.new }
        ensures was_free { result ≡ true → L.held self.old.log ≡ false }
        ensures hold { result ≡ false → KeepsHold L.held self.old self.new }
    {
        let mine = self.has_node(node);
        self.begin_look(mine, hash)
    }
}

impl<L: SpansCalls> Journal<L> {
    /// Begins a call of several accesses. Until `end_call`, its first access takes the log for all
    /// of them; if that is refused, all are refused. Without this call, each access takes the log
    /// by itself. If others hold the log in between, a call may be refused after some of its
    /// accesses. Anything that it leaves then stays until its node settles or is cleaned.
    pub fn begin_call(&mut self)
        ensures spans { Spans L.contents self.old self.new }
        ensures hold { KeepsHold L.held self.old self.new }
    {
        self.recorder.log.begin_call();
    }

    /// Ends the call. Others may have the log then.
    pub fn end_call(&mut self)
        ensures spans { Spans L.contents self.old self.new }
        ensures free { L.held self.new.log ≡ false }
        ensures ended { L.in_call self.new.log ≡ false }
    {
        self.recorder.log.end_call();
    }
}

/// Services in a [`Journal`] over a log of this type, under hashes by SHA-1.
pub struct Shared<L> {
    log: PhantomData<L>,
}

impl<L: Log> Service for Shared<L> {
    type Storage = Journal<L>;

    type ServiceNameHasher = Sha1Hasher;
}
