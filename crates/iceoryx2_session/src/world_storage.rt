//! Storages that show a world: tables, journals, and those that trace one.

ghost use Rattle.std.specs.Prelude.{◌≡◌, ℕ, Bool, List, false, IfOk, None, OnOk};
ghost use Rattle.iceoryx2_access.specs.Letter.{Letter};
ghost use Rattle.iceoryx2_world.specs.World.{World};
ghost use Rattle.iceoryx2_world.specs.Listing.{Lists};
ghost use Rattle.iceoryx2_world.specs.Interference.{Rely, IsFallibleUnder};
ghost use Rattle.iceoryx2_table.specs.Holdings.{IsHolding};
ghost use Rattle.iceoryx2_journal.specs.Owed.{SettlesInWorld};

use iceoryx2_access::storage::Storage;
use iceoryx2_journal::cleaning::{CleanError, Cleaned};
use iceoryx2_journal::journal::Journal;
use iceoryx2_log::call_log::SpansCalls;
use iceoryx2_table::own_parts::OwnParts;
use iceoryx2_table::table::TableOver;
use iceoryx2_testing::traced::Traced;
use iceoryx2_world::listing::Entry;
use std::alloc::AllocError;

/// A storage that shows a world, with nodes of its own. Each of its accesses is one of that world,
/// after what others do, or a fault refuses it after that.
pub trait WorldStorage: Storage {
    /// The world that it shows.
    ghost world: { Self → World };

    /// True for the nodes that are its own.
    ghost own: { Self → ℕ → Bool };

    /// The changes that showing others' doings and cleaning up make.
    ghost shows: { Self → Self → Type 0 };

    /// Shows what others have done up to now, as far as it can be read. Makes no access.
    fn refresh(&mut self)
        ensures kept { Rely (own self.old) (world self.old) (world self.new) }
        ensures same { own self.new ≡ own self.old }
        ensures shows { shows self.old self.new };

    /// Gives back what a node has that isn't an own one, by accesses in its name, until it has
    /// nothing. The caller has to know that the node is dead. To all others it is a node that
    /// closes its factories.
    ///
    /// The errors are `IsOwn` if the node is an own one, and `Refused` if something below the
    /// storage refused. After `Refused` it can be called again.
    fn clean(&mut self, node: u64) -> Result<Cleaned, CleanError>
        ensures kept { Rely (own self.old) (world self.old) (world self.new) }
        ensures same { own self.new ≡ own self.old }
        ensures gone { OnOk result (IsHolding (world self.new) node None) }
        ensures shows { shows self.old self.new };

    /// The changes that giving back for an own node makes.
    ghost settles: { Self → Self → Type 0 };

    /// True of a node that has given all back besides the factories with these tickets.
    ghost is_settled: { Self → ℕ → List ℕ → Type 0 };

    /// Gives back what an own node has besides the factories with these tickets, by accesses of its
    /// own. A call of the node that was refused between two of its accesses may have left it.
    ///
    /// The error is `Refused` if something below the storage refused. Then it can be called again.
    fn settle(&mut self, node: u64, spared: &[u64]) -> Result<Cleaned, CleanError>
        ensures gives { SettlesInWorld (own self.old) node spared.now result (world self.old) (world self.new) }
        ensures same { own self.new ≡ own self.old }
        ensures after { settles self.old self.new }
        ensures rest { OnOk result (is_settled self.new node spared.now) };

    /// True if a call has begun, for which others may have to wait.
    ghost in_call: { Self → Bool };

    /// The changes that the begin and the end of a call make.
    ghost spans: { Self → Self → Type 0 };

    /// Begins a call. All others that share the storage wait from its first access on, until
    /// `end_call`. Makes no access.
    fn begin_call(&mut self)
        ensures { spans self.old self.new };

    /// Ends the call. Makes no access.
    fn end_call(&mut self)
        ensures spans { spans self.old self.new }
        ensures ended { in_call self.new ≡ false };

    /// Returns each service of the world with a row or a segment, in the order of the hashes'
    /// bytes. Makes no access. `AllocError` if there was no memory for the list.
    fn list(&self) -> Result<Vec<Entry>, AllocError>
        ensures { IfOk result (λ entries. Lists (world self.now) entries.items) };

    /// Each access is one of the world, whatever others do before it, or is refused then.
    ghost accesses: { (old : Self) (letter : Letter) (new : Self)
        → Self.step old letter new → IsFallibleUnder (own old) (world old) letter (world new) };

    /// No access changes which nodes are its own.
    ghost keeps_own: { (old : Self) (letter : Letter) (new : Self)
        → Self.step old letter new → own new ≡ own old };

    /// Others' doings and cleaning up leave what its own nodes rely on, and which nodes these are.
    ghost keeps_reliance: { (old : Self) (new : Self)
        → shows old new → Rely (own old) (world old) (world new) × (own new ≡ own old) };

    /// Showing may change nothing,
    ghost shows_same: { (storage : Self) → shows storage storage };

    /// and more may be shown afterwards.
    ghost shows_both: { (old : Self) (mid : Self) (new : Self) → shows old mid → shows mid new → shows old new };

    /// The begin and the end of a call change neither the world nor which nodes are its own.
    ghost keeps_world: { (old : Self) (new : Self)
        → spans old new → (world new ≡ world old) × (own new ≡ own old) };
}

// Each node acts through the table itself, so it shows its world as it is, and each node is its own.
impl<W: OwnParts> WorldStorage for TableOver<W> {
    ghost use Rattle.std.specs.Prelude.{refl};
    ghost use Rattle.std.proofs.Common.{◌∙◌, ap, subst, sym};
    ghost use Rattle.iceoryx2_world.proofs.agreement.Interference.{rely_same};
    ghost use Rattle.iceoryx2_world.specs.Interference.{everyone};
    ghost use Rattle.iceoryx2_world.proofs.Waiting.{table_access};
    ghost use Rattle.iceoryx2_world.proofs.agreement.Accesses.{unrefused};
    ghost use Rattle.iceoryx2_world.proofs.agreement.Interference.{among_others};

    ghost world = { λ table. table.world };

    ghost own = { λ table. everyone };

    ghost accesses = { λ old letter new access. unrefused
        (among_others everyone old.world letter new.world (table_access old new letter access)) };

    ghost keeps_own = { λ old letter new access. refl };

    ghost settles = { λ old new. new ≡ old };

    ghost is_settled = { λ table node spared. Unit {0} };

    ghost in_call = { λ table. false };

    ghost shows = { λ old new. new ≡ old };

    ghost keeps_reliance = { λ old new same. (
      subst (λ table. Rely everyone old.world table.world) (sym same)
          (rely_same everyone old.world),
      refl,
    ) };

    ghost shows_same = { λ table. refl };

    ghost shows_both = { λ old mid new x y. y ∙ x };

    ghost spans = { λ old new. new ≡ old };

    ghost keeps_world = { λ old new same. (ap (λ table. table.world) same, refl) };

    // Nobody else has it meanwhile.
    fn begin_call(&mut self) {}

    fn end_call(&mut self) {}

    #[tactic(auto, using(iceoryx2_world::proofs::agreement::Interference::rely_same))]
    fn refresh(&mut self) {}

    #[tactic(auto, using(iceoryx2_world::proofs::agreement::Interference::rely_same))]
    fn clean(&mut self, _node: u64) -> Result<Cleaned, CleanError> {
        Err(CleanError::IsOwn)
    }

    // It refuses no access for want of anything but memory, and none that gives back. So a call leaves nothing.
    #[tactic(auto, using(iceoryx2_journal::proofs::Settled::none_settled))]
    fn settle(&mut self, _node: u64, _spared: &[u64]) -> Result<Cleaned, CleanError> {
        Ok(Cleaned {
            releases: 0,
            removals: 0,
        })
    }

    fn list(&self) -> Result<Vec<Entry>, AllocError> {
        TableOver::list(self)
    }
}

// A journal shows the world that it makes of its log. Its nodes are those that it was given.
impl<L: SpansCalls> WorldStorage for Journal<L> {
    ghost use Rattle.std.proofs.Common.{◌∙◌, ap, refl, subst};
    ghost use Rattle.iceoryx2_world.proofs.agreement.Interference.{rely_both, rely_same};
    ghost use Rattle.iceoryx2_journal.specs.Journal.{Spans};
    ghost use Rattle.iceoryx2_journal.specs.Owed.{OwesNothing};
    ghost use Rattle.iceoryx2_journal.specs.Replay.{Lives};
    ghost use Rattle.iceoryx2_journal.specs.Taking.{is_own};
    ghost use Rattle.iceoryx2_journal.proofs.Runs.{access_under, access_nodes};
    ghost use Rattle.iceoryx2_session.specs.CommandWords.{ShowsOthers};

    ghost world = { λ journal. journal.world };

    ghost own = { λ journal. is_own journal.nodes };

    ghost accesses = { λ old letter new access. access_under access.0 };

    ghost keeps_own = { λ old letter new access. ap is_own (access_nodes access.0) };

    ghost settles = { Lives L.contents };

    ghost is_settled = { λ journal node spared. OwesNothing journal.world node spared };

    ghost in_call = { λ journal. L.in_call journal.log };

    ghost shows = { ShowsOthers };

    ghost keeps_reliance = { λ old new shown. shown };

    ghost shows_same = { λ journal. (rely_same (is_own journal.nodes) journal.world, refl) };

    ghost shows_both = { λ old mid new x y. (
      rely_both (is_own old.nodes) old.world mid.world new.world x.0
          (subst (λ own. Rely own mid.world new.world) x.1 y.0),
      y.1 ∙ x.1,
    ) };

    ghost spans = { Spans L.contents };

    ghost keeps_world = { λ old new s. (ap (λ j. j.world) s.same, ap (λ j. is_own j.nodes) s.same) };

    fn begin_call(&mut self) {
        Journal::begin_call(self)
    }

    fn end_call(&mut self) {
        Journal::end_call(self)
    }

    fn refresh(&mut self) {
        let _ = Journal::look(self);
    }

    fn clean(&mut self, node: u64) -> Result<Cleaned, CleanError> {
        Journal::clean(self, node)
    }

    fn settle(&mut self, node: u64, spared: &[u64]) -> Result<Cleaned, CleanError> {
        Journal::settle(self, node, spared)
    }

    fn list(&self) -> Result<Vec<Entry>, AllocError> {
        Journal::list(self)
    }
}

// What is traced shows the world of the storage inside, with the nodes that are own there.
impl<S: WorldStorage> WorldStorage for Traced<S> {
    ghost use Rattle.std.proofs.Common.{◌∙◌, ap, refl};
    ghost use Rattle.iceoryx2_testing.specs.Trace.{TracedState};
    ghost use Rattle.iceoryx2_session.specs.CommandWords.{SpansTraced};

    ghost world = { λ traced. S.world traced.inner };

    ghost own = { λ traced. S.own traced.inner };

    ghost accesses = { λ old letter new access. S.accesses old.inner letter new.inner access.inside };

    ghost keeps_own = { λ old letter new access. S.keeps_own old.inner letter new.inner access.inside };

    ghost settles = { λ old new. (new ≡ record old { inner = new.inner }) × S.settles old.inner new.inner };

    ghost is_settled = { λ traced. S.is_settled traced.inner };

    ghost in_call = { λ traced. S.in_call traced.inner };

    ghost shows = { SpansTraced S.shows };

    ghost keeps_reliance = { λ old new shown. S.keeps_reliance old.inner new.inner shown.1 };

    ghost shows_same = { λ traced. (refl, S.shows_same traced.inner) };

    ghost shows_both = { λ old mid new x y. (
      y.0 ∙ ap (λ (t : TracedState S). record t { inner = new.inner }) x.0,
      S.shows_both old.inner mid.inner new.inner x.1 y.1,
    ) };

    ghost spans = { SpansTraced S.spans };

    ghost keeps_world = { λ old new s. S.keeps_world old.inner new.inner s.1 };

    fn begin_call(&mut self) {
        self.inner_mut().begin_call()
    }

    fn end_call(&mut self) {
        self.inner_mut().end_call()
    }

    fn refresh(&mut self) {
        self.inner_mut().refresh()
    }

    fn clean(&mut self, node: u64) -> Result<Cleaned, CleanError> {
        self.inner_mut().clean(node)
    }

    fn settle(&mut self, node: u64, spared: &[u64]) -> Result<Cleaned, CleanError> {
        self.inner_mut().settle(node, spared)
    }

    fn list(&self) -> Result<Vec<Entry>, AllocError> {
        self.inner().list()
    }
}
