//! Cleaning up for a node, and nodes that become own ones.

ghost use Rattle.std.specs.Prelude.{◌≡◌, None, OnErr, OnOk, ◌++◌, ◌∷◌, [], true};
ghost use Rattle.iceoryx2_access.specs.Registered.{Registered};
ghost use Rattle.iceoryx2_world.specs.Agreement.{Agrees};
ghost use Rattle.iceoryx2_world.specs.Interference.{Rely};
ghost use Rattle.iceoryx2_world.specs.Standing.{Stands};
ghost use Rattle.iceoryx2_table.specs.Holdings.{IsHolding};
ghost use Rattle.iceoryx2_journal.specs.Cleaning.{Adopts, Cleans, CleansNext, CleansAll};
ghost use Rattle.iceoryx2_journal.specs.Owed.{SettlesBy, SettlesNext, SettlesInWorld};
ghost use Rattle.iceoryx2_journal.specs.Owed.{IsSpared, OwesNothing, others_own};
ghost use Rattle.iceoryx2_journal.specs.Replay.{Lives};
ghost use Rattle.iceoryx2_journal.specs.Journal.{IsJournalAccess, KeepsHold};
ghost use Rattle.iceoryx2_journal.specs.Taking.{is_own};

use super::Journal;
use crate::cleaning::{AdoptError, CleanError, Cleaned, Step, give_back, step_of};
use crate::owed::{give_back_by, owed};
use iceoryx2_log::log::Log;

impl<L: Log> Journal<L> {
    /// Makes a node an own one, after the journal has taken over all that others appended. The
    /// caller has to know that no other process has the node.
    pub fn adopt(&mut self, node: u64) -> Result<(), AdoptError>
        ensures adopts { Adopts L.contents node result self.old self.new }
        ensures hold { KeepsHold L.held self.old self.new }
        ensures lives { Lives L.contents self.old self.new }
        ensures kept { Rely (is_own self.old.nodes) self.old.world self.new.world }
        ensures ok { OnOk result (self.new.nodes ≡ self.old.nodes ++ node ∷ []) }
        ensures err { OnErr result (self.new.nodes ≡ self.old.nodes) }
    {
        self.adopt_next(node)
    }

    // Takes over what others appended, and makes the node an own one.
    fn adopt_next(&mut self, node: u64) -> Result<(), AdoptError>
        ensures adopts { Adopts L.contents node result self.old self.new }
        ensures hold { KeepsHold L.held self.old self.new }
    {
        if !self.begin(true) {
            return Err(AdoptError::Refused);
        }
        let Ok(_) = self.nodes.push(node) else {
            self.recorder.log.let_go();
            return Err(AdoptError::OutOfMemory);
        };
        self.recorder.log.let_go();
        Ok(())
    }

    /// Gives back what a node has, by accesses in its name, until it has nothing. It gives back
    /// each ticket, then a service that the node was creating or had to remove, with the segment
    /// before what is written under its hash, and last the node's tags. The caller has to know that
    /// no other process has the node. To all others it is a node that closes its factories.
    ///
    /// The errors are `IsOwn` if the node is an own one, and `Refused` if the log refused. After
    /// `Refused` it can be called again.
    pub fn clean(&mut self, node: u64) -> Result<Cleaned, CleanError>
        ensures cleans { Cleans L.contents node result self.old self.new }
        ensures hold { KeepsHold L.held self.old self.new }
        ensures lives { Lives L.contents self.old self.new }
        ensures kept { Rely (is_own self.old.nodes) self.old.world self.new.world }
        ensures nodes { self.new.nodes ≡ self.old.nodes }
        ensures gone { OnOk result (IsHolding self.new.world node None) }
    {
        if self.has_node(node) {
            return Err(CleanError::IsOwn);
        }
        self.clean_all(node)
    }

    // Releases everything of a node that isn't an own one.
    fn clean_all(&mut self, node: u64) -> Result<Cleaned, CleanError>
        ensures all { CleansAll L.contents node result self.old self.new }
        ensures hold { KeepsHold L.held self.old self.new }
    {
        let mut cleaned = Cleaned::nothing();
        for _ in 0..u64::MAX {
            match self.clean_next(node) {
                Step::Gave(given) => cleaned = cleaned.with(given),
                Step::Finished => return Ok(cleaned),
                Step::Refused => return Err(CleanError::Refused),
            }
        }
        Err(CleanError::Refused)
    }

    // Takes over what others appended, and releases one thing that the node has.
    fn clean_next(&mut self, node: u64) -> Step
        ensures next { CleansNext L.contents node result self.old self.new }
        ensures hold { KeepsHold L.held self.old self.new }
    {
        if !self.begin(true) {
            return Step::Refused;
        }
        let Some(held) = self.world.holding(node) else {
            self.recorder.log.let_go();
            return Step::Finished;
        };
        step_of(give_back(&mut self.world, &mut self.recorder, node, held))
    }

    /// Gives back what an own node has besides the factories with these tickets, by accesses of its
    /// own. It gives back each other ticket, each service that the node was creating or had to
    /// remove, and each tag for a service for which the node has no ticket then. A call of the node
    /// that was refused between two of its accesses may have left these.
    ///
    /// The error is `Refused` if the log refused, or if the node isn't an own one and has something
    /// to give back. Anything that was given back before stays so, and it can be called again.
    pub fn settle(&mut self, node: u64, spared: &[u64]) -> Result<Cleaned, CleanError>
        // Each access releases something that the node owes. Only the last access may be refused.
        ensures settles { SettlesBy node spared.now (λ j. j.world) (IsJournalAccess L.contents) result
            self.old self.new }
        ensures in_world { SettlesInWorld (is_own self.old.nodes) node spared.now result
            self.old.world self.new.world }

        // If the result is `Ok`, the node owes nothing any more.
        ensures rest { OnOk result (OwesNothing self.new.world node spared.now) }

        // Each factory of an own node stands as before, except for factories of this node whose tickets aren't spared.
        ensures stands { (f : Registered) → is_own self.old.nodes f.node ≡ true → IsSpared node spared.now f
            → Agrees self.old.world → Stands self.old.world f → Stands self.new.world f }

        // Everything that the other own nodes rely on is kept.
        ensures kept { Rely (others_own (is_own self.old.nodes) node) self.old.world self.new.world }
        ensures agrees { Agrees self.old.world → Agrees self.new.world }
        ensures nodes { self.new.nodes ≡ self.old.nodes }
        ensures hold { KeepsHold L.held self.old self.new }
        ensures lives { Lives L.contents self.old self.new }
    {
        self.settle_all(node, spared)
    }

    // Releases everything that the node owes, one thing after another.
    fn settle_all(&mut self, node: u64, spared: &[u64]) -> Result<Cleaned, CleanError>
        ensures settles { SettlesBy node spared.now (λ j. j.world) (IsJournalAccess L.contents) result
            self.old self.new }
        ensures rest { OnOk result (OwesNothing self.new.world node spared.now) }
        ensures hold { KeepsHold L.held self.old self.new }
    {
        let mut cleaned = Cleaned::nothing();
        for _ in 0..u64::MAX {
            match self.settle_next(node, spared) {
                Step::Gave(given) => cleaned = cleaned.with(given),
                Step::Finished => return Ok(cleaned),
                Step::Refused => return Err(CleanError::Refused),
            }
        }
        Err(CleanError::Refused)
    }

    // Releases one thing that the node owes.
    fn settle_next(&mut self, node: u64, spared: &[u64]) -> Step
        ensures next { SettlesNext node spared.now (λ j. j.world) (IsJournalAccess L.contents) result
            self.old self.new }
        ensures hold { KeepsHold L.held self.old self.new }
    {
        let Some(held) = owed(&self.world, node, spared) else {
            return Step::Finished;
        };
        step_of(give_back_by(self, node, held))
    }
}
