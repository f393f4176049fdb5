//! A node of this process over a log.

ghost use Rattle.std.specs.Prelude.{◌≡◌, ◌∷◌, [], IfErr, IfOk, OnOk, true};
ghost use Rattle.iceoryx2_journal.specs.Replay.{Lives};
ghost use Rattle.iceoryx2_world.specs.Agreement.{Agrees};
ghost use Rattle.wulameron_place.specs.Halts.{is_of_start};
ghost use Rattle.wulameron_place.specs.Starting.{HaltsBy, IsNotStarted, IsStarted};
ghost use Rattle.wulameron_place.specs.Troubles.{trouble_of};

use crate::halt::Halt;
use crate::reports::Reports;
use crate::trouble::{Refusing, Troubled};
use iceoryx2_journal::cleaning::{AdoptError, CleanError};
use iceoryx2_journal::journal::Journal;
use iceoryx2_log::call_log::SpansCalls;
use iceoryx2_log::log::Log;
use negotiate_serve::ending::ServeError;
use std::alloc::Global;
use std::io::Write;

/// A log of which nothing is taken over yet, for a node that this process has claimed.
#[derive(Drop)]
pub struct NodeLog<L> {
    pub log: L,
    /// The number with which the counter of its services begins.
    pub counter: u64,
    pub node: u64,
}

/// Releases what the node had when its last process ended, and makes it an own one of a journal that has none. Returns
/// false if the log refuses, if the journal can't follow it, or if there is no memory. It can be done again then.
fn adopt<L: Log>(journal: &mut Journal<L>, node: u64) -> bool
    requires { journal.old.nodes ≡ [] }
    ensures lives { Lives L.contents journal.old journal.new }
    ensures agrees { Agrees journal.old.world → Agrees journal.new.world }
    ensures nodes { result ≡ true → journal.new.nodes ≡ node ∷ [] }
{
    if journal.clean(node).is_err() {
        return false;
    }
    journal.adopt(node).is_ok()
}

/// Takes over what is in a log that isn't held meanwhile. Returns false if the log refuses. The next holder reads again
/// what seems damaged.
fn reads<L: Refusing>(journal: &mut Journal<L>) -> bool
    ensures lives { Lives L.contents journal.old journal.new }
    ensures agrees { Agrees journal.old.world → Agrees journal.new.world }
    ensures nodes { journal.new.nodes ≡ journal.old.nodes }
{
    if journal.look() {
        return true;
    }
    journal.trouble().is_none()
}

/// Tells what keeps a node from being started over a journal, and returns it. If nothing goes wrong at the log, there
/// was no memory.
fn halt_at<L: Refusing, E: Write>(journal: &Journal<L>, reports: &mut Reports<'_, E>) -> Halt
    ensures of_start { is_of_start result ≡ true }
    ensures why { HaltsBy (trouble_of journal.now.is_over (L.refused journal.now.log)) result }
{
    let _ = reports.look(journal);
    match journal.trouble() {
        Some(trouble) => Halt::Log(trouble),
        None => Halt::Serving(ServeError::OutOfMemory),
    }
}

impl<L: Refusing + SpansCalls + Drop> NodeLog<L> {
    /// Starts the node over a journal of its log. It reads the log before it holds it, and tells what goes wrong there.
    ///
    /// `Halt` if the log refuses, by what goes wrong there, or if there is no memory.
    pub fn start<E: Write>(
        self,
        alloc: Global,
        reports: &mut Reports<'_, E>,
    ) -> Result<Journal<L>, Halt>
        ensures ok { IfOk result (IsStarted L.contents L.refused self.log self.counter self.node) }
        ensures err { IfErr result (λ halt. is_of_start halt ≡ true) }
        ensures why { IfErr result (IsNotStarted L.contents L.refused self.log self.counter) }
    {
        let NodeLog { log, counter, node } = self;
        let mut journal = Journal::starting_at(alloc, log, Vec::new(alloc), counter);
        if !reads(&mut journal) {
            return Err(halt_at(&journal, reports));
        }
        if !adopt(&mut journal, node) {
            return Err(halt_at(&journal, reports));
        }
        match reports.look(&journal) {
            Some(trouble) => Err(Halt::Log(trouble)),
            None => Ok(journal),
        }
    }
}
