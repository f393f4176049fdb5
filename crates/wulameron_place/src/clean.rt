//! Releases what dead nodes have, or writes what that would be.

ghost use Rattle.std.specs.Prelude.{◌≡◌, ◌∷◌, [], IfOk, IfSome};
ghost use Rattle.iceoryx2_journal.specs.Taking.{is_own};
ghost use Rattle.iceoryx2_world.specs.Interference.{Rely};
ghost use Rattle.wulameron_place.specs.Clean.{AreWanted, ComesToWorld};

use crate::claims::{NodeError, list, state_of};
use crate::dead::{DeadNodes, NotDead, PlaceNodes, Unclaimed, dead_of, not_dead};
use crate::opening::{OpenLog, open_existing, open_view};
use crate::reading::take_over;
use crate::reports::Reports;
use crate::texts::{RehearsalError, describe_cleaned, gave_nothing, rehearse_nodes};
use crate::trouble::{Refusing, Troubled};
use iceoryx2_journal::cleaning::{CleanError, Cleaned};
use iceoryx2_journal::journal::Journal;
use iceoryx2_log::call_log::{CallLog, SpansCalls};
use iceoryx2_table::table::stored::StoredWorld;
use negotiate_serve::ending::{DONE, FAULT, ServeError};
use negotiate_serve::output::write_out;
use std::alloc::Global;
use std::fmt;
use std::fs::File;
use std::io::Write;
use std::random::RandomSource;
use std::rt::Files;
use std::time::Clock;
use wulameron_arguments::asked::{Clean, Place};

/// The status if a named node isn't dead.
pub const NOT_DEAD: u8 = 1;

/// What a world refuses if it refuses a step of a rehearsal.
pub const STAYS: &str = "refuses to release what a dead node has; run `check`";

/// Why there are no nodes to clean up for.
#[derive(Drop)]
pub enum Unfound {
    /// The named node isn't dead.
    NotDead(NotDead),
    /// A node's file, the log's folder or the database refused.
    Failed(NodeError),
    OutOfMemory,
}

/// Releases what dead nodes have over the log of a place, of all or of the named one, with a line on the output for
/// each node that had something. A dry run only writes what that would be: it opens the log only to read it. The log has
/// to be there, and none is made.
///
/// Returns the status with which the program ends: 0; 1 if the named node isn't dead; or 3 after a failure. With 1 or 3
/// the writer of errors has a line.
pub fn clean<F: Files<File = File> + Clock + RandomSource + AllocGlobal, W: Write, E: Write>(
    rt: &F,
    asked: &Clean<'_>,
    output: &mut W,
    errors: &mut E,
) -> u8 {
    let mut reports = Reports::new(rt.alloc(), asked.place.at, errors);
    if asked.is_dry_run {
        return match open_view(rt, asked.place, &mut reports) {
            Some(journal) => rehearse_found(rt, asked, journal, output, &mut reports),
            None => FAULT,
        };
    }
    match open_existing(rt, asked.place, &mut reports) {
        Some(log) => clean_found(rt, asked, log, output, &mut reports),
        None => FAULT,
    }
}

// ---- which nodes

/// Returns the dead nodes at the place, or the named one if it is dead.
pub fn wanted_nodes<F: Files<File = File> + AllocGlobal>(
    rt: &F,
    place: Place<'_>,
    named: Option<u64>,
) -> Result<Vec<u64>, Unfound>
    ensures { IfOk result (λ nodes. AreWanted named nodes.items) }
{
    match named {
        Some(node) => named_node(rt, place, node),
        None => match list(rt, place) {
            Ok(found) => match dead_of(rt.alloc(), &found) {
                Ok(dead) => Ok(dead),
                Err(_) => Err(Unfound::OutOfMemory),
            },
            Err(error) => Err(Unfound::Failed(error)),
        },
    }
}

/// Returns this node, if it is dead.
fn named_node<F: Files<File = File> + AllocGlobal>(
    rt: &F,
    place: Place<'_>,
    node: u64,
) -> Result<Vec<u64>, Unfound>
    ensures { IfOk result (λ nodes. nodes.items ≡ node ∷ []) }
{
    match state_of(rt, place, node) {
        Ok(state) => match not_dead(node, state) {
            None => match vec![in rt.alloc(); node] {
                Ok(nodes) => Ok(nodes),
                Err(_) => Err(Unfound::OutOfMemory),
            },
            Some(why) => Err(Unfound::NotDead(why)),
        },
        Err(error) => Err(Unfound::Failed(error)),
    }
}

/// Tells why there are no nodes to clean up for, and returns the status.
fn end_unfound<E: Write>(why: &Unfound, reports: &mut Reports<'_, E>) -> u8 {
    match why {
        Unfound::NotDead(why) => {
            let _ = reports.tell(*why);
            NOT_DEAD
        }
        Unfound::Failed(error) => {
            let _ = reports.tell_claim(error);
            FAULT
        }
        Unfound::OutOfMemory => reports.fail(ServeError::OutOfMemory),
    }
}

// ---- what they have is released

/// Finds the dead nodes, and releases what they have over an open log.
fn clean_found<
    F: Files<File = File> + Clock + RandomSource + AllocGlobal,
    L: Refusing + Drop,
    W: Write,
    E: Write,
>(rt: &F, asked: &Clean<'_>, log: OpenLog<L>, output: &mut W, reports: &mut Reports<'_, E>) -> u8 {
    match wanted_nodes(rt, asked.place, asked.node) {
        Ok(nodes) => {
            let dead = PlaceNodes::of(rt, asked.place);
            clean_over(log, &dead, (asked.node, &nodes), output, reports)
        }
        Err(why) => end_unfound(&why, reports),
    }
}

/// Releases what these nodes have over an open log. `named` is the node that the user named, if any.
fn clean_over<L: Refusing + Drop, D: DeadNodes, W: Write, E: Write>(
    log: OpenLog<L>,
    dead: &D,
    (named, nodes): (Option<u64>, &[u64]),
    output: &mut W,
    reports: &mut Reports<'_, E>,
) -> u8 {
    let OpenLog { log, counter } = log;
    let alloc = reports.alloc();
    let mut journal = Journal::starting_at(alloc, CallLog::new(log), Vec::new(alloc), counter);
    let done = clean_nodes(alloc, &mut journal, dead, nodes, output);
    if let Some(_) = reports.look(&journal) {
        return FAULT;
    }
    match done {
        Ok(spared) => end_clean(spared, named, reports),
        Err(fault) => reports.fail(fault),
    }
}

/// Which of some nodes weren't cleaned up for.
#[derive(Clone, Copy)]
pub struct Spared {
    /// At least one is alive.
    pub some_alive: bool,
    /// The last one for which the log or the node's claim refused.
    pub refused: Option<u64>,
}

/// A node that wasn't cleaned up for, because the log or the node's claim refused.
#[derive(Clone, Copy)]
pub struct Uncleaned {
    pub node: u64,
}

impl fmt::Display for Uncleaned {
    ghost use Rattle.std.specs.Prelude.{Some};
    ghost use Rattle.wulameron_place.specs.Clean.{uncleaned_text};

    ghost output = { λ uncleaned. Some (uncleaned_text uncleaned.node) };

    fn fmt<W: fmt::Write>(&self, f: &mut fmt::Formatter<W>) -> fmt::Result {
        let node = self.node;
        write!(
            f,
            "node {node} keeps what it has, as its claim or the log refused; run `clean` again"
        )
    }
}

/// Returns the status after these were spared. It tells which node keeps what it has, or that a named node is alive.
fn end_clean<E: Write>(spared: Spared, named: Option<u64>, reports: &mut Reports<'_, E>) -> u8 {
    if let Some(node) = spared.refused {
        let _ = reports.tell(Uncleaned { node });
        return FAULT;
    }
    match named {
        Some(node) => {
            if spared.some_alive {
                let _ = reports.tell(NotDead::IsAlive { node });
                return NOT_DEAD;
            }
            DONE
        }
        None => DONE,
    }
}

/// Releases what these nodes have, as far as they are dead, with a line for each node that had something. If the log or
/// a node's file refuses for one of them, it goes on with the others.
///
/// `ServeError` if a line can't be written, or there is no memory for it.
pub fn clean_nodes<L: Refusing + SpansCalls, D: DeadNodes, W: Write>(
    alloc: Global,
    journal: &mut Journal<L>,
    dead: &D,
    nodes: &[u64],
    output: &mut W,
) -> Result<Spared, ServeError>
    ensures kept { Rely (is_own journal.old.nodes) journal.old.world journal.new.world }
    ensures nodes { journal.new.nodes ≡ journal.old.nodes }
{
    let mut some_alive = false;
    let mut refused = None;
    for node in nodes {
        match clean_node(journal, dead, *node) {
            Found::Alive => some_alive = true,
            Found::Cleaned(cleaned) => write_cleaned(alloc, *node, cleaned, output)?,
            Found::Refused => refused = Some(*node),
        }
    }
    Ok(Spared {
        some_alive,
        refused,
    })
}

/// What became of a node.
#[derive(Clone, Copy)]
pub enum Found {
    /// It isn't dead any more.
    Alive,
    /// It was dead, and this was released.
    Cleaned(Cleaned),
    /// Its file or the log refused.
    Refused,
}

/// Releases what a node has, if it is still dead.
fn clean_node<L: Refusing + SpansCalls, D: DeadNodes>(
    journal: &mut Journal<L>,
    dead: &D,
    node: u64,
) -> Found
    ensures kept { Rely (is_own journal.old.nodes) journal.old.world journal.new.world }
    ensures nodes { journal.new.nodes ≡ journal.old.nodes }
{
    match dead.claim(node) {
        Err(Unclaimed::IsAlive) => Found::Alive,
        Err(Unclaimed::Refused) => Found::Refused,
        Ok(claim) => {
            journal.begin_call();
            let cleaned = journal.clean(node);
            journal.end_call();
            dead.give_back(claim);
            found_by(cleaned)
        }
    }
}

/// Returns what became of a dead node.
pub fn found_by(cleaned: Result<Cleaned, CleanError>) -> Found {
    match cleaned {
        Ok(cleaned) => Found::Cleaned(cleaned),
        Err(_) => Found::Refused,
    }
}

/// Writes what was released for a node, if it had something.
fn write_cleaned<W: Write>(
    alloc: Global,
    node: u64,
    cleaned: Cleaned,
    output: &mut W,
) -> Result<(), ServeError> {
    if gave_nothing(cleaned) {
        return Ok(());
    }
    let mut text = String::new(alloc);
    match describe_cleaned(node, cleaned, &mut text) {
        Ok(()) => write_out(text.as_bytes(), output),
        Err(_) => Err(ServeError::OutOfMemory),
    }
}

// ---- what they have would be released

/// Finds the dead nodes, and writes what would be released of what they have.
fn rehearse_found<F: Files<File = File> + AllocGlobal, L: Refusing + Drop, W: Write, E: Write>(
    rt: &F,
    asked: &Clean<'_>,
    journal: Journal<L>,
    output: &mut W,
    reports: &mut Reports<'_, E>,
) -> u8 {
    match wanted_nodes(rt, asked.place, asked.node) {
        Ok(nodes) => rehearse_over(journal, &nodes, output, reports),
        Err(why) => end_unfound(&why, reports),
    }
}

/// Writes what would be released of what these nodes have in a journal's world.
fn rehearse_over<L: Refusing + Drop, W: Write, E: Write>(
    journal: Journal<L>,
    nodes: &[u64],
    output: &mut W,
    reports: &mut Reports<'_, E>,
) -> u8 {
    let Some(mut world) = caught_up(journal, reports) else {
        return FAULT;
    };
    match rehearse_nodes(reports.alloc(), &mut world, nodes) {
        Ok(text) => match write_out(text.as_bytes(), output) {
            Ok(()) => DONE,
            Err(fault) => reports.fail(fault),
        },
        Err(RehearsalError::OutOfMemory) => reports.fail(ServeError::OutOfMemory),
        Err(RehearsalError::Refused { node: _ }) => {
            let _ = reports.tell(STAYS);
            FAULT
        }
    }
}

/// Returns the world that a journal's log comes to: all of it is taken over, and nothing appended. `None` if not all
/// can be taken over, which is told: what goes wrong at the log, or that there was no memory.
pub fn caught_up<L: Refusing + Drop, E: Write>(
    journal: Journal<L>,
    reports: &mut Reports<'_, E>,
) -> Option<StoredWorld>
    ensures { IfSome result (ComesToWorld L.contents journal) }
{
    let mut journal = journal;
    let is_all = take_over(&mut journal);
    let _ = reports.look(&journal);
    if is_all {
        return Some(journal.into_world());
    }
    if journal.trouble().is_none() {
        let _ = reports.fail(ServeError::OutOfMemory);
    }
    None
}
