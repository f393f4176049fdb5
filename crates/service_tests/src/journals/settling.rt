//! Calls of a node that are refused between two of their accesses: the node gives back what they left, and keeps what
//! it uses.

use crate::support::{assert_same, copies, granted, push, there};
use iceoryx2_builder::command::Reply;
use iceoryx2_description::config::Config;
use iceoryx2_journal::journal::Journal;
use iceoryx2_log::call_log::{CallLog, SpansCalls};
use iceoryx2_log::entry::Entry;
use iceoryx2_log::memory::MemoryLog;
use iceoryx2_session::session::Session;
use iceoryx2_session::world_storage::WorldStorage;
use std::alloc::Global;
use std::process::Abort;
use test_support::lines::command_in;

/// A log in memory whose calls can span several accesses.
type CallMemory = CallLog<MemoryLog>;

/// The storage of a process with one node. A function over any of them names few types, so its proof is short.
trait Owing: WorldStorage + Drop {
    /// Makes a storage of these nodes that refuses the appends with these numbers.
    fn refusing(alloc: Global, refused: Vec<u64>, nodes: Vec<u64>) -> Self;

    /// How many tickets, tags, services and segments there are.
    fn amounts(&self) -> [usize; 4];

    /// Whether a ticket stands.
    fn has(&self, ticket: u64) -> bool;
}

impl Owing for Journal<CallMemory> {
    fn refusing(alloc: Global, refused: Vec<u64>, nodes: Vec<u64>) -> Journal<CallMemory> {
        let mut log = MemoryLog::from_entries(alloc, Vec::new(alloc), 0);
        log.set_refused(refused);
        Journal::starting_at(alloc, CallLog::new(log), nodes, 0)
    }

    fn amounts(&self) -> [usize; 4] {
        let world = self.world();
        [
            world.tickets_held().len(),
            world.tags_held().len(),
            world.rows_held().len(),
            world.segments_held().len(),
        ]
    }

    fn has(&self, ticket: u64) -> bool {
        self.world().ticket(ticket).is_some()
    }
}

/// How many appends are refused, one after the other. No call makes as many.
const REFUSED: u64 = 8;

/// The appends from which on they are refused are those before this one. The calls below make fewer.
const LAST: u64 = 24;

/// A process over a log that refuses this append and those after it, and later ones no more.
fn process<S: Owing>(rt: &impl Abort, alloc: Global, first: u64) -> Session<S> {
    let mut refused = Vec::new(alloc);
    for number in first..first.saturating_add(REFUSED) {
        push(rt, &mut refused, number);
    }
    let nodes = granted(rt, [1].to_vec(alloc));
    Session::over(Config::default(), S::refusing(alloc, refused, nodes))
}

/// What this line is answered.
fn reply<S: Owing>(rt: &impl Abort, alloc: Global, process: &mut Session<S>, line: &str) -> Reply {
    process.apply_shared(there(rt, command_in(alloc, line)))
}

/// Gives back what was left, as soon as that isn't refused any more. How many things that were.
fn settle<S: Owing>(rt: &impl Abort, process: &mut Session<S>) -> u64 {
    for _ in 0..=REFUSED {
        if let Ok(given) = process.settle(1) {
            return given.releases.saturating_add(given.removals);
        }
    }
    panic!(rt; "still refused")
}

/// How many of the slots hold a factory whose ticket stands in the world.
fn used<S: Owing>(process: &Session<S>) -> usize {
    let mut used = 0usize;
    for slot in 0..3 {
        if let Some(held) = process.registration(slot) {
            if process.storage().has(held.ticket()) {
                used = used.saturating_add(1);
            }
        }
    }
    used
}

/// What these lines leave is given back, and the slots' factories stay. How many things that were.
fn settled<S: Owing>(
    rt: &impl Abort,
    alloc: Global,
    process: &mut Session<S>,
    lines: &[&str],
) -> u64 {
    for line in lines {
        let _reply = reply(rt, alloc, process, line);
    }
    let before = used(process);
    let given = settle(rt, process);
    let after = (process.storage().amounts(), used(process));
    assert_same(rt, after, ([before; 4], before));
    given
}

/// Whether the name is created in slot 1 as if nothing had been, as soon as the log refuses no more. A slot whose close
/// is refused is closed again.
fn is_created<S: Owing>(rt: &impl Abort, alloc: Global, process: &mut Session<S>) -> bool {
    for _ in 0..=REFUSED {
        let _closed = reply(rt, alloc, process, "close 1");
        let created = reply(rt, alloc, process, "event create 1 1 a");
        if matches!(created, Reply::Opened { slot: 1, number: _ }) {
            return true;
        }
        let _given = settle(rt, process);
    }
    false
}

/// Closes both slots, again where that is refused.
fn close_both<S: Owing>(rt: &impl Abort, alloc: Global, process: &mut Session<S>) {
    for _ in 0..=REFUSED {
        for line in ["close 0", "close 1"] {
            let _reply = reply(rt, alloc, process, line);
        }
        let _given = settle(rt, process);
    }
}

/// After it the name can be created as if nothing had been, and all can be closed. How many things were given back.
fn goes_on<S: Owing>(rt: &impl Abort, alloc: Global, first: u64, lines: &[&str]) -> u64 {
    let mut process = process::<S>(rt, alloc, first);
    let given = settled(rt, alloc, &mut process, lines);
    let is_open = is_created(rt, alloc, &mut process);
    assert_same(rt, (first, is_open), (first, true));
    close_both(rt, alloc, &mut process);
    assert_same(rt, (first, process.storage().amounts()), (first, [0; 4]));
    let _storage = process.close_all();
    given
}

/// The most things that these lines leave, wherever the log begins to refuse.
fn most_left<S: Owing>(rt: &impl Abort, alloc: Global, lines: &[&str]) -> u64 {
    let mut most = 0;
    for first in 1..LAST {
        most = goes_on::<S>(rt, alloc, first, lines).max(most);
    }
    most
}

#[test]
fn what_a_refused_create_left_is_given_back(rt: HostRuntime) {
    let lines = ["event create 1 0 b", "event create 1 1 a"];
    let most = most_left::<Journal<CallMemory>>(&rt, rt.alloc(), &lines);
    assert_same(&rt, most > 0, true);
}

#[test]
fn what_a_refused_close_left_is_given_back(rt: HostRuntime) {
    let lines = ["event create 1 0 b", "event create 1 1 a", "close 1"];
    let most = most_left::<Journal<CallMemory>>(&rt, rt.alloc(), &lines);
    assert_same(&rt, most > 0, true);
}

/// Copies of what stands in a journal's log.
fn standing(rt: &impl Abort, alloc: Global, journal: &Journal<CallMemory>) -> Vec<Entry> {
    copies(rt, alloc, journal.log().log().entries())
}

/// The storage of a process that has created `a` and closed nothing, where appends are refused from this one on.
fn storage_of_create<S: Owing>(rt: &impl Abort, alloc: Global, first: u64) -> S {
    let mut process = process::<S>(rt, alloc, first);
    let _reply = reply(rt, alloc, &mut process, "event create 1 0 a");
    let _was_held = process.abandon(0);
    process.close_all()
}

/// What a journal comes to that goes on over a log, and gives all back then.
fn gone_on<L: SpansCalls + Drop>(journal: Journal<L>, log: L) -> (bool, bool, usize, bool, usize) {
    let mut journal = journal;
    let is_all = journal.resume(log);
    let tickets = journal.world().tickets_held().len();
    let is_settled = journal.settle(1, &[]).is_ok();
    let left = journal.world().tags_held().len() + journal.world().rows_held().len();
    (is_all, journal.is_over(), tickets, is_settled, left)
}

/// A log of entries, of which so many were taken.
fn log_of(alloc: Global, entries: Vec<Entry>, taken: usize) -> CallMemory {
    let taken = taken.min(entries.len());
    CallLog::new(MemoryLog::from_entries(alloc, entries, taken))
}

#[test]
fn an_append_in_doubt_that_stands_is_found_and_given_back(rt: HostRuntime) {
    let alloc = rt.alloc();
    let entries = standing(&rt, alloc, &storage_of_create(&rt, alloc, LAST));
    assert_same(&rt, entries.len(), 4);
    for taken in 0..entries.len() {
        let journal = storage_of_create::<Journal<CallMemory>>(&rt, alloc, taken as u64 + 1);
        let found = match entries.get(..taken + 1) {
            Some(found) => copies(&rt, alloc, found),
            None => Vec::new(alloc),
        };
        let tickets = if taken == 3 { 1 } else { 0 };
        let found = gone_on(journal, log_of(alloc, found, taken));
        assert_same(&rt, found, (true, false, tickets, true, 0));
    }
}

/// The entries of a log after another process has cleaned up for node 1.
fn cleaned(rt: &impl Abort, alloc: Global, entries: Vec<Entry>) -> Vec<Entry> {
    let log = MemoryLog::from_entries(alloc, entries, 0);
    let mut other = Journal::starting_at(alloc, log, Vec::new(alloc), 0);
    let _cleaned = granted(rt, other.clean(1));
    copies(rt, alloc, other.log().entries())
}

#[test]
fn what_others_gave_back_in_its_name_is_taken_over(rt: HostRuntime) {
    let alloc = rt.alloc();
    let journal = storage_of_create::<Journal<CallMemory>>(&rt, alloc, LAST);
    let entries = standing(&rt, alloc, &journal);
    let taken = entries.len();
    let entries = cleaned(&rt, alloc, entries);
    let found = gone_on(journal, log_of(alloc, entries, taken));
    assert_same(&rt, found, (true, false, 0, true, 0));
}
