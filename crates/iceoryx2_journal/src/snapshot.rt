//! Snapshots: entries that come to the world of a whole log. A process writes one when it compacts
//! a log, and reads one at the place where a log goes on.

ghost use Rattle.std.specs.Prelude.{◌≡◌, List, IfOk, IfSome, OnOk, None, false};
ghost use Rattle.iceoryx2_log.specs.declared.entry.Entry as declared;
ghost use Rattle.iceoryx2_log.specs.Log.{WhereKnown};
ghost use Rattle.iceoryx2_table.specs.Same.{IsSameButRead};
ghost use Rattle.iceoryx2_journal.specs.Taking.{is_own, Takes, TakesNext, TakesAllOf};
ghost use Rattle.iceoryx2_journal.specs.Taking.{RestoresNext, Restores, IsRestored, CatchesUp, IsCompacted};
ghost use Rattle.iceoryx2_journal.specs.Snapshot.{IsSnapshot, StandsFor, WritesNext};

use crate::course::Course;
use crate::follow::{FollowError, follow};
use crate::taking::{Next, Stop, has};
use iceoryx2_log::entry::Entry;
use iceoryx2_log::log::Log;
use iceoryx2_table::table::stored::StoredWorld;
use std::alloc::Global;

/// The number with which the counter of a snapshot begins.
const FIRST_NUMBER: u64 = 0;

/// The node that spends a snapshot's numbers.
const SPENDING_NODE: u64 = 0;

// Returns why to stop at an entry that can't be followed.
fn stop_after(error: FollowError) -> Stop {
    match error {
        FollowError::OutOfMemory => Stop::Later,
        FollowError::Disagrees => Stop::Over,
    }
}

// ---- on the way to another world

// Returns a node that isn't an own one.
fn other_node(nodes: &[u64]) -> Option<u64>
    ensures { IfSome result (λ node. is_own nodes.now node ≡ false) }
{
    for node in 0..u64::MAX {
        if !has(nodes, node) {
            return Some(node);
        }
    }
    None
}

// Follows the next entry on the way to the other world. It isn't an own node's, since an own node's process did nothing
// meanwhile.
fn advance_next(
    alloc: Global,
    course: &mut Course,
    world: &mut StoredWorld,
    target: &StoredWorld,
    nodes: &[u64],
) -> Next
    ensures { TakesNext nodes.now result world.old world.new None None }
{
    let Ok(found) = course.next(alloc, world, target) else {
        return Next::Stopped(Stop::Later);
    };
    let Some(entry) = found else {
        return Next::Nothing;
    };
    if has(nodes, entry.node) {
        return Next::Stopped(Stop::Over);
    }
    match follow(alloc, world, &entry) {
        Ok(()) => Next::Taken,
        Err(error) => match error {
            FollowError::OutOfMemory => Next::Stopped(Stop::Later),
            FollowError::Disagrees => Next::Stopped(Stop::Over),
        },
    }
}

// Follows all entries on the way to the other world.
fn advance_all(
    alloc: Global,
    world: &mut StoredWorld,
    target: &StoredWorld,
    nodes: &[u64],
) -> Result<(), Stop>
    ensures { TakesAllOf nodes.now result world.old world.new None None }
{
    let Some(spare) = other_node(nodes) else {
        return Err(Stop::Later);
    };
    let mut course = Course::new(spare);
    for _ in 0..u64::MAX {
        match advance_next(alloc, &mut course, world, target, nodes) {
            Next::Taken => {}
            Next::Nothing => return Ok(()),
            Next::Stopped(stop) => return Err(stop),
        }
    }
    Err(Stop::Later)
}

// Brings the world to the other one by what others did meanwhile. `Over` if that leads to a different world.
fn advance(
    alloc: Global,
    world: &mut StoredWorld,
    target: &StoredWorld,
    nodes: &[u64],
) -> Result<(), Stop>
    ensures takes { TakesAllOf nodes.now result world.old world.new None None }
    ensures same { OnOk result (IsSameButRead target.now world.new) }
{
    advance_all(alloc, world, target, nodes)?;
    if target.is_same(world) {
        Ok(())
    } else {
        Err(Stop::Over)
    }
}

// ---- a snapshot that is read

// Reads and follows the next entry of the snapshot.
fn restore_next<L: Log>(alloc: Global, world: &mut StoredWorld, log: &mut L) -> Next
    ensures { RestoresNext result world.old world.new (L.contents log.old) (L.contents log.new) }
{
    if !log.is_in_snapshot() {
        return Next::Nothing;
    }
    let Ok(found) = log.next() else {
        return Next::Stopped(Stop::Later);
    };
    let Some(entry) = found else {
        return Next::Stopped(Stop::Over);
    };
    match follow(alloc, world, &entry) {
        Ok(()) => {
            log.accept();
            Next::Taken
        }
        Err(error) => Next::Stopped(stop_after(error)),
    }
}

// Reads and follows the entries of the snapshot that the handle reads next.
fn restore_all<L: Log>(alloc: Global, world: &mut StoredWorld, log: &mut L) -> Result<(), Stop>
    ensures { Restores result world.old world.new (L.contents log.old) (L.contents log.new) }
{
    for _ in 0..u64::MAX {
        match restore_next(alloc, world, log) {
            Next::Taken => {}
            Next::Nothing => return Ok(()),
            Next::Stopped(stop) => return Err(stop),
        }
    }
    Err(Stop::Later)
}

// Reads the snapshot that the handle reads next. Returns the world that it leads to, whose numbers begin at `counter`.
fn restored<L: Log>(alloc: Global, log: &mut L, counter: u64) -> Result<StoredWorld, Stop>
    ensures world { IfOk result (λ world. IsRestored counter world (L.contents log.old) (L.contents log.new)) }
    ensures taken { (entries : List declared.Entry)
        × WhereKnown (Takes entries) (L.contents log.old) (L.contents log.new) }
{
    let mut world = StoredWorld::starting_at(alloc, counter);
    restore_all(alloc, &mut world, log)?;
    Ok(world)
}

/// Goes to the place where the log goes on, and brings the world to that of the snapshot there, by
/// what others did meanwhile. `Later` if the log can't be held or read there or there is no memory:
/// then it has to be called again. `Over` if the snapshot is none, or comes to a world to which
/// only own nodes lead.
pub fn catch_up<L: Log>(
    alloc: Global,
    world: &mut StoredWorld,
    log: &mut L,
    nodes: &[u64],
) -> Result<(), Stop>
    ensures { CatchesUp nodes.now result world.old world.new (L.contents log.old) (L.contents log.new) }
{
    let Ok(counter) = log.rejoin() else {
        return Err(Stop::Later);
    };
    match restored(alloc, log, counter) {
        Ok(target) => advance(alloc, world, &target, nodes),
        Err(stop) => Err(stop),
    }
}

// ---- a snapshot that is written

// Follows the next entry on the way to the world, and adds it to the entries.
fn write_next(
    alloc: Global,
    course: &mut Course,
    copy: &mut StoredWorld,
    entries: &mut Vec<Entry>,
    world: &StoredWorld,
) -> Next
    ensures { WritesNext result copy.old entries.old.items copy.new entries.new.items }
{
    let Ok(found) = course.next(alloc, copy, world) else {
        return Next::Stopped(Stop::Later);
    };
    let Some(entry) = found else {
        return Next::Nothing;
    };
    if let Err(error) = follow(alloc, copy, &entry) {
        return Next::Stopped(stop_after(error));
    }
    let Ok(_) = entries.push(entry) else {
        return Next::Stopped(Stop::Later);
    };
    Next::Taken
}

// Returns entries on the way from an empty world to this one, as far as the way is known, and the world that they lead
// to. The two worlds aren't compared.
fn way_to(alloc: Global, world: &StoredWorld) -> Result<(Vec<Entry>, StoredWorld), Stop>
    ensures { IfOk result (λ way. IsSnapshot FIRST_NUMBER way.0.items way.1) }
{
    let mut copy = StoredWorld::starting_at(alloc, FIRST_NUMBER);
    let mut entries = Vec::new(alloc);
    let mut course = Course::new(SPENDING_NODE);
    for _ in 0..u64::MAX {
        match write_next(alloc, &mut course, &mut copy, &mut entries, world) {
            Next::Taken => {}
            Next::Nothing => return Ok((entries, copy)),
            Next::Stopped(stop) => return Err(stop),
        }
    }
    Err(Stop::Later)
}

// Returns entries that stand for the world. `Later` if there is no memory, and `Over` if no way to the world is known.
fn snapshot_of(alloc: Global, world: &StoredWorld) -> Result<Vec<Entry>, Stop>
    ensures { IfOk result (λ entries. StandsFor FIRST_NUMBER entries.items world.now) }
{
    let (entries, copy) = way_to(alloc, world)?;
    if copy.is_same(world) {
        Ok(entries)
    } else {
        Err(Stop::Over)
    }
}

/// Compacts a log that is long and held, and all of which is taken over. The log goes on in a new
/// place, whose snapshot stands for the world. If anything refuses, the log stays as it is.
pub fn compact<L: Log>(alloc: Global, world: &StoredWorld, log: &mut L)
    ensures { WhereKnown (IsCompacted world.now) (L.contents log.old) (L.contents log.new) }
{
    if !log.is_long() {
        return;
    }
    match snapshot_of(alloc, world) {
        Ok(entries) => {
            let _ = log.compact(&entries);
        }
        Err(_) => log.put_off_compaction(),
    }
}
