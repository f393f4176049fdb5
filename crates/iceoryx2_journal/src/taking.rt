//! Taking over what others appended.

ghost use Rattle.std.specs.Prelude.{◌≡◌, false, OnOk};
ghost use Rattle.iceoryx2_journal.specs.Taking.{is_own, ends, IsLaterFor, TakesNext, TakesAllOf, ReachesAllOf};

use crate::follow::{FollowError, follow};
use crate::snapshot::catch_up;
use iceoryx2_log::log::{Log, LogError};
use iceoryx2_table::table::stored::StoredWorld;
use std::alloc::Global;

/// The number of times that one access goes to the place where the log goes on, before it gives up.
const MOVES: u32 = 64;

/// The reason why an entry isn't taken over.
#[derive(Clone, Copy, Debug, PartialEq, Eq)]
pub enum Stop {
    /// The log can't be held or read, or there is no memory. It may go on later.
    Later,
    /// The log goes on in another place.
    Moved,
    /// The entry is in an own node's name, or the table doesn't answer what the entry says.
    Over,
}

impl Stop {
    /// Returns true if nothing is taken over from then on.
    pub fn ends(self) -> bool
        ensures { result ≡ ends self }
    {
        match self {
            Stop::Later => false,
            Stop::Moved => false,
            Stop::Over => true,
        }
    }
}

/// The outcome of taking the next entry over.
pub enum Next {
    /// The entry has had its effect, and is read.
    Taken,
    /// There is no next entry.
    Nothing,
    /// The entry stays unread.
    Stopped(Stop),
}

/// Returns the reason why nothing is taken over if the log refuses to be read.
fn stop_for(error: LogError) -> Stop
    ensures { ends result ≡ false }
{
    match error {
        LogError::Moved => Stop::Moved,
        _ => Stop::Later,
    }
}

/// Returns true if the node is one of these.
pub fn has(nodes: &[u64], node: u64) -> bool
    ensures { result ≡ is_own nodes.now node }
{
    nodes.iter().any(|own| node == *own)
}

/// Takes the next entry over, if there is one. It gets the memory for the entry before it reads the
/// entry. If the entry isn't taken over, the log stays as it was.
pub fn take_next<L: Log>(alloc: Global, world: &mut StoredWorld, log: &mut L, nodes: &[u64]) -> Next
    ensures takes { TakesNext nodes.now result world.old world.new (L.contents log.old) (L.contents log.new) }
    ensures later { IsLaterFor nodes.now (L.shown log.new) result world.old world.new (L.contents log.new) }
{
    let found = match log.next() {
        Ok(found) => found,
        Err(error) => return Next::Stopped(stop_for(error)),
    };
    let Some(entry) = found else {
        return Next::Nothing;
    };
    if has(nodes, entry.node) {
        return Next::Stopped(Stop::Over);
    }
    match follow(alloc, world, &entry) {
        Ok(()) => {
            log.accept();
            Next::Taken
        }
        Err(error) => match error {
            FollowError::OutOfMemory => Next::Stopped(Stop::Later),
            FollowError::Disagrees => Next::Stopped(Stop::Over),
        },
    }
}

// Takes over all entries of this place. If the log goes on in another place, this is only noted.
fn take_here<L: Log>(
    alloc: Global,
    world: &mut StoredWorld,
    log: &mut L,
    nodes: &[u64],
    is_lost: &mut bool,
) -> Result<(), Stop>
    ensures takes { TakesAllOf nodes.now result world.old world.new (L.contents log.old) (L.contents log.new) }
    ensures found { OnOk result (is_lost.new ≡ false) }
{
    let taken = take_all(alloc, world, log, nodes);
    *is_lost = match taken {
        Err(Stop::Moved) => true,
        _ => false,
    };
    taken
}

// Takes over all entries. If the world was lost, it starts at the place where the log goes on.
fn take_round<L: Log>(
    alloc: Global,
    world: &mut StoredWorld,
    log: &mut L,
    nodes: &[u64],
    is_lost: &mut bool,
) -> Result<(), Stop>
    ensures { ReachesAllOf nodes.now result is_lost.old is_lost.new world.old world.new
        (L.contents log.old) (L.contents log.new) }
{
    if !*is_lost {
        return take_here(alloc, world, log, nodes, is_lost);
    }
    match catch_up(alloc, world, log, nodes) {
        Ok(()) => take_here(alloc, world, log, nodes, is_lost),
        Err(stop) => Err(stop),
    }
}

/// Takes all over, wherever the log goes on. `is_lost` is true if the log goes on elsewhere, and
/// the world isn't yet what the log comes to there.
pub fn take_over<L: Log>(
    alloc: Global,
    world: &mut StoredWorld,
    log: &mut L,
    nodes: &[u64],
    is_lost: &mut bool,
) -> Result<(), Stop>
    ensures { ReachesAllOf nodes.now result is_lost.old is_lost.new world.old world.new
        (L.contents log.old) (L.contents log.new) }
{
    for _ in 0..MOVES {
        match take_round(alloc, world, log, nodes, is_lost) {
            Ok(()) => return Ok(()),
            Err(Stop::Moved) => {}
            Err(stop) => return Err(stop),
        }
    }
    Err(Stop::Later)
}

/// Takes all entries over, in order, until there is none or one isn't taken over. That entry and
/// those after it stay unread.
pub fn take_all<L: Log>(
    alloc: Global,
    world: &mut StoredWorld,
    log: &mut L,
    nodes: &[u64],
) -> Result<(), Stop>
    ensures { TakesAllOf nodes.now result world.old world.new (L.contents log.old) (L.contents log.new) }
{
    for _ in 0..u64::MAX {
        match take_next(alloc, world, log, nodes) {
            Next::Taken => {}
            Next::Nothing => return Ok(()),
            Next::Stopped(stop) => return Err(stop),
        }
    }
    Err(Stop::Later)
}
