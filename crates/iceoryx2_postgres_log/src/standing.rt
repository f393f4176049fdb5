//! The place of a handle in a log, and how the server tells it.

ghost use Rattle.std.specs.Prelude.{◌≡◌, ◌≢◌, ◌≤◌, ◌<◌, ◌⊎◌, ◌++◌, false};
ghost use Rattle.std.specs.Prelude.{IfOk, IsTrue, codes, string_bytes};
ghost use Rattle.iceoryx2_postgres_log.specs.Rows.{place_text};
ghost use Rattle.iceoryx2_postgres_log.specs.Standing as spec;
ghost use Rattle.iceoryx2_postgres_log.specs.Standing.{IsStart};

use crate::fault::PostgresFault;
use crate::line::{Line, behind};
use crate::number::number_before;
use crate::row::{SUM_LENGTH, place_front};
use std::alloc::{AllocError, Global};

/// The version of the tables.
pub const VERSION: u64 = 3;

/// The place of a handle: behind which entry of which generation of which log it stands.
#[derive(Debug)]
pub struct Standing {
    /// The log's number at the server.
    pub log: u64,
    pub generation: u64,
    /// The number with which the counter of services begins in this generation.
    pub counter: u64,
    /// The number of the generation's entries that are its snapshot.
    pub snapshot: u64,
    /// The number of the last entry that was taken over or appended: 0 before the first one.
    pub number: u64,
    /// The server's text for this number: the number, and the sum of all rows up to it.
    pub place: Line,
}

// Written out, so that a proof of what lets one go doesn't take its fields apart.
impl Drop for Standing {
    fn drop(self) {
        let Standing {
            log: _,
            generation: _,
            counter: _,
            snapshot: _,
            number: _,
            place: _,
        } = self;
    }
}

impl Standing {
    /// Returns a copy. An `Err` is of memory.
    pub fn copy(&self, alloc: Global) -> Result<Standing, AllocError>
        ensures { IfOk result (λ at. at ≡ self.now) }
    {
        let place = self.place.copy(alloc)?;
        Ok(Standing {
            log: self.log,
            generation: self.generation,
            counter: self.counter,
            snapshot: self.snapshot,
            number: self.number,
            place,
        })
    }

    pub fn into_place(self) -> Line
        ensures { result ≡ self.place }
    {
        let Standing {
            log: _,
            generation: _,
            counter: _,
            snapshot: _,
            number: _,
            place,
        } = self;
        place
    }
}

/// The numbers of a row that tells a start.
#[derive(Clone, Copy)]
struct Start {
    log: u64,
    generation: u64,
    counter: u64,
    snapshot: u64,
}

/// Returns the four numbers behind the version.
fn start_of(text: &[u8]) -> Option<Start> {
    let (log, rest) = number_before(text)?;
    let (generation, rest) = number_before(rest)?;
    let (counter, rest) = number_before(rest)?;
    let (snapshot, _chain) = number_before(rest)?;
    Some(Start {
        log,
        generation,
        counter,
        snapshot,
    })
}

/// Returns the text before the sum in a row that tells this start.
fn front(alloc: Global, start: &Start) -> Result<String, AllocError>
    ensures { IfOk result (λ text. string_bytes text
        ≡ spec.start_front start.now.log start.now.generation start.now.counter start.now.snapshot) }
{
    let Start {
        log,
        generation,
        counter,
        snapshot,
    } = start;
    format!(in alloc; "3 {log} {generation} {counter} {snapshot} ")
}

/// Returns the place before the first entry.
pub fn first_place(alloc: Global, sum: &[u8]) -> Result<Line, AllocError>
    ensures { IfOk result (λ place. place ≡ place_text 0 sum.now) }
{
    let front = place_front(alloc, 0)?;
    let mut place = Vec::from_slice(alloc, front.as_bytes())?;
    place.extend_from_slice(sum)?;
    Ok(Line::new(place))
}

/// Returns the standing before the first entry, as this row tells it. `AnotherVersion` if the row begins
/// with the number of another version, and `NotUnderstood` if the row tells no start.
pub fn standing_of(alloc: Global, row: &[u8]) -> Result<Standing, PostgresFault>
    ensures { IfOk result (IsStart row.now) }
{
    let Some((version, rest)) = number_before(row) else {
        return Err(PostgresFault::NotUnderstood);
    };
    if version != VERSION {
        return Err(PostgresFault::AnotherVersion { found: version });
    }
    let Some(start) = start_of(rest) else {
        return Err(PostgresFault::NotUnderstood);
    };
    let Ok(front) = front(alloc, &start) else {
        return Err(PostgresFault::OutOfMemory);
    };
    let Some(sum) = behind(row, front.as_bytes()) else {
        return Err(PostgresFault::NotUnderstood);
    };
    if sum.len() != SUM_LENGTH {
        return Err(PostgresFault::NotUnderstood);
    }
    let Ok(place) = first_place(alloc, sum) else {
        return Err(PostgresFault::OutOfMemory);
    };
    Ok(Standing {
        log: start.log,
        generation: start.generation,
        counter: start.counter,
        snapshot: start.snapshot,
        number: 0,
        place,
    })
}

/// Returns true if this is the start of a later generation of the same log.
pub fn is_later(at: &Standing, start: &Standing) -> bool
    ensures { result ≡ spec.is_later at.now start.now }
{
    if at.log != start.log {
        return false;
    }
    at.generation < start.generation
}

/// Returns true if this is the start of the same log, in the same generation or in a later one.
pub fn is_still(at: &Standing, start: &Standing) -> bool
    ensures still { IsTrue result → (start.now.log ≡ at.now.log) × (at.now.generation ≤ start.now.generation) }
    ensures other { result ≡ false → (start.now.log ≢ at.now.log) ⊎ (start.now.generation < at.now.generation) }
{
    if start.log != at.log {
        return false;
    }
    at.generation <= start.generation
}
