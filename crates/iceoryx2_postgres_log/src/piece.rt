//! A piece of a log, as the rows of a reply tell it.

ghost use Rattle.std.specs.Prelude.{◌≡◌, ◌++◌, ◌<◌, ◌≤◌, ◌+◌, IfOk, IfErr, IsTrue, codes, decimal, length};
ghost use Rattle.iceoryx2_postgres_log.specs.Rows.{AreRows};
ghost use Rattle.iceoryx2_postgres_log.specs.Faults.{IsGrave};
ghost use Rattle.iceoryx2_postgres_log.specs.Pieces.{IsPiece, IsWhole, TellsLast};

use crate::fault::PostgresFault;
use crate::line::{Line, behind, is_same};
use crate::number::{number_before, number_of};
use crate::row::{Row, row_of};
use std::alloc::Global;
use std::collections::VecDeque;

/// The highest number of rows that one question reads.
pub const PIECE: usize = 64;

/// The rows that were read behind a place: the number of the last row there was, and the next rows.
#[derive(Debug)]
pub struct Piece {
    pub last: u64,
    pub rows: VecDeque<Row>,
}

// Written out, so that a proof of what lets one go doesn't take its fields apart.
impl Drop for Piece {
    fn drop(self) {
        let Piece { last: _, rows: _ } = self;
    }
}

impl Piece {
    pub fn into_parts(self) -> (u64, VecDeque<Row>)
        ensures { result ≡ (self.last, self.rows) }
    {
        let Piece { last, rows } = self;
        (last, rows)
    }
}

/// Returns the reason why the first line isn't the place: it tells another place of this number, or
/// something else.
fn why_elsewhere(number: u64, first: &[u8]) -> PostgresFault
    ensures { IsGrave result }
{
    match number_before(first) {
        None => PostgresFault::NotUnderstood,
        Some((found, _)) => {
            if found == number {
                PostgresFault::AnotherHistory
            } else {
                PostgresFault::NotUnderstood
            }
        }
    }
}

/// Returns the number of the last row, which the first line tells behind the place.
fn last_of(alloc: Global, number: u64, place: &[u8], first: &[u8]) -> Result<u64, PostgresFault>
    ensures ok { IfOk result (TellsLast place.now first.now) }
    ensures err { IfErr result IsGrave }
{
    let Some(rest) = behind(first, place) else {
        return Err(why_elsewhere(number, first));
    };
    let Some(digits) = behind(rest, b" ") else {
        return Err(PostgresFault::NotUnderstood);
    };
    let Some(last) = number_of(digits) else {
        return Err(PostgresFault::NotUnderstood);
    };
    let Ok(again) = format!(in alloc; "{last}") else {
        return Err(PostgresFault::OutOfMemory);
    };
    if !is_same(digits, again.as_bytes()) {
        return Err(PostgresFault::NotUnderstood);
    }
    Ok(last)
}

/// Returns the rows of the numbers behind this one, if each line tells the next.
pub fn rows_behind(
    alloc: Global,
    number: u64,
    lines: &[Line],
) -> Result<VecDeque<Row>, PostgresFault>
    ensures ok { IfOk result (λ rows. AreRows number lines.now rows.items) }
    ensures err { IfErr result IsGrave }
{
    let mut rows = VecDeque::new(alloc);
    let mut last = number;
    for line in lines {
        let Some(next) = last.checked_add(1) else {
            return Err(PostgresFault::NotUnderstood);
        };
        let Ok(found) = row_of(alloc, next, line.as_slice()) else {
            return Err(PostgresFault::OutOfMemory);
        };
        let Some(row) = found else {
            return Err(PostgresFault::NotUnderstood);
        };
        match rows.push_back(row) {
            Ok(()) => {}
            Err(_) => return Err(PostgresFault::OutOfMemory),
        }
        last = next;
    }
    Ok(rows)
}

/// Returns true if so many rows behind this number are all up to `end`, or as many as one question reads.
fn is_whole(number: u64, end: u64, count: usize) -> bool
    ensures { IsTrue result → IsWhole number end count }
{
    if count > PIECE {
        return false;
    }
    let Some(reached) = number.checked_add(count as u64) else {
        return false;
    };
    if count == PIECE {
        return reached <= end;
    }
    reached == end
}

/// Returns the rows behind the place of this number and up to `until`, if the lines tell that place and
/// then these rows. `AnotherHistory` if there is no line, or if the line tells another place of this
/// number.
pub fn piece_of(
    alloc: Global,
    number: u64,
    until: u64,
    place: &[u8],
    lines: &[Line],
) -> Result<Piece, PostgresFault>
    ensures ok { IfOk result (λ piece. IsPiece number until place.now lines.now piece.last piece.rows.items) }
    ensures err { IfErr result IsGrave }
{
    let Some((first, others)) = lines.split_first() else {
        return Err(PostgresFault::AnotherHistory);
    };
    let last = last_of(alloc, number, place, first.as_slice())?;
    let rows = rows_behind(alloc, number, others)?;
    if !is_whole(number, last.min(until), rows.len()) {
        return Err(PostgresFault::NotUnderstood);
    }
    Ok(Piece { last, rows })
}
