//! Entries that are read from a log's bytes, one after the other.

ghost use Rattle.std.specs.Prelude.{◌≡◌, ◌≤◌, ◌<◌, ℕ, List, IfOk, OnOk, IfSome, IfErr, length};
ghost use Rattle.wulameron_trail.specs.Unread.{IsFrontIn, IsNext, IsUnread, IsWithin};
ghost use Rattle.wulameron_trail.specs.Pieces.{TakesPiece, TriesPiece};
ghost use Rattle.wulameron_trail.specs.Stopping.{IsOfReading};

use crate::stopping::Stop;
use iceoryx2_file_log::ahead::Ahead;
use iceoryx2_file_log::error::{FileFault, system_fault};
use iceoryx2_file_log::remainder::{Front, front_of};
use negotiate_serve::ending::ServeError;
use std::alloc::Global;
use std::io::{ErrorKind, Read};
use wulameron_place::trouble::Trouble;

/// How many bytes are read at once.
const PIECE_LENGTH: usize = 8192;

/// The stop after a call was interrupted, or brought nothing new, 2^64 - 1 times.
pub(crate) const TOO_OFTEN: Stop = Stop::Refused(Trouble::Refused(FileFault::Failed {
    kind: ErrorKind::Interrupted,
}));

/// Asks the reader once for bytes, and returns how many it gave, or `None` if it was interrupted.
fn read_once<R: Read>(reader: &mut R, piece: &mut [u8]) -> Result<Option<usize>, Stop>
    requires { 0 < length piece.old }
    ensures bound { IfOk result (λ given. IfSome given (λ count. count ≤ length piece.new)) }
    ensures bytes { TriesPiece result piece.new (R.remaining reader.old) (R.remaining reader.new) }
{
    match reader.read(piece) {
        Ok(count) => Ok(Some(count)),
        Err(error) => match error.kind() {
            ErrorKind::Interrupted => Ok(None),
            _ => Err(Stop::Refused(Trouble::Refused(system_fault(&error)))),
        },
    }
}

/// Reads bytes, at least one unless the reader has no more, and returns how many. An interrupted read is tried again.
fn read_some<R: Read>(reader: &mut R, piece: &mut [u8]) -> Result<usize, Stop>
    requires { 0 < length piece.old }
    ensures bound { IfOk result (λ count. count ≤ length piece.new) }
    ensures bytes { TakesPiece result piece.new (R.remaining reader.old) (R.remaining reader.new) }
{
    for _ in 0..u64::MAX {
        if let Some(count) = read_once(reader, piece)? {
            return Ok(count);
        }
    }
    Err(TOO_OFTEN)
}

/// Reads on, and returns how many bytes it read: none if the reader has no more.
fn read_on<R: Read>(reader: &mut R, ahead: &mut Ahead) -> Result<usize, Stop>
    ensures unread { (bytes : List ℕ) → IsUnread ahead.old (R.remaining reader.old) bytes
        → OnOk result (IsUnread ahead.new (R.remaining reader.new) bytes) }
    ensures end { (bytes : List ℕ) → IsUnread ahead.old (R.remaining reader.old) bytes
        → IfOk result (λ count. count ≡ 0 → ahead.old ≡ bytes) }
    ensures err { IfErr result IsOfReading }
{
    let mut piece = [0u8; PIECE_LENGTH];
    match read_some(reader, &mut piece) {
        Ok(count) => match ahead.add(&piece[..count]) {
            Ok(()) => Ok(count),
            Err(_) => Err(Stop::Failed(ServeError::OutOfMemory)),
        },
        Err(stop) => Err(stop),
    }
}

/// Returns what bytes begin with if no more than these are written.
fn front_in(alloc: Global, bytes: &[u8]) -> Result<Front, Stop>
    ensures front { IfOk result (IsFrontIn bytes.now) }
    ensures err { IfErr result IsOfReading }
{
    match front_of(alloc, bytes, bytes.len() as u64) {
        Ok(front) => Ok(front),
        Err(_) => Err(Stop::Failed(ServeError::OutOfMemory)),
    }
}

/// Returns what the bytes that are left begin with: an entry, which stays read ahead; or damage. Or they are all
/// nothing, or what a writer leaves that died or hasn't written all of it yet.
///
/// `Refused` if the reader answers an error, `Failed` by memory.
pub(crate) fn next_front<R: Read>(
    alloc: Global,
    reader: &mut R,
    ahead: &mut Ahead,
) -> Result<Front, Stop>
    ensures unread { (bytes : List ℕ) → IsUnread ahead.old (R.remaining reader.old) bytes
        → OnOk result (IsUnread ahead.new (R.remaining reader.new) bytes) }
    ensures next { (bytes : List ℕ) → IsUnread ahead.old (R.remaining reader.old) bytes
        → IfOk result (IsNext bytes) }
    ensures room { IfOk result (λ front. IsWithin front ahead.new) }
    ensures err { IfErr result IsOfReading }
{
    for _ in 0..u64::MAX {
        match front_in(alloc, ahead.as_slice())? {
            Front::Whole { entry, count } => return Ok(Front::Whole { entry, count }),
            Front::Torn => {
                let count = read_on(reader, ahead)?;
                if count == 0 {
                    return Ok(Front::Torn);
                }
            }
            Front::Unfinished | Front::Damaged => return Ok(Front::Damaged),
        }
    }
    Err(TOO_OFTEN)
}
