//! The work of a handle on the bytes of its file, over any medium.

ghost use Rattle.std.specs.Prelude.{◌≡◌, ◌+◌, ◌≤◌, ◌⊎◌, length, IfOk, IfErr, OnOk, OnErr, IfSome, IsTrue};
ghost use Rattle.iceoryx2_file_log.specs.declared.error.FileFault.TheVariants as fault;
ghost use Rattle.iceoryx2_file_log.specs.Errors.{IsOfFile};
ghost use Rattle.iceoryx2_file_log.specs.Handle.{ReadsOn, IsFront};
ghost use Rattle.iceoryx2_file_log.specs.Medium.{Becomes, IsFree, IsLocked, Grants, MayChangeFrom, WritesSome};
ghost use Rattle.iceoryx2_file_log.specs.Bytes.{Reading, IsSoLong, SameAt, Holds, WritesAll, CutsAll};
ghost use Rattle.iceoryx2_file_log.specs.Bytes.{CutsOrStays, IsTakenBack};

use crate::cursor::Cursor;
use crate::error::{FileFault, system_fault};
use crate::medium::Medium;
use crate::remainder::{Front, front_of};
use std::alloc::Global;
use std::io::ErrorKind;
use std::thread;
use std::time::{Clock, Duration, Instant};

/// The number of bytes that are read at once.
const PIECE_LENGTH: usize = 8192;

/// The time by which each pause is longer than the one before, between two tries to hold the log and in a
/// wait.
const PAUSE_GROWTH_MICROS: u64 = 20;

/// The longest of these pauses.
const LONGEST_PAUSE_MICROS: u64 = 2000;

// ---- the lock

/// Returns the length of the pause of this number, from 0 on.
pub(crate) fn pause_after(round: u64) -> Duration {
    let micros = round
        .saturating_mul(PAUSE_GROWTH_MICROS)
        .min(LONGEST_PAUSE_MICROS);
    Duration::from_micros(micros)
}

/// Tries to lock the file until it is locked or the patience is over, with pauses that grow. Returns the
/// length of the file. `Busy` if the patience is over.
pub fn lock<C: Clock, M: Medium>(
    clock: &C,
    medium: &mut M,
    patience: Duration,
) -> Result<u64, FileFault>
    requires { IfSome (M.known medium.old) IsFree }
    ensures ok { IfOk result (λ count. Becomes (Grants count) (M.known medium.old) (M.known medium.new)) }
    ensures err { OnErr result (M.known medium.new ≡ M.known medium.old) }
    ensures why { IfErr result (λ why. (why ≡ fault.Busy) ⊎ IsOfFile why) }
{
    let start = match Instant::now(clock) {
        Ok(start) => start,
        Err(error) => return Err(system_fault(&error)),
    };
    for round in 0..u64::MAX {
        match medium.try_lock() {
            Ok(Some(count)) => return Ok(count),
            Ok(None) => {}
            Err(why) => return Err(why),
        }
        match start.elapsed(clock) {
            Err(error) => return Err(system_fault(&error)),
            Ok(elapsed) => {
                if patience <= elapsed {
                    return Err(FileFault::Busy);
                }
            }
        }
        thread::sleep(clock, pause_after(round));
    }
    Err(FileFault::Busy)
}

/// Lets go of the lock of a file that was measured under it, so that the file is read while other handles
/// may have the lock. `Damaged` if the file is shorter than so many bytes.
pub fn end_measuring<M: Medium>(
    medium: &mut M,
    file_length: u64,
    wanted: u64,
) -> Result<(), FileFault>
    ensures lock { IfSome (M.known medium.new) IsFree }
    ensures ok { OnOk result (wanted ≤ file_length) }
{
    medium.unlock();
    if file_length < wanted {
        return Err(FileFault::Damaged { at: file_length });
    }
    Ok(())
}

// ---- reading

/// Reads on from where reading stopped, by at most so many bytes.
pub fn read_into<M: Medium>(
    medium: &mut M,
    cursor: &mut Cursor,
    piece: &mut [u8],
) -> Result<(), FileFault>
    requires reading { IfSome (M.known medium.old) (Reading cursor.old) }
    requires room { cursor.old.position + length cursor.old.ahead + length piece.old ≤ cursor.old.file_length }
    ensures reading { IfSome (M.known medium.new) (Reading cursor.new) }
    ensures reads { ReadsOn cursor.old cursor.new }
    ensures same { M.known medium.new ≡ M.known medium.old }
{
    let from = cursor.read_to();
    let count = medium.read_at(piece, from)?;
    if count == 0 {
        // The file became shorter while it was held.
        return Err(FileFault::Damaged { at: from });
    }
    match cursor.read(&piece[..count]) {
        Ok(()) => Ok(()),
        Err(_) => Err(FileFault::OutOfMemory),
    }
}

/// Reads on from where reading stopped.
fn read_on<M: Medium>(medium: &mut M, cursor: &mut Cursor) -> Result<(), FileFault>
    requires { IfSome (M.known medium.old) (Reading cursor.old) }
    ensures reading { IfSome (M.known medium.new) (Reading cursor.new) }
    ensures reads { ReadsOn cursor.old cursor.new }
    ensures same { M.known medium.new ≡ M.known medium.old }
{
    let mut piece = [0u8; PIECE_LENGTH];
    let wanted = cursor.missing().min(PIECE_LENGTH as u64) as usize;
    read_into(medium, cursor, &mut piece[..wanted])
}

/// Returns what begins at the position, after as much was read as has to be. It is never unfinished.
pub fn front_at<M: Medium>(
    medium: &mut M,
    cursor: &mut Cursor,
    alloc: Global,
) -> Result<Front, FileFault>
    requires { IfSome (M.known medium.old) (Reading cursor.old) }
    ensures reading { IfSome (M.known medium.new) (Reading cursor.new) }
    ensures reads { ReadsOn cursor.old cursor.new }
    ensures front { IfOk result (λ front. IsFront front cursor.new) }
    ensures same { M.known medium.new ≡ M.known medium.old }
{
    for _ in 0..u64::MAX {
        match front_of(alloc, cursor.ahead(), cursor.left()) {
            Ok(front) => match front {
                Front::Unfinished => read_on(medium, cursor)?,
                _ => return Ok(front),
            },
            Err(_) => return Err(FileFault::OutOfMemory),
        }
    }
    Err(FileFault::Failed {
        kind: ErrorKind::Interrupted,
    })
}

/// Returns the number of bytes that the file has from this place on that are the same as these bytes
/// there, as far as the piece takes them. 0 if other bytes come.
fn same_at<M: Medium>(
    medium: &mut M,
    bytes: &[u8],
    at: usize,
    piece: &mut [u8],
) -> Result<usize, FileFault>
    requires locked { IfSome (M.known medium.old) IsLocked }
    requires room { at + length piece.old ≤ length bytes.now }
    ensures within { IfOk result (λ count. at + count ≤ length bytes.now) }
    ensures stands { IfOk result (λ count. IfSome (M.known medium.old) (SameAt at count bytes.now)) }
    ensures file { IfErr result IsOfFile }
    ensures same { M.known medium.new ≡ M.known medium.old }
{
    let count = medium.read_at(piece, at as u64)?;
    if piece[..count] != bytes[at..at + count] {
        return Ok(0);
    }
    Ok(count)
}

/// Reads back the content of the file, which is so long, and compares it with these bytes. `Failed` by
/// `InvalidData` if the file holds other bytes.
pub fn read_back<M: Medium>(medium: &mut M, bytes: &[u8], file_length: u64) -> Result<(), FileFault>
    requires { IfSome (M.known medium.old) (IsSoLong file_length) }
    ensures ok { OnOk result (IfSome (M.known medium.old) (Holds bytes.now)) }
    ensures err { IfErr result IsOfFile }
    ensures same { M.known medium.new ≡ M.known medium.old }
{
    let mut piece = [0u8; PIECE_LENGTH];
    let mut at = 0;
    for _ in 0..bytes.len() {
        let wanted = (bytes.len() - at).min(PIECE_LENGTH);
        let count = same_at(medium, bytes, at, &mut piece[..wanted])?;
        if count == 0 {
            break;
        }
        at += count;
    }
    if at != bytes.len() || file_length != bytes.len() as u64 {
        return Err(FileFault::Failed {
            kind: ErrorKind::InvalidData,
        });
    }
    Ok(())
}

// ---- writing and cutting off

/// Writes the bytes at this place, and synchronizes them if that is wanted.
pub fn write<M: Medium>(
    medium: &mut M,
    form: &[u8],
    at: u64,
    synchronizes: bool,
) -> Result<(), FileFault>
    requires { IfSome (M.known medium.old) (MayChangeFrom at) }
    ensures ok { OnOk result (Becomes (WritesAll at form.now synchronizes) (M.known medium.old) (M.known medium.new)) }
    ensures err { OnErr result (Becomes (WritesSome at form.now) (M.known medium.old) (M.known medium.new)) }
{
    medium.write_all_at(form, at)?;
    if synchronizes {
        return medium.sync();
    }
    Ok(())
}

/// Makes the file end at this place, and synchronizes that if it is wanted.
pub(crate) fn shorten<M: Medium>(
    medium: &mut M,
    at: u64,
    synchronizes: bool,
) -> Result<(), FileFault>
    requires { IfSome (M.known medium.old) (MayChangeFrom at) }
    ensures ok { OnOk result (Becomes (CutsAll at synchronizes) (M.known medium.old) (M.known medium.new)) }
    ensures err { OnErr result (Becomes (CutsOrStays at) (M.known medium.old) (M.known medium.new)) }
{
    medium.set_len(at)?;
    if synchronizes {
        return medium.sync();
    }
    Ok(())
}

/// Takes back the bytes that a write at the end has left, which failed by this error. Returns the reason
/// why the write is refused. `Unsure` if the bytes can't be taken back, or if that can't be synchronized
/// although it is wanted.
pub fn take_back<M: Medium>(
    medium: &mut M,
    at: u64,
    synchronizes: bool,
    error: FileFault,
) -> FileFault
    requires { IfSome (M.known medium.old) (MayChangeFrom at) }
    ensures { IsTakenBack result error at synchronizes (M.known medium.old) (M.known medium.new) }
{
    match shorten(medium, at, synchronizes) {
        Ok(()) => error,
        Err(_) => FileFault::Unsure,
    }
}

/// Returns the reason why a cut is refused that was made and could not be synchronized. `Unsure` if
/// synchronizing is wanted.
pub(crate) fn cut_fault(error: FileFault, synchronizes: bool) -> FileFault
    ensures doubt { IsTrue synchronizes → result ≡ fault.Unsure }
    ensures other { (IsTrue synchronizes → ⊥) → result ≡ error }
{
    if synchronizes {
        return FileFault::Unsure;
    }
    error
}
