//! The work of a handle in the one file in which it stands, over any medium. If the bytes are known, each
//! call states what it makes of the contents: the entries to which the bytes come.
//!
//! A mark is no entry, and is left in its place: only a caller who knows the path can go to another file,
//! or cut the mark off.

ghost use Rattle.std.specs.Prelude.{◌≡◌, ◌≢◌, ◌≤◌, ◌<◌, ◌⊎◌, ℕ, false, None, Ok, Err, length, nat_lt};
ghost use Rattle.std.specs.Prelude.{IfOk, IfErr, OnOk, OnErr, IfSome};
ghost use Rattle.iceoryx2_log.specs.declared.entry.Operation.TheVariants as operation;
ghost use Rattle.iceoryx2_log.specs.Form.{IsForm};
ghost use Rattle.iceoryx2_log.specs.Log.{WhereKnown, Grows, Shows, Accepts};
ghost use Rattle.iceoryx2_log.specs.Log as log;
ghost use Rattle.iceoryx2_file_log.specs.declared.cursor.State.TheVariants as state;
ghost use Rattle.iceoryx2_file_log.specs.Compaction.{MayBeCut};
ghost use Rattle.iceoryx2_file_log.specs.Place.{left, cut, appended, accepted, let_go_of, why_not_free, why_not_held};
ghost use Rattle.iceoryx2_file_log.specs.Handle.{Holds, SparesEntries, IsSureOfCuts, IsNoMark, IsNotAcross, Appends};
ghost use Rattle.iceoryx2_file_log.specs.Medium.{Becomes, IsLocked};
ghost use Rattle.iceoryx2_file_log.specs.OneFile.{Fits, Left, refused, contents_of, SameContents, lock_of, KnowsLock};
ghost use Rattle.iceoryx2_file_log.specs.OneFile.{IsSafe, SparesOrIsSafe, entry_of, is_entry, ShowsNext};
ghost use Rattle.iceoryx2_file_log.specs.OneFile.{EndsPastSnapshot, EndsThere};

use crate::bytes::{cut_fault, front_at, lock, shorten, write};
use crate::compaction::{is_across_end, is_before_end, is_mark};
use crate::cursor::Cursor;
use crate::error::FileFault;
use crate::header::Header;
use crate::medium::Medium;
use crate::remainder::Front;
use iceoryx2_log::entry::Entry;
use iceoryx2_log::form::{EncodeError, encode};
use std::alloc::Global;
use std::io::ErrorKind;
use std::time::{Clock, Duration};

/// The things that a handle may find at its position.
#[derive(Debug, Drop)]
pub enum Found {
    /// An entry of the log, which stays unread.
    Entry(Entry),
    /// No more bytes, after the remainder of a writer that died is cut off.
    End,
    /// The mark, of so many bytes, that the log goes on in another file. It is left there.
    Mark { count: usize },
}

// ---- hold and let go

/// Holds the log. `Busy` if other handles held it for all of this time. `Damaged` if the file is shorter
/// than the part that was taken over. An `Err` leaves the handle where it was.
pub fn hold<C: Clock, M: Medium>(
    clock: &C,
    medium: &mut M,
    cursor: &mut Cursor,
    patience: Duration,
) -> Result<(), FileFault>
    requires { IfSome (M.known medium.old) (Fits cursor.old) }
    ensures ok { OnOk result (Holds cursor.old cursor.new) }
    ensures err { OnErr result (cursor.new ≡ cursor.old) }
    ensures not_free { IfSome (why_not_free cursor.old.state) (λ why. result ≡ Err why) }
    ensures fits { IfSome (M.known medium.new) (Fits cursor.new) }

    // What others appended stands behind what was unread before.
    ensures grows { OnOk result ((begins : ℕ) → WhereKnown Grows (contents_of begins (M.known medium.old) cursor.old)
        (contents_of begins (M.known medium.new) cursor.new)) }
    ensures same { OnErr result (SameContents (M.known medium.old) cursor.old (M.known medium.new) cursor.new) }
    ensures lock { OnOk result (IfSome (M.known medium.new) IsLocked) }
    ensures lock_err { OnErr result (lock_of (M.known medium.new) ≡ lock_of (M.known medium.old)) }
{
    if let Some(why) = cursor.why_not_free() {
        return Err(why);
    }
    let file_length = lock(clock, medium, patience)?;
    if file_length < cursor.position() {
        medium.unlock();
        return Err(FileFault::Damaged { at: file_length });
    }
    cursor.hold(file_length);
    Ok(())
}

/// Lets go of the log.
pub fn let_go<M: Medium>(medium: &mut M, cursor: &mut Cursor)
    requires { IfSome (M.known medium.old) (Fits cursor.old) }
    ensures place { cursor.new ≡ let_go_of cursor.old }
    ensures fits { IfSome (M.known medium.new) (Fits cursor.new) }
    ensures same { SameContents (M.known medium.old) cursor.old (M.known medium.new) cursor.new }
    ensures lock { IfSome (M.known medium.new) (KnowsLock false) }
{
    medium.unlock();
    cursor.let_go();
}

// ---- next and accept

/// Cuts off the bytes at the position, all of which are torn, or a mark, and synchronizes that. `Unsure`
/// if that is wanted and can't be synchronized. Another error if nothing was cut off, or if synchronizing
/// isn't wanted.
pub fn cut_end<M: Medium>(
    medium: &mut M,
    cursor: &mut Cursor,
    synchronizes: bool,
) -> Result<(), FileFault>
    requires fits { IfSome (M.known medium.old) (Fits cursor.old) }
    requires held { cursor.old.state ≡ state.Held }
    requires torn { MayBeCut cursor.old.ahead }
    requires all { left cursor.old ≤ length cursor.old.ahead }
    ensures ok { OnOk result (cursor.new ≡ cut cursor.old) }
    ensures err { OnErr result ((cursor.new ≡ cursor.old) ⊎ (cursor.new ≡ cut cursor.old)) }
    ensures sure { IfErr result (λ why. IsSureOfCuts synchronizes why cursor.old cursor.new) }
    ensures fits { IfSome (M.known medium.new) (Fits cursor.new) }
    ensures same { SameContents (M.known medium.old) cursor.old (M.known medium.new) cursor.new }
    ensures lock { lock_of (M.known medium.new) ≡ lock_of (M.known medium.old) }
    ensures safe { OnOk result (Becomes (SparesOrIsSafe synchronizes) (M.known medium.old) (M.known medium.new)) }
{
    if cursor.is_read() {
        cursor.cut();
        return Ok(());
    }
    medium.set_len(cursor.position())?;
    cursor.cut();
    match medium.sync() {
        Ok(()) => Ok(()),
        Err(error) => Err(cut_fault(error, synchronizes)),
    }
}

/// Takes over the entry that was found.
pub fn accept<M: Medium>(medium: &M, cursor: &mut Cursor)
    requires { IfSome (M.known medium.now) (Fits cursor.old) }
    ensures place { cursor.new ≡ accepted cursor.old }
    ensures fits { IfSome (M.known medium.now) (Fits cursor.new) }
    ensures shown { 0 < cursor.old.found → (begins : ℕ) → WhereKnown Accepts
        (contents_of begins (M.known medium.now) cursor.old) (contents_of begins (M.known medium.now) cursor.new) }
    ensures none { cursor.old.found ≡ 0
        → SameContents (M.known medium.now) cursor.old (M.known medium.now) cursor.new }
{
    let _ = medium;
    cursor.accept();
}

/// Returns the entry at the position, the end of the file after torn bytes there are cut off, or the mark
/// at the position. `Damaged` if none of these is there, or if a snapshot ends early, or within an entry.
pub fn next<M: Medium>(
    alloc: Global,
    medium: &mut M,
    cursor: &mut Cursor,
    header: &Header,
    synchronizes: bool,
) -> Result<Found, FileFault>
    requires { IfSome (M.known medium.old) (Fits cursor.old) }
    ensures shows { IfOk result (λ found. ShowsNext found cursor.old cursor.new) }
    ensures no_mark { IfOk result (λ found. IsNoMark (entry_of found)) }
    ensures whole { IfOk result (λ found. EndsPastSnapshot found header.now cursor.old) }
    ensures across { IfOk result (λ found. IsNotAcross (entry_of found) header.now cursor.new) }
    ensures spares { SparesEntries cursor.old cursor.new }
    ensures sure { IfErr result (λ why. IsSureOfCuts synchronizes why cursor.old cursor.new) }
    ensures stays { (cursor.new.position ≡ cursor.old.position) × (cursor.new.state ≡ cursor.old.state) }
    ensures found { nat_lt 0 cursor.new.found ≡ is_entry result }
    ensures not_held { IfSome (why_not_held cursor.old.state)
        (λ why. (result ≡ Err why) × (cursor.new ≡ record cursor.old { found = 0 })) }
    ensures fits { IfSome (M.known medium.new) (Fits cursor.new) }

    // A mark and the end of the file are no entry.
    ensures reads { IfOk result (λ found. (begins : ℕ) → WhereKnown (Shows (entry_of found))
        (contents_of begins (M.known medium.old) cursor.old) (contents_of begins (M.known medium.new) cursor.new)) }
    ensures same { SameContents (M.known medium.old) cursor.old (M.known medium.new) cursor.new }
    ensures lock { lock_of (M.known medium.new) ≡ lock_of (M.known medium.old) }

    // What is cut off doesn't come back with the power, and nothing else stands at the end.
    ensures safe { OnOk result (Becomes (SparesOrIsSafe synchronizes) (M.known medium.old) (M.known medium.new)) }
    ensures ends { IfOk result (λ found. IfSome (M.known medium.new) (EndsThere found cursor.new)) }
{
    cursor.find(0);
    if let Some(why) = cursor.why_not_held() {
        return Err(why);
    }
    match front_at(medium, cursor, alloc)? {
        Front::Whole { entry, count } => {
            let at = cursor.position();
            if is_mark(&entry) {
                return Ok(Found::Mark { count });
            }
            if is_across_end(at, cursor.end_of(count), header) {
                return Err(FileFault::Damaged { at });
            }
            cursor.find(count);
            Ok(Found::Entry(entry))
        }
        Front::Torn => {
            let at = cursor.position();
            if is_before_end(at, header) {
                return Err(FileFault::Damaged { at });
            }
            cut_end(medium, cursor, synchronizes)?;
            Ok(Found::End)
        }
        Front::Damaged | Front::Unfinished => Err(FileFault::Damaged {
            at: cursor.position(),
        }),
    }
}

// ---- append

/// Takes back what a write at the end, which failed by this error, has left, and returns the reason of
/// its refusal. `Unsure` if that can't be taken back, or if it can't be synchronized although that is
/// wanted.
fn take_back<M: Medium>(
    medium: &mut M,
    cursor: &Cursor,
    synchronizes: bool,
    error: FileFault,
) -> FileFault
    requires { IfSome (M.known medium.old) (Left cursor.now) }
    ensures fits { IfSome (M.known medium.new) (Fits (refused result cursor.now)) }
    ensures same { SameContents (M.known medium.old) cursor.now (M.known medium.new) cursor.now }
    ensures lock { lock_of (M.known medium.new) ≡ lock_of (M.known medium.old) }
{
    match shorten(medium, cursor.position(), synchronizes) {
        Ok(()) => error,
        Err(_) => FileFault::Unsure,
    }
}

/// Writes the form of an entry at the position, all of it or nothing. `Unsure` if a written part could
/// not be taken back, or may come back after a power loss though it is to be synchronized.
fn write_form<M: Medium>(
    medium: &mut M,
    cursor: &mut Cursor,
    entry: &Entry,
    form: &[u8],
    synchronizes: bool,
) -> Result<(), FileFault>
    requires fits { IfSome (M.known medium.old) (Fits cursor.old) }
    requires held { cursor.old.state ≡ state.Held }
    requires all_read { cursor.old.file_length ≡ cursor.old.position }
    requires form { IsForm entry.now form.now }
    requires no_mark { entry.now.operation ≢ operation.Moved }
    ensures ok { OnOk result (cursor.new ≡ appended (length form.now) cursor.old) }
    ensures err { OnErr result (cursor.new ≡ cursor.old) }
    ensures fits { OnOk result (IfSome (M.known medium.new) (Fits cursor.new)) }
    ensures refuses { IfErr result (λ why. IfSome (M.known medium.new) (Fits (refused why cursor.new))) }
    ensures appends { OnOk result ((begins : ℕ) → WhereKnown (log.Appends entry.now)
        (contents_of begins (M.known medium.old) cursor.old) (contents_of begins (M.known medium.new) cursor.new)) }
    ensures same { OnErr result (SameContents (M.known medium.old) cursor.old (M.known medium.new) cursor.new) }
    ensures lock { lock_of (M.known medium.new) ≡ lock_of (M.known medium.old) }
    ensures safe { OnOk result (IfSome (M.known medium.new) (IsSafe synchronizes)) }
{
    let position = cursor.position();
    let count = form.len() as u64;
    if u64::MAX - position < count {
        return Err(FileFault::Failed {
            kind: ErrorKind::FileTooLarge,
        });
    }
    match write(medium, form, position, synchronizes) {
        Ok(()) => {
            cursor.append(count);
            Ok(())
        }
        Err(error) => Err(take_back(medium, cursor, synchronizes, error)),
    }
}

/// Appends an entry, all of it or nothing, if the log is held and nothing is unread. A mark is no entry,
/// and is refused. After `Unsure` nobody knows whether the entry stands, and the handle has to be used no
/// more (`refused`).
pub fn append<M: Medium>(
    alloc: Global,
    medium: &mut M,
    cursor: &mut Cursor,
    entry: &Entry,
    synchronizes: bool,
) -> Result<(), FileFault>
    requires { IfSome (M.known medium.old) (Fits cursor.old) }
    ensures ok { OnOk result (Appends entry.now cursor.old cursor.new) }
    ensures no_mark { OnOk result (entry.now.operation ≢ operation.Moved) }
    ensures err { OnErr result (cursor.new ≡ cursor.old) }
    ensures not_held { IfSome (why_not_held cursor.old.state) (λ why. result ≡ Err why) }
    ensures fits { OnOk result (IfSome (M.known medium.new) (Fits cursor.new)) }
    ensures refuses { IfErr result (λ why. IfSome (M.known medium.new) (Fits (refused why cursor.new))) }
    ensures appends { OnOk result ((begins : ℕ) → WhereKnown (log.Appends entry.now)
        (contents_of begins (M.known medium.old) cursor.old) (contents_of begins (M.known medium.new) cursor.new)) }
    ensures same { OnErr result (SameContents (M.known medium.old) cursor.old (M.known medium.new) cursor.new) }
    ensures lock { lock_of (M.known medium.new) ≡ lock_of (M.known medium.old) }

    // Where that is wanted the entry outlives the machine.
    ensures safe { OnOk result (IfSome (M.known medium.new) (IsSafe synchronizes)) }
{
    if let Some(why) = cursor.why_not_held() {
        return Err(why);
    }
    if is_mark(entry) {
        return Err(FileFault::Failed {
            kind: ErrorKind::InvalidInput,
        });
    }
    if !cursor.is_read() {
        return Err(FileFault::Unread);
    }
    match encode(alloc, entry) {
        Ok(form) => write_form(medium, cursor, entry, &form, synchronizes),
        Err(EncodeError::OutOfMemory) => Err(FileFault::OutOfMemory),
        Err(EncodeError::TooLong) => Err(FileFault::TooLong),
    }
}
