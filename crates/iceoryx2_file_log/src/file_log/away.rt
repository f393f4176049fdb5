//! Reading a file without the right to write.
//!
//! A file is read like this if it no longer has the log's path: it was removed or renamed, or another
//! file was renamed over it. Nobody who opens the log finds that file, so nothing is appended to it, and
//! nothing of it is cut off.

ghost use Rattle.std.specs.Prelude.{◌≡◌, ◌≤◌, Ok, Err, IfOk, IfSome, length, nat_lt};
ghost use Rattle.iceoryx2_log.specs.Log.{is_shown};
ghost use Rattle.iceoryx2_file_log.specs.declared.cursor.State.TheVariants as state;
ghost use Rattle.iceoryx2_file_log.specs.declared.error.FileFault.TheVariants as fault;
ghost use Rattle.iceoryx2_file_log.specs.Bytes.{Reading};
ghost use Rattle.iceoryx2_file_log.specs.Compaction.{snapshot_end};
ghost use Rattle.iceoryx2_file_log.specs.Place.{left, why_not_held};
ghost use Rattle.iceoryx2_file_log.specs.Handle.{Shows, IsNoMark, IsPastSnapshot, IsNotAcross, IsAwayNext};
ghost use Rattle.iceoryx2_file_log.specs.OneFile.{ShowsUnwritten, IsEntryOrPast, entry_of, is_entry};
ghost use Rattle.iceoryx2_file_log.specs.declared.one_file.Found.TheVariants as there;

use crate::bytes::front_at;
use crate::compaction::{is_across_end, is_before_end, is_mark};
use crate::cursor::Cursor;
use crate::error::FileFault;
use crate::header::Header;
use crate::locked_file::LockedFile;
use crate::medium::Medium;
use crate::one_file::Found;
use crate::opening::{FileNumber, number_of};
use crate::remainder::Front;
use iceoryx2_log::entry::Entry;
use std::alloc::Global;
use std::fs::{self, File};
use std::io::ErrorKind;
use std::rt::Files;

/// Returns true if the file of this number surely doesn't have the path: nothing has the path, or something
/// else has it. If the system refuses the look, nobody knows.
pub(super) fn is_away(rt: &impl Files, path: &str, number: FileNumber) -> bool {
    match fs::symlink_metadata(rt, path) {
        Ok(metadata) => number_of(&metadata) != number,
        Err(error) => match error.kind() {
            ErrorKind::NotFound | ErrorKind::NotADirectory => true,
            _ => false,
        },
    }
}

/// Returns the mark of so many bytes at the position. `Damaged` if it isn't the last entry, or is within
/// a snapshot.
fn mark_at(cursor: &Cursor, count: usize, header: &Header) -> Result<Found, FileFault>
    ensures mark { IfOk result (λ found. found ≡ there.Mark count) }
    ensures last { IfOk result (λ found. (length cursor.now.ahead ≡ count)
        × (left cursor.now ≤ length cursor.now.ahead)) }
    ensures past { IfOk result (λ found. snapshot_end header.now ≤ cursor.now.position) }
{
    let at = cursor.position();
    if !cursor.ends_after(count) || is_before_end(at, header) {
        return Err(FileFault::Damaged { at });
    }
    Ok(Found::Mark { count })
}

/// Returns what is at the position of a file to which nothing is written. Torn bytes at the file's end
/// are no entry, and stay there. A mark comes only as the last entry, behind the snapshot.
pub(super) fn unwritten<M: Medium>(
    alloc: Global,
    medium: &mut M,
    header: &Header,
    cursor: &mut Cursor,
) -> Result<Found, FileFault>
    requires { IfSome (M.known medium.old) (Reading cursor.old) }

    // No byte is written or cut off.
    ensures unwritten { M.known medium.new ≡ M.known medium.old }
    ensures shows { IfOk result (λ found. ShowsUnwritten found cursor.old cursor.new) }
    ensures no_mark { IfOk result (λ found. IsNoMark (entry_of found)) }
    ensures whole { IfOk result (λ found. IsEntryOrPast found header.now cursor.old) }
    ensures across { IfOk result (λ found. IsNotAcross (entry_of found) header.now cursor.new) }
    ensures uncut { cursor.new ≡ record cursor.old { ahead = cursor.new.ahead; found = cursor.new.found } }
    ensures shown { nat_lt 0 cursor.new.found ≡ is_entry result }
    ensures ends { cursor.old.file_length ≡ cursor.old.position → snapshot_end header.now ≤ cursor.old.position
        → result ≡ Ok there.End }
{
    cursor.find(0);
    let at = cursor.position();
    if cursor.is_read() && !is_before_end(at, header) {
        return Ok(Found::End);
    }
    match front_at(medium, cursor, alloc)? {
        Front::Whole { entry, count } => {
            if is_mark(&entry) {
                return mark_at(cursor, count, header);
            }
            if is_across_end(at, cursor.end_of(count), header) {
                return Err(FileFault::Damaged { at });
            }
            cursor.find(count);
            Ok(Found::Entry(entry))
        }
        Front::Torn => {
            if is_before_end(at, header) {
                return Err(FileFault::Damaged { at });
            }
            Ok(Found::End)
        }
        Front::Damaged | Front::Unfinished => Err(FileFault::Damaged { at }),
    }
}

/// Returns the entry at the position of a file that no longer has the path. `Removed` if no more bytes
/// follow, or torn ones. `Moved` if the last entry is a mark. `Damaged` as in any file.
pub(super) fn next_away(
    alloc: Global,
    file: &File,
    header: &Header,
    cursor: &mut Cursor,
) -> Result<Option<Entry>, FileFault>
    ensures shows { IfOk result (λ found. Shows found cursor.old cursor.new) }
    ensures no_mark { IfOk result IsNoMark }
    ensures whole { IfOk result (λ found. IsPastSnapshot found header.now cursor.old) }
    ensures across { IfOk result (λ found. IsNotAcross found header.now cursor.new) }
    ensures stays { (cursor.new.position ≡ cursor.old.position) × (cursor.new.state ≡ cursor.old.state) }
    ensures shown { nat_lt 0 cursor.new.found ≡ is_shown result }
    ensures not_held { IfSome (why_not_held cursor.old.state)
        (λ why. (result ≡ Err why) × (cursor.new ≡ record cursor.old { found = 0 })) }
    ensures away { IsAwayNext result cursor.old cursor.new }
    ensures removed { cursor.old.state ≡ state.Held → cursor.old.file_length ≡ cursor.old.position
        → snapshot_end header.now ≤ cursor.old.position → result ≡ Err fault.Removed }
{
    if let Some(why) = cursor.why_not_held() {
        cursor.find(0);
        return Err(why);
    }
    match unwritten(alloc, &mut LockedFile::new(file), header, cursor)? {
        Found::Entry(entry) => Ok(Some(entry)),
        Found::End => Err(FileFault::Removed),
        Found::Mark { count: _ } => Err(FileFault::Moved),
    }
}
