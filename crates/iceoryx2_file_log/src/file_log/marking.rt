//! The mark at the end of a file from which a log has moved: writing it, and cutting it off if the log
//! hasn't moved.

ghost use Rattle.std.specs.Prelude.{◌≡◌, ◌≢◌, ◌≤◌, ◌⊎◌, ◌↔◌, None, Some, Ok, Err, IsOk, OnOk, OnErr, IfErr, IsTrue};
ghost use Rattle.std.specs.Prelude.{length};
ghost use Rattle.std.specs.IoError.{error_kind};
ghost use Rattle.iceoryx2_file_log.specs.declared.cursor.State.TheVariants as state;
ghost use Rattle.iceoryx2_file_log.specs.declared.error.FileFault.TheVariants as fault;
ghost use Rattle.iceoryx2_file_log.specs.Errors.{kind_fault, IsOfFile};
ghost use Rattle.iceoryx2_file_log.specs.Compaction.{IsMark, BeginsWithMark, MayBeCut, snapshot_end};
ghost use Rattle.iceoryx2_file_log.specs.Place.{left, cut};
ghost use Rattle.iceoryx2_file_log.specs.Handle.{CutsMark, IsSureOfCuts};

use crate::bytes::{take_back, write};
use crate::compaction::is_before_end;
use crate::cursor::Cursor;
use crate::error::{FileFault, system_fault};
use crate::header::Header;
use crate::locked_file::LockedFile;
use crate::one_file::cut_end;
use crate::opening::{FileNumber, looked_up, number_of, sync_folder};
use std::fs::{self, File};
use std::os::unix::fs::MetadataExt;
use std::rt::Files;

/// Returns true if the mark of this file is left of a move that was not made, since the file itself has
/// the path.
fn has_stayed(own: FileNumber, found: Option<FileNumber>) -> bool
    ensures { IsTrue result ↔ (found ≡ Some own) }
{
    match found {
        Some(number) => number == own,
        None => false,
    }
}

/// Returns whether the file has the path.
pub(super) fn has_path(rt: &impl Files, path: &str, file: &File) -> Result<bool, FileFault>
    ensures { IfErr result IsOfFile }
{
    let found = looked_up(rt, path)?;
    match file.metadata() {
        Ok(metadata) => Ok(has_stayed(number_of(&metadata), found)),
        Err(error) => Err(system_fault(&error)),
    }
}

/// Returns whether the file has the path, and no other name. Otherwise another file may not take the
/// path: anyone who removes or renames a log, or gives it a second name, doesn't mean it to come back.
pub(super) fn is_alone(rt: &impl Files, path: &str, file: &File) -> Result<bool, FileFault>
    ensures { IfErr result IsOfFile }
{
    if !has_path(rt, path, file)? {
        return Ok(false);
    }
    match file.metadata() {
        Ok(metadata) => Ok(metadata.nlink() == 1),
        Err(error) => Err(system_fault(&error)),
    }
}

/// Cuts off the mark of so many bytes at the position, if it is the last entry and the file has the path:
/// its writer died before the new file took the path. `Moved` if another file has the path. `Damaged` if
/// more bytes follow, or if the mark is within a snapshot.
pub(super) fn cut_mark(
    rt: &impl Files,
    path: &str,
    file: &File,
    header: &Header,
    cursor: &mut Cursor,
    count: usize,
    synchronizes: bool,
) -> Result<(), FileFault>
    requires mark { BeginsWithMark cursor.old.ahead count }
    requires held { cursor.old.state ≡ state.Held }
    ensures ok { OnOk result (cursor.new ≡ cut cursor.old) }
    ensures cuts { (cursor.new ≡ cursor.old) ⊎ CutsMark cursor.old cursor.new }
    ensures sure { IfErr result (λ why. IsSureOfCuts synchronizes why cursor.old cursor.new) }
    ensures whole { OnOk result (snapshot_end header.now ≤ cursor.old.position) }
{
    if !cursor.ends_after(count) || is_before_end(cursor.position(), header) {
        return Err(FileFault::Damaged {
            at: cursor.position(),
        });
    }
    if !has_path(rt, path, file)? {
        return Err(FileFault::Moved);
    }
    cut_end(&mut LockedFile::new(file), cursor, synchronizes)
}

/// The file from which a log moves, and the file to which it moves.
#[derive(Clone, Copy)]
pub(super) struct Move<'a> {
    pub own_file: &'a File,
    pub own: FileNumber,
    /// The position where the own file ends.
    pub position: u64,
    /// The path of the new file, beside the own one.
    pub beside: &'a str,
    pub new: FileNumber,
    /// The path of the log.
    pub path: &'a str,
}

/// Returns what a rename that reports this error has done, by the file that has the path then. The rename
/// is done if the new file has the path, and isn't done if the own file has it. `Unsure` if neither has
/// it, or if that can't be looked up.
fn renamed_though(
    error: FileFault,
    found: Result<Option<FileNumber>, FileFault>,
    own: FileNumber,
    new: FileNumber,
) -> Result<(), FileFault>
    ensures done { found ≡ Ok (Some new) → IsOk result }
    ensures not_done { found ≡ Ok (Some own) → own ≢ new → result ≡ Err error }
    ensures unknown { found ≢ Ok (Some own) → found ≢ Ok (Some new) → result ≡ Err fault.Unsure }
{
    match found {
        Err(_) => Err(FileFault::Unsure),
        Ok(found) => {
            if has_stayed(new, found) {
                Ok(())
            } else if has_stayed(own, found) {
                Err(error)
            } else {
                Err(FileFault::Unsure)
            }
        }
    }
}

/// Writes the mark at the end of the own file, and gives the path to the new one. `Unsure` if nobody
/// knows whether the new file has the path.
fn mark_and_rename(
    rt: &impl Files,
    to: &Move<'_>,
    mark: &[u8],
    synchronizes: bool,
) -> Result<(), FileFault> {
    let mut medium = LockedFile::new(to.own_file);
    write(&mut medium, mark, to.position, synchronizes)?;
    match fs::rename(rt, to.beside, to.path) {
        Ok(()) => Ok(()),
        Err(error) => {
            let found = looked_up(rt, to.path);
            renamed_though(system_fault(&error), found, to.own, to.new)
        }
    }
}

/// Moves a log: the own file gets the mark, and the new file gets the path, both or none. `Unsure` if
/// nobody knows whether the new file has the path, or if a mark could not be taken back. `Unsure` too if
/// the options synchronize and that, or the path, may be lost in a power loss. As long as nobody knows
/// it, the mark stays: anyone who finds it and the path goes to the new file, or cuts the mark off.
pub(super) fn move_log(
    rt: &impl Files<File = File>,
    to: &Move<'_>,
    mark: &[u8],
    synchronizes: bool,
) -> Result<(), FileFault>
    requires { IsMark mark.now }
{
    match mark_and_rename(rt, to, mark, synchronizes) {
        Ok(()) => {}
        Err(FileFault::Unsure) => return Err(FileFault::Unsure),
        Err(error) => {
            let mut medium = LockedFile::new(to.own_file);
            return Err(take_back(&mut medium, to.position, synchronizes, error));
        }
    }
    if !synchronizes {
        return Ok(());
    }
    match sync_folder(rt, to.path) {
        Ok(()) => Ok(()),
        Err(_) => Err(FileFault::Unsure),
    }
}
