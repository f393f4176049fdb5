//! The file beside the one of a log, to which a compaction goes.

ghost use Rattle.std.specs.Prelude.{◌≡◌, ◌≢◌, ◌≤◌, IfOk, IfErr};
ghost use Rattle.iceoryx2_file_log.specs.Errors.{IsOfFile};
ghost use Rattle.iceoryx2_file_log.specs.declared.error.FileFault.TheVariants as fault;
ghost use Rattle.iceoryx2_file_log.specs.declared.header.TheConstants.{HEADER_LENGTH};

use super::measured;
use crate::bytes::{lock, read_back};
use crate::compaction::{Access, keeps_access};
use crate::error::{FileFault, system_fault};
use crate::header::{HEADER_LENGTH, Header, LogName};
use crate::locked_file::LockedFile;
use crate::opening::{FileNumber, FoundLog, number_of, reopened};
use std::fs::{self, File, OpenOptions};
use std::io::{self, ErrorKind};
use std::os::unix::fs::{FileExt, MetadataExt, OpenOptionsExt};
use std::rt::Files;
use std::time::{Clock, Duration};

/// The bits of a file's mode for its user alone.
const USER_MODE: u32 = 0o600;

fn access_of(file: &File) -> io::Result<Access> {
    let metadata = file.metadata()?;
    Ok(Access {
        user: metadata.uid(),
        group: metadata.gid(),
        mode: metadata.mode(),
    })
}

/// Makes an empty file, instead of a file that a process left there when it died. A symbolic link is
/// removed too, and never followed.
fn create(rt: &impl Files<File = File>, beside: &str) -> io::Result<File> {
    if let Err(error) = fs::remove_file(rt, beside) {
        if error.kind() != ErrorKind::NotFound {
            return Err(error);
        }
    }
    OpenOptions::new()
        .read(true)
        .write(true)
        .create_new(true)
        .mode(USER_MODE)
        .open(rt, beside)
}

/// Gives the file the mode of the log's own file, and these bytes, and synchronizes it. An `Err` if
/// somebody who can use the own file could not use this one.
fn fill(file: &File, own: &File, bytes: &[u8]) -> io::Result<()> {
    if !keeps_access(access_of(own)?, access_of(file)?) {
        return Err(ErrorKind::PermissionDenied.into());
    }
    file.set_permissions(own.metadata()?.permissions())?;
    file.write_all_at(bytes, 0)?;
    file.sync_all()
}

/// Fills the file, locks it, and reads it back. Returns its number.
fn prepare(
    clock: &impl Clock,
    file: &File,
    own: &File,
    bytes: &[u8],
    patience: Duration,
) -> Result<FileNumber, FileFault>
    ensures { IfErr result (λ why. why ≢ fault.NothingSaved) }
{
    if let Err(error) = fill(file, own, bytes) {
        return Err(system_fault(&error));
    }
    let mut medium = LockedFile::new(file);
    let file_length = lock(clock, &mut medium, patience)?;
    read_back(&mut medium, bytes, file_length)?;
    number_in(file)
}

/// Returns the number by which the system knows the file.
pub(super) fn number_in(file: &File) -> Result<FileNumber, FileFault>
    ensures { IfErr result IsOfFile }
{
    match file.metadata() {
        Ok(metadata) => Ok(number_of(&metadata)),
        Err(error) => Err(system_fault(&error)),
    }
}

/// A file that was made beside a log's own one.
#[derive(Drop)]
pub(super) struct NewFile {
    pub file: File,
    pub number: FileNumber,
}

/// Makes the file of this path, with these bytes and the mode of the own file, synchronized, locked and
/// read back. If that is refused, nothing is left.
pub(super) fn make_beside<R: Files<File = File> + Clock>(
    rt: &R,
    beside: &str,
    own: &File,
    bytes: &[u8],
    patience: Duration,
) -> Result<NewFile, FileFault>
    ensures { IfErr result (λ why. why ≢ fault.NothingSaved) }
{
    let file = match create(rt, beside) {
        Ok(file) => file,
        Err(error) => return Err(system_fault(&error)),
    };
    match prepare(rt, &file, own, bytes, patience) {
        Ok(number) => Ok(NewFile { file, number }),
        Err(why) => {
            let _ = fs::remove_file(rt, beside);
            Err(why)
        }
    }
}

/// The file that has a log's path now, held.
#[derive(Drop)]
pub(super) struct Located {
    /// `None` if it is the own file.
    pub file: Option<File>,
    pub number: FileNumber,
    pub header: Header,
    pub file_length: u64,
}

/// Locks the file, unless it is the own file, which is locked.
fn locked(
    clock: &impl Clock,
    file: File,
    is_own: bool,
    patience: Duration,
) -> Result<Option<File>, FileFault> {
    if is_own {
        return Ok(None);
    }
    lock(clock, &mut LockedFile::new(&file), patience)?;
    Ok(Some(file))
}

/// Returns the length of the file if there is one, else of the own file. It is at least as long as a
/// header.
fn length_of(file: &Option<File>, own: &File) -> Result<u64, FileFault>
    ensures { IfOk result (λ file_length. HEADER_LENGTH ≤ file_length) }
{
    match file {
        Some(file) => measured(file, HEADER_LENGTH as u64),
        None => measured(own, HEADER_LENGTH as u64),
    }
}

/// Opens the file that has the path now, of the log of this name, and locks it. `AnotherLog` if the file
/// is of another log. `Removed` if nothing has the path.
pub(super) fn locate<R: Files<File = File> + Clock>(
    rt: &R,
    path: &str,
    own: &File,
    own_number: FileNumber,
    name: LogName,
    patience: Duration,
) -> Result<Located, FileFault>
    ensures { IfOk result (λ found. (found.header.name ≡ name) × (HEADER_LENGTH ≤ found.file_length)) }
{
    let FoundLog {
        file,
        number,
        header,
    } = reopened(rt, path, FileFault::Removed, true)?;
    if header.name != name {
        return Err(FileFault::AnotherLog);
    }
    let file = locked(rt, file, number == own_number, patience)?;
    let file_length = length_of(&file, own)?;
    Ok(Located {
        file,
        number,
        header,
        file_length,
    })
}
