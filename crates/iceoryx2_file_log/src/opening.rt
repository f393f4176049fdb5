//! Finding the file of a log, and making it.

ghost use Rattle.std.specs.Prelude.{◌≡◌, ◌≤◌, IfOk, IfErr, IfSome, length};
ghost use Rattle.std.specs.Fs.{file_type};
ghost use Rattle.iceoryx2_file_log.specs.Errors.{IsOfFile};
ghost use Rattle.iceoryx2_file_log.specs.Opening.{IsFaultOf, header_fault_of};

use crate::error::{FileFault, system_fault};
use crate::header::{self, HEADER_LENGTH, Header, HeaderError, LogName, NAME_LENGTH};
use crate::options::FileLogOptions;
use crate::path::split;
use std::fs::{self, File, Metadata, OpenOptions, Permissions};
use std::io::{self, ErrorKind, Write};
use std::os::unix::fs::{FileExt, MetadataExt, OpenOptionsExt, PermissionsExt};
use std::random::RandomSource;
use std::rt::Files;

/// How often the file is looked for if another process makes or removes it meanwhile.
const OPENINGS: u32 = 8;

/// By which the system knows a file: its device and its number there.
#[derive(Clone, Copy, PartialEq, Eq)]
pub(crate) struct FileNumber {
    device: u64,
    inode: u64,
}

/// Returns the reason why this is not opened as a file, if there is one.
fn kind_fault(metadata: &Metadata) -> Option<FileFault>
    ensures fault { IsFaultOf (file_type metadata.now) result }
    ensures file { IfSome result IsOfFile }
{
    if metadata.is_symlink() {
        Some(FileFault::IsALink)
    } else if metadata.is_dir() {
        Some(FileFault::IsAFolder)
    } else if metadata.is_file() {
        None
    } else {
        Some(FileFault::NotAFile)
    }
}

/// Returns the reason why a log with this header is not opened.
fn header_fault(error: HeaderError) -> FileFault
    ensures { result ≡ header_fault_of error }
{
    match error {
        HeaderError::NotALog => FileFault::NotALog,
        HeaderError::AnotherVersion { found } => FileFault::AnotherVersion { found },
        HeaderError::Damaged => FileFault::Damaged { at: 0 },
    }
}

pub(crate) fn number_of(metadata: &Metadata) -> FileNumber {
    FileNumber {
        device: metadata.dev(),
        inode: metadata.ino(),
    }
}

/// Returns the file that has this path, or `None` if nothing has it. A symbolic link is not followed.
pub(crate) fn looked_up(rt: &impl Files, path: &str) -> Result<Option<FileNumber>, FileFault>
    ensures { IfErr result IsOfFile }
{
    match fs::symlink_metadata(rt, path) {
        Ok(metadata) => match kind_fault(&metadata) {
            None => Ok(Some(number_of(&metadata))),
            Some(fault) => Err(fault),
        },
        Err(error) => {
            if error.kind() == ErrorKind::NotFound {
                Ok(None)
            } else {
                Err(system_fault(&error))
            }
        }
    }
}

/// Reads as many of the file's bytes from this place on as there are and fit.
pub(crate) fn read_some(file: &File, buffer: &mut [u8], from: u64) -> Result<usize, FileFault>
    ensures within { IfOk result (λ count. count ≤ length buffer.new) }
    ensures file { IfErr result IsOfFile }
{
    for _ in 0..u64::MAX {
        match file.read_at(buffer, from) {
            Ok(count) => return Ok(count),
            Err(error) => {
                if error.kind() != ErrorKind::Interrupted {
                    return Err(system_fault(&error));
                }
            }
        }
    }
    Err(FileFault::Failed {
        kind: ErrorKind::Interrupted,
    })
}

/// The header of the file.
fn read_header(file: &File) -> Result<Header, FileFault> {
    let mut bytes = [0u8; HEADER_LENGTH];
    let mut count = 0;
    for _ in 0..HEADER_LENGTH {
        let more = read_some(file, &mut bytes[count..], count as u64)?;
        if more == 0 {
            break;
        }
        count += more;
    }
    match header::decode(&bytes[..count]) {
        Ok(header) => Ok(header),
        Err(error) => Err(header_fault(error)),
    }
}

/// Opens the file that was looked up, also to write if that is wanted. `None` if the file is gone, or
/// another file has its path.
fn open_found(
    rt: &impl Files<File = File>,
    path: &str,
    number: FileNumber,
    writes: bool,
) -> Result<Option<File>, FileFault>
    ensures { IfErr result IsOfFile }
{
    let file = match OpenOptions::new().read(true).write(writes).open(rt, path) {
        Ok(file) => file,
        Err(error) => {
            if error.kind() == ErrorKind::NotFound {
                return Ok(None);
            }
            return Err(system_fault(&error));
        }
    };
    match file.metadata() {
        Err(error) => Err(system_fault(&error)),
        Ok(metadata) => {
            if number_of(&metadata) == number {
                Ok(Some(file))
            } else {
                Ok(None)
            }
        }
    }
}

/// Opens the file that has this path to read it, also to write if that is wanted. Returns the file with
/// the number by which the system knows it. `None` if nothing has the path. A symbolic link is not
/// followed, and only a file is opened.
pub(crate) fn find_numbered(
    rt: &impl Files<File = File>,
    path: &str,
    writes: bool,
) -> Result<Option<(File, FileNumber)>, FileFault>
    ensures { IfErr result IsOfFile }
{
    for _ in 0..OPENINGS {
        match looked_up(rt, path)? {
            None => return Ok(None),
            Some(number) => {
                if let Some(file) = open_found(rt, path, number, writes)? {
                    return Ok(Some((file, number)));
                }
            }
        }
    }
    Err(FileFault::Failed {
        kind: ErrorKind::NotFound,
    })
}

/// Opens the file that has this path, to read only. `None` if nothing has the path. A symbolic link is
/// not followed, and only a file is opened.
pub fn find_file(rt: &impl Files<File = File>, path: &str) -> Result<Option<File>, FileFault>
    ensures { IfErr result IsOfFile }
{
    match find_numbered(rt, path, false) {
        Ok(None) => Ok(None),
        Ok(Some((file, _))) => Ok(Some(file)),
        Err(fault) => Err(fault),
    }
}

/// Synchronizes the folder of the path, so that a name that was made in it survives a power loss.
pub(crate) fn sync_folder(rt: &impl Files<File = File>, path: &str) -> io::Result<()> {
    let (folder, _) = split(path);
    let folder = File::open(rt, folder)?;
    folder.sync_all()
}

/// Makes a file of these bytes, which wasn't there before.
fn write_beside(
    rt: &impl Files<File = File>,
    beside: &str,
    bytes: &[u8],
    mode: u32,
) -> io::Result<()> {
    let mut file = OpenOptions::new()
        .write(true)
        .create_new(true)
        .mode(mode)
        .open(rt, beside)?;
    // What is taken off a new file's mode by default is not taken off this one.
    file.set_permissions(Permissions::from_mode(mode))?;
    file.write_all(bytes)?;
    file.sync_all()
}

/// Makes a file of these bytes and this mode under another name beside its own, whole and synchronized.
/// Then links it to its own name, so that nobody ever sees a part of it. If something has the path
/// already, it stays, and nothing is made.
fn make_file<R: Files<File = File> + RandomSource + AllocGlobal>(
    rt: &R,
    path: &str,
    bytes: &[u8],
    mode: u32,
) -> io::Result<()> {
    let mut chance = [0u8; 8];
    rt.fill_bytes(&mut chance)?;
    let number = u64::from_be_bytes(chance);
    let beside = format!(in rt.alloc(); "{path}.new-{number:016x}")?;
    let linked = match write_beside(rt, &beside, bytes, mode) {
        Ok(()) => fs::hard_link(rt, beside.as_str(), path),
        Err(error) => Err(error),
    };
    let _ = fs::remove_file(rt, beside.as_str());
    match linked {
        // Another process was first, and its file is taken.
        Err(error) if error.kind() == ErrorKind::AlreadyExists => Ok(()),
        Err(error) => Err(error),
        Ok(()) => Ok(()),
    }
}

/// Opens the file of this path to read and to write, and makes an empty file of this mode if nothing has
/// the path.
pub fn find_or_make_file<R: Files<File = File> + RandomSource + AllocGlobal>(
    rt: &R,
    path: &str,
    mode: u32,
) -> Result<File, FileFault>
    ensures { IfErr result IsOfFile }
{
    for _ in 0..OPENINGS {
        if let Some((file, _)) = find_numbered(rt, path, true)? {
            return Ok(file);
        }
        if let Err(error) = make_file(rt, path, &[], mode) {
            return Err(system_fault(&error));
        }
    }
    Err(FileFault::Failed {
        kind: ErrorKind::NotFound,
    })
}

/// Returns a header with a random name.
fn new_header(rt: &impl RandomSource) -> io::Result<Header> {
    let mut name = [0u8; NAME_LENGTH];
    rt.fill_bytes(&mut name)?;
    Ok(Header {
        name: LogName(name),
        counter: 0,
        snapshot_length: 0,
    })
}

/// Makes the file of a new log.
fn make<R: Files<File = File> + RandomSource + AllocGlobal>(
    rt: &R,
    path: &str,
    options: &FileLogOptions,
) -> io::Result<()> {
    let bytes = header::encode(rt.alloc(), &new_header(rt)?)?;
    make_file(rt, path, &bytes, options.sharing.mode())?;
    if options.synchronizes {
        return sync_folder(rt, path);
    }
    Ok(())
}

/// The file of a log that was opened.
#[derive(Drop)]
pub(crate) struct FoundLog {
    pub file: File,
    pub number: FileNumber,
    pub header: Header,
}

/// Reads the header of a file that was found.
fn read_found(file: File, number: FileNumber) -> Result<FoundLog, FileFault> {
    let header = read_header(&file)?;
    Ok(FoundLog {
        file,
        number,
        header,
    })
}

/// Opens the file of the log, and makes it if nothing has its path.
pub(crate) fn opened<R: Files<File = File> + RandomSource + AllocGlobal>(
    rt: &R,
    path: &str,
    options: &FileLogOptions,
) -> Result<FoundLog, FileFault> {
    for _ in 0..OPENINGS {
        if let Some((file, number)) = find_numbered(rt, path, true)? {
            return read_found(file, number);
        }
        if let Err(error) = make(rt, path, options) {
            return Err(system_fault(&error));
        }
    }
    Err(FileFault::Failed {
        kind: ErrorKind::NotFound,
    })
}

/// Opens the file of the log that has this path now, also to write if that is wanted. Answers this fault
/// if nothing has the path.
pub(crate) fn reopened(
    rt: &impl Files<File = File>,
    path: &str,
    missing: FileFault,
    writes: bool,
) -> Result<FoundLog, FileFault> {
    match find_numbered(rt, path, writes)? {
        Some((file, number)) => read_found(file, number),
        None => Err(missing),
    }
}
