//! Why a log in a file refused.

ghost use Rattle.std.specs.Prelude.{◌≡◌, string_bytes};
ghost use Rattle.std.specs.IoError.{error_kind};
ghost use Rattle.iceoryx2_file_log.specs.Errors.{kind_fault, kind_text, log_error_of, IsOfFile};

use iceoryx2_log::log::LogError;
use std::error::Error;
use std::fmt;
use std::io::{self, ErrorKind};

/// The reason why a log in a file refused. The first ones come only when a file is opened.
#[derive(Clone, Copy, Debug, PartialEq, Eq)]
pub enum FileFault {
    /// The path is that of a symbolic link, which is not followed.
    IsALink,
    /// The path is that of a folder.
    IsAFolder,
    /// The path is that of something else that is no file, such as a pipe.
    NotAFile,
    /// The file doesn't begin as the file of a log does. An empty file isn't a log either.
    NotALog,
    /// The log is of another version.
    AnotherVersion { found: u8 },
    /// The bytes that begin at this byte are neither whole nor the remainder that a writer leaves when it
    /// dies. At byte 0 they are the header, else an entry.
    Damaged { at: u64 },
    /// The system doesn't permit it.
    NoPermission,
    /// Other handles held the log for as long as the options allow.
    Busy,
    /// There is no room on the disk.
    DiskFull,
    /// There was no memory.
    OutOfMemory,
    /// The body of an entry is longer than any body that is read.
    TooLong,
    /// The handle was opened to read only, so it never holds the log.
    ReadOnly,
    /// The handle holds the log already.
    HeldAlready,
    /// The handle doesn't hold the log.
    NotHeld,
    /// Entries of other handles are unread, so nothing is appended yet.
    Unread,
    /// An append failed, and its bytes could not be taken back, so nobody knows whether its entry stands.
    /// Or bytes that were taken back or cut off may come back after a power loss, though the options
    /// synchronize.
    Unsure,
    /// The log goes on in another file, which has the path now.
    Moved,
    /// The file no longer has the log's path: it was removed or renamed, or another file was renamed over
    /// it. Comes when nothing of the file is unread, and from an append. It also comes if a log is to go
    /// on in another file, and no file has the path.
    Removed,
    /// The file that has the path now is that of another log.
    AnotherLog,
    /// The file has fewer than eight times the bytes that it would have after a compaction.
    NothingSaved,
    /// The system refused for another reason. If the kind is `InvalidData`, a new file holds other bytes
    /// than were written to it.
    Failed { kind: ErrorKind },
}

/// Returns the system's reason in words, if no other fault names it.
fn refusal_text(kind: ErrorKind) -> &'static str
    ensures { result.now ≡ kind_text kind }
{
    match kind {
        ErrorKind::NotFound => "there is no such file or folder",
        ErrorKind::NotADirectory => "a part of its path is no folder",
        ErrorKind::InvalidFilename => "its name is too long",
        ErrorKind::FileTooLarge => "the file would be too long",
        ErrorKind::InvalidData => "a new file holds other bytes than were written to it",
        _ => "the system refused",
    }
}

impl fmt::Display for FileFault {
    ghost use Rattle.std.specs.Prelude.{Some};
    ghost use Rattle.iceoryx2_file_log.specs.Errors.{fault_text};

    ghost output = { λ fault. Some (fault_text fault) };

    fn fmt<W: fmt::Write>(&self, f: &mut fmt::Formatter<W>) -> fmt::Result {
        match self {
            FileFault::IsALink => write!(f, "is a symbolic link"),
            FileFault::IsAFolder => write!(f, "is a folder"),
            FileFault::NotAFile => write!(f, "is no file"),
            FileFault::NotALog => write!(f, "is no log"),
            FileFault::AnotherVersion { found } => write!(f, "is a log of version {found}"),
            FileFault::Damaged { at } => write!(f, "is damaged at byte {at}"),
            FileFault::NoPermission => write!(f, "no permission"),
            FileFault::Busy => write!(f, "others hold the log"),
            FileFault::DiskFull => write!(f, "no room on the disk"),
            FileFault::OutOfMemory => write!(f, "out of memory"),
            FileFault::TooLong => write!(f, "an entry's body has at most 1048576 bytes"),
            FileFault::ReadOnly => write!(f, "was opened to read only"),
            FileFault::HeldAlready => write!(f, "the log is held already"),
            FileFault::NotHeld => write!(f, "the log is not held"),
            FileFault::Unread => write!(f, "entries of others are unread"),
            FileFault::Unsure => write!(f, "a failed append may stand in the log"),
            FileFault::Moved => write!(f, "the log has moved"),
            FileFault::Removed => write!(f, "was removed or renamed"),
            FileFault::AnotherLog => write!(f, "is another log"),
            FileFault::NothingSaved => write!(f, "a compaction would save too little"),
            FileFault::Failed { kind } => write!(f, "{}", refusal_text(*kind)),
        }
    }
}

/// The reason why the log in a file refused, with the path of that file.
#[derive(Debug, PartialEq, Eq)]
pub struct FileLogError {
    path: String,
    fault: FileFault,
}

// Written out, so that a proof of what lets one go doesn't take its fields apart.
impl Drop for FileLogError {
    fn drop(self) {
        let FileLogError { path: _, fault: _ } = self;
    }
}

impl FileLogError {
    pub fn new(path: String, fault: FileFault) -> FileLogError
        ensures path { result.path ≡ path }
        ensures fault { result.fault ≡ fault }
    {
        FileLogError { path, fault }
    }

    pub fn path(&self) -> &str
        ensures { result.now ≡ string_bytes self.now.path }
    {
        &self.path
    }

    pub fn fault(&self) -> FileFault
        ensures { result ≡ self.now.fault }
    {
        self.fault
    }
}

impl fmt::Display for FileLogError {
    ghost use Rattle.std.specs.Prelude.{Some, string_bytes};
    ghost use Rattle.iceoryx2_file_log.specs.Errors.{file_log_error_text};

    ghost output = { λ error. Some (file_log_error_text (string_bytes error.path) error.fault) };

    fn fmt<W: fmt::Write>(&self, f: &mut fmt::Formatter<W>) -> fmt::Result {
        write!(f, "{}: {}", self.path, self.fault)
    }
}

impl Error for FileLogError {}

/// Returns the fault that an error of the system means for a log in a file.
pub fn system_fault(error: &io::Error) -> FileFault
    ensures kind { result ≡ kind_fault (error_kind error.now) }
    ensures file { IsOfFile result }
{
    match error.kind() {
        ErrorKind::PermissionDenied | ErrorKind::ReadOnlyFilesystem => FileFault::NoPermission,
        ErrorKind::StorageFull | ErrorKind::QuotaExceeded => FileFault::DiskFull,
        ErrorKind::OutOfMemory => FileFault::OutOfMemory,
        ErrorKind::IsADirectory => FileFault::IsAFolder,
        ErrorKind::FilesystemLoop => FileFault::IsALink,
        kind => FileFault::Failed { kind },
    }
}

/// Returns the error that a log answers if its file refused for this fault.
pub fn log_error(fault: FileFault) -> LogError
    ensures { result ≡ log_error_of fault }
{
    match fault {
        FileFault::Busy => LogError::Busy,
        FileFault::OutOfMemory => LogError::OutOfMemory,
        FileFault::Damaged { at: _ } => LogError::Damaged,
        FileFault::Moved => LogError::Moved,
        _ => LogError::Failed,
    }
}
