//! Logs in files, each in a file of its own in the folder for temporary files. What a file holds is known to no
//! contract, so these tests have it from outside: headers and entries are those that were computed in Python.

use crate::log_scripts::assert_scripts;
use crate::samples::HASH;
use crate::support::{assert_prints, joined};
use iceoryx2_description::description::ServiceHash;
use iceoryx2_file_log::error::{FileFault, FileLogError};
use iceoryx2_file_log::file_log::FileLog;
use iceoryx2_file_log::options::{FileLogOptions, Sharing};
use iceoryx2_log::entry::{Entry, Operation};
use iceoryx2_log::log::{Log, LogError};
use std::random::RandomSource;
use std::time::Duration;
use std::{env, fs};

pub type Handle<'a> = FileLog<&'a HostRuntime>;

/// A path that nothing has.
pub fn new_path(rt: &HostRuntime) -> Option<String> {
    let mut bytes = [0; 8];
    let folder = env::temp_dir(rt).ok()?;
    rt.fill_bytes(&mut bytes).ok()?;
    let number = u64::from_be_bytes(bytes);
    format!(in rt.alloc(); "{}/iceoryx2_file_log-{number:016x}", folder.as_str()).ok()
}

/// Puts these bytes into the file, one part after the other.
pub fn fill(rt: &HostRuntime, path: &str, parts: &[&[u8]]) -> Option<()> {
    let mut bytes = Vec::new(rt.alloc());
    for part in parts {
        bytes.extend_from_slice(part).ok()?;
    }
    fs::write(rt, path, bytes.as_slice()).ok()
}

/// Whether the file holds these bytes, one part after the other.
pub fn holds(rt: &HostRuntime, path: &str, parts: &[&[u8]]) -> Option<bool> {
    let bytes = fs::read(rt, path).ok()?;
    let mut wanted = Vec::new(rt.alloc());
    for part in parts {
        wanted.extend_from_slice(part).ok()?;
    }
    Some(bytes == wanted)
}

/// A handle that waits for nobody.
pub fn open<'a>(
    rt: &'a HostRuntime,
    path: &str,
    sharing: Sharing,
) -> Result<Handle<'a>, FileLogError> {
    let options = FileLogOptions {
        patience: Duration::from_millis(0),
        creation_timeout: Duration::from_millis(0),
        synchronizes: true,
        sharing,
    };
    match String::from_str(rt.alloc(), path) {
        Ok(copy) => FileLog::open(rt, copy, options),
        Err(_) => Err(FileLogError::new(String::new(rt.alloc()), FileFault::OutOfMemory)),
    }
}

/// Node 2 took the lock of the service of the hash, whose number is 5.
pub fn lock() -> Entry {
    let hash = ServiceHash(HASH);
    let operation = Operation::Lock { number: 5 };
    let node = 2;
    Entry {
        node,
        hash,
        operation,
    }
}

/// Holds the log, appends the entry, and lets go of it.
pub fn append<L: Log>(log: &mut L) -> Result<(), LogError> {
    log.hold()?;
    let answer = log.append(&lock());
    log.let_go();
    answer
}

/// Takes over the next entry, and returns whether it is the lock; `None` where there is none.
pub fn take_next<L: Log>(log: &mut L) -> Result<Option<bool>, LogError> {
    match log.next() {
        Ok(Some(entry)) => {
            log.accept();
            Ok(Some(entry == lock()))
        }
        Ok(None) => Ok(None),
        Err(error) => Err(error),
    }
}

/// Holds the log, takes over the next two entries, where there are any, and lets go of it.
pub fn take_two<L: Log>(log: &mut L) -> [Result<Option<bool>, LogError>; 2] {
    if let Err(error) = log.hold() {
        return [Err(error), Err(error)];
    }
    let first = take_next(log);
    let second = take_next(log);
    log.let_go();
    [first, second]
}

/// The scripts, each behind its title.
const SCRIPTS: [(&str, &str); 10] = [
    (
        "a new file is for its user or group",
        "a open
         b open
         mode log => 600
         length log => 48
         begins log header/8 => yes
         same-log => yes",
    ),
    (
        "a new file is for its user or group",
        "a open-group
         b open-group
         mode log => 660
         length log => 48
         begins log header/8 => yes
         same-log => yes",
    ),
    (
        "entries go from handle to handle",
        "write log header
         a open
         b open
         a add
         b hold
         b take => lock
         b take => none
         b free
         b add
         a hold
         a take => lock
         a take => none
         a free
         has log header lock lock => yes",
    ),
    (
        "a held log is busy",
        "a open
         b open
         a hold
         b hold => Busy
         a free
         b hold
         b fault => Busy",
    ),
    (
        "a mark of a log that stayed is cut off",
        "write log header lock mark
         a open
         a hold
         a take => lock
         a take => none
         a free
         has log header lock => yes
         a state => Free",
    ),
    (
        "damage between entries stays",
        "write log header lock lock@8=73 lock
         a open
         a hold
         a take => lock
         a take => Damaged
         a free
         has log header lock lock@8=73 lock => yes
         a state => Damaged { at: 101 }",
    ),
    (
        "damage between entries stays",
        "write log header lock mark lock
         a open
         a hold
         a take => lock
         a take => Damaged
         a free
         has log header lock mark lock => yes
         a state => Damaged { at: 101 }",
    ),
    (
        "a file that became shorter is damaged",
        "write log header lock
         a open
         a hold
         a take => lock
         a take => none
         a free
         write log header
         a hold => Damaged
         a fault => Damaged { at: 48 }",
    ),
    (
        "what is no file is refused",
        "a open / => IsAFolder
         a open /dev/null => NotAFile
         a open /proc/self/exe => IsALink",
    ),
    (
        "what is no log is refused",
        "write log
         a open => NotALog
         has log => yes
         write log version-1
         a open => AnotherVersion { found: 1 }
         has log version-1 => yes
         write log header@7=3
         a open => AnotherVersion { found: 3 }
         has log header@7=3 => yes
         write log header@31=3
         a open => Damaged { at: 0 }
         has log header@31=3 => yes",
    ),
];

#[test]
fn logs_in_files_go_as_their_scripts_say(rt: HostRuntime) {
    assert_scripts(&rt, &rt, &SCRIPTS);
}

/// What is taken over of a file that holds this, and whether it holds that from then on.
pub fn read_from_file(
    rt: &HostRuntime,
    parts: &[&[u8]],
    left: &[&[u8]],
) -> Option<([Result<Option<bool>, LogError>; 2], bool)> {
    let path = new_path(rt)?;
    fill(rt, &path, parts)?;
    let mut log = open(rt, &path, Sharing::User).ok()?;
    let taken = take_two(&mut log);
    let same = holds(rt, &path, left)?;
    fs::remove_file(rt, path.as_str()).ok()?;
    Some((taken, same))
}

#[test]
fn a_refusal_is_printed_with_its_path(rt: HostRuntime) {
    let path = joined(&rt, rt.alloc(), &["/run/log"]);
    let error = FileLogError::new(path, FileFault::Damaged { at: 93 });
    assert_prints(&rt, rt.alloc(), &error, "/run/log: is damaged at byte 93");
}
