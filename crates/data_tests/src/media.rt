//! A log over a file in memory: its bytes are known to its contracts, whose premises are met here. Headers and entries
//! are those that were computed in Python. What a handle makes of bytes is the same over a real file. A scenario is
//! `None` where there is no memory, or the system refuses something that it has to do.

use crate::file_logs::{lock as lock_entry, read_from_file, take_two};
use crate::samples::{HEADER, LOCK};
use crate::support::assert_same;
use iceoryx2_file_log::bytes::{lock, read_back};
use iceoryx2_file_log::error::FileFault;
use iceoryx2_file_log::header::{HEADER_LENGTH, Header, LogName};
use iceoryx2_file_log::memory::{MemoryFile, NOTHING_REFUSED, Refusals};
use iceoryx2_file_log::one_file_log::OneFileLog;
use iceoryx2_log::log::{Log, LogError};
use std::alloc::Global;
use std::io::ErrorKind;
use std::time::Duration;

type Handle<'a> = OneFileLog<&'a HostRuntime, MemoryFile>;

/// These bytes, one part after the other.
fn bytes_of(alloc: Global, parts: &[&[u8]]) -> Option<Vec<u8>> {
    let mut bytes = Vec::new(alloc);
    for part in parts {
        bytes.extend_from_slice(part).ok()?;
    }
    Some(bytes)
}

/// A handle of the log in a file of these bytes, to which others append those. It waits for nobody and synchronizes.
/// `None` where the file is too short for a header.
fn handle_of<'a>(
    rt: &'a HostRuntime,
    bytes: Vec<u8>,
    others: Vec<u8>,
    refusals: Refusals,
) -> Option<Handle<'a>> {
    if bytes.len() < HEADER_LENGTH {
        return None;
    }
    let file = MemoryFile::new(rt.alloc(), bytes, others, refusals, 7);
    let header = Header {
        name: LogName([0; 16]),
        counter: 258,
        snapshot_length: 0,
    };
    let patience = Duration::from_millis(0);
    Some(OneFileLog::new(rt, file, header, true, patience, 0))
}

/// The same, of the bytes that stand one part after the other.
fn handle<'a>(
    rt: &'a HostRuntime,
    parts: &[&[u8]],
    others: &[u8],
    refusals: Refusals,
) -> Option<Handle<'a>> {
    let bytes = bytes_of(rt.alloc(), parts)?;
    let others = bytes_of(rt.alloc(), &[others])?;
    handle_of(rt, bytes, others, refusals)
}

/// Holds the log, takes over what others have appended, and appends the entry.
fn append<L: Log>(log: &mut L) -> Result<(), LogError> {
    log.hold()?;
    for _ in 0..9 {
        if log.next()?.is_none() {
            break;
        }
        log.accept();
    }
    log.append(&lock_entry())
}

/// What an append to a file of a header and an entry is answered, the bytes of the file then, and what the next hold is
/// answered. Others have appended these before.
fn appended(
    rt: &HostRuntime,
    others: &[u8],
    refusals: Refusals,
) -> Option<(Result<(), LogError>, Vec<u8>, Result<(), LogError>)> {
    let mut log = handle(rt, &[&HEADER, &LOCK], others, refusals)?;
    let answer = append(&mut log);
    log.let_go();
    let held = log.hold();
    let bytes = Vec::from_slice(rt.alloc(), log.medium().bytes()).ok()?;
    Some((answer, bytes, held))
}

/// The same, by the bytes that the file has to hold then.
fn leaves(
    rt: &HostRuntime,
    others: &[u8],
    refusals: Refusals,
    left: &[&[u8]],
) -> Option<(Result<(), LogError>, bool, Result<(), LogError>)> {
    let (answer, bytes, held) = appended(rt, others, refusals)?;
    Some((answer, bytes == bytes_of(rt.alloc(), left)?, held))
}

#[test]
fn an_append_stands_behind_what_others_have_appended(rt: HostRuntime) {
    let left = [&HEADER[..], &LOCK, &LOCK, &LOCK];
    let found = leaves(&rt, &LOCK, NOTHING_REFUSED, &left);
    assert_same(&rt, found, Some((Ok(()), true, Ok(()))));
}

#[test]
fn a_refused_append_leaves_none_of_its_bytes(rt: HostRuntime) {
    let full = Refusals {
        write: Some(10),
        ..NOTHING_REFUSED
    };
    let found = leaves(&rt, &[], full, &[&HEADER, &LOCK]);
    assert_same(&rt, found, Some((Err(LogError::Failed), true, Ok(()))));
}

#[test]
fn a_handle_whose_append_cannot_be_taken_back_is_over(rt: HostRuntime) {
    let stuck = Refusals {
        write: Some(10),
        cut: true,
        ..NOTHING_REFUSED
    };
    let found = leaves(&rt, &[], stuck, &[&HEADER, &LOCK, &LOCK[..10]]);
    assert_same(
        &rt,
        found,
        Some((Err(LogError::Failed), true, Err(LogError::Failed))),
    );
}

#[test]
fn a_handle_whose_append_cannot_be_synchronized_is_over(rt: HostRuntime) {
    let failing = Refusals {
        sync: true,
        ..NOTHING_REFUSED
    };
    let found = leaves(&rt, &[], failing, &[&HEADER, &LOCK]);
    assert_same(
        &rt,
        found,
        Some((Err(LogError::Failed), true, Err(LogError::Failed))),
    );
}

/// What a hold is answered while others have the lock.
fn held_by_others(rt: &HostRuntime) -> Option<Result<(), LogError>> {
    let busy = Refusals {
        busy: 2,
        ..NOTHING_REFUSED
    };
    Some(handle(rt, &[&HEADER], &[], busy)?.hold())
}

#[test]
fn a_lock_is_had_only_where_it_is_granted(rt: HostRuntime) {
    assert_same(&rt, held_by_others(&rt), Some(Err(LogError::Busy)));
}

/// What two looks at a log find: whether the next entry is the lock, that there is none, or why it is refused.
type Looks = [Result<Option<bool>, LogError>; 2];

/// What the next handle finds of what one has appended.
fn handed_over(rt: &HostRuntime) -> Option<Looks> {
    let mut first = handle(rt, &[&HEADER], &[], NOTHING_REFUSED)?;
    append(&mut first).ok()?;
    first.let_go();
    let file = first.into_medium();
    if !file.is_free() {
        return None;
    }
    let mut second = handle(rt, &[file.bytes()], &[], NOTHING_REFUSED)?;
    Some(take_two(&mut second))
}

#[test]
fn the_next_handle_reads_what_the_last_one_appended(rt: HostRuntime) {
    assert_same(&rt, handed_over(&rt), Some([Ok(Some(true)), Ok(None)]));
}

/// What is taken over of a file in memory that holds this, and whether it holds that from then on.
fn read_from_memory(rt: &HostRuntime, parts: &[&[u8]], left: &[&[u8]]) -> Option<(Looks, bool)> {
    let mut log = handle(rt, parts, &[], NOTHING_REFUSED)?;
    let taken = take_two(&mut log);
    let wanted = bytes_of(rt.alloc(), left)?;
    Some((taken, log.medium().bytes() == wanted.as_slice()))
}

/// The same of a file in memory, and of a real one.
fn read(
    rt: &HostRuntime,
    parts: &[&[u8]],
    left: &[&[u8]],
) -> (Option<(Looks, bool)>, Option<(Looks, bool)>) {
    (
        read_from_memory(rt, parts, left),
        read_from_file(rt, parts, left),
    )
}

/// This is taken over of both, and the file holds what it has to.
fn both(taken: Looks) -> (Option<(Looks, bool)>, Option<(Looks, bool)>) {
    (Some((taken, true)), Some((taken, true)))
}

#[test]
fn each_cut_of_the_last_entry_is_torn(rt: HostRuntime) {
    for length in 0..LOCK.len() {
        let parts = [&HEADER[..], &LOCK, &LOCK[..length]];
        let found = read(&rt, &parts, &[&HEADER, &LOCK]);
        assert_same(
            &rt,
            (length, found),
            (length, both([Ok(Some(true)), Ok(None)])),
        );
    }
}

/// Returns the entry's form with another byte at a place.
fn changed(place: usize) -> [u8; 53] {
    let mut bytes = LOCK;
    if place < bytes.len() {
        bytes[place] ^= 1;
    }
    bytes
}

/// In which bytes the length of an entry stands, twice.
const LENGTHS: usize = 8;

#[test]
fn a_changed_byte_of_the_last_entry_is_torn_or_damage(rt: HostRuntime) {
    for place in 0..LOCK.len() {
        let other = changed(place);
        let parts = [&HEADER[..], &LOCK, &other];
        let is_damage = place < LENGTHS;
        let left = if is_damage { 3 } else { 2 };
        let second = if is_damage {
            Err(LogError::Damaged)
        } else {
            Ok(None)
        };
        let found = read(&rt, &parts, &parts[..left]);
        let wanted = both([Ok(Some(true)), second]);
        assert_same(&rt, (place, found), (place, wanted));
    }
}

#[test]
fn a_changed_byte_before_an_entry_is_damage(rt: HostRuntime) {
    for place in 0..LOCK.len() {
        let other = changed(place);
        let parts = [&HEADER[..], &LOCK, &other, &LOCK];
        let found = read(&rt, &parts, &parts);
        let damage = both([Ok(Some(true)), Err(LogError::Damaged)]);
        assert_same(&rt, (place, found), (place, damage));
    }
}

/// What is answered where a file of a header and an entry is compared with these bytes.
fn compared(rt: &HostRuntime, parts: &[&[u8]]) -> Option<Result<(), FileFault>> {
    let alloc = rt.alloc();
    let stands = bytes_of(alloc, &[&HEADER, &LOCK])?;
    let mut file = MemoryFile::new(alloc, stands, Vec::new(alloc), NOTHING_REFUSED, 7);
    let bytes = bytes_of(alloc, parts)?;
    match lock(rt, &mut file, Duration::from_millis(0)) {
        Ok(file_length) => Some(read_back(&mut file, &bytes, file_length)),
        Err(_) => None,
    }
}

#[test]
fn what_was_written_is_read_back_by_short_reads(rt: HostRuntime) {
    let found = [
        compared(&rt, &[&HEADER, &LOCK]),
        compared(&rt, &[&HEADER, &LOCK[..52], &[9]]),
        compared(&rt, &[&HEADER, &LOCK[..52]]),
        compared(&rt, &[&HEADER, &LOCK, &LOCK]),
    ];
    let refused = Some(Err(FileFault::Failed {
        kind: ErrorKind::InvalidData,
    }));
    assert_same(&rt, found, [Some(Ok(())), refused, refused, refused]);
}
