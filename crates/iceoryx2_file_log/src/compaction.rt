//! The parts of a compaction that need no file: the mark, the bytes of a snapshot, and when a compaction
//! is tried.

ghost use Rattle.std.specs.Prelude.{◌≡◌, ◌≢◌, ◌<◌, ◌↔◌, IsTrue, IfOk, IfErr, All};
ghost use Rattle.iceoryx2_log.specs.declared.entry.Operation.TheVariants as operation;
ghost use Rattle.iceoryx2_file_log.specs.declared.error.FileFault.TheVariants as fault;
ghost use Rattle.iceoryx2_file_log.specs.Compaction.{IsMark, AreForms, HasSnapshot, IsSnapshot, IsLong, IsWorth};
ghost use Rattle.iceoryx2_file_log.specs.Compaction.{worth_from, first_tried, later, snapshot_end, KeepsAccess};

use crate::error::FileFault;
use crate::header::{self, HEADER_LENGTH, Header, LogName};
use iceoryx2_description::description::ServiceHash;
use iceoryx2_log::entry::{Entry, Operation};
use iceoryx2_log::form::{EncodeError, encode};
use std::alloc::{AllocError, Global};

/// The highest number of bytes of a log that is not compacted.
const SHORT_LENGTH: u64 = 65_536;

/// A file has to be so many times as long as the file that a compaction would make.
const SAVING: u64 = 8;

/// The number of bytes by which a file has to grow after a compaction was refused.
const LATER: u64 = 65_536;

/// The bits of a file's mode by which its group may read and write it.
const GROUP_BITS: u32 = 0o060;

// ---- the mark

/// Returns true if the entry marks that the log goes on in another place.
pub fn is_mark(entry: &Entry) -> bool
    ensures { IsTrue result ↔ (entry.now.operation ≡ operation.Moved) }
{
    match entry.operation {
        Operation::Moved => true,
        _ => false,
    }
}

/// Returns the mark, which is of no node and of no service.
fn mark() -> Entry
    ensures node { result.node ≡ 0 }
    ensures hash { All (λ b. b ≡ 0) result.hash.0 }
    ensures operation { result.operation ≡ operation.Moved }
{
    Entry {
        node: 0,
        hash: ServiceHash([0; 20]),
        operation: Operation::Moved,
    }
}

/// Returns the fault of an entry that has no form.
fn encode_fault(error: EncodeError) -> FileFault
    ensures { result ≢ fault.NothingSaved }
{
    match error {
        EncodeError::OutOfMemory => FileFault::OutOfMemory,
        EncodeError::TooLong => FileFault::TooLong,
    }
}

/// Returns the byte form of the mark.
pub fn mark_form(alloc: Global) -> Result<Vec<u8>, FileFault>
    ensures { IfOk result (λ bytes. IsMark bytes.items) }
{
    match encode(alloc, &mark()) {
        Ok(bytes) => Ok(bytes),
        Err(error) => Err(encode_fault(error)),
    }
}

// ---- the snapshot

/// The file of a log that begins with a snapshot, all of its bytes.
#[derive(Debug)]
pub struct Snapshot {
    pub header: Header,
    pub bytes: Vec<u8>,
}

// Written out, so that a proof of what lets one go doesn't take its fields apart.
impl Drop for Snapshot {
    fn drop(self) {
        let Snapshot {
            header: _,
            bytes: _,
        } = self;
    }
}

/// Returns the byte forms of the entries, one after the other.
fn forms_of(alloc: Global, entries: &[Entry]) -> Result<Vec<u8>, EncodeError>
    ensures { IfOk result (λ bytes. AreForms entries.now bytes.items) }
{
    let mut bytes = Vec::new(alloc);
    for entry in entries {
        let form = encode(alloc, entry)?;
        bytes.extend_from_slice(&form)?;
    }
    Ok(bytes)
}

/// Returns the file of the log of this name with these bytes as its snapshot.
fn file_of(alloc: Global, name: LogName, snapshot: &[u8]) -> Result<Snapshot, AllocError>
    ensures { IfOk result (λ file. HasSnapshot name snapshot.now file.header file.bytes.items) }
{
    let header = Header {
        name,
        counter: 0,
        snapshot_length: snapshot.len() as u64,
    };
    let mut bytes = header::encode(alloc, &header)?;
    bytes.extend_from_slice(snapshot)?;
    Ok(Snapshot { header, bytes })
}

/// Returns the file of the log of this name with these entries as its snapshot. `TooLong` if the body of
/// an entry is too long, and `OutOfMemory` if there was no memory for the bytes.
pub fn snapshot_of(alloc: Global, name: LogName, entries: &[Entry]) -> Result<Snapshot, FileFault>
    ensures ok { IfOk result (λ file. IsSnapshot name entries.now file.header file.bytes.items) }
    ensures err { IfErr result (λ why. why ≢ fault.NothingSaved) }
{
    match forms_of(alloc, entries) {
        Err(error) => Err(encode_fault(error)),
        Ok(forms) => match file_of(alloc, name, &forms) {
            Ok(file) => Ok(file),
            Err(_) => Err(FileFault::OutOfMemory),
        },
    }
}

/// Returns true if this place is before the end of the snapshot with which a log of this header begins.
pub fn is_before_end(position: u64, header: &Header) -> bool
    ensures { IsTrue result ↔ (position < snapshot_end header.now) }
{
    match header.snapshot_length.checked_add(HEADER_LENGTH as u64) {
        Some(end) => position < end,
        None => true,
    }
}

/// Returns true if the snapshot with which a log of this header begins ends between these places, at
/// neither of them.
pub fn is_across_end(from: u64, to: u64, header: &Header) -> bool
    ensures { IsTrue result ↔ ((from < snapshot_end header.now) × (snapshot_end header.now < to)) }
{
    match header.snapshot_length.checked_add(HEADER_LENGTH as u64) {
        Some(end) => from < end && end < to,
        None => false,
    }
}

// ---- when a compaction is tried

/// Returns true if a file of so many bytes is so long that a compaction may be worth it. One is tried
/// from the second length on.
pub fn is_long(file_length: u64, tries_from: u64) -> bool
    ensures { IsTrue result ↔ IsLong file_length tries_from }
{
    SHORT_LENGTH < file_length && tries_from <= file_length
}

/// Returns true if a file of so many bytes is worth a compaction to the wanted ones.
pub fn is_worth(file_length: u64, wanted: u64) -> bool
    ensures { IsTrue result ↔ IsWorth file_length wanted }
{
    wanted <= file_length / SAVING
}

/// Returns the length from which a file is worth a compaction to so many bytes.
pub fn length_worth(wanted: u64) -> u64
    ensures { result ≡ worth_from wanted }
{
    wanted.saturating_mul(SAVING)
}

/// Returns the length from which a log with this header is first compacted. A compaction of a shorter log
/// would save too little as long as the entries of its snapshot still stand.
pub fn first_tried(header: &Header) -> u64
    ensures { result ≡ first_tried header.now }
{
    length_worth(header.snapshot_length.saturating_add(HEADER_LENGTH as u64))
}

/// Returns the length from which a compaction is tried again that was refused at this length.
pub fn length_later(file_length: u64) -> u64
    ensures { result ≡ later file_length }
{
    file_length.saturating_add(LATER)
}

// ---- who may use the file

/// The user and the group of a file, and the bits of its mode.
#[derive(Clone, Copy, Debug, PartialEq, Eq)]
pub struct Access {
    pub user: u32,
    pub group: u32,
    pub mode: u32,
}

/// Returns true if anyone who may use a file with the old access may use it with the new one, of the same
/// mode.
pub fn keeps_access(old: Access, new: Access) -> bool
    ensures { IsTrue result ↔ KeepsAccess old new }
{
    if new.group != old.group {
        return false;
    }
    new.user == old.user || old.mode & GROUP_BITS == GROUP_BITS
}
