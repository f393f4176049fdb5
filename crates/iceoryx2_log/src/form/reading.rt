//! Reading an entry from left to right: each part gives its value and the bytes after it.
//!
//! A function that answers an `Option` returns `None` if the bytes don't begin with such a part. A
//! function that copies bytes returns an `Err` if they do, and there was no memory for the copy.

ghost use Rattle.std.specs.Prelude.{◌≡◌, ◌<◌, ◌≤◌, ◌^◌, length, bytes_eq, IfOk, OnErr, IfSome, IsSome};
ghost use Rattle.std.specs.Int.{w32, w64};
ghost use Rattle.iceoryx2_data.specs.PartReading.{number_at, bytes_at};
ghost use Rattle.iceoryx2_log.specs.declared.entry.Operation.TheVariants as operation;
ghost use Rattle.iceoryx2_log.specs.Form.{sum_of as sum_at};
ghost use Rattle.iceoryx2_log.specs.Reading.{IsPart, IsReadBy};
ghost use Rattle.iceoryx2_log.specs.Reading.{none_in, number_in, numbers_in, plain_operation_in, publish_in};
ghost use Rattle.iceoryx2_log.specs.Reading.{operation_in, kind_at, front_at, body_in};
ghost use Rattle.iceoryx2_log.specs.Reading.{header_at, summed_at, sealed_at, entry_at, is_cut_short};

use super::writing::sum_of;
use super::{HEADER_LENGTH, MAX_BODY_LENGTH, MIN_BODY_LENGTH, SUM_LENGTH};
use crate::entry::{Entry, FormBytes, Operation};
use iceoryx2_description::description::{HASH_LENGTH, ServiceHash};
use std::alloc::{AllocError, Global};
use std::error::Error;
use std::fmt;

/// The reason why no entry was read.
#[derive(Clone, Copy, Debug, PartialEq, Eq)]
pub enum EntryError {
    /// The bytes end within the header, or sooner than the header says.
    CutShort,
    /// The length doesn't fit its inverted copy, no body has this length, the sum is wrong, or the body
    /// is that of no entry.
    Malformed,
    /// The bytes begin with an entry, and there was no memory for it.
    OutOfMemory,
}

impl fmt::Display for EntryError {
    ghost use Rattle.std.specs.Prelude.{Some};
    ghost use Rattle.iceoryx2_log.specs.Errors.{entry_error_text};

    ghost output = { λ error. Some (entry_error_text error) };

    fn fmt<W: fmt::Write>(&self, f: &mut fmt::Formatter<W>) -> fmt::Result {
        match self {
            EntryError::CutShort => write!(f, "the bytes end before an entry does"),
            EntryError::Malformed => write!(f, "the bytes begin with no entry"),
            EntryError::OutOfMemory => write!(f, "out of memory"),
        }
    }
}

impl Error for EntryError {}

/// Four bytes, as a number.
fn u32_at(bytes: &[u8]) -> Option<(u32, &[u8])>
    ensures { IsPart (λ x. (x.0, x.1.now)) result (number_at w32 bytes.now) }
{
    if bytes.len() < 4 {
        return None;
    }
    let (front, rest) = bytes.split_at(4);
    let number = u32::from_be_bytes([front[0], front[1], front[2], front[3]]);
    Some((number, rest))
}

/// Eight bytes, as a number.
fn u64_at(bytes: &[u8]) -> Option<(u64, &[u8])>
    ensures { IsPart (λ x. (x.0, x.1.now)) result (number_at w64 bytes.now) }
{
    if bytes.len() < 8 {
        return None;
    }
    let (front, rest) = bytes.split_at(8);
    let number = u64::from_be_bytes([
        front[0], front[1], front[2], front[3], front[4], front[5], front[6], front[7],
    ]);
    Some((number, rest))
}

/// So many bytes.
fn bytes_of(len: usize, bytes: &[u8]) -> Option<(&[u8], &[u8])>
    ensures parts { IsPart (λ x. (x.0.now, x.1.now)) result (bytes_at len bytes.now) }
    ensures front { IfSome result (λ x. length x.0.now ≡ len) }
{
    if bytes.len() < len {
        return None;
    }
    Some(bytes.split_at(len))
}

/// Returns the operation, which has no more numbers, if no bytes are left.
#[tactic(auto, unfolding(crate::specs::Reading::none_in))]
fn none_of(operation: Operation, bytes: &[u8]) -> Option<Operation>
    ensures { IsPart (λ d. d) result (none_in operation bytes.now) }
{
    match bytes {
        [] => Some(operation),
        [_, ..] => None,
    }
}

/// A number, which is all of the bytes.
#[tactic(auto, unfolding(crate::specs::Reading::number_in))]
fn lock_of(bytes: &[u8]) -> Option<Operation>
    ensures { IsPart (λ d. d) result (number_in operation.Lock bytes.now) }
{
    let (number, rest) = u64_at(bytes)?;
    none_of(Operation::Lock { number }, rest)
}

#[tactic(auto, unfolding(crate::specs::Reading::number_in))]
fn spend_of(bytes: &[u8]) -> Option<Operation>
    ensures { IsPart (λ d. d) result (number_in operation.Spend bytes.now) }
{
    let (number, rest) = u64_at(bytes)?;
    none_of(Operation::Spend { number }, rest)
}

/// Two numbers, which are all of the bytes.
#[tactic(auto, unfolding(crate::specs::Reading::number_in, crate::specs::Reading::numbers_in))]
fn make_segment_of(bytes: &[u8]) -> Option<Operation>
    ensures { IsPart (λ d. d) result (numbers_in operation.MakeSegment bytes.now) }
{
    let (number, rest) = u64_at(bytes)?;
    let (max_nodes, rest) = u64_at(rest)?;
    none_of(Operation::MakeSegment { number, max_nodes }, rest)
}

#[tactic(auto, unfolding(crate::specs::Reading::number_in, crate::specs::Reading::numbers_in))]
fn open_segment_of(bytes: &[u8]) -> Option<Operation>
    ensures { IsPart (λ d. d) result (numbers_in operation.OpenSegment bytes.now) }
{
    let (number, rest) = u64_at(bytes)?;
    let (ticket, rest) = u64_at(rest)?;
    none_of(Operation::OpenSegment { number, ticket }, rest)
}

#[tactic(auto, unfolding(crate::specs::Reading::number_in, crate::specs::Reading::numbers_in))]
fn release_of(bytes: &[u8]) -> Option<Operation>
    ensures { IsPart (λ d. d) result (numbers_in operation.Release bytes.now) }
{
    let (ticket, rest) = u64_at(bytes)?;
    let (number, rest) = u64_at(rest)?;
    none_of(Operation::Release { ticket, number }, rest)
}

/// Returns the operation of this kind, which is not `Publish`, if its numbers are all of the bytes.
#[tactic(auto, unfolding(crate::specs::Reading::plain_operation_in))]
fn plain_operation_of(kind: u8, bytes: &[u8]) -> Option<Operation>
    ensures { IsPart (λ d. d) result (plain_operation_in kind bytes.now) }
{
    match kind {
        1 => none_of(Operation::MakeTag, bytes),
        2 => none_of(Operation::RemoveTag, bytes),
        3 => lock_of(bytes),
        4 => make_segment_of(bytes),
        5 => none_of(Operation::RemoveSegment, bytes),
        6 => none_of(Operation::RemoveDescription, bytes),
        8 => open_segment_of(bytes),
        9 => release_of(bytes),
        10 => spend_of(bytes),
        11 => none_of(Operation::Moved, bytes),
        _ => None,
    }
}

/// Reads a number, and the bytes of a description, which are the rest.
#[tactic(auto, unfolding(crate::specs::Reading::publish_in))]
fn publish_of(alloc: Global, bytes: &[u8]) -> Result<Option<Operation>, AllocError>
    ensures read { IfOk result (λ found. IsPart (λ d. d) found (publish_in bytes.now)) }
    ensures err { OnErr result (IsSome (publish_in bytes.now)) }
{
    match u64_at(bytes) {
        None => Ok(None),
        Some((number, rest)) => {
            let copy = Vec::from_slice(alloc, rest)?;
            let bytes = FormBytes::new(copy);
            Ok(Some(Operation::Publish { number, bytes }))
        }
    }
}

/// Returns the operation of this kind, if its numbers and bytes are all of the bytes.
#[tactic(auto, unfolding(crate::specs::Reading::operation_in))]
fn operation_of(alloc: Global, kind: u8, bytes: &[u8]) -> Result<Option<Operation>, AllocError>
    ensures read { IfOk result (λ found. IsPart (λ d. d) found (operation_in kind bytes.now)) }
    ensures err { OnErr result (IsSome (operation_in kind bytes.now)) }
{
    if kind == 7 {
        publish_of(alloc, bytes)
    } else {
        Ok(plain_operation_of(kind, bytes))
    }
}

#[tactic(auto, unfolding(crate::specs::Reading::kind_at))]
fn kind_of(bytes: &[u8]) -> Option<(u8, &[u8])>
    ensures { IsPart (λ x. (x.0, x.1.now)) result (kind_at bytes.now) }
{
    match bytes {
        [] => None,
        [kind, rest @ ..] => Some((*kind, rest)),
    }
}

fn hash_of(bytes: &[u8]) -> Option<(ServiceHash, &[u8])>
    ensures { IsPart (λ x. (x.0.0, x.1.now)) result (bytes_at HASH_LENGTH bytes.now) }
{
    let (front, rest) = bytes_of(HASH_LENGTH, bytes)?;
    let mut hash = [0; HASH_LENGTH];
    hash.copy_from_slice(front);
    Some((ServiceHash(hash), rest))
}

/// Reads the parts before an operation's numbers: its kind, its node and its hash.
#[tactic(auto, unfolding(crate::specs::Reading::front_at))]
fn front_of(bytes: &[u8]) -> Option<(u8, u64, ServiceHash, &[u8])>
    ensures { IsPart (λ x. ((x.0, (x.1, x.2.0)), x.3.now)) result (front_at bytes.now) }
{
    let (kind, rest) = kind_of(bytes)?;
    let (node, rest) = u64_at(rest)?;
    let (hash, rest) = hash_of(rest)?;
    Some((kind, node, hash, rest))
}

/// The entry whose body the bytes are.
#[tactic(auto, unfolding(crate::specs::Reading::body_in))]
fn body_of(alloc: Global, bytes: &[u8]) -> Result<Option<Entry>, AllocError>
    ensures read { IfOk result (λ found. IsPart (λ e. e) found (body_in bytes.now)) }
    ensures err { OnErr result (IsSome (body_in bytes.now)) }
{
    match front_of(bytes) {
        None => Ok(None),
        Some((kind, node, hash, rest)) => match operation_of(alloc, kind, rest) {
            Ok(Some(operation)) => Ok(Some(Entry {
                node,
                hash,
                operation,
            })),
            Ok(None) => Ok(None),
            Err(error) => Err(error),
        },
    }
}

/// Reads the length of a body, if the same length with its bits inverted follows it.
#[tactic(auto, unfolding(crate::specs::Reading::header_at))]
fn header_of(bytes: &[u8]) -> Option<(usize, &[u8])>
    ensures part { IsPart (λ x. (x.0, x.1.now)) result (header_at bytes.now) }
    ensures length { IfSome result (λ x. x.0 ≤ MAX_BODY_LENGTH) }
{
    let (length, rest) = u32_at(bytes)?;
    let (inverted, rest) = u32_at(rest)?;
    if inverted != !length {
        return None;
    }
    let length = length as usize;
    if length < MIN_BODY_LENGTH {
        return None;
    }
    if MAX_BODY_LENGTH < length {
        return None;
    }
    Some((length, rest))
}

/// Returns true if the sum is that of the body.
fn is_sum_of(sum: &[u8], body: &[u8]) -> bool
    requires { length body.now < 2 ^ 32 }
    ensures { result ≡ bytes_eq sum.now (sum_at body.now) }
{
    let wanted = sum_of(body);
    sum == wanted.as_slice()
}

/// So many bytes behind their sum.
#[tactic(auto, unfolding(crate::specs::Reading::summed_at))]
fn summed_of(len: usize, bytes: &[u8]) -> Option<(&[u8], &[u8])>
    requires { len ≤ MAX_BODY_LENGTH }
    ensures { IsPart (λ x. (x.0.now, x.1.now)) result (summed_at len bytes.now) }
{
    let (sum, rest) = bytes_of(SUM_LENGTH, bytes)?;
    let (body, rest) = bytes_of(len, rest)?;
    if is_sum_of(sum, body) {
        Some((body, rest))
    } else {
        None
    }
}

/// A body behind its header and its sum.
#[tactic(auto, unfolding(crate::specs::Reading::sealed_at))]
fn sealed_of(bytes: &[u8]) -> Option<(&[u8], &[u8])>
    ensures { IsPart (λ x. (x.0.now, x.1.now)) result (sealed_at bytes.now) }
{
    let (length, rest) = header_of(bytes)?;
    summed_of(length, rest)
}

/// Returns true if the bytes end before an entry does.
#[tactic(auto, unfolding(crate::specs::Reading::is_cut_short, crate::specs::Reading::lacks_body))]
fn ends_early(bytes: &[u8]) -> bool
    ensures { result ≡ is_cut_short bytes.now }
{
    if bytes.len() < HEADER_LENGTH {
        return true;
    }
    match header_of(bytes) {
        None => false,
        Some((length, rest)) => rest.len() < SUM_LENGTH + length,
    }
}

/// The entry in front of the bytes, and the bytes behind it.
#[tactic(auto, unfolding(crate::specs::Reading::entry_at))]
pub fn entry_of(alloc: Global, bytes: &[u8]) -> Result<(Entry, &[u8]), EntryError>
    ensures { IsReadBy (λ x. (x.0, x.1.now)) (is_cut_short bytes.now) result (entry_at bytes.now) }
{
    if ends_early(bytes) {
        return Err(EntryError::CutShort);
    }
    match sealed_of(bytes) {
        None => Err(EntryError::Malformed),
        Some((body, rest)) => match body_of(alloc, body) {
            Ok(Some(entry)) => Ok((entry, rest)),
            Ok(None) => Err(EntryError::Malformed),
            Err(_) => Err(EntryError::OutOfMemory),
        },
    }
}
