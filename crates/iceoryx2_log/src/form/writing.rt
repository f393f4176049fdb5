//! Writing an entry, part by part, at the end of what was written.

ghost use Rattle.std.specs.Prelude.{◌≡◌, ◌<◌, ◌^◌, ◌↔◌, ◌++◌, ◌+◌, Err, IfOk, OnOk, IsTrue, All, length};
ghost use Rattle.iceoryx2_log.specs.declared.form.writing.EncodeError.TheVariants.{OutOfMemory};
ghost use Rattle.iceoryx2_data.specs.PartForm as part;
ghost use Rattle.iceoryx2_log.specs.Form as form;

use super::{HEADER_LENGTH, MAX_BODY_LENGTH, MIN_BODY_LENGTH, SUM_LENGTH};
use crate::entry::{Entry, Operation};
use sha1::Sha1;
use std::alloc::{AllocError, Global};
use std::error::Error;
use std::fmt;

/// The reason why an entry was not written.
#[derive(Clone, Copy, Debug, PartialEq, Eq)]
pub enum EncodeError {
    /// The entry's body is longer than the longest.
    TooLong,
    /// There was no memory for the bytes.
    OutOfMemory,
}

impl fmt::Display for EncodeError {
    ghost use Rattle.std.specs.Prelude.{Some};
    ghost use Rattle.iceoryx2_log.specs.Errors.{encode_error_text};

    ghost output = { λ error. Some (encode_error_text error) };

    fn fmt<W: fmt::Write>(&self, f: &mut fmt::Formatter<W>) -> fmt::Result {
        match self {
            EncodeError::TooLong => write!(f, "an entry's body has at most 1048576 bytes"),
            EncodeError::OutOfMemory => write!(f, "out of memory"),
        }
    }
}

impl Error for EncodeError {}

impl From<AllocError> for EncodeError {
    ghost from_gives = { λ _ e. e ≡ OutOfMemory };

    fn from(_: AllocError) -> Self {
        Self::OutOfMemory
    }
}

fn put_number(out: &mut Vec<u8>, number: u64) -> Result<(), AllocError>
    ensures { OnOk result (out.new.items ≡ out.old.items ++ part.number number) }
{
    out.extend_from_slice(&number.to_be_bytes())
}

/// Returns the byte of an operation's kind.
fn kind(operation: &Operation) -> u8
    ensures { result ≡ form.kind operation.now }
{
    match operation {
        Operation::MakeTag => 1,
        Operation::RemoveTag => 2,
        Operation::Lock { .. } => 3,
        Operation::MakeSegment { .. } => 4,
        Operation::RemoveSegment => 5,
        Operation::RemoveDescription => 6,
        Operation::Publish { .. } => 7,
        Operation::OpenSegment { .. } => 8,
        Operation::Release { .. } => 9,
        Operation::Spend { .. } => 10,
        Operation::Moved => 11,
    }
}

/// Writes the operation's numbers in order, and a description's bytes.
fn put_details(out: &mut Vec<u8>, operation: &Operation) -> Result<(), AllocError>
    ensures { OnOk result (out.new.items ≡ out.old.items ++ form.details operation.now) }
{
    match operation {
        Operation::MakeTag
        | Operation::RemoveTag
        | Operation::RemoveSegment
        | Operation::RemoveDescription => Ok(()),
        Operation::Moved => Ok(()),
        Operation::Lock { number } => put_number(out, *number),
        Operation::Spend { number } => put_number(out, *number),
        Operation::MakeSegment { number, max_nodes } => put_two(out, *number, *max_nodes),
        Operation::Publish { number, bytes } => put_bytes(out, *number, bytes.as_slice()),
        Operation::OpenSegment { number, ticket } => put_two(out, *number, *ticket),
        Operation::Release { ticket, number } => put_two(out, *ticket, *number),
    }
}

fn put_two(out: &mut Vec<u8>, first: u64, second: u64) -> Result<(), AllocError>
    ensures { OnOk result (out.new.items ≡ out.old.items ++ part.number first ++ part.number second) }
{
    put_number(out, first)?;
    put_number(out, second)
}

fn put_bytes(out: &mut Vec<u8>, number: u64, bytes: &[u8]) -> Result<(), AllocError>
    ensures { OnOk result (out.new.items ≡ out.old.items ++ part.number number ++ bytes.now) }
{
    put_number(out, number)?;
    out.extend_from_slice(bytes)
}

/// Writes the kind, the node, the hash, and the operation's details.
fn put_body(out: &mut Vec<u8>, entry: &Entry) -> Result<(), AllocError>
    ensures { OnOk result (out.new.items ≡ out.old.items ++ form.body entry.now) }
{
    out.push(kind(&entry.operation))?;
    put_number(out, entry.node)?;
    out.extend_from_slice(entry.hash.as_bytes())?;
    put_details(out, &entry.operation)
}

/// Returns true if a body with this operation is longer than the longest.
fn is_too_long(operation: &Operation) -> bool
    ensures { IsTrue result ↔ (MAX_BODY_LENGTH < MIN_BODY_LENGTH + length (form.details operation.now)) }
{
    match operation {
        Operation::Publish { bytes, .. } => {
            MAX_BODY_LENGTH - (MIN_BODY_LENGTH + 8) < bytes.as_slice().len()
        }
        Operation::MakeTag => false,
        Operation::RemoveTag => false,
        Operation::Lock { .. } => false,
        Operation::MakeSegment { .. } => false,
        Operation::RemoveSegment => false,
        Operation::RemoveDescription => false,
        Operation::OpenSegment { .. } => false,
        Operation::Release { .. } => false,
        Operation::Spend { .. } => false,
        Operation::Moved => false,
    }
}

/// Each of them is a byte.
fn are_bytes(bytes: &[u8])
    ensures { All (λ b. b < 256) bytes.now }
{
    let _length = bytes.len();
}

/// Its numbers are within the limits of their types.
fn operation_fits(operation: &Operation)
    ensures { form.IsOperation operation.now }
{
    match operation {
        Operation::MakeTag
        | Operation::RemoveTag
        | Operation::RemoveSegment
        | Operation::RemoveDescription => {}
        Operation::Moved => {}
        Operation::Lock { number } => {
            let _number = *number;
        }
        Operation::Spend { number } => {
            let _number = *number;
        }
        Operation::MakeSegment { number, max_nodes } => {
            let _numbers = (*number, *max_nodes);
        }
        Operation::Publish { number, bytes } => {
            let _number = *number;
            are_bytes(bytes.as_slice());
        }
        Operation::OpenSegment { number, ticket } => {
            let _numbers = (*number, *ticket);
        }
        Operation::Release { ticket, number } => {
            let _numbers = (*ticket, *number);
        }
    }
}

/// It is within the limits of its types.
fn fits(entry: &Entry)
    ensures { form.IsEntry entry.now }
{
    let _node = entry.node;
    let _hash = entry.hash.as_bytes();
    operation_fits(&entry.operation);
}

/// The first bytes of the SHA-1 of length and body.
pub fn sum_of(body: &[u8]) -> [u8; SUM_LENGTH]
    requires { length body.now < 2 ^ 32 }
    ensures { result ≡ form.sum_of body.now }
{
    let mut hasher = Sha1::new();
    hasher.update(&(body.len() as u32).to_be_bytes());
    hasher.update(body);
    let digest = hasher.finalize();
    let mut sum = [0; SUM_LENGTH];
    sum.copy_from_slice(&digest[..SUM_LENGTH]);
    sum
}

/// Writes the length, the same with its bits inverted, the sum, and the body.
fn put_sealed(out: &mut Vec<u8>, body: &[u8]) -> Result<(), AllocError>
    requires { length body.now < 2 ^ 32 }
    ensures { OnOk result (out.new.items ≡ out.old.items ++ form.sealed body.now) }
{
    let length = body.len() as u32;
    out.extend_from_slice(&length.to_be_bytes())?;
    out.extend_from_slice(&(!length).to_be_bytes())?;
    out.extend_from_slice(&sum_of(body))?;
    out.extend_from_slice(body)
}

/// Returns the byte form of the entry. `TooLong` if its body is longer than `MAX_BODY_LENGTH`; this is
/// tested first. `OutOfMemory` if there was no memory for the bytes.
pub fn encode(alloc: Global, entry: &Entry) -> Result<Vec<u8>, EncodeError>
    ensures form { IfOk result (λ bytes. form.IsForm entry.now bytes.items) }
    ensures too_long { (result ≡ Err EncodeError.TooLong) ↔ (MAX_BODY_LENGTH < length (form.body entry.now)) }
{
    fits(entry);
    if is_too_long(&entry.operation) {
        return Err(EncodeError::TooLong);
    }
    let mut body = Vec::new(alloc);
    put_body(&mut body, entry)?;
    let mut out = Vec::with_capacity(alloc, HEADER_LENGTH + SUM_LENGTH + body.len())?;
    put_sealed(&mut out, &body)?;
    Ok(out)
}
