//! The header before the entries in the file of a log. It tells what file this is, which log it has, with
//! which number the counter of its services begins, and how long the snapshot is with which its entries
//! begin.

ghost use Rattle.std.specs.Prelude.{◌≡◌, ◌≢◌, ◌<◌, ◌^◌, ◌++◌, ◌↔◌, ℕ, Ok, Err, IfOk, OnOk, IfSome, All, length};
ghost use Rattle.std.specs.Int.{w64};
ghost use Rattle.iceoryx2_data.specs.PartForm.{number};
ghost use Rattle.iceoryx2_data.specs.PartReading.{number_at, bytes_at, literal_at};
ghost use Rattle.iceoryx2_log.specs.Reading.{IsPart, kind_at};
ghost use Rattle.iceoryx2_file_log.specs.declared.header.HeaderError.TheVariants as errors;
ghost use Rattle.iceoryx2_file_log.specs.declared.header.Header as declared;
ghost use Rattle.iceoryx2_file_log.specs.Header.{IsForm, HasVersion, OneFormEach, OneHeaderEach, EachFormIsLong};
ghost use Rattle.iceoryx2_file_log.specs.Header.{IsHeader, front, summed, sum_of as sum_at};
ghost use Rattle.iceoryx2_file_log.specs.HeaderReading.{version_at, summed_in, fields_in, header_in, fault_of};

use sha1::Sha1;
use std::alloc::{AllocError, Global};

/// The number of bytes of the header.
pub const HEADER_LENGTH: usize = 48;

/// The number of bytes that the sum is of: all bytes before it.
pub const SUMMED_LENGTH: usize = 40;

/// The number of bytes of the sum, which are the first ones of the SHA-1 of the bytes before it.
pub const SUM_LENGTH: usize = 8;

/// The number of bytes of a log's name.
pub const NAME_LENGTH: usize = 16;

/// The version of the form of a log's file.
pub const VERSION: u8 = 2;

/// By what the file of a log is known, and the version.
const FRONT: [u8; 8] = *b"IOX2LOG\x02";

/// The lengths and the version as numbers, since a wrong constant would go with the form that cites it.
pub fn lengths()
    ensures header { HEADER_LENGTH ≡ 48 }
    ensures summed { SUMMED_LENGTH ≡ 40 }
    ensures sum { SUM_LENGTH ≡ 8 }
    ensures name { NAME_LENGTH ≡ 16 }
    ensures version { VERSION ≡ 2 }
{}

/// The name of a log, by which it differs from all others.
#[derive(Clone, Copy, Debug, PartialEq, Eq)]
pub struct LogName(pub [u8; NAME_LENGTH]);

/// The header of a log's file, which comes before the entries.
#[derive(Clone, Copy, Debug, PartialEq, Eq)]
pub struct Header {
    pub name: LogName,
    /// The number with which the counter of its services begins.
    pub counter: u64,
    /// The number of bytes of the entries with which the log begins: those of a compaction, and else
    /// none.
    pub snapshot_length: u64,
}

/// The reason why bytes are no header.
#[derive(Clone, Copy, Debug, PartialEq, Eq)]
pub enum HeaderError {
    /// The bytes don't begin as the file of a log does.
    NotALog,
    /// The bytes are of another version.
    AnotherVersion { found: u8 },
    /// The bytes begin as this version's do, and are the form of no header.
    Damaged,
}

/// The first bytes of the SHA-1 of the bytes.
fn sum_of(bytes: &[u8]) -> [u8; SUM_LENGTH]
    requires { length bytes.now < 2 ^ 32 }
    ensures { result ≡ sum_at bytes.now }
{
    let mut hasher = Sha1::new();
    hasher.update(bytes);
    let digest = hasher.finalize();
    let mut sum = [0; SUM_LENGTH];
    sum.copy_from_slice(&digest[..SUM_LENGTH]);
    sum
}

/// Each of them is a byte.
fn are_bytes(bytes: &[u8])
    ensures { All (λ b. b < 256) bytes.now }
{
    let _length = bytes.len();
}

/// The name is of so many bytes.
fn name_fits(name: &LogName)
    ensures length { length name.now.0 ≡ NAME_LENGTH }
    ensures bytes { All (λ b. b < 256) name.now.0 }
{
    let _length = name.0.as_slice().len();
    are_bytes(name.0.as_slice());
}

/// It is within the limits of its types.
fn fits(header: &Header)
    ensures { IsHeader header.now }
{
    name_fits(&header.name);
    let _counter = header.counter;
    let _snapshot_length = header.snapshot_length;
}

fn put_numbers(out: &mut Vec<u8>, header: &Header) -> Result<(), AllocError>
    ensures { OnOk result (out.new.items
        ≡ out.old.items ++ (number header.now.counter ++ number header.now.snapshot_length)) }
{
    out.extend_from_slice(&header.counter.to_be_bytes())?;
    out.extend_from_slice(&header.snapshot_length.to_be_bytes())
}

fn put_summed(out: &mut Vec<u8>, header: &Header) -> Result<(), AllocError>
    ensures { OnOk result (out.new.items ≡ out.old.items ++ summed header.now) }
{
    out.extend_from_slice(&FRONT)?;
    out.extend_from_slice(&header.name.0)?;
    put_numbers(out, header)
}

/// Returns the byte form of the header.
pub fn encode(alloc: Global, header: &Header) -> Result<Vec<u8>, AllocError>
    ensures { IfOk result (λ bytes. IsForm header.now bytes.items) }
{
    fits(header);
    let mut out = Vec::with_capacity(alloc, HEADER_LENGTH)?;
    put_summed(&mut out, header)?;
    let sum = sum_of(&out);
    out.extend_from_slice(&sum)?;
    Ok(out)
}

/// Eight bytes, as a number.
fn u64_at(bytes: &[u8]) -> Option<(u64, &[u8])>
    ensures { IsPart (λ x. (x.0, x.1.now)) result (number_at w64 bytes.now) }
{
    if bytes.len() < 8 {
        return None;
    }
    let (front, rest) = bytes.split_at(8);
    let number = u64::from_be_bytes([
        front[0], front[1], front[2], front[3], front[4], front[5], front[6], front[7],
    ]);
    Some((number, rest))
}

/// So many bytes.
fn bytes_of(len: usize, bytes: &[u8]) -> Option<(&[u8], &[u8])>
    ensures parts { IsPart (λ x. (x.0.now, x.1.now)) result (bytes_at len bytes.now) }
    ensures front { IfSome result (λ x. length x.0.now ≡ len) }
{
    if bytes.len() < len {
        return None;
    }
    Some(bytes.split_at(len))
}

/// Just these bytes.
#[tactic(auto, unfolding(iceoryx2_data::specs::PartReading::literal_at))]
fn literal_of<'a>(literal: &[u8], bytes: &'a [u8]) -> Option<&'a [u8]>
    ensures { IsPart (λ x. (tt, x.now)) result (literal_at literal.now bytes.now) }
{
    let (front, rest) = bytes_of(literal.len(), bytes)?;
    if front != literal {
        return None;
    }
    Some(rest)
}

/// One byte.
#[tactic(auto, unfolding(iceoryx2_log::specs::Reading::kind_at))]
fn byte_of(bytes: &[u8]) -> Option<(u8, &[u8])>
    ensures { IsPart (λ x. (x.0, x.1.now)) result (kind_at bytes.now) }
{
    match bytes {
        [] => None,
        [byte, rest @ ..] => Some((*byte, rest)),
    }
}

/// Reads the version, which follows the magic.
#[tactic(auto, unfolding(crate::specs::HeaderReading::version_at))]
fn version_of(bytes: &[u8]) -> Option<u8>
    ensures { IsPart (λ v. v) result (version_at bytes.now) }
{
    let rest = literal_of(b"IOX2LOG", bytes)?;
    let (version, _) = byte_of(rest)?;
    Some(version)
}

/// Returns the bytes before their sum.
#[tactic(auto, unfolding(crate::specs::HeaderReading::summed_in))]
fn summed_of(bytes: &[u8]) -> Option<&[u8]>
    ensures { IsPart (λ x. x.now) result (summed_in bytes.now) }
{
    let (summed, sum) = bytes_of(SUMMED_LENGTH, bytes)?;
    let wanted = sum_of(summed);
    if sum != wanted.as_slice() {
        return None;
    }
    Some(summed)
}

/// The name and the numbers.
#[tactic(auto, unfolding(crate::specs::HeaderReading::fields_in))]
fn fields_of(bytes: &[u8]) -> Option<Header>
    ensures { IsPart (λ h. h) result (fields_in bytes.now) }
{
    let (name, rest) = bytes_of(NAME_LENGTH, bytes)?;
    let (counter, rest) = u64_at(rest)?;
    let (snapshot_length, _) = u64_at(rest)?;
    let mut bytes = [0; NAME_LENGTH];
    bytes.copy_from_slice(name);
    Some(Header {
        name: LogName(bytes),
        counter,
        snapshot_length,
    })
}

/// Returns the header whose form the bytes are.
#[tactic(auto, unfolding(crate::specs::HeaderReading::header_in))]
fn header_of(bytes: &[u8]) -> Option<Header>
    ensures { IsPart (λ h. h) result (header_in bytes.now) }
{
    let summed = summed_of(bytes)?;
    let fields = literal_of(&FRONT, summed)?;
    fields_of(fields)
}

/// Returns the reason why bytes that are the form of no header aren't.
fn fault(bytes: &[u8]) -> HeaderError
    ensures { result ≡ fault_of (version_at bytes.now) }
{
    match version_of(bytes) {
        None => HeaderError::NotALog,
        Some(found) => {
            if found == VERSION {
                HeaderError::Damaged
            } else {
                HeaderError::AnotherVersion { found }
            }
        }
    }
}

/// Returns the header whose byte form the bytes are.
pub fn decode(bytes: &[u8]) -> Result<Header, HeaderError>
    ensures header { (h : declared.Header) → (result ≡ Ok h) ↔ IsForm h bytes.now }
    ensures not_a_log { (result ≡ Err errors.NotALog) ↔ ((version : ℕ) → HasVersion version bytes.now → ⊥) }
    ensures another_version { (found : ℕ) → (result ≡ Err (errors.AnotherVersion found))
        ↔ (HasVersion found bytes.now × (found ≢ VERSION)) }
{
    match header_of(bytes) {
        Some(header) => Ok(header),
        None => Err(fault(bytes)),
    }
}

/// The laws of the byte form of a header.
pub fn laws_of_headers()
    ensures only_form { OneFormEach }
    ensures only_header { OneHeaderEach }
    ensures long { EachFormIsLong }
{}
