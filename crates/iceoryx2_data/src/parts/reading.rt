//! Reads single parts from left to right. Each function returns the part's value and the bytes after
//! the part.
//!
//! Each function returns `Malformed` if the bytes don't begin with such a part. A function that copies
//! a text returns `OutOfMemory` if there was no memory for the copy.

ghost use Rattle.std.specs.Prelude.{◌≡◌, true, false, length, string_bytes};
ghost use Rattle.std.specs.Prelude.{IfOk, MatchResult};
ghost use Rattle.std.specs.Int.{w16, w32, w64};
ghost use Rattle.std.specs.Str.{is_utf8};
ghost use Rattle.iceoryx2_types.specs.Texts.{IsText};
ghost use Rattle.iceoryx2_data.specs.declared.parts.reading.DecodeError.TheVariants.{Malformed, OutOfMemory};
ghost use Rattle.iceoryx2_data.specs.PartReading.{IsReadBy, number_at, bytes_at, literal_at, text_at, truth_at, option_at};
ghost use Rattle.iceoryx2_data.specs.PartReading.{span_at, deadline_at, variant_at, detail_at, message_at};

use iceoryx2_description::event::{Deadline, EventId};
use iceoryx2_description::time::{Duration, Time};
use iceoryx2_types::types::{
    MAX_TYPE_NAME_LENGTH, MIN_TYPE_NAME_LENGTH, MessageTypeDetails, TypeDetail, TypeDetailError,
    TypeVariant,
};
use std::alloc::{AllocError, Global};
use std::error::Error;
use std::fmt;

/// Why bytes give no description.
#[derive(Clone, Copy, Debug, PartialEq, Eq)]
pub enum DecodeError {
    /// The bytes are the byte form of no description.
    Malformed,
    /// There was no memory for the description.
    OutOfMemory,
}

impl fmt::Display for DecodeError {
    ghost use Rattle.std.specs.Prelude.{Some};
    ghost use Rattle.iceoryx2_data.specs.Errors.{decode_error_text};

    ghost output = { λ error. Some (decode_error_text error) };

    fn fmt<W: fmt::Write>(&self, f: &mut fmt::Formatter<W>) -> fmt::Result {
        match self {
            DecodeError::Malformed => write!(f, "the bytes are no description"),
            DecodeError::OutOfMemory => write!(f, "out of memory"),
        }
    }
}

impl Error for DecodeError {}

impl From<AllocError> for DecodeError {
    ghost from_gives = { λ _ e. e ≡ OutOfMemory };

    fn from(_: AllocError) -> Self {
        Self::OutOfMemory
    }
}

/// Reads two bytes as a number.
pub fn u16_at(bytes: &[u8]) -> Result<(u16, &[u8]), DecodeError>
    ensures { IsReadBy (λ x. (x.0, x.1.now)) result (number_at w16 bytes.now) }
{
    if bytes.len() < 2 {
        return Err(DecodeError::Malformed);
    }
    let (front, rest) = bytes.split_at(2);
    let number = u16::from_be_bytes([front[0], front[1]]);
    Ok((number, rest))
}

/// Reads four bytes as a number.
fn u32_at(bytes: &[u8]) -> Result<(u32, &[u8]), DecodeError>
    ensures { IsReadBy (λ x. (x.0, x.1.now)) result (number_at w32 bytes.now) }
{
    if bytes.len() < 4 {
        return Err(DecodeError::Malformed);
    }
    let (front, rest) = bytes.split_at(4);
    let number = u32::from_be_bytes([front[0], front[1], front[2], front[3]]);
    Ok((number, rest))
}

/// Reads eight bytes as a number.
pub fn u64_at(bytes: &[u8]) -> Result<(u64, &[u8]), DecodeError>
    ensures { IsReadBy (λ x. (x.0, x.1.now)) result (number_at w64 bytes.now) }
{
    if bytes.len() < 8 {
        return Err(DecodeError::Malformed);
    }
    let (front, rest) = bytes.split_at(8);
    let number = u64::from_be_bytes([
        front[0], front[1], front[2], front[3], front[4], front[5], front[6], front[7],
    ]);
    Ok((number, rest))
}

/// Reads `len` bytes.
pub fn bytes_of(len: usize, bytes: &[u8]) -> Result<(&[u8], &[u8]), DecodeError>
    ensures parts { IsReadBy (λ x. (x.0.now, x.1.now)) result (bytes_at len bytes.now) }
    ensures front { IfOk result (λ x. length x.0.now ≡ len) }
{
    if bytes.len() < len {
        return Err(DecodeError::Malformed);
    }
    Ok(bytes.split_at(len))
}

/// Reads exactly the bytes of `literal`.
#[tactic(auto, unfolding(crate::specs::PartReading::literal_at))]
pub fn literal_of<'a>(literal: &[u8], bytes: &'a [u8]) -> Result<&'a [u8], DecodeError>
    ensures { IsReadBy (λ x. (tt, x.now)) result (literal_at literal.now bytes.now) }
{
    let (front, rest) = bytes_of(literal.len(), bytes)?;
    if front != literal {
        return Err(DecodeError::Malformed);
    }
    Ok(rest)
}

/// Returns the bytes as a text, if they are UTF-8.
#[tactic(auto, using(iceoryx2_description::proofs::Utf8::is_text, iceoryx2_description::proofs::Utf8::not_utf8))]
fn utf8_of(bytes: &[u8]) -> Result<&str, DecodeError>
    ensures { MatchResult result
        (λ s. (s.now ≡ bytes.now) × (is_utf8 bytes.now ≡ true))
        (λ e. (e ≡ Malformed) × (is_utf8 bytes.now ≡ false)) }
{
    match std::str::from_utf8(bytes) {
        Ok(text) => Ok(text),
        Err(_) => Err(DecodeError::Malformed),
    }
}

/// Reads a text of `lo` to `hi` bytes, without a copy.
#[tactic(auto, unfolding(crate::specs::PartReading::text_at))]
fn str_of(lo: usize, hi: usize, bytes: &[u8]) -> Result<(&str, &[u8]), DecodeError>
    ensures text { IsReadBy (λ x. (x.0.now, x.1.now)) result (text_at lo hi bytes.now) }
    ensures limits { IfOk result (λ x. IsText lo hi x.0.now) }
{
    let (len, rest) = u16_at(bytes)?;
    let len = len as usize;
    if len < lo {
        return Err(DecodeError::Malformed);
    }
    if hi < len {
        return Err(DecodeError::Malformed);
    }
    let (front, rest) = bytes_of(len, rest)?;
    Ok((utf8_of(front)?, rest))
}

/// Reads a text of `lo` to `hi` bytes, and copies it.
pub fn text_of(
    alloc: Global,
    lo: usize,
    hi: usize,
    bytes: &[u8],
) -> Result<(String, &[u8]), DecodeError>
    ensures text { IsReadBy (λ x. (string_bytes x.0, x.1.now)) result (text_at lo hi bytes.now) }
    ensures limits { IfOk result (λ x. IsText lo hi (string_bytes x.0)) }
{
    let (text, rest) = str_of(lo, hi, bytes)?;
    Ok((String::from_str(alloc, text)?, rest))
}

/// Reads a byte that is 0 or 1.
#[tactic(auto, unfolding(crate::specs::PartReading::truth_at))]
pub fn truth_of(bytes: &[u8]) -> Result<(bool, &[u8]), DecodeError>
    ensures { IsReadBy (λ x. (x.0, x.1.now)) result (truth_at bytes.now) }
{
    match bytes {
        [0, rest @ ..] => Ok((false, rest)),
        [1, rest @ ..] => Ok((true, rest)),
        [] => Err(DecodeError::Malformed),
        [_, ..] => Err(DecodeError::Malformed),
    }
}

/// Reads the number of an event, if there is one.
#[tactic(auto, unfolding(crate::specs::PartReading::option_at))]
pub fn id_of(bytes: &[u8]) -> Result<(Option<EventId>, &[u8]), DecodeError>
    ensures { IsReadBy (λ x. (x.0, x.1.now)) result (option_at (number_at w64) bytes.now) }
{
    match bytes {
        [] => Err(DecodeError::Malformed),
        [0, rest @ ..] => Ok((None, rest)),
        [1, rest @ ..] => {
            let (value, rest) = u64_at(rest)?;
            Ok((Some(EventId::new(value)), rest))
        }
        [_, ..] => Err(DecodeError::Malformed),
    }
}

#[tactic(auto, unfolding(crate::specs::PartReading::span_at))]
fn duration_of(bytes: &[u8]) -> Result<(Duration, &[u8]), DecodeError>
    ensures { IsReadBy (λ x. (x.0, x.1.now)) result (span_at bytes.now) }
{
    let (seconds, rest) = u64_at(bytes)?;
    let (nanoseconds, rest) = u32_at(rest)?;
    match Duration::new(seconds, nanoseconds) {
        Some(duration) => Ok((duration, rest)),
        None => Err(DecodeError::Malformed),
    }
}

#[tactic(auto, unfolding(crate::specs::PartReading::span_at))]
fn time_of(bytes: &[u8]) -> Result<(Time, &[u8]), DecodeError>
    ensures { IsReadBy (λ x. (x.0, x.1.now)) result (span_at bytes.now) }
{
    let (seconds, rest) = u64_at(bytes)?;
    let (nanoseconds, rest) = u32_at(rest)?;
    match Time::new(seconds, nanoseconds) {
        Some(time) => Ok((time, rest)),
        None => Err(DecodeError::Malformed),
    }
}

#[tactic(auto, unfolding(crate::specs::PartReading::deadline_at))]
fn deadline_of(bytes: &[u8]) -> Result<(Deadline, &[u8]), DecodeError>
    ensures { IsReadBy (λ x. (x.0, x.1.now)) result (deadline_at bytes.now) }
{
    let (value, rest) = match duration_of(bytes) {
        Err(error) => return Err(error),
        Ok(found) => found,
    };
    let (creation_time, rest) = match time_of(rest) {
        Err(error) => return Err(error),
        Ok(found) => found,
    };
    Ok((
        Deadline {
            value,
            creation_time,
        },
        rest,
    ))
}

/// Reads a deadline, if there is one.
#[tactic(auto, unfolding(crate::specs::PartReading::option_at))]
pub fn optional_deadline_of(bytes: &[u8]) -> Result<(Option<Deadline>, &[u8]), DecodeError>
    ensures { IsReadBy (λ x. (x.0, x.1.now)) result (option_at deadline_at bytes.now) }
{
    match bytes {
        [] => Err(DecodeError::Malformed),
        [0, rest @ ..] => Ok((None, rest)),
        [1, rest @ ..] => match deadline_of(rest) {
            Err(error) => Err(error),
            Ok((deadline, rest)) => Ok((Some(deadline), rest)),
        },
        [_, ..] => Err(DecodeError::Malformed),
    }
}

/// Reads whether a message holds one value or a number of them: a byte that is 0 or 1.
#[tactic(auto, unfolding(crate::specs::PartReading::variant_at))]
fn variant_of(bytes: &[u8]) -> Result<(TypeVariant, &[u8]), DecodeError>
    ensures { IsReadBy (λ x. (x.0, x.1.now)) result (variant_at bytes.now) }
{
    match bytes {
        [0, rest @ ..] => Ok((TypeVariant::FixedSize, rest)),
        [1, rest @ ..] => Ok((TypeVariant::Dynamic, rest)),
        [] => Err(DecodeError::Malformed),
        [_, ..] => Err(DecodeError::Malformed),
    }
}

/// Reads the details of a type. `Malformed` also if the type's name does not have 1 to 256 bytes, or
/// its alignment is not a power of two.
#[tactic(auto, unfolding(crate::specs::PartReading::detail_at))]
fn detail_of(alloc: Global, bytes: &[u8]) -> Result<(TypeDetail, &[u8]), DecodeError>
    ensures { IsReadBy (λ x. (x.0, x.1.now)) result (detail_at bytes.now) }
{
    let (variant, rest) = variant_of(bytes)?;
    let (name, rest) = str_of(MIN_TYPE_NAME_LENGTH, MAX_TYPE_NAME_LENGTH, rest)?;
    let (size, rest) = u64_at(rest)?;
    let (alignment, rest) = u64_at(rest)?;
    match TypeDetail::new(alloc, variant, name, size, alignment) {
        Ok(detail) => Ok((detail, rest)),
        Err(error) => match error {
            TypeDetailError::NameLength => Err(DecodeError::Malformed),
            TypeDetailError::Alignment => Err(DecodeError::Malformed),
            TypeDetailError::OutOfMemory => Err(DecodeError::OutOfMemory),
        },
    }
}

/// Reads the three types of a message: header, user header and payload.
#[tactic(auto, unfolding(crate::specs::PartReading::message_at))]
pub fn message_of(alloc: Global, bytes: &[u8]) -> Result<(MessageTypeDetails, &[u8]), DecodeError>
    ensures { IsReadBy (λ x. (x.0, x.1.now)) result (message_at bytes.now) }
{
    let (header, rest) = detail_of(alloc, bytes)?;
    let (user_header, rest) = detail_of(alloc, rest)?;
    let (payload, rest) = detail_of(alloc, rest)?;
    let message = MessageTypeDetails {
        header,
        user_header,
        payload,
    };
    Ok((message, rest))
}
