//! Questions about the byte form.

use crate::case_error::CaseError;
use crate::descriptions::bytes_in;
use iceoryx2_data::bytes::{DecodeError, decode, encode};
use std::alloc::Global;
use test_support::terms::write_service;

/// Writes in terms the description that these digits encode, or `Malformed`.
pub fn write_decoded(alloc: Global, digits: &str, text: &mut String) -> Result<(), CaseError> {
    let bytes = bytes_in(alloc, digits)?;
    match decode(alloc, &bytes) {
        Ok(description) => Ok(write_service(alloc, &description, text)?),
        Err(DecodeError::Malformed) => Ok(text.push_str("Malformed")?),
        Err(DecodeError::OutOfMemory) => Err(CaseError),
    }
}

/// Writes how many proper prefixes of these bytes encode a description.
pub fn write_fronts(alloc: Global, digits: &str, text: &mut String) -> Result<(), CaseError> {
    let bytes = bytes_in(alloc, digits)?;
    let mut forms = 0u64;
    for length in 0..bytes.len() {
        match form_of(alloc, bytes.get(..length).unwrap_or(&[]))? {
            Form::Malformed => {}
            Form::Own | Form::Other => forms = forms.saturating_add(1),
        }
    }
    let fronts = bytes.len();
    Ok(write!(text, "{forms} of {fronts}")?)
}

/// Flips bits of the byte at a place. A second call with the same bits restores the byte.
fn change(bytes: &mut Vec<u8>, place: usize, bits: u8) {
    if let Some(byte) = bytes.get_mut(place) {
        *byte ^= bits;
    }
}

/// What bytes are.
#[derive(Clone, Copy)]
enum Form {
    Malformed,
    /// They encode a description, whose encoding they are.
    Own,
    /// They encode a description that has another encoding.
    Other,
}

/// Returns what bytes are. `CaseError` if there is no memory to find out.
fn form_of(alloc: Global, bytes: &[u8]) -> Result<Form, CaseError> {
    match decode(alloc, bytes) {
        Ok(description) => {
            let again = encode(alloc, &description)?;
            Ok(if again.as_slice() == bytes {
                Form::Own
            } else {
                Form::Other
            })
        }
        Err(DecodeError::Malformed) => Ok(Form::Malformed),
        Err(DecodeError::OutOfMemory) => Err(CaseError),
    }
}

/// Writes how many changes of one byte leave bytes that encode no description, and how many leave bytes that encode one
/// and are its encoding.
pub fn write_changed(alloc: Global, digits: &str, text: &mut String) -> Result<(), CaseError> {
    let mut bytes = bytes_in(alloc, digits)?;
    let changes = bytes.len().saturating_mul(255);
    let (mut malformed, mut own) = (0u64, 0u64);
    for number in 0..changes {
        let (place, bits) = (number / 255, (number % 255) as u8 + 1);
        change(&mut bytes, place, bits);
        match form_of(alloc, &bytes)? {
            Form::Malformed => malformed = malformed.saturating_add(1),
            Form::Own => own = own.saturating_add(1),
            Form::Other => {}
        }
        change(&mut bytes, place, bits);
    }
    Ok(write!(
        text,
        "{malformed} of {changes} malformed, {own} encoded again"
    )?)
}
