//! A row of the log's table, as the server tells it: its number, the sum of all up to it, and the bytes of its entry.

ghost use Rattle.std.specs.Prelude.{◌≡◌, ◌++◌, ◌∷◌, IfOk, IfSome, IsTrue, codes, decimal, string_bytes};
ghost use Rattle.iceoryx2_postgres_log.specs.Rows.{IsRow, IsPlace, place_text};

use crate::line::{Line, behind};
use hex::FromHexError;
use std::alloc::{AllocError, Global};

/// The number of characters of the sum of a row and all rows before it: a SHA-256 in hex.
pub const SUM_LENGTH: usize = 64;

/// A row, by its number, with its place: the number and the sum, as the server tells them.
#[derive(Debug)]
pub struct Row {
    pub number: u64,
    pub place: Line,
    pub form: Line,
}

// Written out, so that a proof of what lets one go doesn't take its fields apart.
impl Drop for Row {
    fn drop(self) {
        let Row {
            number: _,
            place: _,
            form: _,
        } = self;
    }
}

impl Row {
    pub fn into_place(self) -> Line
        ensures { result ≡ self.place }
    {
        let Row {
            number: _,
            place,
            form: _,
        } = self;
        place
    }
}

/// Returns the text before the sum in the place of this number.
pub fn place_front(alloc: Global, number: u64) -> Result<String, AllocError>
    ensures { IfOk result (λ text. string_bytes text ≡ decimal number ++ codes " ") }
{
    format!(in alloc; "{number} ")
}

/// Returns true if the text is a place of this number.
pub fn is_place(alloc: Global, number: u64, text: &[u8]) -> Result<bool, AllocError>
    ensures { IfOk result (λ is. IsTrue is → IsPlace number text.now) }
{
    let front = place_front(alloc, number)?;
    match behind(text, front.as_bytes()) {
        None => Ok(false),
        Some(sum) => Ok(sum.len() == SUM_LENGTH),
    }
}

/// Returns the row of this number, if the line tells it.
pub fn row_of(alloc: Global, number: u64, line: &[u8]) -> Result<Option<Row>, AllocError>
    ensures { IfOk result (λ found. IfSome found (IsRow number line.now)) }
{
    let front = place_front(alloc, number)?;
    let Some(rest) = behind(line, front.as_bytes()) else {
        return Ok(None);
    };
    let Some((sum, after)) = rest.split_at_checked(SUM_LENGTH) else {
        return Ok(None);
    };
    let Some(digits) = behind(after, b" ") else {
        return Ok(None);
    };
    let form = match hex::decode(alloc, digits) {
        Ok(form) => form,
        Err(FromHexError::OutOfMemory) => return Err(AllocError),
        Err(_) => return Ok(None),
    };
    let mut place = Vec::from_slice(alloc, front.as_bytes())?;
    place.extend_from_slice(sum)?;
    Ok(Some(Row {
        number,
        place: Line::new(place),
        form: Line::new(form),
    }))
}
