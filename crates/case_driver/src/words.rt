//! The words of a line.

use crate::case_error::CaseError;
use std::alloc::Global;

/// Returns the first word of a text and the rest, both trimmed. The rest is empty if there is no second word.
pub fn first_word(text: &str) -> (&str, &str) {
    let text = text.trim();
    match text.split_once(' ') {
        Some((word, rest)) => (word, rest.trim()),
        None => (text, ""),
    }
}

/// Returns the number that a word states.
pub fn number(word: &str) -> Result<u64, CaseError> {
    match word.parse::<u64>() {
        Ok(number) => Ok(number),
        Err(_) => Err(CaseError),
    }
}

/// Returns the numbers of a text. A dash is ignored.
pub fn numbers(alloc: Global, text: &str) -> Result<Vec<u64>, CaseError> {
    let mut numbers = Vec::new(alloc);
    for word in text.split_whitespace() {
        if word != "-" {
            numbers.push(number(word)?)?;
        }
    }
    Ok(numbers)
}

/// Returns what the first row of this name means.
pub fn named<T: Copy>(rows: &[(&str, T)], word: &str) -> Result<T, CaseError> {
    for (name, meant) in rows {
        if *name == word {
            return Ok(*meant);
        }
    }
    Err(CaseError)
}
