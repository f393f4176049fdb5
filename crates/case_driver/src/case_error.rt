//! The error of a line that can't be carried out.

use std::alloc::{AllocError, AllocFailed};

/// A line isn't understood, or there was no memory.
#[derive(Clone, Copy)]
pub struct CaseError;

impl From<AllocError> for CaseError {
    fn from(_error: AllocError) -> CaseError {
        CaseError
    }
}

impl<T: Drop> From<AllocFailed<T>> for CaseError {
    fn from(_failed: AllocFailed<T>) -> CaseError {
        CaseError
    }
}

/// Writes the answer to a question, or that a line is wrong. Only questions have an answer.
pub fn write_answer(
    done: Result<(), CaseError>,
    line: &str,
    answer: Option<&str>,
    text: &mut String,
) -> Result<(), AllocError> {
    match (done, answer) {
        (Ok(()), None) => Ok(()),
        (Ok(()), Some(answer)) => {
            let answer = answer.trim_end();
            writeln!(text, "{answer}")
        }
        (Err(CaseError), _) => writeln!(text, "wrong: {line}"),
    }
}
