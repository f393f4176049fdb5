//! The entries that nodes of other processes append to the log of a journal.

use crate::case_error::CaseError;
use crate::descriptions::Descriptions;
use crate::words::{first_word, numbers};
use iceoryx2_log::entry::{FormBytes, Operation};
use std::alloc::Global;

/// Returns the operation of this name with its numbers. Numbers that it doesn't take are ignored.
fn operation_of(word: &str, number: u64, second: u64) -> Result<Operation, CaseError> {
    match word {
        "make_tag" => Ok(Operation::MakeTag),
        "remove_tag" => Ok(Operation::RemoveTag),
        "lock" => Ok(Operation::Lock { number }),
        "make_segment" => Ok(Operation::MakeSegment {
            number,
            max_nodes: second,
        }),
        "remove_segment" => Ok(Operation::RemoveSegment),
        "remove_description" => Ok(Operation::RemoveDescription),
        "open_segment" => Ok(Operation::OpenSegment {
            number,
            ticket: second,
        }),
        "release" => Ok(Operation::Release {
            ticket: number,
            number: second,
        }),
        "spend" => Ok(Operation::Spend { number }),
        _ => Err(CaseError),
    }
}

/// Returns the number at a place, or zero if there is none.
fn number_at(numbers: &[u64], place: usize) -> u64 {
    match numbers.get(place) {
        Some(number) => *number,
        None => 0,
    }
}

/// Returns the operation that a text states. In a `publish`, the description's name follows the number.
pub fn operation_in(
    alloc: Global,
    descriptions: &Descriptions,
    text: &str,
) -> Result<Operation, CaseError> {
    let (word, rest) = first_word(text);
    if word == "publish" {
        let (number, name) = first_word(rest);
        let numbers = numbers(alloc, number)?;
        let bytes = descriptions.bytes(name)?.to_vec(alloc)?;
        return Ok(Operation::Publish {
            number: number_at(&numbers, 0),
            bytes: FormBytes::new(bytes),
        });
    }
    let numbers = numbers(alloc, rest)?;
    operation_of(word, number_at(&numbers, 0), number_at(&numbers, 1))
}
