//! Questions that are single accesses. Each is an access to the service that was named last, with its numbers.

use crate::answers::{Said, write_said};
use crate::case_error::CaseError;
use crate::descriptions::Descriptions;
use crate::words::{first_word, named, number, numbers};
use iceoryx2_access::storage::Storage;
use iceoryx2_description::description::ServiceHash;
use std::alloc::Global;

/// An access that takes only numbers.
#[derive(Clone, Copy)]
enum Access {
    Exists,
    Counts,
    MakeTag,
    RemoveTag,
    Lock,
    MakeSegment,
    RemoveSegment,
    RemoveDescription,
    OpenSegment,
    Release,
}

/// Each such access, and how many numbers it takes.
const ACCESSES: [(&str, (usize, Access)); 10] = [
    ("exists", (0, Access::Exists)),
    ("counts", (1, Access::Counts)),
    ("make_tag", (1, Access::MakeTag)),
    ("remove_tag", (1, Access::RemoveTag)),
    ("lock", (1, Access::Lock)),
    ("make_segment", (3, Access::MakeSegment)),
    ("remove_segment", (1, Access::RemoveSegment)),
    ("remove_description", (1, Access::RemoveDescription)),
    ("open_segment", (2, Access::OpenSegment)),
    ("release", (3, Access::Release)),
];

/// Makes an access. It ignores numbers that the access doesn't take.
fn make<S: Storage>(
    storage: &mut S,
    hash: &ServiceHash,
    access: Access,
    [first, second, third]: [u64; 3],
) -> Said {
    match access {
        Access::Exists => Said::Exists(storage.exists(hash)),
        Access::Counts => Said::Counts(storage.counts(first, hash)),
        Access::MakeTag => Said::MakeTag(storage.make_tag(first, hash)),
        Access::RemoveTag => Said::RemoveTag(storage.remove_tag(first, hash)),
        Access::Lock => Said::Lock(storage.lock(first, hash)),
        Access::MakeSegment => Said::MakeSegment(storage.make_segment(first, hash, second, third)),
        Access::RemoveSegment => Said::RemoveSegment(storage.remove_segment(first, hash)),
        Access::RemoveDescription => {
            Said::RemoveDescription(storage.remove_description(first, hash))
        }
        Access::OpenSegment => Said::OpenSegment(storage.open_segment(first, hash, second)),
        Access::Release => Said::Release(storage.release(first, second, hash, third)),
    }
}

/// Returns the `count` numbers of an access, filled up with zeros.
fn numbers_of(alloc: Global, count: usize, text: &str) -> Result<[u64; 3], CaseError> {
    let numbers = numbers(alloc, text)?;
    if numbers.len() != count {
        return Err(CaseError);
    }
    match numbers.as_slice() {
        [] => Ok([0, 0, 0]),
        [first] => Ok([*first, 0, 0]),
        [first, second] => Ok([*first, *second, 0]),
        [first, second, third, ..] => Ok([*first, *second, *third]),
    }
}

/// Fetches for a node. Writes the number and the description's name, or the digits of its bytes if it has no name.
fn fetch<S: Storage>(
    alloc: Global,
    descriptions: &Descriptions,
    (storage, hash): (&mut S, &ServiceHash),
    node: &str,
    text: &mut String,
) -> Result<(), CaseError> {
    match storage.fetch(number(node)?, hash) {
        Ok((number, bytes)) => {
            write!(text, "{number} ")?;
            Ok(descriptions.write_name(alloc, &bytes, text)?)
        }
        Err(error) => Ok(write_said(Said::NotFetched(error), text)?),
    }
}

/// Publishes a description. `rest` has a node, a number and the description's name.
fn publish<S: Storage>(
    alloc: Global,
    descriptions: &Descriptions,
    (storage, hash): (&mut S, &ServiceHash),
    rest: &str,
    text: &mut String,
) -> Result<(), CaseError> {
    let (node, rest) = first_word(rest);
    let (of, name) = first_word(rest);
    let (node, of) = (number(node)?, number(of)?);
    let description = descriptions.description(alloc, name)?;
    let said = Said::Publish(storage.publish(node, hash, of, &description));
    Ok(write_said(said, text)?)
}

/// Makes an access, and writes its answer.
pub fn ask<S: Storage>(
    alloc: Global,
    descriptions: &Descriptions,
    (storage, hash): (&mut S, &ServiceHash),
    (name, rest): (&str, &str),
    text: &mut String,
) -> Result<(), CaseError> {
    match name {
        "fetch" => fetch(alloc, descriptions, (storage, hash), rest, text),
        "publish" => publish(alloc, descriptions, (storage, hash), rest, text),
        _ => {
            let (count, access) = named(&ACCESSES, name)?;
            let numbers = numbers_of(alloc, count, rest)?;
            Ok(write_said(make(storage, hash, access, numbers), text)?)
        }
    }
}
