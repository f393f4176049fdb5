//! The answers of accesses, in words. One table serves both directions.

use crate::case_error::CaseError;
use crate::descriptions::Descriptions;
use crate::words::{first_word, named, number};
use iceoryx2_access::storage::{
    Existence, FetchError, LockError, MakeSegmentError, OpenSegmentError, PublishError, Release,
    ReleaseError, RemoveError, Tag, TagError,
};
use iceoryx2_testing::script::Answer;
use std::alloc::{AllocError, Global};

/// The answer of an access, except for bytes that it fetches.
#[derive(Clone, Copy, PartialEq)]
pub enum Said {
    Exists(Existence),
    NotFetched(FetchError),
    Counts(bool),
    MakeTag(Result<Tag, TagError>),
    RemoveTag(Result<(), RemoveError>),
    Lock(Result<u64, LockError>),
    MakeSegment(Result<(), MakeSegmentError>),
    RemoveSegment(Result<(), RemoveError>),
    RemoveDescription(Result<(), RemoveError>),
    Publish(Result<u64, PublishError>),
    OpenSegment(Result<u64, OpenSegmentError>),
    Release(Result<Release, ReleaseError>),
}

/// All answers without a number.
const SAID: [(&str, Said); 46] = [
    ("exists No", Said::Exists(Existence::No)),
    ("exists Yes", Said::Exists(Existence::Yes)),
    ("exists BeingSetUp", Said::Exists(Existence::BeingSetUp)),
    ("exists Fault", Said::Exists(Existence::Fault)),
    (
        "fetch DoesNotExist",
        Said::NotFetched(FetchError::DoesNotExist),
    ),
    (
        "fetch NotFinalized",
        Said::NotFetched(FetchError::NotFinalized),
    ),
    ("fetch OpenFault", Said::NotFetched(FetchError::OpenFault)),
    ("fetch ReadFault", Said::NotFetched(FetchError::ReadFault)),
    (
        "fetch OutOfMemory",
        Said::NotFetched(FetchError::OutOfMemory),
    ),
    ("counts true", Said::Counts(true)),
    ("counts false", Said::Counts(false)),
    ("make_tag Made", Said::MakeTag(Ok(Tag::Made))),
    ("make_tag Found", Said::MakeTag(Ok(Tag::Found))),
    ("make_tag Fault", Said::MakeTag(Err(TagError::Fault))),
    (
        "make_tag OutOfMemory",
        Said::MakeTag(Err(TagError::OutOfMemory)),
    ),
    ("remove_tag Ok", Said::RemoveTag(Ok(()))),
    (
        "remove_tag InsufficientPermissions",
        Said::RemoveTag(Err(RemoveError::InsufficientPermissions)),
    ),
    ("remove_tag Other", Said::RemoveTag(Err(RemoveError::Other))),
    (
        "lock AlreadyExists",
        Said::Lock(Err(LockError::AlreadyExists)),
    ),
    ("lock Creation", Said::Lock(Err(LockError::Creation))),
    (
        "lock InsufficientPermissions",
        Said::Lock(Err(LockError::InsufficientPermissions)),
    ),
    ("lock Other", Said::Lock(Err(LockError::Other))),
    ("lock OutOfMemory", Said::Lock(Err(LockError::OutOfMemory))),
    ("make_segment Ok", Said::MakeSegment(Ok(()))),
    (
        "make_segment AlreadyExists",
        Said::MakeSegment(Err(MakeSegmentError::AlreadyExists)),
    ),
    (
        "make_segment InsufficientPermissions",
        Said::MakeSegment(Err(MakeSegmentError::InsufficientPermissions)),
    ),
    (
        "make_segment Other",
        Said::MakeSegment(Err(MakeSegmentError::Other)),
    ),
    (
        "make_segment OutOfMemory",
        Said::MakeSegment(Err(MakeSegmentError::OutOfMemory)),
    ),
    ("remove_segment Ok", Said::RemoveSegment(Ok(()))),
    (
        "remove_segment InsufficientPermissions",
        Said::RemoveSegment(Err(RemoveError::InsufficientPermissions)),
    ),
    (
        "remove_segment Other",
        Said::RemoveSegment(Err(RemoveError::Other)),
    ),
    ("remove_description Ok", Said::RemoveDescription(Ok(()))),
    (
        "remove_description InsufficientPermissions",
        Said::RemoveDescription(Err(RemoveError::InsufficientPermissions)),
    ),
    (
        "remove_description Other",
        Said::RemoveDescription(Err(RemoveError::Other)),
    ),
    ("publish Other", Said::Publish(Err(PublishError::Other))),
    (
        "publish OutOfMemory",
        Said::Publish(Err(PublishError::OutOfMemory)),
    ),
    (
        "open_segment DoesNotExist",
        Said::OpenSegment(Err(OpenSegmentError::DoesNotExist)),
    ),
    (
        "open_segment Marked",
        Said::OpenSegment(Err(OpenSegmentError::Marked)),
    ),
    (
        "open_segment Full",
        Said::OpenSegment(Err(OpenSegmentError::Full)),
    ),
    (
        "open_segment Failed",
        Said::OpenSegment(Err(OpenSegmentError::Failed)),
    ),
    (
        "open_segment OutOfNumbers",
        Said::OpenSegment(Err(OpenSegmentError::OutOfNumbers)),
    ),
    (
        "open_segment OutOfMemory",
        Said::OpenSegment(Err(OpenSegmentError::OutOfMemory)),
    ),
    (
        "release StillCounted",
        Said::Release(Ok(Release::StillCounted)),
    ),
    ("release Left", Said::Release(Ok(Release::Left))),
    ("release Last", Said::Release(Ok(Release::Last))),
    (
        "release NoSuchTicket",
        Said::Release(Err(ReleaseError::NoSuchTicket)),
    ),
];

/// Returns the word of an answer, which follows the access in its row.
fn word_of(said: Said) -> &'static str {
    for (words, known) in &SAID {
        if *known == said {
            let (_access, word) = first_word(words);
            return word;
        }
    }
    ""
}

/// Writes the number of an answer, or its word.
pub fn write_said(said: Said, text: &mut String) -> Result<(), AllocError> {
    match said {
        Said::Lock(Ok(number)) | Said::Publish(Ok(number)) | Said::OpenSegment(Ok(number)) => {
            write!(text, "{number}")
        }
        _ => text.push_str(word_of(said)),
    }
}

/// Returns the answer as a script gives it.
fn answer_of(said: Said) -> Answer {
    match said {
        Said::Exists(answer) => Answer::Exists(answer),
        Said::NotFetched(error) => Answer::Fetch(Err(error)),
        Said::Counts(answer) => Answer::Counts(answer),
        Said::MakeTag(answer) => Answer::MakeTag(answer),
        Said::RemoveTag(answer) => Answer::RemoveTag(answer),
        Said::Lock(answer) => Answer::Lock(answer),
        Said::MakeSegment(answer) => Answer::MakeSegment(answer),
        Said::RemoveSegment(answer) => Answer::RemoveSegment(answer),
        Said::RemoveDescription(answer) => Answer::RemoveDescription(answer),
        Said::Publish(answer) => Answer::Publish(answer),
        Said::OpenSegment(answer) => Answer::OpenSegment(answer),
        Said::Release(answer) => Answer::Release(answer),
    }
}

/// Returns the answer of an access that has a number. A fetch has the description of this name too.
fn numbered(
    alloc: Global,
    descriptions: &Descriptions,
    (access, name): (&str, &str),
    number: u64,
) -> Result<Answer, CaseError> {
    match access {
        "fetch" => Ok(Answer::Fetch(Ok((number, descriptions.bytes(name)?.to_vec(alloc)?)))),
        "lock" => Ok(Answer::Lock(Ok(number))),
        "publish" => Ok(Answer::Publish(Ok(number))),
        "open_segment" => Ok(Answer::OpenSegment(Ok(number))),
        _ => Err(CaseError),
    }
}

/// Returns the answer that `ACCESS ANSWER` states.
pub fn answer_in(
    alloc: Global,
    descriptions: &Descriptions,
    text: &str,
) -> Result<Answer, CaseError> {
    let (access, rest) = first_word(text);
    let (word, name) = first_word(rest);
    match number(word) {
        Ok(number) => numbered(alloc, descriptions, (access, name), number),
        Err(CaseError) => Ok(answer_of(named(&SAID, text)?)),
    }
}
