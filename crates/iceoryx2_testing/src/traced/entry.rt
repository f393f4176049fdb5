//! The record of an access.

ghost use Rattle.std.specs.Prelude.{◌≡◌, Some};
ghost use Rattle.iceoryx2_testing.specs.Texts.{access_name, answer_text, entry_text, shown_text};

use super::shown::{
    ShownAnswer, existence_shown, fetch_shown, lock_shown, opening_shown, publishing_shown,
    release_shown, removal_shown, segment_shown, tag_shown, truth_shown,
};
use iceoryx2_access::storage::{
    Existence, FetchError, LockError, MakeSegmentError, OpenSegmentError, PublishError, Release,
    ReleaseError, RemoveError, Tag, TagError,
};
use iceoryx2_description::description::ServiceHash;
use std::fmt;

/// The record of a description that was fetched: the service's number, and the number of bytes.
#[derive(Clone, Copy, Debug, PartialEq, Eq)]
pub struct Fetched {
    pub number: u64,
    pub length: usize,
}

/// An access with its arguments and the storage's answer. It holds no memory, so it leaves out the
/// bytes that were fetched and the description that was published.
#[derive(Clone, Copy, Debug, PartialEq, Eq)]
pub enum TracedAccess {
    Exists {
        hash: ServiceHash,
        answer: Existence,
    },
    Fetch {
        node: u64,
        hash: ServiceHash,
        answer: Result<Fetched, FetchError>,
    },
    Counts {
        node: u64,
        hash: ServiceHash,
        answer: bool,
    },
    MakeTag {
        node: u64,
        hash: ServiceHash,
        answer: Result<Tag, TagError>,
    },
    RemoveTag {
        node: u64,
        hash: ServiceHash,
        answer: Result<(), RemoveError>,
    },
    Lock {
        node: u64,
        hash: ServiceHash,
        /// The service's number.
        answer: Result<u64, LockError>,
    },
    MakeSegment {
        node: u64,
        hash: ServiceHash,
        number: u64,
        max_nodes: u64,
        answer: Result<(), MakeSegmentError>,
    },
    RemoveSegment {
        node: u64,
        hash: ServiceHash,
        answer: Result<(), RemoveError>,
    },
    RemoveDescription {
        node: u64,
        hash: ServiceHash,
        answer: Result<(), RemoveError>,
    },
    Publish {
        node: u64,
        hash: ServiceHash,
        number: u64,
        /// The node's ticket.
        answer: Result<u64, PublishError>,
    },
    OpenSegment {
        node: u64,
        hash: ServiceHash,
        number: u64,
        /// The node's ticket.
        answer: Result<u64, OpenSegmentError>,
    },
    Release {
        ticket: u64,
        node: u64,
        hash: ServiceHash,
        number: u64,
        answer: Result<Release, ReleaseError>,
    },
}

impl TracedAccess {
    /// Returns the name of the access that was made, as the trait `Storage` calls it.
    pub fn access(&self) -> &'static str
        ensures { result.now ≡ access_name self.now }
    {
        match self {
            TracedAccess::Exists { .. } => "exists",
            TracedAccess::Fetch { .. } => "fetch",
            TracedAccess::Counts { .. } => "counts",
            TracedAccess::MakeTag { .. } => "make_tag",
            TracedAccess::RemoveTag { .. } => "remove_tag",
            TracedAccess::Lock { .. } => "lock",
            TracedAccess::MakeSegment { .. } => "make_segment",
            TracedAccess::RemoveSegment { .. } => "remove_segment",
            TracedAccess::RemoveDescription { .. } => "remove_description",
            TracedAccess::Publish { .. } => "publish",
            TracedAccess::OpenSegment { .. } => "open_segment",
            TracedAccess::Release { .. } => "release",
        }
    }

    /// Returns the answer.
    fn shown(&self) -> ShownAnswer
        ensures { shown_text result ≡ answer_text self.now }
    {
        match self {
            TracedAccess::Exists { answer, .. } => existence_shown(*answer),
            TracedAccess::Fetch { answer, .. } => fetch_shown(*answer),
            TracedAccess::Counts { answer, .. } => truth_shown(*answer),
            TracedAccess::MakeTag { answer, .. } => tag_shown(*answer),
            TracedAccess::RemoveTag { answer, .. } => removal_shown(*answer),
            TracedAccess::Lock { answer, .. } => lock_shown(*answer),
            TracedAccess::MakeSegment { answer, .. } => segment_shown(*answer),
            TracedAccess::RemoveSegment { answer, .. } => removal_shown(*answer),
            TracedAccess::RemoveDescription { answer, .. } => removal_shown(*answer),
            TracedAccess::Publish { answer, .. } => publishing_shown(*answer),
            TracedAccess::OpenSegment { answer, .. } => opening_shown(*answer),
            TracedAccess::Release { answer, .. } => release_shown(*answer),
        }
    }
}

/// Writes the access and its answer, as `exists No`, `fetch 0 (67 bytes)`, `lock Creation` and
/// `publish Ok(3)`. A service's number is alone, and a ticket is in `Ok(..)`. An access that answers
/// nothing says `Ok`.
impl fmt::Display for TracedAccess {
    ghost output = { λ entry. Some (entry_text entry) };

    fn fmt<W: fmt::Write>(&self, f: &mut fmt::Formatter<W>) -> fmt::Result {
        let access = self.access();
        let answer = self.shown();
        write!(f, "{access} {answer}")
    }
}
