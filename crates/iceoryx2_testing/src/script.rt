//! A storage that answers from a list.

ghost use Rattle.std.specs.Prelude.{◌≡◌};

mod counters;
mod faults;
mod queue;

use self::counters::Counters;
pub use self::faults::{Faulty, FaultyService};
use self::queue::Queue;
use iceoryx2_access::storage::{
    Existence, FetchError, LockError, MakeSegmentError, OpenSegmentError, PublishError, Release,
    ReleaseError, RemoveError, Service, Sha1Hasher, Storage, Tag, TagError,
};
use iceoryx2_description::description::{ServiceHash, StaticConfig};
use std::marker::Model;

/// The answer to one access.
#[derive(Debug, PartialEq, Eq, Drop)]
pub enum Answer {
    Exists(Existence),
    Fetch(Result<(u64, Vec<u8>), FetchError>),
    Counts(bool),
    MakeTag(Result<Tag, TagError>),
    RemoveTag(Result<(), RemoveError>),
    Lock(Result<u64, LockError>),
    MakeSegment(Result<(), MakeSegmentError>),
    RemoveSegment(Result<(), RemoveError>),
    RemoveDescription(Result<(), RemoveError>),
    Publish(Result<u64, PublishError>),
    OpenSegment(Result<u64, OpenSegmentError>),
    Release(Result<Release, ReleaseError>),
}

/// A storage that answers from a list. An access takes the first answer if it is of the access's kind.
/// A first answer of another kind stays. Then, and if the list is empty, the access gives its general
/// fault.
#[derive(Drop)]
pub struct Script {
    queue: Queue,
    counters: Counters,
}

impl Model for Script {
    ghost use Rattle.iceoryx2_testing.specs.Script.{ScriptState};

    ghost Value = { ScriptState };

    ghost view = { λ s. record { remaining = s.queue; counters = s.counters } };
}

impl Script {
    /// Returns a script of these answers, before any access.
    pub fn new(answers: Vec<Answer>) -> Script
        ensures { result ≡ record {
          remaining = answers.items;
          counters = record { looks = 0; openings = 0; makings = 0 };
        } }
    {
        Script {
            queue: Queue::new(answers),
            counters: Counters::NONE,
        }
    }

    /// Returns the answers that weren't taken, in order.
    pub fn left(&self) -> &[Answer]
        ensures { result.now ≡ self.now.remaining }
    {
        self.queue.left()
    }

    /// Returns the number of calls of `exists`. It stops at `u64::MAX`.
    pub fn looks(&self) -> u64
        ensures { result ≡ self.now.counters.looks }
    {
        self.counters.looks
    }

    /// Returns the number of calls of `open_segment`. It stops at `u64::MAX`.
    pub fn openings(&self) -> u64
        ensures { result ≡ self.now.counters.openings }
    {
        self.counters.openings
    }

    /// Returns the number of calls of `make_segment`. It stops at `u64::MAX`.
    pub fn makings(&self) -> u64
        ensures { result ≡ self.now.counters.makings }
    {
        self.counters.makings
    }
}

impl Storage for Script {
    ghost use Rattle.iceoryx2_testing.specs.Script.{IsScriptAccess};

    ghost step = { λ old letter new. IsScriptAccess old letter new };

    fn exists(&mut self, _hash: &ServiceHash) -> Existence {
        self.counters.count_look();
        match self.queue.front() {
            Some(Answer::Exists(answer)) => {
                let answer = *answer;
                self.queue.skip();
                answer
            }
            _ => Existence::Fault,
        }
    }

    fn fetch(&mut self, _node: u64, _hash: &ServiceHash) -> Result<(u64, Vec<u8>), FetchError> {
        match self.queue.front() {
            Some(Answer::Fetch(_)) => match self.queue.pop() {
                Some(Answer::Fetch(answer)) => answer,
                _ => Err(FetchError::OpenFault),
            },
            _ => Err(FetchError::OpenFault),
        }
    }

    fn counts(&mut self, _node: u64, _hash: &ServiceHash) -> bool {
        match self.queue.front() {
            Some(Answer::Counts(answer)) => {
                let answer = *answer;
                self.queue.skip();
                answer
            }
            _ => false,
        }
    }

    fn make_tag(&mut self, _node: u64, _hash: &ServiceHash) -> Result<Tag, TagError> {
        match self.queue.front() {
            Some(Answer::MakeTag(answer)) => {
                let answer = *answer;
                self.queue.skip();
                answer
            }
            _ => Err(TagError::Fault),
        }
    }

    fn remove_tag(&mut self, _node: u64, _hash: &ServiceHash) -> Result<(), RemoveError> {
        match self.queue.front() {
            Some(Answer::RemoveTag(answer)) => {
                let answer = *answer;
                self.queue.skip();
                answer
            }
            _ => Err(RemoveError::Other),
        }
    }

    fn lock(&mut self, _node: u64, _hash: &ServiceHash) -> Result<u64, LockError> {
        match self.queue.front() {
            Some(Answer::Lock(answer)) => {
                let answer = *answer;
                self.queue.skip();
                answer
            }
            _ => Err(LockError::Other),
        }
    }

    fn make_segment(
        &mut self,
        _node: u64,
        _hash: &ServiceHash,
        _number: u64,
        _max_nodes: u64,
    ) -> Result<(), MakeSegmentError> {
        self.counters.count_making();
        match self.queue.front() {
            Some(Answer::MakeSegment(answer)) => {
                let answer = *answer;
                self.queue.skip();
                answer
            }
            _ => Err(MakeSegmentError::Other),
        }
    }

    fn remove_segment(&mut self, _node: u64, _hash: &ServiceHash) -> Result<(), RemoveError> {
        match self.queue.front() {
            Some(Answer::RemoveSegment(answer)) => {
                let answer = *answer;
                self.queue.skip();
                answer
            }
            _ => Err(RemoveError::Other),
        }
    }

    fn remove_description(&mut self, _node: u64, _hash: &ServiceHash) -> Result<(), RemoveError> {
        match self.queue.front() {
            Some(Answer::RemoveDescription(answer)) => {
                let answer = *answer;
                self.queue.skip();
                answer
            }
            _ => Err(RemoveError::Other),
        }
    }

    fn publish(
        &mut self,
        _node: u64,
        _hash: &ServiceHash,
        _number: u64,
        _description: &StaticConfig,
    ) -> Result<u64, PublishError> {
        match self.queue.front() {
            Some(Answer::Publish(answer)) => {
                let answer = *answer;
                self.queue.skip();
                answer
            }
            _ => Err(PublishError::Other),
        }
    }

    fn open_segment(
        &mut self,
        _node: u64,
        _hash: &ServiceHash,
        _number: u64,
    ) -> Result<u64, OpenSegmentError> {
        self.counters.count_opening();
        match self.queue.front() {
            Some(Answer::OpenSegment(answer)) => {
                let answer = *answer;
                self.queue.skip();
                answer
            }
            _ => Err(OpenSegmentError::Failed),
        }
    }

    fn release(
        &mut self,
        _ticket: u64,
        _node: u64,
        _hash: &ServiceHash,
        _number: u64,
    ) -> Result<Release, ReleaseError> {
        match self.queue.front() {
            Some(Answer::Release(answer)) => {
                let answer = *answer;
                self.queue.skip();
                answer
            }
            _ => Err(ReleaseError::NoSuchTicket),
        }
    }
}

/// Services over a [`Script`], under hashes by SHA-1.
#[derive(Clone, Copy, Debug, PartialEq, Eq)]
pub struct Scripted;

impl Service for Scripted {
    type Storage = Script;

    type ServiceNameHasher = Sha1Hasher;
}
