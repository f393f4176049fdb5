//! A storage that records the accesses of another storage, and their answers.

ghost use Rattle.std.specs.Prelude.{◌≡◌, ◌≤◌, ◌-◌, ◌++◌, ◌↔◌, IsTrue, [], length, MatchResult};
ghost use Rattle.std.specs.Slice.{IsItemAt};
ghost use Rattle.iceoryx2_access.specs.Letter.{fetch_answer};
ghost use Rattle.iceoryx2_testing.specs.Entries.{fetched_of};

mod entry;
mod shown;
mod trace;

pub use self::entry::{Fetched, TracedAccess};
use self::trace::Trace;
use iceoryx2_access::storage::{
    Existence, FetchError, LockError, MakeSegmentError, OpenSegmentError, PublishError, Release,
    ReleaseError, RemoveError, Service, Storage, Tag, TagError,
};
use iceoryx2_description::description::{ServiceHash, StaticConfig};
use std::alloc::{AllocFailed, Global};
use std::marker::{Model, PhantomData};

/// A storage that records the latest accesses of another storage. Each access is one of the storage
/// inside, and returns its answer. No access takes memory for its record: room for a fixed number of
/// traced accesses is asked for once. If the room is full, the oldest traced access is forgotten.
#[derive(Drop)]
pub struct Traced<S> {
    inner: S,
    trace: Trace,
}

impl<S> Model for Traced<S> {
    ghost use Rattle.iceoryx2_testing.specs.Trace.{TracedState};

    ghost Value = { TracedState S };

    ghost view = { λ s. record {
      inner = s.inner;
      entries = s.trace.entries;
      room = s.trace.room;
      total = s.trace.total;
    } };
}

impl<S> Traced<S> {
    ghost use Rattle.std.specs.Borrow.{sem};
    ghost use Rattle.iceoryx2_testing.specs.TracedLends.{lends_inner};

    /// Returns the storage `inner`, with room for `room` entries. If there is no memory for them, the
    /// error's `value` is the storage as it is.
    pub fn new(alloc: Global, inner: S, room: usize) -> Result<Traced<S>, AllocFailed<S>>
        ensures { MatchResult result
            (λ traced. traced ≡ record { inner = inner; entries = []; room = room; total = 0 })
            (λ refused. refused.value ≡ inner) }
    {
        match Trace::new(alloc, room) {
            Ok(trace) => Ok(Traced { inner, trace }),
            Err(_) => Err(AllocFailed { value: inner }),
        }
    }

    /// Returns the storage inside.
    pub fn inner(&self) -> &S
        ensures { result.now ≡ self.now.inner }
    {
        &self.inner
    }

    /// Returns the storage inside, for writing. Anything that is done to it that way isn't traced.
    pub fn inner_mut(&mut self) -> &mut S
        ensures* writes_back { sem 𝓛 (lends_inner S.row self.entry result) }
        ensures value { result.now ≡ self.old.inner }
    {
        &mut self.inner
    }

    /// Returns the storage inside, alone.
    pub fn into_inner(self) -> S
        ensures { result ≡ self.inner }
    {
        let Traced { inner, trace: _ } = self;
        inner
    }

    /// Returns the traced accesses, oldest first: those of the first slice, and then those of the
    /// second.
    pub fn accesses(&self) -> (&[TracedAccess], &[TracedAccess])
        ensures { result.0.now ++ result.1.now ≡ self.now.entries }
    {
        self.trace.accesses()
    }

    /// Returns the traced access at an index, or `None` past the latest. The oldest is at 0.
    pub fn get(&self, index: usize) -> Option<&TracedAccess>
        ensures { IsItemAt self.now.entries index result }
    {
        self.trace.get(index)
    }

    /// Returns the number of accesses that are kept.
    pub fn len(&self) -> usize
        ensures len { result ≡ length self.now.entries }
        ensures bound { result ≤ self.now.room }
    {
        self.trace.len()
    }

    /// Returns whether no access is kept.
    pub fn is_empty(&self) -> bool
        ensures { IsTrue result ↔ (self.now.entries ≡ []) }
    {
        self.trace.is_empty()
    }

    /// Returns the number of accesses that there is room for.
    pub fn room(&self) -> usize
        ensures { result ≡ self.now.room }
    {
        self.trace.room()
    }

    /// Returns the number of all accesses. It stops at `u64::MAX`.
    pub fn total(&self) -> u64
        ensures { result ≡ self.now.total }
    {
        self.trace.total()
    }

    /// Returns the number of accesses that aren't kept any more, because there was no room or they were
    /// cleared. It stops when `total` stops.
    pub fn forgotten(&self) -> u64
        ensures { result ≡ self.now.total - length self.now.entries }
    {
        self.trace.total().saturating_sub(self.trace.len() as u64)
    }

    /// Forgets all accesses. The room stays, and so does the number that `total` returns.
    pub fn clear(&mut self)
        ensures { self.new ≡ record self.old { entries = [] } }
    {
        self.trace.clear();
    }
}

/// Returns the record of a fetch's answer.
fn fetched(answer: &Result<(u64, Vec<u8>), FetchError>) -> Result<Fetched, FetchError>
    ensures { result ≡ fetched_of (fetch_answer answer.now) }
{
    match answer {
        Ok((number, bytes)) => Ok(Fetched {
            number: *number,
            length: bytes.len(),
        }),
        Err(error) => Err(*error),
    }
}

impl<S: Storage> Storage for Traced<S> {
    ghost use Rattle.iceoryx2_testing.specs.Trace.{IsTracedAccess};

    ghost step = { λ old letter new. IsTracedAccess S.step old letter new };

    fn exists(&mut self, hash: &ServiceHash) -> Existence {
        let answer = self.inner.exists(hash);
        self.trace.push(TracedAccess::Exists {
            hash: *hash,
            answer,
        });
        answer
    }

    fn fetch(&mut self, node: u64, hash: &ServiceHash) -> Result<(u64, Vec<u8>), FetchError> {
        let answer = self.inner.fetch(node, hash);
        self.trace.push(TracedAccess::Fetch {
            node,
            hash: *hash,
            answer: fetched(&answer),
        });
        answer
    }

    fn counts(&mut self, node: u64, hash: &ServiceHash) -> bool {
        let answer = self.inner.counts(node, hash);
        self.trace.push(TracedAccess::Counts {
            node,
            hash: *hash,
            answer,
        });
        answer
    }

    fn make_tag(&mut self, node: u64, hash: &ServiceHash) -> Result<Tag, TagError> {
        let answer = self.inner.make_tag(node, hash);
        self.trace.push(TracedAccess::MakeTag {
            node,
            hash: *hash,
            answer,
        });
        answer
    }

    fn remove_tag(&mut self, node: u64, hash: &ServiceHash) -> Result<(), RemoveError> {
        let answer = self.inner.remove_tag(node, hash);
        self.trace.push(TracedAccess::RemoveTag {
            node,
            hash: *hash,
            answer,
        });
        answer
    }

    fn lock(&mut self, node: u64, hash: &ServiceHash) -> Result<u64, LockError> {
        let answer = self.inner.lock(node, hash);
        self.trace.push(TracedAccess::Lock {
            node,
            hash: *hash,
            answer,
        });
        answer
    }

    fn make_segment(
        &mut self,
        node: u64,
        hash: &ServiceHash,
        number: u64,
        max_nodes: u64,
    ) -> Result<(), MakeSegmentError> {
        let answer = self.inner.make_segment(node, hash, number, max_nodes);
        self.trace.push(TracedAccess::MakeSegment {
            node,
            hash: *hash,
            number,
            max_nodes,
            answer,
        });
        answer
    }

    fn remove_segment(&mut self, node: u64, hash: &ServiceHash) -> Result<(), RemoveError> {
        let answer = self.inner.remove_segment(node, hash);
        self.trace.push(TracedAccess::RemoveSegment {
            node,
            hash: *hash,
            answer,
        });
        answer
    }

    fn remove_description(&mut self, node: u64, hash: &ServiceHash) -> Result<(), RemoveError> {
        let answer = self.inner.remove_description(node, hash);
        self.trace.push(TracedAccess::RemoveDescription {
            node,
            hash: *hash,
            answer,
        });
        answer
    }

    fn publish(
        &mut self,
        node: u64,
        hash: &ServiceHash,
        number: u64,
        description: &StaticConfig,
    ) -> Result<u64, PublishError> {
        let answer = self.inner.publish(node, hash, number, description);
        self.trace.push(TracedAccess::Publish {
            node,
            hash: *hash,
            number,
            answer,
        });
        answer
    }

    fn open_segment(
        &mut self,
        node: u64,
        hash: &ServiceHash,
        number: u64,
    ) -> Result<u64, OpenSegmentError> {
        let answer = self.inner.open_segment(node, hash, number);
        self.trace.push(TracedAccess::OpenSegment {
            node,
            hash: *hash,
            number,
            answer,
        });
        answer
    }

    fn release(
        &mut self,
        ticket: u64,
        node: u64,
        hash: &ServiceHash,
        number: u64,
    ) -> Result<Release, ReleaseError> {
        let answer = self.inner.release(ticket, node, hash, number);
        self.trace.push(TracedAccess::Release {
            ticket,
            node,
            hash: *hash,
            number,
            answer,
        });
        answer
    }
}

/// The service of another, with a storage that keeps its latest accesses.
pub struct TracedService<S> {
    service: PhantomData<S>,
}

impl<S: Service> Service for TracedService<S> {
    type Storage = Traced<S::Storage>;

    type ServiceNameHasher = S::ServiceNameHasher;
}
