//! A storage that refuses chosen accesses of another.

ghost use Rattle.std.specs.Prelude.{◌≡◌};
ghost use Rattle.iceoryx2_access.specs.Counts.{count_up};
ghost use Rattle.iceoryx2_testing.specs.Faults.{is_refused};

use super::counters::Counters;
use iceoryx2_access::storage::{
    Existence, FetchError, LockError, MakeSegmentError, OpenSegmentError, PublishError, Release,
    ReleaseError, RemoveError, Service, Storage, Tag, TagError,
};
use iceoryx2_description::description::{ServiceHash, StaticConfig};
use std::marker::{Model, PhantomData};

/// A storage that refuses chosen accesses of another storage. Accesses are counted from 1, refused ones
/// too. An access past the `u64::MAX`-th counts as the `u64::MAX`-th. A refused access returns its
/// general fault and doesn't reach the storage inside. Any other access is one of that storage.
#[derive(Drop)]
pub struct Faulty<S> {
    inner: S,
    refused: Vec<u64>,
    accesses: u64,
    counters: Counters,
}

impl<S> Model for Faulty<S> {
    ghost use Rattle.iceoryx2_testing.specs.Faults.{FaultyState};

    ghost Value = { FaultyState S };

    ghost view = { λ s. record {
      inner = s.inner;
      refused = s.refused.items;
      accesses = s.accesses;
      counters = s.counters;
    } };
}

impl<S> Faulty<S> {
    ghost use Rattle.std.specs.Borrow.{sem};
    ghost use Rattle.iceoryx2_testing.specs.FaultyLends.{lends_inner};

    /// Returns the storage `inner`, with the numbers of the accesses that are refused.
    pub fn new(inner: S, refused: Vec<u64>) -> Faulty<S>
        ensures { result ≡ record {
          inner = inner;
          refused = refused.items;
          accesses = 0;
          counters = record { looks = 0; openings = 0; makings = 0 };
        } }
    {
        Faulty {
            inner,
            refused,
            accesses: 0,
            counters: Counters::NONE,
        }
    }

    /// Returns the storage inside.
    pub fn inner(&self) -> &S
        ensures { result.now ≡ self.now.inner }
    {
        &self.inner
    }

    /// Returns the storage inside, for writing. Anything that is done to it that way isn't counted.
    pub fn inner_mut(&mut self) -> &mut S
        ensures* writes_back { sem 𝓛 (lends_inner S.row self.entry result) }
        ensures value { result.now ≡ self.old.inner }
    {
        &mut self.inner
    }

    /// Returns the storage inside, alone.
    pub fn into_inner(self) -> S
        ensures { result ≡ self.inner }
    {
        let Faulty {
            inner,
            refused: _,
            accesses: _,
            counters: _,
        } = self;
        inner
    }

    /// Returns the number of accesses that were called, the refused ones among them. It stops at
    /// `u64::MAX`.
    pub fn accesses(&self) -> u64
        ensures { result ≡ self.now.accesses }
    {
        self.accesses
    }

    /// Returns the number of calls of `exists`. It stops at `u64::MAX`.
    pub fn looks(&self) -> u64
        ensures { result ≡ self.now.counters.looks }
    {
        self.counters.looks
    }

    /// Returns the number of calls of `open_segment`. It stops at `u64::MAX`.
    pub fn openings(&self) -> u64
        ensures { result ≡ self.now.counters.openings }
    {
        self.counters.openings
    }

    /// Returns the number of calls of `make_segment`. It stops at `u64::MAX`.
    pub fn makings(&self) -> u64
        ensures { result ≡ self.now.counters.makings }
    {
        self.counters.makings
    }

    /// Counts an access, and returns whether it is refused.
    fn count(&mut self) -> bool
        ensures counted { self.new ≡ record self.old { accesses = count_up self.old.accesses } }
        ensures refused { result ≡ is_refused self.new.accesses self.old.refused }
    {
        self.accesses = self.accesses.saturating_add(1);
        let number = self.accesses;
        self.refused.iter().any(|k| number == *k)
    }
}

impl<S: Storage> Storage for Faulty<S> {
    ghost use Rattle.iceoryx2_testing.specs.Faults.{IsInjectedFault};

    ghost step = { λ old letter new. IsInjectedFault S.step old letter new };

    fn exists(&mut self, hash: &ServiceHash) -> Existence {
        self.counters.count_look();
        if self.count() {
            return Existence::Fault;
        }
        self.inner.exists(hash)
    }

    fn fetch(&mut self, node: u64, hash: &ServiceHash) -> Result<(u64, Vec<u8>), FetchError> {
        if self.count() {
            return Err(FetchError::OpenFault);
        }
        self.inner.fetch(node, hash)
    }

    fn counts(&mut self, node: u64, hash: &ServiceHash) -> bool {
        if self.count() {
            return false;
        }
        self.inner.counts(node, hash)
    }

    fn make_tag(&mut self, node: u64, hash: &ServiceHash) -> Result<Tag, TagError> {
        if self.count() {
            return Err(TagError::Fault);
        }
        self.inner.make_tag(node, hash)
    }

    fn remove_tag(&mut self, node: u64, hash: &ServiceHash) -> Result<(), RemoveError> {
        if self.count() {
            return Err(RemoveError::Other);
        }
        self.inner.remove_tag(node, hash)
    }

    fn lock(&mut self, node: u64, hash: &ServiceHash) -> Result<u64, LockError> {
        if self.count() {
            return Err(LockError::Other);
        }
        self.inner.lock(node, hash)
    }

    fn make_segment(
        &mut self,
        node: u64,
        hash: &ServiceHash,
        number: u64,
        max_nodes: u64,
    ) -> Result<(), MakeSegmentError> {
        self.counters.count_making();
        if self.count() {
            return Err(MakeSegmentError::Other);
        }
        self.inner.make_segment(node, hash, number, max_nodes)
    }

    fn remove_segment(&mut self, node: u64, hash: &ServiceHash) -> Result<(), RemoveError> {
        if self.count() {
            return Err(RemoveError::Other);
        }
        self.inner.remove_segment(node, hash)
    }

    fn remove_description(&mut self, node: u64, hash: &ServiceHash) -> Result<(), RemoveError> {
        if self.count() {
            return Err(RemoveError::Other);
        }
        self.inner.remove_description(node, hash)
    }

    fn publish(
        &mut self,
        node: u64,
        hash: &ServiceHash,
        number: u64,
        description: &StaticConfig,
    ) -> Result<u64, PublishError> {
        if self.count() {
            return Err(PublishError::Other);
        }
        self.inner.publish(node, hash, number, description)
    }

    fn open_segment(
        &mut self,
        node: u64,
        hash: &ServiceHash,
        number: u64,
    ) -> Result<u64, OpenSegmentError> {
        self.counters.count_opening();
        if self.count() {
            return Err(OpenSegmentError::Failed);
        }
        self.inner.open_segment(node, hash, number)
    }

    fn release(
        &mut self,
        ticket: u64,
        node: u64,
        hash: &ServiceHash,
        number: u64,
    ) -> Result<Release, ReleaseError> {
        if self.count() {
            return Err(ReleaseError::NoSuchTicket);
        }
        self.inner.release(ticket, node, hash, number)
    }
}

/// The service of another, with a storage that refuses chosen accesses.
pub struct FaultyService<S> {
    service: PhantomData<S>,
}

impl<S: Service> Service for FaultyService<S> {
    type Storage = Faulty<S::Storage>;

    type ServiceNameHasher = S::ServiceNameHasher;
}
