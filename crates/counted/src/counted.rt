//! A storage that counts the accesses of another.

ghost use Rattle.std.specs.Prelude.{◌≡◌};
ghost use Rattle.iceoryx2_access.specs.Counts.{count_up};

use iceoryx2_access::storage::{
    Existence, FetchError, LockError, MakeSegmentError, OpenSegmentError, PublishError, Release,
    ReleaseError, RemoveError, Service, Storage, Tag, TagError,
};
use iceoryx2_description::description::{ServiceHash, StaticConfig};
use std::marker::{Model, PhantomData};

/// A storage that counts the accesses of another. Each access is one of the storage inside, and answers what that
/// answers.
#[derive(Drop)]
pub struct Counted<S> {
    inner: S,
    total: u64,
}

impl<S> Model for Counted<S> {
    ghost use Rattle.counted.specs.Counted.{CountedState};

    ghost Value = { CountedState S };

    ghost view = { λ s. record { inner = s.inner; total = s.total } };
}

impl<S> Counted<S> {
    /// The storage `inner`, of which no access was counted.
    pub fn new(inner: S) -> Counted<S>
        ensures { result ≡ record { inner = inner; total = 0 } }
    {
        Counted { inner, total: 0 }
    }

    /// How many accesses there were. Stops at `u64::MAX`.
    pub fn total(&self) -> u64
        ensures { result ≡ self.now.total }
    {
        self.total
    }

    /// The storage inside, alone.
    pub fn into_inner(self) -> S
        ensures { result ≡ self.inner }
    {
        let Counted { inner, total: _ } = self;
        inner
    }

    /// Counts one access more.
    fn count(&mut self)
        ensures { self.new ≡ record self.old { total = count_up self.old.total } }
    {
        self.total = self.total.saturating_add(1);
    }
}

impl<S: Storage> Storage for Counted<S> {
    ghost use Rattle.counted.specs.Counted.{IsCountedAccess};

    ghost step = { λ old letter new. IsCountedAccess S.step old letter new };

    fn exists(&mut self, hash: &ServiceHash) -> Existence {
        self.count();
        self.inner.exists(hash)
    }

    fn fetch(&mut self, node: u64, hash: &ServiceHash) -> Result<(u64, Vec<u8>), FetchError> {
        self.count();
        self.inner.fetch(node, hash)
    }

    fn counts(&mut self, node: u64, hash: &ServiceHash) -> bool {
        self.count();
        self.inner.counts(node, hash)
    }

    fn make_tag(&mut self, node: u64, hash: &ServiceHash) -> Result<Tag, TagError> {
        self.count();
        self.inner.make_tag(node, hash)
    }

    fn remove_tag(&mut self, node: u64, hash: &ServiceHash) -> Result<(), RemoveError> {
        self.count();
        self.inner.remove_tag(node, hash)
    }

    fn lock(&mut self, node: u64, hash: &ServiceHash) -> Result<u64, LockError> {
        self.count();
        self.inner.lock(node, hash)
    }

    fn make_segment(
        &mut self,
        node: u64,
        hash: &ServiceHash,
        number: u64,
        max_nodes: u64,
    ) -> Result<(), MakeSegmentError> {
        self.count();
        self.inner.make_segment(node, hash, number, max_nodes)
    }

    fn remove_segment(&mut self, node: u64, hash: &ServiceHash) -> Result<(), RemoveError> {
        self.count();
        self.inner.remove_segment(node, hash)
    }

    fn remove_description(&mut self, node: u64, hash: &ServiceHash) -> Result<(), RemoveError> {
        self.count();
        self.inner.remove_description(node, hash)
    }

    fn publish(
        &mut self,
        node: u64,
        hash: &ServiceHash,
        number: u64,
        description: &StaticConfig,
    ) -> Result<u64, PublishError> {
        self.count();
        self.inner.publish(node, hash, number, description)
    }

    fn open_segment(
        &mut self,
        node: u64,
        hash: &ServiceHash,
        number: u64,
    ) -> Result<u64, OpenSegmentError> {
        self.count();
        self.inner.open_segment(node, hash, number)
    }

    fn release(
        &mut self,
        ticket: u64,
        node: u64,
        hash: &ServiceHash,
        number: u64,
    ) -> Result<Release, ReleaseError> {
        self.count();
        self.inner.release(ticket, node, hash, number)
    }
}

/// The service of another, with a storage that counts its accesses.
pub struct CountedService<S> {
    service: PhantomData<S>,
}

impl<S: Service> Service for CountedService<S> {
    type Storage = Counted<S::Storage>;

    type ServiceNameHasher = S::ServiceNameHasher;
}
