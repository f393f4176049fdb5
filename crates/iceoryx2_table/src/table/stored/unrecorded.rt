//! A stored world of which nothing is written down.

ghost use Rattle.std.specs.Prelude.{◌≡◌};
ghost use Rattle.iceoryx2_world.specs.World.{World};

use super::StoredWorld;
use crate::own_parts::OwnParts;
use crate::recorder::Unrecorded;
use iceoryx2_access::storage::{
    Existence, FetchError, LockError, MakeSegmentError, OpenSegmentError, PublishError, Release,
    ReleaseError, RemoveError, Tag, TagError,
};
use iceoryx2_description::description::{ServiceHash, StaticConfig};
use iceoryx2_world::batches::Step;
use iceoryx2_world::listing::Entry;
use std::alloc::{AllocError, Global};

impl OwnParts for StoredWorld {
    ghost world = { λ stored. stored };

    fn starting_at(alloc: Global, counter: u64) -> Self {
        StoredWorld::starting_at(alloc, counter)
    }

    fn let_go(self) {
        let _stored = self;
    }

    fn take_all(&mut self, batch: &[Step], skipped: u64) -> u64 {
        StoredWorld::take_all(self, batch, skipped)
    }

    fn list(&self) -> Result<Vec<Entry>, AllocError> {
        StoredWorld::list(self)
    }

    fn has_tag(&self, node: u64, hash: &ServiceHash) -> bool {
        StoredWorld::has_tag(self, node, hash)
    }

    fn tickets(&self, node: u64, hash: &ServiceHash) -> u64 {
        StoredWorld::tickets(self, node, hash)
    }

    fn counter(&self) -> u64 {
        StoredWorld::counter(self)
    }

    fn exists(&self, hash: &ServiceHash) -> Existence {
        StoredWorld::exists(self, hash)
    }

    fn fetch(&mut self, node: u64, hash: &ServiceHash) -> Result<(u64, Vec<u8>), FetchError> {
        StoredWorld::fetch(self, node, hash)
    }

    fn counts(&self, node: u64, hash: &ServiceHash) -> bool {
        StoredWorld::counts(self, node, hash)
    }

    fn make_tag(&mut self, node: u64, hash: &ServiceHash) -> Result<Tag, TagError> {
        StoredWorld::make_tag(self, &mut Unrecorded, node, hash)
    }

    fn remove_tag(&mut self, node: u64, hash: &ServiceHash) -> Result<(), RemoveError> {
        StoredWorld::remove_tag(self, &mut Unrecorded, node, hash)
    }

    fn lock(&mut self, node: u64, hash: &ServiceHash) -> Result<u64, LockError> {
        StoredWorld::lock(self, &mut Unrecorded, node, hash)
    }

    fn make_segment(
        &mut self,
        node: u64,
        hash: &ServiceHash,
        number: u64,
        max_nodes: u64,
    ) -> Result<(), MakeSegmentError> {
        StoredWorld::make_segment(self, &mut Unrecorded, node, hash, number, max_nodes)
    }

    fn remove_segment(&mut self, node: u64, hash: &ServiceHash) -> Result<(), RemoveError> {
        StoredWorld::remove_segment(self, &mut Unrecorded, node, hash)
    }

    fn remove_description(&mut self, node: u64, hash: &ServiceHash) -> Result<(), RemoveError> {
        StoredWorld::remove_description(self, &mut Unrecorded, node, hash)
    }

    fn publish(
        &mut self,
        node: u64,
        hash: &ServiceHash,
        number: u64,
        description: &StaticConfig,
    ) -> Result<u64, PublishError> {
        StoredWorld::publish(self, &mut Unrecorded, node, hash, number, description)
    }

    fn open_segment(
        &mut self,
        node: u64,
        hash: &ServiceHash,
        number: u64,
    ) -> Result<u64, OpenSegmentError> {
        StoredWorld::open_segment(self, &mut Unrecorded, node, hash, number)
    }

    fn release(
        &mut self,
        ticket: u64,
        node: u64,
        hash: &ServiceHash,
        number: u64,
    ) -> Result<Release, ReleaseError> {
        StoredWorld::release(self, &mut Unrecorded, ticket, node, hash, number)
    }
}
