//! A world of which nothing is written down.

use super::{WorldOver, count_held};
use crate::keys::TagKey;
use crate::kinds::Kinds;
use crate::services::Services;
use crate::steps::Steps;
use finite_map::FiniteMap;
use iceoryx2_access::storage::{
    Existence, FetchError, LockError, MakeSegmentError, OpenSegmentError, PublishError, Release,
    ReleaseError, RemoveError, Tag, TagError,
};
use iceoryx2_description::description::{ServiceHash, StaticConfig};
use iceoryx2_table::own_parts::OwnParts;
use iceoryx2_table::recorder::Unrecorded;
use iceoryx2_table::rows::RowState;
use iceoryx2_world::batches::Step;
use iceoryx2_world::listing::Entry;
use iceoryx2_world::world::{Participant, Phase};
use std::alloc::{AllocError, Global};

impl<M: Kinds> OwnParts for WorldOver<M> {
    ghost world = { λ kept. kept };

    fn starting_at(alloc: Global, counter: u64) -> Self {
        WorldOver {
            services: Services::starting_at(alloc, counter),
            tags: M::Tags::new(alloc),
            tickets: M::Tickets::new(alloc),
        }
    }

    fn let_go(self) {
        let _kept = self;
    }

    fn take_all(&mut self, batch: &[Step], skipped: u64) -> u64 {
        let mut count = skipped;
        for step in batch {
            count = self.take(step, count);
        }
        count
    }

    fn list(&self) -> Result<Vec<Entry>, AllocError> {
        self.services.list()
    }

    fn has_tag(&self, node: u64, hash: &ServiceHash) -> bool {
        let key = TagKey { node, hash: *hash };
        self.tags.get_at(&key, self.tags.place_of(&key)).is_some()
    }

    fn tickets(&self, node: u64, hash: &ServiceHash) -> u64 {
        count_held(&self.tickets, node, hash)
    }

    fn counter(&self) -> u64 {
        self.services.counter()
    }

    fn exists(&self, hash: &ServiceHash) -> Existence {
        match self.services.row_at(hash, self.services.row_place(hash)) {
            None => Existence::No,
            Some(row) => match row.state() {
                RowState::Locked(_) => Existence::BeingSetUp,
                RowState::Published(_) => Existence::Yes,
            },
        }
    }

    fn fetch(&mut self, node: u64, hash: &ServiceHash) -> Result<(u64, Vec<u8>), FetchError> {
        let Some(row) = self.services.row_at(hash, self.services.row_place(hash)) else {
            return Err(FetchError::DoesNotExist);
        };
        let RowState::Published(number) = row.state() else {
            return Err(FetchError::NotFinalized);
        };
        let Ok(copy) = row.bytes().copy() else {
            return Err(FetchError::OutOfMemory);
        };
        let Ok(_) = self.services.read(Participant::Node(node), hash, number) else {
            return Err(FetchError::OutOfMemory);
        };
        Ok((number, copy))
    }

    fn counts(&self, node: u64, hash: &ServiceHash) -> bool {
        match self.services.position(Participant::Node(node), hash).phase {
            Phase::Joined(_, _) => true,
            _ => false,
        }
    }

    fn make_tag(&mut self, node: u64, hash: &ServiceHash) -> Result<Tag, TagError> {
        WorldOver::make_tag(self, &mut Unrecorded, node, hash)
    }

    fn remove_tag(&mut self, node: u64, hash: &ServiceHash) -> Result<(), RemoveError> {
        WorldOver::remove_tag(self, &mut Unrecorded, node, hash)
    }

    fn lock(&mut self, node: u64, hash: &ServiceHash) -> Result<u64, LockError> {
        WorldOver::lock(self, &mut Unrecorded, node, hash)
    }

    fn make_segment(
        &mut self,
        node: u64,
        hash: &ServiceHash,
        number: u64,
        max_nodes: u64,
    ) -> Result<(), MakeSegmentError> {
        WorldOver::make_segment(self, &mut Unrecorded, node, hash, number, max_nodes)
    }

    fn remove_segment(&mut self, node: u64, hash: &ServiceHash) -> Result<(), RemoveError> {
        WorldOver::remove_segment(self, &mut Unrecorded, node, hash)
    }

    fn remove_description(&mut self, node: u64, hash: &ServiceHash) -> Result<(), RemoveError> {
        WorldOver::remove_description(self, &mut Unrecorded, node, hash)
    }

    fn publish(
        &mut self,
        node: u64,
        hash: &ServiceHash,
        number: u64,
        description: &StaticConfig,
    ) -> Result<u64, PublishError> {
        WorldOver::publish(self, &mut Unrecorded, node, hash, number, description)
    }

    fn open_segment(
        &mut self,
        node: u64,
        hash: &ServiceHash,
        number: u64,
    ) -> Result<u64, OpenSegmentError> {
        WorldOver::open_segment(self, &mut Unrecorded, node, hash, number)
    }

    fn release(
        &mut self,
        ticket: u64,
        node: u64,
        hash: &ServiceHash,
        number: u64,
    ) -> Result<Release, ReleaseError> {
        WorldOver::release(self, &mut Unrecorded, ticket, node, hash, number)
    }
}
