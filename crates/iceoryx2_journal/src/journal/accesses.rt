//! The twelve accesses of a journal.

use super::Journal;
use crate::parts;
use iceoryx2_access::storage::{
    Existence, FetchError, LockError, MakeSegmentError, OpenSegmentError, PublishError, Release,
    ReleaseError, RemoveError, Storage, Tag, TagError,
};
use iceoryx2_description::description::{ServiceHash, StaticConfig};
use iceoryx2_log::log::Log;

impl<L: Log> Storage for Journal<L> {
    ghost use Rattle.iceoryx2_journal.specs.Journal.{IsAccessOver};

    ghost step = { λ old letter new. IsAccessOver L.contents L.held old letter new };

    fn exists(&mut self, hash: &ServiceHash) -> Existence {
        if !self.begin_look(true, hash) {
            return Existence::Fault;
        }
        self.recorder.log.let_go();
        self.world.exists(hash)
    }

    fn fetch(&mut self, node: u64, hash: &ServiceHash) -> Result<(u64, Vec<u8>), FetchError> {
        if !self.begin_look_as(node, hash) {
            return Err(FetchError::OpenFault);
        }
        self.recorder.log.let_go();
        self.world.fetch(node, hash)
    }

    fn counts(&mut self, node: u64, hash: &ServiceHash) -> bool {
        if !self.begin_as(node) {
            return false;
        }
        self.recorder.log.let_go();
        self.world.counts(node, hash)
    }

    fn make_tag(&mut self, node: u64, hash: &ServiceHash) -> Result<Tag, TagError> {
        if !self.begin_as(node) {
            return Err(TagError::Fault);
        }
        parts::make_tag(&mut self.world, &mut self.recorder, node, hash)
    }

    fn remove_tag(&mut self, node: u64, hash: &ServiceHash) -> Result<(), RemoveError> {
        if !self.begin_as(node) {
            return Err(RemoveError::Other);
        }
        parts::remove_tag(&mut self.world, &mut self.recorder, node, hash)
    }

    fn lock(&mut self, node: u64, hash: &ServiceHash) -> Result<u64, LockError> {
        if !self.begin_look_as(node, hash) {
            return Err(LockError::Other);
        }
        parts::lock(&mut self.world, &mut self.recorder, node, hash)
    }

    fn make_segment(
        &mut self,
        node: u64,
        hash: &ServiceHash,
        number: u64,
        max_nodes: u64,
    ) -> Result<(), MakeSegmentError> {
        if !self.begin_as(node) {
            return Err(MakeSegmentError::Other);
        }
        parts::make_segment(
            &mut self.world,
            &mut self.recorder,
            node,
            hash,
            number,
            max_nodes,
        )
    }

    fn remove_segment(&mut self, node: u64, hash: &ServiceHash) -> Result<(), RemoveError> {
        if !self.begin_as(node) {
            return Err(RemoveError::Other);
        }
        parts::remove_segment(&mut self.world, &mut self.recorder, node, hash)
    }

    fn remove_description(&mut self, node: u64, hash: &ServiceHash) -> Result<(), RemoveError> {
        if !self.begin_as(node) {
            return Err(RemoveError::Other);
        }
        parts::remove_description(&mut self.world, &mut self.recorder, node, hash)
    }

    /// Answers `Other` also if there was no memory for the description's bytes.
    fn publish(
        &mut self,
        node: u64,
        hash: &ServiceHash,
        number: u64,
        description: &StaticConfig,
    ) -> Result<u64, PublishError> {
        if !self.begin_as(node) {
            return Err(PublishError::Other);
        }
        parts::publish(
            &mut self.world,
            &mut self.recorder,
            node,
            hash,
            number,
            description,
        )
    }

    fn open_segment(
        &mut self,
        node: u64,
        hash: &ServiceHash,
        number: u64,
    ) -> Result<u64, OpenSegmentError> {
        if !self.begin_as(node) {
            return Err(OpenSegmentError::Failed);
        }
        parts::open_segment(&mut self.world, &mut self.recorder, node, hash, number)
    }

    fn release(
        &mut self,
        ticket: u64,
        node: u64,
        hash: &ServiceHash,
        number: u64,
    ) -> Result<Release, ReleaseError> {
        if !self.begin_as(node) {
            return Err(ReleaseError::NoSuchTicket);
        }
        parts::release(
            &mut self.world,
            &mut self.recorder,
            ticket,
            node,
            hash,
            number,
        )
    }
}
