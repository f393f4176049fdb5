//! The content that a table keeps of all nodes, whatever its maps are.

ghost use Rattle.std.specs.Prelude.{◌≡◌, IfOk};
ghost use Rattle.iceoryx2_access.specs.Letter as letter;
ghost use Rattle.iceoryx2_access.specs.Letter.{fetch_answer};
ghost use Rattle.iceoryx2_world.specs.World.{World, empty_world, ticket_count, tag_of};
ghost use Rattle.iceoryx2_world.specs.Access.{IsOwnPart};
ghost use Rattle.iceoryx2_world.specs.Batches.{IsBatch};
ghost use Rattle.iceoryx2_world.specs.Listing.{Lists};

use iceoryx2_access::storage::{
    Existence, FetchError, LockError, MakeSegmentError, OpenSegmentError, PublishError, Release,
    ReleaseError, RemoveError, Tag, TagError,
};
use iceoryx2_description::description::{ServiceHash, StaticConfig};
use iceoryx2_world::batches::Step;
use iceoryx2_world::listing::Entry;
use std::alloc::{AllocError, Global};

/// A type that keeps a world, with the own part of each of the twelve accesses of a node.
///
/// An access that is refused, or that finds no memory, changes nothing.
pub trait OwnParts: Sized {
    /// The world that it keeps.
    ghost world: { Self → World };

    /// Returns an empty world with the counter's first value. Takes no memory.
    fn starting_at(alloc: Global, counter: u64) -> Self
        ensures { world result ≡ empty_world counter };

    /// Lets all of it go.
    // In place of a bound `Drop`: with that one no type of services can name a table over maps whose keys are pairs.
    fn let_go(self);

    /// Takes a batch's steps in order, and returns the count of skipped steps after them. The count stops
    /// at `u64::MAX`.
    fn take_all(&mut self, batch: &[Step], skipped: u64) -> u64
        ensures { IsBatch (world self.old, skipped) batch.now (world self.new, result) };

    /// Returns each service with a row or a segment, in the order of the hashes' bytes.
    fn list(&self) -> Result<Vec<Entry>, AllocError>
        ensures { IfOk result (λ entries. Lists (world self.now) entries.items) };

    /// Returns true if the node has a tag for the service.
    fn has_tag(&self, node: u64, hash: &ServiceHash) -> bool
        ensures { result ≡ tag_of (world self.now) node hash.now };

    /// Returns the number of tickets that the node has for the service. Goes through all tickets, and
    /// takes no memory.
    fn tickets(&self, node: u64, hash: &ServiceHash) -> u64
        ensures { result ≡ ticket_count (world self.now).tickets node hash.now };

    /// Returns the next number or ticket: the one that `lock` and `open_segment` hand out if they are
    /// granted.
    fn counter(&self) -> u64
        ensures { result ≡ (world self.now).counter };

    /// Returns `No` if nothing is written under the hash, `BeingSetUp` if somebody holds its lock, and
    /// `Yes` if it is published.
    fn exists(&self, hash: &ServiceHash) -> Existence
        ensures { IsOwnPart (world self.now) (letter.Exists hash.now result) (world self.now) };

    /// Returns the number and the bytes of the published description, which the node has read then.
    /// `DoesNotExist`, `NotFinalized` while the service is being set up, `OutOfMemory`.
    fn fetch(&mut self, node: u64, hash: &ServiceHash) -> Result<(u64, Vec<u8>), FetchError>
        ensures { IsOwnPart (world self.old) (letter.Fetch node hash.now (fetch_answer result)) (world self.new) };

    /// Returns true if the node is registered in the service's segment.
    fn counts(&self, node: u64, hash: &ServiceHash) -> bool
        ensures { IsOwnPart (world self.now) (letter.Counts node hash.now result) (world self.now) };

    /// Makes the node's tag. Returns `Found` if the tag is there already, else `Made`. `OutOfMemory`.
    fn make_tag(&mut self, node: u64, hash: &ServiceHash) -> Result<Tag, TagError>
        ensures { IsOwnPart (world self.old) (letter.MakeTag node hash.now result) (world self.new) };

    /// Removes the node's tag.
    fn remove_tag(&mut self, node: u64, hash: &ServiceHash) -> Result<(), RemoveError>
        ensures { IsOwnPart (world self.old) (letter.RemoveTag node hash.now result) (world self.new) };

    /// Gives the node the service's lock, and returns its number: the counter before. `Creation` while
    /// another node holds the lock, `AlreadyExists` if the service is published, and `OutOfMemory`.
    /// `Other` if no number is left, or if the node holds something there.
    fn lock(&mut self, node: u64, hash: &ServiceHash) -> Result<u64, LockError>
        ensures { IsOwnPart (world self.old) (letter.Lock node hash.now result) (world self.new) };

    /// Makes a segment for so many nodes, and puts the node into it. `AlreadyExists`, and `OutOfMemory`.
    /// `Other` if the node doesn't hold the lock of that number, or for no nodes.
    fn make_segment(
        &mut self,
        node: u64,
        hash: &ServiceHash,
        number: u64,
        max_nodes: u64,
    ) -> Result<(), MakeSegmentError>
        ensures { IsOwnPart (world self.old) (letter.MakeSegment node hash.now number max_nodes result)
            (world self.new) };

    /// Removes the segment. `Other` if the node may not remove it.
    fn remove_segment(&mut self, node: u64, hash: &ServiceHash) -> Result<(), RemoveError>
        ensures { IsOwnPart (world self.old) (letter.RemoveSegment node hash.now result) (world self.new) };

    /// Removes what is written under the hash. `Other` if the node may not remove it.
    fn remove_description(&mut self, node: u64, hash: &ServiceHash) -> Result<(), RemoveError>
        ensures { IsOwnPart (world self.old) (letter.RemoveDescription node hash.now result) (world self.new) };

    /// Publishes the description under the number, which becomes the ticket of the node: the node is
    /// registered then. `OutOfMemory`. `Other` if the node hasn't made a segment of that number that the
    /// description fits.
    fn publish(
        &mut self,
        node: u64,
        hash: &ServiceHash,
        number: u64,
        description: &StaticConfig,
    ) -> Result<u64, PublishError>
        ensures { IsOwnPart (world self.old) (letter.Publish node hash.now number description.now result)
            (world self.new) };

    /// Registers the node in the segment of that number, and returns its ticket: the counter before.
    /// `DoesNotExist`, `Marked` if all have left, `Full`, `OutOfNumbers`, and `OutOfMemory`. `Failed` if
    /// the segment has another number, or the description that the node has read, or if the node can't
    /// join.
    fn open_segment(
        &mut self,
        node: u64,
        hash: &ServiceHash,
        number: u64,
    ) -> Result<u64, OpenSegmentError>
        ensures { IsOwnPart (world self.old) (letter.OpenSegment node hash.now number result) (world self.new) };

    /// Releases the ticket. Returns `StillCounted` if the node has others, else `Left`, or `Last` if
    /// nobody stays; the segment is then marked. `NoSuchTicket` if the node has no such ticket for the
    /// service and number.
    fn release(
        &mut self,
        ticket: u64,
        node: u64,
        hash: &ServiceHash,
        number: u64,
    ) -> Result<Release, ReleaseError>
        ensures { IsOwnPart (world self.old) (letter.Release ticket node hash.now number result) (world self.new) };
}
