//! Changes a process's world by the entries of others.

ghost use Rattle.iceoryx2_log.specs.declared.entry.Operation.TheVariants as operation;
ghost use Rattle.iceoryx2_journal.specs.Follow.{MayFetch, Follows};

mod judging;

use iceoryx2_access::storage::FetchError;
use iceoryx2_data::bytes::{self, DecodeError};
use iceoryx2_description::description::ServiceHash;
use iceoryx2_log::entry::{Entry, FormBytes, Operation};
use iceoryx2_table::recorder::Unrecorded;
use iceoryx2_table::table::stored::StoredWorld;
use std::alloc::Global;

/// Why an entry isn't followed.
#[derive(Clone, Copy, Debug, PartialEq, Eq)]
pub enum FollowError {
    /// There was no memory. The entry can be followed again.
    OutOfMemory,
    /// The access doesn't answer what the entry states: another program differs, or the log is damaged. The access's
    /// changes stay, so the world isn't the log's any more.
    Disagrees,
}

/// Makes the entry's access as its node, and compares the answer, or spends numbers. Before an opening, a node that
/// isn't registered fetches. If there is no memory, nothing changes, except that the node may have read. Answers
/// `Disagrees` also for the mark that the log goes on in another place, which the log has to see.
pub fn follow(alloc: Global, world: &mut StoredWorld, entry: &Entry) -> Result<(), FollowError>
    ensures { Follows entry.now result world.old world.new }
{
    let node = entry.node;
    let hash = &entry.hash;
    match &entry.operation {
        Operation::MakeTag => make_tag(world, node, hash),
        Operation::RemoveTag => remove_tag(world, node, hash),
        Operation::Lock { number } => lock(world, node, hash, *number),
        Operation::MakeSegment { number, max_nodes } => {
            make_segment(world, node, hash, *number, *max_nodes)
        }
        Operation::RemoveSegment => remove_segment(world, node, hash),
        Operation::RemoveDescription => remove_description(world, node, hash),
        Operation::Publish { number, bytes } => publish(alloc, world, node, hash, *number, bytes),
        Operation::OpenSegment { number, ticket } => open_segment(
            world, node, hash, *number, *ticket,
        ),
        Operation::Release { ticket, number } => release(world, *ticket, node, hash, *number),
        Operation::Spend { number } => spend(world, node, hash, *number),
        Operation::Moved => Err(FollowError::Disagrees),
    }
}

// The node spends numbers.
fn spend(
    world: &mut StoredWorld,
    node: u64,
    hash: &ServiceHash,
    number: u64,
) -> Result<(), FollowError>
    ensures { Follows
        (record { node = node; hash = hash.now; operation = operation.Spend number }) result world.old world.new }
{
    if world.spend(node, hash, number) {
        Ok(())
    } else {
        Err(FollowError::Disagrees)
    }
}

fn make_tag(world: &mut StoredWorld, node: u64, hash: &ServiceHash) -> Result<(), FollowError>
    ensures { Follows
        (record { node = node; hash = hash.now; operation = operation.MakeTag }) result world.old world.new }
{
    judging::made_tag(world.make_tag(&mut Unrecorded, node, hash))
}

fn remove_tag(world: &mut StoredWorld, node: u64, hash: &ServiceHash) -> Result<(), FollowError>
    ensures { Follows
        (record { node = node; hash = hash.now; operation = operation.RemoveTag }) result world.old world.new }
{
    judging::removed(world.remove_tag(&mut Unrecorded, node, hash))
}

fn lock(
    world: &mut StoredWorld,
    node: u64,
    hash: &ServiceHash,
    number: u64,
) -> Result<(), FollowError>
    ensures { Follows
        (record { node = node; hash = hash.now; operation = operation.Lock number }) result world.old world.new }
{
    judging::locked(world.lock(&mut Unrecorded, node, hash), number)
}

fn make_segment(
    world: &mut StoredWorld,
    node: u64,
    hash: &ServiceHash,
    number: u64,
    max_nodes: u64,
) -> Result<(), FollowError>
    ensures { Follows
        (record { node = node; hash = hash.now; operation = operation.MakeSegment number max_nodes })
        result world.old world.new }
{
    judging::made_segment(world.make_segment(&mut Unrecorded, node, hash, number, max_nodes))
}

fn remove_segment(world: &mut StoredWorld, node: u64, hash: &ServiceHash) -> Result<(), FollowError>
    ensures { Follows
        (record { node = node; hash = hash.now; operation = operation.RemoveSegment }) result world.old world.new }
{
    judging::removed(world.remove_segment(&mut Unrecorded, node, hash))
}

fn remove_description(
    world: &mut StoredWorld,
    node: u64,
    hash: &ServiceHash,
) -> Result<(), FollowError>
    ensures { Follows (record { node = node; hash = hash.now; operation = operation.RemoveDescription }) result
        world.old world.new }
{
    judging::removed(world.remove_description(&mut Unrecorded, node, hash))
}

fn publish(
    alloc: Global,
    world: &mut StoredWorld,
    node: u64,
    hash: &ServiceHash,
    number: u64,
    bytes: &FormBytes,
) -> Result<(), FollowError>
    ensures { Follows (record { node = node; hash = hash.now; operation = operation.Publish number bytes.now }) result
        world.old world.new }
{
    match bytes::decode(alloc, bytes.as_slice()) {
        Ok(description) => judging::published(
            world.publish(&mut Unrecorded, node, hash, number, &description),
            number,
        ),
        Err(DecodeError::OutOfMemory) => Err(FollowError::OutOfMemory),
        Err(DecodeError::Malformed) => Err(FollowError::Disagrees),
    }
}

fn open_segment(
    world: &mut StoredWorld,
    node: u64,
    hash: &ServiceHash,
    number: u64,
    ticket: u64,
) -> Result<(), FollowError>
    ensures { Follows (record { node = node; hash = hash.now; operation = operation.OpenSegment number ticket }) result
        world.old world.new }
{
    if !fetch(world, node, hash) {
        return Err(FollowError::OutOfMemory);
    }
    judging::opened(
        world.open_segment(&mut Unrecorded, node, hash, number),
        ticket,
    )
}

// Fetches the service if the node isn't registered. Returns false if there was no memory.
fn fetch(world: &mut StoredWorld, node: u64, hash: &ServiceHash) -> bool
    ensures { MayFetch node hash.now world.old world.new }
{
    if world.counts(node, hash) {
        return true;
    }
    match world.fetch(node, hash) {
        Err(error) => error != FetchError::OutOfMemory,
        Ok(_) => true,
    }
}

fn release(
    world: &mut StoredWorld,
    ticket: u64,
    node: u64,
    hash: &ServiceHash,
    number: u64,
) -> Result<(), FollowError>
    ensures { Follows (record { node = node; hash = hash.now; operation = operation.Release ticket number }) result
        world.old world.new }
{
    judging::released(world.release(&mut Unrecorded, ticket, node, hash, number))
}
