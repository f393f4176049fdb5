//! The own parts of accesses that others have to know. Each is appended to a log before it changes
//! anything. The log is held before each part, and isn't held after it. If the log refuses the
//! entry, the answer is the access's general fault, and nothing changes.

ghost use Rattle.std.specs.Prelude.{◌≡◌, false};
ghost use Rattle.iceoryx2_access.specs.Letter as letter;
ghost use Rattle.iceoryx2_journal.specs.Logged.{IsLoggedPart};

use crate::log_recorder::LogRecorder;
use iceoryx2_access::storage::{
    LockError, MakeSegmentError, OpenSegmentError, PublishError, Release, ReleaseError,
    RemoveError, Tag, TagError,
};
use iceoryx2_data::bytes;
use iceoryx2_description::description::{ServiceHash, StaticConfig};
use iceoryx2_log::entry::{Entry, FormBytes, Operation};
use iceoryx2_log::log::Log;
use iceoryx2_table::table::stored::StoredWorld;

/// Makes the node's tag. If the tag wasn't there, it appends that. Answers `Fault` if the log
/// refuses.
pub fn make_tag<L: Log>(
    world: &mut StoredWorld,
    recorder: &mut LogRecorder<L>,
    node: u64,
    hash: &ServiceHash,
) -> Result<Tag, TagError>
    ensures logged { IsLoggedPart L.contents world.old (letter.MakeTag node hash.now result) world.new
        recorder.old.log recorder.new.log }
    ensures free { L.held recorder.new.log ≡ false }
{
    recorder.entry = Some(Entry {
        node,
        hash: *hash,
        operation: Operation::MakeTag,
    });
    let answer = world.make_tag(recorder, node, hash);
    recorder.log.let_go();
    answer
}

/// Removes the node's tag. If the tag was there, it appends that. Answers `Other` if the log
/// refuses.
pub fn remove_tag<L: Log>(
    world: &mut StoredWorld,
    recorder: &mut LogRecorder<L>,
    node: u64,
    hash: &ServiceHash,
) -> Result<(), RemoveError>
    ensures logged { IsLoggedPart L.contents world.old (letter.RemoveTag node hash.now result) world.new
        recorder.old.log recorder.new.log }
    ensures free { L.held recorder.new.log ≡ false }
{
    recorder.entry = Some(Entry {
        node,
        hash: *hash,
        operation: Operation::RemoveTag,
    });
    let answer = world.remove_tag(recorder, node, hash);
    recorder.log.let_go();
    answer
}

/// Takes the lock for the node. The lock's number is the counter's value before. Answers `Other` if
/// the log refuses.
pub fn lock<L: Log>(
    world: &mut StoredWorld,
    recorder: &mut LogRecorder<L>,
    node: u64,
    hash: &ServiceHash,
) -> Result<u64, LockError>
    ensures logged { IsLoggedPart L.contents world.old (letter.Lock node hash.now result) world.new
        recorder.old.log recorder.new.log }
    ensures free { L.held recorder.new.log ≡ false }
{
    let number = world.counter();
    recorder.entry = Some(Entry {
        node,
        hash: *hash,
        operation: Operation::Lock { number },
    });
    let answer = world.lock(recorder, node, hash);
    recorder.log.let_go();
    answer
}

/// Makes a segment for so many nodes. Answers `Other` if the log refuses.
pub fn make_segment<L: Log>(
    world: &mut StoredWorld,
    recorder: &mut LogRecorder<L>,
    node: u64,
    hash: &ServiceHash,
    number: u64,
    max_nodes: u64,
) -> Result<(), MakeSegmentError>
    ensures logged { IsLoggedPart L.contents world.old (letter.MakeSegment node hash.now number max_nodes result)
        world.new recorder.old.log recorder.new.log }
    ensures free { L.held recorder.new.log ≡ false }
{
    recorder.entry = Some(Entry {
        node,
        hash: *hash,
        operation: Operation::MakeSegment { number, max_nodes },
    });
    let answer = world.make_segment(recorder, node, hash, number, max_nodes);
    recorder.log.let_go();
    answer
}

/// Removes the segment. Answers `Other` if the log refuses.
pub fn remove_segment<L: Log>(
    world: &mut StoredWorld,
    recorder: &mut LogRecorder<L>,
    node: u64,
    hash: &ServiceHash,
) -> Result<(), RemoveError>
    ensures logged { IsLoggedPart L.contents world.old (letter.RemoveSegment node hash.now result) world.new
        recorder.old.log recorder.new.log }
    ensures free { L.held recorder.new.log ≡ false }
{
    recorder.entry = Some(Entry {
        node,
        hash: *hash,
        operation: Operation::RemoveSegment,
    });
    let answer = world.remove_segment(recorder, node, hash);
    recorder.log.let_go();
    answer
}

/// Removes what is written under the hash. Answers `Other` if the log refuses.
pub fn remove_description<L: Log>(
    world: &mut StoredWorld,
    recorder: &mut LogRecorder<L>,
    node: u64,
    hash: &ServiceHash,
) -> Result<(), RemoveError>
    ensures logged { IsLoggedPart L.contents world.old (letter.RemoveDescription node hash.now result) world.new
        recorder.old.log recorder.new.log }
    ensures free { L.held recorder.new.log ≡ false }
{
    recorder.entry = Some(Entry {
        node,
        hash: *hash,
        operation: Operation::RemoveDescription,
    });
    let answer = world.remove_description(recorder, node, hash);
    recorder.log.let_go();
    answer
}

/// Publishes the description, and appends its byte form. Answers `Other` if there is no memory for
/// the byte form, or if the log refuses.
pub fn publish<L: Log>(
    world: &mut StoredWorld,
    recorder: &mut LogRecorder<L>,
    node: u64,
    hash: &ServiceHash,
    number: u64,
    description: &StaticConfig,
) -> Result<u64, PublishError>
    ensures logged { IsLoggedPart L.contents world.old (letter.Publish node hash.now number description.now result)
        world.new recorder.old.log recorder.new.log }
    ensures free { L.held recorder.new.log ≡ false }
{
    let alloc = description.name().allocator();
    let Ok(form) = bytes::encode(alloc, description) else {
        recorder.log.let_go();
        return Err(PublishError::Other);
    };
    recorder.entry = Some(Entry {
        node,
        hash: *hash,
        operation: Operation::Publish {
            number,
            bytes: FormBytes::new(form),
        },
    });
    let answer = world.publish(recorder, node, hash, number, description);
    recorder.log.let_go();
    answer
}

/// Opens the segment for the node. The node's ticket is the counter's value before. Answers
/// `Failed` if the log refuses.
pub fn open_segment<L: Log>(
    world: &mut StoredWorld,
    recorder: &mut LogRecorder<L>,
    node: u64,
    hash: &ServiceHash,
    number: u64,
) -> Result<u64, OpenSegmentError>
    ensures logged { IsLoggedPart L.contents world.old (letter.OpenSegment node hash.now number result) world.new
        recorder.old.log recorder.new.log }
    ensures free { L.held recorder.new.log ≡ false }
{
    let ticket = world.counter();
    recorder.entry = Some(Entry {
        node,
        hash: *hash,
        operation: Operation::OpenSegment { number, ticket },
    });
    let answer = world.open_segment(recorder, node, hash, number);
    recorder.log.let_go();
    answer
}

/// Releases the ticket. Answers `NoSuchTicket` if the log refuses.
pub fn release<L: Log>(
    world: &mut StoredWorld,
    recorder: &mut LogRecorder<L>,
    ticket: u64,
    node: u64,
    hash: &ServiceHash,
    number: u64,
) -> Result<Release, ReleaseError>
    ensures logged { IsLoggedPart L.contents world.old (letter.Release ticket node hash.now number result) world.new
        recorder.old.log recorder.new.log }
    ensures free { L.held recorder.new.log ≡ false }
{
    recorder.entry = Some(Entry {
        node,
        hash: *hash,
        operation: Operation::Release { ticket, number },
    });
    let answer = world.release(recorder, ticket, node, hash, number);
    recorder.log.let_go();
    answer
}
