//! Compares the answer of an access with an entry. `OutOfMemory` if the access had no memory, and `Disagrees` for any
//! other answer that differs.

ghost use Rattle.std.specs.Prelude.{◌≡◌, true, false, Ok, Err, is_ok};
ghost use Rattle.iceoryx2_access.specs.declared.storage.LockError.TheVariants as locking;
ghost use Rattle.iceoryx2_access.specs.declared.storage.MakeSegmentError.TheVariants as making;
ghost use Rattle.iceoryx2_access.specs.declared.storage.OpenSegmentError.TheVariants as opening;
ghost use Rattle.iceoryx2_access.specs.declared.storage.PublishError.TheVariants as publishing;
ghost use Rattle.iceoryx2_access.specs.declared.storage.TagError.TheVariants as tag_error;
ghost use Rattle.iceoryx2_access.specs.declared.storage.Tag.TheVariants.{Made};
ghost use Rattle.iceoryx2_journal.specs.Follow.{Judges};

use super::FollowError;
use iceoryx2_access::storage::{
    LockError, MakeSegmentError, OpenSegmentError, PublishError, Release, ReleaseError,
    RemoveError, Tag, TagError,
};

/// Expects that the tag was made. `Disagrees` also if it was there.
pub fn made_tag(answer: Result<Tag, TagError>) -> Result<(), FollowError>
    ensures { Judges (answer ≡ Ok Made) (is_ok answer ≡ false) (answer ≡ Err tag_error.OutOfMemory) result }
{
    match answer {
        Ok(Tag::Made) => Ok(()),
        Err(TagError::OutOfMemory) => Err(FollowError::OutOfMemory),
        _ => Err(FollowError::Disagrees),
    }
}

/// Expects a removal.
pub fn removed(answer: Result<(), RemoveError>) -> Result<(), FollowError>
    ensures { Judges (answer ≡ Ok tt) (is_ok answer ≡ false) ⊥ result }
{
    match answer {
        Ok(()) => Ok(()),
        Err(_) => Err(FollowError::Disagrees),
    }
}

/// Expects a lock with the entry's number.
pub fn locked(answer: Result<u64, LockError>, number: u64) -> Result<(), FollowError>
    ensures { Judges (answer ≡ Ok number) (is_ok answer ≡ false) (answer ≡ Err locking.OutOfMemory) result }
{
    match answer {
        Ok(found) => same(found, number),
        Err(LockError::OutOfMemory) => Err(FollowError::OutOfMemory),
        Err(_) => Err(FollowError::Disagrees),
    }
}

/// Expects that the segment was made.
pub fn made_segment(answer: Result<(), MakeSegmentError>) -> Result<(), FollowError>
    ensures { Judges (answer ≡ Ok tt) (is_ok answer ≡ false) (answer ≡ Err making.OutOfMemory) result }
{
    match answer {
        Ok(()) => Ok(()),
        Err(MakeSegmentError::OutOfMemory) => Err(FollowError::OutOfMemory),
        Err(_) => Err(FollowError::Disagrees),
    }
}

/// Expects that the description was published with the entry's number.
pub fn published(answer: Result<u64, PublishError>, number: u64) -> Result<(), FollowError>
    ensures { Judges (answer ≡ Ok number) (is_ok answer ≡ false)
        (answer ≡ Err publishing.OutOfMemory) result }
{
    match answer {
        Ok(found) => same(found, number),
        Err(PublishError::OutOfMemory) => Err(FollowError::OutOfMemory),
        Err(_) => Err(FollowError::Disagrees),
    }
}

/// Expects that the segment was opened with the entry's ticket.
pub fn opened(answer: Result<u64, OpenSegmentError>, ticket: u64) -> Result<(), FollowError>
    ensures { Judges (answer ≡ Ok ticket) (is_ok answer ≡ false) (answer ≡ Err opening.OutOfMemory) result }
{
    match answer {
        Ok(found) => same(found, ticket),
        Err(OpenSegmentError::OutOfMemory) => Err(FollowError::OutOfMemory),
        Err(_) => Err(FollowError::Disagrees),
    }
}

/// Expects that the ticket was released, whatever is left then.
pub fn released(answer: Result<Release, ReleaseError>) -> Result<(), FollowError>
    ensures { Judges (is_ok answer ≡ true) (is_ok answer ≡ false) ⊥ result }
{
    match answer {
        Ok(_) => Ok(()),
        Err(_) => Err(FollowError::Disagrees),
    }
}

// Returns an error if the number isn't the entry's.
fn same(found: u64, number: u64) -> Result<(), FollowError>
    ensures { Judges (found ≡ number) ⊥ ⊥ result }
{
    if found == number {
        Ok(())
    } else {
        Err(FollowError::Disagrees)
    }
}
