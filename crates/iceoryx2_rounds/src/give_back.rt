//! The giving back of what a refused call made.

ghost use Rattle.std.specs.Prelude.{◌∷◌};
ghost use Rattle.iceoryx2_access.specs.Run.{Joins};
ghost use Rattle.iceoryx2_rounds.specs.GivesBack.{GivesBack, OwnLock, OwnSegment, own_tag};

use iceoryx2_access::storage::{Storage, Tag};
use iceoryx2_description::description::ServiceHash;

/// Gives back a tag that the call made, whatever the removal answers. A tag that was there stays.
pub(crate) fn give_back_tag<S: Storage>(node: u64, hash: &ServiceHash, tag: Tag, storage: &mut S)
    ensures { Joins S.step storage.old (GivesBack node hash.now (own_tag tag)) storage.new }
{
    match tag {
        Tag::Made => {
            let _ = storage.remove_tag(node, hash);
        }
        Tag::Found => {}
    }
}

/// Gives back the lock, and then the tag.
pub(crate) fn give_back_lock<S: Storage>(node: u64, hash: &ServiceHash, tag: Tag, storage: &mut S)
    ensures { Joins S.step storage.old (GivesBack node hash.now (OwnLock ∷ own_tag tag)) storage.new }
{
    let _ = storage.remove_description(node, hash);
    give_back_tag(node, hash, tag, storage);
}

/// Gives back the segment, then the lock, and then the tag.
pub(crate) fn give_back_segment<S: Storage>(
    node: u64,
    hash: &ServiceHash,
    tag: Tag,
    storage: &mut S,
)
    ensures { Joins S.step storage.old
        (GivesBack node hash.now (OwnSegment ∷ OwnLock ∷ own_tag tag)) storage.new }
{
    let _ = storage.remove_segment(node, hash);
    give_back_lock(node, hash, tag, storage);
}
