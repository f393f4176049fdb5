//! The tags that are removed or made.

use super::{Reached, entry, from_key};
use iceoryx2_log::entry::{Entry, Operation};
use iceoryx2_table::table::stored::StoredWorld;

/// Returns the removal of the next tag that the later world doesn't have.
pub fn to_remove(reached: &mut Reached, from: &StoredWorld, to: &StoredWorld) -> Option<Entry> {
    for ((node, hash), _) in from_key(from.tags_held(), &reached.tag) {
        reached.tag = (*node, *hash);
        if !to.has_tag(*node, hash) {
            return Some(entry(*node, *hash, Operation::RemoveTag));
        }
    }
    None
}

/// Returns the making of the next tag that only the later world has.
pub fn to_make(reached: &mut Reached, from: &StoredWorld, to: &StoredWorld) -> Option<Entry> {
    for ((node, hash), _) in from_key(to.tags_held(), &reached.tag) {
        reached.tag = (*node, *hash);
        if !from.has_tag(*node, hash) {
            return Some(entry(*node, *hash, Operation::MakeTag));
        }
    }
    None
}
