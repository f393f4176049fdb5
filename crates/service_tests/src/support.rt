//! What the tests share.

use iceoryx2_access::storage::{ServiceNameHasher, Sha1Hasher};
use iceoryx2_description::description::{ServiceHash, ServiceName};
use iceoryx2_log::entry::Entry;
use iceoryx2_table::table::Table;
use std::alloc::Global;
use std::fmt::Debug;
use std::process::Abort;

/// Ends a test that finds another value than it wants. Only here is a value compared and printed, since
/// a function that does so takes long to prove.
pub fn assert_same<T: Debug + PartialEq + Drop>(rt: &impl Abort, found: T, wanted: T) {
    assert_eq!(rt; found, wanted);
}

/// What is answered that isn't refused.
pub fn granted<T, E: Drop>(rt: &impl Abort, answer: Result<T, E>) -> T {
    match answer {
        Ok(given) => given,
        Err(_) => panic!(rt; "refused"),
    }
}

/// What there is.
pub fn there<T>(rt: &impl Abort, value: Option<T>) -> T {
    match value {
        Some(value) => value,
        None => panic!(rt; "nothing is there"),
    }
}

/// A name.
pub fn name(rt: &impl Abort, alloc: Global, text: &str) -> ServiceName {
    granted(rt, ServiceName::new(alloc, text))
}

/// The hash of a service of this name, by what is hashed in front of it.
pub fn hash_of(prefix: u8, name: &ServiceName) -> ServiceHash {
    Sha1Hasher::hash(prefix, name)
}

/// Puts something after the rest.
pub fn push<T: Drop>(rt: &impl Abort, all: &mut Vec<T>, last: T) {
    granted(rt, all.push(last))
}

/// Lets a table go. It is dropped here alone, since a function that drops one takes long to prove.
pub fn drop_table(table: Table) {
    let _table = table;
}

/// Copies of entries.
pub fn copies(rt: &impl Abort, alloc: Global, entries: &[Entry]) -> Vec<Entry> {
    let mut copies = Vec::new(alloc);
    for entry in entries {
        push(rt, &mut copies, granted(rt, entry.clone()));
    }
    copies
}
