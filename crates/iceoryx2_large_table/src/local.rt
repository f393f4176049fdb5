//! Services within one process, for many of them.

use crate::table::LargeTable;
use iceoryx2_access::storage::{Service, Sha1Hasher};

/// Services in a [`LargeTable`], under hashes by SHA-1.
#[derive(Clone, Copy, Debug, PartialEq, Eq)]
pub struct ManyLocal;

impl Service for ManyLocal {
    type Storage = LargeTable;

    type ServiceNameHasher = Sha1Hasher;
}
