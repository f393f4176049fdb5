//! Services within one process.

use crate::table::Table;
use iceoryx2_access::storage::{Service, Sha1Hasher};

/// Services in a [`Table`], under hashes by SHA-1.
#[derive(Clone, Copy, Debug, PartialEq, Eq)]
pub struct Local;

impl Service for Local {
    type Storage = Table;

    type ServiceNameHasher = Sha1Hasher;
}
