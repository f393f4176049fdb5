//! The table for many services.

use crate::kinds::Chunks;
use crate::world::WorldOver;
use iceoryx2_table::table::TableOver;

/// A storage within one process for many services. It does all that a `Table` does. Each of its maps keeps
/// its entries in chunks.
pub type LargeTable = TableOver<WorldOver<Chunks>>;
