//! A table within one process and one for many services, the answers of their readers, the steps of
//! others that may wait at them, and services that are in them.

pub use finite_map::FiniteMap;
pub use finite_map::chunks::ChunkedMap;
pub use iceoryx2_large_table::keys::{Seat, TagKey};
pub use iceoryx2_large_table::kinds::{Chunks, Kinds, Vectors};
pub use iceoryx2_large_table::local::ManyLocal;
pub use iceoryx2_large_table::table::LargeTable;
pub use iceoryx2_large_table::world::WorldOver;
pub use iceoryx2_table::local::Local;
pub use iceoryx2_table::own_parts::OwnParts;
pub use iceoryx2_table::rows::{RowState, StoredRow};
pub use iceoryx2_table::segments::StoredSegment;
pub use iceoryx2_table::table::{Table, TableOver};
pub use iceoryx2_world::batches::{Act, Step};
pub use iceoryx2_world::listing::{Entry, ListedRow, ListedSegment};
pub use iceoryx2_world::world::Bytes;
