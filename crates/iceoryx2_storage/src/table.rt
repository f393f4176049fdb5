//! The table within one process, the steps of others that may wait at it, and the services that are in it.

pub use iceoryx2_table::local::Local;
pub use iceoryx2_table::table::Table;
pub use iceoryx2_world::batches::{Act, Step};
pub use iceoryx2_world::listing::{Entry, ListedRow, ListedSegment};
pub use iceoryx2_world::world::Bytes;
