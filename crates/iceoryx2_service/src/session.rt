//! Sessions of commands, their storages, their commands and replies, and the laws of their calls
//! over a table.

pub use iceoryx2_builder::command::{
    Call, Command, EventSetter, How, PublishSubscribeSetter, Refusal, Reply, RequestResponseSetter,
    SLOTS, Settings,
};
pub use iceoryx2_call_laws::fault_laws::agreement_under_faults;
pub use iceoryx2_call_laws::laws::agreement;
pub use iceoryx2_errors::refusal::Reason;
pub use iceoryx2_session::resuming::{Renewing, Resuming};
pub use iceoryx2_session::session::{Session, TableSession};
pub use iceoryx2_session::table_storage::TableStorage;
pub use iceoryx2_session::world_storage::WorldStorage;
