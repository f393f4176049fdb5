//! A storage that processes share: a journal over a log of accesses, and logs in memory and in files.

pub use iceoryx2_file_log::cursor::State;
pub use iceoryx2_file_log::error::{FileFault, FileLogError};
pub use iceoryx2_file_log::file_log::FileLog;
pub use iceoryx2_file_log::header::{Header, LogName, NAME_LENGTH};
pub use iceoryx2_file_log::options::{FileLogOptions, Sharing};
pub use iceoryx2_journal::cleaning::{AdoptError, CleanError, Cleaned};
pub use iceoryx2_journal::journal::{Journal, Shared};
pub use iceoryx2_log::call_log::{CallLog, SpansCalls};
pub use iceoryx2_log::entry::{Entry, FormBytes, Operation};
pub use iceoryx2_log::log::{Log, LogError};
pub use iceoryx2_log::memory::{Batch, MemoryLog};
pub use iceoryx2_table::holdings::Holding;
pub use iceoryx2_table::recorder::{NotWritten, Recorder, Unrecorded};
pub use iceoryx2_table::table::stored::StoredWorld;
pub use iceoryx2_world::world::{Participant, Phase, Ticket};
