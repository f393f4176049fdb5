//! The recorder that writes an access down in a log before the access changes anything.

ghost use Rattle.std.specs.Prelude.{◌≡◌};

use iceoryx2_log::entry::Entry;
use iceoryx2_log::log::Log;
use iceoryx2_table::recorder::{NotWritten, Recorder};

/// A log, with the entry that is to be appended next.
#[derive(Drop)]
pub struct LogRecorder<L> {
    pub log: L,
    pub entry: Option<Entry>,
}

impl<L: Log> Recorder for LogRecorder<L> {
    ghost use Rattle.iceoryx2_journal.specs.LogRecorder.{Appended, NotAppended};

    ghost written = { λ before after. Appended L.contents before after };

    ghost refused = { λ before after. NotAppended L.contents before after };

    /// Appends the entry. Refused if there is none, or if the log refuses.
    fn write_down(&mut self) -> Result<(), NotWritten> {
        match &self.entry {
            None => Err(NotWritten),
            Some(entry) => match self.log.append(entry) {
                Ok(()) => Ok(()),
                Err(_) => Err(NotWritten),
            },
        }
    }
}
