//! How a handle goes to another file of its log, and makes one.

ghost use Rattle.std.specs.Prelude.{◌≡◌, ◌≢◌, ◌≤◌, length, Err, IfOk, IfErr, OnOk, IfSome};
ghost use Rattle.iceoryx2_file_log.specs.declared.error.FileFault.TheVariants as fault;
ghost use Rattle.iceoryx2_file_log.specs.declared.header.TheConstants.{HEADER_LENGTH};
ghost use Rattle.iceoryx2_file_log.specs.declared.cursor.State.TheVariants as state;
ghost use Rattle.iceoryx2_file_log.specs.Compaction.{IsSnapshot, IsWorth, IsDeclined, TriesAgain};
ghost use Rattle.iceoryx2_file_log.specs.Place.{why_not_held};
ghost use Rattle.iceoryx2_file_log.specs.Moving.{stood, ended, IsErrWith, MayCompact, Stays};

use super::FileLog;
use super::beside::{Located, NewFile, locate, make_beside};
use super::marking::{Move, is_alone, move_log};
use crate::compaction::{
    Snapshot, first_tried, is_worth, length_later, length_worth, mark_form, snapshot_of,
};
use crate::cursor::Cursor;
use crate::error::FileFault;
use crate::header::{HEADER_LENGTH, Header};
use crate::opening::FileNumber;
use iceoryx2_log::entry::Entry;
use iceoryx2_log::log::LogError;
use std::fs::{self, File};
use std::rt::Files;
use std::time::Clock;

/// The new file of a compaction, locked and read back.
#[derive(Drop)]
pub(super) struct NewPlace {
    pub file: File,
    pub number: FileNumber,
    /// The path of the file.
    pub beside: String,
    pub snapshot: Snapshot,
}

/// The reason why a compaction is declined, and the length from which one is tried again.
#[derive(Clone, Copy)]
pub(super) struct Declined {
    pub why: FileFault,
    pub tries_from: u64,
}

impl<R: Files<File = File> + Clock + AllocGlobal> FileLog<R> {
    /// Returns the file that has the path now, held. The handle itself is held.
    pub(super) fn located(&self) -> Result<Located, FileFault>
        ensures found { IfOk result (λ found. (found.header.name ≡ self.now.header.name)
            × (HEADER_LENGTH ≤ found.file_length)) }
        ensures held { OnOk result (self.now.cursor.state ≡ state.Held) }
        ensures not_held { IfSome (why_not_held self.now.cursor.state) (λ why. result ≡ Err why) }
    {
        if let Some(why) = self.cursor.why_not_held() {
            return Err(why);
        }
        locate(
            &self.rt,
            &self.path,
            &self.file,
            self.number,
            self.header.name,
            self.options.patience,
        )
    }

    /// Stands at this position of the file with this header and length, which is held.
    fn stand(&mut self, position: u64, header: Header, file_length: u64)
        requires held { self.old.cursor.state ≡ state.Held }
        requires within { position ≤ file_length }
        ensures { self.new ≡ stood position header file_length self.old }
    {
        self.header = header;
        self.cursor = Cursor::new(self.rt.alloc(), position);
        self.cursor.hold(file_length);
        self.tries_from = first_tried(&header);
        self.is_away = false;
    }

    /// Goes to the file that was located, and gives up the own file, if that is another one.
    pub(super) fn go_to(&mut self, found: Located)
        requires held { self.old.cursor.state ≡ state.Held }
        requires length { HEADER_LENGTH ≤ found.file_length }
        ensures { self.new ≡ stood HEADER_LENGTH found.header found.file_length self.old }
    {
        let Located {
            file,
            number,
            header,
            file_length,
        } = found;
        if let Some(file) = file {
            self.file = file;
        }
        self.number = number;
        self.stand(HEADER_LENGTH as u64, header, file_length);
    }

    /// Checks that another file may replace the own file. `Moved` if the own file doesn't have the path, or has
    /// another name too.
    fn may_be_left(&self) -> Result<(), FileFault>
        ensures { IfErr result (λ why. why ≢ fault.NothingSaved) }
    {
        if is_alone(&self.rt, &self.path, &self.file)? {
            return Ok(());
        }
        Err(FileFault::Moved)
    }

    /// Returns the file of a compaction to these entries.
    fn wanted(&self, entries: &[Entry]) -> Result<Snapshot, FileFault>
        ensures ok { IfOk result (λ file. IsSnapshot self.now.header.name entries.now file.header file.bytes.items) }
        ensures held { OnOk result (self.now.cursor.state ≡ state.Held) }
        ensures all_read { OnOk result (self.now.cursor.file_length ≡ self.now.cursor.position) }
        ensures err { IfErr result (λ why. why ≢ fault.NothingSaved) }
        ensures not_held { IfSome (why_not_held self.now.cursor.state) (λ why. result ≡ Err why) }
    {
        if let Some(why) = self.cursor.why_not_held() {
            return Err(why);
        }
        if !self.cursor.is_read() {
            return Err(FileFault::Unread);
        }
        self.may_be_left()?;
        snapshot_of(self.rt.alloc(), self.header.name, entries)
    }

    /// Makes a file of these bytes beside the own file, and returns it with its path.
    fn written(&self, bytes: &[u8]) -> Result<(NewFile, String), FileFault>
        ensures { IfErr result (λ why. why ≢ fault.NothingSaved) }
    {
        let Ok(beside) = format!(in self.rt.alloc(); "{}.compacted", self.path) else {
            return Err(FileFault::OutOfMemory);
        };
        let patience = self.options.patience;
        match make_beside(&self.rt, &beside, &self.file, bytes, patience) {
            Ok(made) => Ok((made, beside)),
            Err(why) => Err(why),
        }
    }

    /// Makes the file of a compaction, if the own file is worth it.
    fn made(&self, snapshot: Snapshot) -> Result<NewPlace, Declined>
        ensures ok { IfOk result (λ place. (place.snapshot ≡ snapshot)
            × IsWorth self.now.cursor.file_length (length snapshot.bytes.items)) }
        ensures err { IfErr result (λ declined. IsDeclined declined.why (length snapshot.bytes.items)
            self.now.cursor.file_length declined.tries_from) }
    {
        let file_length = self.cursor.file_length();
        let wanted = snapshot.bytes.len() as u64;
        if !is_worth(file_length, wanted) {
            return Err(Declined {
                why: FileFault::NothingSaved,
                tries_from: length_worth(wanted),
            });
        }
        match self.written(&snapshot.bytes) {
            Ok((NewFile { file, number }, beside)) => Ok(NewPlace {
                file,
                number,
                beside,
                snapshot,
            }),
            Err(why) => Err(Declined {
                why,
                tries_from: length_later(file_length),
            }),
        }
    }

    /// Makes the file of a compaction to these entries.
    pub(super) fn prepared(&self, entries: &[Entry]) -> Result<NewPlace, Declined>
        ensures ok { IfOk result (λ place.
            MayCompact entries.now self.now place.snapshot.header place.snapshot.bytes.items) }
        ensures err { IfErr result (λ declined. TriesAgain declined.why self.now.header.name entries.now
            self.now.cursor.file_length declined.tries_from) }
        ensures not_held { IfSome (why_not_held self.now.cursor.state)
            (λ why. IsErrWith result (λ declined. declined.why ≡ why)) }
    {
        match self.wanted(entries) {
            Ok(snapshot) => self.made(snapshot),
            Err(why) => Err(Declined {
                why,
                tries_from: length_later(self.cursor.file_length()),
            }),
        }
    }

    /// Gives the path to the file beside, which has this number, and the mark to the own file. `Moved` if
    /// the own file no longer has the path.
    fn give_way(&self, beside: &str, new: FileNumber) -> Result<(), FileFault> {
        self.may_be_left()?;
        let mark = mark_form(self.rt.alloc())?;
        let to = Move {
            own_file: &self.file,
            own: self.number,
            position: self.cursor.position(),
            beside,
            new,
            path: &self.path,
        };
        move_log(&self.rt, &to, &mark, self.options.synchronizes)
    }

    /// Moves the log to the new file, and stands at its end. If that is refused, the handle stays where
    /// it is.
    pub(super) fn move_to(&mut self, place: NewPlace) -> Result<(), LogError>
        requires held { self.old.cursor.state ≡ state.Held }
        ensures ok { OnOk result (self.new ≡ ended place.snapshot.header place.snapshot.bytes.items self.old) }
        ensures err { IfErr result (λ e. Stays e self.old self.new) }
    {
        let NewPlace {
            file,
            number,
            beside,
            snapshot,
        } = place;
        match self.give_way(&beside, number) {
            Ok(()) => {
                let file_length = snapshot.bytes.len() as u64;
                self.file = file;
                self.number = number;
                self.stand(file_length, snapshot.header, file_length);
                Ok(())
            }
            Err(why) => {
                let _ = fs::remove_file(&self.rt, beside.as_str());
                self.tries_from = length_later(self.cursor.file_length());
                Err(self.refuse(why))
            }
        }
    }
}
