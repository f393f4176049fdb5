//! Reading the entries that stood in the file when it was measured, though the log isn't held. Nothing is
//! written meanwhile.
//!
//! Other handles may append behind the measured end, which changes nothing before it. They may cut off
//! bytes before that end, and write over them, only if a writer died and left a torn entry or a mark
//! there. A reader can then meet both halves. So damage that is found without the lock is told, and the
//! handle stays usable. Such a reader may also take over an entry that its writer takes back, because the
//! entry couldn't be synchronized. No proof excludes that.

ghost use Rattle.std.specs.Prelude.{◌≡◌, ◌≤◌, Err, IfOk, IfErr, IfSome, OnOk, OnErr, true, false, nat_lt};
ghost use Rattle.iceoryx2_log.specs.Log.{is_shown};
ghost use Rattle.iceoryx2_file_log.specs.declared.error.FileFault.TheVariants as fault;
ghost use Rattle.iceoryx2_file_log.specs.declared.header.TheConstants.{HEADER_LENGTH};
ghost use Rattle.iceoryx2_file_log.specs.Compaction.{snapshot_end};
ghost use Rattle.iceoryx2_file_log.specs.Place.{why_not_free};
ghost use Rattle.iceoryx2_file_log.specs.Handle.{ShowsUncut, IsNoMark, IsPastSnapshot, IsNotAcross, LooksAt};
ghost use Rattle.iceoryx2_file_log.specs.Handle.{IsAwayNext, LooksNext};
ghost use Rattle.iceoryx2_file_log.specs.Moving.{LooksElsewhere, OnlyRefuses};

use super::FileLog;
use super::away::{is_away, unwritten};
use super::marking::has_path;
use crate::bytes::{end_measuring, lock};
use crate::compaction::first_tried;
use crate::cursor::Cursor;
use crate::error::FileFault;
use crate::header::{HEADER_LENGTH, Header, LogName};
use crate::locked_file::LockedFile;
use crate::one_file::Found;
use crate::opening::{FoundLog, reopened};
use iceoryx2_log::entry::Entry;
use iceoryx2_log::log::LogError;
use std::fs::File;
use std::rt::Files;
use std::time::{Clock, Duration};

/// Returns the entry at the position of a file that was measured. `None` if no more bytes follow, if they
/// are torn, or if a mark follows though the file has the path: its writer died before another file took
/// the path. `Moved` if the last entry is a mark, and another file has the path.
fn next_unheld<R: Files + AllocGlobal>(
    rt: &R,
    path: &str,
    file: &File,
    header: &Header,
    cursor: &mut Cursor,
) -> Result<Option<Entry>, FileFault>
    ensures shows { IfOk result (λ found. ShowsUncut found cursor.old cursor.new) }
    ensures no_mark { IfOk result IsNoMark }
    ensures whole { IfOk result (λ found. IsPastSnapshot found header.now cursor.old) }
    ensures across { IfOk result (λ found. IsNotAcross found header.now cursor.new) }
    ensures uncut { cursor.new ≡ record cursor.old { ahead = cursor.new.ahead; found = cursor.new.found } }
    ensures shown { nat_lt 0 cursor.new.found ≡ is_shown result }
{
    match unwritten(rt.alloc(), &mut LockedFile::new(file), header, cursor)? {
        Found::Entry(entry) => Ok(Some(entry)),
        Found::End => Ok(None),
        Found::Mark { count: _ } => {
            if has_path(rt, path, file)? {
                return Ok(None);
            }
            Err(FileFault::Moved)
        }
    }
}

/// Opens the file that has the path now, of the log of this name, and measures it under its lock. Then
/// lets go of the lock. `AnotherLog` if the file is of another log. `Removed` if nothing has the path.
fn measured_there<R: Files<File = File> + Clock>(
    rt: &R,
    path: &str,
    name: LogName,
    patience: Duration,
    writes: bool,
) -> Result<(FoundLog, u64), FileFault>
    ensures { IfOk result (λ found. (found.0.header.name ≡ name) × (HEADER_LENGTH ≤ found.1)) }
{
    let found = reopened(rt, path, FileFault::Removed, writes)?;
    if found.header.name != name {
        return Err(FileFault::AnotherLog);
    }
    let mut medium = LockedFile::new(&found.file);
    let file_length = lock(rt, &mut medium, patience)?;
    end_measuring(&mut medium, file_length, HEADER_LENGTH as u64)?;
    Ok((found, file_length))
}

impl<R: Files + Clock> FileLog<R> {
    /// Measures the file under its lock, and meanwhile looks whether it has the path.
    pub(super) fn try_look(&mut self) -> Result<(), FileFault>
        ensures ok { OnOk result (LooksAt self.old self.new) }
        ensures was_free { OnOk result (self.old.is_locked ≡ false) }
        ensures err { OnErr result (self.new ≡ self.old) }
        ensures not_free { IfSome (why_not_free self.old.cursor.state) (λ why. result ≡ Err why) }
    {
        if let Some(why) = self.cursor.why_not_free() {
            return Err(why);
        }
        let mut medium = LockedFile::new(&self.file);
        let file_length = lock(&self.rt, &mut medium, self.options.patience)?;
        let is_away = is_away(&self.rt, &self.path, self.number);
        end_measuring(&mut medium, file_length, self.cursor.position())?;
        self.cursor.look(file_length);
        self.looks = true;
        self.is_away = is_away;
        Ok(())
    }
}

impl<R: Files + AllocGlobal> FileLog<R> {
    /// Returns the next entry that stood in the file when it was measured. If the file didn't have the path
    /// then, `Removed` comes instead of the file's end.
    pub(super) fn next_looked(&mut self) -> Result<Option<Entry>, FileFault>
        ensures shows { IfOk result (λ found. ShowsUncut found self.old.cursor self.new.cursor) }
        ensures no_mark { IfOk result IsNoMark }
        ensures whole { IfOk result (λ found. IsPastSnapshot found self.old.header self.old.cursor) }
        ensures across { IfOk result (λ found. IsNotAcross found self.old.header self.new.cursor) }
        ensures uncut { self.new.cursor
            ≡ record self.old.cursor { ahead = self.new.cursor.ahead; found = self.new.cursor.found } }
        ensures same { self.new ≡ record self.old { cursor = self.new.cursor } }
        ensures shown { nat_lt 0 self.new.cursor.found ≡ is_shown result }
        ensures away { self.old.is_away ≡ true → IsAwayNext result self.old.cursor self.new.cursor }
    {
        let found = next_unheld(
            &self.rt,
            &self.path,
            &self.file,
            &self.header,
            &mut self.cursor,
        )?;
        if self.is_away && found.is_none() {
            return Err(FileFault::Removed);
        }
        Ok(found)
    }

    /// Returns the same as a log answers it.
    pub(super) fn next_looking(&mut self) -> Result<Option<Entry>, LogError>
        ensures looks { LooksNext result self.old self.new }
        ensures no_mark { IfOk result IsNoMark }
        ensures whole { IfOk result (λ found. IsPastSnapshot found self.old.header self.old.cursor) }
        ensures across { IfOk result (λ found. IsNotAcross found self.old.header self.new.cursor) }
        ensures ok { OnOk result (self.new.fault ≡ self.old.fault) }
        ensures same { self.new ≡ record self.old { cursor = self.new.cursor; fault = self.new.fault } }
        ensures shown { nat_lt 0 self.new.cursor.found ≡ is_shown result }
        ensures away { self.old.is_away ≡ true → IsAwayNext result self.old.cursor self.new.cursor }
    {
        match self.next_looked() {
            Ok(found) => Ok(found),
            Err(why) => Err(self.tell(why)),
        }
    }
}

impl<R: Files<File = File> + Clock + AllocGlobal> FileLog<R> {
    /// Goes to the file that has the path now, and looks at it. Returns the number with which the counter
    /// begins there.
    pub(super) fn look_elsewhere(&mut self) -> Result<u64, FileFault>
        requires { self.old.looks ≡ true }
        ensures ok { IfOk result (λ counter. LooksElsewhere counter self.old self.new) }
        ensures err { OnErr result (self.new ≡ self.old) }
    {
        let patience = self.options.patience;
        let writes = !self.only_reads;
        let (found, file_length) = measured_there(
            &self.rt,
            &self.path,
            self.header.name,
            patience,
            writes,
        )?;
        let FoundLog {
            file,
            number,
            header,
        } = found;
        self.file = file;
        self.number = number;
        self.header = header;
        self.cursor = Cursor::new(self.rt.alloc(), HEADER_LENGTH as u64);
        self.cursor.look(file_length);
        self.tries_from = first_tried(&header);
        self.is_away = false;
        Ok(header.counter)
    }

    /// Returns the same as a log answers it.
    pub(super) fn rejoin_looking(&mut self) -> Result<u64, LogError>
        requires { self.old.looks ≡ true }
        ensures ok { IfOk result (λ counter. LooksElsewhere counter self.old self.new) }
        ensures err { IfErr result (λ e. OnlyRefuses e self.old self.new) }
    {
        match self.look_elsewhere() {
            Ok(counter) => Ok(counter),
            Err(why) => Err(self.tell(why)),
        }
    }
}
