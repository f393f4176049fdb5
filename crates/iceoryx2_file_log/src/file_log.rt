//! A log in a file, under the file's advisory lock.
//!
//! No contract knows what a file holds, so `contents` claims nothing here. The contracts state what each
//! call makes of the handle's position: what was read of the file, what is taken over, that only torn
//! bytes and marks are cut off, and whether the handle has the lock (`HasLock`). The module `bytes`
//! states what a handle does to the bytes, over any medium.
//!
//! A process that holds a long log compacts it by one call. The call makes a file with a snapshot beside
//! the log's own file, reads the bytes back and compares them. Then the old file gets a mark as its last
//! entry, and the new file gets the path. A process that still has the old file reads the mark, and goes
//! to the file that has the path. If a process is killed meanwhile, one of both files is the log. It is
//! the new file, or the old one: there a mark that is the last entry is cut off as long as the old file
//! itself has the path.
//!
//! `look` takes the lock only to measure the file. Then `next` reads up to that length while other
//! handles may have the lock, and writes nothing (`looking`).
//!
//! Each hold and each look finds whether the file has the path. Nobody else finds a file that was removed
//! or renamed: the handle reads that file to its end, and then refuses (`away`).

ghost use Rattle.std.specs.Prelude.{◌≡◌, ◌≤◌, ◌<◌, ◌⊎◌, ◌↔◌, ◌++◌, List, ℕ, length, None, Some, Ok, Err};
ghost use Rattle.std.specs.Prelude.{IfOk, IfErr, OnOk, OnErr, IfSome, IsTrue, true, false, nat_lt, string_bytes};
ghost use Rattle.std.specs.IoError.{error_kind};
ghost use Rattle.iceoryx2_log.specs.Form.{Begins, IsForm};
ghost use Rattle.iceoryx2_log.specs.Log.{is_shown};
ghost use Rattle.iceoryx2_file_log.specs.declared.header.TheConstants.{HEADER_LENGTH};
ghost use Rattle.iceoryx2_file_log.specs.declared.cursor.State.TheVariants as state;
ghost use Rattle.iceoryx2_file_log.specs.declared.error.FileFault.TheVariants as fault;
ghost use Rattle.iceoryx2_file_log.specs.Errors.{kind_fault, log_error_of, IsOfFile};
ghost use Rattle.iceoryx2_file_log.specs.Compaction.{IsLong, snapshot_end, first_tried};
ghost use Rattle.iceoryx2_file_log.specs.Place.{start, left, held, accepted, cut, appended, state_after};
ghost use Rattle.iceoryx2_file_log.specs.Place.{why_not_free, why_not_held};
ghost use Rattle.iceoryx2_file_log.specs.Handle.{IsRefused, Holds, Shows, SparesEntries, Appends};
ghost use Rattle.iceoryx2_file_log.specs.Handle.{ReadsOn, IsFront, IsErrorOf, Pauses, postponed, freed};
ghost use Rattle.iceoryx2_file_log.specs.Handle.{IsNoMark, IsPastSnapshot, IsNotAcross, IsSureOfCuts, new_handle};
ghost use Rattle.iceoryx2_file_log.specs.Handle.{IsAwayNext, IsHeldAway, MeetsNoEntry, IsRemoved};
ghost use Rattle.iceoryx2_file_log.specs.Handle.{LooksAt, LooksNext, new_reader};
ghost use Rattle.iceoryx2_file_log.specs.Moving.{OnlyRefuses, Rejoins, LooksElsewhere, Compacts, RefusesCompaction};

mod away;
mod beside;
mod compacting;
mod looking;
mod marking;

use self::away::{is_away, next_away};
use self::marking::cut_mark;
use crate::bytes::pause_after;
use crate::compaction::{first_tried, is_before_end, is_long, length_later};
use crate::cursor::{Cursor, State};
use crate::error::{FileFault, FileLogError, log_error, system_fault};
use crate::header::{HEADER_LENGTH, Header};
use crate::locked_file::LockedFile;
use crate::one_file::{Found, accept, append, hold, let_go, next};
use crate::opening::{FileNumber, FoundLog, opened, reopened};
use crate::options::FileLogOptions;
use iceoryx2_log::entry::Entry;
use iceoryx2_log::log::{Log, LogError};
use std::alloc::AllocError;
use std::fs::File;
use std::io::ErrorKind;
use std::marker::Model;
use std::random::RandomSource;
use std::rt::Files;
use std::thread;
use std::time::{Clock, Instant};

/// A handle of a log in a file. It lets go of the log when it is dropped.
pub struct FileLog<R> {
    rt: R,
    file: File,
    /// The number of the file since it was opened, or since the log moved there.
    number: FileNumber,
    path: String,
    options: FileLogOptions,
    header: Header,
    cursor: Cursor,
    /// The reason why the log refused the last call that it refused, except for a compaction that was
    /// declined.
    fault: Option<FileFault>,
    /// When the last wait began.
    wait_start: Option<Instant>,
    /// The length of the file from which the next compaction is tried.
    tries_from: u64,
    /// True if this handle has the lock of its file.
    is_locked: bool,
    /// True if the file no longer had the log's path when it was held or measured last.
    is_away: bool,
    /// True if the file was measured, so that the entries of that moment are read, though the log isn't
    /// held.
    looks: bool,
    /// True if the file was opened to read only.
    only_reads: bool,
}

impl<R> Model for FileLog<R> {
    ghost use Rattle.std.specs.Prelude.{string_bytes};
    ghost use Rattle.iceoryx2_file_log.specs.Handle.{HandleFacts, HasLock, ReadsUnlocked};

    ghost Value = { HandleFacts };

    ghost view = { λ log. record {
      path = string_bytes log.path;
      options = log.options;
      header = log.header;
      cursor = log.cursor;
      fault = log.fault;
      tries_from = log.tries_from;
      is_locked = log.is_locked;
      is_away = log.is_away;
      looks = log.looks;
      only_reads = log.only_reads;
    } };

    ghost invariant = { λ log. HasLock log.cursor.state log.is_locked
        × ReadsUnlocked log.looks log.only_reads log.is_locked };
}

impl<R: Drop> Drop for FileLog<R> {
    fn drop(self) {
        let FileLog {
            rt: _,
            file: _,
            number: _,
            path: _,
            options: _,
            header: _,
            cursor: _,
            fault: _,
            wait_start: _,
            tries_from: _,
            is_locked: _,
            is_away: _,
            looks: _,
            only_reads: _,
        } = self;
    }
}

// ---- the file

/// Returns the length of the file, which must not be shorter than the part that was taken over.
fn measured(file: &File, position: u64) -> Result<u64, FileFault>
    ensures { IfOk result (λ file_length. position ≤ file_length) }
{
    match file.metadata() {
        Err(error) => Err(system_fault(&error)),
        Ok(metadata) => {
            let file_length = metadata.len();
            if file_length < position {
                return Err(FileFault::Damaged { at: file_length });
            }
            Ok(file_length)
        }
    }
}

/// Returns the entry at the position, or `None` if no more bytes follow. Torn bytes are cut off first,
/// and so is a mark of a file that has the path. `Moved` if another file has the path. Nothing is cut off
/// of a snapshot, which was synchronized before anybody found it: a snapshot that ends early, or within
/// an entry, is damaged.
fn next_at<R: Files + AllocGlobal>(
    rt: &R,
    path: &str,
    file: &File,
    header: &Header,
    cursor: &mut Cursor,
    synchronizes: bool,
) -> Result<Option<Entry>, FileFault>
    ensures shows { IfOk result (λ found. Shows found cursor.old cursor.new) }
    ensures no_mark { IfOk result IsNoMark }
    ensures whole { IfOk result (λ found. IsPastSnapshot found header.now cursor.old) }
    ensures across { IfOk result (λ found. IsNotAcross found header.now cursor.new) }
    ensures spares { SparesEntries cursor.old cursor.new }
    ensures sure { IfErr result (λ why. IsSureOfCuts synchronizes why cursor.old cursor.new) }
    ensures stays { (cursor.new.position ≡ cursor.old.position) × (cursor.new.state ≡ cursor.old.state) }
    ensures shown { nat_lt 0 cursor.new.found ≡ is_shown result }
    ensures not_held { IfSome (why_not_held cursor.old.state)
        (λ why. (result ≡ Err why) × (cursor.new ≡ record cursor.old { found = 0 })) }
{
    let mut medium = LockedFile::new(file);
    match next(rt.alloc(), &mut medium, cursor, header, synchronizes)? {
        Found::Entry(entry) => Ok(Some(entry)),
        Found::End => Ok(None),
        Found::Mark { count } => {
            cut_mark(rt, path, file, header, cursor, count, synchronizes)?;
            Ok(None)
        }
    }
}

// ---- the handle

impl<R: Files<File = File> + Clock + RandomSource + AllocGlobal + Drop> FileLog<R> {
    /// Opens the log in the file of this path, and makes the file if nothing has the path. Nobody ever
    /// sees a part of the header. If several processes make the file at once, each takes the file that
    /// the first one has made.
    pub fn open(rt: R, path: String, options: FileLogOptions) -> Result<FileLog<R>, FileLogError>
        ensures new { IfOk result (λ log. log ≡ new_handle (string_bytes path) options log.header) }
        ensures err { IfErr result (λ error. error.path ≡ path) }
    {
        let found = opened(&rt, &path, &options);
        FileLog::of_found(rt, path, options, found, false)
    }

    /// Opens the log in the file of this path, and never makes the file. `Failed` by `NotFound` if
    /// nothing has the path.
    pub fn open_existing(
        rt: R,
        path: String,
        options: FileLogOptions,
    ) -> Result<FileLog<R>, FileLogError>
        ensures new { IfOk result (λ log. log ≡ new_handle (string_bytes path) options log.header) }
        ensures err { IfErr result (λ error. error.path ≡ path) }
    {
        let missing = FileFault::Failed {
            kind: ErrorKind::NotFound,
        };
        let found = reopened(&rt, &path, missing, true);
        FileLog::of_found(rt, path, options, found, false)
    }

    /// Opens the log in the file of this path only to read it, for anyone who may read the file and not
    /// write it. The file is never made: `Failed` by `NotFound` if nothing has the path. `look` and
    /// `next` read the log; `hold` and `append` refuse.
    pub fn open_to_read(
        rt: R,
        path: String,
        options: FileLogOptions,
    ) -> Result<FileLog<R>, FileLogError>
        ensures new { IfOk result (λ log. log ≡ new_reader (string_bytes path) options log.header) }
        ensures err { IfErr result (λ error. error.path ≡ path) }
    {
        let missing = FileFault::Failed {
            kind: ErrorKind::NotFound,
        };
        let found = reopened(&rt, &path, missing, false);
        FileLog::of_found(rt, path, options, found, true)
    }

    /// Returns a handle of the log in the file that was found, or the error with its path.
    fn of_found(
        rt: R,
        path: String,
        options: FileLogOptions,
        found: Result<FoundLog, FileFault>,
        only_reads: bool,
    ) -> Result<FileLog<R>, FileLogError>
        ensures new { IfOk result (λ log.
            log ≡ record (new_handle (string_bytes path) options log.header) { only_reads = only_reads }) }
        ensures err { IfErr result (λ error. error.path ≡ path) }
    {
        let alloc = rt.alloc();
        match found {
            Ok(
                FoundLog {
                    file,
                    number,
                    header,
                },
            ) => Ok(FileLog {
                rt,
                file,
                number,
                path,
                options,
                header,
                cursor: Cursor::new(alloc, HEADER_LENGTH as u64),
                fault: None,
                wait_start: None,
                tries_from: first_tried(&header),
                is_locked: false,
                is_away: false,
                looks: false,
                only_reads,
            }),
            Err(fault) => Err(FileLogError::new(path, fault)),
        }
    }
}

impl<R> FileLog<R> {
    pub fn path(&self) -> &str
        ensures { result.now ≡ self.now.path }
    {
        &self.path
    }

    /// Returns the header before the entries: the log's name, and the number with which the counter of
    /// its services begins.
    pub fn header(&self) -> Header
        ensures { result ≡ self.now.header }
    {
        self.header
    }

    pub fn state(&self) -> State
        ensures { result ≡ self.now.cursor.state }
    {
        self.cursor.state()
    }

    /// Returns the place in the file where the entries end that this handle has taken over or appended.
    pub fn position(&self) -> u64
        ensures { result ≡ self.now.cursor.position }
    {
        self.cursor.position()
    }

    /// Returns the reason why the log refused the last call that it refused, except for a compaction that
    /// was declined.
    pub fn fault(&self) -> Option<FileFault>
        ensures { result ≡ self.now.fault }
    {
        self.fault
    }

    /// Returns the same reason with the path. An `Err` comes only if there is a fault, and there was no
    /// memory.
    pub fn error(&self) -> Result<Option<FileLogError>, AllocError>
        ensures { IfOk result (λ error. IsErrorOf self.now.path self.now.fault error) }
    {
        match self.fault {
            None => Ok(None),
            Some(fault) => Ok(Some(FileLogError::new(self.path.clone()?, fault))),
        }
    }

    /// Keeps the reason why the log refused, and returns it as a log's error.
    fn refuse(&mut self, why: FileFault) -> LogError
        ensures answer { result ≡ log_error_of why }
        ensures kept { self.new.fault ≡ Some why }
        ensures cursor { self.new.cursor
            ≡ record self.old.cursor { state = state_after why self.old.cursor.state } }
        ensures same { self.new ≡ record self.old { cursor = self.new.cursor; fault = self.new.fault } }
    {
        self.cursor.refuse(why);
        self.fault = Some(why);
        log_error(why)
    }
}

impl<R> FileLog<R> {
    /// Keeps the reason why the log refused, and returns it as a log's error. The handle stays usable.
    fn tell(&mut self, why: FileFault) -> LogError
        ensures answer { result ≡ log_error_of why }
        ensures same { self.new ≡ record self.old { fault = Some why } }
    {
        self.fault = Some(why);
        log_error(why)
    }
}

impl<R: Files + Clock> FileLog<R> {
    /// Holds the log, and looks whether its file has the path.
    fn try_hold(&mut self) -> Result<(), FileFault>
        ensures ok { OnOk result (Holds self.old.cursor self.new.cursor) }
        ensures locks { OnOk result ((self.old.is_locked ≡ false) × (self.new.is_locked ≡ true)) }
        ensures err { OnErr result (self.new ≡ self.old) }
        ensures same { self.new ≡ record self.old {
          cursor = self.new.cursor;
          is_locked = self.new.is_locked;
          is_away = self.new.is_away;
          looks = self.new.looks;
        } }
        ensures unlooks { OnOk result (self.new.looks ≡ false) }
        ensures not_free { self.old.only_reads ≡ false
            → IfSome (why_not_free self.old.cursor.state) (λ why. result ≡ Err why) }
        ensures reads { self.old.only_reads ≡ true → result ≡ Err fault.ReadOnly }
    {
        if self.only_reads {
            return Err(FileFault::ReadOnly);
        }
        let mut medium = LockedFile::new(&self.file);
        let patience = self.options.patience;
        hold(&self.rt, &mut medium, &mut self.cursor, patience)?;
        self.is_locked = true;
        self.looks = false;
        self.is_away = is_away(&self.rt, &self.path, self.number);
        Ok(())
    }
}

impl<R: Clock> FileLog<R> {
    /// Returns true if a wait goes on with the pause of this number. The wait begins with the number 0.
    fn waits(&mut self, number: u64) -> bool
        ensures { self.new ≡ self.old }
    {
        if number == 0 {
            self.wait_start = Instant::now(&self.rt).ok();
        }
        let Some(start) = self.wait_start else {
            return false;
        };
        match start.elapsed(&self.rt) {
            Ok(elapsed) => elapsed < self.options.creation_timeout,
            Err(_) => false,
        }
    }
}

impl<R: Files + AllocGlobal> FileLog<R> {
    fn try_next(&mut self) -> Result<Option<Entry>, FileFault>
        ensures shows { IfOk result (λ found. Shows found self.old.cursor self.new.cursor) }
        ensures no_mark { IfOk result IsNoMark }
        ensures whole { IfOk result (λ found. IsPastSnapshot found self.old.header self.old.cursor) }
        ensures across { IfOk result (λ found. IsNotAcross found self.old.header self.new.cursor) }
        ensures spares { SparesEntries self.old.cursor self.new.cursor }
        ensures sure { IfErr result
            (λ why. IsSureOfCuts self.old.options.synchronizes why self.old.cursor self.new.cursor) }
        ensures position { self.new.cursor.position ≡ self.old.cursor.position }
        ensures state { self.new.cursor.state ≡ self.old.cursor.state }
        ensures same { self.new ≡ record self.old { cursor = self.new.cursor } }
        ensures shown { nat_lt 0 self.new.cursor.found ≡ is_shown result }
        ensures not_held { IfSome (why_not_held self.old.cursor.state)
            (λ why. (result ≡ Err why) × (self.new.cursor ≡ record self.old.cursor { found = 0 })) }
        ensures away { self.old.is_away ≡ true → IsAwayNext result self.old.cursor self.new.cursor }
        ensures removed { MeetsNoEntry self.old → result ≡ Err fault.Removed }
    {
        if self.is_away {
            return next_away(self.rt.alloc(), &self.file, &self.header, &mut self.cursor);
        }
        next_at(
            &self.rt,
            &self.path,
            &self.file,
            &self.header,
            &mut self.cursor,
            self.options.synchronizes,
        )
    }
}

impl<R: Files + AllocGlobal> FileLog<R> {
    /// Returns the next entry of a log that wasn't looked at, or the log's error, which is kept.
    fn next_held(&mut self) -> Result<Option<Entry>, LogError>
        ensures shows { IfOk result (λ found. Shows found self.old.cursor self.new.cursor) }
        ensures no_mark { IfOk result IsNoMark }
        ensures whole { IfOk result (λ found. IsPastSnapshot found self.old.header self.old.cursor) }
        ensures across { IfOk result (λ found. IsNotAcross found self.old.header self.new.cursor) }
        ensures ok { OnOk result ((self.new.cursor.state ≡ self.old.cursor.state) × (self.new.fault ≡ self.old.fault)) }
        ensures err { IfErr result (λ e. IsRefused e self.new.fault self.old.cursor.state self.new.cursor.state) }
        ensures spares { SparesEntries self.old.cursor self.new.cursor }
        ensures sure { OnErr result (IfSome self.new.fault
            (λ why. IsSureOfCuts self.old.options.synchronizes why self.old.cursor self.new.cursor)) }
        ensures position { self.new.cursor.position ≡ self.old.cursor.position }
        ensures same { self.new ≡ record self.old { cursor = self.new.cursor; fault = self.new.fault } }
        ensures shown { nat_lt 0 self.new.cursor.found ≡ is_shown result }
        ensures not_held { IfSome (why_not_held self.old.cursor.state)
            (λ why. (result ≡ Err (log_error_of why)) × (self.new.cursor ≡ record self.old.cursor { found = 0 })) }
        ensures away { self.old.is_away ≡ true → IsAwayNext result self.old.cursor self.new.cursor }
        ensures removed { MeetsNoEntry self.old → IsRemoved result self.new.fault }
    {
        match self.try_next() {
            Ok(found) => Ok(found),
            Err(why) => Err(self.refuse(why)),
        }
    }
}

impl<R: AllocGlobal> FileLog<R> {
    fn try_append(&mut self, entry: &Entry) -> Result<(), FileFault>
        ensures ok { OnOk result (Appends entry.now self.old.cursor self.new.cursor) }
        ensures locked { OnOk result (self.old.is_locked ≡ true) }
        ensures err { OnErr result (self.new.cursor ≡ self.old.cursor) }
        ensures same { self.new ≡ record self.old { cursor = self.new.cursor } }
        ensures not_held { IfSome (why_not_held self.old.cursor.state) (λ why. result ≡ Err why) }
        ensures removed { IsHeldAway self.old → result ≡ Err fault.Removed }
    {
        if let Some(why) = self.cursor.why_not_held() {
            return Err(why);
        }
        if self.is_away {
            return Err(FileFault::Removed);
        }
        let mut medium = LockedFile::new(&self.file);
        let synchronizes = self.options.synchronizes;
        append(
            self.rt.alloc(),
            &mut medium,
            &mut self.cursor,
            entry,
            synchronizes,
        )
    }
}

impl<R: Files<File = File> + Clock + AllocGlobal> Log for FileLog<R> {
    ghost contents = { λ _. None };

    ghost held = { λ log. log.is_locked };

    ghost shown = { λ log. nat_lt 0 log.cursor.found };

    /// `Busy` if other handles held the log as long as the options allow. `Damaged` if the file is
    /// shorter than the part that was taken over. Each hold looks whether the file has the log's path. If
    /// the file surely doesn't have it, by a look that the system permits, the log is held, but not used:
    /// `next` and `append` refuse by `Removed` until a later `hold` finds that the file has its path
    /// back. `Failed`, by `ReadOnly`, if the file was opened to read only.
    fn hold(&mut self) -> Result<(), LogError>
        ensures ok { OnOk result (Holds self.old.cursor self.new.cursor × (self.new.fault ≡ self.old.fault)) }
        ensures err { IfErr result (λ e. IsRefused e self.new.fault self.old.cursor.state self.new.cursor.state) }
        ensures kept { OnErr result (self.new.cursor ≡ record self.old.cursor { state = self.new.cursor.state }) }
        ensures same { self.new ≡ record self.old {
          cursor = self.new.cursor;
          fault = self.new.fault;
          is_locked = self.new.is_locked;
          is_away = self.new.is_away;
          looks = false;
        } }
        ensures away { OnErr result (self.new.is_away ≡ self.old.is_away) }
        ensures locks { OnOk result ((self.old.is_locked ≡ false) × (self.new.is_locked ≡ true)) }
        ensures not_locked { OnErr result (self.new.is_locked ≡ self.old.is_locked) }

        // A handle that is used no more stays so.
        ensures not_free { self.old.only_reads ≡ false → IfSome (why_not_free self.old.cursor.state)
            (λ why. (result ≡ Err (log_error_of why)) × (self.new.cursor ≡ self.old.cursor)) }
        ensures reads { self.old.only_reads ≡ true
            → (result ≡ Err LogError.Failed) × (self.new.fault ≡ Some fault.ReadOnly) }
    {
        match self.try_hold() {
            Ok(()) => Ok(()),
            Err(why) => {
                self.looks = false;
                Err(self.refuse(why))
            }
        }
    }

    /// `Busy` if other handles held the log as long as the options allow. `Damaged` if the file is
    /// shorter than the part that was taken over. The call also looks whether the file has the log's
    /// path: if the file surely doesn't have it, `next` gives `Removed` instead of the file's end. A file that
    /// was opened to read only is looked at like any other.
    fn look(&mut self) -> Result<(), LogError>
        ensures ok { OnOk result (LooksAt self.old self.new) }
        ensures was_free { OnOk result (self.old.is_locked ≡ false) }
        ensures err { IfErr result (λ e. IsRefused e self.new.fault self.old.cursor.state self.new.cursor.state) }
        ensures kept { OnErr result (self.new.cursor ≡ record self.old.cursor { state = self.new.cursor.state }) }
        ensures same { OnErr result (self.new ≡ record self.old {
          cursor = self.new.cursor;
          fault = self.new.fault;
          looks = false;
        }) }
        ensures held { self.new.is_locked ≡ self.old.is_locked }
        ensures not_free { IfSome (why_not_free self.old.cursor.state)
            (λ why. (result ≡ Err (log_error_of why)) × (self.new.cursor ≡ self.old.cursor)) }
    {
        match self.try_look() {
            Ok(()) => Ok(()),
            Err(why) => {
                self.looks = false;
                Err(self.refuse(why))
            }
        }
    }

    /// If the rest of the file is torn, or a mark of a file that has the path, it is cut off, and there
    /// is no entry. `Moved` if the rest is a mark, and another file has the path. A snapshot that ends
    /// early, or within an entry, is damaged. If the options synchronize and a cut could not be
    /// synchronized, the handle is unusable.
    ///
    /// If the file didn't have the log's path when it was held, nothing is cut off. When no entry and no mark
    /// is left, `Failed` comes, by `Removed`.
    ///
    /// If the log was looked at and isn't held, the call shows the entries that stood when the file was
    /// measured. It stops at an end that is torn, or at a mark of a file that has the path. Nothing is
    /// cut off, and an error leaves the handle usable: other handles may meanwhile have cut off bytes
    /// that it finds damaged.
    fn next(&mut self) -> Result<Option<Entry>, LogError>
        ensures shows { self.old.looks ≡ false → IfOk result (λ found. Shows found self.old.cursor self.new.cursor) }
        ensures looks { self.old.looks ≡ true → LooksNext result self.old self.new }
        ensures no_mark { IfOk result IsNoMark }
        ensures whole { IfOk result (λ found. IsPastSnapshot found self.old.header self.old.cursor) }
        ensures across { IfOk result (λ found. IsNotAcross found self.old.header self.new.cursor) }
        ensures ok { OnOk result ((self.new.cursor.state ≡ self.old.cursor.state) × (self.new.fault ≡ self.old.fault)) }
        ensures err { self.old.looks ≡ false
            → IfErr result (λ e. IsRefused e self.new.fault self.old.cursor.state self.new.cursor.state) }
        ensures spares { SparesEntries self.old.cursor self.new.cursor }
        ensures sure { OnErr result (IfSome self.new.fault
            (λ why. IsSureOfCuts self.old.options.synchronizes why self.old.cursor self.new.cursor)) }
        ensures position { self.new.cursor.position ≡ self.old.cursor.position }
        ensures same { self.new ≡ record self.old { cursor = self.new.cursor; fault = self.new.fault } }
        ensures shown { nat_lt 0 self.new.cursor.found ≡ is_shown result }
        ensures not_held { self.old.looks ≡ false → IfSome (why_not_held self.old.cursor.state)
            (λ why. (result ≡ Err (log_error_of why)) × (self.new.cursor ≡ record self.old.cursor { found = 0 })) }
        ensures away { self.old.is_away ≡ true → IsAwayNext result self.old.cursor self.new.cursor }
        ensures removed { self.old.looks ≡ false → MeetsNoEntry self.old → IsRemoved result self.new.fault }
    {
        if self.looks {
            return self.next_looking();
        }
        self.next_held()
    }

    /// Takes over only an entry that `next` has found since the log was held.
    fn accept(&mut self)
        ensures { self.new ≡ record self.old { cursor = accepted self.old.cursor } }
    {
        accept(&LockedFile::new(&self.file), &mut self.cursor);
    }

    /// The handle is unusable if a part of the entry may stand that could not be taken back. The same is
    /// true if that part may come back after a power loss though the options synchronize. `Failed`, by
    /// `Removed`, if the file didn't have the log's path when it was held.
    fn append(&mut self, entry: &Entry) -> Result<(), LogError>
        ensures ok { OnOk result (Appends entry.now self.old.cursor self.new.cursor
            × (self.new.fault ≡ self.old.fault)) }
        ensures locked { OnOk result (self.old.is_locked ≡ true) }
        ensures err { IfErr result (λ e. IsRefused e self.new.fault self.old.cursor.state self.new.cursor.state) }
        ensures kept { OnErr result (self.new.cursor ≡ record self.old.cursor { state = self.new.cursor.state }) }
        ensures same { self.new ≡ record self.old { cursor = self.new.cursor; fault = self.new.fault } }
        ensures not_held { IfSome (why_not_held self.old.cursor.state) (λ why. (result ≡ Err (log_error_of why))
            × (self.new.cursor ≡ self.old.cursor) × (self.new.fault ≡ Some why)) }
        ensures removed { IsHeldAway self.old → IsRemoved result self.new.fault }
    {
        match self.try_append(entry) {
            Ok(()) => Ok(()),
            Err(why) => Err(self.refuse(why)),
        }
    }

    fn let_go(&mut self)
        ensures { self.new ≡ freed self.old }
    {
        let_go(&mut LockedFile::new(&self.file), &mut self.cursor);
        self.is_locked = false;
        self.looks = false;
    }

    /// Returns false if the wait has taken the time that the options allow, or if the clock refuses.
    fn pause(&mut self, number: u64) -> bool
        ensures { Pauses result self.old self.new }
    {
        if !self.waits(number) {
            return false;
        }
        self.let_go();
        thread::sleep(&self.rt, pause_after(number));
        true
    }

    /// If the call is refused, nothing changes but the fault. `Failed` if the log is neither held nor was
    /// looked at, if the file that has the path is of another log, or if no file has the path. `Busy` if
    /// other handles held the log as long as the options allow.
    fn rejoin(&mut self) -> Result<u64, LogError>
        ensures ok { self.old.looks ≡ false → IfOk result (λ counter. Rejoins counter self.old self.new) }
        ensures looks { self.old.looks ≡ true → IfOk result (λ counter. LooksElsewhere counter self.old self.new) }
        ensures err { IfErr result (λ e. OnlyRefuses e self.old self.new) }
        ensures not_held { self.old.looks ≡ false → IfSome (why_not_held self.old.cursor.state)
            (λ why. (result ≡ Err (log_error_of why)) × (self.new.fault ≡ Some why)) }
    {
        if self.looks {
            return self.rejoin_looking();
        }
        match self.located() {
            Ok(found) => {
                let counter = found.header.counter;
                self.go_to(found);
                Ok(counter)
            }
            Err(why) => Err(self.tell(why)),
        }
    }

    fn is_in_snapshot(&self) -> bool
        ensures { IsTrue result ↔ (self.now.cursor.position < snapshot_end self.now.header) }
    {
        is_before_end(self.cursor.position(), &self.header)
    }

    /// Returns true if the file is longer than 64 KiB, and as long as the next compaction waits for. That
    /// length is eight times the bytes up to the end of the file's snapshot. If a compaction was refused or
    /// put off since this handle found the file, it is the length for which the last such compaction waits.
    fn is_long(&self) -> bool
        ensures { IsTrue result ↔ IsLong self.now.cursor.file_length self.now.tries_from }
    {
        is_long(self.cursor.file_length(), self.tries_from)
    }

    /// Leaves the handle at the end of the new file, behind the snapshot. `Failed` if the log isn't held,
    /// an entry is unread, the new file holds other bytes than were written to it, or the old file has
    /// fewer than eight times the bytes of the new one. In this last case the next compaction is tried
    /// when the file has eight times those bytes, and after any other error 64 KiB later. `Moved` if the old file
    /// no longer has the log's path, or has another name too: then no file takes the path. No fault is
    /// kept unless the new file was made: the log goes on as it is. The handle is unusable if the mark
    /// could not be taken back from the old file, or if the new file may lose the path after a power
    /// loss.
    fn compact(&mut self, snapshot: &[Entry]) -> Result<(), LogError>
        ensures ok { OnOk result (Compacts snapshot.now self.old self.new) }
        ensures err { IfErr result (λ e. RefusesCompaction snapshot.now e self.old self.new) }
        ensures not_held { IfSome (why_not_held self.old.cursor.state) (λ why. result ≡ Err (log_error_of why)) }
    {
        match self.prepared(snapshot) {
            Ok(place) => self.move_to(place),
            Err(declined) => {
                self.tries_from = declined.tries_from;
                Err(log_error(declined.why))
            }
        }
    }

    /// The next compaction is tried when the file has 64 KiB more than it has now.
    fn put_off_compaction(&mut self)
        ensures { self.new ≡ postponed self.old }
    {
        self.tries_from = length_later(self.cursor.file_length());
    }
}
