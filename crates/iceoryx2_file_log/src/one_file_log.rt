//! A log in one file, over any medium: its contents are known if the bytes of the file are. It is never
//! compacted, and it refuses if another handle has moved the log to another file.

ghost use Rattle.std.specs.Prelude.{◌≡◌, ◌≤◌, true, false, nat_lt, length, IfOk, OnOk, OnErr, IfSome};
ghost use Rattle.iceoryx2_file_log.specs.declared.header.TheConstants.{HEADER_LENGTH};
ghost use Rattle.iceoryx2_file_log.specs.Medium.{AreBytes, IsFree, Becomes};
ghost use Rattle.iceoryx2_file_log.specs.OneFile.{contents_of, IsSafe, SparesOrIsSafe};
ghost use Rattle.iceoryx2_file_log.specs.Turns.{HasTakenAFront};

use crate::bytes::pause_after;
use crate::compaction::is_before_end;
use crate::cursor::Cursor;
use crate::error::{FileFault, log_error};
use crate::header::{HEADER_LENGTH, Header};
use crate::medium::Medium;
use crate::one_file::{self, Found};
use iceoryx2_log::entry::Entry;
use iceoryx2_log::log::{Log, LogError};
use std::marker::Model;
use std::thread;
use std::time::{Clock, Duration};

/// A handle of a log in one file.
pub struct OneFileLog<R, M: Medium> {
    rt: R,
    medium: M,
    header: Header,
    cursor: Cursor,
    /// True if this handle has the lock of the file.
    is_locked: bool,
    /// True if its changes are to outlive the machine.
    synchronizes: bool,
    /// The time for which `hold` tries while other handles hold the log.
    patience: Duration,
    /// The number of pauses of each wait.
    pauses: u64,
}

// Written out, so that a proof of what lets one go doesn't take its fields apart.
impl<R: Drop, M: Medium + Drop> Drop for OneFileLog<R, M> {
    fn drop(self) {
        let OneFileLog {
            rt: _,
            medium: _,
            header: _,
            cursor: _,
            is_locked: _,
            synchronizes: _,
            patience: _,
            pauses: _,
        } = self;
    }
}

impl<R, M: Medium> Model for OneFileLog<R, M> {
    ghost use Rattle.std.specs.Prelude.{IfSome};
    ghost use Rattle.iceoryx2_file_log.specs.Handle.{HasLock};
    ghost use Rattle.iceoryx2_file_log.specs.OneFile.{Fits, KnowsLock};
    ghost use Rattle.iceoryx2_file_log.specs.OneFileLog.{OneFileFacts, coded_facts};

    ghost Value = { OneFileFacts M };

    ghost coded = { coded_facts M.code };

    ghost view = { λ log. record {
      medium = log.medium;
      header = log.header;
      cursor = log.cursor;
      is_locked = log.is_locked;
      synchronizes = log.synchronizes;
    } };

    ghost invariant = { λ log. HasLock log.cursor.state log.is_locked × (IfSome (M.known log.medium) (Fits log.cursor)
        × IfSome (M.known log.medium) (KnowsLock log.is_locked)) };
}

impl<R: AllocGlobal, M: Medium> OneFileLog<R, M> {
    ghost use Rattle.iceoryx2_file_log.specs.Place.{start};

    /// Returns a handle of a file with this header. It has taken nothing over yet.
    pub fn new(
        rt: R,
        medium: M,
        header: Header,
        synchronizes: bool,
        patience: Duration,
        pauses: u64,
    ) -> OneFileLog<R, M>
        requires free { IfSome (M.known medium) IsFree }
        requires bytes { IfSome (M.known medium) (λ k. AreBytes k.bytes) }
        requires long { IfSome (M.known medium) (λ k. HEADER_LENGTH ≤ length k.bytes) }
        ensures { result ≡ record {
          medium = medium;
          header = header;
          cursor = start HEADER_LENGTH;
          is_locked = false;
          synchronizes = synchronizes;
        } }
    {
        let alloc = rt.alloc();
        OneFileLog {
            rt,
            medium,
            header,
            cursor: Cursor::new(alloc, HEADER_LENGTH as u64),
            is_locked: false,
            synchronizes,
            patience,
            pauses,
        }
    }
}

impl<R, M: Medium> OneFileLog<R, M> {
    /// Returns the file, for its readers.
    pub fn medium(&self) -> &M
        ensures { result.now ≡ self.now.medium }
    {
        &self.medium
    }

    /// The entries that this handle has taken over are a prefix of the list to which the bytes come
    /// later, whoever had them meanwhile. So all handles of one file take over one list.
    pub fn law_of_one_list(&self)
        ensures { IfSome (M.known self.now.medium) (HasTakenAFront self.now.cursor) }
    {
        let _medium = &self.medium;
    }
}

impl<R: Drop, M: Medium> OneFileLog<R, M> {
    /// Returns the file, for another handle.
    pub fn into_medium(self) -> M
        ensures { result ≡ self.medium }
    {
        let OneFileLog {
            rt: _,
            medium,
            header: _,
            cursor: _,
            is_locked: _,
            synchronizes: _,
            patience: _,
            pauses: _,
        } = self;
        medium
    }
}

impl<R: Clock + AllocGlobal, M: Medium> Log for OneFileLog<R, M> {
    ghost use Rattle.iceoryx2_log.specs.Log.{WhereKnown, Shows, Appends, is_shown};
    ghost use Rattle.iceoryx2_file_log.specs.OneFile.{EndsWhereNone};

    ghost contents = { λ log. contents_of log.header.counter (M.known log.medium) log.cursor };

    ghost held = { λ log. log.is_locked };

    ghost shown = { λ log. nat_lt 0 log.cursor.found };

    /// `Busy` if other handles held the log for all of the patience. `Damaged` if the file is shorter
    /// than the part that was taken over.
    fn hold(&mut self) -> Result<(), LogError> {
        match one_file::hold(&self.rt, &mut self.medium, &mut self.cursor, self.patience) {
            Ok(()) => {
                self.is_locked = true;
                Ok(())
            }
            Err(why) => {
                self.cursor.refuse(why);
                Err(log_error(why))
            }
        }
    }

    /// `Failed`, since the file's bytes are known only as long as this handle has the lock.
    fn look(&mut self) -> Result<(), LogError> {
        Err(LogError::Failed)
    }

    /// If there is no entry, nothing is left behind the position: the remainder of a writer that died is
    /// cut off. `Damaged` if the bytes are nothing that a writer leaves, and `Moved` if a mark is there.
    /// If the handle synchronizes and a cut could not be synchronized, the handle is unusable.
    fn next(&mut self) -> Result<Option<Entry>, LogError>
        ensures shows { IfOk result (λ found. WhereKnown (Shows found)
            (contents_of self.old.header.counter (M.known self.old.medium) self.old.cursor)
            (contents_of self.new.header.counter (M.known self.new.medium) self.new.cursor)) }
        ensures same { contents_of self.new.header.counter (M.known self.new.medium) self.new.cursor
            ≡ contents_of self.old.header.counter (M.known self.old.medium) self.old.cursor }
        ensures held { self.new.is_locked ≡ self.old.is_locked }
        ensures shown { nat_lt 0 self.new.cursor.found ≡ is_shown result }
        ensures ends { IfOk result (λ found. IfSome (M.known self.new.medium) (EndsWhereNone found self.new.cursor)) }
        ensures safe { OnOk result (Becomes (SparesOrIsSafe self.old.synchronizes)
            (M.known self.old.medium) (M.known self.new.medium)) }
    {
        let alloc = self.rt.alloc();
        match one_file::next(
            alloc,
            &mut self.medium,
            &mut self.cursor,
            &self.header,
            self.synchronizes,
        ) {
            Ok(found) => match found {
                Found::Entry(entry) => Ok(Some(entry)),
                Found::End => Ok(None),
                Found::Mark { count: _ } => Err(log_error(FileFault::Moved)),
            },
            Err(why) => {
                self.cursor.refuse(why);
                Err(log_error(why))
            }
        }
    }

    fn accept(&mut self) {
        one_file::accept(&self.medium, &mut self.cursor);
    }

    /// If a part of the entry may stand that could not be taken back, the handle is unusable. A mark is
    /// refused.
    fn append(&mut self, entry: &Entry) -> Result<(), LogError>
        ensures ok { OnOk result (WhereKnown (Appends entry.now)
            (contents_of self.old.header.counter (M.known self.old.medium) self.old.cursor)
            (contents_of self.new.header.counter (M.known self.new.medium) self.new.cursor)) }
        ensures err { OnErr result (contents_of self.new.header.counter (M.known self.new.medium) self.new.cursor
            ≡ contents_of self.old.header.counter (M.known self.old.medium) self.old.cursor) }
        ensures was_held { OnOk result (self.old.is_locked ≡ true) }
        ensures held { self.new.is_locked ≡ self.old.is_locked }
        ensures safe { OnOk result (IfSome (M.known self.new.medium) (IsSafe self.old.synchronizes)) }
    {
        let alloc = self.rt.alloc();
        match one_file::append(
            alloc,
            &mut self.medium,
            &mut self.cursor,
            entry,
            self.synchronizes,
        ) {
            Ok(()) => Ok(()),
            Err(why) => {
                self.cursor.refuse(why);
                Err(log_error(why))
            }
        }
    }

    fn let_go(&mut self) {
        one_file::let_go(&mut self.medium, &mut self.cursor);
        self.is_locked = false;
    }

    /// Returns false if the wait has had all of its pauses.
    fn pause(&mut self, number: u64) -> bool {
        if self.pauses <= number {
            return false;
        }
        self.let_go();
        thread::sleep(&self.rt, pause_after(number));
        true
    }

    /// `Failed`, since this log goes to no other file.
    fn rejoin(&mut self) -> Result<u64, LogError> {
        Err(LogError::Failed)
    }

    fn is_in_snapshot(&self) -> bool {
        is_before_end(self.cursor.position(), &self.header)
    }

    /// Returns false, since this log is not compacted.
    fn is_long(&self) -> bool {
        false
    }

    /// `Failed`, since this log goes to no other file.
    fn compact(&mut self, _snapshot: &[Entry]) -> Result<(), LogError> {
        Err(LogError::Failed)
    }

    fn put_off_compaction(&mut self) {}
}
