//! A log in memory, for tests.

ghost use Rattle.std.specs.Prelude.{◌≡◌, ◌≤◌, ◌↔◌, ◌++◌, ◌&&◌, not, true, false, [], ◌∷◌};
ghost use Rattle.std.specs.Prelude.{length, take, drop, Err, IfOk, IfErr, OnOk, OnErr};
ghost use Rattle.iceoryx2_access.specs.Counts.{count_up};
ghost use Rattle.iceoryx2_log.specs.Log.{first, is_shown};
ghost use Rattle.iceoryx2_log.specs.declared.log.LogError.TheVariants.{OutOfMemory};
ghost use Rattle.iceoryx2_log.specs.Memory.{accepted_where, is_listed, none_unread, with_batch};

use crate::call_log::SpansCalls;
use crate::entry::Entry;
use crate::log::{Log, LogError};
use std::alloc::{AllocError, Global};
use std::marker::Model;

/// Entries that other handles append, one after the other.
#[derive(Debug)]
pub struct Batch {
    entries: Vec<Entry>,
}

// Written out, so that a proof of what lets one go doesn't take its fields apart.
impl Drop for Batch {
    fn drop(self) {
        let Batch { entries: _ } = self;
    }
}

impl Model for Batch {
    ghost use Rattle.std.specs.Prelude.{List};
    ghost use Rattle.iceoryx2_log.specs.declared.entry.Entry.{Entry};

    ghost Value = { List Entry };

    ghost view = { λ batch. batch.entries.items };
}

impl Batch {
    pub fn new(entries: Vec<Entry>) -> Batch
        ensures { result ≡ entries.items }
    {
        Batch { entries }
    }

    fn copies(&self, alloc: Global) -> Result<Vec<Entry>, AllocError>
        ensures { IfOk result (λ copies. copies.items ≡ self.now) }
    {
        copies_of(alloc, &self.entries)
    }
}

fn copies_of(alloc: Global, entries: &[Entry]) -> Result<Vec<Entry>, AllocError>
    ensures { IfOk result (λ copies. copies.items ≡ entries.now) }
{
    let mut copies = Vec::new(alloc);
    for entry in entries {
        copies.push(entry.clone()?)?;
    }
    Ok(copies)
}

fn has(numbers: &[u64], number: u64) -> bool
    ensures { result ≡ is_listed number numbers.now }
{
    numbers.iter().any(|k| number == *k)
}

/// A handle of a log in memory. A test hands in the entries of other handles as batches. The next batch
/// comes before each hold that is granted. Holds and appends are counted from 1, refused ones too; each
/// one past `u64::MAX` counts as the `u64::MAX`-th. Holds of chosen numbers find the log busy, and
/// appends of chosen numbers are refused. A look counts as a hold.
pub struct MemoryLog {
    // all that stands, and how much of it this handle has taken
    entries: Vec<Entry>,
    taken: usize,
    appended: Vec<Entry>,
    // all batches, and how many of them have come
    batches: Vec<Batch>,
    came: usize,
    held: bool,
    // whether it was looked at since it was held or let go of last
    looks: bool,
    // whether the next entry was shown
    shown: bool,
    holds: u64,
    busy: Vec<u64>,
    appends: u64,
    refused: Vec<u64>,
    // how many pauses each wait has
    pauses: u64,
}

// Written out, so that a proof of what lets one go doesn't take its fields apart.
impl Drop for MemoryLog {
    fn drop(self) {
        let MemoryLog {
            entries: _,
            taken: _,
            appended: _,
            batches: _,
            came: _,
            held: _,
            looks: _,
            shown: _,
            holds: _,
            busy: _,
            appends: _,
            refused: _,
            pauses: _,
        } = self;
    }
}

impl Model for MemoryLog {
    ghost use Rattle.std.specs.Prelude.{◌≤◌, length, take, drop};
    ghost use Rattle.iceoryx2_log.specs.Memory.{LogState};

    ghost Value = { LogState };

    ghost view = { λ l. record {
      contents = record { begins = 0; taken = take l.taken l.entries.items; unread = drop l.taken l.entries.items };
      appended = l.appended.items;
      batches = drop l.came l.batches.items;
      held = l.held;
      looks = l.looks;
      shown = l.shown;
      holds = l.holds;
      busy = l.busy.items;
      appends = l.appends;
      refused = l.refused.items;
      pauses = l.pauses;
    } };

    ghost invariant = { λ l. (l.taken ≤ length l.entries.items) × (l.came ≤ length l.batches.items) };
}

impl MemoryLog {
    /// Returns a handle of a log with these entries, of which the handle has taken over so many. The
    /// handle refuses nothing, and no wait has a pause.
    pub fn from_entries(alloc: Global, entries: Vec<Entry>, taken: usize) -> MemoryLog
        requires { taken ≤ length entries.items }
        ensures { result ≡ record {
          contents = record { begins = 0; taken = take taken entries.items; unread = drop taken entries.items };
          appended = [];
          batches = [];
          held = false;
          looks = false;
          shown = false;
          holds = 0;
          busy = [];
          appends = 0;
          refused = [];
          pauses = 0;
        } }
    {
        MemoryLog {
            entries,
            taken,
            appended: Vec::new(alloc),
            batches: Vec::new(alloc),
            came: 0,
            held: false,
            looks: false,
            shown: false,
            holds: 0,
            busy: Vec::new(alloc),
            appends: 0,
            refused: Vec::new(alloc),
            pauses: 0,
        }
    }

    /// Returns all entries of the log, for another handle.
    pub fn into_entries(self) -> Vec<Entry>
        ensures { result.items ≡ self.contents.taken ++ self.contents.unread }
    {
        let MemoryLog {
            entries,
            taken: _,
            appended: _,
            batches: _,
            came: _,
            held: _,
            looks: _,
            shown: _,
            holds: _,
            busy: _,
            appends: _,
            refused: _,
            pauses: _,
        } = self;
        entries
    }

    /// Adds a batch behind those that wait. An `Err` changes nothing.
    pub fn schedule(&mut self, batch: Batch) -> Result<(), AllocError>
        ensures ok { OnOk result (self.new ≡ record self.old { batches = self.old.batches ++ batch ∷ [] }) }
        ensures err { OnErr result (self.new ≡ self.old) }
    {
        self.batches.push(batch)?;
        Ok(())
    }

    /// Lets the holds of these numbers, and no others, find the log busy from now on.
    pub fn set_busy(&mut self, busy: Vec<u64>)
        ensures { self.new ≡ record self.old { busy = busy.items } }
    {
        self.busy = busy;
    }

    /// Refuses the appends of these numbers, and no others, from now on.
    pub fn set_refused(&mut self, refused: Vec<u64>)
        ensures { self.new ≡ record self.old { refused = refused.items } }
    {
        self.refused = refused;
    }

    /// Gives each wait so many pauses from now on. None takes any time.
    pub fn set_pauses(&mut self, pauses: u64)
        ensures { self.new ≡ record self.old { pauses = pauses } }
    {
        self.pauses = pauses;
    }

    /// Returns all entries of the log, in order.
    pub fn entries(&self) -> &[Entry]
        ensures { result.now ≡ self.now.contents.taken ++ self.now.contents.unread }
    {
        &self.entries
    }

    /// Returns the number of entries that this handle has taken over or appended.
    pub fn taken(&self) -> usize
        ensures { result ≡ length self.now.contents.taken }
    {
        self.taken
    }

    /// Returns the entries that this handle has appended, in order.
    pub fn appended(&self) -> &[Entry]
        ensures { result.now ≡ self.now.appended }
    {
        &self.appended
    }

    /// Returns the number of batches that wait.
    pub fn pending(&self) -> usize
        ensures { result ≡ length self.now.batches }
    {
        self.batches.len() - self.came
    }

    /// Lets the next batch come, if one waits. An `Err` changes nothing.
    fn take_batch(&mut self) -> Result<(), LogError>
        ensures ok { OnOk result (self.new ≡ with_batch self.old self.old.batches) }
        ensures err { OnErr result (self.new ≡ self.old) }
        ensures memory { IfErr result (λ e. e ≡ OutOfMemory) }
    {
        if self.came < self.batches.len() {
            let mut copies = self.batches[self.came].copies(*self.batches.allocator())?;
            self.entries.append(&mut copies)?;
            self.came += 1;
        }
        Ok(())
    }

    /// Returns true if this handle has taken over all entries.
    #[tactic(auto, using(crate::proofs::Unread::some_unread, crate::proofs::Unread::all_read))]
    fn is_read(&self) -> bool
        ensures { result ≡ none_unread self.now.contents.unread }
    {
        if self.taken < self.entries.len() {
            return false;
        }
        true
    }

    /// Returns true if the append of this number goes through.
    fn may_append(&self) -> bool
        ensures { result ≡ (self.now.held && none_unread self.now.contents.unread
            && not (is_listed self.now.appends self.now.refused)) }
    {
        let is_read = self.is_read();
        let is_refused = has(&self.refused, self.appends);
        self.held && is_read && !is_refused
    }
}

impl Log for MemoryLog {
    ghost use Rattle.std.specs.Prelude.{Some};
    ghost use Rattle.iceoryx2_log.specs.Memory.{Holds, Looks, AppendsOne, Pauses, may_read, freed};

    ghost contents = { λ s. Some s.contents };

    ghost held = { λ s. s.held };

    ghost shown = { λ s. s.shown };

    /// Lets the next batch come. `Failed` if the log is held already; this is tested first.
    fn hold(&mut self) -> Result<(), LogError>
        ensures { Holds self.old result self.new }
    {
        self.holds = self.holds.saturating_add(1);
        if self.held {
            return Err(LogError::Failed);
        }
        if has(&self.busy, self.holds) {
            return Err(LogError::Busy);
        }
        self.take_batch()?;
        self.held = true;
        Ok(())
    }

    /// The next batch comes, as for a hold. `Failed` where the log is held, which is tested first.
    fn look(&mut self) -> Result<(), LogError>
        ensures { Looks self.old result self.new }
    {
        self.holds = self.holds.saturating_add(1);
        if self.held {
            return Err(LogError::Failed);
        }
        if has(&self.busy, self.holds) {
            return Err(LogError::Busy);
        }
        self.take_batch()?;
        self.looks = true;
        Ok(())
    }

    fn next(&mut self) -> Result<Option<Entry>, LogError>
        ensures shows { IfOk result (λ found. (may_read self.old ≡ true) × (found ≡ first self.old.contents.unread)) }
        ensures failed { (result ≡ Err LogError.Failed) ↔ (may_read self.old ≡ false) }
        ensures memory { may_read self.old ≡ true → IfErr result (λ e. e ≡ OutOfMemory) }
        ensures same { self.new ≡ record self.old { shown = is_shown result } }
    {
        self.shown = false;
        if !self.held && !self.looks {
            return Err(LogError::Failed);
        }
        match self.entries.get(self.taken) {
            None => Ok(None),
            Some(entry) => match entry.clone() {
                Ok(copy) => {
                    self.shown = true;
                    Ok(Some(copy))
                }
                Err(_) => Err(LogError::OutOfMemory),
            },
        }
    }

    fn accept(&mut self)
        ensures { self.new ≡ record self.old { contents = accepted_where self.old.shown self.old; shown = false } }
    {
        if !self.shown {
            return;
        }
        self.shown = false;
        if self.taken < self.entries.len() {
            self.taken += 1;
        }
    }

    fn append(&mut self, entry: &Entry) -> Result<(), LogError>
        ensures { AppendsOne self.old entry.now result self.new }
    {
        self.appends = self.appends.saturating_add(1);
        if !self.may_append() {
            return Err(LogError::Failed);
        }
        let copy = entry.clone()?;
        self.appended.push(entry.clone()?)?;
        match self.entries.push(copy) {
            Ok(()) => {
                self.taken = self.entries.len();
                Ok(())
            }
            Err(_) => {
                let _ = self.appended.pop();
                Err(LogError::OutOfMemory)
            }
        }
    }

    fn let_go(&mut self)
        ensures { self.new ≡ freed self.old }
    {
        self.held = false;
        self.looks = false;
    }

    fn pause(&mut self, number: u64) -> bool
        ensures { Pauses self.old number result self.new }
    {
        if number < self.pauses {
            self.held = false;
            self.looks = false;
            return true;
        }
        false
    }

    // What stands in memory is never moved.

    fn rejoin(&mut self) -> Result<u64, LogError>
        ensures { (result ≡ Err LogError.Failed) × (self.new ≡ self.old) }
    {
        Err(LogError::Failed)
    }

    fn is_in_snapshot(&self) -> bool
        ensures { result ≡ false }
    {
        false
    }

    fn is_long(&self) -> bool
        ensures { result ≡ false }
    {
        false
    }

    fn compact(&mut self, _snapshot: &[Entry]) -> Result<(), LogError>
        ensures { (result ≡ Err LogError.Failed) × (self.new ≡ self.old) }
    {
        Err(LogError::Failed)
    }

    fn put_off_compaction(&mut self)
        ensures { self.new ≡ self.old }
    {}
}

/// Nobody else holds it.
impl SpansCalls for MemoryLog {
    ghost use Rattle.iceoryx2_log.specs.Memory.{freed};

    ghost in_call = { λ _. false };

    fn begin_call(&mut self)
        ensures { self.new ≡ self.old }
    {}

    fn end_call(&mut self)
        ensures { self.new ≡ freed self.old }
    {
        self.held = false;
        self.looks = false;
    }
}
