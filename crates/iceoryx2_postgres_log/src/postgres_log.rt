//! A handle of a log in a database: one session of the database's client.
//!
//! What the server keeps is known to no contract, so `contents` claims nothing here. What is proved is what each call
//! asks, byte for byte, what of the reply it reads, and what it makes of where the handle stands.

ghost use Rattle.std.specs.Prelude.{◌≡◌, ◌≢◌, ◌+◌, ◌*◌, ◌<◌, ◌≤◌, ◌⊎◌, ◌∷◌, [], Ok, Err, Some, None, true, false};
ghost use Rattle.std.specs.Prelude.{IfOk, IfErr, IfSome, OnOk, OnErr, IsTrue, codes, length, nat_lt, string_bytes};
ghost use Rattle.std.specs.Io.KnownBytes.{Appends};
ghost use Rattle.iceoryx2_log.specs.declared.entry.Operation.TheVariants as operation;
ghost use Rattle.iceoryx2_log.specs.declared.log.LogError.TheVariants as error;
ghost use Rattle.iceoryx2_log.specs.Log.{is_shown};
ghost use Rattle.iceoryx2_postgres_log.specs.declared.fault.PostgresFault.TheVariants as fault;
ghost use Rattle.iceoryx2_postgres_log.specs.declared.postgres_log.Mode.TheVariants as way;
ghost use Rattle.iceoryx2_postgres_log.specs.Compacting.{IsCompacted, Leaves};
ghost use Rattle.iceoryx2_postgres_log.specs.Faults.{is_over_by, log_error_of};
ghost use Rattle.iceoryx2_postgres_log.specs.First.{Shows, ShowsMark, IsDamaged};
ghost use Rattle.iceoryx2_postgres_log.specs.Hearing.{IsOpened, IsHeld, IsBusy, IsFreed, IsLook};
ghost use Rattle.iceoryx2_postgres_log.specs.Names.{IsLogName};
ghost use Rattle.iceoryx2_postgres_log.specs.Patience.{lock_wait};
ghost use Rattle.iceoryx2_postgres_log.specs.Questions as text;
ghost use Rattle.iceoryx2_postgres_log.specs.Replies.{Asks};
ghost use Rattle.iceoryx2_postgres_log.specs.Handle as spec;
ghost use Rattle.iceoryx2_postgres_log.specs.Handle.{IsErrorOf, ReadsOn, Appended, RefusesAppend, Rejoined};
ghost use Rattle.iceoryx2_postgres_log.specs.Handle.{MayAppend};

mod again;
mod reading;

use crate::compacting::ask_compact;
use crate::fault::{PostgresFault, log_error};
use crate::first::{first_of, is_mark};
use crate::hearing::{ask_append, ask_hold, ask_look, ask_opened, ask_pause, form_of};
use crate::line::Line;
use crate::name::is_log_name;
use crate::patience::lock_wait;
use crate::piece::Piece;
use crate::question::{END, opening};
use crate::row::Row;
use crate::standing::Standing;
use iceoryx2_log::entry::Entry;
use iceoryx2_log::log::{Log, LogError};
use std::alloc::Global;
use std::collections::VecDeque;
use std::io::{BufRead, Write};

/// From how many entries on a compaction may be worth it.
const LONG: u64 = 1024;

/// How many entries later a compaction is tried again that was put off.
const LATER: u64 = 1024;

/// How long one pause takes, in milliseconds.
const PAUSE_MILLIS: u64 = 5;

/// How a handle stands to its log.
#[derive(Clone, Copy, Debug, PartialEq, Eq)]
pub enum State {
    /// It neither holds the log nor looks at it.
    Free,
    /// It holds the log: no other handle appends.
    Held,
    /// It has measured how far the log goes, and reads what stood then.
    Looked,
    /// It asks nothing any more: `PostgresLog::fault` says why. A new handle, in a new session, reads what stands.
    Over,
}

/// What a handle last asked of its log.
#[derive(Clone, Copy, Debug, PartialEq, Eq)]
pub enum Mode {
    Free,
    Held,
    Looked,
}

/// A handle of a log in a database.
pub struct PostgresLog<R, W> {
    alloc: Global,
    questions: W,
    replies: R,
    name: String,
    /// For how long a wait for the log lasts, in milliseconds.
    patience_millis: u64,
    at: Standing,
    mode: Mode,
    /// The number of the last entry that there was when the log was held or looked at last.
    until: u64,
    /// The rows behind the place that were told and aren't taken over.
    ahead: VecDeque<Row>,
    /// Whether `next` has shown the entry of the first of them.
    is_shown: bool,
    /// Why the last call was refused that was, except for a compaction that was declined.
    fault: Option<PostgresFault>,
    /// The number of entries from which the next compaction is tried.
    tries_from: u64,
}

// Written out, so that a proof of what lets one go doesn't take its fields apart.
impl<R: Drop, W: Drop> Drop for PostgresLog<R, W> {
    fn drop(self) {
        let PostgresLog {
            alloc: _,
            questions: _,
            replies: _,
            name: _,
            patience_millis: _,
            at: _,
            mode: _,
            until: _,
            ahead: _,
            is_shown: _,
            fault: _,
            tries_from: _,
        } = self;
    }
}

/// From how many entries on the first compaction is tried behind a snapshot of so many.
fn first_tried(snapshot: u64) -> u64
    ensures { result ≡ spec.first_tried snapshot }
{
    snapshot.saturating_add(1).saturating_mul(8)
}

/// From how many entries on a compaction to so many is worth it.
fn worth(count: u64) -> u64
    ensures { result ≡ spec.worth count }
{
    count.saturating_mul(8)
}

impl<R: BufRead, W: Write> PostgresLog<R, W> {
    /// A handle of the log of this name, before the first entry of its current generation. The log is made where there
    /// is none and `makes` says so: else `NoLog`. Nothing is held. `patience_millis` is for how long a call waits for
    /// others, in milliseconds. `BadName` before anything is asked. `AnotherVersion` where the tables are another's.
    pub fn open(
        alloc: Global,
        name: &str,
        patience_millis: u64,
        makes: bool,
        mut questions: W,
        mut replies: R,
    ) -> Result<PostgresLog<R, W>, PostgresFault>
    where
        R: Drop,
        W: Drop,
        ensures opens { IfOk result (λ log. IsOpened (text.opening name.now makes (lock_wait patience_millis)) log.at
            (W.contents questions) (W.contents log.questions) (R.remaining replies) (R.remaining log.replies)) }
        ensures name { OnOk result (IsLogName name.now) }
        ensures first { IfOk result (λ log. (log.mode ≡ way.Free) × (log.ahead.items ≡ []) × (log.fault ≡ None)
            × (string_bytes log.name ≡ name.now) × (log.tries_from ≡ spec.first_tried log.at.snapshot)) }
    {
        if !is_log_name(name) {
            return Err(PostgresFault::BadName);
        }
        let own = format!(in alloc; "{name}")?;
        let question = opening(alloc, name, makes, lock_wait(patience_millis))?;
        match ask_opened(alloc, question.as_bytes(), &mut questions, &mut replies) {
            Err(why) => Err(why),
            Ok(None) => Err(PostgresFault::NoLog),
            Ok(Some(at)) => Ok(PostgresLog {
                alloc,
                questions,
                replies,
                name: own,
                patience_millis,
                mode: Mode::Free,
                until: 0,
                ahead: VecDeque::new(alloc),
                is_shown: false,
                fault: None,
                tries_from: first_tried(at.snapshot),
                at,
            }),
        }
    }
}

impl<R, W> PostgresLog<R, W> {
    /// What its memory comes from.
    pub fn alloc(&self) -> Global
        ensures { result ≡ self.now.alloc }
    {
        self.alloc
    }

    /// Where its questions are written.
    pub fn questions(&self) -> &W
        ensures { result.now ≡ self.now.questions }
    {
        &self.questions
    }

    /// With which number the counter of services begins in the generation where the handle stands.
    pub fn counter(&self) -> u64
        ensures { result ≡ self.now.at.counter }
    {
        self.at.counter
    }

    /// The number of the last entry that was taken over or appended in this generation: 0 before the first one.
    pub fn number(&self) -> u64
        ensures { result ≡ self.now.at.number }
    {
        self.at.number
    }

    /// In which generation of the log the handle stands.
    pub fn generation(&self) -> u64
        ensures { result ≡ self.now.at.generation }
    {
        self.at.generation
    }

    /// What the server tells of the last entry that was taken over or appended: its number, a space, and the sum of all
    /// rows up to it.
    pub fn place(&self) -> &[u8]
        ensures { result.now ≡ self.now.at.place }
    {
        self.at.place.as_slice()
    }

    pub fn state(&self) -> State
        ensures { result ≡ spec.state_of (spec.is_over self.now.fault) self.now.mode }
    {
        if self.why_over().is_some() {
            return State::Over;
        }
        match self.mode {
            Mode::Free => State::Free,
            Mode::Held => State::Held,
            Mode::Looked => State::Looked,
        }
    }

    /// Why the last call was refused that was, except for a compaction that was declined.
    pub fn fault(&self) -> Option<PostgresFault>
        ensures { result ≡ self.now.fault }
    {
        self.fault
    }

    /// Why nothing is asked any more, where that is so.
    fn why_over(&self) -> Option<PostgresFault>
        ensures over { IfSome result (λ why. (self.now.fault ≡ Some why) × (is_over_by why ≡ true)) }
        ensures on { result ≡ None → spec.is_over self.now.fault ≡ false }
    {
        match self.fault {
            None => None,
            Some(why) => {
                if why.is_over() {
                    return Some(why);
                }
                None
            }
        }
    }

    /// Keeps why a call was refused, and tells the same as a log's error.
    fn refuse(&mut self, why: PostgresFault) -> LogError
        ensures answer { result ≡ log_error_of why }
        ensures kept { self.new ≡ record self.old { fault = Some why } }
        ensures busy { result ≡ error.Busy → why ≡ fault.Busy }
        ensures memory { result ≡ error.OutOfMemory → why ≡ fault.OutOfMemory }
        ensures moved { result ≡ error.Moved → why ≡ fault.Moved }
        ensures damaged { result ≡ error.Damaged → spec.IsDamage why }
    {
        self.fault = Some(why);
        log_error(why)
    }

    /// Goes on with what was read.
    fn take(&mut self, piece: Piece, next: Mode)
        ensures { self.new ≡ record self.old {
          mode = next;
          until = piece.last;
          ahead = piece.rows;
          is_shown = false;
        } }
    {
        let (last, rows) = piece.into_parts();
        self.mode = next;
        self.until = last;
        self.ahead = rows;
        self.is_shown = false;
    }

    /// Why nothing is appended and nothing compacted, where that is so.
    fn why_unready(&self) -> Option<PostgresFault>
        ensures may { result ≡ None
            → MayAppend self.now.fault self.now.mode self.now.ahead.items self.now.at.number self.now.until }
        ensures over { spec.is_over self.now.fault ≡ true → result ≡ self.now.fault }
    {
        if let Some(why) = self.why_over() {
            return Some(why);
        }
        if self.mode != Mode::Held {
            return Some(PostgresFault::NotHeld);
        }
        if !self.ahead.is_empty() {
            return Some(PostgresFault::Unread);
        }
        if self.at.number != self.until {
            return Some(PostgresFault::Unread);
        }
        None
    }
}

impl<R: BufRead, W: Write> Log for PostgresLog<R, W> {
    ghost contents = { λ _. None };

    ghost held = { λ log. spec.is_held log.mode };

    ghost shown = { λ log. log.is_shown };

    /// `Busy` where another session held the log for as long as the patience allows.
    fn hold(&mut self) -> Result<(), LogError>
        ensures was { OnOk result ((spec.is_over self.old.fault ≡ false) × (self.old.mode ≢ way.Held)) }
        ensures told { OnOk result (IsHeld self.old.at (W.contents self.old.questions) (W.contents self.new.questions)
            (R.remaining self.old.replies) (R.remaining self.new.replies)
            (record { last = self.new.until; rows = self.new.ahead })) }
        ensures after { OnOk result (self.new ≡ record self.old {
          questions = self.new.questions;
          replies = self.new.replies;
          mode = way.Held;
          until = self.new.until;
          ahead = self.new.ahead;
          is_shown = false;
        }) }
        ensures stays { OnErr result (self.new ≡ record self.old {
          questions = self.new.questions;
          replies = self.new.replies;
          fault = self.new.fault;
        }) }
        ensures busy { result ≡ Err error.Busy → IsBusy self.old.at (W.contents self.old.questions)
            (W.contents self.new.questions) (R.remaining self.old.replies) (R.remaining self.new.replies) }
        ensures memory { result ≡ Err error.OutOfMemory → IsFreed self.old.at (W.contents self.old.questions)
            (W.contents self.new.questions) (R.remaining self.old.replies) (R.remaining self.new.replies) }
        ensures over { spec.is_over self.old.fault ≡ true → self.new ≡ self.old }
        ensures why { IfErr result (λ e. IsErrorOf e self.new.fault) }
    {
        if let Some(why) = self.why_over() {
            return Err(log_error(why));
        }
        if self.mode == Mode::Held {
            return Err(self.refuse(PostgresFault::HeldAlready));
        }
        match ask_hold(self.alloc, &self.at, &mut self.questions, &mut self.replies) {
            Ok(piece) => {
                self.take(piece, Mode::Held);
                Ok(())
            }
            Err(why) => Err(self.refuse(why)),
        }
    }

    fn look(&mut self) -> Result<(), LogError>
        ensures was { OnOk result ((spec.is_over self.old.fault ≡ false) × (self.old.mode ≢ way.Held)) }
        ensures told { OnOk result (IsLook self.old.at text.end (W.contents self.old.questions)
            (W.contents self.new.questions) (R.remaining self.old.replies) (R.remaining self.new.replies)
            (record { last = self.new.until; rows = self.new.ahead })) }
        ensures after { OnOk result (self.new ≡ record self.old {
          questions = self.new.questions;
          replies = self.new.replies;
          mode = way.Looked;
          until = self.new.until;
          ahead = self.new.ahead;
          is_shown = false;
        }) }
        ensures stays { OnErr result (self.new ≡ record self.old {
          questions = self.new.questions;
          replies = self.new.replies;
          fault = self.new.fault;
        }) }
        ensures over { spec.is_over self.old.fault ≡ true → self.new ≡ self.old }
        ensures why { IfErr result (λ e. IsErrorOf e self.new.fault) }
    {
        if let Some(why) = self.why_over() {
            return Err(log_error(why));
        }
        if self.mode == Mode::Held {
            return Err(self.refuse(PostgresFault::HeldAlready));
        }
        match ask_look(
            self.alloc,
            &self.at,
            END,
            &mut self.questions,
            &mut self.replies,
        ) {
            Ok(piece) => {
                self.take(piece, Mode::Looked);
                Ok(())
            }
            Err(why) => Err(self.refuse(why)),
        }
    }

    /// Where no row is unread that was told, and the measured end isn't reached, the next rows are asked for. `Damaged`
    /// where the row has no entry, and `Moved` where it has a mark, which isn't taken over.
    fn next(&mut self) -> Result<Option<Entry>, LogError>
        ensures was { OnOk result ((spec.is_over self.old.fault ≡ false) × (self.old.mode ≢ way.Free)) }
        ensures found { IfOk result (λ found. Shows found self.new.ahead.items) }
        ensures reads { OnOk result (ReadsOn self.old.at self.old.until self.old.ahead.items
            (W.contents self.old.questions) (W.contents self.new.questions)
            (R.remaining self.old.replies) (R.remaining self.new.replies) self.new.ahead.items) }
        ensures shown { self.new.is_shown ≡ is_shown result }
        ensures none { result ≡ Ok None → self.new.at.number ≡ self.new.until }
        ensures moved { result ≡ Err error.Moved → ShowsMark self.new.ahead.items }
        ensures damaged { result ≡ Err error.Damaged → spec.IsDamagedFirst self.new.ahead.items }
        ensures after { self.new ≡ record self.old {
          questions = self.new.questions;
          replies = self.new.replies;
          ahead = self.new.ahead;
          is_shown = self.new.is_shown;
          fault = self.new.fault;
        } }
        ensures over { spec.is_over self.old.fault ≡ true → self.new ≡ record self.old { is_shown = false } }
        ensures why { IfErr result (λ e. IsErrorOf e self.new.fault) }
    {
        self.is_shown = false;
        if let Some(why) = self.why_over() {
            return Err(log_error(why));
        }
        if self.mode == Mode::Free {
            return Err(self.refuse(PostgresFault::NotHeld));
        }
        match self.read_on() {
            Ok(()) => {}
            Err(why) => return Err(self.refuse(why)),
        }
        match first_of(self.alloc, &self.ahead) {
            Err(why) => Err(self.refuse(why)),
            Ok(None) => Ok(None),
            Ok(Some(entry)) => {
                self.is_shown = true;
                Ok(Some(entry))
            }
        }
    }

    fn accept(&mut self)
        ensures taken { self.old.is_shown ≡ true → self.new ≡ record self.old {
          at = record self.old.at {
            number = spec.number_after self.old.at.number self.old.ahead.items;
            place = spec.place_after self.old.at.place self.old.ahead.items;
          };
          ahead = self.new.ahead;
          is_shown = false;
        } }
        ensures left { self.old.is_shown ≡ true → self.new.ahead.items ≡ spec.left_after self.old.ahead.items }
        ensures no_more { self.old.is_shown ≡ false → self.new ≡ self.old }
    {
        if !self.is_shown {
            return;
        }
        self.is_shown = false;
        if let Some(row) = self.ahead.pop_front() {
            self.at.number = row.number;
            self.at.place = row.into_place();
        }
    }

    /// Appends the entry and commits it. Where anything else is told than that it stands, the handle is over.
    /// `IsAMark`, `NotHeld`, `Unread`, `TooLong` and `OutOfMemory` come before anything is asked. `Unsure` where the
    /// commit was asked for and not told.
    fn append(&mut self, entry: &Entry) -> Result<(), LogError>
        ensures was { OnOk result (MayAppend self.old.fault self.old.mode self.old.ahead.items self.old.at.number
            self.old.until) }
        ensures no_mark { OnOk result (entry.now.operation ≢ operation.Moved) }
        ensures done { OnOk result (Appended self.old.at entry.now (W.contents self.old.questions)
            (W.contents self.new.questions) (R.remaining self.old.replies) (R.remaining self.new.replies)
            self.new.at.place) }
        ensures after { OnOk result (self.new ≡ record self.old {
          questions = self.new.questions;
          replies = self.new.replies;
          at = record self.old.at { number = self.old.at.number + 1; place = self.new.at.place };
          until = self.old.at.number + 1;
        }) }
        ensures stays { OnErr result (self.new ≡ record self.old {
          questions = self.new.questions;
          replies = self.new.replies;
          fault = self.new.fault;
        }) }
        ensures unsure { OnErr result ((spec.is_over self.new.fault ≡ true)
            ⊎ ((self.new.questions ≡ self.old.questions) × (self.new.replies ≡ self.old.replies))) }
        ensures refused { OnErr result (RefusesAppend self.old.at entry.now (W.contents self.old.questions)
            (W.contents self.new.questions) (R.remaining self.old.replies) (R.remaining self.new.replies)
            self.new.fault) }
        ensures over { spec.is_over self.old.fault ≡ true → self.new ≡ self.old }
        ensures why { IfErr result (λ e. IsErrorOf e self.new.fault) }
    {
        if let Some(why) = self.why_unready() {
            return Err(self.refuse(why));
        }
        if is_mark(entry) {
            return Err(self.refuse(PostgresFault::IsAMark));
        }
        let form = match form_of(self.alloc, entry) {
            Ok(form) => form,
            Err(why) => return Err(self.refuse(why)),
        };
        let Some(number) = self.at.number.checked_add(1) else {
            return Err(self.refuse(PostgresFault::TooLong));
        };
        match ask_append(
            self.alloc,
            &self.at,
            number,
            &form,
            &mut self.questions,
            &mut self.replies,
        ) {
            Ok(place) => {
                self.at.number = number;
                self.at.place = place;
                self.until = number;
                Ok(())
            }
            Err(why) => Err(self.refuse(why)),
        }
    }

    fn let_go(&mut self)
        ensures free { (self.new.mode ≡ way.Free) × (self.new.ahead.items ≡ []) × (self.new.is_shown ≡ false) }
        ensures says { self.old.mode ≡ way.Held → spec.is_over self.old.fault ≡ false
            → (self.new.fault ≡ Some fault.SessionEnded) ⊎ ((self.new.fault ≡ self.old.fault)
            × Appends (W.contents self.old.questions) (W.contents self.new.questions)
            (text.letting_go self.old.at.log)) }
        ensures silent { self.old.mode ≢ way.Held
            → (self.new.questions ≡ self.old.questions) × (self.new.fault ≡ self.old.fault) }
        ensures over { spec.is_over self.old.fault ≡ true
            → (self.new.questions ≡ self.old.questions) × (self.new.fault ≡ self.old.fault) }
        ensures after { self.new ≡ record self.old {
          questions = self.new.questions;
          mode = way.Free;
          ahead = self.new.ahead;
          is_shown = false;
          fault = self.new.fault;
        } }
    {
        let was = self.mode;
        self.mode = Mode::Free;
        self.is_shown = false;
        self.ahead.clear();
        if was == Mode::Held {
            self.end_hold();
        }
    }

    /// The server waits for five milliseconds. False once the patience is over, and where the log isn't held, or there
    /// is no memory.
    fn pause(&mut self, number: u64) -> bool
        ensures was { IsTrue result → (spec.is_over self.old.fault ≡ false) × (self.old.mode ≡ way.Held)
            × (number * 5 < self.old.patience_millis) }
        ensures goes_on { IsTrue result → (spec.is_over self.new.fault ≡ true) ⊎ Asks (text.pausing self.old.at.log)
            (codes "paused") ([] ∷ []) text.paused (W.contents self.old.questions) (W.contents self.new.questions)
            (R.remaining self.old.replies) (R.remaining self.new.replies) }
        ensures after { IsTrue result → self.new ≡ record self.old {
          questions = self.new.questions;
          replies = self.new.replies;
          mode = way.Free;
          ahead = self.new.ahead;
          is_shown = false;
          fault = self.new.fault;
        } }
        ensures ends { result ≡ false → self.new ≡ self.old }
    {
        if self.why_over().is_some() {
            return false;
        }
        if self.mode != Mode::Held {
            return false;
        }
        if number.saturating_mul(PAUSE_MILLIS) >= self.patience_millis {
            return false;
        }
        match ask_pause(
            self.alloc,
            self.at.log,
            &mut self.questions,
            &mut self.replies,
        ) {
            Ok(()) => {}
            Err(PostgresFault::OutOfMemory) => return false,
            Err(why) => self.fault = Some(why),
        }
        self.mode = Mode::Free;
        self.is_shown = false;
        self.ahead.clear();
        true
    }

    /// The log goes on in a later generation of the same log. `AnotherHistory` where it doesn't.
    fn rejoin(&mut self) -> Result<u64, LogError>
        ensures was { OnOk result ((spec.is_over self.old.fault ≡ false) × (self.old.mode ≢ way.Free)) }
        ensures counter { IfOk result (λ counter. counter ≡ self.new.at.counter) }
        ensures told { OnOk result (Rejoined (string_bytes self.old.name) self.old.at self.new.at
            (W.contents self.old.questions) (W.contents self.new.questions)
            (R.remaining self.old.replies) (R.remaining self.new.replies)
            (record { last = self.new.until; rows = self.new.ahead })) }
        ensures after { OnOk result (self.new ≡ record self.old {
          questions = self.new.questions;
          replies = self.new.replies;
          at = self.new.at;
          until = self.new.until;
          ahead = self.new.ahead;
          is_shown = false;
          tries_from = spec.first_tried self.new.at.snapshot;
        }) }
        ensures stays { OnErr result (self.new ≡ record self.old {
          questions = self.new.questions;
          replies = self.new.replies;
          fault = self.new.fault;
        }) }
        ensures over { spec.is_over self.old.fault ≡ true → self.new ≡ self.old }
        ensures why { IfErr result (λ e. IsErrorOf e self.new.fault) }
    {
        if let Some(why) = self.why_over() {
            return Err(log_error(why));
        }
        if self.mode == Mode::Free {
            return Err(self.refuse(PostgresFault::NotHeld));
        }
        match self.find_again() {
            Ok((start, piece)) => {
                self.tries_from = first_tried(start.snapshot);
                self.at = start;
                self.take(piece, self.mode);
                Ok(self.at.counter)
            }
            Err(why) => Err(self.refuse(why)),
        }
    }

    fn is_in_snapshot(&self) -> bool
        ensures { result ≡ nat_lt self.now.at.number self.now.at.snapshot }
    {
        self.at.number < self.at.snapshot
    }

    fn is_long(&self) -> bool
        ensures { IsTrue result → (1024 ≤ self.now.at.number) × (self.now.tries_from ≤ self.now.at.number) }
    {
        if self.at.number < LONG {
            return false;
        }
        self.at.number >= self.tries_from
    }

    /// One transaction of the session: nobody sees anything of it unless it is committed. `Failed` with no fault where
    /// the log isn't eight times as long as the snapshot. `Unsure` where the commit was asked for and not told. Where
    /// the session hasn't ended, any other `Err` leaves nothing committed, and puts off another attempt.
    fn compact(&mut self, snapshot: &[Entry]) -> Result<(), LogError>
        ensures was { OnOk result (MayAppend self.old.fault self.old.mode self.old.ahead.items self.old.at.number
            self.old.until) }
        ensures worth { OnOk result (spec.worth (length snapshot.now) ≤ self.old.at.number) }
        ensures done { OnOk result (IsCompacted self.old.at snapshot.now (W.contents self.old.questions)
            (W.contents self.new.questions) (R.remaining self.old.replies) (R.remaining self.new.replies)
            self.new.at) }
        ensures after { OnOk result (self.new ≡ record self.old {
          questions = self.new.questions;
          replies = self.new.replies;
          at = self.new.at;
          until = self.new.at.number;
          tries_from = spec.first_tried self.new.at.snapshot;
        }) }
        ensures stays { OnErr result (self.new ≡ record self.old {
          questions = self.new.questions;
          replies = self.new.replies;
          fault = self.new.fault;
          tries_from = self.new.tries_from;
        }) }
        ensures left { OnErr result (((self.new.questions ≡ self.old.questions) × (self.new.replies ≡ self.old.replies))
            ⊎ Leaves self.old.at (length snapshot.now) (W.contents self.old.questions)
            (W.contents self.new.questions) (R.remaining self.old.replies) (R.remaining self.new.replies)
            self.new.fault) }
        ensures over { spec.is_over self.old.fault ≡ true → self.new ≡ self.old }
    {
        if let Some(why) = self.why_unready() {
            return Err(self.refuse(why));
        }
        let least = worth(snapshot.len() as u64);
        if self.at.number < least {
            self.tries_from = least;
            return Err(LogError::Failed);
        }
        match ask_compact(
            self.alloc,
            &self.at,
            snapshot,
            &mut self.questions,
            &mut self.replies,
        ) {
            Ok(start) => {
                self.until = start.number;
                self.tries_from = first_tried(start.snapshot);
                self.at = start;
                Ok(())
            }
            Err(why) => {
                self.tries_from = self.at.number.saturating_add(LATER);
                Err(self.refuse(why))
            }
        }
    }

    fn put_off_compaction(&mut self)
        ensures { self.new ≡ record self.old { tries_from = spec.later self.old.at.number } }
    {
        self.tries_from = self.at.number.saturating_add(LATER);
    }
}
