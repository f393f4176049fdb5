//! How a handle reads on, lets go of its log, and finds the generation that follows.

ghost use Rattle.std.specs.Prelude.{◌≡◌, ◌⊎◌, [], Some, true, false, IfOk, IfErr, OnOk, string_bytes};
ghost use Rattle.std.specs.Io.KnownBytes.{Appends};
ghost use Rattle.iceoryx2_postgres_log.specs.declared.fault.PostgresFault.TheVariants as fault;
ghost use Rattle.iceoryx2_postgres_log.specs.Faults.{IsGrave};
ghost use Rattle.iceoryx2_postgres_log.specs.Handle as spec;
ghost use Rattle.iceoryx2_postgres_log.specs.Handle.{ReadsOn, Rejoined};
ghost use Rattle.iceoryx2_postgres_log.specs.Questions as text;

use crate::fault::PostgresFault;
use crate::hearing::{ask_look, ask_opened, write_letting_go};
use crate::piece::Piece;
use crate::postgres_log::PostgresLog;
use crate::question::{END, reopening};
use crate::standing::{Standing, is_later};
use std::io::{BufRead, Write};

impl<R: BufRead, W: Write> PostgresLog<R, W> {
    /// Reads the next rows if none is unread and there are some up to the number that was measured.
    pub(super) fn read_on(&mut self) -> Result<(), PostgresFault>
        ensures ok { OnOk result (ReadsOn self.old.at self.old.until self.old.ahead.items
            (W.contents self.old.questions) (W.contents self.new.questions)
            (R.remaining self.old.replies) (R.remaining self.new.replies) self.new.ahead.items) }
        ensures err { IfErr result (λ why. IsGrave why × (self.new.ahead.items ≡ self.old.ahead.items)) }
        ensures same { self.new ≡ record self.old {
          questions = self.new.questions;
          replies = self.new.replies;
          ahead = self.new.ahead;
        } }
    {
        if !self.ahead.is_empty() {
            return Ok(());
        }
        if self.at.number == self.until {
            return Ok(());
        }
        match ask_look(
            self.alloc,
            &self.at,
            self.until,
            &mut self.questions,
            &mut self.replies,
        ) {
            Err(why) => Err(why),
            Ok(piece) => {
                let (_last, rows) = piece.into_parts();
                if rows.is_empty() {
                    return Err(PostgresFault::NotUnderstood);
                }
                self.ahead = rows;
                Ok(())
            }
        }
    }

    /// Lets go of the log unless the session is over. A session that can't be told so is over then.
    pub(super) fn end_hold(&mut self)
        ensures says { spec.is_over self.old.fault ≡ false → (self.new.fault ≡ Some fault.SessionEnded)
            ⊎ ((self.new.fault ≡ self.old.fault) × Appends (W.contents self.old.questions)
            (W.contents self.new.questions) (text.letting_go self.old.at.log)) }
        ensures over { spec.is_over self.old.fault ≡ true → self.new ≡ self.old }
        ensures same { self.new ≡ record self.old { questions = self.new.questions; fault = self.new.fault } }
    {
        if self.why_over().is_some() {
            return;
        }
        match write_letting_go(self.at.log, &mut self.questions) {
            Ok(()) => {}
            Err(_) => self.fault = Some(PostgresFault::SessionEnded),
        }
    }

    /// Returns the start of the generation that is current now, which is a later one, and its first rows.
    pub(super) fn find_again(&mut self) -> Result<(Standing, Piece), PostgresFault>
        ensures ok { IfOk result (λ found. Rejoined (string_bytes self.old.name) self.old.at found.0
            (W.contents self.old.questions) (W.contents self.new.questions)
            (R.remaining self.old.replies) (R.remaining self.new.replies) found.1) }
        ensures same { self.new ≡ record self.old { questions = self.new.questions; replies = self.new.replies } }
    {
        let question = reopening(self.alloc, &self.name)?;
        let found = ask_opened(
            self.alloc,
            question.as_bytes(),
            &mut self.questions,
            &mut self.replies,
        )?;
        let Some(start) = found else {
            return Err(PostgresFault::NoLog);
        };
        if !is_later(&self.at, &start) {
            return Err(PostgresFault::AnotherHistory);
        }
        match ask_look(
            self.alloc,
            &start,
            END,
            &mut self.questions,
            &mut self.replies,
        ) {
            Ok(piece) => Ok((start, piece)),
            Err(why) => Err(why),
        }
    }
}
