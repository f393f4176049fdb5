//! A handle that goes on in a new session of the database.

ghost use Rattle.std.specs.Prelude.{◌≡◌, [], None, false, IfOk, string_bytes};
ghost use Rattle.iceoryx2_postgres_log.specs.declared.postgres_log.Mode.TheVariants as way;
ghost use Rattle.iceoryx2_postgres_log.specs.Handle.{StandsAgain};
ghost use Rattle.iceoryx2_postgres_log.specs.Patience.{lock_wait};

use crate::fault::PostgresFault;
use crate::hearing::ask_opened;
use crate::patience::lock_wait;
use crate::postgres_log::{Mode, PostgresLog};
use crate::question::opening;
use crate::standing::is_still;
use std::collections::VecDeque;
use std::io::{BufRead, Write};

impl<R: BufRead, W: Write> PostgresLog<R, W> {
    /// Returns a handle of the same log in a new session, behind the entry where this handle stands. It
    /// is for a handle that is over. Nothing is held, and nothing of the log is read. The first hold or
    /// look finds out by the place and its sum whether the log is the one that was read, and else ends
    /// with `AnotherHistory`. `AnotherHistory` also comes if another log has its name by now, or if the
    /// current generation is an earlier one. `NoLog` if no log has its name.
    pub fn again(
        &self,
        mut questions: W,
        mut replies: R,
    ) -> Result<PostgresLog<R, W>, PostgresFault>
    where
        R: Drop,
        W: Drop,
        ensures opens { IfOk result (λ log. StandsAgain (string_bytes self.now.name)
            (lock_wait self.now.patience_millis) self.now.at (W.contents questions) (W.contents log.questions)
            (R.remaining replies) (R.remaining log.replies)) }
        ensures stands { IfOk result (λ log. (log.at ≡ self.now.at) × (log.tries_from ≡ self.now.tries_from)
            × (log.patience_millis ≡ self.now.patience_millis)
            × (string_bytes log.name ≡ string_bytes self.now.name)) }
        ensures free { IfOk result (λ log. (log.mode ≡ way.Free) × (log.ahead.items ≡ []) × (log.is_shown ≡ false)
            × (log.fault ≡ None)) }
    {
        let name = self.name.clone()?;
        let place = self.at.copy(self.alloc)?;
        let question = opening(self.alloc, &name, false, lock_wait(self.patience_millis))?;
        match ask_opened(
            self.alloc,
            question.as_bytes(),
            &mut questions,
            &mut replies,
        ) {
            Err(why) => Err(why),
            Ok(None) => Err(PostgresFault::NoLog),
            Ok(Some(start)) => {
                if !is_still(&self.at, &start) {
                    return Err(PostgresFault::AnotherHistory);
                }
                Ok(PostgresLog {
                    alloc: self.alloc,
                    questions,
                    replies,
                    name,
                    patience_millis: self.patience_millis,
                    at: place,
                    mode: Mode::Free,
                    until: 0,
                    ahead: VecDeque::new(self.alloc),
                    is_shown: false,
                    fault: None,
                    tries_from: self.tries_from,
                })
            }
        }
    }
}
