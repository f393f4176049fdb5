//! A log that a call of several accesses holds from its first access to its last.

ghost use Rattle.std.specs.Prelude.{◌≡◌, Bool, false, true, IfOk, OnErr, OnOk, if◌then◌else◌};
ghost use Rattle.iceoryx2_log.specs.CallLog.{IsSpanned, SpansOn, after_pause, begun_in, has_call};
ghost use Rattle.iceoryx2_log.specs.declared.call_log.Span.TheVariants as span;
ghost use Rattle.iceoryx2_log.specs.Log.{Accepts, Appends, Compacts, Grows, Rejoins, Shows, WhereKnown, is_shown};

use crate::entry::Entry;
use crate::log::{Log, LogError};

/// A log that can be held over all accesses of a call. Other handles wait meanwhile, so a call finds the
/// log busy before its first access or not at all.
pub trait SpansCalls: Log {
    /// True if a call has begun for which the log may be held.
    ghost in_call: { Self → Bool };

    /// Begins a call. The first hold of the call takes the log. The log then stays held until `end_call`,
    /// except for pauses. If that first hold is refused, all other holds of the call are refused.
    fn begin_call(&mut self)
        ensures same { Self.contents self.new ≡ Self.contents self.old }
        ensures held { Self.held self.new ≡ Self.held self.old };

    /// Ends the call, and lets go of the log.
    fn end_call(&mut self)
        ensures same { Self.contents self.new ≡ Self.contents self.old }
        ensures free { Self.held self.new ≡ false }
        ensures ended { in_call self.new ≡ false };
}

/// How the accesses of a call find a log.
#[derive(Clone, Copy, Debug, PartialEq, Eq)]
pub enum Span {
    /// There is no call: each access holds the log by itself.
    None,
    /// No access of the call has asked for the log yet.
    Begun,
    /// The log is held for the call.
    Held,
    /// A pause has let go of the log. The next hold takes it again.
    Paused,
    /// The first access of the call could not hold the log, for this reason. No other access of the call
    /// can hold it.
    Refused(LogError),
}

/// A log with the call that has begun. Each access asks it to hold and to let go, as it asks any log.
/// Within a call the log inside is held only once.
#[derive(Drop)]
pub struct CallLog<L> {
    log: L,
    span: Span,
    is_held: bool,
}

impl<L> CallLog<L> {
    /// Returns a log that isn't held. No call of it has begun.
    pub fn new(log: L) -> CallLog<L>
        ensures { result ≡ record { log = log; span = span.None; is_held = false } }
    {
        CallLog {
            log,
            span: Span::None,
            is_held: false,
        }
    }

    /// Returns the log inside.
    pub fn log(&self) -> &L
        ensures { result.now ≡ self.now.log }
    {
        &self.log
    }
}

impl<L: Log> CallLog<L> {
    // Holds the log inside, unless it is held for the call, or was refused to it.
    fn take(&mut self) -> Result<(), LogError>
        ensures span { SpansOn self.old.span result self.new.span }
        ensures grows { OnOk result (WhereKnown Grows (L.contents self.old.log) (L.contents self.new.log)) }
        ensures same { OnErr result (L.contents self.new.log ≡ L.contents self.old.log) }
        ensures held { self.new.is_held ≡ self.old.is_held }
        ensures keeps { IsSpanned L.held self.old → IsSpanned L.held self.new }
    {
        match self.span {
            Span::None => self.log.hold(),
            Span::Held => Ok(()),
            Span::Refused(why) => Err(why),
            Span::Begun => match self.log.hold() {
                Ok(()) => {
                    self.span = Span::Held;
                    Ok(())
                }
                Err(why) => {
                    self.span = Span::Refused(why);
                    Err(why)
                }
            },
            Span::Paused => {
                self.log.hold()?;
                self.span = Span::Held;
                Ok(())
            }
        }
    }
}

impl<L: Log> Log for CallLog<L> {
    ghost contents = { λ s. L.contents s.log };

    ghost held = { λ s. s.is_held };

    ghost shown = { λ s. L.shown s.log };

    /// Within a call that has the log, a hold is always granted. `Failed` if an access holds the log
    /// already.
    fn hold(&mut self) -> Result<(), LogError>
        ensures ok { OnOk result (WhereKnown Grows (L.contents self.old.log) (L.contents self.new.log)) }
        ensures err { OnErr result (L.contents self.new.log ≡ L.contents self.old.log) }
        ensures was_free { OnOk result (self.old.is_held ≡ false) }
        ensures held { OnOk result (self.new.is_held ≡ true) }
        ensures held_err { OnErr result (self.new.is_held ≡ self.old.is_held) }
        ensures span { self.old.is_held ≡ false → SpansOn self.old.span result self.new.span }
        ensures keeps { IsSpanned L.held self.old → IsSpanned L.held self.new }
    {
        if self.is_held {
            return Err(LogError::Failed);
        }
        self.take()?;
        self.is_held = true;
        Ok(())
    }

    /// Within a call that has the log, nothing is left to measure. If the call was refused the log, the
    /// look is refused too. `Failed` if an access holds the log.
    fn look(&mut self) -> Result<(), LogError>
        ensures ok { OnOk result (WhereKnown Grows (L.contents self.old.log) (L.contents self.new.log)) }
        ensures err { OnErr result (L.contents self.new.log ≡ L.contents self.old.log) }
        ensures was_free { OnOk result (self.old.is_held ≡ false) }
        ensures same { self.new ≡ record self.old { log = self.new.log } }
        ensures keeps { IsSpanned L.held self.old → IsSpanned L.held self.new }
    {
        if self.is_held {
            return Err(LogError::Failed);
        }
        match self.span {
            Span::Held => Ok(()),
            Span::Refused(error) => Err(error),
            _ => self.log.look(),
        }
    }

    fn next(&mut self) -> Result<Option<Entry>, LogError>
        ensures shows { IfOk result
            (λ found. WhereKnown (Shows found) (L.contents self.old.log) (L.contents self.new.log)) }
        ensures contents { L.contents self.new.log ≡ L.contents self.old.log }
        ensures shown { L.shown self.new.log ≡ is_shown result }
        ensures same { self.new ≡ record self.old { log = self.new.log } }
        ensures keeps { IsSpanned L.held self.old → IsSpanned L.held self.new }
    {
        self.log.next()
    }

    fn accept(&mut self)
        ensures shown { L.shown self.old.log ≡ true
            → WhereKnown Accepts (L.contents self.old.log) (L.contents self.new.log) }
        ensures none { L.shown self.old.log ≡ false → L.contents self.new.log ≡ L.contents self.old.log }
        ensures once { L.shown self.new.log ≡ false }
        ensures same { self.new ≡ record self.old { log = self.new.log } }
        ensures keeps { IsSpanned L.held self.old → IsSpanned L.held self.new }
    {
        self.log.accept()
    }

    /// `Failed` if no access holds the log, even within a call that has the log.
    fn append(&mut self, entry: &Entry) -> Result<(), LogError>
        ensures ok { OnOk result (WhereKnown (Appends entry.now) (L.contents self.old.log) (L.contents self.new.log)) }
        ensures err { OnErr result (L.contents self.new.log ≡ L.contents self.old.log) }
        ensures was_held { OnOk result (self.old.is_held ≡ true) }
        ensures same { self.new ≡ record self.old { log = self.new.log } }
        ensures keeps { IsSpanned L.held self.old → IsSpanned L.held self.new }
    {
        if !self.is_held {
            return Err(LogError::Failed);
        }
        self.log.append(entry)
    }

    /// Within a call the log inside stays held.
    fn let_go(&mut self)
        ensures contents { L.contents self.new.log ≡ L.contents self.old.log }
        ensures same { self.new ≡ record self.old { log = self.new.log; is_held = false } }
        ensures keeps { IsSpanned L.held self.old → IsSpanned L.held self.new }
    {
        if self.span != Span::Held {
            self.log.let_go();
        }
        self.is_held = false;
    }

    /// Lets go of the log inside, even within a call.
    fn pause(&mut self, number: u64) -> bool
        ensures contents { L.contents self.new.log ≡ L.contents self.old.log }
        ensures held { self.new.is_held ≡ (if result then false else self.old.is_held) }
        ensures span { self.new.span ≡ after_pause result self.old.span }
        ensures keeps { IsSpanned L.held self.old → IsSpanned L.held self.new }
    {
        if !self.log.pause(number) {
            return false;
        }
        if self.span == Span::Held {
            self.span = Span::Paused;
        }
        self.is_held = false;
        true
    }

    fn rejoin(&mut self) -> Result<u64, LogError>
        ensures ok { IfOk result
            (λ counter. WhereKnown (Rejoins counter) (L.contents self.old.log) (L.contents self.new.log)) }
        ensures err { OnErr result (L.contents self.new.log ≡ L.contents self.old.log) }
        ensures same { self.new ≡ record self.old { log = self.new.log } }
        ensures keeps { IsSpanned L.held self.old → IsSpanned L.held self.new }
    {
        self.log.rejoin()
    }

    fn is_in_snapshot(&self) -> bool {
        self.log.is_in_snapshot()
    }

    fn is_long(&self) -> bool {
        self.log.is_long()
    }

    fn compact(&mut self, snapshot: &[Entry]) -> Result<(), LogError>
        ensures ok { OnOk result
            (WhereKnown (Compacts snapshot.now) (L.contents self.old.log) (L.contents self.new.log)) }
        ensures err { OnErr result (L.contents self.new.log ≡ L.contents self.old.log) }
        ensures same { self.new ≡ record self.old { log = self.new.log } }
        ensures keeps { IsSpanned L.held self.old → IsSpanned L.held self.new }
    {
        self.log.compact(snapshot)
    }

    fn put_off_compaction(&mut self)
        ensures contents { L.contents self.new.log ≡ L.contents self.old.log }
        ensures same { self.new ≡ record self.old { log = self.new.log } }
        ensures keeps { IsSpanned L.held self.old → IsSpanned L.held self.new }
    {
        self.log.put_off_compaction()
    }
}

impl<L: Log> SpansCalls for CallLog<L> {
    ghost in_call = { λ l. has_call l.span };

    /// Asks nothing of the log inside yet.
    fn begin_call(&mut self)
        ensures begun { self.new ≡ record self.old { span = begun_in self.old.span } }
        ensures keeps { IsSpanned L.held self.old → IsSpanned L.held self.new }
    {
        if self.span == Span::None {
            self.span = Span::Begun;
        }
    }

    fn end_call(&mut self)
        ensures contents { L.contents self.new.log ≡ L.contents self.old.log }
        ensures same { self.new ≡ record self.old { log = self.new.log; span = span.None; is_held = false } }
        ensures keeps { IsSpanned L.held self.old → IsSpanned L.held self.new }
    {
        if self.span == Span::Held {
            self.log.let_go();
        }
        self.span = Span::None;
        self.is_held = false;
    }
}
