//! Going on over a log with another handle, after the handle before it is over.

ghost use Rattle.std.specs.Prelude.{◌≡◌, false, IfSome, IsTrue, Some};
ghost use Rattle.iceoryx2_world.specs.Agreement.{KeepsAgreement};
ghost use Rattle.iceoryx2_world.specs.Standing.{ticket_for};
ghost use Rattle.iceoryx2_world.specs.World.{ticket_of};

use crate::world_storage::WorldStorage;
use iceoryx2_journal::journal::Journal;
use iceoryx2_log::call_log::{CallLog, SpansCalls};
use iceoryx2_log::log::Log;
use iceoryx2_rounds::port_factory::Registration;
use iceoryx2_testing::traced::Traced;

/// A log that may go on with another handle.
pub trait Renewing: Log {
    /// Returns another handle of the log, at the same place as this one. `None` if there can be
    /// none.
    fn renewed(&self) -> Option<Self>
    where
        Self: Sized,
        ensures same { IfSome result (λ log. Self.contents log ≡ Self.contents self.now) }
        ensures free { IfSome result (λ log. Self.held log ≡ false) };
}

// No call has begun of it.
impl<L: Renewing> Renewing for CallLog<L> {
    fn renewed(&self) -> Option<CallLog<L>> {
        match self.log().renewed() {
            Some(log) => Some(CallLog::new(log)),
            None => None,
        }
    }
}

/// A storage that may go on after its log was gone.
pub trait Resuming: WorldStorage {
    /// Goes on from its place, and shows all that was done since, by anyone: others may have
    /// cleaned up for its own nodes, and its own last change may be there. The caller has to know
    /// that nobody else has these nodes. Returns true if it shows all. Makes no access.
    fn resume(&mut self) -> bool
        ensures kept { KeepsAgreement (Self.world self.old) (Self.world self.new) }
        ensures same { Self.own self.new ≡ Self.own self.old }
        ensures after { Self.settles self.old self.new };

    /// Returns true if the registration's ticket is there.
    fn has_ticket(&self, registration: &Registration) -> bool
        ensures { IsTrue result → ticket_of (Self.world self.now) registration.now.ticket
            ≡ Some (ticket_for registration.now) };
}

// A journal takes over what was appended since, in whoever's name.
impl<L: Renewing + SpansCalls + Drop> Resuming for Journal<L> {
    fn resume(&mut self) -> bool {
        match self.log().renewed() {
            Some(log) => Journal::resume(self, log),
            None => false,
        }
    }

    fn has_ticket(&self, registration: &Registration) -> bool {
        match self.world().ticket(registration.ticket()) {
            Some(ticket) => {
                ticket.node == registration.node()
                    && ticket.hash == *registration.description().service_hash()
                    && ticket.number == registration.number()
            }
            None => false,
        }
    }
}

impl<S: Resuming> Resuming for Traced<S> {
    fn resume(&mut self) -> bool {
        self.inner_mut().resume()
    }

    fn has_ticket(&self, registration: &Registration) -> bool {
        self.inner().has_ticket(registration)
    }
}
