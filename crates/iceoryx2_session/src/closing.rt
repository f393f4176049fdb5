//! The closing of what a session has open, whatever the pattern.

ghost use Rattle.iceoryx2_session.specs.Sessions.{ClosesFactoryBy, ClosesOrHandsBackBy};

use iceoryx2_access::storage::Storage;
use iceoryx2_rounds::port_factory::{CloseError, Registration};

/// Closes the registration. If it isn't at this storage, or this storage doesn't release it, it is
/// returned, and its ticket stays there.
pub fn close<S: Storage>(registration: Registration, storage: &mut S) -> Option<Registration>
    ensures { ClosesOrHandsBackBy S.step storage.old registration result storage.new }
{
    match registration.close(storage) {
        Ok(()) => None,
        Err(error) => match error {
            CloseError::NotHere(registration) => Some(registration),
            CloseError::TagNotRemoved => None,
            CloseError::SegmentNotRemoved => None,
            CloseError::DescriptionNotRemoved => None,
        },
    }
}

/// Closes the registration as `close` does, and lets go of it if it is returned. Then its ticket
/// stays there.
pub fn close_or_abandon<S: Storage>(registration: Registration, storage: &mut S)
    ensures { ClosesFactoryBy S.step storage.old registration storage.new }
{
    match close(registration, storage) {
        None => return,
        Some(registration) => return registration.abandon(),
    }
}
