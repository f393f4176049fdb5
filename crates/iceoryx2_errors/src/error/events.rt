//! Why calls of builders of events are refused.

ghost use Rattle.std.specs.Prelude.{◌≡◌, Some};
ghost use Rattle.iceoryx2_errors.specs.Reasons.{event_create_reason, event_open_reason, reason_name};
ghost use Rattle.iceoryx2_errors.specs.Texts.{text_of};
ghost use Rattle.iceoryx2_errors.specs.declared.refusal.Refusal.TheVariants as refusal;
ghost use Rattle.iceoryx2_errors.specs.States.{event_create_error_of_state, event_open_error_of_state};
ghost use Rattle.iceoryx2_errors.specs.declared.error.events.EventOpenOrCreateError.TheVariants as either;

use super::ServiceState;
use crate::refusal::Refusal;
use std::error::Error;
use std::fmt;

/// Why a service of events isn't opened.
#[derive(Debug, Clone, Copy, PartialEq, Eq, Hash)]
pub enum EventOpenError {
    /// There is no such service.
    DoesNotExist,
    /// The service may not be read.
    InsufficientPermissions,
    /// The storage is at fault, or the service's segment is missing, or the opening failed six
    /// times.
    ServiceInCorruptedState,
    /// The service is of another pattern.
    IncompatibleMessagingPattern,
    /// The service lacks a required attribute.
    IncompatibleAttributes,
    /// The node can't be tagged, or there is no ticket left.
    InternalFailure,
    /// The service has another deadline, or none where one is required.
    IncompatibleDeadline,
    /// Another event is sent when a notifier is created.
    IncompatibleNotifierCreatedEvent,
    /// Another event is sent when a notifier goes.
    IncompatibleNotifierDroppedEvent,
    /// Another event is sent for a notifier whose process died.
    IncompatibleNotifierDeadEvent,
    /// Somebody is creating the service.
    HangsInCreation,
    /// The service has room for fewer notifiers.
    DoesNotSupportRequestedAmountOfNotifiers,
    /// The service has room for fewer listeners.
    DoesNotSupportRequestedAmountOfListeners,
    /// The service's greatest event number is smaller.
    DoesNotSupportRequestedMaxEventId,
    /// The service has room for fewer nodes.
    DoesNotSupportRequestedAmountOfNodes,
    /// As many nodes as the service has room for have opened it.
    ExceedsMaxNumberOfNodes,
    /// The last node has left, and the service is being removed.
    IsMarkedForDestruction,
    /// There was no memory.
    OutOfMemory,
}

impl EventOpenError {
    /// Returns the variant's name.
    pub fn name(&self) -> &'static str
        ensures { result.now ≡ reason_name (event_open_reason self.now) }
    {
        Refusal::EventOpen(*self).reason().name()
    }
}

impl fmt::Display for EventOpenError {
    ghost output = { λ error. Some (text_of (refusal.EventOpen error)) };

    fn fmt<W: fmt::Write>(&self, f: &mut fmt::Formatter<W>) -> fmt::Result {
        let name = self.name();
        write!(f, "EventOpenError::{name}")
    }
}

impl Error for EventOpenError {}

impl From<ServiceState> for EventOpenError {
    ghost from_gives = { λ state outcome. outcome ≡ event_open_error_of_state state };

    fn from(state: ServiceState) -> EventOpenError {
        error_of!(state, EventOpenError, IncompatibleMessagingPattern)
    }
}

/// Why a service of events isn't created.
#[derive(Debug, Clone, Copy, PartialEq, Eq, Hash)]
pub enum EventCreateError {
    /// The storage is at fault, or the node is registered at a service that isn't there, or an
    /// earlier segment can't be cleared away, or the description can't be published.
    ServiceInCorruptedState,
    /// The storage is at fault, or the time can't be read.
    InternalFailure,
    /// Somebody else is creating the service.
    IsBeingCreatedByAnotherInstance,
    /// There is such a service, perhaps of another pattern.
    AlreadyExists,
    /// Somebody had begun to create the service before the call looked.
    HangsInCreation,
    /// The service may not be read, or not be made.
    InsufficientPermissions,
    /// There was no memory.
    OutOfMemory,
}

impl EventCreateError {
    /// Returns the variant's name.
    pub fn name(&self) -> &'static str
        ensures { result.now ≡ reason_name (event_create_reason self.now) }
    {
        Refusal::EventCreate(*self).reason().name()
    }
}

impl fmt::Display for EventCreateError {
    ghost output = { λ error. Some (text_of (refusal.EventCreate error)) };

    fn fmt<W: fmt::Write>(&self, f: &mut fmt::Formatter<W>) -> fmt::Result {
        let name = self.name();
        write!(f, "EventCreateError::{name}")
    }
}

impl Error for EventCreateError {}

impl From<ServiceState> for EventCreateError {
    ghost from_gives = { λ state outcome. outcome ≡ event_create_error_of_state state };

    fn from(state: ServiceState) -> EventCreateError {
        error_of!(state, EventCreateError, AlreadyExists)
    }
}

/// Why a service of events is neither opened nor created.
#[derive(Debug, Clone, Copy, PartialEq, Eq)]
pub enum EventOpenOrCreateError {
    /// The round's own look met this fault, or the service was there and the open failed.
    EventOpenError(EventOpenError),
    /// The service wasn't there and the create failed.
    EventCreateError(EventCreateError),
    /// In each of six rounds the service came or went between the look and the open or create after
    /// it, or was in a state that may pass.
    SystemInFlux,
}

impl fmt::Display for EventOpenOrCreateError {
    ghost output = { λ error. Some (text_of (refusal.EventOpenOrCreate error)) };

    fn fmt<W: fmt::Write>(&self, f: &mut fmt::Formatter<W>) -> fmt::Result {
        match self {
            EventOpenOrCreateError::EventOpenError(error) => {
                let name = error.name();
                write!(f, "EventOpenOrCreateError::EventOpenError({name})")
            }
            EventOpenOrCreateError::EventCreateError(error) => {
                let name = error.name();
                write!(f, "EventOpenOrCreateError::EventCreateError({name})")
            }
            EventOpenOrCreateError::SystemInFlux => {
                write!(f, "EventOpenOrCreateError::SystemInFlux")
            }
        }
    }
}

impl Error for EventOpenOrCreateError {}

/// Turns a look's outcome into an error of the open.
impl From<ServiceState> for EventOpenOrCreateError {
    ghost from_gives = { λ state outcome.
        outcome ≡ either.EventOpenError (event_open_error_of_state state) };

    fn from(state: ServiceState) -> EventOpenOrCreateError {
        EventOpenOrCreateError::EventOpenError(EventOpenError::from(state))
    }
}

impl From<EventOpenError> for EventOpenOrCreateError {
    ghost from_gives = { λ error outcome. outcome ≡ either.EventOpenError error };

    fn from(error: EventOpenError) -> EventOpenOrCreateError {
        EventOpenOrCreateError::EventOpenError(error)
    }
}

impl From<EventCreateError> for EventOpenOrCreateError {
    ghost from_gives = { λ error outcome. outcome ≡ either.EventCreateError error };

    fn from(error: EventCreateError) -> EventOpenOrCreateError {
        EventOpenOrCreateError::EventCreateError(error)
    }
}
