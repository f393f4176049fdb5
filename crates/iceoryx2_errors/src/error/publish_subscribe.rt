//! Why calls of builders of publish-subscribe are refused.

ghost use Rattle.std.specs.Prelude.{◌≡◌, Some};
ghost use Rattle.iceoryx2_errors.specs.Reasons.{publish_subscribe_create_reason, publish_subscribe_open_reason, reason_name};
ghost use Rattle.iceoryx2_errors.specs.Texts.{text_of};
ghost use Rattle.iceoryx2_errors.specs.declared.refusal.Refusal.TheVariants as refusal;
ghost use Rattle.iceoryx2_errors.specs.States.{publish_subscribe_create_error_of_state, publish_subscribe_open_error_of_state};
ghost use Rattle.iceoryx2_errors.specs.declared.error.publish_subscribe.PublishSubscribeOpenOrCreateError.TheVariants as either;

use super::ServiceState;
use crate::refusal::Refusal;
use std::error::Error;
use std::fmt;

/// The faults that a look of a builder of publish-subscribe finds.
/// Hidden in iceoryx2.
#[derive(Debug, Clone, Copy, PartialEq, Eq, Hash)]
pub enum ServiceAvailabilityState {
    /// A fault that is possible with any pattern.
    ServiceState(ServiceState),
    /// The builder's message isn't compatible with the service's.
    IncompatibleTypes,
}

/// Why a service of publish-subscribe isn't opened.
#[derive(Debug, Clone, Copy, PartialEq, Eq, Hash)]
pub enum PublishSubscribeOpenError {
    /// There is no such service.
    DoesNotExist,
    /// The node can't be tagged, or there is no ticket left.
    InternalFailure,
    /// The builder's message isn't compatible with the service's.
    IncompatibleTypes,
    /// The service is of another pattern.
    IncompatibleMessagingPattern,
    /// The service lacks a required attribute.
    IncompatibleAttributes,
    /// The service's subscribers buffer fewer samples.
    DoesNotSupportRequestedMinBufferSize,
    /// The service's history is shorter.
    DoesNotSupportRequestedMinHistorySize,
    /// The service's subscribers may borrow fewer samples.
    DoesNotSupportRequestedMinSubscriberBorrowedSamples,
    /// The service has room for fewer publishers.
    DoesNotSupportRequestedAmountOfPublishers,
    /// The service has room for fewer subscribers.
    DoesNotSupportRequestedAmountOfSubscribers,
    /// The service has room for fewer nodes.
    DoesNotSupportRequestedAmountOfNodes,
    /// The service overflows safely although it is required not to, or the other way round.
    IncompatibleOverflowBehavior,
    /// The service may not be read.
    InsufficientPermissions,
    /// The storage is at fault, or the service's segment is missing, or the opening failed six
    /// times.
    ServiceInCorruptedState,
    /// Somebody is creating the service.
    HangsInCreation,
    /// As many nodes as the service has room for have opened it.
    ExceedsMaxNumberOfNodes,
    /// The last node has left, and the service is being removed.
    IsMarkedForDestruction,
    /// There was no memory.
    OutOfMemory,
}

impl PublishSubscribeOpenError {
    /// Returns the variant's name.
    pub fn name(&self) -> &'static str
        ensures { result.now ≡ reason_name (publish_subscribe_open_reason self.now) }
    {
        Refusal::PublishSubscribeOpen(*self).reason().name()
    }
}

impl fmt::Display for PublishSubscribeOpenError {
    ghost output = { λ error. Some (text_of (refusal.PublishSubscribeOpen error)) };

    fn fmt<W: fmt::Write>(&self, f: &mut fmt::Formatter<W>) -> fmt::Result {
        let name = self.name();
        write!(f, "PublishSubscribeOpenError::{name}")
    }
}

impl Error for PublishSubscribeOpenError {}

impl From<ServiceAvailabilityState> for PublishSubscribeOpenError {
    ghost from_gives = { λ state outcome. outcome ≡ publish_subscribe_open_error_of_state state };

    fn from(state: ServiceAvailabilityState) -> PublishSubscribeOpenError {
        match state {
            ServiceAvailabilityState::ServiceState(state) => error_of!(
                state,
                PublishSubscribeOpenError,
                IncompatibleMessagingPattern
            ),
            ServiceAvailabilityState::IncompatibleTypes =>
                PublishSubscribeOpenError::IncompatibleTypes,
        }
    }
}

/// Why a service of publish-subscribe isn't created.
#[derive(Debug, Clone, Copy, PartialEq, Eq, Hash)]
pub enum PublishSubscribeCreateError {
    /// The storage is at fault, or the node is registered at a service that isn't there, or an
    /// earlier segment can't be cleared away, or the description can't be published.
    ServiceInCorruptedState,
    /// Without safe overflow, subscribers would buffer fewer samples than the history has.
    SubscriberBufferMustBeLargerThanHistorySize,
    /// There is such a service, perhaps of another pattern or of types that are not compatible.
    AlreadyExists,
    /// The service may not be read, or not be made.
    InsufficientPermissions,
    /// The storage is at fault.
    InternalFailure,
    /// Somebody else is creating the service.
    IsBeingCreatedByAnotherInstance,
    /// Somebody had begun to create the service before the call looked.
    HangsInCreation,
    /// There was no memory.
    OutOfMemory,
}

impl PublishSubscribeCreateError {
    /// Returns the variant's name.
    pub fn name(&self) -> &'static str
        ensures { result.now ≡ reason_name (publish_subscribe_create_reason self.now) }
    {
        Refusal::PublishSubscribeCreate(*self).reason().name()
    }
}

impl fmt::Display for PublishSubscribeCreateError {
    ghost output = { λ error. Some (text_of (refusal.PublishSubscribeCreate error)) };

    fn fmt<W: fmt::Write>(&self, f: &mut fmt::Formatter<W>) -> fmt::Result {
        let name = self.name();
        write!(f, "PublishSubscribeCreateError::{name}")
    }
}

impl Error for PublishSubscribeCreateError {}

impl From<ServiceAvailabilityState> for PublishSubscribeCreateError {
    ghost from_gives = { λ state outcome. outcome ≡ publish_subscribe_create_error_of_state state };

    fn from(state: ServiceAvailabilityState) -> PublishSubscribeCreateError {
        match state {
            ServiceAvailabilityState::ServiceState(state) => error_of!(
                state,
                PublishSubscribeCreateError,
                AlreadyExists
            ),
            ServiceAvailabilityState::IncompatibleTypes =>
                PublishSubscribeCreateError::AlreadyExists,
        }
    }
}

/// Why a service of publish-subscribe is neither opened nor created.
#[derive(Debug, Clone, Copy, PartialEq, Eq, Hash)]
pub enum PublishSubscribeOpenOrCreateError {
    /// The round's own look met this fault, or the service was there and the open failed.
    PublishSubscribeOpenError(PublishSubscribeOpenError),
    /// The service wasn't there and the create failed.
    PublishSubscribeCreateError(PublishSubscribeCreateError),
    /// In each of six rounds the service came or went between the look and the open or create after
    /// it, or was in a state that may pass.
    SystemInFlux,
}

impl fmt::Display for PublishSubscribeOpenOrCreateError {
    ghost output = { λ error. Some (text_of (refusal.PublishSubscribeOpenOrCreate error)) };

    fn fmt<W: fmt::Write>(&self, f: &mut fmt::Formatter<W>) -> fmt::Result {
        match self {
            PublishSubscribeOpenOrCreateError::PublishSubscribeOpenError(error) => {
                let name = error.name();
                write!(
                    f,
                    "PublishSubscribeOpenOrCreateError::PublishSubscribeOpenError({name})"
                )
            }
            PublishSubscribeOpenOrCreateError::PublishSubscribeCreateError(error) => {
                let name = error.name();
                write!(
                    f,
                    "PublishSubscribeOpenOrCreateError::PublishSubscribeCreateError({name})"
                )
            }
            PublishSubscribeOpenOrCreateError::SystemInFlux => {
                write!(f, "PublishSubscribeOpenOrCreateError::SystemInFlux")
            }
        }
    }
}

impl Error for PublishSubscribeOpenOrCreateError {}

/// Turns a look's outcome into an error of the open.
impl From<ServiceAvailabilityState> for PublishSubscribeOpenOrCreateError {
    ghost from_gives = { λ state outcome.
        outcome ≡ either.PublishSubscribeOpenError (publish_subscribe_open_error_of_state state) };

    fn from(state: ServiceAvailabilityState) -> PublishSubscribeOpenOrCreateError {
        PublishSubscribeOpenOrCreateError::PublishSubscribeOpenError(
            PublishSubscribeOpenError::from(state),
        )
    }
}

impl From<PublishSubscribeOpenError> for PublishSubscribeOpenOrCreateError {
    ghost from_gives = { λ error outcome. outcome ≡ either.PublishSubscribeOpenError error };

    fn from(error: PublishSubscribeOpenError) -> PublishSubscribeOpenOrCreateError {
        PublishSubscribeOpenOrCreateError::PublishSubscribeOpenError(error)
    }
}

impl From<PublishSubscribeCreateError> for PublishSubscribeOpenOrCreateError {
    ghost from_gives = { λ error outcome. outcome ≡ either.PublishSubscribeCreateError error };

    fn from(error: PublishSubscribeCreateError) -> PublishSubscribeOpenOrCreateError {
        PublishSubscribeOpenOrCreateError::PublishSubscribeCreateError(error)
    }
}
