//! Why calls of builders of request-response are refused.

ghost use Rattle.std.specs.Prelude.{◌≡◌, Some};
ghost use Rattle.iceoryx2_errors.specs.Reasons.{request_response_create_reason, request_response_open_reason, reason_name};
ghost use Rattle.iceoryx2_errors.specs.Texts.{text_of};
ghost use Rattle.iceoryx2_errors.specs.declared.refusal.Refusal.TheVariants as refusal;
ghost use Rattle.iceoryx2_errors.specs.States.{request_response_create_error_of_state, request_response_open_error_of_state};
ghost use Rattle.iceoryx2_errors.specs.declared.error.request_response.RequestResponseOpenOrCreateError.TheVariants as either;

use super::ServiceState;
use crate::refusal::Refusal;
use std::error::Error;
use std::fmt;

/// The faults that a look of a builder of request-response finds.
/// Hidden in iceoryx2.
#[derive(Debug, Clone, Copy, PartialEq, Eq, Hash)]
pub enum ServiceAvailabilityState {
    /// A fault that is possible with any pattern.
    ServiceState(ServiceState),
    /// The builder's request isn't compatible with the service's.
    IncompatibleRequestType,
    /// The builder's request is compatible with the service's, and its response isn't.
    IncompatibleResponseType,
}

/// Why a service of request-response isn't opened.
#[derive(Debug, Clone, Copy, PartialEq, Eq, Hash)]
pub enum RequestResponseOpenError {
    /// There is no such service.
    DoesNotExist,
    /// The service's clients may loan fewer requests.
    DoesNotSupportRequestedAmountOfClientRequestLoans,
    /// The service's clients may have fewer active requests.
    DoesNotSupportRequestedAmountOfActiveRequestsPerClient,
    /// The service buffers fewer responses.
    DoesNotSupportRequestedResponseBufferSize,
    /// The service has room for fewer servers.
    DoesNotSupportRequestedAmountOfServers,
    /// The service has room for fewer clients.
    DoesNotSupportRequestedAmountOfClients,
    /// The service has room for fewer nodes.
    DoesNotSupportRequestedAmountOfNodes,
    /// The service's clients may borrow fewer responses to one request.
    DoesNotSupportRequestedAmountOfBorrowedResponsesPerPendingResponse,
    /// As many nodes as the service has room for have opened it.
    ExceedsMaxNumberOfNodes,
    /// Somebody is creating the service.
    HangsInCreation,
    /// The builder's request isn't compatible with the service's.
    IncompatibleRequestType,
    /// The builder's response isn't compatible with the service's.
    IncompatibleResponseType,
    /// The service lacks a required attribute.
    IncompatibleAttributes,
    /// The service is of another pattern.
    IncompatibleMessagingPattern,
    /// The service overflows safely with requests although it is required not to, or the other way
    /// round.
    IncompatibleOverflowBehaviorForRequests,
    /// The service overflows safely with responses although it is required not to, or the other way
    /// round.
    IncompatibleOverflowBehaviorForResponses,
    /// The service takes requests whose responses nobody awaits although it is required not to, or the
    /// other way round.
    IncompatibleBehaviorForFireAndForgetRequests,
    /// The service may not be read.
    InsufficientPermissions,
    /// The node can't be tagged, or there is no ticket left.
    InternalFailure,
    /// The last node has left, and the service is being removed.
    IsMarkedForDestruction,
    /// The storage is at fault, or the service's segment is missing, or the opening failed six
    /// times.
    ServiceInCorruptedState,
    /// There was no memory.
    OutOfMemory,
}

impl RequestResponseOpenError {
    /// Returns the variant's name.
    pub fn name(&self) -> &'static str
        ensures { result.now ≡ reason_name (request_response_open_reason self.now) }
    {
        Refusal::RequestResponseOpen(*self).reason().name()
    }
}

impl fmt::Display for RequestResponseOpenError {
    ghost output = { λ error. Some (text_of (refusal.RequestResponseOpen error)) };

    fn fmt<W: fmt::Write>(&self, f: &mut fmt::Formatter<W>) -> fmt::Result {
        let name = self.name();
        write!(f, "RequestResponseOpenError::{name}")
    }
}

impl Error for RequestResponseOpenError {}

impl From<ServiceAvailabilityState> for RequestResponseOpenError {
    ghost from_gives = { λ state outcome. outcome ≡ request_response_open_error_of_state state };

    fn from(state: ServiceAvailabilityState) -> RequestResponseOpenError {
        match state {
            ServiceAvailabilityState::ServiceState(state) => error_of!(
                state,
                RequestResponseOpenError,
                IncompatibleMessagingPattern
            ),
            ServiceAvailabilityState::IncompatibleRequestType =>
                RequestResponseOpenError::IncompatibleRequestType,
            ServiceAvailabilityState::IncompatibleResponseType =>
                RequestResponseOpenError::IncompatibleResponseType,
        }
    }
}

/// Why a service of request-response isn't created.
#[derive(Debug, Clone, Copy, PartialEq, Eq, Hash)]
pub enum RequestResponseCreateError {
    /// There is such a service, perhaps of another pattern or of types that are not compatible.
    AlreadyExists,
    /// The storage is at fault.
    InternalFailure,
    /// Somebody else is creating the service.
    IsBeingCreatedByAnotherInstance,
    /// The service may not be read, or not be made.
    InsufficientPermissions,
    /// Somebody had begun to create the service before the call looked.
    HangsInCreation,
    /// The storage is at fault, or the node is registered at a service that isn't there, or an
    /// earlier segment can't be cleared away, or the description can't be published.
    ServiceInCorruptedState,
    /// There was no memory.
    OutOfMemory,
}

impl RequestResponseCreateError {
    /// Returns the variant's name.
    pub fn name(&self) -> &'static str
        ensures { result.now ≡ reason_name (request_response_create_reason self.now) }
    {
        Refusal::RequestResponseCreate(*self).reason().name()
    }
}

impl fmt::Display for RequestResponseCreateError {
    ghost output = { λ error. Some (text_of (refusal.RequestResponseCreate error)) };

    fn fmt<W: fmt::Write>(&self, f: &mut fmt::Formatter<W>) -> fmt::Result {
        let name = self.name();
        write!(f, "RequestResponseCreateError::{name}")
    }
}

impl Error for RequestResponseCreateError {}

impl From<ServiceAvailabilityState> for RequestResponseCreateError {
    ghost from_gives = { λ state outcome. outcome ≡ request_response_create_error_of_state state };

    fn from(state: ServiceAvailabilityState) -> RequestResponseCreateError {
        match state {
            ServiceAvailabilityState::ServiceState(state) => error_of!(
                state,
                RequestResponseCreateError,
                AlreadyExists
            ),
            ServiceAvailabilityState::IncompatibleRequestType =>
                RequestResponseCreateError::AlreadyExists,
            ServiceAvailabilityState::IncompatibleResponseType =>
                RequestResponseCreateError::AlreadyExists,
        }
    }
}

/// Why a service of request-response is neither opened nor created.
#[derive(Debug, Clone, Copy, PartialEq, Eq)]
pub enum RequestResponseOpenOrCreateError {
    /// The round's own look met this fault, or the service was there and the open failed.
    RequestResponseOpenError(RequestResponseOpenError),
    /// The service wasn't there and the create failed.
    RequestResponseCreateError(RequestResponseCreateError),
    /// In each of six rounds the service came or went between the look and the open or create after
    /// it, or was in a state that may pass.
    SystemInFlux,
}

impl fmt::Display for RequestResponseOpenOrCreateError {
    ghost output = { λ error. Some (text_of (refusal.RequestResponseOpenOrCreate error)) };

    fn fmt<W: fmt::Write>(&self, f: &mut fmt::Formatter<W>) -> fmt::Result {
        match self {
            RequestResponseOpenOrCreateError::RequestResponseOpenError(error) => {
                let name = error.name();
                write!(
                    f,
                    "RequestResponseOpenOrCreateError::RequestResponseOpenError({name})"
                )
            }
            RequestResponseOpenOrCreateError::RequestResponseCreateError(error) => {
                let name = error.name();
                write!(
                    f,
                    "RequestResponseOpenOrCreateError::RequestResponseCreateError({name})"
                )
            }
            RequestResponseOpenOrCreateError::SystemInFlux => {
                write!(f, "RequestResponseOpenOrCreateError::SystemInFlux")
            }
        }
    }
}

impl Error for RequestResponseOpenOrCreateError {}

/// Turns a look's outcome into an error of the open.
impl From<ServiceAvailabilityState> for RequestResponseOpenOrCreateError {
    ghost from_gives = { λ state outcome.
        outcome ≡ either.RequestResponseOpenError (request_response_open_error_of_state state) };

    fn from(state: ServiceAvailabilityState) -> RequestResponseOpenOrCreateError {
        RequestResponseOpenOrCreateError::RequestResponseOpenError(RequestResponseOpenError::from(
            state,
        ))
    }
}

impl From<RequestResponseOpenError> for RequestResponseOpenOrCreateError {
    ghost from_gives = { λ error outcome. outcome ≡ either.RequestResponseOpenError error };

    fn from(error: RequestResponseOpenError) -> RequestResponseOpenOrCreateError {
        RequestResponseOpenOrCreateError::RequestResponseOpenError(error)
    }
}

impl From<RequestResponseCreateError> for RequestResponseOpenOrCreateError {
    ghost from_gives = { λ error outcome. outcome ≡ either.RequestResponseCreateError error };

    fn from(error: RequestResponseCreateError) -> RequestResponseOpenOrCreateError {
        RequestResponseOpenOrCreateError::RequestResponseCreateError(error)
    }
}
