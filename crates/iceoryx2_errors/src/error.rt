//! Why calls are refused, and the texts of the errors.

ghost use Rattle.std.specs.Prelude.{◌≡◌, ◌++◌, codes, Some};
ghost use Rattle.iceoryx2_errors.specs.Equality.{IsEquality};
ghost use Rattle.iceoryx2_errors.specs.Texts.{close_error_name, text_of};
ghost use Rattle.iceoryx2_errors.specs.declared.refusal.Refusal.{Refusal};

use std::error::Error;
use std::fmt;

/// The error of a call whose look finds a state. The last argument is the error for a service of
/// another pattern.
macro_rules! error_of {
    ($state:expr, $error:ident, $of_other_pattern:ident) => {
        match $state {
            ServiceState::IncompatibleMessagingPattern => $error::$of_other_pattern,
            ServiceState::InsufficientPermissions => $error::InsufficientPermissions,
            ServiceState::HangsInCreation => $error::HangsInCreation,
            ServiceState::Corrupted => $error::ServiceInCorruptedState,
            ServiceState::OutOfMemory => $error::OutOfMemory,
        }
    };
}

mod events;
pub mod publish_subscribe;
pub mod request_response;

pub use events::{EventCreateError, EventOpenError, EventOpenOrCreateError};
pub use publish_subscribe::{
    PublishSubscribeCreateError, PublishSubscribeOpenError, PublishSubscribeOpenOrCreateError,
};
pub use request_response::{
    RequestResponseCreateError, RequestResponseOpenError, RequestResponseOpenOrCreateError,
};

/// States that an error is known by its text: no two of the 163 values of the nine enums have the same
/// text.
pub fn texts_of_errors_differ()
    ensures { (one other : Refusal) → text_of one ≡ text_of other → one ≡ other }
{}

/// States that two errors of one enum, or two states of a look, are equal by `==` exactly if they are
/// the same variant, with the same value inside.
pub fn equality_of_errors()
    ensures event_open { IsEquality ⟦<EventOpenError as PartialEq>⟧.eq }
    ensures event_create { IsEquality ⟦<EventCreateError as PartialEq>⟧.eq }
    ensures event_open_or_create { IsEquality ⟦<EventOpenOrCreateError as PartialEq>⟧.eq }
    ensures publish_subscribe_open { IsEquality ⟦<PublishSubscribeOpenError as PartialEq>⟧.eq }
    ensures publish_subscribe_create { IsEquality ⟦<PublishSubscribeCreateError as PartialEq>⟧.eq }
    ensures publish_subscribe_open_or_create { IsEquality ⟦<PublishSubscribeOpenOrCreateError as PartialEq>⟧.eq }
    ensures request_response_open { IsEquality ⟦<RequestResponseOpenError as PartialEq>⟧.eq }
    ensures request_response_create { IsEquality ⟦<RequestResponseCreateError as PartialEq>⟧.eq }
    ensures request_response_open_or_create { IsEquality ⟦<RequestResponseOpenOrCreateError as PartialEq>⟧.eq }
    ensures state { IsEquality ⟦<ServiceState as PartialEq>⟧.eq }
    ensures publish_subscribe_state { IsEquality ⟦<publish_subscribe::ServiceAvailabilityState as PartialEq>⟧.eq }
    ensures request_response_state { IsEquality ⟦<request_response::ServiceAvailabilityState as PartialEq>⟧.eq }
{}

/// The faults that a look finds, whatever the pattern.
/// Hidden in iceoryx2.
#[derive(Debug, Clone, Copy, PartialEq, Eq, Hash)]
pub enum ServiceState {
    /// The service is of another pattern.
    IncompatibleMessagingPattern,
    /// The description can't be read.
    InsufficientPermissions,
    /// Somebody is creating the service.
    HangsInCreation,
    /// The storage is at fault, or the description is not one of this service.
    Corrupted,
    /// There was no memory for the description.
    OutOfMemory,
}

/// Why something isn't closed, or not wholly.
#[derive(Drop)]
pub enum CloseError<F> {
    /// The ticket isn't at this storage. Nothing changed, and the value inside is the one that was to
    /// be closed.
    NotHere(F),
    /// The node's tag remains.
    TagNotRemoved,
    /// The service's segment remains.
    SegmentNotRemoved,
    /// The service's description remains: the service may stay unusable.
    DescriptionNotRemoved,
}

impl<F> CloseError<F> {
    /// Returns the variant's name.
    pub fn name(&self) -> &'static str
        ensures { result.now ≡ close_error_name self.now }
    {
        match self {
            CloseError::NotHere(_) => "NotHere",
            CloseError::TagNotRemoved => "TagNotRemoved",
            CloseError::SegmentNotRemoved => "SegmentNotRemoved",
            CloseError::DescriptionNotRemoved => "DescriptionNotRemoved",
        }
    }
}

impl<F> fmt::Display for CloseError<F> {
    ghost output = { λ error. Some (codes "CloseError::" ++ close_error_name error) };

    fn fmt<W: fmt::Write>(&self, f: &mut fmt::Formatter<W>) -> fmt::Result {
        let name = self.name();
        write!(f, "CloseError::{name}")
    }
}

/// Writes the error's text, whatever value the error hands back.
impl<F> fmt::Debug for CloseError<F> {
    ghost debug_output = { λ error. Some (codes "CloseError::" ++ close_error_name error) };

    fn fmt<W: fmt::Write>(&self, f: &mut fmt::Formatter<W>) -> fmt::Result {
        let name = self.name();
        write!(f, "CloseError::{name}")
    }
}

impl<F: Drop> Error for CloseError<F> {}
