//! The refusal of a builder's call, whichever call it was, and its reason.

ghost use Rattle.std.specs.Prelude.{◌≡◌, Some};
ghost use Rattle.std.specs.List.{find};
ghost use Rattle.iceoryx2_errors.specs.Numbers.{has_number, number_of, numbered};
ghost use Rattle.iceoryx2_errors.specs.Reasons.{is_retried, may_be_a_dead_node, reason_name, reason_of};
ghost use Rattle.iceoryx2_errors.specs.Reasons.{event_create_reason, event_open_reason};
ghost use Rattle.iceoryx2_errors.specs.Reasons.{publish_subscribe_create_reason, publish_subscribe_open_reason};
ghost use Rattle.iceoryx2_errors.specs.Reasons.{request_response_create_reason, request_response_open_reason};
ghost use Rattle.iceoryx2_errors.specs.Texts.{text_of};
ghost use Rattle.iceoryx2_errors.specs.declared.refusal.Refusal.{Refusal as AnyRefusal};

use crate::error::{
    EventCreateError, EventOpenError, EventOpenOrCreateError, PublishSubscribeCreateError,
    PublishSubscribeOpenError, PublishSubscribeOpenOrCreateError, RequestResponseCreateError,
    RequestResponseOpenError, RequestResponseOpenOrCreateError,
};
use std::error::Error;
use std::fmt;

/// The variant's own name.
macro_rules! name_of {
    ($reason:expr; $($variant:ident)*) => {
        match $reason {
            $(Reason::$variant => stringify!($variant),)*
        }
    };
}

/// Why a call is refused: one reason for each name that the errors' variants have. The variants of this
/// name tell its meaning for an open or a create.
#[derive(Debug, Clone, Copy, PartialEq, Eq, Hash)]
pub enum Reason {
    DoesNotExist,
    InsufficientPermissions,
    ServiceInCorruptedState,
    IncompatibleMessagingPattern,
    IncompatibleAttributes,
    InternalFailure,
    IncompatibleDeadline,
    IncompatibleNotifierCreatedEvent,
    IncompatibleNotifierDroppedEvent,
    IncompatibleNotifierDeadEvent,
    HangsInCreation,
    DoesNotSupportRequestedAmountOfNotifiers,
    DoesNotSupportRequestedAmountOfListeners,
    DoesNotSupportRequestedMaxEventId,
    DoesNotSupportRequestedAmountOfNodes,
    ExceedsMaxNumberOfNodes,
    IsMarkedForDestruction,
    OutOfMemory,
    IsBeingCreatedByAnotherInstance,
    AlreadyExists,
    SystemInFlux,
    IncompatibleTypes,
    DoesNotSupportRequestedMinBufferSize,
    DoesNotSupportRequestedMinHistorySize,
    DoesNotSupportRequestedMinSubscriberBorrowedSamples,
    DoesNotSupportRequestedAmountOfPublishers,
    DoesNotSupportRequestedAmountOfSubscribers,
    IncompatibleOverflowBehavior,
    SubscriberBufferMustBeLargerThanHistorySize,
    DoesNotSupportRequestedAmountOfClientRequestLoans,
    DoesNotSupportRequestedAmountOfActiveRequestsPerClient,
    DoesNotSupportRequestedResponseBufferSize,
    DoesNotSupportRequestedAmountOfServers,
    DoesNotSupportRequestedAmountOfClients,
    DoesNotSupportRequestedAmountOfBorrowedResponsesPerPendingResponse,
    IncompatibleRequestType,
    IncompatibleResponseType,
    IncompatibleOverflowBehaviorForRequests,
    IncompatibleOverflowBehaviorForResponses,
    IncompatibleBehaviorForFireAndForgetRequests,
}

impl Reason {
    /// Returns the variant's name, which is also the name of the errors' variants with this reason.
    pub fn name(self) -> &'static str
        ensures { result.now ≡ reason_name self }
    {
        name_of!(self;
            DoesNotExist InsufficientPermissions ServiceInCorruptedState
            IncompatibleMessagingPattern IncompatibleAttributes InternalFailure
            IncompatibleDeadline IncompatibleNotifierCreatedEvent IncompatibleNotifierDroppedEvent
            IncompatibleNotifierDeadEvent HangsInCreation DoesNotSupportRequestedAmountOfNotifiers
            DoesNotSupportRequestedAmountOfListeners DoesNotSupportRequestedMaxEventId
            DoesNotSupportRequestedAmountOfNodes ExceedsMaxNumberOfNodes IsMarkedForDestruction
            OutOfMemory IsBeingCreatedByAnotherInstance AlreadyExists SystemInFlux
            IncompatibleTypes DoesNotSupportRequestedMinBufferSize
            DoesNotSupportRequestedMinHistorySize
            DoesNotSupportRequestedMinSubscriberBorrowedSamples
            DoesNotSupportRequestedAmountOfPublishers DoesNotSupportRequestedAmountOfSubscribers
            IncompatibleOverflowBehavior SubscriberBufferMustBeLargerThanHistorySize
            DoesNotSupportRequestedAmountOfClientRequestLoans
            DoesNotSupportRequestedAmountOfActiveRequestsPerClient
            DoesNotSupportRequestedResponseBufferSize DoesNotSupportRequestedAmountOfServers
            DoesNotSupportRequestedAmountOfClients
            DoesNotSupportRequestedAmountOfBorrowedResponsesPerPendingResponse
            IncompatibleRequestType IncompatibleResponseType
            IncompatibleOverflowBehaviorForRequests IncompatibleOverflowBehaviorForResponses
            IncompatibleBehaviorForFireAndForgetRequests)
    }

    /// Returns whether a dead node may be the cause. That node was creating the service, was the last
    /// one to leave it, takes a place in it, or has removed its segment and not yet its description.
    pub fn may_be_a_dead_node(self) -> bool
        ensures { result ≡ may_be_a_dead_node self }
    {
        match self {
            Reason::ServiceInCorruptedState => true,
            Reason::HangsInCreation => true,
            Reason::IsBeingCreatedByAnotherInstance => true,
            Reason::ExceedsMaxNumberOfNodes => true,
            Reason::IsMarkedForDestruction => true,
            Reason::SystemInFlux => true,
            _ => false,
        }
    }

    /// Returns whether an open or create goes on to the next round, if its open or its create is
    /// refused for this reason.
    pub fn is_retried(self) -> bool
        ensures { result ≡ is_retried self }
    {
        match self {
            Reason::DoesNotExist => true,
            Reason::ServiceInCorruptedState => true,
            Reason::IsMarkedForDestruction => true,
            Reason::AlreadyExists => true,
            Reason::IsBeingCreatedByAnotherInstance => true,
            _ => false,
        }
    }
}

/// Why a call of a builder is refused: the error of its call.
#[derive(Debug, Clone, Copy, PartialEq, Eq)]
pub enum Refusal {
    EventOpen(EventOpenError),
    EventCreate(EventCreateError),
    EventOpenOrCreate(EventOpenOrCreateError),
    PublishSubscribeOpen(PublishSubscribeOpenError),
    PublishSubscribeCreate(PublishSubscribeCreateError),
    PublishSubscribeOpenOrCreate(PublishSubscribeOpenOrCreateError),
    RequestResponseOpen(RequestResponseOpenError),
    RequestResponseCreate(RequestResponseCreateError),
    RequestResponseOpenOrCreate(RequestResponseOpenOrCreateError),
}

// The errors of each pattern's opens and creates, in the order of their enums. An error's place in its enum, from 1, is
// its number. Each macro hands them on behind what it is given.

macro_rules! event_errors {
    ($make:ident $($given:tt)*) => {
        $make! {
            $($given)*
            EventOpenOrCreate EventOpenOrCreateError
                EventOpen EventOpenError {
                    DoesNotExist InsufficientPermissions ServiceInCorruptedState IncompatibleMessagingPattern
                    IncompatibleAttributes InternalFailure IncompatibleDeadline IncompatibleNotifierCreatedEvent
                    IncompatibleNotifierDroppedEvent IncompatibleNotifierDeadEvent HangsInCreation
                    DoesNotSupportRequestedAmountOfNotifiers DoesNotSupportRequestedAmountOfListeners
                    DoesNotSupportRequestedMaxEventId DoesNotSupportRequestedAmountOfNodes ExceedsMaxNumberOfNodes
                    IsMarkedForDestruction OutOfMemory
                }
                EventCreate EventCreateError {
                    ServiceInCorruptedState InternalFailure IsBeingCreatedByAnotherInstance AlreadyExists
                    HangsInCreation InsufficientPermissions OutOfMemory
                }
        }
    };
}

macro_rules! publish_subscribe_errors {
    ($make:ident $($given:tt)*) => {
        $make! {
            $($given)*
            PublishSubscribeOpenOrCreate PublishSubscribeOpenOrCreateError
                PublishSubscribeOpen PublishSubscribeOpenError {
                    DoesNotExist InternalFailure IncompatibleTypes IncompatibleMessagingPattern
                    IncompatibleAttributes DoesNotSupportRequestedMinBufferSize
                    DoesNotSupportRequestedMinHistorySize DoesNotSupportRequestedMinSubscriberBorrowedSamples
                    DoesNotSupportRequestedAmountOfPublishers DoesNotSupportRequestedAmountOfSubscribers
                    DoesNotSupportRequestedAmountOfNodes IncompatibleOverflowBehavior InsufficientPermissions
                    ServiceInCorruptedState HangsInCreation ExceedsMaxNumberOfNodes IsMarkedForDestruction
                    OutOfMemory
                }
                PublishSubscribeCreate PublishSubscribeCreateError {
                    ServiceInCorruptedState SubscriberBufferMustBeLargerThanHistorySize AlreadyExists
                    InsufficientPermissions InternalFailure IsBeingCreatedByAnotherInstance HangsInCreation
                    OutOfMemory
                }
        }
    };
}

macro_rules! request_response_errors {
    ($make:ident $($given:tt)*) => {
        $make! {
            $($given)*
            RequestResponseOpenOrCreate RequestResponseOpenOrCreateError
                RequestResponseOpen RequestResponseOpenError {
                    DoesNotExist DoesNotSupportRequestedAmountOfClientRequestLoans
                    DoesNotSupportRequestedAmountOfActiveRequestsPerClient DoesNotSupportRequestedResponseBufferSize
                    DoesNotSupportRequestedAmountOfServers DoesNotSupportRequestedAmountOfClients
                    DoesNotSupportRequestedAmountOfNodes
                    DoesNotSupportRequestedAmountOfBorrowedResponsesPerPendingResponse ExceedsMaxNumberOfNodes
                    HangsInCreation IncompatibleRequestType IncompatibleResponseType IncompatibleAttributes
                    IncompatibleMessagingPattern IncompatibleOverflowBehaviorForRequests
                    IncompatibleOverflowBehaviorForResponses IncompatibleBehaviorForFireAndForgetRequests
                    InsufficientPermissions InternalFailure IsMarkedForDestruction ServiceInCorruptedState
                    OutOfMemory
                }
                RequestResponseCreate RequestResponseCreateError {
                    AlreadyExists InternalFailure IsBeingCreatedByAnotherInstance InsufficientPermissions
                    HangsInCreation ServiceInCorruptedState OutOfMemory
                }
        }
    };
}

macro_rules! all {
    ($($either:ident $eithers:ident
        $open:ident $opens:ident { $($opening:ident)* }
        $create:ident $creates:ident { $($creating:ident)* })*) => {
        [$(
            $(Refusal::$open($opens::$opening),)*
            $(Refusal::$create($creates::$creating),)*
            $(Refusal::$either($eithers::$opens($opens::$opening)),)*
            $(Refusal::$either($eithers::$creates($creates::$creating)),)*
            Refusal::$either($eithers::SystemInFlux),
        )*]
    };
}

/// The reason of an error of an open.
macro_rules! opening {
    ($error:ident $either:ident $eithers:ident
        $open:ident $opens:ident { $($opening:ident)* }
        $create:ident $creates:ident { $($creating:ident)* }) => {
        match $error {
            $($opens::$opening => Reason::$opening,)*
        }
    };
}

/// The reason of an error of a create.
macro_rules! creating {
    ($error:ident $either:ident $eithers:ident
        $open:ident $opens:ident { $($opening:ident)* }
        $create:ident $creates:ident { $($creating:ident)* }) => {
        match $error {
            $($creates::$creating => Reason::$creating,)*
        }
    };
}

/// Each refusal once.
const ALL: [Refusal; 163] = event_errors!(publish_subscribe_errors request_response_errors all);

impl Refusal {
    /// Returns the reason, in a word that means the same whatever the call.
    pub fn reason(self) -> Reason
        ensures { result ≡ reason_of self }
    {
        match self {
            Refusal::EventOpen(error) => of_event_open(error),
            Refusal::EventCreate(error) => of_event_create(error),
            Refusal::EventOpenOrCreate(error) => match error {
                EventOpenOrCreateError::EventOpenError(error) => of_event_open(error),
                EventOpenOrCreateError::EventCreateError(error) => of_event_create(error),
                EventOpenOrCreateError::SystemInFlux => Reason::SystemInFlux,
            },
            Refusal::PublishSubscribeOpen(error) => of_publish_subscribe_open(error),
            Refusal::PublishSubscribeCreate(error) => of_publish_subscribe_create(error),
            Refusal::PublishSubscribeOpenOrCreate(error) => match error {
                PublishSubscribeOpenOrCreateError::PublishSubscribeOpenError(error) =>
                    of_publish_subscribe_open(error),
                PublishSubscribeOpenOrCreateError::PublishSubscribeCreateError(error) =>
                    of_publish_subscribe_create(error),
                PublishSubscribeOpenOrCreateError::SystemInFlux => Reason::SystemInFlux,
            },
            Refusal::RequestResponseOpen(error) => of_request_response_open(error),
            Refusal::RequestResponseCreate(error) => of_request_response_create(error),
            Refusal::RequestResponseOpenOrCreate(error) => match error {
                RequestResponseOpenOrCreateError::RequestResponseOpenError(error) =>
                    of_request_response_open(error),
                RequestResponseOpenOrCreateError::RequestResponseCreateError(error) =>
                    of_request_response_create(error),
                RequestResponseOpenOrCreateError::SystemInFlux => Reason::SystemInFlux,
            },
        }
    }

    /// Returns the error's number: a thousand for the call's enum, and the error's place in the enum,
    /// from 1. If an open or create is refused for an error of its create, the number is 500 more. The
    /// number is the same in each version.
    pub fn number(self) -> u64
        ensures { result ≡ number_of self }
    {
        match self {
            Refusal::EventOpen(error) => 1001 + error as u64,
            Refusal::EventCreate(error) => 2001 + error as u64,
            Refusal::EventOpenOrCreate(EventOpenOrCreateError::EventOpenError(error)) => 3001
                + error as u64,
            Refusal::EventOpenOrCreate(EventOpenOrCreateError::EventCreateError(error)) => 3501
                + error as u64,
            Refusal::EventOpenOrCreate(EventOpenOrCreateError::SystemInFlux) => 3999,
            Refusal::PublishSubscribeOpen(error) => 4001 + error as u64,
            Refusal::PublishSubscribeCreate(error) => 5001 + error as u64,
            Refusal::PublishSubscribeOpenOrCreate(
                PublishSubscribeOpenOrCreateError::PublishSubscribeOpenError(error),
            ) => 6001 + error as u64,
            Refusal::PublishSubscribeOpenOrCreate(
                PublishSubscribeOpenOrCreateError::PublishSubscribeCreateError(error),
            ) => 6501 + error as u64,
            Refusal::PublishSubscribeOpenOrCreate(
                PublishSubscribeOpenOrCreateError::SystemInFlux,
            ) => 6999,
            Refusal::RequestResponseOpen(error) => 7001 + error as u64,
            Refusal::RequestResponseCreate(error) => 8001 + error as u64,
            Refusal::RequestResponseOpenOrCreate(
                RequestResponseOpenOrCreateError::RequestResponseOpenError(error),
            ) => 9001 + error as u64,
            Refusal::RequestResponseOpenOrCreate(
                RequestResponseOpenOrCreateError::RequestResponseCreateError(error),
            ) => 9501 + error as u64,
            Refusal::RequestResponseOpenOrCreate(RequestResponseOpenOrCreateError::SystemInFlux) =>
                9999,
        }
    }

    /// Returns the refusal of this number, if there is one.
    pub fn from_number(number: u64) -> Option<Refusal>
        ensures { result ≡ numbered number }
    {
        first_numbered(&ALL, number)
    }
}

// The reasons of each enum's errors. In one function the proof of all 163 took twice as long.

fn of_event_open(error: EventOpenError) -> Reason
    ensures { result ≡ event_open_reason error }
{
    event_errors!(opening error)
}

fn of_event_create(error: EventCreateError) -> Reason
    ensures { result ≡ event_create_reason error }
{
    event_errors!(creating error)
}

fn of_publish_subscribe_open(error: PublishSubscribeOpenError) -> Reason
    ensures { result ≡ publish_subscribe_open_reason error }
{
    publish_subscribe_errors!(opening error)
}

fn of_publish_subscribe_create(error: PublishSubscribeCreateError) -> Reason
    ensures { result ≡ publish_subscribe_create_reason error }
{
    publish_subscribe_errors!(creating error)
}

fn of_request_response_open(error: RequestResponseOpenError) -> Reason
    ensures { result ≡ request_response_open_reason error }
{
    request_response_errors!(opening error)
}

fn of_request_response_create(error: RequestResponseCreateError) -> Reason
    ensures { result ≡ request_response_create_reason error }
{
    request_response_errors!(creating error)
}

fn first_numbered(refusals: &[Refusal], number: u64) -> Option<Refusal>
    ensures { result ≡ find (has_number number) refusals.now }
{
    refusals
        .iter()
        .copied()
        .find(|refusal| refusal.number() == number)
}

/// States that a refusal is known by its number: no two have the same one.
pub fn refusals_are_known()
    ensures { (refusal : AnyRefusal) → numbered (number_of refusal) ≡ Some refusal }
{}

/// Writes the text of the refusal's error.
impl fmt::Display for Refusal {
    ghost output = { λ refusal. Some (text_of refusal) };

    fn fmt<W: fmt::Write>(&self, f: &mut fmt::Formatter<W>) -> fmt::Result {
        match self {
            Refusal::EventOpen(error) => write!(f, "{error}"),
            Refusal::EventCreate(error) => write!(f, "{error}"),
            Refusal::EventOpenOrCreate(error) => write!(f, "{error}"),
            Refusal::PublishSubscribeOpen(error) => write!(f, "{error}"),
            Refusal::PublishSubscribeCreate(error) => write!(f, "{error}"),
            Refusal::PublishSubscribeOpenOrCreate(error) => write!(f, "{error}"),
            Refusal::RequestResponseOpen(error) => write!(f, "{error}"),
            Refusal::RequestResponseCreate(error) => write!(f, "{error}"),
            Refusal::RequestResponseOpenOrCreate(error) => write!(f, "{error}"),
        }
    }
}

impl Error for Refusal {}
