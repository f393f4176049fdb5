//! Which error a state that a look finds becomes, and which error of an open or create an error of one of both becomes.

use crate::support::assert_same;
use iceoryx2_errors::error::publish_subscribe::ServiceAvailabilityState as MessageState;
use iceoryx2_errors::error::request_response::ServiceAvailabilityState as RequestState;
use iceoryx2_errors::error::{
    EventCreateError, EventOpenError, EventOpenOrCreateError, PublishSubscribeCreateError,
    PublishSubscribeOpenError, PublishSubscribeOpenOrCreateError, RequestResponseCreateError,
    RequestResponseOpenError, RequestResponseOpenOrCreateError, ServiceState,
};
use std::process::Abort;

/// The names of the errors of an open and of a create.
type Names = (&'static str, &'static str);

/// States that a look finds with any pattern, and their errors.
const STATES: [(ServiceState, Names); 5] = [
    (
        ServiceState::Corrupted,
        ("ServiceInCorruptedState", "ServiceInCorruptedState"),
    ),
    (
        ServiceState::HangsInCreation,
        ("HangsInCreation", "HangsInCreation"),
    ),
    (
        ServiceState::InsufficientPermissions,
        ("InsufficientPermissions", "InsufficientPermissions"),
    ),
    (ServiceState::OutOfMemory, ("OutOfMemory", "OutOfMemory")),
    (
        ServiceState::IncompatibleMessagingPattern,
        ("IncompatibleMessagingPattern", "AlreadyExists"),
    ),
];

/// Ends a test where a state becomes other errors of events than these, or one of both becomes another error of an open or
/// create.
fn assert_events(rt: &impl Abort, state: ServiceState, wanted: Names) {
    let (open, create) = (EventOpenError::from(state), EventCreateError::from(state));
    assert_same(rt, (open.name(), create.name()), wanted);
    let found = [
        EventOpenOrCreateError::from(state),
        EventOpenOrCreateError::from(open),
        EventOpenOrCreateError::from(create),
    ];
    let wanted = [
        EventOpenOrCreateError::EventOpenError(open),
        EventOpenOrCreateError::EventOpenError(open),
        EventOpenOrCreateError::EventCreateError(create),
    ];
    assert_same(rt, found, wanted);
}

/// Ends a test where a state becomes other errors of publish-subscribe than these, or one of both becomes another error of
/// an open or create.
fn assert_messages(rt: &impl Abort, state: MessageState, wanted: Names) {
    let open = PublishSubscribeOpenError::from(state);
    let create = PublishSubscribeCreateError::from(state);
    assert_same(rt, (open.name(), create.name()), wanted);
    let found = [
        PublishSubscribeOpenOrCreateError::from(state),
        PublishSubscribeOpenOrCreateError::from(open),
        PublishSubscribeOpenOrCreateError::from(create),
    ];
    let wanted = [
        PublishSubscribeOpenOrCreateError::PublishSubscribeOpenError(open),
        PublishSubscribeOpenOrCreateError::PublishSubscribeOpenError(open),
        PublishSubscribeOpenOrCreateError::PublishSubscribeCreateError(create),
    ];
    assert_same(rt, found, wanted);
}

/// Ends a test where a state becomes other errors of request-response than these, or one of both becomes another error of
/// an open or create.
fn assert_requests(rt: &impl Abort, state: RequestState, wanted: Names) {
    let open = RequestResponseOpenError::from(state);
    let create = RequestResponseCreateError::from(state);
    assert_same(rt, (open.name(), create.name()), wanted);
    let found = [
        RequestResponseOpenOrCreateError::from(state),
        RequestResponseOpenOrCreateError::from(open),
        RequestResponseOpenOrCreateError::from(create),
    ];
    let wanted = [
        RequestResponseOpenOrCreateError::RequestResponseOpenError(open),
        RequestResponseOpenOrCreateError::RequestResponseOpenError(open),
        RequestResponseOpenOrCreateError::RequestResponseCreateError(create),
    ];
    assert_same(rt, found, wanted);
}

#[test]
fn a_state_of_any_pattern_is_the_error_of_its_name(rt: HostRuntime) {
    for (state, wanted) in STATES {
        assert_events(&rt, state, wanted);
        assert_messages(&rt, MessageState::ServiceState(state), wanted);
        assert_requests(&rt, RequestState::ServiceState(state), wanted);
    }
}

#[test]
fn types_that_do_not_fit_refuse_an_open_and_mean_that_the_service_exists(rt: HostRuntime) {
    let wanted = ("IncompatibleTypes", "AlreadyExists");
    assert_messages(&rt, MessageState::IncompatibleTypes, wanted);
    let wanted = ("IncompatibleRequestType", "AlreadyExists");
    assert_requests(&rt, RequestState::IncompatibleRequestType, wanted);
    let wanted = ("IncompatibleResponseType", "AlreadyExists");
    assert_requests(&rt, RequestState::IncompatibleResponseType, wanted);
}
