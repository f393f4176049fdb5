//! Builders with the types of a program.

use crate::calls::*;
use crate::types::{I64, SLICE, U32, detail};
use iceoryx2_access::storage::Service;
use iceoryx2_table::local::Local;
use iceoryx2_types::types::{Alignment, CustomHeaderMarker, Slice, ZeroCopySend};
use std::alloc::Global;
use std::process::Abort;
use test_support::calls::{Calls, RequestBuilder, requests};

/// What a service of publish-subscribe is answered that node 1 creates, and opens by node 2 that want a longer history,
/// and several values at a time.
fn published<S: Tried>(rt: &impl Abort, alloc: Global) -> [String; 3] {
    let mut storage = S::new_storage(alloc);
    let builder = begun::<S>(rt, alloc, 1, "xample")
        .publish_subscribe::<i64>()
        .payload_alignment(there(rt, Alignment::new(16)))
        .history_size(1)
        .user_header::<u32>();
    let longer = begun::<S>(rt, alloc, 2, "xample")
        .publish_subscribe::<i64>()
        .history_size(2)
        .user_header::<u32>();
    let slices = begun::<S>(rt, alloc, 2, "xample")
        .publish_subscribe::<Slice<i64>>()
        .user_header::<u32>();
    let answers = [
        answered::<S, _>(rt, alloc, (builder, How::Create), &mut storage),
        answered::<S, _>(rt, alloc, (longer, How::Open), &mut storage),
        answered::<S, _>(rt, alloc, (slices, How::Open), &mut storage),
    ];
    S::drop_storage(storage);
    answers
}

#[test]
fn another_user_header_keeps_what_was_asked(rt: HostRuntime) {
    let wanted = [
        "number=0 xample creator=1 history_size=1 payload=fixed,i64,8,16 user_header=fixed,u32,4,4",
        "PublishSubscribeOpenError::DoesNotSupportRequestedMinHistorySize",
        "PublishSubscribeOpenError::IncompatibleTypes",
    ];
    for (found, wanted) in published::<Local>(&rt, rt.alloc()).iter().zip(wanted) {
        assert_answer(&rt, found.as_str(), wanted);
    }
}

/// Ends a test where an open by node 2 with these payloads has another answer than this, or a create is granted, where
/// node 1 has created a service of a `u64` and of a number of `u8`.
fn assert_payloads<S: Tried, Q: ZeroCopySend, R: ZeroCopySend>(
    rt: &impl Abort,
    alloc: Global,
    wanted: &str,
) {
    let mut storage = S::new_storage(alloc);
    let builder = begun::<S>(rt, alloc, 1, "oot").request_response::<u64, Slice<u8>>();
    let _created = answered::<S, _>(rt, alloc, (builder, How::Create), &mut storage);
    let builder = begun::<S>(rt, alloc, 2, "oot").request_response::<Q, R>();
    let opened = answered::<S, _>(rt, alloc, (builder, How::Open), &mut storage);
    let builder = begun::<S>(rt, alloc, 2, "oot").request_response::<Q, R>();
    let created = answered::<S, _>(rt, alloc, (builder, How::Create), &mut storage);
    S::drop_storage(storage);
    assert_answer(rt, opened.as_str(), wanted);
    assert_answer(
        rt,
        created.as_str(),
        "RequestResponseCreateError::AlreadyExists",
    );
}

#[test]
fn a_service_has_its_own_requests_and_responses(rt: HostRuntime) {
    let alloc = rt.alloc();
    let request = "RequestResponseOpenError::IncompatibleRequestType";
    let response = "RequestResponseOpenError::IncompatibleResponseType";
    let opened =
        "number=0 oot creator=1 request_payload=fixed,u64,8,8 request_header=fixed,(),0,1 response_payload=dynamic,u8,1,1 response_header=fixed,(),0,1";
    assert_payloads::<Local, u32, Slice<u16>>(&rt, alloc, request);
    assert_payloads::<Local, u64, Slice<u16>>(&rt, alloc, response);
    assert_payloads::<Local, u64, u8>(&rt, alloc, response);
    assert_payloads::<Local, u64, Slice<u8>>(&rt, alloc, opened);
}

/// Ends a test where a builder creates something else than a service of request-response with these types.
fn assert_created<S: Tried, B: Calls<S>>(rt: &impl Abort, alloc: Global, builder: B, wanted: &str) {
    let mut storage = S::new_storage(alloc);
    let found = answered::<S, _>(rt, alloc, (builder, How::Create), &mut storage);
    S::drop_storage(storage);
    assert_answer(rt, found.as_str(), wanted);
}

/// A builder of request-response with markers in place of types.
fn unnamed<S: Service>(rt: &impl Abort, alloc: Global) -> RequestBuilder<S> {
    requests::<S>(begun(rt, alloc, 1, "oot"))
}

/// Ends a test where other user headers change a payload or an alignment.
fn assert_payloads_stay<S: Tried>(rt: &impl Abort, alloc: Global) {
    let builder = unnamed::<S>(rt, alloc)
        .internal_set_request_payload_type_details(detail(rt, alloc, I64))
        .request_payload_alignment(there(rt, Alignment::new(64)))
        .internal_set_response_payload_type_details(detail(rt, alloc, SLICE))
        .response_payload_alignment(there(rt, Alignment::new(16)))
        .request_user_header::<u32>()
        .response_user_header::<u64>();
    let wanted =
        "number=0 oot creator=1 request_payload=fixed,i64,8,64 request_header=fixed,u32,4,4 response_payload=dynamic,i64,8,16 response_header=fixed,u64,8,8";
    assert_created::<S, _>(rt, alloc, builder, wanted);
}

#[test]
fn other_user_headers_keep_payloads_and_alignments(rt: HostRuntime) {
    assert_payloads_stay::<Local>(&rt, rt.alloc());
}

/// A builder whose user headers are named.
fn with_headers<S: Service>(
    rt: &impl Abort,
    alloc: Global,
    builder: RequestBuilder<S>,
) -> RequestBuilder<S> {
    builder
        .internal_set_request_header_type_details(detail(rt, alloc, U32))
        .internal_set_response_header_type_details(detail(rt, alloc, I64))
}

/// Ends a test where user headers that are named don't stand.
fn assert_headers_stand<S: Tried>(rt: &impl Abort, alloc: Global) {
    let wanted =
        "number=0 oot creator=1 request_header=fixed,u32,4,4 response_header=fixed,i64,8,8";
    let before = with_headers::<S>(rt, alloc, unnamed(rt, alloc))
        .request_user_header::<u16>()
        .response_user_header::<bool>();
    assert_created::<S, _>(rt, alloc, before, wanted);
    let chosen = unnamed::<S>(rt, alloc)
        .request_user_header::<u16>()
        .response_user_header::<bool>()
        .request_user_header::<CustomHeaderMarker>()
        .response_user_header::<CustomHeaderMarker>();
    let behind = with_headers::<S>(rt, alloc, chosen);
    assert_created::<S, _>(rt, alloc, behind, wanted);
}

// They stand where they were named before other user headers were chosen, and after them.
#[test]
fn user_headers_that_are_named_stand_in_either_order(rt: HostRuntime) {
    assert_headers_stand::<Local>(&rt, rt.alloc());
}
