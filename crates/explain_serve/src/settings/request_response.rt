//! What opens of request-response require, beside what is there.

ghost use Rattle.std.specs.Prelude.{◌≡◌, ◌++◌, IfOk, OnOk, string_bytes};
ghost use Rattle.iceoryx2_request_response_builder.specs.Builder.{no_message_types, with_setting};
ghost use Rattle.explain_serve.specs.Messages.{asked_messages, request_builder, request_builder_after};
ghost use Rattle.explain_serve.specs.Offers.{is_by_types, messages_lines};
ghost use Rattle.explain_serve.specs.Offers.{request_response_required};

use super::messages::describe_message;
use super::value::Value;
use super::{Compare, Comparison, describe_required};
use iceoryx2_description::request_response::StaticConfig;
use iceoryx2_errors::refusal::Reason;
use iceoryx2_request_response_builder::request_response::RequestResponseSetter;
use iceoryx2_request_response_builder::request_response::requested::RequestedMessages;
use iceoryx2_rounds::requested::RequestedTypes;
use iceoryx2_types::types::request_response::{RequestHeader, ResponseHeader};
use iceoryx2_types::types::{CustomHeaderMarker, CustomPayloadMarker, Slice};
use std::alloc::AllocError;

impl Compare for RequestResponseSetter {
    ghost use Rattle.explain_serve.specs.Comparisons.{request_response_compared};

    type Existing = StaticConfig;

    ghost compared = { request_response_compared };

    fn compare(&self, existing: &StaticConfig) -> Option<Comparison> {
        comparison_of!(self, existing, RequestResponseSetter;
        settings {
            Truth EnableSafeOverflowForRequests enable_safe_overflow_for_requests IncompatibleOverflowBehaviorForRequests;
            Truth EnableSafeOverflowForResponses enable_safe_overflow_for_responses IncompatibleOverflowBehaviorForResponses;
            Truth EnableFireAndForgetRequests enable_fire_and_forget_requests IncompatibleBehaviorForFireAndForgetRequests;
            Number MaxActiveRequestsPerClient max_active_requests_per_client DoesNotSupportRequestedAmountOfActiveRequestsPerClient;
            Number MaxLoanedRequests max_loaned_requests DoesNotSupportRequestedAmountOfClientRequestLoans;
            Number MaxBorrowedResponsesPerPendingResponse max_borrowed_responses_per_pending_response DoesNotSupportRequestedAmountOfBorrowedResponsesPerPendingResponse;
            Number MaxResponseBufferSize max_response_buffer_size DoesNotSupportRequestedResponseBufferSize;
            Number MaxServers max_servers DoesNotSupportRequestedAmountOfServers;
            Number MaxClients max_clients DoesNotSupportRequestedAmountOfClients;
            Number MaxNodes max_nodes DoesNotSupportRequestedAmountOfNodes;
        }
        types {
            RequestPayloadType RequestHeaderType RequestPayloadAlignment
            ResponsePayloadType ResponseHeaderType ResponsePayloadAlignment
        })
    }
}

/// Writes what it required of types or of settings, and what is there.
pub(super) fn describe_required_of(
    reason: Reason,
    setters: &[RequestResponseSetter],
    there: &StaticConfig,
    text: &mut String,
) -> Result<(), AllocError>
    ensures { OnOk result (string_bytes text.new ≡ string_bytes text.old
        ++ request_response_required reason setters.now there.now) }
{
    if !is_by_types(reason) {
        return describe_required(reason, setters, there, text);
    }
    describe_types(setters, there, text)
}

/// Returns whether the reason is the types of requests or of responses.
fn is_by_types(reason: Reason) -> bool
    ensures { result ≡ is_by_types reason }
{
    reason == Reason::IncompatibleRequestType || reason == Reason::IncompatibleResponseType
}

/// Writes for each part of requests and responses what it required and what is there.
fn describe_types(
    setters: &[RequestResponseSetter],
    there: &StaticConfig,
    text: &mut String,
) -> Result<(), AllocError>
    ensures { OnOk result (string_bytes text.new ≡ string_bytes text.old
        ++ messages_lines (asked_messages setters.now) there.now) }
{
    let alloc = *text.allocator();
    let RequestedMessages { request, response } = asked_types(setters)?;
    let asked = request.prepare::<RequestHeader, Slice<CustomPayloadMarker>, CustomHeaderMarker>(
        alloc,
    )?;
    let offered = &there.request_message_type_details;
    describe_message("request_header", "request_payload", &asked, offered, text)?;
    let asked = response.prepare::<ResponseHeader, Slice<CustomPayloadMarker>, CustomHeaderMarker>(
        alloc,
    )?;
    let offered = &there.response_message_type_details;
    describe_message("response_header", "response_payload", &asked, offered, text)
}

/// Returns the types of requests and responses that a call asks for after these setters. `AllocError` if there was no
/// memory for their names.
fn asked_types(setters: &[RequestResponseSetter]) -> Result<RequestedMessages, AllocError>
    ensures { IfOk result (λ types. types ≡ (request_builder_after no_message_types setters.now).types) }
{
    let mut types = RequestedMessages {
        request: RequestedTypes::none(),
        response: RequestedTypes::none(),
    };
    let mut left = setters;
    while let Some((setter, later)) = left.split_first() {
        types = with_types(types, setter)?;
        left = later;
    }
    Ok(types)
}

/// Returns the types after one setter. `AllocError` if there was no memory for the name of a type.
fn with_types(
    mut types: RequestedMessages,
    setter: &RequestResponseSetter,
) -> Result<RequestedMessages, AllocError>
    ensures { IfOk result (λ after. after ≡ (with_setting (request_builder types) setter.now).types) }
{
    match setter {
        RequestResponseSetter::RequestPayloadType(detail) => {
            types.request.payload = Some(detail.clone()?)
        }
        RequestResponseSetter::RequestHeaderType(detail) => {
            types.request.user_header = Some(detail.clone()?)
        }
        RequestResponseSetter::RequestPayloadAlignment(asked) => {
            types.request.alignment = Some(*asked)
        }
        RequestResponseSetter::ResponsePayloadType(detail) => {
            types.response.payload = Some(detail.clone()?)
        }
        RequestResponseSetter::ResponseHeaderType(detail) => {
            types.response.user_header = Some(detail.clone()?)
        }
        RequestResponseSetter::ResponsePayloadAlignment(asked) => {
            types.response.alignment = Some(*asked)
        }
        _ => {}
    }
    Ok(types)
}
