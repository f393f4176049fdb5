//! The setters of the builder of request-response, by name.

use iceoryx2_types::types::{Alignment, TypeDetail};

/// One setter of the builder of request-response, with its value.
#[derive(Debug, Drop, PartialEq, Eq)]
pub enum RequestResponseSetter {
    /// True if the oldest request of a full buffer gives way to a new one.
    EnableSafeOverflowForRequests(bool),
    /// True if the oldest response of a full buffer gives way to a new one.
    EnableSafeOverflowForResponses(bool),
    /// True if a client may send a request without waiting for its responses.
    EnableFireAndForgetRequests(bool),
    /// The number of requests that a client may have under way at one time.
    MaxActiveRequestsPerClient(u64),
    /// The number of requests that a client may have on loan at one time.
    MaxLoanedRequests(u64),
    /// The number of responses that may be borrowed at one time from one pending response.
    MaxBorrowedResponsesPerPendingResponse(u64),
    /// The number of responses that the buffer of one request has room for.
    MaxResponseBufferSize(u64),
    /// The number of servers that the service has room for.
    MaxServers(u64),
    /// The number of clients that the service has room for.
    MaxClients(u64),
    /// The number of nodes that the service has room for.
    MaxNodes(u64),
    /// The least alignment of a request's payload, in bytes. It is no setting of the service: the
    /// request's types tell it.
    RequestPayloadAlignment(Alignment),
    /// The least alignment of a response's payload, in bytes. The response's types tell it.
    ResponsePayloadAlignment(Alignment),
    /// The type that is used instead of a request's own payload.
    RequestPayloadType(TypeDetail),
    /// The type that is used instead of a request's own user header.
    RequestHeaderType(TypeDetail),
    /// The type that is used instead of a response's own payload.
    ResponsePayloadType(TypeDetail),
    /// The type that is used instead of a response's own user header.
    ResponseHeaderType(TypeDetail),
}
