//! The settings that nodes agree on for a service of request-response.

ghost use Rattle.iceoryx2_description.specs.Description.{IsRequestResponse};

use crate::messages::message_fits;
use iceoryx2_types::types::MessageTypeDetails;
use std::alloc::AllocError;

/// The settings of a service of request-response, in the order in which they are verified and
/// written, and the types of its requests and responses.
#[derive(Debug, Drop, PartialEq, Eq)]
pub struct StaticConfig {
    /// True if a full buffer's oldest request gives way to a new one.
    pub enable_safe_overflow_for_requests: bool,
    /// True if a full buffer's oldest response gives way to a new one.
    pub enable_safe_overflow_for_responses: bool,
    /// True if a request may be sent whose responses nobody waits for.
    pub enable_fire_and_forget_requests: bool,
    /// The number of requests that a client may have under way at one time.
    pub max_active_requests_per_client: u64,
    /// The number of requests that a client may have on loan at one time.
    pub max_loaned_requests: u64,
    /// The number of responses that may be borrowed at one time from one pending response.
    pub max_borrowed_responses_per_pending_response: u64,
    /// The number of responses that the buffer of one request has room for.
    pub max_response_buffer_size: u64,
    /// The number of servers that the service has room for.
    pub max_servers: u64,
    /// The number of clients that the service has room for.
    pub max_clients: u64,
    /// The number of nodes that the service has room for.
    pub max_nodes: u64,
    /// The types of a request.
    pub request_message_type_details: MessageTypeDetails,
    /// The types of a response.
    pub response_message_type_details: MessageTypeDetails,
}

impl StaticConfig {
    /// The numbers are within the limits of their types.
    pub(crate) fn fits(&self)
        ensures { IsRequestResponse self.now }
    {
        let _active_requests = self.max_active_requests_per_client;
        let _loaned_requests = self.max_loaned_requests;
        let _borrowed_responses = self.max_borrowed_responses_per_pending_response;
        let _buffer_size = self.max_response_buffer_size;
        let _servers = self.max_servers;
        let _clients = self.max_clients;
        let _nodes = self.max_nodes;
        message_fits(&self.request_message_type_details);
        message_fits(&self.response_message_type_details);
    }
}

impl Clone for StaticConfig {
    ghost use Rattle.std.specs.Prelude.{◌≡◌};

    ghost is_clone = { λ settings copy. copy ≡ settings };

    /// `AllocError` if there was no memory for the types' names.
    fn clone(&self) -> Result<StaticConfig, AllocError> {
        Ok(StaticConfig {
            enable_safe_overflow_for_requests: self.enable_safe_overflow_for_requests,
            enable_safe_overflow_for_responses: self.enable_safe_overflow_for_responses,
            enable_fire_and_forget_requests: self.enable_fire_and_forget_requests,
            max_active_requests_per_client: self.max_active_requests_per_client,
            max_loaned_requests: self.max_loaned_requests,
            max_borrowed_responses_per_pending_response: self.max_borrowed_responses_per_pending_response,
            max_response_buffer_size: self.max_response_buffer_size,
            max_servers: self.max_servers,
            max_clients: self.max_clients,
            max_nodes: self.max_nodes,
            request_message_type_details: self.request_message_type_details.clone()?,
            response_message_type_details: self.response_message_type_details.clone()?,
        })
    }
}
