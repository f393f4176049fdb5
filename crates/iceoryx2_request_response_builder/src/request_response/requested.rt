//! What a builder of request-response asks of the types of its requests and responses.

ghost use Rattle.std.specs.Prelude.{◌≡◌, IfOk};
ghost use Rattle.iceoryx2_request_response_builder.specs.Builder.{asked_with, messages_for, no_message_types};

use crate::request_response::demand::{PreparedDemand, RequestResponseDemand};
use iceoryx2_rounds::requested::RequestedTypes;
use iceoryx2_types::types::ZeroCopySend;
use iceoryx2_types::types::request_response::{RequestHeader, ResponseHeader};
use std::alloc::{AllocError, Global};

/// The types that are given instead of the own types of a request and of a response, and the least
/// alignments of their payloads.
#[derive(Debug, Drop, PartialEq, Eq)]
pub struct RequestedMessages {
    /// Those of a request.
    pub request: RequestedTypes,
    /// Those of a response.
    pub response: RequestedTypes,
}

impl Clone for RequestedMessages {
    ghost use Rattle.std.specs.Prelude.{◌≡◌};

    ghost is_clone = { λ types copy. copy ≡ types };

    /// Returns `AllocError` if there was no memory for the names of types.
    fn clone(&self) -> Result<RequestedMessages, AllocError> {
        let request = self.request.clone()?;
        let response = self.response.clone()?;
        Ok(RequestedMessages { request, response })
    }
}

impl RequestedMessages {
    /// Returns no other types: each type is the message's own, and aligned as it is.
    pub(crate) fn none() -> RequestedMessages
        ensures { result ≡ no_message_types }
    {
        RequestedMessages {
            request: RequestedTypes::none(),
            response: RequestedTypes::none(),
        }
    }

    /// Returns what a call asks with this demand. Its requests have the payload `Q` and the user
    /// header `QU`, and its responses have the payload `R` and the user header `RU`. `AllocError`
    /// if there was no memory for the names of their types.
    pub(crate) fn prepare<Q: ZeroCopySend, QU: ZeroCopySend, R: ZeroCopySend, RU: ZeroCopySend>(
        self,
        demand: RequestResponseDemand,
        alloc: Global,
    ) -> Result<PreparedDemand, AllocError>
        ensures { IfOk result (λ asked.
            asked ≡ asked_with demand (messages_for Q.detail QU.detail R.detail RU.detail self)) }
    {
        let request = self.request.prepare::<RequestHeader, Q, QU>(alloc)?;
        let response = self.response.prepare::<ResponseHeader, R, RU>(alloc)?;
        Ok(PreparedDemand {
            demand,
            request,
            response,
        })
    }
}
