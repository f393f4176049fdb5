//! What a builder of request-response asks, as the rounds see it.

ghost use Rattle.std.specs.Prelude.{◌≡◌};
ghost use Rattle.iceoryx2_rounds.specs.Verdict.{verdict};
ghost use Rattle.iceoryx2_rounds.specs.Rows.{row_clauses};
ghost use Rattle.iceoryx2_request_response_builder.specs.Builder.{fresh_demand};
ghost use Rattle.iceoryx2_request_response_builder.specs.RequestResponse.{request_response_refusal, setting_rows};

use iceoryx2_description::description::{MessagingPattern, StaticConfig};
use iceoryx2_description::time::Time;
use iceoryx2_description::{config, request_response};
use iceoryx2_errors::error::request_response::ServiceAvailabilityState;
use iceoryx2_errors::error::{
    RequestResponseCreateError, RequestResponseOpenError, RequestResponseOpenOrCreateError,
    ServiceState,
};
use iceoryx2_rounds::open_or_create::OpenOrCreateRefusal;
use iceoryx2_rounds::pattern::{CreateRefusal, OpenRefusal, Pattern};
use iceoryx2_rounds::retries::Retries;
use iceoryx2_rounds::verdict::{need_at_least, need_flag};
use iceoryx2_rounds::zeros::raise_zero;
use iceoryx2_rounds::{
    create_error_of_refusal, open_error_of_refusal, settings_of, verdict_of_rows,
};
use iceoryx2_types::types::MessageTypeDetails;
use std::alloc::AllocError;

/// The settings that a builder of request-response requires.
#[derive(Clone, Copy, Debug, Default, PartialEq, Eq)]
pub struct Marks {
    pub enable_safe_overflow_for_requests: bool,
    pub enable_safe_overflow_for_responses: bool,
    pub enable_fire_and_forget_requests: bool,
    pub max_active_requests_per_client: bool,
    pub max_loaned_requests: bool,
    pub max_borrowed_responses_per_pending_response: bool,
    pub max_response_buffer_size: bool,
    pub max_servers: bool,
    pub max_clients: bool,
    pub max_nodes: bool,
}

/// The demand of a builder of request-response: settings, and a mark for each setting that the
/// builder requires.
#[derive(Clone, Copy, Debug, PartialEq, Eq)]
pub struct RequestResponseDemand {
    pub settings: config::RequestResponse,
    pub marks: Marks,
}

impl RequestResponseDemand {
    /// Returns the configured settings. None of them is required.
    pub(crate) fn start(defaults: config::RequestResponse) -> RequestResponseDemand
        ensures { result ≡ fresh_demand defaults }
    {
        RequestResponseDemand {
            settings: defaults,
            marks: Marks::default(),
        }
    }
}

/// The demand of one call: settings, a mark for each setting that is required, and the types of its
/// requests and responses as they were prepared.
#[derive(Debug, Drop, PartialEq, Eq)]
pub struct PreparedDemand {
    pub demand: RequestResponseDemand,
    pub request: MessageTypeDetails,
    pub response: MessageTypeDetails,
}

/// Whether the existing settings offer what is marked.
fn verify_settings(
    demand: &RequestResponseDemand,
    existing: &request_response::StaticConfig,
) -> Result<(), RequestResponseOpenError>
    ensures { result ≡ verdict (row_clauses (setting_rows demand.now.settings demand.now.marks existing.now)) }
{
    verdict_of_rows!(demand, existing, RequestResponseOpenError;
        need_flag enable_safe_overflow_for_requests IncompatibleOverflowBehaviorForRequests;
        need_flag enable_safe_overflow_for_responses IncompatibleOverflowBehaviorForResponses;
        need_flag enable_fire_and_forget_requests IncompatibleBehaviorForFireAndForgetRequests;
        need_at_least max_active_requests_per_client DoesNotSupportRequestedAmountOfActiveRequestsPerClient;
        need_at_least max_loaned_requests DoesNotSupportRequestedAmountOfClientRequestLoans;
        need_at_least max_borrowed_responses_per_pending_response DoesNotSupportRequestedAmountOfBorrowedResponsesPerPendingResponse;
        need_at_least max_response_buffer_size DoesNotSupportRequestedResponseBufferSize;
        need_at_least max_servers DoesNotSupportRequestedAmountOfServers;
        need_at_least max_clients DoesNotSupportRequestedAmountOfClients;
        need_at_least max_nodes DoesNotSupportRequestedAmountOfNodes;)
}

impl Pattern for PreparedDemand {
    ghost use Rattle.iceoryx2_request_response_builder.specs.RequestResponse.{prepared_adjusted, prepared_meaning};

    type OpenError = RequestResponseOpenError;

    type CreateError = RequestResponseCreateError;

    ghost meaning = { prepared_meaning };

    ghost adjusted = { prepared_adjusted };

    fn adjust(&mut self) {
        let settings = &mut self.demand.settings;
        settings.max_active_requests_per_client = raise_zero(
            settings.max_active_requests_per_client,
        );
        settings.max_loaned_requests = raise_zero(settings.max_loaned_requests);
        settings.max_borrowed_responses_per_pending_response = raise_zero(
            settings.max_borrowed_responses_per_pending_response,
        );
        settings.max_response_buffer_size = raise_zero(settings.max_response_buffer_size);
        settings.max_servers = raise_zero(settings.max_servers);
        settings.max_clients = raise_zero(settings.max_clients);
        settings.max_nodes = raise_zero(settings.max_nodes);
    }

    fn misfit(&self, existing: &StaticConfig) -> Option<RequestResponseOpenError> {
        match existing.messaging_pattern() {
            MessagingPattern::RequestResponse(settings) => {
                let request = &settings.request_message_type_details;
                let response = &settings.response_message_type_details;
                if !self.request.is_compatible_to(request) {
                    Some(RequestResponseOpenError::from(
                        ServiceAvailabilityState::IncompatibleRequestType,
                    ))
                } else if !self.response.is_compatible_to(response) {
                    Some(RequestResponseOpenError::from(
                        ServiceAvailabilityState::IncompatibleResponseType,
                    ))
                } else {
                    None
                }
            }
            MessagingPattern::Event(_) | MessagingPattern::PublishSubscribe(_) => {
                Some(RequestResponseOpenError::from(ServiceAvailabilityState::ServiceState(
                    ServiceState::IncompatibleMessagingPattern,
                )))
            }
        }
    }

    fn verify(&self, existing: &StaticConfig) -> Result<(), RequestResponseOpenError> {
        match existing.messaging_pattern() {
            MessagingPattern::RequestResponse(settings) => verify_settings(&self.demand, settings),
            MessagingPattern::Event(_) => Ok(()),
            MessagingPattern::PublishSubscribe(_) => Ok(()),
        }
    }

    fn open_refusal(&self, refusal: OpenRefusal) -> RequestResponseOpenError {
        open_error_of_refusal!(refusal, RequestResponseOpenError)
    }

    fn create_error(refusal: CreateRefusal) -> RequestResponseCreateError {
        create_error_of_refusal!(refusal, RequestResponseCreateError)
    }

    fn settings_refusal(&self) -> Option<RequestResponseCreateError> {
        None
    }

    fn needs_clock(&self) -> bool {
        false
    }

    fn copy(&self) -> Result<PreparedDemand, AllocError> {
        let request = self.request.clone()?;
        let response = self.response.clone()?;
        Ok(PreparedDemand {
            demand: self.demand,
            request,
            response,
        })
    }

    fn into_published(self, now: Time) -> MessagingPattern {
        let _ = now;
        let PreparedDemand {
            demand,
            request,
            response,
        } = self;
        MessagingPattern::RequestResponse(settings_of!(demand.settings =>
            request_response::StaticConfig: enable_safe_overflow_for_requests
            enable_safe_overflow_for_responses enable_fire_and_forget_requests
            max_active_requests_per_client max_loaned_requests
            max_borrowed_responses_per_pending_response max_response_buffer_size
            max_servers max_clients max_nodes;
            request_message_type_details: request,
            response_message_type_details: response))
    }
}

impl Retries for PreparedDemand {
    ghost use Rattle.std.specs.Prelude.{refl};
    ghost use Rattle.iceoryx2_request_response_builder.specs.RequestResponse.{request_response_retried};

    ghost retried = { request_response_retried };

    ghost told = { λ asked. refl };
}

/// Returns the error of an open or create for this refusal of the rounds.
pub(crate) fn open_or_create_error(
    refusal: OpenOrCreateRefusal<RequestResponseOpenError, RequestResponseCreateError>,
) -> RequestResponseOpenOrCreateError
    ensures { request_response_refusal result ≡ refusal }
{
    match refusal {
        OpenOrCreateRefusal::Open(error) => {
            RequestResponseOpenOrCreateError::RequestResponseOpenError(error)
        }
        OpenOrCreateRefusal::Create(error) => {
            RequestResponseOpenOrCreateError::RequestResponseCreateError(error)
        }
        OpenOrCreateRefusal::SystemInFlux => RequestResponseOpenOrCreateError::SystemInFlux,
    }
}
