//! The builder of services of request-response, its errors, what a look may find wrong, and its laws.

pub use iceoryx2_errors::error::request_response::{
    RequestResponseCreateError, RequestResponseOpenError, RequestResponseOpenOrCreateError,
    ServiceAvailabilityState,
};
pub use iceoryx2_request_response_builder::request_response::{
    Builder, PREFIX, RequestResponseSetter, demand, ends_at_once, opens_what_it_creates,
    prefix_is_r, requested, setting,
};
