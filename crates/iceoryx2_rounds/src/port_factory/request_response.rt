//! The factory of a service of request-response.

ghost use Rattle.std.specs.Prelude.{◌≡◌, true};

use crate::port_factory::factory::{self, Kind};
use iceoryx2_description::description::MessagingPattern;
use iceoryx2_description::request_response::StaticConfig;
use std::marker::PhantomData;

/// Services of request-response with these payloads and user headers of requests and of responses.
pub struct RequestResponse<Q, QU, R, RU> {
    request_payload: PhantomData<Q>,
    request_user_header: PhantomData<QU>,
    response_payload: PhantomData<R>,
    response_user_header: PhantomData<RU>,
}

impl<Q, QU, R, RU> Kind for RequestResponse<Q, QU, R, RU> {
    ghost use Rattle.iceoryx2_description.specs.declared.description.MessagingPattern.TheVariants as pattern;
    ghost use Rattle.iceoryx2_rounds.specs.Patterns.{is_request_response};

    type StaticConfig = StaticConfig;

    ghost is_of = { is_request_response };

    ghost of_settings = { pattern.RequestResponse };

    fn settings(pattern: &MessagingPattern) -> &StaticConfig {
        match pattern {
            MessagingPattern::RequestResponse(settings) => settings,
            MessagingPattern::Event(_) => unreachable!(),
            MessagingPattern::PublishSubscribe(_) => unreachable!(),
        }
    }
}

/// An opened service of request-response. It has to be spent, by `close` or `abandon`.
pub type PortFactory<S, Q, QU, R, RU> = factory::PortFactory<S, RequestResponse<Q, QU, R, RU>>;
