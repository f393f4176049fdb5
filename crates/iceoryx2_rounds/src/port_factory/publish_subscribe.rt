//! The factory of a service of publish-subscribe.

ghost use Rattle.std.specs.Prelude.{◌≡◌, true};

use crate::port_factory::factory::{self, Kind};
use iceoryx2_description::description::MessagingPattern;
use iceoryx2_description::publish_subscribe::StaticConfig;
use std::marker::PhantomData;

/// Services of publish-subscribe with this payload and this user header.
pub struct PublishSubscribe<P, U> {
    payload: PhantomData<P>,
    user_header: PhantomData<U>,
}

impl<P, U> Kind for PublishSubscribe<P, U> {
    ghost use Rattle.iceoryx2_description.specs.declared.description.MessagingPattern.TheVariants as pattern;
    ghost use Rattle.iceoryx2_rounds.specs.Patterns.{is_publish_subscribe};

    type StaticConfig = StaticConfig;

    ghost is_of = { is_publish_subscribe };

    ghost of_settings = { pattern.PublishSubscribe };

    fn settings(pattern: &MessagingPattern) -> &StaticConfig {
        match pattern {
            MessagingPattern::PublishSubscribe(settings) => settings,
            MessagingPattern::Event(_) => unreachable!(),
            MessagingPattern::RequestResponse(_) => unreachable!(),
        }
    }
}

/// An opened service of publish-subscribe. It has to be spent, by `close` or `abandon`.
pub type PortFactory<S, P, U> = factory::PortFactory<S, PublishSubscribe<P, U>>;
