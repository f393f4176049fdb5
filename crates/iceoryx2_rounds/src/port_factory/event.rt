//! The factory of a service of events.

ghost use Rattle.std.specs.Prelude.{◌≡◌, true};

use crate::port_factory::factory::{self, Kind};
use iceoryx2_description::description::MessagingPattern;
use iceoryx2_description::event::StaticConfig;

/// Services of events.
pub struct Events;

impl Kind for Events {
    ghost use Rattle.iceoryx2_description.specs.declared.description.MessagingPattern.TheVariants as pattern;
    ghost use Rattle.iceoryx2_rounds.specs.Patterns.{is_events};

    type StaticConfig = StaticConfig;

    ghost is_of = { is_events };

    ghost of_settings = { pattern.Event };

    fn settings(pattern: &MessagingPattern) -> &StaticConfig {
        match pattern {
            MessagingPattern::Event(settings) => settings,
            MessagingPattern::PublishSubscribe(_) => unreachable!(),
            MessagingPattern::RequestResponse(_) => unreachable!(),
        }
    }
}

/// An opened service of events. It has to be spent, by `close` or `abandon`.
pub type PortFactory<S> = factory::PortFactory<S, Events>;
