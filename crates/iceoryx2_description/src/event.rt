//! The settings that nodes agree on for a service of events.

ghost use Rattle.std.specs.Prelude.{◌≡◌, ◌<◌, ◌^◌, IfSome};
ghost use Rattle.iceoryx2_description.specs.Description.{IsDeadline, IsEvent};

use crate::time::{Duration, Time};
use std::marker::Model;

/// The number of an event.
#[derive(Clone, Copy, Debug, PartialEq, Eq, PartialOrd, Ord)]
pub struct EventId {
    value: u64,
}

impl Model for EventId {
    ghost use Rattle.std.specs.Prelude.{ℕ};

    ghost Value = { ℕ };

    ghost view = { λ id. id.value };

    ghost inverse = { λ n. record { value = n } };
}

impl EventId {
    /// Returns the event of this number.
    pub fn new(value: u64) -> EventId
        ensures { result ≡ value }
    {
        EventId { value }
    }

    /// Returns the event's number.
    pub fn as_value(&self) -> u64
        ensures value { result ≡ self.now }
        ensures below { result < 2 ^ 64 }
    {
        self.value
    }
}

/// The time within which a notifier must notify again, and the time when the service was created.
#[derive(Clone, Copy, Debug, PartialEq, Eq)]
pub struct Deadline {
    /// The time within which a notifier must notify again.
    pub value: Duration,
    /// The time when the service was created.
    pub creation_time: Time,
}

/// The settings of a service of events, in the order in which they are verified and written.
#[derive(Clone, Copy, Debug, PartialEq, Eq)]
pub struct StaticConfig {
    /// The number of notifiers that the service has room for.
    pub max_notifiers: u64,
    /// The number of listeners that the service has room for.
    pub max_listeners: u64,
    /// The greatest number that an event may have.
    pub event_id_max_value: u64,
    /// The number of nodes that the service has room for.
    pub max_nodes: u64,
    /// The event that is sent when a notifier is created, if there is one.
    pub notifier_created_event: Option<EventId>,
    /// The event that is sent when a notifier goes, if there is one.
    pub notifier_dropped_event: Option<EventId>,
    /// The event that is sent for a notifier whose process died, if there is one.
    pub notifier_dead_event: Option<EventId>,
    /// The time within which a notifier must notify again, if there is one.
    pub deadline: Option<Deadline>,
}

impl StaticConfig {
    /// The numbers are within the limits of their types.
    pub(crate) fn fits(&self)
        ensures { IsEvent self.now }
    {
        let _notifiers = self.max_notifiers;
        let _listeners = self.max_listeners;
        let _event_id = self.event_id_max_value;
        let _nodes = self.max_nodes;
        id_fits(self.notifier_created_event);
        id_fits(self.notifier_dropped_event);
        id_fits(self.notifier_dead_event);
        deadline_fits(self.deadline);
    }
}

fn id_fits(id: Option<EventId>)
    ensures { IfSome id (λ n. n < 2 ^ 64) }
{
    match id {
        None => {}
        Some(id) => {
            let _value = id.as_value();
        }
    }
}

fn deadline_fits(deadline: Option<Deadline>)
    ensures { IfSome deadline IsDeadline }
{
    match deadline {
        None => {}
        Some(deadline) => {
            let _seconds = deadline.value.seconds();
            let _nanoseconds = deadline.value.nanoseconds();
            let _creation_seconds = deadline.creation_time.seconds();
            let _creation_nanoseconds = deadline.creation_time.nanoseconds();
        }
    }
}
