//! The setters of the builder of events, by name.

use iceoryx2_description::event::EventId;
use iceoryx2_description::time::Duration;

/// One setter of the builder of events, with its value.
#[derive(Clone, Copy, Debug, PartialEq, Eq)]
pub enum EventSetter {
    /// The number of notifiers that the service has room for.
    MaxNotifiers(u64),
    /// The number of listeners that the service has room for.
    MaxListeners(u64),
    /// The greatest number that an event may have.
    EventIdMaxValue(u64),
    /// The number of nodes that the service has room for.
    MaxNodes(u64),
    /// The event that is sent when a notifier is created. `None`: nothing is sent.
    NotifierCreatedEvent(Option<EventId>),
    /// The event that is sent when a notifier goes. `None`: nothing is sent.
    NotifierDroppedEvent(Option<EventId>),
    /// The event that is sent for a notifier whose process died. `None`: nothing is sent.
    NotifierDeadEvent(Option<EventId>),
    /// The time within which a notifier has to notify again. `None`: it need not.
    Deadline(Option<Duration>),
}
