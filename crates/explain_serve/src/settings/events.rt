//! What opens of events require, beside what is there.

use super::value::Value;
use super::{Compare, Comparison, length_of};
use iceoryx2_description::event::StaticConfig;
use iceoryx2_errors::refusal::Reason;
use iceoryx2_event_builder::event::EventSetter;

impl Compare for EventSetter {
    ghost use Rattle.explain_serve.specs.Comparisons.{event_compared};

    type Existing = StaticConfig;

    ghost compared = { event_compared };

    fn compare(&self, existing: &StaticConfig) -> Option<Comparison> {
        comparison_of!(self, existing, EventSetter;
        settings {
            Number MaxNotifiers max_notifiers DoesNotSupportRequestedAmountOfNotifiers;
            Number MaxListeners max_listeners DoesNotSupportRequestedAmountOfListeners;
            Number EventIdMaxValue event_id_max_value DoesNotSupportRequestedMaxEventId;
            Number MaxNodes max_nodes DoesNotSupportRequestedAmountOfNodes;
            Event NotifierCreatedEvent notifier_created_event IncompatibleNotifierCreatedEvent;
            Event NotifierDroppedEvent notifier_dropped_event IncompatibleNotifierDroppedEvent;
            Event NotifierDeadEvent notifier_dead_event IncompatibleNotifierDeadEvent;
            Time Deadline deadline IncompatibleDeadline;
        }
        types {})
    }
}
