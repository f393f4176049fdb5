//! What a builder of events asks, as the rounds see it.

ghost use Rattle.std.specs.Prelude.{◌≡◌, ◌∷◌, []};
ghost use Rattle.iceoryx2_rounds.specs.Verdict.{verdict, marked_clauses, span_is};
ghost use Rattle.iceoryx2_rounds.specs.Rows.{row_clauses};
ghost use Rattle.std.specs.Option.{option_map};
ghost use Rattle.iceoryx2_event_builder.specs.Event.{setting_rows, created_deadline, event_refusal};
ghost use Rattle.iceoryx2_event_builder.specs.Event.{deadline_value as value_of};
ghost use Rattle.iceoryx2_event_builder.specs.Builder.{fresh_demand, demand_with, demanded_deadline};

use crate::event::setting::EventSetter;
use iceoryx2_description::config;
use iceoryx2_description::description::{MessagingPattern, StaticConfig};
use iceoryx2_description::event::{self, Deadline};
use iceoryx2_description::time::{Duration, Time};
use iceoryx2_errors::error::{
    EventCreateError, EventOpenError, EventOpenOrCreateError, ServiceState,
};
use iceoryx2_rounds::open_or_create::OpenOrCreateRefusal;
use iceoryx2_rounds::pattern::{CreateRefusal, OpenRefusal, Pattern};
use iceoryx2_rounds::retries::Retries;
use iceoryx2_rounds::verdict::{need_at_least, need_duration, need_event};
use iceoryx2_rounds::zeros::raise_zero;
use iceoryx2_rounds::{
    ask_for, create_error_of_refusal, open_error_of_refusal, settings_of, verdict_of_rows,
};
use std::alloc::AllocError;

/// The settings that a builder of events requires.
#[derive(Clone, Copy, Debug, Default, PartialEq, Eq)]
pub struct Marks {
    pub max_notifiers: bool,
    pub max_listeners: bool,
    pub event_id_max_value: bool,
    pub max_nodes: bool,
    pub notifier_created_event: bool,
    pub notifier_dropped_event: bool,
    pub notifier_dead_event: bool,
    pub deadline: bool,
}

/// The demand of a builder of events: settings, and a mark for each setting that the builder
/// requires.
#[derive(Clone, Copy, Debug, PartialEq, Eq)]
pub struct EventDemand {
    pub settings: event::StaticConfig,
    pub marks: Marks,
}

impl EventDemand {
    /// Returns the configured settings. None of them is required.
    pub(crate) fn start(defaults: config::Event) -> EventDemand
        ensures { result ≡ fresh_demand defaults }
    {
        EventDemand {
            settings: settings_of!(defaults => event::StaticConfig:
                max_notifiers max_listeners event_id_max_value max_nodes
                notifier_created_event notifier_dropped_event notifier_dead_event;
                deadline: deadline_before_creation(defaults.deadline)),
            marks: Marks::default(),
        }
    }

    /// Calls one setter: sets the value, and marks the setting.
    pub(crate) fn set(&mut self, setting: EventSetter)
        ensures { self.new ≡ demand_with self.old setting }
    {
        match setting {
            EventSetter::MaxNotifiers(value) => ask_for!(self; max_notifiers = value),
            EventSetter::MaxListeners(value) => ask_for!(self; max_listeners = value),
            EventSetter::EventIdMaxValue(value) => ask_for!(self; event_id_max_value = value),
            EventSetter::MaxNodes(value) => ask_for!(self; max_nodes = value),
            EventSetter::NotifierCreatedEvent(id) => ask_for!(self; notifier_created_event = id),
            EventSetter::NotifierDroppedEvent(id) => ask_for!(self; notifier_dropped_event = id),
            EventSetter::NotifierDeadEvent(id) => ask_for!(self; notifier_dead_event = id),
            EventSetter::Deadline(value) =>
                ask_for!(self; deadline = deadline_before_creation(value)),
        }
    }
}

/// Returns a deadline as a builder asks for it. A create sets the time.
fn deadline_before_creation(value: Option<Duration>) -> Option<Deadline>
    ensures { result ≡ option_map demanded_deadline value }
{
    match value {
        None => None,
        Some(value) => Some(Deadline {
            value,
            creation_time: Time::default(),
        }),
    }
}

/// Returns the deadline of a service that is created at this time.
fn deadline_at_creation(deadline: Option<Deadline>, now: Time) -> Option<Deadline>
    ensures { result ≡ option_map (created_deadline now) deadline }
{
    match deadline {
        None => None,
        Some(deadline) => Some(Deadline {
            value: deadline.value,
            creation_time: now,
        }),
    }
}

/// Returns a deadline's length, without the time of creation.
fn deadline_value(deadline: Option<Deadline>) -> Option<Duration>
    ensures { result ≡ value_of deadline }
{
    match deadline {
        None => None,
        Some(deadline) => Some(deadline.value),
    }
}

/// If a deadline is asked for, tests whether the existing one is as long, or none if none is asked
/// for.
fn need_deadline(
    is_marked: bool,
    existing: Option<Deadline>,
    required: Option<Deadline>,
    error: EventOpenError,
) -> Result<(), EventOpenError>
    ensures { result ≡
        verdict (marked_clauses (span_is is_marked (value_of existing) (value_of required) error ∷ [])) }
{
    need_duration(
        is_marked,
        deadline_value(existing),
        deadline_value(required),
        error,
    )
}

/// Tests whether the existing settings offer what is marked.
fn verify_settings(
    demand: &EventDemand,
    existing: &event::StaticConfig,
) -> Result<(), EventOpenError>
    ensures { result ≡ verdict (row_clauses (setting_rows demand.now.settings demand.now.marks existing.now)) }
{
    verdict_of_rows!(demand, existing, EventOpenError;
        need_at_least max_notifiers DoesNotSupportRequestedAmountOfNotifiers;
        need_at_least max_listeners DoesNotSupportRequestedAmountOfListeners;
        need_at_least event_id_max_value DoesNotSupportRequestedMaxEventId;
        need_at_least max_nodes DoesNotSupportRequestedAmountOfNodes;
        need_event notifier_created_event IncompatibleNotifierCreatedEvent;
        need_event notifier_dropped_event IncompatibleNotifierDroppedEvent;
        need_event notifier_dead_event IncompatibleNotifierDeadEvent;
        need_deadline deadline IncompatibleDeadline;)
}

impl Pattern for EventDemand {
    ghost use Rattle.iceoryx2_event_builder.specs.Event.{event_meaning, event_adjusted};

    type OpenError = EventOpenError;

    type CreateError = EventCreateError;

    ghost meaning = { event_meaning };

    ghost adjusted = { event_adjusted };

    fn adjust(&mut self) {
        self.settings.max_notifiers = raise_zero(self.settings.max_notifiers);
        self.settings.max_listeners = raise_zero(self.settings.max_listeners);
        self.settings.max_nodes = raise_zero(self.settings.max_nodes);
    }

    fn misfit(&self, existing: &StaticConfig) -> Option<EventOpenError> {
        match existing.messaging_pattern() {
            MessagingPattern::Event(_) => None,
            MessagingPattern::PublishSubscribe(_) | MessagingPattern::RequestResponse(_) => {
                Some(EventOpenError::from(ServiceState::IncompatibleMessagingPattern))
            }
        }
    }

    fn verify(&self, existing: &StaticConfig) -> Result<(), EventOpenError> {
        match existing.messaging_pattern() {
            MessagingPattern::Event(settings) => verify_settings(self, settings),
            MessagingPattern::PublishSubscribe(_) => Ok(()),
            MessagingPattern::RequestResponse(_) => Ok(()),
        }
    }

    fn open_refusal(&self, refusal: OpenRefusal) -> EventOpenError {
        open_error_of_refusal!(refusal, EventOpenError)
    }

    fn create_error(refusal: CreateRefusal) -> EventCreateError {
        create_error_of_refusal!(refusal, EventCreateError)
    }

    fn settings_refusal(&self) -> Option<EventCreateError> {
        None
    }

    fn needs_clock(&self) -> bool {
        self.settings.deadline.is_some()
    }

    fn copy(&self) -> Result<EventDemand, AllocError> {
        Ok(*self)
    }

    fn into_published(self, now: Time) -> MessagingPattern {
        let mut settings = self.settings;
        settings.deadline = deadline_at_creation(self.settings.deadline, now);
        MessagingPattern::Event(settings)
    }
}

impl Retries for EventDemand {
    ghost use Rattle.std.specs.Prelude.{refl};
    ghost use Rattle.iceoryx2_event_builder.specs.Event.{event_retried};

    ghost retried = { event_retried };

    ghost told = { λ asked. refl };
}

/// Returns the error of an open or create for this refusal of the rounds.
pub(crate) fn open_or_create_error(
    refusal: OpenOrCreateRefusal<EventOpenError, EventCreateError>,
) -> EventOpenOrCreateError
    ensures { event_refusal result ≡ refusal }
{
    match refusal {
        OpenOrCreateRefusal::Open(error) => EventOpenOrCreateError::EventOpenError(error),
        OpenOrCreateRefusal::Create(error) => EventOpenOrCreateError::EventCreateError(error),
        OpenOrCreateRefusal::SystemInFlux => EventOpenOrCreateError::SystemInFlux,
    }
}
