//! What the nodes of a service agreed on, setting by setting.

ghost use Rattle.std.specs.Prelude.{◌≡◌};
ghost use Rattle.wulameron_view.specs.Settings.{deadline as deadline_fact, event as event_fact, event_settings};
ghost use Rattle.wulameron_view.specs.Settings.{number as number_fact, publish_subscribe_settings};
ghost use Rattle.wulameron_view.specs.Settings.{request_response_settings, same_deadline, same_event, setting_of};
ghost use Rattle.wulameron_view.specs.Settings.{truth as truth_fact};

use iceoryx2_description::config::{Event, PublishSubscribe, RequestResponse};
use iceoryx2_description::event::{self, Deadline, EventId};
use iceoryx2_description::time::Duration;
use iceoryx2_description::{publish_subscribe, request_response};
use std::fmt;
use std::marker::Model;

/// A value that was agreed.
#[derive(Clone, Copy)]
pub enum Value {
    Number(u64),
    Truth(bool),
    /// The number of an event, or that there is none.
    Event(Option<EventId>),
    /// A deadline with its creation time, or that there is none.
    Deadline(Option<Deadline>),
}

/// Writes the text by which a term means the value. A deadline's creation time follows its length.
impl fmt::Display for Value {
    ghost use Rattle.std.specs.Prelude.{Some};
    ghost use Rattle.wulameron_view.specs.ShowTexts.{value_text};

    ghost output = { λ value. Some (value_text value) };

    fn fmt<W: fmt::Write>(&self, f: &mut fmt::Formatter<W>) -> fmt::Result {
        match self {
            Value::Number(number) => write!(f, "{number}"),
            Value::Truth(truth) => write!(f, "{truth}"),
            Value::Event(None) | Value::Deadline(None) => write!(f, "none"),
            Value::Event(Some(id)) => {
                let number = id.as_value();
                write!(f, "{number}")
            }
            Value::Deadline(Some(deadline)) => {
                let seconds = deadline.value.seconds();
                let nanoseconds = deadline.value.nanoseconds();
                let created = deadline.creation_time.seconds();
                let beside = deadline.creation_time.nanoseconds();
                write!(f, "{seconds},{nanoseconds} (created at {created},{beside})")
            }
        }
    }
}

/// A setting with what was agreed, and whether that differs from what a create has by default.
#[derive(Drop)]
pub struct Setting {
    name: &'static str,
    value: Value,
    differs: bool,
}

impl Model for Setting {
    ghost use Rattle.wulameron_view.specs.Settings as settings;

    ghost Value = { settings.Setting };

    ghost view = { λ s. record { name = s.name.now; value = s.value; differs = s.differs } };
}

impl Setting {
    /// Returns its name, which is a command's term.
    pub fn name(&self) -> &'static str
        ensures { result.now ≡ self.now.name }
    {
        self.name
    }

    /// Returns what was agreed.
    pub fn value(&self) -> Value
        ensures { result ≡ self.now.value }
    {
        self.value
    }

    /// Returns whether it isn't the default.
    pub fn differs(&self) -> bool
        ensures { result ≡ self.now.differs }
    {
        self.differs
    }

    fn number(name: &'static str, agreed: u64, default: u64) -> Setting
        ensures { result ≡ setting_of name.now (number_fact agreed default) }
    {
        Setting {
            name,
            value: Value::Number(agreed),
            differs: agreed != default,
        }
    }

    fn truth(name: &'static str, agreed: bool, default: bool) -> Setting
        ensures { result ≡ setting_of name.now (truth_fact agreed default) }
    {
        let same = if agreed { default } else { !default };
        Setting {
            name,
            value: Value::Truth(agreed),
            differs: !same,
        }
    }

    fn event(name: &'static str, agreed: Option<EventId>, default: Option<EventId>) -> Setting
        ensures { result ≡ setting_of name.now (event_fact agreed default) }
    {
        let differs = !is_same_event(&agreed, &default);
        Setting {
            name,
            value: Value::Event(agreed),
            differs,
        }
    }

    fn deadline(name: &'static str, agreed: Option<Deadline>, default: Option<Duration>) -> Setting
        ensures { result ≡ setting_of name.now (deadline_fact agreed default) }
    {
        let differs = !is_same_deadline(&agreed, &default);
        Setting {
            name,
            value: Value::Deadline(agreed),
            differs,
        }
    }
}

fn is_same_event(agreed: &Option<EventId>, default: &Option<EventId>) -> bool
    ensures { result ≡ same_event agreed.now default.now }
{
    match (agreed, default) {
        (None, None) => true,
        (Some(agreed), Some(default)) => agreed.as_value() == default.as_value(),
        (None, Some(_)) | (Some(_), None) => false,
    }
}

/// Returns whether the lengths are the same.
fn is_same_deadline(agreed: &Option<Deadline>, default: &Option<Duration>) -> bool
    ensures { result ≡ same_deadline agreed.now default.now }
{
    match (agreed, default) {
        (None, None) => true,
        (Some(agreed), Some(default)) => {
            agreed.value.seconds() == default.seconds()
                && agreed.value.nanoseconds() == default.nanoseconds()
        }
        (None, Some(_)) | (Some(_), None) => false,
    }
}

/// For each field its name, what was agreed and the default.
macro_rules! settings_of {
    ($agreed:expr, $default:expr; $($kind:ident $name:ident;)*) => {
        [$(Setting::$kind(stringify!($name), $agreed.$name, $default.$name),)*]
    };
}

/// Returns what the nodes of a service of events agreed on.
pub fn of_events(agreed: &event::StaticConfig) -> [Setting; 8]
    ensures { result ≡ event_settings agreed.now }
{
    let default = Event::default();
    settings_of!(agreed, default;
        number max_notifiers;
        number max_listeners;
        number event_id_max_value;
        number max_nodes;
        event notifier_created_event;
        event notifier_dropped_event;
        event notifier_dead_event;
        deadline deadline;
    )
}

/// Returns what the nodes of a service of publish-subscribe agreed on, except its types.
pub fn of_publish_subscribe(agreed: &publish_subscribe::StaticConfig) -> [Setting; 7]
    ensures { result ≡ publish_subscribe_settings agreed.now }
{
    let default = PublishSubscribe::default();
    settings_of!(agreed, default;
        number max_publishers;
        number max_subscribers;
        number subscriber_max_buffer_size;
        number history_size;
        number subscriber_max_borrowed_samples;
        truth enable_safe_overflow;
        number max_nodes;
    )
}

/// Returns what the nodes of a service of request-response agreed on, except its types.
pub fn of_request_response(agreed: &request_response::StaticConfig) -> [Setting; 10]
    ensures { result ≡ request_response_settings agreed.now }
{
    let default = RequestResponse::default();
    settings_of!(agreed, default;
        truth enable_safe_overflow_for_requests;
        truth enable_safe_overflow_for_responses;
        truth enable_fire_and_forget_requests;
        number max_active_requests_per_client;
        number max_loaned_requests;
        number max_borrowed_responses_per_pending_response;
        number max_response_buffer_size;
        number max_servers;
        number max_clients;
        number max_nodes;
    )
}
