//! What a refused open required, and what the service offers.

ghost use Rattle.std.specs.Prelude.{◌≡◌, ◌++◌, ℕ, List, OnOk, Option, string_bytes};
ghost use Rattle.iceoryx2_description.specs.declared.config.PublishSubscribe.{PublishSubscribe as SampleDefaults};
ghost use Rattle.iceoryx2_description.specs.declared.config.RequestResponse.{RequestResponse as RequestDefaults};
ghost use Rattle.iceoryx2_publish_subscribe_builder.specs.Builder as sample;
ghost use Rattle.iceoryx2_publish_subscribe_builder.specs.declared.publish_subscribe.setting.PublishSubscribeSetter.{PublishSubscribeSetter};
ghost use Rattle.iceoryx2_request_response_builder.specs.Builder as request;
ghost use Rattle.iceoryx2_request_response_builder.specs.declared.request_response.setting.RequestResponseSetter.{RequestResponseSetter};
ghost use Rattle.iceoryx2_session.specs.PublishSubscribe.{named_message};
ghost use Rattle.iceoryx2_session.specs.RequestResponse.{named_messages};
ghost use Rattle.iceoryx2_session.specs.Setters.{with_settings};
ghost use Rattle.explain_serve.specs.Messages.{asked_message, asked_messages};
ghost use Rattle.explain_serve.specs.Offers.{offer_lines, setting_lines};
ghost use Rattle.explain_serve.specs.Settings.{Compared, is_of_name, is_required, is_set_again};
ghost use Rattle.explain_serve.specs.Settings.{required_lines, setting_line, value_line};
ghost use Rattle.iceoryx2_event_builder.specs.Event.{deadline_value};
ghost use Rattle.iceoryx2_errors.specs.Reasons.{reason_of};

/// What a setter requires, beside what is there, by a table of each pattern: for each setting its kind, its setter, its
/// name and the reason. The setters of types are no settings.
macro_rules! comparison_of {
    ($setter:expr, $existing:ident, $setters:ident;
     settings { $($kind:ident $variant:ident $name:ident $reason:ident;)* }
     types { $($typed:ident)* }) => {
        match $setter {
            $($setters::$variant(value) => Some(Comparison {
                name: stringify!($name),
                reason: Reason::$reason,
                required: Value::$kind(*value),
                offered: offered!($kind $existing.$name),
            }),)*
            $($setters::$typed(_) => None,)*
        }
    };
}

/// The value of a setting that is offered. The length of a deadline counts.
macro_rules! offered {
    (Time $deadline:expr) => {
        Value::Time(length_of($deadline))
    };
    ($kind:ident $value:expr) => {
        Value::$kind($value)
    };
}

mod attributes;
mod events;
mod messages;
mod publish_subscribe;
mod request_response;
mod value;

use self::attributes::describe_lacking;
use self::value::Value;
use iceoryx2_builder::command::{Call, Settings};
use iceoryx2_description::description::{MessagingPattern, StaticConfig};
use iceoryx2_description::event::Deadline;
use iceoryx2_description::time::Duration;
use iceoryx2_errors::refusal::{Reason, Refusal};
use std::alloc::AllocError;
use std::marker::Model;

/// Writes what a refused call required, and what the service of this description offers: the settings or attributes
/// that the refusal names, or each part of the messages if it names types. It writes nothing if it names none of these,
/// or if the service has another pattern. `AllocError` if the text or the name of a type finds no memory.
pub fn describe_offer(
    call: &Call,
    refusal: Refusal,
    existing: &StaticConfig,
    text: &mut String,
) -> Result<(), AllocError>
    ensures { OnOk result (string_bytes text.new
        ≡ string_bytes text.old ++ offer_lines call.entry.now refusal existing.now) }
{
    let reason = refusal.reason();
    if reason == Reason::IncompatibleAttributes {
        return describe_lacking(&call.attributes, existing.attributes(), text);
    }
    describe_settings(&call.settings, reason, existing.messaging_pattern(), text)
}

/// Writes what the setters required that the reason names, and what the service offers.
fn describe_settings(
    settings: &Settings,
    reason: Reason,
    existing: &MessagingPattern,
    text: &mut String,
) -> Result<(), AllocError>
    ensures { OnOk result (string_bytes text.new
        ≡ string_bytes text.old ++ setting_lines settings.now reason existing.now) }
{
    match (settings, existing) {
        (Settings::Event(setters), MessagingPattern::Event(there)) => {
            describe_required(reason, setters, there, text)
        }
        (Settings::PublishSubscribe(setters), MessagingPattern::PublishSubscribe(there)) => {
            publish_subscribe::describe_required_of(reason, setters, there, text)
        }
        (Settings::RequestResponse(setters), MessagingPattern::RequestResponse(there)) => {
            request_response::describe_required_of(reason, setters, there, text)
        }
        _ => Ok(()),
    }
}

/// States that the messages whose parts are shown are those that a session's builder asks for after the same setters,
/// for any caller and any configuration.
pub fn messages_of_calls()
    ensures samples { (node : ℕ) (name : List ℕ) (defaults : SampleDefaults) (setters : List PublishSubscribeSetter)
        → named_message (with_settings sample.with_setting (sample.fresh_builder node name defaults) setters)
        ≡ asked_message setters }
    ensures requests { (node : ℕ) (name : List ℕ) (defaults : RequestDefaults) (setters : List RequestResponseSetter)
        → named_messages (with_settings request.with_setting (request.fresh_builder node name defaults) setters)
        ≡ asked_messages setters }
{}

/// A setter beside what there is: the name of the setting, why an open is refused that doesn't find this value, the
/// value that it sets, and the one that is there.
#[derive(Drop)]
pub(crate) struct Comparison {
    name: &'static str,
    reason: Reason,
    required: Value,
    offered: Value,
}

impl Model for Comparison {
    ghost Value = { Compared };

    ghost view = { λ c. record { name = c.name.now; reason = c.reason; required = c.required; offered = c.offered } };
}

/// Returns the length of a deadline, without the time of its creation.
fn length_of(deadline: Option<Deadline>) -> Option<Duration>
    ensures { result ≡ deadline_value deadline }
{
    match deadline {
        None => None,
        Some(deadline) => Some(deadline.value),
    }
}

/// A setter of a pattern's builder, which can be compared with what there is.
pub(crate) trait Compare {
    /// The settings of the pattern's services, with their types.
    type Existing;

    ghost compared: { Self → Self.Existing → Option Compared };

    /// Returns what this setter requires, beside what is there. `None` if it sets only a type.
    fn compare(&self, existing: &Self::Existing) -> Option<Comparison>
        ensures { result ≡ compared self.now existing.now };
}

/// Writes for each setting that the reason names what is required and what is offered. If a setting is set more than
/// once, the last counts. `AllocError` if the text finds no memory.
pub(crate) fn describe_required<S: Compare>(
    reason: Reason,
    setters: &[S],
    existing: &S::Existing,
    text: &mut String,
) -> Result<(), AllocError>
    ensures { OnOk result (string_bytes text.new ≡ string_bytes text.old
        ++ required_lines S.compared existing.now reason setters.now) }
{
    let mut left = setters;
    while let Some((setter, later)) = left.split_first() {
        describe_setter(reason, setter, later, existing, text)?;
        left = later;
    }
    Ok(())
}

/// Writes what a setter requires and what is offered, if the reason names its setting and no later setter sets it
/// again.
fn describe_setter<S: Compare>(
    reason: Reason,
    setter: &S,
    later: &[S],
    existing: &S::Existing,
    text: &mut String,
) -> Result<(), AllocError>
    ensures { let there = S.compared setter.now existing.now in OnOk result (string_bytes text.new
        ≡ string_bytes text.old ++ setting_line S.compared existing.now reason there later.now) }
{
    let Some(comparison) = setter.compare(existing) else {
        return Ok(());
    };
    if is_required(reason, &comparison, later, existing) {
        return describe_values(&comparison, text);
    }
    Ok(())
}

/// Returns whether the reason is that of the setting, and no later setter sets it again.
fn is_required<S: Compare>(
    reason: Reason,
    comparison: &Comparison,
    later: &[S],
    existing: &S::Existing,
) -> bool
    ensures { result ≡ is_required S.compared existing.now reason comparison.now later.now }
{
    comparison.reason == reason && !is_set_again(comparison.name, later, existing)
}

/// Returns whether a later setter sets the setting with this name.
fn is_set_again<S: Compare>(name: &str, later: &[S], existing: &S::Existing) -> bool
    ensures { result ≡ is_set_again S.compared existing.now name.now later.now }
{
    for other in later {
        if is_of_name(name, other.compare(existing)) {
            return true;
        }
    }
    false
}

/// Returns whether it compares the setting with this name.
fn is_of_name(name: &str, comparison: Option<Comparison>) -> bool
    ensures { result ≡ is_of_name name.now comparison }
{
    match comparison {
        Some(comparison) => comparison.name == name,
        None => false,
    }
}

/// Writes what is required for a setting and what is offered.
fn describe_values(comparison: &Comparison, text: &mut String) -> Result<(), AllocError>
    ensures { OnOk result (string_bytes text.new ≡ string_bytes text.old ++ value_line comparison.now) }
{
    let name = comparison.name;
    let required = comparison.required;
    let offered = comparison.offered;
    writeln!(text, "  required {name} {required}, offered {offered}")
}
