//! All that is known of a service as JSON.

ghost use Rattle.std.specs.Prelude.{◌≡◌, ◌++◌, IfOk, OnOk, string_bytes};
ghost use Rattle.serde_json.specs.Data.{no_members, object};
ghost use Rattle.serde_json.specs.View.{view};
ghost use Rattle.wulameron_view.specs.Data.{array_of, attribute_data, deadline_data, detail_data, json_line};
ghost use Rattle.wulameron_view.specs.Data.{message_data, request_types, sample_types, setting_data, show_data};
ghost use Rattle.wulameron_view.specs.Data.{span_data, types_data, value_data, with_settings};
ghost use Rattle.wulameron_view.specs.Settings.{settings_of};
ghost use Rattle.wulameron_view.specs.ShowTexts.{variant_text};

use crate::json::{Leaf, leaves, service_value, write_value};
use crate::services::Service;
use crate::settings::{
    self as agreed, Setting, of_events, of_publish_subscribe, of_request_response,
};
use iceoryx2_attribute::attribute::Attribute;
use iceoryx2_description::description::MessagingPattern;
use iceoryx2_description::event::Deadline;
use iceoryx2_description::request_response::StaticConfig;
use iceoryx2_description::time::{Duration, Time};
use iceoryx2_monitoring::state::NodeStatus;
use iceoryx2_types::types::{MessageTypeDetails, TypeDetail, TypeVariant};
use serde_json::{Map, Value, put};
use std::alloc::{AllocError, Global};

/// Writes an object with what `show_text` writes, as one line without a space; docs/CLI.md has the keys. `AllocError`
/// if there is no memory.
pub fn show_json(
    states: &[NodeStatus],
    service: &Service,
    text: &mut String,
) -> Result<(), AllocError>
    ensures { OnOk result (string_bytes text.new
        ≡ string_bytes text.old ++ json_line (show_data states.now service.now)) }
{
    let value = show_value(*text.allocator(), states, service)?;
    write_value(&value, text)
}

/// Returns the object.
fn show_value(alloc: Global, states: &[NodeStatus], service: &Service) -> Result<Value, AllocError>
    ensures { IfOk result (λ v. view v ≡ show_data states.now service.now) }
{
    let pattern = service.description.messaging_pattern();
    let mut members = Map::new(alloc);
    put(
        &mut members,
        alloc,
        "attributes",
        attributes_value(alloc, service.description.attributes().pairs())?,
    )?;
    put(
        &mut members,
        alloc,
        "service",
        service_value(alloc, states, service)?,
    )?;
    put(
        &mut members,
        alloc,
        "settings",
        settings_value(alloc, pattern)?,
    )?;
    put(&mut members, alloc, "types", types_value(alloc, pattern)?)?;
    Ok(Value::Object(members))
}

/// Returns the attributes in order.
fn attributes_value(alloc: Global, pairs: &[Attribute]) -> Result<Value, AllocError>
    ensures { IfOk result (λ v. view v ≡ array_of attribute_data pairs.now) }
{
    let mut values = Vec::new(alloc);
    for pair in pairs {
        values.push(attribute_value(alloc, pair)?)?;
    }
    Ok(Value::Array(values))
}

fn attribute_value(alloc: Global, pair: &Attribute) -> Result<Value, AllocError>
    ensures { IfOk result (λ v. view v ≡ attribute_data pair.now) }
{
    let members = leaves(
        alloc,
        &[
            ("key", Leaf::Text(pair.key())),
            ("value", Leaf::Text(pair.value())),
        ],
    )?;
    Ok(Value::Object(members))
}

/// Returns the settings by their names.
fn settings_value(alloc: Global, pattern: &MessagingPattern) -> Result<Value, AllocError>
    ensures { IfOk result (λ v. view v ≡ object (with_settings (settings_of pattern.now) no_members)) }
{
    match pattern {
        MessagingPattern::Event(agreed) => settings_object(alloc, &of_events(agreed)),
        MessagingPattern::PublishSubscribe(agreed) => {
            settings_object(alloc, &of_publish_subscribe(agreed))
        }
        MessagingPattern::RequestResponse(agreed) => {
            settings_object(alloc, &of_request_response(agreed))
        }
    }
}

#[tactic(auto, using(crate::proofs::Floats::next_setting))]
fn settings_object(alloc: Global, settings: &[Setting]) -> Result<Value, AllocError>
    ensures { IfOk result (λ v. view v ≡ object (with_settings settings.now no_members)) }
{
    let mut members = Map::new(alloc);
    for setting in settings {
        put(
            &mut members,
            alloc,
            setting.name(),
            setting_value(alloc, setting)?,
        )?;
    }
    Ok(Value::Object(members))
}

fn setting_value(alloc: Global, setting: &Setting) -> Result<Value, AllocError>
    ensures { IfOk result (λ v. view v ≡ setting_data setting.now) }
{
    let mut members = leaves(alloc, &[("is_default", Leaf::Truth(!setting.differs()))])?;
    put(
        &mut members,
        alloc,
        "value",
        agreed_value(alloc, setting.value())?,
    )?;
    Ok(Value::Object(members))
}

/// Returns what was agreed.
fn agreed_value(alloc: Global, value: agreed::Value) -> Result<Value, AllocError>
    ensures { IfOk result (λ v. view v ≡ value_data value) }
{
    match value {
        agreed::Value::Number(number) => Ok(Value::from(number)),
        agreed::Value::Truth(truth) => Ok(Value::Bool(truth)),
        agreed::Value::Event(None) | agreed::Value::Deadline(None) => Ok(Value::Null),
        agreed::Value::Event(Some(id)) => Ok(Value::from(id.as_value())),
        agreed::Value::Deadline(Some(deadline)) => deadline_value(alloc, &deadline),
    }
}

fn deadline_value(alloc: Global, deadline: &Deadline) -> Result<Value, AllocError>
    ensures { IfOk result (λ v. view v ≡ deadline_data deadline.now) }
{
    let mut members = Map::new(alloc);
    put(
        &mut members,
        alloc,
        "creation_time",
        time_value(alloc, &deadline.creation_time)?,
    )?;
    put(
        &mut members,
        alloc,
        "length",
        duration_value(alloc, &deadline.value)?,
    )?;
    Ok(Value::Object(members))
}

fn duration_value(alloc: Global, length: &Duration) -> Result<Value, AllocError>
    ensures { IfOk result (λ v. view v ≡ span_data length.now) }
{
    span_value(alloc, length.seconds(), length.nanoseconds())
}

fn time_value(alloc: Global, time: &Time) -> Result<Value, AllocError>
    ensures { IfOk result (λ v. view v ≡ span_data time.now) }
{
    span_value(alloc, time.seconds(), time.nanoseconds())
}

fn span_value(alloc: Global, seconds: u64, nanoseconds: u32) -> Result<Value, AllocError>
    ensures { IfOk result (λ v. view v ≡ span_data (record { seconds = seconds; nanoseconds = nanoseconds })) }
{
    let members = leaves(
        alloc,
        &[
            ("nanoseconds", Leaf::Number(nanoseconds as u64)),
            ("seconds", Leaf::Number(seconds)),
        ],
    )?;
    Ok(Value::Object(members))
}

/// Returns the types by what is sent.
fn types_value(alloc: Global, pattern: &MessagingPattern) -> Result<Value, AllocError>
    ensures { IfOk result (λ v. view v ≡ types_data pattern.now) }
{
    match pattern {
        MessagingPattern::Event(_) => Ok(Value::Object(Map::new(alloc))),
        MessagingPattern::PublishSubscribe(agreed) => {
            sample_types(alloc, &agreed.message_type_details)
        }
        MessagingPattern::RequestResponse(agreed) => request_types(alloc, agreed),
    }
}

/// Returns the type of what publishers send.
fn sample_types(alloc: Global, message: &MessageTypeDetails) -> Result<Value, AllocError>
    ensures { IfOk result (λ v. view v ≡ sample_types message.now) }
{
    let mut members = Map::new(alloc);
    put(
        &mut members,
        alloc,
        "message",
        message_value(alloc, message)?,
    )?;
    Ok(Value::Object(members))
}

/// Returns the types of what clients and servers send.
fn request_types(alloc: Global, agreed: &StaticConfig) -> Result<Value, AllocError>
    ensures { IfOk result (λ v. view v ≡ request_types agreed.now) }
{
    let mut members = Map::new(alloc);
    put(
        &mut members,
        alloc,
        "request",
        message_value(alloc, &agreed.request_message_type_details)?,
    )?;
    put(
        &mut members,
        alloc,
        "response",
        message_value(alloc, &agreed.response_message_type_details)?,
    )?;
    Ok(Value::Object(members))
}

fn message_value(alloc: Global, message: &MessageTypeDetails) -> Result<Value, AllocError>
    ensures { IfOk result (λ v. view v ≡ message_data message.now) }
{
    let mut members = Map::new(alloc);
    put(
        &mut members,
        alloc,
        "header",
        detail_value(alloc, &message.header)?,
    )?;
    put(
        &mut members,
        alloc,
        "payload",
        detail_value(alloc, &message.payload)?,
    )?;
    put(
        &mut members,
        alloc,
        "user_header",
        detail_value(alloc, &message.user_header)?,
    )?;
    Ok(Value::Object(members))
}

fn detail_value(alloc: Global, detail: &TypeDetail) -> Result<Value, AllocError>
    ensures { IfOk result (λ v. view v ≡ detail_data detail.now) }
{
    let members = leaves(
        alloc,
        &[
            ("alignment", Leaf::Number(detail.alignment() as u64)),
            ("kind", Leaf::Word(kind_of(detail.variant()))),
            ("name", Leaf::Text(detail.type_name())),
            ("size", Leaf::Number(detail.size() as u64)),
        ],
    )?;
    Ok(Value::Object(members))
}

/// Returns the word for one value, or for a number of them.
fn kind_of(variant: TypeVariant) -> &'static str
    ensures { result.now ≡ variant_text variant }
{
    match variant {
        TypeVariant::FixedSize => "fixed",
        TypeVariant::Dynamic => "dynamic",
    }
}
