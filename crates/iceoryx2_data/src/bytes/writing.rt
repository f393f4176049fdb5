//! Writes the byte form part by part, after the bytes that were written before.

ghost use Rattle.std.specs.Prelude.{◌≡◌, ◌++◌, OnOk};
ghost use Rattle.std.specs.List.{flat_map};
ghost use Rattle.iceoryx2_description.specs.Description.{IsDescription};
ghost use Rattle.iceoryx2_data.specs.Form as form;

use super::{
    EVENT_BYTE, MAGIC, PUBLISH_SUBSCRIBE_BYTE, REQUEST_RESPONSE_BYTE, VERSION_WITH_CREATOR,
    VERSION_WITHOUT_CREATOR,
};
use crate::parts::writing::{
    put_id, put_message, put_number, put_optional_deadline, put_text, put_truth,
};
use iceoryx2_attribute::attribute::{Attribute, AttributeSet};
use iceoryx2_description::description::{MessagingPattern, StaticConfig};
use iceoryx2_description::{event, publish_subscribe, request_response};
use std::alloc::AllocError;

/// Writes the key, and then the value.
fn put_pair(out: &mut Vec<u8>, pair: &Attribute) -> Result<(), AllocError>
    ensures { OnOk result (out.new.items ≡ out.old.items ++ form.pair pair.now) }
{
    put_text(out, pair.key())?;
    put_text(out, pair.value())?;
    Ok(())
}

fn put_pairs(out: &mut Vec<u8>, pairs: &[Attribute]) -> Result<(), AllocError>
    ensures { OnOk result (out.new.items ≡ out.old.items ++ flat_map form.pair pairs.now) }
{
    for pair in pairs {
        put_pair(out, pair)?;
    }
    Ok(())
}

/// Writes the number of attributes, and then each of them.
fn put_attributes(out: &mut Vec<u8>, attributes: &AttributeSet) -> Result<(), AllocError>
    ensures { OnOk result (out.new.items ≡ out.old.items ++ form.attributes attributes.now) }
{
    let pairs = attributes.pairs();
    out.extend_from_slice(&(pairs.len() as u16).to_be_bytes())?;
    put_pairs(out, pairs)?;
    Ok(())
}

/// Writes the pattern's byte, and the settings.
fn put_event(out: &mut Vec<u8>, settings: &event::StaticConfig) -> Result<(), AllocError>
    ensures { OnOk result (out.new.items ≡ out.old.items ++ form.pattern (MessagingPattern.Event settings.now)) }
{
    out.push(EVENT_BYTE)?;
    put_number(out, settings.max_notifiers)?;
    put_number(out, settings.max_listeners)?;
    put_number(out, settings.event_id_max_value)?;
    put_number(out, settings.max_nodes)?;
    put_id(out, settings.notifier_created_event)?;
    put_id(out, settings.notifier_dropped_event)?;
    put_id(out, settings.notifier_dead_event)?;
    put_optional_deadline(out, settings.deadline)?;
    Ok(())
}

/// Writes the pattern's byte, the settings, and the types of a message.
fn put_publish_subscribe(
    out: &mut Vec<u8>,
    settings: &publish_subscribe::StaticConfig,
) -> Result<(), AllocError>
    ensures { OnOk result (out.new.items
        ≡ out.old.items ++ form.pattern (MessagingPattern.PublishSubscribe settings.now)) }
{
    out.push(PUBLISH_SUBSCRIBE_BYTE)?;
    put_number(out, settings.max_publishers)?;
    put_number(out, settings.max_subscribers)?;
    put_number(out, settings.subscriber_max_buffer_size)?;
    put_number(out, settings.history_size)?;
    put_number(out, settings.subscriber_max_borrowed_samples)?;
    put_truth(out, settings.enable_safe_overflow)?;
    put_number(out, settings.max_nodes)?;
    put_message(out, &settings.message_type_details)?;
    Ok(())
}

/// Writes the pattern's byte, the settings, and the types of a request and of a response.
fn put_request_response(
    out: &mut Vec<u8>,
    settings: &request_response::StaticConfig,
) -> Result<(), AllocError>
    ensures { OnOk result (out.new.items
        ≡ out.old.items ++ form.pattern (MessagingPattern.RequestResponse settings.now)) }
{
    out.push(REQUEST_RESPONSE_BYTE)?;
    put_truth(out, settings.enable_safe_overflow_for_requests)?;
    put_truth(out, settings.enable_safe_overflow_for_responses)?;
    put_truth(out, settings.enable_fire_and_forget_requests)?;
    put_number(out, settings.max_active_requests_per_client)?;
    put_number(out, settings.max_loaned_requests)?;
    put_number(out, settings.max_borrowed_responses_per_pending_response)?;
    put_number(out, settings.max_response_buffer_size)?;
    put_number(out, settings.max_servers)?;
    put_number(out, settings.max_clients)?;
    put_number(out, settings.max_nodes)?;
    put_message(out, &settings.request_message_type_details)?;
    put_message(out, &settings.response_message_type_details)?;
    Ok(())
}

fn put_pattern(out: &mut Vec<u8>, pattern: &MessagingPattern) -> Result<(), AllocError>
    ensures { OnOk result (out.new.items ≡ out.old.items ++ form.pattern pattern.now) }
{
    match pattern {
        MessagingPattern::Event(settings) => put_event(out, settings),
        MessagingPattern::PublishSubscribe(settings) => put_publish_subscribe(out, settings),
        MessagingPattern::RequestResponse(settings) => put_request_response(out, settings),
    }
}

/// Writes the version, and after it the creator's id if there is one.
fn put_versioned(out: &mut Vec<u8>, creator: Option<u64>) -> Result<(), AllocError>
    ensures { OnOk result (out.new.items ≡ out.old.items ++ form.versioned creator) }
{
    match creator {
        None => out.push(VERSION_WITHOUT_CREATOR)?,
        Some(creator) => {
            out.push(VERSION_WITH_CREATOR)?;
            put_number(out, creator)?;
        }
    }
    Ok(())
}

/// Writes the whole byte form, after the bytes that were written before.
pub fn put_description(out: &mut Vec<u8>, description: &StaticConfig) -> Result<(), AllocError>
    ensures form { OnOk result (out.new.items ≡ out.old.items ++ form.description description.now) }
    ensures limits { OnOk result (IsDescription description.now) }
{
    out.extend_from_slice(&MAGIC)?;
    put_versioned(out, description.creator())?;
    out.extend_from_slice(description.service_hash().as_bytes())?;
    put_text(out, description.name().as_str())?;
    put_attributes(out, description.attributes())?;
    put_pattern(out, description.messaging_pattern())?;
    Ok(())
}
