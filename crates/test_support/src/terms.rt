//! What a description has that isn't the default, as the terms of a line.

use crate::settings::{
    EVENTS, MESSAGES, REQUESTS, flags_of_requests, numbers_of_events, numbers_of_messages,
    numbers_of_requests,
};
use iceoryx2_access::storage::{ServiceNameHasher, Sha1Hasher};
use iceoryx2_description::description::{MessagingPattern, StaticConfig};
use iceoryx2_description::{event, publish_subscribe, request_response};
use iceoryx2_types::types::{TypeDetail, TypeVariant};
use std::alloc::{AllocError, Global};

/// A type's variant, name, size and alignment.
type Facts = (&'static str, &'static str, u64, u64);

/// What types are that no term names.
const USER_HEADER: Facts = ("fixed", "CustomHeaderMarker", 0, 1);

const PAYLOAD: Facts = ("dynamic", "CustomPayloadMarker", 1, 1);

const EVENT_NUMBERS: [&str; 4] = [
    "max_notifiers",
    "max_listeners",
    "event_id_max_value",
    "max_nodes",
];

const MESSAGE_NUMBERS: [&str; 6] = [
    "max_publishers",
    "max_subscribers",
    "subscriber_max_buffer_size",
    "history_size",
    "subscriber_max_borrowed_samples",
    "max_nodes",
];

const REQUEST_NUMBERS: [&str; 7] = [
    "max_active_requests_per_client",
    "max_loaned_requests",
    "max_borrowed_responses_per_pending_response",
    "max_response_buffer_size",
    "max_servers",
    "max_clients",
    "max_nodes",
];

const REQUEST_FLAGS: [&str; 3] = [
    "enable_safe_overflow_for_requests",
    "enable_safe_overflow_for_responses",
    "enable_fire_and_forget_requests",
];

fn write_numbers(
    names: &[&str],
    (agreed, default): (&[u64], &[u64]),
    text: &mut String,
) -> Result<(), AllocError> {
    for ((name, agreed), default) in names.iter().zip(agreed).zip(default) {
        if agreed != default {
            write!(text, " {name}={agreed}")?;
        }
    }
    Ok(())
}

/// Truth values whose default is true.
fn write_flags(names: &[&str], agreed: &[bool], text: &mut String) -> Result<(), AllocError> {
    for (name, agreed) in names.iter().zip(agreed) {
        if !*agreed {
            write!(text, " {name}=false")?;
        }
    }
    Ok(())
}

/// Events that are sent, of which the default is none, and a deadline with the time at which its service was created.
fn write_events(agreed: &event::StaticConfig, text: &mut String) -> Result<(), AllocError> {
    write_numbers(&EVENT_NUMBERS, (&numbers_of_events(agreed), &EVENTS), text)?;
    let sent = [
        ("notifier_created_event", agreed.notifier_created_event),
        ("notifier_dropped_event", agreed.notifier_dropped_event),
        ("notifier_dead_event", agreed.notifier_dead_event),
    ];
    for (name, id) in sent {
        if let Some(id) = id {
            let id = id.as_value();
            write!(text, " {name}={id}")?;
        }
    }
    let Some(deadline) = agreed.deadline else {
        return Ok(());
    };
    let (value, time) = (deadline.value, deadline.creation_time);
    let (seconds, nanoseconds) = (value.seconds(), value.nanoseconds());
    write!(text, " deadline={seconds},{nanoseconds}")?;
    let (seconds, nanoseconds) = (time.seconds(), time.nanoseconds());
    write!(text, " now={seconds},{nanoseconds}")
}

/// The word of a variant.
pub fn variant_word(detail: &TypeDetail) -> &'static str {
    match detail.variant() {
        TypeVariant::FixedSize => "fixed",
        TypeVariant::Dynamic => "dynamic",
    }
}

/// A type that isn't the one that no term names.
fn write_type(
    name: &str,
    detail: &TypeDetail,
    default: Facts,
    text: &mut String,
) -> Result<(), AllocError> {
    let (variant, called) = (variant_word(detail), detail.type_name());
    let (size, alignment) = (detail.size(), detail.alignment());
    if (variant, called, size, alignment) == default {
        return Ok(());
    }
    write!(text, " {name}={variant},{called},{size},{alignment}")
}

fn write_samples(
    agreed: &publish_subscribe::StaticConfig,
    text: &mut String,
) -> Result<(), AllocError> {
    write_numbers(
        &MESSAGE_NUMBERS,
        (&numbers_of_messages(agreed), &MESSAGES),
        text,
    )?;
    write_flags(
        &["enable_safe_overflow"],
        &[agreed.enable_safe_overflow],
        text,
    )?;
    let message = &agreed.message_type_details;
    write_type("payload", &message.payload, PAYLOAD, text)?;
    write_type("user_header", &message.user_header, USER_HEADER, text)
}

fn write_requests(
    agreed: &request_response::StaticConfig,
    text: &mut String,
) -> Result<(), AllocError> {
    write_flags(&REQUEST_FLAGS, &flags_of_requests(agreed), text)?;
    write_numbers(
        &REQUEST_NUMBERS,
        (&numbers_of_requests(agreed), &REQUESTS),
        text,
    )?;
    let request = &agreed.request_message_type_details;
    write_type("request_payload", &request.payload, PAYLOAD, text)?;
    write_type("request_header", &request.user_header, USER_HEADER, text)?;
    let response = &agreed.response_message_type_details;
    write_type("response_payload", &response.payload, PAYLOAD, text)?;
    write_type("response_header", &response.user_header, USER_HEADER, text)
}

/// Writes what a description has that isn't the default, each behind a space.
fn write_terms(description: &StaticConfig, text: &mut String) -> Result<(), AllocError> {
    match description.messaging_pattern() {
        MessagingPattern::Event(agreed) => write_events(agreed, text)?,
        MessagingPattern::PublishSubscribe(agreed) => write_samples(agreed, text)?,
        MessagingPattern::RequestResponse(agreed) => write_requests(agreed, text)?,
    }
    for pair in description.attributes().pairs() {
        let (key, value) = (pair.key(), pair.value());
        write!(text, " attribute={key}:{value}")?;
    }
    Ok(())
}

/// Writes a service `PATTERN NAME [by NODE] [hash=DIGITS] [TERM ..]`. The hash is told where it isn't that of the pattern and
/// the name.
pub fn write_service(
    alloc: Global,
    description: &StaticConfig,
    text: &mut String,
) -> Result<(), AllocError> {
    let (pattern, prefix) = match description.messaging_pattern() {
        MessagingPattern::Event(_) => ("event", b'e'),
        MessagingPattern::PublishSubscribe(_) => ("pubsub", b'p'),
        MessagingPattern::RequestResponse(_) => ("rr", b'r'),
    };
    let name = description.name();
    write!(text, "{pattern} {name}")?;
    if let Some(creator) = description.creator() {
        write!(text, " by {creator}")?;
    }
    let hash = description.service_hash();
    if *hash != Sha1Hasher::hash(prefix, name) {
        let digits = hash.to_text(alloc)?;
        write!(text, " hash={digits}")?;
    }
    write_terms(description, text)
}

/// Writes what a factory has, `number=0 NAME [creator=N] [TERM ..]`.
pub fn write_factory(
    number: u64,
    description: &StaticConfig,
    text: &mut String,
) -> Result<(), AllocError> {
    let name = description.name();
    write!(text, "number={number} {name}")?;
    if let Some(creator) = description.creator() {
        write!(text, " creator={creator}")?;
    }
    write_terms(description, text)
}
