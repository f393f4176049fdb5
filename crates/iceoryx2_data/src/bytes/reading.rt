//! Reads the byte form from left to right. Each function returns the part's value and the bytes after
//! the part.

ghost use Rattle.std.specs.Prelude.{◌≡◌, ◌<◌, ◌≤◌, None, length, OnOk};
ghost use Rattle.iceoryx2_attribute.specs.Attributes.{AreAttributes};
ghost use Rattle.iceoryx2_description.specs.declared.description.MessagingPattern.TheVariants as pattern;
ghost use Rattle.iceoryx2_data.specs.PartReading.{IsReadBy, as_at, bytes_at, text_at};
ghost use Rattle.iceoryx2_data.specs.Reading.{pairs_at, more_at, attributes_at};
ghost use Rattle.iceoryx2_data.specs.Reading.{event_at, publish_subscribe_at, messages_at, request_response_at, pattern_at};
ghost use Rattle.iceoryx2_data.specs.Reading.{versioned_at, all_of};

use super::{
    DecodeError, EVENT_BYTE, MAGIC, PUBLISH_SUBSCRIBE_BYTE, REQUEST_RESPONSE_BYTE,
    VERSION_WITH_CREATOR, VERSION_WITHOUT_CREATOR,
};
use crate::parts::reading::{
    bytes_of, id_of, literal_of, message_of, optional_deadline_of, text_of, truth_of, u16_at,
    u64_at,
};
use iceoryx2_attribute::attribute::{
    AttributeSet, MAX_ATTRIBUTES, MAX_KEY_LENGTH, MAX_VALUE_LENGTH, MIN_KEY_LENGTH, PushError,
};
use iceoryx2_description::description::{
    HASH_LENGTH, MAX_NAME_LENGTH, MIN_NAME_LENGTH, MessagingPattern, ServiceHash, ServiceName,
    StaticConfig,
};
use iceoryx2_description::{event, publish_subscribe, request_response};
use iceoryx2_types::types::MessageTypeDetails;
use std::alloc::Global;

// A function that is called pays at its entry for each value that it may hold. So the patterns are read by
// functions that stay their own.
#[inline(never)]
#[tactic(auto, unfolding(crate::specs::Reading::event_at))]
fn event_of(bytes: &[u8]) -> Result<(MessagingPattern, &[u8]), DecodeError>
    ensures { IsReadBy (λ x. (x.0, x.1.now)) result (as_at pattern.Event event_at bytes.now) }
{
    let (max_notifiers, rest) = u64_at(bytes)?;
    let (max_listeners, rest) = u64_at(rest)?;
    let (event_id_max_value, rest) = u64_at(rest)?;
    let (max_nodes, rest) = u64_at(rest)?;
    let (notifier_created_event, rest) = match id_of(rest) {
        Err(error) => return Err(error),
        Ok(found) => found,
    };
    let (notifier_dropped_event, rest) = match id_of(rest) {
        Err(error) => return Err(error),
        Ok(found) => found,
    };
    let (notifier_dead_event, rest) = match id_of(rest) {
        Err(error) => return Err(error),
        Ok(found) => found,
    };
    let (deadline, rest) = match optional_deadline_of(rest) {
        Err(error) => return Err(error),
        Ok(found) => found,
    };
    Ok((
        MessagingPattern::Event(event::StaticConfig {
            max_notifiers,
            max_listeners,
            event_id_max_value,
            max_nodes,
            notifier_created_event,
            notifier_dropped_event,
            notifier_dead_event,
            deadline,
        }),
        rest,
    ))
}

#[inline(never)]
#[tactic(auto, unfolding(crate::specs::Reading::publish_subscribe_at))]
fn publish_subscribe_of(
    alloc: Global,
    bytes: &[u8],
) -> Result<(MessagingPattern, &[u8]), DecodeError>
    ensures { IsReadBy (λ x. (x.0, x.1.now)) result (as_at pattern.PublishSubscribe publish_subscribe_at bytes.now) }
{
    let (max_publishers, rest) = u64_at(bytes)?;
    let (max_subscribers, rest) = u64_at(rest)?;
    let (subscriber_max_buffer_size, rest) = u64_at(rest)?;
    let (history_size, rest) = u64_at(rest)?;
    let (subscriber_max_borrowed_samples, rest) = u64_at(rest)?;
    let (enable_safe_overflow, rest) = truth_of(rest)?;
    let (max_nodes, rest) = u64_at(rest)?;
    let (message_type_details, rest) = message_of(alloc, rest)?;
    Ok((
        MessagingPattern::PublishSubscribe(publish_subscribe::StaticConfig {
            max_publishers,
            max_subscribers,
            subscriber_max_buffer_size,
            history_size,
            subscriber_max_borrowed_samples,
            enable_safe_overflow,
            max_nodes,
            message_type_details,
        }),
        rest,
    ))
}

/// Reads the messages of a service's requests and of its responses.
#[tactic(auto, unfolding(crate::specs::Reading::messages_at))]
fn messages_of(
    alloc: Global,
    bytes: &[u8],
) -> Result<((MessageTypeDetails, MessageTypeDetails), &[u8]), DecodeError>
    ensures { IsReadBy (λ x. (x.0, x.1.now)) result (messages_at bytes.now) }
{
    let (request, rest) = message_of(alloc, bytes)?;
    match message_of(alloc, rest) {
        Err(error) => Err(error),
        Ok((response, rest)) => Ok(((request, response), rest)),
    }
}

#[inline(never)]
#[tactic(auto, unfolding(crate::specs::Reading::request_response_at))]
fn request_response_of(
    alloc: Global,
    bytes: &[u8],
) -> Result<(MessagingPattern, &[u8]), DecodeError>
    ensures { IsReadBy (λ x. (x.0, x.1.now)) result (as_at pattern.RequestResponse request_response_at bytes.now) }
{
    let (enable_safe_overflow_for_requests, rest) = truth_of(bytes)?;
    let (enable_safe_overflow_for_responses, rest) = truth_of(rest)?;
    let (enable_fire_and_forget_requests, rest) = truth_of(rest)?;
    let (max_active_requests_per_client, rest) = u64_at(rest)?;
    let (max_loaned_requests, rest) = u64_at(rest)?;
    let (max_borrowed_responses_per_pending_response, rest) = u64_at(rest)?;
    let (max_response_buffer_size, rest) = u64_at(rest)?;
    let (max_servers, rest) = u64_at(rest)?;
    let (max_clients, rest) = u64_at(rest)?;
    let (max_nodes, rest) = u64_at(rest)?;
    let (messages, rest) = messages_of(alloc, rest)?;
    let (request_message_type_details, response_message_type_details) = messages;
    Ok((
        MessagingPattern::RequestResponse(request_response::StaticConfig {
            enable_safe_overflow_for_requests,
            enable_safe_overflow_for_responses,
            enable_fire_and_forget_requests,
            max_active_requests_per_client,
            max_loaned_requests,
            max_borrowed_responses_per_pending_response,
            max_response_buffer_size,
            max_servers,
            max_clients,
            max_nodes,
            request_message_type_details,
            response_message_type_details,
        }),
        rest,
    ))
}

#[tactic(auto, unfolding(crate::specs::Reading::pattern_at))]
fn pattern_of(alloc: Global, bytes: &[u8]) -> Result<(MessagingPattern, &[u8]), DecodeError>
    ensures { IsReadBy (λ x. (x.0, x.1.now)) result (pattern_at bytes.now) }
{
    match bytes {
        [] => Err(DecodeError::Malformed),
        [EVENT_BYTE, rest @ ..] => event_of(rest),
        [PUBLISH_SUBSCRIBE_BYTE, rest @ ..] => publish_subscribe_of(alloc, rest),
        [REQUEST_RESPONSE_BYTE, rest @ ..] => request_response_of(alloc, rest),
        [_, ..] => Err(DecodeError::Malformed),
    }
}

fn hash_of(bytes: &[u8]) -> Result<(ServiceHash, &[u8]), DecodeError>
    ensures { IsReadBy (λ x. (x.0.0, x.1.now)) result (bytes_at HASH_LENGTH bytes.now) }
{
    let (front, rest) = bytes_of(HASH_LENGTH, bytes)?;
    let mut hash = [0; HASH_LENGTH];
    hash.copy_from_slice(front);
    Ok((ServiceHash(hash), rest))
}

fn name_of(alloc: Global, bytes: &[u8]) -> Result<(ServiceName, &[u8]), DecodeError>
    ensures { IsReadBy (λ x. (x.0, x.1.now)) result (text_at MIN_NAME_LENGTH MAX_NAME_LENGTH bytes.now) }
{
    let (text, rest) = text_of(alloc, MIN_NAME_LENGTH, MAX_NAME_LENGTH, bytes)?;
    Ok((ServiceName::from_text(text), rest))
}

/// Reads a pair and puts it after the others. `Malformed` also if they would then not ascend.
#[tactic(auto, unfolding(crate::specs::Reading::pair_at, crate::specs::Reading::more_at))]
fn push_pair_of<'a>(
    alloc: Global,
    pairs: &mut AttributeSet,
    bytes: &'a [u8],
) -> Result<&'a [u8], DecodeError>
    requires room { length pairs.old < MAX_ATTRIBUTES }
    requires limits { AreAttributes pairs.old }
    ensures pushed { IsReadBy (λ rest. (pairs.new, rest.now)) result (more_at pairs.old bytes.now) }
    ensures still { OnOk result (AreAttributes pairs.new) }
{
    let (key, rest) = text_of(alloc, MIN_KEY_LENGTH, MAX_KEY_LENGTH, bytes)?;
    let (value, rest) = text_of(alloc, 0, MAX_VALUE_LENGTH, rest)?;
    match pairs.push_ascending(key, value) {
        Ok(()) => Ok(rest),
        Err(PushError::Refused) => Err(DecodeError::Malformed),
        Err(PushError::OutOfMemory) => Err(DecodeError::OutOfMemory),
    }
}

/// Reads `count` pairs, and puts each after those before it.
fn pairs_of(alloc: Global, count: usize, bytes: &[u8]) -> Result<(AttributeSet, &[u8]), DecodeError>
    requires { count ≤ MAX_ATTRIBUTES }
    ensures { IsReadBy (λ x. (x.0, x.1.now)) result (pairs_at count bytes.now) }
{
    let mut pairs = AttributeSet::new(alloc);
    let mut rest = bytes;
    for _ in 0..count {
        rest = push_pair_of(alloc, &mut pairs, rest)?;
    }
    Ok((pairs, rest))
}

#[tactic(auto, unfolding(crate::specs::PartReading::counted_at, crate::specs::Reading::attributes_at))]
fn attributes_of(alloc: Global, bytes: &[u8]) -> Result<(AttributeSet, &[u8]), DecodeError>
    ensures { IsReadBy (λ x. (x.0, x.1.now)) result (attributes_at bytes.now) }
{
    let (count, rest) = u16_at(bytes)?;
    let count = count as usize;
    if MAX_ATTRIBUTES < count {
        return Err(DecodeError::Malformed);
    }
    pairs_of(alloc, count, rest)
}

/// Reads the version, and the creator's id if the version is the one with a creator.
#[tactic(auto, unfolding(crate::specs::Reading::versioned_at))]
fn versioned_of(bytes: &[u8]) -> Result<(Option<u64>, &[u8]), DecodeError>
    ensures { IsReadBy (λ x. (x.0, x.1.now)) result (versioned_at bytes.now) }
{
    match bytes {
        [] => Err(DecodeError::Malformed),
        [VERSION_WITHOUT_CREATOR, rest @ ..] => Ok((None, rest)),
        [VERSION_WITH_CREATOR, rest @ ..] => {
            let (creator, rest) = u64_at(rest)?;
            Ok((Some(creator), rest))
        }
        [_, ..] => Err(DecodeError::Malformed),
    }
}

/// Returns the description that all of the bytes together are.
#[tactic(auto, unfolding(crate::specs::Reading::description_at, crate::specs::Reading::all_of))]
pub fn all(alloc: Global, bytes: &[u8]) -> Result<StaticConfig, DecodeError>
    ensures { IsReadBy (λ d. d) result (all_of bytes.now) }
{
    let rest = literal_of(&MAGIC, bytes)?;
    let (creator, rest) = versioned_of(rest)?;
    let (hash, rest) = hash_of(rest)?;
    let (name, rest) = name_of(alloc, rest)?;
    let (attributes, rest) = attributes_of(alloc, rest)?;
    let (pattern, rest) = pattern_of(alloc, rest)?;
    if !rest.is_empty() {
        return Err(DecodeError::Malformed);
    }
    let description = StaticConfig::new(hash, name, attributes, pattern);
    let Some(creator) = creator else {
        return Ok(description);
    };
    Ok(description.with_creator(creator))
}
