//! Counts the bytes of a form, so that the form's memory is asked for once. A wrong number would cost
//! time or memory but change no form, so the number is only tested.

use iceoryx2_attribute::attribute::AttributeSet;
use iceoryx2_description::description::{MessagingPattern, StaticConfig};
use iceoryx2_description::event::{self, Deadline, EventId};
use iceoryx2_types::types::{MessageTypeDetails, TypeDetail};

/// Returns the length of a version byte or a flag, with the value after it if there is one.
fn optional<T: Copy>(value: Option<T>, length: usize) -> usize {
    match value {
        None => 1,
        Some(_) => length.saturating_add(1),
    }
}

/// Returns the length of the attributes: the number of pairs, and keys and values, each after its
/// length.
fn attributes(attributes: &AttributeSet) -> usize {
    let mut sum: usize = 2;
    for pair in attributes.pairs() {
        let texts = pair.key().len().saturating_add(pair.value().len());
        sum = sum.saturating_add(texts.saturating_add(4));
    }
    sum
}

/// Returns the length of a type's details: variant, size, alignment, and the name after its length.
fn detail(detail: &TypeDetail) -> usize {
    detail.type_name().len().saturating_add(19)
}

fn message(message: &MessageTypeDetails) -> usize {
    detail(&message.header)
        .saturating_add(detail(&message.user_header))
        .saturating_add(detail(&message.payload))
}

/// Returns the length of the settings of events: four numbers, three ids and a deadline.
fn event(settings: &event::StaticConfig) -> usize {
    optional::<Deadline>(settings.deadline, 24)
        .saturating_add(optional::<EventId>(settings.notifier_created_event, 8))
        .saturating_add(optional::<EventId>(settings.notifier_dropped_event, 8))
        .saturating_add(optional::<EventId>(settings.notifier_dead_event, 8))
        .saturating_add(32)
}

/// Returns the length of a pattern's settings. Publish-subscribe has six numbers and a byte, and
/// request-response has seven numbers and three bytes. Both also have their types.
fn pattern(pattern: &MessagingPattern) -> usize {
    match pattern {
        MessagingPattern::Event(settings) => event(settings),
        MessagingPattern::PublishSubscribe(settings) => {
            message(&settings.message_type_details).saturating_add(49)
        }
        MessagingPattern::RequestResponse(settings) => {
            message(&settings.request_message_type_details)
                .saturating_add(message(&settings.response_message_type_details))
                .saturating_add(59)
        }
    }
}

/// Returns the length of the description's byte form. Besides the parts that are counted one by one,
/// the form has 4 bytes of the magic, 20 of the hash, 2 of the name's length, and the pattern's byte.
pub fn length_of(description: &StaticConfig) -> usize {
    optional::<u64>(description.creator(), 8)
        .saturating_add(description.name().as_str().len())
        .saturating_add(attributes(description.attributes()))
        .saturating_add(pattern(description.messaging_pattern()))
        .saturating_add(27)
}
