//! What was agreed on, as the line that asks for it.

ghost use Rattle.std.specs.Prelude.{◌≡◌, ◌<◌, ◌^◌, ◌++◌, ◌∷◌, [], ℕ, All, OnOk, codes, decimal};
ghost use Rattle.iceoryx2_description.specs.Description.{Description, IsDescription};
ghost use Rattle.iceoryx2_description.specs.declared.event.StaticConfig.{StaticConfig as EventConfig};
ghost use Rattle.iceoryx2_description.specs.declared.publish_subscribe.StaticConfig.{StaticConfig as SampleConfig};
ghost use Rattle.iceoryx2_description.specs.declared.request_response.StaticConfig.{StaticConfig as RequestConfig};
ghost use Rattle.iceoryx2_event_builder.specs.Event.{deadline_value as value_of};
ghost use Rattle.iceoryx2_builder.specs.Commands.{slot_count};
ghost use Rattle.negotiate_lines.specs.declared.leaf.Form.TheVariants as form;
ghost use Rattle.negotiate_lines.specs.declared.line.Line.{Line};
ghost use Rattle.negotiate_lines.specs.Leaves.{leaf_of};
ghost use Rattle.negotiate_lines.specs.Vocabulary.{Sets, Takes};
ghost use Rattle.negotiate_lines.specs.SettingTerms.{event_vocabulary, publish_subscribe_vocabulary};
ghost use Rattle.negotiate_lines.specs.SettingTerms.{request_response_vocabulary};
ghost use Rattle.negotiate_lines.specs.Lines.{IsLineIn};
ghost use Rattle.escaped_serve.specs.Asking.{IsValue, ValueOf, none_or_text, setter_with, term_text, time_text};
ghost use Rattle.escaped_serve.specs.Asking.{truth_text, type_text, value_text, variant_text};
ghost use Rattle.escaped_serve.specs.Asking.{event_settings, request_settings, rows_asked, rows_to_ask};
ghost use Rattle.escaped_serve.specs.Asking.{sample_settings, setting_words, terms_asking};
ghost use Rattle.escaped_serve.specs.Asking.{pair_word, pair_words, pattern_word};
ghost use Rattle.escaped_serve.specs.Asking.{Appends, Asks, IsAskedAgain, IsPrintable, asking, behind};

use iceoryx2_attribute::attribute::Attribute;
use iceoryx2_description::description::{MessagingPattern, StaticConfig};
use iceoryx2_description::event::{self, Deadline, EventId};
use iceoryx2_description::time::Duration;
use iceoryx2_description::{publish_subscribe, request_response};
use iceoryx2_types::types::{MessageTypeDetails, TypeDetail, TypeVariant};
use itoa::Buffer;
use negotiate_lines::leaf::escape_leaf;
use std::alloc::{AllocError, Global};

/// Appends the line, without its end, that asks for what was agreed on.
///
/// It is a create of this node for this slot. It has each setting of the pattern in the order of its vocabulary, except
/// the alignments, which types tell, and then the attributes in their order. Its leaves are escaped. `AllocError` if
/// the text finds no memory; it may have a part of the line then.
pub fn write_asking(
    node: u64,
    slot: usize,
    description: &StaticConfig,
    text: &mut String,
) -> Result<(), AllocError>
    ensures { OnOk result (Appends text.old text.new (asking node slot description.now)) }
{
    write_pattern(description.messaging_pattern(), text)?;
    write_place(node, slot, text)?;
    write_name(description.name().as_str(), text)?;
    write_settings(description.messaging_pattern(), text)?;
    write_pairs(description.attributes().pairs(), text)
}

/// Appends the term with which calls of the pattern begin.
fn write_pattern(pattern: &MessagingPattern, text: &mut String) -> Result<(), AllocError>
    ensures { OnOk result (Appends text.old text.new (pattern_word pattern.now)) }
{
    match pattern {
        MessagingPattern::Event(_) => text.push_str("event"),
        MessagingPattern::PublishSubscribe(_) => text.push_str("pubsub"),
        MessagingPattern::RequestResponse(_) => text.push_str("rr"),
    }
}

fn write_place(node: u64, slot: usize, text: &mut String) -> Result<(), AllocError>
    ensures { OnOk result
        (Appends text.old text.new (behind (codes "create" ∷ decimal node ∷ decimal slot ∷ []))) }
{
    text.push_str(" create")?;
    write_word(node, text)?;
    write_word(slot as u64, text)
}

/// Appends a blank and a number.
fn write_word(value: u64, text: &mut String) -> Result<(), AllocError>
    ensures { OnOk result (Appends text.old text.new (32 ∷ decimal value)) }
{
    text.push_str(" ")?;
    write_digits(value, text)
}

fn write_name(name: &str, text: &mut String) -> Result<(), AllocError>
    ensures { OnOk result (Appends text.old text.new (32 ∷ leaf_of name.now)) }
{
    text.push_str(" ")?;
    escape_leaf(name.as_bytes(), text)
}

/// Appends the decimal digits of a number.
fn write_digits(value: u64, text: &mut String) -> Result<(), AllocError>
    ensures { OnOk result (Appends text.old text.new (decimal value)) }
{
    let mut buffer = Buffer::new();
    text.push_str(buffer.format(value))
}

// ---- the terms of settings

/// Appends a blank, a name and an equals sign.
fn write_start(name: &str, text: &mut String) -> Result<(), AllocError>
    ensures { OnOk result (Appends text.old text.new (32 ∷ (name.now ++ (61 ∷ [])))) }
{
    text.push_str(" ")?;
    text.push_str(name)?;
    text.push_str("=")
}

fn write_number(name: &str, value: u64, text: &mut String) -> Result<(), AllocError>
    ensures { OnOk result (Appends text.old text.new (32 ∷ term_text name.now (decimal value))) }
{
    write_start(name, text)?;
    write_digits(value, text)
}

fn write_truth(name: &str, value: bool, text: &mut String) -> Result<(), AllocError>
    ensures { OnOk result (Appends text.old text.new (32 ∷ term_text name.now (truth_text value))) }
{
    write_start(name, text)?;
    text.push_str(if value { "true" } else { "false" })
}

fn write_event(name: &str, value: Option<EventId>, text: &mut String) -> Result<(), AllocError>
    ensures { OnOk result (Appends text.old text.new (32 ∷ term_text name.now (none_or_text decimal value))) }
{
    write_start(name, text)?;
    match value {
        None => text.push_str("none"),
        Some(id) => write_digits(id.as_value(), text),
    }
}

fn write_time(name: &str, value: Option<Duration>, text: &mut String) -> Result<(), AllocError>
    ensures { OnOk result (Appends text.old text.new (32 ∷ term_text name.now (none_or_text time_text value))) }
{
    write_start(name, text)?;
    match value {
        None => text.push_str("none"),
        Some(duration) => write_two(duration.seconds(), duration.nanoseconds() as u64, text),
    }
}

/// Appends two numbers with a comma between them.
fn write_two(first: u64, second: u64, text: &mut String) -> Result<(), AllocError>
    ensures { OnOk result (Appends text.old text.new (decimal first ++ (44 ∷ decimal second))) }
{
    write_digits(first, text)?;
    text.push_str(",")?;
    write_digits(second, text)
}

/// Appends the terms of a message's payload and of its user header, by these names.
fn write_types(
    payload: &str,
    user_header: &str,
    types: &MessageTypeDetails,
    text: &mut String,
) -> Result<(), AllocError>
    ensures { OnOk result (Appends text.old text.new (behind (term_text payload.now (type_text types.now.payload)
        ∷ term_text user_header.now (type_text types.now.user_header) ∷ []))) }
{
    write_type(payload, &types.payload, text)?;
    write_type(user_header, &types.user_header, text)
}

fn write_type(name: &str, value: &TypeDetail, text: &mut String) -> Result<(), AllocError>
    ensures { OnOk result (Appends text.old text.new (32 ∷ term_text name.now (type_text value.now))) }
{
    write_start(name, text)?;
    write_variant(value.variant(), text)?;
    text.push_str(",")?;
    escape_leaf(value.type_name().as_bytes(), text)?;
    text.push_str(",")?;
    write_two(value.size(), value.alignment(), text)
}

fn write_variant(variant: TypeVariant, text: &mut String) -> Result<(), AllocError>
    ensures { OnOk result (Appends text.old text.new (variant_text variant)) }
{
    match variant {
        TypeVariant::FixedSize => text.push_str("fixed"),
        TypeVariant::Dynamic => text.push_str("dynamic"),
    }
}

// ---- the settings of each pattern

/// Writes the terms of these settings in order, for each how it is written, and its name.
macro_rules! write_each {
    ($settings:expr, $text:expr; $($write:ident $name:ident;)*) => {
        $($write(stringify!($name), $settings.$name, $text)?;)*
    };
}

/// Appends the terms of the pattern's settings.
fn write_settings(pattern: &MessagingPattern, text: &mut String) -> Result<(), AllocError>
    ensures { OnOk result (Appends text.old text.new (behind (setting_words pattern.now))) }
{
    match pattern {
        MessagingPattern::Event(settings) => write_events(settings, text),
        MessagingPattern::PublishSubscribe(settings) => write_samples(settings, text),
        MessagingPattern::RequestResponse(settings) => write_requests(settings, text),
    }
}

fn write_events(settings: &event::StaticConfig, text: &mut String) -> Result<(), AllocError>
    ensures { OnOk result (Appends text.old text.new (behind (terms_asking (event_settings settings.now)))) }
{
    write_each!(settings, text;
        write_number max_notifiers;
        write_number max_listeners;
        write_number event_id_max_value;
        write_number max_nodes;
        write_event notifier_created_event;
        write_event notifier_dropped_event;
        write_event notifier_dead_event;
    );
    write_time("deadline", deadline_value(settings.deadline), text)
}

/// Returns a deadline's length, without the time of creation.
fn deadline_value(deadline: Option<Deadline>) -> Option<Duration>
    ensures { result ≡ value_of deadline }
{
    match deadline {
        None => None,
        Some(deadline) => Some(deadline.value),
    }
}

fn write_samples(
    settings: &publish_subscribe::StaticConfig,
    text: &mut String,
) -> Result<(), AllocError>
    ensures { OnOk result (Appends text.old text.new (behind (terms_asking (sample_settings settings.now)))) }
{
    write_each!(settings, text;
        write_number max_publishers;
        write_number max_subscribers;
        write_number subscriber_max_buffer_size;
        write_number history_size;
        write_number subscriber_max_borrowed_samples;
        write_truth enable_safe_overflow;
        write_number max_nodes;
    );
    write_types(
        "payload",
        "user_header",
        &settings.message_type_details,
        text,
    )
}

fn write_requests(
    settings: &request_response::StaticConfig,
    text: &mut String,
) -> Result<(), AllocError>
    ensures { OnOk result (Appends text.old text.new (behind (terms_asking (request_settings settings.now)))) }
{
    write_each!(settings, text;
        write_truth enable_safe_overflow_for_requests;
        write_truth enable_safe_overflow_for_responses;
        write_truth enable_fire_and_forget_requests;
        write_number max_active_requests_per_client;
        write_number max_loaned_requests;
        write_number max_borrowed_responses_per_pending_response;
        write_number max_response_buffer_size;
        write_number max_servers;
        write_number max_clients;
        write_number max_nodes;
    );
    write_types(
        "request_payload",
        "request_header",
        &settings.request_message_type_details,
        text,
    )?;
    write_types(
        "response_payload",
        "response_header",
        &settings.response_message_type_details,
        text,
    )
}

// ---- attributes

/// Appends the terms of keys with their values.
fn write_pairs(pairs: &[Attribute], text: &mut String) -> Result<(), AllocError>
    ensures { OnOk result (Appends text.old text.new (behind (pair_words pairs.now))) }
{
    for pair in pairs {
        write_pair(pair, text)?;
    }
    Ok(())
}

fn write_pair(pair: &Attribute, text: &mut String) -> Result<(), AllocError>
    ensures { OnOk result (Appends text.old text.new (32 ∷ pair_word pair.now)) }
{
    write_start("attribute", text)?;
    escape_leaf(pair.key().as_bytes(), text)?;
    text.push_str(":")?;
    escape_leaf(pair.value().as_bytes(), text)
}

/// States that what is written of a value means the value, whatever its kind.
pub fn law_of_shown_values<S>()
    ensures { (takes : Takes S) (value : ValueOf takes) → IsValue takes value
        → Sets form.Escaped takes (value_text takes value) (setter_with takes value) }
{}

/// States that a line asks for each setting of its pattern in the order of its vocabulary, except the alignments: types
/// tell them.
pub fn law_of_asked_settings()
    ensures events { (s : EventConfig) → rows_asked (event_settings s) ≡ rows_to_ask event_vocabulary }
    ensures samples { (s : SampleConfig) → rows_asked (sample_settings s) ≡ rows_to_ask publish_subscribe_vocabulary }
    ensures requests { (s : RequestConfig) → rows_asked (request_settings s) ≡ rows_to_ask request_response_vocabulary }
{}

/// States that what is written of a description within its limits is one line of printable ASCII, for a node below 2^64
/// and a slot of a session. Read as an escaped line, it is a call that asks for the same, and it is nothing else.
pub fn law_of_asking(alloc: Global)
    ensures again { (node slot : ℕ) (d : Description) → node < 2 ^ 64 → slot < slot_count → IsDescription d
        → IsAskedAgain node slot d }
    ensures only { (node slot : ℕ) (d : Description) (l : Line) → node < 2 ^ 64 → slot < slot_count → IsDescription d
        → IsLineIn form.Escaped (asking node slot d) l → Asks node slot d l }
    ensures one_line { (node slot : ℕ) (d : Description) → node < 2 ^ 64 → slot < slot_count → IsDescription d
        → All IsPrintable (asking node slot d) }
{
    // A call keeps its setters in a vector: one stands for the block of another.
    let _none: Vec<u8> = Vec::new(alloc);
}
