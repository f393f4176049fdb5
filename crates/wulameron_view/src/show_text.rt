//! All that is known of a service, line by line.

ghost use Rattle.std.specs.Prelude.{◌≡◌, ◌++◌, OnOk, string_bytes};
ghost use Rattle.std.specs.List.{flat_map};
ghost use Rattle.wulameron_view.specs.Settings.{settings_of};
ghost use Rattle.wulameron_view.specs.ShowTexts.{agreed_lines, attribute_line, call_lines, creator_line};
ghost use Rattle.wulameron_view.specs.ShowTexts.{explanation, factories_text, head_lines, identity_lines, kind_text};
ghost use Rattle.wulameron_view.specs.ShowTexts.{measure_text, member_line, message_lines, name_line, part_line};
ghost use Rattle.wulameron_view.specs.ShowTexts.{room_line, setting_line, show_text as show_text_of, type_lines};

use crate::list_text::term_of;
use crate::services::{Member, Service};
use crate::settings::{Setting, of_events, of_publish_subscribe, of_request_response};
use crate::states::{is_gone, state_of, word_of};
use crate::table::write_red;
use iceoryx2_attribute::attribute::Attribute;
use iceoryx2_description::description::MessagingPattern;
use iceoryx2_description::request_response;
use iceoryx2_monitoring::state::NodeStatus;
use iceoryx2_types::types::{MessageTypeDetails, TypeDetail, TypeVariant};
use negotiate_lines::escape::escape;
use std::alloc::AllocError;

/// Writes all that is known of a service: its name, pattern, hash, number and creator; each agreed setting, with a star
/// if it differs from the default; the types of its messages; its attributes in order; the nodes in it, and whether
/// they are alive; and what the star means. `AllocError` if there is no memory; a prefix may then be written.
pub fn show_text(
    is_coloured: bool,
    states: &[NodeStatus],
    service: &Service,
    text: &mut String,
) -> Result<(), AllocError>
    ensures { OnOk result (string_bytes text.new
        ≡ string_bytes text.old ++ show_text_of is_coloured states.now service.now) }
{
    write_head(service, text)?;
    write_agreed(service, text)?;
    write_room(service, text)?;
    write_members(is_coloured, states, &service.members, text)?;
    write_explanation(text)
}

/// Writes what the star means.
#[tactic(auto, unfolding(crate::specs::ShowTexts::explanation))]
fn write_explanation(text: &mut String) -> Result<(), AllocError>
    ensures { OnOk result (string_bytes text.new ≡ string_bytes text.old ++ explanation) }
{
    text.push_str("* differs from the default of a create\n")
}

/// Writes which service it is.
#[tactic(auto, unfolding(crate::specs::ShowTexts::head_lines))]
fn write_head(service: &Service, text: &mut String) -> Result<(), AllocError>
    ensures { OnOk result (string_bytes text.new ≡ string_bytes text.old ++ head_lines service.now) }
{
    write_name(service.description.name().as_str(), text)?;
    write_identity(service, text)?;
    write_creator(service.description.creator(), text)
}

#[tactic(auto, unfolding(crate::specs::ShowTexts::name_line))]
fn write_name(name: &str, text: &mut String) -> Result<(), AllocError>
    ensures { OnOk result (string_bytes text.new ≡ string_bytes text.old ++ name_line name.now) }
{
    text.push_str("name: ")?;
    escape(name, text)?;
    text.push_str("\n")
}

#[tactic(auto, unfolding(crate::specs::ShowTexts::identity_lines))]
fn write_identity(service: &Service, text: &mut String) -> Result<(), AllocError>
    ensures { OnOk result (string_bytes text.new ≡ string_bytes text.old ++ identity_lines service.now) }
{
    let pattern = term_of(service.description.messaging_pattern());
    let hash = service.hash.to_text(*text.allocator())?;
    let number = service.number;
    writeln!(text, "pattern: {pattern}\nhash: {hash}\nnumber: {number}")
}

#[tactic(auto, unfolding(crate::specs::ShowTexts::creator_line))]
fn write_creator(creator: Option<u64>, text: &mut String) -> Result<(), AllocError>
    ensures { OnOk result (string_bytes text.new ≡ string_bytes text.old ++ creator_line creator) }
{
    match creator {
        None => text.push_str("creator: -\n"),
        Some(node) => writeln!(text, "creator: {node}"),
    }
}

/// Writes what was agreed.
#[tactic(auto, unfolding(crate::specs::ShowTexts::agreed_lines))]
fn write_agreed(service: &Service, text: &mut String) -> Result<(), AllocError>
    ensures { OnOk result (string_bytes text.new ≡ string_bytes text.old ++ agreed_lines service.now) }
{
    let pattern = service.description.messaging_pattern();
    write_settings_of(pattern, text)?;
    write_types(pattern, text)?;
    write_attributes(service.description.attributes().pairs(), text)
}

/// Writes each setting of the pattern.
fn write_settings_of(pattern: &MessagingPattern, text: &mut String) -> Result<(), AllocError>
    ensures { OnOk result (string_bytes text.new
        ≡ string_bytes text.old ++ flat_map setting_line (settings_of pattern.now)) }
{
    match pattern {
        MessagingPattern::Event(agreed) => write_settings(&of_events(agreed), text),
        MessagingPattern::PublishSubscribe(agreed) => {
            write_settings(&of_publish_subscribe(agreed), text)
        }
        MessagingPattern::RequestResponse(agreed) => {
            write_settings(&of_request_response(agreed), text)
        }
    }
}

fn write_settings(settings: &[Setting], text: &mut String) -> Result<(), AllocError>
    ensures { OnOk result (string_bytes text.new ≡ string_bytes text.old ++ flat_map setting_line settings.now) }
{
    for setting in settings {
        write_setting(setting, text)?;
    }
    Ok(())
}

#[tactic(auto, unfolding(crate::specs::ShowTexts::setting_line))]
fn write_setting(setting: &Setting, text: &mut String) -> Result<(), AllocError>
    ensures { OnOk result (string_bytes text.new ≡ string_bytes text.old ++ setting_line setting.now) }
{
    let name = setting.name();
    let value = setting.value();
    if setting.differs() {
        return writeln!(text, "* {name}: {value}");
    }
    writeln!(text, "  {name}: {value}")
}

/// Writes the types of the messages.
fn write_types(pattern: &MessagingPattern, text: &mut String) -> Result<(), AllocError>
    ensures { OnOk result (string_bytes text.new ≡ string_bytes text.old ++ type_lines pattern.now) }
{
    match pattern {
        MessagingPattern::Event(_) => Ok(()),
        MessagingPattern::PublishSubscribe(agreed) => write_message(
            "header",
            "user_header",
            "payload",
            &agreed.message_type_details,
            text,
        ),
        MessagingPattern::RequestResponse(agreed) => write_call_types(agreed, text),
    }
}

/// Writes the types of requests and of responses.
fn write_call_types(
    agreed: &request_response::StaticConfig,
    text: &mut String,
) -> Result<(), AllocError>
    ensures { OnOk result (string_bytes text.new ≡ string_bytes text.old ++ call_lines agreed.now) }
{
    write_message(
        "header_of_requests",
        "request_header",
        "request_payload",
        &agreed.request_message_type_details,
        text,
    )?;
    write_message(
        "header_of_responses",
        "response_header",
        "response_payload",
        &agreed.response_message_type_details,
        text,
    )
}

#[tactic(auto, unfolding(crate::specs::ShowTexts::message_lines))]
fn write_message(
    header: &str,
    user_header: &str,
    payload: &str,
    message: &MessageTypeDetails,
    text: &mut String,
) -> Result<(), AllocError>
    ensures { OnOk result (string_bytes text.new
        ≡ string_bytes text.old ++ message_lines header.now user_header.now payload.now message.now) }
{
    write_part(header, &message.header, text)?;
    write_part(user_header, &message.user_header, text)?;
    write_part(payload, &message.payload, text)
}

#[tactic(auto, unfolding(crate::specs::ShowTexts::part_line))]
fn write_part(name: &str, detail: &TypeDetail, text: &mut String) -> Result<(), AllocError>
    ensures { OnOk result (string_bytes text.new ≡ string_bytes text.old ++ part_line name.now detail.now) }
{
    write_kind(name, detail.variant(), text)?;
    escape(detail.type_name(), text)?;
    write_measures(detail.size(), detail.alignment(), text)
}

/// Writes which part it is, and whether a message holds one value of it or a number of them.
#[tactic(auto, unfolding(crate::specs::ShowTexts::kind_text))]
fn write_kind(name: &str, variant: TypeVariant, text: &mut String) -> Result<(), AllocError>
    ensures { OnOk result (string_bytes text.new ≡ string_bytes text.old ++ kind_text name.now variant) }
{
    match variant {
        TypeVariant::FixedSize => write!(text, "  {name}: fixed "),
        TypeVariant::Dynamic => write!(text, "  {name}: dynamic "),
    }
}

#[tactic(auto, unfolding(crate::specs::ShowTexts::measure_text))]
fn write_measures(size: u64, alignment: u64, text: &mut String) -> Result<(), AllocError>
    ensures { OnOk result (string_bytes text.new ≡ string_bytes text.old ++ measure_text size alignment) }
{
    writeln!(text, ", size {size}, alignment {alignment}")
}

fn write_attributes(pairs: &[Attribute], text: &mut String) -> Result<(), AllocError>
    ensures { OnOk result (string_bytes text.new ≡ string_bytes text.old ++ flat_map attribute_line pairs.now) }
{
    for pair in pairs {
        write_attribute(pair, text)?;
    }
    Ok(())
}

#[tactic(auto, unfolding(crate::specs::ShowTexts::attribute_line))]
fn write_attribute(pair: &Attribute, text: &mut String) -> Result<(), AllocError>
    ensures { OnOk result (string_bytes text.new ≡ string_bytes text.old ++ attribute_line pair.now) }
{
    text.push_str("attribute ")?;
    escape(pair.key(), text)?;
    text.push_str(": ")?;
    escape(pair.value(), text)?;
    text.push_str("\n")
}

/// Writes how many nodes are in it, and how many it takes.
#[tactic(auto, unfolding(crate::specs::ShowTexts::room_line))]
fn write_room(service: &Service, text: &mut String) -> Result<(), AllocError>
    ensures { OnOk result (string_bytes text.new ≡ string_bytes text.old ++ room_line service.now) }
{
    let nodes = service.members.len();
    let max_nodes = service.max_nodes;
    writeln!(text, "nodes: {nodes}/{max_nodes}")
}

fn write_members(
    is_coloured: bool,
    states: &[NodeStatus],
    members: &[Member],
    text: &mut String,
) -> Result<(), AllocError>
    ensures { OnOk result (string_bytes text.new
        ≡ string_bytes text.old ++ flat_map (member_line is_coloured states.now) members.now) }
{
    for member in members {
        write_member(is_coloured, states, member, text)?;
    }
    Ok(())
}

/// Writes a node, how many factories it has, and whether it is alive.
fn write_member(
    is_coloured: bool,
    states: &[NodeStatus],
    member: &Member,
    text: &mut String,
) -> Result<(), AllocError>
    ensures { OnOk result (string_bytes text.new
        ≡ string_bytes text.old ++ member_line is_coloured states.now member.now) }
{
    write_factories(member, text)?;
    let state = state_of(states, member.node);
    write_red(is_coloured && is_gone(state), word_of(state), text)?;
    text.push_str("\n")
}

/// Writes a node, and how many factories it has.
#[tactic(auto, unfolding(crate::specs::ShowTexts::factories_text))]
fn write_factories(member: &Member, text: &mut String) -> Result<(), AllocError>
    ensures { OnOk result (string_bytes text.new ≡ string_bytes text.old ++ factories_text member.now) }
{
    let node = member.node;
    let factories = member.factories;
    write!(text, "node {node}: {factories} factories, ")
}
