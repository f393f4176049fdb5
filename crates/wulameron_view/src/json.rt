//! Values of JSON from which both texts are made.

ghost use Rattle.std.specs.Prelude.{◌≡◌, ◌++◌, IfOk, OnOk, false, string_bytes};
ghost use Rattle.serde_json.specs.Data.{no_members};
ghost use Rattle.serde_json.specs.View.{members_view, view};
ghost use Rattle.serde_json.specs.Written.{has_float};
ghost use Rattle.wulameron_view.specs.Data.{alive_data, array_of, count_or_null, json_line, leaf_data, member_data};
ghost use Rattle.wulameron_view.specs.Data.{pattern_word, service_data, service_facts, state_data, with_leaves};

use crate::services::{Member, Service};
use crate::states::state_of;
use iceoryx2_description::description::{MessagingPattern, ServiceHash};
use iceoryx2_monitoring::state::{NodeState, NodeStatus};
use serde_json::{Map, Value, put};
use std::alloc::{AllocError, Global};

/// A value that holds no other value.
#[derive(Clone, Copy)]
pub(crate) enum Leaf<'a> {
    Null,
    Truth(bool),
    Number(u64),
    Hash(ServiceHash),
    Word(&'static str),
    Text(&'a str),
}

/// Writes a value without a space, and a line's end.
#[tactic(auto, unfolding(crate::specs::Data::json_line))]
pub(crate) fn write_value(value: &Value, text: &mut String) -> Result<(), AllocError>
    requires { has_float (view value.now) ≡ false }
    ensures { OnOk result (string_bytes text.new ≡ string_bytes text.old ++ json_line (view value.now)) }
{
    let json = value.to_string(*text.allocator())?;
    writeln!(text, "{json}")
}

/// Returns the members of an object with these values under their keys. Those that hold others are put in behind it, so
/// that none of them waits where memory can run out.
pub(crate) fn leaves(
    alloc: Global,
    leaves: &[(&'static str, Leaf<'_>)],
) -> Result<Map<String, Value>, AllocError>
    ensures { IfOk result (λ m. members_view m.entries ≡ with_leaves leaves.now no_members) }
{
    let mut members = Map::new(alloc);
    for leaf in leaves {
        put(&mut members, alloc, leaf.0, leaf_value(alloc, leaf.1)?)?;
    }
    Ok(members)
}

/// Returns the value of a leaf.
fn leaf_value(alloc: Global, leaf: Leaf<'_>) -> Result<Value, AllocError>
    ensures { IfOk result (λ v. view v ≡ leaf_data leaf.entry) }
{
    match leaf {
        Leaf::Null => Ok(Value::Null),
        Leaf::Truth(truth) => Ok(Value::Bool(truth)),
        Leaf::Number(number) => Ok(Value::from(number)),
        Leaf::Hash(hash) => Ok(Value::String(hash.to_text(alloc)?)),
        Leaf::Word(word) => Value::try_from_str(alloc, word),
        Leaf::Text(text) => Value::try_from_str(alloc, text),
    }
}

/// Returns the value of a service and the nodes that are in it.
pub(crate) fn service_value(
    alloc: Global,
    states: &[NodeStatus],
    service: &Service,
) -> Result<Value, AllocError>
    ensures { IfOk result (λ v. view v ≡ service_data states.now service.now) }
{
    let mut members = facts(alloc, service)?;
    put(
        &mut members,
        alloc,
        "nodes",
        members_value(alloc, states, &service.members)?,
    )?;
    Ok(Value::Object(members))
}

/// Returns what is known of a service, without the nodes that are in it.
fn facts(alloc: Global, service: &Service) -> Result<Map<String, Value>, AllocError>
    ensures { IfOk result (λ m. members_view m.entries ≡ service_facts service.now) }
{
    leaves(
        alloc,
        &[
            ("creator", count_or_null(service.description.creator())),
            ("hash", Leaf::Hash(service.hash)),
            ("max_nodes", Leaf::Number(service.max_nodes)),
            ("name", Leaf::Text(service.description.name().as_str())),
            ("number", Leaf::Number(service.number)),
            (
                "pattern",
                Leaf::Word(word_of(service.description.messaging_pattern())),
            ),
            ("state", Leaf::Word("published")),
        ],
    )
}

/// Returns a number, or `null`.
pub(crate) fn count_or_null<'a>(count: Option<u64>) -> Leaf<'a>
    ensures { leaf_data result ≡ count_or_null count }
{
    match count {
        None => Leaf::Null,
        Some(count) => Leaf::Number(count),
    }
}

/// Returns the nodes in a service.
fn members_value(
    alloc: Global,
    states: &[NodeStatus],
    members: &[Member],
) -> Result<Value, AllocError>
    ensures { IfOk result (λ v. view v ≡ array_of (member_data states.now) members.now) }
{
    let mut values = Vec::new(alloc);
    for member in members {
        values.push(member_value(alloc, states, member)?)?;
    }
    Ok(Value::Array(values))
}

/// Returns a node in a service.
fn member_value(alloc: Global, states: &[NodeStatus], member: &Member) -> Result<Value, AllocError>
    ensures { IfOk result (λ v. view v ≡ member_data states.now member.now) }
{
    let state = state_of(states, member.node);
    let members = leaves(
        alloc,
        &[
            ("alive", alive_or_null(state)),
            ("factories", Leaf::Number(member.factories)),
            ("node", Leaf::Number(member.node)),
            ("state", Leaf::Word(word_of_state(state))),
        ],
    )?;
    Ok(Value::Object(members))
}

/// Returns whether a node is alive, or `null` for a node that was never claimed.
fn alive_or_null<'a>(state: NodeState) -> Leaf<'a>
    ensures { leaf_data result ≡ alive_data state }
{
    match state {
        NodeState::Alive => Leaf::Truth(true),
        NodeState::Lost | NodeState::Dead => Leaf::Truth(false),
        NodeState::DoesNotExist => Leaf::Null,
    }
}

/// Returns the word of JSON for whether a node is alive.
fn word_of_state(state: NodeState) -> &'static str
    ensures { result.now ≡ state_data state }
{
    match state {
        NodeState::Alive => "alive",
        NodeState::Lost => "lost",
        NodeState::Dead => "dead",
        NodeState::DoesNotExist => "never_claimed",
    }
}

/// Returns the word for the pattern.
fn word_of(pattern: &MessagingPattern) -> &'static str
    ensures { result.now ≡ pattern_word pattern.now }
{
    match pattern {
        MessagingPattern::Event(_) => "event",
        MessagingPattern::PublishSubscribe(_) => "publish_subscribe",
        MessagingPattern::RequestResponse(_) => "request_response",
    }
}
