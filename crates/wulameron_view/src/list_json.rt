//! The services of a world as JSON.

ghost use Rattle.std.specs.Prelude.{◌≡◌, ◌++◌, IfOk, OnOk, map, string_bytes};
ghost use Rattle.serde_json.specs.View.{members_view, view};
ghost use Rattle.std.specs.List.{flat_map};
ghost use Rattle.wulameron_view.specs.Data.{creation_data, creation_facts, json_line, list_data, list_lines};
ghost use Rattle.wulameron_view.specs.Data.{service_data};

use crate::json::{Leaf, count_or_null, leaves, service_value, write_value};
use crate::services::{Creation, Service, Services};
use iceoryx2_monitoring::state::NodeStatus;
use serde_json::{Map, Value, put};
use std::alloc::{AllocError, Global};

/// Writes an array of the services, in the order of the table, as one line without a space; docs/CLI.md has the keys.
/// These states tell whether a node is alive. `AllocError` if there is no memory.
pub fn list_json(
    states: &[NodeStatus],
    services: &Services,
    text: &mut String,
) -> Result<(), AllocError>
    ensures { OnOk result (string_bytes text.new
        ≡ string_bytes text.old ++ json_line (list_data states.now services.now)) }
{
    let value = list_value(*text.allocator(), states, services)?;
    write_value(&value, text)
}

/// Writes an object for each service, in the same order, a line each. `AllocError` if there is no memory; a prefix may
/// then be written.
pub fn list_json_lines(
    states: &[NodeStatus],
    services: &Services,
    text: &mut String,
) -> Result<(), AllocError>
    ensures { OnOk result (string_bytes text.new ≡ string_bytes text.old ++ list_lines states.now services.now) }
{
    write_services(states, &services.published, text)?;
    write_creations(&services.creations, text)
}

/// Writes a line for each service that is published.
fn write_services(
    states: &[NodeStatus],
    services: &[Service],
    text: &mut String,
) -> Result<(), AllocError>
    ensures { OnOk result (string_bytes text.new
        ≡ string_bytes text.old ++ flat_map (λ s. json_line (service_data states.now s)) services.now) }
{
    for service in services {
        write_service(states, service, text)?;
    }
    Ok(())
}

/// Writes the line of a service that is published.
fn write_service(
    states: &[NodeStatus],
    service: &Service,
    text: &mut String,
) -> Result<(), AllocError>
    ensures { OnOk result (string_bytes text.new
        ≡ string_bytes text.old ++ json_line (service_data states.now service.now)) }
{
    let value = service_value(*text.allocator(), states, service)?;
    write_value(&value, text)
}

/// Writes a line for each service that is being created.
fn write_creations(creations: &[Creation], text: &mut String) -> Result<(), AllocError>
    ensures { OnOk result (string_bytes text.new
        ≡ string_bytes text.old ++ flat_map (λ c. json_line (creation_data c)) creations.now) }
{
    for creation in creations {
        write_creation(creation, text)?;
    }
    Ok(())
}

/// Writes the line of a service that is being created.
fn write_creation(creation: &Creation, text: &mut String) -> Result<(), AllocError>
    ensures { OnOk result (string_bytes text.new
        ≡ string_bytes text.old ++ json_line (creation_data creation.now)) }
{
    let value = creation_value(*text.allocator(), creation)?;
    write_value(&value, text)
}

/// Returns the array.
fn list_value(
    alloc: Global,
    states: &[NodeStatus],
    services: &Services,
) -> Result<Value, AllocError>
    ensures { IfOk result (λ v. view v ≡ list_data states.now services.now) }
{
    let mut values = Vec::new(alloc);
    add_services(alloc, states, &services.published, &mut values)?;
    add_creations(alloc, &services.creations, &mut values)?;
    Ok(Value::Array(values))
}

/// Adds the services that are published.
fn add_services(
    alloc: Global,
    states: &[NodeStatus],
    services: &[Service],
    values: &mut Vec<Value>,
) -> Result<(), AllocError>
    ensures { OnOk result (map view values.new.items
        ≡ map view values.old.items ++ map (service_data states.now) services.now) }
{
    for service in services {
        values.push(service_value(alloc, states, service)?)?;
    }
    Ok(())
}

/// Adds the services that are being created.
fn add_creations(
    alloc: Global,
    creations: &[Creation],
    values: &mut Vec<Value>,
) -> Result<(), AllocError>
    ensures { OnOk result (map view values.new.items
        ≡ map view values.old.items ++ map creation_data creations.now) }
{
    for creation in creations {
        values.push(creation_value(alloc, creation)?)?;
    }
    Ok(())
}

/// Returns the value of a service that is being created.
fn creation_value(alloc: Global, creation: &Creation) -> Result<Value, AllocError>
    ensures { IfOk result (λ v. view v ≡ creation_data creation.now) }
{
    let mut members = creation_facts(alloc, creation)?;
    put(&mut members, alloc, "nodes", Value::Array(Vec::new(alloc)))?;
    Ok(Value::Object(members))
}

/// Returns what is known of a service that is being created, without the nodes that are in it: there are none.
fn creation_facts(alloc: Global, creation: &Creation) -> Result<Map<String, Value>, AllocError>
    ensures { IfOk result (λ m. members_view m.entries ≡ creation_facts creation.now) }
{
    leaves(
        alloc,
        &[
            ("creator", count_or_null(creation.node)),
            ("hash", Leaf::Hash(creation.hash)),
            ("max_nodes", Leaf::Null),
            ("name", Leaf::Null),
            ("number", Leaf::Number(creation.number)),
            ("pattern", Leaf::Null),
            ("state", Leaf::Word("being_created")),
        ],
    )
}
