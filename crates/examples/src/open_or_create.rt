//! Open or create: the first call creates the service with the required pairs, later ones open it.

use crate::node::{close, refusal, service_builder};
use anyhow::{Context, Result};
use iceoryx2_service::attribute::AttributeVerifier;
use iceoryx2_service::port_factory::publish_subscribe::PortFactory;
use iceoryx2_service::table::{Local, Table};
use std::alloc::Global;

/// A service of distances.
type Distances = PortFactory<Local, u64, ()>;

/// A node opens or creates the service, which has to have the pair `unit=mm`, and this key with any value.
fn call(alloc: Global, node: u64, key: &str, table: &mut Table) -> Result<Distances> {
    let mut attributes = AttributeVerifier::new(alloc);
    attributes.require("unit", "mm")?;
    attributes.require_key(key)?;
    let builder = service_builder(alloc, node, "Robot/Distance")?.publish_subscribe::<u64>();
    Ok(builder.open_or_create_with_attributes(&attributes, table)?)
}

/// Prints which node created the service, and how many attributes the service has.
fn print_facts(rt: &HostRuntime, factory: &Distances) -> Result<()> {
    let (node, attributes) = (factory.node(), factory.attributes().len());
    let creator = factory.creator().context("no creator is told")?;
    println!(rt; "  node {node}: created by node {creator}, {attributes} attribute")?;
    Ok(())
}

/// Node 2 opens the service that node 1 created. Both require the key of their own pair, so it is there.
fn open(rt: &HostRuntime, table: &mut Table) -> Result<()> {
    let factory = call(rt.alloc(), 2, "unit", table)?;
    let printed = print_facts(rt, &factory);
    close(factory, table)?;
    printed
}

/// Runs the example. A create defines required pairs, but no required keys. Nodes 3 and 4 require another key.
/// Node 3 creates the service again without that key, and node 4 is refused, since the key is missing.
pub fn run(rt: &HostRuntime, table: &mut Table) -> Result<()> {
    let first = call(rt.alloc(), 1, "unit", table)?;
    let opened = open(rt, table);
    close(first, table)?;
    opened?;
    let third = call(rt.alloc(), 3, "robot", table)?;
    let printed = print_facts(rt, &third);
    let answer = call(rt.alloc(), 4, "robot", table);
    let error = refusal(answer, table);
    close(third, table)?;
    printed?;
    println!(rt; "  node 4: {}", error?)?;
    Ok(())
}
