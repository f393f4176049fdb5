//! Publish-subscribe: a payload type of your own, a user header, an alignment, and attributes.

use crate::node::{close, refusal, service_builder};
use crate::pose::Pose;
use anyhow::{Context, Result};
use iceoryx2_service::attribute::{AttributeSpecifier, AttributeVerifier};
use iceoryx2_service::builder::publish_subscribe::Builder;
use iceoryx2_service::port_factory::publish_subscribe::PortFactory;
use iceoryx2_service::table::{Local, Table};
use iceoryx2_service::types::Alignment;
use std::alloc::Global;

/// A service of poses, each with a `u64` as its user header.
type Poses = PortFactory<Local, Pose, u64>;

/// Returns a builder of a node for the service.
fn poses(alloc: Global, node: u64) -> Result<Builder<Pose, u64, Local>> {
    let builder = service_builder(alloc, node, "Robot/Pose")?;
    Ok(builder.publish_subscribe::<Pose>().user_header::<u64>())
}

/// Node 1 creates the service with an attribute, and with payloads aligned to 64 bytes.
fn create(alloc: Global, table: &mut Table) -> Result<Poses> {
    let mut attributes = AttributeSpecifier::new(alloc);
    attributes.define("floor", "2")?;
    let alignment = Alignment::new(64).context("no power of two")?;
    let builder = poses(alloc, 1)?.payload_alignment(alignment);
    Ok(builder.create_with_attributes(&attributes, table)?)
}

/// A node that requires a floor opens the service.
fn open(alloc: Global, node: u64, floor: &str, table: &mut Table) -> Result<Poses> {
    let mut attributes = AttributeVerifier::new(alloc);
    attributes.require("floor", floor)?;
    Ok(poses(alloc, node)?.open_with_attributes(&attributes, table)?)
}

/// Node 2 opens the service, reads the type of its payload, and closes it.
fn read(rt: &HostRuntime, table: &mut Table) -> Result<()> {
    let factory = open(rt.alloc(), 2, "2", table)?;
    let payload = &factory.static_config().message_type_details.payload;
    let (name, size, alignment) = (payload.type_name(), payload.size(), payload.alignment());
    let printed = println!(rt; "  payload: {name}, {size} bytes at multiples of {alignment}");
    close(factory, table)?;
    Ok(printed?)
}

/// Runs the example. Node 3 requires another floor.
pub fn run(rt: &HostRuntime, table: &mut Table) -> Result<()> {
    let factory = create(rt.alloc(), table)?;
    let read = read(rt, table);
    let answer = open(rt.alloc(), 3, "3", table);
    let error = refusal(answer, table);
    close(factory, table)?;
    read?;
    println!(rt; "  node 3 requires floor=3: {}", error?)?;
    Ok(())
}
