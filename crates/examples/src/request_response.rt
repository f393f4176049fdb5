//! Request-response: a slice of values as a request, one value as its response, and their buffers.

use crate::node::{close, refusal, service_builder};
use crate::pose::Pose;
use crate::route::Route;
use anyhow::Result;
use iceoryx2_service::builder::request_response::RequestResponseOpenError;
use iceoryx2_service::port_factory::request_response::PortFactory;
use iceoryx2_service::table::{Local, Table};
use iceoryx2_service::types::Slice;
use std::alloc::Global;

const NAME: &str = "Robot/Plan";

/// A service that answers poses, which a robot has to reach, with a route.
type Planning = PortFactory<Local, Slice<Pose>, (), Route, ()>;

/// Node 1 creates the service with room for four responses to each request.
fn create(alloc: Global, table: &mut Table) -> Result<Planning> {
    let builder = service_builder(alloc, 1, NAME)?.request_response::<Slice<Pose>, Route>();
    Ok(builder.max_response_buffer_size(4).create(table)?)
}

/// Prints the agreed settings.
fn print_facts(rt: &HostRuntime, factory: &Planning) -> Result<()> {
    let settings = factory.static_config();
    let request = &settings.request_message_type_details.payload;
    let (variant, size) = (request.variant(), request.size());
    println!(rt; "  a request: {variant:?}, {size} bytes each")?;
    let room = settings.max_response_buffer_size;
    println!(rt; "  node 2 asks for room for 2 responses, and there is room for {room}")?;
    Ok(())
}

/// Node 2 opens the service for two responses or more, reads the agreed settings, and closes it.
fn read(rt: &HostRuntime, table: &mut Table) -> Result<()> {
    let builder = service_builder(rt.alloc(), 2, NAME)?.request_response::<Slice<Pose>, Route>();
    let factory = builder.max_response_buffer_size(2).open(table)?;
    let printed = print_facts(rt, &factory);
    close(factory, table)?;
    printed
}

/// Node 3 asks for requests of one pose each. That is another type, so no setting is compared.
fn refused(alloc: Global, table: &mut Table) -> Result<RequestResponseOpenError> {
    let builder = service_builder(alloc, 3, NAME)?.request_response::<Pose, Route>();
    refusal(builder.max_response_buffer_size(8).open(table), table)
}

/// Runs the example.
pub fn run(rt: &HostRuntime, table: &mut Table) -> Result<()> {
    let factory = create(rt.alloc(), table)?;
    let read = read(rt, table);
    let error = refused(rt.alloc(), table);
    close(factory, table)?;
    println!(rt; "  node 3 sends one pose at a time: {}", error?)?;
    read
}
