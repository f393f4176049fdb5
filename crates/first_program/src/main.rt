//! Node 1 creates a service for four listeners. Node 2 asks for three, and node 3 for more than there are.
#![tactic(auto)]

use anyhow::Result;
use iceoryx2_service::builder::Node;
use iceoryx2_service::description::{Config, ServiceName, Time};
use iceoryx2_service::port_factory::CloseError;
use iceoryx2_service::port_factory::event::PortFactory;
use iceoryx2_service::table::{Local, Table};

/// The name of the service.
const NAME: &str = "My/Funk/ServiceName";

/// A node opens the service for so many listeners, and prints for how many it is, or why it is refused.
fn open(rt: &HostRuntime, table: &mut Table, node: u64, listeners: u64) -> Result<()> {
    let name = ServiceName::new(rt.alloc(), NAME)?;
    let builder = Node::<Local>::new(node, Config::default()).service_builder(name);
    match builder.event().max_listeners(listeners).open(table) {
        Ok(factory) => {
            let room = factory.static_config().max_listeners;
            close(factory, table);
            println!(rt; "node {node} asks for {listeners} listeners, and there are {room}")?;
        }
        Err(error) => println!(rt; "node {node} asks for {listeners} listeners: {error}")?,
    }
    Ok(())
}

/// Closes a factory, which has to be spent. One that was opened at another table comes back.
fn close(factory: PortFactory<Local>, table: &mut Table) {
    match factory.close(table) {
        Err(CloseError::NotHere(factory)) => factory.abandon(),
        Ok(())
        | Err(
            CloseError::TagNotRemoved
            | CloseError::SegmentNotRemoved
            | CloseError::DescriptionNotRemoved,
        ) => {}
    }
}

fn main(rt: HostRuntime) -> Result<()> {
    let mut table = Table::new(rt.alloc());
    let name = ServiceName::new(rt.alloc(), NAME)?;
    let builder = Node::<Local>::new(1, Config::default()).service_builder(name);
    let factory = builder
        .event()
        .max_listeners(4)
        .create(&mut table, Ok(Time::default()))?;
    let second = open(&rt, &mut table, 2, 3);
    let third = open(&rt, &mut table, 3, 5);
    close(factory, &mut table);
    second?;
    third
}
