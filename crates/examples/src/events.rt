//! Events: node 1 creates a service, node 2 opens it and reads the agreed settings, node 3 asks for more.

use crate::node::{close, refusal, service_builder};
use anyhow::{Context, Result};
use iceoryx2_service::builder::event::EventOpenError;
use iceoryx2_service::description::{Duration, Time};
use iceoryx2_service::port_factory::event::PortFactory;
use iceoryx2_service::table::{Local, Table};
use std::alloc::Global;

const NAME: &str = "Doors/Opened";

/// Node 1 creates the service. It has room for four listeners, and a notifier has to notify every half second.
fn create(alloc: Global, table: &mut Table) -> Result<PortFactory<Local>> {
    let deadline = Duration::new(0, 500_000_000).context("no length of time")?;
    let now = Time::new(12, 0).context("no time")?;
    let builder = service_builder(alloc, 1, NAME)?.event();
    let builder = builder.max_listeners(4).deadline(deadline);
    Ok(builder.create(table, Ok(now))?)
}

/// Prints the agreed settings.
fn print_facts(rt: &HostRuntime, factory: &PortFactory<Local>) -> Result<()> {
    let settings = factory.static_config();
    let listeners = settings.max_listeners;
    println!(rt; "  node 2 asks for 3 listeners, and there are {listeners}")?;
    if let Some(deadline) = settings.deadline {
        println!(rt; "  deadline: {} nanoseconds", deadline.value.nanoseconds())?;
    }
    Ok(())
}

/// Node 2 opens the service for three listeners or more, reads the agreed settings, and closes it.
fn read(rt: &HostRuntime, table: &mut Table) -> Result<()> {
    let builder = service_builder(rt.alloc(), 2, NAME)?.event();
    let factory = builder.max_listeners(3).open(table)?;
    let printed = print_facts(rt, &factory);
    close(factory, table)?;
    printed
}

/// Node 3 wants no deadline and five listeners. Neither fits, and listeners are compared first.
fn ask_for_more(alloc: Global, table: &mut Table) -> Result<EventOpenError> {
    let builder = service_builder(alloc, 3, NAME)?.event();
    let answer = builder.disable_deadline().max_listeners(5).open(table);
    refusal(answer, table)
}

/// Runs the example. When all nodes have closed the service, it is gone.
pub fn run(rt: &HostRuntime, table: &mut Table) -> Result<()> {
    let factory = create(rt.alloc(), table)?;
    let read = read(rt, table);
    let error = ask_for_more(rt.alloc(), table);
    close(factory, table)?;
    read?;
    println!(rt; "  node 3 asks for 5, and for no deadline: {}", error?)?;
    Ok(())
}
