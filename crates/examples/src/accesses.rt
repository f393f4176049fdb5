//! Accesses: a storage of your own counts the accesses that a create and its close ask of a table.

use crate::node::close;
use anyhow::Result;
use counted::counted::{Counted, CountedService};
use iceoryx2_service::builder::Node;
use iceoryx2_service::description::{Config, ServiceName, Time};
use iceoryx2_service::port_factory::event::PortFactory;
use iceoryx2_service::table::{Local, Table};
use std::alloc::Global;

/// The services in a table whose accesses are counted.
type CountedTable = Counted<Table>;

type CountedLocal = CountedService<Local>;

/// Node 1 creates a service in it.
fn create(alloc: Global, storage: &mut CountedTable) -> Result<PortFactory<CountedLocal>> {
    let name = ServiceName::new(alloc, "Doors/Counted")?;
    let builder = Node::<CountedLocal>::new(1, Config::default()).service_builder(name);
    Ok(builder.event().create(storage, Ok(Time::default()))?)
}

/// Runs the example.
pub fn run(rt: &HostRuntime) -> Result<()> {
    let mut storage = Counted::new(Table::new(rt.alloc()));
    let factory = create(rt.alloc(), &mut storage)?;
    let created = storage.total();
    close(factory, &mut storage)?;
    let closed = storage.total();
    println!(rt; "  {created} accesses once the service is created, {closed} once it is closed")?;
    Ok(())
}
