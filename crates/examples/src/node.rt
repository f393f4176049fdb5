//! Each node of these examples starts from a builder, and closes what it opened.

use anyhow::{Result, bail};
use iceoryx2_service::builder::{Builder, Node};
use iceoryx2_service::description::{Config, ServiceName};
use iceoryx2_service::port_factory::CloseError;
use iceoryx2_service::port_factory::factory::{Kind, PortFactory};
use iceoryx2_service::storage::Service;
use iceoryx2_service::table::{Local, Table};
use std::alloc::Global;

/// Returns a builder of this node for the service of this name. It starts from the default settings.
pub fn service_builder(alloc: Global, node: u64, name: &str) -> Result<Builder<Local>> {
    let name = ServiceName::new(alloc, name)?;
    Ok(Node::<Local>::new(node, Config::default()).service_builder(name))
}

/// Closes a factory of any pattern. If its ticket isn't this storage's, the factory comes back, and is spent too.
pub fn close<S: Service, K: Kind>(
    factory: PortFactory<S, K>,
    storage: &mut S::Storage,
) -> Result<()> {
    match factory.close(storage) {
        Ok(()) => Ok(()),
        Err(CloseError::NotHere(factory)) => {
            factory.abandon();
            bail!("it was opened at another storage")
        }
        Err(CloseError::TagNotRemoved) => bail!("the node's tag is left"),
        Err(CloseError::SegmentNotRemoved) => bail!("the service's segment is left"),
        Err(CloseError::DescriptionNotRemoved) => bail!("the service's description is left"),
    }
}

/// Returns why a call is refused. If the call returns a factory instead of an error, the factory is closed.
pub fn refusal<K: Kind, E: Drop>(
    answer: Result<PortFactory<Local, K>, E>,
    table: &mut Table,
) -> Result<E> {
    match answer {
        Ok(factory) => {
            close(factory, table)?;
            bail!("the call wasn't refused")
        }
        Err(error) => Ok(error),
    }
}
