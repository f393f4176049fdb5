//! Shared: two nodes meet at a log in a file. Here one process has both nodes. Each could have a process of its own.

use crate::node::close;
use anyhow::Result;
use iceoryx2_monitoring::token::{Token, claim};
use iceoryx2_service::builder::Node;
use iceoryx2_service::builder::event::Builder;
use iceoryx2_service::description::{Config, ServiceName, Time};
use iceoryx2_service::port_factory::factory::{Kind, PortFactory};
use iceoryx2_service::shared::{
    CallLog, FileLog, FileLogOptions, Journal, Log, Shared, Sharing, SpansCalls,
};
use std::alloc::Global;
use std::random::RandomSource;
use std::{env, fs};

/// A log in a file. A call holds it from the call's first access to the last.
type HeldFile<'a> = CallLog<FileLog<&'a HostRuntime>>;

/// Joins a log as a process does at its start. It claims a node, for as long as it keeps the token, and opens the log.
/// It releases what the last process of this node left, and makes the node its own.
fn join<'a>(rt: &'a HostRuntime, path: &str, node: u64) -> Result<(Token, Journal<HeldFile<'a>>)> {
    let token = claim(rt, path, node, Sharing::User)?;
    let log = FileLog::open(
        rt,
        String::from_str(rt.alloc(), path)?,
        FileLogOptions::new(),
    )?;
    let counter = log.header().counter;
    let log = CallLog::new(log);
    let mut journal = Journal::starting_at(rt.alloc(), log, Vec::new(rt.alloc()), counter);
    journal.clean(node)?;
    journal.adopt(node)?;
    Ok((token, journal))
}

/// Returns a builder of a node for the service.
fn lamps<L: Log>(alloc: Global, node: u64) -> Result<Builder<Shared<L>>> {
    let name = ServiceName::new(alloc, "Lamps")?;
    let builder = Node::<Shared<L>>::new(node, Config::default()).service_builder(name);
    Ok(builder.event())
}

/// Closes a factory, and holds the log from the first access to the last.
fn close_held<L: SpansCalls, K: Kind>(
    factory: PortFactory<Shared<L>, K>,
    journal: &mut Journal<L>,
) -> Result<()> {
    journal.begin_call();
    let closed = close(factory, journal);
    journal.end_call();
    closed
}

/// Node 2 opens the service, and returns the agreed number of listeners.
fn find<L: SpansCalls>(alloc: Global, journal: &mut Journal<L>) -> Result<u64> {
    let builder = lamps(alloc, 2)?;
    journal.begin_call();
    let opened = builder.open(journal);
    journal.end_call();
    let factory = opened?;
    let agreed = factory.static_config().max_listeners;
    close_held(factory, journal)?;
    Ok(agreed)
}

/// Node 1 creates the service, and node 2 finds it.
fn meet<L: SpansCalls>(
    alloc: Global,
    first: &mut Journal<L>,
    second: &mut Journal<L>,
) -> Result<u64> {
    let builder = lamps(alloc, 1)?.max_listeners(4);
    first.begin_call();
    let created = builder.create(first, Ok(Time::default()));
    first.end_call();
    let factory = created?;
    let found = find(alloc, second);
    close_held(factory, first)?;
    found
}

/// Joins the log of a path twice, as node 1 and as node 2.
fn meet_at(rt: &HostRuntime, path: &str) -> Result<u64> {
    let (_first_token, mut first) = join(rt, path, 1)?;
    let (_second_token, mut second) = join(rt, path, 2)?;
    meet(rt.alloc(), &mut first, &mut second)
}

/// Runs the example in a folder of its own.
pub fn run(rt: &HostRuntime) -> Result<()> {
    let mut bytes = [0; 8];
    rt.fill_bytes(&mut bytes)?;
    let (temporary, number) = (env::temp_dir(rt)?, u64::from_be_bytes(bytes));
    let folder = format!(in rt.alloc(); "{}/examples-{number:016x}", temporary.as_str())?;
    fs::create_dir(rt, folder.as_str())?;
    let path = format!(in rt.alloc(); "{folder}/log")?;
    let agreed = meet_at(rt, path.as_str());
    fs::remove_dir_all(rt, folder.as_str())?;
    println!(rt;
        "  node 2 finds what node 1 created, for {} listeners",
        agreed?
    )?;
    Ok(())
}
