//! Examples that run. Nodes ask for a service, agree on its settings, or are refused.
//!
//! Each module except `node`, `pose` and `route` is an example. Except for `accesses` and `shared`, the examples keep
//! their services in one table.
//!
//! `Pose` and `Route` are two payload types. Each states the size and the alignment that `size_of` and `align_of`
//! return. `buffers::samples` returns how many samples a subscriber holds: the sum of two agreed settings, or `None`
//! exactly if that is 2^64 or more. Each run of the examples is compared with a stored output.
#![tactic(auto)]

mod accesses;
mod buffers;
mod events;
mod node;
mod open_or_create;
mod pose;
mod publish_subscribe;
mod request_response;
mod route;
mod shared;

use anyhow::Result;
use iceoryx2_service::table::Table;

/// Runs one example after another.
fn run(rt: &HostRuntime, table: &mut Table) -> Result<()> {
    println!(rt; "events: create a service, open it, ask for more than it has")?;
    events::run(rt, table)?;
    println!(rt; "publish_subscribe: a payload type of one's own, and attributes")?;
    publish_subscribe::run(rt, table)?;
    println!(rt; "request_response: several values in a request, one in a response")?;
    request_response::run(rt, table)?;
    println!(rt; "open_or_create: the first call creates, the second opens")?;
    open_or_create::run(rt, table)?;
    println!(rt; "buffers: a subscriber makes room for what was agreed")?;
    buffers::run(rt, table)?;
    println!(rt; "accesses: a storage of one's own, which counts them")?;
    accesses::run(rt)?;
    println!(rt; "shared: two nodes meet over a log in a file")?;
    shared::run(rt)?;
    println!(rt; "services that are left: {}", table.list()?.len())?;
    Ok(())
}

fn main(rt: HostRuntime) -> Result<()> {
    let mut table = Table::new(rt.alloc());
    run(&rt, &mut table)
}
