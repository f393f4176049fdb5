//! Buffers: a subscriber makes room for the agreed number of samples, whatever its builder asked for.

ghost use Rattle.std.specs.Prelude.{◌≡◌, ◌+◌, ◌≤◌, ◌^◌, MatchOption};

use crate::node::{close, service_builder};
use crate::pose::Pose;
use anyhow::Result;
use iceoryx2_service::builder::publish_subscribe::Builder;
use iceoryx2_service::description::publish_subscribe::StaticConfig;
use iceoryx2_service::table::{Local, Table};
use std::alloc::Global;

/// Returns how many samples a subscriber holds at a time, in its buffer and borrowed. `None` if that is 2^64 or more.
fn samples(settings: &StaticConfig) -> Option<usize>
    ensures { let samples = settings.now.subscriber_max_buffer_size + settings.now.subscriber_max_borrowed_samples in
        MatchOption result (2 ^ 64 ≤ samples) (λ room. room ≡ samples) }
{
    let buffered = settings.subscriber_max_buffer_size;
    let samples = buffered.checked_add(settings.subscriber_max_borrowed_samples)?;
    usize::try_from(samples).ok()
}

/// Makes room for that many samples, and prints their number.
fn make_room(rt: &HostRuntime, settings: &StaticConfig) -> Result<()> {
    let agreed = settings.subscriber_max_buffer_size;
    let Some(samples) = samples(settings) else {
        println!(rt; "  {agreed} were agreed: more than any buffer has room for")?;
        return Ok(());
    };
    let buffer = Vec::<Pose>::with_capacity(rt.alloc(), samples)?;
    let room = buffer.capacity();
    println!(rt; "  {agreed} were agreed: there is room for {room}")?;
    Ok(())
}

/// Returns a builder of a node for poses. A subscriber's buffer has room for `buffered` samples.
fn poses(alloc: Global, node: u64, buffered: u64) -> Result<Builder<Pose, (), Local>> {
    let builder = service_builder(alloc, node, "Robot/Buffered")?.publish_subscribe::<Pose>();
    Ok(builder.subscriber_max_buffer_size(buffered))
}

/// Node 2 asks for two samples in a buffer, and makes room for the agreed number.
fn subscribe(rt: &HostRuntime, table: &mut Table) -> Result<()> {
    let factory = poses(rt.alloc(), 2, 2)?.open(table)?;
    let made = make_room(rt, factory.static_config());
    close(factory, table)?;
    made
}

/// Runs the example. Node 1 creates the service with `buffered` samples in a buffer.
pub fn run(rt: &HostRuntime, table: &mut Table) -> Result<()> {
    for buffered in [8, u64::MAX] {
        let first = poses(rt.alloc(), 1, buffered)?.create(table)?;
        let second = subscribe(rt, table);
        close(first, table)?;
        second?;
    }
    Ok(())
}
