//! The entries of a node that has a service's lock, or was the last one to leave, until it is as in the later world.

use super::leaving::is_published;
use super::{Reached, entry, from_key};
use iceoryx2_attribute::attribute::AttributeSet;
use iceoryx2_data::bytes::{self, DecodeError};
use iceoryx2_description::description::{
    MessagingPattern, ServiceHash, ServiceName, ServiceNameError, StaticConfig,
};
use iceoryx2_description::event;
use iceoryx2_log::entry::{Entry, FormBytes, Operation};
use iceoryx2_table::rows::{RowState, StoredRow};
use iceoryx2_table::segments::StoredSegment;
use iceoryx2_table::table::stored::StoredWorld;
use iceoryx2_world::world::{Participant, Phase};
use std::alloc::{AllocError, Global};

/// Returns the next entry of any node that isn't as in the later world.
pub fn next(
    alloc: Global,
    reached: &mut Reached,
    from: &StoredWorld,
    to: &StoredWorld,
) -> Result<Option<Entry>, AllocError> {
    for ((participant, hash), _) in from_key(from.phases_held(), &reached.place) {
        reached.place = (*participant, *hash);
        if let Participant::Node(node) = participant {
            if let Some(operation) = operation(alloc, from, to, *node, hash)? {
                return Ok(Some(entry(*node, *hash, operation)));
            }
        }
    }
    Ok(None)
}

/// Returns what the node does next at the service, or `None` if it does nothing more.
pub fn operation(
    alloc: Global,
    from: &StoredWorld,
    to: &StoredWorld,
    node: u64,
    hash: &ServiceHash,
) -> Result<Option<Operation>, AllocError> {
    match from.phase(node, hash) {
        Phase::Locked(number) | Phase::Made(number) => {
            creating(alloc, from, to, node, hash, number)
        }
        Phase::Joined(number, _) => Ok(visiting(from, to, node, hash, number)),
        Phase::Leaving(number) => Ok(leaving(to, node, hash, number)),
        Phase::Cleared(number) => Ok(cleared(to, hash, number)),
        _ => Ok(None),
    }
}

// Returns what a node with the lock does next.
fn creating(
    alloc: Global,
    from: &StoredWorld,
    to: &StoredWorld,
    node: u64,
    hash: &ServiceHash,
    number: u64,
) -> Result<Option<Operation>, AllocError> {
    if let Some(row) = to.row(hash) {
        match row.state() {
            RowState::Locked(locked) => {
                if locked == number {
                    return Ok(holding(from, to, node, hash, number));
                }
            }
            RowState::Published(published) => {
                if published == number {
                    return publishing(alloc, from, to, hash, row, number);
                }
            }
        }
    }
    giving_up(alloc, from, to, hash, number)
}

// Returns what a node does next that keeps the lock.
fn holding(
    from: &StoredWorld,
    to: &StoredWorld,
    node: u64,
    hash: &ServiceHash,
    number: u64,
) -> Option<Operation> {
    match to.segment(hash) {
        None => clearing(from, hash),
        Some(segment) => {
            if to.phase(node, hash) == Phase::Made(number) {
                return making(from, hash, number, segment.capacity());
            }
            None
        }
    }
}

// Returns what a node does next that publishes the service.
fn publishing(
    alloc: Global,
    from: &StoredWorld,
    to: &StoredWorld,
    hash: &ServiceHash,
    row: &StoredRow,
    number: u64,
) -> Result<Option<Operation>, AllocError> {
    let capacity = match to.segment(hash) {
        Some(segment) => segment.capacity(),
        None => capacity_of(alloc, row)?,
    };
    if let Some(operation) = making(from, hash, number, capacity) {
        return Ok(Some(operation));
    }
    let bytes = FormBytes::new(row.bytes().copy()?);
    Ok(Some(Operation::Publish { number, bytes }))
}

// Returns the description's number of nodes, or 0 if the bytes are no description. No segment is made for 0.
fn capacity_of(alloc: Global, row: &StoredRow) -> Result<u64, AllocError> {
    match bytes::decode(alloc, row.bytes().as_slice()) {
        Ok(description) => Ok(description.max_nodes()),
        Err(DecodeError::OutOfMemory) => Err(AllocError),
        Err(DecodeError::Malformed) => Ok(0),
    }
}

// Returns what a node does next that gives up the lock. A segment stays if the later world has it.
fn giving_up(
    alloc: Global,
    from: &StoredWorld,
    to: &StoredWorld,
    hash: &ServiceHash,
    number: u64,
) -> Result<Option<Operation>, AllocError> {
    match to.segment(hash) {
        None => Ok(clearing(from, hash).or(Some(Operation::RemoveDescription))),
        Some(segment) => {
            if segment.number() == number {
                return leaving_alone(alloc, from, hash, segment);
            }
            if number_of(from.segment(hash)) == Some(segment.number()) {
                return Ok(Some(Operation::RemoveDescription));
            }
            Ok(clearing(from, hash).or(Some(Operation::RemoveDescription)))
        }
    }
}

// Returns what a node does next of whose number only a segment stays. A segment that all have left is marked. Nothing
// is left of the description that was published before, so the node publishes any that fits.
fn leaving_alone(
    alloc: Global,
    from: &StoredWorld,
    hash: &ServiceHash,
    segment: &StoredSegment,
) -> Result<Option<Operation>, AllocError> {
    let number = segment.number();
    if let Some(operation) = making(from, hash, number, segment.capacity()) {
        return Ok(Some(operation));
    }
    if !segment.is_marked() {
        return Ok(Some(Operation::RemoveDescription));
    }
    let description = any_description(alloc, *hash, segment.capacity())?;
    let bytes = FormBytes::new(bytes::encode(alloc, &description)?);
    Ok(Some(Operation::Publish { number, bytes }))
}

// Returns a description of events with this hash and number of nodes.
fn any_description(
    alloc: Global,
    hash: ServiceHash,
    max_nodes: u64,
) -> Result<StaticConfig, AllocError> {
    let name = match ServiceName::new(alloc, "-") {
        Ok(name) => name,
        Err(ServiceNameError::OutOfMemory) | Err(ServiceNameError::Length) => {
            return Err(AllocError);
        }
    };
    let events = event::StaticConfig {
        max_notifiers: 1,
        max_listeners: 1,
        event_id_max_value: 0,
        max_nodes,
        notifier_created_event: None,
        notifier_dropped_event: None,
        notifier_dead_event: None,
        deadline: None,
    };
    let pattern = MessagingPattern::Event(events);
    Ok(StaticConfig::new(hash, name, AttributeSet::new(alloc), pattern))
}

// Returns the making of the segment, or first the removal of another one. `None` if the segment is there.
fn making(
    from: &StoredWorld,
    hash: &ServiceHash,
    number: u64,
    max_nodes: u64,
) -> Option<Operation> {
    match from.segment(hash) {
        None => Some(Operation::MakeSegment { number, max_nodes }),
        Some(segment) => {
            if segment.number() == number && segment.capacity() == max_nodes {
                return None;
            }
            Some(Operation::RemoveSegment)
        }
    }
}

// Returns the removal of the segment, if there is one.
fn clearing(from: &StoredWorld, hash: &ServiceHash) -> Option<Operation> {
    match from.segment(hash) {
        Some(_) => Some(Operation::RemoveSegment),
        None => None,
    }
}

// Returns the segment's number.
fn number_of(segment: Option<&StoredSegment>) -> Option<u64> {
    match segment {
        Some(segment) => Some(segment.number()),
        None => None,
    }
}

// Returns the release by the node that published a service which the later world doesn't have.
fn visiting(
    from: &StoredWorld,
    to: &StoredWorld,
    node: u64,
    hash: &ServiceHash,
    number: u64,
) -> Option<Operation> {
    if is_published(to, hash, number) {
        return None;
    }
    let held = from.ticket(number)?;
    if held.node != node || held.hash != *hash {
        return None;
    }
    let ticket = number;
    Some(Operation::Release { ticket, number })
}

// Returns what the last node to leave does next.
fn leaving(to: &StoredWorld, node: u64, hash: &ServiceHash, number: u64) -> Option<Operation> {
    if is_published(to, hash, number) {
        return match to.phase(node, hash) {
            Phase::Cleared(_) => Some(Operation::RemoveSegment),
            _ => None,
        };
    }
    if number_of(to.segment(hash)) == Some(number) {
        return Some(Operation::RemoveDescription);
    }
    Some(Operation::RemoveSegment)
}

// Returns what the last node to leave does after it removed the segment.
fn cleared(to: &StoredWorld, hash: &ServiceHash, number: u64) -> Option<Operation> {
    if is_published(to, hash, number) {
        return None;
    }
    Some(Operation::RemoveDescription)
}
