//! The use of the numbers from the counter on.

use super::leaving::{is_gone, is_published};
use super::{Reached, from_key, has_joined, last_left, place_of};
use iceoryx2_description::description::ServiceHash;
use iceoryx2_table::rows::RowState;
use iceoryx2_table::segments::StoredSegment;
use iceoryx2_table::table::stored::StoredWorld;
use iceoryx2_world::world::{Participant, Phase};
use std::alloc::{AllocError, Global};

/// A service's number, the ticket of a node that has it, or zero, and the node and the service's hash.
type Maker = ((u64, u64), (u64, ServiceHash));

/// All that is looked up before the first number is used.
#[derive(Drop)]
pub struct Plan {
    // by number, and then by ticket; the first one of a number locks it
    makers: Vec<Maker>,
    // by hash: tickets that the later world doesn't have, of services that it has
    kept: Vec<(ServiceHash, u64)>,
}

impl Plan {
    /// Returns the services that nodes lock from the counter on, and the tickets that wait to be released.
    pub fn new(
        alloc: Global,
        spare: u64,
        from: &StoredWorld,
        to: &StoredWorld,
    ) -> Result<Plan, AllocError> {
        let counter = from.counter();
        let mut makers = Vec::new(alloc);
        push_holders(&mut makers, counter, to)?;
        push_creators(&mut makers, counter, to)?;
        push_remainders(&mut makers, counter, spare, to)?;
        makers.sort()?;
        let mut kept = Vec::new(alloc);
        push_kept(&mut kept, from, to)?;
        kept.sort()?;
        Ok(Plan { makers, kept })
    }

    /// Returns the first number from this one on for which a service is locked.
    pub fn next_number(&self, number: u64) -> Option<u64> {
        let first = from_key(self.makers.as_slice(), &(number, 0)).first()?;
        Some(first.0.0)
    }

    /// Returns the node that locks a service for this number, and the service.
    pub fn maker(&self, number: u64) -> Option<(u64, ServiceHash)> {
        let first = from_key(self.makers.as_slice(), &(number, 0)).first()?;
        if first.0.0 != number {
            return None;
        }
        Some(first.1)
    }

    /// Returns a ticket for the service that waits to be released.
    pub fn kept(&self, hash: &ServiceHash) -> Option<u64> {
        let at = place_of(self.kept.as_slice(), hash);
        let (found, ticket) = self.kept.as_slice().get(at)?;
        if found != hash {
            return None;
        }
        Some(*ticket)
    }
}

// Returns the number of a node that has a lock, or was the last one to leave.
fn held_number(phase: Phase) -> Option<u64> {
    match phase {
        Phase::Locked(number) | Phase::Made(number) => Some(number),
        _ => last_left(phase),
    }
}

// Adds the nodes that have a lock, or were the last ones to leave.
fn push_holders(makers: &mut Vec<Maker>, counter: u64, to: &StoredWorld) -> Result<(), AllocError> {
    for ((participant, hash), phase) in to.phases_held() {
        if let (Participant::Node(node), Some(number)) = (participant, held_number(*phase)) {
            if number >= counter {
                makers.push(((number, 0), (*node, *hash)))?;
            }
        }
    }
    Ok(())
}

// Adds the nodes that are registered. A service's own number is its creator's ticket, which is below all others.
fn push_creators(
    makers: &mut Vec<Maker>,
    counter: u64,
    to: &StoredWorld,
) -> Result<(), AllocError> {
    for (ticket, held) in to.tickets_held() {
        if held.number >= counter {
            makers.push(((held.number, *ticket), (held.node, held.hash)))?;
        }
    }
    Ok(())
}

// Returns whether there is a row of the segment's number.
fn is_described(to: &StoredWorld, hash: &ServiceHash, number: u64) -> bool {
    match to.row(hash) {
        Some(row) => match row.state() {
            RowState::Locked(found) | RowState::Published(found) => found == number,
        },
        None => false,
    }
}

// Returns a node that is in a segment without a row, or the spare node.
fn member_of(segment: &StoredSegment, spare: u64) -> u64 {
    match segment.participants().first() {
        Some((Participant::Node(node), _)) => *node,
        _ => spare,
    }
}

// Adds the services of segments without a row.
fn push_remainders(
    makers: &mut Vec<Maker>,
    counter: u64,
    spare: u64,
    to: &StoredWorld,
) -> Result<(), AllocError> {
    for (hash, segment) in to.segments_held() {
        let number = segment.number();
        if number >= counter && !is_described(to, hash, number) {
            makers.push(((number, 0), (member_of(segment, spare), *hash)))?;
        }
    }
    Ok(())
}

// Adds the tickets that wait to be released.
fn push_kept(
    kept: &mut Vec<(ServiceHash, u64)>,
    from: &StoredWorld,
    to: &StoredWorld,
) -> Result<(), AllocError> {
    for (ticket, held) in from.tickets_held() {
        if is_gone(to, *ticket, held) && is_published(to, &held.hash, held.number) {
            kept.push((held.hash, *ticket))?;
        }
    }
    Ok(())
}

/// Returns the next node that will be the last one to leave a service and hasn't joined it yet, with the service and
/// its number.
pub fn next_visitor(
    reached: &mut Reached,
    from: &StoredWorld,
    to: &StoredWorld,
) -> Option<(u64, ServiceHash, u64)> {
    for ((participant, hash), phase) in from_key(to.phases_held(), &reached.place) {
        reached.place = (*participant, *hash);
        if let (Participant::Node(node), Some(number)) = (participant, last_left(*phase)) {
            if is_published(from, hash, number) && !has_joined(from.phase(*node, hash)) {
                return Some((*node, *hash, number));
            }
        }
    }
    None
}

// Returns whether the service has no row, and nothing at all in the later world.
fn is_left(hash: &ServiceHash, from: &StoredWorld, to: &StoredWorld) -> bool {
    from.row(hash).is_none() && to.row(hash).is_none() && to.segment(hash).is_none()
}

/// Returns the next service of which only a segment is left, and nothing in the later world.
pub fn next_remainder(
    reached: &mut Reached,
    from: &StoredWorld,
    to: &StoredWorld,
) -> Option<ServiceHash> {
    for (hash, _) in from_key(from.segments_held(), &reached.service) {
        reached.service = *hash;
        if is_left(hash, from, to) {
            return Some(*hash);
        }
    }
    None
}
