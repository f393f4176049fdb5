//! The tickets that are released.

use super::{Reached, entry, from_key, last_left};
use iceoryx2_description::description::ServiceHash;
use iceoryx2_log::entry::{Entry, Operation};
use iceoryx2_table::rows::RowState;
use iceoryx2_table::table::stored::StoredWorld;
use iceoryx2_world::world::{Phase, Ticket};

/// Returns whether the later world has the service published with this number.
pub fn is_published(world: &StoredWorld, hash: &ServiceHash, number: u64) -> bool {
    match world.row(hash) {
        Some(row) => row.state() == RowState::Published(number),
        None => false,
    }
}

// Returns whether the ticket's node leaves the service last.
fn leaves_last(to: &StoredWorld, held: &Ticket) -> bool {
    last_left(to.phase(held.node, &held.hash)) == Some(held.number)
}

// Returns how many participants the service's segment has.
fn members(world: &StoredWorld, hash: &ServiceHash) -> usize {
    match world.segment(hash) {
        Some(segment) => segment.participants().len(),
        None => 0,
    }
}

// Returns whether the service has no other ticket.
fn is_only(from: &StoredWorld, held: &Ticket) -> bool {
    match from.phase(held.node, &held.hash) {
        Phase::Joined(_, count) => count <= 1 && members(from, &held.hash) <= 1,
        _ => false,
    }
}

/// Returns whether the later world lacks the ticket.
pub fn is_gone(to: &StoredWorld, ticket: u64, held: &Ticket) -> bool {
    to.ticket(ticket) != Some(*held)
}

// Returns whether the ticket is released before numbers are used. It is if the later world doesn't have the service, or
// if another ticket stays and the node isn't the last one to leave.
fn is_released(ticket: u64, held: &Ticket, from: &StoredWorld, to: &StoredWorld) -> bool {
    if !is_gone(to, ticket, held) {
        return false;
    }
    if !is_published(to, &held.hash, held.number) {
        return true;
    }
    !leaves_last(to, held) && !is_only(from, held)
}

// Returns the entry that releases the ticket.
fn release_of(ticket: u64, held: &Ticket) -> Entry {
    let number = held.number;
    entry(held.node, held.hash, Operation::Release { ticket, number })
}

/// Returns the next release before numbers are used.
pub fn next(reached: &mut Reached, from: &StoredWorld, to: &StoredWorld) -> Option<Entry> {
    for (ticket, held) in from_key(from.tickets_held(), &reached.ticket) {
        reached.ticket = *ticket;
        if is_released(*ticket, held, from, to) {
            return Some(release_of(*ticket, held));
        }
    }
    None
}

/// Returns the next release after numbers are used. A node that came only to leave last has a later ticket than the
/// kept one.
pub fn next_last(reached: &mut Reached, from: &StoredWorld, to: &StoredWorld) -> Option<Entry> {
    for (ticket, held) in from_key(from.tickets_held(), &reached.ticket) {
        reached.ticket = *ticket;
        if is_gone(to, *ticket, held) {
            return Some(release_of(*ticket, held));
        }
    }
    None
}

/// Returns the release of the ticket for the service, if it is there and the later world lacks it.
pub fn release(
    ticket: u64,
    hash: &ServiceHash,
    from: &StoredWorld,
    to: &StoredWorld,
) -> Option<Entry> {
    let held = from.ticket(ticket)?;
    if held.hash != *hash || !is_gone(to, ticket, &held) {
        return None;
    }
    Some(release_of(ticket, &held))
}

/// Returns whether the service has no room for the node.
pub fn is_full(from: &StoredWorld, node: u64, hash: &ServiceHash) -> bool {
    match from.phase(node, hash) {
        Phase::Joined(_, _) => false,
        _ => match from.segment(hash) {
            Some(segment) => segment.participants().len() as u64 >= segment.capacity(),
            None => false,
        },
    }
}
