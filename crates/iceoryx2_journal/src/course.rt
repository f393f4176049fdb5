//! The entries that lead from one world to a later one.
//!
//! The counter alone hands out numbers. So anything with a number below the counter of the first
//! world goes on, and anything with a later number is made anew, in the order of the numbers.
//! Nothing rests on a course being right: each of its entries is followed as any other, and its
//! caller compares the worlds at its end.

mod leaving;
mod plan;
mod settling;
mod tags;

use self::plan::Plan;
use iceoryx2_description::description::{HASH_LENGTH, ServiceHash};
use iceoryx2_log::entry::{Entry, Operation};
use iceoryx2_table::table::stored::StoredWorld;
use iceoryx2_world::world::{Participant, Phase};
use std::alloc::{AllocError, Global};

/// The passes over the worlds, one after the other.
#[derive(Clone, Copy, Debug, PartialEq, Eq)]
enum Pass {
    /// Releases the tickets that the later world doesn't have, except the last one of a service
    /// that it has.
    Leave,
    /// Brings each lock, and what the last one to leave has to remove, to its state in the later
    /// world.
    Settle,
    /// Goes through the numbers from the counter on, in ascending order.
    Number,
    /// Releases the rest of the tickets that the later world doesn't have.
    LeaveLast,
    /// Brings what the last one to leave has to remove to its state in the later world.
    Finish,
    RemoveTags,
    MakeTags,
    End,
}

impl Pass {
    /// Returns the pass after this one.
    fn following(self) -> Pass {
        match self {
            Pass::Leave => Pass::Settle,
            Pass::Settle => Pass::Number,
            Pass::Number => Pass::LeaveLast,
            Pass::LeaveLast => Pass::Finish,
            Pass::Finish => Pass::RemoveTags,
            Pass::RemoveTags => Pass::MakeTags,
            Pass::MakeTags | Pass::End => Pass::End,
        }
    }
}

/// The number of passes.
const PASSES: u8 = 8;

/// No hash is below this one. Numbers are spent under it.
const ZEROS: ServiceHash = ServiceHash([0; HASH_LENGTH]);

/// The key of the last thing that a pass looked at, in each list.
#[derive(Drop)]
struct Reached {
    ticket: u64,
    place: (Participant, ServiceHash),
    tag: (u64, ServiceHash),
    service: ServiceHash,
}

impl Reached {
    /// Returns no key: nothing has been looked at yet.
    fn nothing() -> Reached {
        Reached {
            ticket: 0,
            place: (Participant::Node(0), ZEROS),
            tag: (0, ZEROS),
            service: ZEROS,
        }
    }
}

/// The way from one world to a later one, entry by entry.
#[derive(Drop)]
pub struct Course {
    spare: u64,
    pass: Pass,
    reached: Reached,
    // the node that locked a service for a number, until the service is as in the later world
    creating: Option<(u64, ServiceHash)>,
    // from the pass over numbers on
    plan: Option<Plan>,
    // how many more entries may come; `None` before the first entry
    left: Option<u64>,
}

/// Returns an entry with these parts.
fn entry(node: u64, hash: ServiceHash, operation: Operation) -> Entry {
    Entry {
        node,
        hash,
        operation,
    }
}

/// Returns the number of things in a world.
fn size(world: &StoredWorld) -> u64 {
    let services = (world.rows_held().len() as u64).saturating_add(
        world.segments_held().len() as u64,
    );
    let nodes = (world.phases_held().len() as u64).saturating_add(
        world.tickets_held().len() as u64,
    );
    services
        .saturating_add(nodes)
        .saturating_add(world.tags_held().len() as u64)
}

/// Returns a number greater than that of the entries that lead from one world to another. A service
/// takes seven: its lock, the removal of a segment from before, a segment, a description, a release
/// and two removals. A number that isn't used may be spent before each.
fn most(from: &StoredWorld, to: &StoredWorld) -> u64 {
    size(from)
        .saturating_add(size(to))
        .saturating_mul(16)
        .saturating_add(16)
}

/// Returns true if the node is registered, or was the last one to leave.
fn has_joined(phase: Phase) -> bool {
    match phase {
        Phase::Joined(_, _) | Phase::Leaving(_) | Phase::Cleared(_) => true,
        _ => false,
    }
}

/// Returns the number that the last one to leave left.
fn last_left(phase: Phase) -> Option<u64> {
    match phase {
        Phase::Leaving(number) | Phase::Cleared(number) => Some(number),
        _ => None,
    }
}

/// Returns the place of a key among the entries, or the place where it would be.
fn place_of<K: Ord, V>(entries: &[(K, V)], key: &K) -> usize {
    match entries.binary_search_by(|entry| entry.0.cmp(key)) {
        Ok(at) | Err(at) => at,
    }
}

/// Returns the entries from this key on.
fn from_key<'a, K: Ord, V>(entries: &'a [(K, V)], key: &K) -> &'a [(K, V)] {
    match entries.get(place_of(entries, key)..) {
        Some(rest) => rest,
        None => &[],
    }
}

impl Course {
    /// Returns a course that has given no entry yet. The node `spare`, which must be nobody's,
    /// spends numbers, and locks services for which no node is known.
    pub fn new(spare: u64) -> Course {
        Course {
            spare,
            pass: Pass::Leave,
            reached: Reached::nothing(),
            creating: None,
            plan: None,
            left: None,
        }
    }

    /// Returns the entry to be followed next, or `None` at the end. `Err` if there is no memory:
    /// then it can be called again. `from` is the world in which each entry that was given has been
    /// followed. `to` is the later one, which stays.
    ///
    /// The sizes of the worlds bound the number of entries. If `to` isn't later, an entry may be
    /// refused, or the entries end in another world.
    pub fn next(
        &mut self,
        alloc: Global,
        from: &StoredWorld,
        to: &StoredWorld,
    ) -> Result<Option<Entry>, AllocError> {
        let left = match self.left {
            Some(left) => left,
            None => most(from, to),
        };
        self.left = Some(left);
        if left == 0 {
            return Ok(None);
        }
        for _pass in 0..PASSES {
            if let Some(entry) = self.step(alloc, from, to)? {
                self.left = Some(left.saturating_sub(1));
                return Ok(Some(entry));
            }
            self.pass = self.pass.following();
            self.reached = Reached::nothing();
        }
        Ok(None)
    }

    // Returns the next entry of the pass, or `None` at its end.
    fn step(
        &mut self,
        alloc: Global,
        from: &StoredWorld,
        to: &StoredWorld,
    ) -> Result<Option<Entry>, AllocError> {
        match self.pass {
            Pass::Leave => Ok(leaving::next(&mut self.reached, from, to)),
            Pass::LeaveLast => Ok(leaving::next_last(&mut self.reached, from, to)),
            Pass::Settle | Pass::Finish => settling::next(alloc, &mut self.reached, from, to),
            Pass::Number => self.number(alloc, from, to),
            Pass::RemoveTags => Ok(tags::to_remove(&mut self.reached, from, to)),
            Pass::MakeTags => Ok(tags::to_make(&mut self.reached, from, to)),
            Pass::End => Ok(None),
        }
    }

    // Returns the next entry of the pass over numbers: first those of the service that is being created, and then those
    // of the counter's number.
    fn number(
        &mut self,
        alloc: Global,
        from: &StoredWorld,
        to: &StoredWorld,
    ) -> Result<Option<Entry>, AllocError> {
        if self.plan.is_none() {
            self.plan = Some(Plan::new(alloc, self.spare, from, to)?);
        }
        if let Some((node, hash)) = self.creating {
            if let Some(operation) = settling::operation(alloc, from, to, node, &hash)? {
                return Ok(Some(entry(node, hash, operation)));
            }
            self.creating = None;
        }
        Ok(self.at_counter(from, to))
    }

    // Returns the entry at the counter's number.
    fn at_counter(&mut self, from: &StoredWorld, to: &StoredWorld) -> Option<Entry> {
        let counter = from.counter();
        let next = self.next_number(counter, to);
        if counter < next {
            if let Some(entry) = self.at_gap(counter, from, to) {
                return Some(entry);
            }
            return Some(entry(self.spare, ZEROS, Operation::Spend { number: next }));
        }
        if counter >= to.counter() {
            return None;
        }
        if let Some(ticket) = to.ticket(counter) {
            if ticket.number != counter {
                let (node, number) = (ticket.node, ticket.number);
                return Some(self.opening(node, ticket.hash, number, from, to));
            }
        }
        let (node, hash) = self.maker(counter)?;
        Some(self.lock(node, hash, counter))
    }

    // Returns the first number from the counter on that anything in the later world has, or that world's counter.
    fn next_number(&self, counter: u64, to: &StoredWorld) -> u64 {
        let ticket = match from_key(to.tickets_held(), &counter).first() {
            Some(entry) => entry.0,
            None => to.counter(),
        };
        match &self.plan {
            Some(plan) => plan.next_number(counter).unwrap_or(ticket).min(ticket),
            None => ticket,
        }
    }

    // Returns the node that locks a service for this number, and the service.
    fn maker(&self, number: u64) -> Option<(u64, ServiceHash)> {
        match &self.plan {
            Some(plan) => plan.maker(number),
            None => None,
        }
    }

    // Returns the lock of the node. The next entries bring the service to its state in the later world.
    fn lock(&mut self, node: u64, hash: ServiceHash, number: u64) -> Entry {
        self.creating = Some((node, hash));
        entry(node, hash, Operation::Lock { number })
    }

    // Returns the entry at a number that nothing in the later world has. A node opens a service that it will leave
    // last, or locks a service of which only a segment is left, to remove it.
    fn at_gap(&mut self, counter: u64, from: &StoredWorld, to: &StoredWorld) -> Option<Entry> {
        if let Some((node, hash, number)) = plan::next_visitor(&mut self.reached, from, to) {
            return Some(self.opening(node, hash, number, from, to));
        }
        let hash = plan::next_remainder(&mut self.reached, from, to)?;
        Some(self.lock(self.spare, hash, counter))
    }

    // Returns the opening of the service by the node. If the service is full, its kept ticket is released first.
    fn opening(
        &self,
        node: u64,
        hash: ServiceHash,
        number: u64,
        from: &StoredWorld,
        to: &StoredWorld,
    ) -> Entry {
        if leaving::is_full(from, node, &hash) {
            if let Some(entry) = self.making_room(hash, from, to) {
                return entry;
            }
        }
        let ticket = from.counter();
        entry(node, hash, Operation::OpenSegment { number, ticket })
    }

    // Returns the release of the service's kept ticket.
    fn making_room(
        &self,
        hash: ServiceHash,
        from: &StoredWorld,
        to: &StoredWorld,
    ) -> Option<Entry> {
        let plan = self.plan.as_ref()?;
        leaving::release(plan.kept(&hash)?, &hash, from, to)
    }
}
