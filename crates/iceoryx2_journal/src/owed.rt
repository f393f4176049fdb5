//! Anything that a node has besides the factories that it still uses, and its own accesses that
//! give that back.

ghost use Rattle.std.specs.Prelude.{◌≡◌};
ghost use Rattle.std.specs.FinMap as map;
ghost use Rattle.iceoryx2_access.specs.Letter.{Letter};
ghost use Rattle.iceoryx2_journal.specs.Cleaning.{GivesUp, given_back};
ghost use Rattle.iceoryx2_journal.specs.Owed.{IsOwedOrNone};
ghost use Rattle.iceoryx2_journal.specs.Owed.{owed_tag as owed_tag_spec, owed_ticket as owed_ticket_spec};

use crate::cleaning::{GivenBack, has_segment, thing};
use crate::taking::has;
use iceoryx2_access::storage::Storage;
use iceoryx2_table::holdings::{Holding, first_service};
use iceoryx2_table::table::stored::StoredWorld;
use iceoryx2_world::world::Ticket;

// Returns the node's first ticket that isn't spared.
fn owed_ticket(tickets: &[(u64, Ticket)], node: u64, spared: &[u64]) -> Option<Holding>
    ensures { result ≡ owed_ticket_spec node spared.now tickets.now }
{
    match tickets
        .iter()
        .find(|entry| entry.1.node == node && !has(spared, entry.0))
    {
        None => None,
        Some(entry) => Some(Holding::Ticket {
            ticket: entry.0,
            hash: entry.1.hash,
            number: entry.1.number,
        }),
    }
}

// Returns the node's first tag for a service for which it has no ticket.
fn owed_tag(world: &StoredWorld, node: u64) -> Option<Holding>
    ensures { result ≡ owed_tag_spec node world.now.tickets (map.entries world.now.tags) }
{
    match world.tags_held().iter().find(|entry| entry.0.0 == node
        && world.tickets(node, &entry.0.1) == 0)
    {
        None => None,
        Some(entry) => Some(Holding::Tag { hash: entry.0.1 }),
    }
}

/// Returns something that the node has besides the factories with these tickets. It is the node's
/// first other ticket. If there is none, it is the first service that the node is creating or has
/// to remove. If there is none either, it is the node's first tag for a service for which it has no
/// ticket. `None` if the node has none of these.
pub fn owed(world: &StoredWorld, node: u64, spared: &[u64]) -> Option<Holding>
    ensures { IsOwedOrNone world.now node spared.now result }
{
    if let Some(ticket) = owed_ticket(world.tickets_held(), node, spared) {
        return Some(ticket);
    }
    if let Some(service) = first_service(world.phases_held(), node) {
        return Some(service);
    }
    owed_tag(world, node)
}

/// Gives back what the node has, by an access of its own. `None` if that is refused.
pub fn give_back_by<S: Storage>(storage: &mut S, node: u64, held: Holding) -> Option<GivenBack>
    ensures { (l : Letter) × GivesUp node held l × (given_back l ≡ result) × S.step storage.old l storage.new }
{
    match held {
        Holding::Ticket {
            ticket,
            hash,
            number,
        } => match storage.release(ticket, node, &hash, number) {
            Ok(_) => Some(GivenBack::Ticket),
            Err(_) => None,
        },
        Holding::Service { hash, phase } => {
            if has_segment(phase) {
                return thing(storage.remove_segment(node, &hash));
            }
            thing(storage.remove_description(node, &hash))
        }
        Holding::Tag { hash } => thing(storage.remove_tag(node, &hash)),
    }
}
