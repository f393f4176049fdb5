//! The things that a node still has.

ghost use Rattle.std.specs.Prelude.{◌≡◌};
ghost use Rattle.iceoryx2_table.specs.Holdings.{held_ticket, held_service, held_tag};
ghost use Rattle.iceoryx2_table.specs.Holdings.{is_unfinished as is_unfinished_spec};

use iceoryx2_description::description::ServiceHash;
use iceoryx2_world::world::{Participant, Phase, Ticket};

/// Something that a node has, and that stays if the node doesn't give it back.
#[derive(Clone, Copy, Debug, PartialEq, Eq)]
pub enum Holding {
    /// A ticket for the service of this number.
    Ticket {
        ticket: u64,
        hash: ServiceHash,
        number: u64,
    },
    /// A service that it is creating, or that it left last and has to remove.
    Service {
        hash: ServiceHash,
        phase: Phase,
    },
    /// A tag for the service.
    Tag {
        hash: ServiceHash,
    },
}

/// Returns true if a node of this phase has the service's lock, or has to remove what is left of the
/// service.
pub fn is_unfinished(phase: Phase) -> bool
    ensures { result ≡ is_unfinished_spec phase }
{
    match phase {
        Phase::Locked(_) | Phase::Made(_) | Phase::Leaving(_) | Phase::Cleared(_) => true,
        _ => false,
    }
}

/// Returns the node's first ticket.
pub fn first_ticket(tickets: &[(u64, Ticket)], node: u64) -> Option<Holding>
    ensures { result ≡ held_ticket node tickets.now }
{
    match tickets.iter().find(|entry| entry.1.node == node) {
        None => None,
        Some(entry) => Some(Holding::Ticket {
            ticket: entry.0,
            hash: entry.1.hash,
            number: entry.1.number,
        }),
    }
}

/// Returns the first service that the node hasn't finished with.
pub fn first_service(phases: &[((Participant, ServiceHash), Phase)], node: u64) -> Option<Holding>
    ensures { result ≡ held_service node phases.now }
{
    let participant = Participant::Node(node);
    match phases.iter().find(|entry| entry.0.0.cmp(&participant).is_eq()
        && is_unfinished(entry.1))
    {
        None => None,
        Some(entry) => Some(Holding::Service {
            hash: entry.0.1,
            phase: entry.1,
        }),
    }
}

/// Returns the node's first tag.
pub fn first_tag(tags: &[((u64, ServiceHash), ())], node: u64) -> Option<Holding>
    ensures { result ≡ held_tag node tags.now }
{
    match tags.iter().find(|entry| entry.0.0 == node) {
        None => None,
        Some(entry) => Some(Holding::Tag { hash: entry.0.1 }),
    }
}
