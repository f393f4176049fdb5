//! Finds what cleaning up for nodes would release: it is tried in a world of its own, of which no log has anything.

ghost use Rattle.std.specs.Prelude.{◌≡◌};
ghost use Rattle.iceoryx2_access.specs.Letter.{Letter};
ghost use Rattle.iceoryx2_access.specs.Letter as letter;
ghost use Rattle.iceoryx2_world.specs.Access.{IsOwnPart};
ghost use Rattle.iceoryx2_journal.specs.Cleaning.{GivesUp, given_back, has_segment as has_segment_spec, if_granted};
ghost use Rattle.iceoryx2_journal.specs.Cleaning.{nothing_given, step_with, with_one};
ghost use Rattle.iceoryx2_journal.specs.declared.cleaning.GivenBack.TheVariants as given;
ghost use Rattle.std.specs.Prelude.{Some};
ghost use Rattle.wulameron_place.specs.Rehearsal.{Rehearses, RehearsesNext};

use iceoryx2_access::storage::{Release, ReleaseError, RemoveError};
use iceoryx2_description::description::ServiceHash;
use iceoryx2_journal::cleaning::{Cleaned, GivenBack, Step};
use iceoryx2_table::holdings::Holding;
use iceoryx2_table::recorder::Unrecorded;
use iceoryx2_table::table::stored::StoredWorld;
use iceoryx2_world::world::Phase;

// ---- a node's own parts, of which no log has an entry

fn release(
    world: &mut StoredWorld,
    ticket: u64,
    node: u64,
    hash: &ServiceHash,
    number: u64,
) -> Result<Release, ReleaseError>
    ensures { IsOwnPart world.old (letter.Release ticket node hash.now number result) world.new }
{
    world.release(&mut Unrecorded, ticket, node, hash, number)
}

fn remove_segment(world: &mut StoredWorld, node: u64, hash: &ServiceHash) -> Result<(), RemoveError>
    ensures { IsOwnPart world.old (letter.RemoveSegment node hash.now result) world.new }
{
    world.remove_segment(&mut Unrecorded, node, hash)
}

fn remove_description(
    world: &mut StoredWorld,
    node: u64,
    hash: &ServiceHash,
) -> Result<(), RemoveError>
    ensures { IsOwnPart world.old (letter.RemoveDescription node hash.now result) world.new }
{
    world.remove_description(&mut Unrecorded, node, hash)
}

fn remove_tag(world: &mut StoredWorld, node: u64, hash: &ServiceHash) -> Result<(), RemoveError>
    ensures { IsOwnPart world.old (letter.RemoveTag node hash.now result) world.new }
{
    world.remove_tag(&mut Unrecorded, node, hash)
}

// ---- what a node has

/// Returns whether there is a segment that a node of this phase has to remove.
fn has_segment(phase: Phase) -> bool
    ensures { result ≡ has_segment_spec phase }
{
    match phase {
        Phase::Made(_) | Phase::Leaving(_) => true,
        _ => false,
    }
}

// Returns something that was removed, if that was granted.
fn thing(removed: Result<(), RemoveError>) -> Option<GivenBack>
    ensures { result ≡ if_granted given.Thing removed }
{
    match removed {
        Ok(()) => Some(GivenBack::Thing),
        Err(_) => None,
    }
}

/// Releases what the node has. `None` if the world refuses that.
fn give_back(world: &mut StoredWorld, node: u64, held: Holding) -> Option<GivenBack>
    ensures { (l : Letter) × GivesUp node held l × (given_back l ≡ result) × IsOwnPart world.old l world.new }
{
    match held {
        Holding::Ticket {
            ticket,
            hash,
            number,
        } => match release(world, ticket, node, &hash, number) {
            Ok(_) => Some(GivenBack::Ticket),
            Err(_) => None,
        },
        Holding::Service { hash, phase } => {
            if has_segment(phase) {
                return thing(remove_segment(world, node, &hash));
            }
            thing(remove_description(world, node, &hash))
        }
        Holding::Tag { hash } => thing(remove_tag(world, node, &hash)),
    }
}

/// Returns the step in which this was released.
fn step_of(given: Option<GivenBack>) -> Step
    ensures { result ≡ step_with given }
{
    match given {
        Some(given) => Step::Gave(given),
        None => Step::Refused,
    }
}

/// Adds one more.
fn with(cleaned: Cleaned, given: GivenBack) -> Cleaned
    ensures { result ≡ with_one cleaned (Some given) }
{
    match given {
        GivenBack::Ticket => Cleaned {
            releases: cleaned.releases.saturating_add(1),
            removals: cleaned.removals,
        },
        GivenBack::Thing => Cleaned {
            releases: cleaned.releases,
            removals: cleaned.removals.saturating_add(1),
        },
    }
}

/// Releases one thing that the node has.
fn rehearse_next(world: &mut StoredWorld, node: u64) -> Step
    ensures { RehearsesNext node result world.old world.new }
{
    let Some(held) = world.holding(node) else {
        return Step::Finished;
    };
    step_of(give_back(world, node, held))
}

/// Releases what a node has in this world, as `Journal::clean` does, and returns how much that was. `None` if the world
/// refuses a step of it; what was released before stays released.
pub fn rehearse(world: &mut StoredWorld, node: u64) -> Option<Cleaned>
    ensures { Rehearses node result world.old world.new }
{
    let mut cleaned = Cleaned {
        releases: 0,
        removals: 0,
    };
    for _ in 0..u64::MAX {
        match rehearse_next(world, node) {
            Step::Gave(given) => cleaned = with(cleaned, given),
            Step::Finished => return Some(cleaned),
            Step::Refused => return None,
        }
    }
    None
}
