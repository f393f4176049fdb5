//! Which services there are in a world, and which nodes are in them.

ghost use Rattle.std.specs.Prelude.{◌≡◌, ◌||◌, IfOk, OnOk};
ghost use Rattle.std.specs.FinMap as map;
ghost use Rattle.std.specs.List.{find, flat_map};
ghost use Rattle.std.specs.Option.{option_map};
ghost use Rattle.std.specs.List.Sorted.{IsPermutation, IsSorted};
ghost use Rattle.iceoryx2_world.specs.Access.{has_lock, has_made};
ghost use Rattle.iceoryx2_world.specs.World.{join_count};
ghost use Rattle.wulameron_view.specs.Services.{AreServices, AreServicesOf, IsServiceOf};
ghost use Rattle.wulameron_view.specs.Services.{creation_of, holder_of, is_holder, members_of};
ghost use Rattle.wulameron_view.specs.Services.{rank as rank_of, service_cmp};

use iceoryx2_data::bytes::{DecodeError, decode};
use iceoryx2_description::description::{MessagingPattern, ServiceHash, StaticConfig};
use iceoryx2_table::rows::{RowState, StoredRow};
use iceoryx2_table::segments::StoredSegment;
use iceoryx2_table::table::stored::StoredWorld;
use iceoryx2_world::world::{Participant, Phase};
use std::alloc::{AllocError, Global};
use std::cmp::Ordering;

/// A node that is in a service.
#[derive(Clone, Copy)]
pub struct Member {
    pub node: u64,
    /// How many factories of the service it has.
    pub factories: u64,
}

/// A service that is published.
pub struct Service {
    pub hash: ServiceHash,
    pub number: u64,
    pub description: StaticConfig,
    /// How many nodes its segment takes.
    pub max_nodes: u64,
    /// Each node once, by rising number.
    pub members: Vec<Member>,
}

// It is written out, so that proofs of what lets one go don't pay for each field.
impl Drop for Service {
    fn drop(self) {
        let Service {
            hash: _,
            number: _,
            description: _,
            max_nodes: _,
            members: _,
        } = self;
    }
}

/// A service that is being created. Only its hash and its number are known.
#[derive(Clone, Copy)]
pub struct Creation {
    pub hash: ServiceHash,
    pub number: u64,
    /// The node that holds its lock.
    pub node: Option<u64>,
}

/// The services of a world.
#[derive(Drop)]
pub struct Services {
    /// By the bytes of the name, then by pattern, then by hash.
    pub published: Vec<Service>,
    /// By hash.
    pub creations: Vec<Creation>,
}

/// Returns the services of a world, each once. It leaves out a row whose bytes are no description, which a world that
/// agrees doesn't have. It leaves out a row without a segment: its last node has left, and is removing it. Peers, which
/// a world of a log doesn't have, aren't among the nodes in a service. `AllocError` if there is no memory.
pub fn services_of(alloc: Global, world: &StoredWorld) -> Result<Services, AllocError>
    ensures { IfOk result (AreServicesOf world.now) }
{
    let mut published = published_of(alloc, world)?;
    sort(&mut published)?;
    let creations = creations_of(alloc, world)?;
    Ok(Services {
        published,
        creations,
    })
}

/// Sorts services.
fn sort(services: &mut Vec<Service>) -> Result<(), AllocError>
    ensures same { IsPermutation services.old.items services.new.items }
    ensures ordered { OnOk result (IsSorted service_cmp services.new.items) }
{
    services.sort_by(|a, b| compare(a, b))
}

/// Returns the published services, in the order of their hashes.
fn published_of(alloc: Global, world: &StoredWorld) -> Result<Vec<Service>, AllocError>
    ensures { IfOk result (λ services. AreServices world.now (map.entries world.now.rows) services.items) }
{
    let mut found = Vec::new(alloc);
    for entry in world.rows_held() {
        match service_of(alloc, world, &entry.0, &entry.1)? {
            Some(service) => found.push(service)?,
            None => {}
        }
    }
    Ok(found)
}

/// Returns the service of a row, if it has one.
fn service_of(
    alloc: Global,
    world: &StoredWorld,
    hash: &ServiceHash,
    row: &StoredRow,
) -> Result<Option<Service>, AllocError>
    ensures { IfOk result (IsServiceOf world.now hash.now row.now) }
{
    let RowState::Published(number) = row.state() else {
        return Ok(None);
    };
    let Some(segment) = world.segment(hash) else {
        return Ok(None);
    };
    match decode(alloc, row.bytes().as_slice()) {
        Ok(description) => Ok(Some(described(alloc, world, hash, number, description, segment)?)),
        Err(DecodeError::Malformed) => Ok(None),
        Err(DecodeError::OutOfMemory) => Err(AllocError),
    }
}

/// Returns the service of this description, and the nodes in its segment.
fn described(
    alloc: Global,
    world: &StoredWorld,
    hash: &ServiceHash,
    number: u64,
    description: StaticConfig,
    segment: &StoredSegment,
) -> Result<Service, AllocError>
    ensures hash { IfOk result (λ service. service.hash ≡ hash.now) }
    ensures number { IfOk result (λ service. service.number ≡ number) }
    ensures description { IfOk result (λ service. service.description ≡ description) }
    ensures room { IfOk result (λ service. service.max_nodes ≡ segment.now.capacity) }
    ensures members { IfOk result (λ service.
        service.members.items ≡ members_of world.now hash.now (map.entries segment.now.participants)) }
{
    let members = members(alloc, world, hash, segment.participants())?;
    Ok(Service {
        hash: *hash,
        number,
        description,
        max_nodes: segment.capacity(),
        members,
    })
}

/// Returns the nodes among the participants of a service, with how many factories each has.
fn members(
    alloc: Global,
    world: &StoredWorld,
    hash: &ServiceHash,
    participants: &[(Participant, ())],
) -> Result<Vec<Member>, AllocError>
    ensures { IfOk result (λ members. members.items ≡ members_of world.now hash.now participants.now) }
{
    let mut members = Vec::new(alloc);
    for entry in participants {
        match entry.0 {
            Participant::Node(node) => members.push(Member {
                node,
                factories: factories(world.phase(node, hash)),
            })?,
            Participant::Peer(_) => {}
        }
    }
    Ok(members)
}

/// Returns how many factories a node of this phase has.
fn factories(phase: Phase) -> u64
    ensures { result ≡ join_count phase }
{
    match phase {
        Phase::Joined(_, count) => count,
        _ => 0,
    }
}

/// Compares by name, pattern and hash.
fn compare(one: &Service, other: &Service) -> Ordering
    ensures { result ≡ service_cmp one.now other.now }
{
    let ours = one.description.name().as_str();
    let theirs = other.description.name().as_str();
    let pattern = rank(one.description.messaging_pattern());
    let other_pattern = rank(other.description.messaging_pattern());
    ours.cmp(theirs).then(pattern.cmp(&other_pattern).then(one.hash.cmp(&other.hash)))
}

/// Returns the place of a pattern's services among those of one name.
fn rank(pattern: &MessagingPattern) -> u8
    ensures { result ≡ rank_of pattern.now }
{
    match pattern {
        MessagingPattern::Event(_) => 0,
        MessagingPattern::PublishSubscribe(_) => 1,
        MessagingPattern::RequestResponse(_) => 2,
    }
}

/// Returns the services that are being created, in the order of their hashes.
fn creations_of(alloc: Global, world: &StoredWorld) -> Result<Vec<Creation>, AllocError>
    ensures { IfOk result (λ creations.
        creations.items ≡ flat_map (creation_of world.now) (map.entries world.now.rows)) }
{
    let mut creations = Vec::new(alloc);
    for entry in world.rows_held() {
        match entry.1.state() {
            RowState::Locked(number) => creations.push(Creation {
                hash: entry.0,
                number,
                node: holder(world, &entry.0, number),
            })?,
            RowState::Published(_) => {}
        }
    }
    Ok(creations)
}

/// Returns the node that holds the service's lock of this number.
fn holder(world: &StoredWorld, hash: &ServiceHash, number: u64) -> Option<u64>
    ensures { result ≡ holder_of world.now hash.now number }
{
    match first_holder(world.phases_held(), hash, number) {
        None | Some(Participant::Peer(_)) => None,
        Some(Participant::Node(node)) => Some(node),
    }
}

/// Returns the first participant that holds the service's lock of this number.
fn first_holder(
    phases: &[((Participant, ServiceHash), Phase)],
    hash: &ServiceHash,
    number: u64,
) -> Option<Participant>
    ensures { result ≡ option_map (λ e. e.0.0) (find (is_holder hash.now number) phases.now) }
{
    match phases.iter().find(|entry| entry.0.1.cmp(hash).is_eq() && is_at(entry.1, number)) {
        None => None,
        Some(entry) => Some(entry.0.0),
    }
}

/// Returns whether it holds the lock of this number.
fn is_at(phase: Phase, number: u64) -> bool
    ensures { result ≡ (has_lock number phase || has_made number phase) }
{
    match phase {
        Phase::Locked(held) | Phase::Made(held) => held == number,
        _ => false,
    }
}
