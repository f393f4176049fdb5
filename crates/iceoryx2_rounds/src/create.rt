//! The creation of a service.

ghost use Rattle.std.specs.Prelude.{◌≡◌, IfOk};
ghost use Rattle.iceoryx2_access.specs.Run.{Joins};
ghost use Rattle.iceoryx2_rounds.specs.OwnAttributes.{defining};
ghost use Rattle.iceoryx2_rounds.specs.Answers.{map_ok};
ghost use Rattle.iceoryx2_rounds.specs.Creates as creates;
ghost use Rattle.iceoryx2_rounds.specs.Creates.{IsCreateWord, IsServiceWord, description_of, factory_of};
ghost use Rattle.iceoryx2_rounds.specs.CreateParts.{IsPrecheck, IsRestIfDescribed, IsRestOfCreate, IsStart};
ghost use Rattle.iceoryx2_rounds.specs.Refusals.{of_lock, of_make, of_publish, of_remove, of_tag};
ghost use Rattle.iceoryx2_rounds.specs.Segments.{IsSegmentWord};

use crate::caller::Caller;
use crate::give_back::{give_back_lock, give_back_segment, give_back_tag};
use crate::look::{Presence, create_error_of, look};
use crate::pattern::{CreateRefusal, Pattern};
use crate::port_factory::Registration;
use iceoryx2_access::storage::{
    LockError, MakeSegmentError, PublishError, RemoveError, Storage, Tag, TagError,
};
use iceoryx2_attribute::attribute::AttributeSet;
use iceoryx2_description::description::{ServiceHash, StaticConfig};
use iceoryx2_description::time::{ClockFault, Time};
use std::alloc::AllocError;

/// The number of segments of others that a create removes before it gives up on making its own.
pub const CLEARING_LIMIT: u64 = 5;

/// The limit is five.
pub fn clearing_limit_is_five()
    ensures { CLEARING_LIMIT ≡ 5 }
{}

fn tag_refusal(error: TagError) -> CreateRefusal
    ensures { result ≡ of_tag error }
{
    match error {
        TagError::Fault => CreateRefusal::InternalFailure,
        TagError::OutOfMemory => CreateRefusal::OutOfMemory,
    }
}

fn lock_refusal(error: LockError) -> CreateRefusal
    ensures { result ≡ of_lock error }
{
    match error {
        LockError::AlreadyExists => CreateRefusal::AlreadyExists,
        LockError::Creation => CreateRefusal::IsBeingCreatedByAnotherInstance,
        LockError::InsufficientPermissions => CreateRefusal::InsufficientPermissions,
        LockError::Other => CreateRefusal::InternalFailure,
        LockError::OutOfMemory => CreateRefusal::OutOfMemory,
    }
}

/// Returns the reason why a refused making ends the call. `None`: a segment is there, which is
/// removed.
fn make_refusal(error: MakeSegmentError) -> Option<CreateRefusal>
    ensures { result ≡ of_make error }
{
    match error {
        MakeSegmentError::AlreadyExists => None,
        MakeSegmentError::InsufficientPermissions => Some(CreateRefusal::InsufficientPermissions),
        MakeSegmentError::Other => Some(CreateRefusal::InternalFailure),
        MakeSegmentError::OutOfMemory => Some(CreateRefusal::OutOfMemory),
    }
}

fn remove_refusal(error: RemoveError) -> CreateRefusal
    ensures { result ≡ of_remove error }
{
    match error {
        RemoveError::InsufficientPermissions => CreateRefusal::InsufficientPermissions,
        RemoveError::Other => CreateRefusal::InternalFailure,
    }
}

fn publish_refusal(error: PublishError) -> CreateRefusal
    ensures { result ≡ of_publish error }
{
    match error {
        PublishError::Other => CreateRefusal::ServiceInCorruptedState,
        PublishError::OutOfMemory => CreateRefusal::OutOfMemory,
    }
}

/// Returns true if the clock stops a create.
fn clock_stops(needs_clock: bool, now: &Result<Time, ClockFault>) -> bool
    ensures { result ≡ creates.clock_stops needs_clock now.now }
{
    match now {
        Ok(_) => false,
        Err(_) => needs_clock,
    }
}

/// Returns what a create publishes of its call, with the caller as its creator. It takes over the
/// name and the types of messages, and copies the attributes. `AllocError` if there was no memory
/// for the attributes.
fn take_over<P: Pattern>(
    pattern: P,
    caller: Caller,
    attributes: &AttributeSet,
) -> Result<StaticConfig, AllocError>
    ensures { let meaning = defining attributes.now (P.meaning pattern) in
        IfOk result (λ made. made ≡ description_of meaning caller) }
{
    let attributes = attributes.clone()?;
    let time = match caller.clock {
        Ok(time) => time,
        Err(_) => Time::default(),
    };
    let (node, hash) = (caller.node, caller.hash);
    let published = pattern.into_published(time);
    let description = StaticConfig::new(hash, caller.into_name(), attributes, published);
    Ok(description.with_creator(node))
}

/// Returns the same as `take_over`, made of copies, since a later round may need the name and the
/// types again.
fn describe<P: Pattern>(
    pattern: &P,
    caller: &Caller,
    attributes: &AttributeSet,
) -> Result<StaticConfig, AllocError>
    ensures { let meaning = defining attributes.now (P.meaning pattern.now) in
        IfOk result (λ made. made ≡ description_of meaning caller.now) }
{
    let caller = caller.clone()?;
    let pattern = pattern.copy()?;
    take_over(pattern, caller, attributes)
}

/// Makes the segment. Before each further try it removes anything that was left of another segment.
fn make_own_segment<S: Storage>(
    node: u64,
    hash: &ServiceHash,
    number: u64,
    max_nodes: u64,
    storage: &mut S,
) -> Result<(), CreateRefusal>
    ensures { Joins S.step storage.old
        (λ word. IsSegmentWord node hash.now number max_nodes word result) storage.new }
{
    for _removed in 0..CLEARING_LIMIT {
        match storage.make_segment(node, hash, number, max_nodes) {
            Ok(()) => return Ok(()),
            Err(error) => match make_refusal(error) {
                Some(refusal) => return Err(refusal),
                None => {}
            },
        }
        match storage.remove_segment(node, hash) {
            Ok(()) => {}
            Err(error) => return Err(remove_refusal(error)),
        }
    }
    match storage.make_segment(node, hash, number, max_nodes) {
        Ok(()) => Ok(()),
        Err(error) => match make_refusal(error) {
            Some(refusal) => Err(refusal),
            None => Err(CreateRefusal::ServiceInCorruptedState),
        },
    }
}

/// Looks, and asks for the node. Returns the reason if the hash isn't free for the node.
fn precheck<P: Pattern, S: Storage>(
    pattern: &P,
    caller: &Caller,
    storage: &mut S,
) -> Option<P::CreateError>
    ensures { Joins S.step storage.old
        (λ word. IsPrecheck (P.meaning pattern.now) caller.now.node caller.now.hash word result) storage.new }
{
    match look(pattern, caller, storage).presence() {
        Presence::AtFault(fault) => return Some(create_error_of(pattern, fault)),
        Presence::Present => return Some(pattern.create_refusal(CreateRefusal::AlreadyExists)),
        Presence::Absent => {}
    }
    if storage.counts(caller.node, &caller.hash) {
        return Some(pattern.create_refusal(CreateRefusal::ServiceInCorruptedState));
    }
    None
}

/// Returns the reason if a create ends before it describes its service: its settings forbid it, or
/// the hash isn't free for the node. `None`: neither.
fn refusal_at_first<P: Pattern, S: Storage>(
    pattern: &P,
    caller: &Caller,
    storage: &mut S,
) -> Option<P::CreateError>
    ensures { Joins S.step storage.old
        (λ word. IsStart (P.meaning pattern.now) caller.now.node caller.now.hash word result) storage.new }
{
    match pattern.settings_refusal() {
        Some(error) => Some(error),
        None => precheck(pattern, caller, storage),
    }
}

/// Creates the caller's service, with these attributes.
///
/// Zeros that a create raises become one first. If the pattern tells when a service is created,
/// that is the caller's time. A refused create gives back, in this order, the segment, the lock and
/// the tag that it made. It tries each removal, and a refused one doesn't change its answer. It
/// publishes copies of the name and of the types of messages, so it may be called again.
pub fn create<P: Pattern, S: Storage>(
    pattern: &mut P,
    caller: &Caller,
    attributes: &AttributeSet,
    storage: &mut S,
) -> Result<Registration, P::CreateError>
    ensures adjusted { pattern.new ≡ P.adjusted pattern.old }
    ensures word { let meaning = defining attributes.now (P.meaning (P.adjusted pattern.old)) in
        Joins S.step storage.old (λ word. IsCreateWord meaning caller.now word result) storage.new }
{
    pattern.adjust();
    create_adjusted(pattern, caller, attributes, storage)
}

/// Creates a service with settings as they are.
fn create_adjusted<P: Pattern, S: Storage>(
    pattern: &P,
    caller: &Caller,
    attributes: &AttributeSet,
    storage: &mut S,
) -> Result<Registration, P::CreateError>
    ensures { let meaning = defining attributes.now (P.meaning pattern.now) in
        Joins S.step storage.old (λ word. IsCreateWord meaning caller.now word result) storage.new }
{
    match refusal_at_first(pattern, caller, storage) {
        Some(error) => return Err(error),
        None => {}
    }
    let stopped = clock_stops(pattern.needs_clock(), &caller.clock);
    let described = describe(pattern, caller, attributes);
    create_described::<P, S>(caller.node, &caller.hash, stopped, described, storage)
}

/// Creates the caller's service as `create` does, but takes over the name and the types of
/// messages. It copies only the attributes of what it publishes.
pub fn create_once<P: Pattern, S: Storage>(
    mut pattern: P,
    caller: Caller,
    attributes: &AttributeSet,
    storage: &mut S,
) -> Result<Registration, P::CreateError>
    ensures { let meaning = defining attributes.now (P.meaning (P.adjusted pattern)) in
        Joins S.step storage.old (λ word. IsCreateWord meaning caller word result) storage.new }
{
    pattern.adjust();
    match refusal_at_first(&pattern, &caller, storage) {
        Some(error) => return Err(error),
        None => {}
    }
    let stopped = clock_stops(pattern.needs_clock(), &caller.clock);
    let node = caller.node;
    let hash = caller.hash;
    let described = take_over(pattern, caller, attributes);
    create_described::<P, S>(node, &hash, stopped, described, storage)
}

/// Creates a service of this description, or ends with `OutOfMemory` if there was no memory for it.
fn create_described<P: Pattern, S: Storage>(
    node: u64,
    hash: &ServiceHash,
    stopped: bool,
    described: Result<StaticConfig, AllocError>,
    storage: &mut S,
) -> Result<Registration, P::CreateError>
    ensures { (asked : P) → Joins S.step storage.old
        (λ word. IsRestIfDescribed (P.meaning asked) node hash.now stopped described word result) storage.new }
{
    let description = match described {
        Ok(description) => description,
        Err(_) => return Err(P::create_error(CreateRefusal::OutOfMemory)),
    };
    let created = make_tagged::<P, S>(node, hash, stopped, &description, storage);
    registration_of(node, created, description)
}

/// The numbers of a created service.
struct Created {
    number: u64,
    /// The creator's ticket.
    ticket: u64,
}

/// Returns the registration of the node that created a service of this description.
fn registration_of<E>(
    node: u64,
    created: Result<Created, E>,
    description: StaticConfig,
) -> Result<Registration, E>
    ensures { result ≡ map_ok (factory_of node description) created }
{
    let Created { number, ticket } = match created {
        Ok(created) => created,
        Err(error) => return Err(error),
    };
    Ok(Registration::new(node, number, ticket, description))
}

/// Makes the tag, and then the service, unless the clock stops the create.
fn make_tagged<P: Pattern, S: Storage>(
    node: u64,
    hash: &ServiceHash,
    stopped: bool,
    description: &StaticConfig,
    storage: &mut S,
) -> Result<Created, P::CreateError>
    ensures { let answer = map_ok (factory_of node description.now) result in
        (asked : P) → Joins S.step storage.old
        (λ word. IsRestOfCreate (P.meaning asked) node hash.now stopped description.now word answer) storage.new }
{
    let tag = match storage.make_tag(node, hash) {
        Ok(tag) => tag,
        Err(error) => return Err(P::create_error(tag_refusal(error))),
    };
    if stopped {
        give_back_tag(node, hash, tag, storage);
        return Err(P::create_error(CreateRefusal::InternalFailure));
    }
    make_service::<P, S>(node, hash, tag, description, storage)
}

/// Locks the hash, makes the segment, and publishes the description.
fn make_service<P: Pattern, S: Storage>(
    node: u64,
    hash: &ServiceHash,
    tag: Tag,
    description: &StaticConfig,
    storage: &mut S,
) -> Result<Created, P::CreateError>
    ensures { let answer = map_ok (factory_of node description.now) result in
        (asked : P) → Joins S.step storage.old
        (λ word. IsServiceWord (P.meaning asked) node hash.now description.now tag word answer) storage.new }
{
    let number = match storage.lock(node, hash) {
        Ok(number) => number,
        Err(error) => {
            give_back_tag(node, hash, tag, storage);
            return Err(P::create_error(lock_refusal(error)));
        }
    };
    let max_nodes = description.max_nodes();
    match make_own_segment(node, hash, number, max_nodes, storage) {
        Ok(()) => {}
        Err(refusal) => {
            give_back_lock(node, hash, tag, storage);
            return Err(P::create_error(refusal));
        }
    }
    match storage.publish(node, hash, number, description) {
        Ok(ticket) => Ok(Created { number, ticket }),
        Err(error) => {
            give_back_segment(node, hash, tag, storage);
            Err(P::create_error(publish_refusal(error)))
        }
    }
}
