//! The opening of a service.

ghost use Rattle.std.specs.Prelude.{◌≡◌, Option, Some};
ghost use Rattle.iceoryx2_access.specs.Run.{Joins};
ghost use Rattle.iceoryx2_rounds.specs.OwnAttributes.{requiring};
ghost use Rattle.iceoryx2_rounds.specs.Verdict.{verdict};
ghost use Rattle.iceoryx2_rounds.specs.Opens.{IsOpenWord};
ghost use Rattle.iceoryx2_rounds.specs.OpenParts.{IsTaggedOpening, IsRound, IsRestOfRound, IsSecondLook};
ghost use Rattle.iceoryx2_rounds.specs.OpenParts as parts;
ghost use Rattle.iceoryx2_rounds.specs.Refusals.{of_opening, of_tag_opening};

use crate::caller::Caller;
use crate::give_back::give_back_tag;
use crate::look::{Outcome, Presence, look, open_error_of};
use crate::pattern::{OpenRefusal, Pattern};
use crate::port_factory::Registration;
use crate::verdict::need_attributes;
use iceoryx2_access::storage::{OpenSegmentError, Storage, Tag, TagError};
use iceoryx2_attribute::attribute::AttributeVerifier;
use iceoryx2_description::description::StaticConfig;

/// The number of times that an open tries again after a round that failed.
pub const OPEN_RETRIES: u64 = 5;

/// The limit is five.
pub fn open_retries_are_five()
    ensures { OPEN_RETRIES ≡ 5 }
{}

fn tag_refusal(error: TagError) -> OpenRefusal
    ensures { result ≡ of_tag_opening error }
{
    match error {
        TagError::Fault => OpenRefusal::InternalFailure,
        TagError::OutOfMemory => OpenRefusal::OutOfMemory,
    }
}

/// Returns the reason why a refused opening ends the call. `None` asks for a second look.
fn opening_refusal(error: OpenSegmentError) -> Option<OpenRefusal>
    ensures { result ≡ of_opening error }
{
    match error {
        OpenSegmentError::DoesNotExist => Some(OpenRefusal::ServiceInCorruptedState),
        OpenSegmentError::Marked => Some(OpenRefusal::IsMarkedForDestruction),
        OpenSegmentError::Full => Some(OpenRefusal::ExceedsMaxNumberOfNodes),
        OpenSegmentError::Failed => None,
        OpenSegmentError::OutOfNumbers => Some(OpenRefusal::InternalFailure),
        OpenSegmentError::OutOfMemory => Some(OpenRefusal::OutOfMemory),
    }
}

/// Tests if an existing service has the required attributes, and then if it meets the pattern's own
/// requirement.
#[tactic(auto, using(crate::proofs::Verdicts::verdict_append))]
fn verify<P: Pattern>(
    pattern: &P,
    verifier: &AttributeVerifier,
    existing: &StaticConfig,
) -> Result<(), P::OpenError>
    ensures { result ≡ verdict ((requiring verifier.now (P.meaning pattern.now)).requirement existing.now) }
{
    need_attributes(
        verifier,
        existing.attributes(),
        pattern.open_refusal(OpenRefusal::IncompatibleAttributes),
    )?;
    pattern.verify(existing)
}

/// Looks again after a failed opening, and gives the tag back. `None` asks for another round.
fn look_again<P: Pattern, S: Storage>(
    pattern: &P,
    caller: &Caller,
    tag: Tag,
    storage: &mut S,
) -> Option<P::OpenError>
    ensures { Joins S.step storage.old
        (λ word. IsSecondLook (P.meaning pattern.now) caller.now.node caller.now.hash tag result word) storage.new }
{
    let seen = look(pattern, caller, storage).presence();
    give_back_tag(caller.node, &caller.hash, tag, storage);
    match seen {
        Presence::AtFault(fault) => Some(open_error_of(pattern, fault)),
        Presence::Absent => Some(pattern.open_refusal(OpenRefusal::DoesNotExist)),
        Presence::Present => None,
    }
}

/// Makes the node's tag and opens the segment of this number. Returns a ticket, an error, or
/// `None`, which asks for another round.
fn open_with_tag<P: Pattern, S: Storage>(
    pattern: &P,
    caller: &Caller,
    number: u64,
    storage: &mut S,
) -> Option<Result<u64, P::OpenError>>
    ensures { Joins S.step storage.old
        (λ word. IsTaggedOpening (P.meaning pattern.now) caller.now.node caller.now.hash number result word)
        storage.new }
{
    let tag = match storage.make_tag(caller.node, &caller.hash) {
        Ok(tag) => tag,
        Err(error) => return Some(Err(pattern.open_refusal(tag_refusal(error)))),
    };
    match storage.open_segment(caller.node, &caller.hash, number) {
        Ok(ticket) => Some(Ok(ticket)),
        Err(error) => match opening_refusal(error) {
            Some(refusal) => {
                give_back_tag(caller.node, &caller.hash, tag, storage);
                Some(Err(pattern.open_refusal(refusal)))
            }
            None => match look_again(pattern, caller, tag, storage) {
                Some(error) => Some(Err(error)),
                None => None,
            },
        },
    }
}

/// Tests if the service that was found meets what the call requires, and then opens it. Returns a
/// ticket, an error, or `None`, which asks for another round.
fn open_found<P: Pattern, S: Storage>(
    pattern: &P,
    caller: &Caller,
    verifier: &AttributeVerifier,
    number: u64,
    existing: &StaticConfig,
    storage: &mut S,
) -> Option<Result<u64, P::OpenError>>
    ensures { let meaning = requiring verifier.now (P.meaning pattern.now) in
        let answer = parts.round_registration caller.now.node number existing.now result in Joins S.step storage.old
        (λ word. IsRestOfRound meaning caller.now.node caller.now.hash number existing.now word answer) storage.new }
{
    match verify(pattern, verifier, existing) {
        Ok(()) => open_with_tag(pattern, caller, number, storage),
        Err(error) => Some(Err(error)),
    }
}

/// The registration of the node that opened a service of this number and description, or the error;
/// `None` asks for another round.
fn registration_of<E>(
    node: u64,
    number: u64,
    answer: Option<Result<u64, E>>,
    description: StaticConfig,
) -> Option<Result<Registration, E>>
    ensures { result ≡ parts.round_registration node number description answer }
{
    let ticket = match answer {
        Some(Ok(ticket)) => ticket,
        Some(Err(error)) => return Some(Err(error)),
        None => return None,
    };
    Some(Ok(Registration::new(node, number, ticket, description)))
}

/// Makes one round. `None` asks for another one.
fn try_open<P: Pattern, S: Storage>(
    pattern: &P,
    caller: &Caller,
    verifier: &AttributeVerifier,
    storage: &mut S,
) -> Option<Result<Registration, P::OpenError>>
    ensures { let meaning = requiring verifier.now (P.meaning pattern.now) in
        Joins S.step storage.old (λ word. IsRound meaning caller.now.node caller.now.hash word result) storage.new }
{
    let (number, description) = match look(pattern, caller, storage) {
        Outcome::Faulty(fault) => return Some(Err(open_error_of(pattern, fault))),
        Outcome::Nothing => return Some(Err(pattern.open_refusal(OpenRefusal::DoesNotExist))),
        Outcome::Found(number, description) => (number, description),
    };
    let answer = open_found(pattern, caller, verifier, number, &description, storage);
    registration_of(caller.node, number, answer, description)
}

/// Opens the caller's service, in at most six rounds.
///
/// It tests the required attributes first, and then the settings as they are. The registration
/// carries the description that was read and accepted in the round that opened.
pub fn open<P: Pattern, S: Storage>(
    pattern: &P,
    caller: &Caller,
    verifier: &AttributeVerifier,
    storage: &mut S,
) -> Result<Registration, P::OpenError>
    ensures { let meaning = requiring verifier.now (P.meaning pattern.now) in
        Joins S.step storage.old (λ word. IsOpenWord meaning caller.now.node caller.now.hash word result) storage.new }
{
    for _round in 0..OPEN_RETRIES + 1 {
        match try_open(pattern, caller, verifier, storage) {
            Some(answer) => return answer,
            None => {}
        }
    }
    Err(pattern.open_refusal(OpenRefusal::ServiceInCorruptedState))
}
