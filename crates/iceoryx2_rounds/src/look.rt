//! The look by which a call finds out if there is a service.

ghost use Rattle.std.specs.Prelude.{◌≡◌, ℕ, List, Ok};
ghost use Rattle.iceoryx2_data.specs.Form.{IsForm};
ghost use Rattle.iceoryx2_access.specs.Letter.{fetch_answer};
ghost use Rattle.iceoryx2_access.specs.Run.{Joins};
ghost use Rattle.iceoryx2_rounds.specs.Looks.{IsLookWord, LeadsTo, found_unless, presence_of};
ghost use Rattle.iceoryx2_rounds.specs.Refusals as refusals;

use crate::caller::Caller;
use crate::pattern::{CreateRefusal, OpenRefusal, Pattern};
use iceoryx2_access::storage::{Existence, FetchError, Storage};
use iceoryx2_data::bytes::{DecodeError, decode};
use iceoryx2_description::description::{ServiceHash, StaticConfig};
use std::alloc::Global;

/// A fault that a look finds.
#[derive(Clone, Copy)]
pub enum Fault<E> {
    /// The description can't be read.
    InsufficientPermissions,
    /// Somebody is creating the service.
    HangsInCreation,
    /// The storage is at fault, or the description is none of this service.
    Corrupted,
    /// There was no memory for the description.
    OutOfMemory,
    /// The service has another pattern or other message types. The value is the error of an open.
    Misfit(E),
}

/// The outcome of a look.
#[derive(Drop)]
pub enum Outcome<E> {
    Nothing,
    /// A service of the pattern and the message types, with its number.
    Found(u64, StaticConfig),
    Faulty(Fault<E>),
}

/// The outcome of a look, for a call that needs no description of it.
pub enum Presence<E> {
    /// There is nothing.
    Absent,
    /// There is a service of the pattern and the message types.
    Present,
    /// A fault that a look finds.
    AtFault(Fault<E>),
}

impl<E> Outcome<E> {
    /// Returns the outcome without the number and the description of what was found.
    pub fn presence(self) -> Presence<E>
        ensures { result ≡ presence_of self }
    {
        match self {
            Outcome::Nothing => Presence::Absent,
            Outcome::Found(_, _) => Presence::Present,
            Outcome::Faulty(fault) => Presence::AtFault(fault),
        }
    }
}

/// Returns the error of an open whose look finds this fault.
pub fn open_error_of<P: Pattern>(pattern: &P, fault: Fault<P::OpenError>) -> P::OpenError
    ensures { result ≡ refusals.open_error_of (P.meaning pattern.now) fault }
{
    match fault {
        Fault::InsufficientPermissions => pattern.open_refusal(
            OpenRefusal::InsufficientPermissions,
        ),
        Fault::HangsInCreation => pattern.open_refusal(OpenRefusal::HangsInCreation),
        Fault::Corrupted => pattern.open_refusal(OpenRefusal::ServiceInCorruptedState),
        Fault::OutOfMemory => pattern.open_refusal(OpenRefusal::OutOfMemory),
        Fault::Misfit(error) => error,
    }
}

/// Returns the error of a create whose look finds this fault. A service that doesn't fit exists.
pub fn create_error_of<P: Pattern>(pattern: &P, fault: Fault<P::OpenError>) -> P::CreateError
    ensures { result ≡ refusals.create_error_of (P.meaning pattern.now) fault }
{
    match fault {
        Fault::InsufficientPermissions => pattern.create_refusal(
            CreateRefusal::InsufficientPermissions,
        ),
        Fault::HangsInCreation => pattern.create_refusal(CreateRefusal::HangsInCreation),
        Fault::Corrupted => pattern.create_refusal(CreateRefusal::ServiceInCorruptedState),
        Fault::OutOfMemory => pattern.create_refusal(CreateRefusal::OutOfMemory),
        Fault::Misfit(_) => pattern.create_refusal(CreateRefusal::AlreadyExists),
    }
}

/// Asks if there is a service of this hash, and reads its description.
pub fn look<P: Pattern, S: Storage>(
    pattern: &P,
    caller: &Caller,
    storage: &mut S,
) -> Outcome<P::OpenError>
    ensures { Joins S.step storage.old
        (λ word. IsLookWord (P.meaning pattern.now) caller.now.node caller.now.hash word result) storage.new }
{
    match storage.exists(&caller.hash) {
        Existence::No => Outcome::Nothing,
        Existence::Fault => Outcome::Faulty(Fault::Corrupted),
        Existence::Yes | Existence::BeingSetUp => {
            let answer = storage.fetch(caller.node, &caller.hash);
            outcome_of(pattern, &caller.hash, answer)
        }
    }
}

/// Returns the outcome that a fetch's answer means.
fn outcome_of<P: Pattern>(
    pattern: &P,
    hash: &ServiceHash,
    answer: Result<(u64, Vec<u8>), FetchError>,
) -> Outcome<P::OpenError>
    ensures { LeadsTo (P.meaning pattern.now) hash.now (fetch_answer answer) result }
{
    match answer {
        Ok((number, bytes)) => read(pattern, hash, number, *bytes.allocator(), &bytes),
        Err(error) => match error {
            FetchError::DoesNotExist => Outcome::Nothing,
            FetchError::NotFinalized => { Outcome::Faulty(Fault::HangsInCreation) }
            FetchError::OpenFault | FetchError::ReadFault => {
                Outcome::Faulty(Fault::InsufficientPermissions)
            }
            FetchError::OutOfMemory => Outcome::Faulty(Fault::OutOfMemory),
        },
    }
}

/// Returns the outcome that fetched bytes mean.
fn read<P: Pattern>(
    pattern: &P,
    hash: &ServiceHash,
    number: u64,
    alloc: Global,
    bytes: &[u8],
) -> Outcome<P::OpenError>
    ensures { LeadsTo (P.meaning pattern.now) hash.now (Ok (number, bytes.now)) result }
{
    let description = match decode(alloc, bytes) {
        Ok(description) => description,
        Err(DecodeError::Malformed) => return Outcome::Faulty(Fault::Corrupted),
        Err(DecodeError::OutOfMemory) => {
            return Outcome::Faulty(Fault::OutOfMemory);
        }
    };
    match fault_of(pattern, hash, &description) {
        Some(fault) => return Outcome::Faulty(fault),
        None => {}
    }
    Outcome::Found(number, description)
}

/// Returns the fault of a description that isn't that of the service that is looked for. `None`: it
/// has the hash, and fits the pattern.
fn fault_of<P: Pattern>(
    pattern: &P,
    hash: &ServiceHash,
    description: &StaticConfig,
) -> Option<Fault<P::OpenError>>
    ensures { (number : ℕ) (bytes : List ℕ) → IsForm description.now bytes
        → LeadsTo (P.meaning pattern.now) hash.now (Ok (number, bytes)) (found_unless result number description.now) }
{
    if *description.service_hash() != *hash {
        return Some(Fault::Corrupted);
    }
    match pattern.misfit(description) {
        Some(error) => Some(Fault::Misfit(error)),
        None => None,
    }
}
