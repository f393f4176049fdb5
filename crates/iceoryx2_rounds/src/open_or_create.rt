//! The opening of a service, or its creation if there is none.

ghost use Rattle.std.specs.Prelude.{◌≡◌};
ghost use Rattle.iceoryx2_access.specs.Run.{Joins};
ghost use Rattle.iceoryx2_rounds.specs.OpenOrCreates.{IsOpenOrCreateWord};
ghost use Rattle.iceoryx2_rounds.specs.AttemptParts.{IsAttempt, called_by};

use crate::caller::Caller;
use crate::create::create;
use crate::look::{Presence, look, open_error_of};
use crate::open::open;
use crate::port_factory::Registration;
use crate::retries::{Retries, retries_create, retries_open};
use iceoryx2_access::storage::Storage;
use iceoryx2_attribute::attribute::AttributeVerifier;

/// The number of times that an open or create goes on after a round that is retried.
pub const OPEN_OR_CREATE_RETRIES: u64 = 5;

/// The limit is five.
pub fn open_or_create_retries_are_five()
    ensures { OPEN_OR_CREATE_RETRIES ≡ 5 }
{}

/// The reason why an open or create is refused.
#[derive(Clone, Copy, Debug, PartialEq, Eq)]
pub enum OpenOrCreateRefusal<E, C> {
    /// The refusal of an open: by the look of a round, or by the open in it.
    Open(E),
    /// The refusal of a create.
    Create(C),
    /// Each round was to be retried.
    SystemInFlux,
}

/// Makes one round. `None` asks for another one.
fn attempt<P: Retries, S: Storage>(
    pattern: &mut P,
    caller: &Caller,
    verifier: &AttributeVerifier,
    storage: &mut S,
) -> Option<Result<Registration, OpenOrCreateRefusal<P::OpenError, P::CreateError>>>
    ensures { let call = called_by P.meaning P.adjusted P.retried pattern.old verifier.now caller.now in
        Joins S.step storage.old (λ word. IsAttempt call word result pattern.new) storage.new }
{
    match look(pattern, caller, storage).presence() {
        Presence::AtFault(fault) => {
            let error = open_error_of(pattern, fault);
            return Some(Err(OpenOrCreateRefusal::Open(error)));
        }
        Presence::Present => match open(pattern, caller, verifier, storage) {
            Ok(registration) => return Some(Ok(registration)),
            Err(error) => {
                if retries_open(pattern, error) {
                    return None;
                }
                return Some(Err(OpenOrCreateRefusal::Open(error)));
            }
        },
        Presence::Absent => {}
    }
    let attributes = verifier.required_attributes();
    match create(pattern, caller, attributes, storage) {
        Ok(registration) => return Some(Ok(registration)),
        Err(error) => {
            if retries_create(pattern, error) {
                return None;
            }
            return Some(Err(OpenOrCreateRefusal::Create(error)));
        }
    }
}

/// Opens the caller's service, or creates it if there is none, in at most six rounds.
///
/// A round looks first. If the look finds something wrong, the call answers that at once. If it
/// finds a service, the round opens the service, if that has the required pairs and keys and meets
/// the pattern's requirement. If there is no service, the round creates one with the required
/// pairs. It doesn't create the required keys. A refusal that the pattern retries leads to the next
/// round, and the sixth one to `SystemInFlux`. Zeros that a create raises stay raised in the rounds
/// after it. Each round gives back what it made.
pub fn open_or_create<P: Retries, S: Storage>(
    pattern: &mut P,
    caller: &Caller,
    verifier: &AttributeVerifier,
    storage: &mut S,
) -> Result<Registration, OpenOrCreateRefusal<P::OpenError, P::CreateError>>
    ensures { let call = called_by P.meaning P.adjusted P.retried pattern.old verifier.now caller.now in
        Joins S.step storage.old (λ word. IsOpenOrCreateWord call word result) storage.new }
{
    for _round in 0..OPEN_OR_CREATE_RETRIES + 1 {
        match attempt(pattern, caller, verifier, storage) {
            Some(answer) => return answer,
            None => {}
        }
    }
    Err(OpenOrCreateRefusal::SystemInFlux)
}
