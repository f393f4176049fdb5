//! One step of a participant, whatever it finds.

ghost use Rattle.std.specs.Prelude.{◌≡◌, Ok, true};
ghost use Rattle.std.specs.FinMap as map;
ghost use Rattle.iceoryx2_description.specs.Description.{IsDescription};
ghost use Rattle.iceoryx2_world.specs.Acts as act;
ghost use Rattle.iceoryx2_world.specs.Acts.{IsAct};
ghost use Rattle.iceoryx2_world.specs.Batches.{act_of};
ghost use Rattle.iceoryx2_world.specs.Access.{open_refusal as open_refusal_spec};
ghost use Rattle.iceoryx2_table.specs.ServicesState.{MayTakeStep, segment_fits};

use crate::steps::Steps;
use iceoryx2_access::storage::OpenSegmentError;
use iceoryx2_description::description::{ServiceHash, StaticConfig};
use iceoryx2_table::recorder::Unrecorded;
use iceoryx2_table::rows::RowState;
use iceoryx2_world::batches::Act;
use iceoryx2_world::world::{Participant, Phase};
use std::alloc::AllocError;

/// Takes the step that the act says. Returns true if the step was allowed and has had its effect, and
/// false if it is forbidden. `AllocError` comes only if the step was allowed and found no memory. With
/// false and with `AllocError` nothing has changed.
pub fn take<S: Steps>(
    services: &mut S,
    participant: Participant,
    hash: &ServiceHash,
    act: &Act,
) -> Result<bool, AllocError>
    ensures effect { MayTakeStep (S.state services.old) participant hash.now (act_of act.now) result
        (S.state services.new) }
    ensures limits { result ≡ Ok true → IsAct (act_of act.now) }
{
    match act {
        Act::Read => take_read(services, participant, hash),
        Act::Lock => take_lock(services, participant, hash),
        Act::RemoveSegment => Ok(services.remove_segment(&mut Unrecorded, participant, hash)),
        Act::RemoveDescription => {
            Ok(services.remove_description(&mut Unrecorded, participant, hash))
        }
        Act::Make { max_nodes } => {
            let place = services.position(participant, hash).place;
            let segment = services.segment_place(hash);
            services.make(
                &mut Unrecorded,
                participant,
                hash,
                *max_nodes,
                place,
                segment,
            )
        }
        Act::Publish(description) => take_publish(services, participant, hash, description),
        Act::Join => {
            let place = services.position(participant, hash).place;
            let segment = services.segment_place(hash);
            services.join(&mut Unrecorded, participant, hash, place, segment)
        }
        Act::Leave => Ok(services.leave(&mut Unrecorded, participant, hash).is_some()),
    }
}

/// Returns true if there is a segment that the description fits.
pub fn has_segment_for<S: Steps>(
    services: &S,
    hash: &ServiceHash,
    description: &StaticConfig,
) -> bool
    ensures { result ≡ segment_fits hash.now (map.get (S.state services.now).segments hash.now) description.now }
{
    match services.segment_at(hash, services.segment_place(hash)) {
        Some(segment) => segment.fits(hash, description),
        None => false,
    }
}

/// Returns the reason why the segment at its place isn't opened, if there is one.
pub fn open_refusal<S: Steps>(
    services: &S,
    hash: &ServiceHash,
    segment: S::SegmentPlace,
    number: u64,
    phase: Phase,
) -> Option<OpenSegmentError>
    requires { S.has_segment services.now hash.now segment }
    ensures { result ≡ open_refusal_spec number (map.get (S.state services.now).segments hash.now)
        (S.state services.now).counter phase }
{
    match services.segment_at(hash, segment) {
        Some(segment) => segment.refusal(number, services.counter(), phase),
        None => Some(OpenSegmentError::DoesNotExist),
    }
}

// Reads what is there, where it is published.
fn take_read<S: Steps>(
    services: &mut S,
    participant: Participant,
    hash: &ServiceHash,
) -> Result<bool, AllocError>
    ensures { MayTakeStep (S.state services.old) participant hash.now act.Read result (S.state services.new) }
{
    let Some(row) = services.row_at(hash, services.row_place(hash)) else {
        return Ok(false);
    };
    let RowState::Published(number) = row.state() else {
        return Ok(false);
    };
    services.read(participant, hash, number)
}

// Locks what has no row.
fn take_lock<S: Steps>(
    services: &mut S,
    participant: Participant,
    hash: &ServiceHash,
) -> Result<bool, AllocError>
    ensures { MayTakeStep (S.state services.old) participant hash.now act.Lock result (S.state services.new) }
{
    let row = services.row_place(hash);
    if services.row_at(hash, row).is_some() {
        return Ok(false);
    }
    services.lock(&mut Unrecorded, participant, hash, row)
}

// Publishes what fits the segment.
fn take_publish<S: Steps>(
    services: &mut S,
    participant: Participant,
    hash: &ServiceHash,
    description: &StaticConfig,
) -> Result<bool, AllocError>
    ensures effect { MayTakeStep (S.state services.old) participant hash.now (act.Publish description.now) result
        (S.state services.new) }
    ensures limits { result ≡ Ok true → IsDescription description.now }
{
    if !has_segment_for(services, hash, description) {
        return Ok(false);
    }
    let place = services.position(participant, hash).place;
    services.publish(&mut Unrecorded, participant, hash, description, place)
}
