//! The content that a table keeps of the services, and the steps of one participant at one of them.

ghost use Rattle.std.specs.Prelude.{◌≡◌, ◌≢◌, ◌<◌, ◌+◌, is_some, Some, None, IsSome, IsTrue, IfOk, Ok, true};
ghost use Rattle.std.specs.FinMap as map;
ghost use Rattle.std.specs.Option.{option_copied};
ghost use Rattle.finite_map.specs.Sorted.{map_of, HasRoom};
ghost use Rattle.finite_map.specs.Places.{place_in};
ghost use Rattle.iceoryx2_description.specs.Description.{IsDescription};
ghost use Rattle.iceoryx2_world.specs.Orders.{place_cmp};
ghost use Rattle.iceoryx2_world.specs.World.{unless_idle, set_to, begins as begins_spec};
ghost use Rattle.iceoryx2_world.specs.Acts as act;
ghost use Rattle.iceoryx2_world.specs.Steps.{last_number};
ghost use Rattle.iceoryx2_world.specs.Access.{open_refusal};
ghost use Rattle.iceoryx2_world.specs.Listing.{ListsAll};
ghost use Rattle.iceoryx2_table.specs.ServicesState.{MayTakeStep, TakesDescription, TakesSegment};
ghost use Rattle.iceoryx2_table.specs.Holdings.{held_service};
ghost use Rattle.iceoryx2_table.specs.Recorded.{MayRecordStep, RecordsLeave, RecordsStep};
ghost use Rattle.iceoryx2_table.specs.ServicesState.{position_in, published_number, segment_fits};

use crate::holdings::{Holding, first_service};
use crate::merge::merge_entries;
use crate::recorder::Recorder;
use crate::rows::StoredRow;
use crate::segments::StoredSegment;
use finite_map::sorted::{Place, SortedVec};
use iceoryx2_access::storage::{OpenSegmentError, Release};
use iceoryx2_data::bytes::encode;
use iceoryx2_description::description::{ServiceHash, StaticConfig};
use iceoryx2_world::listing::Entry;
use iceoryx2_world::world::{Participant, Phase};
use std::alloc::{AllocError, Global};
use std::marker::Model;

/// The rows, the segments, the phases and the counter.
pub struct Services {
    rows: SortedVec<ServiceHash, StoredRow>,
    segments: SortedVec<ServiceHash, StoredSegment>,
    phases: SortedVec<(Participant, ServiceHash), Phase>,
    counter: u64,
}

// Written out, so that a proof of what lets one go doesn't take its fields apart.
impl Drop for Services {
    fn drop(self) {
        let Services {
            rows: _,
            segments: _,
            phases: _,
            counter: _,
        } = self;
    }
}

impl Model for Services {
    ghost use Rattle.finite_map.specs.Sorted.{map_of};
    ghost use Rattle.iceoryx2_world.specs.Orders.{hash_cmp, place_cmp};
    ghost use Rattle.iceoryx2_table.specs.ServicesState.{ServicesState, coded_services};

    ghost Value = { ServicesState };

    ghost coded = { coded_services };

    ghost view = { λ t. record {
      rows = map_of hash_cmp t.rows;
      segments = map_of hash_cmp t.segments;
      phases = map_of place_cmp t.phases;
      counter = t.counter;
    } };
}

/// The place of a participant's phase, or where it would be, and the phase.
#[derive(Clone, Copy, Debug, PartialEq, Eq)]
pub struct Position {
    pub place: Place,
    pub phase: Phase,
}

// Who is not stored is Idle.
fn position_of(
    phases: &SortedVec<(Participant, ServiceHash), Phase>,
    key: &(Participant, ServiceHash),
) -> Position
    ensures { result ≡ position_in (map_of place_cmp phases.now) key.now }
{
    let place = phases.place_of(key);
    let phase = match phases.get_at(key, place) {
        Some(phase) => *phase,
        None => Phase::Idle,
    };
    Position { place, phase }
}

// Sets the phase at its place.
fn set_phase(
    phases: &mut SortedVec<(Participant, ServiceHash), Phase>,
    key: (Participant, ServiceHash),
    place: Place,
    phase: Phase,
)
    requires place { place ≡ place_in (map_of place_cmp phases.old) key }
    requires room { map.get (map_of place_cmp phases.old) key ≡ None → HasRoom place_cmp phases.old }
    ensures { map_of place_cmp phases.new ≡ set_to (map_of place_cmp phases.old) key (unless_idle phase) }
{
    match phase {
        Phase::Idle => {
            let _ = phases.remove_at(&key, place);
        }
        _ => phases.insert_at(key, place, phase),
    }
}

/// Returns true if the participant holds nothing.
pub fn begins(phase: Phase) -> bool
    ensures { result ≡ begins_spec phase }
{
    match phase {
        Phase::Idle | Phase::Read(_) => true,
        _ => false,
    }
}

/// Returns the phase of a participant after it has removed the segment, if it may remove it.
pub fn without_segment(phase: Phase) -> Option<Phase>
    ensures effect { TakesSegment phase result }
    ensures held { IsSome result → phase ≢ Phase.Idle }
{
    match phase {
        Phase::Locked(number) | Phase::Made(number) => Some(Phase::Locked(number)),
        Phase::Leaving(number) => Some(Phase::Cleared(number)),
        _ => None,
    }
}

/// Returns true if the participant may remove the description.
pub fn may_remove_description(phase: Phase) -> bool
    ensures effect { TakesDescription phase result }
    ensures held { IsTrue result → phase ≢ Phase.Idle }
{
    match phase {
        Phase::Locked(_) | Phase::Made(_) | Phase::Leaving(_) | Phase::Cleared(_) => true,
        _ => false,
    }
}

/// Each step is a method. It answers true if the step was allowed and has had its effect. It answers
/// false if the step is forbidden; nothing has changed then. `AllocError` comes only if the step was
/// allowed and found no memory, and nothing has changed then either. A `Recorder` writes down each step
/// but a read, once: after the step's tests and its requests for memory, and before its change. If the
/// recorder refuses, the step answers as if it were forbidden.
impl Services {
    /// Returns an empty state with the counter's first value. Takes no memory.
    pub fn starting_at(alloc: Global, counter: u64) -> Services
        ensures { result
            ≡ (record { rows = map.empty; segments = map.empty; phases = map.empty; counter = counter }) }
    {
        Services {
            rows: SortedVec::new(alloc),
            segments: SortedVec::new(alloc),
            phases: SortedVec::new(alloc),
            counter,
        }
    }

    /// Returns each hash with a row or a segment, in ascending order.
    pub fn list(&self) -> Result<Vec<Entry>, AllocError>
        ensures { IfOk result (λ entries. ListsAll self.now.rows self.now.segments entries.items) }
    {
        merge_entries(
            self.rows.allocator(),
            self.rows.entries(),
            self.segments.entries(),
        )
    }

    /// Returns the first service that the node hasn't finished with.
    pub fn unfinished(&self, node: u64) -> Option<Holding>
        ensures { result ≡ held_service node (map.entries self.now.phases) }
    {
        first_service(self.phases.entries(), node)
    }

    /// Returns the next number.
    pub fn counter(&self) -> u64
        ensures { result ≡ self.now.counter }
    {
        self.counter
    }

    /// Hands out the next number.
    pub fn next_number(&mut self) -> u64
        requires { self.old.counter < last_number }
        ensures number { result ≡ self.old.counter }
        ensures effect { self.new ≡ record self.old { counter = self.old.counter + 1 } }
    {
        let number = self.counter;
        self.counter += 1;
        number
    }

    /// Makes this number the next one.
    pub fn go_on_at(&mut self, number: u64)
        ensures { self.new ≡ record self.old { counter = number } }
    {
        self.counter = number;
    }

    /// Returns the rows, by hash.
    pub fn rows_held(&self) -> &[(ServiceHash, StoredRow)]
        ensures { result.now ≡ map.entries self.now.rows }
    {
        self.rows.entries()
    }

    /// Returns the segments, by hash.
    pub fn segments_held(&self) -> &[(ServiceHash, StoredSegment)]
        ensures { result.now ≡ map.entries self.now.segments }
    {
        self.segments.entries()
    }

    /// Returns the phases, by participant and then by hash. An absent participant is Idle.
    pub fn phases_held(&self) -> &[((Participant, ServiceHash), Phase)]
        ensures { result.now ≡ map.entries self.now.phases }
    {
        self.phases.entries()
    }

    /// Returns the service's segment.
    pub fn segment(&self, hash: &ServiceHash) -> Option<&StoredSegment>
        ensures { option_copied result ≡ map.get self.now.segments hash.now }
    {
        self.segments.get(hash)
    }

    /// Returns the place of the row, or where the row would be.
    pub fn row_place(&self, hash: &ServiceHash) -> Place
        ensures { result ≡ place_in self.now.rows hash.now }
    {
        self.rows.place_of(hash)
    }

    /// Returns the row at its place.
    pub fn row_at(&self, hash: &ServiceHash, place: Place) -> Option<&StoredRow>
        requires { place ≡ place_in self.now.rows hash.now }
        ensures { option_copied result ≡ map.get self.now.rows hash.now }
    {
        self.rows.get_at(hash, place)
    }

    /// Returns the row that is written under the hash.
    pub fn row(&self, hash: &ServiceHash) -> Option<&StoredRow>
        ensures { option_copied result ≡ map.get self.now.rows hash.now }
    {
        self.rows.get(hash)
    }

    /// Returns the place of the segment, or where the segment would be.
    pub fn segment_place(&self, hash: &ServiceHash) -> Place
        ensures { result ≡ place_in self.now.segments hash.now }
    {
        self.segments.place_of(hash)
    }

    /// Returns the phase of the participant with the service, and its place.
    pub fn position(&self, participant: Participant, hash: &ServiceHash) -> Position
        ensures { result ≡ position_in self.now.phases (participant, hash.now) }
    {
        position_of(&self.phases, &(participant, *hash))
    }

    /// Returns true if there is a segment that the description fits.
    pub fn has_segment_for(&self, hash: &ServiceHash, description: &StaticConfig) -> bool
        ensures { result ≡ segment_fits hash.now (map.get self.now.segments hash.now) description.now }
    {
        match self.segments.get(hash) {
            Some(segment) => segment.fits(hash, description),
            None => false,
        }
    }

    /// Returns the reason why the segment at its place isn't opened, if there is one.
    pub fn open_refusal(
        &self,
        hash: &ServiceHash,
        segment: Place,
        number: u64,
        phase: Phase,
    ) -> Option<OpenSegmentError>
        requires { segment ≡ place_in self.now.segments hash.now }
        ensures { result ≡ open_refusal number (map.get self.now.segments hash.now) self.now.counter phase }
    {
        match self.segments.get_at(hash, segment) {
            Some(segment) => segment.refusal(number, self.counter, phase),
            None => Some(OpenSegmentError::DoesNotExist),
        }
    }

    /// Reads the description that is published under the number.
    pub fn read(
        &mut self,
        participant: Participant,
        hash: &ServiceHash,
        number: u64,
    ) -> Result<bool, AllocError>
        requires { published_number (map.get self.old.rows hash.now) ≡ Some number }
        ensures { MayTakeStep self.old participant hash.now act.Read result self.new }
    {
        let key = (participant, *hash);
        let position = position_of(&self.phases, &key);
        if !begins(position.phase) {
            return Ok(false);
        }
        if self.phases.reserve_at(&key, position.place).is_err() {
            return Err(AllocError);
        }
        self.phases
            .insert_at(key, position.place, Phase::Read(number));
        Ok(true)
    }

    /// Locks a service that has no row. The row's place was found.
    pub fn lock<R: Recorder>(
        &mut self,
        recorder: &mut R,
        participant: Participant,
        hash: &ServiceHash,
        row: Place,
    ) -> Result<bool, AllocError>
        requires row { row ≡ place_in self.old.rows hash.now }
        requires absent { map.get self.old.rows hash.now ≡ None }
        ensures { MayRecordStep R.written R.refused self.old participant hash.now act.Lock result self.new
            recorder.old recorder.new }
    {
        let key = (participant, *hash);
        let position = position_of(&self.phases, &key);
        if !begins(position.phase) {
            return Ok(false);
        }
        let number = self.counter;
        if number >= u64::MAX {
            return Ok(false);
        }
        if self.rows.reserve_at(hash, row).is_err() {
            return Err(AllocError);
        }
        if self.phases.reserve_at(&key, position.place).is_err() {
            return Err(AllocError);
        }
        let Ok(_) = recorder.write_down() else {
            return Ok(false);
        };
        let locked = StoredRow::locked(self.rows.allocator(), number);
        self.rows.insert_at(*hash, row, locked);
        self.phases
            .insert_at(key, position.place, Phase::Locked(number));
        self.counter = number + 1;
        Ok(true)
    }

    /// Takes the segment away. Takes no memory.
    pub fn remove_segment<R: Recorder>(
        &mut self,
        recorder: &mut R,
        participant: Participant,
        hash: &ServiceHash,
    ) -> bool
        ensures { RecordsStep R.written R.refused self.old participant hash.now act.RemoveSegment result self.new
            recorder.old recorder.new }
    {
        let key = (participant, *hash);
        let position = position_of(&self.phases, &key);
        let Some(next) = without_segment(position.phase) else {
            return false;
        };
        let Ok(_) = recorder.write_down() else {
            return false;
        };
        set_phase(&mut self.phases, key, position.place, next);
        let _ = self.segments.remove(hash);
        true
    }

    /// Takes the row away, whatever the segment. Takes no memory.
    pub fn remove_description<R: Recorder>(
        &mut self,
        recorder: &mut R,
        participant: Participant,
        hash: &ServiceHash,
    ) -> bool
        ensures { RecordsStep R.written R.refused self.old participant hash.now act.RemoveDescription result self.new
            recorder.old recorder.new }
    {
        let key = (participant, *hash);
        let position = position_of(&self.phases, &key);
        if !may_remove_description(position.phase) {
            return false;
        }
        let Ok(_) = recorder.write_down() else {
            return false;
        };
        set_phase(&mut self.phases, key, position.place, Phase::Idle);
        let _ = self.rows.remove(hash);
        true
    }

    /// Makes a segment for so many nodes, at the position and the place that were found.
    pub fn make<R: Recorder>(
        &mut self,
        recorder: &mut R,
        participant: Participant,
        hash: &ServiceHash,
        max_nodes: u64,
        position: Position,
        segment: Place,
    ) -> Result<bool, AllocError>
        requires position { position ≡ position_in self.old.phases (participant, hash.now) }
        requires segment { segment ≡ place_in self.old.segments hash.now }
        ensures { MayRecordStep R.written R.refused self.old participant hash.now (act.Make max_nodes) result self.new
            recorder.old recorder.new }
    {
        let Phase::Locked(number) = position.phase else {
            return Ok(false);
        };
        if max_nodes == 0 {
            return Ok(false);
        }
        if segment.is_ok() {
            return Ok(false);
        }
        let alloc = self.segments.allocator();
        let Ok(made) = StoredSegment::new(alloc, participant, number, max_nodes) else {
            return Err(AllocError);
        };
        if self.segments.reserve_at(hash, segment).is_err() {
            return Err(AllocError);
        }
        let Ok(_) = recorder.write_down() else {
            return Ok(false);
        };
        self.segments.insert_at(*hash, segment, made);
        let key = (participant, *hash);
        set_phase(&mut self.phases, key, position.place, Phase::Made(number));
        Ok(true)
    }

    /// Publishes a description that fits the segment, at the position that was found.
    pub fn publish<R: Recorder>(
        &mut self,
        recorder: &mut R,
        participant: Participant,
        hash: &ServiceHash,
        description: &StaticConfig,
        position: Position,
    ) -> Result<bool, AllocError>
        requires position { position ≡ position_in self.old.phases (participant, hash.now) }
        requires fits { segment_fits hash.now (map.get self.old.segments hash.now) description.now ≡ true }
        ensures effect { MayRecordStep R.written R.refused self.old participant hash.now (act.Publish description.now)
            result self.new recorder.old recorder.new }
        ensures limits { result ≡ Ok true → IsDescription description.now }
    {
        let Phase::Made(number) = position.phase else {
            return Ok(false);
        };
        let Ok(bytes) = encode(self.rows.allocator(), description) else {
            return Err(AllocError);
        };
        let row = self.rows.place_of(hash);
        if self.rows.reserve_at(hash, row).is_err() {
            return Err(AllocError);
        }
        let Ok(_) = recorder.write_down() else {
            return Ok(false);
        };
        self.rows
            .insert_at(*hash, row, StoredRow::published(number, bytes));
        let key = (participant, *hash);
        set_phase(
            &mut self.phases,
            key,
            position.place,
            Phase::Joined(number, 1),
        );
        Ok(true)
    }

    /// Registers the participant once more, at the position and with the segment that were found.
    pub fn join<R: Recorder>(
        &mut self,
        recorder: &mut R,
        participant: Participant,
        hash: &ServiceHash,
        position: Position,
        segment: Place,
    ) -> Result<bool, AllocError>
        requires position { position ≡ position_in self.old.phases (participant, hash.now) }
        requires segment { segment ≡ place_in self.old.segments hash.now }
        ensures { MayRecordStep R.written R.refused self.old participant hash.now act.Join result self.new
            recorder.old recorder.new }
    {
        let key = (participant, *hash);
        match position.phase {
            Phase::Joined(number, count) => {
                if count >= u64::MAX {
                    return Ok(false);
                }
                let Ok(_) = recorder.write_down() else {
                    return Ok(false);
                };
                let phase = Phase::Joined(number, count + 1);
                set_phase(&mut self.phases, key, position.place, phase);
                Ok(true)
            }
            Phase::Read(number) => {
                let Some(segment) = self.segments.get_mut_at(hash, segment) else {
                    return Ok(false);
                };
                match segment.admit(recorder, number, participant) {
                    Ok(admitted) => {
                        if admitted {
                            let phase = Phase::Joined(number, 1);
                            set_phase(&mut self.phases, key, position.place, phase);
                            return Ok(true);
                        }
                        Ok(false)
                    }
                    Err(error) => Err(error),
                }
            }
            _ => Ok(false),
        }
    }

    /// Leaves once, and returns what is left, or `None` if it is forbidden. Takes no memory.
    pub fn leave<R: Recorder>(
        &mut self,
        recorder: &mut R,
        participant: Participant,
        hash: &ServiceHash,
    ) -> Option<Release>
        ensures { RecordsLeave R.written R.refused self.old participant hash.now result self.new
            recorder.old recorder.new }
    {
        let key = (participant, *hash);
        let position = position_of(&self.phases, &key);
        let Phase::Joined(number, count) = position.phase else {
            return None;
        };
        if count > 1 {
            let Ok(_) = recorder.write_down() else {
                return None;
            };
            let phase = Phase::Joined(number, count - 1);
            set_phase(&mut self.phases, key, position.place, phase);
            return Some(Release::StillCounted);
        }
        if count == 0 {
            return None;
        }
        let Some(segment) = self.segments.get_mut(hash) else {
            return None;
        };
        let Ok(_) = recorder.write_down() else {
            return None;
        };
        if segment.dismiss(participant) {
            set_phase(&mut self.phases, key, position.place, Phase::Idle);
            return Some(Release::Left);
        }
        set_phase(
            &mut self.phases,
            key,
            position.place,
            Phase::Leaving(number),
        );
        Some(Release::Last)
    }
}
