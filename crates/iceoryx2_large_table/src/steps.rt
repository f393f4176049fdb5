//! The content that a table keeps of the services, and the steps of one participant at one of them,
//! whatever the maps are.

ghost use Rattle.std.specs.Prelude.{◌≡◌, ◌<◌, ◌+◌, None, IfOk, Ok, true, Option};
ghost use Rattle.std.specs.FinMap as map;
ghost use Rattle.std.specs.Option.{option_copied};
ghost use Rattle.iceoryx2_description.specs.Description.{IsDescription};
ghost use Rattle.iceoryx2_description.specs.declared.description.ServiceHash.{ServiceHash};
ghost use Rattle.iceoryx2_world.specs.declared.world.Participant.{Participant};
ghost use Rattle.iceoryx2_world.specs.World.{or_idle};
ghost use Rattle.iceoryx2_world.specs.Acts as act;
ghost use Rattle.iceoryx2_world.specs.Steps.{last_number};
ghost use Rattle.iceoryx2_world.specs.Access.{open_refusal};
ghost use Rattle.iceoryx2_world.specs.Listing.{ListsAll};
ghost use Rattle.iceoryx2_table.specs.ServicesState.{ServicesState, MayTakeStep, published_number, segment_fits};
ghost use Rattle.iceoryx2_table.specs.Recorded.{MayRecordStep, RecordsLeave, RecordsStep};

use iceoryx2_access::storage::{OpenSegmentError, Release};
use iceoryx2_description::description::{ServiceHash, StaticConfig};
use iceoryx2_table::recorder::Recorder;
use iceoryx2_table::rows::StoredRow;
use iceoryx2_table::segments::StoredSegment;
use iceoryx2_world::listing::Entry;
use iceoryx2_world::world::{Participant, Phase};
use std::alloc::{AllocError, Global};

/// The place of a participant's phase, or where it would be, and the phase.
#[derive(Clone, Copy)]
pub struct Position<P: Copy> {
    pub place: P,
    pub phase: Phase,
}

/// The rows, the segments, the phases and the counter.
///
/// Each step answers true if it was allowed and has had its effect. It answers false if it is forbidden;
/// nothing has changed then. `AllocError` comes only if the step was allowed and found no memory, and
/// nothing has changed then either. A `Recorder` writes down each step but a read, once: after the step's
/// tests and its requests for memory, and before its change. If the recorder refuses, the step answers as
/// if it were forbidden. A place that was found is handed on as long as nothing changes.
pub trait Steps: Sized {
    /// The place of a row, or where the row would be.
    type RowPlace: Copy;

    /// The place of a segment, or where the segment would be.
    type SegmentPlace: Copy;

    /// The place of a phase, or where the phase would be.
    type PhasePlace: Copy;

    /// The content for the services.
    ghost state: { Self → ServicesState };

    /// This is the place of the service's row.
    ghost has_row: { Self → ServiceHash → Self.RowPlace → Type 0 };

    /// This is the place of the service's segment.
    ghost has_segment: { Self → ServiceHash → Self.SegmentPlace → Type 0 };

    /// This is the place of the participant's phase at the service.
    ghost has_phase: { Self → Participant × ServiceHash → Self.PhasePlace → Type 0 };

    /// Returns an empty state with the counter's first value. Takes no memory.
    fn starting_at(alloc: Global, counter: u64) -> Self
        ensures { state result
            ≡ (record { rows = map.empty; segments = map.empty; phases = map.empty; counter = counter }) };

    /// Returns each hash with a row or a segment, in ascending order.
    fn list(&self) -> Result<Vec<Entry>, AllocError>
        ensures { IfOk result (λ entries. ListsAll (state self.now).rows (state self.now).segments entries.items) };

    /// Returns the next number.
    fn counter(&self) -> u64
        ensures { result ≡ (state self.now).counter };

    /// Hands out the next number.
    fn next_number(&mut self) -> u64
        requires { (state self.old).counter < last_number }
        ensures number { result ≡ (state self.old).counter }
        ensures effect { state self.new ≡ record (state self.old) { counter = (state self.old).counter + 1 } };

    /// Returns the place of the row, or where the row would be.
    fn row_place(&self, hash: &ServiceHash) -> Self::RowPlace
        ensures { has_row self.now hash.now result };

    /// Returns the row at its place.
    fn row_at(&self, hash: &ServiceHash, place: Self::RowPlace) -> Option<&StoredRow>
        requires { has_row self.now hash.now place }
        ensures { option_copied result ≡ map.get (state self.now).rows hash.now };

    /// Returns the place of the segment, or where the segment would be.
    fn segment_place(&self, hash: &ServiceHash) -> Self::SegmentPlace
        ensures { has_segment self.now hash.now result };

    /// Returns the segment at its place.
    fn segment_at(&self, hash: &ServiceHash, place: Self::SegmentPlace) -> Option<&StoredSegment>
        requires { has_segment self.now hash.now place }
        ensures { option_copied result ≡ map.get (state self.now).segments hash.now };

    /// Returns the participant's phase with the service, and its place. A participant that is not kept is
    /// Idle.
    fn position(&self, participant: Participant, hash: &ServiceHash) -> Position<Self::PhasePlace>
        ensures place { has_phase self.now (participant, hash.now) result.place }
        ensures phase { result.phase ≡ or_idle (map.get (state self.now).phases (participant, hash.now)) };

    /// Reads the description that is published under the number.
    fn read(
        &mut self,
        participant: Participant,
        hash: &ServiceHash,
        number: u64,
    ) -> Result<bool, AllocError>
        requires { published_number (map.get (state self.old).rows hash.now) ≡ Some number }
        ensures { MayTakeStep (state self.old) participant hash.now act.Read result (state self.new) };

    /// Locks a service that has no row. The row's place was found.
    fn lock<R: Recorder>(
        &mut self,
        recorder: &mut R,
        participant: Participant,
        hash: &ServiceHash,
        row: Self::RowPlace,
    ) -> Result<bool, AllocError>
        requires row { has_row self.old hash.now row }
        requires absent { map.get (state self.old).rows hash.now ≡ None }
        ensures { MayRecordStep R.written R.refused (state self.old) participant hash.now act.Lock result
            (state self.new) recorder.old recorder.new };

    /// Takes the segment away. Takes no memory.
    fn remove_segment<R: Recorder>(
        &mut self,
        recorder: &mut R,
        participant: Participant,
        hash: &ServiceHash,
    ) -> bool
        ensures { RecordsStep R.written R.refused (state self.old) participant hash.now act.RemoveSegment result
            (state self.new) recorder.old recorder.new };

    /// Takes the row away, whatever the segment. Takes no memory.
    fn remove_description<R: Recorder>(
        &mut self,
        recorder: &mut R,
        participant: Participant,
        hash: &ServiceHash,
    ) -> bool
        ensures { RecordsStep R.written R.refused (state self.old) participant hash.now act.RemoveDescription result
            (state self.new) recorder.old recorder.new };

    /// Makes a segment for so many nodes. The places of the phase and of the segment were found.
    fn make<R: Recorder>(
        &mut self,
        recorder: &mut R,
        participant: Participant,
        hash: &ServiceHash,
        max_nodes: u64,
        place: Self::PhasePlace,
        segment: Self::SegmentPlace,
    ) -> Result<bool, AllocError>
        requires place { has_phase self.old (participant, hash.now) place }
        requires segment { has_segment self.old hash.now segment }
        ensures { MayRecordStep R.written R.refused (state self.old) participant hash.now (act.Make max_nodes) result
            (state self.new) recorder.old recorder.new };

    /// Publishes a description that fits the segment. The phase's place was found.
    fn publish<R: Recorder>(
        &mut self,
        recorder: &mut R,
        participant: Participant,
        hash: &ServiceHash,
        description: &StaticConfig,
        place: Self::PhasePlace,
    ) -> Result<bool, AllocError>
        requires place { has_phase self.old (participant, hash.now) place }
        requires fits { segment_fits hash.now (map.get (state self.old).segments hash.now) description.now ≡ true }
        ensures effect { MayRecordStep R.written R.refused (state self.old) participant hash.now
            (act.Publish description.now) result (state self.new) recorder.old recorder.new }
        ensures limits { result ≡ Ok true → IsDescription description.now };

    /// Registers the participant once more. The places of the phase and of the segment were found.
    fn join<R: Recorder>(
        &mut self,
        recorder: &mut R,
        participant: Participant,
        hash: &ServiceHash,
        place: Self::PhasePlace,
        segment: Self::SegmentPlace,
    ) -> Result<bool, AllocError>
        requires place { has_phase self.old (participant, hash.now) place }
        requires segment { has_segment self.old hash.now segment }
        ensures { MayRecordStep R.written R.refused (state self.old) participant hash.now act.Join result
            (state self.new) recorder.old recorder.new };

    /// Leaves once, and returns what is left, or `None` if it is forbidden. Takes no memory.
    fn leave<R: Recorder>(
        &mut self,
        recorder: &mut R,
        participant: Participant,
        hash: &ServiceHash,
    ) -> Option<Release>
        ensures { RecordsLeave R.written R.refused (state self.old) participant hash.now result (state self.new)
            recorder.old recorder.new };
}
