//! The content that a table keeps of the services, in maps of the kinds that are chosen.

ghost use Rattle.std.specs.Prelude.{◌≡◌, None};
ghost use Rattle.std.specs.FinMap as map;
ghost use Rattle.iceoryx2_world.specs.Orders.{hash_cmp, place_cmp};
ghost use Rattle.iceoryx2_world.specs.World.{or_idle, set_to, unless_idle};

use crate::keys::Seat;
use crate::kinds::Kinds;
use crate::listing::merge_entries;
use crate::steps::{Position, Steps};
use finite_map::FiniteMap;
use iceoryx2_access::storage::Release;
use iceoryx2_data::bytes::encode;
use iceoryx2_description::description::{ServiceHash, StaticConfig};
use iceoryx2_table::recorder::Recorder;
use iceoryx2_table::rows::StoredRow;
use iceoryx2_table::segments::StoredSegment;
use iceoryx2_table::services::{begins, may_remove_description, without_segment};
use iceoryx2_world::listing::Entry;
use iceoryx2_world::world::{Participant, Phase};
use std::alloc::{AllocError, Global};

/// The rows, the segments, the phases and the counter.
#[derive(Drop)]
pub struct Services<M: Kinds> {
    alloc: Global,
    rows: M::Rows,
    segments: M::Segments,
    phases: M::Phases,
    counter: u64,
}

// The phase at its place. Who is not stored is Idle.
fn phase_at<P: FiniteMap<Seat, Phase>>(phases: &P, seat: &Seat, place: P::Place) -> Phase
    requires { P.stands_at place_cmp phases.now seat.now place }
    ensures { result ≡ or_idle (map.get (P.seen place_cmp phases.now) seat.now) }
{
    match phases.get_at(seat, place) {
        Some(phase) => *phase,
        None => Phase::Idle,
    }
}

// Where the phase stands, or would stand, and the phase.
fn position_of<P: FiniteMap<Seat, Phase>>(phases: &P, seat: &Seat) -> Position<P::Place>
    ensures place { P.stands_at place_cmp phases.now seat.now result.place }
    ensures phase { result.phase ≡ or_idle (map.get (P.seen place_cmp phases.now) seat.now) }
{
    let place = phases.place_of(seat);
    let phase = phase_at(phases, seat, place);
    Position { place, phase }
}

// Sets the phase at its place.
fn set_phase<P: FiniteMap<Seat, Phase>>(phases: &mut P, seat: Seat, place: P::Place, phase: Phase)
    requires place { P.stands_at place_cmp phases.old seat place }
    requires room { map.get (P.seen place_cmp phases.old) seat ≡ None → P.has_room place_cmp phases.old place }
    ensures { P.seen place_cmp phases.new ≡ set_to (P.seen place_cmp phases.old) seat (unless_idle phase) }
{
    match phase {
        Phase::Idle => {
            let _ = phases.remove_at(&seat, place);
        }
        _ => phases.insert_at(seat, place, phase),
    }
}

impl<M: Kinds> Steps for Services<M> {
    type RowPlace = <M::Rows as FiniteMap<ServiceHash, StoredRow>>::Place;

    type SegmentPlace = <M::Segments as FiniteMap<ServiceHash, StoredSegment>>::Place;

    type PhasePlace = <M::Phases as FiniteMap<Seat, Phase>>::Place;

    ghost use Rattle.iceoryx2_world.specs.Orders.{hash_cmp, place_cmp};

    ghost state = { λ s. record {
      rows = M.Rows.seen hash_cmp s.rows;
      segments = M.Segments.seen hash_cmp s.segments;
      phases = M.Phases.seen place_cmp s.phases;
      counter = s.counter;
    } };

    ghost has_row = { λ s h at. M.Rows.stands_at hash_cmp s.rows h at };

    ghost has_segment = { λ s h at. M.Segments.stands_at hash_cmp s.segments h at };

    ghost has_phase = { λ s p at. M.Phases.stands_at place_cmp s.phases p at };

    fn starting_at(alloc: Global, counter: u64) -> Self {
        Services {
            alloc,
            rows: M::Rows::new(alloc),
            segments: M::Segments::new(alloc),
            phases: M::Phases::new(alloc),
            counter,
        }
    }

    fn list(&self) -> Result<Vec<Entry>, AllocError> {
        merge_entries(self.alloc, &self.rows, &self.segments)
    }

    fn counter(&self) -> u64 {
        self.counter
    }

    fn next_number(&mut self) -> u64 {
        let number = self.counter;
        self.counter += 1;
        number
    }

    fn row_place(&self, hash: &ServiceHash) -> Self::RowPlace {
        self.rows.place_of(hash)
    }

    fn row_at(&self, hash: &ServiceHash, place: Self::RowPlace) -> Option<&StoredRow> {
        self.rows.get_at(hash, place)
    }

    fn segment_place(&self, hash: &ServiceHash) -> Self::SegmentPlace {
        self.segments.place_of(hash)
    }

    fn segment_at(&self, hash: &ServiceHash, place: Self::SegmentPlace) -> Option<&StoredSegment> {
        self.segments.get_at(hash, place)
    }

    fn position(&self, participant: Participant, hash: &ServiceHash) -> Position<Self::PhasePlace> {
        let seat = Seat {
            participant,
            hash: *hash,
        };
        position_of(&self.phases, &seat)
    }

    fn read(
        &mut self,
        participant: Participant,
        hash: &ServiceHash,
        number: u64,
    ) -> Result<bool, AllocError> {
        let seat = Seat {
            participant,
            hash: *hash,
        };
        let position = position_of(&self.phases, &seat);
        if !begins(position.phase) {
            return Ok(false);
        }
        let Ok(place) = self.phases.reserve_at(&seat, position.place) else {
            return Err(AllocError);
        };
        self.phases.insert_at(seat, place, Phase::Read(number));
        Ok(true)
    }

    fn lock<R: Recorder>(
        &mut self,
        recorder: &mut R,
        participant: Participant,
        hash: &ServiceHash,
        row: Self::RowPlace,
    ) -> Result<bool, AllocError> {
        let seat = Seat {
            participant,
            hash: *hash,
        };
        let position = position_of(&self.phases, &seat);
        if !begins(position.phase) {
            return Ok(false);
        }
        let number = self.counter;
        if number >= u64::MAX {
            return Ok(false);
        }
        let Ok(row) = self.rows.reserve_at(hash, row) else {
            return Err(AllocError);
        };
        let Ok(place) = self.phases.reserve_at(&seat, position.place) else {
            return Err(AllocError);
        };
        let Ok(_) = recorder.write_down() else {
            return Ok(false);
        };
        let locked = StoredRow::locked(self.alloc, number);
        self.rows.insert_at(*hash, row, locked);
        self.phases.insert_at(seat, place, Phase::Locked(number));
        self.counter = number + 1;
        Ok(true)
    }

    fn remove_segment<R: Recorder>(
        &mut self,
        recorder: &mut R,
        participant: Participant,
        hash: &ServiceHash,
    ) -> bool {
        let seat = Seat {
            participant,
            hash: *hash,
        };
        let position = position_of(&self.phases, &seat);
        let Some(next) = without_segment(position.phase) else {
            return false;
        };
        let Ok(_) = recorder.write_down() else {
            return false;
        };
        set_phase(&mut self.phases, seat, position.place, next);
        let segment = self.segments.place_of(hash);
        let _ = self.segments.remove_at(hash, segment);
        true
    }

    fn remove_description<R: Recorder>(
        &mut self,
        recorder: &mut R,
        participant: Participant,
        hash: &ServiceHash,
    ) -> bool {
        let seat = Seat {
            participant,
            hash: *hash,
        };
        let position = position_of(&self.phases, &seat);
        if !may_remove_description(position.phase) {
            return false;
        }
        let Ok(_) = recorder.write_down() else {
            return false;
        };
        set_phase(&mut self.phases, seat, position.place, Phase::Idle);
        let row = self.rows.place_of(hash);
        let _ = self.rows.remove_at(hash, row);
        true
    }

    fn make<R: Recorder>(
        &mut self,
        recorder: &mut R,
        participant: Participant,
        hash: &ServiceHash,
        max_nodes: u64,
        place: Self::PhasePlace,
        segment: Self::SegmentPlace,
    ) -> Result<bool, AllocError> {
        let seat = Seat {
            participant,
            hash: *hash,
        };
        let Phase::Locked(number) = phase_at(&self.phases, &seat, place) else {
            return Ok(false);
        };
        if max_nodes == 0 {
            return Ok(false);
        }
        if self.segments.get_at(hash, segment).is_some() {
            return Ok(false);
        }
        let Ok(made) = StoredSegment::new(self.alloc, participant, number, max_nodes) else {
            return Err(AllocError);
        };
        let Ok(segment) = self.segments.reserve_at(hash, segment) else {
            return Err(AllocError);
        };
        let Ok(_) = recorder.write_down() else {
            return Ok(false);
        };
        self.segments.insert_at(*hash, segment, made);
        set_phase(&mut self.phases, seat, place, Phase::Made(number));
        Ok(true)
    }

    fn publish<R: Recorder>(
        &mut self,
        recorder: &mut R,
        participant: Participant,
        hash: &ServiceHash,
        description: &StaticConfig,
        place: Self::PhasePlace,
    ) -> Result<bool, AllocError> {
        let seat = Seat {
            participant,
            hash: *hash,
        };
        let Phase::Made(number) = phase_at(&self.phases, &seat, place) else {
            return Ok(false);
        };
        let Ok(bytes) = encode(self.alloc, description) else {
            return Err(AllocError);
        };
        let row = self.rows.place_of(hash);
        let Ok(row) = self.rows.reserve_at(hash, row) else {
            return Err(AllocError);
        };
        let Ok(_) = recorder.write_down() else {
            return Ok(false);
        };
        self.rows
            .insert_at(*hash, row, StoredRow::published(number, bytes));
        set_phase(&mut self.phases, seat, place, Phase::Joined(number, 1));
        Ok(true)
    }

    fn join<R: Recorder>(
        &mut self,
        recorder: &mut R,
        participant: Participant,
        hash: &ServiceHash,
        place: Self::PhasePlace,
        segment: Self::SegmentPlace,
    ) -> Result<bool, AllocError> {
        let seat = Seat {
            participant,
            hash: *hash,
        };
        match phase_at(&self.phases, &seat, place) {
            Phase::Joined(number, count) => {
                if count >= u64::MAX {
                    return Ok(false);
                }
                let Ok(_) = recorder.write_down() else {
                    return Ok(false);
                };
                let phase = Phase::Joined(number, count + 1);
                set_phase(&mut self.phases, seat, place, phase);
                Ok(true)
            }
            Phase::Read(number) => {
                let Some(segment) = self.segments.get_mut_at(hash, segment) else {
                    return Ok(false);
                };
                match segment.admit(recorder, number, participant) {
                    Ok(admitted) => {
                        if admitted {
                            let phase = Phase::Joined(number, 1);
                            set_phase(&mut self.phases, seat, place, phase);
                            return Ok(true);
                        }
                        Ok(false)
                    }
                    Err(error) => Err(error),
                }
            }
            _ => Ok(false),
        }
    }

    fn leave<R: Recorder>(
        &mut self,
        recorder: &mut R,
        participant: Participant,
        hash: &ServiceHash,
    ) -> Option<Release> {
        let seat = Seat {
            participant,
            hash: *hash,
        };
        let position = position_of(&self.phases, &seat);
        let Phase::Joined(number, count) = position.phase else {
            return None;
        };
        if count > 1 {
            let Ok(_) = recorder.write_down() else {
                return None;
            };
            let phase = Phase::Joined(number, count - 1);
            set_phase(&mut self.phases, seat, position.place, phase);
            return Some(Release::StillCounted);
        }
        if count == 0 {
            return None;
        }
        let place = self.segments.place_of(hash);
        let Some(segment) = self.segments.get_mut_at(hash, place) else {
            return None;
        };
        let Ok(_) = recorder.write_down() else {
            return None;
        };
        if segment.dismiss(participant) {
            set_phase(&mut self.phases, seat, position.place, Phase::Idle);
            return Some(Release::Left);
        }
        let leaving = Phase::Leaving(number);
        set_phase(&mut self.phases, seat, position.place, leaving);
        Some(Release::Last)
    }
}
