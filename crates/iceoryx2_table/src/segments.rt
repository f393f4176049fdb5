//! A segment as a table keeps it.

ghost use Rattle.std.specs.Prelude.{◌≡◌, IfOk};
ghost use Rattle.std.specs.FinMap as map;
ghost use Rattle.iceoryx2_world.specs.Sets as set;
ghost use Rattle.iceoryx2_world.specs.Access.{segment_refusal};
ghost use Rattle.iceoryx2_table.specs.ServicesState.{Dismisses};
ghost use Rattle.iceoryx2_table.specs.Recorded.{RecordsAdmission};
ghost use Rattle.iceoryx2_world.specs.Listing.{listed_segment};
ghost use Rattle.iceoryx2_world.specs.Steps.{new_segment, fits as fits_spec, has_room as has_room_spec};

use crate::recorder::Recorder;
use finite_map::sorted::SortedVec;
use iceoryx2_access::storage::OpenSegmentError;
use iceoryx2_description::description::{ServiceHash, StaticConfig};
use iceoryx2_world::listing::ListedSegment;
use iceoryx2_world::world::{Participant, Phase};
use std::alloc::{AllocError, Global};
use std::marker::Model;

/// A segment as a table keeps it.
#[derive(Drop)]
pub struct StoredSegment {
    number: u64,
    capacity: u64,
    participants: SortedVec<Participant, ()>,
    marked: bool,
}

impl Model for StoredSegment {
    ghost use Rattle.finite_map.specs.Sorted.{map_of};
    ghost use Rattle.iceoryx2_world.specs.Orders.{participant_cmp};
    ghost use Rattle.iceoryx2_world.specs.World.{Segment};
    ghost use Rattle.iceoryx2_world.specs.Codes.{coded_segment};

    ghost Value = { Segment };

    ghost coded = { coded_segment };

    ghost view = { λ s. record {
      number = s.number;
      capacity = s.capacity;
      participants = map_of participant_cmp s.participants;
      marked = s.marked;
    } };
}

impl StoredSegment {
    /// Returns a segment that one participant makes for itself.
    pub fn new(
        alloc: Global,
        participant: Participant,
        number: u64,
        capacity: u64,
    ) -> Result<StoredSegment, AllocError>
        ensures { IfOk result (λ segment. segment ≡ new_segment participant number capacity) }
    {
        let Ok(participants) = SortedVec::with_entry(alloc, participant, ()) else {
            return Err(AllocError);
        };
        Ok(StoredSegment {
            number,
            capacity,
            participants,
            marked: false,
        })
    }

    /// Returns the number of the service that the segment was made for.
    pub fn number(&self) -> u64
        ensures { result ≡ self.now.number }
    {
        self.number
    }

    /// Returns the number of participants that the segment takes.
    pub fn capacity(&self) -> u64
        ensures { result ≡ self.now.capacity }
    {
        self.capacity
    }

    /// Returns true if all participants have left the segment.
    pub fn is_marked(&self) -> bool
        ensures { result ≡ self.now.marked }
    {
        self.marked
    }

    /// Returns the participants in the segment: nodes before peers, each by number.
    pub fn participants(&self) -> &[(Participant, ())]
        ensures { result.now ≡ map.entries self.now.participants }
    {
        self.participants.entries()
    }

    /// Returns the number of participants in the segment.
    pub fn count(&self) -> u64
        ensures { result ≡ set.len self.now.participants }
    {
        self.participants.len() as u64
    }

    /// Returns true if the participant is in the segment, by one binary search.
    pub fn contains(&self, participant: &Participant) -> bool
        ensures { result ≡ set.contains self.now.participants participant.now }
    {
        self.participants.get(participant).is_some()
    }

    fn has_room(&self, number: u64) -> bool
        ensures { result ≡ has_room_spec number self.now }
    {
        self.number == number && !self.marked && (self.participants.len() as u64) < self.capacity
    }

    /// Returns true if the description fits the segment: it is for this service, and for as many nodes.
    pub fn fits(&self, hash: &ServiceHash, description: &StaticConfig) -> bool
        ensures { result ≡ fits_spec hash.now self.now description.now }
    {
        description.service_hash().cmp(hash).is_eq() && description.max_nodes() == self.capacity
    }

    /// Returns the reason why the segment isn't opened, if there is one.
    pub fn refusal(&self, number: u64, counter: u64, phase: Phase) -> Option<OpenSegmentError>
        ensures { result ≡ segment_refusal number self.now counter phase }
    {
        if self.number != number {
            return Some(OpenSegmentError::Failed);
        }
        if self.marked {
            return Some(OpenSegmentError::Marked);
        }
        match phase {
            Phase::Read(read) => {
                if read != number {
                    return Some(OpenSegmentError::Failed);
                }
                if !self.has_room(number) {
                    return Some(OpenSegmentError::Full);
                }
                if counter >= u64::MAX {
                    return Some(OpenSegmentError::OutOfNumbers);
                }
                None
            }
            Phase::Joined(joined, count) => {
                if joined != number {
                    return Some(OpenSegmentError::Failed);
                }
                if counter >= u64::MAX {
                    return Some(OpenSegmentError::OutOfNumbers);
                }
                if count >= u64::MAX {
                    return Some(OpenSegmentError::Failed);
                }
                None
            }
            _ => Some(OpenSegmentError::Failed),
        }
    }

    /// Returns the segment as it is listed.
    pub fn to_listed(&self) -> ListedSegment
        ensures { result ≡ listed_segment self.now }
    {
        ListedSegment {
            number: self.number,
            max_nodes: self.capacity,
            participants: self.participants.len() as u64,
            marked: self.marked,
        }
    }

    /// Admits one more participant if the segment has this number and room. The recorder writes that down
    /// before. Returns true if the participant was admitted.
    pub fn admit<R: Recorder>(
        &mut self,
        recorder: &mut R,
        number: u64,
        participant: Participant,
    ) -> Result<bool, AllocError>
        ensures { RecordsAdmission R.written R.refused number participant self.old result self.new
            recorder.old recorder.new }
    {
        if !self.has_room(number) {
            return Ok(false);
        }
        let place = self.participants.place_of(&participant);
        if self.participants.reserve_at(&participant, place).is_err() {
            return Err(AllocError);
        }
        let Ok(_) = recorder.write_down() else {
            return Ok(false);
        };
        self.participants.insert_at(participant, place, ());
        Ok(true)
    }

    /// Dismisses a participant; the last one marks the segment. Returns true if others stay.
    pub fn dismiss(&mut self, participant: Participant) -> bool
        ensures { Dismisses participant self.old result self.new }
    {
        if self.participants.len() > 1 {
            let _ = self.participants.remove(&participant);
            return true;
        }
        self.participants.clear();
        self.marked = true;
        false
    }
}
