//! What stands under one hash in the plain table, and the steps of participants there.

use iceoryx2_access::storage::{Existence, FetchError, OpenSegmentError};
use iceoryx2_data::bytes::encode;
use iceoryx2_description::description::{ServiceHash, StaticConfig};
use iceoryx2_table::table::Act;
use iceoryx2_world::listing::{Entry, ListedRow, ListedSegment};
use iceoryx2_world::world::{Bytes, Participant, Phase, Row};
use std::alloc::{AllocError, Global};
use std::collections::{BTreeMap, BTreeSet};

/// A segment, with who is in it.
#[derive(Drop)]
struct Segment {
    number: u64,
    max_nodes: u64,
    marked: bool,
    participants: BTreeSet<Participant>,
}

/// A row, a segment, where each participant is, the nodes with a tag, and for each ticket its node and
/// the service's number.
pub struct Standing {
    row: Option<Row>,
    segment: Option<Segment>,
    phases: BTreeMap<Participant, Phase>,
    tags: BTreeSet<u64>,
    tickets: BTreeMap<u64, (u64, u64)>,
}

// Written out, so that a proof of what lets one go doesn't take its fields apart.
impl Drop for Standing {
    fn drop(self) {
        let Standing {
            row: _,
            segment: _,
            phases: _,
            tags: _,
            tickets: _,
        } = self;
    }
}

impl Segment {
    /// Whether it takes one more participant with this number.
    fn has_room(&self, number: u64) -> bool {
        let inside = self.participants.len() as u64;
        self.number == number && !self.marked && inside < self.max_nodes
    }

    /// Puts a participant in.
    fn put_in(&mut self, participant: Participant) -> Result<(), AllocError> {
        match self.participants.insert(participant) {
            Ok(_) => Ok(()),
            Err(_) => Err(AllocError),
        }
    }

    /// Takes a participant out, and returns whether others are there. It is marked where they aren't.
    fn take_out(&mut self, participant: Participant) -> bool {
        let others = self.participants.len() > 1;
        let _ = self.participants.remove(&participant);
        if !others {
            self.participants.clear();
            self.marked = true;
        }
        others
    }

    /// What is listed of it.
    fn listed(&self) -> ListedSegment {
        ListedSegment {
            number: self.number,
            max_nodes: self.max_nodes,
            participants: self.participants.len() as u64,
            marked: self.marked,
        }
    }
}

impl Standing {
    /// Nothing.
    pub fn new(alloc: Global) -> Standing {
        Standing {
            row: None,
            segment: None,
            phases: BTreeMap::new(alloc),
            tags: BTreeSet::new(alloc),
            tickets: BTreeMap::new(alloc),
        }
    }

    /// Where a participant is. One that isn't kept is idle.
    pub fn phase(&self, participant: Participant) -> Phase {
        match self.phases.get(&participant) {
            Some(phase) => *phase,
            None => Phase::Idle,
        }
    }

    /// Keeps where a participant is now. An idle one isn't kept.
    fn set_phase(&mut self, participant: Participant, phase: Phase) -> Result<bool, AllocError> {
        if phase == Phase::Idle {
            let _ = self.phases.remove(&participant);
            return Ok(true);
        }
        match self.phases.insert(participant, phase) {
            Ok(_) => Ok(true),
            Err(_) => Err(AllocError),
        }
    }

    /// Reads what is published.
    fn read(&mut self, participant: Participant) -> Result<bool, AllocError> {
        let Some(Row::Published(number, _)) = &self.row else {
            return Ok(false);
        };
        let number = *number;
        self.set_phase(participant, Phase::Read(number))
    }

    /// Locks where there is no row, and a number is left.
    fn lock(&mut self, participant: Participant, counter: &mut u64) -> Result<bool, AllocError> {
        let number = *counter;
        if self.row.is_some() || number == u64::MAX {
            return Ok(false);
        }
        self.set_phase(participant, Phase::Locked(number))?;
        self.row = Some(Row::Locked(number));
        *counter = number + 1;
        Ok(true)
    }

    /// Makes a segment where there is none, as who has the lock of this number and is alone in it.
    pub fn make(
        &mut self,
        alloc: Global,
        participant: Participant,
        number: u64,
        max_nodes: u64,
    ) -> Result<bool, AllocError> {
        if max_nodes == 0 || self.segment.is_some() {
            return Ok(false);
        }
        let mut segment = Segment {
            number,
            max_nodes,
            marked: false,
            participants: BTreeSet::new(alloc),
        };
        segment.put_in(participant)?;
        self.segment = Some(segment);
        self.set_phase(participant, Phase::Made(number))
    }

    /// Takes the segment away.
    fn remove_segment(
        &mut self,
        participant: Participant,
        after: Phase,
    ) -> Result<bool, AllocError> {
        self.segment = None;
        self.set_phase(participant, after)
    }

    /// Takes the row away.
    fn remove_row(&mut self, participant: Participant) -> Result<bool, AllocError> {
        self.row = None;
        self.set_phase(participant, Phase::Idle)
    }

    /// Whether a description is of this service, and for as many nodes as its segment.
    fn fits(&self, hash: &ServiceHash, description: &StaticConfig) -> bool {
        match &self.segment {
            Some(segment) => {
                *description.service_hash() == *hash && description.max_nodes() == segment.max_nodes
            }
            None => false,
        }
    }

    /// Publishes a description.
    fn publish(
        &mut self,
        alloc: Global,
        participant: Participant,
        number: u64,
        description: &StaticConfig,
    ) -> Result<bool, AllocError> {
        let bytes = Bytes::from_vec(encode(alloc, description)?);
        self.row = Some(Row::Published(number, bytes));
        self.set_phase(participant, Phase::Joined(number, 1))
    }

    /// Publishes a description that fits, as who has made the segment of this number.
    pub fn publish_fitting(
        &mut self,
        alloc: Global,
        participant: Participant,
        number: u64,
        hash: &ServiceHash,
        description: &StaticConfig,
    ) -> Result<bool, AllocError> {
        if !self.fits(hash, description) {
            return Ok(false);
        }
        self.publish(alloc, participant, number, description)
    }

    /// Puts who has read this number into its segment.
    fn join(&mut self, participant: Participant, number: u64) -> Result<bool, AllocError> {
        let Some(segment) = &mut self.segment else {
            return Ok(false);
        };
        if !segment.has_room(number) {
            return Ok(false);
        }
        segment.put_in(participant)?;
        self.set_phase(participant, Phase::Joined(number, 1))
    }

    /// Takes who has joined once out of the segment.
    fn leave(&mut self, participant: Participant, number: u64) -> Result<bool, AllocError> {
        let Some(segment) = &mut self.segment else {
            return Ok(false);
        };
        if segment.take_out(participant) {
            return self.set_phase(participant, Phase::Idle);
        }
        self.set_phase(participant, Phase::Leaving(number))
    }

    /// Takes a step of who has joined so many times.
    fn count(
        &mut self,
        participant: Participant,
        number: u64,
        times: u64,
        act: &Act,
    ) -> Result<bool, AllocError> {
        match act {
            Act::Join if times < u64::MAX => {
                self.set_phase(participant, Phase::Joined(number, times + 1))
            }
            Act::Leave if times > 1 => {
                self.set_phase(participant, Phase::Joined(number, times - 1))
            }
            Act::Leave if times == 1 => self.leave(participant, number),
            _ => Ok(false),
        }
    }

    /// Takes a step of a participant, and returns whether it was allowed. Any that isn't in a row here is
    /// forbidden.
    pub fn take(
        &mut self,
        alloc: Global,
        participant: Participant,
        hash: &ServiceHash,
        act: &Act,
        counter: &mut u64,
    ) -> Result<bool, AllocError> {
        match (self.phase(participant), act) {
            (Phase::Idle | Phase::Read(_), Act::Read) => self.read(participant),
            (Phase::Idle | Phase::Read(_), Act::Lock) => self.lock(participant, counter),
            (Phase::Locked(number), Act::Make { max_nodes }) => {
                self.make(alloc, participant, number, *max_nodes)
            }
            (Phase::Locked(number) | Phase::Made(number), Act::RemoveSegment) => {
                self.remove_segment(participant, Phase::Locked(number))
            }
            (Phase::Leaving(number), Act::RemoveSegment) => {
                self.remove_segment(participant, Phase::Cleared(number))
            }
            (Phase::Locked(_) | Phase::Made(_), Act::RemoveDescription) => {
                self.remove_row(participant)
            }
            (Phase::Leaving(_) | Phase::Cleared(_), Act::RemoveDescription) => {
                self.remove_row(participant)
            }
            (Phase::Made(number), Act::Publish(description)) => {
                self.publish_fitting(alloc, participant, number, hash, description)
            }
            (Phase::Read(number), Act::Join) => self.join(participant, number),
            (Phase::Joined(number, times), _) => self.count(participant, number, times, act),
            _ => Ok(false),
        }
    }

    /// What the row says of the service.
    pub fn existence(&self) -> Existence {
        match &self.row {
            None => Existence::No,
            Some(Row::Locked(_)) => Existence::BeingSetUp,
            Some(Row::Published(_, _)) => Existence::Yes,
        }
    }

    /// The number and a copy of the bytes of what is published.
    pub fn published(&self) -> Result<(u64, Vec<u8>), FetchError> {
        match &self.row {
            None => Err(FetchError::DoesNotExist),
            Some(Row::Locked(_)) => Err(FetchError::NotFinalized),
            Some(Row::Published(number, bytes)) => match bytes.copy() {
                Ok(copy) => Ok((*number, copy)),
                Err(_) => Err(FetchError::OutOfMemory),
            },
        }
    }

    /// Tags a node, and returns whether it had no tag.
    pub fn tag(&mut self, node: u64) -> Result<bool, AllocError> {
        match self.tags.insert(node) {
            Ok(is_new) => Ok(is_new),
            Err(_) => Err(AllocError),
        }
    }

    /// Takes a node's tag away.
    pub fn untag(&mut self, node: u64) {
        let _ = self.tags.remove(&node);
    }

    /// Whether a node has a tag.
    pub fn has_tag(&self, node: u64) -> bool {
        self.tags.contains(&node)
    }

    /// How many tickets a node has.
    pub fn tickets(&self, node: u64) -> u64 {
        let mut tickets = 0u64;
        for (_, (owner, _)) in self.tickets.iter() {
            if *owner == node {
                tickets = tickets.saturating_add(1);
            }
        }
        tickets
    }

    /// Why a node doesn't open the segment of this number.
    pub fn refusal(&self, node: u64, number: u64, counter: u64) -> Option<OpenSegmentError> {
        let Some(segment) = &self.segment else {
            return Some(OpenSegmentError::DoesNotExist);
        };
        if segment.number != number {
            return Some(OpenSegmentError::Failed);
        }
        if segment.marked {
            return Some(OpenSegmentError::Marked);
        }
        let has_room = match self.phase(Participant::Node(node)) {
            Phase::Joined(joined, _) if joined == number => true,
            Phase::Read(read) if read == number => segment.has_room(number),
            _ => return Some(OpenSegmentError::Failed),
        };
        if !has_room {
            return Some(OpenSegmentError::Full);
        }
        if counter == u64::MAX {
            return Some(OpenSegmentError::OutOfNumbers);
        }
        None
    }

    /// Keeps a ticket.
    pub fn put_ticket(&mut self, ticket: u64, node: u64, number: u64) -> Result<(), AllocError> {
        match self.tickets.insert(ticket, (node, number)) {
            Ok(_) => Ok(()),
            Err(_) => Err(AllocError),
        }
    }

    /// Whether it is this node's ticket for this number.
    pub fn has_ticket(&self, ticket: u64, node: u64, number: u64) -> bool {
        match self.tickets.get(&ticket) {
            Some((owner, bought)) => *owner == node && *bought == number,
            None => false,
        }
    }

    /// Spends a ticket.
    pub fn spend(&mut self, ticket: u64) {
        let _ = self.tickets.remove(&ticket);
    }

    /// A copy of the row.
    fn listed_row(&self) -> Result<ListedRow, AllocError> {
        match &self.row {
            None => Ok(ListedRow::Absent),
            Some(Row::Locked(number)) => Ok(ListedRow::Locked(*number)),
            Some(Row::Published(number, bytes)) => {
                Ok(ListedRow::Published(*number, Bytes::from_vec(bytes.copy()?)))
            }
        }
    }

    /// What is listed of it, where there is a row or a segment.
    pub fn listed(&self, hash: ServiceHash) -> Result<Option<Entry>, AllocError> {
        let segment = match &self.segment {
            Some(segment) => Some(segment.listed()),
            None => None,
        };
        if self.row.is_none() && segment.is_none() {
            return Ok(None);
        }
        let row = self.listed_row()?;
        Ok(Some(Entry { hash, row, segment }))
    }
}
