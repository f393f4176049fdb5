//! One step of a participant, whatever it finds.

ghost use Rattle.std.specs.Prelude.{◌≡◌, Ok, true};
ghost use Rattle.iceoryx2_description.specs.Description.{IsDescription};
ghost use Rattle.iceoryx2_world.specs.Acts as act;
ghost use Rattle.iceoryx2_world.specs.Acts.{IsAct};
ghost use Rattle.iceoryx2_world.specs.Batches.{act_of};
ghost use Rattle.iceoryx2_table.specs.ServicesState.{MayTakeStep};

use crate::recorder::Unrecorded;
use crate::rows::RowState;
use crate::services::Services;
use iceoryx2_description::description::{ServiceHash, StaticConfig};
use iceoryx2_world::batches::Act;
use iceoryx2_world::world::Participant;
use std::alloc::AllocError;

/// Each function answers true if the step was allowed and has had its effect, and false if it is
/// forbidden. `AllocError` comes only if the step was allowed and found no memory. With false and with
/// `AllocError` nothing has changed.
impl Services {
    /// Takes the step that the act says.
    pub fn take(
        &mut self,
        participant: Participant,
        hash: &ServiceHash,
        act: &Act,
    ) -> Result<bool, AllocError>
        ensures effect { MayTakeStep self.old participant hash.now (act_of act.now) result self.new }
        ensures limits { result ≡ Ok true → IsAct (act_of act.now) }
    {
        match act {
            Act::Read => self.take_read(participant, hash),
            Act::Lock => self.take_lock(participant, hash),
            Act::RemoveSegment => Ok(self.remove_segment(&mut Unrecorded, participant, hash)),
            Act::RemoveDescription => {
                Ok(self.remove_description(&mut Unrecorded, participant, hash))
            }
            Act::Make { max_nodes } => {
                let position = self.position(participant, hash);
                let segment = self.segment_place(hash);
                self.make(
                    &mut Unrecorded,
                    participant,
                    hash,
                    *max_nodes,
                    position,
                    segment,
                )
            }
            Act::Publish(description) => self.take_publish(participant, hash, description),
            Act::Join => {
                let position = self.position(participant, hash);
                let segment = self.segment_place(hash);
                self.join(&mut Unrecorded, participant, hash, position, segment)
            }
            Act::Leave => Ok(self.leave(&mut Unrecorded, participant, hash).is_some()),
        }
    }

    /// Reads the description, if one is published.
    fn take_read(
        &mut self,
        participant: Participant,
        hash: &ServiceHash,
    ) -> Result<bool, AllocError>
        ensures { MayTakeStep self.old participant hash.now act.Read result self.new }
    {
        let Some(row) = self.row(hash) else {
            return Ok(false);
        };
        let RowState::Published(number) = row.state() else {
            return Ok(false);
        };
        self.read(participant, hash, number)
    }

    /// Locks a service that has no row.
    fn take_lock(
        &mut self,
        participant: Participant,
        hash: &ServiceHash,
    ) -> Result<bool, AllocError>
        ensures { MayTakeStep self.old participant hash.now act.Lock result self.new }
    {
        let row = self.row_place(hash);
        if self.row_at(hash, row).is_some() {
            return Ok(false);
        }
        self.lock(&mut Unrecorded, participant, hash, row)
    }

    /// Publishes a description that fits the segment.
    fn take_publish(
        &mut self,
        participant: Participant,
        hash: &ServiceHash,
        description: &StaticConfig,
    ) -> Result<bool, AllocError>
        ensures effect { MayTakeStep self.old participant hash.now (act.Publish description.now) result self.new }
        ensures limits { result ≡ Ok true → IsDescription description.now }
    {
        if !self.has_segment_for(hash, description) {
            return Ok(false);
        }
        let position = self.position(participant, hash);
        self.publish(&mut Unrecorded, participant, hash, description, position)
    }
}
