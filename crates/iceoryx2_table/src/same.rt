//! The comparison of two stored worlds, except for participants that have only read.

ghost use Rattle.std.specs.Prelude.{◌≡◌, ◌↔◌, not, IsTrue};
ghost use Rattle.std.specs.List.{list_any};
ghost use Rattle.iceoryx2_world.specs.World.{begins as begins_spec};
ghost use Rattle.iceoryx2_table.specs.Comparing.{settled_phases};
ghost use Rattle.iceoryx2_table.specs.Same.{IsSameButRead};

use crate::rows::{RowState, StoredRow};
use crate::segments::StoredSegment;
use crate::services::begins;
use crate::table::stored::StoredWorld;
use iceoryx2_description::description::ServiceHash;
use iceoryx2_world::world::{Participant, Phase};

// By number, by whether it is published, and by the bytes where it is.
impl PartialEq for StoredRow {
    ghost use Rattle.iceoryx2_table.specs.Comparing.{same_row};
    ghost use Rattle.iceoryx2_table.specs.Decided.{row_laws};

    ghost eq = { same_row };

    ghost laws = { row_laws };

    fn eq(&self, other: &StoredRow) -> bool {
        match self.state() {
            RowState::Locked(number) => match other.state() {
                RowState::Locked(theirs) => number == theirs,
                RowState::Published(_) => false,
            },
            RowState::Published(number) => match other.state() {
                RowState::Locked(_) => false,
                RowState::Published(theirs) => number == theirs && self.bytes() == other.bytes(),
            },
        }
    }
}

// By number, capacity, mark and participants.
impl PartialEq for StoredSegment {
    ghost use Rattle.iceoryx2_table.specs.Comparing.{same_segment};
    ghost use Rattle.iceoryx2_table.specs.Decided.{segment_laws};

    ghost eq = { same_segment };

    ghost laws = { segment_laws };

    fn eq(&self, other: &StoredSegment) -> bool {
        self.number() == other.number()
            && self.capacity() == other.capacity()
            && self.is_marked() == other.is_marked()
            && self.participants() == other.participants()
    }
}

// Whether one is neither Idle nor Read.
fn has_settled(phases: &[((Participant, ServiceHash), Phase)]) -> bool
    ensures { result ≡ list_any (λ e. not (begins_spec e.1)) phases.now }
{
    phases.iter().any(|entry| !begins(entry.1))
}

// Whether those that are neither Idle nor Read are the same.
fn same_phases(
    ours: &[((Participant, ServiceHash), Phase)],
    theirs: &[((Participant, ServiceHash), Phase)],
) -> bool
    ensures { IsTrue result ↔ settled_phases theirs.now ≡ settled_phases ours.now }
{
    let mut mine = 0;
    let mut other = 0;
    while mine < ours.len() && other < theirs.len() {
        if begins(ours[mine].1) {
            mine += 1;
        } else if begins(theirs[other].1) {
            other += 1;
        } else if ours[mine] == theirs[other] {
            mine += 1;
            other += 1;
        } else {
            return false;
        }
    }
    !has_settled(&ours[mine..]) && !has_settled(&theirs[other..])
}

impl StoredWorld {
    /// Returns true if the other world is the same, except for participants that have only read. Rows,
    /// segments, tags, tickets and the counter are equal, and so are the phases that are neither Idle nor
    /// Read. Goes once through both worlds, and takes no memory.
    pub fn is_same(&self, other: &StoredWorld) -> bool
        ensures { IsTrue result ↔ IsSameButRead self.now other.now }
    {
        if self.counter() != other.counter() {
            return false;
        }
        if self.rows_held() != other.rows_held() {
            return false;
        }
        if self.segments_held() != other.segments_held() {
            return false;
        }
        if self.tags_held() != other.tags_held() {
            return false;
        }
        if self.tickets_held() != other.tickets_held() {
            return false;
        }
        same_phases(self.phases_held(), other.phases_held())
    }
}
