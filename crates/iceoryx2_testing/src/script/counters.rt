//! The numbers of calls of a storage.

ghost use Rattle.std.specs.Prelude.{◌≡◌};
ghost use Rattle.iceoryx2_access.specs.Counts.{count_up};

/// The numbers of calls of three of the accesses. Each number stops at `u64::MAX`.
#[derive(Clone, Copy, Debug, PartialEq, Eq)]
pub struct Counters {
    /// Calls of `exists`.
    pub looks: u64,
    /// Calls of `open_segment`.
    pub openings: u64,
    /// Calls of `make_segment`.
    pub makings: u64,
}

impl Counters {
    /// No calls.
    pub const NONE: Counters = Counters {
        looks: 0,
        openings: 0,
        makings: 0,
    };

    pub(super) fn count_look(&mut self)
        ensures { self.new ≡ record self.old { looks = count_up self.old.looks } }
    {
        self.looks = self.looks.saturating_add(1);
    }

    pub(super) fn count_opening(&mut self)
        ensures { self.new ≡ record self.old { openings = count_up self.old.openings } }
    {
        self.openings = self.openings.saturating_add(1);
    }

    pub(super) fn count_making(&mut self)
        ensures { self.new ≡ record self.old { makings = count_up self.old.makings } }
    {
        self.makings = self.makings.saturating_add(1);
    }
}
