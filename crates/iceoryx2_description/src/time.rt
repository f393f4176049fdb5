//! Lengths of time and points in time.

ghost use Rattle.std.specs.Prelude.{◌≡◌, ◌<◌, ◌≤◌, ◌^◌, ◌↔◌, IfSome, IsTrue, MatchOption};
ghost use Rattle.iceoryx2_description.specs.Span.{Span, zero_span};

use std::marker::Model;

/// The number of nanoseconds in a second.
pub const NANOSECONDS_PER_SECOND: u32 = 1_000_000_000;

/// States that a second has 1,000,000,000 nanoseconds.
pub fn second_has_a_billion_nanoseconds()
    ensures { NANOSECONDS_PER_SECOND ≡ 1000000000 }
{}

/// A length of time: seconds, and fewer than 1,000,000,000 nanoseconds.
#[derive(Clone, Copy, Debug, PartialEq, Eq, PartialOrd, Ord)]
pub struct Duration {
    seconds: u64,
    nanoseconds: u32,
}

impl Model for Duration {
    ghost use Rattle.std.specs.Prelude.{◌<◌};
    ghost use Rattle.iceoryx2_description.specs.Span.{Span};
    ghost use Rattle.iceoryx2_description.specs.declared.time.TheConstants.{NANOSECONDS_PER_SECOND};

    ghost Value = { Span };

    ghost view = { λ d. record { seconds = d.seconds; nanoseconds = d.nanoseconds } };

    ghost invariant = { λ d. d.nanoseconds < NANOSECONDS_PER_SECOND };

    ghost inverse = { λ s. record { seconds = s.seconds; nanoseconds = s.nanoseconds } };
}

impl Duration {
    /// Returns a length of time, or `None` if `nanoseconds` is 1,000,000,000 or more.
    pub fn new(seconds: u64, nanoseconds: u32) -> Option<Duration>
        ensures value { IfSome result (λ d. (d.seconds ≡ seconds) × (d.nanoseconds ≡ nanoseconds)) }
        ensures limit { MatchOption result (NANOSECONDS_PER_SECOND ≤ nanoseconds)
            (λ _. nanoseconds < NANOSECONDS_PER_SECOND) }
    {
        if nanoseconds < NANOSECONDS_PER_SECOND {
            Some(Duration {
                seconds,
                nanoseconds,
            })
        } else {
            None
        }
    }

    /// Returns the whole seconds.
    pub fn seconds(&self) -> u64
        ensures value { result ≡ self.now.seconds }
        ensures below { result < 2 ^ 64 }
    {
        self.seconds
    }

    /// Returns the nanoseconds besides the seconds, below 1,000,000,000.
    pub fn nanoseconds(&self) -> u32
        ensures value { result ≡ self.now.nanoseconds }
        ensures below { result < NANOSECONDS_PER_SECOND }
    {
        self.nanoseconds
    }
}

/// A point in time: seconds, and fewer than 1,000,000,000 nanoseconds.
#[derive(Clone, Copy, Debug, PartialEq, Eq, PartialOrd, Ord)]
pub struct Time {
    seconds: u64,
    nanoseconds: u32,
}

impl Model for Time {
    ghost use Rattle.std.specs.Prelude.{◌<◌};
    ghost use Rattle.iceoryx2_description.specs.Span.{Span};
    ghost use Rattle.iceoryx2_description.specs.declared.time.TheConstants.{NANOSECONDS_PER_SECOND};

    ghost Value = { Span };

    ghost view = { λ d. record { seconds = d.seconds; nanoseconds = d.nanoseconds } };

    ghost invariant = { λ d. d.nanoseconds < NANOSECONDS_PER_SECOND };

    ghost inverse = { λ s. record { seconds = s.seconds; nanoseconds = s.nanoseconds } };
}

impl Time {
    /// Returns a point in time, or `None` if `nanoseconds` is 1,000,000,000 or more.
    pub fn new(seconds: u64, nanoseconds: u32) -> Option<Time>
        ensures value { IfSome result (λ t. (t.seconds ≡ seconds) × (t.nanoseconds ≡ nanoseconds)) }
        ensures limit { MatchOption result (NANOSECONDS_PER_SECOND ≤ nanoseconds)
            (λ _. nanoseconds < NANOSECONDS_PER_SECOND) }
    {
        let since_zero = Duration::new(seconds, nanoseconds)?;
        Some(Time {
            seconds: since_zero.seconds,
            nanoseconds: since_zero.nanoseconds,
        })
    }

    /// Returns the whole seconds.
    pub fn seconds(&self) -> u64
        ensures value { result ≡ self.now.seconds }
        ensures below { result < 2 ^ 64 }
    {
        self.seconds
    }

    /// Returns the nanoseconds besides the seconds, below 1,000,000,000.
    pub fn nanoseconds(&self) -> u32
        ensures value { result ≡ self.now.nanoseconds }
        ensures below { result < NANOSECONDS_PER_SECOND }
    {
        self.nanoseconds
    }
}

impl Default for Time {
    ghost is_default = { λ time. time ≡ zero_span };

    /// Returns the time zero.
    fn default() -> Time {
        Time {
            seconds: 0,
            nanoseconds: 0,
        }
    }
}

/// States that two lengths or two points in time are equal by `==` exactly if they are the same in
/// seconds and nanoseconds.
pub fn equality_of_times()
    ensures length { (a b : Span) → IsTrue (⟦<Duration as PartialEq>⟧.eq a b) ↔ (a ≡ b) }
    ensures point { (a b : Span) → IsTrue (⟦<Time as PartialEq>⟧.eq a b) ↔ (a ≡ b) }
{}

/// A clock that could not be read.
#[derive(Clone, Copy, Debug, PartialEq, Eq)]
pub struct ClockFault;
