//! Waits for a short time between two looks at a log.

use std::thread;
use std::time::{Clock, Duration};

/// How long a pause is, in milliseconds.
const PAUSE_MILLIS: u64 = 50;

/// Waits for a command that goes on.
pub trait Pauses {
    /// Waits for a short time. Returns false if the command is to end.
    fn pause(&mut self) -> bool;
}

/// Sleeps in each pause, and never ends the command: its user interrupts it, or closes its output.
#[derive(Drop)]
pub struct Sleeper<R> {
    rt: R,
}

impl<R: Clock> Sleeper<R> {
    pub fn new(rt: R) -> Sleeper<R> {
        Sleeper { rt }
    }
}

impl<R: Clock> Pauses for Sleeper<R> {
    fn pause(&mut self) -> bool {
        thread::sleep(&self.rt, Duration::from_millis(PAUSE_MILLIS));
        true
    }
}
