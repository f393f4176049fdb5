//! What is done over the log of a place.

use iceoryx2_log::call_log::SpansCalls;
use iceoryx2_session::resuming::Renewing;
use std::fs::File;
use std::random::RandomSource;
use std::rt::Files;
use std::time::Clock;
use wulameron_arguments::asked::Place;
use wulameron_place::node_log::NodeLog;
use wulameron_place::opening::opened;
use wulameron_place::trouble::{Refusing, Trouble};

/// What a program does over the log of a place, and how it tells that there is none. Each ends with a status.
//
// What is done is generic in the log. So the log of a place, whose type has many others in it, is named in `with_log`
// alone, and the proofs of the programs don't go through all of these types, each for itself.
pub(crate) trait LogTask {
    /// Does it for a node over its log.
    fn over<L: Refusing + Renewing + SpansCalls + Drop>(self, log: NodeLog<L>) -> u8;

    /// Tells why the log can't be opened.
    fn refused(self, trouble: Trouble) -> u8;
}

/// Opens the log of a place for a node, makes it if there is none, and does this over it. Returns the status.
pub(crate) fn with_log<F: Files<File = File> + Clock + RandomSource + AllocGlobal, T: LogTask>(
    rt: &F,
    place: Place<'_>,
    node: u64,
    task: T,
) -> u8 {
    match opened(rt, place) {
        Ok(log) => task.over(log.for_node(node)),
        Err(trouble) => task.refused(trouble),
    }
}
