//! Opens a log, and claims a node at it. It tells what can't be had.

ghost use Rattle.std.specs.Prelude.{◌≡◌, IfOk, IfSome};
ghost use Rattle.iceoryx2_postgres_log.specs.declared.postgres_log.Mode.TheVariants as way;
ghost use Rattle.wulameron_place.specs.Dead.{named_node};

use crate::claims::{Claim, claim_node, list, millis};
use crate::node_log::NodeLog;
use crate::place_log::PlaceLog;
use crate::reports::Reports;
use crate::trouble::Trouble;
use iceoryx2_file_log::error::FileFault;
use iceoryx2_file_log::file_log::FileLog;
use iceoryx2_journal::journal::Journal;
use iceoryx2_log::call_log::CallLog;
use iceoryx2_monitoring::state::NodeStatus;
use iceoryx2_postgres_log::fault::PostgresFault;
use iceoryx2_postgres_log::postgres_log::PostgresLog;
use iceoryx2_session::resuming::Renewing;
use std::alloc::Global;
use std::fs::File;
use std::io::{BufReader, Write};
use std::random::RandomSource;
use std::rt::Files;
use std::time::Clock;
use wulameron_arguments::asked::{Database, Place};
use wulameron_arguments::pipes::Pipes;

/// The log of a place.
pub type LogAt<'a, F> = PlaceLog<FileLog<&'a F>, PostgresLog<BufReader<&'a Pipes>, &'a Pipes>>;

// A log in a database goes on in the session to which its pipes lead now. A log in a file needs no other session.
impl<'a, F: Files<File = File> + Clock + AllocGlobal> Renewing for LogAt<'a, F> {
    fn renewed(&self) -> Option<LogAt<'a, F>> {
        match self {
            PlaceLog::File(_) => None,
            PlaceLog::Database(log) => match renewed_handle(log) {
                Ok(log) => Some(PlaceLog::Database(log)),
                Err(_) => None,
            },
        }
    }
}

/// Returns a handle of a log in a database by which it goes on.
fn renewed_handle<'a>(
    log: &PostgresLog<BufReader<&'a Pipes>, &'a Pipes>,
) -> Result<PostgresLog<BufReader<&'a Pipes>, &'a Pipes>, PostgresFault>
    ensures { IfOk result (λ log. log.mode ≡ way.Free) }
{
    let pipes: &'a Pipes = *log.questions();
    match BufReader::new(log.alloc(), pipes) {
        Ok(replies) => log.again(pipes, replies),
        Err(_) => Err(PostgresFault::OutOfMemory),
    }
}

/// A log of which nothing is taken over yet, and the number with which the counter of its services begins.
#[derive(Drop)]
pub struct OpenLog<L> {
    pub log: L,
    pub counter: u64,
}

impl<L> OpenLog<L> {
    /// Returns the same for a node that this process has claimed. Each of its calls holds the log once.
    pub fn for_node(self, node: u64) -> NodeLog<CallLog<L>> {
        let OpenLog { log, counter } = self;
        NodeLog {
            log: CallLog::new(log),
            counter,
            node,
        }
    }
}

/// Claims a node as `claim_node` does. `None` if it can't be had, which is told.
pub fn claim<F: Files<File = File> + Clock + RandomSource + AllocGlobal, E: Write>(
    rt: &F,
    place: Place<'_>,
    node: Option<u64>,
    reports: &mut Reports<'_, E>,
) -> Option<Claim>
    ensures named { IfSome result (λ claim. IfSome node (λ named. named_node claim ≡ named)) }
{
    match claim_node(rt, place, node) {
        Ok(claim) => Some(claim),
        Err(error) => {
            let _ = reports.tell_claim(&error);
            None
        }
    }
}

/// Opens the log, and makes none. `None` if there is no log, or it can't be had, which is told.
pub fn open_existing<'a, F: Files<File = File> + Clock + RandomSource + AllocGlobal, E: Write>(
    rt: &'a F,
    place: Place<'a>,
    reports: &mut Reports<'_, E>,
) -> Option<OpenLog<LogAt<'a, F>>> {
    match opened_by(rt, place, Opening::Existing) {
        Ok(log) => Some(log),
        Err(trouble) => {
            let _ = reports.tell_unopened(trouble);
            None
        }
    }
}

/// Opens the log, and makes it if there is none. `Trouble` if it can't be had.
pub fn opened<'a, F: Files<File = File> + Clock + RandomSource + AllocGlobal>(
    rt: &'a F,
    place: Place<'a>,
) -> Result<OpenLog<LogAt<'a, F>>, Trouble> {
    opened_by(rt, place, Opening::Made)
}

/// How a log is opened.
#[derive(Clone, Copy)]
enum Opening {
    /// It is made if there is none.
    Made,
    /// It has to be there.
    Existing,
    /// It has to be there, and is only read.
    Read,
}

impl Opening {
    /// Returns whether a log is made if there is none.
    fn makes(self) -> bool {
        match self {
            Opening::Made => true,
            _ => false,
        }
    }
}

/// Opens the log of a place. `Trouble` if it can't be had.
fn opened_by<'a, F: Files<File = File> + Clock + RandomSource + AllocGlobal>(
    rt: &'a F,
    place: Place<'a>,
    opening: Opening,
) -> Result<OpenLog<LogAt<'a, F>>, Trouble> {
    match place.database() {
        Some(database) => opened_database(rt.alloc(), place, database, opening.makes()),
        None => opened_file(rt, place, opening),
    }
}

/// Opens the log in a file.
fn opened_file<'a, F: Files<File = File> + Clock + RandomSource + AllocGlobal>(
    rt: &'a F,
    place: Place<'a>,
    opening: Opening,
) -> Result<OpenLog<LogAt<'a, F>>, Trouble> {
    let Ok(path) = format!(in rt.alloc(); "{}", place.at) else {
        return Err(Trouble::Refused(FileFault::OutOfMemory));
    };
    let found = match opening {
        Opening::Made => FileLog::open(rt, path, place.options),
        Opening::Existing => FileLog::open_existing(rt, path, place.options),
        Opening::Read => FileLog::open_to_read(rt, path, place.options),
    };
    match found {
        Ok(log) => {
            let counter = log.header().counter;
            Ok(OpenLog {
                log: PlaceLog::File(log),
                counter,
            })
        }
        Err(error) => Err(Trouble::Refused(error.fault())),
    }
}

/// Opens the log in a database.
fn opened_database<'a, F>(
    alloc: Global,
    place: Place<'a>,
    database: Database<'a>,
    makes: bool,
) -> Result<OpenLog<LogAt<'a, F>>, Trouble> {
    let Ok(replies) = BufReader::new(alloc, database.pipes) else {
        return Err(Trouble::Database(PostgresFault::OutOfMemory));
    };
    let wait = millis(place.options.patience);
    let questions = database.pipes;
    match PostgresLog::open(alloc, database.log, wait, makes, questions, replies) {
        Ok(log) => {
            let counter = log.counter();
            Ok(OpenLog {
                log: PlaceLog::Database(log),
                counter,
            })
        }
        Err(fault) => Err(Trouble::Database(fault)),
    }
}

/// Returns a journal of the log that only reads it. It has no node, and has taken over nothing yet. `None` if there is
/// no log, or it can't be had, which is told.
pub fn open_view<'a, F: Files<File = File> + Clock + RandomSource + AllocGlobal, E: Write>(
    rt: &'a F,
    place: Place<'a>,
    reports: &mut Reports<'_, E>,
) -> Option<Journal<LogAt<'a, F>>> {
    let alloc = rt.alloc();
    match opened_view(rt, place) {
        Ok(OpenLog { log, counter }) => {
            Some(Journal::starting_at(alloc, log, Vec::new(alloc), counter))
        }
        Err(trouble) => {
            let _ = reports.tell_unopened(trouble);
            None
        }
    }
}

/// Opens the log, only for reading. `Trouble` if there is none, or it can't be had.
pub fn opened_view<'a, F: Files<File = File> + Clock + RandomSource + AllocGlobal>(
    rt: &'a F,
    place: Place<'a>,
) -> Result<OpenLog<LogAt<'a, F>>, Trouble> {
    opened_by(rt, place, Opening::Read)
}

/// Returns the states of the nodes at the place. `None` if they can't be had, which is told.
pub fn states<F: Files<File = File> + AllocGlobal, E: Write>(
    rt: &F,
    place: Place<'_>,
    reports: &mut Reports<'_, E>,
) -> Option<Vec<NodeStatus>> {
    match list(rt, place) {
        Ok(states) => Some(states),
        Err(error) => {
            let _ = reports.tell_claim(&error);
            None
        }
    }
}
