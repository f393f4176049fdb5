//! Reads a log, wherever it is, by a handle that only looks.

use crate::checker::{Found, LogFault, Verdict};
use crate::following::Source;
use crate::printing::{Rest, Shows, show_entry};
use crate::showing::Silence;
use crate::stopping::Stop;
use iceoryx2_description::description::ServiceHash;
use iceoryx2_file_log::header::{self, HEADER_LENGTH, Header, LogName};
use iceoryx2_log::entry::{Entry, Operation};
use iceoryx2_log::form::{EncodeError, encode};
use iceoryx2_log::log::LogError;
use iceoryx2_table::table::stored::StoredWorld;
use negotiate_serve::ending::ServeError;
use std::alloc::Global;
use std::io::{self, Write};
use std::ops::ControlFlow;
use wulameron_place::opening::OpenLog;
use wulameron_place::trouble::Refusing;

/// A log that is read by its handle, which never holds it.
#[derive(Drop)]
pub struct LogRows<L> {
    log: L,
    counter: u64,
    /// The number of the next entry, from 0 on.
    at: u64,
    /// Where the next entry that `bytes` reads would begin in a file.
    byte: u64,
}

/// Returns the mark that the log goes on in another place.
fn mark() -> Entry {
    Entry {
        node: 0,
        hash: ServiceHash([0; 20]),
        operation: Operation::Moved,
    }
}

impl<L: Refusing> LogRows<L> {
    /// Returns a reader before the first entry of the log.
    pub fn new(open: OpenLog<L>) -> LogRows<L> {
        let OpenLog { log, counter } = open;
        LogRows {
            log,
            counter,
            at: 0,
            byte: HEADER_LENGTH as u64,
        }
    }

    /// Returns why the log refused, if it answered this.
    fn stop(&self, error: LogError) -> Stop {
        match error {
            LogError::OutOfMemory => Stop::Failed(ServeError::OutOfMemory),
            _ => match self.log.refused() {
                Some(trouble) => Stop::Refused(trouble),
                None => Stop::Damaged,
            },
        }
    }

    /// Measures how far the log goes.
    fn measure(&mut self) -> Result<(), Stop> {
        match self.log.look() {
            Ok(()) => Ok(()),
            Err(error) => Err(self.stop(error)),
        }
    }

    /// Returns the next entry, or what follows the last one.
    fn next(&mut self) -> Result<ControlFlow<Rest, Entry>, Stop> {
        match self.log.next() {
            Ok(Some(entry)) => {
                self.log.accept();
                self.at = self.at.saturating_add(1);
                Ok(ControlFlow::Continue(entry))
            }
            Ok(None) => Ok(ControlFlow::Break(Rest::Ended)),
            Err(LogError::Moved) => Ok(ControlFlow::Break(Rest::Moved(mark()))),
            Err(error) => Err(self.stop(error)),
        }
    }

    /// Returns the services after the entries up to there, or after the snapshot alone.
    fn services_up_to(&mut self, alloc: Global, only_snapshot: bool) -> Result<StoredWorld, Stop> {
        let mut silence = Silence {
            world: StoredWorld::starting_at(alloc, self.counter),
        };
        let mut text = String::new(alloc);
        for _ in 0..u64::MAX {
            if only_snapshot && !self.log.is_in_snapshot() {
                return Ok(silence.world);
            }
            match self.next()? {
                ControlFlow::Break(_) => return Ok(silence.world),
                ControlFlow::Continue(entry) => {
                    show_entry(&entry, &mut silence, &mut text, &mut io::sink())?
                }
            }
        }
        Err(Stop::Failed(ServeError::TooManyTries))
    }

    /// Returns all of the log, as the bytes that it would have in a file.
    pub fn bytes(&mut self, alloc: Global) -> Result<Vec<u8>, Stop> {
        self.measure()?;
        let mut entries = Vec::new(alloc);
        let mut snapshot_length = 0;
        for _ in 0..u64::MAX {
            let is_in_snapshot = self.log.is_in_snapshot();
            match self.next()? {
                ControlFlow::Break(_) => {
                    return whole_log(alloc, self.counter, snapshot_length, &entries);
                }
                ControlFlow::Continue(entry) => add_form(alloc, &entry, &mut entries)?,
            }
            self.byte = (entries.len() as u64).saturating_add(HEADER_LENGTH as u64);
            if is_in_snapshot {
                snapshot_length = entries.len() as u64;
            }
        }
        Err(Stop::Failed(ServeError::TooManyTries))
    }
}

impl<L> LogRows<L> {
    /// Returns that the next entry is damaged.
    pub fn damage(&self) -> Verdict {
        Verdict::Wrong(Found {
            byte: self.byte,
            place: self.at,
            wrong: LogFault::DamagedEntry,
        })
    }
}

/// Adds the byte form of an entry. It was read from one, so it has one.
fn add_form(alloc: Global, entry: &Entry, bytes: &mut Vec<u8>) -> Result<(), Stop> {
    match encode(alloc, entry) {
        Ok(form) => match bytes.extend_from_slice(&form) {
            Ok(()) => Ok(()),
            Err(_) => Err(Stop::Failed(ServeError::OutOfMemory)),
        },
        Err(EncodeError::OutOfMemory) => Err(Stop::Failed(ServeError::OutOfMemory)),
        Err(EncodeError::TooLong) => Err(Stop::Damaged),
    }
}

/// Returns a log's bytes: a header without a name, and those of its entries.
fn whole_log(
    alloc: Global,
    counter: u64,
    snapshot_length: u64,
    entries: &[u8],
) -> Result<Vec<u8>, Stop> {
    let header = Header {
        name: LogName([0; 16]),
        counter,
        snapshot_length,
    };
    let Ok(mut bytes) = header::encode(alloc, &header) else {
        return Err(Stop::Failed(ServeError::OutOfMemory));
    };
    match bytes.extend_from_slice(entries) {
        Ok(()) => Ok(bytes),
        Err(_) => Err(Stop::Failed(ServeError::OutOfMemory)),
    }
}

impl<L: Refusing> Source for LogRows<L> {
    fn at(&self) -> u64 {
        self.at
    }

    fn look<P: Shows, W: Write>(
        &mut self,
        alloc: Global,
        shown: &mut P,
        output: &mut W,
    ) -> Result<Rest, Stop> {
        self.measure()?;
        let mut text = String::new(alloc);
        for _ in 0..u64::MAX {
            match self.next()? {
                ControlFlow::Break(rest) => return Ok(rest),
                ControlFlow::Continue(entry) => show_entry(&entry, shown, &mut text, output)?,
            }
        }
        Err(Stop::Failed(ServeError::TooManyTries))
    }

    fn services(&mut self, alloc: Global) -> Result<StoredWorld, Stop> {
        self.measure()?;
        self.services_up_to(alloc, false)
    }

    fn services_of_snapshot(&mut self, alloc: Global) -> Result<StoredWorld, Stop> {
        self.services_up_to(alloc, true)
    }

    fn go_on(&mut self) -> Result<bool, Stop> {
        match self.log.rejoin() {
            Ok(counter) => {
                self.counter = counter;
                self.at = 0;
                Ok(true)
            }
            Err(error) => Err(self.stop(error)),
        }
    }
}
