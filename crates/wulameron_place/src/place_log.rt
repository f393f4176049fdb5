//! A log in a file or in a database.

ghost use Rattle.std.specs.Prelude.{◌≡◌};
ghost use Rattle.wulameron_place.specs.Places.{by_place};

use crate::trouble::{Refusing, Trouble};
use iceoryx2_log::entry::Entry;
use iceoryx2_log::log::{Log, LogError};

/// A log in a file or in a database.
#[derive(Drop)]
pub enum PlaceLog<A, B> {
    File(A),
    Database(B),
}

impl<A: Log, B: Log> Log for PlaceLog<A, B> {
    ghost contents = { λ log. by_place A.contents B.contents log };

    ghost held = { λ log. by_place A.held B.held log };

    ghost shown = { λ log. by_place A.shown B.shown log };

    fn hold(&mut self) -> Result<(), LogError> {
        match self {
            PlaceLog::File(log) => log.hold(),
            PlaceLog::Database(log) => log.hold(),
        }
    }

    fn look(&mut self) -> Result<(), LogError> {
        match self {
            PlaceLog::File(log) => log.look(),
            PlaceLog::Database(log) => log.look(),
        }
    }

    fn next(&mut self) -> Result<Option<Entry>, LogError> {
        match self {
            PlaceLog::File(log) => log.next(),
            PlaceLog::Database(log) => log.next(),
        }
    }

    fn accept(&mut self) {
        match self {
            PlaceLog::File(log) => log.accept(),
            PlaceLog::Database(log) => log.accept(),
        }
    }

    fn append(&mut self, entry: &Entry) -> Result<(), LogError> {
        match self {
            PlaceLog::File(log) => log.append(entry),
            PlaceLog::Database(log) => log.append(entry),
        }
    }

    fn let_go(&mut self) {
        match self {
            PlaceLog::File(log) => log.let_go(),
            PlaceLog::Database(log) => log.let_go(),
        }
    }

    fn pause(&mut self, number: u64) -> bool {
        match self {
            PlaceLog::File(log) => log.pause(number),
            PlaceLog::Database(log) => log.pause(number),
        }
    }

    fn rejoin(&mut self) -> Result<u64, LogError> {
        match self {
            PlaceLog::File(log) => log.rejoin(),
            PlaceLog::Database(log) => log.rejoin(),
        }
    }

    fn is_in_snapshot(&self) -> bool {
        match self {
            PlaceLog::File(log) => log.is_in_snapshot(),
            PlaceLog::Database(log) => log.is_in_snapshot(),
        }
    }

    fn is_long(&self) -> bool {
        match self {
            PlaceLog::File(log) => log.is_long(),
            PlaceLog::Database(log) => log.is_long(),
        }
    }

    fn compact(&mut self, snapshot: &[Entry]) -> Result<(), LogError> {
        match self {
            PlaceLog::File(log) => log.compact(snapshot),
            PlaceLog::Database(log) => log.compact(snapshot),
        }
    }

    fn put_off_compaction(&mut self) {
        match self {
            PlaceLog::File(log) => log.put_off_compaction(),
            PlaceLog::Database(log) => log.put_off_compaction(),
        }
    }
}

impl<A: Refusing, B: Refusing> Refusing for PlaceLog<A, B> {
    ghost refused = { λ log. by_place A.refused B.refused log };

    ghost refused_held = { λ log. by_place A.refused_held B.refused_held log };

    fn refused(&self) -> Option<Trouble> {
        match self {
            PlaceLog::File(log) => log.refused(),
            PlaceLog::Database(log) => log.refused(),
        }
    }

    fn refused_held(&self) -> Option<Trouble> {
        match self {
            PlaceLog::File(log) => log.refused_held(),
            PlaceLog::Database(log) => log.refused_held(),
        }
    }
}
