//! What a run sees of its storage.

use crate::case_error::CaseError;
use iceoryx2_access::storage::Storage;
use iceoryx2_description::description::ServiceHash;
use iceoryx2_journal::cleaning::Cleaned;
use iceoryx2_journal::journal::Journal;
use iceoryx2_log::entry::{Entry as LogEntry, Operation};
use iceoryx2_log::memory::MemoryLog;
use iceoryx2_table::own_parts::OwnParts;
use iceoryx2_table::table::TableOver;
use iceoryx2_testing::script::Script;
use iceoryx2_world::listing::Entry;
use std::alloc::{AllocError, Global};
use test_support::plain::PlainTable;

/// What a run sees of a storage.
#[derive(Drop)]
pub struct Seen {
    /// Each service with a row or a segment.
    pub entries: Vec<Entry>,
    /// The next number, if the storage hands out numbers.
    pub counter: Option<u64>,
    /// How many batches wait.
    pub pending: usize,
    /// How many steps of peers were skipped, since there was no memory.
    pub skipped: u64,
    /// How many answers of a script weren't taken.
    pub unsaid: usize,
    /// A note on the storage, or nothing.
    pub note: &'static str,
}

/// A storage of runs. `seen` and `held` make no access.
pub trait Subject: Storage + Drop {
    /// Returns what there is of all services.
    fn seen(&self, alloc: Global) -> Result<Seen, AllocError>;

    /// Returns whether the node has a tag for the service, and how many tickets it has.
    fn held(&self, node: u64, hash: &ServiceHash) -> (bool, u64);

    /// Cleans up for a node of another process, and writes what was released. Only a journal can.
    fn clean_up(&mut self, node: u64, text: &mut String) -> Result<(), CaseError>;

    /// Makes a node of another process an own one, and writes the outcome. Only a journal can.
    fn take_in(&mut self, node: u64, text: &mut String) -> Result<(), CaseError>;
}

impl<W: OwnParts> Subject for TableOver<W> {
    fn seen(&self, _alloc: Global) -> Result<Seen, AllocError> {
        Ok(Seen {
            entries: self.list()?,
            counter: Some(self.counter()),
            pending: self.pending(),
            skipped: self.skipped(),
            unsaid: 0,
            note: "",
        })
    }

    fn held(&self, node: u64, hash: &ServiceHash) -> (bool, u64) {
        (self.has_tag(node, hash), self.tickets(node, hash))
    }

    fn clean_up(&mut self, _node: u64, _text: &mut String) -> Result<(), CaseError> {
        Err(CaseError)
    }

    fn take_in(&mut self, _node: u64, _text: &mut String) -> Result<(), CaseError> {
        Err(CaseError)
    }
}

impl Subject for PlainTable {
    fn seen(&self, _alloc: Global) -> Result<Seen, AllocError> {
        Ok(Seen {
            entries: self.list()?,
            counter: Some(self.counter()),
            pending: self.pending(),
            skipped: self.skipped(),
            unsaid: 0,
            note: "",
        })
    }

    fn held(&self, node: u64, hash: &ServiceHash) -> (bool, u64) {
        (self.has_tag(node, hash), self.tickets(node, hash))
    }

    fn clean_up(&mut self, _node: u64, _text: &mut String) -> Result<(), CaseError> {
        Err(CaseError)
    }

    fn take_in(&mut self, _node: u64, _text: &mut String) -> Result<(), CaseError> {
        Err(CaseError)
    }
}

/// Returns the number of the first lock, at which a journal's numbers begin.
fn first_number(entries: &[LogEntry]) -> u64 {
    for entry in entries {
        if let Operation::Lock { number } = entry.operation {
            return number;
        }
    }
    0
}

/// Returns the listing of a process that starts with these entries, and has no node of its own.
fn listed_anew(alloc: Global, entries: &[LogEntry]) -> Result<Vec<Entry>, AllocError> {
    let mut copies = Vec::new(alloc);
    for entry in entries {
        copies.push(entry.clone()?)?;
    }
    let first = first_number(&copies);
    let log = MemoryLog::from_entries(alloc, copies, 0);
    let mut journal = Journal::starting_at(alloc, log, Vec::new(alloc), first);
    journal.refresh();
    journal.list()
}

/// Returns a note if a journal is over, or if another process would list something else.
fn note_of(alloc: Global, journal: &Journal<MemoryLog>) -> Result<&'static str, AllocError> {
    if journal.is_over() {
        return Ok("over");
    }
    if listed_anew(alloc, journal.log().entries())? == journal.list()? {
        return Ok("");
    }
    Ok("others list otherwise")
}

impl Subject for Journal<MemoryLog> {
    fn seen(&self, alloc: Global) -> Result<Seen, AllocError> {
        Ok(Seen {
            entries: self.list()?,
            counter: Some(self.world().counter()),
            pending: self.log().pending(),
            skipped: 0,
            unsaid: 0,
            note: note_of(alloc, self)?,
        })
    }

    fn held(&self, node: u64, hash: &ServiceHash) -> (bool, u64) {
        let world = self.world();
        (world.has_tag(node, hash), world.tickets(node, hash))
    }

    fn clean_up(&mut self, node: u64, text: &mut String) -> Result<(), CaseError> {
        match self.clean(node) {
            Ok(Cleaned { releases, removals }) => {
                Ok(write!(text, "{releases} releases, {removals} removals")?)
            }
            Err(error) => Ok(write!(text, "{error}")?),
        }
    }

    fn take_in(&mut self, node: u64, text: &mut String) -> Result<(), CaseError> {
        match self.adopt(node) {
            Ok(()) => Ok(text.push_str("adopted")?),
            Err(error) => Ok(write!(text, "{error}")?),
        }
    }
}

impl Subject for Script {
    fn seen(&self, alloc: Global) -> Result<Seen, AllocError> {
        Ok(Seen {
            entries: Vec::new(alloc),
            counter: None,
            pending: 0,
            skipped: 0,
            unsaid: self.left().len(),
            note: "",
        })
    }

    fn held(&self, _node: u64, _hash: &ServiceHash) -> (bool, u64) {
        (false, 0)
    }

    fn clean_up(&mut self, _node: u64, _text: &mut String) -> Result<(), CaseError> {
        Err(CaseError)
    }

    fn take_in(&mut self, _node: u64, _text: &mut String) -> Result<(), CaseError> {
        Err(CaseError)
    }
}
