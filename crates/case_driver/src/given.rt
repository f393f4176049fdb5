//! What lines give: how a run begins, what others do, and names of descriptions and services.

use crate::answers::answer_in;
use crate::case_error::CaseError;
use crate::descriptions::{Descriptions, bytes_in};
use crate::entries::operation_in;
use crate::known::Known;
use crate::words::{first_word, named, number, numbers};
use iceoryx2_description::description::ServiceHash;
use iceoryx2_log::entry::Entry;
use iceoryx2_table::table::{Act, Step};
use iceoryx2_testing::script::Answer;
use std::alloc::Global;
use test_support::refusing::{Mode, Refused};

/// The most batches that wait.
const MOST_BATCHES: u64 = 10_000;

/// What answers a run: a storage, or a whole program.
#[derive(Clone, Copy, PartialEq)]
pub enum Over {
    Table,
    Large,
    Plain,
    /// A session over a table.
    Session,
    Journal,
    Busy,
    Full,
    Script,
    Negotiate,
    Replies,
    RepliesAndEmptyLines,
    Explain,
    Diagram,
}

impl Over {
    /// Returns whether this is a journal. Others append entries to a journal's log, and peers take steps at a table.
    fn is_journal(self) -> bool {
        match self {
            Over::Journal | Over::Busy | Over::Full => true,
            _ => false,
        }
    }
}

const OVER: [(&str, Over); 13] = [
    ("table", Over::Table),
    ("large", Over::Large),
    ("plain", Over::Plain),
    ("session", Over::Session),
    ("journal", Over::Journal),
    ("busy", Over::Busy),
    ("full", Over::Full),
    ("script", Over::Script),
    ("negotiate", Over::Negotiate),
    ("replies", Over::Replies),
    ("replies_and_empty_lines", Over::RepliesAndEmptyLines),
    ("explain", Over::Explain),
    ("diagram", Over::Diagram),
];

/// What a line gives.
#[derive(Clone, Copy)]
enum Gift {
    Over,
    Service,
    Describe,
    Peer,
    Entries,
    Answers,
    Nothing,
}

const GIFTS: [(&str, Gift); 8] = [
    ("", Gift::Nothing),
    ("over", Gift::Over),
    ("program", Gift::Over),
    ("service", Gift::Service),
    ("describe", Gift::Describe),
    ("peer", Gift::Peer),
    ("entries", Gift::Entries),
    ("answers:", Gift::Answers),
];

/// All that lines gave. Steps, entries and answers go into the storage when it is made. The rest is used later too.
pub struct Given {
    pub over: Over,
    pub counter: u64,
    pub refused: Vec<u64>,
    pub batches: Vec<Vec<Step>>,
    /// The entries that others append before each hold of a journal's log.
    pub entries: Vec<Vec<Entry>>,
    pub answers: Vec<Answer>,
    pub descriptions: Descriptions,
    pub known: Known,
    /// The service that was named last.
    pub service: Option<ServiceHash>,
    /// The words of the script's answers.
    pub said: Vec<String>,
    /// The program's input.
    pub input: Vec<u8>,
    /// Which request for memory is refused of the question that is starved.
    pub starving: Option<(Mode, u16)>,
    /// How many requests of that question were refused.
    pub refusals: Refused,
}

// Written out, so that the proof of a function that drops a `Given` doesn't go through its fields.
impl Drop for Given {
    fn drop(self) {
        let Given {
            over: _,
            counter: _,
            refused: _,
            batches: _,
            entries: _,
            answers: _,
            descriptions: _,
            known: _,
            service: _,
            said: _,
            input: _,
            starving: _,
            refusals: _,
        } = self;
    }
}

/// Returns the texts before and after a word. The second is empty if the text doesn't have the word.
fn around<'a>(text: &'a str, word: &str) -> (&'a str, &'a str) {
    text.split_once(word).unwrap_or((text, ""))
}

/// Returns the act that a text states.
fn act_in(alloc: Global, descriptions: &Descriptions, text: &str) -> Result<Act, CaseError> {
    let (word, rest) = first_word(text);
    match word {
        "read" => Ok(Act::Read),
        "lock" => Ok(Act::Lock),
        "remove_segment" => Ok(Act::RemoveSegment),
        "remove_description" => Ok(Act::RemoveDescription),
        "join" => Ok(Act::Join),
        "leave" => Ok(Act::Leave),
        "make" => Ok(Act::Make {
            max_nodes: number(rest)?,
        }),
        "publish" => Ok(Act::Publish(descriptions.description(alloc, rest)?)),
        _ => Err(CaseError),
    }
}

/// Adds a peer's steps at a service.
fn push_steps(
    alloc: Global,
    descriptions: &Descriptions,
    (peer, hash, steps): (u64, ServiceHash, &str),
    batch: &mut Vec<Step>,
) -> Result<(), CaseError> {
    for step in steps.split(',') {
        let act = act_in(alloc, descriptions, step)?;
        batch.push(Step { peer, hash, act })?;
    }
    Ok(())
}

/// Adds a node's entries of a service.
fn push_entries(
    alloc: Global,
    descriptions: &Descriptions,
    (node, hash, operations): (u64, ServiceHash, &str),
    batch: &mut Vec<Entry>,
) -> Result<(), CaseError> {
    for text in operations.split(',') {
        let operation = operation_in(alloc, descriptions, text)?;
        batch.push(Entry {
            node,
            hash,
            operation,
        })?;
    }
    Ok(())
}

/// Adds empty batches up to the one before an access, and returns the place of that batch.
fn make_room<T: Drop>(
    alloc: Global,
    batches: &mut Vec<Vec<T>>,
    access: u64,
) -> Result<usize, CaseError> {
    if access > MOST_BATCHES {
        return Err(CaseError);
    }
    for _ in batches.len() as u64..access {
        batches.push(Vec::new(alloc))?;
    }
    (access as usize).checked_sub(1).ok_or(CaseError)
}

impl Given {
    /// Returns an empty script, for which nothing is given.
    pub fn new(alloc: Global) -> Given {
        Given {
            over: Over::Script,
            counter: 0,
            refused: Vec::new(alloc),
            batches: Vec::new(alloc),
            entries: Vec::new(alloc),
            answers: Vec::new(alloc),
            descriptions: Descriptions {
                all: Vec::new(alloc),
            },
            known: Known {
                services: Vec::new(alloc),
                nodes: Vec::new(alloc),
            },
            service: None,
            said: Vec::new(alloc),
            input: Vec::new(alloc),
            starving: None,
            refusals: Refused::None,
        }
    }

    /// Adds what a line gives that isn't a question.
    pub fn add(&mut self, alloc: Global, line: &str) -> Result<(), CaseError> {
        if line.starts_with('>') {
            return self.add_input(alloc, line);
        }
        let (word, rest) = first_word(line);
        match named(&GIFTS, word)? {
            Gift::Over => self.begin(alloc, rest),
            Gift::Service => {
                self.service = Some(self.known.add_service(alloc, rest)?);
                Ok(())
            }
            Gift::Describe => self.descriptions.add(alloc, rest),
            Gift::Peer => self.add_steps(alloc, rest),
            Gift::Entries => self.add_entries(alloc, rest),
            Gift::Answers => self.add_answers(alloc, rest),
            Gift::Nothing => Ok(()),
        }
    }

    /// Adds to a program's input: the text of `> TEXT` with a line end, that of `>> TEXT` without, or the bytes of
    /// `>= DIGITS`.
    fn add_input(&mut self, alloc: Global, line: &str) -> Result<(), CaseError> {
        if let Some(digits) = line.strip_prefix(">= ") {
            let bytes = bytes_in(alloc, digits)?;
            return Ok(self.input.extend_from_slice(&bytes)?);
        }
        if let Some(text) = line.strip_prefix(">> ") {
            return Ok(self.input.extend_from_slice(text.as_bytes())?);
        }
        let text = line.strip_prefix("> ").unwrap_or("");
        self.input.extend_from_slice(text.as_bytes())?;
        Ok(self.input.extend_from_slice(b"\n")?)
    }

    /// Begins the run `STORAGE [counter N] [refuse N ..]`.
    fn begin(&mut self, alloc: Global, text: &str) -> Result<(), CaseError> {
        let (front, refused) = around(text, " refuse ");
        let (storage, counter) = around(front, " counter ");
        self.over = named(&OVER, storage.trim())?;
        self.refused = numbers(alloc, refused)?;
        if !counter.is_empty() {
            self.counter = number(counter.trim())?;
        }
        if self.counter != 0 && self.over == Over::Plain {
            return Err(CaseError);
        }
        Ok(())
    }

    /// Adds the steps of `NODE before N ..: STEP, ..` to the batches before accesses `N`.
    fn add_steps(&mut self, alloc: Global, text: &str) -> Result<(), CaseError> {
        let (front, steps) = around(text, ":");
        let (peer, accesses) = around(front, " before ");
        let peer = number(peer.trim())?;
        for &access in &numbers(alloc, accesses)? {
            self.add_batch(alloc, access, (peer, steps))?;
        }
        Ok(())
    }

    /// Adds a peer's steps to the batch before an access.
    fn add_batch(
        &mut self,
        alloc: Global,
        access: u64,
        (peer, steps): (u64, &str),
    ) -> Result<(), CaseError> {
        if self.over.is_journal() {
            return Err(CaseError);
        }
        let place = make_room(alloc, &mut self.batches, access)?;
        match (self.service, self.batches.get_mut(place)) {
            (Some(hash), Some(batch)) => {
                push_steps(alloc, &self.descriptions, (peer, hash, steps), batch)
            }
            _ => Err(CaseError),
        }
    }

    /// Adds the entries of `NODE before N: OPERATION, ..` to those before hold `N` of the log.
    fn add_entries(&mut self, alloc: Global, text: &str) -> Result<(), CaseError> {
        let (front, operations) = around(text, ":");
        let (node, access) = around(front, " before ");
        let (node, access) = (number(node.trim())?, number(access.trim())?);
        self.known.add_node(node)?;
        if !self.over.is_journal() {
            return Err(CaseError);
        }
        let place = make_room(alloc, &mut self.entries, access)?;
        match (self.service, self.entries.get_mut(place)) {
            (Some(hash), Some(batch)) => {
                push_entries(alloc, &self.descriptions, (node, hash, operations), batch)
            }
            _ => Err(CaseError),
        }
    }

    /// Adds a script's answers.
    fn add_answers(&mut self, alloc: Global, all: &str) -> Result<(), CaseError> {
        for text in all.split(',') {
            let text = text.trim();
            let answer = answer_in(alloc, &self.descriptions, text)?;
            self.answers.push(answer)?;
            self.said.push(String::from_str(alloc, text)?)?;
        }
        Ok(())
    }
}
