//! Runs over a session. Its storage is traced, so that its accesses can be counted.

use crate::case_error::CaseError;
use crate::descriptions::call_in;
use crate::given::Given;
use crate::left::{write_left, write_list, write_services};
use crate::run::{Answers, Question, add_named, answer_lines, question_of, write_numbers};
use crate::subject::Subject;
use crate::words::{first_word, number};
use iceoryx2_builder::command::{Command, Reply};
use iceoryx2_description::config::Config;
use iceoryx2_session::session::Session;
use iceoryx2_session::world_storage::WorldStorage;
use iceoryx2_testing::traced::{Traced, TracedAccess};
use negotiate_serve::reply::describe;
use std::alloc::{AllocError, Global};
use test_support::terms::write_factory;

/// More accesses than a run makes.
const ROOM: usize = 4000;

/// How many accesses of a slice are looks, openings and makings.
fn numbers_of(accesses: &[TracedAccess]) -> [u64; 3] {
    let [mut looks, mut openings, mut makings] = [0u64; 3];
    for access in accesses {
        match access {
            TracedAccess::Exists { .. } => looks = looks.saturating_add(1),
            TracedAccess::OpenSegment { .. } => openings = openings.saturating_add(1),
            TracedAccess::MakeSegment { .. } => makings = makings.saturating_add(1),
            _ => {}
        }
    }
    [looks, openings, makings]
}

/// Writes how many accesses the storage was asked for. `CaseError` if there was no room for all of them.
fn write_counts<S>(storage: &Traced<S>, text: &mut String) -> Result<(), CaseError> {
    let (all, others) = storage.accesses();
    if storage.forgotten() > 0 || !others.is_empty() {
        return Err(CaseError);
    }
    Ok(write_numbers(storage.total(), numbers_of(all), text)?)
}

/// Writes what a slot holds.
fn write_slot<S: WorldStorage>(
    session: &Session<S>,
    slot: usize,
    text: &mut String,
) -> Result<(), CaseError> {
    match session.registration(slot) {
        Some(held) => Ok(write_factory(held.number(), held.description(), text)?),
        None => Ok(text.push_str("empty")?),
    }
}

/// Carries out the call that a line states.
fn reply_to<S: WorldStorage>(
    alloc: Global,
    session: &mut Session<S>,
    line: &str,
) -> Result<Reply, CaseError> {
    let call = call_in(alloc, line)?;
    Ok(session.apply_shared(Command::Call(call)))
}

/// Writes a reply to a command for this slot, in the words of cases.
fn write_reply(reply: &Reply, slot: usize, text: &mut String) -> Result<(), CaseError> {
    match reply {
        Reply::Closed { .. } => Ok(text.push_str("closed")?),
        Reply::NotClosed { .. } => Ok(text.push_str("NotHere")?),
        _ => Ok(describe(reply, slot, text)?),
    }
}

impl<S: Subject + WorldStorage> Answers for Session<Traced<S>> {
    fn answer(
        &mut self,
        alloc: Global,
        given: &mut Given,
        question: &str,
        text: &mut String,
    ) -> Result<(), CaseError> {
        let (word, rest) = first_word(question);
        match question_of(word) {
            Ok(Question::Call) => {
                let slot = add_named(alloc, &mut given.known, question)?;
                write_reply(&reply_to(alloc, self, question)?, slot, text)
            }
            Ok(Question::Close) => {
                let slot = number(rest)? as usize;
                write_reply(&self.apply_shared(Command::Close { slot }), slot, text)
            }
            Ok(Question::Slot) => write_slot(self, number(rest)? as usize, text),
            Ok(Question::Left) => {
                let table = self.storage().inner();
                Ok(write_left(alloc, table, (&given.known, &given.said), text)?)
            }
            Ok(Question::List) => {
                Ok(write_list(alloc, self.storage().inner(), &given.known, text)?)
            }
            Ok(Question::Services) => { Ok(write_services(alloc, self.storage().inner(), text)?) }
            Err(CaseError) if question.trim() == "counts" => write_counts(self.storage(), text),
            _ => Err(CaseError),
        }
    }
}

/// Carries out lines by a session over a storage, and closes all its slots.
pub fn run_session<S: Subject + WorldStorage>(
    alloc: Global,
    given: &mut Given,
    storage: S,
    lines: &[&str],
    text: &mut String,
) -> Result<(), AllocError> {
    let Ok(traced) = Traced::new(alloc, storage, ROOM) else {
        return Err(AllocError);
    };
    let mut session = Session::over(Config::default(), traced);
    let done = answer_lines(alloc, given, &mut session, lines, text);
    let _traced = session.close_all();
    done
}
