//! A run over one storage: it asks each question, and writes its answer.

use crate::case_error::{CaseError, write_answer};
use crate::descriptions::call_in;
use crate::forms::{write_changed, write_decoded, write_fronts};
use crate::given::Given;
use crate::known::Known;
use crate::left::{write_left, write_list, write_services};
use crate::programs::{write_said, write_served};
use crate::subject::Subject;
use crate::values::{
    write_compatible, write_defined, write_hash, write_refusal, write_required, write_type,
};
use crate::words::{first_word, named, number};
use crate::{accesses, starve};
use iceoryx2_access::storage::{Service, Sha1Hasher, Storage};
use iceoryx2_data::bytes::encode;
use iceoryx2_testing::script::Faulty;
use negotiate_serve::reply::describe;
use std::alloc::{AllocError, Global};
use std::marker::PhantomData;
use std::mem;
use test_support::places::{Closing, Places};
use test_support::terms::write_factory;

/// The services in a storage of this type.
struct Standing<S> {
    storage: PhantomData<S>,
}

impl<S: Storage> Service for Standing<S> {
    type Storage = S;

    type ServiceNameHasher = Sha1Hasher;
}

/// The storage of a run, and its slots.
#[derive(Drop)]
pub struct Run<S> {
    storage: Faulty<S>,
    places: Places,
}

/// What answers the questions of a run.
pub trait Answers {
    /// Writes the answer to a question.
    fn answer(
        &mut self,
        alloc: Global,
        given: &mut Given,
        question: &str,
        text: &mut String,
    ) -> Result<(), CaseError>;
}

/// A question that isn't a single access.
#[derive(Clone, Copy)]
pub enum Question {
    Call,
    Close,
    Slot,
    Left,
    List,
    Services,
    Abandon,
    Clean,
    Adopt,
    Value(Value),
}

/// A question that needs no storage.
#[derive(Clone, Copy)]
pub enum Value {
    Serve,
    Says,
    Decode,
    Encode,
    Fronts,
    Changed,
    Hash,
    Define,
    Require,
    Type,
    Compatible,
    Refusal,
}

const QUESTIONS: [(&str, Question); 23] = [
    ("event", Question::Call),
    ("pubsub", Question::Call),
    ("rr", Question::Call),
    ("close", Question::Close),
    ("slot", Question::Slot),
    ("left", Question::Left),
    ("list", Question::List),
    ("services", Question::Services),
    ("abandon", Question::Abandon),
    ("clean", Question::Clean),
    ("adopt", Question::Adopt),
    ("serve", Question::Value(Value::Serve)),
    ("says", Question::Value(Value::Says)),
    ("decode", Question::Value(Value::Decode)),
    ("encode", Question::Value(Value::Encode)),
    ("fronts", Question::Value(Value::Fronts)),
    ("changed", Question::Value(Value::Changed)),
    ("hash", Question::Value(Value::Hash)),
    ("define", Question::Value(Value::Define)),
    ("require", Question::Value(Value::Require)),
    ("type", Question::Value(Value::Type)),
    ("compatible", Question::Value(Value::Compatible)),
    ("refusal", Question::Value(Value::Refusal)),
];

/// Returns which question a word begins.
pub fn question_of(word: &str) -> Result<Question, CaseError> {
    named(&QUESTIONS, word)
}

/// Adds the service and the node of a call, and returns its slot.
pub fn add_named(alloc: Global, known: &mut Known, call: &str) -> Result<usize, CaseError> {
    let (pattern, rest) = first_word(call);
    let (_how, rest) = first_word(rest);
    let (node, rest) = first_word(rest);
    let (slot, rest) = first_word(rest);
    let (name, _terms) = first_word(rest);
    let (node, slot) = (number(node)?, number(slot)?);
    let service = format!(in alloc; "{pattern} {name}")?;
    let _hash = known.add_service(alloc, service.as_str())?;
    known.add_node(node)?;
    Ok(slot as usize)
}

/// Writes how many accesses a storage was asked for, and how many of them are looks, openings and makings.
pub fn write_numbers(
    accesses: u64,
    [looks, openings, makings]: [u64; 3],
    text: &mut String,
) -> Result<(), AllocError> {
    write!(
        text,
        "{accesses} accesses, {looks} looks, {openings} openings, {makings} makings"
    )
}

/// Writes the answer to a question that needs no storage.
fn answer_value(
    alloc: Global,
    given: &Given,
    (value, rest): (Value, &str),
    text: &mut String,
) -> Result<(), CaseError> {
    match value {
        Value::Serve => write_served(alloc, given.over, &given.input, text),
        Value::Says => write_said(alloc, given.over, &given.input, text),
        Value::Decode => write_decoded(alloc, rest, text),
        Value::Encode => {
            let description = given.descriptions.description(alloc, rest)?;
            let bytes = encode(alloc, &description)?;
            Ok(text.push_str(hex::encode(alloc, &bytes)?.as_str())?)
        }
        Value::Fronts => write_fronts(alloc, rest, text),
        Value::Changed => write_changed(alloc, rest, text),
        Value::Hash => write_hash(alloc, rest, text),
        Value::Define => write_defined(alloc, rest, text),
        Value::Require => write_required(alloc, rest, text),
        Value::Type => write_type(alloc, rest, text),
        Value::Compatible => write_compatible(alloc, rest, text),
        Value::Refusal => write_refusal(number(rest)?, text),
    }
}

impl<S: Subject> Run<S> {
    /// Carries out a call, and writes its reply.
    fn call(
        &mut self,
        alloc: Global,
        given: &mut Given,
        line: &str,
        text: &mut String,
    ) -> Result<(), CaseError> {
        let slot = add_named(alloc, &mut given.known, line)?;
        let call = call_in(alloc, line)?;
        let reply = self
            .places
            .call::<Standing<Faulty<S>>>(call, &mut self.storage);
        Ok(describe(&reply, slot, text)?)
    }

    /// Closes a slot, and writes the answer.
    fn close(&mut self, slot: usize, text: &mut String) -> Result<(), CaseError> {
        match self.places.close(slot, &mut self.storage) {
            Closing::None(reply) => Ok(describe(&reply, slot, text)?),
            Closing::Whole => Ok(text.push_str("closed")?),
            Closing::Partial(error) => Ok(text.push_str(error)?),
            Closing::Kept => Ok(text.push_str("NotHere")?),
        }
    }

    /// Abandons what a slot holds, and writes `abandoned`, or that the slot is empty.
    fn abandon(&mut self, slot: usize, text: &mut String) -> Result<(), CaseError> {
        match self.places.abandon(slot) {
            None => Ok(text.push_str("abandoned")?),
            Some(reply) => Ok(describe(&reply, slot, text)?),
        }
    }

    /// Makes a single access. Its first number is the node, except for a release, whose second number is the node.
    fn access(
        &mut self,
        alloc: Global,
        given: &mut Given,
        (name, rest): (&str, &str),
        text: &mut String,
    ) -> Result<(), CaseError> {
        let Some(hash) = given.service else {
            return Err(CaseError);
        };
        let (first, others) = first_word(rest);
        let (second, _) = first_word(others);
        let node = if name == "release" { second } else { first };
        if let Ok(node) = number(node) {
            given.known.add_node(node)?;
        }
        let (descriptions, storage) = (&given.descriptions, &mut self.storage);
        accesses::ask(alloc, descriptions, (storage, &hash), (name, rest), text)
    }

    /// Writes how many accesses the storage was asked for.
    fn write_counts(&self, text: &mut String) -> Result<(), AllocError> {
        let storage = &self.storage;
        let numbers = [storage.looks(), storage.openings(), storage.makings()];
        write_numbers(storage.accesses(), numbers, text)
    }

    /// Writes what a slot holds.
    fn write_slot(&self, slot: usize, text: &mut String) -> Result<(), CaseError> {
        match self.places.factory(slot) {
            Some((number, description)) => Ok(write_factory(number, description, text)?),
            None => Ok(text.push_str("empty")?),
        }
    }
}

impl<S: Subject> Answers for Run<S> {
    fn answer(
        &mut self,
        alloc: Global,
        given: &mut Given,
        question: &str,
        text: &mut String,
    ) -> Result<(), CaseError> {
        let (word, rest) = first_word(question);
        match question_of(word) {
            Ok(Question::Call) => self.call(alloc, given, question, text),
            Ok(Question::Close) => self.close(number(rest)? as usize, text),
            Ok(Question::Slot) => self.write_slot(number(rest)? as usize, text),
            Ok(Question::Left) => {
                let storage = self.storage.inner();
                Ok(write_left(alloc, storage, (&given.known, &given.said), text)?)
            }
            Ok(Question::List) => {
                Ok(write_list(alloc, self.storage.inner(), &given.known, text)?)
            }
            Ok(Question::Services) => { Ok(write_services(alloc, self.storage.inner(), text)?) }
            Ok(Question::Abandon) => self.abandon(number(rest)? as usize, text),
            Ok(Question::Clean) => self.storage.inner_mut().clean_up(number(rest)?, text),
            Ok(Question::Adopt) => self.storage.inner_mut().take_in(number(rest)?, text),
            Ok(Question::Value(value)) => answer_value(alloc, given, (value, rest), text),
            Err(CaseError) if question.trim() == "counts" => Ok(self.write_counts(text)?),
            Err(CaseError) => self.access(alloc, given, (word, rest), text),
        }
    }
}

/// Carries out lines over a storage.
pub fn run_lines<S: Subject>(
    alloc: Global,
    given: &mut Given,
    storage: S,
    lines: &[&str],
    text: &mut String,
) -> Result<(), AllocError> {
    let refused = mem::replace(&mut given.refused, Vec::new(alloc));
    let storage = Faulty::new(storage, refused);
    let places = Places::new(alloc)?;
    let mut run = Run { storage, places };
    answer_lines(alloc, given, &mut run, lines, text)
}

/// Carries out lines, and writes the answers to questions.
pub fn answer_lines<A: Answers>(
    alloc: Global,
    given: &mut Given,
    run: &mut A,
    lines: &[&str],
    text: &mut String,
) -> Result<(), AllocError> {
    let mut answer = String::new(alloc);
    for line in lines {
        match line.strip_prefix("? ") {
            Some(question) => {
                answer.clear();
                let done = run.answer(alloc, given, question, &mut answer);
                write_answer(done, line, Some(answer.as_str()), text)?;
            }
            None => match line.strip_prefix("! ") {
                Some(question) => starve::ask(alloc, given, run, question, text)?,
                None => write_answer(given.add(alloc, line), line, None, text)?,
            },
        }
    }
    Ok(())
}
