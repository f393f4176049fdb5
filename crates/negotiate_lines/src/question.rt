//! What a line of an escaped session asks: a command, or what only such sessions are asked.

ghost use Rattle.std.specs.Prelude.{◌≡◌, ◌∷◌, [], IfOk, true};
ghost use Rattle.std.specs.Result.{result_map_both};
ghost use Rattle.iceoryx2_builder.specs.Commands.{slot_count};
ghost use Rattle.negotiate_lines.specs.Terms.{Finds, IsNumber, Reads, terms_of};
ghost use Rattle.negotiate_lines.specs.Questions.{AsksIn, IsOnly, IsOnlyOrNone, IsQuestionOf, IsRequest};
ghost use Rattle.negotiate_lines.specs.Questions.{is_question_word};

use crate::leaf::{Form, bytes_of_leaf};
use crate::line::{Line, parse_in};
use crate::term::{TermError, next_term, number, number_below};
use iceoryx2_builder::command::SLOTS;
use std::alloc::{AllocError, Global};

/// What a session is asked beside commands.
#[derive(Drop)]
pub enum Question {
    /// What was agreed on in a slot, as the terms that ask for it.
    Show { slot: usize },
    /// The bytes of the description in a slot.
    Bytes { slot: usize },
    /// To let go of what a slot holds without a close.
    Abandon { slot: usize },
    /// All entries of the listing.
    Entries,
    /// The nodes at the log.
    Nodes,
    /// To release what a dead node has, or what each has.
    Clean { node: Option<u64> },
    /// What that would release.
    Rehearse { node: Option<u64> },
    /// The texts of a refusal, by its number.
    Refusal { number: u64 },
    /// To carry out a plain line of these bytes.
    Plain { line: Vec<u8> },
}

/// What a line of an escaped session is.
#[derive(Drop)]
pub enum Request<'a> {
    /// It begins with no word of a question.
    Line(Line<'a>),
    /// It is a question.
    Question(Question),
    /// It begins with this word of a question, and something else has to follow the word.
    NotAQuestion(&'a str),
}

/// Reads a line of an escaped session, without its end.
///
/// `AllocError` if there is no memory for what it means.
pub fn parse_request<'a>(alloc: Global, line: &'a [u8]) -> Result<Request<'a>, AllocError>
    ensures { IfOk result (IsRequest line.now) }
{
    if let Ok(text) = std::str::from_utf8(line) {
        if let Some((first, others)) = next_term(text) {
            if is_question_word(first) {
                return asked(alloc, first, others);
            }
        }
    }
    Ok(Request::Line(parse_in(alloc, Form::Escaped, line)?))
}

/// Returns what a word of a question and the terms after it ask.
fn asked<'a>(alloc: Global, first: &'a str, others: &str) -> Result<Request<'a>, AllocError>
    requires { is_question_word first.now ≡ true }
    ensures { IfOk result (AsksIn (first.now ∷ terms_of others.now)) }
{
    match question_of(alloc, first, others) {
        Ok(question) => Ok(Request::Question(question)),
        Err(TermError::Malformed) => Ok(Request::NotAQuestion(first)),
        Err(TermError::OutOfMemory) => Err(AllocError),
    }
}

/// Returns whether a question begins with this word.
fn is_question_word(word: &str) -> bool
    ensures { result ≡ is_question_word word.now }
{
    match word {
        "show" => true,
        "bytes" => true,
        "abandon" => true,
        "entries" => true,
        "nodes" => true,
        "clean" => true,
        "rehearse" => true,
        "refusal" => true,
        "plain" => true,
        _ => false,
    }
}

/// Returns the question that a word and the terms after it are.
fn question_of(alloc: Global, first: &str, others: &str) -> Result<Question, TermError>
    ensures { Reads (IsQuestionOf (first.now ∷ terms_of others.now)) result }
{
    match first {
        "show" => Ok(Question::Show {
            slot: only_slot(others)?,
        }),
        "bytes" => Ok(Question::Bytes {
            slot: only_slot(others)?,
        }),
        "abandon" => Ok(Question::Abandon {
            slot: only_slot(others)?,
        }),
        "entries" => {
            nothing(others)?;
            Ok(Question::Entries)
        }
        "nodes" => {
            nothing(others)?;
            Ok(Question::Nodes)
        }
        "clean" => Ok(Question::Clean {
            node: number_or_none(others)?,
        }),
        "rehearse" => Ok(Question::Rehearse {
            node: number_or_none(others)?,
        }),
        "refusal" => Ok(Question::Refusal {
            number: number(only(others)?)?,
        }),
        "plain" => Ok(Question::Plain {
            line: bytes_of_leaf(alloc, only(others)?)?,
        }),
        _ => Err(TermError::Malformed),
    }
}

/// Reads a text that has no term.
fn nothing(text: &str) -> Result<(), TermError>
    ensures { Finds (λ none. terms_of text.now ≡ []) result }
{
    match next_term(text) {
        None => Ok(()),
        Some(_) => Err(TermError::Malformed),
    }
}

/// Returns the only term of a text.
fn only(text: &str) -> Result<&str, TermError>
    ensures { Finds (λ term. terms_of text.now ≡ term ∷ []) (result_map_both (λ term. term.now) (λ e. e) result) }
{
    match next_term(text) {
        None => Err(TermError::Malformed),
        Some((term, others)) => match next_term(others) {
            None => Ok(term),
            Some(_) => Err(TermError::Malformed),
        },
    }
}

/// Returns the slot that is the only term of a text.
fn only_slot(text: &str) -> Result<usize, TermError>
    ensures { Finds (IsOnly (IsNumber slot_count) (terms_of text.now)) result }
{
    Ok(number_below(only(text)?, SLOTS as u64)? as usize)
}

/// Returns the number that is the only term of a text, or `None` if it has no term.
fn number_or_none(text: &str) -> Result<Option<u64>, TermError>
    ensures { Finds (IsOnlyOrNone (terms_of text.now)) result }
{
    if next_term(text).is_none() {
        return Ok(None);
    }
    Ok(Some(number(only(text)?)?))
}
