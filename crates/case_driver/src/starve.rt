//! Asks a question while its first request for memory is refused, then its second, and so on, until none is refused.
//! The run starts again for each of them.

use crate::case_error::{CaseError, write_answer};
use crate::given::Given;
use crate::run::Answers;
use crate::storages::carry_out;
use std::alloc::{AllocError, Global};
use test_support::refusing::{MODES, Mode, Refused, end, refuse};

/// More requests than a question makes.
const MOST: u16 = 1000;

/// The most bytes of an answer. Room for them is asked for before memory is refused.
const ROOM: usize = 0x1_0000;

/// Returns the word of a mode.
fn word_of(mode: Mode) -> &'static str {
    match mode {
        Mode::Alone => "alone",
        Mode::AndLater => "later",
    }
}

/// Returns the word of how many requests were refused.
fn count_of(refused: Refused) -> &'static str {
    match refused {
        Refused::None => "none",
        Refused::One => "one",
        Refused::More => "more",
    }
}

/// Writes the outcome of a try: its mode, its number, how many requests were refused, and the answer. If a request
/// outside of the question was refused, there is no answer.
fn write_try(
    ((mode, number), refused): ((Mode, u16), Refused),
    (done, question): (Result<(), CaseError>, &str),
    answer: &str,
    text: &mut String,
) -> Result<(), AllocError> {
    let (mode, count) = (word_of(mode), count_of(refused));
    write!(text, "{mode} {number} {count}: ")?;
    match (done, refused) {
        (Err(CaseError), Refused::One | Refused::More) => writeln!(text, "out of memory"),
        (done, _) => write_answer(done, question, Some(answer), text),
    }
}

/// Asks with memory what is left, then the same question again, and then what is left.
fn ask_again<A: Answers>(
    alloc: Global,
    given: &mut Given,
    run: &mut A,
    question: &str,
    text: &mut String,
) -> Result<(), AllocError> {
    let mut answer = String::new(alloc);
    for asked in ["left", question, "left"] {
        answer.clear();
        let done = run.answer(alloc, given, asked, &mut answer);
        write_answer(done, asked, Some(answer.as_str()), text)?;
    }
    Ok(())
}

/// Asks a question while a request is refused, and then with memory. It drops the answers to the questions before it.
pub fn ask<A: Answers>(
    alloc: Global,
    given: &mut Given,
    run: &mut A,
    question: &str,
    text: &mut String,
) -> Result<(), AllocError> {
    let Some((mode, number)) = given.starving else {
        return Ok(());
    };
    let mut answer = String::with_capacity(alloc, ROOM)?;
    refuse(alloc, mode.refusing(number));
    let done = run.answer(alloc, given, question, &mut answer);
    let refused = end(alloc);
    given.refusals = refused;
    text.clear();
    let order = (mode, number);
    write_try((order, refused), (done, question), answer.as_str(), text)?;
    ask_again(alloc, given, run, question, text)
}

/// Carries out a run for each request of its question, and refuses that request, until none is refused.
fn starve(alloc: Global, mode: Mode, lines: &[&str], text: &mut String) -> Result<(), AllocError> {
    let mut page = String::new(alloc);
    for number in 1u16..MOST {
        page.clear();
        let refused = carry_out(alloc, Some((mode, number)), lines, &mut page)?;
        text.push_str(page.as_str())?;
        if refused == Refused::None {
            return Ok(());
        }
    }
    Ok(())
}

/// Carries out a run once, or once for each request that is refused if a question is to be starved.
pub fn carry_out_all(alloc: Global, lines: &[&str], text: &mut String) -> Result<(), AllocError> {
    if !lines.iter().any(|line| line.starts_with("! ")) {
        let _none = carry_out(alloc, None, lines, text)?;
        return Ok(());
    }
    for mode in MODES {
        starve(alloc, mode, lines, text)?;
    }
    Ok(())
}
