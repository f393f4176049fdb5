//! Reads lines and writes answers.

ghost use Rattle.std.specs.Prelude.{◌≡◌, ℕ, List, Some, IfOk, IfSome};
ghost use Rattle.negotiate_serve.specs.Served.{AnswersAll, TakesTurn};
ghost use Rattle.negotiate_serve.specs.Transcripts.{AnswersLineBy, MayEnd};

use crate::answerer::Answerer;
use crate::ending::{Ending, ServeError, WrongLines};
use crate::input::next_line;
use crate::lines::Lines;
use crate::output::write_out;
use std::alloc::Global;
use std::io::{BufRead, Write};
use std::mem;

/// The bytes of a line, and the text of its answer, whose room is reused for the next line.
#[derive(Drop)]
pub struct Buffers {
    line: Vec<u8>,
    text: String,
}

impl Buffers {
    /// Returns empty buffers.
    pub fn new(alloc: Global) -> Buffers {
        Buffers {
            line: Vec::new(alloc),
            text: String::new(alloc),
        }
    }
}

/// Answers line after line, until the input ends, a line is no command, or 2^64 - 2 lines were answered, which is a
/// failure. It doesn't write a failure.
pub fn answer_lines<A: Answerer, R: BufRead, W: Write>(
    alloc: Global,
    reader: &mut R,
    output: &mut W,
    answerer: &mut A,
) -> Result<Ending, ServeError>
    requires { A.stands answerer.old }
    ensures answered { (input : List ℕ) → R.remaining reader.old ≡ Some input → AnswersAll (AnswersLineBy A.answers)
        answerer.old result input (R.remaining reader.new) (W.contents output.old) (W.contents output.new) }
    ensures stands { A.stands answerer.new }
{
    let mut buffers = Buffers::new(alloc);
    for number in 1..u64::MAX {
        let ending = answer_next(
            number,
            &WrongLines::End,
            reader,
            output,
            answerer,
            &mut buffers,
        )?;
        if let Some(ending) = ending {
            return Ok(ending);
        }
    }
    Err(ServeError::TooManyLines)
}

/// Reads the next line and answers it as such lines are, by one write, which is flushed. The line has this number,
/// counted from 1. Returns how the program ends, if it does.
pub fn answer_next<A, L: Lines<A>, R: BufRead, W: Write>(
    number: u64,
    lines: &L,
    reader: &mut R,
    output: &mut W,
    answerer: &mut A,
    buffers: &mut Buffers,
) -> Result<Option<Ending>, ServeError>
    ensures turn { L.stands answerer.old → (rest : List ℕ) → R.remaining reader.old ≡ Some rest
        → TakesTurn (L.lines lines.now) result answerer.old number rest
        (R.remaining reader.new) answerer.new (W.contents output.old) (W.contents output.new) }
    ensures ends { IfOk result (λ ended. IfSome ended (MayEnd (L.ends_at_wrong lines.now))) }
    ensures stands { L.stands answerer.old → L.stands answerer.new }
{
    if !next_line(reader, &mut buffers.line)? {
        return Ok(Some(Ending::InputEnded));
    }
    buffers.text.clear();
    let goes_on = lines.answer_line(number, &buffers.line, answerer, &mut buffers.text)?;
    write_out(buffers.text.as_bytes(), output)?;
    if goes_on {
        return Ok(None);
    }
    let alloc = *buffers.text.allocator();
    let line = mem::replace(&mut buffers.line, Vec::new(alloc));
    Ok(Some(Ending::NotACommand { number, line }))
}
