//! Runs whole programs on an input, and writes what they print.

use crate::case_error::CaseError;
use crate::given::Over;
use explain_serve::format::Format;
use explain_serve::serve::serve as explain;
use iceoryx2_description::config::Config;
use iceoryx2_session::session::Session;
use iceoryx2_table::table::Table;
use negotiate_serve::answer::{Buffers, answer_next};
use negotiate_serve::ending::{Ending, ServeError, WrongLines, status};
use negotiate_serve::lines::Lines;
use negotiate_serve::report::report;
use negotiate_serve::serve::serve as negotiate;
use std::alloc::Global;
use std::io::{BufRead, BufReader, Read, Write};

/// More lines than any input has.
const MOST_LINES: u64 = 1_000_000;

/// Answers each line of an input, also a line that is no command.
fn answer_all<A, L: Lines<A>, R: BufRead, W: Write>(
    alloc: Global,
    lines: &L,
    reader: &mut R,
    page: &mut W,
    answerer: &mut A,
) -> Result<Ending, ServeError> {
    let mut buffers = Buffers::new(alloc);
    for number in 1..MOST_LINES {
        let ended = answer_next(number, lines, reader, page, answerer, &mut buffers)?;
        if let Some(ending) = ended {
            return Ok(ending);
        }
    }
    Err(ServeError::TooManyLines)
}

/// Answers each line of an input over a new table, as a session of `wulameron` does.
fn reply<R: Read + Drop, W: Write>(
    alloc: Global,
    wrong_lines: WrongLines,
    input: R,
    page: &mut W,
) -> Result<Ending, ServeError> {
    let Ok(mut reader) = BufReader::new(alloc, input) else {
        return Err(ServeError::OutOfMemory);
    };
    let mut session = Session::new(Config::default(), Table::new(alloc));
    let ended = answer_all(alloc, &wrong_lines, &mut reader, page, &mut session);
    let _table = session.finish();
    ended
}

/// Runs `explain` on any input. `serve` calls no program's function by itself, since each names many types.
fn run_explain<R: Read + Drop, W: Write>(
    alloc: Global,
    input: R,
    page: &mut W,
    format: Format,
) -> Result<Ending, ServeError> {
    explain(alloc, input, page, format)
}

/// Runs `negotiate` on any input.
fn run_negotiate<R: Read + Drop, W: Write>(
    alloc: Global,
    input: R,
    page: &mut W,
) -> Result<Ending, ServeError> {
    negotiate(alloc, input, page)
}

/// Runs a program on an input, and returns how it ended. It prints on the page.
fn serve(
    alloc: Global,
    over: Over,
    input: &[u8],
    page: &mut Vec<u8>,
) -> Result<Ending, ServeError> {
    match over {
        Over::Explain => run_explain(alloc, input, page, Format::Lines),
        Over::Diagram => run_explain(alloc, input, page, Format::Diagram),
        Over::Replies => reply(alloc, WrongLines::Reply, input, page),
        Over::RepliesAndEmptyLines => { reply(alloc, WrongLines::ReplyAndEmptyLine, input, page) }
        _ => run_negotiate(alloc, input, page),
    }
}

/// Writes the text of a page.
fn write_page(page: &[u8], text: &mut String) -> Result<(), CaseError> {
    match std::str::from_utf8(page) {
        Ok(printed) => Ok(text.push_str(printed)?),
        Err(_) => Err(CaseError),
    }
}

/// Writes what a program prints for an input, and its status.
pub fn write_served(
    alloc: Global,
    over: Over,
    input: &[u8],
    text: &mut String,
) -> Result<(), CaseError> {
    let mut page = Vec::new(alloc);
    let ended = serve(alloc, over, input, &mut page);
    write_page(&page, text)?;
    let status = status(&ended);
    Ok(write!(text, "status {status}")?)
}

/// Writes what a program prints on its standard error for an input, or `nothing`.
pub fn write_said(
    alloc: Global,
    over: Over,
    input: &[u8],
    text: &mut String,
) -> Result<(), CaseError> {
    let mut page = Vec::new(alloc);
    let ended = serve(alloc, over, input, &mut page);
    page.clear();
    let name = match over {
        Over::Negotiate => "negotiate",
        _ => "explain",
    };
    if report(name, &ended, &mut page).is_err() {
        return Err(CaseError);
    }
    if page.is_empty() {
        return Ok(text.push_str("nothing")?);
    }
    write_page(&page, text)
}
