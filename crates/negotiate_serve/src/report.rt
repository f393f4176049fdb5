//! What is written to the standard error when a program ends.

ghost use Rattle.std.specs.Prelude.{IfOk, string_bytes};
ghost use Rattle.negotiate_lines.specs.declared.line.Line.TheVariants as line;
ghost use Rattle.negotiate_serve.specs.Outputs.{Writes};
ghost use Rattle.negotiate_serve.specs.Reports.{IsReport, IsReportOf, Reports, WritesReport, failure_line};

use crate::ending::{Ending, ServeError};
use crate::output::write_out;
use negotiate_lines::line::{Line, parse};
use negotiate_lines::line_error::LineError;
use negotiate_lines::wrong_text::wrong_text;
use std::alloc::{AllocError, Global};
use std::io::Write;

/// Writes the line of the failure by which a program of this name ended, or of what is wrong with the line that is no
/// command. It writes nothing if the input ended.
///
/// `ServeError` as `write_out` does, and `OutOfMemory` if there is no memory for the line. Nothing is written then.
pub fn report<W: Write>(
    program: &str,
    ended: &Result<Ending, ServeError>,
    errors: &mut W,
) -> Result<(), ServeError>
    ensures { Reports program.now ended.now result (W.contents errors.old) (W.contents errors.new) }
{
    match ended {
        Ok(ending) => match ending {
            Ending::InputEnded => Ok(()),
            Ending::NotACommand { number, line } => report_line(program, *number, line, errors),
        },
        Err(failure) => report_failure(program, *failure, errors),
    }
}

/// Writes the line of a failure by which a program of this name ended. `ServeError` as `write_out` does.
pub fn report_failure<W: Write>(
    program: &str,
    failure: ServeError,
    errors: &mut W,
) -> Result<(), ServeError>
    ensures { Writes (failure_line program.now failure) result (W.contents errors.old) (W.contents errors.new) }
{
    write_out(program.as_bytes(), errors)?;
    write_out(failure.reason().as_bytes(), errors)
}

/// Writes what is wrong with the line of this number. `ServeError` as `report` does.
fn report_line<W: Write>(
    program: &str,
    number: u64,
    line: &Vec<u8>,
    errors: &mut W,
) -> Result<(), ServeError>
    ensures { WritesReport (IsReport program.now number line.now.items) result
        (W.contents errors.old) (W.contents errors.new) }
{
    match report_text(*line.allocator(), program, number, line) {
        Ok(text) => write_out(text.as_bytes(), errors),
        Err(_) => Err(ServeError::OutOfMemory),
    }
}

/// Returns what is written of a line with this number: what is wrong with it, if anything is.
fn report_text(alloc: Global, program: &str, number: u64, line: &[u8]) -> Result<String, AllocError>
    ensures { IfOk result (λ text. IsReport program.now number line.now (string_bytes text)) }
{
    match parse(alloc, line) {
        Ok(known) => line_text(alloc, program, number, known),
        Err(error) => Err(error),
    }
}

/// Returns what is written of a line that is this.
fn line_text(
    alloc: Global,
    program: &str,
    number: u64,
    known: Line<'_>,
) -> Result<String, AllocError>
    ensures { IfOk result (λ text. IsReportOf program.now number known.entry (string_bytes text)) }
{
    match known {
        Line::NotACommand(wrong) => told_line(alloc, program, number, wrong),
        Line::Blank => Ok(String::new(alloc)),
        Line::Command(_) => Ok(String::new(alloc)),
    }
}

/// Returns the line of what is wrong.
fn told_line(
    alloc: Global,
    program: &str,
    number: u64,
    wrong: LineError<'_>,
) -> Result<String, AllocError>
    ensures { IfOk result (λ text. IsReportOf program.now number (line.NotACommand wrong.entry) (string_bytes text)) }
{
    match wrong_text(alloc, wrong) {
        Ok(told) => format!(in alloc; "{program}: line {number}: {told}\n"),
        Err(error) => Err(error),
    }
}
