//! The program `explain`: the lines of `negotiate`, and after each reply what it comes from.
//!
//! `main` hands the standard streams to `serve` of `explain_serve`. Only that it is safe and ends is proved of it.
#![tactic(auto)]

use explain_serve::format::Format;
use explain_serve::serve::serve;
use negotiate_serve::ending::{NOT_A_COMMAND, ServeError, status};
use negotiate_serve::report::report;
use negotiate_serve::serve::write_failure;
use std::process::ExitCode;
use std::{env, io};

/// The format that the arguments ask for: none asks for lines, and other than `--diagram` there is none.
fn asked_format(rt: &HostRuntime) -> io::Result<Option<Format>> {
    let mut arguments = env::args(rt)?;
    let _program = arguments.next();
    let Some(argument) = arguments.next() else {
        return Ok(Some(Format::Lines));
    };
    match arguments.next() {
        None => Ok(Format::named(&argument)),
        Some(_) => Ok(None),
    }
}

/// Answers the lines of the standard input on the standard output, and explains each reply.
///
/// Ends with status 0, with 2 at a line that is no command and where the arguments are wrong, and with
/// 3 where there is a failure, of which the standard error has a line.
fn main(rt: HostRuntime) -> ExitCode {
    let mut output = io::writer(&rt);
    let ended = match asked_format(&rt) {
        Ok(Some(format)) => serve(rt.alloc(), rt.reader(), &mut output, format),
        Ok(None) => {
            let _ = eprintln!(rt; "usage: explain [--diagram] < LINES");
            return ExitCode::from(NOT_A_COMMAND);
        }
        Err(error) => Err(write_failure(ServeError::of_reading(&error), &mut output)),
    };
    let _ = report("explain", &ended, &mut rt.stderr());
    ExitCode::from(status(&ended))
}
