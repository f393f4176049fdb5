//! The program `negotiate`: commands by line, over a table of its own.
//!
//! `main` hands the standard streams to `serve` of `negotiate_serve`, and turns its ending into a status and a line
//! on the standard error. What the streams hold no contract can state, so of `main` only that it is safe and ends
//! is proved.
#![tactic(auto)]

use negotiate_serve::ending::{NOT_A_COMMAND, ServeError, status};
use negotiate_serve::report::report;
use negotiate_serve::serve::{serve, write_failure};
use std::process::ExitCode;
use std::{env, io};

/// Whether the program was given arguments. It takes none.
fn has_arguments(rt: &HostRuntime) -> io::Result<bool> {
    let mut arguments = env::args(rt)?;
    let _program = arguments.next();
    Ok(arguments.next().is_some())
}

/// Answers the lines of the standard input on the standard output.
///
/// Ends with status 0, with 2 at a line that is no command and where there are arguments, and with
/// 3 where there is a failure, of which the standard error has a line.
fn main(rt: HostRuntime) -> ExitCode {
    let mut output = io::writer(&rt);
    let ended = match has_arguments(&rt) {
        Ok(false) => serve(rt.alloc(), rt.reader(), &mut output),
        Ok(true) => {
            let _ = eprintln!(rt; "usage: negotiate < LINES");
            return ExitCode::from(NOT_A_COMMAND);
        }
        Err(error) => Err(write_failure(ServeError::of_reading(&error), &mut output)),
    };
    let _ = report("negotiate", &ended, &mut rt.stderr());
    ExitCode::from(status(&ended))
}
