//! The program `wulameron`: commands by line, over a log that processes share.
//!
//! `main` hands its words to the command that they ask for. Only that it is safe and ends is proved of it.
#![tactic(auto)]

use clap::Error;
use clap::error::ErrorKind;
use iceoryx2_postgres_log::fault::PostgresFault;
use negotiate_serve::ending::{FAULT, NOT_A_COMMAND, ServeError};
use negotiate_serve::report::report_failure;
use std::io::Write;
use std::process::ExitCode;
use std::{env, io};
use wulameron_arguments::arguments::{arguments, asks_session};
use wulameron_arguments::asked::{Asked, List, Place, Run};
use wulameron_arguments::home::{DefaultLog, FolderError, default_log, make_folder};
use wulameron_arguments::pipes::{Pipes, PipesError};
use wulameron_arguments::screen::{Screen, screen_of};
use wulameron_place::clean::clean;
use wulameron_place::reports::Reports;
use wulameron_place::trouble::Trouble;
use wulameron_serve::escaped::{refuse_folder, refuse_log, run_escaped};
use wulameron_serve::gone::refuse_session;
use wulameron_serve::hold::hold;
use wulameron_serve::run::run;
use wulameron_trail::commands::{check, log, watch, watch_list};
use wulameron_trail::pauses::Sleeper;
use wulameron_view::viewing::{list, nodes, show};

/// The program's version. Builds by tools/build-unproved and tools/build-proved have the commit behind it.
const VERSION: &str = "0.1.0";

const NO_LAUNCHER: &str = "is a log in a database; run wulameron-postgres with the same words";

/// Prints the help that the words ask for, or what is wrong with them, and returns the status.
fn print(rt: &HostRuntime, error: &Error) -> u8 {
    let _ = error.print(rt);
    match error.kind() {
        ErrorKind::OutOfMemory => FAULT,
        _ => error.exit_code() as u8,
    }
}

/// Returns the words by which the program was started.
fn words(rt: &HostRuntime) -> io::Result<Vec<String>> {
    Ok(env::args(rt)?.collect(rt.alloc())?)
}

/// Makes the folder of the log if no word names the log and the command makes one. Returns false if the folder can't be
/// used, which is told.
fn is_prepared(rt: &HostRuntime, default: Option<&DefaultLog>, asked: &Asked<'_>) -> bool {
    let Some(log) = default else {
        return true;
    };
    let Some(path) = asked.made_log() else {
        return true;
    };
    let Some(folder) = log.folder_for(path) else {
        return true;
    };
    match make_folder(rt, folder) {
        Ok(()) => true,
        Err(error) => {
            tell_folder(rt, folder, error, asked.is_escaped());
            false
        }
    }
}

/// Tells why the folder of the log can't be used, on the standard output if lines are escaped.
fn tell_folder(rt: &HostRuntime, folder: &str, error: FolderError, is_escaped: bool) {
    if is_escaped {
        let _ = refuse_folder(rt.alloc(), folder, error, &mut io::writer(rt));
        return;
    }
    let _ = Reports::new(rt.alloc(), folder, rt.stderr()).tell(error);
}

/// Tells that the pipes to the database are gone, on the standard output if lines are escaped. Returns the status.
fn tell_ended(rt: &HostRuntime, at: &str, is_escaped: bool) -> u8 {
    let trouble = Trouble::Database(PostgresFault::SessionEnded);
    if is_escaped {
        return refuse_log(rt.alloc(), trouble, &mut io::writer(rt));
    }
    let _ = Reports::new(rt.alloc(), at, rt.stderr()).tell(trouble);
    FAULT
}

/// Returns the pipes to the database that has the log, or `None` if the log is in a file.
///
/// The error is the status with which the program ends if there are no pipes, which is told.
fn pipes_to(rt: &HostRuntime, place: Place<'_>, is_escaped: bool) -> Result<Option<Pipes>, u8> {
    if place.database_log().is_none() {
        return Ok(None);
    }
    let mut reports = Reports::new(rt.alloc(), place.at, rt.stderr());
    let Some(word) = place.psql else {
        let _ = reports.tell(NO_LAUNCHER);
        return Err(NOT_A_COMMAND);
    };
    match Pipes::open(rt, word) {
        Ok(pipes) => Ok(Some(pipes)),
        Err(PipesError::NotPipes) => {
            let _ = reports.tell(NO_LAUNCHER);
            Err(NOT_A_COMMAND)
        }
        Err(PipesError::Refused) | Err(PipesError::NoOthers) => {
            Err(tell_ended(rt, place.at, is_escaped))
        }
    }
}

/// Carries out the command over the pipes to a database, if there are any, and returns the status.
fn answer_over<'a>(rt: &HostRuntime, asked: Asked<'a>, pipes: Option<&'a Pipes>) -> u8 {
    let mut asked = asked;
    asked.place().pipes = pipes;
    answer(rt, asked)
}

/// Answers lines, and returns the status.
fn answer_lines(rt: &HostRuntime, asked: &Run<'_>) -> u8 {
    let mut output = io::writer(rt);
    if asked.is_escaped {
        return run_escaped(rt, asked, rt.reader(), &mut output);
    }
    run(rt, asked, rt.reader(), &mut output, &mut rt.stderr())
}

/// Lists services, once or again with each change, and returns the status.
fn list_services<W: Write>(rt: &HostRuntime, asked: &List<'_>, output: &mut W) -> u8 {
    if asked.watches {
        let mut pauses = Sleeper::new(rt);
        return watch_list(&rt, asked, &mut pauses, output, &mut rt.stderr());
    }
    list(&rt, asked, output, &mut rt.stderr())
}

/// Carries out the command, and returns the status.
fn answer(rt: &HostRuntime, asked: Asked<'_>) -> u8 {
    let mut output = io::writer(rt);
    match asked {
        Asked::Run(asked) => answer_lines(rt, &asked),
        Asked::List(asked) => list_services(rt, &asked, &mut output),
        Asked::Show(asked) => show(&rt, &asked, &mut output, &mut rt.stderr()),
        Asked::Nodes(look) => nodes(&rt, &look, &mut output, &mut rt.stderr()),
        Asked::Clean(asked) => clean(&rt, &asked, &mut output, &mut rt.stderr()),
        Asked::Log(asked) => {
            let mut pauses = Sleeper::new(rt);
            log(&rt, &asked, &mut pauses, &mut output, &mut rt.stderr())
        }
        Asked::Watch(look) => {
            let mut pauses = Sleeper::new(rt);
            watch(&rt, &look, &mut pauses, &mut output, &mut rt.stderr())
        }
        Asked::Check(place) => check(&rt, &place, &mut output, &mut rt.stderr()),
        Asked::Hold(asked) => hold(rt, &asked, rt.reader(), &mut output, &mut rt.stderr()),
    }
}

/// Carries out the command that the words name, and returns the status.
fn carry_out(
    rt: &HostRuntime,
    default: Option<&DefaultLog>,
    screen: Screen,
    words: &[String],
) -> u8 {
    if asks_session(words) {
        return refuse_session(&mut io::writer(rt), &mut rt.stderr());
    }
    let home = match default {
        Some(log) => Some(log.path.as_str()),
        None => None,
    };
    match arguments(rt.alloc(), VERSION, home, screen, words) {
        Ok(Some(asked)) => {
            let mut asked = asked;
            if !is_prepared(rt, default, &asked) {
                return FAULT;
            }
            let is_escaped = asked.is_escaped();
            match pipes_to(rt, *asked.place(), is_escaped) {
                Ok(pipes) => answer_over(rt, asked, pipes.as_ref()),
                Err(status) => status,
            }
        }
        Ok(None) => {
            let _ = eprintln!(rt;
                "wulameron: no option and no variable names a log; name one by --at"
            );
            NOT_A_COMMAND
        }
        Err(error) => print(rt, &error),
    }
}

/// Carries out the command that the arguments name.
///
/// Ends with status 0; with 1 if something is wrong, isn't there or is refused; with 2 if the arguments are wrong or a
/// line ended a strict run; or with 3 after a failure, of which the standard error has a line.
fn main(rt: HostRuntime) -> ExitCode {
    let Ok(default) = default_log(&rt) else {
        return ExitCode::from(fault(&rt, ServeError::OutOfMemory));
    };
    let Ok(screen) = screen_of(&rt) else {
        return ExitCode::from(fault(&rt, ServeError::OutOfMemory));
    };
    match words(&rt) {
        Ok(words) => ExitCode::from(carry_out(&rt, default.as_ref(), screen, &words)),
        Err(error) => ExitCode::from(fault(&rt, ServeError::of_reading(&error))),
    }
}

/// Writes the line of a failure on the standard error, and returns its status.
fn fault(rt: &HostRuntime, fault: ServeError) -> u8 {
    let _ = report_failure("wulameron", fault, &mut rt.stderr());
    FAULT
}
