//! The commands that print a log: its entries, what they change, and whether it is sound.

ghost use Rattle.std.specs.Prelude.{◌≡◌};
ghost use Rattle.wulameron_trail.specs.Commands.{WritesVerdict, WritesVerdictOf, status_of};
ghost use Rattle.wulameron_trail.specs.Commands.{verdict_status as status_of_verdict};

use crate::checker::{Verdict, check as verdict_on};
use crate::following::{LogFile, Source, follow, open_file};
use crate::listing::Listing;
use crate::pauses::Pauses;
use crate::printing::{Rest, show_entry};
use crate::rows::LogRows;
use crate::showing::{Changes, Lines};
use crate::stopping::Stop;
use crate::verdicts::verdict_text;
use iceoryx2_file_log::error::{FileFault, system_fault};
use iceoryx2_postgres_log::fault::PostgresFault;
use negotiate_serve::ending::{DONE, FAULT, ServeError};
use negotiate_serve::output::write_out;
use std::alloc::Global;
use std::fmt;
use std::fs::File;
use std::io::{Read, Write};
use std::random::RandomSource;
use std::rt::Files;
use std::time::Clock;
use wulameron_arguments::asked::{Form, List, LogLook, Look, Place};
use wulameron_place::opening::{OpenLog, opened_view};
use wulameron_place::reports::Reports;
use wulameron_place::trouble::{Refusing, Trouble};

/// The status if a log isn't sound.
pub const NOT_SOUND: u8 = 1;

/// What is printed of a log's entries.
#[derive(Clone, Copy)]
enum Printed<'a> {
    Entries(&'a LogLook<'a>),
    Changes(&'a Look<'a>),
    Lists(&'a List<'a>),
}

impl<'a> Printed<'a> {
    /// Returns the place of the log.
    fn place(&self) -> Place<'a> {
        match self {
            Printed::Entries(asked) => asked.place,
            Printed::Changes(asked) => asked.place,
            Printed::Lists(asked) => asked.place,
        }
    }
}

/// Opens a log, prints its entries as they are asked for, and returns the status.
fn print_at<
    F: Files<File = File> + Clock + RandomSource + AllocGlobal,
    I: Pauses,
    W: Write,
    E: Write,
>(rt: &F, printed: Printed<'_>, pauses: &mut I, output: &mut W, errors: &mut E) -> u8 {
    let place = printed.place();
    let mut reports = Reports::new(rt.alloc(), place.at, errors);
    if place.database().is_some() {
        return match opened_view(rt, place) {
            Ok(open) => print_rows(rt, printed, open, pauses, output, &mut reports),
            Err(trouble) => report_refused(trouble, &mut reports),
        };
    }
    match LogFile::open(rt, place.at) {
        Ok(log) => print_source(rt, (printed, "byte"), log, pauses, output, &mut reports),
        Err(fault) => report_refused(Trouble::Refused(fault), &mut reports),
    }
}

/// Prints the rows of a log in a database as they are asked for, and returns the status.
fn print_rows<
    F: Files<File = File> + AllocGlobal,
    L: Refusing + Drop,
    I: Pauses,
    W: Write,
    E: Write,
>(
    rt: &F,
    printed: Printed<'_>,
    open: OpenLog<L>,
    pauses: &mut I,
    output: &mut W,
    reports: &mut Reports<'_, E>,
) -> u8 {
    print_source(
        rt,
        (printed, "row"),
        LogRows::new(open),
        pauses,
        output,
        reports,
    )
}

/// Prints the entries of an open log as they are asked for, and returns the status. `unit` is what its places count.
fn print_source<
    F: Files<File = File> + AllocGlobal,
    S: Source + Drop,
    I: Pauses,
    W: Write,
    E: Write,
>(
    rt: &F,
    (printed, unit): (Printed<'_>, &'static str),
    source: S,
    pauses: &mut I,
    output: &mut W,
    reports: &mut Reports<'_, E>,
) -> u8 {
    let mut source = source;
    let ended = match printed {
        Printed::Entries(asked) => print_log(rt.alloc(), asked, &mut source, pauses, output),
        Printed::Changes(asked) => print_changes(rt.alloc(), asked, &mut source, pauses, output),
        Printed::Lists(asked) => print_lists(rt, asked, &mut source, pauses, output),
    };
    report_end(unit, source.at(), ended, reports)
}

/// Prints the entries of a log, and returns the status: 0, or 3 if the log can't be read to its end, the output fails
/// or there is no memory, of which the writer of errors has a line. If it is to follow the log, it goes on as the log
/// grows, until a pause ends it.
pub fn log<
    F: Files<File = File> + Clock + RandomSource + AllocGlobal,
    I: Pauses,
    W: Write,
    E: Write,
>(rt: &F, asked: &LogLook<'_>, pauses: &mut I, output: &mut W, errors: &mut E) -> u8 {
    print_at(rt, Printed::Entries(asked), pauses, output, errors)
}

/// Prints the entries of a log as they are asked for.
fn print_log<S: Source, I: Pauses, W: Write>(
    alloc: Global,
    asked: &LogLook<'_>,
    source: &mut S,
    pauses: &mut I,
    output: &mut W,
) -> Result<(), Stop> {
    let mut lines = Lines {
        place: 0,
        from: asked.from,
    };
    if asked.follows {
        return follow(alloc, source, &mut lines, pauses, output);
    }
    print_once(alloc, source, &mut lines, output)
}

/// Prints the entries that are written, and a mark after them.
fn print_once<S: Source, W: Write>(
    alloc: Global,
    source: &mut S,
    lines: &mut Lines,
    output: &mut W,
) -> Result<(), Stop> {
    match source.look(alloc, lines, output)? {
        Rest::Ended => Ok(()),
        Rest::Moved(mark) => {
            let mut text = String::new(alloc);
            show_entry(&mark, lines, &mut text, output)
        }
    }
}

/// Prints what each entry changes that is appended from now on, until a pause ends it, and returns the status as `log`
/// does.
pub fn watch<
    F: Files<File = File> + Clock + RandomSource + AllocGlobal,
    I: Pauses,
    W: Write,
    E: Write,
>(rt: &F, asked: &Look<'_>, pauses: &mut I, output: &mut W, errors: &mut E) -> u8 {
    print_at(rt, Printed::Changes(asked), pauses, output, errors)
}

/// Prints what each new entry changes, until a pause ends it.
fn print_changes<S: Source, I: Pauses, W: Write>(
    alloc: Global,
    asked: &Look<'_>,
    source: &mut S,
    pauses: &mut I,
    output: &mut W,
) -> Result<(), Stop> {
    let mut changes = Changes {
        world: source.services(alloc)?,
        is_json: is_json(asked.shown.form),
    };
    follow(alloc, source, &mut changes, pauses, output)
}

/// Returns whether a form is JSON.
fn is_json(form: Form) -> bool {
    match form {
        Form::Json => true,
        Form::JsonLines => true,
        _ => false,
    }
}

/// Lists the services of a log, and again with each change, until a pause ends it. Returns the status as `log` does.
pub fn watch_list<
    F: Files<File = File> + Clock + RandomSource + AllocGlobal,
    I: Pauses,
    W: Write,
    E: Write,
>(rt: &F, asked: &List<'_>, pauses: &mut I, output: &mut W, errors: &mut E) -> u8 {
    print_at(rt, Printed::Lists(asked), pauses, output, errors)
}

/// Prints the services, and again with each change, until a pause ends it.
fn print_lists<F: Files<File = File> + AllocGlobal, S: Source, I: Pauses, W: Write>(
    rt: &F,
    asked: &List<'_>,
    source: &mut S,
    pauses: &mut I,
    output: &mut W,
) -> Result<(), Stop> {
    let alloc = rt.alloc();
    let world = source.services(alloc)?;
    let mut listing = Listing::new(rt, *asked, world);
    follow(alloc, source, &mut listing, pauses, output)
}

/// Prints whether a log is sound, and returns the status: 0, 1 if it isn't, or 3 if it can't be read, the output fails
/// or there is no memory, of which the writer of errors has a line. A log in a database is read from its snapshot on,
/// as the bytes that it would have in a file.
pub fn check<F: Files<File = File> + Clock + RandomSource + AllocGlobal, W: Write, E: Write>(
    rt: &F,
    place: &Place<'_>,
    output: &mut W,
    errors: &mut E,
) -> u8 {
    let alloc = rt.alloc();
    let mut reports = Reports::new(alloc, place.at, errors);
    if place.database().is_some() {
        return match opened_view(rt, *place) {
            Ok(open) => check_rows(open, output, &mut reports),
            Err(trouble) => report_refused(trouble, &mut reports),
        };
    }
    match read_file(rt, place.at) {
        Ok(bytes) => end_check(print_verdict(alloc, &bytes, output), &mut reports),
        Err(fault) => report_refused(Trouble::Refused(fault), &mut reports),
    }
}

/// Prints whether a log in a database is sound.
fn check_rows<L: Refusing + Drop, W: Write, E: Write>(
    open: OpenLog<L>,
    output: &mut W,
    reports: &mut Reports<'_, E>,
) -> u8 {
    let alloc = reports.alloc();
    let mut rows = LogRows::new(open);
    match rows.bytes(alloc) {
        Ok(bytes) => end_check(print_verdict(alloc, &bytes, output), reports),
        Err(Stop::Refused(Trouble::Database(PostgresFault::Damaged { number: _ }))) => {
            end_check(write_verdict(alloc, rows.damage(), output), reports)
        }
        Err(Stop::Refused(trouble)) => report_refused(trouble, reports),
        Err(stop) => report_end("row", rows.at(), Err(stop), reports),
    }
}

/// Returns the status after a verdict was printed, or tells the failure.
fn end_check<E: Write>(printed: Result<u8, ServeError>, reports: &mut Reports<'_, E>) -> u8 {
    match printed {
        Ok(status) => status,
        Err(fault) => reports.fail(fault),
    }
}

/// Returns the bytes of the file of this path.
fn read_file<F: Files<File = File> + AllocGlobal>(
    rt: &F,
    path: &str,
) -> Result<Vec<u8>, FileFault> {
    let mut file = open_file(rt, path)?;
    let mut bytes = Vec::new(rt.alloc());
    match file.read_to_end(&mut bytes) {
        Ok(_) => Ok(bytes),
        Err(error) => Err(system_fault(&error)),
    }
}

/// Prints what a log's bytes are, and returns the status: 0 if they are sound, and 1 otherwise.
///
/// `ServeError` as `write_out` does, and if there is no memory; nothing is written then.
pub fn print_verdict<W: Write>(
    alloc: Global,
    bytes: &[u8],
    output: &mut W,
) -> Result<u8, ServeError>
    ensures { WritesVerdictOf bytes.now result (W.contents output.old) (W.contents output.new) }
{
    match verdict_on(alloc, bytes) {
        Ok(verdict) => write_verdict(alloc, verdict, output),
        Err(_) => Err(ServeError::OutOfMemory),
    }
}

/// Writes the line of a verdict, and returns its status.
fn write_verdict<W: Write>(
    alloc: Global,
    verdict: Verdict,
    output: &mut W,
) -> Result<u8, ServeError>
    ensures { WritesVerdict verdict result (W.contents output.old) (W.contents output.new) }
{
    let mut text = String::new(alloc);
    match verdict_text(verdict, &mut text) {
        Ok(()) => match write_out(text.as_bytes(), output) {
            Ok(()) => Ok(verdict_status(verdict)),
            Err(fault) => Err(fault),
        },
        Err(_) => Err(ServeError::OutOfMemory),
    }
}

/// Returns the status of a verdict.
fn verdict_status(verdict: Verdict) -> u8
    ensures { result ≡ status_of_verdict verdict }
{
    match verdict {
        Verdict::Sound(_) => DONE,
        Verdict::Wrong(_) => NOT_SOUND,
    }
}

/// An entry that isn't followed.
#[derive(Clone, Copy)]
struct NotAnswered {
    /// Whether it begins at a byte or a row.
    unit: &'static str,
    at: u64,
}

impl fmt::Display for NotAnswered {
    fn fmt<W: fmt::Write>(&self, f: &mut fmt::Formatter<W>) -> fmt::Result {
        let NotAnswered { unit, at } = *self;
        write!(
            f,
            "the entry at {unit} {at} doesn't follow from the entries before it; run `check`"
        )
    }
}

/// Writes the line of what stopped a command at the entry that begins there, and returns the status.
fn report_end<E: Write>(
    unit: &'static str,
    at: u64,
    ended: Result<(), Stop>,
    reports: &mut Reports<'_, E>,
) -> u8
    ensures { result ≡ status_of ended }
{
    let Err(stop) = ended else {
        return DONE;
    };
    let _ = match stop {
        Stop::Damaged => reports.tell(Trouble::Refused(FileFault::Damaged { at })),
        Stop::NotAnswered => reports.tell(NotAnswered { unit, at }),
        Stop::Refused(trouble) => reports.tell(trouble),
        Stop::Failed(fault) => reports.tell_failure(fault),
    };
    FAULT
}

/// Writes why a log refused, and gives the status.
fn report_refused<E: Write>(trouble: Trouble, reports: &mut Reports<'_, E>) -> u8
    ensures { result ≡ 3 }
{
    let _ = reports.tell_unopened(trouble);
    FAULT
}
