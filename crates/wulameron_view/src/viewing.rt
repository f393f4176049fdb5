//! The commands that look at a log. They claim no node, make no log, and append nothing.

ghost use Rattle.std.specs.Prelude.{◌≡◌, ℕ, List, Some};
ghost use Rattle.wulameron_place.specs.Troubles.{WritesLine, trouble_line};
ghost use Rattle.wulameron_view.specs.Looking.{IsListed, IsShown, IsUnshown, NeverUnshown, look_status};
ghost use Rattle.wulameron_view.specs.Nodes.{AreNodes};
ghost use Rattle.wulameron_view.specs.Viewing.{EndsLook, look_text, no_service_by};

use crate::looking::{LookError, print_list, print_nodes, print_show, status_of_look};
use iceoryx2_journal::journal::Journal;
use iceoryx2_monitoring::state::NodeStatus;
use negotiate_serve::ending::{FAULT, ServeError};
use std::fs::File;
use std::io::Write;
use std::random::RandomSource;
use std::rt::Files;
use std::time::Clock;
use wulameron_arguments::asked::{self, Listed, Place, Show, Shown, Wanted};
use wulameron_place::opening::{OpenLog, opened_view, states};
use wulameron_place::reports::Reports;
use wulameron_place::trouble::{Refusing, Trouble, Troubled};

/// What is told if a log in a file, or in a database, has no wanted service.
const NO_SERVICE: &str = "has no such service; see `wulameron list`";

const NO_SERVICE_IN_DATABASE: &str = "has no such service; see `wulameron-postgres list`";

const SEVERAL_SERVICES: &str = "has several services of this name; name one by --pattern";

/// What is looked up at a log.
#[derive(Clone, Copy)]
enum Lookup<'a> {
    List(Listed<'a>),
    Show(Wanted<'a>, Shown),
    Nodes(Shown),
}

/// Opens the log of a place, and prints what is looked up. Returns the status with which the program ends.
fn look_at<F: Files<File = File> + Clock + RandomSource + AllocGlobal, W: Write, E: Write>(
    rt: &F,
    place: Place<'_>,
    look: Lookup<'_>,
    output: &mut W,
    errors: &mut E,
) -> u8 {
    let mut reports = Reports::new(rt.alloc(), place.at, errors);
    match opened_view(rt, place) {
        Ok(open) => look_over(rt, (place, look), open, output, &mut reports),
        Err(trouble) => {
            let _ = reports.tell_unopened(trouble);
            FAULT
        }
    }
}

/// Prints what is looked up at an open log, with the states of the place's nodes. Returns the status.
fn look_over<F: Files<File = File> + AllocGlobal, L: Refusing + Drop, W: Write, E: Write>(
    rt: &F,
    (place, look): (Place<'_>, Lookup<'_>),
    open: OpenLog<L>,
    output: &mut W,
    reports: &mut Reports<'_, E>,
) -> u8 {
    match states(rt, place, reports) {
        Some(found) => look_with(look, &found, open, output, reports),
        None => FAULT,
    }
}

/// Prints what is looked up at an open log. These are the known states of nodes. Returns the status.
fn look_with<L: Refusing + Drop, W: Write, E: Write>(
    look: Lookup<'_>,
    states: &[NodeStatus],
    open: OpenLog<L>,
    output: &mut W,
    reports: &mut Reports<'_, E>,
) -> u8 {
    let alloc = reports.alloc();
    let OpenLog { log, counter } = open;
    let mut journal = Journal::starting_at(alloc, log, Vec::new(alloc), counter);
    match look {
        Lookup::List(listed) => list_over(&mut journal, states, listed, output, reports),
        Lookup::Show(wanted, shown) => {
            show_over(&mut journal, states, wanted, shown, output, reports)
        }
        Lookup::Nodes(shown) => nodes_over(&mut journal, states, shown, output, reports),
    }
}

/// Prints which services there are over the log of a place, in the form that is asked for. Returns the status with
/// which the program ends: 0, or 3 after a failure, of which the writer of errors has a line.
pub fn list<F: Files<File = File> + Clock + RandomSource + AllocGlobal, W: Write, E: Write>(
    rt: &F,
    list: &asked::List<'_>,
    output: &mut W,
    errors: &mut E,
) -> u8 {
    look_at(rt, list.place, Lookup::List(list.listed), output, errors)
}

/// Prints which services there are over a log, after this journal has taken it over. These are the known states of
/// nodes. Returns the status: 0, or 3 if the log refuses, there is no memory, or the output refuses, which is told.
pub fn list_over<L: Refusing, W: Write, E: Write>(
    journal: &mut Journal<L>,
    states: &[NodeStatus],
    listed: Listed<'_>,
    output: &mut W,
    reports: &mut Reports<'_, E>,
) -> u8
    ensures { EndsLook L.contents (IsListed listed.entry states.now) NeverUnshown
        journal.old journal.new (W.contents output.old) (W.contents output.new) result }
{
    let looked = print_list(reports.alloc(), journal, states, listed, output);
    end_look(journal.trouble(), looked, reports)
}

/// Prints what was agreed for a service over the log of a place, and which nodes have it, as lines or as JSON. Returns
/// the status with which the program ends: 0; 1 if there is not exactly one wanted service; or 3 after a failure. With
/// 1 or 3 the writer of errors has a line.
pub fn show<F: Files<File = File> + Clock + RandomSource + AllocGlobal, W: Write, E: Write>(
    rt: &F,
    show: &Show<'_>,
    output: &mut W,
    errors: &mut E,
) -> u8 {
    let asked::Look { place, shown } = show.look;
    look_at(rt, place, Lookup::Show(show.wanted, shown), output, errors)
}

/// Prints what was agreed for the wanted service over a log, after this journal has taken it over, and which nodes have
/// it. These are the known states of nodes. Returns the status: 0; 1 if there is not exactly one wanted service; or 3
/// if the log refuses, there is no memory, or the output refuses. With 1 or 3 the reason is told.
pub fn show_over<L: Refusing, W: Write, E: Write>(
    journal: &mut Journal<L>,
    states: &[NodeStatus],
    wanted: Wanted<'_>,
    shown: Shown,
    output: &mut W,
    reports: &mut Reports<'_, E>,
) -> u8
    ensures { EndsLook L.contents (λ w text. IsShown shown states.now w wanted.entry text)
        (λ w why. IsUnshown w wanted.entry why)
        journal.old journal.new (W.contents output.old) (W.contents output.new) result }
{
    let looked = print_show(reports.alloc(), journal, states, wanted, shown, output);
    end_look(journal.trouble(), looked, reports)
}

/// Writes the line of what kept a look from its end, if anything did, and returns the status.
fn end_look<E: Write>(
    trouble: Option<Trouble>,
    looked: Result<(), LookError>,
    reports: &mut Reports<'_, E>,
) -> u8
    ensures { result ≡ look_status looked }
{
    if let Err(why) = looked {
        let _ = report_look(trouble, why, reports);
    }
    status_of_look(looked)
}

/// Returns what is told if no service is the wanted one.
fn no_service(is_in_database: bool) -> &'static str
    ensures { result.now ≡ no_service_by is_in_database }
{
    match is_in_database {
        true => NO_SERVICE_IN_DATABASE,
        false => NO_SERVICE,
    }
}

/// Writes why a look at a log ended. If the log isn't read and nothing went wrong at it, there was no memory.
///
/// `ServeError` as `write_out` does, and if there is no memory for the line.
pub fn report_look<E: Write>(
    trouble: Option<Trouble>,
    why: LookError,
    reports: &mut Reports<'_, E>,
) -> Result<(), ServeError>
    ensures { (text : List ℕ) → look_text reports.old.path.now trouble why ≡ Some text
        → WritesLine (trouble_line reports.old.path.now text) result
        (E.contents reports.old.errors) (E.contents reports.new.errors) }
{
    match why {
        LookError::Unread => match trouble {
            Some(trouble) => reports.tell(trouble),
            None => reports.tell_failure(ServeError::OutOfMemory),
        },
        LookError::NoService => reports.tell(no_service(reports.is_in_database())),
        LookError::SeveralServices => reports.tell(SEVERAL_SERVICES),
        LookError::Failed(fault) => reports.tell_failure(fault),
    }
}

// ---- nodes

/// Prints each node that was ever claimed at a place, by rising number, with its standing, in the form that is asked
/// for. Returns the status with which the program ends: 0, or 3 after a failure, of which the writer of errors has a
/// line.
pub fn nodes<F: Files<File = File> + Clock + RandomSource + AllocGlobal, W: Write, E: Write>(
    rt: &F,
    look: &asked::Look<'_>,
    output: &mut W,
    errors: &mut E,
) -> u8 {
    look_at(rt, look.place, Lookup::Nodes(look.shown), output, errors)
}

/// Prints each of these nodes with its standing over a log, after this journal has taken it over. Returns the status:
/// 0, or 3 if the log refuses, there is no memory, or the output refuses, which is told.
pub fn nodes_over<L: Refusing, W: Write, E: Write>(
    journal: &mut Journal<L>,
    states: &[NodeStatus],
    shown: Shown,
    output: &mut W,
    reports: &mut Reports<'_, E>,
) -> u8
    ensures { EndsLook L.contents (AreNodes shown states.now) NeverUnshown
        journal.old journal.new (W.contents output.old) (W.contents output.new) result }
{
    let looked = print_nodes(reports.alloc(), journal, states, shown, output);
    end_look(journal.trouble(), looked, reports)
}
