//! The whole program: an input, and its answers, over the log of a place.

ghost use Rattle.std.specs.Prelude.{◌≡◌, ℕ, List, Some, true};
ghost use Rattle.iceoryx2_world.specs.Agreement.{Agrees};
ghost use Rattle.iceoryx2_session.specs.SessionStates.{own_state};
ghost use Rattle.wulameron_place.specs.Troubles.{or_gone};
ghost use Rattle.wulameron_serve.specs.Lines.{IsUsable, status_with, wrong_lines_of};
ghost use Rattle.wulameron_serve.specs.Served.{EndsSettled, Serves, ServesLog, ServesStarted, stays_by};
ghost use Rattle.wulameron_serve.specs.Shared.{StandsFor};

use crate::answerer::NodeAnswerer;
use crate::lines::answer_until;
use crate::log_task::{LogTask, with_log};
use crate::own_lines::{OwnLines, told_end};
use crate::view::Viewed;
use explain_serve::explainer::with_room;
use iceoryx2_log::call_log::SpansCalls;
use iceoryx2_session::resuming::{Renewing, Resuming};
use iceoryx2_session::world_storage::WorldStorage;
use negotiate_serve::ending::{Ending, FAULT, ServeError, WrongLines, status};
use std::fs::File;
use std::io::{Read, Write};
use std::random::RandomSource;
use std::rt::Files;
use std::time::Clock;
use wulameron_arguments::asked::Run;
use wulameron_place::dead::{DeadNodes, PlaceNodes};
use wulameron_place::halt::Halt;
use wulameron_place::node_log::NodeLog;
use wulameron_place::opening::claim;
use wulameron_place::reports::Reports;
use wulameron_place::trouble::{Refusing, Trouble, Troubled};

/// Answers the lines of an input over the log of a place, and makes the log if there is none. It claims the node as
/// long as it runs.
///
/// Returns the status with which the program ends: 0 at the end of the input, 2 after a line that ends a strict run,
/// and 3 after a failure, of which the writer of errors has a line.
pub fn run<
    F: Files<File = File> + Clock + RandomSource + AllocGlobal + Drop,
    R: Read + Drop,
    W: Write,
    E: Write,
>(rt: F, run: &Run<'_>, input: R, output: &mut W, errors: &mut E) -> u8 {
    let place = run.place;
    let mut reports = Reports::new(rt.alloc(), place.at, &mut *errors);
    let Some(claim) = claim(&rt, place, run.node, &mut reports) else {
        return FAULT;
    };
    let node = claim.node();
    if run.node.is_none() {
        let _ = tell_node(node, &mut reports);
    }
    let dead = PlaceNodes {
        rt: &rt,
        place,
        cleans: run.cleans,
    };
    let task = Answering {
        dead,
        run,
        input,
        output: &mut *output,
        reports: &mut reports,
    };
    let status = with_log(&rt, place, node, task);
    drop(claim);
    status
}

/// Answers the lines of an input for a node over its log, and tells what goes wrong.
#[derive(Drop)]
struct Answering<'a, 'b, 'c, 'd, 'e, D, R, W, E> {
    dead: D,
    run: &'a Run<'b>,
    input: R,
    output: &'c mut W,
    reports: &'d mut Reports<'e, E>,
}

impl<'a, 'b, 'c, 'd, 'e, D: DeadNodes + Drop, R: Read + Drop, W: Write, E: Write> LogTask
    for Answering<'a, 'b, 'c, 'd, 'e, D, R, W, E> {
    fn over<L: Refusing + Renewing + SpansCalls + Drop>(self, log: NodeLog<L>) -> u8 {
        let Answering {
            dead,
            run,
            input,
            output,
            reports,
        } = self;
        let node = log.node;
        let ended = start_and_answer(log, dead, run, input, output, reports);
        report_end(told_end(reports.alloc(), node, ended), reports)
    }

    fn refused(self, trouble: Trouble) -> u8 {
        let _ = self.reports.tell(trouble);
        FAULT
    }
}

/// Tells which node was claimed.
fn tell_node<E: Write>(node: u64, reports: &mut Reports<'_, E>) -> Result<(), ServeError> {
    match format!(in reports.alloc(); "this process has node {node}") {
        Ok(text) => reports.tell(text.as_str()),
        Err(_) => Err(ServeError::OutOfMemory),
    }
}

/// Returns what becomes of lines that are neither blank nor a command. `strict`: the first of them ends the program.
/// `explains`: an empty line follows each reply.
fn wrong_lines_of(strict: bool, explains: bool) -> WrongLines
    ensures { result ≡ wrong_lines_of strict explains }
{
    if strict {
        return WrongLines::End;
    }
    if explains {
        return WrongLines::ReplyAndEmptyLine;
    }
    WrongLines::Reply
}

/// Tells the failure or what is wrong with a line, and returns the status. If the log can't be used any more, the line
/// was written before.
pub(crate) fn report_end<E: Write>(ended: Result<Ending, Halt>, reports: &mut Reports<'_, E>) -> u8
    ensures { result ≡ status_with ended }
{
    match ended {
        Ok(ending) => {
            let ended: Result<Ending, ServeError> = Ok(ending);
            let _ = reports.tell_end(&ended);
            status(&ended)
        }
        Err(halt) => reports.halt(halt),
    }
}

/// Starts the node over its log, releases what dead nodes have, and answers each line of an input for it. Then it
/// closes all that is open, whatever ended the input, and releases what the node still has. It tells what goes wrong at
/// the log.
fn start_and_answer<
    L: Refusing + Renewing + SpansCalls + Drop,
    D: DeadNodes + Drop,
    R: Read + Drop,
    W: Write,
    E: Write,
>(
    log: NodeLog<L>,
    dead: D,
    run: &Run<'_>,
    input: R,
    output: &mut W,
    reports: &mut Reports<'_, E>,
) -> Result<Ending, Halt>
    ensures { (bytes : List ℕ) → R.remaining input ≡ Some bytes
        → ServesLog L.contents L.held L.refused log.log log.counter log.node
        (wrong_lines_of run.now.is_strict run.now.explains) run.now.explains result bytes
        (W.contents output.old) (W.contents output.new) }
{
    let wrong_lines = wrong_lines_of(run.is_strict, run.explains);
    let alloc = reports.alloc();
    let node = log.node;
    let journal = log.start(alloc, reports)?;
    if !run.explains {
        return answer_started(node, journal, dead, input, output, reports, wrong_lines);
    }
    match with_room(alloc, journal) {
        Ok(traced) => answer_started(node, traced, dead, input, output, reports, wrong_lines),
        Err(_) => Err(Halt::Serving(ServeError::OutOfMemory)),
    }
}

/// Releases what dead nodes have over the storage of a node that is started, and answers each line of an input for it.
/// Then it closes all that is open, whatever ended the input, and releases what the node still has. It tells what goes
/// wrong at the log.
fn answer_started<
    S: Viewed + Resuming + Troubled + Drop,
    D: DeadNodes + Drop,
    R: Read + Drop,
    W: Write,
    E: Write,
>(
    node: u64,
    storage: S,
    dead: D,
    input: R,
    output: &mut W,
    reports: &mut Reports<'_, E>,
    wrong_lines: WrongLines,
) -> Result<Ending, Halt>
    requires agrees { Agrees (S.world storage) }
    requires of_own { S.own storage node ≡ true }
    requires ready { S.ready storage }
    ensures { (bytes : List ℕ) → R.remaining input ≡ Some bytes
        → ServesStarted S.settles S.shows S.spans S.step S.world S.trouble S.writes S.ending node wrong_lines
        S.is_settled storage result bytes (W.contents output.old) (W.contents output.new) }
{
    let answerer = NodeAnswerer::cleaned(node, storage, dead, reports)?;
    let (served, storage) = answer_input(answerer, input, output, reports, wrong_lines);
    settle_end(node, served, storage, reports)
}

/// Releases what the node still has after all was closed. It tells what goes wrong at the log.
///
/// `Halt` if the lines were served so. If something of the node stays, `Log` if the log can't be used any more, and
/// `Owing` otherwise.
pub(crate) fn settle_end<S: WorldStorage + Troubled + Drop, E: Write>(
    node: u64,
    served: Result<Ending, Halt>,
    storage: S,
    reports: &mut Reports<'_, E>,
) -> Result<Ending, Halt>
    ensures { EndsSettled S.settles S.trouble S.is_settled node storage served result }
{
    let mut storage = storage;
    let is_settled = storage.settle(node, &[]).is_ok();
    let over = reports.look(&storage);
    match served {
        Err(halt) => Err(halt),
        Ok(ending) => {
            if is_settled {
                return Ok(ending);
            }
            Err(stays_by(over))
        }
    }
}

/// Returns why a program ends if something of its node stays, at a log that can't be used any more by this trouble, if
/// any.
fn stays_by(over: Option<Trouble>) -> Halt
    ensures { result ≡ stays_by over }
{
    match over {
        Some(trouble) => Halt::Log(trouble),
        None => Halt::Owing,
    }
}

/// Answers each line of an input, and then closes all that is open, whatever ended the input. Returns the storage.
pub fn answer_input<
    S: Viewed + Resuming + Troubled,
    D: DeadNodes + Drop,
    R: Read + Drop,
    W: Write,
    E: Write,
>(
    answerer: NodeAnswerer<S, D>,
    input: R,
    output: &mut W,
    reports: &mut Reports<'_, E>,
    wrong_lines: WrongLines,
) -> (Result<Ending, Halt>, S)
    requires stands { StandsFor S.world S.own S.ready answerer.node (own_state answerer.session) }
    requires usable { IsUsable (or_gone answerer.is_gone (S.trouble (own_state answerer.session).table)) }
    ensures { (bytes : List ℕ) → R.remaining input ≡ Some bytes
        → Serves S.settles S.shows S.spans S.step S.world S.trouble S.writes S.ending answerer.node wrong_lines
        (own_state answerer.session) result.0 result.1 bytes (W.contents output.old) (W.contents output.new) }
{
    let mut answerer = answerer;
    let lines = OwnLines { lines: wrong_lines };
    let ended = answer_until(input, output, &mut answerer, reports, &lines);
    (ended, answerer.finish())
}
