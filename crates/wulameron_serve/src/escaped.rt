//! The whole program for escaped lines: an input, and its answers, over the log of a place.

ghost use Rattle.std.specs.Prelude.{◌≡◌, ℕ, List, OnErr, OnOk, Ok, Some};
ghost use Rattle.iceoryx2_session.specs.SessionStates.{own_state};
ghost use Rattle.negotiate_serve.specs.Outputs.{Writes};
ghost use Rattle.wulameron_place.specs.Troubles.{or_gone};
ghost use Rattle.wulameron_place.specs.declared.halt.Halt.TheVariants as halt;
ghost use Rattle.wulameron_serve.specs.Lines.{IsUsable};
ghost use Rattle.wulameron_serve.specs.Served.{IsStartReply, NotGreeted, ServesEscaped, ServesEscapedLog};
ghost use Rattle.wulameron_serve.specs.Served.{ServesGreeted, ServesSettled};
ghost use Rattle.wulameron_serve.specs.Shared.{StandsFor};
ghost use Rattle.wulameron_serve.specs.Telling.{IsTaken, greeting_of, told_or_no_memory};

use crate::answerer::NodeAnswerer;
use crate::lines::answer_until;
use crate::log_task::{LogTask, with_log};
use crate::nodes::SharedNodes;
use crate::own_lines::OwnLines;
use crate::run::{report_end, settle_end};
use crate::telling::{greeting, tell_trouble, tell_unclaimed, tell_wrong};
use crate::told_lines::ToldLines;
use crate::view::{StoresWorld, Viewed};
use escaped_serve::lines::EscapedLines;
use iceoryx2_log::call_log::SpansCalls;
use iceoryx2_session::resuming::{Renewing, Resuming};
use negotiate_serve::ending::{Ending, FAULT, ServeError};
use negotiate_serve::output::write_out;
use std::alloc::{AllocError, Global};
use std::fmt;
use std::fs::File;
use std::io::{self, Read, Write};
use std::random::RandomSource;
use std::rt::Files;
use std::time::Clock;
use wulameron_arguments::asked::Run;
use wulameron_place::claims::claim_node;
use wulameron_place::dead::PlaceNodes;
use wulameron_place::halt::Halt;
use wulameron_place::node_log::NodeLog;
use wulameron_place::reports::Reports;
use wulameron_place::trouble::{Refusing, Trouble, Troubled};

/// What is told if memory runs out.
const NO_MEMORY: &str = "out of memory\n";

/// Answers the escaped lines and the questions of an input over the log of a place, and makes the log if there is none.
/// It claims the node as long. The first line that it writes answers nothing: it tells the node, or why there is none.
/// At the end it closes what the slots hold.
///
/// Returns the status with which the program ends: 0 at the end of the input. The status is 3 if it didn't begin, if
/// reading or writing failed, if the log can't be used any more, or if something of the node stays.
pub fn run_escaped<
    F: Files<File = File> + Clock + RandomSource + AllocGlobal + Drop,
    R: Read + Drop,
    W: Write,
>(rt: F, run: &Run<'_>, input: R, output: &mut W) -> u8 {
    match claim_node(&rt, run.place, run.node) {
        Ok(claim) => {
            let status = run_as(&rt, claim.node(), run, input, output);
            drop(claim);
            status
        }
        Err(error) => {
            let mut text = String::new(rt.alloc());
            let told = tell_unclaimed(&error, &mut text);
            end_with(told, &text, output)
        }
    }
}

/// Writes a line by which the program ends, or that there was no memory for it, and returns the status.
fn end_with<W: Write>(told: Result<(), AllocError>, line: &str, output: &mut W) -> u8
    ensures status { result ≡ 3 }
    ensures told { IsTaken (told_or_no_memory told line.now) (W.contents output.old) (W.contents output.new) }
{
    match told {
        Ok(()) => {
            let _ = write_out(line.as_bytes(), output);
            FAULT
        }
        Err(_) => {
            let _ = write_out(NO_MEMORY.as_bytes(), output);
            FAULT
        }
    }
}

/// Writes why the log can't be used, and returns the status.
pub fn refuse_log<W: Write>(alloc: Global, trouble: Trouble, output: &mut W) -> u8
    ensures status { result ≡ 3 }
    ensures told { (text : List ℕ) × IsStartReply (halt.Log trouble) text
        × IsTaken text (W.contents output.old) (W.contents output.new) }
{
    let mut text = String::new(alloc);
    let told = tell_trouble(trouble, &mut text);
    end_with(told, &text, output)
}

/// Writes what is wrong with the log's folder, which has this path, and returns the status.
pub fn refuse_folder<X: fmt::Display + Copy, W: Write>(
    alloc: Global,
    path: &str,
    wrong: X,
    output: &mut W,
) -> u8 {
    let mut text = String::new(alloc);
    let told = tell_wrong(path, wrong, &mut text);
    end_with(told, &text, output)
}

/// Answers the lines of an input for a claimed node, and returns the status.
fn run_as<F: Files<File = File> + Clock + RandomSource + AllocGlobal, R: Read + Drop, W: Write>(
    rt: &F,
    node: u64,
    run: &Run<'_>,
    input: R,
    output: &mut W,
) -> u8 {
    let place = run.place;
    let dead = PlaceNodes {
        rt,
        place,
        cleans: run.cleans,
    };
    let task = AnsweringEscaped {
        alloc: rt.alloc(),
        dead,
        input,
        output: &mut *output,
    };
    with_log(rt, place, node, task)
}

/// Answers the lines of an input for a node over its log, or writes why the log can't be opened.
#[derive(Drop)]
struct AnsweringEscaped<'a, D, R, W> {
    alloc: Global,
    dead: D,
    input: R,
    output: &'a mut W,
}

impl<'a, D: SharedNodes + Drop, R: Read + Drop, W: Write> LogTask
    for AnsweringEscaped<'a, D, R, W> {
    fn over<L: Refusing + Renewing + SpansCalls + Drop>(self, log: NodeLog<L>) -> u8 {
        let AnsweringEscaped {
            alloc,
            dead,
            input,
            output,
        } = self;
        start_and_greet(alloc, log, dead, input, output)
    }

    fn refused(self, trouble: Trouble) -> u8 {
        refuse_log(self.alloc, trouble, self.output)
    }
}

/// Writes why a node isn't started, and returns the status.
fn refuse_start<W: Write>(alloc: Global, halt: Halt, output: &mut W) -> u8
    ensures status { result ≡ 3 }
    ensures told { (text : List ℕ) × IsStartReply halt text
        × IsTaken text (W.contents output.old) (W.contents output.new) }
{
    match halt {
        Halt::Log(trouble) => refuse_log(alloc, trouble, output),
        _ => end_with(Err(AllocError), "", output),
    }
}

/// Starts a node over its log, greets, and answers the lines of an input. It tells everything on the output.
fn start_and_greet<
    L: Refusing + Renewing + SpansCalls + Drop,
    D: SharedNodes + Drop,
    R: Read + Drop,
    W: Write,
>(alloc: Global, log: NodeLog<L>, dead: D, input: R, output: &mut W) -> u8
    ensures { (bytes : List ℕ) → R.remaining input ≡ Some bytes
        → ServesEscapedLog L.contents L.held L.refused log.log log.counter log.node D result bytes
        (W.contents output.old) (W.contents output.new) }
{
    let mut no_lines = Reports::new(alloc, "", io::sink());
    let node = log.node;
    match log.start(alloc, &mut no_lines) {
        Ok(journal) => match NodeAnswerer::cleaned(node, journal, dead, &mut no_lines) {
            Ok(answerer) => greet_and_answer(alloc, answerer, input, output),
            Err(halt) => refuse_start(alloc, halt, output),
        },
        Err(halt) => refuse_start(alloc, halt, output),
    }
}

/// Writes the greeting of a node.
///
/// `ServeError` as `write_out` does, and if there is no memory for the greeting, which is written.
fn greet<W: Write>(alloc: Global, node: u64, output: &mut W) -> Result<(), ServeError>
    ensures greeted { OnOk result
        (Writes (greeting_of node) (Ok tt) (W.contents output.old) (W.contents output.new)) }
    ensures not { OnErr result (NotGreeted node (W.contents output.old) (W.contents output.new)) }
{
    match greeting(alloc, node) {
        Ok(line) => write_out(line.as_bytes(), output),
        Err(_) => {
            let _ = write_out(NO_MEMORY.as_bytes(), output);
            Err(ServeError::OutOfMemory)
        }
    }
}

/// Greets, answers each line, closes what is open, and releases what the node still has.
fn greet_and_answer<
    S: Viewed + StoresWorld + Resuming + Troubled + Drop,
    D: SharedNodes + Drop,
    R: Read + Drop,
    W: Write,
>(alloc: Global, answerer: NodeAnswerer<S, D>, input: R, output: &mut W) -> u8
    requires stands { StandsFor S.world S.own S.ready answerer.node (own_state answerer.session) }
    requires usable { IsUsable (or_gone answerer.is_gone (S.trouble (own_state answerer.session).table)) }
    ensures { (bytes : List ℕ) → R.remaining input ≡ Some bytes
        → ServesGreeted S.settles S.shows S.spans S.step S.world S.trouble S.writes S.ending S.is_settled answerer.node
        answerer result bytes (W.contents output.old) (W.contents output.new) }
{
    match greet(alloc, answerer.node(), output) {
        Ok(()) => answer_greeted(alloc, answerer, input, output),
        Err(_) => {
            drop(answerer.finish());
            FAULT
        }
    }
}

/// Does the same without the greeting.
fn answer_greeted<
    S: Viewed + StoresWorld + Resuming + Troubled + Drop,
    D: SharedNodes + Drop,
    R: Read + Drop,
    W: Write,
>(alloc: Global, answerer: NodeAnswerer<S, D>, input: R, output: &mut W) -> u8
    requires stands { StandsFor S.world S.own S.ready answerer.node (own_state answerer.session) }
    requires usable { IsUsable (or_gone answerer.is_gone (S.trouble (own_state answerer.session).table)) }
    ensures { (bytes : List ℕ) → R.remaining input ≡ Some bytes
        → ServesSettled S.settles S.shows S.spans S.step S.world S.trouble S.writes S.ending S.is_settled answerer.node
        answerer result bytes (W.contents output.old) (W.contents output.new) }
{
    let mut no_lines = Reports::new(alloc, "", io::sink());
    let node = answerer.node();
    let (served, storage) = answer_escaped_input(answerer, input, output, &mut no_lines);
    let ended = settle_end(node, served, storage, &mut no_lines);
    report_end(ended, &mut no_lines)
}

/// Answers each escaped line of an input, and then closes all that is open, whatever ended the input. Returns the
/// storage.
pub fn answer_escaped_input<
    S: Viewed + StoresWorld + Resuming + Troubled,
    D: SharedNodes + Drop,
    R: Read + Drop,
    W: Write,
    E: Write,
>(
    answerer: NodeAnswerer<S, D>,
    input: R,
    output: &mut W,
    reports: &mut Reports<'_, E>,
) -> (Result<Ending, Halt>, S)
    requires stands { StandsFor S.world S.own S.ready answerer.node (own_state answerer.session) }
    requires usable { IsUsable (or_gone answerer.is_gone (S.trouble (own_state answerer.session).table)) }
    ensures { (bytes : List ℕ) → R.remaining input ≡ Some bytes
        → ServesEscaped S.settles S.shows S.spans S.step S.world S.trouble S.writes S.ending answerer
        result.0 result.1 bytes (W.contents output.old) (W.contents output.new) }
{
    let mut answerer = answerer;
    let lines = ToldLines {
        lines: OwnLines {
            lines: EscapedLines,
        },
    };
    let ended = answer_until(input, output, &mut answerer, reports, &lines);
    (ended, answerer.finish())
}
