//! Makes one call over the log of a place, and holds its factory.

ghost use Rattle.std.specs.Prelude.{◌≡◌};
ghost use Rattle.wulameron_serve.specs.Holding.{end_status};

use crate::answerer::{NodeAnswerer, call_of};
use crate::dead::clean_dead;
use crate::holding::{
    HoldError, Holding, NO_LONGER_HELD, call_line, hold_call, status_of_hold, tell_service,
};
use crate::log_task::{LogTask, with_log};
use crate::refused::{Offer, offer_to, tell_refusal};
use crate::view::{StoresWorld, Viewed};
use iceoryx2_builder::command::Call;
use iceoryx2_description::config::Config;
use iceoryx2_journal::journal::Journal;
use iceoryx2_log::call_log::SpansCalls;
use iceoryx2_monitoring::state::NodeStatus;
use iceoryx2_session::resuming::{Renewing, Resuming};
use iceoryx2_session::session::Session;
use iceoryx2_session::world_storage::WorldStorage;
use negotiate_lines::leaf::Form;
use negotiate_lines::line::{Line, parse_in};
use negotiate_lines::line_error::LineError;
use negotiate_lines::vocabulary::Kind;
use negotiate_lines::wrong_text::wrong_text;
use negotiate_serve::ending::{DONE, FAULT, NOT_A_COMMAND, ServeError};
use negotiate_serve::output::write_out;
use negotiate_serve::report::report_failure;
use percent_encoding::{DecodeError, percent_decode};
use std::alloc::{AllocError, Global};
use std::borrow::CowStr;
use std::fs::File;
use std::io::{Read, Write};
use std::random::RandomSource;
use std::rt::Files;
use std::time::Clock;
use wulameron_arguments::asked::Hold;
use wulameron_place::dead::{DeadNodes, PlaceNodes};
use wulameron_place::node_log::NodeLog;
use wulameron_place::opening::{claim, states};
use wulameron_place::reports::Reports;
use wulameron_place::trouble::{Refusing, Trouble, Troubled, last_trouble};
use wulameron_view::viewing::report_look;

const NOT_MADE: &str = "no call was made; start the program again";

/// Makes a call over the log of a place, prints what was agreed, and holds the factory until the input ends. It makes
/// the log if there is none, and claims the node as long.
///
/// Returns the status with which the program ends: 0; 1 if the call is refused; 2 if the words are no call, and then
/// nothing is claimed or made; or 3 after a failure. With 1, 2 or 3 the writer of errors has a line. After a refusal's
/// line it has what the call required and what the service offers.
pub fn hold<
    F: Files<File = File> + Clock + RandomSource + AllocGlobal + Drop,
    R: Read + Drop,
    W: Write,
    E: Write,
>(rt: F, hold: &Hold<'_>, input: R, output: &mut W, errors: &mut E) -> u8 {
    if let Some(status) = refuse_words(rt.alloc(), hold, errors) {
        return status;
    }
    let mut reports = Reports::new(rt.alloc(), hold.place.at, errors);
    let Some(claim) = claim(&rt, hold.place, hold.node, &mut reports) else {
        return FAULT;
    };
    let status = hold_as(&rt, claim.node(), hold, input, output, &mut reports);
    drop(claim);
    status
}

/// Returns the status of a program that had no memory. The writer of errors has its line.
fn no_memory<E: Write>(errors: &mut E) -> u8
    ensures { result ≡ 3 }
{
    let _ = report_failure("wulameron", ServeError::OutOfMemory, errors);
    FAULT
}

/// Returns the status if the words are no call, or there is no memory. The writer of errors has its line.
fn refuse_words<E: Write>(alloc: Global, hold: &Hold<'_>, errors: &mut E) -> Option<u8> {
    let Ok(line) = call_line(alloc, 0, hold) else {
        return Some(no_memory(errors));
    };
    match parse_in(alloc, Form::Escaped, line.as_bytes()) {
        Ok(Line::NotACommand(wrong)) => Some(report_words(alloc, wrong, errors)),
        Ok(_) => None,
        Err(_) => Some(no_memory(errors)),
    }
}

/// Writes what is wrong with the words of a call, or that there is no memory. Returns the status.
fn report_words<E: Write>(alloc: Global, wrong: LineError<'_>, errors: &mut E) -> u8 {
    match words_line(alloc, wrong) {
        Ok(line) => {
            let _ = write_out(line.as_bytes(), errors);
            NOT_A_COMMAND
        }
        Err(_) => no_memory(errors),
    }
}

/// Returns the line of what is wrong with the words of a call, which are told as they were given.
fn words_line(alloc: Global, wrong: LineError<'_>) -> Result<String, AllocError> {
    let (first, second) = terms_in(wrong);
    let first = given(alloc, first)?;
    let second = given(alloc, second)?;
    let told = wrong_text(alloc, with_terms(wrong, &first, &second))?;
    let hint = hint(wrong);
    format!(in alloc; "wulameron: {told}{hint}\n")
}

/// Returns what else is told of a word that is wrong.
fn hint(wrong: LineError<'_>) -> &'static str {
    match wrong {
        LineError::Value(_, _, Kind::Type) => {
            "; size and alignment are bytes, and the alignment is a power of two"
        }
        _ => "",
    }
}

/// Returns a word of a call, or a part of one, as it was given.
fn given<'a>(alloc: Global, term: &'a str) -> Result<CowStr<'a>, AllocError> {
    if term == "%" {
        return Ok(CowStr::Borrowed(""));
    }
    match percent_decode(term.as_bytes()).decode_utf8(alloc) {
        Ok(text) => Ok(text),
        Err(DecodeError::OutOfMemory) => Err(AllocError),
        Err(_) => Ok(CowStr::Borrowed(term)),
    }
}

/// Returns the words, or parts of them, that are wrong: at most two.
fn terms_in<'a>(wrong: LineError<'a>) -> (&'a str, &'a str) {
    match wrong {
        LineError::NameLength(term)
        | LineError::NoEqualsSign(term)
        | LineError::NoTime(term)
        | LineError::NoColon(term)
        | LineError::KeyLength(term)
        | LineError::ValueLength(term)
        | LineError::TooManyKeys(term) => (term, ""),
        LineError::NoSuchSetting {
            name,
            pattern: _,
            settings: _,
            admitted: _,
        } => (name, ""),
        LineError::Value(name, value, _) => (name, value),
        LineError::TooManyPairs(key, value) => (key, value),
        _ => ("", ""),
    }
}

/// Replaces the words of an error by these.
fn with_terms<'a>(wrong: LineError<'a>, first: &'a str, second: &'a str) -> LineError<'a> {
    match wrong {
        LineError::NameLength(_) => LineError::NameLength(first),
        LineError::NoEqualsSign(_) => LineError::NoEqualsSign(first),
        LineError::NoTime(_) => LineError::NoTime(first),
        LineError::NoColon(_) => LineError::NoColon(first),
        LineError::KeyLength(_) => LineError::KeyLength(first),
        LineError::ValueLength(_) => LineError::ValueLength(first),
        LineError::TooManyKeys(_) => LineError::TooManyKeys(first),
        LineError::NoSuchSetting {
            name: _,
            pattern,
            settings,
            admitted,
        } => LineError::NoSuchSetting {
            name: first,
            pattern,
            settings,
            admitted,
        },
        LineError::Value(_, _, kind) => LineError::Value(first, second, kind),
        LineError::TooManyPairs(_, _) => LineError::TooManyPairs(first, second),
        _ => wrong,
    }
}

/// Returns the call of these words for a node. They are a call, so `None` means that there is no memory.
fn held_call(alloc: Global, node: u64, hold: &Hold<'_>) -> Option<Call> {
    match call_line(alloc, node, hold) {
        Ok(line) => call_of(alloc, Form::Escaped, line.as_bytes(), node),
        Err(_) => None,
    }
}

/// Makes the call for a node that is claimed, and holds its factory until the input ends. Before the call it releases
/// what dead nodes have.
fn hold_as<
    F: Files<File = File> + Clock + RandomSource + AllocGlobal,
    R: Read + Drop,
    W: Write,
    E: Write,
>(
    rt: &F,
    node: u64,
    hold: &Hold<'_>,
    input: R,
    output: &mut W,
    reports: &mut Reports<'_, E>,
) -> u8 {
    let place = hold.place;
    let Some(call) = held_call(rt.alloc(), node, hold) else {
        return reports.fail(ServeError::OutOfMemory);
    };
    let task = HoldingCall {
        rt,
        dead: PlaceNodes::of(rt, place),
        hold,
        call,
        input,
        output: &mut *output,
        reports: &mut *reports,
    };
    with_log(rt, place, node, task)
}

/// Makes a call for a node over its log, and holds its factory until an input ends. It tells what goes wrong.
#[derive(Drop)]
struct HoldingCall<'a, 'b, 'c, 'd, 'e, 'f, F, D, R, W, E> {
    rt: &'a F,
    dead: D,
    hold: &'b Hold<'c>,
    call: Call,
    input: R,
    output: &'d mut W,
    reports: &'e mut Reports<'f, E>,
}

impl<
    'a,
    'b,
    'c,
    'd,
    'e,
    'f,
    F: Files<File = File> + Clock + RandomSource + AllocGlobal,
    D: DeadNodes + Drop,
    R: Read + Drop,
    W: Write,
    E: Write,
> LogTask for HoldingCall<'a, 'b, 'c, 'd, 'e, 'f, F, D, R, W, E> {
    fn over<L: Refusing + Renewing + SpansCalls + Drop>(self, log: NodeLog<L>) -> u8 {
        let HoldingCall {
            rt,
            dead,
            hold,
            call,
            input,
            output,
            reports,
        } = self;
        let Some(states) = states(rt, hold.place, reports) else {
            return FAULT;
        };
        let wanted = NodeCall {
            node: log.node,
            hold,
            call,
            states,
        };
        start_and_hold(log, wanted, dead, input, output, reports)
    }

    fn refused(self, trouble: Trouble) -> u8 {
        let _ = self.reports.tell(trouble);
        FAULT
    }
}

/// A call for a node with its words, and the states of all nodes before it.
#[derive(Drop)]
struct NodeCall<'a, 'b> {
    node: u64,
    hold: &'a Hold<'b>,
    call: Call,
    states: Vec<NodeStatus>,
}

/// Starts a node over its log, makes the call, and holds the factory until the input ends.
fn start_and_hold<
    L: Refusing + Renewing + SpansCalls + Drop,
    D: DeadNodes + Drop,
    R: Read + Drop,
    W: Write,
    E: Write,
>(
    log: NodeLog<L>,
    wanted: NodeCall<'_, '_>,
    dead: D,
    input: R,
    output: &mut W,
    reports: &mut Reports<'_, E>,
) -> u8 {
    match log.start(reports.alloc(), reports) {
        Ok(journal) => hold_over(journal, wanted, dead, input, output, reports),
        Err(halt) => reports.halt(halt),
    }
}

/// Makes the call over the journal of its node, and holds the factory until the input ends.
fn hold_over<
    L: Refusing + Renewing + SpansCalls + Drop,
    D: DeadNodes + Drop,
    R: Read + Drop,
    W: Write,
    E: Write,
>(
    journal: Journal<L>,
    wanted: NodeCall<'_, '_>,
    dead: D,
    input: R,
    output: &mut W,
    reports: &mut Reports<'_, E>,
) -> u8 {
    let hold = wanted.hold;
    let mut input = input;
    let mut session = Session::over(Config::default(), journal);
    let _ = clean_dead(reports.alloc(), &mut session, &dead);
    let mut answerer = NodeAnswerer::over(wanted.node, session, dead);
    let ended = hold_wanted(&mut answerer, wanted, &mut input, output, reports);
    close_held(answerer, hold, ended, reports)
}

/// How a hold ended, and what a refused call found.
struct Ended {
    held: Result<(), HoldError>,
    offer: Option<Offer>,
}

/// Makes the call, and holds the factory until the input ends.
fn hold_wanted<
    S: Viewed + StoresWorld + Resuming + Troubled,
    D: DeadNodes + Drop,
    R: Read,
    W: Write,
    E: Write,
>(
    answerer: &mut NodeAnswerer<S, D>,
    wanted: NodeCall<'_, '_>,
    input: &mut R,
    output: &mut W,
    reports: &mut Reports<'_, E>,
) -> Ended {
    let NodeCall {
        node,
        hold,
        call,
        states,
    } = wanted;
    let holding = Holding {
        hold,
        states: &states,
    };
    let held = hold_call(answerer, call, holding, input, output, reports);
    let offer = offer_if_refused(reports.alloc(), held, node, hold, answerer.storage());
    Ended { held, offer }
}

/// Returns the call of a node that is refused, and the service that it found. `None` if the call isn't refused, if no
/// such service is published, or if there is no memory.
fn offer_if_refused<S: WorldStorage>(
    alloc: Global,
    held: Result<(), HoldError>,
    node: u64,
    hold: &Hold<'_>,
    storage: &S,
) -> Option<Offer> {
    let Err(HoldError::Refused(_)) = held else {
        return None;
    };
    let call = held_call(alloc, node, hold)?;
    match offer_to(alloc, call, storage) {
        Ok(offer) => offer,
        Err(_) => None,
    }
}

/// Returns whether the hold ended because it lost the log's session.
fn is_lost(held: Result<(), HoldError>) -> bool {
    match held {
        Err(HoldError::Lost) => true,
        _ => false,
    }
}

/// Closes what is still held, releases what else the node has, and returns the status. If the database's session has
/// ended, it does so in another one, unless none could be had while the hold waited.
fn close_held<S: Viewed + Resuming + Troubled + Drop, D: DeadNodes + Drop, E: Write>(
    answerer: NodeAnswerer<S, D>,
    hold: &Hold<'_>,
    ended: Ended,
    reports: &mut Reports<'_, E>,
) -> u8 {
    let mut answerer = answerer;
    let node = answerer.node();
    answerer.go_on_unless(is_lost(ended.held));
    let _ = reports.look(&answerer);
    let is_gone = answerer.trouble() == Some(Trouble::Gone);
    let mut storage = answerer.finish();
    let is_settled = storage.settle(node, &[]).is_ok();
    let _ = reports.look(&storage);
    let status = end_hold(storage.trouble(), hold, ended, is_settled, reports);
    if is_gone {
        return FAULT;
    }
    status
}

/// Tells what kept a hold from its end, and returns the status. It tells that something of the node stays, unless the
/// log can't be used any more, of which the writer of errors has a line.
fn end_hold<E: Write>(
    trouble: Option<Trouble>,
    hold: &Hold<'_>,
    ended: Ended,
    is_settled: bool,
    reports: &mut Reports<'_, E>,
) -> u8
    ensures { result ≡ end_status ended.held is_settled }
{
    let Ended { held, offer } = ended;
    if let Err(why) = held {
        let _ = report_hold(trouble, hold, why, &offer, reports);
    }
    if !is_settled {
        if last_trouble(trouble).is_none() {
            let _ = reports.tell_stays();
        }
        return FAULT;
    }
    match held {
        Err(HoldError::NotClosed) => DONE,
        _ => status_of_hold(held),
    }
}

/// Writes why a hold ended. If a factory that wasn't closed stays, the end tells it.
fn report_hold<E: Write>(
    trouble: Option<Trouble>,
    hold: &Hold<'_>,
    why: HoldError,
    offer: &Option<Offer>,
    reports: &mut Reports<'_, E>,
) -> Result<(), ServeError> {
    match why {
        HoldError::Refused(refusal) => tell_refusal(refusal, offer, reports),
        HoldError::NotMade => reports.tell(NOT_MADE),
        HoldError::Unshown(why) => report_look(trouble, why, reports),
        HoldError::Reading(fault) => reports.tell_failure(fault),
        HoldError::Lost => tell_service(hold, NO_LONGER_HELD, reports),
        HoldError::NotClosed => Ok(()),
    }
}
