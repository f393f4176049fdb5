//! Makes one call, whose factory is held until an input ends.

ghost use Rattle.std.specs.Prelude.{◌≡◌, IfOk, OnOk, string_bytes};
ghost use Rattle.iceoryx2_session.specs.SessionStates.{own_state};
ghost use Rattle.wulameron_place.specs.Troubles.{WritesLine, trouble_line};
ghost use Rattle.wulameron_serve.specs.Holding.{Holds, HoldsMade, IsFactoryOf, Waits, call_line as call_line_of};
ghost use Rattle.wulameron_serve.specs.Holding.{end_of_hold, end_of_release, hold_status, told_of as told_of_service};

use crate::answerer::NodeAnswerer;
use crate::view::{StoresWorld, Viewed};
use crate::words::{escape_word, write_words};
use iceoryx2_builder::command::{Call, Command, Refusal, Reply};
use iceoryx2_monitoring::state::NodeStatus;
use iceoryx2_session::resuming::Resuming;
use negotiate_lines::escape::escaped_text;
use negotiate_serve::ending::{DONE, FAULT, ServeError};
use std::alloc::{AllocError, Global};
use std::io::{ErrorKind, Read, Write};
use wulameron_arguments::asked::{Hold, PLAIN, Wanted};
use wulameron_place::dead::DeadNodes;
use wulameron_place::reports::Reports;
use wulameron_place::trouble::Troubled;
use wulameron_view::looking::{LookError, REFUSED, print, show_in};

/// What is told of a service that is held on, and of one that isn't.
const STILL_HELD: &str = "is still held, in a new session";

pub const NO_LONGER_HELD: &str = "is no longer held";

/// Why a wait ends before the input does.
#[derive(Clone, Copy)]
pub enum WaitError {
    /// The input refused.
    Reading(ServeError),
    /// The log's session had ended. No other one could be had, or others had released the factory.
    Lost,
}

/// Why a call isn't held until the input ends, or isn't released then.
#[derive(Clone, Copy)]
pub enum HoldError {
    /// The call is refused.
    Refused(Refusal),
    /// No call was made: its slot is in use, or there is no such slot.
    NotMade,
    /// What was agreed isn't printed. The factory is released.
    Unshown(LookError),
    /// The input refused. The factory is released.
    Reading(ServeError),
    /// The log's session had ended. No other one could be had, or others had released the factory.
    Lost,
    /// The log didn't release the factory.
    NotClosed,
}

/// Returns the status with which a hold ends: 0, 1 if the call is refused, and 3 otherwise.
pub fn status_of_hold(held: Result<(), HoldError>) -> u8
    ensures { result ≡ hold_status held }
{
    match held {
        Ok(()) => DONE,
        Err(HoldError::Refused(_)) => REFUSED,
        Err(_) => FAULT,
    }
}

/// Returns the escaped line of a call of this node for slot 0. `AllocError` if there is no memory.
pub fn call_line(alloc: Global, node: u64, hold: &Hold<'_>) -> Result<String, AllocError>
    ensures { IfOk result (λ line. string_bytes line ≡ call_line_of node hold.now) }
{
    let pattern = hold.pattern;
    let how = hold.how;
    let mut line = format!(in alloc; "{pattern} {how} {node} 0 ")?;
    escape_word(hold.name.as_bytes(), &mut line)?;
    write_words(&hold.terms, &mut line)?;
    Ok(line)
}

/// How a factory is held.
#[derive(Clone, Copy)]
pub struct Holding<'a, 'b> {
    /// The words of the call.
    pub hold: &'a Hold<'b>,
    /// The states of all nodes before the call.
    pub states: &'a [NodeStatus],
}

// ---- the wait

/// Returns what is told of a call's service.
fn told_of(alloc: Global, hold: &Hold<'_>, what: &str) -> Result<String, AllocError>
    ensures { IfOk result (λ text. string_bytes text ≡ told_of_service hold.now what.now) }
{
    let pattern = hold.pattern;
    let name = escaped_text(alloc, hold.name)?;
    format!(in alloc; "{pattern} {name} {what}")
}

/// Writes the line of what became of a call's service. `ServeError` as `Reports::tell` does.
pub fn tell_service<E: Write>(
    hold: &Hold<'_>,
    what: &str,
    reports: &mut Reports<'_, E>,
) -> Result<(), ServeError>
    ensures { WritesLine (trouble_line reports.old.path.now (told_of_service hold.now what.now)) result
        (E.contents reports.old.errors) (E.contents reports.new.errors) }
{
    match told_of(reports.alloc(), hold, what) {
        Ok(text) => reports.tell(text.as_str()),
        Err(_) => Err(reports.tell_no_memory()),
    }
}

/// Looks at the log. If its session has ended, it goes on in another one, and tells that the service is still held.
///
/// `Lost` if no other session can be had, or if others have released the factory.
fn look_again<S: Viewed + Resuming + Troubled, D: DeadNodes + Drop, E: Write>(
    answerer: &mut NodeAnswerer<S, D>,
    hold: &Hold<'_>,
    reports: &mut Reports<'_, E>,
) -> Result<(), WaitError>
    ensures { Waits S.settles S.shows (own_state answerer.old.session) result (own_state answerer.new.session) }
{
    answerer.look();
    if !answerer.is_cut() {
        return Ok(());
    }
    answerer.go_on();
    if answerer.is_cut() || answerer.is_gone() {
        return Err(WaitError::Lost);
    }
    let _ = tell_service(hold, STILL_HELD, reports);
    Ok(())
}

/// Looks at the log again if it is in a database.
///
/// An `Err` comes as from `look_again`.
fn wake<S: Viewed + Resuming + Troubled, D: DeadNodes + Drop, E: Write>(
    answerer: &mut NodeAnswerer<S, D>,
    hold: &Hold<'_>,
    reports: &mut Reports<'_, E>,
) -> Result<(), WaitError>
    ensures { Waits S.settles S.shows (own_state answerer.old.session) result (own_state answerer.new.session) }
{
    if hold.place.database().is_none() {
        return Ok(());
    }
    look_again(answerer, hold, reports)
}

/// Reads a piece of an input, and keeps nothing of it. At a log in a database each piece asks for a look. Returns
/// whether the input goes on.
///
/// `Reading` if the input refuses, and `Lost` as from `look_again`.
fn take_piece<S: Viewed + Resuming + Troubled, D: DeadNodes + Drop, R: Read, E: Write>(
    answerer: &mut NodeAnswerer<S, D>,
    hold: &Hold<'_>,
    input: &mut R,
    reports: &mut Reports<'_, E>,
) -> Result<bool, WaitError>
    ensures { Waits S.settles S.shows (own_state answerer.old.session) result (own_state answerer.new.session) }
{
    let mut piece = [0u8; 512];
    match input.read(&mut piece) {
        Ok(0) => Ok(false),
        Ok(_) => match wake(answerer, hold, reports) {
            Ok(()) => Ok(true),
            Err(why) => Err(why),
        },
        Err(error) => {
            if error.kind() == ErrorKind::Interrupted {
                return Ok(true);
            }
            Err(WaitError::Reading(ServeError::of_reading(&error)))
        }
    }
}

/// Reads an input to its end.
///
/// `Reading` if the input refuses, and `Lost` as from `look_again`.
fn wait_for_end<S: Viewed + Resuming + Troubled, D: DeadNodes + Drop, R: Read, E: Write>(
    answerer: &mut NodeAnswerer<S, D>,
    hold: &Hold<'_>,
    input: &mut R,
    reports: &mut Reports<'_, E>,
) -> Result<(), WaitError>
    ensures { Waits S.settles S.shows (own_state answerer.old.session) result (own_state answerer.new.session) }
{
    for _ in 0..u64::MAX {
        match take_piece(answerer, hold, input, reports) {
            Ok(true) => {}
            Ok(false) => return Ok(()),
            Err(why) => return Err(why),
        }
    }
    Err(WaitError::Reading(ServeError::Reading))
}

/// Waits for the end of the input if what was agreed is printed.
fn wait<S: Viewed + Resuming + Troubled, D: DeadNodes + Drop, R: Read, E: Write>(
    shown: Result<(), LookError>,
    answerer: &mut NodeAnswerer<S, D>,
    hold: &Hold<'_>,
    input: &mut R,
    reports: &mut Reports<'_, E>,
) -> Result<(), WaitError>
    ensures { Waits S.settles S.shows (own_state answerer.old.session) result (own_state answerer.new.session) }
{
    match shown {
        Ok(()) => wait_for_end(answerer, hold, input, reports),
        Err(_) => Ok(()),
    }
}

// ---- the call

/// Returns how a hold ends after its factory was released with this result.
fn ending(
    shown: Result<(), LookError>,
    waited: Result<(), WaitError>,
    closed: &Reply,
) -> Result<(), HoldError>
    ensures { result ≡ end_of_hold shown waited closed.now }
{
    if let Err(why) = shown {
        return Err(HoldError::Unshown(why));
    }
    match waited {
        Ok(()) => release_of(closed),
        Err(WaitError::Reading(fault)) => Err(HoldError::Reading(fault)),
        Err(WaitError::Lost) => Err(HoldError::Lost),
    }
}

/// Returns how a hold ends at the end of its input, after its factory was released with this reply.
fn release_of(closed: &Reply) -> Result<(), HoldError>
    ensures { result ≡ end_of_release closed.now }
{
    match closed {
        Reply::Closed { slot: _ } => Ok(()),
        _ => Err(HoldError::NotClosed),
    }
}

/// A factory that a call returned.
#[derive(Clone, Copy)]
struct Factory {
    slot: usize,
    /// The number of its service.
    number: u64,
}

/// Prints what was agreed of a factory's service, waits for the end of the input, and closes the slot, whatever came
/// before.
fn hold_made<
    S: Viewed + StoresWorld + Resuming + Troubled,
    D: DeadNodes + Drop,
    R: Read,
    W: Write,
    E: Write,
>(
    answerer: &mut NodeAnswerer<S, D>,
    factory: Factory,
    holding: Holding<'_, '_>,
    input: &mut R,
    output: &mut W,
    reports: &mut Reports<'_, E>,
) -> Result<(), HoldError>
    ensures { HoldsMade S.settles S.shows S.spans S.step S.world holding.entry.states.now factory.slot factory.number
        (own_state answerer.old.session) (own_state answerer.new.session) result
        (W.contents output.old) (W.contents output.new) }
{
    let text = show_in(
        reports.alloc(),
        holding.states,
        answerer.storage().stored(),
        Wanted::Numbered(factory.number),
        PLAIN,
    );
    let shown = print(text, output);
    let waited = wait(shown, answerer, holding.hold, input, reports);
    let closed = answerer.carry_out(Command::Close { slot: factory.slot });
    ending(shown, waited, &closed.reply)
}

/// Returns the factory that a call returned, or why there is none.
fn factory_of(reply: Reply) -> Result<Factory, HoldError>
    ensures { IsFactoryOf reply result }
{
    match reply {
        Reply::Opened { slot, number } => Ok(Factory { slot, number }),
        Reply::Refused(refusal) => Err(HoldError::Refused(refusal)),
        _ => Err(HoldError::NotMade),
    }
}

/// Makes a call, prints what was agreed, and holds the factory until the input ends. Then it closes the factory. At a log
/// in a database each piece of the input asks for a look at the log: if its session has ended, the hold goes on in
/// another one, and tells so.
///
/// `Refused` and `NotMade` if there is no factory: nothing is printed. `Unshown` and `Reading` if the output or the
/// input refuses: the factory is closed. `Lost` if the log's session had ended, and no other one could be had, or others
/// had released the factory. `NotClosed` if the log doesn't release it.
pub fn hold_call<
    S: Viewed + StoresWorld + Resuming + Troubled,
    D: DeadNodes + Drop,
    R: Read,
    W: Write,
    E: Write,
>(
    answerer: &mut NodeAnswerer<S, D>,
    call: Call,
    holding: Holding<'_, '_>,
    input: &mut R,
    output: &mut W,
    reports: &mut Reports<'_, E>,
) -> Result<(), HoldError>
    ensures { Holds S.settles S.shows S.spans S.step S.world holding.entry.states.now call
        (own_state answerer.old.session) (own_state answerer.new.session) result
        (W.contents output.old) (W.contents output.new) }
{
    let made = answerer.carry_out(Command::Call(call));
    match factory_of(made.reply) {
        Ok(factory) => hold_made(answerer, factory, holding, input, output, reports),
        Err(why) => Err(why),
    }
}
