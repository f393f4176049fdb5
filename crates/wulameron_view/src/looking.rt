//! Prints which services there are over a journal, and what was agreed for one. Nothing is claimed, made or appended.

ghost use Rattle.std.specs.Prelude.{◌≡◌, IfErr, IfOk, string_bytes};
ghost use Rattle.std.specs.List.{filter};
ghost use Rattle.wulameron_view.specs.Filters.{AreThose, has_part, is_open, passes};
ghost use Rattle.wulameron_view.specs.Looking.{IsListed, IsShown, IsUnshown, LooksAt, NeverUnshown};
ghost use Rattle.wulameron_view.specs.Looking.{KeepsWhy, WritesMade, is_wanted as is_wanted_spec};
ghost use Rattle.wulameron_view.specs.Looking.{list_printed, look_status, show_printed};
ghost use Rattle.wulameron_view.specs.Nodes.{AreNodes, nodes_in as nodes_text_of};
ghost use Rattle.wulameron_view.specs.Patterns.{is_of};

use crate::list_json::{list_json, list_json_lines};
use crate::list_text::{list_names, list_text};
use crate::nodes_json::{nodes_json, nodes_json_lines};
use crate::nodes_text::{node_numbers, nodes_text};
use crate::services::{Service, Services, services_of};
use crate::show_json::show_json;
use crate::show_text::show_text;
use crate::states::{NodeStanding, standings};
use iceoryx2_description::description::MessagingPattern;
use iceoryx2_journal::journal::Journal;
use iceoryx2_monitoring::state::NodeStatus;
use iceoryx2_table::table::stored::StoredWorld;
use negotiate_serve::ending::{DONE, FAULT, ServeError};
use negotiate_serve::output::write_out;
use std::alloc::{AllocError, Global};
use std::io::Write;
use wulameron_arguments::asked::{Filter, Form, Listed, Pattern, Shown, Wanted};
use wulameron_place::reading::take_over;
use wulameron_place::trouble::Refusing;

/// The status if what was asked for isn't there, or is refused.
pub const REFUSED: u8 = 1;

/// Why nothing, or not all, is printed.
#[derive(Clone, Copy)]
pub enum LookError {
    /// The log can't be held or read, or its entries can't be followed.
    Unread,
    /// No service is the wanted one.
    NoService,
    /// Several services are wanted ones.
    SeveralServices,
    /// The output refused, or there was no memory.
    Failed(ServeError),
}

impl From<AllocError> for LookError {
    ghost use Rattle.negotiate_serve.specs.declared.ending.ServeError.TheVariants as failure;
    ghost use Rattle.wulameron_view.specs.declared.looking.LookError.TheVariants as look;

    ghost from_gives = { λ error given. given ≡ look.Failed failure.OutOfMemory };

    fn from(_: AllocError) -> LookError {
        LookError::Failed(ServeError::OutOfMemory)
    }
}

/// Returns the status with which a look ends: 0, 1 if there is not exactly one wanted service, and 3 otherwise.
pub fn status_of_look(looked: Result<(), LookError>) -> u8
    ensures { result ≡ look_status looked }
{
    match looked {
        Ok(()) => DONE,
        Err(LookError::NoService) => REFUSED,
        Err(LookError::SeveralServices) => REFUSED,
        Err(LookError::Unread) => FAULT,
        Err(LookError::Failed(_)) => FAULT,
    }
}

// ---- which one

/// Returns whether the pattern is this one.
fn is_of_pattern(wanted: Pattern, pattern: &MessagingPattern) -> bool
    ensures { result ≡ is_of wanted pattern.now }
{
    match (wanted, pattern) {
        (Pattern::Event, MessagingPattern::Event(_)) => true,
        (Pattern::PublishSubscribe, MessagingPattern::PublishSubscribe(_)) => true,
        (Pattern::RequestResponse, MessagingPattern::RequestResponse(_)) => true,
        _ => false,
    }
}

/// Returns whether the service is the wanted one.
fn is_wanted(wanted: Wanted<'_>, service: &Service) -> bool
    ensures { result ≡ is_wanted_spec wanted.entry service.now }
{
    match wanted {
        Wanted::Named(name) => service.description.name().as_str() == name,
        Wanted::OfPattern(name, pattern) => {
            let is_named = service.description.name().as_str() == name;
            is_named && is_of_pattern(pattern, service.description.messaging_pattern())
        }
        Wanted::Numbered(number) => service.number == number,
    }
}

/// Keeps those that are wanted, in their order.
fn keep_wanted(wanted: Wanted<'_>, services: &mut Vec<Service>)
    ensures { services.new.items ≡ filter (is_wanted_spec wanted.entry) services.old.items }
{
    services.retain(|service| is_wanted(wanted, service));
}

// ---- which ones

/// Returns whether a name has this part.
fn has_part(name: &str, part: &str) -> bool
    ensures { result ≡ has_part name.now part.now }
{
    name.contains(part)
}

/// Returns whether the service is asked for.
fn passes(filter: Filter<'_>, service: &Service) -> bool
    ensures { result ≡ passes filter.entry service.now }
{
    let is_named = match filter.text {
        None => true,
        Some(text) => has_part(service.description.name().as_str(), text),
    };
    let is_of = match filter.pattern {
        None => true,
        Some(pattern) => is_of_pattern(pattern, service.description.messaging_pattern()),
    };
    is_named && is_of
}

/// Returns whether neither a text nor a pattern is asked for.
fn is_open(filter: Filter<'_>) -> bool
    ensures { result ≡ is_open filter.entry }
{
    filter.text.is_none() && filter.pattern.is_none()
}

/// Keeps those that are asked for, in their order.
fn keep_listed(filter: Filter<'_>, services: Services) -> Services
    ensures { AreThose filter.entry services result }
{
    let Services {
        mut published,
        mut creations,
    } = services;
    published.retain(|service| passes(filter, service));
    if !is_open(filter) {
        creations.clear();
    }
    Services {
        published,
        creations,
    }
}

// ---- the texts

/// Returns what is printed of these services.
fn list_all(
    alloc: Global,
    states: &[NodeStatus],
    services: &Services,
    listed: Listed<'_>,
) -> Result<String, AllocError>
    ensures { IfOk result (λ text. string_bytes text ≡ list_printed listed.entry states.now services.now) }
{
    let mut text = String::new(alloc);
    match listed.shown.form {
        Form::Text => list_text(listed, states, services, &mut text)?,
        Form::Names => list_names(services, &mut text)?,
        Form::Json => list_json(states, services, &mut text)?,
        Form::JsonLines => list_json_lines(states, services, &mut text)?,
    }
    Ok(text)
}

/// Returns what is printed of the services of a world. `Failed(OutOfMemory)` if there is no memory.
pub fn list_in(
    alloc: Global,
    states: &[NodeStatus],
    world: &StoredWorld,
    listed: Listed<'_>,
) -> Result<String, LookError>
    ensures listed { IfOk result (λ text. IsListed listed.entry states.now world.now (string_bytes text)) }
    ensures unlisted { IfErr result (NeverUnshown world.now) }
{
    let all = services_of(alloc, world)?;
    let services = keep_listed(listed.filter, all);
    Ok(list_all(alloc, states, &services, listed)?)
}

/// Returns what is printed of a service.
fn show_one(
    alloc: Global,
    states: &[NodeStatus],
    service: &Service,
    shown: Shown,
) -> Result<String, AllocError>
    ensures { IfOk result (λ text. string_bytes text ≡ show_printed shown states.now service.now) }
{
    let mut text = String::new(alloc);
    match shown.form {
        Form::Json | Form::JsonLines => show_json(states, service, &mut text)?,
        Form::Text | Form::Names => show_text(shown.is_coloured, states, service, &mut text)?,
    }
    Ok(text)
}

/// Returns what is printed of the wanted service of a world: lines, or JSON. These are the known states of nodes.
///
/// `NoService` and `SeveralServices` if there is not exactly one, `Failed(OutOfMemory)` if there is no memory.
pub fn show_in(
    alloc: Global,
    states: &[NodeStatus],
    world: &StoredWorld,
    wanted: Wanted<'_>,
    shown: Shown,
) -> Result<String, LookError>
    ensures shown { IfOk result (λ text. IsShown shown states.now world.now wanted.entry (string_bytes text)) }
    ensures unshown { IfErr result (IsUnshown world.now wanted.entry) }
{
    let mut services = services_of(alloc, world)?;
    keep_wanted(wanted, &mut services.published);
    match services.published.as_slice() {
        [] => Err(LookError::NoService),
        [service] => Ok(show_one(alloc, states, service, shown)?),
        _ => Err(LookError::SeveralServices),
    }
}

/// Returns what is printed of these nodes.
fn nodes_all(alloc: Global, nodes: &[NodeStanding], shown: Shown) -> Result<String, AllocError>
    ensures { IfOk result (λ text. string_bytes text ≡ nodes_text_of shown.is_coloured shown.form nodes.now) }
{
    let mut text = String::new(alloc);
    match shown.form {
        Form::Text => nodes_text(shown.is_coloured, nodes, &mut text)?,
        Form::Names => node_numbers(nodes, &mut text)?,
        Form::Json => nodes_json(nodes, &mut text)?,
        Form::JsonLines => nodes_json_lines(nodes, &mut text)?,
    }
    Ok(text)
}

/// Returns what is printed of these nodes in a world. `Failed(OutOfMemory)` if there is no memory.
fn nodes_in(
    alloc: Global,
    states: &[NodeStatus],
    world: &StoredWorld,
    shown: Shown,
) -> Result<String, LookError>
    ensures nodes { IfOk result (λ text. AreNodes shown states.now world.now (string_bytes text)) }
    ensures unlisted { IfErr result (NeverUnshown world.now) }
{
    let nodes = standings(alloc, world, states)?;
    Ok(nodes_all(alloc, &nodes, shown)?)
}

/// Writes a text that was made on the output. If it wasn't made, it writes nothing and returns the reason.
///
/// `Failed` if the output refuses; it has a prefix of the text then.
pub fn print<W: Write>(made: Result<String, LookError>, output: &mut W) -> Result<(), LookError>
    ensures written { IfOk made (λ text. WritesMade (string_bytes text) result
        (W.contents output.old) (W.contents output.new)) }
    ensures why { IfErr made (λ why. KeepsWhy why result (W.contents output.old) (W.contents output.new)) }
{
    match made {
        Err(why) => Err(why),
        Ok(text) => match write_out(text.as_bytes(), output) {
            Ok(()) => Ok(()),
            Err(fault) => Err(LookError::Failed(fault)),
        },
    }
}

// ---- over a journal

/// Takes over what others have appended, and then prints which services there are, in this form. These are the known
/// states of nodes.
///
/// `Unread` if not all can be taken over: nothing is printed. `Failed` if the output refuses, or there is no memory.
pub fn print_list<L: Refusing, W: Write>(
    alloc: Global,
    journal: &mut Journal<L>,
    states: &[NodeStatus],
    listed: Listed<'_>,
    output: &mut W,
) -> Result<(), LookError>
    ensures { LooksAt L.contents (IsListed listed.entry states.now) NeverUnshown
        journal.old journal.new result (W.contents output.old) (W.contents output.new) }
{
    if !take_over(journal) {
        return Err(LookError::Unread);
    }
    print(list_in(alloc, states, journal.world(), listed), output)
}

/// Takes over what others have appended, and then prints all that is known of the wanted service, in this form.
///
/// `Unread` if not all can be taken over, `NoService` and `SeveralServices` if there is not exactly one: nothing is
/// printed. `Failed` if the output refuses, or there is no memory.
pub fn print_show<L: Refusing, W: Write>(
    alloc: Global,
    journal: &mut Journal<L>,
    states: &[NodeStatus],
    wanted: Wanted<'_>,
    shown: Shown,
    output: &mut W,
) -> Result<(), LookError>
    ensures { LooksAt L.contents (λ w text. IsShown shown states.now w wanted.entry text)
        (λ w why. IsUnshown w wanted.entry why)
        journal.old journal.new result (W.contents output.old) (W.contents output.new) }
{
    if !take_over(journal) {
        return Err(LookError::Unread);
    }
    print(
        show_in(alloc, states, journal.world(), wanted, shown),
        output,
    )
}

/// Takes over what others have appended, and then prints each of these nodes, and whether it is alive, lost, dead or ended.
///
/// `Unread` if not all can be taken over: nothing is printed. `Failed` if the output refuses, or there is no memory.
pub fn print_nodes<L: Refusing, W: Write>(
    alloc: Global,
    journal: &mut Journal<L>,
    states: &[NodeStatus],
    shown: Shown,
    output: &mut W,
) -> Result<(), LookError>
    ensures { LooksAt L.contents (AreNodes shown states.now) NeverUnshown
        journal.old journal.new result (W.contents output.old) (W.contents output.new) }
{
    if !take_over(journal) {
        return Err(LookError::Unread);
    }
    print(nodes_in(alloc, states, journal.world(), shown), output)
}
