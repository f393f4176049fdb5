//! What a line is.

ghost use Rattle.std.specs.Prelude.{◌≡◌, ◌∷◌, IfOk, codes};
ghost use Rattle.iceoryx2_builder.specs.declared.command.Call.{Call};
ghost use Rattle.iceoryx2_builder.specs.declared.command.Command.TheVariants as command;
ghost use Rattle.iceoryx2_builder.specs.Commands.{slot_count};
ghost use Rattle.negotiate_lines.specs.Terms.{Finds, IsNumber, terms_of};
ghost use Rattle.negotiate_lines.specs.Values.{IsNatural};
ghost use Rattle.negotiate_lines.specs.Commands.{IsCommandOf, IsNamedCallOf, admitted_of, as_named, how_term};
ghost use Rattle.negotiate_lines.specs.Lines.{AreLine, IsLine, IsLineIn, without_end_of};
ghost use Rattle.negotiate_lines.specs.Wrongs.{Judges, JudgesFirst, NamesCall, WrongCall, WrongHow, WrongNode};
ghost use Rattle.negotiate_lines.specs.Wrongs.{WrongSlot, WrongTerms};

use crate::arguments::{CallArguments, judge_arguments, judge_leaf};
use crate::leaf::Form;
use crate::line_error::{LineError, LineFailure};
use crate::setting_terms::{EventTerms, PublishSubscribeTerms, RequestResponseTerms};
use crate::term::{TermError, next_term, number};
use crate::vocabulary::{Admitted, HasVocabulary};
use iceoryx2_builder::command::{Call, Command, How, SLOTS, Settings};
use iceoryx2_description::description::{ServiceName, ServiceNameError};
use std::alloc::{AllocError, Global};

/// What a line is.
#[derive(Drop)]
pub enum Line<'a> {
    /// It has no term.
    Blank,
    /// It is a command.
    Command(Command),
    /// It is neither, and this is the first thing that is wrong, from left to right.
    NotACommand(LineError<'a>),
}

/// Returns the line without its end: one `\n`, and one `\r` before that.
pub fn without_end(line: &[u8]) -> &[u8]
    ensures { result.now ≡ without_end_of line.now }
{
    let line = match line {
        [front @ .., b'\n'] => front,
        _ => line,
    };
    match line {
        [front @ .., b'\r'] => front,
        _ => line,
    }
}

/// Reads a line, without its end. One or more spaces part its terms, and its leaves are as they are.
///
/// It reads its terms one by one, and keeps none. It takes memory for a service's name and for what the terms after the
/// name mean. `AllocError` if there is none.
pub fn parse<'a>(alloc: Global, line: &'a [u8]) -> Result<Line<'a>, AllocError>
    ensures { IfOk result (IsLine line.now) }
{
    parse_in(alloc, Form::Plain, line)
}

/// Does the same for a line whose leaves are written so. `AllocError` also if there is no memory for a leaf with an
/// escape.
pub fn parse_in<'a>(alloc: Global, form: Form, line: &'a [u8]) -> Result<Line<'a>, AllocError>
    ensures { IfOk result (IsLineIn form line.now) }
{
    match std::str::from_utf8(line) {
        Ok(text) => parse_text(alloc, form, text),
        Err(_) => Ok(Line::NotACommand(LineError::NotUtf8)),
    }
}

/// Returns what a text is.
fn parse_text<'a>(alloc: Global, form: Form, text: &'a str) -> Result<Line<'a>, AllocError>
    ensures { IfOk result (AreLine form (terms_of text.now)) }
{
    let Some((first, others)) = next_term(text) else {
        return Ok(Line::Blank);
    };
    match judge(alloc, form, first, others) {
        Ok(command) => Ok(Line::Command(command)),
        Err(LineFailure::Wrong(wrong)) => Ok(Line::NotACommand(wrong)),
        Err(LineFailure::OutOfMemory) => Err(AllocError),
    }
}

/// Returns the command that a term and those after it are, or what is wrong.
fn judge<'a>(
    alloc: Global,
    form: Form,
    first: &'a str,
    others: &'a str,
) -> Result<Command, LineFailure<'a>>
    ensures { Judges (IsCommandOf form (first.now ∷ terms_of others.now))
        (WrongTerms form (first.now ∷ terms_of others.now)) result }
{
    match first {
        "list" => judge_list(form, others),
        "close" => judge_close(form, others),
        "event" => Ok(judge_call::<EventTerms>(alloc, form, others)?.into_command(Settings::Event)),
        "pubsub" => {
            let call = judge_call::<PublishSubscribeTerms>(alloc, form, others)?;
            Ok(call.into_command(Settings::PublishSubscribe))
        }
        "rr" => {
            let call = judge_call::<RequestResponseTerms>(alloc, form, others)?;
            Ok(call.into_command(Settings::RequestResponse))
        }
        _ => Err(LineFailure::Wrong(LineError::NoSuchCommand(first))),
    }
}

/// Returns what the term `list` means before others.
fn judge_list<'a>(form: Form, others: &'a str) -> Result<Command, LineFailure<'a>>
    ensures { Judges (IsCommandOf form (codes "list" ∷ terms_of others.now))
        (WrongTerms form (codes "list" ∷ terms_of others.now)) result }
{
    match next_term(others) {
        None => Ok(Command::List),
        Some((term, _)) => Err(LineFailure::Wrong(LineError::BehindList(term))),
    }
}

/// Returns what the term `close` means before others.
fn judge_close<'a>(form: Form, others: &'a str) -> Result<Command, LineFailure<'a>>
    ensures { Judges (IsCommandOf form (codes "close" ∷ terms_of others.now))
        (WrongTerms form (codes "close" ∷ terms_of others.now)) result }
{
    let (slot, others) = slot_in(others)?;
    match next_term(others) {
        None => Ok(Command::Close { slot }),
        Some((term, _)) => Err(LineFailure::Wrong(LineError::BehindSlot(term))),
    }
}

/// Returns the slot with which a text begins, and the text after it.
fn slot_in<'a>(text: &'a str) -> Result<(usize, &'a str), LineFailure<'a>>
    ensures { JudgesFirst (IsNumber slot_count) WrongSlot (terms_of text.now) result }
{
    let Some((term, others)) = next_term(text) else {
        return Err(LineFailure::Wrong(LineError::NoSlot));
    };
    match number(term) {
        Err(_) => Err(LineFailure::Wrong(LineError::NoSlotNumber(term))),
        Ok(number) => {
            if number >= SLOTS as u64 {
                return Err(LineFailure::Wrong(LineError::SlotTooGreat(term)));
            }
            Ok((number as usize, others))
        }
    }
}

/// Returns the call with which a text begins, and the text after it.
fn how_in<'a>(text: &'a str) -> Result<(How, &'a str), LineFailure<'a>>
    ensures { JudgesFirst NamesCall WrongHow (terms_of text.now) result }
{
    let Some((term, others)) = next_term(text) else {
        return Err(LineFailure::Wrong(LineError::NoCall));
    };
    match how_of(term) {
        Ok(how) => Ok((how, others)),
        Err(_) => Err(LineFailure::Wrong(LineError::NoSuchCall(term))),
    }
}

fn how_of(term: &str) -> Result<How, TermError>
    ensures { Finds (λ how. term.now ≡ how_term how) result }
{
    match term {
        "create" => Ok(How::Create),
        "open" => Ok(How::Open),
        "open_or_create" => Ok(How::OpenOrCreate),
        _ => Err(TermError::Malformed),
    }
}

/// Returns the node with which a text begins, and the text after it.
fn node_in<'a>(text: &'a str) -> Result<(u64, &'a str), LineFailure<'a>>
    ensures { JudgesFirst IsNatural WrongNode (terms_of text.now) result }
{
    let Some((term, others)) = next_term(text) else {
        return Err(LineFailure::Wrong(LineError::NoNode));
    };
    match number(term) {
        Ok(node) => Ok((node, others)),
        Err(_) => Err(LineFailure::Wrong(LineError::NoNodeNumber(term))),
    }
}

/// Returns what a pattern's term means before others.
fn judge_call<'a, V: HasVocabulary>(
    alloc: Global,
    form: Form,
    others: &'a str,
) -> Result<NamedCall<V::Setter>, LineFailure<'a>>
    ensures { Judges (IsNamedCallOf form V.vocabulary (V.vocabulary.pattern ∷ terms_of others.now))
        (WrongCall form V.vocabulary (terms_of others.now)) result }
{
    let (how, others) = how_in(others)?;
    let (node, others) = node_in(others)?;
    let (slot, others) = slot_in(others)?;
    let Some((term, others)) = next_term(others) else {
        return Err(LineFailure::Wrong(LineError::NoName));
    };
    let text = judge_leaf(alloc, form, term)?;
    let name = match ServiceName::new(alloc, &text) {
        Ok(name) => name,
        Err(ServiceNameError::Length) => return Err(LineFailure::Wrong(LineError::NameLength(
            term,
        ))),
        Err(ServiceNameError::OutOfMemory) => return Err(LineFailure::OutOfMemory),
    };
    let arguments = judge_arguments::<V>(alloc, form, how, others)?;
    Ok(NamedCall {
        how,
        node,
        slot,
        name,
        arguments,
    })
}

/// Returns which of the terms that every pattern has go with such a call.
pub(crate) fn admitted<V: HasVocabulary>(how: How) -> Admitted
    ensures { result ≡ admitted_of V.vocabulary.has_clock how }
{
    match how {
        How::Create => Admitted {
            now: V::has_clock(),
            require_key: false,
        },
        How::Open => Admitted {
            now: false,
            require_key: true,
        },
        How::OpenOrCreate => Admitted {
            now: V::has_clock(),
            require_key: true,
        },
    }
}

/// A call as its line names it, whatever its pattern.
#[derive(Drop)]
struct NamedCall<S> {
    how: How,
    node: u64,
    slot: usize,
    name: ServiceName,
    arguments: CallArguments<S>,
}

impl<S: Drop> NamedCall<S> {
    /// Returns the call of a session, with settings made of its setters.
    fn into_command<F: FnOnce(Vec<S>) -> Settings>(self, settings: F) -> Command
        requires { F.IsAlwaysCallable settings }
        ensures { (call : Call) × (setters : _) × (result ≡ command.Call call)
            × F.post settings setters call.settings × (self ≡ as_named call setters.items) }
    {
        let (setters, attributes, now) = self.arguments.into_parts();
        Command::Call(Call {
            how: self.how,
            node: self.node,
            slot: self.slot,
            name: self.name,
            settings: settings(setters),
            attributes,
            now,
        })
    }
}
