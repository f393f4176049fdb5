//! The settings, requirements and clock of a call, apart from its place and name.

ghost use Rattle.std.specs.Prelude.{◌≡◌};
ghost use Rattle.negotiate_lines.specs.Terms.{terms_of};
ghost use Rattle.negotiate_lines.specs.Commands.{admitted_of};
ghost use Rattle.negotiate_lines.specs.CallTerms.{Follows, Arguments, TakesTerm, TakesTerms, attribute};
ghost use Rattle.negotiate_lines.specs.CallTerms.{in_place, instruction_of, no_arguments, required_key};
ghost use Rattle.std.specs.Cow.{cow_str_bytes};
ghost use Rattle.std.specs.Result.{result_map_both};
ghost use Rattle.negotiate_lines.specs.Leaves.{IsLeaf};
ghost use Rattle.negotiate_lines.specs.Wrongs.{IsBroken, IsKeyAnswer, IsPairAnswer, Judges};
ghost use Rattle.negotiate_lines.specs.Wrongs.{WrongArguments, WrongStep, WrongTerm};

use crate::call_term::{CallTerm, call_term};
use crate::leaf::{Form, text_of_leaf};
use crate::line::admitted;
use crate::line_error::{LineError, LineFailure};
use crate::term::{TermError, next_term};
use crate::vocabulary::HasVocabulary;
use crate::wrong_terms::wrong_term;
use iceoryx2_attribute::attribute::AttributeError::{self, KeyLength, TooMany, ValueLength};
use iceoryx2_attribute::attribute::AttributeVerifier;
use iceoryx2_builder::command::How;
use iceoryx2_description::time::{ClockFault, Time};
use std::alloc::Global;
use std::borrow::CowStr;
use std::marker::Model;

/// The settings of a call, what it requires, and what its clock answers.
#[derive(Drop)]
pub struct CallArguments<S> {
    settings: Vec<S>,
    attributes: AttributeVerifier,
    now: Result<Time, ClockFault>,
}

impl<S> Model for CallArguments<S> {
    ghost use Rattle.negotiate_lines.specs.CallTerms.{Arguments};

    ghost Value = { Arguments S };

    ghost view = { λ p. record {
      settings = p.settings.items;
      requirements = p.attributes;
      now = p.now;
    } };
}

impl<S: Drop> CallArguments<S> {
    /// Returns no settings, no requirements, and the time zero.
    pub(crate) fn new(alloc: Global) -> CallArguments<S>
        ensures { result ≡ no_arguments }
    {
        CallArguments {
            settings: Vec::new(alloc),
            attributes: AttributeVerifier::new(alloc),
            now: Ok(Time::default()),
        }
    }

    /// Returns the settings in order, the requirements, and what the clock answers.
    pub fn into_parts(self) -> (Vec<S>, AttributeVerifier, Result<Time, ClockFault>)
        ensures settings { result.0.items ≡ self.settings }
        ensures requirements { result.1 ≡ self.requirements }
        ensures now { result.2 ≡ self.now }
    {
        let CallArguments {
            settings,
            attributes,
            now,
        } = self;
        (settings, attributes, now)
    }

    /// Returns the arguments after what a term means, or what is wrong if that can't be followed: a pair or a key isn't
    /// taken if its length is out of range, or if it is one past 64.
    fn judge<'a>(
        &mut self,
        alloc: Global,
        form: Form,
        instruction: CallTerm<'a, S>,
    ) -> Result<(), LineFailure<'a>>
        ensures { Judges (Follows form self.old (instruction_of instruction.entry))
            (WrongStep form self.old (instruction_of instruction.entry)) (in_place result self.new) }
    {
        match instruction {
            CallTerm::Setting(setting) => match self.settings.push(setting) {
                Ok(()) => Ok(()),
                Err(_) => Err(LineFailure::OutOfMemory),
            },
            CallTerm::Now(now) => {
                self.now = now;
                Ok(())
            }
            CallTerm::Attribute(key, value) => self.judge_pair(alloc, form, key, value),
            CallTerm::RequiredKey(key) => self.judge_key(alloc, form, key),
        }
    }

    /// Does the same for a pair with these leaves.
    fn judge_pair<'a>(
        &mut self,
        alloc: Global,
        form: Form,
        key: &'a str,
        value: &'a str,
    ) -> Result<(), LineFailure<'a>>
        ensures { Judges (Follows form self.old (attribute key.now value.now))
            (WrongStep form self.old (attribute key.now value.now)) (in_place result self.new) }
    {
        let key_text = judge_leaf(alloc, form, key)?;
        let value_text = judge_leaf(alloc, form, value)?;
        let answer = self.attributes.require(&key_text, &value_text);
        pair_answer(answer, key, value)
    }

    /// Does the same for a required key with this leaf.
    fn judge_key<'a>(
        &mut self,
        alloc: Global,
        form: Form,
        key: &'a str,
    ) -> Result<(), LineFailure<'a>>
        ensures { Judges (Follows form self.old (required_key key.now)) (WrongStep form self.old (required_key key.now))
            (in_place result self.new) }
    {
        let key_text = judge_leaf(alloc, form, key)?;
        let answer = self.attributes.require_key(&key_text);
        key_answer(answer, key)
    }
}

/// Returns what is told if a pair of these leaves is added to others.
fn pair_answer<'a>(
    answer: Result<(), AttributeError>,
    key: &'a str,
    value: &'a str,
) -> Result<(), LineFailure<'a>>
    ensures { IsPairAnswer answer key.now value.now result }
{
    match answer {
        Ok(()) => Ok(()),
        Err(AttributeError::OutOfMemory) => Err(LineFailure::OutOfMemory),
        Err(KeyLength) => Err(LineFailure::Wrong(LineError::KeyLength(key))),
        Err(ValueLength) => Err(LineFailure::Wrong(LineError::ValueLength(value))),
        Err(TooMany) => Err(LineFailure::Wrong(LineError::TooManyPairs(key, value))),
    }
}

/// Returns what is told if a key of this leaf is added to others.
fn key_answer<'a>(answer: Result<(), AttributeError>, key: &'a str) -> Result<(), LineFailure<'a>>
    ensures { IsKeyAnswer answer key.now result }
{
    match answer {
        Ok(()) => Ok(()),
        Err(AttributeError::OutOfMemory) => Err(LineFailure::OutOfMemory),
        Err(TooMany) => Err(LineFailure::Wrong(LineError::TooManyKeys(key))),
        Err(_) => Err(LineFailure::Wrong(LineError::KeyLength(key))),
    }
}

/// Returns the text of a leaf, or that it is broken.
pub(crate) fn judge_leaf<'a>(
    alloc: Global,
    form: Form,
    leaf: &'a str,
) -> Result<CowStr<'a>, LineFailure<'a>>
    ensures { Judges (IsLeaf form leaf.now) (IsBroken leaf.now)
        (result_map_both (λ text. cow_str_bytes text) (λ e. e) result) }
{
    match text_of_leaf(alloc, form, leaf) {
        Ok(text) => Ok(text),
        Err(TermError::Malformed) => Err(LineFailure::Wrong(LineError::BrokenLeaf(leaf))),
        Err(TermError::OutOfMemory) => Err(LineFailure::OutOfMemory),
    }
}

/// Reads the terms of a text, one by one and in order, up to the first that is wrong. It keeps no term: it takes memory
/// for the settings, the pairs and the keys alone.
pub(crate) fn judge_arguments<'a, V: HasVocabulary>(
    alloc: Global,
    form: Form,
    how: How,
    text: &'a str,
) -> Result<CallArguments<V::Setter>, LineFailure<'a>>
    ensures { Judges
        (TakesTerms form V.vocabulary (admitted_of V.vocabulary.has_clock how) no_arguments (terms_of text.now))
        (WrongArguments form V.vocabulary how (terms_of text.now)) result }
{
    let mut arguments = CallArguments::new(alloc);
    let mut rest = text;
    while let Some((term, after)) = next_term(rest) {
        judge_term::<V>(alloc, form, how, &mut arguments, term)?;
        rest = after;
    }
    Ok(arguments)
}

/// Returns the arguments after what a term means, or what is wrong with it.
fn judge_term<'a, V: HasVocabulary>(
    alloc: Global,
    form: Form,
    how: How,
    arguments: &mut CallArguments<V::Setter>,
    term: &'a str,
) -> Result<(), LineFailure<'a>>
    ensures { Judges (TakesTerm form V.vocabulary (admitted_of V.vocabulary.has_clock how) arguments.old term.now)
        (WrongTerm form V.vocabulary how arguments.old term.now) (in_place result arguments.new) }
{
    match call_term::<V>(alloc, form, admitted::<V>(how), term) {
        Ok(instruction) => arguments.judge(alloc, form, instruction),
        Err(TermError::OutOfMemory) => Err(LineFailure::OutOfMemory),
        Err(TermError::Malformed) => Err(LineFailure::Wrong(wrong_term::<V>(form, how, term))),
    }
}
