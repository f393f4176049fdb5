//! The meaning of one term after a service's name.

ghost use Rattle.negotiate_lines.specs.CallTerms.{IsRead, IsValueOf, IsInstructionOf};

use crate::leaf::Form;
use crate::term::{TermError, around};
use crate::value::time_or_fault;
use crate::vocabulary::{Admitted, HasVocabulary};
use iceoryx2_description::time::{ClockFault, Time};
use std::alloc::Global;

/// What a term means.
#[derive(Drop)]
pub(crate) enum CallTerm<'a, S> {
    /// A setter of the builder, with its value.
    Setting(S),
    /// What the clock answers.
    Now(Result<Time, ClockFault>),
    /// The leaves of a key and a value.
    Attribute(&'a str, &'a str),
    /// The leaf of a key.
    RequiredKey(&'a str),
}

/// Reads a term of a call: a name and a value around its first `=`. The term is malformed if there is no such name, if
/// its value has another form or is out of range, or if the name doesn't go with the call.
pub(crate) fn call_term<'a, V: HasVocabulary>(
    alloc: Global,
    form: Form,
    admitted: Admitted,
    term: &'a str,
) -> Result<CallTerm<'a, V::Setter>, TermError>
    ensures { IsRead (IsInstructionOf form V.vocabulary admitted term.now) result }
{
    match around(term, '=') {
        Some((name, value)) => value_of::<V>(alloc, form, admitted, name, value),
        None => Err(TermError::Malformed),
    }
}

/// Returns what a value means after a name.
fn value_of<'a, V: HasVocabulary>(
    alloc: Global,
    form: Form,
    admitted: Admitted,
    name: &str,
    value: &'a str,
) -> Result<CallTerm<'a, V::Setter>, TermError>
    ensures { IsRead (IsValueOf form V.vocabulary.rows admitted name.now value.now) result }
{
    match name {
        "now" if admitted.now => Ok(CallTerm::Now(time_or_fault(value)?)),
        "attribute" => match around(value, ':') {
            Some((key, value)) => Ok(CallTerm::Attribute(key, value)),
            None => Err(TermError::Malformed),
        },
        "require_key" if admitted.require_key => Ok(CallTerm::RequiredKey(value)),
        "now" | "require_key" => Err(TermError::Malformed),
        _ => Ok(CallTerm::Setting(V::setter(alloc, form, name, value)?)),
    }
}
