//! What is wrong with a term after a name if the term means nothing.

ghost use Rattle.std.specs.Prelude.{◌≡◌, codes};
ghost use Rattle.negotiate_lines.specs.CallTerms.{Instruction, IsValueOf, IsInstructionOf};
ghost use Rattle.negotiate_lines.specs.Commands.{admitted_of};
ghost use Rattle.negotiate_lines.specs.Vocabulary.{row_of, table_of};
ghost use Rattle.negotiate_lines.specs.Wrongs.{WrongText, WrongValue};

use crate::leaf::Form;
use crate::line::admitted;
use crate::line_error::LineError;
use crate::term::around;
use crate::vocabulary::{HasVocabulary, Kind};
use iceoryx2_builder::command::How;

/// Returns what is wrong with a term that means nothing.
pub(crate) fn wrong_term<'a, V: HasVocabulary>(form: Form, how: How, term: &'a str) -> LineError<'a>
    requires { (instruction : Instruction V.Setter)
        → IsInstructionOf form V.vocabulary (admitted_of V.vocabulary.has_clock how) term.now instruction → ⊥ }
    ensures { WrongText form V.vocabulary how term.now result }
{
    match around(term, '=') {
        Some((name, value)) => wrong_value::<V>(form, how, name, value),
        None => LineError::NoEqualsSign(term),
    }
}

/// Returns what is wrong with a value that means nothing after a name.
fn wrong_value<'a, V: HasVocabulary>(
    form: Form,
    how: How,
    name: &'a str,
    value: &'a str,
) -> LineError<'a>
    requires { (instruction : Instruction V.Setter)
        → IsValueOf form V.vocabulary.rows (admitted_of V.vocabulary.has_clock how) name.now value.now instruction → ⊥ }
    ensures { WrongValue form V.vocabulary how name.now value.now result }
{
    match name {
        "now" => wrong_now::<V>(form, how, value),
        "attribute" => LineError::NoColon(value),
        "require_key" => LineError::KeyWithCreate,
        _ => match kind_in(V::settings(), name) {
            Some(kind) => LineError::Value(name, value, kind),
            None => LineError::NoSuchSetting {
                name,
                pattern: V::pattern(),
                settings: V::settings(),
                admitted: admitted::<V>(how),
            },
        },
    }
}

/// Returns what is wrong with `now` if its value means nothing with such a call.
fn wrong_now<'a, V: HasVocabulary>(form: Form, how: How, value: &'a str) -> LineError<'a>
    requires { (instruction : Instruction V.Setter) → IsValueOf form V.vocabulary.rows
        (admitted_of V.vocabulary.has_clock how) (codes "now") value.now instruction → ⊥ }
    ensures { WrongValue form V.vocabulary how (codes "now") value.now result }
{
    if !V::has_clock() {
        return LineError::NowOfPattern(V::pattern());
    }
    match how {
        How::Open => LineError::NowWithOpen,
        How::Create => LineError::NoTime(value),
        How::OpenOrCreate => LineError::NoTime(value),
    }
}

/// Returns the kind of value that the first setting of this name takes, if there is such a setting.
fn kind_in(settings: &[(&'static str, Kind)], name: &str) -> Option<Kind>
    ensures { result ≡ row_of (table_of settings.now) name.now }
{
    match settings.split_first() {
        None => None,
        Some((setting, others)) => {
            if setting.0 == name {
                return Some(setting.1);
            }
            kind_in(others, name)
        }
    }
}
