//! What a pattern calls its settings, and what their values mean.

ghost use Rattle.std.specs.Prelude.{◌≡◌};
ghost use Rattle.negotiate_lines.specs.Terms.{Reads};
ghost use Rattle.negotiate_lines.specs.Vocabulary.{IsUnambiguous, IsSettingOf, Vocabulary, kinds_of, table_of};

use crate::leaf::Form;
use crate::term::TermError;
use std::alloc::Global;

/// What kind of value a setting takes.
#[derive(Clone, Copy)]
pub enum Kind {
    /// A number.
    Number,
    /// `true` or `false`.
    Truth,
    /// The number of an event, or `none`.
    Event,
    /// A length of time, or `none`.
    Length,
    /// A power of two.
    Alignment,
    /// What is given of a type.
    Type,
}

/// Which of the terms that every pattern has go with a call.
#[derive(Clone, Copy)]
pub struct Admitted {
    /// What the clock answers.
    pub now: bool,
    /// A key that is required.
    pub require_key: bool,
}

/// The terms that one pattern has.
pub trait HasVocabulary {
    /// A setter of the pattern's builder, with its value.
    type Setter: Drop;

    /// The terms, and what they mean.
    ghost vocabulary: { Vocabulary Self.Setter };

    /// Returns the term with which its calls begin.
    fn pattern() -> &'static str
        ensures { result.now ≡ vocabulary.pattern };

    /// Returns its settings in order, by name, with the kind of value that each takes.
    fn settings() -> &'static [(&'static str, Kind)]
        ensures { table_of result.now ≡ kinds_of vocabulary.rows };

    /// Returns whether the calls that create a service are given the time.
    fn has_clock() -> bool
        ensures { result ≡ vocabulary.has_clock };

    /// Reads the setter of the setting of this name, with this value in a line of this form.
    fn setter(alloc: Global, form: Form, name: &str, value: &str) -> Result<Self::Setter, TermError>
        ensures { Reads (IsSettingOf form vocabulary.rows name.now value.now) result };

    /// Each term has one meaning.
    ghost is_unambiguous: { IsUnambiguous vocabulary };
}
