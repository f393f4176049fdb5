//! The pairs of a key and a value that a service has, and the requirements of a node on them.

ghost use Rattle.std.specs.Prelude.{◌≡◌, ◌↔◌, IsTrue};
ghost use Rattle.iceoryx2_attribute.specs.Additions.{HasKeyLength, HasValueLength};

use std::error::Error;
use std::fmt;

mod keys;
mod set;
mod specifier;
mod verifier;

pub use keys::Key;
pub use set::{Attribute, AttributeSet};
pub use specifier::AttributeSpecifier;
pub use verifier::AttributeVerifier;

/// The length of the shortest key, in bytes.
pub const MIN_KEY_LENGTH: usize = 1;

/// The length of the longest key, in bytes.
pub const MAX_KEY_LENGTH: usize = 64;

/// The length of the longest value, in bytes. The shortest has none.
pub const MAX_VALUE_LENGTH: usize = 256;

/// The greatest number of pairs in a set.
pub const MAX_ATTRIBUTES: usize = 64;

/// The greatest number of required keys.
pub const MAX_REQUIRED_KEYS: usize = 64;

/// States the limits as numbers, because a wrong constant would also change the definitions that cite
/// it.
pub fn limits_of_attributes()
    ensures min_key { MIN_KEY_LENGTH ≡ 1 }
    ensures max_key { MAX_KEY_LENGTH ≡ 64 }
    ensures max_value { MAX_VALUE_LENGTH ≡ 256 }
    ensures attributes { MAX_ATTRIBUTES ≡ 64 }
    ensures required_keys { MAX_REQUIRED_KEYS ≡ 64 }
{}

/// Why a pair or a key isn't added. The errors are tested in this order.
#[derive(Clone, Copy, Debug, PartialEq, Eq, Hash)]
pub enum AttributeError {
    /// The key has no byte, or more than 64.
    KeyLength,
    /// The value has more than 256 bytes.
    ValueLength,
    /// The pair or key isn't there yet, and 64 others are.
    TooMany,
    /// There was no memory for the pair or key.
    OutOfMemory,
}

impl fmt::Display for AttributeError {
    ghost use Rattle.std.specs.Prelude.{Some};
    ghost use Rattle.iceoryx2_attribute.specs.Errors.{attribute_error_text};

    ghost output = { λ error. Some (attribute_error_text error) };

    fn fmt<W: fmt::Write>(&self, f: &mut fmt::Formatter<W>) -> fmt::Result {
        match self {
            AttributeError::KeyLength => write!(f, "an attribute's key has 1 to 64 bytes"),
            AttributeError::ValueLength => {
                write!(f, "an attribute's value has at most 256 bytes")
            }
            AttributeError::TooMany => write!(f, "there are as many already as there may be"),
            AttributeError::OutOfMemory => write!(f, "out of memory"),
        }
    }
}

impl Error for AttributeError {}

/// Why a pair isn't put after the others.
#[derive(Clone, Copy, Debug, PartialEq, Eq)]
pub enum PushError {
    /// The pairs would then not ascend, or a length or the number of pairs would be past its limit.
    Refused,
    /// There was no memory for the pair.
    OutOfMemory,
}

/// Returns whether a text has as many bytes as a key may have.
fn has_key_length(key: &str) -> bool
    ensures { IsTrue result ↔ HasKeyLength key.now }
{
    MIN_KEY_LENGTH <= key.len() && key.len() <= MAX_KEY_LENGTH
}

/// Returns whether a text has as many bytes as a value may have.
fn has_value_length(value: &str) -> bool
    ensures { IsTrue result ↔ HasValueLength value.now }
{
    value.len() <= MAX_VALUE_LENGTH
}
