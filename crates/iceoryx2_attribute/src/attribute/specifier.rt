//! The attributes that a service is to be created with.

ghost use Rattle.std.specs.Prelude.{◌≡◌, []};
ghost use Rattle.iceoryx2_attribute.specs.Attributes.{AreAttributes, pair_of};
ghost use Rattle.iceoryx2_attribute.specs.Additions.{AddsPair};

use super::{AttributeError, AttributeSet};
use std::alloc::Global;
use std::marker::Model;

/// The attributes that a service is to be created with.
#[derive(Debug)]
pub struct AttributeSpecifier {
    set: AttributeSet,
}

// Written out, so that a proof of what lets one go doesn't take its fields apart.
impl Drop for AttributeSpecifier {
    fn drop(self) {
        let AttributeSpecifier { set: _ } = self;
    }
}

impl Model for AttributeSpecifier {
    ghost use Rattle.std.specs.Prelude.{List};
    ghost use Rattle.iceoryx2_attribute.specs.Attributes.{Pair};

    ghost Value = { List Pair };

    ghost view = { λ a. a.set };
}

impl AttributeSpecifier {
    /// Returns a specifier without attributes, which takes no memory.
    pub fn new(alloc: Global) -> AttributeSpecifier
        ensures { result ≡ [] }
    {
        AttributeSpecifier {
            set: AttributeSet::new(alloc),
        }
    }

    /// Adds a pair. The errors, tested in this order: `KeyLength` if the key does not have 1 to 64
    /// bytes, `ValueLength` if the value has more than 256, `TooMany` if the pair isn't there and 64
    /// others are, and `OutOfMemory` if there was no memory for the pair. An error changes nothing, and
    /// neither does a pair that is there already.
    pub fn define(&mut self, key: &str, value: &str) -> Result<(), AttributeError>
        ensures { AddsPair self.old (pair_of key.now value.now) result self.new }
    {
        self.set.add(key, value)
    }

    /// Returns the attributes so far.
    pub fn attributes(&self) -> &AttributeSet
        ensures value { result.now ≡ self.now }
        ensures limits { AreAttributes self.now }
    {
        let _pairs = self.set.pairs();
        &self.set
    }

    /// Returns the attributes, and consumes the specifier.
    pub fn into_attributes(self) -> AttributeSet
        ensures value { result ≡ self }
        ensures limits { AreAttributes result }
    {
        let AttributeSpecifier { set } = self;
        let _pairs = set.pairs();
        set
    }
}

impl From<AttributeSet> for AttributeSpecifier {
    ghost use Rattle.std.specs.Prelude.{◌≡◌};

    ghost from_gives = { λ set specifier. specifier ≡ set };

    /// Returns a specifier that defines these attributes. It takes no memory.
    fn from(set: AttributeSet) -> AttributeSpecifier {
        AttributeSpecifier { set }
    }
}
