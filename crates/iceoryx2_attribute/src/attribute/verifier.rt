//! The requirements of a node on a service's attributes.

ghost use Rattle.std.specs.Prelude.{◌≡◌, ◌↔◌, Some, None, IsOk, MatchResult};
ghost use Rattle.std.specs.Option.{option_copied};
ghost use Rattle.iceoryx2_attribute.specs.Attributes.{AreAttributes, pair_of};
ghost use Rattle.iceoryx2_attribute.specs.Requirements.{AreMetBy, AreRequirements, first_lacking};
ghost use Rattle.iceoryx2_attribute.specs.Requirements.{lacking_key, lacking_pair, no_requirements};
ghost use Rattle.iceoryx2_attribute.specs.Additions.{AddsKey, AddsPair};

use super::keys::KeyList;
use super::{Attribute, AttributeError, AttributeSet, Key};
use std::alloc::{AllocError, Global};
use std::marker::Model;

/// The pairs that a service must have, and the keys that it must have with any value.
#[derive(Debug)]
pub struct AttributeVerifier {
    pairs: AttributeSet,
    keys: KeyList,
}

// Written out, so that a proof of what lets one go doesn't take its fields apart.
impl Drop for AttributeVerifier {
    fn drop(self) {
        let AttributeVerifier { pairs: _, keys: _ } = self;
    }
}

impl Model for AttributeVerifier {
    ghost use Rattle.iceoryx2_attribute.specs.Requirements.{Requirements, AreRequirements};

    ghost Value = { Requirements };

    ghost view = { λ a. record { pairs = a.pairs; keys = a.keys } };

    ghost invariant = { λ a. AreRequirements (record { pairs = a.pairs; keys = a.keys }) };
}

impl AttributeVerifier {
    /// Returns a verifier without requirements, which takes no memory.
    pub fn new(alloc: Global) -> AttributeVerifier
        ensures { result ≡ no_requirements }
    {
        AttributeVerifier {
            pairs: AttributeSet::new(alloc),
            keys: KeyList::new(alloc),
        }
    }

    /// Requires a pair. The errors, tested in this order: `KeyLength` if the key does not have 1 to 64
    /// bytes, `ValueLength` if the value has more than 256, `TooMany` if the pair isn't there and 64
    /// others are, and `OutOfMemory` if there was no memory for the pair. An error changes nothing, and
    /// neither does a pair that is there already.
    pub fn require(&mut self, key: &str, value: &str) -> Result<(), AttributeError>
        ensures pairs { AddsPair self.old.pairs (pair_of key.now value.now) result self.new.pairs }
        ensures keys { self.new.keys ≡ self.old.keys }
    {
        self.pairs.add(key, value)
    }

    /// Requires a key, with any value. The errors, tested in this order: `KeyLength` if the key does
    /// not have 1 to 64 bytes, `TooMany` if the key isn't there and 64 others are, and `OutOfMemory` if
    /// there was no memory for the key. An error changes nothing, and neither does a key that is there
    /// already.
    pub fn require_key(&mut self, key: &str) -> Result<(), AttributeError>
        ensures keys { AddsKey self.old.keys key.now result self.new.keys }
        ensures pairs { self.new.pairs ≡ self.old.pairs }
    {
        self.keys.add(key)
    }

    /// Returns the required pairs.
    pub fn required_attributes(&self) -> &AttributeSet
        ensures value { result.now ≡ self.now.pairs }
        ensures limits { AreRequirements self.now }
    {
        &self.pairs
    }

    /// Returns the required pairs, and consumes the verifier.
    pub fn into_required_attributes(self) -> AttributeSet
        ensures { result ≡ self.pairs }
    {
        let AttributeVerifier { pairs, keys: _ } = self;
        pairs
    }

    /// Returns the required keys, ascending by their bytes.
    pub fn required_keys(&self) -> &[Key]
        ensures value { result.now ≡ self.now.keys }
        ensures limits { AreRequirements self.now }
    {
        self.keys.keys()
    }

    /// Returns Ok if the attributes have each required pair and a value for each required key.
    /// Otherwise returns the key of the first required pair that they lack. If they have all pairs,
    /// returns the first required key without any value.
    #[tactic(auto, using(crate::proofs::Requirements::is_met, crate::proofs::Requirements::is_unmet))]
    pub fn verify_requirements(&self, attributes: &AttributeSet) -> Result<(), &str>
        ensures first { MatchResult result
            (λ _. first_lacking self.now attributes.now ≡ None)
            (λ key. first_lacking self.now attributes.now ≡ Some key.now) }
        ensures met { IsOk result ↔ AreMetBy self.now attributes.now }
    {
        match self.first_lacking(attributes) {
            Some(key) => Err(key),
            None => Ok(()),
        }
    }

    /// Returns the key of the first required pair that is lacking, or else the first required key that
    /// is lacking.
    #[tactic(auto, unfolding(crate::specs::Requirements::first_lacking))]
    fn first_lacking(&self, attributes: &AttributeSet) -> Option<&str>
        ensures { option_copied result ≡ first_lacking self.now attributes.now }
    {
        if let Some(pair) = first_lacking_pair(self.pairs.pairs(), attributes) {
            return Some(pair.key());
        }
        match first_lacking_key(self.keys.keys(), attributes) {
            Some(key) => Some(key.as_str()),
            None => None,
        }
    }
}

impl Clone for AttributeVerifier {
    ghost use Rattle.std.specs.Prelude.{◌≡◌};

    ghost is_clone = { λ verifier copy. copy ≡ verifier };

    fn clone(&self) -> Result<AttributeVerifier, AllocError> {
        Ok(AttributeVerifier {
            pairs: self.pairs.clone()?,
            keys: self.keys.clone()?,
        })
    }
}

/// Returns the first required pair that the attributes lack.
#[tactic(auto, unfolding(crate::specs::Requirements::lacking_pair))]
fn first_lacking_pair<'a>(
    required: &'a [Attribute],
    attributes: &AttributeSet,
) -> Option<&'a Attribute>
    ensures { option_copied result ≡ lacking_pair required.now attributes.now }
{
    required.iter().find(|pair| !attributes.has_pair(pair))
}

/// Returns the first required key for which the attributes have no value.
#[tactic(auto, unfolding(crate::specs::Requirements::lacking_key))]
fn first_lacking_key<'a>(required: &'a [Key], attributes: &AttributeSet) -> Option<&'a Key>
    ensures { option_copied result ≡ lacking_key required.now attributes.now }
{
    required
        .iter()
        .find(|key| !attributes.has_key(key.as_str()))
}
