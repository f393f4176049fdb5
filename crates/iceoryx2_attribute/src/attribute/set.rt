//! Sets of attributes.

ghost use Rattle.std.specs.Prelude.{◌≡◌, ◌≤◌, ◌↔◌, [], ◌∷◌, ◌++◌, length, string_bytes};
ghost use Rattle.std.specs.Prelude.{true, false, IsTrue, Err, IfOk, IfErr, OnOk, OnErr};
ghost use Rattle.std.specs.List.{insert as list_insert};
ghost use Rattle.iceoryx2_attribute.specs.Attributes.{AreAttributes, IsKey, IsPair, IsValue, ascends};
ghost use Rattle.iceoryx2_attribute.specs.Attributes.{has_key, has_pair, pair_cmp, pair_of, with_pair};
ghost use Rattle.iceoryx2_attribute.specs.Additions.{AddsPair};

use super::{AttributeError, MAX_ATTRIBUTES, PushError, has_key_length, has_value_length};
use std::alloc::{AllocError, Global};
use std::cmp::Ordering;
use std::marker::Model;

/// A key of 1 to 64 bytes with a value of 0 to 256 bytes, both UTF-8.
#[derive(Debug, Drop)]
pub struct Attribute {
    key: String,
    value: String,
}

impl Model for Attribute {
    ghost use Rattle.std.specs.Prelude.{string_bytes};
    ghost use Rattle.iceoryx2_attribute.specs.Attributes.{Pair, IsPair, pair_of};

    ghost Value = { Pair };

    ghost view = { λ a. pair_of (string_bytes a.key) (string_bytes a.value) };

    ghost invariant = { λ a. IsPair (pair_of (string_bytes a.key) (string_bytes a.value)) };
}

impl Attribute {
    /// Returns the key as a text.
    pub fn key(&self) -> &str
        ensures value { result.now ≡ self.now.key }
        ensures limits { IsKey self.now.key }
    {
        &self.key
    }

    /// Returns the value as a text.
    pub fn value(&self) -> &str
        ensures value { result.now ≡ self.now.value }
        ensures limits { IsValue self.now.value }
    {
        &self.value
    }

    /// Returns a pair of two texts, whose lengths are already within the limits.
    fn from_texts(key: String, value: String) -> Attribute
        requires { IsPair (pair_of (string_bytes key) (string_bytes value)) }
        ensures { result ≡ pair_of (string_bytes key) (string_bytes value) }
    {
        Attribute { key, value }
    }

    /// Returns a pair with copies of both texts.
    fn from_strs(alloc: Global, key: &str, value: &str) -> Result<Attribute, AllocError>
        requires { IsPair (pair_of key.now value.now) }
        ensures { IfOk result (λ pair. pair ≡ pair_of key.now value.now) }
    {
        let key = String::from_str(alloc, key)?;
        let value = String::from_str(alloc, value)?;
        Ok(Attribute::from_texts(key, value))
    }

    /// Compares this pair with another: by the bytes of the keys, and then of the values.
    fn compare(&self, key: &str, value: &str) -> Ordering
        ensures { result ≡ pair_cmp self.now (pair_of key.now value.now) }
    {
        self.key().cmp(key).then(self.value().cmp(value))
    }
}

impl PartialEq for Attribute {
    ghost use Rattle.std.proofs.Common.{rules};
    ghost use Rattle.std.specs.Cmp.Rules.{comparing};
    ghost use Rattle.iceoryx2_attribute.specs.Attributes.{same_pair};

    ghost eq = { same_pair };

    ghost laws = { Prim.search (comparing, rules) };

    fn eq(&self, other: &Attribute) -> bool {
        self.key() == other.key() && self.value() == other.value()
    }
}

impl Eq for Attribute {
    ghost use Rattle.std.proofs.Common.{rules};
    ghost use Rattle.std.specs.Cmp.Rules.{comparing};

    ghost laws = { Prim.search (comparing, rules) };
}

impl Clone for Attribute {
    ghost use Rattle.std.specs.Prelude.{◌≡◌};

    ghost is_clone = { λ pair copy. copy ≡ pair };

    fn clone(&self) -> Result<Attribute, AllocError> {
        Ok(Attribute {
            key: self.key.clone()?,
            value: self.value.clone()?,
        })
    }
}

/// At most 64 attributes, each once, ascending by the key's bytes and then the value's. A key may
/// have several values.
#[derive(Debug)]
pub struct AttributeSet {
    pairs: Vec<Attribute>,
}

// Written out, so that a proof of what lets one go doesn't take its fields apart.
impl Drop for AttributeSet {
    fn drop(self) {
        let AttributeSet { pairs: _ } = self;
    }
}

impl Model for AttributeSet {
    ghost use Rattle.std.specs.Prelude.{List};
    ghost use Rattle.iceoryx2_attribute.specs.Attributes.{Pair, AreAttributes};

    ghost Value = { List Pair };

    ghost view = { λ a. a.pairs.items };

    ghost invariant = { λ a. AreAttributes a.pairs.items };
}

impl AttributeSet {
    /// Returns a set without attributes, which takes no memory.
    pub fn new(alloc: Global) -> AttributeSet
        ensures value { result ≡ [] }
        ensures limits { AreAttributes result }
    {
        AttributeSet {
            pairs: Vec::new(alloc),
        }
    }

    /// Returns the attributes in their order.
    pub fn pairs(&self) -> &[Attribute]
        ensures value { result.now ≡ self.now }
        ensures limits { AreAttributes self.now }
    {
        &self.pairs
    }

    /// Returns the number of attributes.
    pub fn len(&self) -> usize
        ensures value { result ≡ length self.now }
        ensures limits { result ≤ MAX_ATTRIBUTES }
    {
        self.pairs.len()
    }

    /// Returns whether there are no attributes.
    pub fn is_empty(&self) -> bool
        ensures { IsTrue result ↔ (self.now ≡ []) }
    {
        self.pairs.is_empty()
    }

    /// Puts a pair after the others, without a search. `Refused` if the pairs would then not ascend, if
    /// there are 64 already, or if a length is past its limit. `OutOfMemory` if there was no memory for
    /// the pair. An error changes nothing.
    pub fn push_ascending(&mut self, key: String, value: String) -> Result<(), PushError>
        ensures pushed { let pair = pair_of (string_bytes key) (string_bytes value) in
            OnOk result (self.new ≡ self.old ++ pair ∷ []) }
        ensures kept { OnErr result (self.new ≡ self.old) }
        ensures refused { let pair = pair_of (string_bytes key) (string_bytes value) in
            (result ≡ Err PushError.Refused) ↔ (AreAttributes (self.old ++ pair ∷ []) → ⊥) }
        ensures limits { AreAttributes self.new }
    {
        if !self.takes_next(&key, &value) {
            return Err(PushError::Refused);
        }
        match self.pairs.push(Attribute::from_texts(key, value)) {
            Ok(()) => Ok(()),
            Err(_) => Err(PushError::OutOfMemory),
        }
    }

    /// Returns whether the pairs are still attributes with this pair after them.
    fn takes_next(&self, key: &str, value: &str) -> bool
        ensures { IsTrue result ↔ AreAttributes (self.now ++ pair_of key.now value.now ∷ []) }
    {
        if !has_key_length(key) || !has_value_length(value) {
            return false;
        }
        let has_room = self.pairs.len() < MAX_ATTRIBUTES;
        has_room && last_is_before(&self.pairs, key, value)
    }

    /// Puts a pair in its place, which is found by halving. Errors are tested in the order of
    /// `AttributeError`. A pair that is there already is accepted before the number of pairs is tested.
    pub(crate) fn add(&mut self, key: &str, value: &str) -> Result<(), AttributeError>
        ensures answer { AddsPair self.old (pair_of key.now value.now) result self.new }
        ensures limits { AreAttributes self.new }
    {
        // From here on the limits of what is there are known.
        let _opened = &self.pairs;
        if !has_key_length(key) {
            return Err(AttributeError::KeyLength);
        }
        if !has_value_length(value) {
            return Err(AttributeError::ValueLength);
        }
        match place_of_pair(&self.pairs, key, value) {
            Ok(_) => Ok(()),
            Err(at) => self.insert(at, key, value),
        }
    }

    /// Puts a pair that isn't there yet in its place.
    fn insert(&mut self, at: usize, key: &str, value: &str) -> Result<(), AttributeError>
        requires pair { IsPair (pair_of key.now value.now) }
        requires in_range { at ≤ length self.old }
        requires place { list_insert self.old at (pair_of key.now value.now)
            ≡ with_pair self.old (pair_of key.now value.now) }
        ensures added { OnOk result (self.new ≡ with_pair self.old (pair_of key.now value.now)) }
        ensures kept { OnErr result (self.new ≡ self.old) }
        ensures key_length { result ≡ Err AttributeError.KeyLength → ⊥ }
        ensures value_length { result ≡ Err AttributeError.ValueLength → ⊥ }
        ensures too_many { (result ≡ Err AttributeError.TooMany) ↔ (MAX_ATTRIBUTES ≤ length self.old) }
        ensures limits { AreAttributes self.new }
    {
        if self.pairs.len() >= MAX_ATTRIBUTES {
            return Err(AttributeError::TooMany);
        }
        let alloc = *self.pairs.allocator();
        let Ok(pair) = Attribute::from_strs(alloc, key, value) else {
            return Err(AttributeError::OutOfMemory);
        };
        match self.pairs.insert(at, pair) {
            Ok(()) => Ok(()),
            Err(_) => Err(AttributeError::OutOfMemory),
        }
    }

    /// Returns whether a pair is there, by halving.
    pub(crate) fn has_pair(&self, pair: &Attribute) -> bool
        ensures { result ≡ has_pair self.now pair.now }
    {
        place_of_pair(&self.pairs, pair.key(), pair.value()).is_ok()
    }

    /// Returns whether a key has a value, by halving.
    pub(crate) fn has_key(&self, key: &str) -> bool
        ensures { result ≡ has_key self.now key.now }
    {
        finds_key(&self.pairs, key)
    }
}

impl PartialEq for AttributeSet {
    ghost use Rattle.std.proofs.Common.{rules};
    ghost use Rattle.std.specs.Cmp.Rules.{comparing};
    ghost use Rattle.iceoryx2_attribute.specs.Attributes.{same_pairs};

    ghost eq = { same_pairs };

    ghost laws = { Prim.search (comparing, rules) };

    fn eq(&self, other: &AttributeSet) -> bool
        ensures value { result ≡ same_pairs self.now other.now }
        ensures exact { IsTrue result ↔ (self.now ≡ other.now) }
    {
        self.pairs == other.pairs
    }
}

impl Eq for AttributeSet {
    ghost use Rattle.std.proofs.Common.{rules};
    ghost use Rattle.std.specs.Cmp.Rules.{comparing};

    ghost laws = { Prim.search (comparing, rules) };
}

impl Clone for AttributeSet {
    ghost use Rattle.std.specs.Prelude.{◌≡◌};

    ghost is_clone = { λ set copy. copy ≡ set };

    fn clone(&self) -> Result<AttributeSet, AllocError> {
        Ok(AttributeSet {
            pairs: self.pairs.clone()?,
        })
    }
}

/// Returns the place of a pair, or the place where it would go, by halving.
fn place_of_pair(pairs: &[Attribute], key: &str, value: &str) -> Result<usize, usize>
    requires { IsTrue (ascends pairs.now) }
    ensures found { IfOk result (λ _. has_pair pairs.now (pair_of key.now value.now) ≡ true) }
    ensures absent { IfErr result (λ _. has_pair pairs.now (pair_of key.now value.now) ≡ false) }
    ensures there { IfOk result (λ _. pairs.now ≡ with_pair pairs.now (pair_of key.now value.now)) }
    ensures in_range { IfErr result (λ at. at ≤ length pairs.now) }
    ensures place { IfErr result (λ at. list_insert pairs.now at (pair_of key.now value.now)
        ≡ with_pair pairs.now (pair_of key.now value.now)) }
{
    pairs.binary_search_by(|pair| pair.compare(key, value))
}

/// Returns whether a key has a value, by halving.
fn finds_key(pairs: &[Attribute], key: &str) -> bool
    requires { IsTrue (ascends pairs.now) }
    ensures { result ≡ has_key pairs.now key.now }
{
    pairs.binary_search_by(|pair| pair.key().cmp(key)).is_ok()
}

/// Returns whether a pair may follow the last one.
#[tactic(auto, using(crate::proofs::Pairs::ascends_behind))]
fn last_is_before(pairs: &[Attribute], key: &str, value: &str) -> bool
    requires { IsTrue (ascends pairs.now) }
    ensures { result ≡ ascends (pairs.now ++ pair_of key.now value.now ∷ []) }
{
    match pairs.last() {
        None => true,
        Some(last) => last.compare(key, value).is_lt(),
    }
}
