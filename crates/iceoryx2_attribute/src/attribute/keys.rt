//! Required keys.

ghost use Rattle.std.specs.Prelude.{◌≡◌, ◌≤◌, ◌↔◌, true, false, Err, IfOk, IfErr, OnOk, OnErr};
ghost use Rattle.std.specs.Prelude.{[], IsTrue, length, string_bytes};
ghost use Rattle.std.specs.List.{insert as list_insert};
ghost use Rattle.iceoryx2_attribute.specs.Ascending.{ascends_by};
ghost use Rattle.iceoryx2_attribute.specs.Attributes.{IsKey};
ghost use Rattle.iceoryx2_attribute.specs.Requirements.{AreKeys, key_before, lists_key, with_key};
ghost use Rattle.iceoryx2_attribute.specs.Additions.{AddsKey};

use super::{AttributeError, MAX_REQUIRED_KEYS, has_key_length};
use std::alloc::{AllocError, Global};
use std::marker::Model;

/// A key of 1 to 64 bytes of UTF-8.
#[derive(Debug, Drop)]
pub struct Key {
    text: String,
}

impl Model for Key {
    ghost use Rattle.std.specs.Prelude.{List, ℕ, string_bytes};
    ghost use Rattle.iceoryx2_attribute.specs.Attributes.{IsKey};

    ghost Value = { List ℕ };

    ghost view = { λ key. string_bytes key.text };

    ghost invariant = { λ key. IsKey (string_bytes key.text) };
}

impl Key {
    /// Returns the key as a text.
    pub fn as_str(&self) -> &str
        ensures value { result.now ≡ self.now }
        ensures limits { IsKey self.now }
    {
        &self.text
    }

    /// Returns a key with a copy of a text, whose length is already within the limits.
    fn from_str(alloc: Global, text: &str) -> Result<Key, AllocError>
        requires { IsKey text.now }
        ensures { IfOk result (λ key. key ≡ text.now) }
    {
        let text = String::from_str(alloc, text)?;
        Ok(Key { text })
    }
}

impl Clone for Key {
    ghost use Rattle.std.specs.Prelude.{◌≡◌};

    ghost is_clone = { λ key copy. copy ≡ key };

    fn clone(&self) -> Result<Key, AllocError> {
        Ok(Key {
            text: self.text.clone()?,
        })
    }
}

/// At most 64 keys, each once, ascending by their bytes.
#[derive(Debug, Drop)]
pub(crate) struct KeyList {
    keys: Vec<Key>,
}

impl Model for KeyList {
    ghost use Rattle.std.specs.Prelude.{List, ℕ};
    ghost use Rattle.iceoryx2_attribute.specs.Requirements.{AreKeys};

    ghost Value = { List (List ℕ) };

    ghost view = { λ a. a.keys.items };

    ghost invariant = { λ a. AreKeys a.keys.items };
}

impl KeyList {
    /// Returns a list without keys, which takes no memory.
    pub(crate) fn new(alloc: Global) -> KeyList
        ensures value { result ≡ [] }
        ensures limits { AreKeys result }
    {
        KeyList {
            keys: Vec::new(alloc),
        }
    }

    /// Returns the keys in their order.
    pub(crate) fn keys(&self) -> &[Key]
        ensures value { result.now ≡ self.now }
        ensures limits { AreKeys self.now }
    {
        &self.keys
    }

    /// Puts a key in its place, which is found by halving. A key that is there already is accepted
    /// before the number of keys is tested.
    pub(crate) fn add(&mut self, key: &str) -> Result<(), AttributeError>
        ensures answer { AddsKey self.old key.now result self.new }
        ensures limits { AreKeys self.new }
    {
        // From here on the limits of what is there are known.
        let _opened = &self.keys;
        if !has_key_length(key) {
            return Err(AttributeError::KeyLength);
        }
        match place_of_key(&self.keys, key) {
            Ok(_) => Ok(()),
            Err(at) => self.insert(at, key),
        }
    }

    /// Puts a key that isn't there yet in its place.
    fn insert(&mut self, at: usize, key: &str) -> Result<(), AttributeError>
        requires key { IsKey key.now }
        requires in_range { at ≤ length self.old }
        requires place { list_insert self.old at key.now ≡ with_key self.old key.now }
        ensures added { OnOk result (self.new ≡ with_key self.old key.now) }
        ensures kept { OnErr result (self.new ≡ self.old) }
        ensures key_length { result ≡ Err AttributeError.KeyLength → ⊥ }
        ensures value_length { result ≡ Err AttributeError.ValueLength → ⊥ }
        ensures too_many { (result ≡ Err AttributeError.TooMany) ↔ (MAX_REQUIRED_KEYS ≤ length self.old) }
        ensures limits { AreKeys self.new }
    {
        if self.keys.len() >= MAX_REQUIRED_KEYS {
            return Err(AttributeError::TooMany);
        }
        let alloc = *self.keys.allocator();
        let Ok(key) = Key::from_str(alloc, key) else {
            return Err(AttributeError::OutOfMemory);
        };
        match self.keys.insert(at, key) {
            Ok(()) => Ok(()),
            Err(_) => Err(AttributeError::OutOfMemory),
        }
    }
}

impl Clone for KeyList {
    ghost use Rattle.std.specs.Prelude.{◌≡◌};

    ghost is_clone = { λ list copy. copy ≡ list };

    fn clone(&self) -> Result<KeyList, AllocError> {
        Ok(KeyList {
            keys: self.keys.clone()?,
        })
    }
}

/// Returns the place of a key, or the place where it would go, by halving.
fn place_of_key(keys: &[Key], key: &str) -> Result<usize, usize>
    requires { IsTrue (ascends_by key_before keys.now) }
    ensures found { IfOk result (λ _. lists_key keys.now key.now ≡ true) }
    ensures absent { IfErr result (λ _. lists_key keys.now key.now ≡ false) }
    ensures there { IfOk result (λ _. keys.now ≡ with_key keys.now key.now) }
    ensures in_range { IfErr result (λ at. at ≤ length keys.now) }
    ensures place { IfErr result (λ at. list_insert keys.now at key.now ≡ with_key keys.now key.now) }
{
    keys.binary_search_by(|listed| listed.as_str().cmp(key))
}
