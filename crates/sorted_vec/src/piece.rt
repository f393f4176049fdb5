//! A piece: some of a map's entries, in the order of their keys.

ghost use Rattle.std.specs.Prelude.{◌≡◌, ◌<◌, ◌≤◌, ℕ, true, [], length, take, drop, slice_index_or};
ghost use Rattle.std.specs.Prelude.{IfOk, OnOk, OnErr, IfErr};
ghost use Rattle.std.specs.List.{insert as list_insert, remove as list_remove};
ghost use Rattle.std.specs.List.Sorted.{IsSearchInRange};
ghost use Rattle.std.specs.Borrow.{sem};
ghost use Rattle.std.specs.FinMap.{is_sorted};
ghost use Rattle.finite_map.specs.Places.{TiesAt, Gap};
ghost use Rattle.finite_map.specs.Chunks.{first_order, with_value_at};

use std::alloc::{AllocError, Global};
use std::cmp::Ordering;
use std::marker::Model;

/// Some of a map's entries, in the order of their keys.
#[derive(Drop)]
pub struct Piece<K, V> {
    entries: Vec<(K, V)>,
}

impl<K, V> Model for Piece<K, V> {
    ghost use Rattle.std.specs.Prelude.{vec_capacity};
    ghost use Rattle.finite_map.specs.Sorted.{Sorted, sorted_code};

    ghost Value = { Sorted K V };

    ghost coded = { sorted_code K.code V.code };

    ghost view = { λ c. record { entries = c.entries.items; capacity = vec_capacity c.entries } };
}

impl<K, V> Piece<K, V> {
    ghost use Rattle.sorted_vec.specs.Lends.{lends_entry};

    /// No entries, and no memory.
    pub fn new(alloc: Global) -> Self
        ensures { result.entries ≡ [] }
    {
        Piece {
            entries: Vec::new(alloc),
        }
    }

    /// What its memory comes from.
    pub fn allocator(&self) -> Global {
        *self.entries.allocator()
    }

    /// How many entries there are.
    pub fn len(&self) -> usize
        ensures { result ≡ length self.now.entries }
    {
        self.entries.len()
    }

    /// The entries.
    pub fn entries(&self) -> &[(K, V)]
        ensures { result.now ≡ self.now.entries }
    {
        self.entries.as_slice()
    }

    /// The entry at a place.
    pub fn entry(&self, at: usize) -> &(K, V)
        requires { at < length self.now.entries }
        ensures { result.now ≡ slice_index_or self.now.entries at result.now }
    {
        &self.entries[at]
    }

    /// The value at a place, for writing.
    pub fn value_mut(&mut self, at: usize) -> &mut V
        requires { at < length self.old.entries }
        ensures* writes_back { sem 𝓛 (lends_entry K.row V.row self.entry at result) }
        ensures value { (e : K × V) → result.now ≡ (slice_index_or self.old.entries at e).1 }
    {
        &mut self.entries[at].1
    }

    /// Asks for room for one more. `AllocError` comes only if there is none.
    pub fn reserve(&mut self) -> Result<(), AllocError>
        ensures same { self.new.entries ≡ self.old.entries }
        ensures room { OnOk result (length self.new.entries < self.new.capacity) }
        ensures full { OnErr result (self.old.capacity ≤ length self.old.entries) }
    {
        self.entries.reserve(1)
    }

    /// Takes the entries from a place on out, into a piece of their own.
    pub fn split_off(&mut self, at: usize) -> Result<Self, AllocError>
        requires { at ≤ length self.old.entries }
        ensures lower { OnOk result (self.new.entries ≡ take at self.old.entries) }
        ensures upper { IfOk result (λ upper. upper.entries ≡ drop at self.old.entries) }
        ensures same { IfErr result (λ _. self.new ≡ self.old) }
    {
        match self.entries.split_off(at) {
            Ok(entries) => Ok(Piece { entries }),
            Err(error) => Err(error),
        }
    }
}

impl<K: Drop, V: Drop> Piece<K, V> {
    /// Takes all entries out.
    pub fn clear(&mut self)
        ensures { self.new.entries ≡ [] }
    {
        self.entries.clear();
    }
}

impl<K, V: Drop> Piece<K, V> {
    /// Sets the value at a place.
    pub fn set_value(&mut self, at: usize, value: V)
        requires { at < length self.old.entries }
        ensures { self.new.entries ≡ with_value_at self.old.entries at value }
    {
        self.entries[at].1 = value;
    }
}

impl<K: Copy, V: Drop> Piece<K, V> {
    /// Puts an entry in its place, where there is room.
    pub fn insert(&mut self, at: usize, key: K, value: V)
        requires in_range { at ≤ length self.old.entries }
        requires room { length self.old.entries < self.old.capacity }
        ensures { self.new.entries ≡ list_insert self.old.entries at (key, value) }
    {
        let capacity = self.entries.capacity();
        // The first comparison always holds. It tells the compiler that the place behind this one does not wrap
        // around, and then the entries behind it move at once.
        if at < usize::MAX {
            let _ = self.entries.insert(at, (key, value));
        } else if capacity > at {
            self.entries.push_reserved((key, value));
        }
    }

    /// Takes the entry at a place out.
    pub fn remove(&mut self, at: usize) -> (K, V)
        requires { at < length self.old.entries }
        ensures entry { result ≡ slice_index_or self.old.entries at result }
        ensures entries { self.new.entries ≡ list_remove self.old.entries at }
    {
        self.entries.remove(at)
    }
}

// Where a key stands, or where it would go.
fn search<K: Ord, V>(entries: &[(K, V)], key: &K) -> Result<usize, usize>
    requires { is_sorted K.cmp entries.now ≡ true }
    ensures bound { IsSearchInRange result (length entries.now) }
    ensures there { IfOk result (TiesAt K.cmp key.now entries.now) }
    ensures absent { IfErr result (Gap K.cmp key.now entries.now) }
{
    entries.binary_search_by(|entry| entry.0.cmp(key))
}

impl<K: Ord, V> Piece<K, V> {
    /// How the first key compares with a key: as if it were greater, where there is none.
    pub fn compare_first(&self, key: &K) -> Ordering
        ensures { result ≡ first_order K.cmp key.now self.now.entries }
    {
        match self.entries.first() {
            Some(entry) => entry.0.cmp(key),
            None => Ordering::Greater,
        }
    }

    /// Where a key stands, or where it would go.
    pub fn place_of(&self, key: &K) -> Result<usize, usize>
        requires { is_sorted K.cmp self.now.entries ≡ true }
        ensures bound { IsSearchInRange result (length self.now.entries) }
        ensures there { IfOk result (TiesAt K.cmp key.now self.now.entries) }
        ensures absent { IfErr result (Gap K.cmp key.now self.now.entries) }
    {
        search(self.entries.as_slice(), key)
    }
}
