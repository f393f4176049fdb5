//! A finite map, whatever it is kept in.
//!
//! The functions of the trait `FiniteMap` are those of a finite map in its keys' order. The impls keep them: that for
//! `SortedVec`, and that for `ChunkedMap`, where many entries are to be kept. A place that was found is handed on: what
//! tests a key and then changes it searches once. `reserve_at` is refused memory only for a new key; `insert_at` and
//! `remove_at` take none. A walk comes to each entry once, by rising key.
#![tactic(auto)]

ghost use Rattle.std.specs.Prelude.{◌≡◌, IfOk, OnErr, OnSome, None, List};
ghost use Rattle.std.specs.FinMap as map;
ghost use Rattle.std.specs.FinMap.{IsAntisymmetric};
ghost use Rattle.std.specs.Option.{option_copied, option_copied_mut};
ghost use Rattle.std.specs.Borrow.{sem, LendsSo};
ghost use Rattle.std.specs.declared.cmp.Ordering.{Ordering};
ghost use Rattle.finite_map.specs.Maps.{GoesOn};

use std::alloc::{AllocError, Global};

mod chunk;
pub mod chunks;
pub mod sorted;
pub mod vector;

/// A map from keys to values, seen as the finite map that it holds. A method whose name ends with `_at` takes the
/// place that `place_of` found, and searches no more.
pub trait FiniteMap<K: Ord + Copy + Drop, V: Drop>: Sized {
    /// What a search found, that a second one need not find again.
    type Place: Copy;

    /// Where a walk over the entries is.
    type Cursor: Copy;

    /// The finite map that it is, in the keys' order R.
    ghost seen: { (R : K → K → Ordering) → Self → map.FinMap R V };

    /// It is the place of the key.
    ghost stands_at: { (K → K → Ordering) → Self → K → Self.Place → Type 0 };

    /// A new key needs no memory there.
    ghost has_room: { (K → K → Ordering) → Self → Self.Place → Type 0 };

    /// The entries to which a walk still comes.
    ghost rest: { (K → K → Ordering) → Self → Self.Cursor → List (K × V) };

    /// No entries, and no memory.
    fn new(alloc: Global) -> Self
        ensures { seen K.cmp result ≡ map.empty };

    /// How many entries there are.
    fn len(&self) -> usize
        ensures { result ≡ map.len (seen K.cmp self.now) };

    /// Where the key stands, or would stand.
    fn place_of(&self, key: &K) -> Self::Place
        ensures { stands_at K.cmp self.now key.now result };

    /// The value of a key at its place.
    fn get_at(&self, key: &K, place: Self::Place) -> Option<&V>
        requires { stands_at K.cmp self.now key.now place }
        ensures { option_copied result ≡ map.get (seen K.cmp self.now) key.now };

    /// The value of a key at its place, for writing.
    fn get_mut_at(&mut self, key: &K, place: Self::Place) -> Option<&mut V>
        requires { stands_at K.cmp self.old key.now place }
        ensures* writes_back { sem 𝓛 (LendsSo Self.row V.row self.entry result
            (λ m v. OnSome result (seen K.cmp m ≡ map.insert (seen K.cmp self.old) key.now v))
            (λ m. seen K.cmp m ≡ seen K.cmp self.old)) }
        ensures value { option_copied_mut result ≡ map.get (seen K.cmp self.old) key.now };

    /// Asks for what an `insert_at` of the key needs, and gives its place then. The entries stay as they are. It is
    /// refused only where the key is absent.
    fn reserve_at(&mut self, key: &K, place: Self::Place) -> Result<Self::Place, AllocError>
        requires { stands_at K.cmp self.old key.now place }
        ensures same { seen K.cmp self.new ≡ seen K.cmp self.old }
        ensures place { IfOk result (stands_at K.cmp self.new key.now) }
        ensures room { IfOk result (λ at. map.get (seen K.cmp self.new) key.now ≡ None → has_room K.cmp self.new at) }
        ensures absent { OnErr result (map.get (seen K.cmp self.old) key.now ≡ None) };

    /// Sets the value of a key at its place. A key that is there needs no room. Takes no memory.
    fn insert_at(&mut self, key: K, place: Self::Place, value: V)
        requires place { stands_at K.cmp self.old key place }
        requires room { map.get (seen K.cmp self.old) key ≡ None → has_room K.cmp self.old place }
        ensures { seen K.cmp self.new ≡ map.insert (seen K.cmp self.old) key value };

    /// Takes the key at a place out, and gives its value. Takes no memory.
    fn remove_at(&mut self, key: &K, place: Self::Place) -> Option<V>
        requires { stands_at K.cmp self.old key.now place }
        ensures effect { IsAntisymmetric K.cmp
            → seen K.cmp self.new ≡ map.remove (seen K.cmp self.old) key.now }
        ensures value { result ≡ map.get (seen K.cmp self.old) key.now };

    /// Before all entries.
    fn first(&self) -> Self::Cursor
        ensures { rest K.cmp self.now result ≡ map.entries (seen K.cmp self.now) };

    /// The next entry, by rising key, and where the walk is after it. `None` at the end.
    fn next(&self, cursor: Self::Cursor) -> Option<((&K, &V), Self::Cursor)>
        ensures { GoesOn (rest K.cmp self.now) (rest K.cmp self.now cursor) result };
}
