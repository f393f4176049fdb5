//! A map as a vector in the order of its keys.
//!
//! Its functions are those of a finite map (`map_of`): `get`, `insert`, `remove`, `replace`, and a value that is
//! lent for writing. `reserve` is refused only where there is no room, and `insert` needs room only for a new key
//! (`HasRoom`).

ghost use Rattle.std.specs.Prelude.{◌≡◌, ◌<◌, ◌≤◌, true, vec_len, vec_capacity, nat_lt};
ghost use Rattle.std.specs.Prelude.{IfOk, OnOk, OnErr, IsSome, None, Some, Ok, Err, is_ok, is_some};
ghost use Rattle.std.specs.List.{insert as list_insert};
ghost use Rattle.std.specs.Option.{option_copied, option_copied_mut};
ghost use Rattle.std.specs.Borrow.{sem};
ghost use Rattle.std.specs.FinMap as map;
ghost use Rattle.std.specs.FinMap.{is_sorted, IsAntisymmetric};
ghost use Rattle.finite_map.specs.Places.{place_in};
ghost use Rattle.finite_map.specs.Sorted.{map_of, HasRoom};

use std::alloc::{AllocError, Global};
use std::marker::Model;
use std::mem;

/// Where a key stands among the entries, or where it would go.
pub type Place = Result<usize, usize>;

/// The entries in the order of their keys, each key once. A method whose name ends with `_at` takes the place that
/// `place_of` found, and searches no more.
#[derive(Drop)]
pub struct SortedVec<K: Ord + Copy, V> {
    entries: Vec<(K, V)>,
}

impl<K: Ord + Copy, V> Model for SortedVec<K, V> {
    ghost use Rattle.std.specs.Prelude.{◌≡◌, true, vec_capacity};
    ghost use Rattle.std.specs.FinMap.{is_sorted};
    ghost use Rattle.finite_map.specs.Sorted.{Sorted, sorted_code};

    ghost Value = { Sorted K V };

    ghost coded = { sorted_code K.code V.code };

    ghost view = { λ s. record { entries = s.entries.items; capacity = vec_capacity s.entries } };

    ghost invariant = { λ s. is_sorted K.cmp s.entries.items ≡ true };
}

// Where the key stands, or where it would go.
fn search<K: Ord + Copy, V>(entries: &[(K, V)], key: &K) -> Result<usize, usize>
    requires { is_sorted K.cmp entries.now ≡ true }
    ensures { result ≡ place_in (map.from_sorted {R = K.cmp} entries.now) key.now }
{
    entries.binary_search_by(|entry| entry.0.cmp(key))
}

// Puts an item in its place, where there is room.
fn insert_reserved<T: Drop>(items: &mut Vec<T>, at: usize, item: T)
    requires in_range { at ≤ vec_len items.old }
    requires room { vec_len items.old < vec_capacity items.old }
    ensures items { items.new.items ≡ list_insert items.old.items at item }
    ensures capacity { vec_capacity items.new ≡ vec_capacity items.old }
{
    let capacity = items.capacity();
    // The first comparison always holds. It tells the compiler that the place behind this one does not wrap
    // around, and then the entries behind it move at once.
    if at < usize::MAX {
        let _ = items.insert(at, item);
    } else if capacity > at {
        items.push_reserved(item);
    }
}

impl<K: Ord + Copy, V> SortedVec<K, V> {
    ghost use Rattle.finite_map.specs.SortedLends.{lends_value, lends_get};

    /// No entries, and no memory.
    pub fn new(alloc: Global) -> Self
        ensures { map_of K.cmp result ≡ map.empty }
    {
        SortedVec {
            entries: Vec::new(alloc),
        }
    }

    /// What its memory comes from.
    pub fn allocator(&self) -> Global {
        *self.entries.allocator()
    }

    /// How many entries there are.
    pub fn len(&self) -> usize
        ensures { result ≡ map.len (map_of K.cmp self.now) }
    {
        self.entries.len()
    }

    /// One more fits with no allocation.
    pub fn has_room(&self) -> bool
        ensures { result ≡ nat_lt (map.len (map_of K.cmp self.now)) self.now.capacity }
    {
        self.len() < self.entries.capacity()
    }

    /// The keys and values, by rising key.
    pub fn entries(&self) -> &[(K, V)]
        ensures { result.now ≡ map.entries (map_of K.cmp self.now) }
    {
        self.entries.as_slice()
    }

    /// Where the key stands, or where it would go, by one binary search.
    #[tactic(auto, using(crate::proofs::Ranks::place_there))]
    pub fn place_of(&self, key: &K) -> Place
        ensures place { result ≡ place_in (map_of K.cmp self.now) key.now }
        ensures there { is_ok result ≡ is_some (map.get (map_of K.cmp self.now) key.now) }
    {
        search(self.entries.as_slice(), key)
    }

    /// The value of a key at its place.
    pub fn get_at(&self, key: &K, place: Place) -> Option<&V>
        requires { place ≡ place_in (map_of K.cmp self.now) key.now }
        ensures { option_copied result ≡ map.get (map_of K.cmp self.now) key.now }
    {
        match place {
            Ok(at) => Some(&self.entries[at].1),
            Err(_) => None,
        }
    }

    /// The value of a key.
    pub fn get(&self, key: &K) -> Option<&V>
        ensures { option_copied result ≡ map.get (map_of K.cmp self.now) key.now }
    {
        self.get_at(key, self.place_of(key))
    }

    // The value at a place, which is that of the key.
    fn value_mut(&mut self, key: &K, at: usize) -> &mut V
        requires { place_in (map_of K.cmp self.old) key.now ≡ Ok at }
        ensures* writes_back { sem 𝓛 (lends_value K.row V.row K.Ord self.entry key.now result) }
        ensures value { map.get (map_of K.cmp self.old) key.now ≡ Some result.now }
    {
        &mut self.entries[at].1
    }

    /// The value of a key at its place, for writing.
    pub fn get_mut_at(&mut self, key: &K, place: Place) -> Option<&mut V>
        requires { place ≡ place_in (map_of K.cmp self.old) key.now }
        ensures* writes_back { sem 𝓛 (lends_get K.row V.row K.Ord self.entry key.now result) }
        ensures value { option_copied_mut result ≡ map.get (map_of K.cmp self.old) key.now }
    {
        match place {
            Ok(at) => Some(self.value_mut(key, at)),
            Err(_) => None,
        }
    }

    /// The value of a key, for writing.
    pub fn get_mut(&mut self, key: &K) -> Option<&mut V>
        ensures* writes_back { sem 𝓛 (lends_get K.row V.row K.Ord self.entry key.now result) }
        ensures value { option_copied_mut result ≡ map.get (map_of K.cmp self.old) key.now }
    {
        let place = self.place_of(key);
        self.get_mut_at(key, place)
    }

    /// Asks for room for one more. It is refused only where there is none.
    pub fn reserve(&mut self) -> Result<(), AllocError>
        ensures same { map_of K.cmp self.new ≡ map_of K.cmp self.old }
        ensures room { OnOk result (HasRoom K.cmp self.new) }
        ensures full { OnErr result (self.old.capacity ≤ map.len (map_of K.cmp self.old)) }
        ensures capacity { self.old.capacity ≤ self.new.capacity }
    {
        self.entries.reserve(1)
    }

    /// Asks for what an `insert_at` of the key needs: room for one more where the key is absent, and else nothing.
    pub fn reserve_at(&mut self, key: &K, place: Place) -> Result<(), AllocError>
        requires { place ≡ place_in (map_of K.cmp self.old) key.now }
        ensures same { map_of K.cmp self.new ≡ map_of K.cmp self.old }
        ensures room { OnOk result (map.get (map_of K.cmp self.new) key.now ≡ None → HasRoom K.cmp self.new) }
        ensures absent { OnErr result (map.get (map_of K.cmp self.old) key.now ≡ None) }
        ensures full { OnErr result (self.old.capacity ≤ map.len (map_of K.cmp self.old)) }
    {
        match place {
            Ok(_) => Ok(()),
            Err(_) => self.reserve(),
        }
    }
}

impl<K: Ord + Copy, V: Drop> SortedVec<K, V> {
    /// One entry.
    #[tactic(auto, using(crate::proofs::Ranks::place_empty))]
    pub fn with_entry(alloc: Global, key: K, value: V) -> Result<Self, AllocError>
        ensures { IfOk result (λ one. map_of K.cmp one ≡ map.insert map.empty key value) }
    {
        let mut one = SortedVec::new(alloc);
        one.reserve()?;
        one.insert_at(key, Err(0), value);
        Ok(one)
    }

    /// Sets the value of a key at its place. A key that is there needs no room.
    pub fn insert_at(&mut self, key: K, place: Place, value: V)
        requires place { place ≡ place_in (map_of K.cmp self.old) key }
        requires room { map.get (map_of K.cmp self.old) key ≡ None → HasRoom K.cmp self.old }
        ensures effect { map_of K.cmp self.new ≡ map.insert (map_of K.cmp self.old) key value }
        ensures capacity { self.new.capacity ≡ self.old.capacity }
    {
        match place {
            Ok(at) => self.entries[at].1 = value,
            Err(at) => insert_reserved(&mut self.entries, at, (key, value)),
        }
    }

    /// Sets the value of a key. A key that is there needs no room.
    pub fn insert(&mut self, key: K, value: V)
        requires { map.get (map_of K.cmp self.old) key ≡ None → HasRoom K.cmp self.old }
        ensures effect { map_of K.cmp self.new ≡ map.insert (map_of K.cmp self.old) key value }
        ensures capacity { self.new.capacity ≡ self.old.capacity }
    {
        let place = self.place_of(&key);
        self.insert_at(key, place, value);
    }

    /// Sets the value of a key that is there, and gives the one that it had. A key that is absent stays so.
    #[tactic(auto, using(crate::proofs::Maps::map_of_written))]
    pub fn replace(&mut self, key: &K, value: V) -> Option<V>
        ensures effect { IsSome result → map_of K.cmp self.new ≡ map.insert (map_of K.cmp self.old) key.now value }
        ensures absent { result ≡ None → self.new ≡ self.old }
        ensures value { result ≡ map.get (map_of K.cmp self.old) key.now }
        ensures capacity { self.new.capacity ≡ self.old.capacity }
    {
        match self.get_mut(key) {
            Some(held) => Some(mem::replace(held, value)),
            None => None,
        }
    }

    /// Takes the key at a place out, and gives its value.
    pub fn remove_at(&mut self, key: &K, place: Place) -> Option<V>
        requires { place ≡ place_in (map_of K.cmp self.old) key.now }
        ensures effect { IsAntisymmetric K.cmp
            → map_of K.cmp self.new ≡ map.remove (map_of K.cmp self.old) key.now }
        ensures value { result ≡ map.get (map_of K.cmp self.old) key.now }
        ensures capacity { self.new.capacity ≡ self.old.capacity }

        // Its place is free for one more.
        ensures room { IsSome result → HasRoom K.cmp self.new }
    {
        match place {
            Ok(at) => Some(self.entries.remove(at).1),
            Err(_) => None,
        }
    }

    /// Takes a key out, and gives its value.
    pub fn remove(&mut self, key: &K) -> Option<V>
        ensures effect { IsAntisymmetric K.cmp
            → map_of K.cmp self.new ≡ map.remove (map_of K.cmp self.old) key.now }
        ensures value { result ≡ map.get (map_of K.cmp self.old) key.now }
        ensures capacity { self.new.capacity ≡ self.old.capacity }

        // Its place is free for one more.
        ensures room { IsSome result → HasRoom K.cmp self.new }
    {
        let place = self.place_of(key);
        self.remove_at(key, place)
    }

    /// Takes all out.
    #[tactic(auto, using(crate::proofs::Maps::from_nil))]
    pub fn clear(&mut self)
        ensures effect { map_of K.cmp self.new ≡ map.empty }
        ensures capacity { self.new.capacity ≡ self.old.capacity }
    {
        self.entries.clear();
    }
}
