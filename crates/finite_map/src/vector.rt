//! The sorted vector as a finite map. Its place is where the key stands, or would stand.

ghost use Rattle.std.specs.Prelude.{◌≡◌, drop};
ghost use Rattle.std.specs.FinMap as map;
ghost use Rattle.finite_map.specs.Places.{place_in};
ghost use Rattle.finite_map.specs.Sorted.{map_of, HasRoom};

use crate::FiniteMap;
use crate::sorted::{Place, SortedVec};
use std::alloc::{AllocError, Global};

impl<K: Ord + Copy + Drop, V: Drop> FiniteMap<K, V> for SortedVec<K, V> {
    type Place = Place;

    type Cursor = usize;

    ghost seen = { λ R s. map_of R s };

    ghost stands_at = { λ R s k p. p ≡ place_in (map_of R s) k };

    ghost has_room = { λ R s p. HasRoom R s };

    ghost rest = { λ R s c. drop c (map.entries (map_of R s)) };

    fn new(alloc: Global) -> Self {
        SortedVec::new(alloc)
    }

    fn len(&self) -> usize {
        self.len()
    }

    fn place_of(&self, key: &K) -> Place {
        self.place_of(key)
    }

    fn get_at(&self, key: &K, place: Place) -> Option<&V> {
        self.get_at(key, place)
    }

    fn get_mut_at(&mut self, key: &K, place: Place) -> Option<&mut V> {
        self.get_mut_at(key, place)
    }

    fn reserve_at(&mut self, key: &K, place: Place) -> Result<Place, AllocError> {
        match self.reserve_at(key, place) {
            Ok(()) => Ok(place),
            Err(error) => Err(error),
        }
    }

    fn insert_at(&mut self, key: K, place: Place, value: V) {
        self.insert_at(key, place, value);
    }

    fn remove_at(&mut self, key: &K, place: Place) -> Option<V> {
        self.remove_at(key, place)
    }

    fn first(&self) -> usize {
        0
    }

    fn next(&self, cursor: usize) -> Option<((&K, &V), usize)> {
        match self.entries().get(cursor) {
            Some(entry) => Some(((&entry.0, &entry.1), cursor + 1)),
            None => None,
        }
    }
}
