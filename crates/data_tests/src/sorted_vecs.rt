//! Sorted vectors, whole and in pieces of different sizes, beside a plain table. They do the same for 10,000 drawn
//! keys, with the place of another key as a hint.

use crate::support::assert_same;
use sorted_vec::sorted::{Place, SortedVec};
use sorted_vec::walk::Walk;
use std::alloc::{AllocError, Global};

/// How many keys there are. About half of them are there after some thousand draws.
const KEYS: u64 = 600;

/// How many keys are drawn.
const DRAWS: u64 = 10_000;

/// A sorted vector, and what is kept of each key beside it.
#[derive(Drop)]
struct Beside {
    map: SortedVec<u64, u64>,
    plain: Vec<Option<u64>>,
    /// Where the key before stood.
    hint: Place,
}

impl Beside {
    /// Returns a sorted vector without entries beside a table without any.
    fn new(alloc: Global, map: SortedVec<u64, u64>) -> Result<Beside, AllocError> {
        let mut plain = Vec::new(alloc);
        for _ in 0..KEYS {
            plain.push(None)?;
        }
        let hint = map.place_of(&0);
        Ok(Beside { map, plain, hint })
    }

    /// What the table has of a key.
    fn plain(&self, key: u64) -> Option<u64> {
        match self.plain.get(key as usize) {
            Some(value) => *value,
            None => None,
        }
    }

    /// Sets what the table has of a key, and gives what it had.
    fn set_plain(&mut self, key: u64, value: Option<u64>) -> Option<u64> {
        match self.plain.get_mut(key as usize) {
            Some(held) => {
                let before = *held;
                *held = value;
                before
            }
            None => None,
        }
    }

    /// Inserts a key after room was asked for, at the place that was given then or by the hint of another key.
    fn insert(&mut self, key: u64, value: u64) -> Result<bool, AllocError> {
        let was_there = self.set_plain(key, Some(value)).is_some();
        let told = self.map.get_at(&key, self.hint).is_some();
        let place = self.map.reserve_at(&key, self.hint)?;
        if value % 2 == 0 {
            let hint = self.hint;
            self.map.insert_at(key, hint, value);
        } else {
            self.map.put_at(key, place, value);
        }
        Ok(told == was_there)
    }

    /// Removes a key.
    fn remove(&mut self, key: u64) -> bool {
        let before = self.set_plain(key, None);
        let hint = self.hint;
        self.map.remove_at(&key, hint) == before
    }

    /// Writes through a reference to the value of a key.
    fn write(&mut self, key: u64, value: u64) -> bool {
        let before = self.plain(key);
        let hint = self.hint;
        match self.map.get_mut_at(&key, hint) {
            Some(held) => {
                let told = Some(*held);
                *held = value;
                let _ = self.set_plain(key, Some(value));
                told == before
            }
            None => before.is_none(),
        }
    }

    /// Does what a draw says with its key. Returns whether both answered the same.
    fn carry_out(&mut self, draw: u64) -> Result<bool, AllocError> {
        let key = draw % KEYS;
        let same = match (draw / KEYS) % 8 {
            0 | 1 | 2 => self.insert(key, draw)?,
            3 | 4 => self.remove(key),
            5 => self.write(key, draw),
            _ => self.map.get(&key).copied() == self.plain(key),
        };
        self.hint = self.map.place_of(&key);
        Ok(same && self.hint.is_there() == self.plain(key).is_some())
    }

    /// Returns whether a walk's next entry is this one.
    fn comes_to(walk: &mut Walk<'_, u64, u64>, key: u64, value: u64) -> bool {
        match walk.next() {
            Some((found, told)) => *found == key && *told == value,
            None => false,
        }
    }

    /// Returns whether a walk from a key on comes to all that the table has from there on, and to nothing else.
    fn is_walked_from(&self, key: u64) -> bool {
        let mut walk = self.map.walk_from(&key);
        for number in key..KEYS {
            if let Some(value) = self.plain(number) {
                if !Beside::comes_to(&mut walk, number, value) {
                    return false;
                }
            }
        }
        walk.next().is_none()
    }
}

/// Carries the draws out, and returns the number of those whose answers differ.
fn differing(alloc: Global, map: SortedVec<u64, u64>) -> Result<u64, AllocError> {
    let mut both = Beside::new(alloc, map)?;
    let mut draw = 1u64;
    let mut differing = 0u64;
    for number in 0..DRAWS {
        draw = draw
            .wrapping_mul(6_364_136_223_846_793_005)
            .wrapping_add(1_442_695_040_888_963_407);
        let same = both.carry_out(draw >> 20)?;
        let walked = number % 500 != 0
            || (both.is_walked_from(0) && both.is_walked_from(draw % KEYS));
        if !same || !walked {
            differing = differing.saturating_add(1);
        }
    }
    Ok(differing)
}

#[test]
fn pieces_are_one_vector(rt: HostRuntime) {
    let alloc = rt.alloc();
    let answers = [
        differing(alloc, SortedVec::new(alloc)),
        differing(alloc, SortedVec::in_pieces(alloc, 2)),
        differing(alloc, SortedVec::in_pieces(alloc, 3)),
        differing(alloc, SortedVec::in_pieces(alloc, 64)),
    ];
    assert_same(&rt, answers == [Ok(0), Ok(0), Ok(0), Ok(0)], true);
}
