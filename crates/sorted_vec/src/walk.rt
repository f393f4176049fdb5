//! A walk over the entries of a map, by rising key.

ghost use Rattle.std.specs.Prelude.{◌≡◌, ◌<◌, ◌++◌, length};
ghost use Rattle.std.specs.Iterator.{at_most};
ghost use Rattle.std.specs.List.{All};
ghost use Rattle.std.specs.Map.Iter.{TakesFirst, deref};
ghost use Rattle.finite_map.specs.Chunks.{flat};

use crate::piece::Piece;
use std::marker::Model;

/// The entries from one on, by rising key.
#[derive(Drop)]
pub struct Walk<'a, K, V> {
    entries: &'a [(K, V)],
    others: &'a [Piece<K, V>],
}

impl<'a, K, V> Model for Walk<'a, K, V> {
    ghost use Rattle.std.specs.Prelude.{List, ◌++◌, ◌<◌, length};
    ghost use Rattle.std.specs.List.{All};
    ghost use Rattle.std.specs.Coded.{coded_list, coded×};
    ghost use Rattle.finite_map.specs.Chunks.{flat};

    ghost Value = { List (K × V) };

    ghost coded = { coded_list (coded× K.code V.code) };

    ghost view = { λ w. w.entries.now ++ flat w.others.now };

    ghost invariant = { λ w. All (λ c. 0 < length c.entries) w.others.now };
}

impl<'a, K, V> Walk<'a, K, V> {
    /// The entries of a slice, and then those of pieces of which none is empty.
    pub(crate) fn over(entries: &'a [(K, V)], others: &'a [Piece<K, V>]) -> Self
        requires { All (λ c. 0 < length c.entries) others.now }
        ensures { result ≡ entries.now ++ flat others.now }
    {
        Walk { entries, others }
    }
}

impl<'a, K, V> Iterator for Walk<'a, K, V> {
    type Item = &'a (K, V);

    ghost next_gives = { TakesFirst deref };

    ghost remaining = { λ s. at_most (length s) };

    fn next(&mut self) -> Option<&'a (K, V)> {
        let entries = self.entries;
        if !entries.is_empty() {
            self.entries = &entries[1..];
            return Some(&entries[0]);
        }
        let others = self.others;
        if others.is_empty() {
            return None;
        }
        let entries = others[0].entries();
        self.entries = &entries[1..];
        self.others = &others[1..];
        Some(&entries[0])
    }
}
