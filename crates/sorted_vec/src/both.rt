//! A walk over two maps side by side.

ghost use Rattle.std.specs.Prelude.{◌≡◌};
ghost use Rattle.std.specs.FinMap as map;
ghost use Rattle.std.specs.FinMap.{FinMap, IsAntisymmetric};
ghost use Rattle.std.specs.Iterator.{at_most};
ghost use Rattle.std.specs.Map.Iter.{TakesFirst, ShowsInOrder};
ghost use Rattle.std.specs.Prelude.{length};
ghost use Rattle.sorted_vec.specs.Both.{both, shown, IsBoth};

use crate::walk::Walk;
use std::cmp::Ordering;
use std::marker::Model;

/// The keys of two maps, by rising key, each with what both have at it.
#[derive(Drop)]
pub struct Both<'a, K: Ord, V, W> {
    one: Option<&'a (K, V)>,
    ones: Walk<'a, K, V>,
    other: Option<&'a (K, W)>,
    others: Walk<'a, K, W>,
}

impl<'a, K: Ord, V, W> Model for Both<'a, K, V, W> {
    ghost use Rattle.std.specs.Prelude.{◌≡◌, List, [], Option, None};
    ghost use Rattle.std.specs.Option.{option_copied};
    ghost use Rattle.std.specs.Coded.{coded_list, coded×, coded_option};
    ghost use Rattle.sorted_vec.specs.Both.{ahead, both};

    ghost Value = { List (K × (Option V × Option W)) };

    ghost coded = { coded_list (coded× K.code (coded× (coded_option V.code) (coded_option W.code))) };

    ghost view = { λ b. both K.cmp (ahead (option_copied b.one) b.ones) (ahead (option_copied b.other) b.others) };

    ghost invariant = { λ b. (b.one ≡ None → b.ones ≡ []) × (b.other ≡ None → b.others ≡ []) };
}

impl<'a, K: Ord, V, W> Both<'a, K, V, W> {
    /// Both walks, side by side.
    pub fn new(ones: Walk<'a, K, V>, others: Walk<'a, K, W>) -> Self
        ensures rest { result ≡ both K.cmp ones.entry others.entry }
        ensures runs { ShowsInOrder (shown {K = K} {V = V} {W = W}) }
    {
        let mut ones = ones;
        let mut others = others;
        Both {
            one: ones.next(),
            ones,
            other: others.next(),
            others,
        }
    }
}

impl<'a, K: Ord, V, W> Iterator for Both<'a, K, V, W> {
    type Item = (&'a K, Option<&'a V>, Option<&'a W>);

    ghost next_gives = { TakesFirst shown };

    ghost remaining = { λ s. at_most (length s) };

    fn next(&mut self) -> Option<(&'a K, Option<&'a V>, Option<&'a W>)> {
        let Some(one) = self.one else {
            let Some(other) = self.other else {
                return None;
            };
            self.other = self.others.next();
            return Some((&other.0, None, Some(&other.1)));
        };
        let Some(other) = self.other else {
            self.one = self.ones.next();
            return Some((&one.0, Some(&one.1), None));
        };
        match one.0.cmp(&other.0) {
            Ordering::Less => {
                self.one = self.ones.next();
                Some((&one.0, Some(&one.1), None))
            }
            Ordering::Equal => {
                self.one = self.ones.next();
                self.other = self.others.next();
                Some((&one.0, Some(&one.1), Some(&other.1)))
            }
            Ordering::Greater => {
                self.other = self.others.next();
                Some((&other.0, None, Some(&other.1)))
            }
        }
    }
}

/// Both walks over two maps come to each key of either once, by rising key, with what both have at it.
pub fn both_of<K: Ord, V, W>()
    ensures { IsAntisymmetric K.cmp → (m : FinMap K.cmp V) (n : FinMap K.cmp W)
        → IsBoth K.cmp m n (both K.cmp (map.entries m) (map.entries n)) }
{}
