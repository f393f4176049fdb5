//! A map as a vector in the order of its keys, whole or in pieces.

ghost use Rattle.std.specs.Prelude.{◌≡◌, ◌<◌, ◌≤◌, ◌+◌, ℕ, length, slice_index_or};
ghost use Rattle.std.specs.Prelude.{Some, None, Ok, Err, IfOk, IfErr, OnOk, OnErr, IsTrue};
ghost use Rattle.std.specs.Prelude.{is_some};
ghost use Rattle.std.specs.FinMap as map;
ghost use Rattle.std.specs.FinMap.{IsAntisymmetric};
ghost use Rattle.std.specs.Option.{option_copied, option_copied_mut, OnSome};
ghost use Rattle.std.specs.Borrow.{sem, LendsSo};
ghost use Rattle.std.specs.List.{remove as list_remove};
ghost use Rattle.std.specs.Map.Iter.{ShowsInOrder, deref};
ghost use Rattle.finite_map.specs.Chunks.{flat, before, chunk_at, IsIn, IsShaped, IsOpenAt};
ghost use Rattle.sorted_vec.specs.Sorted.{map_of, index_of, is_there, HasRoomFor, IsFrom};
ghost use Rattle.sorted_vec.specs.Sorted.{IsPlace, IsPieceOf, IsBehindOthers, IsBehindLess};

use crate::pieces::Pieces;
use crate::walk::Walk;
use std::alloc::{AllocError, Global};
use std::marker::Model;

/// Where a key stood among the entries, or would have stood: a hint. A method that takes one looks there first, and
/// searches if the key doesn't stand there any more.
#[derive(Clone, Copy, Debug, PartialEq, Eq)]
pub struct Place {
    piece: usize,
    at: Result<usize, usize>,
}

impl Place {
    /// Returns true if the key stood there.
    pub fn is_there(self) -> bool
        ensures { result ≡ is_there self }
    {
        self.at.is_ok()
    }

    // The place in its piece.
    fn index(self) -> usize
        ensures { result ≡ index_of self.at }
    {
        match self.at {
            Ok(at) | Err(at) => at,
        }
    }
}

/// The entries in the order of their keys, each key once, in pieces of at most so many.
#[derive(Drop)]
pub struct SortedVec<K: Ord + Copy + Drop, V> {
    pieces: Pieces<K, V>,
    most: usize,
    count: usize,
}

impl<K: Ord + Copy + Drop, V> Model for SortedVec<K, V> {
    ghost use Rattle.sorted_vec.specs.Sorted.{Stored, stored_code, IsKept};

    ghost Value = { Stored K V };

    ghost coded = { stored_code K.code V.code };

    ghost view = { λ s. record { pieces = s.pieces; most = s.most } };

    ghost invariant = { λ s. IsKept K.cmp s.pieces s.most s.count };
}

// Finds a piece with fewer entries than it may have for one more entry at a gap, and its place there.
fn open_gap<K: Drop, V: Drop>(
    pieces: &mut Pieces<K, V>,
    most: usize,
    piece: usize,
    at: usize,
) -> Result<(usize, usize), AllocError>
    requires parts { 2 ≤ most }
    requires shaped { IsShaped pieces.old most }
    requires there { piece < length pieces.old }
    requires place { IsIn pieces.old piece (Err at) × IsBehindOthers piece (Err at) }
    ensures same { flat pieces.new ≡ flat pieces.old }
    ensures shaped { IsShaped pieces.new most }
    ensures some { length pieces.old ≤ length pieces.new }
    ensures fits { IfOk result (λ p. IsOpenAt pieces.new p.0 p.1 most) }
    ensures full { OnErr result (most ≤ length (chunk_at pieces.old piece).entries) }
    ensures kept { length (chunk_at pieces.old piece).entries < most
        → IfOk result (λ p. (p.0 ≡ piece) × (pieces.new ≡ pieces.old)) }
    ensures place { IfOk result (λ p. (before pieces.new p.0 + p.1 ≡ before pieces.old piece + at)
        × IsBehindOthers p.0 (Err p.1)) }
{
    if pieces.piece(piece).len() < most {
        return Ok((piece, at));
    }
    let half = most / 2;
    pieces.part(piece, half)?;
    if at <= half {
        return Ok((piece, at));
    }
    Ok((pieces.behind(piece), at - half))
}

// Takes an entry out, and its piece where it was the last there and there are others.
fn take_entry<K: Copy + Drop, V: Drop>(pieces: &mut Pieces<K, V>, piece: usize, at: usize) -> V
    requires { at < length (chunk_at pieces.old piece).entries }
    ensures entries { flat pieces.new ≡ list_remove (flat pieces.old) (before pieces.old piece + at) }
    ensures shaped { (most : ℕ) → IsShaped pieces.old most → IsShaped pieces.new most }
    ensures some { 0 < length pieces.new }
    ensures value { (e : K × V) → result ≡ (slice_index_or (chunk_at pieces.old piece).entries at e).1 }
{
    let value = pieces.remove(piece, at).1;
    if pieces.piece(piece).len() == 0 && pieces.has(1) {
        pieces.remove_piece(piece);
    }
    value
}

impl<K: Ord + Copy + Drop, V> SortedVec<K, V> {
    /// No entries, and no memory. They will be in one piece.
    pub fn new(alloc: Global) -> Self
        ensures { map_of K.cmp result ≡ map.empty }
    {
        SortedVec {
            pieces: Pieces::new(alloc),
            most: usize::MAX,
            count: 0,
        }
    }

    /// No entries, and no memory. They will be in pieces of at most so many.
    pub fn in_pieces(alloc: Global, most: usize) -> Self
        requires { 2 ≤ most }
        ensures { map_of K.cmp result ≡ map.empty }
    {
        SortedVec {
            pieces: Pieces::new(alloc),
            most,
            count: 0,
        }
    }

    /// What its memory comes from.
    pub fn allocator(&self) -> Global {
        self.pieces.allocator()
    }

    /// How many entries there are.
    pub fn len(&self) -> usize
        ensures { result ≡ map.len (map_of K.cmp self.now) }
    {
        self.count
    }

    // The piece behind the first whose first key is the key, or the piece for the key.
    fn piece_of(&self, key: &K) -> Result<usize, usize>
        ensures first { IfOk result (λ i. IsPlace K.cmp self.now key.now (i + 1) (Ok 0)
            × (i + 1 < length self.now.pieces)) }
        ensures within { IfErr result (IsPieceOf K.cmp self.now.pieces key.now) }
    {
        self.pieces
            .others()
            .binary_search_by(|piece| piece.compare_first(key))
    }

    // The place of a key, which is in this piece.
    fn place_within(&self, key: &K, piece: usize) -> Place
        requires { IsPieceOf K.cmp self.now.pieces key.now piece }
        ensures { IsPlace K.cmp self.now key.now result.piece result.at }
    {
        Place {
            piece,
            at: self.pieces.piece(piece).place_of(key),
        }
    }

    /// Where the key stands, or where it would go, by halving the pieces and then a piece.
    pub fn place_of(&self, key: &K) -> Place
        ensures place { IsPlace K.cmp self.now key.now result.piece result.at }
        ensures there { is_there result ≡ is_some (map.get (map_of K.cmp self.now) key.now) }
    {
        match self.piece_of(key) {
            Ok(other) => Place {
                piece: self.pieces.behind(other),
                at: Ok(0),
            },
            Err(piece) => self.place_within(key, piece),
        }
    }

    // Whether the key stands at this place of a piece.
    fn stands_at(&self, key: &K, piece: usize, at: usize) -> bool
        ensures { IsTrue result → IsPlace K.cmp self.now key.now piece (Ok at) }
    {
        if !self.pieces.has(piece) {
            return false;
        }
        let entries = self.pieces.piece(piece).entries();
        at < entries.len() && entries[at].0.cmp(key).is_eq()
    }

    // Whether this is a place of a piece behind all lesser keys.
    fn is_behind_less(&self, key: &K, piece: usize, at: usize) -> bool
        ensures { IsTrue result → IsBehindLess K.cmp self.now.pieces key.now piece at }
    {
        if !self.pieces.has(piece) {
            return false;
        }
        if at == 0 {
            return piece == 0;
        }
        let entries = self.pieces.piece(piece).entries();
        at <= entries.len() && entries[at - 1].0.cmp(key).is_lt()
    }

    // Whether only greater keys stand from this place on, which is behind all lesser keys. Then it is the key's.
    fn is_before_greater(&self, key: &K, piece: usize, at: usize) -> bool
        requires { IsBehindLess K.cmp self.now.pieces key.now piece at }
        ensures { IsTrue result → IsPlace K.cmp self.now key.now piece (Err at) }
    {
        let entries = self.pieces.piece(piece).entries();
        if at < entries.len() {
            return entries[at].0.cmp(key).is_gt();
        }
        match self.pieces.others().get(piece) {
            Some(next) => next.compare_first(key).is_gt(),
            None => true,
        }
    }

    // Whether the key would go to this place of a piece.
    fn is_gap(&self, key: &K, piece: usize, at: usize) -> bool
        ensures { IsTrue result → IsPlace K.cmp self.now key.now piece (Err at) }
    {
        self.is_behind_less(key, piece, at) && self.is_before_greater(key, piece, at)
    }

    // Whether this is the key's place.
    fn is_place(&self, key: &K, place: Place) -> bool
        ensures { IsTrue result → IsPlace K.cmp self.now key.now place.piece place.at }
    {
        match place.at {
            Ok(at) => self.stands_at(key, place.piece, at),
            Err(at) => self.is_gap(key, place.piece, at),
        }
    }

    // The place of a key: that of the hint, or what a search finds.
    fn place_by(&self, key: &K, hint: Place) -> Place
        ensures { IsPlace K.cmp self.now key.now result.piece result.at }
    {
        if self.is_place(key, hint) {
            return hint;
        }
        self.place_of(key)
    }

    // The value of a key at its place.
    fn value_at(&self, key: &K, place: Place) -> Option<&V>
        requires { IsPlace K.cmp self.now key.now place.piece place.at }
        ensures { option_copied result ≡ map.get (map_of K.cmp self.now) key.now }
    {
        match place.at {
            Ok(at) => Some(&self.pieces.piece(place.piece).entry(at).1),
            Err(_) => None,
        }
    }

    /// The entries, by rising key.
    pub fn walk(&self) -> Walk<'_, K, V>
        ensures rest { result ≡ map.entries (map_of K.cmp self.now) }
        ensures runs { ShowsInOrder (deref {X = K × V}) }
    {
        Walk::over(self.pieces.piece(0).entries(), self.pieces.others())
    }

    /// The entries whose keys aren't less than a key, by rising key.
    pub fn walk_from(&self, key: &K) -> Walk<'_, K, V>
        ensures rest { IsFrom K.cmp key.now (map_of K.cmp self.now) result }
        ensures runs { ShowsInOrder (deref {X = K × V}) }
    {
        let place = self.place_of(key);
        let entries = self.pieces.piece(place.piece).entries();
        Walk::over(
            &entries[place.index()..],
            &self.pieces.others()[place.piece..],
        )
    }

    /// The value of a key, which may stand at a place.
    pub fn get_at(&self, key: &K, hint: Place) -> Option<&V>
        ensures { option_copied result ≡ map.get (map_of K.cmp self.now) key.now }
    {
        self.value_at(key, self.place_by(key, hint))
    }

    /// The value of a key.
    pub fn get(&self, key: &K) -> Option<&V>
        ensures { option_copied result ≡ map.get (map_of K.cmp self.now) key.now }
    {
        self.value_at(key, self.place_of(key))
    }
}

impl<K: Ord + Copy + Drop, V> SortedVec<K, V> {
    ghost use Rattle.sorted_vec.specs.SortedLends.{lends_get};

    // The value of a key at its place, for writing.
    fn value_mut_at(&mut self, key: &K, place: Place) -> Option<&mut V>
        requires { IsPlace K.cmp self.old key.now place.piece place.at }
        ensures* writes_back { sem 𝓛 (lends_get K.row V.row K.Ord self.entry key.now result) }
        ensures value { option_copied_mut result ≡ map.get (map_of K.cmp self.old) key.now }
    {
        match place.at {
            Ok(at) => Some(self.pieces.value_mut(place.piece, at)),
            Err(_) => None,
        }
    }

    /// The value of a key, which may stand at a place, for writing.
    pub fn get_mut_at(&mut self, key: &K, hint: Place) -> Option<&mut V>
        ensures* writes_back { sem 𝓛 (lends_get K.row V.row K.Ord self.entry key.now result) }
        ensures value { option_copied_mut result ≡ map.get (map_of K.cmp self.old) key.now }
    {
        let place = self.place_by(key, hint);
        self.value_mut_at(key, place)
    }

    /// The value of a key, for writing.
    pub fn get_mut(&mut self, key: &K) -> Option<&mut V>
        ensures* writes_back { sem 𝓛 (lends_get K.row V.row K.Ord self.entry key.now result) }
        ensures value { option_copied_mut result ≡ map.get (map_of K.cmp self.old) key.now }
    {
        let place = self.place_of(key);
        self.value_mut_at(key, place)
    }
}

impl<K: Ord + Copy + Drop, V: Drop> SortedVec<K, V> {
    // Asks for room for a key at a gap, and gives its place then.
    #[tactic(auto, unfolding(crate::specs::Sorted::HasRoomFor))]
    fn reserve_gap(&mut self, key: &K, piece: usize, at: usize) -> Result<Place, AllocError>
        requires { IsPlace K.cmp self.old key.now piece (Err at) }
        ensures same { map_of K.cmp self.new ≡ map_of K.cmp self.old }
        ensures place { IfOk result (λ place. IsPlace K.cmp self.new key.now place.piece place.at) }
        ensures room { OnOk result (HasRoomFor K.cmp self.new key.now) }
        ensures full { OnErr result (HasRoomFor K.cmp self.old key.now → ⊥) }
    {
        if self.count == usize::MAX {
            return Err(AllocError);
        }
        let (piece, at) = open_gap(&mut self.pieces, self.most, piece, at)?;
        self.pieces.reserve(piece)?;
        Ok(Place { piece, at: Err(at) })
    }

    /// Asks for what an insertion of the key needs, and gives its place then. It needs room for one more if it is
    /// absent, and else nothing. `AllocError` comes only if the key is absent and has no room. The entries stay as they
    /// are.
    #[tactic(auto, unfolding(crate::specs::Sorted::HasRoomFor))]
    pub fn reserve_at(&mut self, key: &K, hint: Place) -> Result<Place, AllocError>
        ensures same { map_of K.cmp self.new ≡ map_of K.cmp self.old }
        ensures place { IfOk result (λ place. IsPlace K.cmp self.new key.now place.piece place.at) }
        ensures room { OnOk result (map.get (map_of K.cmp self.new) key.now ≡ None
            → HasRoomFor K.cmp self.new key.now) }
        ensures absent { OnErr result (map.get (map_of K.cmp self.old) key.now ≡ None) }
        ensures full { OnErr result (HasRoomFor K.cmp self.old key.now → ⊥) }
    {
        let place = self.place_by(key, hint);
        match place.at {
            Ok(_) => Ok(place),
            Err(at) => self.reserve_gap(key, place.piece, at),
        }
    }

    /// Sets the value of a key at its place, which `reserve_at` gave. A key that is there needs no room. Takes no
    /// memory.
    pub fn put_at(&mut self, key: K, place: Place, value: V)
        requires place { IsPlace K.cmp self.old key place.piece place.at }
        requires room { map.get (map_of K.cmp self.old) key ≡ None → HasRoomFor K.cmp self.old key }
        ensures { map_of K.cmp self.new ≡ map.insert (map_of K.cmp self.old) key value }
    {
        match place.at {
            Ok(at) => self.pieces.set_value(place.piece, at, value),
            Err(at) => {
                self.pieces.insert(place.piece, at, key, value);
                self.count += 1;
            }
        }
    }

    /// Sets the value of a key, which may stand, or be to stand, at a place. A key that is there needs no room. Takes
    /// no memory.
    pub fn insert_at(&mut self, key: K, hint: Place, value: V)
        requires { map.get (map_of K.cmp self.old) key ≡ None → HasRoomFor K.cmp self.old key }
        ensures { map_of K.cmp self.new ≡ map.insert (map_of K.cmp self.old) key value }
    {
        let place = self.place_by(&key, hint);
        self.put_at(key, place, value);
    }

    // Takes the key at its place out.
    fn take_at(&mut self, key: &K, piece: usize, at: usize) -> V
        requires { IsPlace K.cmp self.old key.now piece (Ok at) }
        ensures effect { IsAntisymmetric K.cmp → map_of K.cmp self.new ≡ map.remove (map_of K.cmp self.old) key.now }
        ensures value { map.get (map_of K.cmp self.old) key.now ≡ Some result }
    {
        self.count -= 1;
        take_entry(&mut self.pieces, piece, at)
    }

    /// Takes a key out, which may stand at a place, and gives its value. Takes no memory.
    pub fn remove_at(&mut self, key: &K, hint: Place) -> Option<V>
        ensures effect { IsAntisymmetric K.cmp → map_of K.cmp self.new ≡ map.remove (map_of K.cmp self.old) key.now }
        ensures value { result ≡ map.get (map_of K.cmp self.old) key.now }
    {
        let place = self.place_by(key, hint);
        match place.at {
            Ok(at) => Some(self.take_at(key, place.piece, at)),
            Err(_) => None,
        }
    }

    /// Takes a key out, and gives its value. Takes no memory.
    pub fn remove(&mut self, key: &K) -> Option<V>
        ensures effect { IsAntisymmetric K.cmp → map_of K.cmp self.new ≡ map.remove (map_of K.cmp self.old) key.now }
        ensures value { result ≡ map.get (map_of K.cmp self.old) key.now }
    {
        let place = self.place_of(key);
        match place.at {
            Ok(at) => Some(self.take_at(key, place.piece, at)),
            Err(_) => None,
        }
    }

    /// One entry, in one piece. `AllocError` if there is no memory for it.
    pub fn with_entry(alloc: Global, key: K, value: V) -> Result<Self, AllocError>
        ensures { IfOk result (λ one. map_of K.cmp one ≡ map.insert map.empty key value) }
    {
        let mut one = SortedVec::new(alloc);
        let place = one.place_of(&key);
        let place = one.reserve_at(&key, place)?;
        one.put_at(key, place, value);
        Ok(one)
    }

    /// Takes all out.
    pub fn clear(&mut self)
        ensures { map_of K.cmp self.new ≡ map.empty }
    {
        self.pieces.clear();
        self.count = 0;
    }
}
