//! The pieces of a map, one after another.

ghost use Rattle.std.specs.Prelude.{◌≡◌, ◌<◌, ◌≤◌, ◌+◌, ◌∷◌, [], ℕ, length, drop, take, nat_lt, vec_len, vec_capacity};
ghost use Rattle.std.specs.Prelude.{IfOk, OnOk, OnErr, IfErr, slice_index_or};
ghost use Rattle.std.specs.List.{insert as list_insert, remove as list_remove};
ghost use Rattle.std.specs.Borrow.{sem};
ghost use Rattle.finite_map.specs.Chunks.{chunk_at, flat, with_value_at};
ghost use Rattle.sorted_vec.specs.Pieces.{OnlyAt, IsPartedAt};

use crate::piece::Piece;
use std::alloc::{AllocError, Global};
use std::marker::Model;

/// Pieces, of which there is at least one. The first stands here, so one piece alone needs no list.
#[derive(Drop)]
pub struct Pieces<K, V> {
    first: Piece<K, V>,
    others: Vec<Piece<K, V>>,
}

impl<K, V> Model for Pieces<K, V> {
    ghost use Rattle.std.specs.Prelude.{List, ◌∷◌};
    ghost use Rattle.std.specs.Coded.{coded_list};
    ghost use Rattle.finite_map.specs.Sorted.{Sorted, sorted_code};

    ghost Value = { List (Sorted K V) };

    ghost coded = { coded_list (sorted_code K.code V.code) };

    ghost view = { λ p. p.first ∷ p.others.items };
}

// Puts an item in its place, where there is room.
fn insert_reserved<T: Drop>(items: &mut Vec<T>, at: usize, item: T)
    requires in_range { at ≤ vec_len items.old }
    requires room { vec_len items.old < vec_capacity items.old }
    ensures { items.new.items ≡ list_insert items.old.items at item }
{
    let _ = items.insert(at, item);
}

// Takes the entries of a piece from a place on out, into a piece of their own.
fn split_off<K, V>(
    first: &mut Piece<K, V>,
    others: &mut Vec<Piece<K, V>>,
    i: usize,
    at: usize,
) -> Result<Piece<K, V>, AllocError>
    requires in_range { i ≤ vec_len others.old }
    requires within { at ≤ length (chunk_at (first.old ∷ others.old.items) i).entries }
    ensures only { OnlyAt (first.old ∷ others.old.items) i (first.new ∷ others.new.items) }
    ensures lower { OnOk result ((chunk_at (first.new ∷ others.new.items) i).entries
        ≡ take at (chunk_at (first.old ∷ others.old.items) i).entries) }
    ensures upper { IfOk result (λ upper. upper.entries
        ≡ drop at (chunk_at (first.old ∷ others.old.items) i).entries) }
    ensures same { IfErr result (λ _. (first.new ≡ first.old) × (others.new.items ≡ others.old.items)) }
    ensures capacity { vec_capacity others.new ≡ vec_capacity others.old }
{
    if i == 0 {
        return first.split_off(at);
    }
    others[i - 1].split_off(at)
}

impl<K, V> Pieces<K, V> {
    ghost use Rattle.sorted_vec.specs.Lends.{lends_in};

    /// One piece with no entries, and no memory.
    pub fn new(alloc: Global) -> Self
        ensures none { flat result ≡ [] }
        ensures one { length result ≡ 1 }
    {
        Pieces {
            first: Piece::new(alloc),
            others: Vec::new(alloc),
        }
    }

    /// What the first piece's memory comes from.
    pub fn allocator(&self) -> Global {
        self.first.allocator()
    }

    /// The pieces behind the first.
    pub fn others(&self) -> &[Piece<K, V>]
        ensures { result.now ≡ drop 1 self.now }
    {
        self.others.as_slice()
    }

    /// There are more pieces than this.
    pub fn has(&self, i: usize) -> bool
        ensures { result ≡ nat_lt i (length self.now) }
    {
        i <= self.others.len()
    }

    /// The place of the piece behind this one, or behind the last.
    pub fn behind(&self, i: usize) -> usize
        requires { i < length self.now }
        ensures { result ≡ i + 1 }
    {
        let count = self.others.len();
        if i < count { i + 1 } else { count + 1 }
    }

    /// A piece.
    pub fn piece(&self, i: usize) -> &Piece<K, V>
        requires { i < length self.now }
        ensures { result.now ≡ chunk_at self.now i }
    {
        if i == 0 {
            return &self.first;
        }
        &self.others[i - 1]
    }

    /// The value at a place of a piece, for writing.
    pub fn value_mut(&mut self, i: usize, at: usize) -> &mut V
        requires { at < length (chunk_at self.old i).entries }
        ensures* writes_back { sem 𝓛 (lends_in K.row V.row self.entry i at result) }
        ensures value { (e : K × V) → result.now ≡ (slice_index_or (chunk_at self.old i).entries at e).1 }
    {
        if i == 0 {
            return self.first.value_mut(at);
        }
        self.others[i - 1].value_mut(at)
    }

    /// Asks for room for one more entry in a piece. `AllocError` comes only if there is none.
    pub fn reserve(&mut self, i: usize) -> Result<(), AllocError>
        requires { i < length self.old }
        ensures only { OnlyAt self.old i self.new }
        ensures same { (chunk_at self.new i).entries ≡ (chunk_at self.old i).entries }
        ensures room { OnOk result (length (chunk_at self.new i).entries < (chunk_at self.new i).capacity) }
        ensures full { OnErr result ((chunk_at self.old i).capacity ≤ length (chunk_at self.old i).entries) }
    {
        if i == 0 {
            return self.first.reserve();
        }
        self.others[i - 1].reserve()
    }
}

impl<K: Drop, V: Drop> Pieces<K, V> {
    /// Parts a piece in two before an entry. If there is no memory, nothing changes.
    pub fn part(&mut self, i: usize, at: usize) -> Result<(), AllocError>
        requires in_range { i < length self.old }
        requires within { at ≤ length (chunk_at self.old i).entries }
        ensures parted { OnOk result (IsPartedAt self.old i self.new at) }
        ensures same { IfErr result (λ _. self.new ≡ self.old) }
    {
        self.others.reserve(1)?;
        match split_off(&mut self.first, &mut self.others, i, at) {
            Ok(upper) => {
                insert_reserved(&mut self.others, i, upper);
                Ok(())
            }
            Err(error) => Err(error),
        }
    }

    /// Takes all entries out. The first piece keeps its memory.
    pub fn clear(&mut self)
        ensures none { flat self.new ≡ [] }
        ensures one { length self.new ≡ 1 }
    {
        self.first.clear();
        self.others.clear();
    }

    /// Lets one of several pieces go.
    pub fn remove_piece(&mut self, i: usize)
        requires in_range { i < length self.old }
        requires several { 1 < length self.old }
        ensures { self.new ≡ list_remove self.old i }
    {
        if i == 0 {
            self.first = self.others.remove(0);
        } else {
            let _ = self.others.remove(i - 1);
        }
    }
}

impl<K, V: Drop> Pieces<K, V> {
    /// Sets the value at a place of a piece.
    pub fn set_value(&mut self, i: usize, at: usize, value: V)
        requires { at < length (chunk_at self.old i).entries }
        ensures only { OnlyAt self.old i self.new }
        ensures entries { (chunk_at self.new i).entries ≡ with_value_at (chunk_at self.old i).entries at value }
    {
        if i == 0 {
            self.first.set_value(at, value);
        } else {
            self.others[i - 1].set_value(at, value);
        }
    }
}

impl<K: Copy, V: Drop> Pieces<K, V> {
    /// Puts an entry in its place of a piece, where there is room.
    pub fn insert(&mut self, i: usize, at: usize, key: K, value: V)
        requires in_range { at ≤ length (chunk_at self.old i).entries }
        requires room { length (chunk_at self.old i).entries < (chunk_at self.old i).capacity }
        ensures only { OnlyAt self.old i self.new }
        ensures entries { (chunk_at self.new i).entries ≡ list_insert (chunk_at self.old i).entries at (key, value) }
    {
        if i == 0 {
            self.first.insert(at, key, value);
        } else {
            self.others[i - 1].insert(at, key, value);
        }
    }

    /// Takes the entry at a place of a piece out.
    pub fn remove(&mut self, i: usize, at: usize) -> (K, V)
        requires { at < length (chunk_at self.old i).entries }
        ensures only { OnlyAt self.old i self.new }
        ensures entries { (chunk_at self.new i).entries ≡ list_remove (chunk_at self.old i).entries at }
        ensures entry { result ≡ slice_index_or (chunk_at self.old i).entries at result }
    {
        if i == 0 {
            return self.first.remove(at);
        }
        self.others[i - 1].remove(at)
    }
}
