//! A map for many entries, in chunks.
//!
//! A new key moves the entries of one chunk alone, where `SortedVec` moves all that follow. The entries stand in the
//! order of their keys, one chunk after another, so the map is that of all entries in a row.

ghost use Rattle.std.specs.Prelude.{◌≡◌, ◌≤◌, ◌<◌, ◌+◌, ◌-◌, ◌∷◌, length, slice_index_or, vec_len, vec_capacity};
ghost use Rattle.std.specs.Prelude.{IfOk, OnOk, IfErr, IfSome};
ghost use Rattle.std.specs.List.{insert as list_insert, remove as list_remove};
ghost use Rattle.finite_map.specs.Chunks.{flat, chunk_at, before, chunked, IsIn, StandsIn, IsChunkOf};
ghost use Rattle.finite_map.specs.Chunks.{HasRoomIn, IsOpenAt, IsCountable, IsShaped, rest_from};

use crate::FiniteMap;
use crate::chunk::Chunk;
use std::alloc::{AllocError, Global};
use std::marker::Model;

/// The most entries that a chunk has.
pub const CHUNK: usize = 64;

// Where a full chunk is parted.
const HALF: usize = 32;

/// Where a key stands, or would go: the chunk, and the place in it.
#[derive(Clone, Copy)]
pub struct ChunkPlace {
    chunk: usize,
    at: Result<usize, usize>,
}

/// Where a walk is: the chunk, and the place in it of the next entry.
#[derive(Clone, Copy)]
pub struct ChunkCursor {
    chunk: usize,
    at: usize,
}

/// A map for many entries. They stand in the order of their keys in chunks of at most `CHUNK` entries, and none of
/// several chunks is empty. A new key moves entries of one chunk alone; the list of the chunks moves only where a full
/// chunk is parted or an empty one goes.
#[derive(Drop)]
pub struct ChunkedMap<K: Ord + Copy + Drop, V> {
    chunks: Vec<Chunk<K, V>>,
    count: usize,
}

impl<K: Ord + Copy + Drop, V> Model for ChunkedMap<K, V> {
    ghost use Rattle.std.specs.Prelude.{◌≡◌, List, length, true};
    ghost use Rattle.std.specs.Coded.{coded_list};
    ghost use Rattle.std.specs.FinMap.{is_sorted};
    ghost use Rattle.finite_map.specs.Sorted.{Sorted, sorted_code};
    ghost use Rattle.finite_map.specs.Chunks.{flat, IsShaped};

    ghost Value = { List (Sorted K V) };

    ghost coded = { coded_list (sorted_code K.code V.code) };

    ghost view = { λ m. m.chunks.items };

    ghost invariant = { λ m. (is_sorted K.cmp (flat m.chunks.items) ≡ true)
        × IsShaped m.chunks.items 64
        × (m.count ≡ length (flat m.chunks.items)) };
}

// Puts an item behind the one at a place, where there is room.
fn insert_behind<T: Drop>(items: &mut Vec<T>, at: usize, item: T)
    requires in_range { at < vec_len items.old }
    requires room { vec_len items.old < vec_capacity items.old }
    ensures { items.new.items ≡ list_insert items.old.items (at + 1) item }
{
    let _ = items.insert(at + 1, item);
}

// Parts a full chunk in two.
fn part_chunk<K: Drop, V: Drop>(
    chunks: &mut Vec<Chunk<K, V>>,
    chunk: usize,
) -> Result<(), AllocError>
    requires shaped { IsShaped chunks.old.items 64 }
    requires in_range { chunk < length chunks.old.items }
    requires full { length (chunk_at chunks.old.items chunk).entries ≡ 64 }
    ensures same { flat chunks.new.items ≡ flat chunks.old.items }
    ensures shaped { IsShaped chunks.new.items 64 }
    ensures lower { OnOk result (before chunks.new.items chunk ≡ before chunks.old.items chunk) }
    ensures upper { OnOk result (before chunks.new.items (chunk + 1) ≡ before chunks.old.items chunk + 32) }
    ensures fits { OnOk result (IsOpenAt chunks.new.items chunk 32 64 × IsOpenAt chunks.new.items (chunk + 1) 32 64) }
{
    chunks.reserve(1)?;
    match chunks[chunk].split_off(HALF) {
        Ok(upper) => {
            insert_behind(chunks, chunk, upper);
            Ok(())
        }
        Err(error) => Err(error),
    }
}

// Finds a chunk for one more entry at a gap, and its place there.
fn open_gap<K: Drop, V: Drop>(
    chunks: &mut Vec<Chunk<K, V>>,
    chunk: usize,
    at: usize,
) -> Result<(usize, usize), AllocError>
    requires shaped { IsShaped chunks.old.items 64 }
    requires place { IsIn chunks.old.items chunk (Err at) }
    ensures same { flat chunks.new.items ≡ flat chunks.old.items }
    ensures shaped { IsShaped chunks.new.items 64 }
    ensures fits { IfOk result (λ p. IsOpenAt chunks.new.items p.0 p.1 64) }
    ensures place { IfOk result (λ p. before chunks.new.items p.0 + p.1 ≡ before chunks.old.items chunk + at) }
{
    if chunks.is_empty() {
        chunks.reserve(1)?;
        let alloc = *chunks.allocator();
        chunks.push_reserved(Chunk::new(alloc));
        return Ok((0, 0));
    }
    if chunks[chunk].len() < CHUNK {
        return Ok((chunk, at));
    }
    part_chunk(chunks, chunk)?;
    if at <= HALF {
        Ok((chunk, at))
    } else {
        Ok((chunk + 1, at - HALF))
    }
}

// Takes an entry out, and its chunk where nothing is left in it.
fn remove_entry<K: Copy + Drop, V: Drop>(
    chunks: &mut Vec<Chunk<K, V>>,
    chunk: usize,
    at: usize,
) -> V
    requires shaped { IsShaped chunks.old.items 64 }
    requires place { IsIn chunks.old.items chunk (Ok at) }
    ensures entries { flat chunks.new.items
        ≡ list_remove (flat chunks.old.items) (before chunks.old.items chunk + at) }
    ensures shaped { IsShaped chunks.new.items 64 }
    ensures value { (e : K × V) → result
        ≡ (slice_index_or (flat chunks.old.items) (before chunks.old.items chunk + at) e).1 }
{
    let value = chunks[chunk].remove(at).1;
    if chunks[chunk].len() == 0 && chunks.len() > 1 {
        let _ = chunks.remove(chunk);
    }
    value
}

impl<K: Ord + Copy + Drop, V> ChunkedMap<K, V> {
    // The chunk whose first key is the key, or the first chunk behind it.
    fn chunk_of(&self, key: &K) -> Result<usize, usize>
        ensures first { IfOk result (λ i. StandsIn K.cmp self.now key.now i (Ok 0)) }
        ensures behind { IfErr result (λ i. IsChunkOf K.cmp self.now key.now (i - 1)) }
    {
        self.chunks
            .binary_search_by(|chunk| chunk.compare_first(key))
    }

    // The place of a key, which is in this chunk.
    fn place_within(&self, key: &K, chunk: usize) -> ChunkPlace
        requires { IsChunkOf K.cmp self.now key.now chunk }
        ensures { StandsIn K.cmp self.now key.now result.chunk result.at }
    {
        match self.chunks.get(chunk) {
            Some(entries) => ChunkPlace {
                chunk,
                at: entries.place_of(key),
            },
            None => ChunkPlace { chunk, at: Err(0) },
        }
    }

    // The entry at a place of a chunk, and where a walk is after it.
    fn step(&self, chunk: usize, at: usize) -> Option<((&K, &V), ChunkCursor)>
        ensures step { IfSome result (λ went. rest_from K.cmp self.now chunk at
            ≡ (went.0.0.now, went.0.1.now) ∷ rest_from K.cmp self.now went.1.chunk went.1.at) }
        ensures end { result ≡ None → length (chunk_at self.now chunk).entries ≤ at }
    {
        if chunk < self.chunks.len() && at < self.chunks[chunk].len() {
            let entry = self.chunks[chunk].entry(at);
            Some(((&entry.0, &entry.1), ChunkCursor { chunk, at: at + 1 }))
        } else {
            None
        }
    }
}

impl<K: Ord + Copy + Drop, V: Drop> ChunkedMap<K, V> {
    // Asks for room for a key at a gap, and gives its place then.
    fn reserve_gap(&mut self, key: &K, chunk: usize, at: usize) -> Result<ChunkPlace, AllocError>
        requires { StandsIn K.cmp self.old key.now chunk (Err at) }
        ensures same { chunked K.cmp self.new ≡ chunked K.cmp self.old }
        ensures place { IfOk result (λ p. StandsIn K.cmp self.new key.now p.chunk p.at) }
        ensures room { IfOk result (λ p. HasRoomIn self.new p.chunk 64 × IsCountable self.new) }
    {
        if self.count == usize::MAX {
            return Err(AllocError);
        }
        let (chunk, at) = open_gap(&mut self.chunks, chunk, at)?;
        self.chunks[chunk].reserve()?;
        Ok(ChunkPlace { chunk, at: Err(at) })
    }
}

impl<K: Ord + Copy + Drop, V: Drop> FiniteMap<K, V> for ChunkedMap<K, V> {
    type Place = ChunkPlace;

    type Cursor = ChunkCursor;

    ghost seen = { λ R m. chunked R m };

    ghost stands_at = { λ R m k p. StandsIn R m k p.chunk p.at };

    ghost has_room = { λ R m p. HasRoomIn m p.chunk 64 × IsCountable m };

    ghost rest = { λ R m c. rest_from R m c.chunk c.at };

    fn new(alloc: Global) -> Self {
        ChunkedMap {
            chunks: Vec::new(alloc),
            count: 0,
        }
    }

    fn len(&self) -> usize {
        self.count
    }

    fn place_of(&self, key: &K) -> ChunkPlace {
        match self.chunk_of(key) {
            Ok(chunk) => ChunkPlace { chunk, at: Ok(0) },
            Err(next) => self.place_within(key, next.saturating_sub(1)),
        }
    }

    fn get_at(&self, key: &K, place: ChunkPlace) -> Option<&V> {
        match place.at {
            Ok(at) => Some(&self.chunks[place.chunk].entry(at).1),
            Err(_) => None,
        }
    }

    fn get_mut_at(&mut self, key: &K, place: ChunkPlace) -> Option<&mut V> {
        match place.at {
            Ok(at) => Some(self.chunks[place.chunk].value_mut(at)),
            Err(_) => None,
        }
    }

    fn reserve_at(&mut self, key: &K, place: ChunkPlace) -> Result<ChunkPlace, AllocError> {
        match place.at {
            Ok(_) => Ok(place),
            Err(at) => self.reserve_gap(key, place.chunk, at),
        }
    }

    fn insert_at(&mut self, key: K, place: ChunkPlace, value: V) {
        match place.at {
            Ok(at) => self.chunks[place.chunk].set_value(at, value),
            Err(at) => {
                self.chunks[place.chunk].insert(at, key, value);
                self.count += 1;
            }
        }
    }

    fn remove_at(&mut self, key: &K, place: ChunkPlace) -> Option<V> {
        match place.at {
            Ok(at) => {
                self.count -= 1;
                Some(remove_entry(&mut self.chunks, place.chunk, at))
            }
            Err(_) => None,
        }
    }

    fn first(&self) -> ChunkCursor {
        ChunkCursor { chunk: 0, at: 0 }
    }

    fn next(&self, cursor: ChunkCursor) -> Option<((&K, &V), ChunkCursor)> {
        match self.step(cursor.chunk, cursor.at) {
            Some(step) => Some(step),
            None => {
                if cursor.chunk < self.chunks.len() {
                    self.step(cursor.chunk + 1, 0)
                } else {
                    None
                }
            }
        }
    }
}
