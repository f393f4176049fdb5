//! The latest traced accesses, and the number of all.

ghost use Rattle.std.specs.Prelude.{◌≡◌, ◌≤◌, ◌++◌, ◌∷◌, ◌↔◌, IsTrue, [], IfOk, length};
ghost use Rattle.std.specs.Slice.{IsItemAt};
ghost use Rattle.iceoryx2_access.specs.Counts.{count_up};
ghost use Rattle.iceoryx2_testing.specs.Trace.{latest};

use super::entry::TracedAccess;
use std::alloc::{AllocError, Global};
use std::collections::VecDeque;
use std::marker::Model;

/// The latest traced accesses, oldest first. The room for them is there from the beginning.
#[derive(Drop)]
pub struct Trace {
    // its capacity is the room
    entries: VecDeque<TracedAccess>,
    total: u64,
}

impl Model for Trace {
    ghost use Rattle.std.specs.Prelude.{length, ◌≤◌};
    ghost use Rattle.std.specs.VecDeque.{deque_capacity, deque_len};
    ghost use Rattle.iceoryx2_testing.specs.Trace.{TraceState};

    ghost Value = { TraceState };

    ghost view = { λ t. record {
      entries = t.entries.items;
      room = deque_capacity t.entries;
      total = t.total;
    } };

    ghost invariant = { λ t. length t.entries.items ≤ deque_capacity t.entries };
}

impl Trace {
    pub(super) fn new(alloc: Global, room: usize) -> Result<Trace, AllocError>
        ensures { IfOk result (λ trace. trace ≡ record { entries = []; room = room; total = 0 }) }
    {
        let entries = VecDeque::with_capacity(alloc, room)?;
        Ok(Trace { entries, total: 0 })
    }

    /// Keeps a traced access, and forgets the oldest one if there is no room for both.
    pub(super) fn push(&mut self, entry: TracedAccess)
        ensures { self.new ≡ record self.old {
          entries = latest self.old.room (self.old.entries ++ entry ∷ []);
          total = count_up self.old.total;
        } }
    {
        self.total = self.total.saturating_add(1);
        if self.entries.capacity() == 0 {
            return;
        }
        if self.entries.len() == self.entries.capacity() {
            self.entries.pop_front();
        }
        self.entries.push_back_reserved(entry);
    }

    pub(super) fn accesses(&self) -> (&[TracedAccess], &[TracedAccess])
        ensures { result.0.now ++ result.1.now ≡ self.now.entries }
    {
        self.entries.as_slices()
    }

    pub(super) fn get(&self, index: usize) -> Option<&TracedAccess>
        ensures { IsItemAt self.now.entries index result }
    {
        self.entries.get(index)
    }

    pub(super) fn len(&self) -> usize
        ensures len { result ≡ length self.now.entries }
        ensures bound { result ≤ self.now.room }
    {
        self.entries.len()
    }

    pub(super) fn is_empty(&self) -> bool
        ensures { IsTrue result ↔ (self.now.entries ≡ []) }
    {
        self.entries.is_empty()
    }

    pub(super) fn room(&self) -> usize
        ensures { result ≡ self.now.room }
    {
        self.entries.capacity()
    }

    pub(super) fn total(&self) -> u64
        ensures { result ≡ self.now.total }
    {
        self.total
    }

    pub(super) fn clear(&mut self)
        ensures { self.new ≡ record self.old { entries = [] } }
    {
        self.entries.clear();
    }
}
