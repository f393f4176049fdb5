//! Bytes that were read ahead.

ghost use Rattle.std.specs.Prelude.{◌≡◌, ◌++◌, ◌≤◌, [], length, drop, OnOk, OnErr};

use std::alloc::{AllocError, Global};
use std::marker::Model;

/// Bytes that were read ahead: added at the end, and taken from the front.
#[derive(Debug)]
pub struct Ahead {
    bytes: Vec<u8>,
    // how many of the bytes were taken
    taken: usize,
}

// Written out, so that a proof of what lets one go doesn't take its fields apart.
impl Drop for Ahead {
    fn drop(self) {
        let Ahead { bytes: _, taken: _ } = self;
    }
}

impl Model for Ahead {
    ghost use Rattle.std.specs.Prelude.{List, ℕ, ◌≤◌, length, drop};

    ghost Value = { List ℕ };

    ghost view = { λ ahead. drop ahead.taken ahead.bytes.items };

    ghost invariant = { λ ahead. ahead.taken ≤ length ahead.bytes.items };
}

impl Ahead {
    pub fn new(alloc: Global) -> Ahead
        ensures { result ≡ [] }
    {
        Ahead {
            bytes: Vec::new(alloc),
            taken: 0,
        }
    }

    pub fn as_slice(&self) -> &[u8]
        ensures { result.now ≡ self.now }
    {
        &self.bytes[self.taken..]
    }

    /// Forgets all bytes.
    pub fn clear(&mut self)
        ensures { self.new ≡ [] }
    {
        self.bytes.clear();
        self.taken = 0;
    }

    /// Takes so many bytes from the front.
    pub fn take(&mut self, count: usize)
        requires { count ≤ length self.old }
        ensures { self.new ≡ drop count self.old }
    {
        self.taken += count;
    }

    /// Adds bytes at the end. An `Err` changes nothing.
    pub fn add(&mut self, bytes: &[u8]) -> Result<(), AllocError>
        ensures ok { OnOk result (self.new ≡ self.old ++ bytes.now) }
        ensures err { OnErr result (self.new ≡ self.old) }
    {
        if self.taken == 0 {
            return self.bytes.extend_from_slice(bytes);
        }
        let mut kept = Vec::from_slice(*self.bytes.allocator(), &self.bytes[self.taken..])?;
        kept.extend_from_slice(bytes)?;
        self.bytes = kept;
        self.taken = 0;
        Ok(())
    }
}
