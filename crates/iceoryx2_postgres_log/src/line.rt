//! A line of a reply, without its end.

ghost use Rattle.std.specs.Prelude.{◌≡◌, ◌++◌, IfOk, IfSome, IsTrue};

use std::alloc::{AllocError, Global};
use std::marker::Model;

/// The bytes of a line, or of a part of one.
#[derive(Debug)]
pub struct Line {
    bytes: Vec<u8>,
}

// Written out, so that a proof of what lets one go doesn't take its fields apart.
impl Drop for Line {
    fn drop(self) {
        let Line { bytes: _ } = self;
    }
}

impl Model for Line {
    ghost use Rattle.std.specs.Prelude.{List, ℕ};

    ghost Value = { List ℕ };

    ghost view = { λ line. line.bytes.items };
}

impl Line {
    pub fn new(bytes: Vec<u8>) -> Line
        ensures { result ≡ bytes.items }
    {
        Line { bytes }
    }

    pub fn as_slice(&self) -> &[u8]
        ensures { result.now ≡ self.now }
    {
        &self.bytes
    }

    /// Returns a copy of the same bytes. An `Err` is of memory.
    pub fn copy(&self, alloc: Global) -> Result<Line, AllocError>
        ensures { IfOk result (λ line. line ≡ self.now) }
    {
        let bytes = Vec::from_slice(alloc, &self.bytes)?;
        Ok(Line::new(bytes))
    }
}

/// Returns true if the bytes are the same.
pub fn is_same(some: &[u8], others: &[u8]) -> bool
    ensures { IsTrue result → some.now ≡ others.now }
{
    some == others
}

/// Returns the text behind the prefix, if the text begins with that prefix.
#[tactic(auto, using(crate::proofs::Parts::parts_of))]
pub fn behind<'a>(text: &'a [u8], front: &[u8]) -> Option<&'a [u8]>
    ensures { IfSome result (λ rest. text.now ≡ front.now ++ rest.now) }
{
    match text.split_at_checked(front.len()) {
        None => None,
        Some((start, rest)) => {
            if is_same(start, front) {
                Some(rest)
            } else {
                None
            }
        }
    }
}
