//! The place of a handle in the file of its log.

ghost use Rattle.std.specs.Prelude.{◌≡◌, ◌++◌, ◌+◌, ◌<◌, ◌≤◌, ◌^◌, ◌↔◌, length, IsTrue, OnOk, OnErr};
ghost use Rattle.std.specs.Prelude.{◌≢◌, None, IfSome};
ghost use Rattle.iceoryx2_file_log.specs.declared.error.FileFault.TheVariants as fault;
ghost use Rattle.iceoryx2_file_log.specs.declared.cursor.State.{State};
ghost use Rattle.iceoryx2_file_log.specs.declared.cursor.State.TheVariants as state;
ghost use Rattle.iceoryx2_file_log.specs.Compaction.{MayBeCut};

use crate::ahead::Ahead;
use crate::error::FileFault;
use std::alloc::{AllocError, Global};
use std::marker::Model;

/// The state of a handle towards its log.
#[derive(Clone, Copy, Debug, PartialEq, Eq)]
pub enum State {
    Free,
    Held,
    /// An append failed, and its bytes could not be taken back, so nobody knows whether its entry stands.
    /// Or bytes that were taken back or cut off may come back after a power loss, though the options
    /// synchronize. This handle would take its own entry for another's, so it is used no more. A new
    /// handle reads the entries that stand.
    Unsure,
    /// The bytes that begin at this byte are no entry, nor the remainder that a writer leaves when it
    /// dies. The handle is used no more.
    Damaged { at: u64 },
}

/// The place of a handle in the file of its log, the length of the file, and the bytes that were read of
/// it.
#[derive(Debug)]
pub struct Cursor {
    state: State,
    position: u64,
    file_length: u64,
    ahead: Ahead,
    found: usize,
}

// Written out, so that a proof of what lets one go doesn't take its fields apart.
impl Drop for Cursor {
    fn drop(self) {
        let Cursor {
            state: _,
            position: _,
            file_length: _,
            ahead: _,
            found: _,
        } = self;
    }
}

impl Model for Cursor {
    ghost use Rattle.std.specs.Prelude.{◌+◌, ◌≤◌, length};
    ghost use Rattle.iceoryx2_file_log.specs.Place.{Place, IsPlace};

    ghost Value = { Place };

    ghost view = { λ c. record {
      state = c.state;
      position = c.position;
      file_length = c.file_length;
      ahead = c.ahead;
      found = c.found;
    } };

    ghost invariant = { λ c. IsPlace c.position c.file_length c.ahead c.found };
}

impl Cursor {
    ghost use Rattle.iceoryx2_file_log.specs.Place.{start, left, held, accepted, cut, appended, let_go_of, state_after};
    ghost use Rattle.iceoryx2_file_log.specs.Place.{why_not_free, why_not_held, looked_to};

    /// Returns the cursor of a handle that is free, and stands before the first entry, at this position.
    pub fn new(alloc: Global, position: u64) -> Cursor
        ensures { result ≡ start position }
    {
        Cursor {
            state: State::Free,
            position,
            file_length: position,
            ahead: Ahead::new(alloc),
            found: 0,
        }
    }

    pub fn state(&self) -> State
        ensures { result ≡ self.now.state }
    {
        self.state
    }

    pub fn position(&self) -> u64
        ensures { result ≡ self.now.position }
    {
        self.position
    }

    /// Returns the length of the file.
    pub fn file_length(&self) -> u64
        ensures { result ≡ self.now.file_length }
    {
        self.file_length
    }

    /// Returns the bytes that were read of the file, from the position on.
    pub fn ahead(&self) -> &[u8]
        ensures { result.now ≡ self.now.ahead }
    {
        self.ahead.as_slice()
    }

    /// Returns the number of the file's bytes from the position on.
    pub fn left(&self) -> u64
        ensures { result ≡ left self.now }
    {
        self.file_length - self.position
    }

    /// Returns true if no bytes follow the position.
    pub fn is_read(&self) -> bool
        ensures { IsTrue result ↔ (self.now.file_length ≡ self.now.position) }
    {
        self.file_length == self.position
    }

    /// Returns the number of the file's bytes that were not read yet.
    pub fn missing(&self) -> u64
        ensures { self.now.position + length self.now.ahead + result ≡ self.now.file_length }
    {
        self.left() - self.ahead.as_slice().len() as u64
    }

    /// Returns the place at which so many of the read bytes end.
    pub fn end_of(&self, count: usize) -> u64
        requires { count ≤ length self.now.ahead }
        ensures { result ≡ self.now.position + count }
    {
        let rest = self.ahead.as_slice().len() - count;
        self.read_to() - rest as u64
    }

    /// Returns the place up to which the file was read.
    pub fn read_to(&self) -> u64
        ensures { result ≡ self.now.position + length self.now.ahead }
    {
        self.file_length - self.missing()
    }

    /// Returns true if exactly so many bytes were read, and they are all that follows the position.
    pub fn ends_after(&self, count: usize) -> bool
        ensures { IsTrue result ↔ ((length self.now.ahead ≡ count) × (left self.now ≤ length self.now.ahead)) }
    {
        self.ahead.as_slice().len() == count && self.missing() == 0
    }

    /// Returns the reason why the handle can't hold the log, if there is one.
    pub fn why_not_free(&self) -> Option<FileFault>
        ensures { result ≡ why_not_free self.now.state }
    {
        match self.state {
            State::Free => None,
            State::Held => Some(FileFault::HeldAlready),
            State::Unsure => Some(FileFault::Unsure),
            State::Damaged { at } => Some(FileFault::Damaged { at }),
        }
    }

    /// Returns the reason why the handle can't read or append, if there is one.
    pub fn why_not_held(&self) -> Option<FileFault>
        ensures why { result ≡ why_not_held self.now.state }
        ensures held { result ≡ None → self.now.state ≡ state.Held }
        ensures other { IfSome result (λ why. why ≢ fault.NothingSaved) }
    {
        match self.state {
            State::Free => Some(FileFault::NotHeld),
            State::Held => None,
            State::Unsure => Some(FileFault::Unsure),
            State::Damaged { at } => Some(FileFault::Damaged { at }),
        }
    }

    /// Notes that the log is held, and that its file is so long.
    pub fn hold(&mut self, file_length: u64)
        requires { self.old.position ≤ file_length }
        ensures { self.new ≡ held file_length self.old }
    {
        self.ahead.clear();
        self.found = 0;
        self.file_length = file_length;
        self.state = State::Held;
    }

    /// Notes that the file was measured, and is so long. Nothing else is known of it.
    pub fn look(&mut self, file_length: u64)
        requires { self.old.position ≤ file_length }
        ensures { self.new ≡ looked_to file_length self.old }
    {
        self.ahead.clear();
        self.found = 0;
        self.file_length = file_length;
    }

    /// Adds the bytes that were read next. An `Err` changes nothing.
    pub fn read(&mut self, bytes: &[u8]) -> Result<(), AllocError>
        requires { length self.old.ahead + length bytes.now ≤ left self.old }
        ensures ok { OnOk result (self.new ≡ record self.old { ahead = self.old.ahead ++ bytes.now }) }
        ensures err { OnErr result (self.new ≡ self.old) }
    {
        self.ahead.add(bytes)
    }

    /// Notes that an entry of so many bytes was found, or none.
    pub fn find(&mut self, count: usize)
        requires { count ≤ length self.old.ahead }
        ensures { self.new ≡ record self.old { found = count } }
    {
        self.found = count;
    }

    /// Takes over the entry that was found.
    pub fn accept(&mut self)
        ensures { self.new ≡ accepted self.old }
    {
        self.position += self.found as u64;
        self.ahead.take(self.found);
        self.found = 0;
    }

    /// Notes that the rest of the file was cut off, as all of it is torn, or a mark.
    pub fn cut(&mut self)
        requires torn { MayBeCut self.old.ahead }
        requires all { left self.old ≤ length self.old.ahead }
        ensures { self.new ≡ cut self.old }
    {
        self.ahead.clear();
        self.found = 0;
        self.file_length = self.position;
    }

    /// Notes that an entry of so many bytes was appended, with no unread one before it.
    pub fn append(&mut self, count: u64)
        requires all_read { self.old.file_length ≡ self.old.position }
        requires room { self.old.position + count < 2 ^ 64 }
        ensures { self.new ≡ appended count self.old }
    {
        self.position += count;
        self.file_length = self.position;
    }

    /// Notes that the log refused a call for this reason.
    pub fn refuse(&mut self, why: FileFault)
        ensures { self.new ≡ record self.old { state = state_after why self.old.state } }
    {
        match why {
            FileFault::Damaged { at } => self.state = State::Damaged { at },
            FileFault::Unsure => self.state = State::Unsure,
            _ => {}
        }
    }

    /// Notes that the log is held no more.
    pub fn let_go(&mut self)
        ensures { self.new ≡ let_go_of self.old }
    {
        self.ahead.clear();
        self.found = 0;
        if self.state == State::Held {
            self.state = State::Free;
        }
    }
}
