//! A file in memory, for tests: its content is known, and a test hands in the others' changes and the
//! refusals.

ghost use Rattle.std.specs.Prelude.{◌≡◌, ◌≤◌, ◌↔◌, false, length, IfOk, IsTrue};
ghost use Rattle.iceoryx2_file_log.specs.Medium.{written};

use crate::error::FileFault;
use crate::medium::Medium;
use std::alloc::{AllocError, Global};

/// The refusals of a file in memory.
#[derive(Clone, Copy)]
pub struct Refusals {
    /// The number of tries to take the lock that find that others have it.
    pub busy: u64,
    /// The number of bytes after which each write is refused.
    pub write: Option<usize>,
    /// True if each cut is refused.
    pub cut: bool,
    /// True if nothing can be synchronized.
    pub sync: bool,
}

/// Nothing is refused.
pub const NOTHING_REFUSED: Refusals = Refusals {
    busy: 0,
    write: None,
    cut: false,
    sync: false,
};

/// A file in memory. Bytes that others append are there when the lock is granted for the first time.
pub struct MemoryFile {
    alloc: Global,
    bytes: Vec<u8>,
    standing: Vec<u8>,
    is_locked: bool,
    is_synchronized: bool,
    others: Vec<u8>,
    refusals: Refusals,
    piece: usize,
}

// Written out, so that a proof of what lets one go doesn't take its fields apart.
impl Drop for MemoryFile {
    fn drop(self) {
        let MemoryFile {
            alloc: _,
            bytes: _,
            standing: _,
            is_locked: _,
            is_synchronized: _,
            others: _,
            refusals: _,
            piece: _,
        } = self;
    }
}

/// Returns the bytes with these written there.
fn with_written(alloc: Global, old: &[u8], at: usize, bytes: &[u8]) -> Result<Vec<u8>, AllocError>
    requires { at ≤ length old.now }
    ensures { IfOk result (λ new. new.items ≡ written at bytes.now old.now) }
{
    let mut new = Vec::from_slice(alloc, &old[..at])?;
    new.extend_from_slice(bytes)?;
    if bytes.len() < old.len() - at {
        new.extend_from_slice(&old[at + bytes.len()..])?;
    }
    Ok(new)
}

impl MemoryFile {
    ghost use Rattle.iceoryx2_file_log.specs.Memory.{known_of};
    ghost use Rattle.iceoryx2_file_log.specs.Medium.{IsFree};

    /// Returns a file of these bytes, to which others append those. The lock is free. A read gives at
    /// most so many bytes, and at least one.
    pub fn new(
        alloc: Global,
        bytes: Vec<u8>,
        others: Vec<u8>,
        refusals: Refusals,
        piece: usize,
    ) -> MemoryFile
        ensures free { IsFree (known_of result) }
        ensures bytes { (known_of result).bytes ≡ bytes.items }
    {
        MemoryFile {
            alloc,
            bytes,
            standing: Vec::new(alloc),
            is_locked: false,
            is_synchronized: false,
            others,
            refusals,
            piece,
        }
    }

    pub fn bytes(&self) -> &[u8]
        ensures { result.now ≡ (known_of self.now).bytes }
    {
        &self.bytes
    }

    /// Returns true if nobody has the lock.
    pub fn is_free(&self) -> bool
        ensures { IsTrue result ↔ IsFree (known_of self.now) }
    {
        !self.is_locked
    }
}

impl Medium for MemoryFile {
    ghost use Rattle.std.specs.Prelude.{Some};
    ghost use Rattle.iceoryx2_file_log.specs.Memory.{known_of};

    ghost known = { λ file. Some (known_of file) };

    fn try_lock(&mut self) -> Result<Option<u64>, FileFault> {
        if self.refusals.busy > 0 {
            self.refusals.busy -= 1;
            return Ok(None);
        }
        let Ok(mut bytes) = Vec::from_slice(self.alloc, &self.bytes) else {
            return Err(FileFault::OutOfMemory);
        };
        let Ok(()) = bytes.extend_from_slice(&self.others) else {
            return Err(FileFault::OutOfMemory);
        };
        let Ok(standing) = Vec::from_slice(self.alloc, &bytes) else {
            return Err(FileFault::OutOfMemory);
        };
        self.others.clear();
        self.bytes = bytes;
        self.standing = standing;
        self.is_locked = true;
        Ok(Some(self.bytes.len() as u64))
    }

    fn unlock(&mut self) {
        self.is_locked = false;
    }

    fn read_at(&mut self, out: &mut [u8], at: u64) -> Result<usize, FileFault> {
        let from = (at as usize).min(self.bytes.len());
        let rest = &self.bytes[from..];
        let count = rest.len().min(out.len()).min(self.piece.max(1));
        out[..count].copy_from_slice(&rest[..count]);
        Ok(count)
    }

    fn write_all_at(&mut self, bytes: &[u8], at: u64) -> Result<(), FileFault> {
        self.is_synchronized = false;
        let count = match self.refusals.write {
            None => bytes.len(),
            Some(count) => count.min(bytes.len()),
        };
        match with_written(self.alloc, &self.bytes, at as usize, &bytes[..count]) {
            Ok(new) => self.bytes = new,
            Err(_) => return Err(FileFault::OutOfMemory),
        }
        match self.refusals.write {
            None => Ok(()),
            Some(_) => Err(FileFault::DiskFull),
        }
    }

    fn set_len(&mut self, at: u64) -> Result<(), FileFault> {
        if self.refusals.cut {
            return Err(FileFault::NoPermission);
        }
        self.bytes.truncate(at as usize);
        self.is_synchronized = false;
        Ok(())
    }

    fn sync(&mut self) -> Result<(), FileFault> {
        if self.refusals.sync {
            return Err(FileFault::DiskFull);
        }
        self.is_synchronized = true;
        Ok(())
    }
}
