//! A real file under its advisory lock. No contract knows its content. We trust, by reading, that each of
//! these few lines does what `Medium` says.

ghost use Rattle.std.specs.Prelude.{None};

use crate::error::{FileFault, system_fault};
use crate::medium::Medium;
use crate::opening::read_some;
use std::fs::{File, TryLockError};
use std::io::{Seek, SeekFrom};
use std::os::unix::fs::FileExt;

/// A file under its advisory lock, for some calls.
#[derive(Clone, Copy)]
pub struct LockedFile<'a> {
    file: &'a File,
}

impl<'a> LockedFile<'a> {
    pub fn new(file: &'a File) -> LockedFile<'a> {
        LockedFile { file }
    }
}

impl<'a> Medium for LockedFile<'a> {
    ghost known = { λ _. None };

    fn try_lock(&mut self) -> Result<Option<u64>, FileFault> {
        match self.file.try_lock() {
            Ok(()) => {}
            Err(TryLockError::WouldBlock) => return Ok(None),
            Err(TryLockError::Error(error)) => return Err(system_fault(&error)),
        }
        // Where the file ends: `metadata` fills a buffer of 4 kB with zeros at each call.
        let mut file = self.file;
        match file.seek(SeekFrom::End(0)) {
            Ok(length) => Ok(Some(length)),
            Err(error) => {
                let _ = self.file.unlock();
                Err(system_fault(&error))
            }
        }
    }

    fn unlock(&mut self) {
        let _ = self.file.unlock();
    }

    fn read_at(&mut self, out: &mut [u8], at: u64) -> Result<usize, FileFault> {
        read_some(self.file, out, at)
    }

    fn write_all_at(&mut self, bytes: &[u8], at: u64) -> Result<(), FileFault> {
        match self.file.write_all_at(bytes, at) {
            Ok(()) => Ok(()),
            Err(error) => Err(system_fault(&error)),
        }
    }

    fn set_len(&mut self, at: u64) -> Result<(), FileFault> {
        match self.file.set_len(at) {
            Ok(()) => Ok(()),
            Err(error) => Err(system_fault(&error)),
        }
    }

    fn sync(&mut self) -> Result<(), FileFault> {
        match self.file.sync_data() {
            Ok(()) => Ok(()),
            Err(error) => Err(system_fault(&error)),
        }
    }
}
