//! The pipes to the client of a database.

use std::alloc::Global;
use std::cell::RefCell;
use std::fs::{File, OpenOptions};
use std::io::{self, BufRead, BufReader, Read, Write};
use std::rt::Files;

/// The pipes to one client: a session of the database, as long as both are open.
#[derive(Drop)]
struct Ends {
    questions: File,
    replies: File,
}

/// The place at which the launcher is asked for the pipes to another client, and tells them.
#[derive(Drop)]
struct Again {
    asked: File,
    told: File,
}

/// The pipes to the client of a database. They are to one client after the other: anyone who has a reference to them
/// writes to the last one, and reads from it.
pub struct Pipes {
    ends: RefCell<Option<Ends>>,
    again: Option<Again>,
}

// It is written out, so that proofs of what lets one go don't pay for each field.
impl Drop for Pipes {
    fn drop(self) {
        let Pipes { ends: _, again: _ } = self;
    }
}

/// Why there are no pipes.
#[derive(Clone, Copy)]
pub enum PipesError {
    /// The word names neither two files nor four, with colons between them.
    NotPipes,
    /// One of them can't be opened, or the client doesn't read.
    Refused,
    /// The launcher has no others.
    NoOthers,
}

fn to_write<F: Files<File = File>>(rt: &F, path: &str) -> Result<File, PipesError> {
    match OpenOptions::new().write(true).open(rt, path) {
        Ok(file) => Ok(file),
        Err(_) => Err(PipesError::Refused),
    }
}

fn to_read<F: Files<File = File>>(rt: &F, path: &str) -> Result<File, PipesError> {
    match OpenOptions::new().read(true).open(rt, path) {
        Ok(file) => Ok(file),
        Err(_) => Err(PipesError::Refused),
    }
}

/// Returns the two paths of a word, with a colon between them.
fn two(word: &str) -> Result<(&str, &str), PipesError> {
    match word.split_once(':') {
        Some(paths) => Ok(paths),
        None => Err(PipesError::NotPipes),
    }
}

/// Opens the pipes of these paths, and tells the client to begin, by an empty line.
fn ends_at<F: Files<File = File>>(
    rt: &F,
    questions: &str,
    replies: &str,
) -> Result<Ends, PipesError> {
    let questions = to_write(rt, questions)?;
    let replies = to_read(rt, replies)?;
    match (&questions).write_all(b"\n") {
        Ok(()) => Ok(Ends { questions, replies }),
        Err(_) => Err(PipesError::Refused),
    }
}

/// Opens the pipes to the launcher that a word names, `AGAIN:TOLD`.
fn again_at<F: Files<File = File>>(rt: &F, word: &str) -> Result<Again, PipesError> {
    let (asked, told) = two(word)?;
    let asked = to_write(rt, asked)?;
    let told = to_read(rt, told)?;
    Ok(Again { asked, told })
}

impl Again {
    /// Asks the launcher for the pipes to another client, and returns the word that names them.
    fn ask(&self, alloc: Global) -> Result<String, PipesError> {
        let Ok(()) = (&self.asked).write_all(b"\n") else {
            return Err(PipesError::NoOthers);
        };
        let Ok(mut told) = BufReader::new(alloc, &self.told) else {
            return Err(PipesError::NoOthers);
        };
        let mut line = String::new(alloc);
        match told.read_line(&mut line) {
            Ok(_) => Ok(line),
            Err(_) => Err(PipesError::NoOthers),
        }
    }
}

impl Pipes {
    /// Opens the pipes that a word names, `QUESTIONS:REPLIES`, and tells the client to begin. In a word of four,
    /// `QUESTIONS:REPLIES:AGAIN:TOLD`, the others are to the launcher, which can start another client.
    ///
    /// - `NotPipes`: the word has no colon, or one of three.
    /// - `Refused`: a pipe can't be opened, or be written to.
    pub fn open<F: Files<File = File>>(rt: &F, word: &str) -> Result<Pipes, PipesError> {
        let (questions, rest) = two(word)?;
        let (replies, again) = match rest.split_once(':') {
            None => (rest, None),
            Some((replies, word)) => (replies, Some(again_at(rt, word)?)),
        };
        let ends = ends_at(rt, questions, replies)?;
        Ok(Pipes {
            ends: RefCell::new(Some(ends)),
            again,
        })
    }

    /// Closes the pipes, and opens those to another client, which the launcher starts once the database can be reached.
    ///
    /// - `NoOthers`: the launcher gives none. Nothing can be asked any more.
    /// - `Refused`: a pipe can't be opened, or be written to.
    pub fn renew<F: Files<File = File> + AllocGlobal>(&self, rt: &F) -> Result<(), PipesError> {
        let Some(again) = &self.again else {
            return Err(PipesError::NoOthers);
        };
        let _ = self.ends.try_replace(None);
        let line = again.ask(rt.alloc())?;
        let (questions, replies) = two(line.as_str().trim_end())?;
        let ends = ends_at(rt, questions, replies)?;
        match self.ends.try_replace(Some(ends)) {
            Ok(_) => Ok(()),
            Err(_) => Err(PipesError::Refused),
        }
    }
}

/// What a client says. It says nothing once the pipes are closed.
impl Read for &Pipes {
    fn read(&mut self, buf: &mut [u8]) -> io::Result<usize> {
        let Ok(ends) = self.ends.try_borrow() else {
            return Ok(0);
        };
        match &*ends {
            Some(ends) => (&ends.replies).read(buf),
            None => Ok(0),
        }
    }
}

/// What a client is asked. It is asked nothing once the pipes are closed.
impl Write for &Pipes {
    fn write(&mut self, buf: &[u8]) -> io::Result<usize> {
        let Ok(ends) = self.ends.try_borrow() else {
            return Ok(0);
        };
        match &*ends {
            Some(ends) => (&ends.questions).write(buf),
            None => Ok(0),
        }
    }

    fn flush(&mut self) -> io::Result<()> {
        Ok(())
    }
}
