//! What a program tells of the log of a path: a line each, on its writer of errors.

ghost use Rattle.std.specs.Prelude.{◌≡◌, List, ℕ, Option, Some, IfOk, codes, string_bytes};
ghost use Rattle.wulameron_place.specs.Nodes.{node_line};
ghost use Rattle.negotiate_serve.specs.Outputs.{Writes};
ghost use Rattle.negotiate_serve.specs.Reports.{failure_line};
ghost use Rattle.wulameron_arguments.specs.Places.{is_in_database};
ghost use Rattle.wulameron_place.specs.Troubles.{WritesLine, WritesNoMemory, last_of, stays_text};
ghost use Rattle.wulameron_place.specs.Troubles.{trouble_line, unopened_text};

use crate::claims::{NodeError, TokenTrouble};
use crate::halt::Halt;
use crate::trouble::{Trouble, Troubled, last_trouble};
use iceoryx2_file_log::error::FileFault;
use negotiate_lines::escape::escaped_text;
use negotiate_serve::ending::{Ending, FAULT, ServeError};
use negotiate_serve::output::write_out;
use negotiate_serve::report::{report, report_failure};
use std::alloc::{AllocError, Global};
use std::fmt;
use std::io::{ErrorKind, Write};
use wulameron_arguments::asked::is_in_database;

const NO_LOG: &str = "there is no log; name another by --at, or make it by `wulameron hold`";

/// What is told if something of a node stays, at a log in a file and in a database.
const STAYS: &str = "the log refused to release what this node holds; run `wulameron clean`";

const STAYS_IN_DATABASE: &str =
    "the log refused to release what this node holds; run `wulameron-postgres clean`";

/// Returns what is told if something of a node stays at the log of this path.
fn stays(path: &str) -> &'static str
    ensures { result.now ≡ stays_text path.now }
{
    match is_in_database(path) {
        true => STAYS_IN_DATABASE,
        false => STAYS,
    }
}

/// A writer of errors for the log of a path.
#[derive(Drop)]
pub struct Reports<'a, E> {
    alloc: Global,
    path: &'a str,
    errors: E,
    /// What `look` told last.
    told: Option<Trouble>,
}

impl<'a, E: Write> Reports<'a, E> {
    /// Returns reports that have told nothing.
    pub fn new(alloc: Global, path: &'a str, errors: E) -> Reports<'a, E>
        ensures { (result.path.now ≡ path.now) × (result.errors ≡ errors) }
    {
        Reports {
            alloc,
            path,
            errors,
            told: None,
        }
    }

    /// Returns the allocator of the texts.
    pub fn alloc(&self) -> Global {
        self.alloc
    }

    /// Returns whether the log is in a database.
    pub fn is_in_database(&self) -> bool
        ensures { result ≡ is_in_database self.now.path.now }
    {
        is_in_database(self.path)
    }

    /// Writes the line of what is wrong with the log, or is wanted of it.
    ///
    /// `ServeError` as `write_out` does. If there is no memory for the line, it writes the line of that, which needs
    /// none: `OutOfMemory` after it wrote that line whole, and otherwise the writer's failure.
    pub fn tell<D: fmt::Display + Copy>(&mut self, wrong: D) -> Result<(), ServeError>
        ensures { (text : List ℕ) → D.output wrong ≡ Some text
            → WritesLine (trouble_line self.old.path.now text) result
            (E.contents self.old.errors) (E.contents self.new.errors) }
    {
        self.tell_at(self.path, wrong)
    }

    /// Writes the line of what is wrong with what has this path.
    fn tell_at<D: fmt::Display + Copy>(&mut self, path: &str, wrong: D) -> Result<(), ServeError>
        ensures { (text : List ℕ) → D.output wrong ≡ Some text
            → WritesLine (trouble_line path.now text) result
            (E.contents self.old.errors) (E.contents self.new.errors) }
    {
        match line_of(self.alloc, path, wrong) {
            Ok(line) => write_out(line.as_bytes(), &mut self.errors),
            Err(_) => Err(self.tell_no_memory()),
        }
    }

    /// Writes the line that there is no memory. Returns `OutOfMemory` after it wrote the line whole, and otherwise the
    /// writer's failure.
    pub fn tell_no_memory(&mut self) -> ServeError
        ensures { WritesNoMemory result (E.contents self.old.errors) (E.contents self.new.errors) }
    {
        match self.tell_failure(ServeError::OutOfMemory) {
            Ok(()) => ServeError::OutOfMemory,
            Err(failure) => failure,
        }
    }

    /// Writes the line of why the log isn't opened.
    ///
    /// `ServeError` as `tell` does.
    pub fn tell_unopened(&mut self, trouble: Trouble) -> Result<(), ServeError>
        ensures { (text : List ℕ) → unopened_text trouble ≡ Some text
            → WritesLine (trouble_line self.old.path.now text) result
            (E.contents self.old.errors) (E.contents self.new.errors) }
    {
        match trouble {
            Trouble::Refused(
                FileFault::Failed {
                    kind: ErrorKind::NotFound,
                },
            ) => self.tell(NO_LOG),
            _ => self.tell(trouble),
        }
    }

    /// Writes the line of a node that isn't claimed.
    ///
    /// `ServeError` as `tell` does.
    pub fn tell_claim(&mut self, error: &NodeError) -> Result<(), ServeError>
        ensures { WritesLine (node_line self.old.path.now error.now) result
            (E.contents self.old.errors) (E.contents self.new.errors) }
    {
        match error {
            NodeError::File(error) => self.tell_at(error.path(), TokenTrouble(error.fault())),
            NodeError::Database(fault) => self.tell(*fault),
        }
    }

    /// Writes the line that something of a node stays, with the command that releases it.
    ///
    /// `ServeError` as `tell` does.
    pub fn tell_stays(&mut self) -> Result<(), ServeError>
        ensures { WritesLine (trouble_line self.old.path.now (stays_text self.old.path.now)) result
            (E.contents self.old.errors) (E.contents self.new.errors) }
    {
        self.tell(stays(self.path))
    }

    /// Writes the line of a failure that isn't of the log. `ServeError` as `write_out` does.
    pub fn tell_failure(&mut self, fault: ServeError) -> Result<(), ServeError>
        ensures { Writes (failure_line (codes "wulameron") fault) result
            (E.contents self.old.errors) (E.contents self.new.errors) }
    {
        report_failure("wulameron", fault, &mut self.errors)
    }

    /// Writes the line of a failure, and returns the status with which the program then ends. It leaves out a line that
    /// can't be written.
    pub fn fail(&mut self, fault: ServeError) -> u8
        ensures { result ≡ 3 }
    {
        let _ = self.tell_failure(fault);
        FAULT
    }

    /// Tells what keeps a program from going on, and returns the status with which it then ends. If the log can't be
    /// used any more, the line was written before.
    pub fn halt(&mut self, halt: Halt) -> u8
        ensures { result ≡ 3 }
    {
        match halt {
            Halt::Serving(fault) => self.fail(fault),
            Halt::Log(_) => FAULT,
            Halt::Owing => {
                let _ = self.tell_stays();
                FAULT
            }
        }
    }

    /// Writes the line of how a program ended, if something is wrong.
    ///
    /// `ServeError` as `report` does.
    pub fn tell_end(&mut self, ended: &Result<Ending, ServeError>) -> Result<(), ServeError> {
        report("wulameron", ended, &mut self.errors)
    }

    /// Writes what goes wrong, as a line, unless it is what was written last. Returns it if the log isn't used any
    /// more. It leaves out a line that can't be written.
    pub fn look<S: Troubled>(&mut self, watched: &S) -> Option<Trouble>
        ensures { result ≡ last_of (S.trouble watched.now) }
    {
        let trouble = watched.trouble();
        self.tell_new(trouble);
        last_trouble(trouble)
    }

    fn tell_new(&mut self, trouble: Option<Trouble>) {
        let is_known = trouble == self.told;
        self.told = trouble;
        if is_known {
            return;
        }
        if let Some(trouble) = trouble {
            let _ = self.tell(trouble);
        }
    }
}

/// Returns the line of what goes wrong with the log of this path, which is escaped as names are.
fn line_of<D: fmt::Display + Copy>(
    alloc: Global,
    path: &str,
    wrong: D,
) -> Result<String, AllocError>
    ensures { (text : List ℕ) → D.output wrong ≡ Some text
        → IfOk result (λ line. string_bytes line ≡ trouble_line path.now text) }
{
    let path = escaped_text(alloc, path)?;
    format!(in alloc; "wulameron: {path}: {wrong}\n")
}
