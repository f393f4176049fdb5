//! The screen on which texts are printed.

ghost use Rattle.std.specs.Prelude.{◌≡◌, option_map};
ghost use Rattle.wulameron_arguments.specs.Home.{first_of};
ghost use Rattle.wulameron_arguments.specs.Screens.{is_coloured, is_of_terminal};

use crate::home::variable;
use std::alloc::AllocError;
use std::fs::{self, File};
use std::io::ErrorKind;
use std::rt::{Env, Files};

/// The link to what the standard output is.
const OUTPUT: &str = "/proc/self/fd/1";

/// The screen on which texts for people are printed.
#[derive(Clone, Copy)]
pub struct Screen {
    /// Whether the standard output is a terminal.
    pub is_terminal: bool,
    /// Whether the environment's `NO_COLOR` is set and not empty.
    pub no_colour: bool,
    /// How many columns it has, if the environment's `COLUMNS` tells them.
    pub columns: Option<u64>,
}

impl Screen {
    /// Returns whether texts are coloured, by the word that says when: `always`, `never`, or otherwise on a terminal,
    /// unless `NO_COLOR` is set.
    pub fn is_coloured(self, when: Option<&str>) -> bool
        ensures { result ≡ is_coloured self (option_map (λ word. word.now) when.entry) }
    {
        match when {
            Some("always") => true,
            Some("never") => false,
            _ => self.is_terminal && !self.no_colour,
        }
    }

    /// Returns how many columns a line may have: as many as are asked for, or as the screen has.
    pub fn width(self, asked: Option<u64>) -> Option<u64>
        ensures { result ≡ first_of asked self.columns }
    {
        match asked {
            Some(width) => Some(width),
            None => self.columns,
        }
    }
}

/// Returns the screen of this process. A terminal's columns can't be asked for, so only the environment tells them.
///
/// `AllocError` if there is no memory.
pub fn screen_of<R: Env + Files<File = File> + AllocGlobal>(rt: &R) -> Result<Screen, AllocError> {
    Ok(Screen {
        is_terminal: is_terminal(rt)?,
        no_colour: variable(rt, "NO_COLOR")?.is_some(),
        columns: columns(rt)?,
    })
}

/// Returns whether the standard output is a terminal, as far as the system tells.
fn is_terminal<R: Files<File = File> + AllocGlobal>(rt: &R) -> Result<bool, AllocError> {
    match fs::read_link(rt, OUTPUT) {
        Ok(path) => Ok(is_of_terminal(path.as_str())),
        Err(error) if error.kind() == ErrorKind::OutOfMemory => Err(AllocError),
        Err(_) => Ok(false),
    }
}

/// Returns whether a terminal has this path.
fn is_of_terminal(path: &str) -> bool
    ensures { result ≡ is_of_terminal path.now }
{
    path.starts_with("/dev/pts/") || path.starts_with("/dev/tty")
}

/// Returns the columns that the environment tells.
fn columns<R: Env + AllocGlobal>(rt: &R) -> Result<Option<u64>, AllocError> {
    match variable(rt, "COLUMNS")? {
        Some(text) => Ok(text.as_str().parse::<u64>().ok()),
        None => Ok(None),
    }
}
