//! Shows the entries of a log: lines, what they change, or nothing.

ghost use Rattle.std.specs.Prelude.{◌≡◌, ◌++◌, ℕ, List, [], OnOk, string_bytes};
ghost use Rattle.iceoryx2_journal.specs.Follow.{IsFollowed};
ghost use Rattle.wulameron_trail.specs.EntryTexts.{AddsEntryLine};
ghost use Rattle.wulameron_trail.specs.Showings.{shown_change};

use crate::changes::{Change, change_json, change_of, change_text, standing_of};
use crate::entries::entry_line;
use crate::printing::Shows;
use crate::stopping::ShowError;
use iceoryx2_journal::follow::{FollowError, follow};
use iceoryx2_log::entry::Entry;
use iceoryx2_table::table::stored::StoredWorld;
use std::alloc::{AllocError, Global};

/// Shows each entry by a line of its own.
#[derive(Clone, Copy)]
pub struct Lines {
    /// The number of the next entry in its log, from 0 on.
    pub place: u64,
    /// Entries with a smaller number are left out.
    pub from: u64,
}

/// Writes the line of the entry of this number.
fn line_of(place: u64, entry: &Entry, text: &mut String) -> Result<(), AllocError>
    ensures { OnOk result ((line : List ℕ) × AddsEntryLine place entry.now [] line
        × (string_bytes text.new ≡ string_bytes text.old ++ line)) }
{
    entry_line(place, entry, text)
}

impl Shows for Lines {
    ghost use Rattle.wulameron_trail.specs.Showings.{ShowsLine};

    ghost shows = { ShowsLine };

    fn show(&mut self, entry: &Entry, text: &mut String) -> Result<(), ShowError> {
        let place = self.place;
        self.place = place.saturating_add(1);
        if place < self.from {
            return Ok(());
        }
        match line_of(place, entry, text) {
            Ok(()) => Ok(()),
            Err(_) => Err(ShowError::OutOfMemory),
        }
    }
}

/// Shows what each entry changes.
#[derive(Drop)]
pub struct Changes {
    /// The services before the next entry.
    pub world: StoredWorld,
    /// Whether the lines are for programs.
    pub is_json: bool,
}

/// Writes the line of a change, if there is one.
fn write_change(is_json: bool, change: Option<Change>, text: &mut String) -> Result<(), AllocError>
    ensures { OnOk result (string_bytes text.new ≡ string_bytes text.old ++ shown_change is_json change) }
{
    match change {
        None => Ok(()),
        Some(change) => {
            if is_json {
                change_json(&change, text)
            } else {
                change_text(&change, text)
            }
        }
    }
}

/// Returns what following an entry comes to.
pub(crate) fn follow_entry(
    alloc: Global,
    world: &mut StoredWorld,
    entry: &Entry,
) -> Result<(), ShowError>
    ensures { OnOk result (IsFollowed world.old entry.now world.new) }
{
    match follow(alloc, world, entry) {
        Ok(()) => Ok(()),
        Err(FollowError::OutOfMemory) => Err(ShowError::OutOfMemory),
        Err(FollowError::Disagrees) => Err(ShowError::NotAnswered),
    }
}

impl Shows for Changes {
    ghost use Rattle.wulameron_trail.specs.Showings.{ShowsChange};

    ghost shows = { ShowsChange };

    fn show(&mut self, entry: &Entry, text: &mut String) -> Result<(), ShowError> {
        let alloc = *text.allocator();
        let before = standing_of(alloc, &self.world, entry)?;
        follow_entry(alloc, &mut self.world, entry)?;
        let change = change_of(alloc, before, entry, &self.world)?;
        match write_change(self.is_json, change, text) {
            Ok(()) => Ok(()),
            Err(_) => Err(ShowError::OutOfMemory),
        }
    }
}

/// Shows nothing, and follows each entry.
#[derive(Drop)]
pub struct Silence {
    /// The services before the next entry.
    pub world: StoredWorld,
}

impl Shows for Silence {
    ghost use Rattle.wulameron_trail.specs.Showings.{FollowsSilently};

    ghost shows = { FollowsSilently };

    fn show(&mut self, entry: &Entry, text: &mut String) -> Result<(), ShowError> {
        follow_entry(*text.allocator(), &mut self.world, entry)
    }
}
