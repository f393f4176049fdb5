//! Reads a log that isn't held.

ghost use Rattle.wulameron_place.specs.Reading.{TakesOver};

use crate::trouble::{Refusing, Trouble, Troubled};
use iceoryx2_file_log::error::FileFault;
use iceoryx2_journal::journal::Journal;

/// Returns whether what was read seems damaged.
fn seems_damaged(trouble: Option<Trouble>) -> bool {
    match trouble {
        Some(Trouble::Refused(FileFault::Damaged { at: _ })) => true,
        _ => false,
    }
}

/// Takes over what others have appended, and returns whether that was all. It reads once more what seems damaged:
/// others may meanwhile have cut off and overwritten what a dead writer left.
pub fn take_over<L: Refusing>(journal: &mut Journal<L>) -> bool
    ensures { TakesOver L.contents result journal.old journal.new }
{
    if journal.look() {
        return true;
    }
    if seems_damaged(journal.trouble()) {
        return journal.look();
    }
    false
}
