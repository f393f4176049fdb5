//! What is shown of a log's entries, on an output.

ghost use Rattle.std.specs.Prelude.{◌≡◌, ◌≤◌, ◌++◌, ℕ, List, Option, Some, OnOk, length, string_bytes};
ghost use Rattle.iceoryx2_log.specs.declared.entry.Entry as declared;
ghost use Rattle.iceoryx2_log.specs.Form.{Begins};
ghost use Rattle.wulameron_trail.specs.Showing.{ShowsNext, ShowsOne, ShowsRest};
ghost use Rattle.wulameron_trail.specs.Unread.{IsUnread};

use crate::checker::is_mark;
use crate::reading::{TOO_OFTEN, next_front};
use crate::stopping::{ShowError, Stop, stop_at};
use iceoryx2_file_log::ahead::Ahead;
use iceoryx2_file_log::remainder::Front;
use iceoryx2_log::entry::Entry;
use negotiate_serve::output::write_out;
use std::alloc::Global;
use std::io::{Read, Write};
use std::ops::ControlFlow;

/// What is left of a log's bytes after its entries were shown.
#[derive(Drop)]
pub enum Rest {
    /// Nothing, or what a writer leaves that died, or that hasn't written all of it yet.
    Ended,
    /// This mark: the log goes on in another file.
    Moved(Entry),
}

/// Shows the entries of a log.
pub trait Shows {
    /// What is shown of an entry, and what the shower becomes.
    ghost shows: { Self → declared.Entry → List ℕ → Self → Type 0 };

    /// Adds what is shown of an entry to a text: lines, or nothing.
    fn show(&mut self, entry: &Entry, text: &mut String) -> Result<(), ShowError>
        ensures { OnOk result ((line : List ℕ) × shows self.old entry.now line self.new
            × (string_bytes text.new ≡ string_bytes text.old ++ line)) };
}

/// Shows an entry. The text is a place to write it in.
///
/// `NotAnswered` if the entry isn't shown, `Failed` by memory or the output, which has taken a prefix then.
pub(crate) fn show_entry<P: Shows, W: Write>(
    entry: &Entry,
    shown: &mut P,
    text: &mut String,
    output: &mut W,
) -> Result<(), Stop>
    ensures { ShowsOne P.shows entry.now shown.old shown.new result (W.contents output.old) (W.contents output.new) }
{
    text.clear();
    match shown.show(entry, text) {
        Ok(()) => match write_out(text.as_bytes(), output) {
            Ok(()) => Ok(()),
            Err(fault) => Err(Stop::Failed(fault)),
        },
        Err(error) => Err(stop_at(error)),
    }
}

/// Shows the entry of this many bytes with which the bytes read ahead begin, and returns their number. A mark ends it.
fn show_found<P: Shows, W: Write>(
    entry: Entry,
    count: usize,
    ahead: &mut Ahead,
    shown: &mut P,
    text: &mut String,
    output: &mut W,
) -> Result<ControlFlow<Rest, usize>, Stop>
    requires { count ≤ length ahead.old }
    ensures { (left : Option (List ℕ)) (bytes : List ℕ) → IsUnread ahead.old left bytes → Begins bytes entry count
        → ShowsNext P.shows bytes shown.old shown.new result ahead.new left
        (W.contents output.old) (W.contents output.new) }
{
    if is_mark(&entry.operation) {
        return Ok(ControlFlow::Break(Rest::Moved(entry)));
    }
    match show_entry(&entry, shown, text, output) {
        Ok(()) => {
            ahead.take(count);
            Ok(ControlFlow::Continue(count))
        }
        Err(stop) => Err(stop),
    }
}

/// Shows the next entry, and returns how many bytes it has. A mark, or no entry, ends it.
fn show_next<R: Read, P: Shows, W: Write>(
    alloc: Global,
    reader: &mut R,
    ahead: &mut Ahead,
    shown: &mut P,
    text: &mut String,
    output: &mut W,
) -> Result<ControlFlow<Rest, usize>, Stop>
    ensures { (bytes : List ℕ) → IsUnread ahead.old (R.remaining reader.old) bytes
        → ShowsNext P.shows bytes shown.old shown.new result ahead.new (R.remaining reader.new)
        (W.contents output.old) (W.contents output.new) }
{
    match next_front(alloc, reader, ahead) {
        Ok(front) => match front {
            Front::Whole { entry, count } => show_found(entry, count, ahead, shown, text, output),
            Front::Torn => Ok(ControlFlow::Break(Rest::Ended)),
            Front::Unfinished | Front::Damaged => Err(Stop::Damaged),
        },
        Err(stop) => Err(stop),
    }
}

/// Shows the entries that a reader has left, and returns what is left after them: nothing, what a writer leaves that
/// died or hasn't written all of it yet, or a mark, which isn't shown. It adds to the byte those of the entries that
/// are shown.
///
/// `Damaged` if what is left is none of these, `NotAnswered` if an entry isn't shown, `Refused` if the reader answers
/// an error, `Failed` by memory or the output, which has then taken a prefix of what is shown.
pub fn show_rest<R: Read, P: Shows, W: Write>(
    alloc: Global,
    reader: &mut R,
    shown: &mut P,
    at: &mut u64,
    output: &mut W,
) -> Result<Rest, Stop>
    ensures { (bytes : List ℕ) → R.remaining reader.old ≡ Some bytes
        → ShowsRest P.shows bytes shown.old shown.new result (W.contents output.old) (W.contents output.new) }
{
    let mut ahead = Ahead::new(alloc);
    let mut text = String::new(alloc);
    for _ in 0..u64::MAX {
        match show_next(alloc, reader, &mut ahead, shown, &mut text, output) {
            Ok(turn) => match turn {
                ControlFlow::Continue(count) => *at = at.saturating_add(count as u64),
                ControlFlow::Break(rest) => return Ok(rest),
            },
            Err(stop) => return Err(stop),
        }
    }
    Err(TOO_OFTEN)
}
