//! The entry of the first row that is unread.

ghost use Rattle.std.specs.Prelude.{◌≡◌, ◌≢◌, ◌⊎◌, ◌↔◌, IfOk, IfErr, IsTrue, MatchResult, length};
ghost use Rattle.iceoryx2_log.specs.declared.entry.Entry as declared;
ghost use Rattle.iceoryx2_log.specs.declared.entry.Operation.TheVariants as operation;
ghost use Rattle.iceoryx2_log.specs.Form.{Begins};
ghost use Rattle.iceoryx2_postgres_log.specs.declared.fault.PostgresFault.TheVariants as fault;
ghost use Rattle.iceoryx2_postgres_log.specs.First.{Shows, WhyNone};

use crate::fault::PostgresFault;
use crate::row::Row;
use iceoryx2_log::entry::{Entry, Operation};
use iceoryx2_log::form::{EntryError, decode};
use std::alloc::Global;
use std::collections::VecDeque;

/// Returns the entry whose byte form these bytes are, of the row of this number. `Damaged` exactly if
/// there is none.
fn entry_of(alloc: Global, number: u64, form: &[u8]) -> Result<Entry, PostgresFault>
    ensures is { IfOk result (λ e. Begins form.now e (length form.now)) }
    ensures only { (e : declared.Entry) → Begins form.now e (length form.now)
        → MatchResult result (λ found. found ≡ e) (λ why. why ≡ fault.OutOfMemory) }
    ensures err { IfErr result (λ why. (why ≡ fault.OutOfMemory) ⊎ (why ≡ fault.Damaged number)) }
{
    match decode(alloc, form) {
        Ok((entry, count)) => {
            if count == form.len() {
                return Ok(entry);
            }
            Err(PostgresFault::Damaged { number })
        }
        Err(error) => match error {
            EntryError::OutOfMemory => Err(PostgresFault::OutOfMemory),
            EntryError::CutShort => Err(PostgresFault::Damaged { number }),
            EntryError::Malformed => Err(PostgresFault::Damaged { number }),
        },
    }
}

/// Returns true if the entry marks that the log goes on in its next generation.
pub fn is_mark(entry: &Entry) -> bool
    ensures { IsTrue result ↔ (entry.now.operation ≡ operation.Moved) }
{
    match entry.operation {
        Operation::Moved => true,
        _ => false,
    }
}

/// Returns the entry of the first row, or `None` if there is no row. `Moved` if the entry is a mark.
/// `Damaged` exactly if the row's bytes are no entry's form.
pub fn first_of(alloc: Global, rows: &VecDeque<Row>) -> Result<Option<Entry>, PostgresFault>
    ensures ok { IfOk result (λ found. Shows found rows.now.items) }
    ensures err { IfErr result (WhyNone rows.now.items) }
{
    match rows.front() {
        None => Ok(None),
        Some(row) => match entry_of(alloc, row.number, row.form.as_slice()) {
            Err(why) => Err(why),
            Ok(entry) => {
                if is_mark(&entry) {
                    return Err(PostgresFault::Moved);
                }
                Ok(Some(entry))
            }
        },
    }
}
