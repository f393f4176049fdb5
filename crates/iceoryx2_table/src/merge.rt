//! The list of a table: one walk over its rows and its segments.

ghost use Rattle.std.specs.Prelude.{◌≡◌, ◌<◌, ◌≤◌, ◌+◌, ◌++◌, ◌∷◌, [], IfOk, OnOk, length};
ghost use Rattle.std.specs.Option.{option_copied};
ghost use Rattle.iceoryx2_table.specs.Merge.{merge, Advances};
ghost use Rattle.iceoryx2_world.specs.Listing.{entry_of, listed_row as listed_row_of};

use crate::rows::{RowState, StoredRow};
use crate::segments::StoredSegment;
use iceoryx2_description::description::ServiceHash;
use iceoryx2_world::listing::{Entry, ListedRow};
use iceoryx2_world::world::Bytes;
use std::alloc::{AllocError, Global};
use std::cmp::Ordering;

// The row as it is listed.
fn listed_row(row: Option<&StoredRow>) -> Result<ListedRow, AllocError>
    ensures { IfOk result (λ listed. listed ≡ listed_row_of (option_copied row.entry)) }
{
    let Some(row) = row else {
        return Ok(ListedRow::Absent);
    };
    match row.state() {
        RowState::Locked(number) => Ok(ListedRow::Locked(number)),
        RowState::Published(number) => {
            let bytes = row.bytes().copy()?;
            Ok(ListedRow::Published(number, Bytes::from_vec(bytes)))
        }
    }
}

/// Adds what is listed of a hash.
pub fn push(
    entries: &mut Vec<Entry>,
    hash: &ServiceHash,
    row: Option<&StoredRow>,
    segment: Option<&StoredSegment>,
) -> Result<(), AllocError>
    ensures { OnOk result (entries.new.items
        ≡ entries.old.items ++ entry_of hash.now (option_copied row.entry) (option_copied segment.entry) ∷ []) }
{
    let row = listed_row(row)?;
    let segment = match segment {
        Some(segment) => Some(segment.to_listed()),
        None => None,
    };
    let entry = Entry {
        hash: *hash,
        row,
        segment,
    };
    entries.push(entry)?;
    Ok(())
}

// Adds the next entry, and tells how many rows and segments are listed then.
fn push_next(
    entries: &mut Vec<Entry>,
    rows: &[(ServiceHash, StoredRow)],
    segments: &[(ServiceHash, StoredSegment)],
    row: usize,
    segment: usize,
) -> Result<(usize, usize), AllocError>
    requires rows { row ≤ length rows.now }
    requires segments { segment ≤ length segments.now }
    requires left { row + segment < length rows.now + length segments.now }
    ensures walks { IfOk result (λ next. Advances rows.now segments.now
        (row, segment) entries.old.items next entries.new.items) }
{
    if row == rows.len() {
        let (hash, stored) = &segments[segment];
        push(entries, hash, None, Some(stored))?;
        return Ok((row, segment + 1));
    }
    let (hash, written) = &rows[row];
    if segment == segments.len() {
        push(entries, hash, Some(written), None)?;
        return Ok((row + 1, segment));
    }
    let (other, stored) = &segments[segment];
    match hash.cmp(other) {
        Ordering::Less => {
            push(entries, hash, Some(written), None)?;
            Ok((row + 1, segment))
        }
        Ordering::Equal => {
            push(entries, hash, Some(written), Some(stored))?;
            Ok((row + 1, segment + 1))
        }
        Ordering::Greater => {
            push(entries, other, None, Some(stored))?;
            Ok((row, segment + 1))
        }
    }
}

/// Returns the rows and the segments, each hash once, in ascending order.
pub fn merge_entries(
    alloc: Global,
    rows: &[(ServiceHash, StoredRow)],
    segments: &[(ServiceHash, StoredSegment)],
) -> Result<Vec<Entry>, AllocError>
    ensures { IfOk result (λ entries. entries.items ≡ merge rows.now segments.now) }
{
    let mut entries = Vec::new(alloc);
    let mut row = 0;
    let mut segment = 0;
    while row < rows.len() || segment < segments.len() {
        (row, segment) = push_next(&mut entries, rows, segments, row, segment)?;
    }
    Ok(entries)
}
