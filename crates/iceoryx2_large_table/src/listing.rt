//! The list of a table: one walk over its rows and its segments.

ghost use Rattle.std.specs.Prelude.{◌≡◌, IfOk};
ghost use Rattle.std.specs.FinMap as map;
ghost use Rattle.iceoryx2_world.specs.Orders.{hash_cmp};
ghost use Rattle.iceoryx2_table.specs.Merge.{merge};

use finite_map::FiniteMap;
use iceoryx2_description::description::ServiceHash;
use iceoryx2_table::merge::push;
use iceoryx2_table::rows::StoredRow;
use iceoryx2_table::segments::StoredSegment;
use iceoryx2_world::listing::Entry;
use std::alloc::{AllocError, Global};
use std::cmp::Ordering;

/// Returns the rows and the segments, each hash once, in ascending order.
pub fn merge_entries<
    R: FiniteMap<ServiceHash, StoredRow>,
    S: FiniteMap<ServiceHash, StoredSegment>,
>(alloc: Global, rows: &R, segments: &S) -> Result<Vec<Entry>, AllocError>
    ensures { IfOk result (λ entries. entries.items
        ≡ merge (map.entries (R.seen hash_cmp rows.now)) (map.entries (S.seen hash_cmp segments.now))) }
{
    let mut entries = Vec::new(alloc);
    let mut row = rows.first();
    let mut segment = segments.first();
    loop {
        match (rows.next(row), segments.next(segment)) {
            (None, None) => return Ok(entries),
            (Some(written), None) => {
                push(&mut entries, written.0.0, Some(written.0.1), None)?;
                row = written.1;
            }
            (None, Some(stored)) => {
                push(&mut entries, stored.0.0, None, Some(stored.0.1))?;
                segment = stored.1;
            }
            (Some(written), Some(stored)) => match written.0.0.cmp(stored.0.0) {
                Ordering::Less => {
                    push(&mut entries, written.0.0, Some(written.0.1), None)?;
                    row = written.1;
                }
                Ordering::Equal => {
                    push(
                        &mut entries,
                        written.0.0,
                        Some(written.0.1),
                        Some(stored.0.1),
                    )?;
                    row = written.1;
                    segment = stored.1;
                }
                Ordering::Greater => {
                    push(&mut entries, stored.0.0, None, Some(stored.0.1))?;
                    segment = stored.1;
                }
            },
        }
    }
}
