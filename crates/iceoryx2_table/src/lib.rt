//! A table in which nodes keep what they agreed on: rows, segments, phases and a counter.
//!
//! Each of the twelve accesses of `Table` answers and changes exactly what `IsTableAccess` says. First
//! the next batch of peers' steps runs, if one waits. Then come the tests in their order, and one step of
//! the world at most. A refusal changes nothing, and out of memory comes only if every test passed. Each
//! access keeps the agreement of the table's world and gives a later one (`agrees`, `later`).
//! `Table::new` and `starting_at` are the empty world, which agrees, with counter 0 and n. `schedule`
//! replaces the batches that wait. `pending`, `skipped`, `list`, `has_tag`, `tickets` and `counter` are
//! exact.
//!
//! A `Table` is a `TableOver` of a type that keeps a world with the own part of each access (`OwnParts`).
//! So the batches, and all that is said of them, are written once, whatever the maps are. Here that type
//! is `StoredWorld`. Nine of its accesses change facts that others may have to know, and take a recorder,
//! which writes them down (`Recorder`). Each of the nine is one of three: the node's own part with
//! nothing written, a granted own part that was written once, or the general fault with the world as it
//! was, if the recorder refused (`IsRecordedPart`). Answer and world tell the first two apart
//! (`is_written`). `is_same` is exact. `spend` spends a number as locks that are given up do
//! (`laws_of_spending()`).
#![tactic(auto)]

pub mod holdings;
pub mod laws;
pub mod local;
pub mod merge;
pub mod own_parts;
pub mod recorder;
pub mod rows;
pub mod same;
pub mod segments;
pub mod services;
pub mod steps;
pub mod table;
