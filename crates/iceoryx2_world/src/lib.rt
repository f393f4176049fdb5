//! The worlds of a table: their content, what a step makes of them, batches of peers' steps that wait
//! there, and what is always true.
//!
//! `laws_of_steps()`: the steps are exactly the fourteen; the empty world agrees (`Agrees`); every step
//! gives a later world that agrees, except for the tickets of the node that takes it. `accesses()`: the
//! result of an access's tests is a line of the table of accesses, and each line is such a result
//! (`IsAccessCase`).
//!
//! `laws_of_accesses()` is about own nodes, whatever others do before each of their accesses. Steps of
//! peers and accesses of other nodes keep agreement and what own nodes rely on (`Rely`), in any order and
//! number. A run of accesses, of which any may be refused, keeps agreement and gives a later world. A
//! spent number never comes back. `laws_of_standing()`: each ticket is one of a factory that stands
//! (`Stands`). Along any run an own node's factory stands until its ticket is released, and the table
//! grants that release. `laws_of_counts()`: which own parts change a description or a count.
//!
//! `batches()` is about a table at which batches of peers' steps wait (`IsTableAccess`). A step is
//! forbidden, is done, or is skipped and counted if it found no memory. Each access takes the next batch
//! off, and is an access of the world after the others' steps. If nothing waits, it is the node's own
//! part. So each law over worlds and whole calls holds for the table. A step that removes something or
//! joins once more is never skipped.
#![tactic(auto)]

pub mod batches;
pub mod laws;
pub mod listing;
pub mod world;
