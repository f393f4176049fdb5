//! Tests of services and of programs that no case can state, with values from outside the program.
//!
//! What errors become of states and of other errors (`errors`). Each type's constants (`types`), builders with types that are compiled (`typed`), configurations of nodes, and copies
//! of builders (`factories`). A session answers commands one by one as in one go, over a table, a traced one and any
//! world, and makes the accesses of its calls alone (`sessions`). The paths by which users name what the layer has
//! (`paths`).
//!
//! Journals (`journals`): what a refused call left of an own node is given back, also after an append in doubt.
//!
//! A reply is flushed before the next line is read, and a flush that fails ends the program (`flushes`). All else that
//! programs do if their streams fail or are interrupted is shown by `tools/check-streams`, which runs the built ones.
//!
//! `tools/check-drawn` compares storages, and processes at one log, in random schedules. It also compacts logs of random
//! histories, and lets processes follow the moves.
#![tactic(auto)]

#[cfg(test)]
mod calls;
#[cfg(test)]
mod errors;
#[cfg(test)]
mod factories;
#[cfg(test)]
mod flushes;
#[cfg(test)]
mod journals;
#[cfg(test)]
mod paths;
#[cfg(test)]
mod sessions;
#[cfg(test)]
mod storage_paths;
#[cfg(test)]
mod support;
#[cfg(test)]
mod typed;
#[cfg(test)]
mod types;
