//! Tests of values that no case names, of logs and of nodes, with values from outside the program.
//!
//! Of values: copies of attributes, hashes in digits, the order of times, and the texts of errors (`values`).
//!
//! Of a map: sorted vectors in pieces and a plain table, by drawn keys (`sorted_vecs`).
//!
//! Logs in files are made, held, cut and refused by name. Their bytes are those that another program computed
//! (`samples`). The tests are scripts, with their answers (`log_scripts`, `script_files`). What a
//! handle does to bytes is tested over a file in memory too (`media`).
//! Where the file is removed, renamed or replaced under a handle, the handle says so (`lost_paths`). A call over several
//! accesses keeps another handle out (`call_logs`).
//!
//! Of nodes (`nodes`), within one process: a node is claimed once, alive as long as its token stands and dead then; a
//! look is in the way of a claim and of no look; the lowest free node is given; links, folders and foreign names are
//! refused or passed over.
//!
//! Of logs and nodes in a database, whose replies a script tells (`postgres_logs`, `postgres_generations`,
//! `postgres_nodes`): what is asked, byte for byte, and what each reply is answered by. A handle that is told something
//! else than it asked for asks nothing any more. The handles of logs carry out scripts (`postgres_scripts`).
#![tactic(auto)]

#[cfg(test)]
mod call_logs;
#[cfg(test)]
mod compactions;
#[cfg(test)]
mod existing_logs;
#[cfg(test)]
mod file_logs;
#[cfg(test)]
mod log_scripts;
#[cfg(test)]
mod looks;
#[cfg(test)]
mod lost_paths;
#[cfg(test)]
mod media;
#[cfg(test)]
mod nodes;
#[cfg(test)]
mod postgres_generations;
#[cfg(test)]
mod postgres_logs;
#[cfg(test)]
mod postgres_nodes;
#[cfg(test)]
mod postgres_scripts;
#[cfg(test)]
mod samples;
#[cfg(test)]
mod script_files;
#[cfg(test)]
mod sorted_vecs;
#[cfg(test)]
mod support;
#[cfg(test)]
mod values;
