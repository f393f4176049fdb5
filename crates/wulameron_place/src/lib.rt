//! What a process does at a log that others share, whatever the process is for.
//!
//! What goes wrong at a log, whether that is the last of it, the line that is written of it and its advice are exact
//! (`trouble_of`, `is_last`, `trouble_text`, `advice_of`, `WritesLine`).
//!
//! `node_log::NodeLog::start` starts a node over a journal of a log. It has this node alone then, after what the node
//! had was released, and its world agrees (`IsStarted`); or the log ends it, or there was no memory. `place_log` is a
//! log in a file or in a database: it meets the clauses of a log as far as that one does. Of `opening` and `claims`,
//! which open a log and claim a node, two things are proved: they are safe, and the node is the named one.
//!
//! `clean::clean_nodes` keeps what own nodes have, whatever the log and the nodes' files answer (`Rely`).
//! `rehearsal::rehearse_nodes` counts what releasing everything comes to in a world, node after node (`Rehearses`,
//! `RehearsesAll`). That world is what the log comes to (`ComesToWorld`, of `clean::caught_up`). The lines of both are
//! exact, and so is why a named node isn't cleaned up for (`not_dead_of`). Of `clean::clean`, which opens the log, only
//! safety is proved.
#![tactic(auto)]

pub mod claims;
pub mod clean;
pub mod dead;
pub mod halt;
pub mod node_log;
pub mod opening;
pub mod place_log;
pub mod reading;
pub mod rehearsal;
pub mod reports;
pub mod texts;
pub mod trouble;
