//! The nodes of a log, and whether they are alive: processes that share a log claim their nodes by locks of
//! files beside it.
//!
//! `path::token_path` and `path::node_of` are exact, and each is the other's inverse. A name is a node's
//! if it is the log's name, `.node-` and the number as it is printed (`IsNodeOf`).
//! `path::laws_of_paths()`: a node's file is in the log's folder, and no two nodes have one file.
//!
//! `token::claim` gives a token of the node that was asked for, `token::claim_free` one of a number from
//! 0 to 65,535. A node is alive if a try of its lock would block, and dead if the lock is granted
//! (`state_of`, of the private `state_by`). `state::list` gives nodes by rising number, each once
//! (`IsRising`). Each error is about the path of the node's file, of the log or of its folder, or there
//! was no memory for that (`IsErrorAt`). The contracts state which errors may come (`IsClaimError`,
//! `IsLookError`, `IsListError`), and the texts are exact. No clause states that a lock was granted, or
//! that a free number is the lowest.
#![tactic(auto)]

pub mod error;
pub mod path;
pub mod state;
pub mod token;
