//! The words by which the program `wulameron` is started, and the log that no word names.
//!
//! `home::default_log_in`: the log's path by what the environment has is exact (`default_path`). A command takes the
//! path of `--at`. These are exact too: which commands make a log (`made_log`), which words are those of the former
//! sessions (`asks_session`), when texts are coloured, and how wide lines may be (`is_coloured`, `first_of`). Of the
//! other words it is only proved that reading them is safe.
#![tactic(auto)]

pub mod arguments;
pub mod asked;
mod commands;
pub mod home;
pub mod pipes;
pub mod screen;
