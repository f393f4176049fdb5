//! Journals over logs in memory: what a process gives back of its own.

mod settling;
