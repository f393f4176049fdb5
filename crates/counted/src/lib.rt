//! A storage that counts the accesses of another.
#![tactic(auto)]

pub mod counted;
pub mod laws;
