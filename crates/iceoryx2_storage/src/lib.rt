//! The storages that a builder works over, under one name: the trait, the table within one process, and scripts.
//!
//! No code: the crates that it names state what they prove.
#![tactic(auto)]

pub mod table;

pub use iceoryx2_access::storage;
pub use iceoryx2_testing::script;
