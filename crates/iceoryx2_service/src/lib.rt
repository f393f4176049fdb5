//! The layer under one name: sessions of commands over a table or over a log that processes share,
//! and the crates below them.
//!
//! `laws::promise_of_builders()`: every call of each builder, with any hasher, settings, types and
//! attributes, and whatever the clock answers, keeps `Promise`. It does over a table, over any
//! world, and when chosen accesses are refused. Nothing is asked of the builder.
//! `laws::promise_over_logs()`: each call in the name of a journal's own node does so too, for any
//! log and whatever is in it (`PromiseOverLog`).
//!
//! `laws::sessions_over_logs()` speaks of any number of sessions over journals that have read
//! prefixes of one list of known entries. A file's entries aren't known. In all slots, factories of
//! one service and number carry one description (`HoldsOneDescription`). If nothing that is read
//! elsewhere is in an own node's name, no more nodes hold one than its description allows
//! (`FewHold`). Both hold over any number of compactions (`HoldsOneAcross`, `FewHoldAcross`).
//! `laws::opens_again()`: an open by any node with the same settings and types takes what a call
//! has given, or is out of memory. This holds over a table that nobody else uses, with a place and
//! a number left (`OpensAgain`).
#![tactic(auto)]

pub mod builder;
pub mod laws;
mod promise;
pub mod session;
pub mod shared;
pub mod table;

pub use iceoryx2_access::storage;
pub use iceoryx2_builder::command;
pub use iceoryx2_call_laws::{fault_laws, quiet_laws};
pub use iceoryx2_data::{attribute, bytes, description};
pub use iceoryx2_rounds::port_factory;
pub use iceoryx2_testing::{script, traced};
pub use iceoryx2_types::types;
