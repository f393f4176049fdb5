//! The rounds of a call, once for any pattern and over any storage: how a service is created, opened, opened or created,
//! and closed.
//!
//! For every storage, by its own step relation, every pattern and every clock, a call goes along a word of its grammar,
//! with that answer: `create::create`, and `create::create_once`, which takes over what it publishes (`IsCreateWord`),
//! `open::open` (`IsOpenWord`), `open_or_create` (`IsOpenOrCreateWord`: at most six rounds, each a look and then a whole
//! open or create), and a factory's `close` (`IsCloseWord`). The published description has the builder's hash and name,
//! the given attributes, the adjusted settings and the calling node as its creator. An open requires its attributes
//! first and then the settings: a verdict is the error of the first clause that isn't met (`verdict_law`, `Clause`,
//! `attribute_clauses`). A round is retried exactly after six refusals (`retried_by`).
//!
//! Laws over all words, also of calls that prepare types first (`IsCreateCall`, `IsOpenCall`): a create makes at most 20
//! accesses, an open 42, an open or create 264, with limits for each kind of access. A refused call has given back each
//! thing that it made, once, in the order segment, lock, tag, and has left only that for which a removal was refused. A
//! granted one carries its node and a description that it published, or that its requirement accepts
//! (`granted_open_or_create_meets_or_holds`). `IsLawfulCall` is what laws over whole calls ask of a call.
//!
//! What the builders have in common stands here too: a pattern's settings are a table of rows, tested in their order
//! (`Row`, `row_clauses`); zeros become one (`at_least_one`); the types that a call asks for are prepared before its first
//! access (`requested_message`); and what holds of each builder is one record (`IsLawfulBuilder`). `clone` of a base is
//! equal to it, or memory ran out.
#![tactic(auto)]

pub mod answer;
pub mod base;
pub mod caller;
pub mod create;
mod give_back;
pub mod laws;
pub mod look;
pub mod open;
pub mod open_or_create;
pub mod pattern;
pub mod port_factory;
pub mod refusals;
pub mod requested;
pub mod retries;
pub mod settings;
pub mod verdict;
pub mod zeros;

pub use iceoryx2_errors::error;
