//! Nodes, and where the builders of all patterns begin.
//!
//! `laws()`: setters of different settings commute, and of two of the same the last stands; compatibility is
//! reflexive and transitive; what one open accepts, another that asks no more accepts too (`IsWeakerBy`).
//! `laws_of_calls()`, and `opens_what_it_creates()` and `ends_at_once()` of the three modules: a create with
//! adjusted settings publishes for one node or more, and the same builder accepts what it publishes, if the defined
//! pairs meet the required attributes; what a table that nobody else uses refuses is not tried again.
//! `laws_of_looks()`: what a look finds wrong has a public state, and the errors are those that the state becomes
//! by `From`. `laws_of_retries()`: after which of 80 errors an open or create goes on. `laws_of_adjusting()`: what
//! is asked asks no more than what a create makes of it, and adjusting twice is adjusting once. `lawful_calls()`:
//! each call of the three builders is one of which the laws over whole calls speak (`IsLawfulCall`).
//!
//! `command`: what a session is given and what it answers, as values alone. `slots_are_64()`: a session has 64 slots.
#![tactic(auto)]

pub mod builder;
pub mod command;
