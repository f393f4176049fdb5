//! How a node asks for a service of request-response, and makes or opens it.
//!
//! The calls with attributes are the rounds for what the builder asks and for its two messages, or make no access
//! and answer out of memory (`IsCreateCall`, `IsOpenCall`); those without are these with none. Each message has its
//! header, its payload, its user header and its own alignment (`messages_for`). A setter changes its setting and
//! its mark (`with_setting`). All seven zeros become one in a create. An open asks that the request is compatible
//! to the existing one, and then the response, before any attribute (`misfit_of`); then come the marked settings in
//! order, three flags that must be the same and then seven numbers that must not be less (`setting_rows`).
#![tactic(auto)]

pub mod request_response;
