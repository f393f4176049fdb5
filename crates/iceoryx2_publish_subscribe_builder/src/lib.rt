//! How a node asks for a service of publish-subscribe, and makes or opens it.
//!
//! The calls with attributes are the rounds for what the builder asks and for its message, or make no access and
//! answer out of memory (`IsCreateCall`, `IsOpenCall`); those without are these with none. The message is that of
//! the published header, the user header and the payload (`message_for`), with what stands in place of the last two
//! and the payload aligned at least as far as is asked. A setter changes its setting and its mark (`with_setting`);
//! `payload_alignment` and what stands in place of a type mark nothing.
//!
//! Zeros become one in a create, but not in the history; without safe overflow a create whose buffer has less room
//! than the history wants is refused before any access (`lacks_room_for_history`). An open asks that its message is
//! compatible to the existing one before any attribute (`misfit_of`); then come the marked settings in order,
//! numbers that must not be less and an overflow that must be the same (`setting_rows`).
#![tactic(auto)]

pub mod publish_subscribe;
