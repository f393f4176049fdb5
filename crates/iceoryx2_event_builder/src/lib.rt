//! How a node asks for a service of events, and makes or opens it.
//!
//! `create_with_attributes`, `open_with_attributes` and `open_or_create_with_attributes` are the rounds for what
//! the builder asks (`IsCreateWord`, `IsOpenWord`, `IsOpenOrCreateWord`), in its own errors; the forms without
//! attributes are these with none. A setter changes its setting and its mark and nothing else (`with_setting`); a
//! fresh builder has the node's configured settings with nothing marked. Zero notifiers, listeners and nodes become
//! one in a create. The requirement is the marked settings in order: four numbers that must not be less, then three
//! events and a deadline's length that must be the same (`setting_rows`). When a service was created is never
//! compared. `clone` is equal, or memory ran out.
#![tactic(auto)]

pub mod event;
