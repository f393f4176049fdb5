//! The description of a service: its name, its hash, its pattern with the settings, and their parts.
//!
//! `ServiceName::new`, `Duration::new` and `Time::new` refuse exactly in the stated cases. Otherwise their result
//! holds the arguments (`IsName`, `IsSpan`). A hash has 20 bytes, a name has 1 to 255 (`limits_of_names()`), and a
//! second has a billion nanoseconds. `==` of times is exact (`equality_of_times()`). `ServiceHash::to_text` is the
//! hash in lower case hexadecimal digits.
//!
//! A description is of events, publish-subscribe or request-response, within the limits of `IsDescription`. The
//! last two hold the types of their messages, with sizes and alignments below 2^64. `StaticConfig::new` has no
//! creator. `with_creator` sets the creator, changes no other part and takes no memory. `is_same_pattern`, the
//! readers, `clone`, the texts of `ServiceNameError` and the configured defaults (`default_config`) are exact.
#![tactic(auto)]

pub mod config;
pub mod description;
pub mod event;
mod messages;
pub mod publish_subscribe;
pub mod request_response;
pub mod time;
