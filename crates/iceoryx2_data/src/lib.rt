//! The values that nodes agree on, under one name, attributes and descriptions, and their byte form, read and
//! written.
//!
//! `bytes::encode`: if it succeeds, the bytes are the byte form of the description (`IsForm`). A description
//! without a creator gets the first version of the form. A description with a creator gets the second, with the
//! creator's id after the version. `bytes::decode`: a description that is found has the bytes as its form, in
//! either version. If the bytes are the form of a description, that description is found, or memory ran out. So
//! `Malformed` comes only of bytes that are the form of no description.
//!
//! Attributes and the types of messages are parts of the form. The bytes are no description's form if their pairs
//! don't strictly ascend or are past a limit, if a variant is neither 0 nor 1, or if an alignment is not a power of
//! two. `laws_of_forms()` states that each description within the limits has exactly one form, that bytes are the
//! form of at most one description, and that no form is the prefix of a longer one. `pattern_bytes()`: the
//! patterns' bytes are 1, 2 and 3.
//!
//! Each reader of a part reads exactly the part's form, or memory ran out. Each writer puts that form after the
//! bytes that were written before. The texts of `DecodeError` are exact.
#![tactic(auto)]

pub mod bytes;
pub mod description;
mod parts;

pub use iceoryx2_attribute::attribute;
