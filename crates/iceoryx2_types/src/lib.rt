//! The types of a service's messages: their details, and which of them are compatible.
//!
//! `TypeDetail::new` tests the name first and then the alignment. It refuses a name that does not have 1 to 256
//! bytes, and an alignment that is not a power of two. Each error comes exactly if the tests before it pass.
//! `Alignment::new` is `None` exactly if the number is not a power of two. Readers, `clone`, `==` and texts are
//! exact (`equality_of_types()`).
//!
//! Each type of `ZeroCopySend` answers the constants of its implementation (`Detail`). Its alignment is a power of
//! two, its size is a multiple of the alignment, and its name has 1 to 256 bytes. `with_overrides` replaces a
//! message's own user header and payload with those that are given. Then it aligns the payload to the greater of
//! the payload's alignment and the alignment that is asked for. `laws_of_compatibility()` states that compatibility
//! is reflexive and transitive, and that its test decides it (`IsCompatible`). It also states that exactly the
//! powers of two are taken for an alignment.
#![tactic(auto)]

pub mod types;
