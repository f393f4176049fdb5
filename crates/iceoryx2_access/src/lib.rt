//! The accesses that a builder makes of a storage, the answers that a storage may give, and the parts of a factory.
//!
//! Each access of `Storage` ensures its storage's `step` between the states before and after it and its `Letter`:
//! the access with its arguments and its answer. A call ensures `Joins`: a list of letters leads from the state
//! before to the state after, and is a word of the call's grammar (`Run`). `MayRefuse` is any step, or the access's
//! general fault with nothing changed. `Sha1Hasher::hash` is SHA-1 of the prefix and the name's bytes.
#![tactic(auto)]

pub mod storage;
