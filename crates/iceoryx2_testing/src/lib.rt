//! Storages that replace another storage, or wrap one: `Script` answers from a list, `Faulty` refuses chosen
//! accesses, and `Traced` records the accesses and their answers.
//!
//! Each access of `Script` takes the first answer if it is of the access's kind. A first answer of another kind
//! stays. Then, and if the list is empty, the access gives the general fault (`IsScriptAccess`). `Faulty` wraps any
//! storage, and counts accesses from 1. If an access's number is listed, it gives its general fault, and the
//! storage inside is unchanged. Otherwise it is the access of the storage inside (`IsInjectedFault`). Each access
//! of `Traced` is the access of the storage inside, with the same answer. A record of the access (`entry_of`, with
//! its text `entry_text`) is kept after the others. If there is no more room, the oldest record is forgotten. The
//! access is also counted (`IsTracedAccess`).
//!
//! `laws::scripts()`: along any run the answers before it are those that it took, in order, and then those that are
//! left. `laws::faults()`: a run over a faulty storage is a run of the storage inside in which any access may be
//! refused. If none of the run's own accesses is refused, it is a run of that storage alone (`RefusesNone`).
//! `laws::traces()`: a run over a traced storage is the same run of the storage inside. From a new or cleared one,
//! the records that are kept are those of the last accesses of the word, as many as there is room for.
#![tactic(auto)]

pub mod laws;
pub mod script;
pub mod traced;
