//! A log of accesses that processes share: its entries with their byte form, what a log is, and a log in memory.
//!
//! `form::encode` returns the form of the entry (`IsForm`), and `TooLong` exactly if its body is longer
//! than the longest. `form::decode` finds an entry exactly if the bytes begin with its form, and gives
//! the number of bytes of that form, unless memory runs out. `CutShort` comes exactly if the bytes end
//! within a header, or sooner than a header that fits says (`IsCutShort`). All other bytes are
//! `Malformed`. `form::laws_of_forms()`: an entry has one form, entries with one form are equal, no form
//! is a prefix of another, and a form whose end is missing is cut short.
//!
//! The trait `Log` states what each call does to the entries that the handle has taken and to the unread
//! ones, if these are known (`WhereKnown`). It also states whether the handle holds the log (`held`), and
//! whether `next` has shown the entry that `accept` takes over (`shown`). A hold is granted only if the
//! handle doesn't hold the log, and an append only if it does. A look reads on without holding the log.
//! `MemoryLog` keeps this. Its holds, looks and appends are exact except for memory (`Holds`, `Looks`,
//! `AppendsOne`).
//!
//! `CallLog` is any log, held over all accesses of a call. The log inside stays held as long as the call
//! has it (`IsSpanned`). A call finds the log busy with its first access or never (`SpansOn`).
#![tactic(auto)]

pub mod call_log;
pub mod entry;
pub mod form;
pub mod log;
pub mod memory;
