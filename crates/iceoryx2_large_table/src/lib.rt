//! The world of a table, kept in any finite maps, and the table for many services.
//!
//! `WorldOver` keeps a world in maps of the kinds that are chosen (`Kinds`): sorted vectors (`Vectors`),
//! or maps in chunks (`Chunks`). Nine of its accesses change facts that others may have to know, and take
//! a recorder, which writes them down (`Recorder`). Each of the nine is one of three: the node's own part
//! with nothing written, a granted own part that was written once, or the general fault with the world as
//! it was, if the recorder refused (`IsRecordedPart`). `WorldOver` has the own part of each access
//! (`OwnParts`), so `TableOver<WorldOver<M>>` is a table with every clause of `Table`. The maps of
//! `LargeTable` are in chunks. Each access asks for all its room before it writes anything down. If the
//! room is refused, the access changes nothing.
//!
//! A place that a search found is handed on, so an access goes only once to each thing that it tests and
//! changes (`Steps`).
#![tactic(auto)]

pub mod keys;
pub mod kinds;
pub mod listing;
pub mod local;
pub mod services;
pub mod steps;
pub mod table;
pub mod taking;
pub mod world;
