//! A map from keys to values as a sorted vector, whole or in pieces.
//!
//! `SortedVec` is seen as the finite map that it holds (`map_of`). Its entries stand in the order of their keys.
//! Without a limit they are one vector, and a new key moves all that follow. With a limit they are in pieces of at most
//! so many, and a new key moves the entries of one piece alone.
//!
//! What is asked for first takes no memory later: after `reserve_at` granted a key, putting it there needs none
//! (`HasRoomFor`). It is refused only for a key that is absent and has no room. A removal takes none. A place that a
//! search found is a hint for later: where another key stands now, it is searched for again.
//!
//! `Walk` comes to the entries by rising key, and `Both` to the keys of two maps (`both_of`).
#![tactic(auto)]

pub mod both;
mod piece;
mod pieces;
pub mod sorted;
pub mod walk;
