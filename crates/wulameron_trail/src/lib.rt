//! What `wulameron log`, `watch` and `check` print: a log's entries, what they change, and what is wrong with a log.
//!
//! `entries::entry_line`, `changes::change_text` and `changes::change_json` are exactly their definitions. `change_of`
//! is what an entry changes of a service, at most one thing (`IsChangeOf`). `printing::show_rest` is over any reader
//! whose bytes are known: an output gets exactly what is shown of the entries there, in order, up to a torn end, a
//! mark, damage, or an entry that isn't followed. If the output or memory fails, it gets a prefix of that
//! (`ShowsRest`).
//!
//! `checker::check`: if it finds a log sound, the bytes are a header and entries, each of which is followed, and then
//! nothing, or what a dead writer left (`IsSound`), and the world to which they come agrees
//! (`checker::laws_of_checking`). Anything else that it names is there, after a sound prefix (`IsVerdict`), with one
//! exception: any world meets the clause of an entry that isn't answered, and only tests show that it refuses no sound
//! log with that. `print_verdict` writes its line (`WritesVerdictOf`). When services are listed again, the private
//! `listing::Listing::list_anew` prints the list of the world then, unless that is what was printed last (`ListsAnew`).
//! Of the loops that look at a file again, and go over to the file in which a log goes on, only safety is proved.
#![tactic(auto)]

pub mod changes;
pub mod checker;
pub mod commands;
mod descriptions;
pub mod entries;
pub mod following;
pub mod listing;
pub mod pauses;
pub mod printing;
mod reading;
mod rows;
pub mod showing;
pub mod stopping;
pub mod verdicts;
