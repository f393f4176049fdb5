//! The commands `list`, `show` and `nodes` of `wulameron`, and what they print: texts for people and for programs.
//!
//! `services::services_of` lists each published service of a world once, by its name, its pattern and its hash, and
//! those that are being created (`AreServicesOf`). Which of them are listed is exact (`AreThose`). The table, all that
//! is known of one service, and both as JSON are exactly their definitions (`list_text`, `show_text`, `list_json`,
//! `show_json`). `states::standings` tells dead nodes from ended ones, by whether something of the node is left in the
//! world (`AreStandings`).
//!
//! `looking::print_list`, `print_show` and `print_nodes` are over any log. Either all that others appended was taken
//! over, and exactly the text of the world then is written, or a prefix of it if the output refuses; or not all was
//! taken over, and nothing is written. `show` prints a service only if it is the wanted one. It tells that there is
//! none, or that there are several, only if this is so (`LooksAt`, `IsListed`, `IsShown`, `IsUnshown`, `AreNodes`). The
//! status follows (`EndsLook`). Of `list`, `show` and `nodes`, which open the file, only safety is proved.
#![tactic(auto)]

mod json;
pub mod list_json;
pub mod list_text;
pub mod looking;
pub mod nodes_json;
pub mod nodes_text;
pub mod services;
pub mod settings;
pub mod show_json;
pub mod show_text;
pub mod states;
mod table;
pub mod viewing;
