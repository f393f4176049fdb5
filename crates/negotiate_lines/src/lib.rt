//! What a line is: a command, or what is wrong with it; and what a line of an escaped session asks.
//!
//! `line::parse`: a line is blank, the command that its terms are, or neither. Then this is the first thing that is
//! wrong, from left to right, exactly by the tables (`IsLine`, `IsWrong`). If memory runs out, nothing is read. Spaces
//! part terms, which are taken one after the other (`TakesTerms`). A number is one or more decimal digits below its
//! limit. Values, times, truth values, alignments and types are exact (`Finds`, `Reads`). One row of its pattern's
//! table names a setting (`IsSettingOf`), and no two rows have one name (`IsUnambiguous`). `line::without_end` takes
//! one `\n` away, and one `\r` before it.
//!
//! Names, keys, values of keys and names of types are leaves: as they are, or with `%XX` for a byte (`Form`, `IsLeaf`).
//! `line::parse_in` reads a line of either form (`IsLineIn`). A text is written as a leaf that has this text and parts
//! nothing (`leaf::laws_of_leaves`). `question::parse_request` reads a line of an escaped session: a question by the
//! row of its first word, or any other line (`IsRequest`).
//!
//! `wrong_text::wrong_text` puts what is wrong into words (`IsWrongText`). A word that it offers is the first of the
//! nearest words that are allowed there; if it offers none, none is near (`Suggests`). It writes a word of the line
//! without control characters, and at most 64 characters of it (`shown`). `escape::escape` writes any text so, uncut
//! (`escaped`).
#![tactic(auto)]

mod arguments;
mod call_term;
pub mod escape;
pub mod leaf;
pub mod line;
pub mod line_error;
mod nearest;
pub mod question;
mod setting_terms;
mod term;
mod type_term;
mod value;
pub mod vocabulary;
mod wrong_terms;
pub mod wrong_text;
