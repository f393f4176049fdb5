//! How lines of an escaped session are answered, whatever the storage.
//!
//! `lines::EscapedLines`: a line is what `parse_request` reads, and each case of it has its answer
//! (`AnswersEscapedLine`): a command, a question, a whole plain line, what is neither, and a blank one. It is a way of
//! answering lines (`negotiate_serve::lines::Lines`) for any `Asked`, which answers commands in escaped texts, and
//! questions. `answerer::TableAnswerer` is one: a session over a table of its own, which replies as the machine of
//! `negotiate` does (`SessionReplies`). `reply::describe_escaped` writes a reply, a refusal with its number and the
//! names in a listing as leaves (`IsEscapedReply`). `questions::answer_question` answers a question over any storage
//! that shows a world (`AnswersQuestion`): what was agreed on in a slot, its bytes, an abandon, after which the slot is
//! empty and nothing else changed, the entries of the listing, and the texts of the refusal of a number (`numbered`).
//!
//! `asking::write_asking` writes what was agreed on as the line that asks for it (`asking`). Read as an escaped line,
//! it asks for the same, and is nothing else (`law_of_asking`). `laws::law_of_one_line`: each answer, except to a list,
//! is one line of printable ASCII (`IsOneLine`), unless it tells what is wrong with a line.
#![tactic(auto)]

pub mod answerer;
pub mod asking;
pub mod entries;
pub mod laws;
pub mod lines;
pub mod questions;
pub mod reply;
