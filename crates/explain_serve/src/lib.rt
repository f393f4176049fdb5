//! What the program `explain` does: each line is answered as by `negotiate`, and each reply is explained.
//!
//! `serve::serve` is over any reader and writer whose bytes are known, in either format. After the format's head the
//! writer has taken the explanation of the input and nothing else. If writing failed, it has a prefix of it; if memory
//! ran out, a prefix of it and then `out of memory` (`ExplainsInput`). It is a transcript like that of `negotiate`,
//! whose answers are these (`Explains`): the machine of `negotiate` replies so. The session over a traced table goes
//! along the command's word, whose accesses are the last entries of the trace, up to 2^64 - 1 in all (`AppliesTraced`).
//! The text has both, with what explains a refusal (`IsTextInLines`, `IsTextInDiagram`).
//!
//! `Explainer::new` begins over an empty table with room for 264 accesses, and no command makes more. `finish` leaves
//! nothing (`HasNothing`). `Format::named`: `--diagram` asks for a diagram, and no other text asks for anything.
//!
//! After a reply it prints the accesses of the call, and for a refusal when it comes, what can be done, and what was
//! required and offered. Each function writes to a text that grows by exactly its lines; if memory runs out, it may
//! have a part of them. `describe_accesses`: a line for each of the latest accesses, and before them how many aren't
//! kept (`trace_lines`). `refusals::RefusalRow::of`, `describe_row`: each refusal has the row of its reason
//! (`refusal_row`); `tools/check-docs` compares the texts with docs/REFUSALS.md.
//!
//! `settings::describe_offer`: for an error that names a setting, each setter of that name that no later one sets
//! again, with the value that it requires and the one that is offered (`required_lines`); for types, each part of the
//! messages (`message_lines`); for attributes, the first key that is lacking (`lacking_lines`); for any other error
//! nothing (`offer_lines`). `draw_accesses` and `draw_note` are exact (`messages`, `note_line`).
//! `standing::service_of`: the listed description of the call's name and pattern, and `None` exactly if there is none
//! (`IsFound`).
#![tactic(auto)]

pub mod accesses;
pub mod diagram;
pub mod drawing;
pub mod explainer;
pub mod format;
pub mod lines;
pub mod refusals;
pub mod serve;
pub mod settings;
pub mod standing;
