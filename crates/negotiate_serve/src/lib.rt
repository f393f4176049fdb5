//! What the program `negotiate` does: each line is answered by what its command comes to.
//!
//! `serve::serve` is over any reader and any writer whose bytes are known. The writer has taken the transcript of the
//! input and nothing else (`Serves`, `IsTranscript`): line by line the text of the reply that the quiet machine gives
//! to the line's command. If a line is no command, all before it are answered, and then `line <k>: not a command`. If
//! reading failed, or there are more than `most_lines` lines, the first lines are answered. If memory ran out, `out of
//! memory` follows the answers. If writing failed, the writer has a prefix (`IsCut`). `ending::status` states the
//! status of each. Afterwards the table has nothing (`HasNothing`, of the private `serve_session`). No clause states
//! when a reader or a writer failed.
//!
//! `serve_by` states this for any `Answerer` (`ServesBy`), and `answer_lines` for any buffered reader, and it writes no
//! failure (`AnswersAll`). `answer_next` is one turn (`TakesTurn`), for any way to answer lines (`Lines`).
//! `input::next_line` reads the next line (`ReadsLine`). `output::write_out` has written the whole text, or a prefix if
//! it fails (`Writes`). `report::report` writes the line of the failure, or of what is wrong with a line, after the
//! program's name (`Reports`). `reply::describe`: the text has grown by exactly the reply (`IsReplyText`). This is its
//! line. For a listing it is a line for each entry whose description is published beside its segment, and their count.
#![tactic(auto)]

pub mod answer;
pub mod answerer;
pub mod ending;
pub mod input;
pub mod lines;
pub mod output;
pub mod reply;
pub mod report;
pub mod serve;
