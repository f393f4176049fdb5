//! What the program `wulameron` does: each line is answered over a log that processes share.
//!
//! `view::Viewed` is a storage that knows how a reply is written. Over a journal it is the reply. Over a storage that
//! keeps its accesses it is the reply, all accesses of the command's word, and what explains a refusal
//! (`WritesExplained`).
//!
//! `answerer::NodeAnswerer` is over any of these. A call that names another node changes nothing and has its own text.
//! Any other is answered by the session's reply, and a list after what others did was taken over (`AnswersFor`). If a
//! call is refused and a dead node may be the cause (`is_blocked`), it releases what dead nodes have, and the refusal
//! stays or the call is made once more. Between two lines the world agrees, the slots' factories stand and the node is
//! an own one (`StandsFor`). An explained answer begins with what is written without explanations (`BeginsAsAnswered`).
//!
//! `own_lines::OwnLines` answers a line whose third term is `-` as the line that has the node's number there
//! (`AnswersNamed`), and any other line as it is.
//!
//! `run::answer_input` writes the transcript by these answers as long as the log can be used, and closes what is open
//! (`Serves`). A line that is no command has the reply `error: ` with what is wrong (`LinesBy`), and ends the program
//! only with `--strict` (`MayEnd`). If the log can't be used, `NodeAnswerer::cleaned` ends before the input is touched.
//! `run::start_and_answer` starts the node first (`StartsLog`). Its line and status are exact (`status_with`). Of
//! `run::run`, which opens the file, only safety is proved.
//!
//! `asked` answers the questions of a node: commands of escaped lines have escaped replies, and questions about nodes,
//! and about what dead ones have, their answers (`AsksWith`). `cleaning::answer_clean` releases what dead nodes have,
//! one after the other, and tells the sums (`CleansAsked`). A rehearsal does so in a world of its own
//! (`RehearsesAsked`). `escaped::answer_escaped_input` writes the transcript of such lines (`ServesEscaped`). If the
//! log can't be used any more after a line, its reply is replaced by the reason (`TellsTrouble`), and no later line is
//! answered. The private `escaped::start_and_greet` starts the node and greets first, or tells why not
//! (`ServesEscapedLog`). `gone::refuse_session` tells that the former sessions are gone.
//!
//! The command that makes one call, and holds its factory until an input ends, is here too.
//!
//! `holding::hold_call`, over any storage that shows a world: the call is made by its own grammar. If it returns a
//! factory, exactly what `show` prints of it is written, or a prefix of that, and the slot is closed afterwards, whatever
//! came. If the call is refused, nothing is written (`Holds`, `HoldsMade`). While it waits, it may go on in another
//! session of a database. The slots then hold what they held, or it ends and tells so (`Waits`). Its status is exact
//! (`hold_status`, `end_status`). That it waits until the input ends, and goes on when it is woken, is tested.
//!
//! `refused::tell_refusal` writes exactly the line of a refusal, and after it what the call required beside what the
//! service offers (`refusal_line`, `offered_lines`). `offer_to` returns the service of the call's name and pattern that
//! is published in the storage's world (`IsFoundIn`). `remedy::remedy`: each refusal has its text (`remedy_of`). That
//! `hold` tells the service that was there when the call was refused is tested.
//!
//! `holding::call_line`: the words of a call are the terms of an escaped line (`call_line`, `word_of`). So a name and
//! the leaves of a term may have blanks. That errors tell the words as they were given is tested.
#![tactic(auto)]

pub mod answerer;
pub mod asked;
pub mod cleaning;
pub mod dead;
pub mod escaped;
pub mod gone;
pub mod hold;
pub mod holding;
pub mod lines;
mod log_task;
pub mod nodes;
pub mod own_lines;
pub mod refused;
pub mod remedy;
pub mod run;
pub mod telling;
pub mod told_lines;
pub mod view;
pub mod words;
