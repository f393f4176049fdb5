//! A log in a PostgreSQL database. Its calls are questions in the words of the database's client, `psql`, written to
//! one stream, and the lines of the replies are read from another.
//!
//! `question` is the text that is written, byte for byte (`specs/Questions.antt`). `reply::ask` writes it
//! once. It reads the lines up to the first that begins with the mark, and nothing behind it (`Hears`).
//! `hearing` is the result of a question. A hold is `Ok` only if the server told the place that the
//! handle knew, and then the rows behind it in order, all of them or 64 (`IsHeld`, `IsPiece`). It is
//! `Busy` only by 55P03. An append is `Ok` only if the entry's form was to be inserted under the next
//! number, and exactly its place and `appended 00000` were told (`IsDone`). It is refused by a name only
//! if the server told that (`IsRefusedAppend`), and else `Unsure`.
//!
//! `postgres_log::PostgresLog` is the handle. `next` shows an entry only if all of the first row's bytes
//! are its form. It shows none only if the number is the measured end's. It gives `Moved` only at a mark,
//! and `Damaged` only if the bytes are no entry's form. An `Err` leaves the number and the place. A
//! handle that was told something else than it asked for asks nothing any more (`is_over`). `compact` is
//! `Ok` only if the server told three things: the mark's row, each copy with the intended form, in order,
//! and that the next generation is the current one (`IsCompacted`). An `Err` of it leaves nothing
//! committed (`LeavesNothing`): nothing was asked, or a rollback was written last, or the server told
//! that it refused. Otherwise it is `Unsure`, or the session has ended. `again` goes on in a new session
//! (`StandsAgain`).
//!
//! `nodes` asks for claims of nodes, and for the list of them. It takes only exactly the rows that its
//! definitions name for an answer.
//!
//! All this is true for any reader and any writer; their content is known if their types say so. We trust
//! what the server and its client do with the texts: that the gate excludes, that a commit stands, that
//! the lines come from the server. No contract knows what the server keeps, so `contents` claims nothing,
//! as for a file.
#![tactic(auto)]

mod compacting;
pub mod fault;
pub mod first;
pub mod hearing;
pub mod line;
pub mod name;
pub mod nodes;
mod number;
pub mod patience;
pub mod piece;
pub mod postgres_log;
pub mod question;
pub mod reply;
pub mod row;
pub mod standing;
