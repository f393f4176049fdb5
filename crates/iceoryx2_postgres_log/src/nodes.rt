//! The nodes of a log, and whether they are alive: sessions claim nodes by locks that end with the session.

ghost use Rattle.std.specs.Prelude.{◌≡◌, ◌∷◌, [], map, codes, Err, IfOk, IfErr};
ghost use Rattle.iceoryx2_postgres_log.specs.declared.fault.PostgresFault.TheVariants as fault;
ghost use Rattle.iceoryx2_postgres_log.specs.Names.{IsLogName};
ghost use Rattle.iceoryx2_postgres_log.specs.Replies.{Asks};
ghost use Rattle.iceoryx2_postgres_log.specs.NodeQuestions as text;
ghost use Rattle.iceoryx2_postgres_log.specs.Nodes.{claim_row, free_rows, node_row, IsRising, IsUnanswered, IsNoAnswer};

mod question;
mod rows;

use crate::fault::PostgresFault;
use crate::name::is_log_name;
use crate::reply::ask;
use question::{claiming, claiming_dead, claiming_free, listing, releasing};
use rows::{free_node_of, rows_of};
use std::alloc::Global;
use std::io::{BufRead, Write};

/// Whether a session has a node.
#[derive(Clone, Copy, Debug, PartialEq, Eq)]
pub enum Life {
    /// A session has it.
    Alive,
    /// Its session has ended, and for some seconds nobody but its own process gets it.
    Lost,
    /// No session has it, and any session may get it.
    Dead,
}

/// A node that was claimed at some time, and whether a session has it now.
#[derive(Clone, Copy, Debug, PartialEq, Eq)]
pub struct NodeRow {
    pub node: u64,
    pub life: Life,
}

/// Asks a question that is answered by `t` or `f`, and nothing else.
fn ask_whether<R: BufRead, W: Write>(
    alloc: Global,
    question: &str,
    mark: &[u8],
    end: &[u8],
    questions: &mut W,
    replies: &mut R,
) -> Result<bool, PostgresFault>
    ensures ok { IfOk result (λ is. Asks question.now mark.now (claim_row is ∷ []) end.now
        (W.contents questions.old) (W.contents questions.new) (R.remaining replies.old) (R.remaining replies.new)) }
    ensures err { IfErr result (IsUnanswered question.now mark.now
        (W.contents questions.old) (W.contents questions.new) (R.remaining replies.old) (R.remaining replies.new)) }
{
    let reply = match ask(alloc, question.as_bytes(), mark, questions, replies) {
        Ok(reply) => reply,
        Err(why) => return Err(why),
    };
    if reply.is_exactly(b"t", end) {
        return Ok(true);
    }
    if reply.is_exactly(b"f", end) {
        return Ok(false);
    }
    Err(reply.refusal(mark))
}

/// Claims a node for as long as the session lasts, or until `release`, and returns true if it could. It
/// returns false if another session had the node for all of the patience, in milliseconds, or if this
/// session has it. The server waits for at least 1 ms, and for at most 2,147,483,647. If there is no log,
/// the call makes it.
///
/// - `BadName`: no log has such a name. Nothing is asked.
/// - `OutOfMemory`: there was no memory for the question, and nothing is asked.
/// - `SessionEnded`: the question couldn't be written, the lines ended before its reply did, or there was
///   no memory for them.
/// - `NotUnderstood`: the reply tells something else than what was asked for.
/// - Any other: the server refused by the SQLSTATE that the error stands for.
pub fn claim<R: BufRead, W: Write>(
    alloc: Global,
    name: &str,
    node: u64,
    patience_millis: u64,
    questions: &mut W,
    replies: &mut R,
) -> Result<bool, PostgresFault>
    ensures ok { IfOk result (λ is.
        Asks (text.claiming name.now node patience_millis) (codes "claimed") (claim_row is ∷ []) text.claimed
        (W.contents questions.old) (W.contents questions.new) (R.remaining replies.old) (R.remaining replies.new)) }
    ensures bad_name { (IsLogName name.now → ⊥) → result ≡ Err fault.BadName }
    ensures err { IfErr result (IsNoAnswer name.now (text.claiming name.now node patience_millis) (codes "claimed")
        (W.contents questions.old) (W.contents questions.new) (R.remaining replies.old) (R.remaining replies.new)) }
    ensures not_asked { result ≡ Err fault.BadName → (questions.new ≡ questions.old) × (replies.new ≡ replies.old) }
{
    if !is_log_name(name) {
        return Err(PostgresFault::BadName);
    }
    let Ok(question) = claiming(alloc, name, node, patience_millis) else {
        return Err(PostgresFault::OutOfMemory);
    };
    ask_whether(
        alloc,
        question.as_str(),
        b"claimed",
        b"claimed 00000",
        questions,
        replies,
    )
}

/// Claims a node as `claim` does, and waits for nobody. So a session gets the node of another session
/// that has ended.
///
/// An `Err` comes as from `claim`.
pub fn claim_dead<R: BufRead, W: Write>(
    alloc: Global,
    name: &str,
    node: u64,
    questions: &mut W,
    replies: &mut R,
) -> Result<bool, PostgresFault>
    ensures ok { IfOk result (λ is.
        Asks (text.claiming_dead name.now node) (codes "claimed") (claim_row is ∷ []) text.claimed
        (W.contents questions.old) (W.contents questions.new) (R.remaining replies.old) (R.remaining replies.new)) }
    ensures bad_name { (IsLogName name.now → ⊥) → result ≡ Err fault.BadName }
    ensures err { IfErr result (IsNoAnswer name.now (text.claiming_dead name.now node) (codes "claimed")
        (W.contents questions.old) (W.contents questions.new) (R.remaining replies.old) (R.remaining replies.new)) }
    ensures not_asked { result ≡ Err fault.BadName → (questions.new ≡ questions.old) × (replies.new ≡ replies.old) }
{
    if !is_log_name(name) {
        return Err(PostgresFault::BadName);
    }
    let Ok(question) = claiming_dead(alloc, name, node) else {
        return Err(PostgresFault::OutOfMemory);
    };
    ask_whether(
        alloc,
        question.as_str(),
        b"claimed",
        b"claimed 00000",
        questions,
        replies,
    )
}

/// Gives this session's claim of the node back, and returns true if there was one.
///
/// An `Err` comes as from `claim`.
pub fn release<R: BufRead, W: Write>(
    alloc: Global,
    name: &str,
    node: u64,
    questions: &mut W,
    replies: &mut R,
) -> Result<bool, PostgresFault>
    ensures ok { IfOk result (λ is.
        Asks (text.releasing name.now node) (codes "released") (claim_row is ∷ []) text.released
        (W.contents questions.old) (W.contents questions.new) (R.remaining replies.old) (R.remaining replies.new)) }
    ensures bad_name { (IsLogName name.now → ⊥) → result ≡ Err fault.BadName }
    ensures err { IfErr result (IsNoAnswer name.now (text.releasing name.now node) (codes "released")
        (W.contents questions.old) (W.contents questions.new) (R.remaining replies.old) (R.remaining replies.new)) }
    ensures not_asked { result ≡ Err fault.BadName → (questions.new ≡ questions.old) × (replies.new ≡ replies.old) }
{
    if !is_log_name(name) {
        return Err(PostgresFault::BadName);
    }
    let Ok(question) = releasing(alloc, name, node) else {
        return Err(PostgresFault::OutOfMemory);
    };
    ask_whether(
        alloc,
        question.as_str(),
        b"released",
        b"released 00000",
        questions,
        replies,
    )
}

/// Claims the lowest node from 0 to 65,535 that no session has, and returns its number, or `None` if each
/// is claimed. If there is no log, the call makes it. If another session makes the log at once, the call
/// waits for it as `claim` waits.
///
/// An `Err` comes as from `claim`. `OutOfMemory` also comes if the reply was read and there was no memory
/// to compare it.
pub fn claim_free<R: BufRead, W: Write>(
    alloc: Global,
    name: &str,
    patience_millis: u64,
    questions: &mut W,
    replies: &mut R,
) -> Result<Option<u64>, PostgresFault>
    ensures ok { IfOk result (λ found.
        Asks (text.claiming_free name.now patience_millis) (codes "claimed") (free_rows found) text.claimed
        (W.contents questions.old) (W.contents questions.new) (R.remaining replies.old) (R.remaining replies.new)) }
    ensures bad_name { (IsLogName name.now → ⊥) → result ≡ Err fault.BadName }
    ensures err { IfErr result (IsNoAnswer name.now (text.claiming_free name.now patience_millis) (codes "claimed")
        (W.contents questions.old) (W.contents questions.new) (R.remaining replies.old) (R.remaining replies.new)) }
    ensures not_asked { result ≡ Err fault.BadName → (questions.new ≡ questions.old) × (replies.new ≡ replies.old) }
{
    if !is_log_name(name) {
        return Err(PostgresFault::BadName);
    }
    let Ok(question) = claiming_free(alloc, name, patience_millis) else {
        return Err(PostgresFault::OutOfMemory);
    };
    let reply = match ask(alloc, question.as_bytes(), b"claimed", questions, replies) {
        Ok(reply) => reply,
        Err(why) => return Err(why),
    };
    if !reply.ends(b"claimed 00000") {
        return Err(reply.refusal(b"claimed"));
    }
    match free_node_of(alloc, &reply.rows) {
        Ok(Some(found)) => Ok(found),
        Ok(None) => Err(PostgresFault::NotUnderstood),
        Err(_) => Err(PostgresFault::OutOfMemory),
    }
}

/// Returns each node of the log that was ever claimed, by rising number, and whether a session has it.
/// Returns none if there is no such log.
///
/// An `Err` comes as from `claim`. `OutOfMemory` also comes if the reply was read and there was no memory
/// for the nodes.
pub fn list<R: BufRead, W: Write>(
    alloc: Global,
    name: &str,
    questions: &mut W,
    replies: &mut R,
) -> Result<Vec<NodeRow>, PostgresFault>
    ensures ok { IfOk result (λ rows.
        Asks (text.listing name.now) (codes "listed") (map node_row rows.items) text.listed
        (W.contents questions.old) (W.contents questions.new) (R.remaining replies.old) (R.remaining replies.new)) }
    ensures rising { IfOk result (λ rows. IsRising rows.items) }
    ensures bad_name { (IsLogName name.now → ⊥) → result ≡ Err fault.BadName }
    ensures err { IfErr result (IsNoAnswer name.now (text.listing name.now) (codes "listed")
        (W.contents questions.old) (W.contents questions.new) (R.remaining replies.old) (R.remaining replies.new)) }
    ensures not_asked { result ≡ Err fault.BadName → (questions.new ≡ questions.old) × (replies.new ≡ replies.old) }
{
    if !is_log_name(name) {
        return Err(PostgresFault::BadName);
    }
    let Ok(question) = listing(alloc, name) else {
        return Err(PostgresFault::OutOfMemory);
    };
    let reply = match ask(alloc, question.as_bytes(), b"listed", questions, replies) {
        Ok(reply) => reply,
        Err(why) => return Err(why),
    };
    if !reply.ends(b"listed 00000") {
        return Err(reply.refusal(b"listed"));
    }
    match rows_of(alloc, &reply.rows) {
        Ok(Some(rows)) => Ok(rows),
        Ok(None) => Err(PostgresFault::NotUnderstood),
        Err(_) => Err(PostgresFault::OutOfMemory),
    }
}
