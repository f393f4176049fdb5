//! The result of a question, by the lines of its reply.

ghost use Rattle.std.specs.Prelude.{◌≡◌, ◌≢◌, ◌⊎◌, ◌∷◌, [], true, Err, IfOk, IfErr, OnOk, OnErr, codes};
ghost use Rattle.std.specs.Io.KnownBytes.{Appends};
ghost use Rattle.iceoryx2_log.specs.Form.{IsForm};
ghost use Rattle.iceoryx2_postgres_log.specs.declared.fault.PostgresFault.TheVariants as fault;
ghost use Rattle.iceoryx2_postgres_log.specs.Faults.{is_over_by, IsGrave};
ghost use Rattle.iceoryx2_postgres_log.specs.Questions as text;
ghost use Rattle.iceoryx2_postgres_log.specs.Replies.{Asks};
ghost use Rattle.iceoryx2_postgres_log.specs.Hearing.{TellsOpened, IsHeldPiece, IsHeld, IsBusy, IsFreed, IsLook};
ghost use Rattle.iceoryx2_postgres_log.specs.Hearing.{IsDone, IsRefusedAppend, IsFormFault};

use crate::fault::PostgresFault;
use crate::line::Line;
use crate::piece::{Piece, piece_of};
use crate::question::{END, appending, holding, looking, pausing};
use crate::reply::ask;
use crate::row::is_place;
use crate::standing::{Standing, standing_of};
use iceoryx2_log::entry::Entry;
use iceoryx2_log::form::{EncodeError, encode};
use std::alloc::Global;
use std::io::{BufRead, Write};

// ---- where a log stands

/// Returns where the log of a name stands, or `None` if there is no such log.
pub fn ask_opened<R: BufRead, W: Write>(
    alloc: Global,
    question: &[u8],
    questions: &mut W,
    replies: &mut R,
) -> Result<Option<Standing>, PostgresFault>
    ensures { IfOk result (TellsOpened question.now (W.contents questions.old) (W.contents questions.new)
        (R.remaining replies.old) (R.remaining replies.new)) }
{
    let reply = ask(alloc, question, b"opened", questions, replies)?;
    if !reply.ends(b"opened 00000") {
        return Err(reply.refusal(b"opened"));
    }
    if reply.rows.is_empty() {
        return Ok(None);
    }
    let Some(row) = reply.only_row(b"opened 00000") else {
        return Err(PostgresFault::NotUnderstood);
    };
    let start = standing_of(alloc, row.as_slice())?;
    Ok(Some(start))
}

// ---- reading

/// Returns the reason why the server refused a reading, if it says so; else `NotUnderstood`.
pub fn of_reading(why: PostgresFault) -> PostgresFault
    ensures { is_over_by result ≡ true }
{
    match why {
        PostgresFault::NoSchema | PostgresFault::NoRight | PostgresFault::ReadOnly => why,
        PostgresFault::Refused { state: _ } => why,
        _ => PostgresFault::NotUnderstood,
    }
}

/// Returns the rows behind the place up to `until`, or the first of them.
pub fn ask_look<R: BufRead, W: Write>(
    alloc: Global,
    at: &Standing,
    until: u64,
    questions: &mut W,
    replies: &mut R,
) -> Result<Piece, PostgresFault>
    ensures ok { IfOk result (IsLook at.now until (W.contents questions.old) (W.contents questions.new)
        (R.remaining replies.old) (R.remaining replies.new)) }
    ensures err { IfErr result IsGrave }
{
    let Ok(question) = looking(alloc, at.log, at.generation, at.number, until) else {
        return Err(PostgresFault::OutOfMemory);
    };
    let Ok(reply) = ask(alloc, question.as_bytes(), b"read", questions, replies) else {
        return Err(PostgresFault::SessionEnded);
    };
    if !reply.ends(b"read 00000") {
        return Err(of_reading(reply.refusal(b"read")));
    }
    match piece_of(alloc, at.number, until, at.place.as_slice(), &reply.rows) {
        Ok(piece) => Ok(piece),
        Err(why) => Err(why),
    }
}

/// Returns the rows behind the place, as a hold tells them: an empty row comes first, of the lock.
fn held_piece(alloc: Global, at: &Standing, rows: &[Line]) -> Result<Piece, PostgresFault>
    ensures ok { IfOk result (IsHeldPiece at.now rows.now) }
    ensures err { IfErr result IsGrave }
{
    let Some((void, lines)) = rows.split_first() else {
        return Err(PostgresFault::NotUnderstood);
    };
    if !void.as_slice().is_empty() {
        return Err(PostgresFault::NotUnderstood);
    }
    piece_of(alloc, at.number, END, at.place.as_slice(), lines)
}

/// Lets go of the log: its gate is unlocked, and the transaction ends. Nothing is told.
pub fn write_letting_go<W: Write>(log: u64, questions: &mut W) -> Result<(), PostgresFault>
    ensures ok { OnOk result (Appends (W.contents questions.old) (W.contents questions.new) (text.letting_go log)) }
    ensures err { OnErr result (result ≡ Err fault.SessionEnded) }
{
    match write!(
        questions,
        "select 1 where not pg_advisory_unlock('wulameron.logs'::regclass::oid::int, {log})\\; commit;\n"
    ) {
        Ok(()) => {}
        Err(_) => return Err(PostgresFault::SessionEnded),
    }
    match questions.flush() {
        Ok(()) => Ok(()),
        Err(_) => Err(PostgresFault::SessionEnded),
    }
}

/// Holds the log, and reads the rows behind the place, or the first of them. `Busy` if the server waited
/// for another session for as long as it does. If something was locked and can't be taken for held, the
/// call lets go of it.
pub fn ask_hold<R: BufRead, W: Write>(
    alloc: Global,
    at: &Standing,
    questions: &mut W,
    replies: &mut R,
) -> Result<Piece, PostgresFault>
    ensures ok { IfOk result (IsHeld at.now (W.contents questions.old) (W.contents questions.new)
        (R.remaining replies.old) (R.remaining replies.new)) }
    ensures err { IfErr result (λ why. (why ≡ fault.Busy) ⊎ IsGrave why) }
    ensures busy { result ≡ Err fault.Busy → IsBusy at.now (W.contents questions.old) (W.contents questions.new)
        (R.remaining replies.old) (R.remaining replies.new) }
    ensures memory { result ≡ Err fault.OutOfMemory → IsFreed at.now (W.contents questions.old)
        (W.contents questions.new) (R.remaining replies.old) (R.remaining replies.new) }
{
    let Ok(question) = holding(alloc, at.log, at.generation, at.number) else {
        return Err(PostgresFault::OutOfMemory);
    };
    let Ok(reply) = ask(alloc, question.as_bytes(), b"held", questions, replies) else {
        return Err(PostgresFault::SessionEnded);
    };
    if reply.is_short(b"held 55P03") {
        return Err(PostgresFault::Busy);
    }
    if !reply.ends(b"held 00000") {
        return Err(of_reading(reply.refusal(b"held")));
    }
    match held_piece(alloc, at, &reply.rows) {
        Ok(piece) => Ok(piece),
        Err(why) => match write_letting_go(at.log, questions) {
            Ok(()) => Err(why),
            Err(_) => Err(PostgresFault::SessionEnded),
        },
    }
}

// ---- appending

/// Returns the byte form of an entry. `TooLong` if its body is longer than any body that is read.
pub fn form_of(alloc: Global, entry: &Entry) -> Result<Vec<u8>, PostgresFault>
    ensures ok { IfOk result (λ form. IsForm entry.now form.items) }
    ensures err { IfErr result IsFormFault }
{
    match encode(alloc, entry) {
        Ok(form) => Ok(form),
        Err(EncodeError::TooLong) => Err(PostgresFault::TooLong),
        Err(EncodeError::OutOfMemory) => Err(PostgresFault::OutOfMemory),
    }
}

/// Returns the reason why the server refused, if it says so; else `Unsure`.
pub fn of_append(why: PostgresFault) -> PostgresFault
    ensures over { is_over_by result ≡ true }
    ensures known { result ≢ fault.NotUnderstood }
    ensures same { (result ≡ fault.Unsure) ⊎ (result ≡ why) }
{
    match why {
        PostgresFault::NoSchema | PostgresFault::NoRight | PostgresFault::ReadOnly => why,
        PostgresFault::Refused { state: _ } => why,
        _ => PostgresFault::Unsure,
    }
}

/// Makes the form the entry of this number, and commits that. Returns the entry's place. `OutOfMemory`
/// comes before anything is asked. `NoSchema`, `NoRight`, `ReadOnly` and `Refused` come if the server
/// says that it refused; else `Unsure`.
pub fn ask_append<R: BufRead, W: Write>(
    alloc: Global,
    at: &Standing,
    number: u64,
    form: &[u8],
    questions: &mut W,
    replies: &mut R,
) -> Result<Line, PostgresFault>
    ensures ok { IfOk result (IsDone at.now number form.now (W.contents questions.old) (W.contents questions.new)
        (R.remaining replies.old) (R.remaining replies.new)) }
    ensures memory { result ≡ Err fault.OutOfMemory
        → (questions.new ≡ questions.old) × (replies.new ≡ replies.old) }
    ensures over { IfErr result IsGrave }
    ensures refused { IfErr result (λ why. (why ≡ fault.OutOfMemory) ⊎ ((why ≡ fault.Unsure)
        ⊎ IsRefusedAppend at.now number form.now (W.contents questions.old) (W.contents questions.new)
        (R.remaining replies.old) (R.remaining replies.new) why)) }
{
    let Ok(question) = appending(alloc, at.log, at.generation, number, form) else {
        return Err(PostgresFault::OutOfMemory);
    };
    let Ok(reply) = ask(alloc, question.as_bytes(), b"appended", questions, replies) else {
        return Err(PostgresFault::Unsure);
    };
    if !reply.ends(b"appended 00000") {
        return Err(of_append(reply.refusal(b"appended")));
    }
    let Some(place) = reply.only_row(b"appended 00000") else {
        return Err(PostgresFault::Unsure);
    };
    match is_place(alloc, number, place.as_slice()) {
        Ok(true) => Ok(place),
        _ => Err(PostgresFault::Unsure),
    }
}

// ---- waiting

/// Lets go of the log, and waits at the server. `OutOfMemory` comes before anything is asked.
pub fn ask_pause<R: BufRead, W: Write>(
    alloc: Global,
    log: u64,
    questions: &mut W,
    replies: &mut R,
) -> Result<(), PostgresFault>
    ensures ok { OnOk result (Asks (text.pausing log) (codes "paused") ([] ∷ []) text.paused
        (W.contents questions.old) (W.contents questions.new) (R.remaining replies.old) (R.remaining replies.new)) }
    ensures memory { result ≡ Err fault.OutOfMemory
        → (questions.new ≡ questions.old) × (replies.new ≡ replies.old) }
    ensures over { IfErr result IsGrave }
{
    let Ok(question) = pausing(alloc, log) else {
        return Err(PostgresFault::OutOfMemory);
    };
    let Ok(reply) = ask(alloc, question.as_bytes(), b"paused", questions, replies) else {
        return Err(PostgresFault::SessionEnded);
    };
    if reply.is_exactly(b"", b"paused 00000") {
        return Ok(());
    }
    Err(PostgresFault::NotUnderstood)
}
