//! A compaction: the log goes on in its next generation, which begins with a snapshot.
//!
//! The whole compaction is one transaction of the session that holds the log. Until the server tells that
//! the generation is the current one, nobody else sees anything of it.

ghost use Rattle.std.specs.Prelude.{◌≡◌, ◌≢◌, ◌⊎◌, true, Err, IfOk, IfErr, OnOk, OnErr, IsTrue, All, codes, length};
ghost use Rattle.std.specs.Io.KnownBytes.{Appends};
ghost use Rattle.iceoryx2_log.specs.declared.entry.Operation.TheVariants as operation;
ghost use Rattle.iceoryx2_postgres_log.specs.declared.fault.PostgresFault.TheVariants as fault;
ghost use Rattle.iceoryx2_postgres_log.specs.Faults.{is_over_by, IsGrave};
ghost use Rattle.iceoryx2_postgres_log.specs.Questions as text;
ghost use Rattle.iceoryx2_postgres_log.specs.Compacting.{IsMark, AreForms, TellsMove, Moves, TakesCopies, Copies};
ghost use Rattle.iceoryx2_postgres_log.specs.Compacting.{TakesTold};
ghost use Rattle.iceoryx2_postgres_log.specs.Compacting.{CopiesAll, IsCopied, GoesOn, IsCompacted};
ghost use Rattle.iceoryx2_postgres_log.specs.Compacting.{EndsIn, IsRefusedGoing, LeavesNothing};

use crate::fault::PostgresFault;
use crate::hearing::{form_of, of_append, of_reading};
use crate::line::{Line, behind, is_same};
use crate::piece::{PIECE, rows_behind};
use crate::question::{copying, going_on, moving};
use crate::reply::{Reply, ask, write_question};
use crate::row::{Row, SUM_LENGTH, place_front};
use crate::standing::{Standing, first_place};
use iceoryx2_description::description::ServiceHash;
use iceoryx2_log::entry::{Entry, Operation};
use std::alloc::Global;
use std::collections::VecDeque;
use std::io::{BufRead, Write};

// ---- the mark

/// Returns the mark, which is of no node and of no service.
fn mark() -> Entry
    ensures node { result.node ≡ 0 }
    ensures hash { All (λ b. b ≡ 0) result.hash.0 }
    ensures operation { result.operation ≡ operation.Moved }
{
    Entry {
        node: 0,
        hash: ServiceHash([0; 20]),
        operation: Operation::Moved,
    }
}

/// Returns the byte form of the mark.
fn mark_form(alloc: Global) -> Result<Vec<u8>, PostgresFault>
    ensures { IfOk result (λ form. IsMark form.items) }
{
    let mark = mark();
    match form_of(alloc, &mark) {
        Ok(form) => Ok(form),
        Err(why) => Err(why),
    }
}

/// Returns the place before the first entry of the next generation, if the rows tell two places: the
/// mark's, of this number, and that one with the same sum.
fn start_place(alloc: Global, number: u64, rows: &[Line]) -> Result<Line, PostgresFault>
    ensures { IfOk result (TellsMove number rows.now) }
{
    let Some((mark, others)) = rows.split_first() else {
        return Err(PostgresFault::NotUnderstood);
    };
    let Some((start, more)) = others.split_first() else {
        return Err(PostgresFault::NotUnderstood);
    };
    if !more.is_empty() {
        return Err(PostgresFault::NotUnderstood);
    }
    let front = place_front(alloc, number)?;
    let Some(sum) = behind(mark.as_slice(), front.as_bytes()) else {
        return Err(PostgresFault::NotUnderstood);
    };
    if sum.len() != SUM_LENGTH {
        return Err(PostgresFault::NotUnderstood);
    }
    let place = first_place(alloc, sum)?;
    if !is_same(start.as_slice(), place.as_slice()) {
        return Err(PostgresFault::NotUnderstood);
    }
    Ok(place)
}

/// Returns the same place, if the reply tells that it is done.
fn told_place(alloc: Global, number: u64, reply: &Reply) -> Result<Line, PostgresFault>
    ensures { IfOk result (λ place. (reply.now.end ≡ text.moved) × TellsMove number reply.now.rows.items place) }
{
    if !reply.ends(b"moved 00000") {
        return Err(of_reading(reply.refusal(b"moved")));
    }
    match start_place(alloc, number, &reply.rows) {
        Ok(place) => Ok(place),
        Err(why) => Err(why),
    }
}

/// Writes the mark behind the last entry, and begins the next generation, whose snapshot will have so
/// many entries.
fn ask_move<R: BufRead, W: Write>(
    alloc: Global,
    at: &Standing,
    snapshot: u64,
    questions: &mut W,
    replies: &mut R,
) -> Result<Standing, PostgresFault>
    ensures ok { IfOk result (Moves at.now snapshot (W.contents questions.old) (W.contents questions.new)
        (R.remaining replies.old) (R.remaining replies.new)) }
    ensures err { IfErr result (EndsIn (W.contents questions.old) (W.contents questions.new)
        (R.remaining replies.old) (R.remaining replies.new)) }
{
    let Some(number) = at.number.checked_add(1) else {
        return Err(PostgresFault::NotUnderstood);
    };
    let Some(later) = at.generation.checked_add(1) else {
        return Err(PostgresFault::NotUnderstood);
    };
    let form = mark_form(alloc)?;
    let question = moving(alloc, at.log, at.generation, number, later, &form)?;
    let Ok(reply) = ask(alloc, question.as_bytes(), b"moved", questions, replies) else {
        return Err(PostgresFault::SessionEnded);
    };
    match told_place(alloc, number, &reply) {
        Err(why) => Err(why),
        Ok(place) => Ok(Standing {
            log: at.log,
            generation: later,
            counter: 0,
            snapshot,
            number: 0,
            place,
        }),
    }
}

// ---- the snapshot

/// Returns the byte forms of the entries, in order.
fn forms_of(alloc: Global, entries: &[Entry]) -> Result<Vec<Line>, PostgresFault>
    ensures { IfOk result (λ forms. AreForms entries.now forms.items) }
{
    let mut forms = Vec::new(alloc);
    for entry in entries {
        let form = form_of(alloc, entry)?;
        match forms.push(Line::new(form)) {
            Ok(()) => {}
            Err(_) => return Err(PostgresFault::OutOfMemory),
        }
    }
    Ok(forms)
}

/// Goes behind the rows, if they hold exactly these forms, in order.
fn take_copies(at: &mut Standing, rows: VecDeque<Row>, forms: &[Line]) -> bool
    ensures { IsTrue result → TakesCopies rows.items forms.now at.old at.new }
{
    let mut rest = rows;
    for form in forms {
        let Some(row) = rest.pop_front() else {
            return false;
        };
        if !is_same(row.form.as_slice(), form.as_slice()) {
            return false;
        }
        at.number = row.number;
        at.place = row.into_place();
    }
    rest.is_empty()
}

/// Goes behind the copies, if the reply tells exactly these forms.
fn take_told(
    alloc: Global,
    at: &mut Standing,
    reply: &Reply,
    forms: &[Line],
) -> Result<(), PostgresFault>
    ensures { OnOk result (TakesTold at.old reply.now.rows.items reply.now.end forms.now at.new) }
{
    if !reply.ends(b"copied 00000") {
        return Err(of_reading(reply.refusal(b"copied")));
    }
    let rows = rows_behind(alloc, at.number, &reply.rows)?;
    if take_copies(at, rows, forms) {
        return Ok(());
    }
    Err(PostgresFault::NotUnderstood)
}

/// Copies the entries behind the place, and goes behind them. An `Err` tells nothing of the place.
fn ask_copy<R: BufRead, W: Write>(
    alloc: Global,
    at: &mut Standing,
    entries: &[Entry],
    questions: &mut W,
    replies: &mut R,
) -> Result<(), PostgresFault>
    ensures ok { OnOk result (Copies at.old entries.now (W.contents questions.old) (W.contents questions.new)
        (R.remaining replies.old) (R.remaining replies.new) at.new) }
    ensures err { IfErr result (EndsIn (W.contents questions.old) (W.contents questions.new)
        (R.remaining replies.old) (R.remaining replies.new)) }
{
    let forms = forms_of(alloc, entries)?;
    let question = copying(alloc, at.log, at.generation, at.number, &forms)?;
    let Ok(reply) = ask(alloc, question.as_bytes(), b"copied", questions, replies) else {
        return Err(PostgresFault::SessionEnded);
    };
    match take_told(alloc, at, &reply, &forms) {
        Ok(()) => Ok(()),
        Err(why) => Err(why),
    }
}

/// Copies all of the entries, so many at a time as one question reads.
fn ask_copies<R: BufRead, W: Write>(
    alloc: Global,
    at: &mut Standing,
    entries: &[Entry],
    questions: &mut W,
    replies: &mut R,
) -> Result<(), PostgresFault>
    ensures ok { OnOk result (CopiesAll at.old entries.now (W.contents questions.old) (W.contents questions.new)
        (R.remaining replies.old) (R.remaining replies.new) at.new) }
    ensures err { IfErr result (EndsIn (W.contents questions.old) (W.contents questions.new)
        (R.remaining replies.old) (R.remaining replies.new)) }
{
    let mut rest = entries;
    for _round in 0..u64::MAX {
        if rest.is_empty() {
            return Ok(());
        }
        let (some, others) = rest.split_at(rest.len().min(PIECE));
        match ask_copy(alloc, at, some, questions, replies) {
            Ok(()) => {}
            Err(why) => return Err(why),
        }
        rest = others;
    }
    Err(PostgresFault::NotUnderstood)
}

// ---- the whole

/// Undoes everything that isn't committed. Returns why the compaction failed, or `SessionEnded` if the
/// rollback couldn't be written.
fn undone<W: Write>(why: PostgresFault, questions: &mut W) -> PostgresFault
    ensures { (result ≡ fault.SessionEnded)
        ⊎ ((result ≡ why) × Appends (W.contents questions.old) (W.contents questions.new) text.undoing) }
{
    match write_question(questions, b"rollback and chain;\n") {
        Ok(()) => why,
        Err(_) => PostgresFault::SessionEnded,
    }
}

/// Writes the mark, and copies all of the entries behind the start of the next generation.
fn copied<R: BufRead, W: Write>(
    alloc: Global,
    at: &Standing,
    entries: &[Entry],
    questions: &mut W,
    replies: &mut R,
) -> Result<Standing, PostgresFault>
    ensures ok { IfOk result (IsCopied at.now entries.now (W.contents questions.old) (W.contents questions.new)
        (R.remaining replies.old) (R.remaining replies.new)) }
    ensures err { IfErr result (EndsIn (W.contents questions.old) (W.contents questions.new)
        (R.remaining replies.old) (R.remaining replies.new)) }
{
    let mut last = match ask_move(alloc, at, entries.len() as u64, questions, replies) {
        Ok(start) => start,
        Err(why) => return Err(why),
    };
    match ask_copies(alloc, &mut last, entries, questions, replies) {
        Ok(()) => Ok(last),
        Err(why) => Err(why),
    }
}

/// Makes the generation the current one, with so many entries as its snapshot, and commits all of it.
/// `OutOfMemory` comes before anything is asked. If the server doesn't say that it refused, an `Err` is
/// `Unsure`.
fn ask_go_on<R: BufRead, W: Write>(
    alloc: Global,
    log: u64,
    generation: u64,
    snapshot: u64,
    questions: &mut W,
    replies: &mut R,
) -> Result<(), PostgresFault>
    ensures ok { OnOk result (GoesOn log generation snapshot (W.contents questions.old) (W.contents questions.new)
        (R.remaining replies.old) (R.remaining replies.new)) }
    ensures memory { result ≡ Err fault.OutOfMemory → (W.contents questions.new ≡ W.contents questions.old)
        × (R.remaining replies.new ≡ R.remaining replies.old) }
    ensures over { IfErr result IsGrave }
    ensures refused { IfErr result (λ why. (why ≡ fault.OutOfMemory) ⊎ ((why ≡ fault.Unsure)
        ⊎ IsRefusedGoing log generation snapshot (W.contents questions.old) (W.contents questions.new)
        (R.remaining replies.old) (R.remaining replies.new) why)) }
{
    let Ok(question) = going_on(alloc, log, generation, snapshot) else {
        return Err(PostgresFault::OutOfMemory);
    };
    let Ok(reply) = ask(alloc, question.as_bytes(), b"went", questions, replies) else {
        return Err(PostgresFault::Unsure);
    };
    if reply.is_exactly(b"t", b"went 00000") {
        return Ok(());
    }
    Err(of_append(reply.refusal(b"went")))
}

/// Goes on in the next generation, which begins with these entries, and stands behind them. If that
/// fails, everything that isn't committed is undone.
pub fn ask_compact<R: BufRead, W: Write>(
    alloc: Global,
    at: &Standing,
    entries: &[Entry],
    questions: &mut W,
    replies: &mut R,
) -> Result<Standing, PostgresFault>
    ensures ok { IfOk result (IsCompacted at.now entries.now (W.contents questions.old) (W.contents questions.new)
        (R.remaining replies.old) (R.remaining replies.new)) }
    ensures err { IfErr result (LeavesNothing at.now (length entries.now) (W.contents questions.old)
        (W.contents questions.new) (R.remaining replies.old) (R.remaining replies.new)) }
{
    let count = entries.len() as u64;
    let Some(later) = at.generation.checked_add(1) else {
        return Err(PostgresFault::NotUnderstood);
    };
    let last = match copied(alloc, at, entries, questions, replies) {
        Ok(last) => last,
        Err(why) => return Err(undone(why, questions)),
    };
    if last.number != count {
        return Err(undone(PostgresFault::NotUnderstood, questions));
    }
    match ask_go_on(alloc, at.log, later, count, questions, replies) {
        Ok(()) => Ok(Standing {
            log: at.log,
            generation: later,
            counter: 0,
            snapshot: count,
            number: count,
            place: last.into_place(),
        }),
        Err(why) => match why {
            PostgresFault::OutOfMemory => Err(undone(why, questions)),
            _ => Err(why),
        },
    }
}
