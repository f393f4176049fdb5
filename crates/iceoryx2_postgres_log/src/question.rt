//! The texts of the questions, which the client reads. Each function returns a text; its comment tells
//! what the text does. Numbers are decimal, and bytes are hex in lower case.

ghost use Rattle.std.specs.Prelude.{◌≡◌, Bool, IfOk, string_bytes};
ghost use Rattle.iceoryx2_postgres_log.specs.Questions as text;

use crate::line::Line;
use std::alloc::{AllocError, Global};

/// The last number that a row of the log may have: an unbounded read goes up to it.
pub const END: u64 = 9_223_372_036_854_775_807;

/// Returns a flag in the words of the server.
fn flag(is: bool) -> &'static str
    ensures { result.now ≡ text.flag is }
{
    if is { "true" } else { "false" }
}

/// Sets how long the session waits, and then asks where the log of this name stands. If there is no log
/// and `makes` says so, the log is made. The name is a log's, so nothing in it ends a literal.
pub fn opening(alloc: Global, name: &str, makes: bool, wait: u64) -> Result<String, AllocError>
    ensures { IfOk result (λ question. string_bytes question ≡ text.opening name.now makes wait) }
{
    let makes = flag(makes);
    format!(in alloc;
        "set lock_timeout = {wait}\\; set idle_in_transaction_session_timeout = 2000\\; select wulameron.opened('{name}', {makes});\n\\echo opened :SQLSTATE\n"
    )
}

/// Asks where the log of this name stands.
pub fn reopening(alloc: Global, name: &str) -> Result<String, AllocError>
    ensures { IfOk result (λ question. string_bytes question ≡ text.reopening name.now) }
{
    format!(in alloc; "select wulameron.opened('{name}', false);\n\\echo opened :SQLSTATE\n")
}

/// Says that a row is of this generation of this log.
fn of_log(alloc: Global, log: u64, generation: u64) -> Result<String, AllocError>
    ensures { IfOk result (λ part. string_bytes part ≡ text.of_log log generation) }
{
    format!(in alloc; "log = {log} and generation = {generation}")
}

/// Asks for the row of this number, the number of the last row there is, and up to 64 rows behind this
/// one, none of them behind `until`. It is one statement, so all of the reply is of one moment.
fn reading(
    alloc: Global,
    log: u64,
    generation: u64,
    number: u64,
    until: u64,
) -> Result<String, AllocError>
    ensures { IfOk result (λ question. string_bytes question ≡ text.reading log generation number until) }
{
    let rows = of_log(alloc, log, generation)?;
    format!(in alloc;
        "select seq || ' ' || encode(chain, 'hex') || ' ' || case when seq > {number} then encode(bytes, 'hex') else (select max(seq)::text from wulameron.entries where {rows}) end from wulameron.entries where {rows} and seq between {number} and {until} order by seq limit 65;\n"
    )
}

/// Locks the log's gate, and then reads the log from this number on. If the reading is refused, it is
/// undone, and the gate is given back, which nothing tells.
pub fn holding(alloc: Global, log: u64, generation: u64, number: u64) -> Result<String, AllocError>
    ensures { IfOk result (λ question. string_bytes question ≡ text.holding log generation number) }
{
    let reading = reading(alloc, log, generation, number, END)?;
    format!(in alloc;
        "begin isolation level read committed\\; select pg_advisory_lock('wulameron.logs'::regclass::oid::int, {log})\\; {reading}\\echo held :SQLSTATE\n\\if :ERROR\nrollback;\nselect wulameron.let_go({log});\n\\endif\n"
    )
}

/// Reads the log from this number on, up to `until`.
pub fn looking(
    alloc: Global,
    log: u64,
    generation: u64,
    number: u64,
    until: u64,
) -> Result<String, AllocError>
    ensures { IfOk result (λ question. string_bytes question ≡ text.looking log generation number until) }
{
    let reading = reading(alloc, log, generation, number, until)?;
    format!(in alloc; "{reading}\\echo read :SQLSTATE\n")
}

/// Makes the bytes the entry of this number, and commits that. The next transaction begins at once.
pub fn appending(
    alloc: Global,
    log: u64,
    generation: u64,
    number: u64,
    form: &[u8],
) -> Result<String, AllocError>
    ensures { IfOk result (λ question. string_bytes question ≡ text.appending log generation number form.now) }
{
    let digits = hex::encode(alloc, form)?;
    format!(in alloc;
        "insert into wulameron.entries (log, generation, seq, bytes) values ({log}, {generation}, {number}, '\\x{digits}') returning seq || ' ' || encode(chain, 'hex')\\; commit and chain;\n\\echo appended :SQLSTATE\n"
    )
}

/// Lets go of the gate, and ends the transaction. Nothing is told.
pub fn letting_go(alloc: Global, log: u64) -> Result<String, AllocError>
    ensures { IfOk result (λ question. string_bytes question ≡ text.letting_go log) }
{
    format!(in alloc;
        "select 1 where not pg_advisory_unlock('wulameron.logs'::regclass::oid::int, {log})\\; commit;\n"
    )
}

/// Does the same, and lets the server wait for five milliseconds.
pub fn pausing(alloc: Global, log: u64) -> Result<String, AllocError>
    ensures { IfOk result (λ question. string_bytes question ≡ text.pausing log) }
{
    let letting_go = letting_go(alloc, log)?;
    format!(in alloc; "{letting_go}select pg_sleep(0.005);\n\\echo paused :SQLSTATE\n")
}

// ---- compaction

/// A row of the table with these bytes.
fn row_values(
    alloc: Global,
    log: u64,
    generation: u64,
    number: u64,
    form: &[u8],
) -> Result<String, AllocError>
    ensures { IfOk result (λ part. string_bytes part ≡ text.row_values log generation number form.now) }
{
    let digits = hex::encode(alloc, form)?;
    format!(in alloc; "({log}, {generation}, {number}, '\\x{digits}')")
}

/// Makes the form of the mark the entry of this number, and gives the `later` generation its row before
/// the first entry.
pub fn moving(
    alloc: Global,
    log: u64,
    generation: u64,
    number: u64,
    later: u64,
    form: &[u8],
) -> Result<String, AllocError>
    ensures { IfOk result (λ question.
        string_bytes question ≡ text.moving log generation number later form.now) }
{
    let mark = row_values(alloc, log, generation, number, form)?;
    format!(in alloc;
        "insert into wulameron.entries (log, generation, seq, bytes) values {mark}, ({log}, {later}, 0, '') returning seq || ' ' || encode(chain, 'hex');\n\\echo moved :SQLSTATE\n"
    )
}

/// Makes the bytes the entry of this number, in one statement.
fn inserting(
    alloc: Global,
    log: u64,
    generation: u64,
    number: u64,
    form: &[u8],
) -> Result<String, AllocError>
    ensures { IfOk result (λ part. string_bytes part ≡ text.inserting log generation number form.now) }
{
    let digits = hex::encode(alloc, form)?;
    format!(in alloc;
        "insert into wulameron.entries (log, generation, seq, bytes) values ({log}, {generation}, {number}, '\\x{digits}') returning seq || ' ' || encode(chain, 'hex') || ' ' || encode(bytes, 'hex')\\; "
    )
}

/// Makes the forms the entries behind this number, in one message.
pub fn copying(
    alloc: Global,
    log: u64,
    generation: u64,
    number: u64,
    forms: &[Line],
) -> Result<String, AllocError>
    ensures { IfOk result (λ question. string_bytes question ≡ text.copying log generation number forms.now) }
{
    let mut question = String::new(alloc);
    let mut last = number;
    for form in forms {
        let Some(next) = last.checked_add(1) else {
            return Err(AllocError);
        };
        let part = inserting(alloc, log, generation, next, form.as_slice())?;
        question.push_str(&part)?;
        last = next;
    }
    question.push_str("select 1 where false;\n\\echo copied :SQLSTATE\n")?;
    Ok(question)
}

/// Makes the generation the log's current one, with so many entries as its snapshot, and commits that.
/// The next transaction begins at once.
pub fn going_on(
    alloc: Global,
    log: u64,
    generation: u64,
    snapshot: u64,
) -> Result<String, AllocError>
    ensures { IfOk result (λ question. string_bytes question ≡ text.going_on log generation snapshot) }
{
    format!(in alloc;
        "select wulameron.go_on({log}, {generation}, {snapshot})\\; commit and chain;\n\\echo went :SQLSTATE\n"
    )
}
