//! Scripts that a handle of the log `lamps` carries out in a database. A test gives the server's replies and a script.
//!
//! Each line of a script is a question, ` => ` and the answer. The run writes each question again with the handle's
//! answer, and the test compares this transcript with the script. An unknown question never equals its line there.
//!
//! In a reply, `$` is the sum of a row, `%` the bytes of the lock of the other tests, and `&` those of the mark that a
//! log goes on in its next generation.
//!
//! | question | answer |
//! |---|---|
//! | `open` | `ok` or the fault; it is the first line of a script |
//! | `again` | the same for the script of the session where the log goes on |
//! | `hold`, `look` | `ok` or the error |
//! | `append` | the same; the entry is the lock |
//! | `compact 1`, `compact 2` | the same; the snapshot is one lock or two |
//! | `next` | `lock`, `another entry`, `none` or the error |
//! | `rejoin` | the counter or the error |
//! | `pause 0`, `pause 99`, `pause 100` | whether the handle let go of the log |
//! | `accept`, `let go` | none: the line is the question alone |
//! | `take all` | the number of locks that it accepts, one after the other |
//! | `state`, `fault` | the handle's state; its fault or `none` |
//! | `stands` | the generation, the number and the counter |
//! | `in snapshot` | whether the next entry belongs to the snapshot |
//! | `asked` | `all` or `end`, if the test's text is the whole of what the handle asked or its end; else what it asked |

use crate::file_logs::lock;
use crate::support::assert_same;
use iceoryx2_log::entry::Entry;
use iceoryx2_log::log::{Log, LogError};
use iceoryx2_postgres_log::fault::PostgresFault;
use iceoryx2_postgres_log::postgres_log::PostgresLog;
use std::alloc::{AllocError, Global};
use std::process::Abort;

type Handle<'a> = PostgresLog<&'a [u8], &'a mut Vec<u8>>;

/// A handle of a log in a database. The functions below are over any of them, since the proof of one that names the handle
/// itself takes long.
trait DatabaseHandle: Log {
    /// Writes the answer to a question that reads a field.
    fn tell(&self, question: &str, wanted: &str, text: &mut String) -> Result<(), AllocError>;
}

impl DatabaseHandle for Handle<'_> {
    fn tell(&self, question: &str, wanted: &str, text: &mut String) -> Result<(), AllocError> {
        match question {
            "state" => write!(text, " => {:?}", self.state()),
            "fault" => write_fault(self.fault(), text),
            "stands" => write_place((self.generation(), self.number(), self.counter()), text),
            "in snapshot" => write!(text, " => {}", self.is_in_snapshot()),
            "asked" => write_asked(self.questions().as_slice(), wanted, text),
            _ => text.push_str(" is unknown"),
        }
    }
}

const SUM: &str = "000102030405060708090a0b0c0d0e0f101112131415161718191a1b1c1d1e1f";

const LOCK: &str =
    "00000025ffffffda48de62d870bebddb030000000000000002101112131415161718191a1b1c1d1e1f202122230000000000000005";

const MARK: &str =
    "0000001dffffffe20e5303137d02872b0b00000000000000000000000000000000000000000000000000000000";

/// The server's reply that opens a new log, which has no entry yet.
pub const OPENED: &str = "3 7 0 1 0 $\nopened 00000\n";

/// The server's reply to a hold of that log.
pub const HELD: &str = "\n0 $ 0\nheld 00000\n";

/// Appends a part of the replies to a text, with the bytes that its signs mean.
fn add(told: &mut String, part: &str) -> Result<(), AllocError> {
    for letter in part.chars() {
        match letter {
            '$' => told.push_str(SUM)?,
            '%' => told.push_str(LOCK)?,
            '&' => told.push_str(MARK)?,
            _ => told.push(letter)?,
        }
    }
    Ok(())
}

/// Appends the parts of the replies to a text.
fn add_all(told: &mut String, parts: &[&str]) -> Result<(), AllocError> {
    for part in parts {
        add(told, part)?;
    }
    Ok(())
}

/// Appends the lines of a part of a script to a text, without the spaces around them and without empty lines.
fn add_lines(text: &mut String, part: &str) -> Result<(), AllocError> {
    for line in part.lines() {
        let line = line.trim();
        if !line.is_empty() {
            text.push_str(line)?;
            text.push('\n')?;
        }
    }
    Ok(())
}

/// Appends the lines of all parts of a script to a text.
fn add_all_lines(text: &mut String, parts: &[&str]) -> Result<(), AllocError> {
    for part in parts {
        add_lines(text, part)?;
    }
    Ok(())
}

/// Writes a call's answer.
fn write_called(called: Result<(), LogError>, text: &mut String) -> Result<(), AllocError> {
    match called {
        Ok(()) => text.push_str(" => ok"),
        Err(error) => write!(text, " => {error:?}"),
    }
}

/// Writes the entry that was found, or the reason why there is none.
fn write_found(
    found: Result<Option<Entry>, LogError>,
    text: &mut String,
) -> Result<(), AllocError> {
    match found {
        Ok(None) => text.push_str(" => none"),
        Ok(Some(entry)) => {
            text.push_str(if entry == lock() {
                " => lock"
            } else {
                " => another entry"
            })
        }
        Err(error) => write!(text, " => {error:?}"),
    }
}

/// Writes a counter, or the reason why there is none.
fn write_counter(counter: Result<u64, LogError>, text: &mut String) -> Result<(), AllocError> {
    match counter {
        Ok(counter) => write!(text, " => {counter}"),
        Err(error) => write!(text, " => {error:?}"),
    }
}

/// Writes a fault, or that there is none. A refusal by the server is written as its message, which has the SQLSTATE.
fn write_fault(fault: Option<PostgresFault>, text: &mut String) -> Result<(), AllocError> {
    match fault {
        None => text.push_str(" => none"),
        Some(PostgresFault::Refused { state }) => {
            write!(text, " => {}", PostgresFault::Refused { state })
        }
        Some(fault) => write!(text, " => {fault:?}"),
    }
}

/// Writes a handle's place: its generation, its number and its counter.
fn write_place(
    (generation, number, counter): (u64, u64, u64),
    text: &mut String,
) -> Result<(), AllocError> {
    write!(
        text,
        " => generation {generation} number {number} counter {counter}"
    )
}

/// Writes whether the wanted text is the whole of what the handle asked, or its end. Else it writes what was asked.
fn write_asked(asked: &[u8], wanted: &str, text: &mut String) -> Result<(), AllocError> {
    if asked == wanted.as_bytes() {
        return text.push_str(" => all");
    }
    if asked.ends_with(wanted.as_bytes()) {
        return text.push_str(" => end");
    }
    text.push_str(" => ")?;
    text.push_str(str::from_utf8(asked).unwrap_or("bytes that are no text"))
}

/// Takes over the locks that are next, up to 99, and returns how many these are.
fn take_all<L: Log>(log: &mut L) -> u64 {
    for count in 0..99 {
        if log.next() != Ok(Some(lock())) {
            return count;
        }
        log.accept();
    }
    99
}

/// Makes a call that appends or compacts, or lets go of the log, and writes its answer.
fn change<L: DatabaseHandle>(
    log: &mut L,
    question: &str,
    wanted: &str,
    text: &mut String,
) -> Result<(), AllocError> {
    match question {
        "append" => write_called(log.append(&lock()), text),
        "compact 1" => write_called(log.compact(&[lock()]), text),
        "compact 2" => write_called(log.compact(&[lock(), lock()]), text),
        "pause 0" => write!(text, " => {}", log.pause(0)),
        "pause 99" => write!(text, " => {}", log.pause(99)),
        "pause 100" => write!(text, " => {}", log.pause(100)),
        "let go" => {
            log.let_go();
            Ok(())
        }
        _ => log.tell(question, wanted, text),
    }
}

/// Carries out a question, and writes its answer.
fn carry_out<L: DatabaseHandle>(
    log: &mut L,
    question: &str,
    wanted: &str,
    text: &mut String,
) -> Result<(), AllocError> {
    match question {
        "hold" => write_called(log.hold(), text),
        "look" => write_called(log.look(), text),
        "next" => write_found(log.next(), text),
        "rejoin" => write_counter(log.rejoin(), text),
        "take all" => write!(text, " => {}", take_all(log)),
        "accept" => {
            log.accept();
            Ok(())
        }
        _ => change(log, question, wanted, text),
    }
}

/// Carries out a line and writes it with its answer, unless it is the first line of a script.
fn carry_out_line<L: DatabaseHandle>(
    log: &mut L,
    line: &str,
    wanted: &str,
    text: &mut String,
) -> Result<(), AllocError> {
    let (question, _) = line.split_once(" => ").unwrap_or((line, ""));
    match question {
        "open" | "again" => Ok(()),
        _ => {
            text.push_str(question)?;
            carry_out(log, question, wanted, text)?;
            text.push('\n')
        }
    }
}

/// Writes why there is no handle.
fn write_refused(first: &str, fault: PostgresFault, text: &mut String) -> Result<(), AllocError> {
    text.push_str(first)?;
    write_fault(Some(fault), text)?;
    text.push('\n')
}

/// A session: the replies, the script, and the text that the line `asked` compares with what the handle asked.
#[derive(Drop)]
struct Session {
    told: String,
    script: String,
    wanted: String,
}

/// Makes a session without a script.
fn new_session(alloc: Global) -> Session {
    Session {
        told: String::new(alloc),
        script: String::new(alloc),
        wanted: String::new(alloc),
    }
}

/// Fills a session.
fn prepare(
    session: &mut Session,
    (told, script): (&[&str], &[&str]),
    wanted: &str,
) -> Result<(), AllocError> {
    add_all(&mut session.told, told)?;
    add_all_lines(&mut session.script, script)?;
    session.wanted.push_str(wanted)
}

/// Writes the first line of a session's script, which was answered already, and carries out the others.
fn carry_out_script<L: DatabaseHandle>(
    log: &mut L,
    session: &Session,
    first: &str,
    text: &mut String,
) -> Result<(), AllocError> {
    text.push_str(first)?;
    for line in session.script.lines() {
        carry_out_line(log, line, session.wanted.as_str(), text)?;
    }
    Ok(())
}

/// Goes on with a handle's log in another session and carries out its script, if it has one.
fn go_on<'a>(
    log: &Handle<'a>,
    again: &'a Session,
    asked: &'a mut Vec<u8>,
    text: &mut String,
) -> Result<(), AllocError> {
    if again.script.is_empty() {
        return Ok(());
    }
    match log.again(asked, again.told.as_bytes()) {
        Ok(mut later) => carry_out_script(&mut later, again, "again => ok\n", text),
        Err(fault) => write_refused("again", fault, text),
    }
}

/// Opens the log; the handle waits for others for up to half a second.
fn open<'a>(
    alloc: Global,
    asked: &'a mut Vec<u8>,
    told: &'a str,
) -> Result<Handle<'a>, PostgresFault> {
    PostgresLog::open(alloc, "lamps", 500, true, asked, told.as_bytes())
}

/// Runs the scripts of two sessions, and appends their transcript to a text.
fn run(
    alloc: Global,
    first: &Session,
    again: &Session,
    text: &mut String,
) -> Result<(), AllocError> {
    let mut asked = Vec::new(alloc);
    let mut asked_again = Vec::new(alloc);
    match open(alloc, &mut asked, first.told.as_str()) {
        Ok(mut log) => match carry_out_script(&mut log, first, "open => ok\n", text) {
            Ok(()) => go_on(&log, again, &mut asked_again, text),
            Err(error) => Err(error),
        },
        Err(fault) => write_refused("open", fault, text),
    }
}

/// Ends a test if the transcript of two sessions differs from their scripts. Each is given as its replies and script.
fn assert_both(
    rt: &impl Abort,
    alloc: Global,
    first: (&[&str], &[&str]),
    again: (&[&str], &[&str]),
    wanted: &str,
) {
    let mut found = String::new(alloc);
    let mut one = new_session(alloc);
    let mut other = new_session(alloc);
    if prepare(&mut one, first, wanted).is_err()
        || prepare(&mut other, again, "").is_err()
        || run(alloc, &one, &other, &mut found).is_err()
        || one.script.push_str(other.script.as_str()).is_err()
    {
        panic!(rt; "no memory")
    }
    assert_same(
        rt,
        (first.0, again.0, found.as_str()),
        (first.0, again.0, one.script.as_str()),
    );
}

/// Ends a test if the transcript differs from the script when the server tells these replies. Both are given in parts.
pub fn assert_script(rt: &impl Abort, alloc: Global, told: &[&str], script: &[&str]) {
    assert_both(rt, alloc, (told, script), (&[], &[]), "");
}

/// The same; the line `asked` compares this text with what the handle asked.
pub fn assert_asks(rt: &impl Abort, alloc: Global, told: &[&str], script: &[&str], asked: &str) {
    assert_both(rt, alloc, (told, script), (&[], &[]), asked);
}

/// The same for two sessions, each given as its replies and script. The log goes on in the second one.
pub fn assert_goes_on(
    rt: &impl Abort,
    alloc: Global,
    first: (&[&str], &[&str]),
    again: (&[&str], &[&str]),
) {
    assert_both(rt, alloc, first, again, "");
}
