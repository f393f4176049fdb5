//! Scripts that test logs in files. A line of a script is a question, with its answer behind `=>`, as in `a take => lock`.
//! A line without `=>` is a command, and says that it was done. `assert_scripts` asks each question in turn and compares
//! the answers with those of the script. Each script runs in a new folder, where the log's file has the name `log`.
//!
//! The first word names a handle: `a`, `b`, or `c`, whose calls can span several accesses. All handles append the same
//! lock, and wait for no other handle. Questions about files are in `script_files`.
//!
//! | Question | What the handle does | Answer |
//! |---|---|---|
//! | `open`, `open-group` | opens or makes `log`, for its user or group; or the path that follows | the refusal |
//! | `open-pausing` | the same, and its pauses take a second at most | the refusal |
//! | `open-existing`, `open-to-read` | opens a file that exists; to read only | the refusal |
//! | `hold`, `look`, `append`, `free` | holds the log, looks at it, appends, lets go | the error |
//! | `add`, `add 15` | holds, appends and lets go, once or 15 times | the error |
//! | `take` | takes over the next entry | `lock`, `another`, `none`, or the error |
//! | `take-all` | takes over all entries that are there | their number, or the error |
//! | `compact 2` | compacts the log to two entries | the error |
//! | `put-off` | puts a compaction off | |
//! | `long`, `in-snapshot` | tells whether it is | `yes`, `no` |
//! | `rejoin` | goes to where the log goes on | the counter, or the error |
//! | `fault` | tells the reason of its last refusal | the reason, or `none` |
//! | `state`, `position` | tells its state, and where it stands in the file | |
//! | `snapshot-length` | tells how many bytes the snapshot has | a number |
//! | `pause` | pauses | `yes`, `no` |
//! | `begin`, `end` | begins a call, ends it (`c` only) | |
//!
//! `same-log` answers `yes` if the headers of `a` and `b` are equal, and else `no`.

use crate::file_logs::{Handle, append, lock, new_path, take_next};
use crate::script_files::use_file;
use iceoryx2_file_log::cursor::State;
use iceoryx2_file_log::error::{FileFault, FileLogError};
use iceoryx2_file_log::file_log::FileLog;
use iceoryx2_file_log::options::{FileLogOptions, Sharing};
use iceoryx2_log::call_log::{CallLog, SpansCalls};
use iceoryx2_log::log::{Log, LogError};
use std::alloc::{AllocError, Global};
use std::process::Abort;
use std::time::Duration;
use std::{fmt, fs};

/// A handle of a log in a file, which lives as long as its runtime. The functions below are over any of them, since the
/// proof of one that names the handle itself takes long.
trait FileHandle<'a>: Log + Drop {
    /// Returns a handle of the log in the file of this path.
    fn opened(rt: &'a HostRuntime, path: String, way: Way) -> Result<Self, FileLogError>;

    /// Answers a question that reads a field. `Unknown` if the word is no such question.
    fn told(&self, word: &str) -> Answer;

    /// Returns whether two handles have the same header.
    fn is_same_log(&self, other: &Self) -> bool;
}

impl<'a> FileHandle<'a> for Handle<'a> {
    fn opened(rt: &'a HostRuntime, path: String, way: Way) -> Result<Handle<'a>, FileLogError> {
        match way {
            Way::Makes => FileLog::open(rt, path, options_for(Sharing::User)),
            Way::MakesForGroup => FileLog::open(rt, path, options_for(Sharing::Group)),
            Way::Pauses => FileLog::open(rt, path, options_with_pauses(1000)),
            Way::Finds => FileLog::open_existing(rt, path, options_for(Sharing::User)),
            Way::Reads => FileLog::open_to_read(rt, path, options_with_pauses(500)),
        }
    }

    fn told(&self, word: &str) -> Answer {
        match word {
            "fault" => fault_of(self.fault()),
            "state" => Answer::Stands(self.state()),
            "position" => Answer::Number(self.position()),
            "snapshot-length" => Answer::Number(self.header().snapshot_length),
            _ => Answer::Unknown,
        }
    }

    fn is_same_log(&self, other: &Handle<'a>) -> bool {
        self.header() == other.header()
    }
}

/// A word that is an answer.
#[derive(Clone, Copy)]
pub enum Word {
    Yes,
    No,
    Lock,
    Another,
    None,
    File,
    Folder,
    Link,
    Missing,
    Refused,
}

impl Word {
    fn text(self) -> &'static str {
        match self {
            Word::Yes => "yes",
            Word::No => "no",
            Word::Lock => "lock",
            Word::Another => "another",
            Word::None => "none",
            Word::File => "file",
            Word::Folder => "folder",
            Word::Link => "link",
            Word::Missing => "missing",
            Word::Refused => "refused",
        }
    }
}

/// The answer to a question.
#[derive(Clone, Copy)]
pub enum Answer {
    /// The command was carried out.
    Done,
    Word(Word),
    Number(u64),
    /// The bits of a file's mode.
    Mode(u32),
    Stands(State),
    Refused(LogError),
    Fault(FileFault),
    /// The question has no meaning, or there was no memory.
    Unknown,
}

impl fmt::Display for Answer {
    fn fmt<W: fmt::Write>(&self, f: &mut fmt::Formatter<W>) -> fmt::Result {
        match self {
            Answer::Done => Ok(()),
            Answer::Word(word) => write!(f, " => {}", word.text()),
            Answer::Number(number) => write!(f, " => {number}"),
            Answer::Mode(mode) => write!(f, " => {mode:o}"),
            Answer::Stands(state) => write!(f, " => {state:?}"),
            Answer::Refused(error) => write!(f, " => {error:?}"),
            Answer::Fault(fault) => write!(f, " => {fault:?}"),
            Answer::Unknown => write!(f, " is a question without a meaning"),
        }
    }
}

/// Answers yes or no.
pub fn yes_or_no(is_so: bool) -> Answer {
    Answer::Word(if is_so { Word::Yes } else { Word::No })
}

/// Answers a command to a log.
fn done(answer: Result<(), LogError>) -> Answer {
    match answer {
        Ok(()) => Answer::Done,
        Err(error) => Answer::Refused(error),
    }
}

/// Answers a question for a number.
fn counted(answer: Result<u64, LogError>) -> Answer {
    match answer {
        Ok(number) => Answer::Number(number),
        Err(error) => Answer::Refused(error),
    }
}

/// Splits a text at its first space.
pub fn first_word(text: &str) -> (&str, &str) {
    text.split_once(' ').unwrap_or((text, ""))
}

/// Returns the path of a name in the folder. A path from the root stays as it is.
pub fn path_of(alloc: Global, folder: &str, name: &str) -> Result<String, AllocError> {
    if name.starts_with('/') {
        return String::from_str(alloc, name);
    }
    format!(in alloc; "{folder}/{name}")
}

// ---- opening

/// The way in which a handle is opened.
#[derive(Clone, Copy)]
enum Way {
    Makes,
    MakesForGroup,
    Pauses,
    Finds,
    Reads,
}

/// Returns the way that a word names.
fn way_of(word: &str) -> Option<Way> {
    match word {
        "open" => Some(Way::Makes),
        "open-group" => Some(Way::MakesForGroup),
        "open-pausing" => Some(Way::Pauses),
        "open-existing" => Some(Way::Finds),
        "open-to-read" => Some(Way::Reads),
        _ => None,
    }
}

/// Returns the options of a handle that shares a file that it makes so.
fn options_for(sharing: Sharing) -> FileLogOptions {
    FileLogOptions {
        patience: Duration::from_millis(0),
        creation_timeout: Duration::from_millis(0),
        synchronizes: true,
        sharing,
    }
}

/// Returns the options of a handle whose pauses take so many milliseconds at most.
fn options_with_pauses(milliseconds: u64) -> FileLogOptions {
    FileLogOptions {
        patience: Duration::from_millis(0),
        creation_timeout: Duration::from_millis(milliseconds),
        synchronizes: false,
        sharing: Sharing::User,
    }
}

/// Returns the path of the file to open: `log` if no name is given.
fn path_to_open(alloc: Global, folder: &str, name: &str) -> Result<String, AllocError> {
    path_of(alloc, folder, if name.is_empty() { "log" } else { name })
}

/// Opens a handle.
fn open<'a, L: FileHandle<'a>>(
    rt: &'a HostRuntime,
    folder: &str,
    handle: &mut Option<L>,
    way: Way,
    name: &str,
) -> Answer {
    let Ok(path) = path_to_open(rt.alloc(), folder, name) else {
        return Answer::Unknown;
    };
    match L::opened(rt, path, way) {
        Ok(log) => {
            *handle = Some(log);
            Answer::Done
        }
        Err(error) => Answer::Fault(error.fault()),
    }
}

/// Opens a handle whose calls can span accesses.
fn open_spanning<'a, L: FileHandle<'a>>(
    rt: &'a HostRuntime,
    folder: &str,
    handle: &mut Option<CallLog<L>>,
    way: Way,
) -> Answer {
    let mut log: Option<L> = None;
    let answer = open(rt, folder, &mut log, way, "log");
    *handle = log.map(CallLog::new);
    answer
}

// ---- questions to any log

/// Takes over the next entry, and answers what it is.
fn take<L: Log>(log: &mut L) -> Answer {
    match take_next(log) {
        Ok(Some(true)) => Answer::Word(Word::Lock),
        Ok(Some(false)) => Answer::Word(Word::Another),
        Ok(None) => Answer::Word(Word::None),
        Err(error) => Answer::Refused(error),
    }
}

/// Takes over all entries that are there, and returns their number.
fn take_all<L: Log>(log: &mut L) -> Result<u64, LogError> {
    for count in 0..10_000 {
        if log.next()?.is_none() {
            return Ok(count);
        }
        log.accept();
    }
    Err(LogError::Failed)
}

/// Appends the lock so many times, and holds the log each time.
fn add<L: Log>(log: &mut L, count: u32) -> Result<(), LogError> {
    for _ in 0..count {
        append(log)?;
    }
    Ok(())
}

/// Compacts the log to so many locks.
fn compact<L: Log>(alloc: Global, log: &mut L, count: u32) -> Result<(), LogError> {
    let mut entries = Vec::new(alloc);
    for _ in 0..count {
        entries.push(lock())?;
    }
    log.compact(&entries)
}

/// Asks a log a question with a number of entries.
fn ask_many<L: Log>(alloc: Global, log: &mut L, (word, rest): (&str, &str)) -> Answer {
    let Ok(count) = rest.parse::<u32>() else {
        return Answer::Unknown;
    };
    match word {
        "add" => done(add(log, count)),
        "compact" => done(compact(alloc, log, count)),
        _ => Answer::Unknown,
    }
}

/// Asks a log a question that changes nothing.
fn ask_state<L: Log>(log: &L, word: &str) -> Answer {
    match word {
        "long" => yes_or_no(log.is_long()),
        "in-snapshot" => yes_or_no(log.is_in_snapshot()),
        _ => Answer::Unknown,
    }
}

/// Asks a log a question of one word.
fn ask<L: Log>(log: &mut L, word: &str) -> Answer {
    match word {
        "hold" => done(log.hold()),
        "look" => done(log.look()),
        "append" => done(log.append(&lock())),
        "add" => done(append(log)),
        "take" => take(log),
        "take-all" => counted(take_all(log)),
        "rejoin" => counted(log.rejoin()),
        "pause" => yes_or_no(log.pause(0)),
        "free" => {
            log.let_go();
            Answer::Done
        }
        "put-off" => {
            log.put_off_compaction();
            Answer::Done
        }
        _ => ask_state(log, word),
    }
}

// ---- questions to the handles

/// Answers with the reason of the last refusal.
fn fault_of(fault: Option<FileFault>) -> Answer {
    match fault {
        Some(fault) => Answer::Fault(fault),
        None => Answer::Word(Word::None),
    }
}

/// Asks an open handle a question.
fn ask_open<'a, L: FileHandle<'a>>(
    alloc: Global,
    log: &mut L,
    (word, rest): (&str, &str),
) -> Answer {
    if !rest.is_empty() {
        return ask_many(alloc, log, (word, rest));
    }
    match log.told(word) {
        Answer::Unknown => ask(log, word),
        answer => answer,
    }
}

/// Opens a handle, or asks it a question.
fn ask_handle<'a, L: FileHandle<'a>>(
    rt: &'a HostRuntime,
    folder: &str,
    handle: &mut Option<L>,
    question: &str,
) -> Answer {
    let (word, rest) = first_word(question);
    if let Some(way) = way_of(word) {
        return open(rt, folder, handle, way, rest);
    }
    match handle {
        Some(log) => ask_open(rt.alloc(), log, (word, rest)),
        None => Answer::Unknown,
    }
}

/// Asks an open handle whose calls can span accesses.
fn ask_call<L: SpansCalls>(log: &mut L, word: &str) -> Answer {
    match word {
        "begin" => {
            log.begin_call();
            Answer::Done
        }
        "end" => {
            log.end_call();
            Answer::Done
        }
        _ => ask(log, word),
    }
}

/// Opens a handle whose calls can span accesses, or asks it a question.
fn ask_spanning<'a, L: FileHandle<'a>>(
    rt: &'a HostRuntime,
    folder: &str,
    handle: &mut Option<CallLog<L>>,
    word: &str,
) -> Answer {
    if let Some(way) = way_of(word) {
        return open_spanning(rt, folder, handle, way);
    }
    match handle {
        Some(log) => ask_call(log, word),
        None => Answer::Unknown,
    }
}

/// Answers whether two handles have the same header.
fn same_log<'a, L: FileHandle<'a>>(a: &Option<L>, b: &Option<L>) -> Answer {
    match (a, b) {
        (Some(a), Some(b)) => yes_or_no(a.is_same_log(b)),
        _ => Answer::Unknown,
    }
}

// ---- scripts

/// The handles of a script.
struct Handles<L> {
    a: Option<L>,
    b: Option<L>,
    c: Option<CallLog<L>>,
}

// Written out, so that a proof of what lets one go doesn't take its fields apart.
impl<L: Drop> Drop for Handles<L> {
    fn drop(self) {
        let Handles { a: _, b: _, c: _ } = self;
    }
}

/// Answers a question.
fn answer_to<'a, L: FileHandle<'a>>(
    rt: &'a HostRuntime,
    folder: &str,
    handles: &mut Handles<L>,
    question: &str,
) -> Answer {
    let (word, rest) = first_word(question);
    match word {
        "a" => ask_handle(rt, folder, &mut handles.a, rest),
        "b" => ask_handle(rt, folder, &mut handles.b, rest),
        "c" => ask_spanning(rt, folder, &mut handles.c, rest),
        "same-log" if rest.is_empty() => same_log(&handles.a, &handles.b),
        _ => use_file(rt, folder, word, rest),
    }
}

/// The lines of a script, as they are written and as they were answered.
struct Texts {
    wanted: String,
    found: String,
}

// Written out, so that a proof of what lets one go doesn't take its fields apart.
impl Drop for Texts {
    fn drop(self) {
        let Texts {
            wanted: _,
            found: _,
        } = self;
    }
}

/// Adds a line and its answer to the texts.
fn add_line(
    texts: &mut Texts,
    line: &str,
    question: &str,
    answer: Answer,
) -> Result<(), AllocError> {
    writeln!(texts.wanted, "{line}")?;
    writeln!(texts.found, "{question}{answer}")
}

/// Answers all lines of a script.
fn add_lines<'a, L: FileHandle<'a>>(
    rt: &'a HostRuntime,
    folder: &str,
    handles: &mut Handles<L>,
    texts: &mut Texts,
    script: &str,
) -> Result<(), AllocError> {
    for line in script.lines() {
        let line = line.trim();
        let (question, _) = line.split_once(" => ").unwrap_or((line, ""));
        if !line.is_empty() {
            let answer = answer_to(rt, folder, handles, question);
            add_line(texts, line, question, answer)?;
        }
    }
    Ok(())
}

/// Answers all lines of a script by handles of its own.
fn add_script(
    rt: &HostRuntime,
    folder: &str,
    texts: &mut Texts,
    script: &str,
) -> Result<(), AllocError> {
    let mut handles: Handles<Handle> = Handles {
        a: None,
        b: None,
        c: None,
    };
    add_lines(rt, folder, &mut handles, texts, script)
}

/// Runs a script in a new folder, and removes the folder. `None` if the system refuses that.
fn run_script(rt: &HostRuntime, texts: &mut Texts, script: &str) -> Option<()> {
    let folder = new_path(rt)?;
    fs::create_dir(rt, folder.as_str()).ok()?;
    let answered = add_script(rt, &folder, texts, script);
    fs::remove_dir_all(rt, folder.as_str()).ok()?;
    answered.ok()
}

/// Ends a test if a script is answered in another way than it says.
fn assert_script(rt: &HostRuntime, test: &impl Abort, title: &str, script: &str) {
    let mut texts = Texts {
        wanted: String::new(rt.alloc()),
        found: String::new(rt.alloc()),
    };
    if run_script(rt, &mut texts, script).is_none() {
        panic!(test; "the system refuses");
    }
    if texts.found != texts.wanted {
        panic!(test;
            "{title}: this is answered:\n{}\nand not:\n{}",
            texts.found, texts.wanted
        );
    }
}

/// Ends a test if one of these scripts, which follow their titles, is answered in another way than it says.
pub fn assert_scripts(rt: &HostRuntime, test: &impl Abort, scripts: &[(&str, &str)]) {
    for (title, script) in scripts {
        assert_script(rt, test, title, script);
    }
}
