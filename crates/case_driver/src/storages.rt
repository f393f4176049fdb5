//! Carries out runs over each storage.

use crate::case_error::write_answer;
use crate::given::{Given, Over};
use crate::run::run_lines;
use crate::sessions::run_session;
use iceoryx2_journal::journal::Journal;
use iceoryx2_large_table::kinds::Chunks;
use iceoryx2_large_table::world::WorldOver;
use iceoryx2_log::memory::{Batch, MemoryLog};
use iceoryx2_table::own_parts::OwnParts;
use iceoryx2_table::table::stored::StoredWorld;
use iceoryx2_table::table::{Table, TableOver};
use iceoryx2_testing::script::Script;
use std::alloc::{AllocError, Global};
use std::mem;
use test_support::plain::PlainTable;
use test_support::refusing::{Mode, Refused};

/// The own nodes of a journal.
const OWN_NODES: [u64; 6] = [1, 2, 3, 4, 5, 6];

/// Carries out a run over a table.
fn over_table<W: OwnParts>(
    alloc: Global,
    given: &mut Given,
    lines: &[&str],
    text: &mut String,
) -> Result<(), AllocError> {
    let mut table = TableOver::<W>::starting_at(alloc, given.counter);
    table.schedule(mem::replace(&mut given.batches, Vec::new(alloc)));
    run_lines(alloc, given, table, lines, text)
}

/// Carries out a run over a table of vectors.
fn over_vectors(
    alloc: Global,
    given: &mut Given,
    lines: &[&str],
    text: &mut String,
) -> Result<(), AllocError> {
    over_table::<StoredWorld>(alloc, given, lines, text)
}

/// Carries out a run over a table of maps in chunks.
fn over_chunks(
    alloc: Global,
    given: &mut Given,
    lines: &[&str],
    text: &mut String,
) -> Result<(), AllocError> {
    over_table::<WorldOver<Chunks>>(alloc, given, lines, text)
}

/// Carries out a run by a session over a table of vectors.
fn over_session(
    alloc: Global,
    given: &mut Given,
    lines: &[&str],
    text: &mut String,
) -> Result<(), AllocError> {
    let mut table = Table::starting_at(alloc, given.counter);
    table.schedule(mem::replace(&mut given.batches, Vec::new(alloc)));
    run_session(alloc, given, table, lines, text)
}

/// Carries out a run over the plain table, whose numbers begin at 0.
fn over_plain(
    alloc: Global,
    given: &mut Given,
    lines: &[&str],
    text: &mut String,
) -> Result<(), AllocError> {
    let mut table = PlainTable::new(alloc);
    table.schedule(mem::replace(&mut given.batches, Vec::new(alloc)));
    run_lines(alloc, given, table, lines, text)
}

/// Returns an empty log, with the entries that others append later. It is busy for the numbered holds of a busy log, and
/// refuses the numbered appends to a full one.
fn log_of(alloc: Global, given: &mut Given) -> Result<MemoryLog, AllocError> {
    let mut log = MemoryLog::from_entries(alloc, Vec::new(alloc), 0);
    for entries in mem::replace(&mut given.entries, Vec::new(alloc)) {
        log.schedule(Batch::new(entries))?;
    }
    match given.over {
        Over::Busy => log.set_busy(mem::replace(&mut given.refused, Vec::new(alloc))),
        Over::Full => log.set_refused(mem::replace(&mut given.refused, Vec::new(alloc))),
        _ => {}
    }
    Ok(log)
}

/// Carries out a run over a journal on a log in memory.
fn over_journal(
    alloc: Global,
    given: &mut Given,
    lines: &[&str],
    text: &mut String,
) -> Result<(), AllocError> {
    let nodes = OWN_NODES.to_vec(alloc)?;
    let log = log_of(alloc, given)?;
    let journal = Journal::starting_at(alloc, log, nodes, given.counter);
    run_lines(alloc, given, journal, lines, text)
}

/// Carries out a run over a script of answers.
fn over_script(
    alloc: Global,
    given: &mut Given,
    lines: &[&str],
    text: &mut String,
) -> Result<(), AllocError> {
    let script = Script::new(mem::replace(&mut given.answers, Vec::new(alloc)));
    run_lines(alloc, given, script, lines, text)
}

/// Adds what lines give, and writes which lines are wrong.
fn take_over(
    alloc: Global,
    given: &mut Given,
    lines: &[&str],
    text: &mut String,
) -> Result<(), AllocError> {
    for line in lines {
        write_answer(given.add(alloc, line), line, None, text)?;
    }
    Ok(())
}

/// Returns whether a line is a question.
fn is_question(line: &str) -> bool {
    line.starts_with("? ") || line.starts_with("! ")
}

/// Carries out the lines behind those that are given, over the storage that these name. A program has no storage: its
/// questions are asked of an empty script.
fn run_over(
    alloc: Global,
    given: &mut Given,
    lines: &[&str],
    text: &mut String,
) -> Result<(), AllocError> {
    match given.over {
        Over::Table => over_vectors(alloc, given, lines, text),
        Over::Large => over_chunks(alloc, given, lines, text),
        Over::Session => over_session(alloc, given, lines, text),
        Over::Plain => over_plain(alloc, given, lines, text),
        Over::Journal | Over::Busy | Over::Full => over_journal(alloc, given, lines, text),
        _ => over_script(alloc, given, lines, text),
    }
}

/// Carries out the lines of a run, and writes the answers. The storage begins with all that the lines before the first
/// question give.
fn carry_out_given(
    alloc: Global,
    given: &mut Given,
    lines: &[&str],
    text: &mut String,
) -> Result<(), AllocError> {
    let first = lines.iter().position(|line| is_question(line));
    let count = first.unwrap_or(lines.len()).min(lines.len());
    let (front, lines) = lines.split_at(count);
    take_over(alloc, given, front, text)?;
    run_over(alloc, given, lines, text)
}

/// Carries out a run, and writes the answers. Returns how many requests for memory were refused of the question that is
/// starved.
pub fn carry_out(
    alloc: Global,
    starving: Option<(Mode, u16)>,
    lines: &[&str],
    text: &mut String,
) -> Result<Refused, AllocError> {
    let mut given = Given::new(alloc);
    given.starving = starving;
    carry_out_given(alloc, &mut given, lines, text)?;
    Ok(given.refusals)
}
