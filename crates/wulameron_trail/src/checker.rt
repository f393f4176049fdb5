//! Whether the bytes of a log's file are sound.

ghost use Rattle.std.specs.Prelude.{◌≡◌, ◌↔◌, ◌++◌, ◌+◌, ◌<◌, ◌^◌, ℕ, List, IfOk, IfErr, IsTrue, take};
ghost use Rattle.iceoryx2_world.specs.World.{World};
ghost use Rattle.iceoryx2_log.specs.declared.entry.Entry as declared;
ghost use Rattle.iceoryx2_log.specs.declared.entry.Operation.TheVariants.{Moved as mark};
ghost use Rattle.iceoryx2_file_log.specs.Remainder.{IsTorn};
ghost use Rattle.iceoryx2_file_log.specs.declared.header.TheConstants.{HEADER_LENGTH as header_length};
ghost use Rattle.iceoryx2_log.specs.Form.{Begins};
ghost use Rattle.iceoryx2_file_log.specs.Header.{IsForm as IsHeaderForm};
ghost use Rattle.wulameron_trail.specs.Checking.{Fits, IsAccess, IsEnd, IsNoHeader, IsVerdict, ReachedWorldsAgree};
ghost use Rattle.wulameron_trail.specs.Steps.{IsStep, IsVerdictOn};

use iceoryx2_file_log::header::{self, HEADER_LENGTH, Header, HeaderError};
use iceoryx2_file_log::remainder::{Front, front_of};
use iceoryx2_journal::follow::{FollowError, follow};
use iceoryx2_log::entry::{Entry, Operation};
use iceoryx2_table::table::stored::StoredWorld;
use std::alloc::{AllocError, Global};

/// What follows the last entry of a sound log.
#[derive(Clone, Copy)]
pub enum Ending {
    /// Nothing.
    Whole,
    /// This many bytes, which a writer left that died. The next append cuts them off.
    Torn(u64),
    /// The mark that the log goes on in another file.
    Moved,
}

/// What is known of a sound log.
#[derive(Clone, Copy)]
pub struct Sound {
    /// How many entries it has, without a mark.
    pub entries: u64,
    /// The byte of the file at which they end.
    pub end: u64,
    pub ending: Ending,
}

/// What is wrong with a log.
#[derive(Clone, Copy)]
pub enum LogFault {
    /// Its first bytes are no header.
    BadHeader(HeaderError),
    /// There is no entry, and no end that a dead writer leaves.
    DamagedEntry,
    /// The world doesn't answer what the entry says.
    NotAnswered,
    /// The snapshot ends before the length that the header tells: within an entry, or with the file.
    ShortSnapshot,
    /// More follows the mark that the log goes on in another file.
    MarkNotLast,
}

/// The first thing that is wrong with a log.
#[derive(Clone, Copy)]
pub struct Found {
    pub wrong: LogFault,
    /// The number of the entry at which it is, counted from 0.
    pub place: u64,
    /// The byte of the file at which it begins, counted from 0.
    pub byte: u64,
}

/// What a log is.
#[derive(Clone, Copy)]
pub enum Verdict {
    Sound(Sound),
    Wrong(Found),
}

/// What the next bytes of a log come to.
#[derive(Clone, Copy)]
enum Step {
    /// An entry of this many bytes, which is followed.
    Followed(usize),
    /// Its end.
    Ended(Ending),
    /// Something that is wrong.
    Failed(LogFault),
}

/// The place of an entry.
#[derive(Clone, Copy)]
struct Span {
    /// How long the log's snapshot is, in bytes.
    snapshot: u64,
    /// How many bytes of entries precede it.
    at: u64,
    /// How many bytes it has.
    count: usize,
}

/// Returns the end of a log, unless the snapshot is longer than what precedes the end.
fn ended(snapshot: u64, at: u64, ending: Ending) -> Step
    ensures { (w : World) (rest : List ℕ) → IsEnd rest ending → IsStep snapshot w at rest result w }
{
    if at < snapshot {
        return Step::Failed(LogFault::ShortSnapshot);
    }
    Step::Ended(ending)
}

/// Returns the ending for these bytes at a torn end.
fn torn(rest: &[u8]) -> Ending
    requires { IsTorn rest.now }
    ensures { IsEnd rest.now result }
{
    if rest.is_empty() {
        return Ending::Whole;
    }
    Ending::Torn(rest.len() as u64)
}

/// Returns whether an entry of this many bytes ends with the snapshot or before, or begins after it.
fn fits(snapshot: u64, at: u64, count: u64) -> bool
    ensures { IsTrue result ↔ Fits snapshot at count }
{
    count <= snapshot.saturating_sub(at) || snapshot <= at
}

/// Returns whether the operation is the mark that the log goes on in another file.
pub(crate) fn is_mark(operation: &Operation) -> bool
    ensures { IsTrue result ↔ (operation.now ≡ mark) }
{
    match operation {
        Operation::Moved => true,
        _ => false,
    }
}

/// Returns what a mark of this many bytes comes to.
fn marked(snapshot: u64, at: u64, rest: &[u8], count: usize) -> Step
    ensures { (w : World) (e : declared.Entry) → Begins rest.now e count → e.operation ≡ mark
        → IsStep snapshot w at rest.now result w }
{
    if count < rest.len() {
        return Step::Failed(LogFault::MarkNotLast);
    }
    ended(snapshot, at, Ending::Moved)
}

/// Returns what an access of this many bytes comes to.
fn accessed(
    alloc: Global,
    world: &mut StoredWorld,
    span: Span,
    entry: &Entry,
) -> Result<Step, AllocError>
    ensures { IfOk result (λ step. (rest : List ℕ) → IsAccess rest entry.now span.count
        → IsStep span.snapshot world.old span.at rest step world.new) }
{
    if !fits(span.snapshot, span.at, span.count as u64) {
        return Ok(Step::Failed(LogFault::ShortSnapshot));
    }
    match follow(alloc, world, entry) {
        Ok(()) => Ok(Step::Followed(span.count)),
        Err(error) => match error {
            FollowError::OutOfMemory => Err(AllocError),
            FollowError::Disagrees => Ok(Step::Failed(LogFault::NotAnswered)),
        },
    }
}

/// Returns what the next bytes of a log come to, after this many bytes of entries.
fn next_step(
    alloc: Global,
    world: &mut StoredWorld,
    snapshot: u64,
    at: u64,
    rest: &[u8],
) -> Result<Step, AllocError>
    ensures { IfOk result (λ step. IsStep snapshot world.old at rest.now step world.new) }
{
    match front_of(alloc, rest, rest.len() as u64)? {
        Front::Whole { entry, count } => {
            if is_mark(&entry.operation) {
                return Ok(marked(snapshot, at, rest, count));
            }
            accessed(
                alloc,
                world,
                Span {
                    snapshot,
                    at,
                    count,
                },
                &entry,
            )
        }
        Front::Torn => Ok(ended(snapshot, at, torn(rest))),
        Front::Unfinished | Front::Damaged => Ok(Step::Failed(LogFault::DamagedEntry)),
    }
}

/// Returns what is known at the end of the entries.
fn ended_at(entries: u64, at: usize, ending: Ending) -> Sound
    requires { at < 2 ^ 63 }
    ensures { result ≡ record { entries = entries; end = header_length + at; ending = ending } }
{
    Sound {
        entries,
        end: HEADER_LENGTH as u64 + at as u64,
        ending,
    }
}

/// Returns what is wrong after this many bytes of entries.
fn failed_at(wrong: LogFault, place: u64, at: usize) -> Found
    requires { at < 2 ^ 63 }
    ensures { result ≡ record { wrong = wrong; place = place; byte = header_length + at } }
{
    Found {
        wrong,
        place,
        byte: HEADER_LENGTH as u64 + at as u64,
    }
}

/// Returns what a log with this header is, by the bytes after the header.
fn walk(alloc: Global, header: &Header, entries: &[u8]) -> Result<Verdict, AllocError>
    ensures { IfOk result (IsVerdictOn header.now entries.now) }
{
    let mut world = StoredWorld::starting_at(alloc, header.counter);
    let mut at = 0usize;
    for place in 0..u64::MAX {
        match next_step(
            alloc,
            &mut world,
            header.snapshot_length,
            at as u64,
            &entries[at..],
        )? {
            Step::Followed(count) => at += count,
            Step::Ended(ending) => return Ok(Verdict::Sound(ended_at(place, at, ending))),
            Step::Failed(wrong) => return Ok(Verdict::Wrong(failed_at(wrong, place, at))),
        }
    }
    unreachable!()
}

/// Returns the bytes of a header, as far as they are there, and those after it.
fn parted(bytes: &[u8]) -> (&[u8], &[u8])
    ensures front { result.0.now ≡ take header_length bytes.now }
    ensures all { bytes.now ≡ result.0.now ++ result.1.now }
{
    if bytes.len() < HEADER_LENGTH {
        return (bytes, &[]);
    }
    bytes.split_at(HEADER_LENGTH)
}

/// Returns the header that the bytes are, or why they are none.
fn header_of(bytes: &[u8]) -> Result<Header, HeaderError>
    ensures form { IfOk result (λ h. IsHeaderForm h bytes.now) }
    ensures fault { IfErr result (IsNoHeader bytes.now) }
{
    header::decode(bytes)
}

/// Returns what the bytes of a log's file are: sound, or the first thing that is wrong. They are sound if they are a
/// header and entries, each of which is what the world before it answers, with the whole snapshot among them. After
/// these there may be nothing, what a dead writer left, or the mark that the log goes on in another file. It reads the
/// bytes once. It doesn't test whether a world agrees: each one that is followed does (`laws_of_checking`).
/// `AllocError` if there is no memory.
pub fn check(alloc: Global, bytes: &[u8]) -> Result<Verdict, AllocError>
    ensures { IfOk result (IsVerdict bytes.now) }
{
    let (front, entries) = parted(bytes);
    match header_of(front) {
        Ok(header) => walk(alloc, &header, entries),
        Err(error) => Ok(Verdict::Wrong(Found {
            wrong: LogFault::BadHeader(error),
            place: 0,
            byte: 0,
        })),
    }
}

/// States what is true of each world to which the entries of a log come.
pub fn laws_of_checking()
    ensures { ReachedWorldsAgree }
{}
