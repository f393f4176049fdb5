//! Unread bytes in a file, and what is done about them.

ghost use Rattle.std.specs.Prelude.{◌≡◌, ◌<◌, ◌≤◌, ◌^◌, ◌↔◌, ℕ, Some, None, Ok, IfOk, OnErr, length, bytes_eq};
ghost use Rattle.iceoryx2_log.specs.declared.entry.Entry as declared;
ghost use Rattle.iceoryx2_log.specs.Form.{Begins, IsCutShort, header, sum_of as sum_at};
ghost use Rattle.iceoryx2_file_log.specs.declared.remainder.Front.TheVariants as front;
ghost use Rattle.iceoryx2_file_log.specs.Remainder.{HasWrongSum, IsTorn, NoneTornAway, WithOrWithout};
ghost use Rattle.iceoryx2_file_log.specs.Crashes.{BeginsWithNone, EndsAt, OneListEach, AppendsOrNot, FrontsFit};
ghost use Rattle.iceoryx2_file_log.specs.Crashes.{AppendsWhenWritten, KeepsAppended, CutsNoEntry, CutsOrNot};
ghost use Rattle.iceoryx2_file_log.specs.Crashes.{NoneSkipped, NoneInvented};
ghost use Rattle.iceoryx2_file_log.specs.Remainder.{has_wrong_sum_in, unread_in, malformed_in, refused_in};

use iceoryx2_log::entry::Entry;
use iceoryx2_log::form::{self, EntryError, MAX_BODY_LENGTH, MIN_BODY_LENGTH};
use sha1::Sha1;
use std::alloc::{AllocError, Global};

/// The beginning of bytes of a file, if more of the file may follow them.
#[derive(Debug, Drop)]
pub enum Front {
    /// An entry, and how many bytes it has.
    Whole { entry: Entry, count: usize },
    /// The bytes end within an entry, and more of the file follows.
    Unfinished,
    /// The rest of the file is what a writer that died has left of its entry: nothing, a part, or an
    /// entry whose sum is wrong. It is cut off.
    Torn,
    /// The bytes begin with no entry, and are not the remainder that a writer leaves when it dies.
    Damaged,
}

/// Returns true if the bytes are the length of a body, and the same with its bits inverted.
fn is_header_of(length: usize, bytes: &[u8]) -> bool
    requires { length < 2 ^ 32 }
    ensures { result ≡ bytes_eq bytes.now (header length) }
{
    let length = length as u32;
    let inverted = !length;
    let wanted = [length.to_be_bytes(), inverted.to_be_bytes()];
    bytes == wanted.as_flattened()
}

/// Returns true if the bytes are the sum of the body.
fn is_sum_of(body: &[u8], bytes: &[u8]) -> bool
    requires { length body.now < 2 ^ 32 }
    ensures { result ≡ bytes_eq bytes.now (sum_at body.now) }
{
    let mut hasher = Sha1::new();
    hasher.update(&(body.len() as u32).to_be_bytes());
    hasher.update(body);
    let digest = hasher.finalize();
    bytes == &digest[..form::SUM_LENGTH]
}

/// Returns true if the bytes are a header, another sum than that of the body, and the body, all of it.
#[tactic(auto, unfolding(crate::specs::Remainder::has_wrong_sum_in))]
fn has_wrong_sum(bytes: &[u8]) -> bool
    ensures { result ≡ has_wrong_sum_in bytes.now }
{
    if bytes.len() < form::HEADER_LENGTH + form::SUM_LENGTH {
        return false;
    }
    let (front, rest) = bytes.split_at(form::HEADER_LENGTH);
    let (sum, body) = rest.split_at(form::SUM_LENGTH);
    if body.len() < MIN_BODY_LENGTH {
        return false;
    }
    if MAX_BODY_LENGTH < body.len() {
        return false;
    }
    if !is_header_of(body.len(), front) {
        return false;
    }
    !is_sum_of(body, sum)
}

/// Returns what the bytes begin with, of which so many are left in the file. An `Err` comes only if they
/// begin with an entry, and there was no memory for it.
pub fn front_of(alloc: Global, bytes: &[u8], left: u64) -> Result<Front, AllocError>
    // An entry is given where they begin with its form, and only there.
    ensures whole { IfOk result (λ f. (e : declared.Entry) (count : ℕ) → f ≡ front.Whole e count
        → Begins bytes.now e count) }
    ensures only { (e : declared.Entry) (count : ℕ) → Begins bytes.now e count
        → IfOk result (λ f. f ≡ front.Whole e count) }
    ensures memory { OnErr result ((e : declared.Entry) × (count : ℕ) × Begins bytes.now e count) }

    // What is cut off is torn, and all that is left.
    ensures torn { (result ≡ Ok front.Torn) ↔ (IsTorn bytes.now × (left ≤ length bytes.now)) }
    ensures unfinished { (result ≡ Ok front.Unfinished) ↔ (IsCutShort bytes.now × (length bytes.now < left)) }

    // Behind the last entry, and with all that is left, they are torn or damaged.
    ensures ends { BeginsWithNone bytes.now → left ≤ length bytes.now → EndsAt result }
{
    match form::decode(alloc, bytes) {
        Ok((entry, count)) => Ok(Front::Whole { entry, count }),
        Err(error) => refused(error, bytes, left),
    }
}

/// Returns what the bytes are that were refused for this reason, of which so many are left in the file.
/// An `Err` comes only if there was no memory.
fn refused(error: EntryError, bytes: &[u8], left: u64) -> Result<Front, AllocError>
    ensures ok { IfOk result (λ f. refused_in error bytes.now left ≡ Some f) }
    ensures err { OnErr result (refused_in error bytes.now left ≡ None) }
{
    match error {
        EntryError::OutOfMemory => Err(AllocError),
        EntryError::CutShort => Ok(unread(bytes, left)),
        EntryError::Malformed => Ok(malformed(bytes, left)),
    }
}

/// Returns what bytes that are cut short are, of which so many are left in the file.
fn unread(bytes: &[u8], left: u64) -> Front
    ensures { result ≡ unread_in bytes.now left }
{
    if (bytes.len() as u64) < left {
        return Front::Unfinished;
    }
    Front::Torn
}

/// Returns what bytes that begin with no entry are, of which so many are left in the file.
fn malformed(bytes: &[u8], left: u64) -> Front
    ensures { result ≡ malformed_in bytes.now left }
{
    if (bytes.len() as u64) < left {
        return Front::Damaged;
    }
    if has_wrong_sum(bytes) {
        return Front::Torn;
    }
    Front::Damaged
}

/// Laws of bytes that are torn.
pub fn laws_of_tearing()
    // No whole entry is ever cut off.
    ensures none { NoneTornAway }

    // What dies within an append leaves the entry, or what is cut off, and nothing else.
    ensures crash { WithOrWithout }
{}

/// Laws of a log's bytes, from its header's end on, after a crash of the machine at any moment. Until a
/// write is synchronized, a device may leave any bytes in its place. Elsewhere it leaves the bytes that
/// were there.
///
/// The laws on appends have a premise: the bytes that are left in the place of the entry begin with no
/// other entry. The premise rests on the test that bytes have to meet: a length, its inversion, and 8
/// bytes of the SHA-1 over length and body.
pub fn laws_of_crashes()
    // Bytes stand for one list of entries.
    ensures one { OneListEach }

    // A crash within an append leaves the entries before, with this one or without, and nothing else.
    ensures append { AppendsOrNot }

    // A front of the entry meets the premise, and rests on no sum.
    ensures fronts { FrontsFit }

    // Once it is written it stands behind them.
    ensures written { AppendsWhenWritten }

    // What was appended and synchronized is left by each crash of a later append.
    ensures kept { KeepsAppended }

    // A crash while what stands behind the entries is cut off leaves the entries.
    ensures cut { CutsNoEntry }

    // A crash while the last entry is cut off leaves the others, with it or without.
    ensures cut_last { CutsOrNot }

    // A reader skips no entry, and invents none.
    ensures none_skipped { NoneSkipped }
    ensures none_invented { NoneInvented }
{}
