//! What is printed of a log that was checked.

ghost use Rattle.std.specs.Prelude.{◌≡◌, ◌++◌, IfOk, OnOk, string_bytes};
ghost use Rattle.wulameron_trail.specs.VerdictTexts.{ending_text, found_line, verdict_line, wrong_text};
ghost use Rattle.wulameron_trail.specs.VerdictTexts.{remedy as remedy_text};

use crate::checker::{Ending, Found, LogFault, Verdict};
use iceoryx2_file_log::header::HeaderError;
use std::alloc::{AllocError, Global};

/// Writes the line of what a log is: how many entries and bytes are sound, and what follows them. If something is
/// wrong, it writes where the first thing is, by byte and entry, what it is, and what can be done. `AllocError` if
/// there is no memory; a prefix of the line may then be written.
pub fn verdict_text(verdict: Verdict, text: &mut String) -> Result<(), AllocError>
    ensures { OnOk result (string_bytes text.new ≡ string_bytes text.old ++ verdict_line verdict) }
{
    match verdict {
        Verdict::Sound(sound) => {
            let entries = sound.entries;
            let end = sound.end;
            write!(text, "sound: {entries} entries, {end} bytes")?;
            write_ending(sound.ending, text)
        }
        Verdict::Wrong(found) => write_found(found, text),
    }
}

/// Writes where the first thing is that is wrong, what it is, and what can be done.
fn write_found(found: Found, text: &mut String) -> Result<(), AllocError>
    ensures { OnOk result (string_bytes text.new ≡ string_bytes text.old ++ found_line found) }
{
    let byte = found.byte;
    let place = found.place;
    let wrong = words_of(*text.allocator(), found.wrong)?;
    let remedy = remedy(found.wrong);
    writeln!(
        text,
        "wrong at byte {byte}, entry {place}: {wrong}; {remedy}"
    )
}

/// Writes what follows the entries.
fn write_ending(ending: Ending, text: &mut String) -> Result<(), AllocError>
    ensures { OnOk result (string_bytes text.new ≡ string_bytes text.old ++ ending_text ending) }
{
    match ending {
        Ending::Whole => text.push_str("\n"),
        Ending::Torn(count) => writeln!(
            text,
            "; then {count} bytes of a writer that died; the next writer cuts them off"
        ),
        Ending::Moved => text.push_str(
            "; the log goes on in another file: check the one that has its path now\n",
        ),
    }
}

/// Returns what is wrong.
fn words_of(alloc: Global, wrong: LogFault) -> Result<String, AllocError>
    ensures { IfOk result (λ text. string_bytes text ≡ wrong_text wrong) }
{
    match wrong {
        LogFault::BadHeader(HeaderError::AnotherVersion { found }) => {
            format!(in alloc; "this is a log of version {found}")
        }
        LogFault::BadHeader(HeaderError::NotALog) => String::from_str(alloc, "this is no log"),
        LogFault::BadHeader(HeaderError::Damaged) => String::from_str(
            alloc,
            "the header is damaged",
        ),
        LogFault::DamagedEntry => String::from_str(alloc, "the entry is damaged"),
        LogFault::NotAnswered => {
            String::from_str(alloc, "the entry doesn't follow from the entries before it")
        }
        LogFault::ShortSnapshot => {
            String::from_str(alloc, "the snapshot is shorter than its header says")
        }
        LogFault::MarkNotLast => String::from_str(
            alloc,
            "bytes follow the mark that ends this file",
        ),
    }
}

/// Returns what can be done about it.
fn remedy(wrong: LogFault) -> &'static str
    ensures { result.now ≡ remedy_text wrong }
{
    match wrong {
        LogFault::BadHeader(HeaderError::NotALog) => "name another file",
        LogFault::BadHeader(HeaderError::AnotherVersion { found: _ }) =>
            "use a program of that version",
        LogFault::BadHeader(HeaderError::Damaged) => "begin another log",
        LogFault::DamagedEntry => "begin another log",
        LogFault::NotAnswered => "see which program wrote it, and begin another log",
        LogFault::ShortSnapshot => "begin another log",
        LogFault::MarkNotLast => {
            "check the file that has its path now; if it is this one, begin another log"
        }
    }
}
