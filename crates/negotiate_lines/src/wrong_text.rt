//! Puts into words what is wrong with a line.

ghost use Rattle.std.specs.Prelude.{◌≡◌, ◌++◌, ℕ, List, [], IfOk, OnOk, map, string_bytes};
ghost use Rattle.negotiate_lines.specs.Escapes.{shown};
ghost use Rattle.negotiate_lines.specs.Nearest.{Suggests, now_of};
ghost use Rattle.negotiate_lines.specs.WrongTexts.{IsHint, IsWrongText, Offers, hint_of, kind_text, reason_text};
ghost use Rattle.negotiate_lines.specs.WrongTexts.{setting_words, text_of, value_text};

use crate::escape::escape_word;
use crate::line_error::LineError;
use crate::nearest::{nearer, nearer_if};
use crate::vocabulary::{Admitted, Kind};
use std::alloc::{AllocError, Global};

/// Returns in words what is wrong with a line. A word of the line is escaped as `escape` does. If it has more than 64
/// characters, the first 64 are told, and `..`. If an allowed word is near, the text hints at it.
///
/// `AllocError` if there is no memory for the text, or for finding what may have been meant.
pub fn wrong_text(alloc: Global, wrong: LineError<'_>) -> Result<String, AllocError>
    ensures { IfOk result (λ text. IsWrongText wrong.entry (string_bytes text)) }
{
    let hint = hint_at(alloc, wrong)?;
    let mut text = String::new(alloc);
    write_reason(wrong, &mut text)?;
    text.push_str(&hint)?;
    Ok(text)
}

/// What is wrong with a line, by the form of its text.
#[derive(Clone, Copy)]
enum Reason<'a> {
    /// A text.
    Text(&'static str),
    /// A text before the word of a pattern.
    OfPattern(&'static str, &'static str),
    /// A word of the line between two texts.
    Word(&'static str, &'a str, &'static str),
    /// A word of the line, a text, and the word of a pattern.
    WordOfPattern(&'a str, &'static str, &'static str),
    /// Two words of the line between three texts.
    Words(&'static str, &'a str, &'static str, &'a str, &'static str),
    /// A name of the line, its value, and what it takes.
    Value(&'a str, &'a str, Kind),
}

/// Returns in which form the text of what is wrong is, without a hint.
fn reason_of<'a>(wrong: LineError<'a>) -> Reason<'a>
    ensures { text_of result ≡ reason_text wrong.entry }
{
    match wrong {
        LineError::NotUtf8 => Reason::Text("not UTF-8"),
        LineError::NoSuchCommand(term) => Reason::Word("", term, ": no such command"),
        LineError::BehindList(term) => Reason::Word("", term, ": nothing stands behind list"),
        LineError::BehindSlot(term) => {
            Reason::Word("", term, ": nothing stands behind the slot of a close")
        }
        LineError::NoCall => Reason::Text("no call; it is create, open or open_or_create"),
        LineError::NoSuchCall(term) => Reason::Word("", term, ": no such call"),
        LineError::NoNode => Reason::Text("no node; it is a number below 2^64"),
        LineError::NoNodeNumber(term) => Reason::Word("node ", term, ": a number below 2^64"),
        LineError::NoSlot => Reason::Text("no slot; it is a number from 0 to 63"),
        LineError::NoSlotNumber(term) => Reason::Word("slot ", term, ": a number from 0 to 63"),
        LineError::SlotTooGreat(term) => Reason::Word("slot ", term, ": at most 63"),
        LineError::NoName => Reason::Text("no name"),
        LineError::BrokenLeaf(term) => {
            Reason::Word(
                "",
                term,
                ": a % stands before two digits of a byte of UTF-8",
            )
        }
        LineError::NameLength(term) => Reason::Word("name ", term, ": 1 to 255 bytes"),
        LineError::NoEqualsSign(term) => Reason::Word("", term, ": no =; it is <setting>=<value>"),
        LineError::NoSuchSetting {
            name,
            pattern,
            settings: _,
            admitted: _,
        } => Reason::WordOfPattern(name, ": no such setting of ", pattern),
        LineError::Value(name, value, kind) => Reason::Value(name, value, kind),
        LineError::NoTime(value) => {
            Reason::Word("now=", value, ": now is <seconds>,<nanoseconds>, or fault")
        }
        LineError::NowWithOpen => Reason::Text("now: not with open"),
        LineError::NowOfPattern(pattern) => Reason::OfPattern("now: not with ", pattern),
        LineError::KeyWithCreate => Reason::Text("require_key: not with create"),
        LineError::NoColon(value) => {
            Reason::Word("attribute=", value, ": an attribute is <key>:<value>")
        }
        LineError::KeyLength(key) => Reason::Word("key ", key, ": 1 to 64 bytes"),
        LineError::ValueLength(value) => Reason::Word("value ", value, ": at most 256 bytes"),
        LineError::TooManyPairs(key, value) => {
            Reason::Words(
                "attribute=",
                key,
                ":",
                value,
                ": at most 64 different pairs",
            )
        }
        LineError::TooManyKeys(key) => {
            Reason::Word("require_key=", key, ": at most 64 different keys")
        }
    }
}

/// Writes what is wrong, without a hint.
fn write_reason(wrong: LineError<'_>, text: &mut String) -> Result<(), AllocError>
    ensures { OnOk result (string_bytes text.new ≡ string_bytes text.old ++ reason_text wrong.entry) }
{
    match reason_of(wrong) {
        Reason::Text(fixed) => text.push_str(fixed),
        Reason::OfPattern(before, pattern) => write!(text, "{before}{pattern}"),
        Reason::Word(before, word, behind) => write_of(before, word, behind, text),
        Reason::WordOfPattern(word, behind, pattern) => {
            write_of("", word, behind, text)?;
            text.push_str(pattern)
        }
        Reason::Words(before, first, between, second, behind) => {
            write_of(before, first, between, text)?;
            write_of("", second, behind, text)
        }
        Reason::Value(name, value, kind) => write_value(name, value, kind, text),
    }
}

/// Writes what a setting takes whose value is wrong.
fn write_value(name: &str, value: &str, kind: Kind, text: &mut String) -> Result<(), AllocError>
    ensures { OnOk result (string_bytes text.new
        ≡ string_bytes text.old ++ value_text name.now value.now kind) }
{
    write_of("", name, "=", text)?;
    write_of("", value, ": ", text)?;
    write_of("", name, " is ", text)?;
    text.push_str(kind.text())
}

/// Writes a word of the line between these texts.
fn write_of(before: &str, word: &str, behind: &str, text: &mut String) -> Result<(), AllocError>
    ensures { OnOk result (string_bytes text.new
        ≡ string_bytes text.old ++ (before.now ++ (shown word.now ++ behind.now))) }
{
    text.push_str(before)?;
    escape_word(word, text)?;
    text.push_str(behind)
}

impl Kind {
    /// Returns what the value of such a setting is.
    pub fn text(self) -> &'static str
        ensures { result.now ≡ kind_text self }
    {
        match self {
            Kind::Number => "a number below 2^64",
            Kind::Truth => "true or false",
            Kind::Event => "a number below 2^64, or none",
            Kind::Length => "<seconds>,<nanoseconds>, or none",
            Kind::Alignment => "a power of two below 2^64",
            Kind::Type => "<fixed or dynamic>,<name>,<size>,<alignment>",
        }
    }
}

// ---- hints

/// The words with which commands begin.
const COMMANDS: [&str; 5] = ["list", "close", "event", "pubsub", "rr"];

/// The names of calls.
const CALLS: [&str; 3] = ["create", "open", "open_or_create"];

/// Returns the hint that follows what is wrong.
fn hint_at(alloc: Global, wrong: LineError<'_>) -> Result<String, AllocError>
    ensures { IfOk result (λ hint. IsHint wrong.entry (string_bytes hint)) }
{
    match wrong {
        LineError::NoSuchCommand(term) => {
            hint_among(
                alloc,
                term,
                &COMMANDS,
                "; it is list, close, event, pubsub or rr",
            )
        }
        LineError::NoSuchCall(term) => {
            hint_among(
                alloc,
                term,
                &CALLS,
                "; it is create, open or open_or_create",
            )
        }
        LineError::NoSuchSetting {
            name,
            pattern: _,
            settings,
            admitted,
        } => hint_of_setting(alloc, name, settings, admitted),
        _ => Ok(String::new(alloc)),
    }
}

/// Returns the hint at one of these words, or else what tells them.
fn hint_among(
    alloc: Global,
    term: &str,
    words: &[&'static str],
    told: &str,
) -> Result<String, AllocError>
    ensures { IfOk result (λ hint. Offers term.now (map (λ word. word.now) words.now) told.now (string_bytes hint)) }
{
    let nearest = nearest_of(alloc, term, None, words)?;
    hint_text(alloc, nearest, told)
}

/// Returns the hint at a word allowed before `=`, if one is near.
fn hint_of_setting(
    alloc: Global,
    name: &str,
    settings: &[(&'static str, Kind)],
    admitted: Admitted,
) -> Result<String, AllocError>
    ensures { IfOk result (λ hint. Offers name.now (setting_words settings.now admitted) [] (string_bytes hint)) }
{
    let nearest = nearest_setting(alloc, name, settings, admitted)?;
    hint_text(alloc, nearest, "")
}

/// Returns the word that may have been meant, or the words that are allowed there.
fn hint_text(
    alloc: Global,
    nearest: Option<&'static str>,
    words: &str,
) -> Result<String, AllocError>
    ensures { IfOk result (λ hint. string_bytes hint ≡ hint_of (now_of nearest.entry) words.now) }
{
    match nearest {
        Some(word) => format!(in alloc; "; did you mean {word}?"),
        None => format!(in alloc; "{words}"),
    }
}

/// Returns the one of some words and these that is nearest to a term.
fn nearest_of(
    alloc: Global,
    term: &str,
    nearest: Option<&'static str>,
    words: &[&'static str],
) -> Result<Option<&'static str>, AllocError>
    ensures { (before : List (List ℕ)) → Suggests term.now before (now_of nearest.entry) → IfOk result
        (λ found. Suggests term.now (before ++ map (λ word. word.now) words.now) (now_of found)) }
{
    match words.split_first() {
        None => Ok(nearest),
        Some((word, others)) => {
            let nearest = nearer(alloc, term, nearest, *word)?;
            nearest_of(alloc, term, nearest, others)
        }
    }
}

/// Returns the word allowed before `=` that is nearest to a name.
fn nearest_setting(
    alloc: Global,
    name: &str,
    settings: &[(&'static str, Kind)],
    admitted: Admitted,
) -> Result<Option<&'static str>, AllocError>
    ensures { IfOk result (λ found. Suggests name.now (setting_words settings.now admitted) (now_of found)) }
{
    let found = nearest_own(alloc, name, None, settings)?;
    let found = nearer_if(alloc, name, found, "now", admitted.now)?;
    let found = nearer(alloc, name, found, "attribute")?;
    nearer_if(alloc, name, found, "require_key", admitted.require_key)
}

/// Returns the one of some words and the names of settings that is nearest to a name.
fn nearest_own(
    alloc: Global,
    name: &str,
    nearest: Option<&'static str>,
    settings: &[(&'static str, Kind)],
) -> Result<Option<&'static str>, AllocError>
    ensures { (words : List (List ℕ)) → Suggests name.now words (now_of nearest.entry) → IfOk result
        (λ found. Suggests name.now (words ++ map (λ row. row.0.now) settings.now) (now_of found)) }
{
    match settings.split_first() {
        None => Ok(nearest),
        Some((setting, others)) => {
            let nearest = nearer(alloc, name, nearest, setting.0)?;
            nearest_own(alloc, name, nearest, others)
        }
    }
}
