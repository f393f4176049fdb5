//! Texts of users without control characters.

ghost use Rattle.std.specs.Prelude.{◌≡◌, ◌<◌, ◌++◌, IfOk, OnOk, [], ◌∷◌, string_bytes};
ghost use Rattle.std.specs.List.{flat_map};
ghost use Rattle.std.specs.Str.{chars};
ghost use Rattle.hex.specs.Hex.{encode_lower};
ghost use Rattle.negotiate_lines.specs.Escapes.{escaped, escaped_character, shown, shown_front};

use std::alloc::{AllocError, Global};

/// How many characters of a word are written at most.
const MOST_SHOWN: u64 = 64;

/// Writes a text for a line: a tab, a line's end, a carriage return and a backslash as `\t`, `\n`, `\r` and `\\`, other
/// controls of ASCII as `\x1b`, those of Latin-1 as `\u{85}`, and anything else as it is. `AllocError` if there is no
/// memory; a prefix may then be written.
#[tactic(auto, unfolding(crate::specs::Escapes::escaped))]
pub fn escape(source: &str, text: &mut String) -> Result<(), AllocError>
    ensures { OnOk result (string_bytes text.new ≡ string_bytes text.old ++ escaped source.now) }
{
    escape_characters(source, text)
}

/// Returns a text without control characters, as `escape` writes it. `AllocError` if there is no memory.
pub fn escaped_text(alloc: Global, source: &str) -> Result<String, AllocError>
    ensures { IfOk result (λ text. string_bytes text ≡ escaped source.now) }
{
    let mut text = String::new(alloc);
    escape(source, &mut text)?;
    Ok(text)
}

/// Writes a word as `escape` does. If it has more than 64 characters, it writes the first 64, and `..`. `AllocError` if
/// there is no memory; a prefix may then be written.
#[tactic(auto, unfolding(crate::specs::Escapes::shown))]
pub fn escape_word(word: &str, text: &mut String) -> Result<(), AllocError>
    ensures { OnOk result (string_bytes text.new ≡ string_bytes text.old ++ shown word.now) }
{
    escape_front(word, text)
}

/// Writes the first characters one after the other.
fn escape_front(word: &str, text: &mut String) -> Result<(), AllocError>
    ensures { OnOk result (string_bytes text.new ≡ string_bytes text.old ++ shown_front 64 (chars word.now)) }
{
    let mut left = MOST_SHOWN;
    for character in word.chars() {
        if left == 0 {
            return text.push_str("..");
        }
        left -= 1;
        escape_character(character, text)?;
    }
    Ok(())
}

/// Writes the characters one after the other.
fn escape_characters(source: &str, text: &mut String) -> Result<(), AllocError>
    ensures { OnOk result (string_bytes text.new
        ≡ string_bytes text.old ++ flat_map escaped_character (chars source.now)) }
{
    for character in source.chars() {
        escape_character(character, text)?;
    }
    Ok(())
}

/// Writes one character.
fn escape_character(character: char, text: &mut String) -> Result<(), AllocError>
    ensures { OnOk result (string_bytes text.new ≡ string_bytes text.old ++ escaped_character character) }
{
    match character {
        '\t' => text.push_str("\\t"),
        '\n' => text.push_str("\\n"),
        '\r' => text.push_str("\\r"),
        '\\' => text.push_str("\\\\"),
        '\0'..='\x1f' | '\x7f' => escape_number("\\x", character as u8, "", text),
        '\u{80}'..='\u{9f}' => escape_number("\\u{", character as u8, "}", text),
        _ => text.push(character),
    }
}

/// Writes a number by two hexadecimal digits, between these texts.
fn escape_number(before: &str, number: u8, after: &str, text: &mut String) -> Result<(), AllocError>
    ensures { OnOk result (string_bytes text.new
        ≡ string_bytes text.old ++ (before.now ++ (encode_lower (number ∷ []) ++ after.now))) }
{
    let digits = hex::encode(*text.allocator(), [number])?;
    write!(text, "{before}{digits}{after}")
}
