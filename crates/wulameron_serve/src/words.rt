//! The words of a call, as the terms of an escaped line.

ghost use Rattle.std.specs.Prelude.{◌≡◌, ◌≢◌, ◌<◌, ◌++◌, ◌∷◌, ℕ, List, All, OnOk, codes, length, string_bytes};
ghost use Rattle.std.specs.List.{flat_map};
ghost use Rattle.std.specs.Str.{IsUtf8};
ghost use Rattle.negotiate_lines.specs.Leaves.{IsLeaf};
ghost use Rattle.negotiate_lines.specs.declared.leaf.Form.TheVariants as form;
ghost use Rattle.percent_encoding.specs.Percent.{percent_encode};
ghost use Rattle.wulameron_serve.specs.declared.words.TheConstants.{WORD_ESCAPES};
ghost use Rattle.wulameron_serve.specs.Words.{PartsLeaves, word_of};

use percent_encoding::{AsciiSet, CONTROLS, ascii_set, percent_encode};
use std::alloc::AllocError;

/// The bytes of ASCII that are escaped in a word: controls, the blank, and the byte that begins an escape. The bytes
/// that part the leaves of a term aren't escaped.
pub const WORD_ESCAPES: AsciiSet = ascii_set!(CONTROLS.add(b' ').add(b'%'));

/// Appends a word as a term. `AllocError` if the text finds no memory; it may have a part of the word then.
pub fn escape_word(word: &[u8], text: &mut String) -> Result<(), AllocError>
    ensures { OnOk result (string_bytes text.new ≡ string_bytes text.old ++ word_of word.now) }
{
    if word.is_empty() {
        return text.push_str("%");
    }
    percent_encode(word, WORD_ESCAPES).append_to(text)
}

/// Appends a word after a space.
fn write_word(word: &str, text: &mut String) -> Result<(), AllocError>
    ensures { OnOk result (string_bytes text.new ≡ string_bytes text.old ++ (codes " " ++ word_of word.now)) }
{
    text.push_str(" ")?;
    escape_word(word.as_bytes(), text)
}

/// Appends each word after a space. `AllocError` if the text finds no memory; it may have a part of them then.
pub fn write_words(words: &[&str], text: &mut String) -> Result<(), AllocError>
    ensures { OnOk result (string_bytes text.new
        ≡ string_bytes text.old ++ flat_map (λ word. codes " " ++ word_of word.now) words.now) }
{
    for word in words {
        write_word(word, text)?;
    }
    Ok(())
}

/// States that a word is one term in the line, and that it is its own text if it is a leaf. It is cut at its `=`, `:`
/// and `,` as before, and each part is its own text.
pub fn laws_of_words()
    ensures leaf { (word : List ℕ) → IsUtf8 word → IsLeaf form.Escaped (word_of word) word }
    ensures part { (part : List ℕ) → IsUtf8 part → IsLeaf form.Escaped (percent_encode WORD_ESCAPES part) part }
    ensures cut { (front back : List ℕ) (byte : ℕ) → PartsLeaves byte → word_of (front ++ byte ∷ back)
        ≡ percent_encode WORD_ESCAPES front ++ byte ∷ percent_encode WORD_ESCAPES back }
    ensures term { (word : List ℕ) → All (λ b. b ≢ 32) (word_of word) }
    ensures some { (word : List ℕ) → 0 < length (word_of word) }
{}
