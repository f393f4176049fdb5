//! The leaves of a line: names, keys, values of keys and names of types, as they are or with `%XX` for a byte.

ghost use Rattle.std.specs.Prelude.{◌≡◌, ◌<◌, ◌++◌, ℕ, List, [], All, Some, codes, length, OnOk, string_bytes};
ghost use Rattle.std.specs.Str.{IsUtf8};
ghost use Rattle.std.specs.Cow.{cow_str_bytes};
ghost use Rattle.std.specs.Char.{is_digit};
ghost use Rattle.std.specs.Result.{result_map_both};
ghost use Rattle.negotiate_lines.specs.declared.leaf.Form.{Form};
ghost use Rattle.negotiate_lines.specs.declared.leaf.Form.TheVariants as form;
ghost use Rattle.negotiate_lines.specs.Leaves.{IsLeaf, IsPlain, are_whole, bytes_of, digits_after, leaf_of};
ghost use Rattle.negotiate_lines.specs.Terms.{Reads};

use crate::term::TermError;
use percent_encoding::{
    AsciiSet, CONTROLS, DecodeError, ascii_set, percent_decode, percent_encode,
};
use std::alloc::{AllocError, Global};
use std::borrow::CowStr;

/// How the leaves of a line are written.
#[derive(Clone, Copy)]
pub enum Form {
    /// As they are. A line is a command then, and no question.
    Plain,
    /// With `%XX` for a byte, and `%` alone for no bytes.
    Escaped,
}

/// The bytes of ASCII that are escaped in a leaf: controls, the blank, and what parts words, terms and values.
pub const LEAF_ESCAPES: AsciiSet = ascii_set!(
    CONTROLS.add(b' ').add(b'%').add(b',').add(b':').add(b'=')
);

/// Appends bytes as a leaf of an escaped line. `AllocError` if the text finds no memory; it may have a part of them
/// then.
pub fn escape_leaf(bytes: &[u8], text: &mut String) -> Result<(), AllocError>
    ensures { OnOk result (string_bytes text.new ≡ string_bytes text.old ++ leaf_of bytes.now) }
{
    if bytes.is_empty() {
        return text.push_str("%");
    }
    percent_encode(bytes, LEAF_ESCAPES).append_to(text)
}

/// Returns whether two hexadecimal digits follow each `%`.
fn is_whole(leaf: &[u8]) -> bool
    ensures { result ≡ are_whole leaf.now }
{
    let mut digits: u8 = 0;
    for &byte in leaf {
        match digits_after(digits, byte) {
            Some(more) => digits = more,
            None => return false,
        }
    }
    digits == 0
}

/// Returns how many digits are awaited after a byte, if this many are awaited before it.
fn digits_after(digits: u8, byte: u8) -> Option<u8>
    ensures { result ≡ digits_after digits byte }
{
    if digits == 0 {
        return Some(if byte == b'%' { 2 } else { 0 });
    }
    if is_hex(byte) { Some(digits - 1) } else { None }
}

/// Returns whether a byte is a hexadecimal digit.
fn is_hex(byte: u8) -> bool
    ensures { result ≡ is_digit byte 16 }
{
    char::from(byte).is_digit(16)
}

/// Returns the text of a leaf.
///
/// `Malformed` if an escape in it is broken, or it isn't UTF-8. `OutOfMemory` if there is no memory for it: a leaf
/// without an escape needs none.
pub(crate) fn text_of_leaf<'a>(
    alloc: Global,
    form: Form,
    leaf: &'a str,
) -> Result<CowStr<'a>, TermError>
    ensures { Reads (IsLeaf form leaf.now) (result_map_both (λ text. cow_str_bytes text) (λ e. e) result) }
{
    match form {
        Form::Plain => Ok(CowStr::Borrowed(leaf)),
        Form::Escaped => unescape(alloc, leaf),
    }
}

/// Returns the bytes of a leaf of an escaped line.
///
/// `Malformed` if an escape in it is broken, `OutOfMemory` if there is no memory for them.
pub fn bytes_of_leaf(alloc: Global, leaf: &str) -> Result<Vec<u8>, TermError>
    ensures { Reads (λ bytes. bytes_of leaf.now ≡ Some bytes) (result_map_both (λ bytes. bytes.items) (λ e. e) result) }
{
    let mut bytes = Vec::new(alloc);
    if leaf == "%" {
        return Ok(bytes);
    }
    if !is_whole(leaf.as_bytes()) {
        return Err(TermError::Malformed);
    }
    match percent_decode(leaf.as_bytes()).append_to(&mut bytes) {
        Ok(()) => Ok(bytes),
        Err(_) => Err(TermError::OutOfMemory),
    }
}

/// Returns the text of a leaf of an escaped line.
fn unescape<'a>(alloc: Global, leaf: &'a str) -> Result<CowStr<'a>, TermError>
    ensures { Reads (IsLeaf form.Escaped leaf.now) (result_map_both (λ text. cow_str_bytes text) (λ e. e) result) }
{
    if leaf == "%" {
        return Ok(CowStr::Borrowed(""));
    }
    if !is_whole(leaf.as_bytes()) {
        return Err(TermError::Malformed);
    }
    match percent_decode(leaf.as_bytes()).decode_utf8(alloc) {
        Ok(text) => Ok(text),
        Err(DecodeError::OutOfMemory) => Err(TermError::OutOfMemory),
        Err(_) => Err(TermError::Malformed),
    }
}

/// States that the leaf as which a text is written has this text. It isn't empty, and parts no words, terms or values.
/// A leaf has one text, and a leaf with a broken escape has none.
pub fn laws_of_leaves()
    ensures back { (text : List ℕ) → IsUtf8 text → IsLeaf form.Escaped (leaf_of text) text }
    ensures plain { (bytes : List ℕ) → All IsPlain (leaf_of bytes) }
    ensures some { (bytes : List ℕ) → 0 < length (leaf_of bytes) }
    ensures one { (f : Form) (leaf text other : List ℕ) → IsLeaf f leaf text → IsLeaf f leaf other → text ≡ other }
    ensures empty { IsLeaf form.Escaped (codes "%") [] }
    ensures one_digit { (text : List ℕ) → IsLeaf form.Escaped (codes "%4") text → ⊥ }
    ensures no_digits { (text : List ℕ) → IsLeaf form.Escaped (codes "%zz") text → ⊥ }
    ensures lower_case { IsLeaf form.Escaped (codes "a%2fb") (codes "a/b") }
{}
