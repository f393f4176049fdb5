//! Cells in columns of a terminal.

ghost use Rattle.std.specs.Prelude.{◌≡◌, ◌-◌, ◌++◌, IfOk, OnOk, string_bytes};
ghost use Rattle.std.specs.Str.{chars};
ghost use Rattle.wulameron_view.specs.Tables.{character_columns, columns as columns_of, cut, ellipsis, front, padded};
ghost use Rattle.wulameron_view.specs.Tables.{red, spaces};

use std::alloc::{AllocError, Global};
use unicode_width::{UnicodeWidthChar, UnicodeWidthStr};

/// Returns how many columns of a terminal a text takes.
#[tactic(auto, unfolding(crate::specs::Tables::columns))]
pub(crate) fn columns(text: &str) -> usize
    ensures { result ≡ columns_of text.now }
{
    text.width()
}

/// Writes a cell, and spaces up to the width of its column.
pub(crate) fn write_padded(cell: &str, width: usize, text: &mut String) -> Result<(), AllocError>
    ensures { OnOk result (string_bytes text.new ≡ string_bytes text.old ++ padded width cell.now) }
{
    text.push_str(cell)?;
    write_spaces(width.saturating_sub(columns(cell)), text)
}

/// Writes this many spaces.
fn write_spaces(count: usize, text: &mut String) -> Result<(), AllocError>
    ensures { OnOk result (string_bytes text.new ≡ string_bytes text.old ++ spaces count) }
{
    for _space in 0..count {
        text.push_str(" ")?;
    }
    Ok(())
}

/// Returns a cell that takes at most this many columns: itself, or its first characters and an ellipsis.
pub(crate) fn cut(alloc: Global, width: usize, cell: &str) -> Result<String, AllocError>
    ensures { IfOk result (λ text. string_bytes text ≡ cut width cell.now) }
{
    if columns(cell) <= width {
        return String::from_str(alloc, cell);
    }
    let mut text = String::new(alloc);
    write_front(cell, width.saturating_sub(1), &mut text)?;
    Ok(text)
}

/// Writes the first characters, as long as they take at most this many columns, and an ellipsis.
fn write_front(cell: &str, width: usize, text: &mut String) -> Result<(), AllocError>
    ensures { OnOk result (string_bytes text.new ≡ string_bytes text.old ++ front width (chars cell.now)) }
{
    let mut left = width;
    for character in cell.chars() {
        let taken = character_columns(character);
        if taken > left {
            return write_ellipsis(text);
        }
        left -= taken;
        text.push(character)?;
    }
    Ok(())
}

/// Writes what replaces the characters that are cut off.
fn write_ellipsis(text: &mut String) -> Result<(), AllocError>
    ensures { OnOk result (string_bytes text.new ≡ string_bytes text.old ++ ellipsis) }
{
    text.push('…')
}

/// Returns how many columns of a terminal a character takes.
fn character_columns(character: char) -> usize
    ensures { result ≡ character_columns character }
{
    match character.width() {
        Some(columns) => columns,
        None => 0,
    }
}

/// Writes a part, in red if it is to be red and isn't empty.
pub(crate) fn write_red(is_red: bool, part: &str, text: &mut String) -> Result<(), AllocError>
    ensures { OnOk result (string_bytes text.new ≡ string_bytes text.old ++ red is_red part.now) }
{
    if !is_red {
        return text.push_str(part);
    }
    if part.is_empty() {
        return Ok(());
    }
    write!(text, "\x1b[31m{part}\x1b[0m")
}
