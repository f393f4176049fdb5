//! What can be wrong with a line.

use crate::vocabulary::{Admitted, Kind};
use std::alloc::AllocError;

/// What is wrong with a line, with the term that it is about.
#[derive(Clone, Copy)]
pub enum LineError<'a> {
    /// The line isn't UTF-8.
    NotUtf8,
    /// No command begins with this term.
    NoSuchCommand(&'a str),
    /// A term after `list`.
    BehindList(&'a str),
    /// A term after the slot of a close.
    BehindSlot(&'a str),
    /// A pattern with nothing after it.
    NoCall,
    /// No call has this name.
    NoSuchCall(&'a str),
    /// A call with no node.
    NoNode,
    /// No number of a node.
    NoNodeNumber(&'a str),
    /// A call or a close with no slot.
    NoSlot,
    /// No number.
    NoSlotNumber(&'a str),
    /// A number past the last slot.
    SlotTooGreat(&'a str),
    /// A call with no name.
    NoName,
    /// A leaf with a broken escape, or whose bytes aren't UTF-8.
    BrokenLeaf(&'a str),
    /// A name whose length is out of range.
    NameLength(&'a str),
    /// A term after the name without `=`.
    NoEqualsSign(&'a str),
    /// No setting of the pattern has this name. These are allowed there.
    NoSuchSetting {
        /// The name.
        name: &'a str,
        /// The pattern's word.
        pattern: &'static str,
        /// The pattern's settings.
        settings: &'static [(&'static str, Kind)],
        /// Which of the terms that every pattern has.
        admitted: Admitted,
    },
    /// A setting with a value that it doesn't take.
    Value(&'a str, &'a str, Kind),
    /// A value of `now` that is no time.
    NoTime(&'a str),
    /// `now` with an `open`.
    NowWithOpen,
    /// `now` with a pattern whose calls ask no clock.
    NowOfPattern(&'static str),
    /// `require_key` with a `create`.
    KeyWithCreate,
    /// A value of `attribute` without `:`.
    NoColon(&'a str),
    /// A key that is empty or too long.
    KeyLength(&'a str),
    /// A value of a key that is too long.
    ValueLength(&'a str),
    /// A pair, if there are already as many different ones as there may be.
    TooManyPairs(&'a str, &'a str),
    /// A required key, if there are already as many different ones as there may be.
    TooManyKeys(&'a str),
}

/// Why a part of a line isn't read.
#[derive(Clone, Copy)]
pub(crate) enum LineFailure<'a> {
    /// It is wrong.
    Wrong(LineError<'a>),
    /// There is no memory for what it means.
    OutOfMemory,
}

impl From<AllocError> for LineFailure<'_> {
    ghost use Rattle.std.specs.Prelude.{◌≡◌};
    ghost use Rattle.negotiate_lines.specs.declared.line_error.LineFailure.TheVariants as failure;

    ghost from_gives = { λ _ given. given ≡ failure.OutOfMemory };

    fn from(_error: AllocError) -> Self {
        LineFailure::OutOfMemory
    }
}
