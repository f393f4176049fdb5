//! The texts of answers.

ghost use Rattle.std.specs.Prelude.{◌≡◌, Some};
ghost use Rattle.iceoryx2_testing.specs.Texts.{
  shown_text,
  existence_text,
  fetch_text,
  truth_text,
  tag_text,
  removal_text,
  lock_text,
  segment_text,
  publishing_text,
  opening_text,
  release_text,
};

use super::entry::Fetched;
use iceoryx2_access::storage::{
    Existence, FetchError, LockError, MakeSegmentError, OpenSegmentError, PublishError, Release,
    ReleaseError, RemoveError, Tag, TagError,
};
use std::fmt;

/// The variant's own name.
macro_rules! named {
    ($value:expr, $kind:ident: $($variant:ident)*) => {
        match $value {
            $($kind::$variant => ShownAnswer::Name(stringify!($variant)),)*
        }
    };
}

/// The answer of an access, as its text tells it.
#[derive(Clone, Copy)]
pub(super) enum ShownAnswer {
    /// The name of an answer, or of the error.
    Name(&'static str),
    /// The number of a service.
    Number(u64),
    /// A ticket.
    Ticket(u64),
    /// A description.
    Bytes(Fetched),
}

impl fmt::Display for ShownAnswer {
    ghost output = { λ shown. Some (shown_text shown) };

    fn fmt<W: fmt::Write>(&self, f: &mut fmt::Formatter<W>) -> fmt::Result {
        match self {
            ShownAnswer::Name(name) => write!(f, "{name}"),
            ShownAnswer::Number(number) => write!(f, "{number}"),
            ShownAnswer::Ticket(ticket) => write!(f, "Ok({ticket})"),
            ShownAnswer::Bytes(fetched) => {
                let number = fetched.number;
                let length = fetched.length;
                write!(f, "{number} ({length} bytes)")
            }
        }
    }
}

pub(super) fn existence_shown(answer: Existence) -> ShownAnswer
    ensures { shown_text result ≡ existence_text answer }
{
    named!(answer, Existence: No Yes BeingSetUp Fault)
}

pub(super) fn fetch_shown(answer: Result<Fetched, FetchError>) -> ShownAnswer
    ensures { shown_text result ≡ fetch_text answer }
{
    match answer {
        Ok(fetched) => ShownAnswer::Bytes(fetched),
        Err(error) => {
            named!(error, FetchError: DoesNotExist NotFinalized OpenFault ReadFault OutOfMemory)
        }
    }
}

pub(super) fn truth_shown(answer: bool) -> ShownAnswer
    ensures { shown_text result ≡ truth_text answer }
{
    if answer {
        ShownAnswer::Name("true")
    } else {
        ShownAnswer::Name("false")
    }
}

pub(super) fn tag_shown(answer: Result<Tag, TagError>) -> ShownAnswer
    ensures { shown_text result ≡ tag_text answer }
{
    match answer {
        Ok(tag) => named!(tag, Tag: Made Found),
        Err(error) => named!(error, TagError: Fault OutOfMemory),
    }
}

pub(super) fn removal_shown(answer: Result<(), RemoveError>) -> ShownAnswer
    ensures { shown_text result ≡ removal_text answer }
{
    match answer {
        Ok(()) => ShownAnswer::Name("Ok"),
        Err(error) => named!(error, RemoveError: InsufficientPermissions Other),
    }
}

pub(super) fn lock_shown(answer: Result<u64, LockError>) -> ShownAnswer
    ensures { shown_text result ≡ lock_text answer }
{
    match answer {
        Ok(number) => ShownAnswer::Number(number),
        Err(error) => {
            named!(error, LockError:
                AlreadyExists Creation InsufficientPermissions Other OutOfMemory)
        }
    }
}

pub(super) fn segment_shown(answer: Result<(), MakeSegmentError>) -> ShownAnswer
    ensures { shown_text result ≡ segment_text answer }
{
    match answer {
        Ok(()) => ShownAnswer::Name("Ok"),
        Err(error) => {
            named!(error, MakeSegmentError:
                AlreadyExists InsufficientPermissions Other OutOfMemory)
        }
    }
}

pub(super) fn publishing_shown(answer: Result<u64, PublishError>) -> ShownAnswer
    ensures { shown_text result ≡ publishing_text answer }
{
    match answer {
        Ok(ticket) => ShownAnswer::Ticket(ticket),
        Err(error) => named!(error, PublishError: Other OutOfMemory),
    }
}

pub(super) fn opening_shown(answer: Result<u64, OpenSegmentError>) -> ShownAnswer
    ensures { shown_text result ≡ opening_text answer }
{
    match answer {
        Ok(ticket) => ShownAnswer::Ticket(ticket),
        Err(error) => {
            named!(error, OpenSegmentError:
                DoesNotExist Marked Full Failed OutOfNumbers OutOfMemory)
        }
    }
}

pub(super) fn release_shown(answer: Result<Release, ReleaseError>) -> ShownAnswer
    ensures { shown_text result ≡ release_text answer }
{
    match answer {
        Ok(left) => named!(left, Release: StillCounted Left Last),
        Err(error) => named!(error, ReleaseError: NoSuchTicket),
    }
}
