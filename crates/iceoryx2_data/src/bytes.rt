//! The bytes that describe a service from one node to another.

ghost use Rattle.std.specs.Prelude.{◌≡◌, ◌<◌, ◌++◌, ℕ, List, [], All, IfOk, MatchResult};
ghost use Rattle.iceoryx2_description.specs.Description.{Description, IsDescription};
ghost use Rattle.iceoryx2_data.specs.Form.{IsForm};
ghost use Rattle.iceoryx2_data.specs.declared.parts.reading.DecodeError.TheVariants.{OutOfMemory};

mod reading;
mod room;
mod writing;

pub use crate::parts::reading::DecodeError;
use iceoryx2_description::description::StaticConfig;
use std::alloc::{AllocError, Global};

/// The four characters with which each form begins.
pub const MAGIC: [u8; 4] = *b"IOX2";

/// The version of the form of a description without a creator, the byte after the magic.
pub const VERSION_WITHOUT_CREATOR: u8 = 1;

/// The version of the form of a description with its creator. The creator's id is after the version.
pub const VERSION_WITH_CREATOR: u8 = 2;

/// The byte of a service of events.
pub const EVENT_BYTE: u8 = 1;

/// The byte of a service of publish-subscribe.
pub const PUBLISH_SUBSCRIBE_BYTE: u8 = 2;

/// The byte of a service of request-response.
pub const REQUEST_RESPONSE_BYTE: u8 = 3;

/// States the bytes of the patterns as numbers, because a wrong constant would also change the form
/// that cites it. The form spells the magic and the versions itself.
pub fn pattern_bytes()
    ensures events { EVENT_BYTE ≡ 1 }
    ensures publish_subscribe { PUBLISH_SUBSCRIBE_BYTE ≡ 2 }
    ensures request_response { REQUEST_RESPONSE_BYTE ≡ 3 }
{}

/// Returns the byte form of the description. Its memory is asked for once.
pub fn encode(alloc: Global, description: &StaticConfig) -> Result<Vec<u8>, AllocError>
    ensures { IfOk result (λ bytes. IsForm description.now bytes.items) }
{
    let mut out = Vec::with_capacity(alloc, room::length_of(description))?;
    writing::put_description(&mut out, description)?;
    Ok(out)
}

/// Returns the description whose byte form the bytes are. `Malformed` if there is none, and
/// `OutOfMemory` if there was no memory for the name, an attribute or a type.
pub fn decode(alloc: Global, bytes: &[u8]) -> Result<StaticConfig, DecodeError>
    // What is found has the bytes as its form.
    ensures found { IfOk result (λ d. IsForm d bytes.now) }

    // The description of the bytes is found, unless memory runs out.
    ensures only { (d : Description)
        → IsForm d bytes.now → MatchResult result (λ found. found ≡ d) (λ e. e ≡ OutOfMemory) }
{
    reading::all(alloc, bytes)
}

/// States the laws of the byte form.
pub fn laws_of_forms()
    // Each description has a byte form,
    ensures exists { (d : Description) → IsDescription d → (bytes : List ℕ) × IsForm d bytes }

    // which is a list of bytes,
    ensures bytes { (d : Description) (bytes : List ℕ) → IsForm d bytes → All (λ b. b < 256) bytes }

    // and the only one.
    ensures only_form { (d : Description) (bytes other : List ℕ)
        → IsForm d bytes → IsForm d other → bytes ≡ other }

    // Bytes are the form of one description at most,
    ensures only_description { (bytes : List ℕ) (c d : Description)
        → IsForm c bytes → IsForm d bytes → c ≡ d }

    // and none of them is the front of a longer form.
    ensures no_front { (bytes rest : List ℕ) (c d : Description)
        → IsForm c bytes → IsForm d (bytes ++ rest) → rest ≡ [] }
{}
