//! The byte form of an entry: the length of its body, the same with its bits inverted, a sum, and the body.

ghost use Rattle.std.specs.Prelude.{◌≡◌, ◌↔◌, ℕ, List, All, Err, IfOk, IsErrOf, MatchResult};
ghost use Rattle.iceoryx2_log.specs.declared.entry.Entry as declared;
ghost use Rattle.iceoryx2_log.specs.declared.form.reading.EntryError.TheVariants as errors;
ghost use Rattle.iceoryx2_log.specs.Form.{IsForm, Begins, IsCutShort};
ghost use Rattle.iceoryx2_log.specs.FormLaws.{EachFormIsBytes, OneFormEach, OneEntryEach};
ghost use Rattle.iceoryx2_log.specs.FormLaws.{NoFrontOfAnother, EachCutIsShort};

mod reading;
mod writing;

pub use self::reading::EntryError;
pub use self::writing::{EncodeError, encode};
use crate::entry::Entry;
use std::alloc::Global;

/// The number of bytes of the length, together with the same inverted.
pub const HEADER_LENGTH: usize = 8;

/// The number of bytes of the SHA-1 of length and body that come before the body.
pub const SUM_LENGTH: usize = 8;

/// The length of the shortest body, in bytes: a kind, a node and a hash.
pub const MIN_BODY_LENGTH: usize = 29;

/// The length of the longest body, in bytes.
pub const MAX_BODY_LENGTH: usize = 1_048_576;

/// The lengths as numbers, since a wrong constant would go with the form that cites it.
pub fn lengths()
    ensures header { HEADER_LENGTH ≡ 8 }
    ensures sum { SUM_LENGTH ≡ 8 }
    ensures min_body { MIN_BODY_LENGTH ≡ 29 }
    ensures max_body { MAX_BODY_LENGTH ≡ 1048576 }
{}

/// Returns the entry whose byte form begins the bytes, and the number of bytes of that form. Any bytes
/// may follow the form. `CutShort` if the bytes end before an entry does; this is tested first.
/// `Malformed` if the bytes begin with no entry. `OutOfMemory` if they begin with an entry, and there was
/// no memory for a description's bytes.
pub fn decode(alloc: Global, bytes: &[u8]) -> Result<(Entry, usize), EntryError>
    // The bytes begin with the form of what is found,
    ensures found { IfOk result (λ found. Begins bytes.now found.0 found.1) }

    // and an entry whose form they begin with is found, unless memory runs out.
    ensures only { (e : declared.Entry) (count : ℕ) → Begins bytes.now e count
        → MatchResult result (λ found. found ≡ (e, count)) (λ error. error ≡ errors.OutOfMemory) }
    ensures cut_short { (result ≡ Err errors.CutShort) ↔ IsCutShort bytes.now }
    ensures out_of_memory { IsErrOf result errors.OutOfMemory
        → (e : declared.Entry) × (count : ℕ) × Begins bytes.now e count }
{
    match reading::entry_of(alloc, bytes) {
        Ok((entry, rest)) => Ok((entry, bytes.len() - rest.len())),
        Err(error) => Err(error),
    }
}

/// The laws of the byte form.
pub fn laws_of_forms()
    ensures bytes { EachFormIsBytes }
    ensures only_form { OneFormEach }
    ensures only_entry { OneEntryEach }
    ensures no_front { NoFrontOfAnother }
    ensures cuts { EachCutIsShort }
{}
