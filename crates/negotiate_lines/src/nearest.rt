//! Finds the word that may have been meant.

ghost use Rattle.std.specs.Prelude.{◌≡◌, ◌∷◌, ◌++◌, [], ℕ, List, IfOk, cond};
ghost use Rattle.negotiate_lines.specs.Nearest.{Suggests, are_near, distance, now_of};

use std::alloc::{AllocError, Global};
use strsim::levenshtein;

/// Returns the nearest of some words and one more. Of two that are equally near it returns the first.
pub(crate) fn nearer(
    alloc: Global,
    term: &str,
    nearest: Option<&'static str>,
    word: &'static str,
) -> Result<Option<&'static str>, AllocError>
    ensures { (words : List (List ℕ)) → Suggests term.now words (now_of nearest.entry)
        → IfOk result (λ found. Suggests term.now (words ++ word.now ∷ []) (now_of found)) }
{
    if !is_near(alloc, term, word)? {
        return Ok(nearest);
    }
    match nearest {
        None => Ok(Some(word)),
        Some(found) => {
            if levenshtein(alloc, term, word)? < levenshtein(alloc, term, found)? {
                return Ok(Some(word));
            }
            Ok(nearest)
        }
    }
}

/// Does the same if the word is allowed there. Otherwise it returns the nearest of the words.
pub(crate) fn nearer_if(
    alloc: Global,
    term: &str,
    nearest: Option<&'static str>,
    word: &'static str,
    could_stand: bool,
) -> Result<Option<&'static str>, AllocError>
    ensures { (words : List (List ℕ)) → Suggests term.now words (now_of nearest.entry) → IfOk result
        (λ found. Suggests term.now (words ++ cond could_stand (word.now ∷ []) []) (now_of found)) }
{
    if could_stand {
        return nearer(alloc, term, nearest, word);
    }
    Ok(nearest)
}

/// Returns whether few edits lead from a term to a word: at most 2, and fewer than half of the word's bytes. A term of
/// more than 64 bytes is near to no word.
fn is_near(alloc: Global, term: &str, word: &str) -> Result<bool, AllocError>
    ensures { IfOk result (λ near. near ≡ are_near term.now word.now) }
{
    if term.len() > 64 {
        return Ok(false);
    }
    let edits = levenshtein(alloc, term, word)?;
    Ok(edits <= 2 && edits + edits < word.len())
}
