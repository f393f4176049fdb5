//! The terms of a text, and the numbers that they write.

ghost use Rattle.std.specs.Prelude.{◌≡◌, ◌<◌, ◌^◌, ℕ, List, [], ◌∷◌, IfSome, MatchOption, length};
ghost use Rattle.negotiate_lines.specs.Terms.{AreAround, Finds, IsNumber, terms_of};

/// Why nothing is read from a text.
#[derive(Clone, Copy)]
pub enum TermError {
    /// It is nothing of this kind.
    Malformed,
    /// There is no memory for what it means.
    OutOfMemory,
}

/// Returns the first term of a text, and what follows it. One or more spaces part terms.
pub fn next_term(text: &str) -> Option<(&str, &str)>
    ensures term { MatchOption result (terms_of text.now ≡ [])
        (λ next. terms_of text.now ≡ next.0.now ∷ terms_of next.1.now) }
    ensures shorter { IfSome result (λ next. length next.1.now < length text.now) }
{
    let mut rest = text;
    while let Some((part, after)) = rest.split_once(' ') {
        if !part.is_empty() {
            return Some((part, after));
        }
        rest = after;
    }
    if rest.is_empty() {
        None
    } else {
        Some((rest, ""))
    }
}

/// Returns what precedes the first such character of a term, and what follows it.
pub fn around(term: &str, separator: char) -> Option<(&str, &str)>
    requires { separator < 128 }
    ensures { MatchOption result
        ((front back : List ℕ) → AreAround separator term.now front back → ⊥)
        (λ parts. AreAround separator term.now parts.0.now parts.1.now) }
{
    term.split_once(separator)
}

/// Reads one or more decimal digits with a value that fits. Leading zeros are allowed, a sign is not.
#[tactic(auto, using(crate::proofs::Numbers::numbers))]
pub fn number(term: &str) -> Result<u64, TermError>
    ensures { Finds (IsNumber (2 ^ 64) term.now) result }
{
    if term.starts_with('+') {
        return Err(TermError::Malformed);
    }
    match term.parse::<u64>() {
        Ok(number) => Ok(number),
        Err(_) => Err(TermError::Malformed),
    }
}

/// Reads such a number if it is below a limit.
#[tactic(auto, using(crate::proofs::Numbers::limited_numbers))]
pub fn number_below(term: &str, limit: u64) -> Result<u64, TermError>
    ensures { Finds (IsNumber limit term.now) result }
{
    let number = number(term)?;
    if number < limit {
        Ok(number)
    } else {
        Err(TermError::Malformed)
    }
}
