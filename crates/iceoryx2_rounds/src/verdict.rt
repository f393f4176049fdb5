//! The tests that verdicts are made of.

ghost use Rattle.std.specs.Prelude.{◌≡◌, ◌∷◌, [], List};
ghost use Rattle.iceoryx2_rounds.specs.Verdict.{Clause, IsVerdict, at_least, flag_is, marked_clauses};
ghost use Rattle.iceoryx2_rounds.specs.Verdict.{number_is, span_is, verdict};
ghost use Rattle.iceoryx2_rounds.specs.OwnAttributes.{attribute_clauses};

use iceoryx2_attribute::attribute::{AttributeSet, AttributeVerifier};
use iceoryx2_description::event::EventId;
use iceoryx2_description::time::Duration;

/// Refuses a number that is less than the required one, if the setting is marked.
#[tactic(auto, unfolding(crate::specs::Verdict::verdict, crate::specs::Verdict::marked_clauses, crate::specs::Verdict::at_least))]
pub fn need_at_least<E: Copy>(
    is_marked: bool,
    existing: u64,
    required: u64,
    error: E,
) -> Result<(), E>
    ensures { result ≡ verdict (marked_clauses (at_least is_marked existing required error ∷ [])) }
{
    if is_marked && existing < required {
        Err(error)
    } else {
        Ok(())
    }
}

/// Refuses another flag than the required one, if the setting is marked.
#[tactic(auto, unfolding(crate::specs::Verdict::verdict, crate::specs::Verdict::marked_clauses, crate::specs::Verdict::flag_is))]
pub fn need_flag<E: Copy>(
    is_marked: bool,
    existing: bool,
    required: bool,
    error: E,
) -> Result<(), E>
    ensures { result ≡ verdict (marked_clauses (flag_is is_marked existing required error ∷ [])) }
{
    let differs = existing != required;
    if is_marked && differs {
        Err(error)
    } else {
        Ok(())
    }
}

/// Refuses another event than the required one, or none instead of one, if the setting is marked.
#[tactic(auto, unfolding(crate::specs::Verdict::verdict, crate::specs::Verdict::marked_clauses, crate::specs::Verdict::number_is))]
pub fn need_event<E: Copy>(
    is_marked: bool,
    existing: Option<EventId>,
    required: Option<EventId>,
    error: E,
) -> Result<(), E>
    ensures { result ≡ verdict (marked_clauses (number_is is_marked existing required error ∷ [])) }
{
    if is_marked && existing != required {
        Err(error)
    } else {
        Ok(())
    }
}

/// Refuses another length of time than the required one, or none instead of one, if the setting is
/// marked.
#[tactic(auto, unfolding(crate::specs::Verdict::verdict, crate::specs::Verdict::marked_clauses, crate::specs::Verdict::span_is))]
pub fn need_duration<E: Copy>(
    is_marked: bool,
    existing: Option<Duration>,
    required: Option<Duration>,
    error: E,
) -> Result<(), E>
    ensures { result ≡ verdict (marked_clauses (span_is is_marked existing required error ∷ [])) }
{
    if is_marked && required != existing {
        Err(error)
    } else {
        Ok(())
    }
}

/// Refuses attributes that lack a required pair, or that have no value for a required key.
pub fn need_attributes<E: Copy>(
    verifier: &AttributeVerifier,
    existing: &AttributeSet,
    error: E,
) -> Result<(), E>
    ensures { result ≡ verdict (attribute_clauses error verifier.now existing.now) }
{
    match verifier.verify_requirements(existing) {
        Ok(()) => Ok(()),
        Err(_) => Err(error),
    }
}

/// The meaning of a verdict: each clause is met, or its error is that of the first clause that
/// isn't.
#[tactic(auto, using(crate::proofs::Verdicts::verdict_is))]
pub fn verdict_law<E: Copy>()
    ensures { (clauses : List (Clause E)) → IsVerdict clauses (verdict clauses) }
{}
