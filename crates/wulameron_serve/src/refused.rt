//! What is told of a call that is refused.

ghost use Rattle.std.specs.Prelude.{◌≡◌, ◌++◌, ℕ, List, IfOk, OnOk, codes, string_bytes};
ghost use Rattle.wulameron_serve.specs.Refusals.{IsFoundIn, IsOfferIn, offered_lines, refusal_line, refusal_text};
ghost use Rattle.wulameron_place.specs.Troubles.{WritesLine, trouble_line};

use crate::remedy::remedy;
use explain_serve::settings::describe_offer;
use explain_serve::standing::service_of;
use iceoryx2_builder::command::{Call, Refusal};
use iceoryx2_description::description::StaticConfig;
use iceoryx2_session::world_storage::WorldStorage;
use negotiate_serve::ending::ServeError;
use std::alloc::{AllocError, Global};
use std::io::Write;
use wulameron_place::reports::Reports;

/// A call that is refused, and the service of its name and pattern that is published.
#[derive(Drop)]
pub struct Offer {
    pub call: Call,
    pub existing: StaticConfig,
}

/// Returns the call with the service of its name and pattern that is published in the storage's world, or `None` if
/// there is none. `AllocError` if there is no memory for it.
pub fn offer_to<S: WorldStorage>(
    alloc: Global,
    call: Call,
    storage: &S,
) -> Result<Option<Offer>, AllocError>
    ensures { IfOk result (IsOfferIn (S.world storage.now) call) }
{
    match existing_in(alloc, &call, storage)? {
        Some(existing) => Ok(Some(Offer { call, existing })),
        None => Ok(None),
    }
}

/// Returns the description of the service of the call's name and pattern that is published in the storage's world.
fn existing_in<S: WorldStorage>(
    alloc: Global,
    call: &Call,
    storage: &S,
) -> Result<Option<StaticConfig>, AllocError>
    ensures { IfOk result (IsFoundIn (S.world storage.now) call.entry.now) }
{
    let entries = storage.list()?;
    service_of(alloc, &entries, call)
}

/// Writes the line of a refusal, with what can be done. After it, it writes what the call required and what the service
/// offers, as `explain` does: of the settings or attributes that the refusal names, or of each part of the messages if
/// it names types.
///
/// `ServeError` as `Reports::tell` does.
pub fn tell_refusal<E: Write>(
    refusal: Refusal,
    offer: &Option<Offer>,
    reports: &mut Reports<'_, E>,
) -> Result<(), ServeError>
    ensures { WritesLine (refusal_line reports.old.path.now refusal ++ offered_lines refusal offer.now) result
        (E.contents reports.old.errors) (E.contents reports.new.errors) }
{
    match refusal_lines(reports.alloc(), refusal, offer) {
        Ok(lines) => tell_lines(lines.as_str(), reports),
        Err(_) => Err(reports.tell_no_memory()),
    }
}

/// Returns the lines of a refusal, without the path of the log.
fn refusal_lines(
    alloc: Global,
    refusal: Refusal,
    offer: &Option<Offer>,
) -> Result<String, AllocError>
    ensures { IfOk result (λ lines.
        string_bytes lines ≡ refusal_text refusal ++ (codes "\n" ++ offered_lines refusal offer.now)) }
{
    let remedy = remedy(refusal);
    let mut lines = format!(in alloc; "{refusal}; {remedy}\n")?;
    write_offer(refusal, offer, &mut lines)?;
    Ok(lines)
}

/// Writes what the call required and what the service offers, if one was found.
fn write_offer(refusal: Refusal, offer: &Option<Offer>, text: &mut String) -> Result<(), AllocError>
    ensures { OnOk result (string_bytes text.new ≡ string_bytes text.old ++ offered_lines refusal offer.now) }
{
    match offer {
        Some(offer) => describe_offer(&offer.call, refusal, &offer.existing, text),
        None => Ok(()),
    }
}

/// Writes lines, which end as lines do.
fn tell_lines<E: Write>(lines: &str, reports: &mut Reports<'_, E>) -> Result<(), ServeError>
    ensures { (front : List ℕ) → lines.now ≡ front ++ codes "\n"
        → WritesLine (trouble_line reports.old.path.now front) result
        (E.contents reports.old.errors) (E.contents reports.new.errors) }
{
    match lines.strip_suffix('\n') {
        Some(front) => reports.tell(front),
        None => reports.tell(lines),
    }
}
