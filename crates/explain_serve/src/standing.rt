//! The service that a call found: the one of its name and pattern.

ghost use Rattle.std.specs.Prelude.{◌≡◌, IfOk, Some, None, if◌then◌else◌};
ghost use Rattle.explain_serve.specs.Standing.{IsFound, IsFoundAt, is_asked_for, is_of_pattern};

use iceoryx2_builder::command::{Call, Settings};
use iceoryx2_data::bytes::{DecodeError, decode};
use iceoryx2_description::description::{MessagingPattern, StaticConfig};
use iceoryx2_world::listing::{Entry, ListedRow};
use std::alloc::{AllocError, Global};

/// Returns the description of the service of the call's name and pattern among the listed ones, or `None` if none is
/// published. `AllocError` if there was no memory for it.
pub fn service_of(
    alloc: Global,
    entries: &[Entry],
    call: &Call,
) -> Result<Option<StaticConfig>, AllocError>
    ensures { IfOk result (IsFound call.entry.now entries.now) }
{
    for entry in entries {
        match service_at(alloc, entry, call)? {
            Some(description) => return Ok(Some(description)),
            None => {}
        }
    }
    Ok(None)
}

/// Returns the description that is published here, if it has the call's name and pattern.
fn service_at(alloc: Global, entry: &Entry, call: &Call) -> Result<Option<StaticConfig>, AllocError>
    ensures { IfOk result (IsFoundAt call.entry.now entry.now) }
{
    let ListedRow::Published(_, bytes) = &entry.row else {
        return Ok(None);
    };
    match decode(alloc, bytes.as_slice()) {
        Ok(description) => Ok(kept_where_asked(description, call)),
        Err(DecodeError::Malformed) => Ok(None),
        Err(DecodeError::OutOfMemory) => Err(AllocError),
    }
}

/// Returns the description, if it has the call's name and pattern.
fn kept_where_asked(description: StaticConfig, call: &Call) -> Option<StaticConfig>
    ensures { result ≡ (if is_asked_for call.entry.now description then Some description else None) }
{
    let is_named = description.name().as_str() == call.name.as_str();
    if is_named && is_of_pattern(&call.settings, description.messaging_pattern()) {
        Some(description)
    } else {
        None
    }
}

/// Returns whether a pattern is the one of these settings.
fn is_of_pattern(settings: &Settings, pattern: &MessagingPattern) -> bool
    ensures { result ≡ is_of_pattern settings.now pattern.now }
{
    match (settings, pattern) {
        (Settings::Event(_), MessagingPattern::Event(_)) => true,
        (Settings::PublishSubscribe(_), MessagingPattern::PublishSubscribe(_)) => true,
        (Settings::RequestResponse(_), MessagingPattern::RequestResponse(_)) => true,
        _ => false,
    }
}
