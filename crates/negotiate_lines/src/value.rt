//! What the value of a term means by itself.

ghost use Rattle.negotiate_lines.specs.Terms.{Finds};
ghost use Rattle.negotiate_lines.specs.Values.{IsClockTerm, IsNatural, IsNoneOr, IsSpanTerm, IsTruthTerm};

use crate::term::{TermError, around, number, number_below};
use iceoryx2_description::event::EventId;
use iceoryx2_description::time::{ClockFault, Duration, NANOSECONDS_PER_SECOND, Time};

/// Reads seconds and nanoseconds, around a comma. The nanoseconds are fewer than 1,000,000,000.
fn duration(value: &str) -> Result<Duration, TermError>
    ensures { Finds (IsSpanTerm value.now) result }
{
    let Some((seconds, nanoseconds)) = around(value, ',') else {
        return Err(TermError::Malformed);
    };
    let seconds = number(seconds)?;
    let nanoseconds = number_below(nanoseconds, NANOSECONDS_PER_SECOND as u64)?;
    match Duration::new(seconds, nanoseconds as u32) {
        Some(duration) => Ok(duration),
        None => Err(TermError::Malformed),
    }
}

/// Reads such a length of time, or the term `none`.
pub fn duration_or_none(value: &str) -> Result<Option<Duration>, TermError>
    ensures { Finds (IsNoneOr IsSpanTerm value.now) result }
{
    match value {
        "none" => Ok(None),
        _ => Ok(Some(duration(value)?)),
    }
}

/// Reads the number of an event, or the term `none`.
pub fn event_or_none(value: &str) -> Result<Option<EventId>, TermError>
    ensures { Finds (IsNoneOr IsNatural value.now) result }
{
    match value {
        "none" => Ok(None),
        _ => Ok(Some(EventId::new(number(value)?))),
    }
}

/// Reads the seconds and nanoseconds of a time, or the term `fault`.
pub(crate) fn time_or_fault(value: &str) -> Result<Result<Time, ClockFault>, TermError>
    ensures { Finds (IsClockTerm value.now) result }
{
    match value {
        "fault" => Ok(Err(ClockFault)),
        _ => Ok(Ok(time(value)?)),
    }
}

/// Reads a time since the time zero.
fn time(value: &str) -> Result<Time, TermError>
    ensures { Finds (IsSpanTerm value.now) result }
{
    let since_zero = duration(value)?;
    match Time::new(since_zero.seconds(), since_zero.nanoseconds()) {
        Some(time) => Ok(time),
        None => Err(TermError::Malformed),
    }
}

/// Reads the term `true` or `false`.
pub fn truth_value(value: &str) -> Result<bool, TermError>
    ensures { Finds (IsTruthTerm value.now) result }
{
    match value {
        "true" => Ok(true),
        "false" => Ok(false),
        _ => Err(TermError::Malformed),
    }
}
