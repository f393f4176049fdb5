//! What can be done about a refused call, in terms of a call and commands of the program.

ghost use Rattle.std.specs.Prelude.{◌≡◌, if◌then◌else◌};
ghost use Rattle.wulameron_serve.specs.Refusals.{asks_clock as asks_clock_of, is_open as is_open_of};
ghost use Rattle.wulameron_serve.specs.Refusals.{is_of_create as is_of_create_of, remedy_of};

use explain_serve::refusals::RefusalRow;
use iceoryx2_errors::error::EventOpenOrCreateError;
use iceoryx2_errors::refusal::{Reason, Refusal};

const REQUIRE_LESS: &str = "\
    require less by `attribute=..` and `require_key=..`; `show NAME` prints the \
    service's attributes";

const DEFINE_KEYS: &str = "\
    require less; a service that this call creates has the pairs of `attribute=..` and not the \
    keys of `require_key=..`, so an open that requires the keys is refused: define each by \
    `attribute=KEY:VALUE`";

const RETRY_OR_NEW_LOG: &str = "\
    try again once the log's fault has passed; a log whose counter is at its end gives no numbers \
    any more, so begin another one";

const GIVE_TIME: &str = "\
    for a deadline give a time, as by `now=12,0`, or ask for `deadline=none`; a log whose counter \
    is at its end needs another one; else try again once the fault has passed";

const MATCH_DEADLINE: &str = "\
    ask for the service's deadline, by `deadline=none` if it has none, or leave the term out";

const MATCH_DEADLINE_OR_DEFAULT: &str = "\
    ask for the service's deadline, by `deadline=none` if it has none, or leave the term out: a \
    create then takes the default";

const MATCH_CREATED_EVENT: &str = "\
    ask for the service's event, by `notifier_created_event=none` if it has none, or leave the \
    term out";

const MATCH_CREATED_EVENT_OR_DEFAULT: &str = "\
    ask for the service's event, by `notifier_created_event=none` if it has none, or leave the \
    term out: a create then takes the default";

const MATCH_DROPPED_EVENT: &str = "\
    ask for the service's event, by `notifier_dropped_event=none` if it has none, or leave the \
    term out";

const MATCH_DROPPED_EVENT_OR_DEFAULT: &str = "\
    ask for the service's event, by `notifier_dropped_event=none` if it has none, or leave the \
    term out: a create then takes the default";

const MATCH_DEAD_EVENT: &str = "\
    ask for the service's event, by `notifier_dead_event=none` if it has none, or leave the term \
    out";

const MATCH_DEAD_EVENT_OR_DEFAULT: &str = "\
    ask for the service's event, by `notifier_dead_event=none` if it has none, or leave the term \
    out: a create then takes the default";

const MATCH_TYPES: &str = "\
    ask for the service's types by `payload=..` and `user_header=..`, and for no greater \
    `payload_alignment=..`; other terms can't help";

const MATCH_REQUEST: &str = "\
    ask for the service's request by `request_payload=..` and `request_header=..`, and for no \
    greater `request_payload_alignment=..`; other terms can't help";

const MATCH_RESPONSE: &str = "\
    ask for the service's response by `response_payload=..` and `response_header=..`, and for no \
    greater `response_payload_alignment=..`; other terms can't help";

/// Returns what can be done about a refusal. It is the text of its row in docs/REFUSALS.md, unless that text names
/// calls or a storage of the library.
pub fn remedy(refusal: Refusal) -> &'static str
    ensures { result.now ≡ remedy_of refusal }
{
    let is_open = is_open(refusal);
    match refusal.reason() {
        Reason::IncompatibleAttributes => either(is_open, REQUIRE_LESS, DEFINE_KEYS),
        Reason::InternalFailure => either(asks_clock(refusal), GIVE_TIME, RETRY_OR_NEW_LOG),
        Reason::IncompatibleDeadline => either(is_open, MATCH_DEADLINE, MATCH_DEADLINE_OR_DEFAULT),
        Reason::IncompatibleNotifierCreatedEvent => {
            either(is_open, MATCH_CREATED_EVENT, MATCH_CREATED_EVENT_OR_DEFAULT)
        }
        Reason::IncompatibleNotifierDroppedEvent => {
            either(is_open, MATCH_DROPPED_EVENT, MATCH_DROPPED_EVENT_OR_DEFAULT)
        }
        Reason::IncompatibleNotifierDeadEvent => {
            either(is_open, MATCH_DEAD_EVENT, MATCH_DEAD_EVENT_OR_DEFAULT)
        }
        Reason::IncompatibleTypes => MATCH_TYPES,
        Reason::IncompatibleRequestType => MATCH_REQUEST,
        Reason::IncompatibleResponseType => MATCH_RESPONSE,
        _ => RefusalRow::of(refusal).what_can_be_done,
    }
}

/// Returns one of two texts.
fn either(is_first: bool, first: &'static str, second: &'static str) -> &'static str
    ensures { result.now ≡ (if is_first then first.now else second.now) }
{
    if is_first { first } else { second }
}

/// Returns whether an open refused that is no part of an open or create.
fn is_open(refusal: Refusal) -> bool
    ensures { result ≡ is_open_of refusal }
{
    match refusal {
        Refusal::EventOpen(_)
        | Refusal::PublishSubscribeOpen(_)
        | Refusal::RequestResponseOpen(_) => true,
        _ => false,
    }
}

/// Returns whether the create of an event refused, which asks the clock for a deadline.
fn asks_clock(refusal: Refusal) -> bool
    ensures { result ≡ asks_clock_of refusal }
{
    match refusal {
        Refusal::EventCreate(_) => true,
        Refusal::EventOpenOrCreate(error) => is_of_create(error),
        _ => false,
    }
}

/// Returns whether the create of an open or create refused.
fn is_of_create(error: EventOpenOrCreateError) -> bool
    ensures { result ≡ is_of_create_of error }
{
    match error {
        EventOpenOrCreateError::EventCreateError(_) => true,
        _ => false,
    }
}
