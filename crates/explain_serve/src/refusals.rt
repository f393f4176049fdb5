//! Why a call was refused, and what can be done: the rows of docs/REFUSALS.md.

ghost use Rattle.std.specs.Prelude.{◌≡◌, ◌++◌, OnOk, string_bytes};
ghost use Rattle.explain_serve.specs.Refusals.{part_of, pattern_of, refusal_row, row_lines};
ghost use Rattle.explain_serve.specs.Rows.{required, row_of, texts_of};
ghost use Rattle.explain_serve.specs.declared.refusals.Pattern.{Pattern as AnyPattern};
ghost use Rattle.iceoryx2_errors.specs.declared.refusal.Reason.TheVariants as reason;

mod comes_when;
mod what_can_be_done;

use iceoryx2_errors::error::{
    EventOpenOrCreateError, PublishSubscribeOpenOrCreateError, RequestResponseOpenOrCreateError,
};
use iceoryx2_errors::refusal::{Reason, Refusal};
use std::alloc::AllocError;

/// The part of a call that refuses.
#[derive(Clone, Copy)]
enum Part {
    Open,
    Create,
    /// The look of a round of an open or create, or its open.
    RoundOpen,
    /// The create of a round.
    RoundCreate,
    /// All rounds.
    Rounds,
}

/// The pattern of the service that a call is for.
#[derive(Clone, Copy)]
enum Pattern {
    Event,
    PublishSubscribe,
    RequestResponse,
}

/// These two texts.
macro_rules! row {
    ($comes_when:ident $what_can_be_done:ident) => {
        RefusalRow {
            comes_when: comes_when::$comes_when,
            what_can_be_done: what_can_be_done::$what_can_be_done,
        }
    };
}

/// The row of a setting that isn't met: when it comes, what can be done after an open, and what after an open or
/// create.
macro_rules! setting {
    ($part:expr, $comes_when:ident $after_open:ident $after_either:ident) => {
        of_setting(
            $part,
            comes_when::$comes_when,
            what_can_be_done::$after_open,
            what_can_be_done::$after_either,
        )
    };
}

/// What docs/REFUSALS.md has of an error.
#[derive(Clone, Copy)]
pub struct RefusalRow {
    /// At which step of the call it comes, and from what.
    pub comes_when: &'static str,
    pub what_can_be_done: &'static str,
}

impl RefusalRow {
    /// Returns the row of a refusal.
    pub fn of(refusal: Refusal) -> RefusalRow
        ensures { texts_of result ≡ refusal_row refusal }
    {
        row_of(refusal.reason(), part_of(refusal), pattern_of(refusal))
    }
}

/// Returns the row of a reason, if this part of a call for this pattern refuses. The reasons of several rows have
/// functions of their own: the borrow check of one function of all rows took 48 seconds.
fn row_of(reason: Reason, part: Part, pattern: Pattern) -> RefusalRow
    ensures { texts_of result ≡ row_of reason part pattern }
{
    match reason {
        Reason::IncompatibleDeadline =>
            setting!(part, DEADLINE MATCH_DEADLINE MATCH_DEADLINE_OR_DEFAULT),
        Reason::IncompatibleNotifierCreatedEvent =>
            setting!(part, NOTIFIER_CREATED_EVENT MATCH_CREATED_EVENT MATCH_CREATED_EVENT_OR_DEFAULT),
        Reason::IncompatibleNotifierDroppedEvent =>
            setting!(part, NOTIFIER_DROPPED_EVENT MATCH_DROPPED_EVENT MATCH_DROPPED_EVENT_OR_DEFAULT),
        Reason::IncompatibleNotifierDeadEvent =>
            setting!(part, NOTIFIER_DEAD_EVENT MATCH_DEAD_EVENT MATCH_DEAD_EVENT_OR_DEFAULT),
        Reason::DoesNotSupportRequestedAmountOfNotifiers =>
            setting!(part, MAX_NOTIFIERS ASK_FOR_AS_MANY ASK_FOR_AS_MANY_OR_DEFAULT),
        Reason::DoesNotSupportRequestedAmountOfListeners =>
            setting!(part, MAX_LISTENERS ASK_FOR_AS_MANY ASK_FOR_AS_MANY_OR_DEFAULT),
        Reason::DoesNotSupportRequestedMaxEventId =>
            setting!(part, EVENT_ID_MAX_VALUE ASK_FOR_AS_MUCH ASK_FOR_AS_MUCH_OR_DEFAULT),
        Reason::DoesNotSupportRequestedMinBufferSize =>
            setting!(part, SUBSCRIBER_MAX_BUFFER_SIZE ASK_FOR_AS_MUCH ASK_FOR_AS_MUCH_OR_DEFAULT),
        Reason::DoesNotSupportRequestedMinHistorySize =>
            setting!(part, HISTORY_SIZE ASK_FOR_AS_MUCH ASK_FOR_AS_MUCH_OR_DEFAULT),
        Reason::DoesNotSupportRequestedMinSubscriberBorrowedSamples =>
            setting!(part, SUBSCRIBER_MAX_BORROWED_SAMPLES ASK_FOR_AS_MUCH ASK_FOR_AS_MUCH_OR_DEFAULT),
        Reason::DoesNotSupportRequestedAmountOfPublishers =>
            setting!(part, MAX_PUBLISHERS ASK_FOR_AS_MANY ASK_FOR_AS_MANY_OR_DEFAULT),
        Reason::DoesNotSupportRequestedAmountOfSubscribers =>
            setting!(part, MAX_SUBSCRIBERS ASK_FOR_AS_MANY ASK_FOR_AS_MANY_OR_DEFAULT),
        Reason::IncompatibleOverflowBehavior =>
            setting!(part, ENABLE_SAFE_OVERFLOW MATCH MATCH_OR_DEFAULT),
        Reason::DoesNotSupportRequestedAmountOfClientRequestLoans =>
            setting!(part, MAX_LOANED_REQUESTS ASK_FOR_AS_MUCH ASK_FOR_AS_MUCH_OR_DEFAULT),
        Reason::DoesNotSupportRequestedAmountOfActiveRequestsPerClient =>
            setting!(part, MAX_ACTIVE_REQUESTS_PER_CLIENT ASK_FOR_AS_MUCH ASK_FOR_AS_MUCH_OR_DEFAULT),
        Reason::DoesNotSupportRequestedResponseBufferSize =>
            setting!(part, MAX_RESPONSE_BUFFER_SIZE ASK_FOR_AS_MUCH ASK_FOR_AS_MUCH_OR_DEFAULT),
        Reason::DoesNotSupportRequestedAmountOfServers =>
            setting!(part, MAX_SERVERS ASK_FOR_AS_MANY ASK_FOR_AS_MANY_OR_DEFAULT),
        Reason::DoesNotSupportRequestedAmountOfClients =>
            setting!(part, MAX_CLIENTS ASK_FOR_AS_MANY ASK_FOR_AS_MANY_OR_DEFAULT),
        Reason::DoesNotSupportRequestedAmountOfBorrowedResponsesPerPendingResponse =>
            setting!(part, MAX_BORROWED_RESPONSES_PER_PENDING_RESPONSE ASK_FOR_AS_MUCH ASK_FOR_AS_MUCH_OR_DEFAULT),
        Reason::IncompatibleOverflowBehaviorForRequests =>
            setting!(part, ENABLE_SAFE_OVERFLOW_FOR_REQUESTS MATCH MATCH_OR_DEFAULT),
        Reason::IncompatibleOverflowBehaviorForResponses =>
            setting!(part, ENABLE_SAFE_OVERFLOW_FOR_RESPONSES MATCH MATCH_OR_DEFAULT),
        Reason::IncompatibleBehaviorForFireAndForgetRequests =>
            setting!(part, ENABLE_FIRE_AND_FORGET_REQUESTS MATCH MATCH_OR_DEFAULT),
        Reason::DoesNotExist => match part {
            Part::Open => row!(NO_SERVICE CREATE_IT),
            _ => row!(ROUND_NO_SERVICE NOTHING_AS_IN_FLUX),
        },
        Reason::ExceedsMaxNumberOfNodes => match part {
            Part::Open => row!(FULL WAIT_FOR_ROOM),
            _ => row!(ROUND_FULL WAIT_FOR_ROOM),
        },
        Reason::IsMarkedForDestruction => match part {
            Part::Open => row!(MARKED WAIT_AND_CREATE),
            _ => row!(ROUND_MARKED NOTHING_UNLESS_LEFT),
        },
        Reason::IsBeingCreatedByAnotherInstance => match part {
            Part::Create => row!(OTHERS_LOCK OPEN_LATER),
            _ => row!(ROUND_OTHERS_LOCK NOTHING_AS_LOCKED),
        },
        Reason::IncompatibleTypes => match part {
            Part::Open => row!(TYPES MATCH_TYPES),
            _ => row!(ROUND_TYPES MATCH_TYPES),
        },
        Reason::SubscriberBufferMustBeLargerThanHistorySize => match part {
            Part::Create => row!(HISTORY MAKE_ROOM_FOR_HISTORY),
            _ => row!(ROUND_HISTORY MAKE_ROOM_OR_OPEN),
        },
        Reason::IncompatibleRequestType => match part {
            Part::Open => row!(REQUEST_TYPE MATCH_REQUEST),
            _ => row!(ROUND_REQUEST_TYPE MATCH_REQUEST),
        },
        Reason::IncompatibleResponseType => match part {
            Part::Open => row!(RESPONSE_TYPE MATCH_RESPONSE),
            _ => row!(ROUND_RESPONSE_TYPE MATCH_RESPONSE),
        },
        Reason::SystemInFlux => row!(SIX_ROUNDS NAME_THE_CAUSE),
        Reason::InsufficientPermissions => unreadable(part),
        Reason::ServiceInCorruptedState => corrupted(part),
        Reason::IncompatibleMessagingPattern => other_pattern(part, pattern),
        Reason::IncompatibleAttributes => attributes(part, pattern),
        Reason::InternalFailure => failure(part, pattern),
        Reason::HangsInCreation => locked(part),
        Reason::DoesNotSupportRequestedAmountOfNodes => max_nodes(part, pattern),
        Reason::OutOfMemory => no_memory(part, pattern),
        Reason::AlreadyExists => exists(part, pattern),
    }
}

/// Returns the row of a setting that isn't met: an open or create has another way out than an open.
fn of_setting(
    part: Part,
    comes_when: &'static str,
    after_open: &'static str,
    after_either: &'static str,
) -> RefusalRow
    ensures { texts_of result ≡ required part (record { now = comes_when.now }) (record { now = after_open.now })
        (record { now = after_either.now }) }
{
    match part {
        Part::Open => RefusalRow {
            comes_when,
            what_can_be_done: after_open,
        },
        _ => RefusalRow {
            comes_when,
            what_can_be_done: after_either,
        },
    }
}

/// Returns the row of `InsufficientPermissions`.
fn unreadable(part: Part) -> RefusalRow
    ensures { (pattern : AnyPattern) → texts_of result ≡ row_of reason.InsufficientPermissions part pattern }
{
    match part {
        Part::Open => row!(UNREADABLE GRANT_READING),
        Part::RoundOpen => row!(ROUND_UNREADABLE GRANT_READING),
        Part::Create => row!(CREATE_FORBIDDEN GRANT_WRITING),
        _ => row!(ROUND_CREATE_FORBIDDEN GRANT_WRITING),
    }
}

/// Returns the row of `ServiceInCorruptedState`.
fn corrupted(part: Part) -> RefusalRow
    ensures { (pattern : AnyPattern) → texts_of result ≡ row_of reason.ServiceInCorruptedState part pattern }
{
    match part {
        Part::Open => row!(CORRUPTED RETRY_OR_REMOVE),
        Part::RoundOpen => row!(ROUND_CORRUPTED RETRY_OR_CLEAR),
        Part::Create => row!(CREATE_CORRUPTED RETRY_OR_CLEAR),
        _ => row!(ROUND_CREATE_CORRUPTED NOTHING_AS_NEXT_LOOK_TELLS),
    }
}

/// Returns the row of `IncompatibleMessagingPattern`.
fn other_pattern(part: Part, pattern: Pattern) -> RefusalRow
    ensures { texts_of result ≡ row_of reason.IncompatibleMessagingPattern part pattern }
{
    match (part, pattern) {
        (Part::Open, Pattern::Event) => row!(OTHER_PATTERN TAKE_ANOTHER_NAME),
        (Part::Open, _) => row!(OTHER_PATTERN_BEFORE_TYPES TAKE_ANOTHER_NAME),
        (_, Pattern::Event) => row!(ROUND_OTHER_PATTERN TAKE_ANOTHER_NAME),
        (_, _) => row!(ROUND_OTHER_PATTERN_BEFORE_TYPES TAKE_ANOTHER_NAME),
    }
}

/// Returns the row of `IncompatibleAttributes`.
fn attributes(part: Part, pattern: Pattern) -> RefusalRow
    ensures { texts_of result ≡ row_of reason.IncompatibleAttributes part pattern }
{
    match (part, pattern) {
        (Part::Open, Pattern::Event) => row!(ATTRIBUTES REQUIRE_LESS),
        (Part::Open, _) => row!(ATTRIBUTES_AFTER_TYPES REQUIRE_LESS),
        (_, Pattern::Event) => row!(ROUND_ATTRIBUTES DEFINE_KEYS),
        (_, _) => row!(ROUND_ATTRIBUTES_AFTER_TYPES DEFINE_KEYS),
    }
}

/// Returns the row of `InternalFailure`.
fn failure(part: Part, pattern: Pattern) -> RefusalRow
    ensures { texts_of result ≡ row_of reason.InternalFailure part pattern }
{
    match (part, pattern) {
        (Part::Open, _) => row!(NO_TAG_OR_TICKET RETRY_OR_NEW_TABLE),
        (Part::RoundOpen, _) => row!(NO_TAG_OR_TICKET RETRY_OR_NEW_TABLE),
        (Part::Create, Pattern::Event) => row!(CREATE_FAILS_OR_NO_TIME GIVE_TIME),
        (Part::Create, _) => row!(CREATE_FAILS NEW_TABLE_OR_RETRY),
        (_, Pattern::Event) => row!(ROUND_CREATE_FAILS_OR_NO_TIME GIVE_TIME),
        (_, _) => row!(ROUND_CREATE_FAILS NEW_TABLE_OR_RETRY),
    }
}

/// Returns the row of `HangsInCreation`.
fn locked(part: Part) -> RefusalRow
    ensures { (pattern : AnyPattern) → texts_of result ≡ row_of reason.HangsInCreation part pattern }
{
    match part {
        Part::Open => row!(LOCKED RETRY_AFTER_LOCK),
        Part::RoundOpen => row!(ROUND_LOCKED RETRY_AFTER_LOCK),
        Part::Create => row!(CREATE_FINDS_LOCK OPEN_AFTER_LOCK),
        _ => row!(ROUND_CREATE_FINDS_LOCK RETRY_AFTER_LOCK),
    }
}

/// Returns the row of `DoesNotSupportRequestedAmountOfNodes`.
fn max_nodes(part: Part, pattern: Pattern) -> RefusalRow
    ensures { texts_of result ≡ row_of reason.DoesNotSupportRequestedAmountOfNodes part pattern }
{
    match (part, pattern) {
        (Part::Open, Pattern::Event) => row!(EVENT_MAX_NODES ASK_FOR_AS_MANY),
        (Part::Open, Pattern::PublishSubscribe) =>
            row!(PUBLISH_SUBSCRIBE_MAX_NODES ASK_FOR_AS_MANY),
        (Part::Open, _) => row!(REQUEST_RESPONSE_MAX_NODES ASK_FOR_AS_MANY),
        (_, Pattern::Event) => row!(EVENT_MAX_NODES ASK_FOR_AS_MANY_OR_DEFAULT),
        (_, Pattern::PublishSubscribe) =>
            row!(PUBLISH_SUBSCRIBE_MAX_NODES ASK_FOR_AS_MANY_OR_DEFAULT),
        (_, _) => row!(REQUEST_RESPONSE_MAX_NODES ASK_FOR_AS_MANY_OR_DEFAULT),
    }
}

/// Returns the row of `OutOfMemory`.
fn no_memory(part: Part, pattern: Pattern) -> RefusalRow
    ensures { texts_of result ≡ row_of reason.OutOfMemory part pattern }
{
    match (part, pattern) {
        (Part::Open, Pattern::Event) => row!(NO_MEMORY FREE_MEMORY),
        (Part::Open, _) => row!(NO_MEMORY_OR_TYPES FREE_MEMORY),
        (Part::RoundOpen, Pattern::Event) => row!(ROUND_NO_MEMORY FREE_MEMORY),
        (Part::RoundOpen, _) => row!(ROUND_NO_MEMORY_OR_TYPES FREE_MEMORY),
        (Part::Create, Pattern::Event) => row!(CREATE_NO_MEMORY FREE_MEMORY_FOR_CREATE),
        (Part::Create, Pattern::PublishSubscribe) =>
            row!(CREATE_NO_MEMORY_BEFORE_HISTORY FREE_MEMORY_FOR_CREATE),
        (Part::Create, _) => row!(CREATE_NO_MEMORY_OR_TYPES FREE_MEMORY_FOR_CREATE),
        (_, Pattern::Event) => row!(ROUND_CREATE_NO_MEMORY FREE_MEMORY_FOR_CREATE),
        (_, _) => row!(ROUND_CREATE_NO_MEMORY_BUT_TYPES FREE_MEMORY_FOR_CREATE),
    }
}

/// Returns the row of `AlreadyExists`.
fn exists(part: Part, pattern: Pattern) -> RefusalRow
    ensures { texts_of result ≡ row_of reason.AlreadyExists part pattern }
{
    match (part, pattern) {
        (Part::Create, Pattern::Event) => row!(EXISTS OPEN_IT),
        (Part::Create, Pattern::PublishSubscribe) => row!(EXISTS_OF_ANY_TYPES OPEN_OR_ANOTHER_NAME),
        (Part::Create, _) => row!(EXISTS_OF_ANY_REQUEST_OR_RESPONSE OPEN_OR_ANOTHER_NAME),
        (_, _) => row!(ROUND_EXISTS NOTHING_AS_ROUND_OPENS),
    }
}

/// Returns the part of the call that refuses.
fn part_of(refusal: Refusal) -> Part
    ensures { result ≡ part_of refusal }
{
    match refusal {
        Refusal::EventOpen(_)
        | Refusal::PublishSubscribeOpen(_)
        | Refusal::RequestResponseOpen(_) => Part::Open,
        Refusal::EventCreate(_)
        | Refusal::PublishSubscribeCreate(_)
        | Refusal::RequestResponseCreate(_) => Part::Create,
        Refusal::EventOpenOrCreate(error) => match error {
            EventOpenOrCreateError::EventOpenError(_) => Part::RoundOpen,
            EventOpenOrCreateError::EventCreateError(_) => Part::RoundCreate,
            EventOpenOrCreateError::SystemInFlux => Part::Rounds,
        },
        Refusal::PublishSubscribeOpenOrCreate(error) => match error {
            PublishSubscribeOpenOrCreateError::PublishSubscribeOpenError(_) => Part::RoundOpen,
            PublishSubscribeOpenOrCreateError::PublishSubscribeCreateError(_) => Part::RoundCreate,
            PublishSubscribeOpenOrCreateError::SystemInFlux => Part::Rounds,
        },
        Refusal::RequestResponseOpenOrCreate(error) => match error {
            RequestResponseOpenOrCreateError::RequestResponseOpenError(_) => Part::RoundOpen,
            RequestResponseOpenOrCreateError::RequestResponseCreateError(_) => Part::RoundCreate,
            RequestResponseOpenOrCreateError::SystemInFlux => Part::Rounds,
        },
    }
}

/// Returns the pattern of the call.
fn pattern_of(refusal: Refusal) -> Pattern
    ensures { result ≡ pattern_of refusal }
{
    match refusal {
        Refusal::EventOpen(_) | Refusal::EventCreate(_) | Refusal::EventOpenOrCreate(_) =>
            Pattern::Event,
        Refusal::PublishSubscribeOpen(_)
        | Refusal::PublishSubscribeCreate(_)
        | Refusal::PublishSubscribeOpenOrCreate(_) => Pattern::PublishSubscribe,
        Refusal::RequestResponseOpen(_)
        | Refusal::RequestResponseCreate(_)
        | Refusal::RequestResponseOpenOrCreate(_) => Pattern::RequestResponse,
    }
}

/// Writes when a refusal comes and what can be done, a line each. `AllocError` if the text finds no memory.
pub fn describe_row(refusal: Refusal, text: &mut String) -> Result<(), AllocError>
    ensures { OnOk result (string_bytes text.new ≡ string_bytes text.old ++ row_lines (refusal_row refusal)) }
{
    let row = RefusalRow::of(refusal);
    let comes_when = row.comes_when;
    let what_can_be_done = row.what_can_be_done;
    writeln!(
        text,
        "  comes when: {comes_when}\n  what can be done: {what_can_be_done}"
    )
}
