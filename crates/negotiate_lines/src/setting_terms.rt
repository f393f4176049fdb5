//! What each pattern calls its settings, and what they take: a table of rows for each pattern.

ghost use Rattle.std.specs.Prelude.{refl};
ghost use Rattle.negotiate_lines.specs.SettingTerms.{event_vocabulary, publish_subscribe_vocabulary};
ghost use Rattle.negotiate_lines.specs.SettingTerms.{request_response_vocabulary};

use crate::leaf::Form;
use crate::term::{TermError, number};
use crate::type_term::{alignment, type_detail};
use crate::value::{duration_or_none, event_or_none, truth_value};
use crate::vocabulary::{HasVocabulary, Kind};
use iceoryx2_builder::command::{EventSetter, PublishSubscribeSetter, RequestResponseSetter};
use std::alloc::Global;

/// The names of the settings, with the kind of value that each takes.
macro_rules! kinds {
    (; $($name:literal $kind:ident $setter:ident;)*) => { [$(($name, Kind::$kind),)*] };
}

/// The setter of the setting of a name, with the value in a line of this form.
macro_rules! setter {
    ($setters:ident $alloc:ident $form:ident $name:ident $value:ident; $($row:literal $kind:ident $setter:ident;)*) => {
        match $name {
            $($row => Ok($setters::$setter(value!($kind $alloc $form $value)?)),)*
            _ => Err(TermError::Malformed),
        }
    };
}

macro_rules! value {
    (Number $alloc:ident $form:ident $value:ident) => { number($value) };
    (Truth $alloc:ident $form:ident $value:ident) => { truth_value($value) };
    (Event $alloc:ident $form:ident $value:ident) => { event_or_none($value) };
    (Length $alloc:ident $form:ident $value:ident) => { duration_or_none($value) };
    (Alignment $alloc:ident $form:ident $value:ident) => { alignment($value) };
    (Type $alloc:ident $form:ident $value:ident) => { type_detail($alloc, $form, $value) };
}

/// The rows of events: the name of a setting, the kind of its value, and its setter.
macro_rules! event_rows {
    ($make:ident $($given:ident)*) => {
        $make! {
            $($given)*;
            "max_notifiers" Number MaxNotifiers;
            "max_listeners" Number MaxListeners;
            "event_id_max_value" Number EventIdMaxValue;
            "max_nodes" Number MaxNodes;
            "notifier_created_event" Event NotifierCreatedEvent;
            "notifier_dropped_event" Event NotifierDroppedEvent;
            "notifier_dead_event" Event NotifierDeadEvent;
            "deadline" Length Deadline;
        }
    };
}

const EVENT_SETTINGS: [(&str, Kind); 8] = event_rows!(kinds);

/// The terms of lines of events.
pub(crate) struct EventTerms;

impl HasVocabulary for EventTerms {
    type Setter = EventSetter;

    ghost vocabulary = { event_vocabulary };

    fn pattern() -> &'static str {
        "event"
    }

    fn settings() -> &'static [(&'static str, Kind)] {
        &EVENT_SETTINGS
    }

    fn has_clock() -> bool {
        true
    }

    fn setter(
        alloc: Global,
        form: Form,
        name: &str,
        value: &str,
    ) -> Result<EventSetter, TermError> {
        event_rows!(setter EventSetter alloc form name value)
    }

    ghost is_unambiguous = { refl };
}

/// The rows of publish-subscribe: the name of a setting, the kind of its value, and its setter.
macro_rules! publish_subscribe_rows {
    ($make:ident $($given:ident)*) => {
        $make! {
            $($given)*;
            "max_publishers" Number MaxPublishers;
            "max_subscribers" Number MaxSubscribers;
            "subscriber_max_buffer_size" Number SubscriberMaxBufferSize;
            "history_size" Number HistorySize;
            "subscriber_max_borrowed_samples" Number SubscriberMaxBorrowedSamples;
            "enable_safe_overflow" Truth EnableSafeOverflow;
            "max_nodes" Number MaxNodes;
            "payload" Type PayloadType;
            "user_header" Type UserHeaderType;
            "payload_alignment" Alignment PayloadAlignment;
        }
    };
}

const PUBLISH_SUBSCRIBE_SETTINGS: [(&str, Kind); 10] = publish_subscribe_rows!(kinds);

/// The terms of lines of publish-subscribe.
pub(crate) struct PublishSubscribeTerms;

impl HasVocabulary for PublishSubscribeTerms {
    type Setter = PublishSubscribeSetter;

    ghost vocabulary = { publish_subscribe_vocabulary };

    fn pattern() -> &'static str {
        "pubsub"
    }

    fn settings() -> &'static [(&'static str, Kind)] {
        &PUBLISH_SUBSCRIBE_SETTINGS
    }

    fn has_clock() -> bool {
        false
    }

    fn setter(
        alloc: Global,
        form: Form,
        name: &str,
        value: &str,
    ) -> Result<PublishSubscribeSetter, TermError> {
        publish_subscribe_rows!(setter PublishSubscribeSetter alloc form name value)
    }

    ghost is_unambiguous = { refl };
}

/// The rows of request-response: the name of a setting, the kind of its value, and its setter.
macro_rules! request_response_rows {
    ($make:ident $($given:ident)*) => {
        $make! {
            $($given)*;
            "enable_safe_overflow_for_requests" Truth EnableSafeOverflowForRequests;
            "enable_safe_overflow_for_responses" Truth EnableSafeOverflowForResponses;
            "enable_fire_and_forget_requests" Truth EnableFireAndForgetRequests;
            "max_active_requests_per_client" Number MaxActiveRequestsPerClient;
            "max_loaned_requests" Number MaxLoanedRequests;
            "max_borrowed_responses_per_pending_response" Number MaxBorrowedResponsesPerPendingResponse;
            "max_response_buffer_size" Number MaxResponseBufferSize;
            "max_servers" Number MaxServers;
            "max_clients" Number MaxClients;
            "max_nodes" Number MaxNodes;
            "request_payload" Type RequestPayloadType;
            "request_header" Type RequestHeaderType;
            "request_payload_alignment" Alignment RequestPayloadAlignment;
            "response_payload" Type ResponsePayloadType;
            "response_header" Type ResponseHeaderType;
            "response_payload_alignment" Alignment ResponsePayloadAlignment;
        }
    };
}

const REQUEST_RESPONSE_SETTINGS: [(&str, Kind); 16] = request_response_rows!(kinds);

/// The terms of lines of request-response.
pub(crate) struct RequestResponseTerms;

impl HasVocabulary for RequestResponseTerms {
    type Setter = RequestResponseSetter;

    ghost vocabulary = { request_response_vocabulary };

    fn pattern() -> &'static str {
        "rr"
    }

    fn settings() -> &'static [(&'static str, Kind)] {
        &REQUEST_RESPONSE_SETTINGS
    }

    fn has_clock() -> bool {
        false
    }

    fn setter(
        alloc: Global,
        form: Form,
        name: &str,
        value: &str,
    ) -> Result<RequestResponseSetter, TermError> {
        request_response_rows!(setter RequestResponseSetter alloc form name value)
    }

    ghost is_unambiguous = { refl };
}
