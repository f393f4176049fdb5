//! The settings that builders start from.

ghost use Rattle.iceoryx2_description.specs.Defaults.{default_config, default_event, default_publish_subscribe};
ghost use Rattle.iceoryx2_description.specs.Defaults.{default_request_response};

use crate::event::EventId;
use crate::time::Duration;

/// The settings that an event builder starts from.
#[derive(Clone, Copy, Debug, PartialEq, Eq)]
pub struct Event {
    /// The number of notifiers that a service has room for.
    pub max_notifiers: u64,
    /// The number of listeners that a service has room for.
    pub max_listeners: u64,
    /// The greatest number that an event may have.
    pub event_id_max_value: u64,
    /// The number of nodes that a service has room for.
    pub max_nodes: u64,
    /// The event that is sent when a notifier is created, if there is one.
    pub notifier_created_event: Option<EventId>,
    /// The event that is sent when a notifier goes, if there is one.
    pub notifier_dropped_event: Option<EventId>,
    /// The event that is sent for a notifier whose process died, if there is one.
    pub notifier_dead_event: Option<EventId>,
    /// The time within which a notifier must notify again, if there is one.
    pub deadline: Option<Duration>,
}

impl Default for Event {
    ghost use Rattle.std.specs.Prelude.{◌≡◌};

    ghost is_default = { λ settings. settings ≡ default_event };

    /// Returns 16 notifiers, 16 listeners, events up to 255, 36 nodes, and nothing else.
    fn default() -> Event {
        Event {
            max_notifiers: 16,
            max_listeners: 16,
            event_id_max_value: 255,
            max_nodes: 36,
            notifier_created_event: None,
            notifier_dropped_event: None,
            notifier_dead_event: None,
            deadline: None,
        }
    }
}

/// The settings that a builder of publish-subscribe starts from.
#[derive(Clone, Copy, Debug, PartialEq, Eq)]
pub struct PublishSubscribe {
    /// The number of publishers that a service has room for.
    pub max_publishers: u64,
    /// The number of subscribers that a service has room for.
    pub max_subscribers: u64,
    /// The number of samples that a subscriber's buffer has room for.
    pub subscriber_max_buffer_size: u64,
    /// The number of the last samples that a later subscriber gets.
    pub history_size: u64,
    /// The number of samples that a subscriber may borrow at one time.
    pub subscriber_max_borrowed_samples: u64,
    /// True if a full buffer's oldest sample gives way to a new one.
    pub enable_safe_overflow: bool,
    /// The number of nodes that a service has room for.
    pub max_nodes: u64,
}

impl Default for PublishSubscribe {
    ghost use Rattle.std.specs.Prelude.{◌≡◌};

    ghost is_default = { λ settings. settings ≡ default_publish_subscribe };

    /// Returns 2 publishers, 8 subscribers, a buffer for 2 samples, no history, 2 borrowed samples,
    /// safe overflow, and 20 nodes.
    fn default() -> PublishSubscribe {
        PublishSubscribe {
            max_publishers: 2,
            max_subscribers: 8,
            subscriber_max_buffer_size: 2,
            history_size: 0,
            subscriber_max_borrowed_samples: 2,
            enable_safe_overflow: true,
            max_nodes: 20,
        }
    }
}

/// The settings that a builder of request-response starts from.
#[derive(Clone, Copy, Debug, PartialEq, Eq)]
pub struct RequestResponse {
    /// True if a full buffer's oldest request gives way to a new one.
    pub enable_safe_overflow_for_requests: bool,
    /// True if a full buffer's oldest response gives way to a new one.
    pub enable_safe_overflow_for_responses: bool,
    /// True if a request may be sent whose responses nobody waits for.
    pub enable_fire_and_forget_requests: bool,
    /// The number of requests that a client may have under way at one time.
    pub max_active_requests_per_client: u64,
    /// The number of requests that a client may have on loan at one time.
    pub max_loaned_requests: u64,
    /// The number of responses that may be borrowed at one time from one pending response.
    pub max_borrowed_responses_per_pending_response: u64,
    /// The number of responses that the buffer of one request has room for.
    pub max_response_buffer_size: u64,
    /// The number of servers that a service has room for.
    pub max_servers: u64,
    /// The number of clients that a service has room for.
    pub max_clients: u64,
    /// The number of nodes that a service has room for.
    pub max_nodes: u64,
}

impl Default for RequestResponse {
    ghost use Rattle.std.specs.Prelude.{◌≡◌};

    ghost is_default = { λ settings. settings ≡ default_request_response };

    /// Returns safe overflow of requests and of responses, fire and forget, 4 requests under way and 2
    /// on loan, 2 borrowed responses, a buffer for 2 responses, 2 servers, 8 clients, and 20 nodes.
    fn default() -> RequestResponse {
        RequestResponse {
            enable_safe_overflow_for_requests: true,
            enable_safe_overflow_for_responses: true,
            enable_fire_and_forget_requests: true,
            max_active_requests_per_client: 4,
            max_loaned_requests: 2,
            max_borrowed_responses_per_pending_response: 2,
            max_response_buffer_size: 2,
            max_servers: 2,
            max_clients: 8,
            max_nodes: 20,
        }
    }
}

/// The settings that the builders of a node start from.
#[derive(Clone, Copy, Debug, PartialEq, Eq)]
pub struct Config {
    /// The settings that event builders start from.
    pub event: Event,
    /// The settings that builders of publish-subscribe start from.
    pub publish_subscribe: PublishSubscribe,
    /// The settings that builders of request-response start from.
    pub request_response: RequestResponse,
}

impl Default for Config {
    ghost use Rattle.std.specs.Prelude.{◌≡◌};

    ghost is_default = { λ config. config ≡ default_config };

    /// Returns the defaults of each builder.
    fn default() -> Config {
        Config {
            event: Event::default(),
            publish_subscribe: PublishSubscribe::default(),
            request_response: RequestResponse::default(),
        }
    }
}
