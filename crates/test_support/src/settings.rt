//! Settings as numbers and truth values, each in their order.

use iceoryx2_description::{event, publish_subscribe, request_response};

/// The numbers of the default settings of events.
pub const EVENTS: [u64; 4] = [16, 16, 255, 36];

/// Those of publish-subscribe.
pub const MESSAGES: [u64; 6] = [2, 8, 2, 0, 2, 20];

/// Those of request-response.
pub const REQUESTS: [u64; 7] = [4, 2, 2, 2, 2, 8, 20];

/// The numbers of settings of events.
pub fn numbers_of_events(settings: &event::StaticConfig) -> [u64; 4] {
    [
        settings.max_notifiers,
        settings.max_listeners,
        settings.event_id_max_value,
        settings.max_nodes,
    ]
}

/// Those of publish-subscribe.
pub fn numbers_of_messages(settings: &publish_subscribe::StaticConfig) -> [u64; 6] {
    [
        settings.max_publishers,
        settings.max_subscribers,
        settings.subscriber_max_buffer_size,
        settings.history_size,
        settings.subscriber_max_borrowed_samples,
        settings.max_nodes,
    ]
}

/// The truth values of settings of request-response.
pub fn flags_of_requests(settings: &request_response::StaticConfig) -> [bool; 3] {
    [
        settings.enable_safe_overflow_for_requests,
        settings.enable_safe_overflow_for_responses,
        settings.enable_fire_and_forget_requests,
    ]
}

/// Their numbers.
pub fn numbers_of_requests(settings: &request_response::StaticConfig) -> [u64; 7] {
    [
        settings.max_active_requests_per_client,
        settings.max_loaned_requests,
        settings.max_borrowed_responses_per_pending_response,
        settings.max_response_buffer_size,
        settings.max_servers,
        settings.max_clients,
        settings.max_nodes,
    ]
}
