//! Names, hashes, settings and descriptions, the values that they are made of, and their limits.

pub use iceoryx2_description::config::{Config, Event, PublishSubscribe, RequestResponse};
pub use iceoryx2_description::description::{
    HASH_LENGTH, MAX_NAME_LENGTH, MIN_NAME_LENGTH, MessagingPattern, ServiceHash, ServiceName,
    ServiceNameError, StaticConfig, limits_of_names,
};
pub use iceoryx2_description::event::{Deadline, EventId};
pub use iceoryx2_description::time::{
    ClockFault, Duration, NANOSECONDS_PER_SECOND, Time, equality_of_times,
    second_has_a_billion_nanoseconds,
};
pub use iceoryx2_description::{event, publish_subscribe, request_response};
