//! The builder of services of publish-subscribe, its errors, what a look may find wrong, and its laws.

pub use iceoryx2_errors::error::publish_subscribe::{
    PublishSubscribeCreateError, PublishSubscribeOpenError, PublishSubscribeOpenOrCreateError,
    ServiceAvailabilityState,
};
pub use iceoryx2_publish_subscribe_builder::publish_subscribe::{
    Builder, PREFIX, PublishSubscribeSetter, demand, ends_at_once, opens_what_it_creates,
    prefix_is_p, setting,
};
