//! The builder of services of events, its errors and its laws.

pub use iceoryx2_description::event::EventId;
pub use iceoryx2_errors::error::{EventCreateError, EventOpenError, EventOpenOrCreateError};
pub use iceoryx2_event_builder::event::{
    Builder, EventSetter, PREFIX, demand, ends_at_once, opens_what_it_creates, prefix_is_e, setting,
};
