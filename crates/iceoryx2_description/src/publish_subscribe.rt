//! The settings that nodes agree on for a service of publish-subscribe.

ghost use Rattle.iceoryx2_description.specs.Description.{IsPublishSubscribe};

use crate::messages::message_fits;
use iceoryx2_types::types::MessageTypeDetails;
use std::alloc::AllocError;

/// The settings of a service of publish-subscribe, in the order in which they are verified and
/// written, and the types of its messages.
#[derive(Debug, Drop, PartialEq, Eq)]
pub struct StaticConfig {
    /// The number of publishers that the service has room for.
    pub max_publishers: u64,
    /// The number of subscribers that the service has room for.
    pub max_subscribers: u64,
    /// The number of samples that a subscriber's buffer has room for.
    pub subscriber_max_buffer_size: u64,
    /// The number of the last samples that a later subscriber gets.
    pub history_size: u64,
    /// The number of samples that a subscriber may borrow at one time.
    pub subscriber_max_borrowed_samples: u64,
    /// True if a full buffer's oldest sample gives way to a new one.
    pub enable_safe_overflow: bool,
    /// The number of nodes that the service has room for.
    pub max_nodes: u64,
    /// The types of a message.
    pub message_type_details: MessageTypeDetails,
}

impl StaticConfig {
    /// The numbers are within the limits of their types.
    pub(crate) fn fits(&self)
        ensures { IsPublishSubscribe self.now }
    {
        let _publishers = self.max_publishers;
        let _subscribers = self.max_subscribers;
        let _buffer_size = self.subscriber_max_buffer_size;
        let _history_size = self.history_size;
        let _borrowed_samples = self.subscriber_max_borrowed_samples;
        let _nodes = self.max_nodes;
        message_fits(&self.message_type_details);
    }
}

impl Clone for StaticConfig {
    ghost use Rattle.std.specs.Prelude.{◌≡◌};

    ghost is_clone = { λ settings copy. copy ≡ settings };

    /// `AllocError` if there was no memory for the types' names.
    fn clone(&self) -> Result<StaticConfig, AllocError> {
        Ok(StaticConfig {
            max_publishers: self.max_publishers,
            max_subscribers: self.max_subscribers,
            subscriber_max_buffer_size: self.subscriber_max_buffer_size,
            history_size: self.history_size,
            subscriber_max_borrowed_samples: self.subscriber_max_borrowed_samples,
            enable_safe_overflow: self.enable_safe_overflow,
            max_nodes: self.max_nodes,
            message_type_details: self.message_type_details.clone()?,
        })
    }
}
