//! The setters of the builder of publish-subscribe, by name.

use iceoryx2_types::types::{Alignment, TypeDetail};

/// One setter of the builder of publish-subscribe, with its value.
#[derive(Debug, Drop, PartialEq, Eq)]
pub enum PublishSubscribeSetter {
    /// The number of publishers that the service has room for.
    MaxPublishers(u64),
    /// The number of subscribers that the service has room for.
    MaxSubscribers(u64),
    /// The number of samples that a subscriber's buffer has room for.
    SubscriberMaxBufferSize(u64),
    /// The number of the last samples that a subscriber gets when it joins later.
    HistorySize(u64),
    /// The number of samples that a subscriber may borrow at one time.
    SubscriberMaxBorrowedSamples(u64),
    /// True if the oldest sample of a full buffer gives way to a new one.
    EnableSafeOverflow(bool),
    /// The number of nodes that the service has room for.
    MaxNodes(u64),
    /// The least alignment of the payload, in bytes. It is no setting of the service: the message's
    /// types tell it.
    PayloadAlignment(Alignment),
    /// The type that is used instead of the payload's own.
    PayloadType(TypeDetail),
    /// The type that is used instead of the user header's own.
    UserHeaderType(TypeDetail),
}
