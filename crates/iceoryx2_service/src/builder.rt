//! Nodes and builders, their demands of the types of a message, the faults that a look may find,
//! and the markers that a named type may replace.

pub mod event;
pub mod publish_subscribe;
pub mod request_response;

pub use iceoryx2_builder::builder::{
    Builder, Node, lawful_calls, laws, laws_of_adjusting, laws_of_calls, laws_of_looks,
    laws_of_retries,
};
pub use iceoryx2_errors::error::{ServiceState, equality_of_errors, texts_of_errors_differ};
pub use iceoryx2_rounds::base::BuilderWithServiceType;
pub use iceoryx2_rounds::requested::RequestedTypes;
pub use iceoryx2_types::types::{CustomHeaderMarker, CustomKeyMarker, CustomPayloadMarker};
