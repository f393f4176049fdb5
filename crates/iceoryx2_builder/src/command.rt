//! The commands that a session is given, and its replies.

ghost use Rattle.std.specs.Prelude.{◌≡◌};

use iceoryx2_attribute::attribute::AttributeVerifier;
use iceoryx2_description::description::ServiceName;
use iceoryx2_description::time::{ClockFault, Time};
pub use iceoryx2_errors::refusal::Refusal;
pub use iceoryx2_event_builder::event::EventSetter;
pub use iceoryx2_publish_subscribe_builder::publish_subscribe::PublishSubscribeSetter;
pub use iceoryx2_request_response_builder::request_response::RequestResponseSetter;
use iceoryx2_world::listing::Entry;

/// The number of slots of a session.
pub const SLOTS: usize = 64;

/// There are 64 slots.
pub fn slots_are_64()
    ensures { SLOTS ≡ 64 }
{}

/// The way in which a call asks for a service.
#[derive(Clone, Copy, Debug, PartialEq, Eq)]
pub enum How {
    Create,
    Open,
    /// Opens the service, or creates it if there is none.
    OpenOrCreate,
}

/// The setters of one pattern's builder, in the order in which they are called.
#[derive(Debug, Drop)]
pub enum Settings {
    Event(Vec<EventSetter>),
    /// A payload or a user header stays a marker if no setter names its type.
    PublishSubscribe(Vec<PublishSubscribeSetter>),
    /// The same holds for a request and for a response.
    RequestResponse(Vec<RequestResponseSetter>),
}

/// A builder call of a node. Its factory goes into a slot.
#[derive(Debug, Drop)]
pub struct Call {
    pub how: How,
    pub node: u64,
    pub slot: usize,
    pub name: ServiceName,
    pub settings: Settings,
    /// The attributes that an open requires. A create, also that of an open or create, defines the
    /// required pairs and ignores the keys.
    pub attributes: AttributeVerifier,
    /// The time. A service with a deadline is created at this time.
    pub now: Result<Time, ClockFault>,
}

/// A command for a session.
#[derive(Debug, Drop)]
pub enum Command {
    Call(Call),
    /// Closes the factory of a slot.
    Close { slot: usize },
    /// Lists the table's services.
    List,
}

/// A session's reply to a command.
#[derive(Debug, Drop, PartialEq, Eq)]
pub enum Reply {
    /// The call was granted. The slot holds the factory of the service of this number.
    Opened { slot: usize, number: u64 },
    /// The builder call was refused. The slot is as free as before.
    Refused(Refusal),
    /// The slot's factory is closed. The slot is free.
    Closed { slot: usize },
    /// The storage didn't release the slot's factory. The slot holds it as before.
    NotClosed { slot: usize },
    /// Another factory is in the slot. Nothing was called.
    SlotInUse,
    /// There is no factory in the slot.
    SlotEmpty,
    /// There is no such slot: the slots are 0 to 63.
    NoSuchSlot,
    /// The services with a row or a segment, in the order of the hashes' bytes.
    Listing(Vec<Entry>),
    /// There was no memory for the listing.
    OutOfMemory,
}
