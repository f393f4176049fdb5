//! Calls of builders of all patterns over any storage, in the same words. A call of the layer stands here
//! alone, in a function without a contract, so that a test sees answers and no contracts.

use iceoryx2_access::storage::Service;
use iceoryx2_attribute::attribute::{AttributeSpecifier, AttributeVerifier};
use iceoryx2_builder::builder::{Builder, event, publish_subscribe, request_response};
use iceoryx2_builder::command::{How, Refusal};
use iceoryx2_description::time::{ClockFault, Time};
use iceoryx2_rounds::port_factory::Registration;
use iceoryx2_types::types::{CustomHeaderMarker, CustomPayloadMarker, Slice, ZeroCopySend};

/// A builder of publish-subscribe with markers in place of types.
pub type MessageBuilder<S> = publish_subscribe::Builder<
    Slice<CustomPayloadMarker>,
    CustomHeaderMarker,
    S,
>;

/// One of request-response.
pub type RequestBuilder<S> = request_response::Builder<
    Slice<CustomPayloadMarker>,
    CustomHeaderMarker,
    Slice<CustomPayloadMarker>,
    CustomHeaderMarker,
    S,
>;

/// That builder of publish-subscribe for this builder's service.
pub fn messages<S: Service>(builder: Builder<S>) -> MessageBuilder<S> {
    builder
        .publish_subscribe::<Slice<CustomPayloadMarker>>()
        .user_header::<CustomHeaderMarker>()
}

/// That of request-response.
pub fn requests<S: Service>(builder: Builder<S>) -> RequestBuilder<S> {
    builder
        .request_response::<Slice<CustomPayloadMarker>, Slice<CustomPayloadMarker>>()
        .request_user_header::<CustomHeaderMarker>()
        .response_user_header::<CustomHeaderMarker>()
}

/// A call, with attributes or by the call that has none.
#[derive(Clone, Copy)]
pub enum Ask<'a> {
    Create(Option<&'a AttributeSpecifier>),
    Open(Option<&'a AttributeVerifier>),
    OpenOrCreate(Option<&'a AttributeVerifier>),
}

/// That call without attributes.
pub fn plainly(how: How) -> Ask<'static> {
    match how {
        How::Create => Ask::Create(None),
        How::Open => Ask::Open(None),
        How::OpenOrCreate => Ask::OpenOrCreate(None),
    }
}

/// What a call gives or is refused with.
pub type Called = Result<Registration, Refusal>;

/// What the clock says to a call.
pub type Now = Result<Time, ClockFault>;

/// What an answer gives, or the refusal that its error is.
macro_rules! registered {
    ($answer:expr, $refusal:ident) => {
        match $answer {
            Ok(factory) => Ok(factory.into_registration()),
            Err(error) => Err(Refusal::$refusal(error)),
        }
    };
}

/// The call of a builder over a storage, which is told the time if one stands behind the storage, and its
/// refusals.
macro_rules! called {
    ($ask:ident, $builder:tt ($storage:ident $(, $now:ident)?) => $create:ident, $open:ident, $either:ident) => {
        match $ask {
            Ask::Create(None) => registered!($builder.create($storage $(, $now)?), $create),
            Ask::Create(Some(specifier)) => {
                registered!($builder.create_with_attributes(specifier, $storage $(, $now)?), $create)
            }
            Ask::Open(None) => registered!($builder.open($storage), $open),
            Ask::Open(Some(verifier)) => {
                registered!($builder.open_with_attributes(verifier, $storage), $open)
            }
            Ask::OpenOrCreate(None) => {
                registered!($builder.open_or_create($storage $(, $now)?), $either)
            }
            Ask::OpenOrCreate(Some(verifier)) => registered!(
                $builder.open_or_create_with_attributes(verifier, $storage $(, $now)?),
                $either
            ),
        }
    };
}

/// A builder of some pattern over a storage.
pub trait Calls<S: Service>: Drop {
    /// What a call at this time answers. Only events ask for the time.
    fn call(self, ask: Ask, now: Now, storage: &mut S::Storage) -> Called;
}

impl<S: Service> Calls<S> for event::Builder<S> {
    fn call(self, ask: Ask, now: Now, storage: &mut S::Storage) -> Called {
        called! { ask, self(storage, now) => EventCreate, EventOpen, EventOpenOrCreate }
    }
}

impl<S: Service, P: ZeroCopySend, U: ZeroCopySend> Calls<S>
    for publish_subscribe::Builder<P, U, S> {
    fn call(self, ask: Ask, _now: Now, storage: &mut S::Storage) -> Called {
        called! {
            ask, self(storage) =>
            PublishSubscribeCreate, PublishSubscribeOpen, PublishSubscribeOpenOrCreate
        }
    }
}

impl<S: Service, Q: ZeroCopySend, QU: ZeroCopySend, R: ZeroCopySend, RU: ZeroCopySend> Calls<S>
    for request_response::Builder<Q, QU, R, RU, S> {
    fn call(self, ask: Ask, _now: Now, storage: &mut S::Storage) -> Called {
        called! {
            ask, self(storage) =>
            RequestResponseCreate, RequestResponseOpen, RequestResponseOpenOrCreate
        }
    }
}
