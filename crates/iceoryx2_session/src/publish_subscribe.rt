//! Builder calls for services of publish-subscribe.

ghost use Rattle.iceoryx2_publish_subscribe_builder.specs.Builder as request;
ghost use Rattle.iceoryx2_session.specs.PublishSubscribe.{publish_subscribe_pattern_call};

use crate::calling::{CallsBuilder, defined_by};
use crate::setters::HasSetters;
use crate::slots::Slots;
use crate::table_storage::ServiceOver;
use iceoryx2_access::storage::Storage;
use iceoryx2_attribute::attribute::AttributeVerifier;
use iceoryx2_builder::builder::publish_subscribe;
use iceoryx2_builder::command::{PublishSubscribeSetter, Refusal};
use iceoryx2_description::time::{ClockFault, Time};
use iceoryx2_types::types::{CustomHeaderMarker, CustomPayloadMarker, Slice};

/// A builder whose types setters name.
type Builder<S> = publish_subscribe::Builder<
    Slice<CustomPayloadMarker>,
    CustomHeaderMarker,
    ServiceOver<S>,
>;

impl<S: Storage> HasSetters for Builder<S> {
    type Setting = PublishSubscribeSetter;

    ghost with_setting = { request.with_setting };

    fn with_setting(self, setting: PublishSubscribeSetter) -> Builder<S> {
        self.with(setting)
    }
}

impl<S: Storage> CallsBuilder<S> for Builder<S> {
    ghost asked = { λ b way attributes now. publish_subscribe_pattern_call b way attributes };

    fn create(
        self,
        attributes: AttributeVerifier,
        _now: Result<Time, ClockFault>,
        storage: &mut S,
        slots: &mut Slots,
        slot: usize,
    ) -> Result<u64, Refusal> {
        match self.create_with_attributes(&defined_by(attributes), storage) {
            Ok(factory) => Ok(slots.keep(slot, factory)),
            Err(error) => Err(Refusal::PublishSubscribeCreate(error)),
        }
    }

    fn open(
        self,
        attributes: &AttributeVerifier,
        _now: Result<Time, ClockFault>,
        storage: &mut S,
        slots: &mut Slots,
        slot: usize,
    ) -> Result<u64, Refusal> {
        match self.open_with_attributes(attributes, storage) {
            Ok(factory) => Ok(slots.keep(slot, factory)),
            Err(error) => Err(Refusal::PublishSubscribeOpen(error)),
        }
    }

    fn open_or_create(
        self,
        attributes: &AttributeVerifier,
        _now: Result<Time, ClockFault>,
        storage: &mut S,
        slots: &mut Slots,
        slot: usize,
    ) -> Result<u64, Refusal> {
        match self.open_or_create_with_attributes(attributes, storage) {
            Ok(factory) => Ok(slots.keep(slot, factory)),
            Err(error) => Err(Refusal::PublishSubscribeOpenOrCreate(error)),
        }
    }
}
