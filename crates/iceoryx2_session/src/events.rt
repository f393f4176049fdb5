//! Builder calls for services of events.

ghost use Rattle.iceoryx2_event_builder.specs.Builder as request;
ghost use Rattle.iceoryx2_session.specs.Events.{event_pattern_call};

use crate::calling::{CallsBuilder, defined_by};
use crate::setters::HasSetters;
use crate::slots::Slots;
use crate::table_storage::ServiceOver;
use iceoryx2_access::storage::Storage;
use iceoryx2_attribute::attribute::AttributeVerifier;
use iceoryx2_builder::builder::event::Builder;
use iceoryx2_builder::command::{EventSetter, Refusal};
use iceoryx2_description::time::{ClockFault, Time};

impl<S: Storage> HasSetters for Builder<ServiceOver<S>> {
    type Setting = EventSetter;

    ghost with_setting = { request.with_setting };

    fn with_setting(self, setting: EventSetter) -> Builder<ServiceOver<S>> {
        self.with(setting)
    }
}

impl<S: Storage> CallsBuilder<S> for Builder<ServiceOver<S>> {
    ghost asked = { event_pattern_call };

    fn create(
        self,
        attributes: AttributeVerifier,
        now: Result<Time, ClockFault>,
        storage: &mut S,
        slots: &mut Slots,
        slot: usize,
    ) -> Result<u64, Refusal> {
        match self.create_with_attributes(&defined_by(attributes), storage, now) {
            Ok(factory) => Ok(slots.keep(slot, factory)),
            Err(error) => Err(Refusal::EventCreate(error)),
        }
    }

    fn open(
        self,
        attributes: &AttributeVerifier,
        _now: Result<Time, ClockFault>,
        storage: &mut S,
        slots: &mut Slots,
        slot: usize,
    ) -> Result<u64, Refusal> {
        match self.open_with_attributes(attributes, storage) {
            Ok(factory) => Ok(slots.keep(slot, factory)),
            Err(error) => Err(Refusal::EventOpen(error)),
        }
    }

    fn open_or_create(
        self,
        attributes: &AttributeVerifier,
        now: Result<Time, ClockFault>,
        storage: &mut S,
        slots: &mut Slots,
        slot: usize,
    ) -> Result<u64, Refusal> {
        match self.open_or_create_with_attributes(attributes, storage, now) {
            Ok(factory) => Ok(slots.keep(slot, factory)),
            Err(error) => Err(Refusal::EventOpenOrCreate(error)),
        }
    }
}
