//! The builder of services of events.

ghost use Rattle.std.specs.Prelude.{◌≡◌, List, [], Ok, Some, None};
ghost use Rattle.iceoryx2_attribute.specs.Attributes.{Pair};
ghost use Rattle.iceoryx2_attribute.specs.Requirements.{Requirements, no_requirements};
ghost use Rattle.iceoryx2_description.specs.Span.{zero_span};
ghost use Rattle.iceoryx2_access.specs.Run.{Joins};
ghost use Rattle.iceoryx2_rounds.specs.Answers.{map_err};
ghost use Rattle.iceoryx2_rounds.specs.Creates.{IsCreateWord};
ghost use Rattle.iceoryx2_rounds.specs.Opens.{IsOpenWord};
ghost use Rattle.iceoryx2_rounds.specs.BuilderCalls.{ToOpenOrCreate};
ghost use Rattle.iceoryx2_rounds.specs.EndsAtOnce.{EndsAtOnce};
ghost use Rattle.iceoryx2_rounds.specs.OpenOrCreates.{IsOpenOrCreateWord};
ghost use Rattle.iceoryx2_rounds.specs.Builders.{IsLawfulBuilder};
ghost use Rattle.iceoryx2_event_builder.specs.declared.event.demand.EventDemand.{EventDemand};
ghost use Rattle.iceoryx2_event_builder.specs.Event.{event_creating, event_opening, event_refusal, event_retried};
ghost use Rattle.iceoryx2_event_builder.specs.EventCalls.{event_call, event_caller};
ghost use Rattle.iceoryx2_event_builder.specs.Builder.{fresh_builder, with_setting};

pub mod demand;
pub mod setting;

use crate::event::demand::{EventDemand, open_or_create_error};
pub use crate::event::setting::EventSetter;
use iceoryx2_access::storage::Service;
use iceoryx2_attribute::attribute::{AttributeSpecifier, AttributeVerifier};
use iceoryx2_description::config;
pub use iceoryx2_description::event::EventId;
use iceoryx2_description::time::{ClockFault, Duration, Time};
pub use iceoryx2_errors::error::{EventCreateError, EventOpenError, EventOpenOrCreateError};
use iceoryx2_rounds::answer::into_factory;
use iceoryx2_rounds::base::BuilderWithServiceType;
use iceoryx2_rounds::create::create_once;
use iceoryx2_rounds::open::open;
use iceoryx2_rounds::open_or_create::open_or_create;
use iceoryx2_rounds::port_factory::event::PortFactory;
use std::alloc::AllocError;
use std::marker::Model;

/// The prefix of a name in the hash of a service of events.
pub const PREFIX: u8 = b'e';

/// The prefix is `e`.
pub fn prefix_is_e()
    ensures { PREFIX ≡ 101 }
{}

/// The law of each builder of events: it opens what it creates.
///
/// With its adjusted settings a create publishes for one node or more. The same builder opens what
/// the create publishes, if the defined pairs meet the attributes that the open requires: it fits
/// the open and meets each setting that the open requires, whatever the clock says.
pub fn opens_what_it_creates()
    ensures { (demand : EventDemand) → IsLawfulBuilder (event_creating demand) (event_opening demand) }
{}

/// If a table that nobody else uses refuses a call, an open or create doesn't try again.
pub fn ends_at_once()
    ensures { (demand : EventDemand) (defined : List Pair) (required : Requirements) → EndsAtOnce event_retried
        (event_creating demand defined) (event_opening demand required) }
{}

/// A builder of a service of events.
///
/// A setter sets the value that a create uses, and marks the setting: an open then requires that
/// the existing service offers as much. If a setter is called more than once, the last value
/// counts.
///
/// An example: `crates/examples/src/events.rt`.
pub struct Builder<S: Service> {
    base: BuilderWithServiceType<S>,
    demand: EventDemand,
}

impl<S: Service> Model for Builder<S> {
    ghost use Rattle.iceoryx2_event_builder.specs.Builder.{EventBuilderState};

    ghost Value = { EventBuilderState };

    ghost view = { λ builder. record { node = builder.base.node; name = builder.base.name; demand = builder.demand } };
}

impl<S: Service> Drop for Builder<S> {
    fn drop(self) {
        let Builder { base: _, demand: _ } = self;
    }
}

impl<S: Service> Clone for Builder<S> {
    ghost use Rattle.std.specs.Prelude.{◌≡◌};

    ghost is_clone = { λ builder copy. copy ≡ builder };

    /// Returns `AllocError` if there was no memory for the name.
    fn clone(&self) -> Result<Builder<S>, AllocError> {
        Ok(Builder {
            base: self.base.clone()?,
            demand: self.demand,
        })
    }
}

impl<S: Service> Builder<S> {
    /// Returns a builder with these settings. None of them is required.
    pub fn new(base: BuilderWithServiceType<S>, defaults: config::Event) -> Self
        ensures { result ≡ fresh_builder base.node base.name defaults }
    {
        Builder {
            base,
            demand: EventDemand::start(defaults),
        }
    }

    /// Calls one setter, by its name.
    pub fn with(mut self, setting: EventSetter) -> Self
        ensures { result ≡ with_setting self setting }
    {
        self.demand.set(setting);
        self
    }

    /// Sets the number of notifiers that the service has room for. A create takes zero as one.
    pub fn max_notifiers(self, value: u64) -> Self
        ensures { result ≡ with_setting self (EventSetter.MaxNotifiers value) }
    {
        self.with(EventSetter::MaxNotifiers(value))
    }

    /// Sets the number of listeners that the service has room for. A create takes zero as one.
    pub fn max_listeners(self, value: u64) -> Self
        ensures { result ≡ with_setting self (EventSetter.MaxListeners value) }
    {
        self.with(EventSetter::MaxListeners(value))
    }

    /// Sets the greatest number that an event may have.
    pub fn event_id_max_value(self, value: u64) -> Self
        ensures { result ≡ with_setting self (EventSetter.EventIdMaxValue value) }
    {
        self.with(EventSetter::EventIdMaxValue(value))
    }

    /// Sets the number of nodes that the service has room for. A create takes zero as one.
    pub fn max_nodes(self, value: u64) -> Self
        ensures { result ≡ with_setting self (EventSetter.MaxNodes value) }
    {
        self.with(EventSetter::MaxNodes(value))
    }

    /// Sets the event that is sent when a notifier is created. An existing service has to send the
    /// same event.
    pub fn notifier_created_event(self, value: EventId) -> Self
        ensures { result ≡ with_setting self (EventSetter.NotifierCreatedEvent (Some value)) }
    {
        self.with(EventSetter::NotifierCreatedEvent(Some(value)))
    }

    /// Sets no event: nothing is sent when a notifier is created. An existing service must send
    /// nothing either.
    pub fn disable_notifier_created_event(self) -> Self
        ensures { result ≡ with_setting self (EventSetter.NotifierCreatedEvent None) }
    {
        self.with(EventSetter::NotifierCreatedEvent(None))
    }

    /// Sets the event that is sent when a notifier goes. An existing service has to send the same
    /// event.
    pub fn notifier_dropped_event(self, value: EventId) -> Self
        ensures { result ≡ with_setting self (EventSetter.NotifierDroppedEvent (Some value)) }
    {
        self.with(EventSetter::NotifierDroppedEvent(Some(value)))
    }

    /// Sets no event: nothing is sent when a notifier goes. An existing service must send nothing
    /// either.
    pub fn disable_notifier_dropped_event(self) -> Self
        ensures { result ≡ with_setting self (EventSetter.NotifierDroppedEvent None) }
    {
        self.with(EventSetter::NotifierDroppedEvent(None))
    }

    /// Sets the event that is sent for a notifier whose process died. An existing service has to
    /// send the same event.
    pub fn notifier_dead_event(self, value: EventId) -> Self
        ensures { result ≡ with_setting self (EventSetter.NotifierDeadEvent (Some value)) }
    {
        self.with(EventSetter::NotifierDeadEvent(Some(value)))
    }

    /// Sets no event: nothing is sent for a notifier whose process died. An existing service must
    /// send nothing either.
    pub fn disable_notifier_dead_event(self) -> Self
        ensures { result ≡ with_setting self (EventSetter.NotifierDeadEvent None) }
    {
        self.with(EventSetter::NotifierDeadEvent(None))
    }

    /// Sets the time within which a notifier has to notify again. An existing service has to have a
    /// deadline of the same length, whenever the service was created.
    pub fn deadline(self, value: Duration) -> Self
        ensures { result ≡ with_setting self (EventSetter.Deadline (Some value)) }
    {
        self.with(EventSetter::Deadline(Some(value)))
    }

    /// Sets no deadline: a notifier need not notify again. An existing service must have no
    /// deadline either.
    pub fn disable_deadline(self) -> Self
        ensures { result ≡ with_setting self (EventSetter.Deadline None) }
    {
        self.with(EventSetter::Deadline(None))
    }

    /// Creates the service without attributes, as `create_with_attributes` does with a specifier
    /// that defines none.
    pub fn create(
        self,
        storage: &mut S::Storage,
        now: Result<Time, ClockFault>,
    ) -> Result<PortFactory<S>, EventCreateError>
        ensures { let caller = event_caller S.ServiceNameHasher.hash_of self now in
            Joins S.Storage.step storage.old
            (λ word. IsCreateWord (event_creating self.demand []) caller word result) storage.new }
    {
        let specifier = AttributeSpecifier::new(self.base.name().allocator());
        self.create_with_attributes(&specifier, storage, now)
    }

    /// Creates the service with these attributes and with the settings as they are, except that
    /// zeros become one. If the service has a deadline, it is created at the time `now`.
    ///
    /// A refused call gives back what it made. The errors:
    /// - `AlreadyExists`: the service exists.
    /// - `HangsInCreation`, `IsBeingCreatedByAnotherInstance`: somebody else is creating the
    ///   service.
    /// - `ServiceInCorruptedState`: the look finds bytes that are no description, a description of
    ///   another hash, or a storage at fault; or the node is counted although there is no service;
    ///   or a segment can't be removed; or nothing is published.
    /// - `InternalFailure`: the storage fails, or there is no time.
    /// - `InsufficientPermissions`, `OutOfMemory`: as their names say.
    pub fn create_with_attributes(
        self,
        specifier: &AttributeSpecifier,
        storage: &mut S::Storage,
        now: Result<Time, ClockFault>,
    ) -> Result<PortFactory<S>, EventCreateError>
        ensures { let caller = event_caller S.ServiceNameHasher.hash_of self now in
            Joins S.Storage.step storage.old
            (λ word. IsCreateWord (event_creating self.demand specifier.now) caller word result) storage.new }
    {
        let Builder { base, demand } = self;
        let caller = base.into_caller(PREFIX, now);
        into_factory(create_once(demand, caller, specifier.attributes(), storage))
    }

    /// Opens the service, whatever its attributes, as `open_with_attributes` does with a verifier
    /// that requires none.
    pub fn open(self, storage: &mut S::Storage) -> Result<PortFactory<S>, EventOpenError>
        ensures { let caller = event_caller S.ServiceNameHasher.hash_of self (Ok zero_span) in
            Joins S.Storage.step storage.old
            (λ word. IsOpenWord (event_opening self.demand no_requirements) caller.node caller.hash word result)
            storage.new }
    {
        let verifier = AttributeVerifier::new(self.base.name().allocator());
        self.open_with_attributes(&verifier, storage)
    }

    /// Opens the service, if it has the required attributes and offers each marked setting. The
    /// factory carries the attributes and the settings with which the service was created.
    ///
    /// The errors:
    /// - `DoesNotExist`: there is no service.
    /// - `IncompatibleAttributes`: the service lacks a required pair, or has no value for a
    ///   required key.
    /// - A setting's own error: the service offers less than is required, or another event or
    ///   deadline.
    /// - `ExceedsMaxNumberOfNodes`: no further node has room.
    /// - `IsMarkedForDestruction`: the last node has left.
    /// - `HangsInCreation`: the service is being created.
    /// - `ServiceInCorruptedState`: the look finds bytes that are no description, a description of
    ///   another hash, or a storage at fault; or the service's segment isn't there; or the service
    ///   is replaced again and again.
    /// - `InternalFailure`: the storage fails.
    /// - `IncompatibleMessagingPattern`, `InsufficientPermissions`, `OutOfMemory`: as their names
    ///   say.
    pub fn open_with_attributes(
        self,
        verifier: &AttributeVerifier,
        storage: &mut S::Storage,
    ) -> Result<PortFactory<S>, EventOpenError>
        ensures { let caller = event_caller S.ServiceNameHasher.hash_of self (Ok zero_span) in
            Joins S.Storage.step storage.old
            (λ word. IsOpenWord (event_opening self.demand verifier.now) caller.node caller.hash word result)
            storage.new }
    {
        let Builder { base, demand } = self;
        let caller = base.into_caller(PREFIX, Ok(Time::default()));
        into_factory(open(&demand, &caller, verifier, storage))
    }

    /// Opens the service, or creates it if there is none, whatever its attributes, as
    /// `open_or_create_with_attributes` does with a verifier that requires none.
    pub fn open_or_create(
        self,
        storage: &mut S::Storage,
        now: Result<Time, ClockFault>,
    ) -> Result<PortFactory<S>, EventOpenOrCreateError>
        ensures { let call = event_call S.ServiceNameHasher.hash_of self ToOpenOrCreate [] no_requirements now in
            Joins S.Storage.step storage.old
            (λ word. IsOpenOrCreateWord call word (map_err event_refusal result)) storage.new }
    {
        let verifier = AttributeVerifier::new(self.base.name().allocator());
        self.open_or_create_with_attributes(&verifier, storage, now)
    }

    /// Opens the service as `open_with_attributes` does. If there is none, creates it as
    /// `create_with_attributes` does, with the required pairs. Required keys are not created.
    ///
    /// Another round follows if a create is refused with `AlreadyExists`,
    /// `IsBeingCreatedByAnotherInstance` or `ServiceInCorruptedState`, or an open with
    /// `DoesNotExist`, `ServiceInCorruptedState` or `IsMarkedForDestruction`. In that round, zeros
    /// that a create raised stay raised. After six such rounds the call is refused with
    /// `SystemInFlux`. Otherwise an `EventOpenError` tells that a look found something wrong or
    /// that the service isn't opened, and an `EventCreateError` that it isn't created. Each round
    /// gives back what it made.
    pub fn open_or_create_with_attributes(
        self,
        verifier: &AttributeVerifier,
        storage: &mut S::Storage,
        now: Result<Time, ClockFault>,
    ) -> Result<PortFactory<S>, EventOpenOrCreateError>
        ensures { let required = verifier.now in
            let call = event_call S.ServiceNameHasher.hash_of self ToOpenOrCreate required.pairs required now in
            Joins S.Storage.step storage.old
            (λ word. IsOpenOrCreateWord call word (map_err event_refusal result)) storage.new }
    {
        let Builder { base, mut demand } = self;
        let caller = base.into_caller(PREFIX, now);
        match open_or_create(&mut demand, &caller, verifier, storage) {
            Ok(registration) => Ok(PortFactory::new(registration)),
            Err(refusal) => Err(open_or_create_error(refusal)),
        }
    }
}
