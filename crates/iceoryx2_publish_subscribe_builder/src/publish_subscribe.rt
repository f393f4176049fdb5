//! The builder of services of publish-subscribe.

ghost use Rattle.std.specs.Prelude.{◌≡◌, List, [], Ok, IfOk};
ghost use Rattle.iceoryx2_attribute.specs.Attributes.{Pair};
ghost use Rattle.iceoryx2_attribute.specs.Requirements.{Requirements, no_requirements};
ghost use Rattle.iceoryx2_types.specs.Types.{Message};
ghost use Rattle.iceoryx2_access.specs.Run.{Joins};
ghost use Rattle.iceoryx2_rounds.specs.Answers.{map_err};
ghost use Rattle.iceoryx2_rounds.specs.Prepared.{IsCreateCall, IsOpenCall};
ghost use Rattle.iceoryx2_rounds.specs.BuilderCalls.{ToOpenOrCreate};
ghost use Rattle.iceoryx2_rounds.specs.CallWords.{IsOpenOrCreateCall};
ghost use Rattle.iceoryx2_rounds.specs.EndsAtOnce.{EndsAtOnce};
ghost use Rattle.iceoryx2_rounds.specs.Builders.{IsLawfulBuilder};
ghost use Rattle.iceoryx2_publish_subscribe_builder.specs.PublishSubscribe.{publish_subscribe_creating};
ghost use Rattle.iceoryx2_publish_subscribe_builder.specs.PublishSubscribe.{publish_subscribe_opening};
ghost use Rattle.iceoryx2_publish_subscribe_builder.specs.PublishSubscribe.{publish_subscribe_refusal};
ghost use Rattle.iceoryx2_publish_subscribe_builder.specs.PublishSubscribe.{publish_subscribe_retried};
ghost use Rattle.iceoryx2_publish_subscribe_builder.specs.PublishSubscribeCalls.{publish_subscribe_call, publish_subscribe_caller};
ghost use Rattle.iceoryx2_publish_subscribe_builder.specs.Builder.{fresh_builder};
ghost use Rattle.iceoryx2_publish_subscribe_builder.specs.Builder.{message_for, with_setting};

pub mod demand;
pub mod setting;

use crate::publish_subscribe::demand::{
    PreparedDemand, PublishSubscribeDemand, open_or_create_error,
};
pub use crate::publish_subscribe::setting::PublishSubscribeSetter;
use iceoryx2_access::storage::Service;
use iceoryx2_attribute::attribute::{AttributeSpecifier, AttributeVerifier};
use iceoryx2_description::config;
use iceoryx2_description::time::Time;
pub use iceoryx2_errors::error::{
    PublishSubscribeCreateError, PublishSubscribeOpenError, PublishSubscribeOpenOrCreateError,
};
use iceoryx2_rounds::answer::into_factory;
use iceoryx2_rounds::ask_for;
use iceoryx2_rounds::base::BuilderWithServiceType;
use iceoryx2_rounds::caller::Caller;
use iceoryx2_rounds::create::create_once;
use iceoryx2_rounds::open::open;
use iceoryx2_rounds::open_or_create::open_or_create;
use iceoryx2_rounds::port_factory::publish_subscribe::PortFactory;
use iceoryx2_rounds::requested::RequestedTypes;
use iceoryx2_types::types::publish_subscribe::Header;
use iceoryx2_types::types::{
    Alignment, CustomHeaderMarker, CustomPayloadMarker, Slice, TypeDetail, ZeroCopySend,
};
use std::alloc::AllocError;
use std::marker::{Model, PhantomData};

/// The prefix of a name in the hash of a service of publish-subscribe.
pub const PREFIX: u8 = b'p';

/// The prefix is `p`.
pub fn prefix_is_p()
    ensures { PREFIX ≡ 112 }
{}

/// The law of each builder of publish-subscribe, whatever the types of its messages: it opens what
/// it creates.
///
/// With its adjusted settings a create publishes for one node or more. The same builder opens what
/// the create publishes, if the defined pairs meet the attributes that the open requires: it fits
/// the open and meets each setting that the open requires.
pub fn opens_what_it_creates()
    ensures { (demand : PublishSubscribeDemand) (message : Message)
        → IsLawfulBuilder (publish_subscribe_creating demand message) (publish_subscribe_opening demand message) }
{}

/// If a table that nobody else uses refuses a call, an open or create doesn't try again.
pub fn ends_at_once()
    ensures { (demand : PublishSubscribeDemand) (message : Message) (defined : List Pair) (required : Requirements)
        → EndsAtOnce publish_subscribe_retried
        (publish_subscribe_creating demand message defined) (publish_subscribe_opening demand message required) }
{}

/// A builder of a service of publish-subscribe with payloads `P` and user headers `U`.
///
/// A setter of a setting sets the value that a create uses, and marks the setting: an open then
/// requires that the existing service offers as much. If a setter is called more than once, the
/// last value counts. The types of the messages are no settings. An existing service's types have
/// to be those of the builder, with user header and payload aligned at least as far.
///
/// An example: `crates/examples/src/publish_subscribe.rt`.
pub struct Builder<P, U, S: Service> {
    base: BuilderWithServiceType<S>,
    demand: PublishSubscribeDemand,
    types: RequestedTypes,
    payload: PhantomData<P>,
    user_header: PhantomData<U>,
}

impl<P, U, S: Service> Model for Builder<P, U, S> {
    ghost use Rattle.iceoryx2_publish_subscribe_builder.specs.Builder.{PublishSubscribeBuilderState};

    ghost Value = { PublishSubscribeBuilderState };

    ghost view = { λ builder. record {
      node = builder.base.node;
      name = builder.base.name;
      demand = builder.demand;
      types = builder.types;
    } };
}

impl<P, U, S: Service> Drop for Builder<P, U, S> {
    fn drop(self) {
        let Builder {
            base: _,
            demand: _,
            types: _,
            payload: _,
            user_header: _,
        } = self;
    }
}

impl<P, U, S: Service> Clone for Builder<P, U, S> {
    ghost use Rattle.std.specs.Prelude.{◌≡◌};

    ghost is_clone = { λ builder copy. copy ≡ builder };

    /// Returns `AllocError` if there was no memory for the name of the service or those of types.
    fn clone(&self) -> Result<Builder<P, U, S>, AllocError> {
        Ok(Builder {
            base: self.base.clone()?,
            demand: self.demand,
            types: self.types.clone()?,
            payload: PhantomData,
            user_header: PhantomData,
        })
    }
}

impl<P: ZeroCopySend, S: Service> Builder<P, (), S> {
    /// Returns a builder with these settings, for messages without a user header. None of the
    /// settings is required.
    pub fn new(base: BuilderWithServiceType<S>, defaults: config::PublishSubscribe) -> Self
        ensures { result ≡ fresh_builder base.node base.name defaults }
    {
        Builder::from_parts(
            base,
            PublishSubscribeDemand::start(defaults),
            RequestedTypes::none(),
        )
    }
}

impl<S: Service> Builder<Slice<CustomPayloadMarker>, CustomHeaderMarker, S> {
    /// Calls one setter, by its name.
    pub fn with(self, setting: PublishSubscribeSetter) -> Self
        ensures { result ≡ with_setting self setting }
    {
        self.set(setting)
    }
}

impl<U: ZeroCopySend, S: Service> Builder<Slice<CustomPayloadMarker>, U, S> {
    /// Sets the type that is used instead of the payload's marker.
    /// Hidden in iceoryx2.
    pub fn internal_set_payload_type_details(self, value: TypeDetail) -> Self
        ensures { result ≡ with_setting self (PublishSubscribeSetter.PayloadType value) }
    {
        self.set(PublishSubscribeSetter::PayloadType(value))
    }
}

impl<P: ZeroCopySend, S: Service> Builder<P, CustomHeaderMarker, S> {
    /// Sets the type that is used instead of the user header's marker.
    /// Hidden in iceoryx2.
    pub fn internal_set_user_header_type_details(self, value: TypeDetail) -> Self
        ensures { result ≡ with_setting self (PublishSubscribeSetter.UserHeaderType value) }
    {
        self.set(PublishSubscribeSetter::UserHeaderType(value))
    }
}

impl<P: ZeroCopySend, U: ZeroCopySend, S: Service> Builder<P, U, S> {
    fn from_parts(
        base: BuilderWithServiceType<S>,
        demand: PublishSubscribeDemand,
        types: RequestedTypes,
    ) -> Self
        ensures { result ≡ record { node = base.node; name = base.name; demand = demand; types = types } }
    {
        Builder {
            base,
            demand,
            types,
            payload: PhantomData,
            user_header: PhantomData,
        }
    }

    /// Calls one setter, whatever the types are: sets the value, and marks a setting.
    fn set(mut self, setting: PublishSubscribeSetter) -> Self
        ensures { result ≡ with_setting self setting }
    {
        match setting {
            PublishSubscribeSetter::MaxPublishers(value) =>
                ask_for!(self.demand; max_publishers = value),
            PublishSubscribeSetter::MaxSubscribers(value) =>
                ask_for!(self.demand; max_subscribers = value),
            PublishSubscribeSetter::SubscriberMaxBufferSize(value) =>
                ask_for!(self.demand; subscriber_max_buffer_size = value),
            PublishSubscribeSetter::HistorySize(value) =>
                ask_for!(self.demand; history_size = value),
            PublishSubscribeSetter::SubscriberMaxBorrowedSamples(value) =>
                ask_for!(self.demand; subscriber_max_borrowed_samples = value),
            PublishSubscribeSetter::EnableSafeOverflow(value) =>
                ask_for!(self.demand; enable_safe_overflow = value),
            PublishSubscribeSetter::MaxNodes(value) => ask_for!(self.demand; max_nodes = value),
            PublishSubscribeSetter::PayloadAlignment(value) => self.types.alignment = Some(value),
            PublishSubscribeSetter::PayloadType(value) => self.types.payload = Some(value),
            PublishSubscribeSetter::UserHeaderType(value) => self.types.user_header = Some(value),
        }
        self
    }

    /// Sets the number of publishers that the service has room for. A create takes zero as one.
    pub fn max_publishers(self, value: u64) -> Self
        ensures { result ≡ with_setting self (PublishSubscribeSetter.MaxPublishers value) }
    {
        self.set(PublishSubscribeSetter::MaxPublishers(value))
    }

    /// Sets the number of subscribers that the service has room for. A create takes zero as one.
    pub fn max_subscribers(self, value: u64) -> Self
        ensures { result ≡ with_setting self (PublishSubscribeSetter.MaxSubscribers value) }
    {
        self.set(PublishSubscribeSetter::MaxSubscribers(value))
    }

    /// Sets the number of samples that a subscriber's buffer has room for. A create takes zero as
    /// one.
    pub fn subscriber_max_buffer_size(self, value: u64) -> Self
        ensures { result ≡ with_setting self (PublishSubscribeSetter.SubscriberMaxBufferSize value) }
    {
        self.set(PublishSubscribeSetter::SubscriberMaxBufferSize(value))
    }

    /// Sets the number of the last samples that a subscriber gets when it joins later. Without safe
    /// overflow, the subscriber's buffer has to have room for them.
    pub fn history_size(self, value: u64) -> Self
        ensures { result ≡ with_setting self (PublishSubscribeSetter.HistorySize value) }
    {
        self.set(PublishSubscribeSetter::HistorySize(value))
    }

    /// Sets the number of samples that a subscriber may borrow at one time. A create takes zero as
    /// one.
    pub fn subscriber_max_borrowed_samples(self, value: u64) -> Self
        ensures { result ≡ with_setting self (PublishSubscribeSetter.SubscriberMaxBorrowedSamples value) }
    {
        self.set(PublishSubscribeSetter::SubscriberMaxBorrowedSamples(value))
    }

    /// Sets whether the oldest sample of a full buffer gives way to a new one. An existing service
    /// has to do the same.
    pub fn enable_safe_overflow(self, value: bool) -> Self
        ensures { result ≡ with_setting self (PublishSubscribeSetter.EnableSafeOverflow value) }
    {
        self.set(PublishSubscribeSetter::EnableSafeOverflow(value))
    }

    /// Sets the number of nodes that the service has room for. A create takes zero as one.
    pub fn max_nodes(self, value: u64) -> Self
        ensures { result ≡ with_setting self (PublishSubscribeSetter.MaxNodes value) }
    {
        self.set(PublishSubscribeSetter::MaxNodes(value))
    }

    /// Sets the least alignment of the payload, in bytes. The payload stays aligned as far as its
    /// type says. This marks no setting. If it is called more than once, the last alignment counts.
    pub fn payload_alignment(self, value: Alignment) -> Self
        ensures { result ≡ with_setting self (PublishSubscribeSetter.PayloadAlignment value) }
    {
        self.set(PublishSubscribeSetter::PayloadAlignment(value))
    }

    /// Returns the same builder for messages with another user header.
    pub fn user_header<M: ZeroCopySend>(self) -> Builder<P, M, S>
        ensures { result ≡ self }
    {
        let Builder {
            base,
            demand,
            types,
            payload: _,
            user_header: _,
        } = self;
        Builder::from_parts(base, demand, types)
    }

    /// Returns the caller, at the time zero, and what the call asks, with its types made.
    /// `AllocError` if there was no memory for their names.
    fn into_prepared(self) -> Result<(Caller, PreparedDemand), AllocError>
        ensures { let message = message_for P.detail U.detail self.types in
            IfOk result (λ made. (made.0 ≡ publish_subscribe_caller S.ServiceNameHasher.hash_of self)
            × (made.1 ≡ record { demand = self.demand; message = message })) }
    {
        let Builder {
            base,
            demand,
            types,
            payload: _,
            user_header: _,
        } = self;
        let message = types.prepare::<Header, P, U>(base.name().allocator())?;
        let caller = base.into_caller(PREFIX, Ok(Time::default()));
        Ok((caller, PreparedDemand { demand, message }))
    }

    /// Creates the service without attributes, as `create_with_attributes` does with a specifier
    /// that defines none.
    pub fn create(
        self,
        storage: &mut S::Storage,
    ) -> Result<PortFactory<S, P, U>, PublishSubscribeCreateError>
        ensures { let message = message_for P.detail U.detail self.types in
            let caller = publish_subscribe_caller S.ServiceNameHasher.hash_of self in
            Joins S.Storage.step storage.old
            (λ word. IsCreateCall (publish_subscribe_creating self.demand message []) caller word result)
            storage.new }
    {
        let specifier = AttributeSpecifier::new(self.base.name().allocator());
        self.create_with_attributes(&specifier, storage)
    }

    /// Creates the service with these attributes, with the prepared types, and with the settings as
    /// they are, except that zeros become one in all settings but the history.
    ///
    /// The errors:
    /// - `OutOfMemory`, before any access: there was no memory for the types.
    /// - `SubscriberBufferMustBeLargerThanHistorySize`, before any access: without safe overflow
    ///   the buffer has less room than the history needs.
    /// - `AlreadyExists`: there is a service.
    /// - `HangsInCreation`, `IsBeingCreatedByAnotherInstance`: somebody else is creating the
    ///   service.
    /// - `ServiceInCorruptedState`: the look finds bytes that are no description, a description of
    ///   another hash, or a storage at fault; or the node is counted although there is no service;
    ///   or a segment can't be removed; or nothing is published.
    /// - `InternalFailure`: the storage fails.
    /// - `InsufficientPermissions`, `OutOfMemory`: as their names say.
    pub fn create_with_attributes(
        self,
        specifier: &AttributeSpecifier,
        storage: &mut S::Storage,
    ) -> Result<PortFactory<S, P, U>, PublishSubscribeCreateError>
        ensures { let message = message_for P.detail U.detail self.types in
            let caller = publish_subscribe_caller S.ServiceNameHasher.hash_of self in
            Joins S.Storage.step storage.old
            (λ word. IsCreateCall (publish_subscribe_creating self.demand message specifier.now) caller word result)
            storage.new }
    {
        let Ok((caller, asked)) = self.into_prepared() else {
            return Err(PublishSubscribeCreateError::OutOfMemory);
        };
        into_factory(create_once(asked, caller, specifier.attributes(), storage))
    }

    /// Opens the service, whatever its attributes, as `open_with_attributes` does with a verifier
    /// that requires none.
    pub fn open(
        self,
        storage: &mut S::Storage,
    ) -> Result<PortFactory<S, P, U>, PublishSubscribeOpenError>
        ensures { let message = message_for P.detail U.detail self.types in
            let caller = publish_subscribe_caller S.ServiceNameHasher.hash_of self in
            let opening = publish_subscribe_opening self.demand message no_requirements in
            Joins S.Storage.step storage.old
            (λ word. IsOpenCall opening caller.node caller.hash word result) storage.new }
    {
        let verifier = AttributeVerifier::new(self.base.name().allocator());
        self.open_with_attributes(&verifier, storage)
    }

    /// Opens the service, if its messages' types are those of the builder, and if it has the
    /// required attributes and offers each marked setting. The factory carries the attributes, the
    /// settings and the types with which the service was created.
    ///
    /// The errors:
    /// - `OutOfMemory`, before any access: there was no memory for the types.
    /// - `DoesNotExist`: there is no service.
    /// - `IncompatibleTypes`: the service's messages have other types.
    /// - `IncompatibleAttributes`: the service lacks a required pair, or has no value for a
    ///   required key.
    /// - A setting's own error: the service offers less than is required, or another overflow.
    /// - `ExceedsMaxNumberOfNodes`: no further node has room.
    /// - `IsMarkedForDestruction`: the last node has left.
    /// - `HangsInCreation`: the service is being created.
    /// - `ServiceInCorruptedState`: the look finds bytes that are no description, a description of
    ///   another hash, or a storage at fault; or the service's segment isn't there; or the service
    ///   is replaced again and again.
    /// - `InternalFailure`: the storage fails.
    /// - `IncompatibleMessagingPattern`, `InsufficientPermissions`, `OutOfMemory`: as their names
    ///   say.
    pub fn open_with_attributes(
        self,
        verifier: &AttributeVerifier,
        storage: &mut S::Storage,
    ) -> Result<PortFactory<S, P, U>, PublishSubscribeOpenError>
        ensures { let message = message_for P.detail U.detail self.types in
            let caller = publish_subscribe_caller S.ServiceNameHasher.hash_of self in
            let opening = publish_subscribe_opening self.demand message verifier.now in
            Joins S.Storage.step storage.old
            (λ word. IsOpenCall opening caller.node caller.hash word result) storage.new }
    {
        let Ok((caller, asked)) = self.into_prepared() else {
            return Err(PublishSubscribeOpenError::OutOfMemory);
        };
        into_factory(open(&asked, &caller, verifier, storage))
    }

    /// Opens the service, or creates it if there is none, whatever its attributes, as
    /// `open_or_create_with_attributes` does with a verifier that requires none.
    pub fn open_or_create(
        self,
        storage: &mut S::Storage,
    ) -> Result<PortFactory<S, P, U>, PublishSubscribeOpenOrCreateError>
        ensures { let message = message_for P.detail U.detail self.types in
            let call = publish_subscribe_call S.ServiceNameHasher.hash_of self message ToOpenOrCreate
            [] no_requirements in
            Joins S.Storage.step storage.old
            (λ word. IsOpenOrCreateCall call word (map_err publish_subscribe_refusal result)) storage.new }
    {
        let verifier = AttributeVerifier::new(self.base.name().allocator());
        self.open_or_create_with_attributes(&verifier, storage)
    }

    /// Opens the service as `open_with_attributes` does. If there is none, creates it as
    /// `create_with_attributes` does, with the required pairs. Required keys are not created. The
    /// types are prepared once.
    ///
    /// Another round follows if an open is refused with `DoesNotExist`, `ServiceInCorruptedState`
    /// or `IsMarkedForDestruction`, or a create with `AlreadyExists`,
    /// `IsBeingCreatedByAnotherInstance` or `ServiceInCorruptedState`. In that round, zeros that
    /// the create raised stay raised. After six such rounds the call is refused with
    /// `SystemInFlux`. Otherwise a `PublishSubscribeOpenError` tells that there was no memory for
    /// the types, that a look found something wrong or that the service isn't opened, and a
    /// `PublishSubscribeCreateError` that it isn't created. Each round gives back what it made.
    pub fn open_or_create_with_attributes(
        self,
        verifier: &AttributeVerifier,
        storage: &mut S::Storage,
    ) -> Result<PortFactory<S, P, U>, PublishSubscribeOpenOrCreateError>
        ensures { let message = message_for P.detail U.detail self.types in
            let required = verifier.now in
            let call = publish_subscribe_call S.ServiceNameHasher.hash_of self message ToOpenOrCreate
            required.pairs required in
            Joins S.Storage.step storage.old
            (λ word. IsOpenOrCreateCall call word (map_err publish_subscribe_refusal result)) storage.new }
    {
        let Ok((caller, mut asked)) = self.into_prepared() else {
            return Err(
                PublishSubscribeOpenOrCreateError::PublishSubscribeOpenError(
                    PublishSubscribeOpenError::OutOfMemory,
                ),
            );
        };
        match open_or_create(&mut asked, &caller, verifier, storage) {
            Ok(registration) => Ok(PortFactory::new(registration)),
            Err(refusal) => Err(open_or_create_error(refusal)),
        }
    }
}
