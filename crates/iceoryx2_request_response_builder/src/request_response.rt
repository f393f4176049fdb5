//! The builder of services of request-response.

ghost use Rattle.std.specs.Prelude.{◌≡◌, List, [], Ok, IfOk};
ghost use Rattle.iceoryx2_attribute.specs.Attributes.{Pair};
ghost use Rattle.iceoryx2_attribute.specs.Requirements.{Requirements, no_requirements};
ghost use Rattle.iceoryx2_types.specs.Types.{Message};
ghost use Rattle.iceoryx2_access.specs.Run.{Joins};
ghost use Rattle.iceoryx2_rounds.specs.Answers.{map_err};
ghost use Rattle.iceoryx2_rounds.specs.Prepared.{IsCreateCall, IsOpenCall};
ghost use Rattle.iceoryx2_rounds.specs.BuilderCalls.{ToOpenOrCreate};
ghost use Rattle.iceoryx2_rounds.specs.CallWords.{IsOpenOrCreateCall};
ghost use Rattle.iceoryx2_rounds.specs.EndsAtOnce.{EndsAtOnce};
ghost use Rattle.iceoryx2_rounds.specs.Builders.{IsLawfulBuilder};
ghost use Rattle.iceoryx2_request_response_builder.specs.RequestResponse.{request_response_creating};
ghost use Rattle.iceoryx2_request_response_builder.specs.RequestResponse.{request_response_opening};
ghost use Rattle.iceoryx2_request_response_builder.specs.RequestResponse.{request_response_refusal};
ghost use Rattle.iceoryx2_request_response_builder.specs.RequestResponse.{request_response_retried};
ghost use Rattle.iceoryx2_request_response_builder.specs.RequestResponseCalls.{request_response_call, request_response_caller};
ghost use Rattle.iceoryx2_request_response_builder.specs.Builder.{fresh_builder};
ghost use Rattle.iceoryx2_request_response_builder.specs.Builder.{asked_with, messages_for, with_setting};

pub mod demand;
pub mod requested;
pub mod setting;

use crate::request_response::demand::{
    PreparedDemand, RequestResponseDemand, open_or_create_error,
};
use crate::request_response::requested::RequestedMessages;
pub use crate::request_response::setting::RequestResponseSetter;
use crate::request_response::setting::RequestResponseSetter as Set;
use iceoryx2_access::storage::Service;
use iceoryx2_attribute::attribute::{AttributeSpecifier, AttributeVerifier};
use iceoryx2_description::config;
use iceoryx2_description::time::Time;
pub use iceoryx2_errors::error::{
    RequestResponseCreateError, RequestResponseOpenError, RequestResponseOpenOrCreateError,
};
use iceoryx2_rounds::answer::into_factory;
use iceoryx2_rounds::ask_for;
use iceoryx2_rounds::base::BuilderWithServiceType;
use iceoryx2_rounds::caller::Caller;
use iceoryx2_rounds::create::create_once;
use iceoryx2_rounds::open::open;
use iceoryx2_rounds::open_or_create::open_or_create;
use iceoryx2_rounds::port_factory::request_response::{PortFactory, RequestResponse};
use iceoryx2_types::types::{
    Alignment, CustomHeaderMarker, CustomPayloadMarker, Slice, TypeDetail, ZeroCopySend,
};
use std::alloc::AllocError;
use std::marker::{Model, PhantomData};

/// The prefix of a name in the hash of a service of request-response.
pub const PREFIX: u8 = b'r';

/// The prefix is `r`.
pub fn prefix_is_r()
    ensures { PREFIX ≡ 114 }
{}

/// The law of each builder of request-response, whatever the types of its messages: it opens what
/// it creates.
///
/// With its adjusted settings a create publishes for one node or more. The same builder opens what
/// the create publishes, if the defined pairs meet the attributes that the open requires: it fits
/// the open and meets each setting that the open requires.
pub fn opens_what_it_creates()
    ensures { (demand : RequestResponseDemand) (request response : Message) → IsLawfulBuilder
        (request_response_creating demand request response) (request_response_opening demand request response) }
{}

/// If a table that nobody else uses refuses a call, an open or create doesn't try again.
pub fn ends_at_once()
    ensures { (demand : RequestResponseDemand) (request response : Message) (defined : List Pair)
        (required : Requirements) → EndsAtOnce request_response_retried
        (request_response_creating demand request response defined)
        (request_response_opening demand request response required) }
{}

/// A builder of a service of request-response. Its requests have payloads `Q` and user headers
/// `QU`, and its responses have payloads `R` and user headers `RU`.
///
/// A setter of a setting sets the value that a create uses, and marks the setting: an open then
/// requires that the existing service offers as much. If a setter is called more than once, the
/// last value counts. The types of the messages are no settings. An existing service's types have
/// to be those of the builder, with user headers and payloads aligned at least as far.
///
/// An example: `crates/examples/src/request_response.rt`.
pub struct Builder<Q, QU, R, RU, S: Service> {
    base: BuilderWithServiceType<S>,
    demand: RequestResponseDemand,
    types: RequestedMessages,
    kind: PhantomData<RequestResponse<Q, QU, R, RU>>,
}

impl<Q, QU, R, RU, S: Service> Model for Builder<Q, QU, R, RU, S> {
    ghost use Rattle.iceoryx2_request_response_builder.specs.Builder.{RequestResponseBuilderState};

    ghost Value = { RequestResponseBuilderState };

    ghost view = { λ builder. record {
      node = builder.base.node;
      name = builder.base.name;
      demand = builder.demand;
      types = builder.types;
    } };
}

impl<Q, QU, R, RU, S: Service> Drop for Builder<Q, QU, R, RU, S> {
    fn drop(self) {
        let Builder {
            base: _,
            demand: _,
            types: _,
            kind: _,
        } = self;
    }
}

impl<Q, QU, R, RU, S: Service> Clone for Builder<Q, QU, R, RU, S> {
    ghost use Rattle.std.specs.Prelude.{◌≡◌};

    ghost is_clone = { λ builder copy. copy ≡ builder };

    /// Returns `AllocError` if there was no memory for the name of the service or those of types.
    fn clone(&self) -> Result<Builder<Q, QU, R, RU, S>, AllocError> {
        Ok(Builder {
            base: self.base.clone()?,
            demand: self.demand,
            types: self.types.clone()?,
            kind: PhantomData,
        })
    }
}

impl<Q: ZeroCopySend, R: ZeroCopySend, S: Service> Builder<Q, (), R, (), S> {
    /// Returns a builder with these settings, for messages without user headers. None of the
    /// settings is required.
    pub fn new(base: BuilderWithServiceType<S>, defaults: config::RequestResponse) -> Self
        ensures { result ≡ fresh_builder base.node base.name defaults }
    {
        Builder::from_parts(
            base,
            RequestResponseDemand::start(defaults),
            RequestedMessages::none(),
        )
    }
}

impl<S: Service> Builder<
    Slice<CustomPayloadMarker>,
    CustomHeaderMarker,
    Slice<CustomPayloadMarker>,
    CustomHeaderMarker,
    S,
> {
    /// Calls one setter, by its name.
    pub fn with(self, setting: RequestResponseSetter) -> Self
        ensures { result ≡ with_setting self setting }
    {
        self.set(setting)
    }

    /// Sets the type that is used instead of the marker of a request's payload.
    /// Hidden in iceoryx2.
    pub fn internal_set_request_payload_type_details(self, value: TypeDetail) -> Self
        ensures { result ≡ with_setting self (RequestResponseSetter.RequestPayloadType value) }
    {
        self.set(Set::RequestPayloadType(value))
    }

    /// Sets the type that is used instead of the marker of a request's user header.
    /// Hidden in iceoryx2.
    pub fn internal_set_request_header_type_details(self, value: TypeDetail) -> Self
        ensures { result ≡ with_setting self (RequestResponseSetter.RequestHeaderType value) }
    {
        self.set(Set::RequestHeaderType(value))
    }

    /// Sets the type that is used instead of the marker of a response's payload.
    /// Hidden in iceoryx2.
    pub fn internal_set_response_payload_type_details(self, value: TypeDetail) -> Self
        ensures { result ≡ with_setting self (RequestResponseSetter.ResponsePayloadType value) }
    {
        self.set(Set::ResponsePayloadType(value))
    }

    /// Sets the type that is used instead of the marker of a response's user header.
    /// Hidden in iceoryx2.
    pub fn internal_set_response_header_type_details(self, value: TypeDetail) -> Self
        ensures { result ≡ with_setting self (RequestResponseSetter.ResponseHeaderType value) }
    {
        self.set(Set::ResponseHeaderType(value))
    }
}

impl<Q: ZeroCopySend, QU: ZeroCopySend, R: ZeroCopySend, RU: ZeroCopySend, S: Service> Builder<
    Q,
    QU,
    R,
    RU,
    S,
> {
    fn from_parts(
        base: BuilderWithServiceType<S>,
        demand: RequestResponseDemand,
        types: RequestedMessages,
    ) -> Self
        ensures { result ≡ record { node = base.node; name = base.name; demand = demand; types = types } }
    {
        Builder {
            base,
            demand,
            types,
            kind: PhantomData,
        }
    }

    /// Calls one setter, whatever the types are: sets the value, and marks a setting.
    fn set(mut self, setting: RequestResponseSetter) -> Self
        ensures { result ≡ with_setting self setting }
    {
        match setting {
            Set::EnableSafeOverflowForRequests(value) =>
                ask_for!(self.demand; enable_safe_overflow_for_requests = value),
            Set::EnableSafeOverflowForResponses(value) =>
                ask_for!(self.demand; enable_safe_overflow_for_responses = value),
            Set::EnableFireAndForgetRequests(value) =>
                ask_for!(self.demand; enable_fire_and_forget_requests = value),
            Set::MaxActiveRequestsPerClient(value) =>
                ask_for!(self.demand; max_active_requests_per_client = value),
            Set::MaxLoanedRequests(value) => ask_for!(self.demand; max_loaned_requests = value),
            Set::MaxBorrowedResponsesPerPendingResponse(value) =>
                ask_for!(self.demand; max_borrowed_responses_per_pending_response = value),
            Set::MaxResponseBufferSize(value) =>
                ask_for!(self.demand; max_response_buffer_size = value),
            Set::MaxServers(value) => ask_for!(self.demand; max_servers = value),
            Set::MaxClients(value) => ask_for!(self.demand; max_clients = value),
            Set::MaxNodes(value) => ask_for!(self.demand; max_nodes = value),
            Set::RequestPayloadAlignment(value) => self.types.request.alignment = Some(value),
            Set::ResponsePayloadAlignment(value) => self.types.response.alignment = Some(value),
            Set::RequestPayloadType(value) => self.types.request.payload = Some(value),
            Set::RequestHeaderType(value) => self.types.request.user_header = Some(value),
            Set::ResponsePayloadType(value) => self.types.response.payload = Some(value),
            Set::ResponseHeaderType(value) => self.types.response.user_header = Some(value),
        }
        self
    }

    /// Sets whether the oldest request of a full buffer gives way to a new one. An existing service
    /// has to do the same.
    pub fn enable_safe_overflow_for_requests(self, value: bool) -> Self
        ensures { result ≡ with_setting self (RequestResponseSetter.EnableSafeOverflowForRequests value) }
    {
        self.set(Set::EnableSafeOverflowForRequests(value))
    }

    /// Sets whether the oldest response of a full buffer gives way to a new one. An existing
    /// service has to do the same.
    pub fn enable_safe_overflow_for_responses(self, value: bool) -> Self
        ensures { result ≡ with_setting self (RequestResponseSetter.EnableSafeOverflowForResponses value) }
    {
        self.set(Set::EnableSafeOverflowForResponses(value))
    }

    /// Sets whether a client may send a request without waiting for its responses. An existing
    /// service has to allow the same.
    pub fn enable_fire_and_forget_requests(self, value: bool) -> Self
        ensures { result ≡ with_setting self (RequestResponseSetter.EnableFireAndForgetRequests value) }
    {
        self.set(Set::EnableFireAndForgetRequests(value))
    }

    /// Sets the number of requests that a client may have under way at one time. A create takes
    /// zero as one.
    pub fn max_active_requests_per_client(self, value: u64) -> Self
        ensures { result ≡ with_setting self (RequestResponseSetter.MaxActiveRequestsPerClient value) }
    {
        self.set(Set::MaxActiveRequestsPerClient(value))
    }

    /// Sets the number of requests that a client may have on loan at one time. A create takes zero
    /// as one.
    pub fn max_loaned_requests(self, value: u64) -> Self
        ensures { result ≡ with_setting self (RequestResponseSetter.MaxLoanedRequests value) }
    {
        self.set(Set::MaxLoanedRequests(value))
    }

    /// Sets the number of responses that may be borrowed at one time from one pending response. A
    /// create takes zero as one.
    pub fn max_borrowed_responses_per_pending_response(self, value: u64) -> Self
        ensures { result ≡ with_setting self (RequestResponseSetter.MaxBorrowedResponsesPerPendingResponse value) }
    {
        self.set(Set::MaxBorrowedResponsesPerPendingResponse(value))
    }

    /// Sets the number of responses that the buffer of one request has room for. A create takes
    /// zero as one.
    pub fn max_response_buffer_size(self, value: u64) -> Self
        ensures { result ≡ with_setting self (RequestResponseSetter.MaxResponseBufferSize value) }
    {
        self.set(Set::MaxResponseBufferSize(value))
    }

    /// Sets the number of servers that the service has room for. A create takes zero as one.
    pub fn max_servers(self, value: u64) -> Self
        ensures { result ≡ with_setting self (RequestResponseSetter.MaxServers value) }
    {
        self.set(Set::MaxServers(value))
    }

    /// Sets the number of clients that the service has room for. A create takes zero as one.
    pub fn max_clients(self, value: u64) -> Self
        ensures { result ≡ with_setting self (RequestResponseSetter.MaxClients value) }
    {
        self.set(Set::MaxClients(value))
    }

    /// Sets the number of nodes that the service has room for. A create takes zero as one.
    pub fn max_nodes(self, value: u64) -> Self
        ensures { result ≡ with_setting self (RequestResponseSetter.MaxNodes value) }
    {
        self.set(Set::MaxNodes(value))
    }

    /// Sets the least alignment of a request's payload, in bytes. The payload stays aligned as far
    /// as its type says. This marks no setting. If it is called more than once, the last alignment
    /// counts.
    pub fn request_payload_alignment(self, value: Alignment) -> Self
        ensures { result ≡ with_setting self (RequestResponseSetter.RequestPayloadAlignment value) }
    {
        self.set(Set::RequestPayloadAlignment(value))
    }

    /// Sets the least alignment of a response's payload, in bytes, as `request_payload_alignment`
    /// does for a request's.
    pub fn response_payload_alignment(self, value: Alignment) -> Self
        ensures { result ≡ with_setting self (RequestResponseSetter.ResponsePayloadAlignment value) }
    {
        self.set(Set::ResponsePayloadAlignment(value))
    }

    /// Returns the same builder for messages with other user headers.
    fn with_headers<QM: ZeroCopySend, RM: ZeroCopySend>(self) -> Builder<Q, QM, R, RM, S>
        ensures { result ≡ self }
    {
        let Builder {
            base,
            demand,
            types,
            kind: _,
        } = self;
        Builder::from_parts(base, demand, types)
    }

    /// Returns the same builder for requests with another user header.
    pub fn request_user_header<M: ZeroCopySend>(self) -> Builder<Q, M, R, RU, S>
        ensures { result ≡ self }
    {
        self.with_headers()
    }

    /// Returns the same builder for responses with another user header.
    pub fn response_user_header<M: ZeroCopySend>(self) -> Builder<Q, QU, R, M, S>
        ensures { result ≡ self }
    {
        self.with_headers()
    }

    /// Returns the caller, at the time zero, and what the call asks, with its types made.
    /// `AllocError` if there was no memory for their names.
    fn into_prepared(self) -> Result<(Caller, PreparedDemand), AllocError>
        ensures { let messages = messages_for Q.detail QU.detail R.detail RU.detail self.types in
            IfOk result (λ made. (made.0 ≡ request_response_caller S.ServiceNameHasher.hash_of self)
            × (made.1 ≡ asked_with self.demand messages)) }
    {
        let Builder {
            base,
            demand,
            types,
            kind: _,
        } = self;
        let asked = types.prepare::<Q, QU, R, RU>(demand, base.name().allocator())?;
        Ok((base.into_caller(PREFIX, Ok(Time::default())), asked))
    }

    /// Creates the service without attributes, as `create_with_attributes` does with a specifier
    /// that defines none.
    pub fn create(
        self,
        storage: &mut S::Storage,
    ) -> Result<PortFactory<S, Q, QU, R, RU>, RequestResponseCreateError>
        ensures { let messages = messages_for Q.detail QU.detail R.detail RU.detail self.types in
            let caller = request_response_caller S.ServiceNameHasher.hash_of self in
            let creating = request_response_creating self.demand messages.request messages.response [] in
            Joins S.Storage.step storage.old (λ word. IsCreateCall creating caller word result) storage.new }
    {
        let specifier = AttributeSpecifier::new(self.base.name().allocator());
        self.create_with_attributes(&specifier, storage)
    }

    /// Creates the service with these attributes, with the prepared types, and with the settings as
    /// they are, except that zeros become one.
    ///
    /// The errors:
    /// - `OutOfMemory`, before any access: there was no memory for the types.
    /// - `AlreadyExists`: there is a service.
    /// - `HangsInCreation`, `IsBeingCreatedByAnotherInstance`: somebody else is creating the
    ///   service.
    /// - `ServiceInCorruptedState`: the look finds bytes that are no description, a description of
    ///   another hash, or a storage at fault; or the node is counted although there is no service;
    ///   or a segment can't be removed; or nothing is published.
    /// - `InternalFailure`: the storage fails.
    /// - `InsufficientPermissions`, `OutOfMemory`: as their names say.
    pub fn create_with_attributes(
        self,
        specifier: &AttributeSpecifier,
        storage: &mut S::Storage,
    ) -> Result<PortFactory<S, Q, QU, R, RU>, RequestResponseCreateError>
        ensures { let messages = messages_for Q.detail QU.detail R.detail RU.detail self.types in
            let caller = request_response_caller S.ServiceNameHasher.hash_of self in
            let creating = request_response_creating self.demand messages.request messages.response specifier.now in
            Joins S.Storage.step storage.old (λ word. IsCreateCall creating caller word result) storage.new }
    {
        let Ok((caller, asked)) = self.into_prepared() else {
            return Err(RequestResponseCreateError::OutOfMemory);
        };
        into_factory(create_once(asked, caller, specifier.attributes(), storage))
    }

    /// Opens the service, whatever its attributes, as `open_with_attributes` does with a verifier
    /// that requires none.
    pub fn open(
        self,
        storage: &mut S::Storage,
    ) -> Result<PortFactory<S, Q, QU, R, RU>, RequestResponseOpenError>
        ensures { let messages = messages_for Q.detail QU.detail R.detail RU.detail self.types in
            let caller = request_response_caller S.ServiceNameHasher.hash_of self in
            let opening = request_response_opening self.demand messages.request messages.response no_requirements in
            Joins S.Storage.step storage.old
            (λ word. IsOpenCall opening caller.node caller.hash word result) storage.new }
    {
        let verifier = AttributeVerifier::new(self.base.name().allocator());
        self.open_with_attributes(&verifier, storage)
    }

    /// Opens the service, if the types of its requests and responses are those of the builder, and
    /// if it has the required attributes and offers each marked setting. The factory carries the
    /// attributes, the settings and the types with which the service was created.
    ///
    /// The errors:
    /// - `OutOfMemory`, before any access: there was no memory for the types.
    /// - `DoesNotExist`: there is no service.
    /// - `IncompatibleRequestType`: the service's requests have other types.
    /// - `IncompatibleResponseType`: the requests' types fit, but the responses have other types.
    /// - `IncompatibleAttributes`: the service lacks a required pair, or has no value for a
    ///   required key.
    /// - A setting's own error: the service offers less than is required, or another behavior.
    /// - `ExceedsMaxNumberOfNodes`: no further node has room.
    /// - `IsMarkedForDestruction`: the last node has left.
    /// - `HangsInCreation`: the service is being created.
    /// - `ServiceInCorruptedState`: the look finds bytes that are no description, a description of
    ///   another hash, or a storage at fault; or the service's segment isn't there; or the service
    ///   is replaced again and again.
    /// - `InternalFailure`: the storage fails.
    /// - `IncompatibleMessagingPattern`, `InsufficientPermissions`, `OutOfMemory`: as their names
    ///   say.
    pub fn open_with_attributes(
        self,
        verifier: &AttributeVerifier,
        storage: &mut S::Storage,
    ) -> Result<PortFactory<S, Q, QU, R, RU>, RequestResponseOpenError>
        ensures { let messages = messages_for Q.detail QU.detail R.detail RU.detail self.types in
            let caller = request_response_caller S.ServiceNameHasher.hash_of self in
            let opening = request_response_opening self.demand messages.request messages.response verifier.now in
            Joins S.Storage.step storage.old
            (λ word. IsOpenCall opening caller.node caller.hash word result) storage.new }
    {
        let Ok((caller, asked)) = self.into_prepared() else {
            return Err(RequestResponseOpenError::OutOfMemory);
        };
        into_factory(open(&asked, &caller, verifier, storage))
    }

    /// Opens the service, or creates it if there is none, whatever its attributes, as
    /// `open_or_create_with_attributes` does with a verifier that requires none.
    pub fn open_or_create(
        self,
        storage: &mut S::Storage,
    ) -> Result<PortFactory<S, Q, QU, R, RU>, RequestResponseOpenOrCreateError>
        ensures { let messages = messages_for Q.detail QU.detail R.detail RU.detail self.types in
            let call = request_response_call S.ServiceNameHasher.hash_of self messages ToOpenOrCreate
            [] no_requirements in
            Joins S.Storage.step storage.old
            (λ word. IsOpenOrCreateCall call word (map_err request_response_refusal result)) storage.new }
    {
        let verifier = AttributeVerifier::new(self.base.name().allocator());
        self.open_or_create_with_attributes(&verifier, storage)
    }

    /// Opens the service as `open_with_attributes` does. If there is none, creates it as
    /// `create_with_attributes` does, with the required pairs. Required keys are not created. The
    /// types are prepared once.
    ///
    /// Another round follows if an open is refused with `DoesNotExist`, `ServiceInCorruptedState`
    /// or `IsMarkedForDestruction`, or a create with `AlreadyExists`,
    /// `IsBeingCreatedByAnotherInstance` or `ServiceInCorruptedState`. In that round, zeros that
    /// the create raised stay raised. After six such rounds the call is refused with
    /// `SystemInFlux`. Otherwise a `RequestResponseOpenError` tells that there was no memory for
    /// the types, that a look found something wrong or that the service isn't opened, and a
    /// `RequestResponseCreateError` that it isn't created. Each round gives back what it made.
    pub fn open_or_create_with_attributes(
        self,
        verifier: &AttributeVerifier,
        storage: &mut S::Storage,
    ) -> Result<PortFactory<S, Q, QU, R, RU>, RequestResponseOpenOrCreateError>
        ensures { let messages = messages_for Q.detail QU.detail R.detail RU.detail self.types in
            let required = verifier.now in
            let call = request_response_call S.ServiceNameHasher.hash_of self messages ToOpenOrCreate
            required.pairs required in
            Joins S.Storage.step storage.old
            (λ word. IsOpenOrCreateCall call word (map_err request_response_refusal result)) storage.new }
    {
        let Ok((caller, mut asked)) = self.into_prepared() else {
            return Err(RequestResponseOpenOrCreateError::RequestResponseOpenError(
                RequestResponseOpenError::OutOfMemory,
            ));
        };
        match open_or_create(&mut asked, &caller, verifier, storage) {
            Ok(registration) => Ok(PortFactory::new(registration)),
            Err(refusal) => Err(open_or_create_error(refusal)),
        }
    }
}
