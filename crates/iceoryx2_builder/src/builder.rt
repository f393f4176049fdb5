//! Nodes, and where their builders begin.

ghost use Rattle.std.specs.Prelude.{◌≡◌, ℕ, List, Result};
ghost use Rattle.iceoryx2_attribute.specs.Attributes.{Pair};
ghost use Rattle.iceoryx2_attribute.specs.Requirements.{Requirements};
ghost use Rattle.iceoryx2_builder.specs.Setters.{AreSetters, event_place, publish_subscribe_place, request_response_place};
ghost use Rattle.iceoryx2_builder.specs.Weaker.{AreSomeOf};
ghost use Rattle.iceoryx2_builder.specs.Weaker.{IsWeakerEvent, IsWeakerPublishSubscribe, IsWeakerRequestResponse};
ghost use Rattle.iceoryx2_rounds.specs.Builders.{IsLawfulBuilder};
ghost use Rattle.iceoryx2_rounds.specs.Adjusting.{Accepts, OnlyRaises};
ghost use Rattle.iceoryx2_rounds.specs.Creates.{IsCreateWord};
ghost use Rattle.iceoryx2_rounds.specs.Opens.{IsOpenWord};
ghost use Rattle.iceoryx2_rounds.specs.Prepared.{IsCreateCall, IsOpenCall};
ghost use Rattle.iceoryx2_rounds.specs.BuilderCalls.{Way, ToCreate, ToOpen, ToOpenOrCreate};
ghost use Rattle.iceoryx2_rounds.specs.CallWords.{IsOpenOrCreateCall, IsWordOf, SameWords};
ghost use Rattle.iceoryx2_rounds.specs.EndsAtOnce.{EndsAtOnce};
ghost use Rattle.iceoryx2_rounds.specs.LawfulCalls.{IsLawfulCall};
ghost use Rattle.iceoryx2_rounds.specs.OpenOrCreates.{IsOpenOrCreateWord};
ghost use Rattle.iceoryx2_description.specs.Description.{Description};
ghost use Rattle.iceoryx2_description.specs.Span.{Span};
ghost use Rattle.iceoryx2_description.specs.declared.description.ServiceHash.{ServiceHash};
ghost use Rattle.iceoryx2_description.specs.declared.time.ClockFault.{ClockFault};
ghost use Rattle.iceoryx2_event_builder.specs.Event.{event_adjusted, event_creating, event_meaning, event_opening, event_retried};
ghost use Rattle.iceoryx2_event_builder.specs.Builder.{EventBuilderState, fresh_builder, with_setting as with_event_setting};
ghost use Rattle.iceoryx2_event_builder.specs.EventCalls.{event_call, event_caller};
ghost use Rattle.iceoryx2_event_builder.specs.declared.event.demand.EventDemand.{EventDemand};
ghost use Rattle.iceoryx2_types.specs.Types.{IsCompatible, Message};
ghost use Rattle.iceoryx2_publish_subscribe_builder.specs.PublishSubscribe.{publish_subscribe_creating, publish_subscribe_opening, publish_subscribe_retried};
ghost use Rattle.iceoryx2_publish_subscribe_builder.specs.PublishSubscribe.{publish_subscribe_adjusted as raised_publish_subscribe};
ghost use Rattle.iceoryx2_publish_subscribe_builder.specs.PublishSubscribe.{prepared_meaning as publish_subscribe_meaning, prepared_adjusted as publish_subscribe_adjusted};
ghost use Rattle.iceoryx2_publish_subscribe_builder.specs.PublishSubscribeCalls.{publish_subscribe_call, publish_subscribe_caller};
ghost use Rattle.iceoryx2_publish_subscribe_builder.specs.Builder.{PublishSubscribeBuilderState, fresh_builder as fresh_publish_subscribe, with_setting as with_publish_subscribe_setting};
ghost use Rattle.iceoryx2_publish_subscribe_builder.specs.declared.publish_subscribe.demand.PublishSubscribeDemand.{PublishSubscribeDemand};
ghost use Rattle.iceoryx2_publish_subscribe_builder.specs.declared.publish_subscribe.demand.PreparedDemand.{PreparedDemand as PreparedPublishSubscribe};
ghost use Rattle.iceoryx2_request_response_builder.specs.RequestResponseCalls.{request_response_call, request_response_caller};
ghost use Rattle.iceoryx2_request_response_builder.specs.Builder.{Messages, RequestResponseBuilderState, fresh_builder as fresh_request_response, with_setting as with_request_response_setting};
ghost use Rattle.iceoryx2_request_response_builder.specs.RequestResponse.{request_response_creating, request_response_opening, request_response_retried};
ghost use Rattle.iceoryx2_request_response_builder.specs.RequestResponse.{request_response_adjusted as raised_request_response};
ghost use Rattle.iceoryx2_request_response_builder.specs.RequestResponse.{prepared_meaning as request_response_meaning, prepared_adjusted as request_response_adjusted};
ghost use Rattle.iceoryx2_request_response_builder.specs.declared.request_response.demand.RequestResponseDemand.{RequestResponseDemand};
ghost use Rattle.iceoryx2_request_response_builder.specs.declared.request_response.demand.PreparedDemand.{PreparedDemand as PreparedRequestResponse};
ghost use Rattle.iceoryx2_errors.specs.States.{event_create_error_of_state, event_open_error_of_state};
ghost use Rattle.iceoryx2_errors.specs.States.{publish_subscribe_create_error_of_state, publish_subscribe_open_error_of_state};
ghost use Rattle.iceoryx2_errors.specs.States.{request_response_create_error_of_state, request_response_open_error_of_state};
ghost use Rattle.iceoryx2_errors.specs.declared.error.events.EventOpenError.{EventOpenError};
ghost use Rattle.iceoryx2_errors.specs.declared.error.events.EventCreateError.{EventCreateError};
ghost use Rattle.iceoryx2_errors.specs.declared.error.publish_subscribe.PublishSubscribeOpenError.{PublishSubscribeOpenError};
ghost use Rattle.iceoryx2_errors.specs.declared.error.publish_subscribe.PublishSubscribeCreateError.{PublishSubscribeCreateError};
ghost use Rattle.iceoryx2_errors.specs.declared.error.request_response.RequestResponseOpenError.{RequestResponseOpenError};
ghost use Rattle.iceoryx2_errors.specs.declared.error.request_response.RequestResponseCreateError.{RequestResponseCreateError};
ghost use Rattle.iceoryx2_builder.specs.Looks.{AnswersStates, event_fault_of, publish_subscribe_fault_of, request_response_fault_of};
ghost use Rattle.iceoryx2_errors.specs.Reasons.{event_create_reason, event_open_reason, is_retried};
ghost use Rattle.iceoryx2_errors.specs.Reasons.{publish_subscribe_create_reason, publish_subscribe_open_reason};
ghost use Rattle.iceoryx2_errors.specs.Reasons.{request_response_create_reason, request_response_open_reason};

use iceoryx2_access::storage::Service;
use iceoryx2_description::config::Config;
use iceoryx2_description::description::ServiceName;
pub use iceoryx2_event_builder::event;
pub use iceoryx2_publish_subscribe_builder::publish_subscribe;
pub use iceoryx2_request_response_builder::request_response;
use iceoryx2_rounds::base::BuilderWithServiceType;
use iceoryx2_types::types::{self, ZeroCopySend};
use std::alloc::AllocError;
use std::marker::{Model, PhantomData};

/// A node, which creates and opens services: a number, and the settings that its builders start
/// from.
///
/// The storage counts how often a node uses a service. The node doesn't.
pub struct Node<S: Service> {
    id: u64,
    config: Config,
    service: PhantomData<S>,
}

impl<S: Service> Model for Node<S> {
    ghost use Rattle.iceoryx2_builder.specs.Builder.{NodeFacts};

    ghost Value = { NodeFacts };

    ghost view = { λ node. record { id = node.id; config = node.config } };
}

impl<S: Service> Drop for Node<S> {
    fn drop(self) {
        let Node {
            id: _,
            config: _,
            service: _,
        } = self;
    }
}

impl<S: Service> Node<S> {
    /// Returns a node with this number. Nodes of one storage are told apart by their numbers alone.
    pub fn new(id: u64, config: Config) -> Self
        ensures { result ≡ record { id = id; config = config } }
    {
        Node {
            id,
            config,
            service: PhantomData,
        }
    }

    /// Returns the node's number.
    pub fn id(&self) -> u64
        ensures { result ≡ self.now.id }
    {
        self.id
    }

    /// Returns the settings that the node's builders start from.
    pub fn config(&self) -> &Config
        ensures { result.now ≡ self.now.config }
    {
        &self.config
    }

    /// Returns a builder for the service of this name.
    pub fn service_builder(&self, name: ServiceName) -> Builder<S>
        ensures { result ≡ record { node = self.now.id; config = self.now.config; name = name } }
    {
        Builder {
            base: BuilderWithServiceType::new(self.id, name),
            config: self.config,
        }
    }
}

/// A builder whose pattern is still to be chosen.
pub struct Builder<S: Service> {
    base: BuilderWithServiceType<S>,
    config: Config,
}

impl<S: Service> Model for Builder<S> {
    ghost use Rattle.iceoryx2_builder.specs.Builder.{BuilderFacts};

    ghost Value = { BuilderFacts };

    ghost view = { λ builder. record {
      node = builder.base.node;
      config = builder.config;
      name = builder.base.name;
    } };
}

impl<S: Service> Drop for Builder<S> {
    fn drop(self) {
        let Builder { base: _, config: _ } = self;
    }
}

impl<S: Service> Clone for Builder<S> {
    ghost use Rattle.std.specs.Prelude.{◌≡◌};

    ghost is_clone = { λ builder copy. copy ≡ builder };

    /// Returns `AllocError` if there was no memory for the name.
    fn clone(&self) -> Result<Builder<S>, AllocError> {
        let Builder { base, config } = self;
        Ok(Builder {
            base: base.clone()?,
            config: *config,
        })
    }
}

impl<S: Service> Builder<S> {
    /// Returns a builder of a service of events, with the node's settings. None of them is
    /// required.
    pub fn event(self) -> event::Builder<S>
        ensures { result ≡ fresh_builder self.node self.name self.config.event }
    {
        let Builder { base, config } = self;
        event::Builder::new(base, config.event)
    }

    /// Returns a builder of a service of publish-subscribe, with the node's settings. None of them
    /// is required. The service's messages have this payload and no user header.
    pub fn publish_subscribe<P: ZeroCopySend>(self) -> publish_subscribe::Builder<P, (), S>
        ensures { result ≡ fresh_publish_subscribe self.node self.name self.config.publish_subscribe }
    {
        let Builder { base, config } = self;
        publish_subscribe::Builder::new(base, config.publish_subscribe)
    }

    /// Returns a builder of a service of request-response, with the node's settings. None of them
    /// is required. The service's requests have the payload `Q` and its responses the payload `R`.
    /// Both have no user headers.
    pub fn request_response<Q: ZeroCopySend, R: ZeroCopySend>(
        self,
    ) -> request_response::Builder<Q, (), R, (), S>
        ensures { result ≡ fresh_request_response self.node self.name self.config.request_response }
    {
        let Builder { base, config } = self;
        request_response::Builder::new(base, config.request_response)
    }
}

/// Laws of each builder's setters and of what a builder requires.
///
/// Setters of different settings may come in either order. If two setters set the same setting, the
/// last one counts. Each message is compatible to itself, and compatibility is transitive. What one
/// open accepts, another open that asks no more accepts too. It asks no more if the first open
/// requires each setting that it requires, with a number at least as great or with the same value,
/// if each of its required pairs and keys is one of the first open's, and if its messages are
/// compatible to those of the first open.
pub fn laws()
    ensures event_setters { AreSetters with_event_setting event_place }
    ensures publish_subscribe_setters { AreSetters with_publish_subscribe_setting publish_subscribe_place }
    ensures request_response_setters { AreSetters with_request_response_setting request_response_place }
    ensures reflexive { (message : Message) → IsCompatible message message }
    ensures transitive { (a b c : Message) → IsCompatible a b → IsCompatible b c → IsCompatible a c }
    ensures weaker_events { (weaker stronger : EventDemand) (some all : Requirements) (d : Description)
        → IsWeakerEvent weaker stronger → AreSomeOf some all
        → Accepts (event_opening stronger all) d → Accepts (event_opening weaker some) d }
    ensures weaker_publish_subscribe { (weaker stronger : PublishSubscribeDemand) (message other : Message)
        (some all : Requirements) (d : Description)
        → IsWeakerPublishSubscribe weaker stronger → IsCompatible message other → AreSomeOf some all
        → Accepts (publish_subscribe_opening stronger other all) d
        → Accepts (publish_subscribe_opening weaker message some) d }
    ensures weaker_request_response { (weaker stronger : RequestResponseDemand)
        (request response other_request other_response : Message) (some all : Requirements) (d : Description)
        → IsWeakerRequestResponse weaker stronger
        → IsCompatible request other_request → IsCompatible response other_response → AreSomeOf some all
        → Accepts (request_response_opening stronger other_request other_response all) d
        → Accepts (request_response_opening weaker request response some) d }
{
    types::laws_of_compatibility();
}

/// Laws of the calls of each builder, whatever they ask and whatever the clock says.
///
/// A builder opens what the same builder creates, if the defined pairs meet the attributes that the
/// open requires. With its adjusted settings a create publishes a service that fits the open and
/// meets each setting that the open requires. If a table that nobody else uses refuses a call, an
/// open or create doesn't try again.
pub fn laws_of_calls()
    ensures events { (demand : EventDemand) → IsLawfulBuilder (event_creating demand) (event_opening demand) }
    ensures publish_subscribe { (demand : PublishSubscribeDemand) (message : Message)
        → IsLawfulBuilder (publish_subscribe_creating demand message) (publish_subscribe_opening demand message) }
    ensures request_response { (demand : RequestResponseDemand) (request response : Message) → IsLawfulBuilder
        (request_response_creating demand request response) (request_response_opening demand request response) }
    ensures events_end_at_once { (demand : EventDemand) (defined : List Pair) (required : Requirements)
        → EndsAtOnce event_retried (event_creating demand defined) (event_opening demand required) }
    ensures publish_subscribe_ends_at_once { (demand : PublishSubscribeDemand) (message : Message)
        (defined : List Pair) (required : Requirements) → EndsAtOnce publish_subscribe_retried
        (publish_subscribe_creating demand message defined) (publish_subscribe_opening demand message required) }
    ensures request_response_ends_at_once { (demand : RequestResponseDemand) (request response : Message)
        (defined : List Pair) (required : Requirements) → EndsAtOnce request_response_retried
        (request_response_creating demand request response defined)
        (request_response_opening demand request response required) }
{
    event::opens_what_it_creates();
    publish_subscribe::opens_what_it_creates();
    request_response::opens_what_it_creates();
    event::ends_at_once();
    publish_subscribe::ends_at_once();
    request_response::ends_at_once();
}

/// A create's adjustments only raise minima.
///
/// A demand asks no more than the demand that a create makes of it. So a service that is accepted
/// with the adjusted settings is accepted as it was asked too. Adjusting twice is the same as
/// adjusting once.
pub fn laws_of_adjusting()
    ensures events_ask_no_more { (demand : EventDemand) → IsWeakerEvent demand (event_adjusted demand) }
    ensures publish_subscribe_asks_no_more { (demand : PublishSubscribeDemand)
        → IsWeakerPublishSubscribe demand (raised_publish_subscribe demand) }
    ensures request_response_asks_no_more { (demand : RequestResponseDemand)
        → IsWeakerRequestResponse demand (raised_request_response demand) }
    ensures events_only_raise { OnlyRaises event_meaning event_adjusted }
    ensures publish_subscribe_only_raises { OnlyRaises publish_subscribe_meaning publish_subscribe_adjusted }
    ensures request_response_only_raises { OnlyRaises request_response_meaning request_response_adjusted }
{
    types::laws_of_compatibility();
}

/// The laws over whole calls apply to each call of a builder, whichever of its three it is. Its
/// create publishes for one node or more and only raises minima. An open with the same settings and
/// types that requires no attributes takes what the create publishes. If a table that nobody else
/// uses refuses a call, an open or create doesn't try again. The words of which those laws speak
/// are those of the builder's own clauses: a create's, an open's, and an open or create's.
pub fn lawful_calls()
    ensures events { (hash_of : ℕ → List ℕ → ServiceHash) (b : EventBuilderState) (way : Way)
        (defined : List Pair) (required : Requirements) (now : Result Span ClockFault)
        → IsLawfulCall (event_call hash_of b way defined required now) }
    ensures publish_subscribe { (hash_of : ℕ → List ℕ → ServiceHash) (b : PublishSubscribeBuilderState)
        (message : Message) (way : Way) (defined : List Pair) (required : Requirements)
        → IsLawfulCall (publish_subscribe_call hash_of b message way defined required) }
    ensures request_response { (hash_of : ℕ → List ℕ → ServiceHash) (b : RequestResponseBuilderState)
        (messages : Messages) (way : Way) (defined : List Pair) (required : Requirements)
        → IsLawfulCall (request_response_call hash_of b messages way defined required) }
    ensures event_words { (hash_of : ℕ → List ℕ → ServiceHash) (b : EventBuilderState)
        (defined : List Pair) (required : Requirements) (now : Result Span ClockFault)
        → let caller = event_caller hash_of b now in
        let either = event_call hash_of b ToOpenOrCreate defined required now in
        SameWords (IsCreateWord (event_creating b.demand defined) caller)
        (IsWordOf (event_call hash_of b ToCreate defined required now))
        × SameWords (IsOpenWord (event_opening b.demand required) caller.node caller.hash)
        (IsWordOf (event_call hash_of b ToOpen defined required now))
        × SameWords (IsOpenOrCreateWord either) (IsWordOf either) }
    ensures publish_subscribe_words { (hash_of : ℕ → List ℕ → ServiceHash) (b : PublishSubscribeBuilderState)
        (message : Message) (defined : List Pair) (required : Requirements)
        → let caller = publish_subscribe_caller hash_of b in
        let either = publish_subscribe_call hash_of b message ToOpenOrCreate defined required in
        SameWords (IsCreateCall (publish_subscribe_creating b.demand message defined) caller)
        (IsWordOf (publish_subscribe_call hash_of b message ToCreate defined required))
        × SameWords (IsOpenCall (publish_subscribe_opening b.demand message required) caller.node caller.hash)
        (IsWordOf (publish_subscribe_call hash_of b message ToOpen defined required))
        × SameWords (IsOpenOrCreateCall either) (IsWordOf either) }
    ensures request_response_words { (hash_of : ℕ → List ℕ → ServiceHash) (b : RequestResponseBuilderState)
        (messages : Messages) (defined : List Pair) (required : Requirements)
        → let caller = request_response_caller hash_of b in
        let creating = request_response_creating b.demand messages.request messages.response defined in
        let opening = request_response_opening b.demand messages.request messages.response required in
        let either = request_response_call hash_of b messages ToOpenOrCreate defined required in
        SameWords (IsCreateCall creating caller)
        (IsWordOf (request_response_call hash_of b messages ToCreate defined required))
        × SameWords (IsOpenCall opening caller.node caller.hash)
        (IsWordOf (request_response_call hash_of b messages ToOpen defined required))
        × SameWords (IsOpenOrCreateCall either) (IsWordOf either) }
{}

/// The answer of a call if its look finds something wrong.
///
/// Each fault that a look of the rounds finds has a public state, a `ServiceState` or one of the
/// pattern's `ServiceAvailabilityState`. `From` turns this state into an open error and into a
/// create error. An open answers the first and a create the second.
pub fn laws_of_looks()
    ensures events { (demand : EventDemand) → AnswersStates (event_meaning demand)
        event_fault_of event_open_error_of_state event_create_error_of_state }
    ensures publish_subscribe { (asked : PreparedPublishSubscribe) → AnswersStates (publish_subscribe_meaning asked)
        publish_subscribe_fault_of publish_subscribe_open_error_of_state publish_subscribe_create_error_of_state }
    ensures request_response { (asked : PreparedRequestResponse) → AnswersStates (request_response_meaning asked)
        request_response_fault_of request_response_open_error_of_state request_response_create_error_of_state }
{}

/// The errors after which an open or create goes on to the next round: those whose reason is
/// retried, of each open and each create.
///
/// It goes on if the open of a round answers `DoesNotExist`, `ServiceInCorruptedState` or
/// `IsMarkedForDestruction`, or if its create answers `AlreadyExists`,
/// `IsBeingCreatedByAnotherInstance` or `ServiceInCorruptedState`. Any other error ends the call.
pub fn laws_of_retries()
    ensures event_opens { (error : EventOpenError)
        → event_retried.of_open error ≡ is_retried (event_open_reason error) }
    ensures event_creates { (error : EventCreateError)
        → event_retried.of_create error ≡ is_retried (event_create_reason error) }
    ensures publish_subscribe_opens { (error : PublishSubscribeOpenError)
        → publish_subscribe_retried.of_open error ≡ is_retried (publish_subscribe_open_reason error) }
    ensures publish_subscribe_creates { (error : PublishSubscribeCreateError)
        → publish_subscribe_retried.of_create error ≡ is_retried (publish_subscribe_create_reason error) }
    ensures request_response_opens { (error : RequestResponseOpenError)
        → request_response_retried.of_open error ≡ is_retried (request_response_open_reason error) }
    ensures request_response_creates { (error : RequestResponseCreateError)
        → request_response_retried.of_create error ≡ is_retried (request_response_create_reason error) }
{}
