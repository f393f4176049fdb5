//! The promise of each builder's calls, with nothing asked of the builder.

ghost use Rattle.std.specs.Prelude.{ℕ, List, Result};
ghost use Rattle.iceoryx2_attribute.specs.Attributes.{Pair};
ghost use Rattle.iceoryx2_attribute.specs.Requirements.{Requirements};
ghost use Rattle.iceoryx2_types.specs.Types.{Message};
ghost use Rattle.iceoryx2_description.specs.Span.{Span};
ghost use Rattle.iceoryx2_description.specs.declared.description.ServiceHash.{ServiceHash};
ghost use Rattle.iceoryx2_description.specs.declared.time.ClockFault.{ClockFault};
ghost use Rattle.iceoryx2_rounds.specs.BuilderCalls.{Way};
ghost use Rattle.iceoryx2_event_builder.specs.Builder.{EventBuilderState};
ghost use Rattle.iceoryx2_event_builder.specs.EventCalls.{event_call};
ghost use Rattle.iceoryx2_publish_subscribe_builder.specs.Builder.{PublishSubscribeBuilderState};
ghost use Rattle.iceoryx2_publish_subscribe_builder.specs.PublishSubscribeCalls.{publish_subscribe_call};
ghost use Rattle.iceoryx2_request_response_builder.specs.Builder.{Messages, RequestResponseBuilderState};
ghost use Rattle.iceoryx2_request_response_builder.specs.RequestResponseCalls.{request_response_call};
ghost use Rattle.iceoryx2_call_laws.specs.OpensAgain.{OpensAgain};
ghost use Rattle.iceoryx2_call_laws.specs.Promise.{Promise};
ghost use Rattle.iceoryx2_log.specs.declared.entry.Entry.{Entry};
ghost use Rattle.iceoryx2_service.specs.OverLogs.{PromiseOverLog};
ghost use Rattle.iceoryx2_service.specs.SharedSlots.{HoldsOneDescription, FewHold};
ghost use Rattle.iceoryx2_service.specs.SharedSlots.{HoldsOneAcross, FewHoldAcross};

use iceoryx2_log::log::Log;

/// The promise of every call of each builder: any of its three, with any hasher, any settings and
/// types, any attributes, and whatever the clock says.
///
/// A call is within fixed counts over a table, over a storage that refuses chosen accesses of a
/// table, and over any world. Over a world this holds whatever others do between the call's
/// accesses and whichever of these a fault refuses. After each of its accesses each open factory is
/// open, whatever steps peers take. So is the factory that the call gave, until its own ticket is
/// released. That factory meets what the builder was asked, or holds its adjusted settings and
/// attributes. If other nodes act too, this holds for own nodes' factories, the caller's among
/// them.
pub fn promise_of_builders()
    ensures events { (hash_of : ℕ → List ℕ → ServiceHash) (b : EventBuilderState) (way : Way)
        (defined : List Pair) (required : Requirements) (now : Result Span ClockFault)
        → Promise (event_call hash_of b way defined required now) }
    ensures publish_subscribe { (hash_of : ℕ → List ℕ → ServiceHash) (b : PublishSubscribeBuilderState)
        (message : Message) (way : Way) (defined : List Pair) (required : Requirements)
        → Promise (publish_subscribe_call hash_of b message way defined required) }
    ensures request_response { (hash_of : ℕ → List ℕ → ServiceHash) (b : RequestResponseBuilderState)
        (messages : Messages) (way : Way) (defined : List Pair) (required : Requirements)
        → Promise (request_response_call hash_of b messages way defined required) }
{}

/// The promise over a log that processes share: for any log and whatever stands in it, of every call of each builder in
/// the name of an own node.
///
/// For every builder and every sequence of answers of the log, such a call is within fixed counts
/// and answers what its word determines. Other processes may append between its accesses, and any
/// access may be refused. After each of its accesses, every open factory of an own node carries its
/// hash's one published description, its node is among at most `max_nodes`, and its segment stays,
/// until its own ticket is released. The factory that the call gave meets what the builder was
/// asked, or holds its adjusted settings and attributes.
pub fn promise_over_logs<L: Log>()
    ensures events { (nodes : List ℕ) (hash_of : ℕ → List ℕ → ServiceHash) (b : EventBuilderState) (way : Way)
        (defined : List Pair) (required : Requirements) (now : Result Span ClockFault)
        → PromiseOverLog L.contents L.held nodes (event_call hash_of b way defined required now) }
    ensures publish_subscribe { (nodes : List ℕ) (hash_of : ℕ → List ℕ → ServiceHash)
        (b : PublishSubscribeBuilderState) (message : Message) (way : Way)
        (defined : List Pair) (required : Requirements)
        → PromiseOverLog L.contents L.held nodes (publish_subscribe_call hash_of b message way defined required) }
    ensures request_response { (nodes : List ℕ) (hash_of : ℕ → List ℕ → ServiceHash)
        (b : RequestResponseBuilderState) (messages : Messages) (way : Way)
        (defined : List Pair) (required : Requirements)
        → PromiseOverLog L.contents L.held nodes (request_response_call hash_of b messages way defined required) }
{}

/// Laws of what sessions hold together if their processes share a log, however many there are.
///
/// The premise is that each journal has read a prefix of one list of known entries, and that each
/// slot's factory is of an own node and stands. A factory stands so after each command of an own
/// node. A file's entries are never known.
pub fn sessions_over_logs<L: Log>()
    // In all slots factories of one service and number carry one description.
    ensures one { (counter : ℕ) (entries : List Entry) → HoldsOneDescription L.contents counter entries }

    // Where a node is one process's, no more nodes hold any of these than their description allows.
    ensures few { (counter : ℕ) (entries : List Entry) → FewHold L.contents counter entries }

    // Both hold over any number of compactions, where one's process has read more than those of the others.
    ensures one_across { HoldsOneAcross L.contents }
    ensures few_across { FewHoldAcross L.contents }
{}

/// An open takes what any of a builder's three calls has given, if the open has the same settings
/// and types. This holds over a table that nobody else uses, whichever node calls.
///
/// It holds while the factory stands, or another node's factory that carries the same, with a place
/// for the node and a number left. The open is then Ok or out of memory, whatever attributes it
/// requires that are met by those of what is carried. So a service that was created with attributes
/// is opened by each node that requires none, or some of them.
pub fn opens_again()
    ensures events { (hash_of : ℕ → List ℕ → ServiceHash) (b : EventBuilderState) (way : Way)
        (defined : List Pair) (required : Requirements) (now : Result Span ClockFault)
        → OpensAgain (event_call hash_of b way defined required now) }
    ensures publish_subscribe { (hash_of : ℕ → List ℕ → ServiceHash) (b : PublishSubscribeBuilderState)
        (message : Message) (way : Way) (defined : List Pair) (required : Requirements)
        → OpensAgain (publish_subscribe_call hash_of b message way defined required) }
    ensures request_response { (hash_of : ℕ → List ℕ → ServiceHash) (b : RequestResponseBuilderState)
        (messages : Messages) (way : Way) (defined : List Pair) (required : Requirements)
        → OpensAgain (request_response_call hash_of b messages way defined required) }
{}
