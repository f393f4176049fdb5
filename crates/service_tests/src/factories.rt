//! Factories, nodes with their configurations, and copies of builders.

use crate::calls::*;
use crate::support::hash_of;
use crate::types::detail;
use iceoryx2_access::storage::Service;
use iceoryx2_attribute::attribute::{AttributeSet, AttributeSpecifier, AttributeVerifier};
use iceoryx2_builder::builder::Node;
use iceoryx2_builder::builder::event::{self, EventId};
use iceoryx2_description::config::Config;
use iceoryx2_description::time::{Duration, Time};
use iceoryx2_rounds::port_factory::factory::{Kind, PortFactory};
use iceoryx2_table::local::Local;
use iceoryx2_types::types::Alignment;
use iceoryx2_types::types::TypeVariant::{Dynamic, FixedSize};
use std::alloc::Global;
use std::process::Abort;
use test_support::calls::{Calls, MessageBuilder, RequestBuilder, messages, plainly, requests};

/// The number, the node and the creator of a factory, and whether it has the hash of its name behind this prefix.
type Identity = (u64, u64, Option<u64>, bool);

/// Those of a factory, which is let go.
fn identity<S: Service, K: Kind>(factory: PortFactory<S, K>, prefix: u8) -> Identity {
    let has_hash = *factory.service_hash() == hash_of(prefix, factory.name());
    let found = (
        factory.number(),
        factory.node(),
        factory.creator(),
        has_hash,
    );
    factory.abandon();
    found
}

/// Those of the factories of two services that node 3 creates, and of one that node 4 opens.
fn identities<S: Tried>(rt: &impl Abort, alloc: Global) -> [Identity; 3] {
    let mut storage = S::new_storage(alloc);
    let builder = messages::<S>(begun(rt, alloc, 3, "xample"));
    let published = identity(granted(rt, builder.create(&mut storage)), b'p');
    let builder = requests::<S>(begun(rt, alloc, 3, "oot"));
    let requested = identity(granted(rt, builder.create(&mut storage)), b'r');
    let builder = messages::<S>(begun(rt, alloc, 4, "xample"));
    let opened = identity(granted(rt, builder.open(&mut storage)), b'p');
    S::drop_storage(storage);
    [published, requested, opened]
}

#[test]
fn factories_tell_who_created_their_service(rt: HostRuntime) {
    let wanted = [
        (0, 3, Some(3), true),
        (1, 3, Some(3), true),
        (0, 4, Some(3), true),
    ];
    assert_same(&rt, identities::<Local>(&rt, rt.alloc()), wanted);
}

/// A configuration for 5 nodes, with a deadline of 2 seconds and 5 nanoseconds, and three events.
fn with_every_option() -> Config {
    let mut config = Config::default();
    config.event.max_nodes = 5;
    config.event.deadline = Duration::new(2, 5);
    config.event.notifier_created_event = Some(EventId::new(u64::MAX));
    config.event.notifier_dropped_event = Some(EventId::new(1 << 40));
    config.event.notifier_dead_event = Some(EventId::new(7));
    config.publish_subscribe.max_nodes = 4;
    config.request_response.max_nodes = 6;
    config
}

/// What that node creates.
const CONFIGURED: [&str; 3] = [
    "number=0 xample creator=3 max_nodes=5 notifier_created_event=18446744073709551615 notifier_dropped_event=1099511627776 notifier_dead_event=7 deadline=2,5 now=7,9",
    "number=1 xample creator=3 max_nodes=4",
    "number=2 xample creator=3 max_nodes=6",
];

/// What a node and a copy of its builder create, in each pattern.
fn created_by_options<S: Tried>(rt: &impl Abort, alloc: Global) -> [String; 3] {
    let node = Node::<S>::new(3, with_every_option());
    assert_same(rt, (node.id(), *node.config()), (3, with_every_option()));
    let builder = node.service_builder(name(rt, alloc, "xample"));
    let published = messages::<S>(granted(rt, builder.clone()));
    let requested = requests::<S>(granted(rt, builder.clone()));
    let mut storage = S::new_storage(alloc);
    let now = Ok(there(rt, Time::new(7, 9)));
    let called = builder
        .event()
        .call(plainly(How::Create), now, &mut storage);
    let answers = [
        answer_of(rt, alloc, called),
        answered::<S, _>(rt, alloc, (published, How::Create), &mut storage),
        answered::<S, _>(rt, alloc, (requested, How::Create), &mut storage),
    ];
    S::drop_storage(storage);
    answers
}

// A copy of its builder, whose pattern is chosen after the copy, has the same configuration.
#[test]
fn a_node_and_a_copy_of_its_builder_create_by_its_configuration(rt: HostRuntime) {
    let answers = created_by_options::<Local>(&rt, rt.alloc());
    for (found, wanted) in answers.iter().zip(CONFIGURED) {
        assert_answer(&rt, found.as_str(), wanted);
    }
}

/// Ends a test where a builder creates something else than this, or its copy does over another table, or a second copy
/// opens something else of the first.
fn assert_copies<S: Tried, B: Calls<S> + Clone>(
    rt: &impl Abort,
    alloc: Global,
    builder: B,
    wanted: &str,
) {
    let (first, second) = (granted(rt, builder.clone()), granted(rt, builder.clone()));
    let (mut storage, mut other) = (S::new_storage(alloc), S::new_storage(alloc));
    let answers = [
        answered::<S, _>(rt, alloc, (builder, How::Create), &mut storage),
        answered::<S, _>(rt, alloc, (first, How::Create), &mut other),
        answered::<S, _>(rt, alloc, (second, How::Open), &mut storage),
    ];
    S::drop_storage(storage);
    S::drop_storage(other);
    for found in &answers {
        assert_answer(rt, found.as_str(), wanted);
    }
}

/// A builder of events for five nodes.
fn of_events<S: Service>(rt: &impl Abort, alloc: Global) -> event::Builder<S> {
    begun::<S>(rt, alloc, 1, "a")
        .event()
        .max_nodes(5)
        .notifier_dead_event(EventId::new(3))
}

/// One of publish-subscribe, with a type.
fn of_messages<S: Service>(rt: &impl Abort, alloc: Global) -> MessageBuilder<S> {
    messages::<S>(begun(rt, alloc, 1, "a"))
        .max_nodes(5)
        .internal_set_payload_type_details(detail(rt, alloc, (FixedSize, "Img", 24, 8)))
        .payload_alignment(there(rt, Alignment::new(64)))
}

/// One of request-response, with two types.
fn of_requests<S: Service>(rt: &impl Abort, alloc: Global) -> RequestBuilder<S> {
    requests::<S>(begun(rt, alloc, 1, "a"))
        .max_nodes(5)
        .internal_set_request_payload_type_details(detail(rt, alloc, (FixedSize, "Img", 24, 8)))
        .internal_set_response_payload_type_details(detail(rt, alloc, (Dynamic, "Img", 24, 8)))
        .response_payload_alignment(there(rt, Alignment::new(64)))
}

/// Ends a test where a copy of a builder opens something else than its source created.
fn assert_copies_open<S: Tried>(rt: &impl Abort, alloc: Global) {
    let wanted = "number=0 a creator=1 max_nodes=5 notifier_dead_event=3";
    assert_copies::<S, _>(rt, alloc, of_events::<S>(rt, alloc), wanted);
    let wanted = "number=0 a creator=1 max_nodes=5 payload=fixed,Img,24,64";
    assert_copies::<S, _>(rt, alloc, of_messages::<S>(rt, alloc), wanted);
    let wanted =
        "number=0 a creator=1 max_nodes=5 request_payload=fixed,Img,24,8 response_payload=dynamic,Img,24,64";
    assert_copies::<S, _>(rt, alloc, of_requests::<S>(rt, alloc), wanted);
}

#[test]
fn a_copy_opens_what_its_source_created(rt: HostRuntime) {
    assert_copies_open::<Local>(&rt, rt.alloc());
}

/// What a copy of the builder of events is answered at a service for four nodes.
fn refused_copy<S: Tried>(rt: &impl Abort, alloc: Global) -> String {
    let copy = granted(rt, of_events::<S>(rt, alloc).clone());
    let mut storage = S::new_storage(alloc);
    let for_four = begun::<S>(rt, alloc, 1, "a").event().max_nodes(4);
    let _created = answered::<S, _>(rt, alloc, (for_four, How::Create), &mut storage);
    let found = answered::<S, _>(rt, alloc, (copy, How::Open), &mut storage);
    S::drop_storage(storage);
    found
}

#[test]
fn a_copy_requires_what_its_source_requires(rt: HostRuntime) {
    let wanted = "EventOpenError::DoesNotSupportRequestedAmountOfNodes";
    let found = refused_copy::<Local>(&rt, rt.alloc());
    assert_answer(&rt, found.as_str(), wanted);
}

#[test]
fn a_copy_of_attributes_equals_its_source_and_stays(rt: HostRuntime) {
    let mut specifier = AttributeSpecifier::new(rt.alloc());
    granted(&rt, specifier.define("a", "1"));
    let copy = granted(&rt, specifier.attributes().clone());
    assert_same(&rt, copy == *specifier.attributes(), true);
    granted(&rt, specifier.define("b", "2"));
    assert_same(&rt, (copy.len(), specifier.attributes().len()), (1, 2));
}

/// The first key that a verifier misses among attributes, or an empty text.
fn missing<'a>(verifier: &'a AttributeVerifier, set: &AttributeSet) -> &'a str {
    match verifier.verify_requirements(set) {
        Ok(()) => "",
        Err(key) => key,
    }
}

#[test]
fn a_copy_of_what_is_required_finds_the_same_and_changes_alone(rt: HostRuntime) {
    let none = AttributeSet::new(rt.alloc());
    let mut pairs = AttributeSpecifier::new(rt.alloc());
    granted(&rt, pairs.define("a", "1"));
    let mut verifier = AttributeVerifier::new(rt.alloc());
    granted(&rt, verifier.require("a", "1"));
    let mut copy = granted(&rt, verifier.clone());
    assert_same(&rt, missing(&copy, &none), "a");
    assert_same(&rt, missing(&copy, pairs.attributes()), "");
    granted(&rt, copy.require_key("b"));
    assert_same(&rt, missing(&copy, pairs.attributes()), "b");
    assert_same(&rt, missing(&verifier, pairs.attributes()), "");
}
