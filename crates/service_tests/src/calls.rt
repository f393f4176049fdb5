//! Builders, and what their calls answer in the words of cases.

pub use crate::support::{assert_same, drop_table, granted, name, there};
use iceoryx2_access::storage::Service;
use iceoryx2_builder::builder::{Builder, Node};
pub use iceoryx2_builder::command::How;
use iceoryx2_builder::command::Reply;
use iceoryx2_description::config::Config;
use iceoryx2_description::time::Time;
use iceoryx2_table::local::Local;
use iceoryx2_table::table::Table;
use negotiate_serve::reply::describe;
use std::alloc::Global;
use std::process::Abort;
use test_support::calls::{Called, Calls, plainly};
use test_support::terms::write_factory;

/// A service over a storage that a test makes. A function over any of these names few types, so it is proved in a part of
/// the time that one over a table takes.
pub trait Tried: Service {
    /// Makes a storage in which nothing is.
    fn new_storage(alloc: Global) -> Self::Storage;

    /// Lets a storage go.
    fn drop_storage(storage: Self::Storage);
}

impl Tried for Local {
    fn new_storage(alloc: Global) -> Table {
        Table::new(alloc)
    }

    fn drop_storage(storage: Table) {
        drop_table(storage)
    }
}

/// The builder of a node for a service, whose pattern is to be chosen.
pub fn begun<S: Service>(rt: &impl Abort, alloc: Global, node: u64, text: &str) -> Builder<S> {
    let node = Node::<S>::new(node, Config::default());
    node.service_builder(name(rt, alloc, text))
}

/// What a call answers: `number=0 NAME creator=N [TERM ..]`, or the refusal's text. What it gives is let go without an access.
pub fn answer_of(rt: &impl Abort, alloc: Global, called: Called) -> String {
    let mut text = String::new(alloc);
    match called {
        Ok(registration) => {
            let (number, description) = (registration.number(), registration.description());
            granted(rt, write_factory(number, description, &mut text));
            registration.abandon();
        }
        Err(refusal) => granted(rt, describe(&Reply::Refused(refusal), 0, &mut text)),
    }
    text
}

/// What a builder's call answers at a storage, at time zero.
pub fn answered<S: Service, B: Calls<S>>(
    rt: &impl Abort,
    alloc: Global,
    (builder, how): (B, How),
    storage: &mut S::Storage,
) -> String {
    let called = builder.call(plainly(how), Ok(Time::default()), storage);
    answer_of(rt, alloc, called)
}

/// Ends a test that finds another answer than it wants.
pub fn assert_answer(rt: &impl Abort, found: &str, wanted: &str) {
    assert_same(rt, found.trim_end(), wanted);
}
