//! Calls and closes over any storage, with places for what they open: a few lines, written from the terms of a
//! session's commands.

use crate::calls::{Ask, Called, Calls, Now, messages, requests};
use iceoryx2_access::storage::{Service, Storage};
use iceoryx2_attribute::attribute::{AttributeSpecifier, AttributeVerifier};
use iceoryx2_builder::builder::Node;
use iceoryx2_builder::command::{Call, How, Reply, SLOTS, Settings};
use iceoryx2_description::config::Config;
use iceoryx2_description::description::StaticConfig;
use iceoryx2_rounds::port_factory::{CloseError, Registration};
use std::alloc::{AllocError, Global};

/// A factory in its place. Where it is let go, its ticket stays.
struct Kept {
    registration: Registration,
}

impl Drop for Kept {
    fn drop(self) {
        let Kept { registration } = self;
        registration.abandon();
    }
}

impl Kept {
    /// Closes it. What isn't released comes back.
    fn close<S: Storage>(self, storage: &mut S) -> (Closing, Option<Kept>) {
        let Kept { registration } = self;
        match registration.close(storage) {
            Ok(()) => (Closing::Whole, None),
            Err(CloseError::NotHere(registration)) => (Closing::Kept, Some(Kept { registration })),
            Err(CloseError::TagNotRemoved) => (Closing::Partial("TagNotRemoved"), None),
            Err(CloseError::SegmentNotRemoved) => (Closing::Partial("SegmentNotRemoved"), None),
            Err(CloseError::DescriptionNotRemoved) => {
                (Closing::Partial("DescriptionNotRemoved"), None)
            }
        }
    }
}

/// A place for each slot.
#[derive(Drop)]
pub struct Places {
    all: Vec<Option<Kept>>,
}

/// What became of a close.
#[derive(Drop)]
pub enum Closing {
    /// There is no such slot, or nothing in it.
    None(Reply),
    /// All was removed.
    Whole,
    /// It was released, and something was not removed: the name of the error that says what.
    Partial(&'static str),
    /// It wasn't released.
    Kept,
}

/// What a builder's call is answered. A create defines the required pairs.
fn asked<S: Service, C: Calls<S>>(
    builder: C,
    (how, now): (How, Now),
    attributes: AttributeVerifier,
    storage: &mut S::Storage,
) -> Called {
    match how {
        How::Create => {
            let specifier = AttributeSpecifier::from(attributes.into_required_attributes());
            builder.call(Ask::Create(Some(&specifier)), now, storage)
        }
        How::Open => builder.call(Ask::Open(Some(&attributes)), now, storage),
        How::OpenOrCreate => builder.call(Ask::OpenOrCreate(Some(&attributes)), now, storage),
    }
}

/// The builder after each of the setters.
macro_rules! with_all {
    ($builder:expr, $settings:expr) => {{
        let mut builder = $builder;
        for setting in $settings {
            builder = builder.with(setting);
        }
        builder
    }};
}

/// What a call is answered at a storage. Its node has the default configuration.
fn called<S: Service>(call: Call, storage: &mut S::Storage) -> Called {
    let builder = Node::<S>::new(call.node, Config::default()).service_builder(call.name);
    let (asked_how, attributes) = ((call.how, call.now), call.attributes);
    match call.settings {
        Settings::Event(all) => {
            asked::<S, _>(
                with_all!(builder.event(), all),
                asked_how,
                attributes,
                storage,
            )
        }
        Settings::PublishSubscribe(all) => {
            let builder = with_all!(messages::<S>(builder), all);
            asked::<S, _>(builder, asked_how, attributes, storage)
        }
        Settings::RequestResponse(all) => {
            let builder = with_all!(requests::<S>(builder), all);
            asked::<S, _>(builder, asked_how, attributes, storage)
        }
    }
}

impl Places {
    /// Places that are all free.
    pub fn new(alloc: Global) -> Result<Places, AllocError> {
        let mut all = Vec::new(alloc);
        for _ in 0..SLOTS {
            all.push(None)?;
        }
        Ok(Places { all })
    }

    /// Why nothing may be put into a slot.
    fn refusal_of(&self, slot: usize) -> Option<Reply> {
        match self.all.get(slot) {
            Some(None) => None,
            Some(Some(_)) => Some(Reply::SlotInUse),
            None => Some(Reply::NoSuchSlot),
        }
    }

    /// Puts a factory into a slot.
    fn put(&mut self, slot: usize, registration: Registration) {
        let kept = Some(Kept { registration });
        if let Some(place) = self.all.get_mut(slot) {
            *place = kept;
        }
    }

    /// Carries out a call.
    pub fn call<S: Service>(&mut self, call: Call, storage: &mut S::Storage) -> Reply {
        let slot = call.slot;
        if let Some(refusal) = self.refusal_of(slot) {
            return refusal;
        }
        match called::<S>(call, storage) {
            Ok(registration) => {
                let number = registration.number();
                self.put(slot, registration);
                Reply::Opened { slot, number }
            }
            Err(refusal) => Reply::Refused(refusal),
        }
    }

    /// Closes the factory of a slot. Its place is free then, unless it wasn't released.
    pub fn close<S: Storage>(&mut self, slot: usize, storage: &mut S) -> Closing {
        let Some(place) = self.all.get_mut(slot) else {
            return Closing::None(Reply::NoSuchSlot);
        };
        match place.take() {
            Some(kept) => {
                let (closing, back) = kept.close(storage);
                *place = back;
                closing
            }
            None => Closing::None(Reply::SlotEmpty),
        }
    }

    /// Abandons the factory of a slot: it is let go, and its ticket stays. Gives why there is none, where there is none.
    pub fn abandon(&mut self, slot: usize) -> Option<Reply> {
        let Some(place) = self.all.get_mut(slot) else {
            return Some(Reply::NoSuchSlot);
        };
        match place.take() {
            Some(_kept) => None,
            None => Some(Reply::SlotEmpty),
        }
    }

    /// The number and the description of the factory in a slot.
    pub fn factory(&self, slot: usize) -> Option<(u64, &StaticConfig)> {
        match self.all.get(slot) {
            Some(Some(kept)) => Some((kept.registration.number(), kept.registration.description())),
            _ => None,
        }
    }
}
