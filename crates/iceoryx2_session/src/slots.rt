//! The slots for what a session's factories hold.

ghost use Rattle.std.specs.Prelude.{◌≡◌, ◌<◌, ◌≤◌, slice_set, slice_get, Some, None, MatchBool, replicate, length};
ghost use Rattle.std.specs.Prelude.{take};

use iceoryx2_access::storage::Service;
use iceoryx2_builder::command::SLOTS;
use iceoryx2_rounds::port_factory::Registration;
use iceoryx2_rounds::port_factory::factory::{Kind, PortFactory};
use std::marker::Model;

/// A place for each slot, which may hold the registration of a factory. Slots have to be spent.
pub struct Slots {
    places: [Option<Registration>; SLOTS],
}

impl Model for Slots {
    ghost use Rattle.std.specs.Prelude.{◌≡◌, List, length, Option};
    ghost use Rattle.iceoryx2_access.specs.Registered.{Registered};
    ghost use Rattle.iceoryx2_builder.specs.Commands.{slot_count};

    ghost Value = { List (Option Registered) };

    ghost view = { λ slots. slots.places };

    ghost invariant = { λ slots. length slots.places ≡ slot_count };
}

fn abandon(place: Option<Registration>) {
    match place {
        None => {}
        Some(registration) => registration.abandon(),
    }
}

// Takes the places apart, whatever they hold.
macro_rules! let_go {
    ($places:expr; $($place:ident)*) => {
        let [$($place),*] = $places;
        $(abandon($place);)*
    };
}

fn abandon_all(places: [Option<Registration>; SLOTS]) {
    let_go!(places;
        p0 p1 p2 p3 p4 p5 p6 p7 p8 p9 p10 p11 p12 p13 p14 p15
        p16 p17 p18 p19 p20 p21 p22 p23 p24 p25 p26 p27 p28 p29 p30 p31
        p32 p33 p34 p35 p36 p37 p38 p39 p40 p41 p42 p43 p44 p45 p46 p47
        p48 p49 p50 p51 p52 p53 p54 p55 p56 p57 p58 p59 p60 p61 p62 p63);
}

impl Slots {
    ghost use Rattle.iceoryx2_builder.specs.Commands.{slot_count};
    ghost use Rattle.std.specs.Prelude.{is_some, option_copied};
    ghost use Rattle.iceoryx2_session.specs.Slots.{FreeAt, TakenAt, held_at, tickets_of};

    /// Returns slots that are all free.
    pub fn new() -> Slots
        ensures { result ≡ replicate slot_count None }
    {
        Slots {
            places: Default::default(),
        }
    }

    pub fn is_taken(&self, slot: usize) -> bool
        requires { slot < slot_count }
        ensures { MatchBool result (TakenAt self.now slot) (FreeAt self.now slot) }
    {
        match &self.places[slot] {
            Some(_) => true,
            None => false,
        }
    }

    /// Returns what the slot holds, if there is such a slot.
    pub fn get(&self, slot: usize) -> Option<&Registration>
        ensures value { option_copied result ≡ held_at self.now slot }
        ensures length { length self.now ≡ slot_count }
    {
        match self.places.get(slot) {
            Some(place) => place.as_ref(),
            None => None,
        }
    }

    /// Returns true if there is such a slot and it holds something.
    fn holds(&self, slot: usize) -> bool
        ensures value { result ≡ is_some (held_at self.now slot) }
        ensures length { length self.now ≡ slot_count }
    {
        match self.get(slot) {
            Some(_) => true,
            None => false,
        }
    }

    /// Returns the tickets of the factories that the slots hold, at the front of the array, and
    /// their number.
    pub fn tickets(&self) -> ([u64; SLOTS], usize)
        ensures tickets { take result.1 result.0 ≡ tickets_of self.now }
        ensures count { result.1 ≤ slot_count }
    {
        let mut tickets = [0; SLOTS];
        let mut count = 0;
        for place in &self.places {
            if let Some(registration) = place {
                tickets[count] = registration.ticket();
                count += 1;
            }
        }
        (tickets, count)
    }

    /// Takes what the slot holds. The slot is free then.
    pub fn take(&mut self, slot: usize) -> Option<Registration>
        requires { slot < slot_count }
        ensures value { slice_get self.old slot ≡ Some result }
        ensures after { self.new ≡ slice_set self.old slot None }
    {
        self.places[slot].take()
    }

    /// Takes what the slot holds, if there is such a slot. The slot is free then.
    pub fn remove(&mut self, slot: usize) -> Option<Registration>
        ensures value { result ≡ held_at self.old slot }
        ensures after { self.new ≡ slice_set self.old slot None }
    {
        if self.holds(slot) {
            return self.take(slot);
        }
        None
    }

    /// Puts a registration into a free slot.
    pub fn put(&mut self, slot: usize, registration: Registration)
        requires in_range { slot < slot_count }
        requires free { FreeAt self.old slot }
        ensures after { self.new ≡ slice_set self.old slot (Some registration) }
    {
        abandon(self.places[slot].replace(registration))
    }

    /// Puts a factory into a free slot, and returns its service's number.
    pub fn keep<V: Service, K: Kind>(&mut self, slot: usize, factory: PortFactory<V, K>) -> u64
        requires in_range { slot < slot_count }
        requires free { FreeAt self.old slot }
        ensures number { result ≡ factory.number }
        ensures after { self.new ≡ slice_set self.old slot (Some factory) }
    {
        let number = factory.number();
        self.put(slot, factory.into_registration());
        number
    }

    /// Lets go of the places.
    pub fn destroy(self)
        ensures { length self ≡ slot_count }
    {
        let Slots { places } = self;
        abandon_all(places);
    }
}
