//! Commands over a storage that shows a world, or a table, with slots for what they open.

ghost use Rattle.std.specs.Prelude.{◌≡◌, ◌<◌, ℕ, false, IfOk, OnErr, OnOk, replicate, slice_set, None, []};
ghost use Rattle.iceoryx2_table.specs.Holdings.{IsHolding};
ghost use Rattle.iceoryx2_session.specs.Patterns.{builder_call};
ghost use Rattle.iceoryx2_session.specs.Sessions.{ClosesSlotBy, OpensBy};
ghost use Rattle.iceoryx2_session.specs.Slots.{FreeAt};
ghost use Rattle.iceoryx2_builder.specs.Commands.{slot_count};

use crate::resuming::Resuming;
use crate::slots::Slots;
use crate::table_storage::{ServiceOver, TableStorage};
use crate::world_storage::WorldStorage;
use crate::{calling, closing};
use iceoryx2_access::storage::Storage;
use iceoryx2_builder::builder::{self, event};
use iceoryx2_builder::command::{Call, Command, Refusal, Reply, SLOTS, Settings};
use iceoryx2_description::config::Config;
use iceoryx2_journal::cleaning::{CleanError, Cleaned};
use iceoryx2_rounds::base::BuilderWithServiceType;
use iceoryx2_rounds::port_factory::Registration;
use iceoryx2_table::table::Table;
use iceoryx2_types::types::CustomHeaderMarker;
use std::alloc::AllocError;
use std::mem;

/// A storage that shows a world, and 64 slots for the factories that commands open over it. It has
/// to be spent by `close_all`, or by `finish` if the storage shows a table.
pub struct Session<S> {
    config: Config,
    storage: S,
    slots: Slots,
}

/// A session over a table itself.
pub type TableSession = Session<Table>;

/// Makes the builder call of a command, whose slot is free. The slot then holds what is opened, and
/// the answer is its number. The builder starts with the settings of its own pattern alone, so the
/// settings of the others aren't copied.
fn build<S: Storage>(
    config: &Config,
    call: Call,
    storage: &mut S,
    slots: &mut Slots,
) -> Result<u64, Refusal>
    requires in_range { call.slot < slot_count }
    requires free { FreeAt slots.old call.slot }
    ensures { OpensBy S.step (builder_call config.now call) storage.old slots.old call.slot
        result storage.new slots.new }
{
    let Call {
        how,
        node,
        slot,
        name,
        settings,
        attributes,
        now,
    } = call;
    let base = BuilderWithServiceType::<ServiceOver<S>>::new(node, name);
    match settings {
        Settings::Event(settings) => {
            let builder = event::Builder::new(base, config.event);
            calling::call(
                builder, settings, attributes, how, now, storage, slots, slot,
            )
        }
        Settings::PublishSubscribe(settings) => {
            let builder = builder::publish_subscribe::Builder::new(
                base,
                config.publish_subscribe,
            ).user_header::<CustomHeaderMarker>();
            calling::call(
                builder, settings, attributes, how, now, storage, slots, slot,
            )
        }
        Settings::RequestResponse(settings) => {
            let builder = builder::request_response::Builder::new(base, config.request_response)
                .request_user_header::<CustomHeaderMarker>()
                .response_user_header::<CustomHeaderMarker>();
            calling::call(
                builder, settings, attributes, how, now, storage, slots, slot,
            )
        }
    }
}

/// Closes what the slot holds, if it holds something. The slot is free then.
fn close_slot<S: Storage>(slots: &mut Slots, slot: usize, storage: &mut S)
    requires { slot < slot_count }
    ensures after { slots.new ≡ slice_set slots.old slot None }
    ensures closed { ClosesSlotBy S.step storage.old slots.old slot storage.new }
{
    match slots.take(slot) {
        Some(registration) => return closing::close_or_abandon(registration, storage),
        None => return,
    }
}

impl<S: WorldStorage> Session<S> {
    ghost use Rattle.std.specs.Prelude.{is_some, option_copied};
    ghost use Rattle.iceoryx2_access.specs.Run.{Each};
    ghost use Rattle.iceoryx2_world.specs.Agreement.{Agrees};
    ghost use Rattle.iceoryx2_world.specs.Interference.{Rely};
    ghost use Rattle.iceoryx2_builder.specs.declared.command.Command.TheVariants as command;
    ghost use Rattle.iceoryx2_session.specs.CommandLists.{CarriesOut};
    ghost use Rattle.iceoryx2_session.specs.CommandWords.{AppliesAlong, AppliesHeld, ClosesHeld, SpansSession};
    ghost use Rattle.iceoryx2_session.specs.Promised.{CallsAsPromisedInWorld};
    ghost use Rattle.iceoryx2_session.specs.SessionStates.{own_nodes, own_state, world_state};
    ghost use Rattle.iceoryx2_session.specs.Sessions.{ClosesSlotsBy, ClosesSlotsInWorld, AppliesBy, AppliesInWorld};
    ghost use Rattle.iceoryx2_session.specs.Slots.{held_at, tickets_of};
    ghost use Rattle.iceoryx2_journal.specs.Owed.{SettlesInWorld, others_own};
    ghost use Rattle.iceoryx2_session.specs.StandingSlots.{AppliesStandingInWorld, IsOfOwn, OwnsTicketsInWorld};
    ghost use Rattle.iceoryx2_session.specs.StandingSlots.{SlotsStandInWorld};

    /// Returns a session over a storage that shows a world. Its nodes have this configuration, and
    /// all its slots are free.
    pub fn over(config: Config, storage: S) -> Session<S>
        ensures state { own_state result
            ≡ record { config = config; table = storage; slots = replicate slot_count None } }

        // So each factory of a slot stands, whatever the world.
        ensures stands { SlotsStandInWorld (own_nodes S.own result) (world_state S.world result) }
    {
        Session {
            config,
            storage,
            slots: Slots::new(),
        }
    }

    /// Applies one command, and returns its reply. The slot is tested before anything is called. If
    /// the storage releases the factory of a close, the slot is free, and anything that the close
    /// didn't remove stays there. If the storage doesn't release the factory, the slot holds it as
    /// before.
    pub fn apply_shared(&mut self, command: Command) -> Reply
        // It is the builder call or the close that it names, along a word of it,
        ensures own { AppliesBy S.step S.world (own_state self.old) command result (own_state self.new) }

        // so the storage's accesses are those of the command's word, and without a call or a close there are none.
        ensures along { AppliesAlong S.step (own_state self.old) command result (own_state self.new) }

        // Which nodes are own stays as it was.
        ensures nodes { own_nodes S.own self.new ≡ own_nodes S.own self.old }

        // So it is over the world, whatever others do before an access of it, and whichever of these is refused.
        ensures goes { AppliesInWorld (own_nodes S.own self.old)
            (world_state S.world self.old) command result (world_state S.world self.new) }

        // The world agrees afterwards where it agreed,
        ensures agrees { Agrees (world_state S.world self.old).table → Agrees (world_state S.world self.new).table }

        // and there the factories of all slots stand, each with a ticket of its own, if the caller is an own node.
        ensures stands { let own = own_nodes S.own self.old in
            Agrees (world_state S.world self.old).table → SlotsStandInWorld own (world_state S.world self.old)
            → IsOfOwn own (own_state self.old).config command → SlotsStandInWorld own (world_state S.world self.new) }

        // Where the own nodes' tickets were those of the slots, they are: a close that isn't granted leaves both.
        ensures owns { let own = own_nodes S.own self.old in
            Agrees (world_state S.world self.old).table → OwnsTicketsInWorld own (world_state S.world self.old)
            → OwnsTicketsInWorld own (world_state S.world self.new) }

        // The call of a free slot is as every call of an own node is. The factory is the one that the slot holds
        // then, with the reply's number, and a refusal is the reply's.
        ensures promised { CallsAsPromisedInWorld (own_nodes S.own self.old)
            (world_state S.world self.old) command result (world_state S.world self.new) }
    {
        self.dispatch(command)
    }

    /// Applies one command as `apply_shared` does, as one call: all others that share the storage
    /// wait from its first access to its last. So over a log, the command can be refused because
    /// others have the log only before its first access, not later.
    pub fn apply_held(&mut self, command: Command) -> Reply
        ensures own { AppliesHeld S.spans S.step S.world (own_state self.old) command result (own_state self.new) }

        // Nobody waits for it any more.
        ensures ended { S.in_call (own_state self.new).table ≡ false }

        // Which nodes are own stays as it was.
        ensures nodes { own_nodes S.own self.new ≡ own_nodes S.own self.old }

        // So it is over the world, whatever others do before an access of it, and whichever of these is refused.
        ensures goes { AppliesInWorld (own_nodes S.own self.old)
            (world_state S.world self.old) command result (world_state S.world self.new) }

        // The world agrees afterwards where it agreed,
        ensures agrees { Agrees (world_state S.world self.old).table → Agrees (world_state S.world self.new).table }

        // and there the factories of all slots stand, each with a ticket of its own, if the caller is an own node.
        ensures stands { let own = own_nodes S.own self.old in
            Agrees (world_state S.world self.old).table → SlotsStandInWorld own (world_state S.world self.old)
            → IsOfOwn own (own_state self.old).config command → SlotsStandInWorld own (world_state S.world self.new) }
    {
        self.begin_call();
        let reply = self.apply_shared(command);
        self.end_call();
        reply
    }

    /// Begins a call: all others that share the storage wait from its first access on, until
    /// `end_call`.
    pub fn begin_call(&mut self)
        ensures { SpansSession S.spans (own_state self.old) (own_state self.new) }
    {
        self.storage.begin_call();
    }

    /// Ends the call.
    pub fn end_call(&mut self)
        ensures spans { SpansSession S.spans (own_state self.old) (own_state self.new) }
        ensures ended { S.in_call (own_state self.new).table ≡ false }
    {
        self.storage.end_call();
    }

    /// Applies commands in order, and returns one reply to each command, in the same order. It asks
    /// for room for all replies first.
    pub fn run_shared(&mut self, commands: Vec<Command>) -> Result<Vec<Reply>, AllocError>
        // Where there is no room, nothing is carried out.
        ensures refused { OnErr result (own_state self.new ≡ own_state self.old) }

        // Each command goes as it does by itself, from the state that the one before it left.
        ensures own { IfOk result (λ replies. CarriesOut (AppliesBy S.step S.world)
            (own_state self.old) commands.items replies.items (own_state self.new)) }

        // Which nodes are own stays as it was.
        ensures nodes { own_nodes S.own self.new ≡ own_nodes S.own self.old }

        // So it is over the world, whatever others do before an access of it, and whichever of these is refused.
        ensures goes { IfOk result (λ replies. CarriesOut (AppliesInWorld (own_nodes S.own self.old))
            (world_state S.world self.old) commands.items replies.items (world_state S.world self.new)) }

        // The world agrees afterwards where it agreed,
        ensures agrees { Agrees (world_state S.world self.old).table → Agrees (world_state S.world self.new).table }

        // and there the factories of all slots stand, each with a ticket of its own, if all callers are own nodes,
        ensures stands { let own = own_nodes S.own self.old in
            Agrees (world_state S.world self.old).table → SlotsStandInWorld own (world_state S.world self.old)
            → Each (IsOfOwn own (own_state self.old).config) commands.items
            → SlotsStandInWorld own (world_state S.world self.new) }

        // and where the own nodes' tickets were those of the slots, they are.
        ensures owns { let own = own_nodes S.own self.old in
            Agrees (world_state S.world self.old).table → OwnsTicketsInWorld own (world_state S.world self.old)
            → OwnsTicketsInWorld own (world_state S.world self.new) }

        // The factories stand after each of the commands, of which each call is as every call of an own node is.
        ensures between { let own = own_nodes S.own self.old in
            Agrees (world_state S.world self.old).table → SlotsStandInWorld own (world_state S.world self.old)
            → Each (IsOfOwn own (own_state self.old).config) commands.items
            → IfOk result (λ replies. CarriesOut (AppliesStandingInWorld own)
            (world_state S.world self.old) commands.items replies.items (world_state S.world self.new)) }
    {
        let mut replies = Vec::with_capacity(*commands.allocator(), commands.len())?;
        for command in commands {
            replies.push_reserved(self.apply_shared(command));
        }
        Ok(replies)
    }

    fn dispatch(&mut self, command: Command) -> Reply
        ensures { AppliesBy S.step S.world (own_state self.old) command result (own_state self.new) }
    {
        match command {
            Command::Call(call) => self.call(call),
            Command::Close { slot } => self.close(slot),
            Command::List => self.list(),
        }
    }

    fn call(&mut self, call: Call) -> Reply
        ensures { AppliesBy S.step S.world (own_state self.old) (command.Call call) result (own_state self.new) }
    {
        let slot = call.slot;
        if slot >= SLOTS {
            return Reply::NoSuchSlot;
        }
        if self.slots.is_taken(slot) {
            return Reply::SlotInUse;
        }
        match build(&self.config, call, &mut self.storage, &mut self.slots) {
            Ok(number) => Reply::Opened { slot, number },
            Err(refusal) => Reply::Refused(refusal),
        }
    }

    fn close(&mut self, slot: usize) -> Reply
        ensures { AppliesBy S.step S.world (own_state self.old) (command.Close slot) result (own_state self.new) }
    {
        if slot >= SLOTS {
            return Reply::NoSuchSlot;
        }
        let Some(registration) = self.slots.take(slot) else {
            return Reply::SlotEmpty;
        };
        match closing::close(registration, &mut self.storage) {
            None => Reply::Closed { slot },
            Some(registration) => {
                self.slots.put(slot, registration);
                Reply::NotClosed { slot }
            }
        }
    }

    fn list(&self) -> Reply
        ensures { AppliesBy S.step S.world (own_state self.now) command.List result (own_state self.now) }
    {
        match self.storage.list() {
            Ok(entries) => Reply::Listing(entries),
            Err(_) => Reply::OutOfMemory,
        }
    }

    /// Shows what others have done up to now, as far as it can be read. Makes no access.
    pub fn refresh(&mut self)
        // The slots hold what they held.
        ensures slots { own_state self.new
            ≡ record (own_state self.old) { table = (own_state self.new).table } }

        // Which nodes are own stays as it was,
        ensures nodes { own_nodes S.own self.new ≡ own_nodes S.own self.old }

        // and so does all that they rely on.
        ensures kept { Rely (own_nodes S.own self.old)
            (world_state S.world self.old).table (world_state S.world self.new).table }

        // What the storage keeps besides stays.
        ensures shows { SpansSession S.shows (own_state self.old) (own_state self.new) }

        // So the factories of all slots stand as before where the world agreed,
        ensures stands { let own = own_nodes S.own self.old in
            Agrees (world_state S.world self.old).table → SlotsStandInWorld own (world_state S.world self.old)
            → SlotsStandInWorld own (world_state S.world self.new) }

        // and where the own nodes' tickets were those of the slots, they are.
        ensures owns { let own = own_nodes S.own self.old in
            Agrees (world_state S.world self.old).table → OwnsTicketsInWorld own (world_state S.world self.old)
            → OwnsTicketsInWorld own (world_state S.world self.new) }
    {
        self.storage.refresh()
    }

    /// Gives back what a node has that isn't an own one, by accesses in its name, until it has
    /// nothing. The caller has to know that the node is dead.
    ///
    /// The errors are `IsOwn` if the node is an own one, and `Refused` if something below the
    /// storage refused. After `Refused` it can be called again.
    pub fn clean(&mut self, node: u64) -> Result<Cleaned, CleanError>
        // The slots hold what they held.
        ensures slots { own_state self.new
            ≡ record (own_state self.old) { table = (own_state self.new).table } }

        // Which nodes are own stays as it was,
        ensures nodes { own_nodes S.own self.new ≡ own_nodes S.own self.old }

        // and so does all that they rely on.
        ensures kept { Rely (own_nodes S.own self.old)
            (world_state S.world self.old).table (world_state S.world self.new).table }

        // The node has nothing any more.
        ensures gone { OnOk result (IsHolding (world_state S.world self.new).table node None) }

        // What the storage keeps besides stays.
        ensures shows { SpansSession S.shows (own_state self.old) (own_state self.new) }

        // So the factories of all slots stand as before where the world agreed,
        ensures stands { let own = own_nodes S.own self.old in
            Agrees (world_state S.world self.old).table → SlotsStandInWorld own (world_state S.world self.old)
            → SlotsStandInWorld own (world_state S.world self.new) }

        // and where the own nodes' tickets were those of the slots, they are.
        ensures owns { let own = own_nodes S.own self.old in
            Agrees (world_state S.world self.old).table → OwnsTicketsInWorld own (world_state S.world self.old)
            → OwnsTicketsInWorld own (world_state S.world self.new) }
    {
        self.storage.clean(node)
    }

    /// Gives back what an own node has besides the factories of the slots, by accesses of its own.
    /// Calls of the node that were refused between two of their accesses may have left it. It can
    /// be called between any two commands, and before the end.
    ///
    /// The error is `Refused` if something below the storage refused. Then it can be called again.
    pub fn settle(&mut self, node: u64) -> Result<Cleaned, CleanError>
        // The slots hold what they held.
        ensures slots { own_state self.new
            ≡ record (own_state self.old) { table = (own_state self.new).table } }

        // Which nodes are own stays as it was,
        ensures nodes { own_nodes S.own self.new ≡ own_nodes S.own self.old }

        // and all that the other ones rely on is kept.
        ensures kept { Rely (others_own (own_nodes S.own self.old) node)
            (world_state S.world self.old).table (world_state S.world self.new).table }

        // Each access gives something back that the node has besides the factories of the slots, or is refused.
        ensures gives { SettlesInWorld (own_nodes S.own self.old) node (tickets_of (own_state self.old).slots) result
            (world_state S.world self.old).table (world_state S.world self.new).table }
        ensures after { S.settles (own_state self.old).table (own_state self.new).table }

        // At Ok it has nothing besides.
        ensures rest { OnOk result
            (S.is_settled (own_state self.new).table node (tickets_of (own_state self.old).slots)) }

        // The world agrees afterwards where it agreed,
        ensures agrees { Agrees (world_state S.world self.old).table → Agrees (world_state S.world self.new).table }

        // and there the factories of all slots stand as before.
        ensures stands { let own = own_nodes S.own self.old in
            Agrees (world_state S.world self.old).table → SlotsStandInWorld own (world_state S.world self.old)
            → SlotsStandInWorld own (world_state S.world self.new) }
    {
        let (tickets, count) = self.slots.tickets();
        self.storage.settle(node, &tickets[..count])
    }

    /// Returns the storage, for its readers.
    pub fn storage(&self) -> &S
        ensures { result.now ≡ (own_state self.now).table }
    {
        &self.storage
    }

    /// Returns what the slot holds: the node, and what it and its service agreed on. `None` if the
    /// slot is free, or past slot 63.
    pub fn registration(&self, slot: usize) -> Option<&Registration>
        ensures { option_copied result ≡ held_at (own_state self.now).slots slot }
    {
        self.slots.get(slot)
    }

    /// Lets go of what the slot holds, without an access, and returns true if it held something.
    /// The slot is free then. The node keeps its place at the service until it is cleaned.
    pub fn abandon(&mut self, slot: usize) -> bool
        ensures held { result ≡ is_some (held_at (own_state self.old).slots slot) }

        // The storage stays as it was, and so do the other slots.
        ensures after { own_state self.new ≡ record (own_state self.old) {
          slots = slice_set (own_state self.old).slots slot None;
        } }

        // So the factories of the other slots stand as before.
        ensures stands { let own = own_nodes S.own self.old in
            SlotsStandInWorld own (world_state S.world self.old)
            → SlotsStandInWorld own (world_state S.world self.new) }
    {
        match self.slots.remove(slot) {
            Some(registration) => {
                registration.abandon();
                true
            }
            None => false,
        }
    }

    /// Lets go of what all slots hold, without an access. The slots are free then, and their nodes
    /// keep their places.
    fn abandon_all(&mut self)
        ensures { own_state self.new ≡ record (own_state self.old) { slots = replicate slot_count None } }
    {
        let slots = mem::replace(&mut self.slots, Slots::new());
        slots.destroy();
    }

    /// Closes the factories of all slots, in ascending order, and returns the storage. Anything
    /// that the storage refused to release or to remove stays there.
    pub fn close_all(self) -> S
        // Each is closed along a word of close.
        ensures own { ClosesSlotsBy S.step (own_state self).table (own_state self).slots result }

        // Which nodes are own stays as it was.
        ensures nodes { S.own result ≡ own_nodes S.own self }

        // So it is over the world, whatever others do before an access of it, and whichever of these is refused.
        ensures closes { ClosesSlotsInWorld (own_nodes S.own self)
            (world_state S.world self).table (own_state self).slots (S.world result) }

        // The world agrees afterwards where it agreed.
        ensures agrees { Agrees (world_state S.world self).table → Agrees (S.world result) }
    {
        let Session {
            config: _,
            mut storage,
            mut slots,
        } = self;
        for slot in 0..SLOTS {
            close_slot(&mut slots, slot, &mut storage);
        }
        slots.destroy();
        storage
    }

    /// Does the same as `close_all`, as one call: all others that share the storage wait from the
    /// first access to the last.
    pub fn close_all_held(self) -> S
        ensures own { ClosesHeld S.spans S.step (own_state self).table (own_state self).slots result }

        // Nobody waits for it any more.
        ensures ended { S.in_call result ≡ false }

        // Which nodes are own stays as it was.
        ensures nodes { S.own result ≡ own_nodes S.own self }

        // The world agrees afterwards where it agreed.
        ensures agrees { Agrees (world_state S.world self).table → Agrees (S.world result) }
    {
        let mut session = self;
        session.begin_call();
        let mut storage = session.close_all();
        storage.end_call();
        storage
    }
}

impl<S: Resuming> Session<S> {
    ghost use Rattle.std.specs.Prelude.{IsTrue};
    ghost use Rattle.iceoryx2_world.specs.Agreement.{Agrees};
    ghost use Rattle.iceoryx2_session.specs.Resumed.{HaveTickets, ResumesSession};
    ghost use Rattle.iceoryx2_session.specs.SessionStates.{own_nodes, own_state, world_state};
    ghost use Rattle.iceoryx2_session.specs.StandingSlots.{SlotsStandInWorld};

    /// Goes on after the log below the storage was gone, and returns true if the factories of all
    /// slots still stand. If one doesn't, or not all could be shown, all slots are free then, and
    /// anything that is left of their factories is owed. The caller has to know that nobody else
    /// has its nodes.
    pub fn resume(&mut self) -> bool
        ensures resumes { ResumesSession S.settles result (own_state self.old) (own_state self.new) }

        // Which nodes are own stays as it was.
        ensures nodes { own_nodes S.own self.new ≡ own_nodes S.own self.old }

        // The world agrees afterwards where it agreed,
        ensures agrees { Agrees (world_state S.world self.old).table → Agrees (world_state S.world self.new).table }

        // and there the factories of all slots stand, as far as there are any.
        ensures stands { let own = own_nodes S.own self.old in
            Agrees (world_state S.world self.old).table → SlotsStandInWorld own (world_state S.world self.old)
            → SlotsStandInWorld own (world_state S.world self.new) }
    {
        let is_all = self.storage.resume();
        if is_all && self.has_tickets() {
            return true;
        }
        self.abandon_all();
        false
    }

    /// Returns true if each factory of a slot has its ticket.
    fn has_tickets(&self) -> bool
        ensures { IsTrue result → HaveTickets (S.world (own_state self.now).table) (own_state self.now).slots }
    {
        for slot in 0..SLOTS {
            if let Some(registration) = self.slots.get(slot) {
                if !self.storage.has_ticket(registration) {
                    return false;
                }
            }
        }
        true
    }
}

impl<S: TableStorage> Session<S> {
    ghost use Rattle.iceoryx2_description.specs.declared.description.ServiceHash.{ServiceHash};
    ghost use Rattle.iceoryx2_world.specs.Agreement.{Agrees};
    ghost use Rattle.iceoryx2_world.specs.World.{empty_world, ticket_of};
    ghost use Rattle.iceoryx2_session.specs.SessionStates.{own_state, state_of};
    ghost use Rattle.iceoryx2_session.specs.Sessions.{AreClosed, ClosesSlots, ClosesSlotsBy, Applies, AppliesBy};
    ghost use Rattle.iceoryx2_session.specs.Sessions.{shown_world};
    ghost use Rattle.iceoryx2_session.specs.CommandWords.{AppliesAlong};
    ghost use Rattle.iceoryx2_session.specs.CommandLists.{CarriesOut};
    ghost use Rattle.iceoryx2_session.specs.StandingSlots.{ClosesTaken, AppliesStanding, OwnsTickets, SlotsStand};
    ghost use Rattle.iceoryx2_call_laws.specs.Quiet.{Quiet, no_service};
    ghost use Rattle.iceoryx2_call_laws.specs.QuietLaws.{HasNothingAt};
    ghost use Rattle.iceoryx2_session.specs.Promised.{CallsAsPromised};
    ghost use Rattle.iceoryx2_session.specs.QuietSessions.{AreMoved, IsFinished, IsMoved, IsQuiet};
    ghost use Rattle.iceoryx2_session.specs.QuietSessions.{IsUnchanged, RepliesNoChange};
    ghost use Rattle.iceoryx2_access.specs.Run.{Each};

    /// Returns a session whose nodes have this configuration. All its slots are free.
    pub fn new(config: Config, storage: S) -> Session<S>
        ensures state { own_state result
            ≡ record { config = config; table = storage; slots = replicate slot_count None } }

        // So each factory of a slot stands, whatever the table.
        ensures stands { SlotsStand (state_of S.shown result) }

        // Over a new table it is quiet: the table shows the machine that has no service yet.
        ensures fresh { (n : ℕ) → (S.shown storage).world ≡ empty_world n → (S.shown storage).waiting ≡ []
            → IsQuiet (state_of S.shown result) (no_service n) × OwnsTickets (state_of S.shown result) }
    {
        Session::over(config, storage)
    }

    /// Applies one command, and returns its reply. The slot is tested before anything is called.
    pub fn apply(&mut self, command: Command) -> Reply
        // Over any storage it is the builder call or the close that it names, along a word of it,
        ensures own { AppliesBy S.step (shown_world S.shown) (own_state self.old) command result (own_state self.new) }

        // so the storage's accesses are those of the command's word, and without a call or a close there are none,
        ensures along { AppliesAlong S.step (own_state self.old) command result (own_state self.new) }

        // and so it is over the table that the storage shows.
        ensures goes { Applies (state_of S.shown self.old) command result (state_of S.shown self.new) }

        // Over any table whose world agrees, the world agrees afterwards, and the factories of all
        // slots stand, each with a ticket of its own. The close of a slot that holds one is Ok.
        ensures stands { Agrees (state_of S.shown self.old).table.world → SlotsStand (state_of S.shown self.old)
            → Agrees (state_of S.shown self.new).table.world × SlotsStand (state_of S.shown self.new)
            × ClosesTaken (state_of S.shown self.old) command (state_of S.shown self.new) }

        // The call of a free slot is as every call is: within fixed counts, and over a table whose world
        // agrees its factory is as it was asked, and stays open; and those that were open are open throughout.
        // The factory is the one that the slot holds then, with the reply's number, and a refusal is the reply's.
        ensures promised { CallsAsPromised (state_of S.shown self.old) command result (state_of S.shown self.new) }

        // There the table's tickets stay those of the slots.
        ensures owns { Agrees (state_of S.shown self.old).table.world → SlotsStand (state_of S.shown self.old)
            → OwnsTickets (state_of S.shown self.old) → OwnsTickets (state_of S.shown self.new) }

        // Over a table that nobody else uses it is one move of the quiet machine.
        ensures quiet { (q : Quiet) → IsQuiet (state_of S.shown self.old) q → SlotsStand (state_of S.shown self.old)
            → IsMoved (state_of S.shown self.old) q command result (state_of S.shown self.new) }

        // There nothing changes where the reply tells of no factory that was opened or closed.
        ensures unchanged { (q : Quiet) → IsQuiet (state_of S.shown self.old) q
            → SlotsStand (state_of S.shown self.old)
            → RepliesNoChange result → IsUnchanged (state_of S.shown self.old) (state_of S.shown self.new) }
    {
        self.apply_shared(command)
    }

    /// Applies commands in order, and returns one reply to each command, in the same order. It asks
    /// for room for all replies first.
    pub fn run(&mut self, commands: Vec<Command>) -> Result<Vec<Reply>, AllocError>
        // Where there is no room, nothing is carried out.
        ensures refused { OnErr result (own_state self.new ≡ own_state self.old) }

        // Over any storage each command goes as it does by itself, from the state that the one before it left,
        ensures own { IfOk result (λ replies. CarriesOut (AppliesBy S.step (shown_world S.shown))
            (own_state self.old) commands.items replies.items (own_state self.new)) }

        // and so it is over the table that the storage shows.
        ensures goes { IfOk result (λ replies.
            CarriesOut Applies (state_of S.shown self.old) commands.items replies.items (state_of S.shown self.new)) }

        // Over any table whose world agrees, the world agrees afterwards, and the factories of all
        // slots stand, each with a ticket of its own,
        ensures stands { Agrees (state_of S.shown self.old).table.world → SlotsStand (state_of S.shown self.old)
            → Agrees (state_of S.shown self.new).table.world × SlotsStand (state_of S.shown self.new) }

        // and so it is after each of the commands, of which each call is as every call is.
        ensures between { Agrees (state_of S.shown self.old).table.world → SlotsStand (state_of S.shown self.old)
            → IfOk result (λ replies.
            CarriesOut AppliesStanding (state_of S.shown self.old) commands.items replies.items
            (state_of S.shown self.new)) }

        // There the table's tickets stay those of the slots.
        ensures owns { Agrees (state_of S.shown self.old).table.world → SlotsStand (state_of S.shown self.old)
            → OwnsTickets (state_of S.shown self.old) → OwnsTickets (state_of S.shown self.new) }

        // Over a table that nobody else uses each command moves the session and the quiet machine together, and
        // one whose reply tells of no factory that was opened or closed changes nothing, wherever in the run it is.
        ensures quiet { (q : Quiet) → IsQuiet (state_of S.shown self.old) q → SlotsStand (state_of S.shown self.old)
            → IfOk result (λ replies.
            AreMoved (state_of S.shown self.old) q commands.items replies.items (state_of S.shown self.new)) }

        // There nothing changes where no reply tells of a factory that was opened or closed.
        ensures unchanged { (q : Quiet) → IsQuiet (state_of S.shown self.old) q
            → SlotsStand (state_of S.shown self.old)
            → IfOk result (λ replies.
            Each RepliesNoChange replies.items → IsUnchanged (state_of S.shown self.old) (state_of S.shown self.new)) }
    {
        self.run_shared(commands)
    }

    /// Closes the factories of all slots, in ascending order, and returns the storage.
    pub fn finish(self) -> S
        // Over any storage each is closed along a word of close,
        ensures own { ClosesSlotsBy S.step (own_state self).table (own_state self).slots result }

        // and so it is over the table that the storage shows.
        ensures closes { ClosesSlots (state_of S.shown self).table (state_of S.shown self).slots (S.shown result) }

        // Over any table whose world agrees each of these closes is Ok, so no factory comes back.
        ensures stands { Agrees (state_of S.shown self).table.world → SlotsStand (state_of S.shown self)
            → Agrees (S.shown result).world
            × AreClosed (state_of S.shown self).table (state_of S.shown self).slots (S.shown result) }

        // There, where the table's tickets are those of the slots, no ticket is left.
        ensures no_tickets { Agrees (state_of S.shown self).table.world → SlotsStand (state_of S.shown self)
            → OwnsTickets (state_of S.shown self)
            → (ticket : ℕ) → ticket_of (S.shown result).world ticket ≡ None }

        // Over a table that nobody else uses each is the machine's close.
        ensures quiet { (q : Quiet) → IsQuiet (state_of S.shown self) q → SlotsStand (state_of S.shown self)
            → IsFinished q (state_of S.shown self).slots (S.shown result) }

        // There nothing of any service is left, where the table's tickets are those of the slots.
        ensures empty { (q : Quiet) → IsQuiet (state_of S.shown self) q → SlotsStand (state_of S.shown self)
            → OwnsTickets (state_of S.shown self)
            → (hash : ServiceHash) → HasNothingAt (S.shown result).world hash }
    {
        self.close_all()
    }
}

impl Session<Table> {
    ghost use Rattle.iceoryx2_session.specs.SessionStates.{own_state};

    /// Returns the table, for its readers.
    pub fn table(&self) -> &Table
        ensures { result.now ≡ (own_state self.now).table }
    {
        self.storage()
    }
}
