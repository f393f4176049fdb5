//! A session answers commands one by one as in one go: over a table, over a traced one, and by what it asks of any world.

use crate::support::{assert_same, drop_table, granted, push, there};
use iceoryx2_builder::command::{Command, Refusal, Reply};
use iceoryx2_description::config::Config;
use iceoryx2_errors::error::EventOpenError;
use iceoryx2_session::session::Session;
use iceoryx2_session::table_storage::TableStorage;
use iceoryx2_session::world_storage::WorldStorage;
use iceoryx2_table::table::Table;
use iceoryx2_testing::traced::Traced;
use iceoryx2_world::listing::Entry;
use std::alloc::Global;
use std::process::Abort;
use test_support::lines::command_in;

/// A create, an open into a slot that is taken, one into a free slot, one by a node too many, and two closes.
const LINES: [&str; 6] = [
    "event create 1 0 a",
    "event open 2 0 a",
    "event open 2 1 a",
    "event open 3 2 a",
    "close 1",
    "close 1",
];

/// The commands of these lines, and a list.
fn commands(rt: &impl Abort, alloc: Global) -> Vec<Command> {
    let mut commands = Vec::new(alloc);
    for line in LINES {
        push(rt, &mut commands, there(rt, command_in(alloc, line)));
    }
    push(rt, &mut commands, Command::List);
    commands
}

/// A configuration by which events are for two nodes.
fn for_two() -> Config {
    let mut config = Config::default();
    config.event.max_nodes = 2;
    config
}

/// Applies commands one by one over a storage that shows a table, and returns the replies and the storage.
fn applied<S: TableStorage>(
    rt: &impl Abort,
    alloc: Global,
    commands: Vec<Command>,
    storage: S,
) -> (Vec<Reply>, S) {
    let mut session = Session::new(for_two(), storage);
    let mut replies = Vec::new(alloc);
    for command in commands {
        push(rt, &mut replies, session.apply(command));
    }
    (replies, session.finish())
}

/// Runs commands in one go over a storage that shows a table, and returns the replies and the storage.
fn at_once<S: TableStorage>(
    rt: &impl Abort,
    config: Config,
    commands: Vec<Command>,
    storage: S,
) -> (Vec<Reply>, S) {
    let mut session = Session::new(config, storage);
    let replies = granted(rt, session.run(commands));
    (replies, session.finish())
}

/// Applies commands one by one over a storage that shows a world, with a refresh before each, and returns the replies
/// and the storage.
fn one_by_one<S: WorldStorage>(
    rt: &impl Abort,
    alloc: Global,
    commands: Vec<Command>,
    storage: S,
) -> (Vec<Reply>, S) {
    let mut session = Session::over(for_two(), storage);
    let mut replies = Vec::new(alloc);
    for command in commands {
        session.refresh();
        push(rt, &mut replies, session.apply_shared(command));
    }
    (replies, session.close_all())
}

/// Runs commands in one go over a storage that shows a world, and returns the replies and the storage.
fn shared_at_once<S: WorldStorage>(
    rt: &impl Abort,
    commands: Vec<Command>,
    storage: S,
) -> (Vec<Reply>, S) {
    let mut session = Session::over(for_two(), storage);
    let replies = granted(rt, session.run_shared(commands));
    (replies, session.close_all())
}

/// Lets a table go, and returns how many services it listed and its next number.
fn left_in(rt: &impl Abort, table: Table) -> (usize, u64) {
    let left = (granted(rt, table.list()).len(), table.counter());
    drop_table(table);
    left
}

/// The replies of two sessions over tables, to single commands and in one go, and what is left in the tables.
fn over_table(rt: &impl Abort, alloc: Global) -> ([Vec<Reply>; 2], [(usize, u64); 2]) {
    let (first, table) = applied(rt, alloc, commands(rt, alloc), Table::new(alloc));
    let (second, other) = at_once(rt, for_two(), commands(rt, alloc), Table::new(alloc));
    ([first, second], [left_in(rt, table), left_in(rt, other)])
}

/// A table of which accesses are kept.
fn traced(rt: &impl Abort, alloc: Global) -> Traced<Table> {
    match Traced::new(alloc, Table::new(alloc), 1) {
        Ok(traced) => traced,
        Err(_) => panic!(rt; "no memory"),
    }
}

/// The replies of two sessions over worlds: to single commands over a traced table, and in one go over a table.
fn in_world(rt: &impl Abort, alloc: Global) -> [Vec<Reply>; 2] {
    let (first, storage) = one_by_one(rt, alloc, commands(rt, alloc), traced(rt, alloc));
    drop_table(storage.into_inner());
    let (second, table) = shared_at_once(rt, commands(rt, alloc), Table::new(alloc));
    drop_table(table);
    [first, second]
}

/// The replies, of which the last one lists one service.
fn wanted(rt: &impl Abort, replies: &[Reply]) -> bool {
    let [
        opened,
        taken,
        also,
        refused,
        closed,
        empty,
        Reply::Listing(listing),
    ] = replies
    else {
        panic!(rt; "other replies");
    };
    assert_same(
        rt,
        (opened, taken),
        (&Reply::Opened { slot: 0, number: 0 }, &Reply::SlotInUse),
    );
    let full = Reply::Refused(Refusal::EventOpen(EventOpenError::ExceedsMaxNumberOfNodes));
    assert_same(
        rt,
        (also, refused),
        (&Reply::Opened { slot: 1, number: 0 }, &full),
    );
    assert_same(
        rt,
        (closed, empty),
        (&Reply::Closed { slot: 1 }, &Reply::SlotEmpty),
    );
    listing.len() == 1
}

#[test]
fn a_session_answers_commands_one_by_one_as_in_one_go(rt: HostRuntime) {
    let (replies, left) = over_table(&rt, rt.alloc());
    assert_same(&rt, left, [(0, 2); 2]);
    assert_same(&rt, wanted(&rt, &replies[0]), true);
    assert_same(&rt, &replies[1], &replies[0]);
    assert_same(&rt, in_world(&rt, rt.alloc()), replies);
}

/// How many slots a session has.
const SLOTS: usize = 64;

/// The command of a line.
fn push_line(rt: &impl Abort, alloc: Global, commands: &mut Vec<Command>, line: &str) {
    push(rt, commands, there(rt, command_in(alloc, line)));
}

/// Creates of a service in each slot by node 1, `s0` in slot 0, `s1` in slot 1, and so on.
fn creates_in_all_slots(rt: &impl Abort, alloc: Global) -> Vec<Command> {
    let mut commands = Vec::new(alloc);
    for slot in 0..SLOTS {
        let line = granted(rt, format!(in alloc; "event create 1 {slot} s{slot}"));
        push_line(rt, alloc, &mut commands, line.as_str());
    }
    commands
}

/// These creates, then a close of a slot that isn't there and of each even slot, a create of `s0`, and a list.
fn commands_of_all_slots(rt: &impl Abort, alloc: Global) -> Vec<Command> {
    let mut commands = creates_in_all_slots(rt, alloc);
    push(rt, &mut commands, Command::Close { slot: SLOTS });
    for slot in (0..SLOTS).step_by(2) {
        push(rt, &mut commands, Command::Close { slot });
    }
    push_line(rt, alloc, &mut commands, "event create 1 0 s0");
    push(rt, &mut commands, Command::List);
    commands
}

/// How many services are listed, and whether their hashes ascend.
fn ascending(listing: &[Entry]) -> (usize, bool) {
    let mut before = None;
    let mut ascends = true;
    for entry in listing {
        ascends = ascends && before < Some(&entry.hash.0);
        before = Some(&entry.hash.0);
    }
    (listing.len(), ascends)
}

#[test]
fn a_session_fills_its_slots_and_lists_what_is_left(rt: HostRuntime) {
    let alloc = rt.alloc();
    let commands = commands_of_all_slots(&rt, alloc);
    let (replies, table) = at_once(&rt, Config::default(), commands, Table::new(alloc));
    let [.., opened, Reply::Listing(listing)] = replies.as_slice() else {
        panic!(&rt; "other replies");
    };
    let (slot, number) = (0, 64);
    assert_same(&rt, opened, &Reply::Opened { slot, number });
    assert_same(&rt, ascending(listing), (33, true));
    assert_same(&rt, left_in(&rt, table), (0, 65));
    assert_same(&rt, replies.get(SLOTS), Some(&Reply::NoSuchSlot));
}

/// Whether the services that a session has in slots 0 and 1 are of one pattern, whichever of them is asked.
fn are_of_one_pattern<S: WorldStorage>(rt: &impl Abort, session: &Session<S>) -> bool {
    let (first, second) = (session.registration(0), session.registration(1));
    let first = there(rt, first).description().messaging_pattern();
    let second = there(rt, second).description().messaging_pattern();
    first.is_same_pattern(second) && second.is_same_pattern(first)
}

/// Creates two services in a storage, and returns whether they are of one pattern, and the storage.
fn created_alike<S: WorldStorage>(
    rt: &impl Abort,
    alloc: Global,
    lines: [&str; 2],
    storage: S,
) -> (bool, S) {
    let mut session = Session::over(Config::default(), storage);
    for line in lines {
        let _reply = session.apply_shared(there(rt, command_in(alloc, line)));
    }
    let is_same = are_of_one_pattern(rt, &session);
    (is_same, session.close_all())
}

/// Whether two services that are created so in a table are of one pattern.
fn alike(rt: &impl Abort, alloc: Global, lines: [&str; 2]) -> bool {
    let (is_same, table) = created_alike(rt, alloc, lines, Table::new(alloc));
    drop_table(table);
    is_same
}

#[test]
fn patterns_are_the_same_whatever_their_settings(rt: HostRuntime) {
    let (alloc, event) = (rt.alloc(), "event create 1 0 a event_id_max_value=3");
    let other = "event create 1 1 b event_id_max_value=4";
    let found = [
        alike(&rt, alloc, [event, other]),
        alike(&rt, alloc, [event, "rr create 1 1 b"]),
    ];
    assert_same(&rt, found, [true, false]);
}
