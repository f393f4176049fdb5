//! Logs in a database whose replies the tests give: what a handle asks, and how it answers each reply. `postgres_scripts`
//! lists the words of the scripts and the signs in the replies. `tools/check-postgres` tests that a server gives these
//! replies.

use crate::postgres_scripts::{HELD, OPENED, assert_asks, assert_goes_on, assert_script};

/// Everything that the calls of `CALLS` ask.
const QUESTIONS: &str =
    "set lock_timeout = 500\\; set idle_in_transaction_session_timeout = 2000\\; select wulameron.opened('lamps', true);
\\echo opened :SQLSTATE
begin isolation level read committed\\; select pg_advisory_lock('wulameron.logs'::regclass::oid::int, 7)\\; select seq || ' ' || encode(chain, 'hex') || ' ' || case when seq > 0 then encode(bytes, 'hex') else (select max(seq)::text from wulameron.entries where log = 7 and generation = 0) end from wulameron.entries where log = 7 and generation = 0 and seq between 0 and 9223372036854775807 order by seq limit 65;
\\echo held :SQLSTATE
\\if :ERROR
rollback;
select wulameron.let_go(7);
\\endif
insert into wulameron.entries (log, generation, seq, bytes) values (7, 0, 1, '\\x00000025ffffffda48de62d870bebddb030000000000000002101112131415161718191a1b1c1d1e1f202122230000000000000005') returning seq || ' ' || encode(chain, 'hex')\\; commit and chain;
\\echo appended :SQLSTATE
select 1 where not pg_advisory_unlock('wulameron.logs'::regclass::oid::int, 7)\\; commit;
select seq || ' ' || encode(chain, 'hex') || ' ' || case when seq > 1 then encode(bytes, 'hex') else (select max(seq)::text from wulameron.entries where log = 7 and generation = 0) end from wulameron.entries where log = 7 and generation = 0 and seq between 1 and 9223372036854775807 order by seq limit 65;
\\echo read :SQLSTATE
begin isolation level read committed\\; select pg_advisory_lock('wulameron.logs'::regclass::oid::int, 7)\\; select seq || ' ' || encode(chain, 'hex') || ' ' || case when seq > 2 then encode(bytes, 'hex') else (select max(seq)::text from wulameron.entries where log = 7 and generation = 0) end from wulameron.entries where log = 7 and generation = 0 and seq between 2 and 9223372036854775807 order by seq limit 65;
\\echo held :SQLSTATE
\\if :ERROR
rollback;
select wulameron.let_go(7);
\\endif
select 1 where not pg_advisory_unlock('wulameron.logs'::regclass::oid::int, 7)\\; commit;
select pg_sleep(0.005);
\\echo paused :SQLSTATE
";

/// The replies to these questions, except for the first one.
const REPLIES: &str =
    "\n0 $ 0\nheld 00000\n1 $\nappended 00000\n1 $ 2\n2 $ %\nread 00000\n\n2 $ 2\nheld 00000\n\npaused 00000\n";

/// Each call that asks something, and what the handle is then.
const CALLS: &str = r"
    open => ok
    hold => ok
    state => Held
    next => none
    append => ok
    stands => generation 0 number 1 counter 1
    let go
    look => ok
    state => Looked
    next => lock
    accept
    let go
    hold => ok
    stands => generation 0 number 2 counter 1
    pause 100 => false
    state => Held
    pause 99 => true
    state => Free
    stands => generation 0 number 2 counter 1
    asked => all
";

#[test]
fn each_question_is_asked_and_answered(rt: HostRuntime) {
    assert_asks(&rt, rt.alloc(), &[OPENED, REPLIES], &[CALLS], QUESTIONS);
}

#[test]
fn a_log_is_opened_by_one_row_alone(rt: HostRuntime) {
    for (told, script) in [
        (OPENED, "open => ok"),
        ("opened 00000\n", "open => NoLog"),
        (
            "2 7 0 1 0 $\nopened 00000\n",
            "open => AnotherVersion { found: 2 }",
        ),
        ("3 7 0 1 0 $0\nopened 00000\n", "open => NotUnderstood"),
        ("3 07 0 1 0 $\nopened 00000\n", "open => NotUnderstood"),
        ("ERROR:  3F000\nopened 3F000\n", "open => NoSchema"),
        ("ERROR:  55P03\nopened 55P03\n", "open => Busy"),
        ("", "open => SessionEnded"),
    ] {
        assert_script(&rt, rt.alloc(), &[told], &[script]);
    }
}

#[test]
fn a_hold_is_answered_by_its_place_and_all_rows_behind_it(rt: HostRuntime) {
    let held = "hold => ok\nfault => none\nstate => Held";
    let busy = "hold => Busy\nfault => Busy\nstate => Free";
    let another = "hold => Failed\nfault => AnotherHistory\nstate => Over";
    let strange = "hold => Failed\nfault => NotUnderstood\nstate => Over";
    let no_right = "hold => Failed\nfault => NoRight\nstate => Over";
    let canceled = "hold => Failed\nfault => the database refused (SQLSTATE 57014)\nstate => Over";
    let ended = "hold => Failed\nfault => SessionEnded\nstate => Over";
    for (told, script) in [
        (HELD, held),
        ("\n0 $ 2\n1 $ %\n2 $ %\nheld 00000\n", held),
        ("ERROR:  55P03\nheld 55P03\n", busy),
        ("\n0 0$ 0\nheld 00000\n", another),
        ("\nheld 00000\n", another),
        ("0 $ 0\nheld 00000\n", strange),
        ("\n0 $ 2\n2 $ %\nheld 00000\n", strange),
        ("\n0 $ 2\n1 $ %\nheld 00000\n", strange),
        ("WARNING:  01000\n\n0 $ 0\nheld 00000\n", strange),
        ("ERROR:  42501\nheld 42501\n", no_right),
        ("ERROR:  57014\nheld 57014\n", canceled),
        ("\n0 $ 0\n", ended),
    ] {
        assert_script(&rt, rt.alloc(), &[OPENED, told], &["open => ok", script]);
    }
}

#[test]
fn an_append_is_answered_by_its_place_alone(rt: HostRuntime) {
    let stands = "append => ok\nfault => none\nstate => Held";
    let unsure = "append => Failed\nfault => Unsure\nstate => Over";
    let taken = "append => Failed\nfault => the database refused (SQLSTATE 23505)\nstate => Over";
    let read_only = "append => Failed\nfault => ReadOnly\nstate => Over";
    for (told, script) in [
        ("1 $\nappended 00000\n", stands),
        ("2 $\nappended 00000\n", unsure),
        ("appended 00000\n", unsure),
        ("WARNING:  01000\n1 $\nappended 00000\n", unsure),
        ("ERROR:  23505\nappended 23505\n", taken),
        ("ERROR:  25006\nappended 25006\n", read_only),
        ("1 $\n", unsure),
    ] {
        assert_script(
            &rt,
            rt.alloc(),
            &[OPENED, HELD, told],
            &["open => ok\nhold => ok", script],
        );
    }
}

/// The reply that opens a log in a later generation, with a snapshot of five entries.
const LATER: &str = "3 7 3 0 5 $\nopened 00000\n";

#[test]
fn a_handle_goes_on_in_the_same_log_alone(rt: HostRuntime) {
    for (start, told, script) in [
        (OPENED, OPENED, "again => ok"),
        (OPENED, LATER, "again => ok"),
        (LATER, OPENED, "again => AnotherHistory"),
        (
            OPENED,
            "3 8 0 1 0 $\nopened 00000\n",
            "again => AnotherHistory",
        ),
        (OPENED, "opened 00000\n", "again => NoLog"),
        (OPENED, "", "again => SessionEnded"),
    ] {
        assert_goes_on(
            &rt,
            rt.alloc(),
            (&[start], &["open => ok"]),
            (&[told], &[script]),
        );
    }
}

/// A session that ends after an append.
const ENDED: &str = r"
    open => ok
    hold => ok
    append => ok
    look => Failed
    hold => Failed
";

/// The handle that goes on after it, in another session.
const BEHIND: &str = r"
    again => ok
    state => Free
    fault => none
    stands => generation 0 number 1 counter 1
";

#[test]
fn a_handle_goes_on_behind_the_entry_where_it_stood(rt: HostRuntime) {
    let start = [OPENED, HELD, "1 $\nappended 00000\n"];
    for (told, script) in [
        ("\n1 $ 1\nheld 00000\n", "hold => ok"),
        ("\n1 ff$ 1\nheld 00000\n", "hold => Failed"),
        ("\nheld 00000\n", "hold => Failed"),
    ] {
        assert_goes_on(
            &rt,
            rt.alloc(),
            (&start, &[ENDED]),
            (&[OPENED, told], &[BEHIND, script]),
        );
    }
}
