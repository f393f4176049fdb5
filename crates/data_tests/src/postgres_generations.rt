//! Logs in a database that end or go on: a handle that is over, a row of no entry, pieces of a long log, and
//! generations. `postgres_scripts` lists the words of the scripts and the signs in the replies.

use crate::postgres_scripts::{OPENED, assert_asks, assert_script};

/// The end of what a hold asks.
const HOLDING: &str = "\\if :ERROR\nrollback;\nselect wulameron.let_go(7);\n\\endif\n";

/// The last questions of a handle that follows its log to the next generation.
const REJOINING: &str = "select wulameron.opened('lamps', false);
\\echo opened :SQLSTATE
select seq || ' ' || encode(chain, 'hex') || ' ' || case when seq > 0 then encode(bytes, 'hex') else (select max(seq)::text from wulameron.entries where log = 7 and generation = 1) end from wulameron.entries where log = 7 and generation = 1 and seq between 0 and 9223372036854775807 order by seq limit 65;
\\echo read :SQLSTATE
";

/// The last questions of a handle that finds another log there. They follow the hold.
const FINDING: &str =
    "\\endif\nselect wulameron.opened('lamps', false);\n\\echo opened :SQLSTATE\n";

/// The last question of a handle that has taken over 64 of 66 rows.
const PIECE: &str =
    "select seq || ' ' || encode(chain, 'hex') || ' ' || case when seq > 64 then encode(bytes, 'hex') else (select max(seq)::text from wulameron.entries where log = 7 and generation = 0) end from wulameron.entries where log = 7 and generation = 0 and seq between 64 and 66 order by seq limit 65;
\\echo read :SQLSTATE
";

/// The last questions of a handle that compacts a log of eight entries to one.
const COMPACTION: &str =
    "insert into wulameron.entries (log, generation, seq, bytes) values (7, 0, 9, '\\x0000001dffffffe20e5303137d02872b0b00000000000000000000000000000000000000000000000000000000'), (7, 1, 0, '') returning seq || ' ' || encode(chain, 'hex');
\\echo moved :SQLSTATE
insert into wulameron.entries (log, generation, seq, bytes) values (7, 1, 1, '\\x00000025ffffffda48de62d870bebddb030000000000000002101112131415161718191a1b1c1d1e1f202122230000000000000005') returning seq || ' ' || encode(chain, 'hex') || ' ' || encode(bytes, 'hex')\\; select 1 where false;
\\echo copied :SQLSTATE
select wulameron.go_on(7, 1, 1)\\; commit and chain;
\\echo went :SQLSTATE
";

/// The reply to a hold of a log of eight entries.
const EIGHT: &str = "\n0 $ 8\n1 $ %\n2 $ %\n3 $ %\n4 $ %\n5 $ %\n6 $ %\n7 $ %\n8 $ %\nheld 00000\n";

/// The replies that the mark was written, and one entry copied.
const COPIED: &str = "9 $\n0 $\nmoved 00000\n1 $ %\ncopied 00000\n";

/// Each call after a hold without a reply.
const OVER: &str = r"
    open => ok
    hold => Failed
    look => Failed
    next => Failed
    rejoin => Failed
    append => Failed
    pause 0 => false
    let go
    fault => SessionEnded
    asked => end
";

#[test]
fn a_handle_that_is_over_asks_nothing(rt: HostRuntime) {
    assert_asks(&rt, rt.alloc(), &[OPENED], &[OVER], HOLDING);
}

/// An entry, and a row that holds none.
const DAMAGE: &str = r"
    open => ok
    hold => ok
    next => lock
    accept
    next => Damaged
    append => Failed
    fault => Unread
    state => Held
";

#[test]
fn a_row_of_no_entry_is_damage(rt: HostRuntime) {
    let told = "\n0 $ 2\n1 $ %\n2 $ 00\nheld 00000\n";
    assert_script(&rt, rt.alloc(), &[OPENED, told], &[DAMAGE]);
}

/// The reply to a hold of a log whose only row is the mark.
const MARKED: &str = "\n0 $ 1\n1 $ &\nheld 00000\n";

/// The handle follows its log to the next generation.
const FOLLOWED: &str = r"
    open => ok
    hold => ok
    next => Moved
    rejoin => 0
    in snapshot => true
    next => lock
    accept
    stands => generation 1 number 1 counter 0
    in snapshot => false
    asked => end
";

#[test]
fn a_mark_leads_to_the_next_generation(rt: HostRuntime) {
    let told = "3 7 1 0 1 $\nopened 00000\n0 $ 2\n1 $ %\n2 $ %\nread 00000\n";
    assert_asks(
        &rt,
        rt.alloc(),
        &[OPENED, MARKED, told],
        &[FOLLOWED],
        REJOINING,
    );
}

/// The handle doesn't find its log there.
const NOT_FOUND: &str = r"
    open => ok
    hold => ok
    next => Moved
    rejoin => Failed
    in snapshot => false
    next => Failed
    accept
    stands => generation 0 number 0 counter 1
    in snapshot => false
    asked => end
";

#[test]
fn another_log_of_the_name_is_another_history(rt: HostRuntime) {
    for told in ["3 7 0 1 0 $\nopened 00000\n", "3 8 1 0 1 $\nopened 00000\n"] {
        assert_asks(
            &rt,
            rt.alloc(),
            &[OPENED, MARKED, told],
            &[NOT_FOUND],
            FINDING,
        );
    }
}

/// The replies of a log of 66 rows, in two pieces.
const LONG: [&str; 8] = [
    OPENED,
    "\n0 $ 66\n",
    "1 $ %\n2 $ %\n3 $ %\n4 $ %\n5 $ %\n6 $ %\n7 $ %\n8 $ %\n9 $ %\n10 $ %\n11 $ %\n12 $ %\n13 $ %\n14 $ %\n15 $ %\n16 $ %\n",
    "17 $ %\n18 $ %\n19 $ %\n20 $ %\n21 $ %\n22 $ %\n23 $ %\n24 $ %\n25 $ %\n26 $ %\n27 $ %\n28 $ %\n29 $ %\n30 $ %\n31 $ %\n32 $ %\n",
    "33 $ %\n34 $ %\n35 $ %\n36 $ %\n37 $ %\n38 $ %\n39 $ %\n40 $ %\n41 $ %\n42 $ %\n43 $ %\n44 $ %\n45 $ %\n46 $ %\n47 $ %\n48 $ %\n",
    "49 $ %\n50 $ %\n51 $ %\n52 $ %\n53 $ %\n54 $ %\n55 $ %\n56 $ %\n57 $ %\n58 $ %\n59 $ %\n60 $ %\n61 $ %\n62 $ %\n63 $ %\n64 $ %\nheld 00000\n",
    "64 $ 66\n65 $ %\n66 $ %\n",
    "read 00000\n",
];

/// The handle takes over all rows.
const TAKEN: &str = r"
    open => ok
    hold => ok
    take all => 66
    stands => generation 0 number 66 counter 1
    asked => end
";

#[test]
fn a_long_log_is_read_in_pieces_of_64(rt: HostRuntime) {
    assert_asks(&rt, rt.alloc(), &LONG, &[TAKEN], PIECE);
}

/// The handle takes over a log of eight entries.
const FULL: &str = r"
    open => ok
    hold => ok
    take all => 8
";

/// It compacts the log to one entry.
const COMPACTED: &str = r"
    compact 1 => ok
    fault => none
    state => Held
    stands => generation 1 number 1 counter 0
    asked => end
";

#[test]
fn a_log_goes_on_with_what_was_copied(rt: HostRuntime) {
    let told = [OPENED, EIGHT, COPIED, "t\nwent 00000\n"];
    assert_asks(&rt, rt.alloc(), &told, &[FULL, COMPACTED], COMPACTION);
}

/// It doesn't compact the log to two entries, and asks nothing for that.
const DECLINED: &str = r"
    compact 2 => Failed
    fault => none
    state => Held
    stands => generation 0 number 8 counter 1
    asked => end
";

#[test]
fn a_compaction_that_saves_too_little_is_declined(rt: HostRuntime) {
    assert_asks(
        &rt,
        rt.alloc(),
        &[OPENED, EIGHT, COPIED],
        &[FULL, DECLINED],
        HOLDING,
    );
}

#[test]
fn a_compaction_that_is_told_otherwise_leaves_the_handle_where_it_was(rt: HostRuntime) {
    let stays = "state => Over\nstands => generation 0 number 8 counter 1";
    for (copied, gone, fault) in [
        (
            COPIED,
            "ERROR:  55000\nwent 55000\n",
            "fault => the database refused (SQLSTATE 55000)",
        ),
        (COPIED, "f\nwent 00000\n", "fault => Unsure"),
        (COPIED, "t\n", "fault => Unsure"),
        (
            "9 $\n0 $\nmoved 00000\n1 $ &\ncopied 00000\n",
            "",
            "fault => NotUnderstood",
        ),
        ("9 $\n0 0$\nmoved 00000\n", "", "fault => NotUnderstood"),
        ("ERROR:  42501\nmoved 42501\n", "", "fault => NoRight"),
        ("9 $\n0 $\n", "", "fault => SessionEnded"),
    ] {
        let told = [OPENED, EIGHT, copied, gone];
        assert_script(
            &rt,
            rt.alloc(),
            &told,
            &[FULL, "compact 1 => Failed", fault, stays],
        );
    }
}
