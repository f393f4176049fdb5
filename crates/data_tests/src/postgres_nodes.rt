//! Claims of nodes in a database, of which a script tells the replies: what is asked, and what is answered where this or
//! that is told. That the server keeps a claim is tested by `tools/check-postgres`.

use crate::support::assert_same;
use iceoryx2_postgres_log::fault::PostgresFault;
use iceoryx2_postgres_log::name::is_log_name;
use iceoryx2_postgres_log::nodes::{Life, NodeRow, claim, claim_dead, claim_free, list, release};

/// What is answered, and how many bytes of the lines are left.
type Answer<T> = (Result<T, PostgresFault>, usize);

/// What each question of the log `lamps` is, in the order of `ask_all`.
const QUESTIONS: &str = "set lock_timeout = 500\\; select wulameron.claim('lamps', 3, true);
\\echo claimed :SQLSTATE
select wulameron.claim('lamps', 18446744073709551615, false);
\\echo claimed :SQLSTATE
select wulameron.release('lamps', 3);
\\echo released :SQLSTATE
set lock_timeout = 1\\; select wulameron.claim_free('lamps');
\\echo claimed :SQLSTATE
select wulameron.nodes('lamps');
\\echo listed :SQLSTATE
";

/// Replies to these, and a line behind them.
const REPLIES: &str = "t\nclaimed 00000\nf\nclaimed 00000\nt\nreleased 00000\n17\nclaimed 00000
3 alive\n16 lost\n17 dead\nlisted 00000\nmore\n";

/// Asks each question once, and gives what was asked, whether each had the answer that it is told, and what is left.
fn ask_all(rt: &HostRuntime) -> Option<(String, [bool; 5], usize)> {
    let alloc = rt.alloc();
    let mut asked = Vec::new(alloc);
    let mut told = REPLIES.as_bytes();
    let claimed = claim(alloc, "lamps", 3, 500, &mut asked, &mut told);
    let dead = claim_dead(alloc, "lamps", u64::MAX, &mut asked, &mut told);
    let released = release(alloc, "lamps", 3, &mut asked, &mut told);
    let free = claim_free(alloc, "lamps", 0, &mut asked, &mut told);
    let nodes = list(alloc, "lamps", &mut asked, &mut told).ok()?;
    let right = [
        claimed == Ok(true),
        dead == Ok(false),
        released == Ok(true),
        free == Ok(Some(17)),
        nodes.as_slice()
            == [
                row(3, Life::Alive),
                row(16, Life::Lost),
                row(17, Life::Dead),
            ]
            .as_slice(),
    ];
    Some((String::from_utf8(asked).ok()?, right, told.len()))
}

const fn row(node: u64, life: Life) -> NodeRow {
    NodeRow { node, life }
}

#[test]
fn each_question_about_nodes_is_asked_and_answered(rt: HostRuntime) {
    let (asked, right, left) = match ask_all(&rt) {
        Some(found) => found,
        None => panic!(&rt; "no memory"),
    };
    assert_same(&rt, asked.as_str(), QUESTIONS);
    assert_same(&rt, (right, left), ([true; 5], 5));
}

/// What a claim of a node is answered where this is told.
fn claimed(rt: &HostRuntime, told: &str) -> Answer<bool> {
    let mut asked = Vec::new(rt.alloc());
    let mut told = told.as_bytes();
    let answer = claim(rt.alloc(), "lamps", 3, 500, &mut asked, &mut told);
    (answer, told.len())
}

#[test]
fn a_claim_is_answered_by_one_row_alone(rt: HostRuntime) {
    let other = PostgresFault::Refused { state: *b"57014" };
    for (told, wanted) in [
        ("t\nclaimed 00000\nt\n", (Ok(true), 2)),
        ("f\nclaimed 00000\n", (Ok(false), 0)),
        (
            "t\nf\nclaimed 00000\n",
            (Err(PostgresFault::NotUnderstood), 0),
        ),
        (
            "WARNING:  01000\nt\nclaimed 00000\n",
            (Err(PostgresFault::NotUnderstood), 0),
        ),
        (
            "true\nclaimed 00000\n",
            (Err(PostgresFault::NotUnderstood), 0),
        ),
        ("claimed 00000\n", (Err(PostgresFault::NotUnderstood), 0)),
        (
            "t\nclaimed 01000\n",
            (Err(PostgresFault::Refused { state: *b"01000" }), 0),
        ),
        (
            "ERROR:  42883\nclaimed 42883\n",
            (Err(PostgresFault::NoSchema), 0),
        ),
        (
            "ERROR:  42501\nclaimed 42501\n",
            (Err(PostgresFault::NoRight), 0),
        ),
        (
            "ERROR:  25006\nclaimed 25006\n",
            (Err(PostgresFault::ReadOnly), 0),
        ),
        (
            "ERROR:  55P03\nclaimed 55P03\n",
            (Err(PostgresFault::Busy), 0),
        ),
        ("ERROR:  57014\nclaimed 57014\n", (Err(other), 0)),
        ("t\nclaimed 00000", (Err(PostgresFault::SessionEnded), 0)),
        ("", (Err(PostgresFault::SessionEnded), 0)),
    ] {
        assert_same(&rt, (told, claimed(&rt, told)), (told, wanted));
    }
}

/// What is given where a free node is asked for and this is told.
fn freed(rt: &HostRuntime, told: &str) -> Result<Option<u64>, PostgresFault> {
    let mut asked = Vec::new(rt.alloc());
    claim_free(rt.alloc(), "lamps", 1, &mut asked, &mut told.as_bytes())
}

#[test]
fn a_free_node_is_one_decimal_number_or_none(rt: HostRuntime) {
    for (told, wanted) in [
        ("0\nclaimed 00000\n", Ok(Some(0))),
        ("claimed 00000\n", Ok(None)),
        ("00\nclaimed 00000\n", Err(PostgresFault::NotUnderstood)),
        ("+1\nclaimed 00000\n", Err(PostgresFault::NotUnderstood)),
        (
            "18446744073709551616\nclaimed 00000\n",
            Err(PostgresFault::NotUnderstood),
        ),
        ("1\n2\nclaimed 00000\n", Err(PostgresFault::NotUnderstood)),
        (
            "ERROR:  3F000\nclaimed 3F000\n",
            Err(PostgresFault::NoSchema),
        ),
    ] {
        assert_same(&rt, (told, freed(&rt, told)), (told, wanted));
    }
}

/// How many nodes are listed where this is told.
fn listed(rt: &HostRuntime, told: &str) -> Result<usize, PostgresFault> {
    let mut asked = Vec::new(rt.alloc());
    match list(rt.alloc(), "lamps", &mut asked, &mut told.as_bytes()) {
        Ok(nodes) => Ok(nodes.len()),
        Err(fault) => Err(fault),
    }
}

#[test]
fn nodes_are_listed_by_rising_number(rt: HostRuntime) {
    for (told, wanted) in [
        ("listed 00000\n", Ok(0)),
        ("0 alive\n18446744073709551615 dead\nlisted 00000\n", Ok(2)),
        ("0 lost\nlisted 00000\n", Ok(1)),
        ("0 lost \nlisted 00000\n", Err(PostgresFault::NotUnderstood)),
        ("lost\nlisted 00000\n", Err(PostgresFault::NotUnderstood)),
        (
            "2 dead\n0 alive\nlisted 00000\n",
            Err(PostgresFault::NotUnderstood),
        ),
        (
            "2 dead\n2 dead\nlisted 00000\n",
            Err(PostgresFault::NotUnderstood),
        ),
        ("02 dead\nlisted 00000\n", Err(PostgresFault::NotUnderstood)),
        ("2  dead\nlisted 00000\n", Err(PostgresFault::NotUnderstood)),
        ("2 gone\nlisted 00000\n", Err(PostgresFault::NotUnderstood)),
        ("\nlisted 00000\n", Err(PostgresFault::NotUnderstood)),
    ] {
        assert_same(&rt, (told, listed(&rt, told)), (told, wanted));
    }
}

/// What a claim at a log of this name is answered, and whether anything was asked.
fn claimed_at(rt: &HostRuntime, name: &str) -> (Result<bool, PostgresFault>, bool) {
    let mut asked = Vec::new(rt.alloc());
    let mut told = "t\nclaimed 00000\n".as_bytes();
    let answer = claim(rt.alloc(), name, 3, 500, &mut asked, &mut told);
    (answer, !asked.is_empty())
}

/// 63 letters, which are as many as a name may have.
const LONGEST: &str = "abcdefghijklmnopqrstuvwxyzabcdefghijklmnopqrstuvwxyzabcdefghijk";

/// One more.
const TOO_LONG: &str = "abcdefghijklmnopqrstuvwxyzabcdefghijklmnopqrstuvwxyzabcdefghijkl";

#[test]
fn nothing_is_asked_about_what_is_no_name(rt: HostRuntime) {
    for name in ["a", "9", "Lamps.east_1-b", LONGEST] {
        assert_same(&rt, (name, is_log_name(name)), (name, true));
        assert_same(&rt, claimed_at(&rt, name), (Ok(true), true));
    }
    for name in [
        "", "-a", ".a", "_a", "a b", "a'b", "a\n", "\u{e4}", TOO_LONG,
    ] {
        assert_same(&rt, (name, is_log_name(name)), (name, false));
        let refused = (Err(PostgresFault::BadName), false);
        assert_same(&rt, claimed_at(&rt, name), refused);
    }
}
