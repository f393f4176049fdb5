//! Questions by which a node cleans up for dead nodes.

ghost use Rattle.std.specs.Prelude.{◌≡◌, ◌++◌, ℕ, Option, IfSome, OnOk, string_bytes};
ghost use Rattle.iceoryx2_session.specs.SessionStates.{own_state};
ghost use Rattle.negotiate_serve.specs.Replies.{GrowsBy};
ghost use Rattle.wulameron_place.specs.Clean.{AreWanted};
ghost use Rattle.wulameron_serve.specs.Cleaning.{CleansAll, CleansAsked, CleansOne, IsFoundBy, IsOutcomeReply};
ghost use Rattle.wulameron_serve.specs.Cleaning.{IsRefusalBy, IsUnfoundReply, RehearsesAsked, RehearsesSum};
ghost use Rattle.wulameron_serve.specs.Cleaning.{given_line, not_dead_line, nothing_given, outcome_of_none, outcome_with};
ghost use Rattle.wulameron_serve.specs.Cleaning.{stays_why, with_given};
ghost use Rattle.wulameron_serve.specs.Telling.{refused_line};
ghost use Rattle.iceoryx2_session.specs.CommandWords.{SpansSession};

use crate::nodes::SharedNodes;
use crate::telling::{refuse_by_log, refuse_for, refuse_for_trouble};
use iceoryx2_journal::cleaning::{CleanError, Cleaned};
use iceoryx2_session::session::Session;
use iceoryx2_session::world_storage::WorldStorage;
use iceoryx2_table::table::stored::StoredWorld;
use std::alloc::AllocError;
use wulameron_place::clean::{Found, STAYS, Unfound};
use wulameron_place::dead::{DeadNodes, NotDead, Unclaimed};
use wulameron_place::rehearsal::rehearse;
use wulameron_place::texts::gave_nothing;
use wulameron_place::trouble::{Trouble, Troubled};

/// What is told if a node's file refused, and not the log.
const FILE_REFUSED: &str = "a dead node's file can't be locked; see the rights of the log's folder";

/// What is told if the world of a rehearsal can't be had.
const NOT_WHOLE: &str = "the log can't be read to its end; run `check`";

// ---- what was released

/// What was released, and of how many nodes.
#[derive(Clone, Copy)]
pub struct Given {
    pub nodes: u64,
    pub releases: u64,
    pub removals: u64,
}

impl Given {
    fn nothing() -> Given
        ensures { result ≡ nothing_given }
    {
        Given {
            nodes: 0,
            releases: 0,
            removals: 0,
        }
    }

    /// Adds what a node released. The node counts if that is something.
    fn with(self, cleaned: Cleaned) -> Given
        ensures { result ≡ with_given self cleaned }
    {
        if gave_nothing(cleaned) {
            return self;
        }
        Given {
            nodes: self.nodes.saturating_add(1),
            releases: self.releases.saturating_add(cleaned.releases),
            removals: self.removals.saturating_add(cleaned.removals),
        }
    }
}

/// Writes what was released.
fn reply_given(given: Given, text: &mut String) -> Result<(), AllocError>
    ensures { OnOk result (string_bytes text.new ≡ string_bytes text.old ++ given_line given) }
{
    let Given {
        nodes,
        releases,
        removals,
    } = given;
    writeln!(
        text,
        "cleaned nodes={nodes} releases={releases} removals={removals}"
    )
}

/// Writes why a node isn't cleaned up for.
fn reply_not_dead(why: NotDead, text: &mut String) -> Result<(), AllocError>
    ensures { OnOk result (string_bytes text.new ≡ string_bytes text.old ++ not_dead_line why) }
{
    writeln!(text, "{why}")
}

/// Writes why there are no nodes to clean up for.
fn reply_unfound(why: &Unfound, text: &mut String) -> Result<(), AllocError>
    ensures { OnOk result (GrowsBy (IsUnfoundReply why.now) (string_bytes text.old) (string_bytes text.new)) }
{
    match why {
        Unfound::NotDead(why) => reply_not_dead(*why, text),
        Unfound::Failed(error) => refuse_for(error, text),
        Unfound::OutOfMemory => Err(AllocError),
    }
}

// ---- what they have is released

/// What became of a dead node after it was cleaned up for with this result.
fn found_by(cleaned: Result<Cleaned, CleanError>) -> Found
    ensures { IsFoundBy cleaned result }
{
    match cleaned {
        Ok(cleaned) => Found::Cleaned(cleaned),
        Err(_) => Found::Refused,
    }
}

/// Releases what a node has, if it is still dead.
fn clean_node<S: WorldStorage, D: DeadNodes>(session: &mut Session<S>, dead: &D, node: u64) -> Found
    ensures { CleansOne S.shows S.world (own_state session.old) (node, result) (own_state session.new) }
{
    match dead.claim(node) {
        Err(Unclaimed::IsAlive) => Found::Alive,
        Err(Unclaimed::Refused) => Found::Refused,
        Ok(claim) => {
            let cleaned = session.clean(node);
            dead.give_back(claim);
            found_by(cleaned)
        }
    }
}

/// What became of nodes that were dead a moment ago.
#[derive(Clone, Copy)]
pub struct Outcome {
    pub given: Given,
    /// At least one is alive.
    pub some_alive: bool,
    /// The log or a node's file refused for at least one.
    pub some_refused: bool,
}

impl Outcome {
    /// The outcome of no node.
    fn of_none() -> Outcome
        ensures { result ≡ outcome_of_none }
    {
        Outcome {
            given: Given::nothing(),
            some_alive: false,
            some_refused: false,
        }
    }

    /// Adds what became of one more node.
    fn with(self, found: Found) -> Outcome
        ensures { result ≡ outcome_with self found }
    {
        match found {
            Found::Alive => Outcome {
                some_alive: true,
                ..self
            },
            Found::Cleaned(cleaned) => Outcome {
                given: self.given.with(cleaned),
                ..self
            },
            Found::Refused => Outcome {
                some_refused: true,
                ..self
            },
        }
    }
}

/// Releases what these nodes have, as far as they are dead.
fn clean_nodes<S: WorldStorage, D: DeadNodes>(
    session: &mut Session<S>,
    dead: &D,
    nodes: &[u64],
) -> Outcome
    ensures all { CleansAll S.shows S.world nodes.now (own_state session.old) result (own_state session.new) }
    ensures shows { SpansSession S.shows (own_state session.old) (own_state session.new) }
{
    let mut outcome = Outcome::of_none();
    for node in nodes {
        let found = clean_node(session, dead, *node);
        outcome = outcome.with(found);
    }
    outcome
}

/// Writes that the log refused for this reason, or a node's file if there is none.
fn reply_refused(trouble: Option<Trouble>, text: &mut String) -> Result<(), AllocError>
    ensures { OnOk result (GrowsBy (IsRefusalBy trouble) (string_bytes text.old) (string_bytes text.new)) }
{
    match trouble {
        Some(trouble) => refuse_for_trouble(trouble, text),
        None => refuse_by_log(FILE_REFUSED, text),
    }
}

/// Writes what became of the nodes, or of the named one.
fn reply_outcome(
    trouble: Option<Trouble>,
    named: Option<u64>,
    outcome: Outcome,
    text: &mut String,
) -> Result<(), AllocError>
    ensures { OnOk result (GrowsBy
        (IsOutcomeReply trouble named outcome.given outcome.some_alive outcome.some_refused)
        (string_bytes text.old) (string_bytes text.new)) }
{
    if outcome.some_refused {
        return reply_refused(trouble, text);
    }
    match named {
        Some(node) => {
            if outcome.some_alive {
                return reply_not_dead(NotDead::IsAlive { node }, text);
            }
            reply_given(outcome.given, text)
        }
        None => reply_given(outcome.given, text),
    }
}

/// Releases what dead nodes have, or what the named one has, and writes the reply.
///
/// `AllocError` if there is no memory for the reply. The text may then have a part of it.
pub fn answer_clean<S: WorldStorage + Troubled, D: SharedNodes>(
    session: &mut Session<S>,
    dead: &D,
    named: Option<u64>,
    text: &mut String,
) -> Result<(), AllocError>
    ensures answered { OnOk result (GrowsBy (λ output.
        CleansAsked S.shows S.world S.trouble named (own_state session.old) output (own_state session.new))
        (string_bytes text.old) (string_bytes text.new)) }
    ensures shows { SpansSession S.shows (own_state session.old) (own_state session.new) }
{
    match dead.wanted(named) {
        Ok(nodes) => {
            let outcome = clean_nodes(session, dead, &nodes);
            reply_outcome(session.storage().trouble(), named, outcome, text)
        }
        Err(why) => reply_unfound(&why, text),
    }
}

// ---- what would be released

/// Returns what cleaning up for these nodes would release in this world. `None` if the world refuses a step.
fn rehearse_all(world: &mut StoredWorld, nodes: &[u64]) -> Option<Given>
    ensures { IfSome result (λ given. RehearsesSum nodes.now world.old given world.new) }
{
    let mut given = Given::nothing();
    for node in nodes {
        let Some(cleaned) = rehearse(world, *node) else {
            return None;
        };
        given = given.with(cleaned);
    }
    Some(given)
}

/// Writes what cleaning up for these nodes would release.
fn rehearse_found<D: SharedNodes>(
    dead: &D,
    nodes: &[u64],
    text: &mut String,
) -> Result<(), AllocError>
    ensures { (named : Option ℕ) → AreWanted named nodes.now
        → OnOk result (GrowsBy (RehearsesAsked named) (string_bytes text.old) (string_bytes text.new)) }
{
    let Some(mut world) = dead.world(*text.allocator()) else {
        return refuse_by_log(NOT_WHOLE, text);
    };
    match rehearse_all(&mut world, nodes) {
        Some(given) => reply_given(given, text),
        None => reply_stays(text),
    }
}

/// Writes that something can't be released.
fn reply_stays(text: &mut String) -> Result<(), AllocError>
    ensures { OnOk result (string_bytes text.new ≡ string_bytes text.old ++ refused_line stays_why) }
{
    let why = format!(in *text.allocator(); "the log {STAYS}")?;
    refuse_by_log(&why, text)
}

/// Writes what cleaning up for dead nodes, or for the named one, would release. It releases nothing.
///
/// `AllocError` if there is no memory for the reply. The text may then have a part of it.
pub fn answer_rehearse<D: SharedNodes>(
    dead: &D,
    named: Option<u64>,
    text: &mut String,
) -> Result<(), AllocError>
    ensures { OnOk result (GrowsBy (RehearsesAsked named) (string_bytes text.old) (string_bytes text.new)) }
{
    match dead.wanted(named) {
        Ok(nodes) => rehearse_found(dead, &nodes, text),
        Err(why) => reply_unfound(&why, text),
    }
}
