//! Tells which refusals dead nodes may have caused, and what is done then.

ghost use Rattle.std.specs.Prelude.{◌≡◌};
ghost use Rattle.iceoryx2_session.specs.SessionStates.{own_state};
ghost use Rattle.wulameron_serve.specs.Dead.{is_blocked as is_blocked_spec};
ghost use Rattle.iceoryx2_session.specs.CommandWords.{SpansSession};

use iceoryx2_builder::command::Reply;
use iceoryx2_journal::cleaning::{CleanError, Cleaned};
use iceoryx2_session::session::Session;
use iceoryx2_session::world_storage::WorldStorage;
use std::alloc::Global;
use wulameron_place::dead::DeadNodes;

/// Returns whether a call is refused and a dead node may be the cause.
pub fn is_blocked(reply: &Reply) -> bool
    ensures { result ≡ is_blocked_spec reply.now }
{
    match reply {
        Reply::Refused(refusal) => refusal.reason().may_be_a_dead_node(),
        _ => false,
    }
}

/// Returns whether anything was released.
fn gave(cleaned: Result<Cleaned, CleanError>) -> bool {
    match cleaned {
        Ok(cleaned) => cleaned.releases > 0 || cleaned.removals > 0,
        Err(_) => false,
    }
}

/// Releases what a node has, if it is dead. Returns whether anything was released.
fn clean_one<S: WorldStorage, D: DeadNodes>(session: &mut Session<S>, dead: &D, node: u64) -> bool
    ensures { SpansSession S.shows (own_state session.old) (own_state session.new) }
{
    let Ok(claim) = dead.claim(node) else {
        return false;
    };
    let cleaned = session.clean(node);
    dead.give_back(claim);
    gave(cleaned)
}

/// Releases what dead nodes have. Returns whether anything was released.
pub fn clean_dead<S: WorldStorage, D: DeadNodes>(
    alloc: Global,
    session: &mut Session<S>,
    dead: &D,
) -> bool
    ensures { SpansSession S.shows (own_state session.old) (own_state session.new) }
{
    let mut given = false;
    for node in dead.found(alloc) {
        if clean_one(session, dead, node) {
            given = true;
        }
    }
    given
}
