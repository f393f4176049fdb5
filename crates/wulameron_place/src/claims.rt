//! Claims nodes at a place, and tells which are alive. Beside a log in a file they are files with locks. At a log in a
//! database they are rows, and locks of the database's session.

ghost use Rattle.std.specs.Prelude.{◌≡◌, IfOk, IfSome};
ghost use Rattle.wulameron_place.specs.Dead.{named_node, state_by, token_advice_of};

use crate::trouble::{advice, database_advice};
use iceoryx2_file_log::error::FileFault;
use iceoryx2_file_log::options::Sharing;
use iceoryx2_monitoring::error::{MonitoringError, MonitoringFault};
use iceoryx2_monitoring::state::{self, NodeState, NodeStatus};
use iceoryx2_monitoring::token::{self, Token};
use iceoryx2_postgres_log::fault::PostgresFault;
use iceoryx2_postgres_log::nodes::{self, Life, NodeRow};
use std::alloc::Global;
use std::fmt;
use std::fs::File;
use std::io::BufReader;
use std::random::RandomSource;
use std::rt::Files;
use std::time::{Clock, Duration};
use wulameron_arguments::asked::{Database, Place};
use wulameron_arguments::pipes::Pipes;

/// The claim of a node: no other process has one as long as it exists.
#[derive(Drop)]
pub enum Claim {
    /// By the lock of a file, which ends with the token.
    File(Token),
    /// By a lock of the database's session, which ends with the session.
    Session { node: u64 },
}

impl Claim {
    /// Returns the node's number.
    pub fn node(&self) -> u64
        ensures { result ≡ named_node self.now }
    {
        match self {
            Claim::File(token) => token.node(),
            Claim::Session { node } => *node,
        }
    }
}

/// Why a node of a database isn't claimed, or not looked at.
#[derive(Clone, Copy)]
pub enum NodeFault {
    /// Another session has it.
    IsAlive { node: u64 },
    /// None of the numbers from 0 to 65,535 is free.
    NoFreeNode,
    /// The database refused.
    Refused(PostgresFault),
}

impl From<PostgresFault> for NodeFault {
    ghost use Rattle.std.specs.Prelude.{◌≡◌};
    ghost use Rattle.wulameron_place.specs.declared.claims.NodeFault.TheVariants as node_fault;

    ghost from_gives = { λ fault given. given ≡ node_fault.Refused fault };

    fn from(fault: PostgresFault) -> NodeFault {
        NodeFault::Refused(fault)
    }
}

impl fmt::Display for NodeFault {
    ghost use Rattle.std.specs.Prelude.{Some};
    ghost use Rattle.wulameron_place.specs.Dead.{node_fault_text};

    ghost output = { λ fault. Some (node_fault_text fault) };

    fn fmt<W: fmt::Write>(&self, f: &mut fmt::Formatter<W>) -> fmt::Result {
        match self {
            NodeFault::IsAlive { node } => write!(f, "node {node} is alive"),
            NodeFault::NoFreeNode => write!(f, "no node up to 65535 is free"),
            NodeFault::Refused(fault) => write!(f, "{fault}; {}", database_advice(*fault)),
        }
    }
}

/// Why the file of a node isn't claimed, or not looked at. It is told with what can be done.
#[derive(Clone, Copy)]
pub struct TokenTrouble(pub MonitoringFault);

impl fmt::Display for TokenTrouble {
    ghost use Rattle.std.specs.Prelude.{Some};
    ghost use Rattle.wulameron_place.specs.Dead.{token_text};

    ghost output = { λ trouble. Some (token_text trouble.0) };

    fn fmt<W: fmt::Write>(&self, f: &mut fmt::Formatter<W>) -> fmt::Result {
        match self.0 {
            MonitoringFault::File(fault) => write!(f, "{fault}; {}", token_advice(fault)),
            fault => write!(f, "{fault}"),
        }
    }
}

/// Returns what can be done if the file of a node, or its folder, refused.
fn token_advice(fault: FileFault) -> &'static str
    ensures { result.now ≡ token_advice_of fault }
{
    match fault {
        FileFault::NoPermission => "let this user make and write files in the log's folder",
        _ => advice(fault),
    }
}

/// Why a node isn't claimed, or not looked at.
#[derive(Drop)]
pub enum NodeError {
    File(MonitoringError),
    Database(NodeFault),
}

// ---- claims

/// Claims the named node at the place, or the lowest that is free. It tries for the named one as long as for the log.
pub fn claim_node<F: Files<File = File> + Clock + RandomSource + AllocGlobal>(
    rt: &F,
    place: Place<'_>,
    node: Option<u64>,
) -> Result<Claim, NodeError>
    ensures named { IfOk result (λ claim. IfSome node (λ named. named_node claim ≡ named)) }
{
    let patience = place.options.patience;
    match place.database() {
        Some(database) => match claim_of_session(rt.alloc(), database, node, patience) {
            Ok(node) => Ok(Claim::Session { node }),
            Err(fault) => Err(NodeError::Database(fault)),
        },
        None => match token_of(rt, place, node) {
            Ok(token) => Ok(Claim::File(token)),
            Err(error) => Err(NodeError::File(error)),
        },
    }
}

/// Returns the token of the named node beside the log's file, or of the lowest that is free.
fn token_of<F: Files<File = File> + Clock + RandomSource + AllocGlobal>(
    rt: &F,
    place: Place<'_>,
    node: Option<u64>,
) -> Result<Token, MonitoringError>
    ensures named { IfOk result (λ token. IfSome node (λ named. token.node ≡ named)) }
{
    let options = place.options;
    match node {
        Some(node) => token::claim_within(rt, place.at, node, options.sharing, options.patience),
        None => token::claim_free(rt, place.at, options.sharing),
    }
}

/// Returns the node that the session has claimed at the database's log: the named one, or the lowest that is free.
fn claim_of_session(
    alloc: Global,
    database: Database<'_>,
    node: Option<u64>,
    patience: Duration,
) -> Result<u64, NodeFault>
    ensures named { IfOk result (λ claimed. IfSome node (λ named. claimed ≡ named)) }
{
    let wait = millis(patience);
    let mut questions = database.pipes;
    let mut replies = replies_of(alloc, database)?;
    match node {
        Some(node) => {
            if nodes::claim(
                alloc,
                database.log,
                node,
                wait,
                &mut questions,
                &mut replies,
            )? {
                return Ok(node);
            }
            Err(NodeFault::IsAlive { node })
        }
        None => match nodes::claim_free(alloc, database.log, wait, &mut questions, &mut replies)? {
            Some(node) => Ok(node),
            None => Err(NodeFault::NoFreeNode),
        },
    }
}

/// Returns a duration in milliseconds, as far as they have room.
pub(crate) fn millis(duration: Duration) -> u64 {
    match u64::try_from(duration.as_millis()) {
        Ok(millis) => millis,
        Err(_) => u64::MAX,
    }
}

/// Returns a reader of the session's replies. It reads each reply whole, so that none has bytes left over.
fn replies_of<'a>(
    alloc: Global,
    database: Database<'a>,
) -> Result<BufReader<&'a Pipes>, PostgresFault> {
    match BufReader::new(alloc, database.pipes) {
        Ok(replies) => Ok(replies),
        Err(_) => Err(PostgresFault::OutOfMemory),
    }
}

// ---- states

/// Returns each node that was claimed at the place, by rising number, and whether it is alive.
pub fn list<F: Files<File = File> + AllocGlobal>(
    rt: &F,
    place: Place<'_>,
) -> Result<Vec<NodeStatus>, NodeError> {
    match place.database() {
        Some(database) => match list_of_database(rt.alloc(), database) {
            Ok(found) => Ok(found),
            Err(fault) => Err(NodeError::Database(NodeFault::Refused(fault))),
        },
        None => match state::list(rt, place.at) {
            Ok(found) => Ok(found),
            Err(error) => Err(NodeError::File(error)),
        },
    }
}

fn list_of_database(
    alloc: Global,
    database: Database<'_>,
) -> Result<Vec<NodeStatus>, PostgresFault> {
    let mut questions = database.pipes;
    let mut replies = replies_of(alloc, database)?;
    let rows = nodes::list(alloc, database.log, &mut questions, &mut replies)?;
    let mut found = Vec::new(alloc);
    for row in &rows {
        if found.push(status_of(*row)).is_err() {
            return Err(PostgresFault::OutOfMemory);
        }
    }
    Ok(found)
}

/// Returns the state of a node by the row of a database.
fn status_of(row: NodeRow) -> NodeStatus
    ensures { result ≡ record { node = row.node; state = state_by row.life } }
{
    let NodeRow { node, life } = row;
    let state = match life {
        Life::Alive => NodeState::Alive,
        Life::Lost => NodeState::Lost,
        Life::Dead => NodeState::Dead,
    };
    NodeStatus { node, state }
}

/// Returns whether this node is alive.
pub fn state_of<F: Files<File = File> + AllocGlobal>(
    rt: &F,
    place: Place<'_>,
    node: u64,
) -> Result<NodeState, NodeError> {
    if place.database().is_some() {
        return Ok(state_among(&list(rt, place)?, node));
    }
    match state::state(rt, place.at, node) {
        Ok(state) => Ok(state),
        Err(error) => Err(NodeError::File(error)),
    }
}

/// Returns the state of this node, by those of all that were ever claimed.
fn state_among(found: &[NodeStatus], node: u64) -> NodeState {
    for status in found {
        if status.node == node {
            return status.state;
        }
    }
    NodeState::DoesNotExist
}

// ---- claims of dead nodes

/// Claims a dead node, if it is still dead, by its file.
pub(crate) fn dead_token<F: Files<File = File> + Clock + RandomSource + AllocGlobal>(
    rt: &F,
    path: &str,
    node: u64,
    sharing: Sharing,
) -> Result<Claim, NodeError> {
    match token::claim(rt, path, node, sharing) {
        Ok(token) => Ok(Claim::File(token)),
        Err(error) => Err(NodeError::File(error)),
    }
}

/// Does the same by a lock of the session.
pub(crate) fn dead_lock(
    alloc: Global,
    database: Database<'_>,
    node: u64,
) -> Result<Claim, NodeFault> {
    let mut questions = database.pipes;
    let mut replies = replies_of(alloc, database)?;
    if nodes::claim_dead(alloc, database.log, node, &mut questions, &mut replies)? {
        return Ok(Claim::Session { node });
    }
    Err(NodeFault::IsAlive { node })
}

/// For how long it tries to claim a node again, in milliseconds. Before that time the server notices that the machine
/// of the last session is gone.
const AGAIN_MILLIS: u64 = 30_000;

/// Claims a node of this program in a new session of the database.
pub(crate) fn lock_again(
    alloc: Global,
    database: Database<'_>,
    node: u64,
) -> Result<u64, NodeFault> {
    claim_of_session(
        alloc,
        database,
        Some(node),
        Duration::from_millis(AGAIN_MILLIS),
    )
}

/// Releases the lock of a node. If the session refuses, that ends the session, and the lock with it.
pub(crate) fn give_lock_back(alloc: Global, database: Database<'_>, node: u64) {
    let mut questions = database.pipes;
    if let Ok(mut replies) = replies_of(alloc, database) {
        let _ = nodes::release(alloc, database.log, node, &mut questions, &mut replies);
    }
}
