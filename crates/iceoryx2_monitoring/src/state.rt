//! The state of a node: alive or not.

ghost use Rattle.std.specs.Prelude.{◌≡◌, IfOk, IfErr};
ghost use Rattle.iceoryx2_file_log.specs.Errors.{IsOfFile};
ghost use Rattle.iceoryx2_monitoring.specs.Paths.{token_of};
ghost use Rattle.iceoryx2_monitoring.specs.Errors.{IsLookError, IsListError};
ghost use Rattle.iceoryx2_monitoring.specs.States.{state_of, IsRising, IsPlaceOf};

use crate::error::{MonitoringError, MonitoringFault, is_of_no_file, no_memory};
use crate::path::{node_of, token_path};
use iceoryx2_file_log::error::{FileFault, system_fault};
use iceoryx2_file_log::opening::find_file;
use iceoryx2_file_log::path::split;
use std::alloc::{AllocError, Global};
use std::fs::{self, DirEntry, File, TryLockError};
use std::io::{self, ErrorKind};
use std::rt::Files;

/// The state of a node.
#[derive(Clone, Copy, Debug, PartialEq, Eq)]
pub enum NodeState {
    /// A token of the node stands, of this process or another.
    Alive,
    /// The node's session with a database has ended, and its process may not know that yet. For some
    /// seconds nobody else gets the node. A node that is claimed by a file is never lost.
    Lost,
    /// The node was claimed, and the process that held its token is gone, or let the token go.
    Dead,
    /// The node was never claimed: there is no file of it.
    DoesNotExist,
}

/// A node that was claimed at some time, with its state.
#[derive(Clone, Copy, Debug, PartialEq, Eq)]
pub struct NodeStatus {
    pub node: u64,
    pub state: NodeState,
}

/// Returns the node's state by the answer to a try of the lock.
fn state_by(answer: Result<(), TryLockError>) -> Result<NodeState, FileFault>
    ensures state { result ≡ state_of answer }
    ensures file { IfErr result IsOfFile }
{
    match answer {
        Ok(()) => Ok(NodeState::Dead),
        Err(TryLockError::WouldBlock) => Ok(NodeState::Alive),
        Err(TryLockError::Error(error)) => Err(system_fault(&error)),
    }
}

/// Returns the state of the node whose file this is. A look takes a lock that looks share, and lets it go
/// at once.
fn look(rt: &impl Files<File = File>, path: &str) -> Result<NodeState, FileFault>
    ensures { IfErr result IsOfFile }
{
    match find_file(rt, path)? {
        None => Ok(NodeState::DoesNotExist),
        Some(file) => state_by(file.try_lock_shared()),
    }
}

/// Returns the state of a node, of the processes that share the log of this path. Nothing is made, and a
/// token of this very process counts like any other.
///
/// - `File(IsALink)`, `File(IsAFolder)`, `File(NotAFile)`: the path of the node's file belongs to
///   something that is no file.
/// - `File(NoPermission)`: the system doesn't permit to open the file.
/// - `File(OutOfMemory)`: there was no memory.
/// - `File(Failed { kind })`: the system refused for another reason, for example because the file
///   system has no locks.
pub fn state<R: Files<File = File> + AllocGlobal>(
    rt: &R,
    log_path: &str,
    node: u64,
) -> Result<NodeState, MonitoringError>
    ensures { IfErr result (λ error. IsLookError (token_of log_path.now node) error) }
{
    match token_path(rt.alloc(), log_path, node) {
        Err(_) => Err(no_memory(rt.alloc())),
        Ok(path) => match look(rt, &path) {
            Ok(state) => Ok(state),
            Err(fault) => Err(MonitoringError::new(path, MonitoringFault::File(fault))),
        },
    }
}

/// Returns the place where a status of this node would go, or where one is.
fn place_of(found: &[NodeStatus], node: u64) -> Result<usize, usize>
    requires { IsRising found.now }
    ensures { IfErr result (IsPlaceOf node found.now) }
{
    found.binary_search_by(|other| other.node.cmp(&node))
}

/// Puts the status in its place by the node's number. A node that is there already stays as it is.
#[tactic(auto, using(crate::proofs::Rising::still_rising))]
fn add(found: &mut Vec<NodeStatus>, status: NodeStatus) -> Result<(), AllocError>
    requires { IsRising found.old.items }
    ensures { IsRising found.new.items }
{
    match place_of(found, status.node) {
        Ok(_) => Ok(()),
        Err(at) => {
            found.insert(at, status)?;
            Ok(())
        }
    }
}

/// Adds the node's status, if the node has a file.
fn add_node<R: Files<File = File> + AllocGlobal>(
    rt: &R,
    log_path: &str,
    node: u64,
    found: &mut Vec<NodeStatus>,
) -> Result<(), MonitoringError>
    requires { IsRising found.old.items }
    ensures rising { IsRising found.new.items }
    ensures err { IfErr result (λ error. IsLookError (token_of log_path.now node) error) }
{
    match state(rt, log_path, node) {
        Ok(NodeState::DoesNotExist) => Ok(()),
        Ok(state) => match add(found, NodeStatus { node, state }) {
            Ok(()) => Ok(()),
            Err(_) => Err(no_memory(rt.alloc())),
        },
        Err(error) => {
            if is_of_no_file(error.fault()) {
                return Ok(());
            }
            Err(error)
        }
    }
}

/// Returns the refusal of the log's folder.
fn folder_error(alloc: Global, folder: &str, error: &io::Error) -> MonitoringError
    ensures { IsLookError folder.now result }
{
    match String::from_str(alloc, folder) {
        Ok(path) => MonitoringError::new(path, MonitoringFault::File(system_fault(error))),
        Err(_) => no_memory(alloc),
    }
}

/// Adds the status of the node whose file this entry of the log's folder is, if it is one.
fn add_entry<R: Files<File = File> + AllocGlobal>(
    rt: &R,
    log_path: &str,
    entry: &io::Result<DirEntry<&R>>,
    found: &mut Vec<NodeStatus>,
) -> Result<(), MonitoringError>
    requires { IsRising found.old.items }
    ensures rising { IsRising found.new.items }
    ensures err { IfErr result (IsListError log_path.now) }
{
    let (folder, log_name) = split(log_path);
    match entry {
        Ok(entry) => match node_of(entry.file_name(), log_name) {
            None => Ok(()),
            Some(node) => add_node(rt, log_path, node, found),
        },
        Err(error) => {
            // A name that is no text is no node's.
            if error.kind() == ErrorKind::InvalidFilename {
                return Ok(());
            }
            Err(folder_error(rt.alloc(), folder, error))
        }
    }
}

/// Returns each node that has a file beside the log of this path, by rising number, with its state. A
/// link or a folder that has the name of a node's file is passed over. A node that is claimed for the
/// first time meanwhile may be missing.
///
/// An error has the path of the node's file that refused, or of the log's folder:
///
/// - `File(NoPermission)`: the system doesn't permit to read the folder, or to open a node's file.
/// - `File(OutOfMemory)`: there was no memory.
/// - `File(Failed { kind })`: the system refused for another reason, for example because there is no such
///   folder.
pub fn list<R: Files<File = File> + AllocGlobal>(
    rt: &R,
    log_path: &str,
) -> Result<Vec<NodeStatus>, MonitoringError>
    ensures ok { IfOk result (λ found. IsRising found.items) }
    ensures err { IfErr result (IsListError log_path.now) }
{
    let (folder, _) = split(log_path);
    let entries = match fs::read_dir(&rt, folder) {
        Ok(entries) => entries,
        Err(error) => return Err(folder_error(rt.alloc(), folder, &error)),
    };
    let mut found = Vec::new(rt.alloc());
    for entry in entries {
        add_entry(rt, log_path, &entry, &mut found)?;
    }
    Ok(found)
}
