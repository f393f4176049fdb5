//! The claim of a node.

ghost use Rattle.std.specs.Prelude.{◌≡◌, ◌≤◌, ◌⊎◌, IfOk, IfErr, IfSome};
ghost use Rattle.iceoryx2_file_log.specs.declared.error.FileFault.TheVariants as file;
ghost use Rattle.iceoryx2_file_log.specs.Errors.{IsOfFile};
ghost use Rattle.iceoryx2_monitoring.specs.Paths.{token_of};
ghost use Rattle.iceoryx2_monitoring.specs.Errors.{IsClaimError, IsFreeClaimError};

use crate::error::{MonitoringError, MonitoringFault, is_of_no_file, no_memory, refusal};
use crate::path::token_path;
use crate::state::{NodeState, state};
use iceoryx2_file_log::bytes::lock;
use iceoryx2_file_log::error::FileFault;
use iceoryx2_file_log::locked_file::LockedFile;
use iceoryx2_file_log::opening::find_or_make_file;
use iceoryx2_file_log::options::Sharing;
use std::alloc::Global;
use std::fs::File;
use std::random::RandomSource;
use std::rt::Files;
use std::time::{Clock, Duration};

/// For how many milliseconds `claim` tries while another process, which may only be looking, has the
/// lock.
const PATIENCE_MILLIS: u64 = 50;

/// The highest number that is given to anyone who asks for a free one.
pub const HIGHEST_FREE_NODE: u64 = 65_535;

/// The claim of a node: as long as it stands, nobody else has one of the same node. The claim is given
/// back when the token is dropped, and by the system however the process ends. So a process keeps the
/// token, bound to a name, as long as it acts as that node. `let _ = claim(..)` gives the claim back at
/// once.
///
/// The node's file stays for ever. If it were removed, one process could hold the lock of the file that
/// is gone, and another process that of a new one.
#[derive(Drop)]
pub struct Token {
    // Its lock is the claim, and goes with it.
    file: File,
    node: u64,
}

impl Token {
    /// Returns the node's number.
    pub fn node(&self) -> u64
        ensures { result ≡ self.now.node }
    {
        self.node
    }
}

/// Returns the file of this path with its lock, and makes the file if nothing has the path. `Busy` if
/// another has the lock.
fn locked<R: Files<File = File> + Clock + RandomSource + AllocGlobal>(
    rt: &R,
    path: &str,
    sharing: Sharing,
    patience: Duration,
) -> Result<File, FileFault>
    ensures { IfErr result (λ why. (why ≡ file.Busy) ⊎ IsOfFile why) }
{
    let file = find_or_make_file(rt, path, sharing.mode())?;
    lock(rt, &mut LockedFile::new(&file), patience)?;
    Ok(file)
}

/// Claims a node for this process, among those that share the log of this path. If the node has no file,
/// the call makes one, for this user or its group as `sharing` says. The file stays for ever.
///
/// - `NodeIsAlive`: another claim of the node stood for 50 milliseconds, of this process or another. It
///   also comes if a look at the node takes as long, because the looking process was stopped, or if
///   another process cleans up for the node for as long.
/// - `File(IsALink)`, `File(IsAFolder)`, `File(NotAFile)`: the path of the node's file belongs to
///   something that is no file.
/// - `File(NoPermission)`: the system doesn't permit to open the file, or to make it.
/// - `File(DiskFull)`: there is no room to make the file.
/// - `File(OutOfMemory)`: there was no memory.
/// - `File(Failed { kind })`: the system refused for another reason, for example because there is no such
///   folder, or no lock on its file system.
pub fn claim<R: Files<File = File> + Clock + RandomSource + AllocGlobal>(
    rt: &R,
    log_path: &str,
    node: u64,
    sharing: Sharing,
) -> Result<Token, MonitoringError>
    ensures ok { IfOk result (λ token. token.node ≡ node) }
    ensures err { IfErr result (λ error. IsClaimError node (token_of log_path.now node) error) }
{
    let patience = Duration::from_millis(PATIENCE_MILLIS);
    claim_within(rt, log_path, node, sharing, patience)
}

/// Claims a node as `claim` does, but tries for this long while another process has the node's file. So
/// the node of a process that was killed is claimed as soon as any process that cleans up for it is done.
pub fn claim_within<R: Files<File = File> + Clock + RandomSource + AllocGlobal>(
    rt: &R,
    log_path: &str,
    node: u64,
    sharing: Sharing,
    patience: Duration,
) -> Result<Token, MonitoringError>
    ensures ok { IfOk result (λ token. token.node ≡ node) }
    ensures err { IfErr result (λ error. IsClaimError node (token_of log_path.now node) error) }
{
    match token_path(rt.alloc(), log_path, node) {
        Err(_) => Err(no_memory(rt.alloc())),
        Ok(path) => match locked(rt, &path, sharing, patience) {
            Ok(file) => Ok(Token { file, node }),
            Err(fault) => Err(MonitoringError::new(path, refusal(node, fault))),
        },
    }
}

/// Returns the claim of the node. `None` if the node is alive, or if the path of its file belongs to
/// something that is no file.
fn claim_if_free<R: Files<File = File> + Clock + RandomSource + AllocGlobal>(
    rt: &R,
    log_path: &str,
    node: u64,
    sharing: Sharing,
) -> Result<Option<Token>, MonitoringError>
    ensures ok { IfOk result (λ found. IfSome found (λ token. token.node ≡ node)) }
    ensures err { IfErr result (IsFreeClaimError log_path.now) }
{
    // A look first, since looks don't wait for one another, and a claim waits for who is alive.
    match state(rt, log_path, node) {
        Ok(NodeState::Alive) => return Ok(None),
        _ => {}
    }
    match claim(rt, log_path, node, sharing) {
        Ok(token) => Ok(Some(token)),
        Err(error) => match error.fault() {
            MonitoringFault::NodeIsAlive { node: _ } => Ok(None),
            fault => {
                if is_of_no_file(fault) {
                    return Ok(None);
                }
                Err(error)
            }
        },
    }
}

/// Returns the error for the case that no node is free.
fn no_free_node(alloc: Global, log_path: &str) -> MonitoringError
    ensures { IsFreeClaimError log_path.now result }
{
    match String::from_str(alloc, log_path) {
        Ok(path) => MonitoringError::new(path, MonitoringFault::NoFreeNode),
        Err(_) => no_memory(alloc),
    }
}

/// Claims the lowest node from 0 to 65,535 that isn't alive. A number whose file's path belongs to a link
/// or a folder is passed over.
///
/// `NoFreeNode` has the log's path, and comes if none of these is left. Each other error has the path of
/// a node's file, and is one of `claim`'s.
pub fn claim_free<R: Files<File = File> + Clock + RandomSource + AllocGlobal>(
    rt: &R,
    log_path: &str,
    sharing: Sharing,
) -> Result<Token, MonitoringError>
    ensures ok { IfOk result (λ token. token.node ≤ 65535) }
    ensures err { IfErr result (IsFreeClaimError log_path.now) }
{
    for node in 0..=HIGHEST_FREE_NODE {
        if let Some(token) = claim_if_free(rt, log_path, node, sharing)? {
            return Ok(token);
        }
    }
    Err(no_free_node(rt.alloc(), log_path))
}
