//! Finds the log that no word names.

ghost use Rattle.std.specs.Prelude.{◌≡◌, IfOk, None, bytes_eq, cond, option_map, string_bytes};
ghost use Rattle.wulameron_arguments.specs.Home.{default_path, log_in, own_folder_of};

use iceoryx2_file_log::error::{FileFault, system_fault};
use std::alloc::{AllocError, Global};
use std::env::{self, VarError};
use std::fmt;
use std::fs::{self, DirBuilder, File};
use std::io::ErrorKind;
use std::os::unix::fs::{DirBuilderExt, MetadataExt, PermissionsExt};
use std::rt::{Env, Files};

/// The variable of the environment that names the log.
const LOG_VARIABLE: &str = "WULAMERON_LOG";

/// The variable of the environment that names the folder of what a user's programs share until a restart.
const RUNTIME_VARIABLE: &str = "XDG_RUNTIME_DIR";

/// Its owner is the user of this process.
const OWN_PROCESS: &str = "/proc/self";

/// The log that no word names.
pub struct DefaultLog {
    pub path: String,
    /// The folder that has to be this user's. `None` if the environment names the log itself.
    pub folder: Option<String>,
}

// It is written out, so that proofs of what lets one go don't pay for each field.
impl Drop for DefaultLog {
    fn drop(self) {
        let DefaultLog { path: _, folder: _ } = self;
    }
}

impl DefaultLog {
    /// Returns the folder that has to be this user's for a log of this path, if the path is this log's.
    pub fn folder_for(&self, path: &str) -> Option<&str>
        ensures { option_map (λ folder. folder.now) result
            ≡ cond (bytes_eq (string_bytes self.now.path) path.now) (option_map string_bytes self.now.folder) None }
    {
        if self.path.as_str() != path {
            return None;
        }
        match &self.folder {
            Some(folder) => Some(folder.as_str()),
            None => None,
        }
    }
}

/// What the environment and the system tell about the place of a log.
#[derive(Drop)]
struct Surroundings {
    /// The log that is named.
    named: Option<String>,
    /// The folder of what a user's programs share.
    runtime: Option<String>,
    /// The number of the user.
    user: Option<u32>,
}

/// Returns the log that no word names: the one that the environment's `WULAMERON_LOG` names, or `wulameron/log` in the
/// folder of `XDG_RUNTIME_DIR`, or a log in a folder of the user's under `/dev/shm`. `None` if none of these is known.
/// A variable that is empty or isn't UTF-8 names nothing, and a folder has to be an absolute path.
///
/// `AllocError` if there is no memory.
pub fn default_log<R: Env + Files<File = File> + AllocGlobal>(
    rt: &R,
) -> Result<Option<DefaultLog>, AllocError> {
    let surroundings = Surroundings {
        named: variable(rt, LOG_VARIABLE)?,
        runtime: variable(rt, RUNTIME_VARIABLE)?.filter(|folder| folder.as_str().starts_with('/')),
        user: user(rt),
    };
    default_log_in(rt.alloc(), surroundings)
}

/// Returns the variable, if it is set and not empty.
pub(crate) fn variable<R: Env + AllocGlobal>(
    rt: &R,
    name: &str,
) -> Result<Option<String>, AllocError> {
    match env::var(rt, name) {
        Ok(text) => Ok(Some(text).filter(|text| !text.as_str().is_empty())),
        Err(VarError::OutOfMemory) => Err(AllocError),
        Err(_) => Ok(None),
    }
}

/// Returns the number of this process's user, if the system tells it.
fn user<R: Files<File = File>>(rt: &R) -> Option<u32> {
    match fs::metadata(rt, OWN_PROCESS) {
        Ok(metadata) => Some(metadata.uid()),
        Err(_) => None,
    }
}

/// Returns the log by these.
fn default_log_in(
    alloc: Global,
    surroundings: Surroundings,
) -> Result<Option<DefaultLog>, AllocError>
    ensures path { IfOk result (λ found. option_map (λ log. string_bytes log.path) found ≡ default_path surroundings) }
{
    let Surroundings {
        named,
        runtime,
        user,
    } = surroundings;
    if let Some(path) = named {
        return Ok(Some(DefaultLog { path, folder: None }));
    }
    if let Some(runtime) = runtime {
        return Ok(Some(in_folder(alloc, format!(in alloc; "{runtime}/wulameron")?)?));
    }
    match user {
        Some(user) => Ok(Some(in_folder(alloc, format!(in alloc; "/dev/shm/wulameron-{user}")?)?)),
        None => Ok(None),
    }
}

/// Returns the log in this folder.
fn in_folder(alloc: Global, folder: String) -> Result<DefaultLog, AllocError>
    ensures path { IfOk result (λ log. string_bytes log.path ≡ log_in (string_bytes folder)) }
{
    let path = format!(in alloc; "{folder}/log")?;
    Ok(DefaultLog {
        path,
        folder: Some(folder),
    })
}

/// Why the folder of the log isn't used.
#[derive(Clone, Copy)]
pub enum FolderError {
    /// It is no folder.
    NotAFolder,
    /// Another user owns it.
    OfAnotherUser,
    /// Other users can use it.
    Shared,
    /// The system refused.
    Refused(FileFault),
}

impl fmt::Display for FolderError {
    ghost use Rattle.std.specs.Prelude.{Some};
    ghost use Rattle.wulameron_arguments.specs.Home.{folder_error_text};

    ghost output = { λ error. Some (folder_error_text error) };

    fn fmt<W: fmt::Write>(&self, f: &mut fmt::Formatter<W>) -> fmt::Result {
        match self {
            FolderError::NotAFolder => write!(
                f,
                "isn't a folder; remove it, or name a log by --at"
            ),
            FolderError::OfAnotherUser => write!(
                f,
                "is a folder of another user; set XDG_RUNTIME_DIR to one of yours, or name a log by --at"
            ),
            FolderError::Shared => write!(
                f,
                "is a folder that other users can use; make it yours alone (chmod 700), or name a log by --at"
            ),
            FolderError::Refused(fault) => write!(f, "{fault}; name a log with --at"),
        }
    }
}

/// Makes the folder of the log if there is none, for this user alone. A folder that is there has to be this user's
/// alone.
///
/// `NotAFolder`, `OfAnotherUser` and `Shared` if it isn't, and `Refused` if the system refuses.
pub fn make_folder<R: Files<File = File>>(rt: &R, folder: &str) -> Result<(), FolderError> {
    match DirBuilder::new().mode(0o700).create(rt, folder) {
        Ok(()) => Ok(()),
        Err(error) if error.kind() == ErrorKind::AlreadyExists => test_folder(rt, folder),
        Err(error) => Err(FolderError::Refused(system_fault(&error))),
    }
}

/// Tests that a folder is this user's alone.
fn test_folder<R: Files<File = File>>(rt: &R, folder: &str) -> Result<(), FolderError> {
    match fs::symlink_metadata(rt, folder) {
        Ok(found) => {
            let is_own = user(rt) == Some(found.uid());
            let is_private = found.permissions().mode() & 0o077 == 0;
            own_folder(found.is_dir(), is_own, is_private)
        }
        Err(error) => Err(FolderError::Refused(system_fault(&error))),
    }
}

/// Returns what keeps something from being a folder of this user's alone, by whether it is a folder, this user's, and
/// private.
fn own_folder(is_folder: bool, is_own: bool, is_private: bool) -> Result<(), FolderError>
    ensures { result ≡ own_folder_of is_folder is_own is_private }
{
    if !is_folder {
        return Err(FolderError::NotAFolder);
    }
    if !is_own {
        return Err(FolderError::OfAnotherUser);
    }
    if !is_private {
        return Err(FolderError::Shared);
    }
    Ok(())
}
