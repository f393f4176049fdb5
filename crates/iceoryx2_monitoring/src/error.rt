//! The reason why a node isn't claimed, or not looked at.

ghost use Rattle.std.specs.Prelude.{◌≡◌, ◌⊎◌, [], string_bytes};
ghost use Rattle.iceoryx2_file_log.specs.Errors.{IsOfFile};
ghost use Rattle.iceoryx2_file_log.specs.declared.error.FileFault.TheVariants as file;
ghost use Rattle.iceoryx2_monitoring.specs.Errors.{refusal_of, of_no_file, IsClaimFault};

use iceoryx2_file_log::error::FileFault;
use std::alloc::Global;
use std::error::Error;
use std::fmt;

/// The reason why a node isn't claimed, or not looked at.
#[derive(Clone, Copy, Debug, PartialEq, Eq)]
pub enum MonitoringFault {
    /// Another claim of the node stands, of this process or another. Comes only from a claim.
    NodeIsAlive { node: u64 },
    /// None of the numbers from 0 to 65,535 is free. Comes only if a free one is asked for.
    NoFreeNode,
    /// The file of the node, or the folder of the log, refused:
    ///
    /// - `IsALink`, `IsAFolder`, `NotAFile`: the path of the node's file belongs to something that is no
    ///   file.
    /// - `NoPermission`: the system doesn't permit to open or make the file, or to read the folder.
    /// - `DiskFull`: there is no room to make the file.
    /// - `OutOfMemory`: there was no memory.
    /// - `Failed { kind }`: the system refused for another reason, for example because there is no such
    ///   folder.
    File(FileFault),
}

impl fmt::Display for MonitoringFault {
    ghost use Rattle.std.specs.Prelude.{Some};
    ghost use Rattle.iceoryx2_monitoring.specs.Errors.{fault_text};

    ghost output = { λ fault. Some (fault_text fault) };

    fn fmt<W: fmt::Write>(&self, f: &mut fmt::Formatter<W>) -> fmt::Result {
        match self {
            MonitoringFault::NodeIsAlive { node } => write!(f, "node {node} is alive"),
            MonitoringFault::NoFreeNode => write!(f, "no node up to 65535 is free"),
            MonitoringFault::File(fault) => write!(f, "{fault}"),
        }
    }
}

/// The reason why a node isn't claimed, or not looked at, with the path that it is about.
#[derive(Debug, PartialEq, Eq)]
pub struct MonitoringError {
    path: String,
    fault: MonitoringFault,
}

// Written out, so that a proof of what lets one go doesn't take its fields apart.
impl Drop for MonitoringError {
    fn drop(self) {
        let MonitoringError { path: _, fault: _ } = self;
    }
}

impl MonitoringError {
    pub fn new(path: String, fault: MonitoringFault) -> MonitoringError
        ensures path { result.path ≡ path }
        ensures fault { result.fault ≡ fault }
    {
        MonitoringError { path, fault }
    }

    /// Returns the path of the node's file, or of the log. It is empty if there was no memory for it.
    pub fn path(&self) -> &str
        ensures { result.now ≡ string_bytes self.now.path }
    {
        &self.path
    }

    pub fn fault(&self) -> MonitoringFault
        ensures { result ≡ self.now.fault }
    {
        self.fault
    }
}

impl fmt::Display for MonitoringError {
    ghost use Rattle.std.specs.Prelude.{Some, string_bytes};
    ghost use Rattle.iceoryx2_monitoring.specs.Errors.{monitoring_error_text};

    ghost output = { λ error. Some (monitoring_error_text (string_bytes error.path) error.fault) };

    fn fmt<W: fmt::Write>(&self, f: &mut fmt::Formatter<W>) -> fmt::Result {
        write!(f, "{}: {}", self.path, self.fault)
    }
}

impl Error for MonitoringError {}

/// Returns the reason why the node isn't claimed, if its file isn't locked for this reason.
pub(crate) fn refusal(node: u64, fault: FileFault) -> MonitoringFault
    requires { (fault ≡ file.Busy) ⊎ IsOfFile fault }
    ensures is { result ≡ refusal_of node fault }
    ensures claim { IsClaimFault node result }
{
    match fault {
        FileFault::Busy => MonitoringFault::NodeIsAlive { node },
        _ => MonitoringFault::File(fault),
    }
}

/// Returns the error for want of memory for the path of a file.
pub(crate) fn no_memory(alloc: Global) -> MonitoringError
    ensures path { string_bytes result.path ≡ [] }
    ensures fault { result.fault ≡ MonitoringFault.File file.OutOfMemory }
{
    MonitoringError::new(
        String::new(alloc),
        MonitoringFault::File(FileFault::OutOfMemory),
    )
}

/// Returns true if the path of a node's file belongs to something that is no file, so that the node can't
/// be claimed.
pub(crate) fn is_of_no_file(fault: MonitoringFault) -> bool
    ensures { result ≡ of_no_file fault }
{
    match fault {
        MonitoringFault::File(fault) => match fault {
            FileFault::IsALink | FileFault::IsAFolder | FileFault::NotAFile => true,
            _ => false,
        },
        _ => false,
    }
}
