//! How a log in a file is used.

ghost use Rattle.std.specs.Prelude.{◌≡◌, false};
ghost use Rattle.std.specs.Duration.{as_nanos};
ghost use Rattle.iceoryx2_file_log.specs.declared.options.Sharing.TheVariants as sharing;
ghost use Rattle.iceoryx2_file_log.specs.Options.{mode_of};

use std::time::Duration;

/// The users who may read and write the file of a log.
#[derive(Clone, Copy, Debug, PartialEq, Eq)]
pub enum Sharing {
    /// Only the user whose process made the file.
    User,
    /// That user, and the group of the file.
    Group,
}

impl Sharing {
    /// Returns the bits of a file's mode that stand for this.
    pub fn mode(self) -> u32
        ensures { result ≡ mode_of self }
    {
        match self {
            Sharing::User => 0o600,
            Sharing::Group => 0o660,
        }
    }
}

/// The options of a log in a file. Processes that share a log may use different options.
#[derive(Clone, Copy, Debug, PartialEq, Eq)]
pub struct FileLogOptions {
    /// The time for which `hold` tries while other handles hold the log.
    pub patience: Duration,
    /// The total time for which a look for a service waits while a node is creating it. No pause begins
    /// after that.
    pub creation_timeout: Duration,
    /// True if appended entries are synchronized, and the name of a file that is made, so that they
    /// survive a power loss.
    pub synchronizes: bool,
    /// The users who may read and write a file that is made. A file that is there already keeps its mode.
    pub sharing: Sharing,
}

impl FileLogOptions {
    /// Returns the defaults: half a second for each time, not synchronized, for this user alone.
    pub fn new() -> FileLogOptions
        ensures patience { as_nanos result.patience ≡ 500000000 }
        ensures creation_timeout { as_nanos result.creation_timeout ≡ 500000000 }
        ensures synchronizes { result.synchronizes ≡ false }
        ensures sharing { result.sharing ≡ sharing.User }
    {
        FileLogOptions {
            patience: Duration::from_millis(500),
            creation_timeout: Duration::from_millis(500),
            synchronizes: false,
            sharing: Sharing::User,
        }
    }
}
