//! Logs in files that are read without the lock.

use crate::log_scripts::assert_scripts;

/// The scripts, each behind its title.
const SCRIPTS: [(&str, &str); 4] = [
    (
        "a look shows what stood",
        "write log header lock lock
         a open
         b open
         a hold
         b look => Busy
         a take-all => 2
         a free
         b look
         a add
         b take-all => 2
         b look
         b take-all => 1",
    ),
    (
        "a reader leaves the file as it is",
        "write log header lock
         a open-to-read
         a look
         a take-all => 1
         has log header lock => yes
         a append => Failed
         a hold => Failed
         a fault => ReadOnly",
    ),
    (
        "a reader leaves the file as it is",
        "write log header lock lock/20
         a open-to-read
         a look
         a take-all => 1
         has log header lock lock/20 => yes
         a append => Failed
         a hold => Failed
         a fault => ReadOnly",
    ),
    (
        "a reader goes to where the log goes on",
        "write log header lock*15
         a open-to-read
         b open
         b hold
         b take-all => 15
         b compact 1
         b free
         a look
         a take-all => Moved
         a rejoin => 0
         b add
         a take-all => 1",
    ),
];

#[test]
fn looks_go_as_their_scripts_say(rt: HostRuntime) {
    assert_scripts(&rt, &rt, &SCRIPTS);
}
