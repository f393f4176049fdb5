//! Logs whose file loses the log's path under a handle.

use crate::log_scripts::assert_scripts;

/// The scripts, each behind its title.
const SCRIPTS: [(&str, &str); 7] = [
    (
        "a file without the path is read to its end alone",
        "write log header lock
         a open
         remove log
         a hold
         a take => lock
         a take => Failed
         a free
         a add => Failed
         a fault => Removed",
    ),
    (
        "a file without the path is read to its end alone",
        "write log header lock
         a open
         rename log kept
         a hold
         a take => lock
         a take => Failed
         a free
         a add => Failed
         a fault => Removed",
    ),
    (
        "a file without the path is read to its end alone",
        "write log header lock
         a open
         write other header
         rename other log
         a hold
         a take => lock
         a take => Failed
         a free
         a add => Failed
         a fault => Removed",
    ),
    (
        "nothing of a file without the path is cut off",
        "write log header lock lock/20
         a open
         rename log kept
         a hold
         a take => lock
         a take => Failed
         a free
         has kept header lock lock/20 => yes",
    ),
    (
        "a file that has its path back is used",
        "write log header
         a open
         rename log kept
         a add => Failed
         rename kept log
         a add
         has log header lock => yes",
    ),
    (
        "a mark leads from a file without the path",
        "write log header lock*15
         a open
         b open
         a hold
         a take-all => 15
         a compact 1
         a free
         b hold
         b take-all => Moved
         b rejoin => 0
         b take-all => 1",
    ),
    (
        "a removed log goes on nowhere",
        "write log header lock
         a open
         a hold
         remove log
         a rejoin => Failed
         a fault => Removed",
    ),
];

#[test]
fn logs_that_lose_their_paths_go_as_their_scripts_say(rt: HostRuntime) {
    assert_scripts(&rt, &rt, &SCRIPTS);
}
