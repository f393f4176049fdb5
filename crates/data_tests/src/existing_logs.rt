//! Logs in files that are opened only where there is one.

use crate::log_scripts::assert_scripts;

/// The scripts, each behind its title.
const SCRIPTS: [(&str, &str); 2] = [
    (
        "a missing log is not made",
        "a open-existing => Failed { kind: NotFound }
         kind log => missing",
    ),
    (
        "a log that is there is read",
        "write log header lock
         a open-existing
         a hold
         a take => lock
         a take => none
         a free",
    ),
];

#[test]
fn logs_that_have_to_be_there_go_as_their_scripts_say(rt: HostRuntime) {
    assert_scripts(&rt, &rt, &SCRIPTS);
}
