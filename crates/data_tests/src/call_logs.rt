//! Calls that hold a log in a file over several accesses, beside another handle of the same file.

use crate::log_scripts::assert_scripts;

/// The scripts, each behind its title.
const SCRIPTS: [(&str, &str); 3] = [
    (
        "a call keeps others out between its accesses",
        "c open
         b open
         c begin
         b hold
         b free
         c add
         b hold => Busy
         c add
         c end
         b hold
         b free",
    ),
    (
        "a call is refused with its first access",
        "c open
         b open
         b hold
         c begin
         c add => Busy
         b free
         c add => Busy
         c end
         c add",
    ),
    (
        "a call lets go where it pauses",
        "c open-pausing
         b open
         c begin
         c hold
         c pause => yes
         b hold
         c add => Busy
         b free
         c add
         b hold => Busy
         c end",
    ),
];

#[test]
fn calls_that_span_accesses_go_as_their_scripts_say(rt: HostRuntime) {
    assert_scripts(&rt, &rt, &SCRIPTS);
}
