//! Compactions of logs in files. A header and 15 locks are 843 bytes, and a compaction to one lock makes 101 of them.
//! The new file has the name `log.compacted` while it is made.

use crate::log_scripts::assert_scripts;

/// The scripts, each behind its title.
const SCRIPTS: [(&str, &str); 25] = [
    (
        "who has the old file is sent on",
        "write log header lock*15
         a open
         b open
         b hold
         b take-all => 15
         b free

         a hold
         a take-all => 15
         a compact 1
         a position => 101
         a take-all => 0
         a free

         b hold
         b take => Moved
         b rejoin => 0
         b in-snapshot => yes
         b take => lock
         b in-snapshot => no
         b take => none
         b free

         a add
         b hold
         b take => lock
         b take => none
         b free
         b add
         has log snapshot-header lock lock lock => yes",
    ),
    (
        "a compacted file is opened",
        "write log header lock*15
         a open
         a hold
         a take-all => 15
         a compact 1
         a free
         b open
         b hold
         b take => lock
         b take => none
         b free
         kind log.compacted => missing
         b snapshot-length => 53",
    ),
    (
        "a compacted file has the mode",
        "a open-group
         a add 15
         mode log => 660
         a hold
         a take-all => 0
         a compact 1
         a free
         mode log => 660",
    ),
    (
        "what is left beside does not disturb",
        "write log header lock*15
         write log.compacted header
         a open
         a hold
         a take-all => 15
         a compact 1
         a free
         has log snapshot-header lock => yes",
    ),
    (
        "what is left beside does not disturb",
        "write log header lock*15
         write other lock
         link log.compacted other
         a open
         a hold
         a take-all => 15
         a compact 1
         a free
         has log snapshot-header lock => yes
         has other lock => yes
         kind log => file",
    ),
    // Eight times 101 are 808 bytes: 14 locks make 790, and 15 make 843.
    (
        "a compaction saves much or is refused",
        "write log header lock*14
         a open
         a hold
         a take-all => 14
         a compact 1 => Failed
         a append
         a fault => none
         length log => 843
         kind log.compacted => missing",
    ),
    (
        "a compaction saves much or is refused",
        "write log header lock*15
         a open
         a hold
         a take-all => 15
         a compact 1
         a append
         a fault => none
         length log => 154
         kind log.compacted => missing",
    ),
    (
        "a refused compaction is no fault",
        "write log header lock*15
         make-folder log.compacted
         a open
         a hold
         a hold => Failed
         a take-all => 15
         a compact 1 => Failed
         kind log.compacted => folder
         kind log => file
         a fault => HeldAlready",
    ),
    (
        "a log is held and read before it is compacted",
        "write log header lock*15
         a open
         a compact 1 => Failed
         a hold
         a compact 1 => Failed
         a take-all => 15
         a compact 1",
    ),
    (
        "a log that lost its path is not compacted",
        "write log header lock*15
         a open
         a hold
         a take-all => 15
         rename log kept
         make-folder log
         a compact 1 => Failed
         length kept => 843
         kind log.compacted => missing
         kind log => folder
         a fault => none",
    ),
    (
        "a log that lost its path is not compacted",
        "write log header lock*15
         a open
         a hold
         a take-all => 15
         rename log kept
         write log header
         a compact 1 => Moved
         length kept => 843
         kind log.compacted => missing
         has log header => yes
         a fault => none",
    ),
    (
        "a handle goes to no other log",
        "write log header lock
         a open
         a hold
         write other another
         rename other log
         a rejoin => Failed
         a take => lock
         a fault => AnotherLog",
    ),
    (
        "a handle goes to no other log",
        "write log header lock
         a open
         a hold
         write other header
         rename other log
         a rejoin => 258
         a take => none
         a fault => none",
    ),
    (
        "a handle goes back to the beginning of its file",
        "write log header lock*3
         a open
         a hold
         a take-all => 3
         a rejoin => 258
         a take-all => 3",
    ),
    (
        "a snapshot that ends early is damaged",
        "write log snapshot-header lock/20
         a open
         a hold
         a take => Damaged
         a take => Damaged
         a free
         has log snapshot-header lock/20 => yes
         a state => Damaged { at: 48 }",
    ),
    (
        "a snapshot that ends early is damaged",
        "write log snapshot-header mark
         a open
         a hold
         a take => Damaged
         a take => Damaged
         a free
         has log snapshot-header mark => yes
         a state => Damaged { at: 48 }",
    ),
    (
        "a snapshot that ends within an entry is damaged",
        "write log split-header lock lock
         a open
         a hold
         a take => lock
         a take => Damaged
         a free
         has log split-header lock lock => yes
         a state => Damaged { at: 101 }",
    ),
    // 1,235 locks make 65,503 bytes, and 1,236 make 65,556.
    (
        "a long file is tried once",
        "write log header lock*1235
         a open
         a hold
         a take-all => 1235
         a long => no
         a compact 200 => Failed
         a long => no",
    ),
    (
        "a long file is tried once",
        "write log header lock*1236
         a open
         a hold
         a take-all => 1236
         a long => yes
         a compact 200 => Failed
         a long => no",
    ),
    // 65,536 bytes more than 65,556 are 131,092: 2,472 locks make 131,064, and 2,473 make 131,117.
    (
        "a compaction is put off by 64 kib",
        "write log header lock*1236
         a open
         a hold
         a put-off
         a free
         write log header lock*2472
         a hold
         a long => no",
    ),
    (
        "a compaction is put off by 64 kib",
        "write log header lock*1236
         a open
         a hold
         a put-off
         a free
         write log header lock*2473
         a hold
         a long => yes",
    ),
    // Eight times 10,648 are 85,184 bytes: 1,606 locks make 85,166, and 1,607 make 85,219.
    (
        "beside a snapshot eight times that is long",
        "write log long-snapshot-header lock*1606
         a open
         a hold
         a long => no
         a rejoin => 0
         a long => no",
    ),
    (
        "beside a snapshot eight times that is long",
        "write log long-snapshot-header lock*1607
         a open
         a hold
         a long => yes
         a rejoin => 0
         a long => yes",
    ),
    (
        "beside a snapshot eight times that is long",
        "write log header lock*2000
         a open
         a hold
         a take-all => 2000
         a compact 200
         a free
         write log long-snapshot-header lock*1606
         a hold
         a long => no",
    ),
    (
        "beside a snapshot eight times that is long",
        "write log header lock*2000
         a open
         a hold
         a take-all => 2000
         a compact 200
         a free
         write log long-snapshot-header lock*1607
         a hold
         a long => yes",
    ),
];

#[test]
fn compactions_go_as_their_scripts_say(rt: HostRuntime) {
    assert_scripts(&rt, &rt, &SCRIPTS);
}
