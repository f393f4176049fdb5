//! A log in a file: its header, the treatment of unread bytes, the place of a handle, and its refusals.
//!
//! `header::encode` and `decode` are exact; a log has one header, of 48 bytes. `remainder::front_of`
//! finds exactly with what unread bytes begin: a whole entry, an entry of which more has to be read, the
//! remainder of a writer that died (`IsTorn`), or damage. `laws_of_tearing()`: no torn bytes begin with
//! an entry. `laws_of_crashes()` is over bytes, with any bytes in place of a write that isn't
//! synchronized. A crash of an append leaves the entries before it, with this one or without. Each
//! synchronized entry stays. A cut takes no entry, and a reader skips and invents none. The laws have a
//! premise: the bytes that are left in that place begin with no other entry.
//!
//! `snapshot_of` is exactly a header and the entries' forms. `compact` leaves a handle at the end of the
//! new file, behind the snapshot (`Compacts`), or where it was (`RefusesCompaction`). `rejoin` goes to a
//! file of the same log, before its snapshot (`Rejoins`). A mark is cut off only if it is all that is
//! left (`IsMarkCutOff`). `FileLog` states for each call what it makes of the handle's position
//! (`Place`). `next` shows the entry with which the bytes that it read begin. The file gets shorter only
//! if all that is left is torn, or a mark (`SparesEntries`). `append` puts the whole form at the end
//! (`Appends`) or leaves the position. After damage, or if nobody knows whether an append stands, each
//! call is refused by that name. If a handle found when it was held that its file no longer has the log's
//! path, `next` never says that no entry is left, and cuts nothing off (`IsAwayNext`). `Removed` then
//! comes when all is read, and from each append (`IsRemoved`). The path tells what a rename that reports
//! an error has done (`marking::renamed_though`). A look has the lock only while it measures
//! (`bytes::end_measuring`). Then `next` shows entries up to the measured length, and writes nothing
//! (`LooksAt`, `LooksNext`). A handle that was opened to read only is never held (`ReadsUnlocked`).
//! Handles begin after the header (`new_handle`, `new_reader`). Errors of `open` and its like have the
//! path; `path::split` is exact.
//!
//! `bytes` is how a handle locks, reads and writes, over any `Medium`: bytes under a lock, known if they
//! can be (`Known`). A handle has the lock only if the medium grants it. The bytes that were read ahead
//! are those at the position (`Reading`). Each change requires that everything that others may know of
//! stays (`MayChangeFrom`). The new file of a compaction is read back, and taken only if it holds exactly
//! the bytes that were written (`Holds`).
//!
//! `one_file` is how a handle holds a log, reads, appends and lets go in one file, over any medium.
//! `FileLog` calls it for a real file. If the bytes are known, so are the contents: the entries to which
//! the bytes come (`contents_of`). Each call keeps what is true of a handle (`Fits`). Entries that others
//! appended are behind the unread ones, `next` shows the first unread entry, `accept` takes it over, and
//! an append is the last one. Torn bytes, and a mark, are cut off and are no entry. `OneFileLog` is a log
//! over any medium by this code, with known contents; it goes to no other file. The entries that it has
//! taken are a prefix of the list to which the bytes come at any later moment (`law_of_one_list`).
//!
//! A file is a medium by `LockedFile`, whose few lines are trusted: nothing is known of the content of a
//! real file.
#![tactic(auto)]

pub mod ahead;
pub mod bytes;
pub mod compaction;
pub mod cursor;
pub mod error;
pub mod file_log;
pub mod header;
pub mod locked_file;
pub mod medium;
pub mod memory;
pub mod one_file;
pub mod one_file_log;
pub mod opening;
pub mod options;
pub mod path;
pub mod remainder;
