//! A storage that processes share: the world that each process makes of one log.
//!
//! `follow` makes another's entry its node's access (`Follows`), or finds that the world answers
//! otherwise than the entry says, and not because memory ran out (`Differs`). `take_all` takes over
//! what others appended, in order, and stops at an entry in an own node's name (`TakesOver`). Such
//! an entry, and one that isn't what the table answers, end the journal. `take_next` goes on later
//! only if the log showed no entry, or there was no memory for another's (`IsLaterFor`). If the log
//! goes on in another place, the world comes to what the snapshot there stands for, except for which
//! nodes have only read (`Arrives`). A journal that doesn't get there is lost until it does. A log
//! is compacted only to a snapshot that stands for the world (`IsCompacted`). The way to a world
//! (`course`) has no contract, and is compared.
//! Each access of `Journal` is its fault with more entries taken over, or the own part after all
//! entries, with its entry appended exactly if it is written down, or refused (`IsJournalAccess`).
//! An access leaves the log held exactly if it was held before (`KeepsHold`), as `catch_up`,
//! `refresh`, `adopt` and `clean` do. `refresh` and `adopt` keep what own nodes rely on (`Adopts`).
//! `clean` gives back what another node has (`Cleans`): at Ok that node has nothing, else what was
//! given back stays so. `resume` goes on with another handle, and takes over entries in own names
//! too (`Resumes`). `settle` gives back what an own node has besides the factories with some
//! tickets (`SettlesBy`): at Ok the node owes nothing (`OwesNothing`), and those factories stand
//! on.
//!
//! `laws::journals()`: any run over any log is accesses of own nodes, of which any may be refused,
//! after what others do. If entries are known, the world is what they come to, in order
//! (`AmountsTo`). `laws::processes()` speaks of processes that began empty and have read prefixes
//! of one list (`HasRead`) of known entries. A file's entries aren't known. Each world agrees, no
//! number is published twice, and factories of one service and number carry one description. A
//! factory that stands here stands wherever more is read, unless its ticket is released there.
//! Together no more nodes have one than its description allows (`few`). The last three hold over
//! any number of compactions (`ReadsOn`). `laws::cleaning()`: cleaning leaves all others' factories
//! standing (`spares`).
#![tactic(auto)]

pub mod cleaning;
pub mod course;
pub mod follow;
pub mod journal;
pub mod laws;
mod log_recorder;
pub mod owed;
mod parts;
pub mod snapshot;
pub mod taking;
