//! The paths by which a user names storages alone. If one of them is gone, this module doesn't compile.

use iceoryx2_storage::script::{Answer, Faulty, Script, Scripted};
use iceoryx2_storage::storage::{Existence, Storage, Tag};
use iceoryx2_storage::table::{Act, Entry, Local, Step, Table};
