//! A session of commands over a storage that shows a world.
//!
//! A session's storage shows a world (`WorldStorage`): each access is one of that world after what
//! others do, or is refused after that. A storage that shows a table (`TableStorage`) makes
//! accesses of that table. By the storage's own steps (`own`), a slot is tested before any access.
//! A call on a free slot is the builder call that it names. A close of a taken slot goes along a
//! word of close. A listing is the world's. Nothing else is asked (`along`).
//!
//! `apply_shared`, `run_shared` and `close_all`, over any world, by own nodes: a command goes so
//! over the world that is shown (`goes`). If that world agreed, it agrees afterwards (`agrees`),
//! the slots' factories stand, each with a ticket of its own (`stands`), and each call is as
//! promised (`promised`). A close that isn't granted keeps the slot (`NotClosed`), and own nodes'
//! tickets are those of the slots (`owns`). `apply`, `run` and `finish`, over a table: each close
//! of a taken slot is Ok. Over a table that nobody else uses, each command with its reply is a move
//! of the quiet machine (`quiet`), and a refused one changes nothing (`unchanged`). At the end no
//! description, segment, tag or count is left (`empty`). `refresh` and `clean` keep slots and all
//! that own nodes rely on.
//!
//! `abandon` lets go of what a slot holds, without an access. `laws::sessions`: a session that goes
//! by own steps goes over the table that is shown.
#![tactic(auto)]

mod calling;
mod closing;
mod events;
pub mod laws;
mod publish_subscribe;
mod request_response;
pub mod resuming;
pub mod session;
mod setters;
mod slots;
pub mod table_storage;
pub mod world_storage;
