//! What lines say: a command, and the description that a create makes.

use crate::places::Places;
use iceoryx2_builder::command::Command;
use iceoryx2_data::bytes::encode;
use iceoryx2_table::local::Local;
use iceoryx2_table::table::Table;
use negotiate_lines::line::{Line, parse};
use std::alloc::Global;

/// The command that a line is, if it is one.
pub fn command_in(alloc: Global, line: &str) -> Option<Command> {
    match parse(alloc, line.as_bytes()) {
        Ok(Line::Command(command)) => Some(command),
        _ => None,
    }
}

/// The bytes of the description that a create makes in a table of its own. They tell its node as the creator.
pub fn created(alloc: Global, line: &str) -> Option<Vec<u8>> {
    let Some(Command::Call(call)) = command_in(alloc, line) else {
        return None;
    };
    let mut places = Places::new(alloc).ok()?;
    let mut table = Table::new(alloc);
    let _reply = places.call::<Local>(call, &mut table);
    drop(table);
    let (_, description) = places.factory(0)?;
    encode(alloc, description).ok()
}
