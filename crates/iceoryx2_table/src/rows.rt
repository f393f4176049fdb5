//! A row as a table keeps it.

ghost use Rattle.std.specs.Prelude.{◌≡◌};
ghost use Rattle.iceoryx2_world.specs.declared.world.Row.TheVariants as row;
ghost use Rattle.iceoryx2_world.specs.World.{row_number};
ghost use Rattle.iceoryx2_table.specs.ServicesState.{IsStateOf, HasBytes};

use iceoryx2_world::world::Bytes;
use std::alloc::Global;
use std::marker::Model;

/// A row as a table keeps it: a struct, which moves as a whole when a row is inserted beside it.
#[derive(Drop)]
pub struct StoredRow {
    number: u64,
    // none as long as the service is locked
    bytes: Bytes,
    is_published: bool,
}

impl Model for StoredRow {
    ghost use Rattle.iceoryx2_world.specs.declared.world.Row.{Row};
    ghost use Rattle.iceoryx2_world.specs.Codes.{coded_row};
    ghost use Rattle.iceoryx2_table.specs.ServicesState.{row_with};

    ghost Value = { Row };

    ghost coded = { coded_row };

    ghost view = { λ r. row_with r.is_published r.number r.bytes };
}

/// A row without its bytes.
#[derive(Clone, Copy, Debug, PartialEq, Eq)]
pub enum RowState {
    /// Somebody is creating the service of this number.
    Locked(u64),
    /// The service of this number is published.
    Published(u64),
}

impl StoredRow {
    /// Returns the row of a participant that creates the service of this number. Takes no memory.
    pub fn locked(alloc: Global, number: u64) -> StoredRow
        ensures { result ≡ row.Locked number }
    {
        StoredRow {
            number,
            bytes: Bytes::from_vec(Vec::new(alloc)),
            is_published: false,
        }
    }

    /// Returns the row of the service of this number with its description's bytes.
    pub fn published(number: u64, bytes: Vec<u8>) -> StoredRow
        ensures { result ≡ row.Published number bytes.items }
    {
        StoredRow {
            number,
            bytes: Bytes::from_vec(bytes),
            is_published: true,
        }
    }

    /// Returns the service's number, and whether the service is published.
    pub fn state(&self) -> RowState
        ensures { IsStateOf self.now result }
    {
        if self.is_published {
            return RowState::Published(self.number);
        }
        RowState::Locked(self.number)
    }

    /// Returns the service's number.
    pub fn number(&self) -> u64
        ensures { result ≡ row_number self.now }
    {
        self.number
    }

    /// Returns the description's bytes, if the service is published.
    pub fn bytes(&self) -> &Bytes
        ensures { HasBytes self.now result.now }
    {
        &self.bytes
    }
}
