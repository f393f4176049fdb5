//! Storages that show a table, and the services that are in them.

ghost use Rattle.std.specs.Prelude.{◌≡◌};
ghost use Rattle.iceoryx2_access.specs.Letter.{Letter};
ghost use Rattle.iceoryx2_world.specs.Interference.{everyone};
ghost use Rattle.iceoryx2_world.specs.Tables.{TableState, IsTableAccess};

use crate::world_storage::WorldStorage;
use iceoryx2_access::storage::{Service, Sha1Hasher, Storage};
use iceoryx2_table::own_parts::OwnParts;
use iceoryx2_table::table::TableOver;
use iceoryx2_testing::traced::Traced;
use std::marker::PhantomData;

/// A storage that shows a table. Each of its accesses is one of that table, and each node is an own
/// one.
pub trait TableStorage: WorldStorage {
    /// The table that it shows.
    ghost shown: { Self → TableState };

    /// Each access is one of the table.
    ghost accesses: { (old : Self) (letter : Letter) (new : Self)
        → Self.step old letter new → IsTableAccess (shown old) letter (shown new) };

    /// The world that it shows is the table's.
    ghost same_world: { (storage : Self) → (shown storage).world ≡ Self.world storage };

    /// Each node is its own.
    ghost of_everyone: { (storage : Self) → Self.own storage ≡ everyone };
}

impl<W: OwnParts> TableStorage for TableOver<W> {
    ghost use Rattle.std.specs.Prelude.{refl};

    ghost shown = { λ table. table };

    ghost accesses = { λ old letter new access. access };

    ghost same_world = { λ table. refl };

    ghost of_everyone = { λ table. refl };
}

// What is traced is the table inside.
impl<S: TableStorage> TableStorage for Traced<S> {
    ghost shown = { λ traced. S.shown traced.inner };

    ghost accesses = { λ old letter new access.
        S.TableStorage.accesses old.inner letter new.inner access.inside };

    ghost same_world = { λ traced. S.same_world traced.inner };

    ghost of_everyone = { λ traced. S.of_everyone traced.inner };
}

/// Services in a storage of this type, under hashes by SHA-1.
pub struct ServiceOver<S> {
    storage: PhantomData<S>,
}

impl<S: Storage> Service for ServiceOver<S> {
    type Storage = S;

    type ServiceNameHasher = Sha1Hasher;
}
