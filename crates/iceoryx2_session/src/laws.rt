//! Laws of every session, whatever the storage.

ghost use Rattle.std.specs.Prelude.{◌≡◌, List};
ghost use Rattle.iceoryx2_access.specs.Letter.{Letter};
ghost use Rattle.iceoryx2_access.specs.Run.{Run};
ghost use Rattle.iceoryx2_builder.specs.declared.command.Command.{Command};
ghost use Rattle.iceoryx2_builder.specs.declared.command.Reply.{Reply};
ghost use Rattle.iceoryx2_session.specs.CommandWords.{AppliesAlong};
ghost use Rattle.iceoryx2_session.specs.Sessions.{Applies, AppliesBy, AppliesInWorld, SessionOver};
ghost use Rattle.iceoryx2_session.specs.Sessions.{shown_session, shown_world};
ghost use Rattle.iceoryx2_world.specs.Interference.{IsFallibleUnder, everyone};
ghost use Rattle.iceoryx2_world.specs.Tables.{IsTableAccess};

use crate::table_storage::TableStorage;
use crate::world_storage::WorldStorage;

/// Laws that follow from how a command goes over a storage that shows a world.
pub fn sessions_in_world<S: WorldStorage>()
    // The world goes along the same words of accesses, whatever others do before one, and whichever is refused,
    ensures runs { (old new : S) (word : List Letter)
        → Run S.step old word new → Run (IsFallibleUnder (S.own old)) (S.world old) word (S.world new) }

    // so each command goes in the same way over that world.
    ensures goes { (old new : SessionOver S) (command : Command) (answer : Reply)
        → AppliesBy S.step S.world old command answer new
        → AppliesInWorld (S.own old.table) (shown_session S.world old) command answer (shown_session S.world new) }

    // Which nodes are own stays as it was.
    ensures nodes { (old new : S) (word : List Letter) → Run S.step old word new → S.own new ≡ S.own old }
{}

/// Laws that follow from how a command goes by a storage's own steps.
pub fn sessions<S: TableStorage>()
    // The table that the storage shows goes along the same words of accesses,
    ensures runs { (old new : S) (word : List Letter)
        → Run S.step old word new → Run IsTableAccess (S.shown old) word (S.shown new) }

    // so each command goes in the same way over that table.
    ensures shown { (old new : SessionOver S) (command : Command) (answer : Reply)
        → AppliesBy S.step (shown_world S.shown) old command answer new
        → Applies (shown_session S.shown old) command answer (shown_session S.shown new) }

    // The world that it shows is the table's, of which each node is own.
    ensures world { (storage : S) → (S.shown storage).world ≡ S.world storage }
    ensures nodes { (storage : S) → S.own storage ≡ everyone }

    // What the storage is asked is the word of the builder call or of the close, and nothing where there is none.
    ensures along { (old new : SessionOver S) (command : Command) (answer : Reply)
        → AppliesBy S.step (shown_world S.shown) old command answer new → AppliesAlong S.step old command answer new }
{}
