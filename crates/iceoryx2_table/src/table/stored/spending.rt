//! Numbers that are spent.

ghost use Rattle.std.specs.Prelude.{◌≡◌, IsTrue, IsFalse};
ghost use Rattle.iceoryx2_world.specs.World.{World};
ghost use Rattle.iceoryx2_table.specs.Spending.{Spends};

use super::StoredWorld;
use iceoryx2_description::description::ServiceHash;
use iceoryx2_world::world::Participant;

impl StoredWorld {
    /// Lets the counter go on at the number, as if the node locked the service under each number before
    /// it and gave it up again. `laws_of_spending` states that both come to the same. Returns false, and
    /// changes nothing, if the counter is past the number, if something is written under the hash, or if
    /// the node has a phase there, even Read. It takes no memory, and two binary searches, however many
    /// numbers are spent.
    pub fn spend(&mut self, node: u64, hash: &ServiceHash, number: u64) -> bool
        ensures spent { IsTrue result → Spends node hash.now number self.old self.new }
        ensures stays { IsFalse result → self.new ≡ self.old }
        ensures refused { IsFalse result → (new : World) → Spends node hash.now number self.old new → ⊥ }
    {
        if number < self.services.counter() {
            return false;
        }
        if self.services.row(hash).is_some() {
            return false;
        }
        let position = self.services.position(Participant::Node(node), hash);
        if position.place.is_ok() {
            return false;
        }
        self.services.go_on_at(number);
        true
    }
}
