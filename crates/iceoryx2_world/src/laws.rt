//! Laws that are true of every world of a table, whatever its nodes do and whatever steps peers take, and
//! of a table at which batches of these steps wait.

ghost use Rattle.std.specs.Prelude.{◌≡◌, ◌↔◌, ℕ, ◌≤◌, Bool, List, Option, Some};
ghost use Rattle.iceoryx2_description.specs.declared.description.ServiceHash.{ServiceHash};
ghost use Rattle.iceoryx2_world.specs.declared.world.Participant.{Participant};
ghost use Rattle.iceoryx2_world.specs.World.{World, Segment, empty_world, ticket_count};
ghost use Rattle.iceoryx2_world.specs.Acts.{Act};
ghost use Rattle.iceoryx2_world.specs.Steps.{ServiceView, view_after};
ghost use Rattle.iceoryx2_world.specs.StepCases.{IsStep};
ghost use Rattle.iceoryx2_world.specs.declared.world.Phase.{Phase};
ghost use Rattle.iceoryx2_world.specs.declared.world.Row.{Row};
ghost use Rattle.iceoryx2_access.specs.declared.storage.Release.{Release as Released};
ghost use Rattle.iceoryx2_world.specs.Access.{IsOwnPart};
ghost use Rattle.iceoryx2_world.specs.AccessCases.{IsOwnCase};
ghost use Rattle.iceoryx2_access.specs.Letter.{Letter};
ghost use Rattle.iceoryx2_access.specs.Registered.{Registered};
ghost use Rattle.iceoryx2_access.specs.Run.{Run};
ghost use Rattle.iceoryx2_world.specs.Agreement.{Agrees, KeepsAgreement};
ghost use Rattle.iceoryx2_world.specs.Interference.{Rely, IsAccessUnder, IsFallibleUnder};
ghost use Rattle.iceoryx2_world.specs.Calm.{SameServices, IsCalmLetter};
ghost use Rattle.iceoryx2_access.specs.MayRefuse.{MayRefuse};
ghost use Rattle.iceoryx2_world.specs.Laws.{EachStepKeeps, EachTicketStands, StandsAfterOthers, StandsUntilReleased};
ghost use Rattle.iceoryx2_world.specs.Laws.{IsReleased, StandsAsCreated, StandsAsOpened};
ghost use Rattle.iceoryx2_world.specs.Laws.{UnlocksCalmly, PublishingCounts, OpeningCounts, ReleasingCounts};
ghost use Rattle.iceoryx2_world.specs.Laws.{StaysLater, OthersKeepOwn, BothKeepOwn, KeepsOfMore, StaysSpent};
ghost use Rattle.iceoryx2_world.specs.Laws.{SameTicketsOfAll, SameTagsOfAll, ReleaseTakesTicketOut, HasItsEffect};
ghost use Rattle.iceoryx2_world.specs.Laws.{BatchIsOfOthers, RunsInWorld, RunsRefusablyInWorld, RunsAlone};
ghost use Rattle.iceoryx2_world.specs.Laws.{OwnPartIsAccess, TakesBatchesOff, CountsSkipped};
ghost use Rattle.iceoryx2_world.specs.declared.batches.Step.{Step};
ghost use Rattle.iceoryx2_world.specs.Tables.{TableState};

/// Steps, of anyone: each is one of the fourteen. It turns a world that agrees into a later one that
/// agrees again, except for the tickets of nodes. A world agrees if at each service its row, its segment
/// and the phases fit one another, and each node has as many tickets as its phases count.
pub fn laws_of_steps()
    // A world in which nothing is there agrees, wherever its counter begins.
    ensures empty { (c : ℕ) → Agrees (empty_world c) }

    // A step is allowed, and comes to this, exactly where it is one of the fourteen.
    ensures allowed { (p : Participant) (h : ServiceHash) (act : Act)
        (x : Phase) (r : Option Row) (s : Option Segment) (c : ℕ) (new : ServiceView)
        → (view_after p h act x r s c ≡ Some new) ↔ IsStep p h act x r s c new }

    // A step of anyone keeps everything but the tickets of nodes, and gives a later world. That a peer's step keeps
    // these tickets too `others` of `laws_of_accesses` has.
    ensures step { EachStepKeeps }

    // What is later than a later world is later, where the first one agrees at each service.
    ensures later { (u v w : World) → StaysLater u v w }
{}

/// Accesses of own nodes, whatever others do before each of them. Anything may happen between two of
/// these accesses that keeps the agreement and the things of own nodes (`Rely`), as all steps of others
/// do. The next access then keeps the agreement.
pub fn laws_of_accesses()
    // Peers, and nodes that aren't one's own, keep all that own nodes rely on, whatever they do and in any order. So an
    // access after what others do is one under interference, and one that may be refused is one that may be there.
    ensures others { (own : ℕ → Bool) (w v : World) → OthersKeepOwn own w v }

    // So does nothing that happens, and one such thing after another.
    ensures nothing { (own : ℕ → Bool) (w : World) → Rely own w w }
    ensures both { (own : ℕ → Bool) (u v w : World) → BothKeepOwn own u v w }

    // What keeps all that some nodes rely on keeps what fewer do.
    ensures fewer { (own more : ℕ → Bool) (w v : World) → KeepsOfMore own more w v }

    // Where every node is one's own, the same tickets and the same tags of own nodes are all the same.
    ensures all_tickets { SameTicketsOfAll }
    ensures all_tags { SameTagsOfAll }

    // An access under interference that is refused, with nothing before it, is one that may be refused.
    ensures may_refuse { (own : ℕ → Bool) (w v : World) (l : Letter)
        → MayRefuse (IsAccessUnder own) w l v → IsFallibleUnder own w l v }

    // Any run of accesses under interference keeps the agreement and gives a later world, whichever are refused.
    ensures run { (own : ℕ → Bool) (w v : World) (word : List Letter)
        → Run (IsFallibleUnder own) w word v → KeepsAgreement w v }

    // A number that is spent at a service never comes back there.
    ensures spent { (own : ℕ → Bool) (w v : World) (l : Letter) (h : ServiceHash) (n : ℕ) → StaysSpent own w l v h n }
{}

/// Standing factories: which of them stand, which accesses leave them so, and which access gives one.
pub fn laws_of_standing()
    // Each ticket is one of a factory that stands.
    ensures ticket { EachTicketStands }

    // A step of anyone but its node leaves a standing factory standing.
    ensures other { StandsAfterOthers }

    // An own node's factory stands until its ticket is released, whatever accesses follow.
    ensures stands { (own : ℕ → Bool) (w v : World) (word : List Letter) (f : Registered)
        → StandsUntilReleased own w v word f }

    // The table grants an own node the release of a standing factory's ticket.
    ensures released { (own : ℕ → Bool) → IsReleased own }

    // A granted release takes the ticket out.
    ensures taken_out { (own : ℕ → Bool) (w v : World) (node number ticket : ℕ) (h : ServiceHash) (left : Released)
        → ReleaseTakesTicketOut own w v node number ticket h left }

    // Who locks and publishes under the lock's number has a factory that stands, with a new ticket.
    ensures created { (own : ℕ → Bool) → StandsAsCreated own }

    // So has who fetches a description and opens the segment of its number.
    ensures opened { (own : ℕ → Bool) → StandsAsOpened own }
{}

/// Counts: how many tickets a node has, and which own parts of accesses change what is published or counted.
pub fn laws_of_counts()
    // No node has more tickets for a service than the counter says.
    ensures few { (w : World) (i : ℕ) (h : ServiceHash) → Agrees w → ticket_count w.tickets i h ≤ w.counter }

    // The own part of an access changes a published description or a count only where it is a
    // granted publishing, opening, release or removal of a description.
    ensures calm { (w v : World) (l : Letter) → IsCalmLetter l → IsOwnPart w l v → SameServices w v }

    // A node that holds the lock removes nothing that is published.
    ensures unlock { UnlocksCalmly }

    // A granted publishing and a granted opening raise their node's count by one, and a granted
    // release lowers it by one.
    ensures publishing { PublishingCounts }
    ensures opening { OpeningCounts }
    ensures releasing { ReleasingCounts }
{}

/// A node's own part of an access, its answer and its changes, is written twice: as functions that make
/// its tests in their order, and as a relation with one line for each line of the table. Both are the
/// same.
pub fn accesses()
    // What the tests come to is a line of the table.
    ensures listed { (w v : World) (l : Letter) → IsOwnPart w l v → IsOwnCase w l v }

    // And the tests come to each line of it.
    ensures each_listed { (w v : World) (l : Letter) → IsOwnCase w l v → IsOwnPart w l v }
{}

/// Only steps of peers wait at a table. Its accesses are accesses of its world, and nodes' own parts
/// alone if nothing waits. So what is true of runs of these is true of runs of a table with batches: a
/// batch and each access keep the agreement and give a later world.
pub fn batches()
    // A batch is steps of peers: others take them, whichever nodes are one's own.
    ensures batch { (own : ℕ → Bool) (s t : World × ℕ) (batch : List Step) → BatchIsOfOthers own s t batch }

    // Each access of a run, with its batch, is one of the world, after what others do.
    ensures run { (own : ℕ → Bool) (s t : TableState) (word : List Letter) → RunsInWorld own s t word }

    // A run of which any access may be refused is such a run of the world.
    ensures refusable { (own : ℕ → Bool) (s t : TableState) (word : List Letter) → RunsRefusablyInWorld own s t word }

    // Where nothing waits there are the nodes' own parts alone, nothing waits afterwards, and
    // nothing was skipped.
    ensures quiet { (s t : TableState) (word : List Letter) → RunsAlone s t word }

    // And each own part is an access there.
    ensures own { OwnPartIsAccess }

    // Each access takes one batch off, in order.
    ensures taken { (s t : TableState) (word : List Letter) → TakesBatchesOff s t word }

    // The count of skipped steps never falls, and stops at the last number.
    ensures counts { (s t : TableState) (word : List Letter) → CountsSkipped s t word }

    // A step that needs no room is never skipped: `RemoveSegment`, `RemoveDescription`, `Leave`, a peer's `Read` when it
    // has read, and its `Join` when it has joined (`NeedsNoRoom`). If it is allowed it has its effect.
    ensures sure { HasItsEffect }
{}
