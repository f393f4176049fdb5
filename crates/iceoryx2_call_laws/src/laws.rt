//! Laws of whole calls, whatever the pattern and whatever others do.

ghost use Rattle.std.specs.Prelude.{◌≡◌, ℕ, Bool, true};
ghost use Rattle.iceoryx2_access.specs.MayRefuse.{MayRefuse};
ghost use Rattle.iceoryx2_world.specs.Access.{IsOwnPart};
ghost use Rattle.iceoryx2_world.specs.Interference.{Others, After, IsFallibleUnder, everyone};
ghost use Rattle.iceoryx2_world.specs.Tables.{IsTableAccess};
ghost use Rattle.iceoryx2_rounds.specs.BuilderCalls.{BuilderCall};
ghost use Rattle.iceoryx2_rounds.specs.LawfulCalls.{IsLawfulCall};
ghost use Rattle.iceoryx2_call_laws.specs.Headline.{EachIsAsPromised, IsOpenUntilReleased};
ghost use Rattle.iceoryx2_call_laws.specs.Laws.{RunsOverWorld, StandsAmong, CarryTheSame, EachIsShort, AddsItsTicket};
ghost use Rattle.iceoryx2_call_laws.specs.Laws.{AccessKeepsStanding, CallKeepsAgreement, CallKeepsStanding};
ghost use Rattle.iceoryx2_call_laws.specs.Laws.{RefusesCalmly, GrantsAtLast, LeavesWhatIsRefused, GivesEverythingBack};
ghost use Rattle.iceoryx2_call_laws.specs.Laws.{CloseIsShort, CloseKeepsAgreement, CloseSpares, HandsBackItsOwn};
ghost use Rattle.iceoryx2_call_laws.specs.Laws.{TakesItsTicket, ClosesWhatStands, TakesTicketOut};
ghost use Rattle.iceoryx2_call_laws.specs.Laws.{CloseLeavesWhatIsRefused};
ghost use Rattle.iceoryx2_call_laws.specs.Promise.{Promise};

/// Whatever a call does and whatever others do between its accesses, the world agrees after each
/// access, and each open factory of an own node carries the one description of its service and stands there with
/// its node, until its ticket is released.
///
/// `own` tells which nodes are one's own. The caller is one of them. Others are peers and all other
/// nodes: before each access anything may happen that keeps what own nodes rely on. Over a table
/// every node is one's own (`everyone`), so there are only tickets and tags of own nodes.
///
/// A call is a word of its accesses. A create, an open and an open or create may prepare the types
/// of their messages first. A call that doesn't prepare types goes along a word of its grammar.
/// That word is a word of a call that prepares types too. Unless a clause says otherwise, a fault
/// may refuse any access.
///
/// Five clauses say what runs over a table keep. Calls and closes keep the agreement
/// (`keeps_agreement`, `close_keeps_agreement`). A standing factory stands through every call
/// (`keeps_standing`), through a close of a factory with another ticket (`close_keeps_standing`),
/// and through any access except a granted release of its own ticket (`access_keeps_standing`). A
/// call that answers Ok leaves its own factory standing too (`every_open_factory_stands`). `run` of
/// `laws_of_accesses` and `stands` of `laws_of_standing` of `iceoryx2_world` say the same of any
/// word over any world.
pub fn agreement<D, E: Copy, C: Copy>()
    // A table's own accesses, whatever batches wait before them, are accesses of its world under
    // interference, whichever nodes are own, and so accesses of which any may be refused. So what is said of
    // runs over worlds is true of each run over a table.
    ensures of_tables { RunsOverWorld }

    // A standing factory's segment has as many places as its description has nodes, and in it are
    // at most so many participants, each of them registered under the factory's number.
    ensures among { StandsAmong }

    // Every run of a call over a table keeps the agreement: after the run, and after each of its accesses, the world
    // agrees and is later than the old one.
    ensures keeps_agreement { (c : BuilderCall D E C) → CallKeepsAgreement IsTableAccess (λ u. u.world) c }

    // So does every run of a close.
    ensures close_keeps_agreement { CloseKeepsAgreement IsTableAccess (λ u. u.world) }

    // Each standing factory stands after every access of a call, whatever the call answers,
    ensures keeps_standing { (c : BuilderCall D E C) → CallKeepsStanding IsTableAccess (λ u. u.world) c everyone }

    // and after every access of a close, if the close is of a factory with another ticket.
    ensures close_keeps_standing { CloseSpares IsTableAccess (λ u. u.world) everyone }

    // So it does after any single access, unless the access is a granted release of the factory's ticket.
    ensures access_keeps_standing { AccessKeepsStanding IsTableAccess (λ u. u.world) everyone }

    // Every open factory stands. Of every call, whichever it is and whatever it answers: it is within fixed
    // counts; after each of its accesses, whatever steps peers take, each factory that was open is open; and the
    // factory with which it answered Ok has a new ticket, is of its caller and its service, meets what was
    // asked or holds what was published, and is open until its own ticket is released: it carries the one
    // published description of its hash, its segment is there, and its node is among at most `max_nodes`.
    ensures every_open_factory_stands { (c : BuilderCall D E C)
        → EachIsAsPromised IsTableAccess (λ u. u.world) c everyone }

    // So it is of own nodes' factories over any world that agrees, under any interference, and whichever accesses
    // are refused by a fault,
    ensures in_any_world { (own : ℕ → Bool) (c : BuilderCall D E C)
        → own c.caller.node ≡ true → EachIsAsPromised (IsFallibleUnder own) (λ u. u) c own }

    // as where steps of peers and accesses of other nodes fall between those of the call.
    ensures among_others { (own : ℕ → Bool) (c : BuilderCall D E C)
        → own c.caller.node ≡ true → EachIsAsPromised (After (Others own) (MayRefuse IsOwnPart)) (λ u. u) c own }

    // The same by history: at any state that a table comes to, by accesses and by scheduling of batches, after some
    // call answered Ok with a factory, and before the release of its ticket, this factory is open, with what that call
    // asked.
    ensures open_until_released { (c : BuilderCall D E C)
        → IsOpenUntilReleased IsTableAccess (λ u. u.world) c everyone }

    // So it is in any world.
    ensures open_in_any_world { (own : ℕ → Bool) (c : BuilderCall D E C)
        → own c.caller.node ≡ true → IsOpenUntilReleased (IsFallibleUnder own) (λ u. u) c own }

    // Every call is short over every storage, in all accesses and in those of each kind: its word alone tells so.
    ensures is_short { (c : BuilderCall D E C) → EachIsShort c c.way }

    // Two standing factories of one service carry the same description and number.
    ensures one_description { CarryTheSame }

    // A call that answers Ok adds exactly its factory's ticket to those of own nodes, and one that is refused
    // changes none of them.
    ensures tickets { (own : ℕ → Bool) (c : BuilderCall D E C) → AddsItsTicket own c }

    // Without what others do, a refused call changes no published description and no count in any access,
    ensures refused { (own : ℕ → Bool) (c : BuilderCall D E C) → RefusesCalmly own c }

    // and a granted one does so in exactly one, its last.
    ensures granted { (own : ℕ → Bool) (c : BuilderCall D E C) → GrantsAtLast own c }

    // A refused call leaves nothing of its own but that for which a removal was refused.
    ensures leaves { (own : ℕ → Bool) (c : BuilderCall D E C)
        → LeavesWhatIsRefused (IsFallibleUnder own) (λ u. u) c own c.way }

    // Where nothing is refused by a fault, each of its removals answers Ok, and nothing of its own stays but
    // the phase Read and spent numbers.
    ensures gives_back { (own : ℕ → Bool) (c : BuilderCall D E C) → GivesEverythingBack own c }

    // Each factory of an own node with another ticket that stands before a close stands throughout it.
    ensures close_spares { (own : ℕ → Bool) → CloseSpares (IsFallibleUnder own) (λ u. u) own }

    // What a close hands back is the factory that it was given. It stands on, if it stood.
    ensures not_here { (own : ℕ → Bool) → HandsBackItsOwn (IsFallibleUnder own) (λ u. u) own }

    // A close that hands its factory back changes no ticket of an own node, and any other takes exactly its own out.
    ensures close_tickets { (own : ℕ → Bool) → TakesItsTicket own }

    // Where nothing is refused by a fault, the close of a standing factory answers Ok, and its
    // ticket is gone.
    ensures closed { (own : ℕ → Bool) → ClosesWhatStands own }

    // A close that doesn't hand its factory back takes the ticket out, whatever is refused,
    ensures taken_out { (own : ℕ → Bool) → TakesTicketOut (IsFallibleUnder own) (λ u. u) own }

    // and of what it removes only that stays for which the removal was refused.
    ensures close_leaves { (own : ℕ → Bool) → CloseLeavesWhatIsRefused (IsFallibleUnder own) (λ u. u) own }

    // A close makes at most four accesses. It looks nowhere and opens nothing, and removes at most one segment.
    ensures close_is_short { CloseIsShort }
{}

/// The promise of each lawful call, as those of the three builders are (`lawful_calls` of
/// `iceoryx2_builder`): over a table, over any world whatever others do, and when chosen accesses
/// are refused.
///
/// It adds to `every_open_factory_stands` that what an open or create gave is decided too. It meets
/// what was asked, or holds what was published.
pub fn promise_of_lawful_calls<D, E: Copy, C: Copy>()
    ensures { (c : BuilderCall D E C) → IsLawfulCall c → Promise c }
{}
