//! Laws of whole calls over a table of which any access may be refused.

ghost use Rattle.std.specs.Prelude.{List, Result};
ghost use Rattle.iceoryx2_access.specs.Letter.{Letter};
ghost use Rattle.iceoryx2_world.specs.Interference.{everyone};
ghost use Rattle.iceoryx2_world.specs.Tables.{TableState, IsTableAccess};
ghost use Rattle.iceoryx2_testing.specs.Faults.{FaultyState, IsInjectedFault};
ghost use Rattle.iceoryx2_access.specs.Registered.{Registered};
ghost use Rattle.iceoryx2_rounds.specs.declared.caller.Caller.{Caller};
ghost use Rattle.iceoryx2_rounds.specs.PatternRules.{PatternRules};
ghost use Rattle.iceoryx2_rounds.specs.BuilderCalls.{BuilderCall};
ghost use Rattle.iceoryx2_call_laws.specs.Headline.{EachIsAsPromised, IsOpenUntilReleased};
ghost use Rattle.iceoryx2_call_laws.specs.Laws.{FaultyRunsOverWorld, AccessKeepsStanding, CallKeepsAgreement};
ghost use Rattle.iceoryx2_call_laws.specs.Laws.{CallKeepsStanding, CloseKeepsAgreement, CloseSpares, HandsBackItsOwn};
ghost use Rattle.iceoryx2_call_laws.specs.Laws.{LeavesWhatIsRefused, TakesTicketOut, CloseLeavesWhatIsRefused};
ghost use Rattle.iceoryx2_call_laws.specs.OverNoRow.{CreatesOverNoRow, AnswersOverNoRow};

/// The laws of `agreement` over a storage that refuses chosen accesses of a table, whichever these
/// are and whatever steps peers take. The refused accesses may be those by which a call gives back,
/// or by which a close removes. As over a table, every node is one's own (`everyone`).
///
/// A refused access answers its general fault and changes nothing. The world agrees after each
/// access of a call or a close, and is later than before (`keeps_agreement`,
/// `close_keeps_agreement`). A standing factory stands through every call (`keeps_standing`),
/// through a close of a factory with another ticket (`close_keeps_standing`), and through a close
/// that hands it back (`not_here`). It stands through any access except a granted release of its
/// own ticket (`access_keeps_standing`). A call that answers Ok leaves its own factory standing too
/// (`every_open_factory_stands`).
///
/// A refused call leaves of its own things only those whose removal was refused (`leaves`). A close
/// that doesn't hand its factory back takes the ticket out (`taken_out`), and leaves only those
/// things whose removal was refused (`close_leaves`). By `of_tables`, everything that `agreement`
/// says of a world whose accesses may be refused holds here too.
pub fn agreement_under_faults<D, E: Copy, C: Copy>()
    // The accesses of a faulty storage with a table inside, whichever are refused and whatever batches
    // wait, are accesses of the table's world of which any may be refused, after what others do and so under
    // interference, whichever nodes are own. So what is said of runs over worlds is true of each run over such a
    // storage.
    ensures of_tables { FaultyRunsOverWorld }

    // Every run of a call keeps the agreement, whichever accesses are refused: after the run, and after each of its
    // accesses, the world agrees and is later than the old one.
    ensures keeps_agreement { (c : BuilderCall D E C)
        → CallKeepsAgreement (IsInjectedFault IsTableAccess) (λ u. u.inner.world) c }

    // So does every run of a close.
    ensures close_keeps_agreement { CloseKeepsAgreement (IsInjectedFault IsTableAccess) (λ u. u.inner.world) }

    // Each standing factory stands after every access of a call, whatever the call answers,
    ensures keeps_standing { (c : BuilderCall D E C)
        → CallKeepsStanding (IsInjectedFault IsTableAccess) (λ u. u.inner.world) c everyone }

    // and after every access of a close, if the close is of a factory with another ticket.
    ensures close_keeps_standing { CloseSpares (IsInjectedFault IsTableAccess) (λ u. u.inner.world) everyone }

    // So it does after any single access, unless the access is a granted release of the factory's ticket.
    ensures access_keeps_standing { AccessKeepsStanding (IsInjectedFault IsTableAccess) (λ u. u.inner.world) everyone }

    // A close that hands a factory back hands back the one that it was given. If that stood, it stands on.
    ensures not_here { HandsBackItsOwn (IsInjectedFault IsTableAccess) (λ u. u.inner.world) everyone }

    // Every open factory stands. Of every call, whichever it is, whichever accesses are refused and whatever it
    // answers: it is within fixed counts; after each of its accesses, whatever steps peers take, each factory that
    // was open is open; and the factory with which it answered Ok has a new ticket, is of its caller and its
    // service, meets what was asked or holds what was published, and is open until its own ticket is released: it
    // carries the one published description of its hash, its segment is there, and its node is among at most
    // `max_nodes`.
    ensures every_open_factory_stands { (c : BuilderCall D E C)
        → EachIsAsPromised (IsInjectedFault IsTableAccess) (λ u. u.inner.world) c everyone }

    // The same by history: at any state that such a table comes to, by accesses, refused or not, and by accesses of the
    // table inside and scheduling at it, after some call answered Ok with a factory, and before the release of its
    // ticket, this factory is open, with what that call asked.
    ensures open_until_released { (c : BuilderCall D E C)
        → IsOpenUntilReleased (IsInjectedFault IsTableAccess) (λ u. u.inner.world) c everyone }

    // A refused call leaves of its own only that for which a removal was refused, the phase Read, and spent numbers.
    ensures leaves { (c : BuilderCall D E C)
        → LeavesWhatIsRefused (IsInjectedFault IsTableAccess) (λ u. u.inner.world) c everyone c.way }

    // A close that doesn't hand its factory back takes the ticket out,
    ensures taken_out { TakesTicketOut (IsInjectedFault IsTableAccess) (λ u. u.inner.world) everyone }

    // and of what it removes only that stays for which the removal was refused.
    ensures close_leaves { CloseLeavesWhatIsRefused (IsInjectedFault IsTableAccess) (λ u. u.inner.world) everyone }

    // Where the service has no row, whatever segment earlier refusals left there, a create of which no access is
    // refused, over a table at which no batch waits, is Ok, or one of four things stops it. Adjusted settings
    // publish for one node or more.
    ensures over_no_row { (m : PatternRules E C) (caller : Caller)
        (word : List Letter) (answer : Result Registered C) (s t : FaultyState TableState)
        → CreatesOverNoRow m caller s word answer t → AnswersOverNoRow m caller s.inner.world.counter answer }
{}
