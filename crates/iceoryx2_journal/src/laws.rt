//! Laws of every run of a journal.

ghost use Rattle.iceoryx2_journal.specs.Laws.{GoesAmongOthers, GoesUnderInterference, KeepsItsNodes};
ghost use Rattle.iceoryx2_journal.specs.Laws.{RefusesOtherNodes, StaysOver};
ghost use Rattle.iceoryx2_journal.specs.Laws.{LeavesNothingUnread, KeepsTheLog, ReplaysTheLog, IsWhatTheLogComesTo};
ghost use Rattle.iceoryx2_journal.specs.Cleaning.{HoldsNothing, IsInItsName, SparesOtherNodes};
ghost use Rattle.iceoryx2_journal.specs.Laws.{OneWorldEach, ShowsOneWorld};
ghost use Rattle.iceoryx2_journal.specs.Processes.{AgreesInEach, GoesOnFromOthers, PublishesOnce};
ghost use Rattle.iceoryx2_journal.specs.Processes.{CarriesOneDescription, StandsInOthers, OwnStandsInOthers};
ghost use Rattle.iceoryx2_journal.specs.Processes.{OwnStandsAtTheEnd, FewHaveAPart};
ghost use Rattle.iceoryx2_journal.specs.Processes.{StandsAcross, CarriesOneAcross, FewAcross};

use iceoryx2_log::log::Log;

/// The laws of a run of accesses to a journal over any log, whatever is in the log.
pub fn journals<L: Log>()
    // A run is accesses of own nodes in the journal's world, each after steps of others. Any of them may be refused. So
    // a run is accesses under interference.
    ensures among_others { GoesAmongOthers L.contents }
    ensures under { GoesUnderInterference L.contents }

    // The own nodes stay. An access of another node, and any access to a journal that is over, answers its general
    // fault and changes nothing.
    ensures nodes { KeepsItsNodes L.contents }
    ensures other { RefusesOtherNodes L.contents }
    ensures over { StaysOver L.contents }

    // If the log's entries are known, an access leaves none of them unread, unless it answers its general fault. No
    // entry goes or moves, and new ones come after all others, until the log goes on in another place. The entries of
    // that place begin with a snapshot.
    ensures unread { LeavesNothingUnread L.contents }
    ensures kept { KeepsTheLog L.contents }

    // Until the journal is over or lost, its world is the one that its entries lead to: those that it took over or
    // appended, in order, in the log's place. Nodes that only read aren't compared.
    ensures replays { ReplaysTheLog L.contents }
    ensures whole { IsWhatTheLogComesTo L.contents }

    // So two journals with the same entries show the same world, except for nodes that only read.
    ensures one { ShowsOneWorld L.contents }
{}

/// Laws of cleaning up for a node.
pub fn cleaning<L: Log>()
    // A node that has nothing holds nothing of any service.
    ensures holds_nothing { HoldsNothing }

    // Each access is in the node's name. Each factory of another node stands as before.
    ensures names { IsInItsName L.contents }
    ensures spares { SparesOtherNodes }
{}

/// Laws of the worlds that entries come to.
pub fn entries()
    // Worlds that follow the same entries are the same, except for nodes that only read.
    ensures { OneWorldEach }
{}

/// Laws of several processes over one log, however many there are.
///
/// The premise is that each process began in an empty world and has read a prefix of one list of
/// entries. It has taken these entries over, or appended them, or came by a snapshot with which the
/// list begins. The entries of a log are known if its contract tells them, as a `MemoryLog`'s does.
/// A file's entries never are, and we trust that all its handles read one list.
pub fn processes<L: Log>()
    // Each journal's world agrees.
    ensures agrees { AgreesInEach L.contents }

    // If one journal has read more than another, accesses lead from the other's world to its own, except for nodes that
    // only read.
    ensures on { GoesOnFromOthers L.contents }

    // No number is published twice.
    ensures once { PublishesOnce L.contents }

    // Factories of one service and number carry one description, whichever processes hold them.
    ensures one { CarriesOneDescription L.contents }

    // A factory that stands in one process's world stands in the world of each process that has read more, unless its
    // ticket is released there.
    ensures stands { StandsInOthers L.contents }

    // So does each factory of an own node, if no further entry that the other process has read is in an own node's
    // name, since a node belongs to one process. It stands at the end of the list if all further entries are of other
    // nodes.
    ensures own { OwnStandsInOthers L.contents }
    ensures own_at_the_end { OwnStandsAtTheEnd L.contents }

    // In all processes together, no more nodes have a factory of one service and number at the end than its description
    // allows.
    ensures few { FewHaveAPart L.contents }

    // Over any number of compactions, a factory stands unless its ticket is released. Factories of one service and
    // number carry one description, and no more nodes have one than the description allows.
    ensures stands_across { StandsAcross L.contents }
    ensures one_across { CarriesOneAcross L.contents }
    ensures few_across { FewAcross L.contents }
{}
