//! Laws of the calls over a table that nobody else uses.

ghost use Rattle.iceoryx2_rounds.specs.PatternRules.{PatternRules};
ghost use Rattle.iceoryx2_rounds.specs.OwnSettings.{AcceptsOwn};
ghost use Rattle.iceoryx2_rounds.specs.Adjusting.{OnlyRaises};
ghost use Rattle.iceoryx2_rounds.specs.BuilderCalls.{BuilderCall, creating};
ghost use Rattle.iceoryx2_rounds.specs.CallWords.{IsWordOf};
ghost use Rattle.iceoryx2_rounds.specs.LawfulCalls.{IsLawfulCall};
ghost use Rattle.iceoryx2_call_laws.specs.OpensAgain.{OpensOwnSettings, OpensAgain};
ghost use Rattle.iceoryx2_call_laws.specs.QuietLaws.{EmptyShows, ClosesQuietly, TicketsHaveOpened, StandingHasService};
ghost use Rattle.iceoryx2_call_laws.specs.QuietLaws.{CountsTickets, CountsTags, SameServicesHoldTheSame};
ghost use Rattle.iceoryx2_call_laws.specs.QuietLaws.{NothingWithoutService, NothingWithoutTicket, ListsItsServices};
ghost use Rattle.iceoryx2_call_laws.specs.QuietLaws.{Follows, RefusalHoldsTheSame, CarriesAsAsked};
ghost use Rattle.iceoryx2_call_laws.specs.QuietLaws.{CreateAndCloseSpend, TakesNoFurtherPlace, OpensWhatItCan};
ghost use Rattle.iceoryx2_call_laws.specs.QuietWays.{Answers};

/// Laws of a table that nobody else uses, whatever the patterns of its services.
pub fn quiet_laws()
    // A world in which nothing is there shows the machine without a service.
    ensures empty { EmptyShows }

    // To close a factory whose ticket is there is Ok, and it is the machine's close.
    ensures close { ClosesQuietly }

    // Who has a ticket has opened its service.
    ensures ticket { TicketsHaveOpened }

    // What a standing factory carries is the machine's description of its service,
    ensures standing { StandingHasService }

    // and a node has as many tickets for a service as the machine counts.
    ensures tickets { CountsTickets }

    // The tags are those of the nodes that the machine counts.
    ensures tags { CountsTags }

    // What stands at each service is told by the machine's services.
    ensures same { SameServicesHoldTheSame }

    // Of a service that the machine doesn't have nothing is there.
    ensures absent { NothingWithoutService }

    // Where no ticket is left, no service is, and nothing of any.
    ensures unused { NothingWithoutTicket }

    // What is listed are the machine's services.
    ensures list { ListsItsServices }
{}

/// Laws of the calls of each pattern over such a table.
pub fn quiet_calls<D, E: Copy, C: Copy>()
    // Every lawful call over a world that shows the machine is the machine's, whichever it is. An open or
    // create is its create where there is no service, and else its open: its first round is its last, where the
    // refusals of that machine are not tried again. A call that prepares its types first may be out of memory there,
    // and then changes nothing.
    ensures call { (c : BuilderCall D E C) → IsLawfulCall c → Follows (IsWordOf c) (Answers c c.way) }

    // A refused call changes no description, segment, tag or count.
    ensures refused { (c : BuilderCall D E C) → RefusalHoldsTheSame c }

    // What follows is said of calls that may prepare their types first; each call of the machine is one of these too.
    // A create and then the close of its factory leave nothing of that service and the rest as it
    // was, and one number is spent.
    ensures create_and_close { (m : PatternRules E C) → CreateAndCloseSpend m }

    // A further factory of a node takes no further place.
    ensures again { (m : PatternRules E C) → TakesNoFurtherPlace m }

    // While a service stands that fits and that the requirement accepts, and a place and a number
    // are left, an open is Ok or out of memory.
    ensures accepted { (m : PatternRules E C) → OpensWhatItCan m }

    // Where a factory is open as its call asked, each standing one of its service, whosever it is, carries the same.
    ensures stands_as_asked { (c : BuilderCall D E C) → CarriesAsAsked c }

    // What a call of a builder has given an open takes that asks the same, if the builder accepts what it creates and
    // its create only raises minima.
    ensures own_settings { (c : BuilderCall D E C)
        → AcceptsOwn (creating c) (c.meaning c.asked) c.caller → OnlyRaises c.meaning c.adjusted → OpensOwnSettings c }

    // So of each lawful call, as those of the three builders are, and along the words of the open.
    ensures opens_again { (c : BuilderCall D E C) → IsLawfulCall c → OpensAgain c }
{}
