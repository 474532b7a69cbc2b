// The laws of markets, as facts that a proof is asked for.
ghost use Rattle.market.specs.Examples.{BrokenArePassed, ClearKeepsSettlement, ClockGoesOn, NegativeBidShown, ShortPricesEndThere, ThirdDoesNotFit};
ghost use Rattle.market.specs.Laws.{BrokenDoesNothing, ClearResetsAll, ClockIsSet, FindsExactly, KnownAlwaysFits, NothingChangesNothing, OwnRowIsSet, RowsStayAscending, TouchesOneThing, UnboundedIsFold, UnfollowedChangesNothing};

/// What holds of markets and of books, whatever the messages. There is nothing to run: the promise is the point.
pub fn laws_hold()
    ensures ascending { RowsStayAscending }
    ensures touches { TouchesOneThing }
    ensures broken { BrokenDoesNothing }
    ensures nothing { NothingChangesNothing }
    ensures clock { ClockIsSet }
    ensures clear { ClearResetsAll }
    ensures own { OwnRowIsSet }
    ensures unfollowed { UnfollowedChangesNothing }
    ensures found { FindsExactly }
    ensures fits { KnownAlwaysFits }
    ensures fold { UnboundedIsFold }
{}

/// What the definitions make of the bytes of a few messages.
pub fn examples_hold()
    ensures negative { NegativeBidShown }
    ensures ends { ShortPricesEndThere }
    ensures full { ThirdDoesNotFit }
    ensures clear { ClearKeepsSettlement }
    ensures clock { ClockGoesOn }
    ensures broken { BrokenArePassed }
{}
