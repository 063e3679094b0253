//! Laws of the definitions, each the contract of a function that does nothing.

ghost use Rattle.bk_commit.specs.Laws.{VotedIsReached, AnchorsGrow, OneWayBack, OneListOfAnchors, CommittedIsPresent};

/// Quorum intersection: an anchor whose voters weigh more than the faulty is in the history of
/// every certificate that is admitted two rounds later or more.
pub fn voted_is_reached()
    ensures { VotedIsReached }
{}

/// Where the one held set is part of the other, its committed anchors begin the other's.
pub fn anchors_grow()
    ensures { AnchorsGrow }
{}

/// The committed anchors are one list of admitted certificates.
pub fn committed_anchors()
    ensures way_back { OneWayBack }
    ensures one { OneListOfAnchors }
    ensures present { CommittedIsPresent }
{}
