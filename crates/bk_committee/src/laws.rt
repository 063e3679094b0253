//! Laws of the definitions, each the contract of a function that does nothing.

ghost use Rattle.bk_committee.specs.Laws.{CommitteeIsEncoded, CommitteeIsRead, GoodIsCommittee, HeadsAreWeights, FaultyIsFloor, QuorumAndFaultyAreAll, QuorumMeetsFaulty, QuorumsMeet, LeadersAreMembers, OddRoundsInTurn, EvenRoundsUnled};

/// A committee's payload and its members are two forms of one thing, and every other payload is refused.
pub fn committee_grammar()
    ensures encoded { CommitteeIsEncoded }
    ensures read { CommitteeIsRead }
    ensures good { GoodIsCommittee }
{}

/// The floor formulas, and how much weight a quorum shares with others.
pub fn quorums_meet()
    ensures heads { HeadsAreWeights }
    ensures floor { FaultyIsFloor }
    ensures all { QuorumAndFaultyAreAll }
    ensures faulty { QuorumMeetsFaulty }
    ensures quorum { QuorumsMeet }
{}

/// The members lead the odd rounds in turn.
pub fn leaders_in_turn()
    ensures member { LeadersAreMembers }
    ensures odd { OddRoundsInTurn }
    ensures even { EvenRoundsUnled }
{}
