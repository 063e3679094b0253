//! The laws of interleavings, as functions that do nothing: their clauses are the laws.

ghost use Rattle.bk_steps.specs.Laws.{OpeningIsKept, ClaimKeeps, ReadKeeps, WriteKeeps, FinishKeeps, EventKeeps, DoneAreClosed, ChainsAreClosed, ConflictsAreClosed, RunsKeep, WholeRunsAreFold, WholeRunsExist, RunsLeaveFold, OrderMakesNoDifference, EventsAreJudged, AllowedIsNotRefused, OneRefusal, RunsAmongAreRuns, WholeRunsHaveNoFault, OneFault};

/// What holds of every course holds of the opening one.
pub fn opening_is_kept()
    ensures { OpeningIsKept }
{}

/// An allowed event keeps it, whichever of the four it is, and so does a run.
pub fn events_keep_course()
    ensures claim { ClaimKeeps }
    ensures read { ReadKeeps }
    ensures write { WriteKeeps }
    ensures finish { FinishKeeps }
    ensures event { EventKeeps }
    ensures runs { RunsKeep }
{}

/// What is closed under edges is closed under chains of them, and has every earlier place in
/// conflict with one that it has. The places that are done are such.
pub fn closed_under_chains()
    ensures chains { ChainsAreClosed }
    ensures conflicts { ConflictsAreClosed }
    ensures done { DoneAreClosed }
{}

/// A whole run ends with the words of the places one at a time, and with their receipts.
pub fn whole_runs_are_fold()
    ensures { WholeRunsAreFold }
{}

/// So what it leaves of the accounts of a plan is what the transactions leave one at a time, with
/// their receipts.
pub fn runs_leave_fold()
    ensures { RunsLeaveFold }
{}

/// There is a whole run: one worker can always take the places in their order.
pub fn whole_runs_exist()
    ensures { WholeRunsExist }
{}

/// Two whole runs, of whatever workers in whatever order, end alike.
pub fn order_makes_no_difference()
    ensures { OrderMakesNoDifference }
{}

/// Among so many workers each event is allowed or refused, not both, and for one reason.
pub fn one_verdict()
    ensures judged { EventsAreJudged }
    ensures apart { AllowedIsNotRefused }
    ensures reason { OneRefusal }
{}

/// A schedule is a whole run or has one fault, not both: it has one answer, but that memory can be
/// refused.
pub fn one_answer()
    ensures runs { RunsAmongAreRuns }
    ensures whole { WholeRunsHaveNoFault }
    ensures fault { OneFault }
{}
