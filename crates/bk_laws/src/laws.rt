//! The laws, each the contract of a function that does nothing.

ghost use Rattle.bk_laws.specs.Counting.{RejectsAreCounted};
ghost use Rattle.bk_laws.specs.Claims.{ExactlyOneVerdict, GoodIsTheReport};
ghost use Rattle.bk_laws.specs.Following.{ExecutedIsFold, NamesFirstFault, OrderSoFarStays, ReceiptsStay};
ghost use Rattle.bk_laws.specs.Laws.{AccountsFit, ExactlyOneAnswer, ExactlyOneComparison, ExactlyOneReply, ExactlyOneScheduleAnswer, FaultOrApplyReport, FewPlaces, OrderedIsFinal, ReportIgnoresFrameOrder, ProofsOfFeedsAreGood, RejectedAreBroken, RejectedStay, StopsStay};

use bk_steps::one_answer;

/// A byte string comes to exactly one thing: it has a fault, is stopped, or has a report of `run` with its status.
pub fn exactly_one_answer()
    ensures { ExactlyOneAnswer }
{}

/// A byte string has a fault or a report of `apply`.
pub fn fault_or_apply_report()
    ensures { FaultOrApplyReport }
{}

/// Where a byte string has a report, each query has exactly one reply, found or absent, with one text.
pub fn exactly_one_reply()
    ensures { ExactlyOneReply }
{}

/// Where a byte string has a report, each claim of what the report is has exactly one verdict with one text, and it is
/// found good exactly where it is the report: `check-report` accepts what `run` writes, and nothing else.
pub fn claims_have_one_verdict()
    ensures one { ExactlyOneVerdict }
    ensures good { GoodIsTheReport }
{}

/// Two feeds come to exactly one thing: they agree, so far as the shorter order and the shorter list of receipts go, or
/// they differ in version, committee or opening accounts, or both together are stopped. Two orders that differ are none
/// of these.
pub fn exactly_one_comparison()
    ensures { ExactlyOneComparison }
{}

/// Where a feed's frames are part of those of a larger feed that nothing stops, with one setup, its anchors, its order,
/// its batches and its receipts begin those of the larger one: what was final stays so.
pub fn ordered_is_final()
    ensures { OrderedIsFinal }
{}

/// Where nothing stops a feed, nothing stops a part of it: what stops a feed stops every larger one.
pub fn stops_stay()
    ensures { StopsStay }
{}

/// Where nothing stops a feed, neither the order of its frames after the genesis nor their repeats change what waits,
/// what is ordered, the receipts and the accounts. What is rejected is named by the numbers of frames: see
/// [`rejected_stay`].
pub fn report_ignores_frame_order()
    ensures { ReportIgnoresFrameOrder }
{}

/// What is rejected of a feed is each certificate that breaks a rule, by the number of its frame and the least rule that
/// it breaks, and nothing else.
pub fn rejected_are_broken()
    ensures { RejectedAreBroken }
{}

/// As many frames are rejected in the listing of a feed as its report has lines of rejected certificates.
pub fn rejects_are_counted()
    ensures { RejectsAreCounted }
{}

/// A certificate that is rejected of a feed is rejected of every larger one with its setup, by the same rule.
pub fn rejected_stay()
    ensures { RejectedStay }
{}

/// Where the transactions of a feed have a plan, each list of events by some number of workers comes to exactly one
/// thing: it is a whole run of them, or has one fault. Plans of one feed differ in nothing that an event asks for.
pub fn exactly_one_schedule_answer()
    ensures { ExactlyOneScheduleAnswer }
{
    one_answer();
}

/// The numbers of the accounts at the end of a run, and how many they are, fit 64 bits.
pub fn accounts_fit()
    ensures { AccountsFit }
{}

/// A feed has fewer than 2^31 transactions, and so have the batches of its order: every place fits four bytes, and a
/// plan.
pub fn few_places()
    ensures { FewPlaces }
{}

/// Whatever feed a proof of an account comes from, it is a good proof for the digest of the state in the last line of
/// that feed's report: what `prove` writes, `check-proof` accepts.
pub fn proofs_of_feeds_are_good()
    ensures { ProofsOfFeedsAreGood }
{}

/// However a feed is cut into pieces, a fault of it that `Follower::feed` returns is the first fault of all bytes so far,
/// and stays it whatever follows.
pub fn names_first_fault()
    ensures { NamesFirstFault }
{}

/// What a Follower has ordered begins what it has ordered at every later moment, while nothing stops the feed.
pub fn order_so_far_stays()
    ensures { OrderSoFarStays }
{}

/// The receipts of a settled Follower begin those of every later moment at which it is settled.
pub fn receipts_stay()
    ensures { ReceiptsStay }
{}

/// What a Follower has executed, and so what `account`, `receipt` and `prove` speak of, is the fold over all places of the
/// order of a part of its whole frames: of those that there were at the last settle.
pub fn executed_is_fold()
    ensures { ExecutedIsFold }
{}
