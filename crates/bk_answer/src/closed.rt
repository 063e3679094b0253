//! What was made of a feed that ended.

ghost use Rattle.std.specs.Prelude.{◌≡◌, IfOk};
ghost use Rattle.bk_base.specs.Feed.{FeedValue};
ghost use Rattle.bk_commit.specs.Ordering.{IsCommitted};
ghost use Rattle.bk_order.specs.Orders.{AreRoundsOf, AreWaiting};
ghost use Rattle.bk_answer.specs.Answers.{IsOrderMadeOf};
ghost use Rattle.bk_answer.specs.Values.{order_value};
ghost use Rattle.bk_answer.specs.RunReport.{committee_in, later_frames, reach_of};

use bk_base::Row;
use bk_cert::CertRef;
use bk_ledger::Ledger;
use bk_order::Intake;
use bk_results::Status;
use bk_rounds::Rounds;
use std::alloc::AllocError;

/// The order of a feed that ended.
#[derive(Clone, Copy)]
pub struct ClosedOrder<'a> {
    /// What was taken of the frames after the genesis, with their order.
    pub intake: &'a Intake,
    /// The opening accounts.
    pub opening: &'a [Row],
}

impl<'a> ClosedOrder<'a> {
    /// The rounds of the certificates that are held, of which the anchors of the order are the committed ones.
    pub fn rounds(&self) -> &'a Rounds
        requires { (feed : FeedValue) × IsOrderMadeOf (order_value self.now) feed }
        ensures rounds { (feed : FeedValue) → IsOrderMadeOf (order_value self.now) feed
            → AreRoundsOf (committee_in feed) (later_frames feed) result.now }
        ensures committed { IsCommitted result.now.sizes result.now.held
            self.now.intake.now.ordered.anchors }
    {
        self.intake.rounds()
    }

    /// How far the order goes: to its end, or to its first batch that is missing.
    pub fn reach(&self) -> Status
        ensures { result ≡ reach_of self.now.intake.now.ordered.payloads.missing }
    {
        match self.intake.missing() {
            Some(_) => Status::Missing,
            None => Status::Whole,
        }
    }

    /// The places of the certificates that wait, by round and author. O(n log n) in the certificates that are held.
    pub fn waiting(&self) -> Result<Vec<CertRef>, AllocError>
        ensures { IfOk result (λ places. (feed : FeedValue) → IsOrderMadeOf (order_value self.now) feed
            → AreWaiting (committee_in feed) (later_frames feed) places.items) }
    {
        self.intake.waiting()
    }
}

/// A feed that ended, and the batches of whose order were executed.
#[derive(Clone, Copy)]
pub struct Closed<'a> {
    /// The order of the feed.
    pub order: ClosedOrder<'a>,
    /// What executing the batches gave.
    pub ledger: &'a Ledger,
}
