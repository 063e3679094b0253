//! What is made of the frames of a feed: their order, and what executing its batches gave.

ghost use Rattle.std.specs.Prelude.{◌≡◌, ◌+◌, ◌^◌, ◌<◌, ◌≤◌, ◌++◌, [], ℕ, List, false, drop, length, map, None, Some, OnOk, IfOk, IfErr, MatchOption};
ghost use Rattle.bk_base.specs.declared.version.Version.{Version};
ghost use Rattle.bk_frames.specs.Cutting.{frames_in};
ghost use Rattle.bk_base.specs.Feed.{Frame, FeedValue, IsFeed, feed_of, genesis_of};
ghost use Rattle.bk_base.specs.Genesis.{AreAccounts};
ghost use Rattle.bk_answer.specs.RunReport.{committee_in, later_frames, HasNoStopIn, IsStopIn};
ghost use Rattle.bk_follow.specs.Follower.{IsBookOf, IsCurrent, StaysSettled, receipts_of_executed};
ghost use Rattle.bk_rules.specs.Fold.{HasRoom};
ghost use Rattle.bk_ledger.specs.Executing.{HasExecuted};
ghost use Rattle.bk_ledger.specs.Naming.{named_by};
ghost use Rattle.bk_follow.specs.private.Books.{IsGoodBook, BookSettleFails};
ghost use Rattle.bk_answer.specs.Values.{closed_value, order_value};
ghost use Rattle.bk_follow.specs.Queries.{IsClosedBook, order_of};
ghost use Rattle.bk_follow.specs.private.Ledgers.{LeavesBy, left_after};

use crate::fault::{Fault, stopped, unexecuted};
use bk_answer::{Closed, ClosedOrder};
use bk_base::{Kind, Row, Workers};
use bk_committee::Committee;
use bk_ledger::Ledger;
use bk_order::{HashKey, Intake, JudgedFrames};
use bk_pool::Gate;
use std::alloc::{AllocError, Global};
use std::marker::Model;
use std::sync::Wait;
use std::thread::Threads;

/// What is made of the frames of a feed. Contracts see what was taken of the frames, with their order as it was settled
/// last, and what was executed.
#[derive(Drop)]
pub(crate) struct Book {
    pub(crate) alloc: Global,
    pub(crate) intake: Intake,
    /// What executing the order's batches gave; `None` once that failed.
    pub(crate) ledger: Option<Ledger>,
    /// The opening accounts.
    pub(crate) opening: Vec<Row>,
}

impl Model for Book {
    ghost use Rattle.bk_follow.specs.Follower.{BookValue};
    ghost use Rattle.bk_follow.specs.private.Ledgers.{book_with};

    ghost Value = { BookValue };

    ghost view = { λ b. book_with b.intake b.ledger b.opening.items };
}

// The payloads of an order's batches, from an index on.
fn payloads_from(alloc: Global, intake: &Intake, from: usize) -> Result<Vec<&[u8]>, AllocError>
    requires open { intake.now.failed ≡ false }
    requires within { from ≤ length intake.now.ordered.payloads.list }
    ensures { IfOk result (λ found. map (λ p. p.now) found.items
        ≡ drop from intake.now.ordered.payloads.list) }
{
    let mut payloads = Vec::with_capacity(alloc, intake.batches() - from)?;
    for index in from..intake.batches() {
        payloads.push(intake.payload(index))?;
    }
    Ok(payloads)
}

// Executes the batches of an order that follow those that the ledger has executed.
fn execute_rest<R: Threads + Wait + Sync, G: Gate + Sync>(
    rt: &R,
    alloc: Global,
    intake: &Intake,
    ledger: Ledger,
    workers: Workers,
    gate: &G,
) -> Result<Ledger, Fault>
    requires open { intake.now.failed ≡ false }
    requires within { length ledger.counts ≤ length intake.now.ordered.payloads.list }
    requires room { HasRoom ledger.state.version (length (left_after ledger intake.now)) ledger.state.rows }
    requires few { length ledger.receipts + length (left_after ledger intake.now) < 2 ^ 32 }
    requires slots { length ledger.state.slots + named_by (left_after ledger intake.now) < 2 ^ 31 }
    ensures executed { IfOk result
        (HasExecuted (drop (length ledger.counts) intake.now.ordered.payloads.list) ledger) }
    ensures fault { let first = length ledger.receipts in
        IfErr result (LeavesBy first (first + length (left_after ledger intake.now))) }
{
    let payloads = payloads_from(alloc, intake, ledger.counts().len())?;
    match ledger.execute(rt, alloc, &payloads, workers.count(), gate) {
        Ok(ledger) => Ok(ledger),
        Err(why) => Err(unexecuted(why)),
    }
}

impl Book {
    /// Of the committee and the genesis alone.
    pub(crate) fn new(
        alloc: Global,
        key: HashKey,
        committee: Committee,
        opening: Vec<Row>,
    ) -> Result<Book, AllocError>
        requires accounts { AreAccounts opening.items }
        ensures book { IfOk result (λ b. (feed : FeedValue) → later_frames feed ≡ []
            → committee ≡ committee_in feed → opening.items ≡ genesis_of feed.frames
            → IsBookOf feed b) }
        ensures none { IfOk result (λ b. StaysSettled None (Some b)) }
    {
        let version = committee.version();
        let ledger = Ledger::new(alloc, version, &opening)?;
        Ok(Book {
            alloc,
            intake: Intake::new(alloc, committee, key)?,
            ledger: Some(ledger),
            opening,
        })
    }

    /// Takes the next frames.
    pub(crate) fn take(
        &mut self,
        rt: &(impl Threads + Sync),
        frames: Vec<(Kind, Vec<u8>)>,
    ) -> Result<(), AllocError>
        requires room { self.old.taken.kept.next + length frames.items < 2 ^ 64 }
        ensures taken { OnOk result ((version : Version) (before : List Frame) → 2 ≤ length before
            → IsBookOf (feed_of version before) self.old
            → IsBookOf (feed_of version (before ++ frames_in frames.items)) self.new) }
        ensures order { OnOk result (self.new.taken.ordered ≡ self.old.taken.ordered) }
        ensures executed { self.new.executed ≡ self.old.executed }
    {
        self.intake.take(rt, frames)?;
        Ok(())
    }

    /// Takes the next frames, once they were judged by the committee.
    pub(crate) fn take_judged(&mut self, judged: JudgedFrames) -> Result<(), AllocError>
        requires mine { judged.committee ≡ self.old.taken.committee }
        requires room { self.old.taken.kept.next + length judged.frames < 2 ^ 64 }
        ensures taken { OnOk result ((version : Version) (before : List Frame) → 2 ≤ length before
            → IsBookOf (feed_of version before) self.old
            → IsBookOf (feed_of version (before ++ judged.frames)) self.new) }
        ensures committee { self.new.taken.committee ≡ self.old.taken.committee }
        ensures order { OnOk result (self.new.taken.ordered ≡ self.old.taken.ordered) }
        ensures executed { self.new.executed ≡ self.old.executed }
    {
        self.intake.take_judged(judged)?;
        Ok(())
    }

    /// The stop of the frames so far, as a fault.
    pub(crate) fn ready(&self) -> Result<(), Fault>
        ensures clear { OnOk result ((feed : FeedValue) → IsGoodBook feed self.now
            → HasNoStopIn feed) }
        ensures stop { IfErr result (λ f. (feed : FeedValue) → IsGoodBook feed self.now
            → IsStopIn feed f) }
    {
        match self.intake.stop() {
            Some(stop) => Err(stopped(stop)),
            None => Ok(()),
        }
    }

    /// The order, as it was settled last.
    pub(crate) fn order(&self) -> ClosedOrder<'_>
        ensures { order_value result ≡ order_of self.now }
    {
        ClosedOrder {
            intake: &self.intake,
            opening: &self.opening,
        }
    }

    /// The order and what was executed; `None` once an execution failed.
    pub(crate) fn closed(&self) -> Option<Closed<'_>>
        ensures { MatchOption result (self.now.executed ≡ None)
            (λ c. IsClosedBook self.now (closed_value c)) }
    {
        match &self.ledger {
            Some(ledger) => Some(Closed {
                order: self.order(),
                ledger,
            }),
            None => None,
        }
    }

    /// Settles the order of the frames so far, and executes the batches that it adds. Returns how many places that is.
    pub(crate) fn settle<R: Threads + Wait + Sync, G: Gate + Sync>(
        &mut self,
        rt: &R,
        workers: Workers,
        gate: &G,
    ) -> Result<usize, Fault>
        requires good { (feed : FeedValue) × IsGoodBook feed self.old }
        ensures settled { IfOk result (λ n. (feed : FeedValue) → IsGoodBook feed self.old
            → IsCurrent feed self.new) }
        ensures new { IfOk result (λ n. length (receipts_of_executed self.new.executed)
            ≡ length (receipts_of_executed self.old.executed) + n) }
        ensures fault { IfErr result (λ f. BookSettleFails self.old self.new f) }
    {
        if let Some(stop) = self.intake.stop() {
            return Err(stopped(stop));
        }
        self.intake.settle()?;
        let Some(ledger) = self.ledger.take() else {
            unreachable!()
        };
        let before = ledger.receipts().len();
        let ledger = execute_rest(rt, self.alloc, &self.intake, ledger, workers, gate)?;
        let count = ledger.receipts().len() - before;
        self.ledger = Some(ledger);
        Ok(count)
    }
}
