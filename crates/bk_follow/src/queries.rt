//! What a Follower is asked between its pieces.

ghost use Rattle.std.specs.Prelude.{◌≡◌, Some, None, Err, OnOk, IfOk, IfErr, IfSome, MatchOption, slice_get};
ghost use Rattle.bk_rules.specs.Rows.{account_at};
ghost use Rattle.bk_follow.specs.Follower.{BookValue, receipts_in, executed_in};
ghost use Rattle.bk_report.specs.Proofs.{IsProofOf, IsAbsent};
ghost use Rattle.bk_answer.specs.Closed.{executed_of};
ghost use Rattle.bk_follow.specs.Queries.{IsClosedBook, order_of, opening_in, rows_in, NothingStops, IsStopSoFar};
ghost use Rattle.bk_follow.specs.Queries.{IsClosedBook, order_of, missing_in};
ghost use Rattle.bk_answer.specs.Values.{closed_value, order_value};
ghost use Rattle.bk_follow.specs.Ordering.{HasOrderOf, OrderFails};
ghost use Rattle.bk_base.specs.Feed.{FeedValue};
ghost use Rattle.bk_answer.specs.Flaws.{IsFlawIf};

use crate::fault::Fault;
use crate::follower::{Follower, latch};
use bk_answer::{Closed, ClosedOrder};
use bk_base::Row;
use bk_digest::Digest32;
use bk_ledger::Ledger;
use bk_order::Intake;
use bk_report::{Proof, proof_of};
use bk_results::Flaw;
use bk_rules::{Account, Receipt};
use std::alloc::AllocError;
use std::thread::Threads;

impl Follower {
    // The fault that is kept, or the stop of the whole frames so far.
    fn ready(&self) -> Result<(), Fault>
        ensures clear { OnOk result (NothingStops self.now) }
        ensures works { OnOk result (self.now.fault ≡ None) }
        ensures again { IfSome self.now.fault (λ f. result ≡ Err f) }
        ensures fault { IfErr result (λ f. self.now.fault ≡ None → IsStopSoFar self.now f) }
    {
        if let Some(fault) = self.fault {
            return Err(fault);
        }
        match &self.gathered.opened.book {
            Some(book) => {
                book.ready()?;
                Ok(())
            }
            None => Ok(()),
        }
    }

    /// What was taken of the frames after the genesis, with their order as it was settled last.
    pub fn intake(&self) -> Option<&Intake>
        ensures { MatchOption result (self.now.book ≡ None)
            (λ i. (b : BookValue) × (self.now.book ≡ Some b) × (i.now ≡ b.taken)) }
    {
        match &self.gathered.opened.book {
            Some(book) => Some(&book.intake),
            None => None,
        }
    }

    /// The digest of the missing batch at which the order stops, as it was settled last; `None` where it stops at none.
    pub fn missing(&self) -> Option<Digest32>
        ensures { result ≡ missing_in self.now.book }
    {
        match &self.gathered.opened.book {
            Some(book) => book.intake.missing().copied(),
            None => None,
        }
    }

    /// The opening accounts, none before the genesis is whole.
    pub fn opening(&self) -> &[Row]
        ensures { result.now ≡ opening_in self.now.book }
    {
        match &self.gathered.opened.book {
            Some(book) => &book.opening,
            None => &[],
        }
    }

    /// What was executed up to the last settle.
    pub fn ledger(&self) -> Option<&Ledger>
        ensures { MatchOption result (executed_in self.now.book ≡ None)
            (λ l. executed_in self.now.book ≡ Some (executed_of l.now)) }
    {
        match &self.gathered.opened.book {
            Some(book) => match &book.ledger {
                Some(ledger) => Some(ledger),
                None => None,
            },
            None => None,
        }
    }

    /// The order of the feed, as it was settled last; `None` before the genesis is whole.
    pub fn closed_order(&self) -> Option<ClosedOrder<'_>>
        ensures { MatchOption result (self.now.book ≡ None)
            (λ o. (b : BookValue) × (self.now.book ≡ Some b) × (order_value o ≡ order_of b)) }
    {
        match &self.gathered.opened.book {
            Some(book) => Some(book.order()),
            None => None,
        }
    }

    /// What keeps the feed from counting whole, where it is asked for. The feed came to its end, and its order was settled.
    pub fn flaw_if(&self, strict: bool) -> Result<Option<Flaw>, AllocError>
        requires { (feed : FeedValue) × HasOrderOf self.now feed }
        ensures { IfOk result (λ found. (feed : FeedValue)
            → HasOrderOf self.now feed → IsFlawIf strict feed found) }
    {
        let Some(order) = self.closed_order() else {
            unreachable!()
        };
        order.flaw_if(strict)
    }

    /// The order of the feed and what was executed, as of the last settle; `None` before the genesis is whole.
    pub fn closed(&self) -> Option<Closed<'_>>
        ensures { MatchOption result (executed_in self.now.book ≡ None)
            (λ c. (b : BookValue) × (self.now.book ≡ Some b)
            × IsClosedBook b (closed_value c)) }
    {
        match &self.gathered.opened.book {
            Some(book) => book.closed(),
            None => None,
        }
    }

    /// The account of this id as of the last settle, `None` for one that is absent. O(log n) at most.
    ///
    /// `Collision` or `Equivocation` where the whole frames so far are stopped.
    pub fn account(&self, id: u64) -> Result<Option<Account>, Fault>
        ensures account { IfOk result (λ a. a ≡ account_at (rows_in self.now.book) id) }
        ensures clear { OnOk result (NothingStops self.now) }
        ensures works { OnOk result (self.now.fault ≡ None) }
        ensures again { IfSome self.now.fault (λ f. result ≡ Err f) }
        ensures fault { IfErr result (λ f. self.now.fault ≡ None → IsStopSoFar self.now f) }
    {
        self.ready()?;
        match self.ledger() {
            Some(ledger) => Ok(ledger.state().account(id)),
            None => Ok(None),
        }
    }

    /// What became of the transaction at a place as of the last settle, `None` for a place that was not executed.
    ///
    /// `Collision` or `Equivocation` where the whole frames so far are stopped.
    pub fn receipt(&self, place: u32) -> Result<Option<Receipt>, Fault>
        ensures receipt { IfOk result (λ r. r ≡ slice_get (receipts_in self.now.book) place) }
        ensures clear { OnOk result (NothingStops self.now) }
        ensures works { OnOk result (self.now.fault ≡ None) }
        ensures again { IfSome self.now.fault (λ f. result ≡ Err f) }
        ensures fault { IfErr result (λ f. self.now.fault ≡ None → IsStopSoFar self.now f) }
    {
        self.ready()?;
        match self.ledger() {
            Some(ledger) => Ok(ledger.receipt(place)),
            None => Ok(None),
        }
    }

    // A proof of the account of this id as of the last settle.
    fn find_proof<R: Threads + Sync>(&self, rt: &R, id: u64) -> Result<Option<Proof>, AllocError>
        ensures { IfOk result (λ found. MatchOption found
            (IsAbsent (rows_in self.now.book) id) (IsProofOf (rows_in self.now.book) id)) }
    {
        let Some(ledger) = self.ledger() else {
            return Ok(None);
        };
        let rows = ledger.state().rows(self.alloc)?;
        let proof = proof_of(rt, self.alloc, &rows, id)?;
        Ok(proof)
    }

    /// A proof of the account of this id as of the last settle, `None` for one that is absent. O(n).
    ///
    /// `Collision` or `Equivocation` where the whole frames so far are stopped: then everything is as it was.
    pub fn prove<R: Threads + Sync>(&mut self, rt: &R, id: u64) -> Result<Option<Proof>, Fault>
        ensures proof { IfOk result (λ found. MatchOption found
            (IsAbsent (rows_in self.old.book) id) (IsProofOf (rows_in self.old.book) id)) }
        ensures same { OnOk result (self.new ≡ self.old) }
        ensures clear { OnOk result (NothingStops self.old) }
        ensures works { OnOk result (self.old.fault ≡ None) }
        ensures again { IfSome self.old.fault (λ f. (result ≡ Err f) × (self.new ≡ self.old)) }
        ensures fault { IfErr result (λ f. self.old.fault ≡ None
            → OrderFails self.old self.new f) }
    {
        self.ready()?;
        match self.find_proof(rt, id) {
            Ok(found) => Ok(found),
            Err(_) => Err(latch(
                self.alloc,
                &mut self.gathered,
                &mut self.fault,
                Fault::Memory,
            )),
        }
    }
}
