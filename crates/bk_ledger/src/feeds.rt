//! The batches of a feed, executed in slices.

ghost use Rattle.std.specs.Prelude.{◌≡◌, ◌^◌, ◌<◌, ◌≤◌, ◌∷◌, ◌++◌, [], length, map, IfOk, IfErr, OnOk};
ghost use Rattle.bk_base.specs.Feed.{IsFeed, frame_of, genesis_of};
ghost use Rattle.bk_rules.specs.Fold.{receipts_of, state_after};
ghost use Rattle.bk_tx.specs.Batches.{count_in, feed_transactions, payloads_of};
ghost use Rattle.bk_ledger.specs.Executing.{Leaves};

use crate::ledger::Ledger;
use crate::slice::FEWEST;
use bk_base::{Kind, Version};
use bk_frames::Feed;
use bk_pool::{ExecFault, Gate, Open};
use bk_rules::Ids;
use std::alloc::{AllocError, Global};
use std::sync::Wait;
use std::thread::Threads;

impl Ledger {
    /// Executes the batches of a feed, in feed order, on its opening accounts: a slice of them after another in the calling
    /// thread, while one other thread reads the slice after it and, in version One, looks its accounts up.
    pub fn of<R: Threads + Sync>(rt: &R, alloc: Global, feed: &Feed) -> Result<Ledger, AllocError>
        ensures counts { IfOk result (λ l. l.counts
            ≡ map count_in (payloads_of feed.now.frames)) }
        ensures receipts { IfOk result (λ l. l.receipts
            ≡ receipts_of feed.now.version (feed_transactions feed.now.frames) (genesis_of feed.now.frames)) }
        ensures rows { IfOk result (λ l. l.state.rows
            ≡ state_after feed.now.version (feed_transactions feed.now.frames) (genesis_of feed.now.frames)) }
    {
        let payloads = batches_in(alloc, feed)?;
        let ledger = Ledger::new(alloc, feed.version(), feed.genesis())?;
        let ids = ledger.lasting_ids(alloc)?;
        let ledger = ledger.execute_read(rt, alloc, &payloads, &ids, FEWEST, &Open)?;
        Ok(ledger)
    }

    // The ids that have a slot, where batches add none.
    fn lasting_ids(&self, alloc: Global) -> Result<Option<Ids>, AllocError> {
        match self.state.version() {
            Version::One => Ok(Some(self.state.ids().share(alloc)?)),
            Version::Two => Ok(None),
        }
    }

    /// What `of` gives, by this many workers, 1 to 64, in slices of whole batches with at least so many transactions
    /// where there are so many left.
    pub fn of_slices<R: Threads + Wait + Sync, G: Gate + Sync>(
        rt: &R,
        alloc: Global,
        feed: &Feed,
        least: usize,
        workers: usize,
        gate: &G,
    ) -> Result<Ledger, ExecFault>
        requires least { least < 2 ^ 30 }
        requires workers { (1 ≤ workers) × (workers ≤ 64) }
        ensures counts { IfOk result (λ l. l.counts
            ≡ map count_in (payloads_of feed.now.frames)) }
        ensures receipts { IfOk result (λ l. l.receipts
            ≡ receipts_of feed.now.version (feed_transactions feed.now.frames) (genesis_of feed.now.frames)) }
        ensures rows { IfOk result (λ l. l.state.rows
            ≡ state_after feed.now.version (feed_transactions feed.now.frames) (genesis_of feed.now.frames)) }
        ensures unfinished { IfErr result (Leaves 0 (length (feed_transactions feed.now.frames))) }
    {
        let payloads = batches_in(alloc, feed)?;
        let ledger = Ledger::new(alloc, feed.version(), feed.genesis())?;
        let ledger = ledger.execute_by(rt, alloc, &payloads, least, workers, gate)?;
        Ok(ledger)
    }
}

// The payloads of the batches of a feed.
fn batches_in(alloc: Global, feed: &Feed) -> Result<Vec<&[u8]>, AllocError>
    ensures payloads { IfOk result (λ found. map (λ p. p.now) found.items
        ≡ payloads_of feed.now.frames) }
    ensures feed { IsFeed feed.now }
{
    let mut found = Vec::new(alloc);
    for index in 0..feed.len() {
        let (kind, payload) = feed.frame(index);
        push_batch(&mut found, kind, payload)?;
    }
    Ok(found)
}

// Puts a payload at the end, if it is that of a batch.
fn push_batch<'a>(
    found: &mut Vec<&'a [u8]>,
    kind: Kind,
    payload: &'a [u8],
) -> Result<(), AllocError>
    ensures { OnOk result (map (λ p. p.now) found.new.items
        ≡ map (λ p. p.now) found.old.items ++ payloads_of (frame_of kind payload.now ∷ [])) }
{
    match kind {
        Kind::Batch => {
            found.push(payload)?;
            Ok(())
        }
        Kind::Committee | Kind::Genesis | Kind::Certificate => Ok(()),
    }
}
