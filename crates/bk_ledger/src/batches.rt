//! Batches that were read and not executed.

ghost use Rattle.std.specs.Prelude.{◌≡◌, ◌+◌, ◌^◌, ◌<◌, ◌∷◌, ◌++◌, [], length, map, All, IfOk, OnOk};
ghost use Rattle.bk_base.specs.Feed.{frame_of};
ghost use Rattle.bk_tx.specs.Batches.{count_in, feed_transactions, payloads_of, transactions_in};

use bk_base::Kind;
use bk_frames::Feed;
use bk_tx::{Tx, push_transactions};
use std::alloc::{AllocError, Global};

/// Batches that follow each other, read and not executed.
#[derive(Drop)]
pub struct Batches {
    /// How many transactions each batch holds, `None` where it is void.
    pub counts: Vec<Option<u16>>,
    /// The transactions of all of them, a malformed one as `None`.
    pub txs: Vec<Option<Tx>>,
    /// Likely slots of the accounts that these declare, in their order, for as many as were looked up.
    pub(crate) near: Vec<u32>,
}

impl Batches {
    /// None.
    pub(crate) fn new(alloc: Global) -> Batches
        ensures counts { result.counts.items ≡ [] }
        ensures txs { result.txs.items ≡ [] }
    {
        Batches {
            counts: Vec::new(alloc),
            txs: Vec::new(alloc),
            near: Vec::new(alloc),
        }
    }

    /// The batches of a feed, in feed order.
    pub fn of(alloc: Global, feed: &Feed) -> Result<Batches, AllocError>
        ensures counts { IfOk result (λ b. b.counts.items
            ≡ map count_in (payloads_of feed.now.frames)) }
        ensures txs { IfOk result (λ b. b.txs.items ≡ feed_transactions feed.now.frames) }
    {
        let mut batches = Batches::new(alloc);
        for index in 0..feed.len() {
            let (kind, payload) = feed.frame(index);
            batches.push_frame(kind, payload)?;
        }
        Ok(batches)
    }

    /// Reads one more batch.
    pub(crate) fn push(&mut self, payload: &[u8]) -> Result<(), AllocError>
        ensures counts { OnOk result (self.new.counts.items
            ≡ self.old.counts.items ++ count_in payload.now ∷ []) }
        ensures txs { OnOk result (self.new.txs.items
            ≡ self.old.txs.items ++ transactions_in payload.now) }
        ensures few { OnOk result (length self.new.txs.items < length self.old.txs.items + 2 ^ 16) }
    {
        let count = push_transactions(&mut self.txs, payload)?;
        self.counts.push(count)?;
        Ok(())
    }

    /// Reads one more frame: a batch, or nothing.
    pub(crate) fn push_frame(&mut self, kind: Kind, payload: &[u8]) -> Result<(), AllocError>
        ensures counts { OnOk result (self.new.counts.items ≡ self.old.counts.items
            ++ map count_in (payloads_of (frame_of kind payload.now ∷ []))) }
        ensures txs { OnOk result (self.new.txs.items ≡ self.old.txs.items
            ++ feed_transactions (frame_of kind payload.now ∷ [])) }
    {
        match kind {
            Kind::Batch => self.push(payload),
            Kind::Committee | Kind::Genesis | Kind::Certificate => Ok(()),
        }
    }
}
