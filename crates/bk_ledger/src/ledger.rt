//! What executing batches gave so far.

ghost use Rattle.std.specs.Prelude.{◌≡◌, [], length, map, IfOk, OnOk, slice_get};
ghost use Rattle.bk_base.specs.Feed.{genesis_of};
ghost use Rattle.bk_base.specs.Genesis.{AreAccounts, ids_of, total_of};
ghost use Rattle.bk_base.specs.declared.version.Version.TheVariants.{One};
ghost use Rattle.bk_rules.specs.Fold.{receipts_of, state_after, HasRoom};
ghost use Rattle.bk_rules.specs.Ops.{AreOps};
ghost use Rattle.bk_tx.specs.Batches.{count_in, payloads_of, feed_transactions};
ghost use Rattle.bk_ledger.specs.Executing.{HasRun};

use crate::batches::Batches;
use crate::summary::Summary;
use bk_base::{Row, Version};
use bk_rules::{Op, PackedReceipt, Receipt, State, run_near, run_ops};
use bk_steps::Outcome;
use std::alloc::{AllocError, Global};
use std::marker::Model;

/// What the batches executed so far gave. Contracts see how many transactions each batch holds, the receipts of all of
/// them, and the accounts after them.
#[derive(Drop)]
pub struct Ledger {
    // How many transactions each batch holds, `None` where it is void.
    pub(crate) counts: Vec<Option<u16>>,
    // What became of each transaction.
    pub(crate) receipts: Vec<PackedReceipt>,
    // The accounts after them.
    pub(crate) state: State,
}

impl Model for Ledger {
    ghost use Rattle.bk_ledger.specs.Ledger.{LedgerValue, ledger_with};

    ghost Value = { LedgerValue };

    ghost view = { λ l. ledger_with l.counts.items l.receipts.items l.state };
}

impl Ledger {
    /// The opening accounts, and no batch executed.
    pub fn new(alloc: Global, version: Version, rows: &[Row]) -> Result<Ledger, AllocError>
        requires accounts { AreAccounts rows.now }
        ensures counts { IfOk result (λ l. l.counts ≡ []) }
        ensures receipts { IfOk result (λ l. l.receipts ≡ []) }
        ensures version { IfOk result (λ l. l.state.version ≡ version) }
        ensures rows { IfOk result (λ l. l.state.rows ≡ rows.now) }
        ensures slots { IfOk result (λ l. l.state.slots ≡ ids_of rows.now) }
    {
        Ok(Ledger {
            counts: Vec::new(alloc),
            receipts: Vec::new(alloc),
            state: State::new(alloc, version, rows)?,
        })
    }

    /// What another execution of batches gave: how many transactions each holds, and its outcome.
    pub fn with(counts: Vec<Option<u16>>, outcome: Outcome) -> Ledger
        ensures counts { result.counts ≡ counts.items }
        ensures receipts { result.receipts ≡ outcome.receipts.items }
        ensures state { result.state ≡ outcome.state }
    {
        let Outcome { state, receipts } = outcome;
        Ledger {
            counts,
            receipts,
            state,
        }
    }

    /// How many transactions each batch holds, `None` where it is void.
    pub fn counts(&self) -> &[Option<u16>]
        ensures { result.now ≡ self.now.counts }
    {
        &self.counts
    }

    /// What became of each transaction.
    pub fn receipts(&self) -> &[PackedReceipt]
        ensures { result.now ≡ self.now.receipts }
    {
        &self.receipts
    }

    /// The accounts after them.
    pub fn state(&self) -> &State
        ensures { result.now ≡ self.now.state }
    {
        &self.state
    }

    /// What became of the transaction at a place, `None` for a place that was not executed.
    pub fn receipt(&self, place: u32) -> Option<Receipt>
        ensures { result ≡ slice_get self.now.receipts place }
    {
        match self.receipts.get(place as usize) {
            Some(packed) => Some(packed.receipt()),
            None => None,
        }
    }

    /// What the report says of it.
    pub fn summary(self, alloc: Global) -> Result<Summary, AllocError>
        ensures counts { IfOk result (λ s. s.counts.items ≡ self.counts) }
        ensures receipts { IfOk result (λ s. s.receipts.items ≡ self.receipts) }
        ensures rows { IfOk result (λ s. s.rows.items ≡ self.state.rows) }
        ensures total { IfOk result (λ s. s.total ≡ total_of self.state.rows) }
    {
        let rows = self.state.rows(alloc)?;
        let total = self.state.total();
        Ok(Summary {
            counts: self.counts,
            receipts: self.receipts,
            rows,
            total,
        })
    }

    /// Executes batches that were read, and leaves none of them.
    pub(crate) fn run(&mut self, alloc: Global, batches: &mut Batches) -> Result<(), AllocError>
        requires room { HasRoom self.old.state.version
            (length batches.old.txs.items) self.old.state.rows }
        ensures ran { OnOk result
            (HasRun batches.old.counts.items batches.old.txs.items self.old self.new) }
        ensures counts { OnOk result (batches.new.counts.items ≡ []) }
        ensures txs { OnOk result (batches.new.txs.items ≡ []) }
    {
        // Its contract says that the accounts are those of a ledger.
        let _ = self.state.version();
        self.state.prepare(alloc, &batches.txs)?;
        let receipts = run_near(
            alloc,
            &mut self.state,
            &batches.txs,
            batches.near.as_slice(),
        )?;
        self.receipts.extend_from_slice(&receipts)?;
        self.counts.extend_from_slice(&batches.counts)?;
        batches.txs.clear();
        batches.counts.clear();
        batches.near.clear();
        Ok(())
    }

    /// Executes batches that were read, in version One, by the ops of their transactions.
    pub(crate) fn run_by_ops(
        &mut self,
        alloc: Global,
        batches: &Batches,
        ops: &[Op],
    ) -> Result<(), AllocError>
        requires version { self.old.state.version ≡ One }
        requires ops { AreOps self.old.state.slots batches.now.txs.items ops.now }
        requires room { HasRoom self.old.state.version
            (length batches.now.txs.items) self.old.state.rows }
        ensures ran { OnOk result
            (HasRun batches.now.counts.items batches.now.txs.items self.old self.new) }
        ensures slots { OnOk result (self.new.state.slots ≡ self.old.state.slots) }
    {
        // Its contract says that the accounts are those of a ledger.
        let _ = self.state.version();
        let receipts = run_ops(alloc, &mut self.state, &batches.txs, ops, &batches.near)?;
        self.receipts.extend_from_slice(&receipts)?;
        self.counts.extend_from_slice(&batches.counts)?;
        Ok(())
    }
}
