//! Slots for the accounts that batches declare, made before these are executed.

ghost use Rattle.std.specs.Prelude.{◌≡◌, ◌+◌, ◌^◌, ◌<◌, ◌≤◌, true, map, length, IfOk, IfErr, OnOk};
ghost use Rattle.bk_rules.specs.Fold.{HasRoom};
ghost use Rattle.bk_rules.specs.Ledger.{are_covered};
ghost use Rattle.bk_tx.specs.Batches.{transactions_of};
ghost use Rattle.bk_ledger.specs.Executing.{HasExecuted, Leaves};
ghost use Rattle.bk_ledger.specs.Naming.{named_by};
ghost use Rattle.bk_ledger.specs.private.Slices.{IsSame};
ghost use Rattle.bk_ledger.specs.private.Widened.{IsWidened};

use crate::ledger::Ledger;
use crate::slice::{gather, least_of};
use bk_base::Version;
use bk_pool::{ExecFault, Gate};
use bk_rules::State;
use std::alloc::{AllocError, Global};
use std::sync::Wait;
use std::thread::Threads;

impl Ledger {
    /// Executes further batches, after a slot is made for each account that they declare and that needs one.
    pub(crate) fn execute_widened<R: Threads + Wait + Sync, G: Gate + Sync>(
        self,
        rt: &R,
        alloc: Global,
        payloads: &[&[u8]],
        fewest: usize,
        workers: usize,
        gate: &G,
    ) -> Result<Ledger, ExecFault>
        requires room { HasRoom self.state.version
            (length (transactions_of (map (λ p. p.now) payloads.now))) self.state.rows }
        requires few { length self.receipts
            + length (transactions_of (map (λ p. p.now) payloads.now)) < 2 ^ 32 }
        requires slots { length self.state.slots
            + named_by (transactions_of (map (λ p. p.now) payloads.now)) < 2 ^ 31 }
        requires fewest { fewest < 2 ^ 30 }
        requires workers { (1 ≤ workers) × (workers ≤ 64) }
        ensures executed { IfOk result (HasExecuted (map (λ p. p.now) payloads.now) self) }
        ensures fault { let first = length self.receipts in
            let added = transactions_of (map (λ p. p.now) payloads.now) in
            IfErr result (Leaves first (first + length added)) }
    {
        let mut ledger = self;
        ledger.widen(alloc, payloads, fewest)?;
        let (ledger, _) = ledger.execute_covered(rt, alloc, payloads, fewest, workers, gate)?;
        Ok(ledger)
    }

    // Makes a slot for each account that batches declare. In version One no account needs a slot.
    fn widen(&mut self, alloc: Global, payloads: &[&[u8]], fewest: usize) -> Result<(), AllocError>
        requires fewest { fewest < 2 ^ 30 }
        ensures same { OnOk result (IsSame self.old self.new) }
        ensures covered { OnOk result
            (are_covered self.new.state.version self.new.state.slots
            (transactions_of (map (λ p. p.now) payloads.now)) ≡ true) }
        ensures slots { OnOk result (length self.new.state.slots
            ≤ length self.old.state.slots
            + named_by (transactions_of (map (λ p. p.now) payloads.now))) }
    {
        match self.state.version() {
            Version::One => Ok(()),
            Version::Two => {
                widen_state(&mut self.state, alloc, payloads, fewest)?;
                Ok(())
            }
        }
    }
}

// Makes the slots in steps. A step passes over all slots, so it takes batches until these have half as many transactions
// as there are slots, within the bounds of `least_of`. The transactions that it decodes are dropped after it.
fn widen_state(
    state: &mut State,
    alloc: Global,
    payloads: &[&[u8]],
    fewest: usize,
) -> Result<(), AllocError>
    requires fewest { fewest < 2 ^ 30 }
    ensures { OnOk result (IsWidened (map (λ p. p.now) payloads.now) state.old state.new) }
{
    let mut from = 0usize;
    while from < payloads.len() {
        let least = least_of(state.slots().len(), fewest);
        let batches = gather(alloc, payloads, from, least)?;
        state.prepare(alloc, &batches.txs)?;
        from += batches.counts.len();
    }
    Ok(())
}
