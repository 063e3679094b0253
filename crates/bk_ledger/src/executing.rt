//! Batches, executed in slices by any number of workers. What one worker does is in `turns.rt`, and how the slices of two
//! and more are planned ahead in `running.rt`.
//!
//! In version Two a slice may declare accounts without a slot: then slots are made for it and for all slices after it at
//! once, so that these are planned ahead too.

ghost use Rattle.std.specs.Prelude.{◌≡◌, ◌+◌, ◌^◌, ◌<◌, ◌≤◌, map, length, IfOk, IfErr, OnOk};
ghost use Rattle.std.specs.Arc.{arc_value};
ghost use Rattle.bk_rules.specs.Fold.{HasRoom};
ghost use Rattle.bk_conflicts.specs.SceneOf.{CanRunOn};
ghost use Rattle.bk_pool.specs.Outcomes.{IsBelow, IsFoldOnto};
ghost use Rattle.bk_tx.specs.Batches.{transactions_of};
ghost use Rattle.bk_ledger.specs.Executing.{HasExecuted, HasRun, HasRunInSlices, Leaves};
ghost use Rattle.bk_ledger.specs.Naming.{named_by};
ghost use Rattle.bk_ledger.specs.private.Slices.{CanRunPart, IsPartFold, IsPartRun, IsRunOnto};

use crate::ledger::Ledger;
use crate::ready::Ready;
use crate::slice::FEWEST;
use crate::workers::WORTH_THREADS;
use bk_conflicts::Plan;
use bk_pool::{ExecFault, Gate, execute_here_onto, execute_onto};
use bk_rules::{PackedReceipt, State};
use std::alloc::Global;
use std::sync::{Arc, Wait};
use std::thread::Threads;

// Executes a plan from a state that it can run on, with this many workers, and puts the receipts at the end of a list.
// For few transactions no thread is started.
fn run_plan<R: Threads + Wait + Sync, G: Gate + Sync>(
    rt: &R,
    alloc: Global,
    plan: &Arc<Plan>,
    state: State,
    workers: usize,
    gate: &G,
    receipts: &mut Vec<PackedReceipt>,
) -> Result<State, ExecFault>
    requires runs { CanRunOn (arc_value plan.now) state }
    requires workers { (1 ≤ workers) × (workers ≤ 64) }
    ensures fold { IfOk result
        (IsFoldOnto (arc_value plan.now) state receipts.old.items receipts.new.items) }
    ensures ran { IfOk result (IsRunOnto (arc_value plan.now).txs state
        receipts.old.items receipts.new.items) }
    ensures unfinished { IfErr result (λ e. IsBelow (length (arc_value plan.now).txs) e) }
{
    if plan.len() < WORTH_THREADS {
        return execute_here_onto(alloc, plan, state, gate, receipts);
    }
    execute_onto(rt, alloc, plan, state, workers, gate, receipts)
}

// Executes a slice on a copy of the accounts that it touches, and puts the receipts at the end of a list.
fn run_part<R: Threads + Wait + Sync, G: Gate + Sync>(
    rt: &R,
    alloc: Global,
    state: &State,
    ready: &Ready,
    workers: usize,
    gate: &G,
    receipts: &mut Vec<PackedReceipt>,
) -> Result<State, ExecFault>
    requires runs { CanRunPart ready.now state.now }
    requires workers { (1 ≤ workers) × (workers ≤ 64) }
    ensures fold { IfOk result
        (IsPartFold ready.now state.now receipts.old.items receipts.new.items) }
    ensures ran { IfOk result
        (IsPartRun ready.now state.now receipts.old.items receipts.new.items) }
    ensures unfinished { IfErr result (IsBelow (length (arc_value ready.now.plan).txs)) }
{
    let part = state.part(alloc, &ready.list, ready.plan.ids())?;
    run_plan(rt, alloc, &ready.plan, part, workers, gate, receipts)
}

impl Ledger {
    // Executes a slice on the accounts that it touches.
    fn run_on<R: Threads + Wait + Sync, G: Gate + Sync>(
        &mut self,
        rt: &R,
        alloc: Global,
        ready: &Ready,
        workers: usize,
        gate: &G,
    ) -> Result<(), ExecFault>
        requires runs { CanRunPart ready.now self.old.state }
        requires places { length self.old.receipts
            + length (arc_value ready.now.plan).txs < 2 ^ 32 }
        requires workers { (1 ≤ workers) × (workers ≤ 64) }
        ensures ran { OnOk result (HasRun ready.now.counts.items
            (arc_value ready.now.plan).txs self.old self.new) }
        ensures slots { OnOk result (self.new.state.slots ≡ self.old.state.slots) }
        ensures fault { let first = length self.old.receipts in
            IfErr result (Leaves first (first + length (arc_value ready.now.plan).txs)) }
    {
        let first = self.receipts.len() as u32;
        match run_part(
            rt,
            alloc,
            &self.state,
            ready,
            workers,
            gate,
            &mut self.receipts,
        ) {
            Ok(part) => {
                self.counts.extend_from_slice(&ready.counts)?;
                self.state.put_back(&ready.list, &part);
                Ok(())
            }
            Err(ExecFault::OutOfMemory) => Err(ExecFault::OutOfMemory),
            Err(ExecFault::Unfinished(place)) => Err(ExecFault::Unfinished(first + place)),
        }
    }

    /// The same, for a ledger that is handed on.
    pub(crate) fn run_ready<R: Threads + Wait + Sync, G: Gate + Sync>(
        self,
        rt: &R,
        alloc: Global,
        ready: Ready,
        workers: usize,
        gate: &G,
    ) -> Result<Ledger, ExecFault>
        requires runs { CanRunPart ready self.state }
        requires places { length self.receipts + length (arc_value ready.plan).txs < 2 ^ 32 }
        requires workers { (1 ≤ workers) × (workers ≤ 64) }
        ensures ran { IfOk result (HasRun ready.counts.items (arc_value ready.plan).txs self) }
        ensures slots { IfOk result (λ l. l.state.slots ≡ self.state.slots) }
        ensures fault { let first = length self.receipts in
            IfErr result (Leaves first (first + length (arc_value ready.plan).txs)) }
    {
        let mut ledger = self;
        ledger.run_on(rt, alloc, &ready, workers, gate)?;
        Ok(ledger)
    }

    /// Executes further batches, in slices of at least so many transactions. One worker needs no plan: it executes them in
    /// their order.
    pub(crate) fn execute_by<R: Threads + Wait + Sync, G: Gate + Sync>(
        self,
        rt: &R,
        alloc: Global,
        payloads: &[&[u8]],
        fewest: usize,
        workers: usize,
        gate: &G,
    ) -> Result<Ledger, ExecFault>
        requires room { HasRoom self.state.version
            (length (transactions_of (map (λ p. p.now) payloads.now))) self.state.rows }
        requires few { length self.receipts
            + length (transactions_of (map (λ p. p.now) payloads.now)) < 2 ^ 32 }
        requires slots { length self.state.slots
            + named_by (transactions_of (map (λ p. p.now) payloads.now)) < 2 ^ 31 }
        requires fewest { fewest < 2 ^ 30 }
        requires workers { (1 ≤ workers) × (workers ≤ 64) }
        ensures executed { IfOk result (HasExecuted (map (λ p. p.now) payloads.now) self) }
        ensures fault { let first = length self.receipts in
            let added = transactions_of (map (λ p. p.now) payloads.now) in
            IfErr result (Leaves first (first + length added)) }
    {
        if workers == 1 {
            return Ok(self.execute_in_turn(rt, alloc, payloads, fewest, gate)?);
        }
        let (ledger, from) = self.execute_covered(rt, alloc, payloads, fewest, workers, gate)?;
        if from == payloads.len() {
            return Ok(ledger);
        }
        ledger.execute_widened(rt, alloc, &payloads[from..], fewest, workers, gate)
    }

    /// Executes further batches, a slice at a time, with this many workers, 1 to 64.
    ///
    /// One worker is the calling thread: it executes one transaction after another, while other threads read and look up
    /// the slices after it, and calls the gate for the places of a slice once all are done. Of two workers
    /// or more, no more threads execute a slice at once than there are processors but two, on which later slices are
    /// prepared, and two at least. The calling thread is one of them, and the only one for a slice of few transactions.
    ///
    /// Opening accounts have room for fewer than 2^63 transactions in all (`bk_rules::room_is_left`).
    ///
    /// `OutOfMemory`: memory was refused. `Unfinished`: a place of these batches, counted from the ledger's first batch, is
    /// not done; the contract says that it is a place of these batches.
    pub fn execute<R: Threads + Wait + Sync, G: Gate + Sync>(
        self,
        rt: &R,
        alloc: Global,
        payloads: &[&[u8]],
        workers: usize,
        gate: &G,
    ) -> Result<Ledger, ExecFault>
        requires room { HasRoom self.state.version
            (length (transactions_of (map (λ p. p.now) payloads.now))) self.state.rows }
        requires few { length self.receipts
            + length (transactions_of (map (λ p. p.now) payloads.now)) < 2 ^ 32 }
        requires slots { length self.state.slots
            + named_by (transactions_of (map (λ p. p.now) payloads.now)) < 2 ^ 31 }
        requires workers { (1 ≤ workers) × (workers ≤ 64) }
        ensures executed { IfOk result (HasExecuted (map (λ p. p.now) payloads.now) self) }
        ensures ran { IfOk result (HasRunInSlices (map (λ p. p.now) payloads.now) self) }
        ensures fault { let first = length self.receipts in
            let added = transactions_of (map (λ p. p.now) payloads.now) in
            IfErr result (Leaves first (first + length added)) }
    {
        self.execute_by(rt, alloc, payloads, FEWEST, workers, gate)
    }
}
