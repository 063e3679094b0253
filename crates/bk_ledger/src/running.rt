//! Slices, executed by two workers and more up to the first one that cannot be planned ahead.
//!
//! While they are executed, those after them are planned in a thread that stays until there is none more, and the next ones
//! are read, decoded and looked up in another.

ghost use Rattle.std.specs.Prelude.{◌≡◌, ◌+◌, ◌^◌, ◌<◌, ◌≤◌, true, map, length, IfOk, IfErr};
ghost use Rattle.std.specs.Thread.{IsSync};
ghost use Rattle.rtrb.specs.Ring.{received, sent};
ghost use Rattle.bk_rules.specs.Fold.{HasRoom};
ghost use Rattle.bk_tx.specs.Batches.{transactions_of};
ghost use Rattle.bk_ledger.specs.Executing.{HasRun, Leaves};
ghost use Rattle.bk_ledger.specs.private.Handing.{AreHanded, ArePlanned};
ghost use Rattle.bk_ledger.specs.private.Slices.{IsPlannedOn, IsRunTo, counts_of, is_plannable, txs_of};

use crate::ledger::Ledger;
use crate::planning::{Plans, plan_all, plans};
use crate::reading::{read_all, read_next, slices};
use crate::ready::{Next, plan_ahead};
use crate::slice::are_few;
use crate::workers::workers_at_once;
use bk_conflicts::Planner;
use bk_pool::{ExecFault, Gate};
use bk_rules::Ids;
use crossbeam_utils::sync::Parker;
use std::alloc::{AllocError, Global};
use std::sync::Wait;
use std::thread::{Threads, scope, scope_env};

impl Ledger {
    // Executes the slice whose turn it is. Also returns how many batches it has.
    fn run_next<R: Threads + Wait + Sync, G: Gate + Sync>(
        self,
        rt: &R,
        alloc: Global,
        next: Next,
        workers: usize,
        gate: &G,
    ) -> Result<(Ledger, usize), ExecFault>
        requires planned { IsPlannedOn self.state.version self.state.slots next }
        requires plannable { is_plannable self.state.version self.state.slots next ≡ true }
        requires room { HasRoom self.state.version (length (txs_of next)) self.state.rows }
        requires places { length self.receipts + length (txs_of next) < 2 ^ 32 }
        requires slots { length self.state.slots < 2 ^ 31 }
        requires few { length (txs_of next) < 2 ^ 31 }
        requires workers { (1 ≤ workers) × (workers ≤ 64) }
        ensures ran { IfOk result (λ r. HasRun (counts_of next) (txs_of next) self r.0) }
        ensures slots { IfOk result (λ r. r.0.state.slots ≡ self.state.slots) }
        ensures count { IfOk result (λ r. r.1 ≡ length (counts_of next)) }
        ensures fault { let first = length self.receipts in
            IfErr result (Leaves first (first + length (txs_of next))) }
    {
        // Its contract says that the accounts are those of a ledger.
        let version = self.state().version();
        let ready = next.into_ready(alloc, version, self.state().ids())?;
        let count = ready.counts.len();
        let ledger = self.run_ready(rt, alloc, ready, workers, gate)?;
        Ok((ledger, count))
    }

    // Executes the slices that come, up to the first one that declares an account that needs a slot and has none. Also
    // returns the index of the first batch of that slice, or the number of batches where there is no such slice.
    fn run_planned<'a, 'b, R: Threads + Wait + Sync, G: Gate + Sync>(
        self,
        rt: &R,
        alloc: Global,
        payloads: &'a [&'a [u8]],
        plans: Plans<'a, 'b>,
        own: Parker,
        workers: usize,
        gate: &G,
    ) -> Result<(Ledger, usize), ExecFault>
        requires plans { ArePlanned (map (λ p. p.now) payloads.now) self.state.version self.state.slots 0
            (received plans.taker) }
        requires room { HasRoom self.state.version
            (length (transactions_of (map (λ p. p.now) payloads.now))) self.state.rows }
        requires few { length self.receipts
            + length (transactions_of (map (λ p. p.now) payloads.now)) < 2 ^ 32 }
        requires slots { length self.state.slots < 2 ^ 31 }
        requires workers { (1 ≤ workers) × (workers ≤ 64) }
        ensures { IsRunTo (map (λ p. p.now) payloads.now) self result }
    {
        let mut plans = plans;
        let mut ledger = self;
        let mut from = 0usize;
        while from < payloads.len() {
            // None comes where memory ran out in a thread before this one.
            let Some(planned) = plans.take_next(rt, &own) else {
                return Err(ExecFault::OutOfMemory);
            };
            let next = planned.next;
            if !next.is_plannable(ledger.state()) {
                return Ok((ledger, from));
            }
            let (after, count) = ledger.run_next(rt, alloc, next, workers, gate)?;
            ledger = after;
            from += count;
        }
        Ok((ledger, from))
    }

    // The same, of slices that the calling thread reads and plans, each in its turn.
    fn run_alone<R: Threads + Wait + Sync, G: Gate + Sync>(
        self,
        rt: &R,
        alloc: Global,
        payloads: &[&[u8]],
        ids: &Ids,
        least: usize,
        workers: usize,
        gate: &G,
    ) -> Result<(Ledger, usize), ExecFault>
        requires ids { ids.now ≡ self.state.slots }
        requires least { least < 2 ^ 30 }
        requires room { HasRoom self.state.version
            (length (transactions_of (map (λ p. p.now) payloads.now))) self.state.rows }
        requires few { length self.receipts
            + length (transactions_of (map (λ p. p.now) payloads.now)) < 2 ^ 32 }
        requires slots { length self.state.slots < 2 ^ 31 }
        requires workers { (1 ≤ workers) × (workers ≤ 64) }
        ensures { IsRunTo (map (λ p. p.now) payloads.now) self result }
    {
        let version = self.state().version();
        let mut planner = Planner::new(alloc);
        let mut ledger = self;
        let mut from = 0usize;
        while from < payloads.len() {
            let read = read_next(alloc, payloads, Some(ids), from, least)?;
            let next = plan_ahead(alloc, &mut planner, read, version, ids)?;
            if !next.is_plannable(ledger.state()) {
                return Ok((ledger, from));
            }
            let (after, count) = ledger.run_next(rt, alloc, next, workers, gate)?;
            ledger = after;
            from += count;
        }
        Ok((ledger, from))
    }

    // The same, while two other threads read and plan the slices. Where one of them cannot be started it goes on without
    // both.
    fn execute_planned<'a, R: Threads + Wait + Sync, G: Gate + Sync>(
        self,
        rt: &R,
        alloc: Global,
        payloads: &'a [&'a [u8]],
        fewest: usize,
        workers: usize,
        gate: &G,
    ) -> Result<(Ledger, usize), ExecFault>
        requires room { HasRoom self.state.version
            (length (transactions_of (map (λ p. p.now) payloads.now))) self.state.rows }
        requires few { length self.receipts
            + length (transactions_of (map (λ p. p.now) payloads.now)) < 2 ^ 32 }
        requires slots { length self.state.slots < 2 ^ 31 }
        requires fewest { fewest < 2 ^ 30 }
        requires workers { (1 ≤ workers) × (workers ≤ 64) }
        ensures { IsRunTo (map (λ p. p.now) payloads.now) self result }
    {
        let version = self.state().version();
        let shared = self.state().ids().share(alloc)?;
        let ids = &shared;
        let reading = Parker::new(alloc)?;
        let planning = Parker::new(alloc)?;
        let running = Parker::new(alloc)?;
        let (read, unplanned) = slices(alloc, payloads, &reading, &planning)?;
        let (planned, ready) = plans(alloc, payloads, version, ids, &planning, &running)?;
        scope(
            scope_env(),
            rt,
            |threads| -> Result<(Ledger, usize), ExecFault>
                requires { IsSync R.row × IsSync G.row
                    × AreHanded (map (λ p. p.now) payloads.now) 0 (sent read.giver)
                    × AreHanded (map (λ p. p.now) payloads.now) 0 (received unplanned.taker)
                    × ArePlanned (map (λ p. p.now) payloads.now) version ids.now 0 (sent planned.giver)
                    × ArePlanned (map (λ p. p.now) payloads.now) self.state.version self.state.slots 0
                    (received ready.taker)
                    × (length payloads.now < 2 ^ 64) × (fewest < 2 ^ 30)
                    × (ids.now ≡ self.state.slots)
                    × HasRoom self.state.version
                    (length (transactions_of (map (λ p. p.now) payloads.now))) self.state.rows
                    × (length self.receipts
                    + length (transactions_of (map (λ p. p.now) payloads.now)) < 2 ^ 32)
                    × (length self.state.slots < 2 ^ 31)
                    × (1 ≤ workers) × (workers ≤ 64) }
                ensures { IsRunTo (map (λ p. p.now) payloads.entry.now) self result }
            {
                let reader = threads.spawn(
                    || -> Result<(), AllocError>
                        requires { IsSync R.row
                            × AreHanded (map (λ p. p.now) payloads.now) 0 (sent read.giver)
                            × (length payloads.now < 2 ^ 64) × (fewest < 2 ^ 30) }
                    { read_all(rt, alloc, payloads, Some(ids), fewest, read, reading) },
                );
                let planner = threads.spawn(
                    || -> Result<(), AllocError>
                        requires { IsSync R.row
                            × AreHanded (map (λ p. p.now) payloads.now) 0 (received unplanned.taker)
                            × ArePlanned (map (λ p. p.now) payloads.now) version ids.now 0
                            (sent planned.giver) }
                    {
                        plan_all(
                            rt, alloc, payloads, version, ids, unplanned, planned, planning,
                        )
                    },
                );
                if reader.is_err() || planner.is_err() {
                    return self.run_alone(rt, alloc, payloads, ids, fewest, workers, gate);
                }
                self.run_planned(rt, alloc, payloads, ready, running, workers, gate)
            },
        )
    }

    /// Executes further batches, up to the first slice that declares an account that needs a slot and has none. Also
    /// returns the index of the first batch of that slice, or the number of batches where there is no such slice.
    pub(crate) fn execute_covered<R: Threads + Wait + Sync, G: Gate + Sync>(
        self,
        rt: &R,
        alloc: Global,
        payloads: &[&[u8]],
        fewest: usize,
        workers: usize,
        gate: &G,
    ) -> Result<(Ledger, usize), ExecFault>
        requires room { HasRoom self.state.version
            (length (transactions_of (map (λ p. p.now) payloads.now))) self.state.rows }
        requires few { length self.receipts
            + length (transactions_of (map (λ p. p.now) payloads.now)) < 2 ^ 32 }
        requires slots { length self.state.slots < 2 ^ 31 }
        requires fewest { fewest < 2 ^ 30 }
        requires workers { (1 ≤ workers) × (workers ≤ 64) }
        ensures { IsRunTo (map (λ p. p.now) payloads.now) self result }
    {
        let workers = workers_at_once(rt, workers);
        if are_few(payloads, fewest) {
            let ids = self.state().ids().share(alloc)?;
            return self.run_alone(rt, alloc, payloads, &ids, fewest, workers, gate);
        }
        self.execute_planned(rt, alloc, payloads, fewest, workers, gate)
    }
}
