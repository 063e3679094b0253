//! All places of a plan, by any number of workers.
ghost use Rattle.std.specs.Prelude.{◌≡◌, ◌≤◌, IfOk, IfErr, length, vec_len};
ghost use Rattle.std.specs.Arc.{arc_value};
ghost use Rattle.bk_conflicts.specs.SceneOf.{CanRunOn};
ghost use Rattle.bk_bank.specs.Bank.{bank_scene, IsPassOf};
ghost use Rattle.bk_pool.specs.Reads.{IsBankOf};
ghost use Rattle.bk_steps.specs.Schedule.{IsFoldOf};
ghost use Rattle.bk_steps.specs.Left.{RunLeaves};
ghost use Rattle.bk_pool.specs.Outcomes.{IsBelow, IsClosed, IsFoldOnto, RunLeavesOnto};

use crate::deques::ends_for;
use crate::hints::{Hints, Nobody};
use crate::levels::levels;
use crate::outcome::{ExecFault, outcome_of, outcome_onto};
use crate::place::Gate;
use crate::work::{serve, try_claim};
use bk_bank::{Bank, Pass, Words};
use bk_conflicts::Plan;
use bk_rules::{PackedReceipt, State};
use bk_steps::Outcome;
use std::alloc::{AllocError, Global};
use std::sync::{Arc, Wait};
use std::thread::Threads;

/// Executes a plan from a state that it can run on, with one worker for each end. Nothing is asked
/// of the hints: what the workers leave, the calling thread executes after them.
///
/// `Unfinished` names the first place that is not done; the contract says that it is a place of the plan.
pub fn execute_with<R: Threads + Wait + Sync, G: Gate + Sync, H: Hints + Send + Drop>(
    rt: &R,
    alloc: Global,
    plan: &Arc<Plan>,
    state: State,
    gate: &G,
    ends: Vec<H>,
) -> Result<Outcome, ExecFault>
    requires runs { CanRunOn (arc_value plan.now) state }
    requires ends { (1 ≤ vec_len ends) × (vec_len ends ≤ 64) }
    ensures fold { IfOk result (λ o. IsFoldOf (arc_value plan.now) state o) }
    ensures ran { IfOk result (λ o.
        RunLeaves (arc_value plan.now) state o.receipts.items o.state.rows) }
    ensures unfinished { IfErr result (λ e. IsBelow (length (arc_value plan.now).txs) e) }
{
    let mut ends = ends;
    put_opening(plan, &mut ends[0]);
    let words = run_ends(rt, alloc, plan, &state, gate, ends)?;
    outcome_of(alloc, plan, state, &words)
}

/// Executes a plan from a state that it can run on, in the calling thread, and puts the receipts at the end of a list. No
/// thread is started. On an `Err` the list has what it had before.
///
/// `Unfinished` names the first place that is not done; the contract says that it is a place of the plan.
pub fn execute_here_onto<G: Gate>(
    alloc: Global,
    plan: &Arc<Plan>,
    state: State,
    gate: &G,
    receipts: &mut Vec<PackedReceipt>,
) -> Result<State, ExecFault>
    requires runs { CanRunOn (arc_value plan.now) state }
    ensures fold { IfOk result
        (IsFoldOnto (arc_value plan.now) state receipts.old.items receipts.new.items) }
    ensures ran { IfOk result
        (RunLeavesOnto (arc_value plan.now) state receipts.old.items receipts.new.items) }
    ensures unchanged { IfErr result (λ e. receipts.new.items ≡ receipts.old.items) }
    ensures unfinished { IfErr result (λ e. IsBelow (length (arc_value plan.now).txs) e) }
{
    let done = run_here(alloc, plan, &state, gate)?;
    outcome_onto(plan, state, &done, receipts)
}

/// Executes a plan from a state that it can run on, with so many workers, the last of them in the
/// calling thread. They take the places in order, a range at a time, and steal from each other what becomes ready later.
/// The accounts and the receipts are those that the whole run of their events left.
pub fn execute<R: Threads + Wait + Sync, G: Gate + Sync>(
    rt: &R,
    alloc: Global,
    plan: &Arc<Plan>,
    state: State,
    workers: usize,
    gate: &G,
) -> Result<Outcome, ExecFault>
    requires runs { CanRunOn (arc_value plan.now) state }
    requires workers { (1 ≤ workers) × (workers ≤ 64) }
    ensures fold { IfOk result (λ o. IsFoldOf (arc_value plan.now) state o) }
    ensures ran { IfOk result (λ o.
        RunLeaves (arc_value plan.now) state o.receipts.items o.state.rows) }
    ensures unfinished { IfErr result (λ e. IsBelow (length (arc_value plan.now).txs) e) }
{
    let ends = ends_for(rt, alloc, plan.len() as u32, workers)?;
    let words = run_ends(rt, alloc, plan, &state, gate, ends)?;
    outcome_of(alloc, plan, state, &words)
}

/// The same, with the receipts at the end of a list. On an `Err` the list has what it had before.
pub fn execute_onto<R: Threads + Wait + Sync, G: Gate + Sync>(
    rt: &R,
    alloc: Global,
    plan: &Arc<Plan>,
    state: State,
    workers: usize,
    gate: &G,
    receipts: &mut Vec<PackedReceipt>,
) -> Result<State, ExecFault>
    requires runs { CanRunOn (arc_value plan.now) state }
    requires workers { (1 ≤ workers) × (workers ≤ 64) }
    ensures fold { IfOk result
        (IsFoldOnto (arc_value plan.now) state receipts.old.items receipts.new.items) }
    ensures ran { IfOk result
        (RunLeavesOnto (arc_value plan.now) state receipts.old.items receipts.new.items) }
    ensures unchanged { IfErr result (λ e. receipts.new.items ≡ receipts.old.items) }
    ensures unfinished { IfErr result (λ e. IsBelow (length (arc_value plan.now).txs) e) }
{
    let ends = ends_for(rt, alloc, plan.len() as u32, workers)?;
    let words = run_ends(rt, alloc, plan, &state, gate, ends)?;
    outcome_onto(plan, state, &words, receipts)
}

// Executes a plan by the hints that the ends give, and then what the workers left: the words at the end.
fn run_ends<R: Threads + Wait + Sync, G: Gate + Sync, H: Hints + Send + Drop>(
    rt: &R,
    alloc: Global,
    plan: &Arc<Plan>,
    state: &State,
    gate: &G,
    ends: Vec<H>,
) -> Result<Words, AllocError>
    requires runs { CanRunOn (arc_value plan.now) state.now }
    ensures { IfOk result (λ w. IsClosed (arc_value plan.now) state.now w) }
{
    let (bank, pass) = Bank::new(alloc, plan, state)?;
    let pass = levels(rt, &bank, plan, gate, pass, ends);
    let pass = claim_left(&bank, plan, gate, pass);
    Ok(bank.close(pass))
}

// Executes a plan in the calling thread: the words at the end.
fn run_here<G: Gate>(
    alloc: Global,
    plan: &Arc<Plan>,
    state: &State,
    gate: &G,
) -> Result<Words, AllocError>
    requires runs { CanRunOn (arc_value plan.now) state.now }
    ensures { IfOk result (λ w. IsClosed (arc_value plan.now) state.now w) }
{
    let (bank, pass) = Bank::new(alloc, plan, state)?;
    let done = claim_left(&bank, plan, gate, pass);
    Ok(bank.close(done))
}

// Puts the places that wait for no other.
fn put_opening<H: Hints>(plan: &Plan, end: &mut H) {
    for place in 0..plan.len() {
        if plan.before(place as u32) == 0 {
            end.put(place as u32);
        }
    }
}

// Executes each place that was left.
fn claim_left<G: Gate>(bank: &Bank, plan: &Plan, gate: &G, pass: Pass) -> Pass
    requires own { IsPassOf bank.now pass }
    requires plan { IsBankOf plan.now bank.now }
    ensures own { IsPassOf bank.now result }
{
    let mut idle = pass;
    for place in 0..plan.len() {
        match try_claim(bank, plan, idle, place as u32) {
            Ok(hold) => idle = serve(bank, plan, gate, hold, &mut Nobody),
            Err(pass) => idle = pass,
        }
    }
    idle
}
