//! Executions of the transactions of a feed, and what they have to give.

ghost use Rattle.std.specs.Prelude.{IfOk};
ghost use Rattle.std.specs.Arc.{arc_value};
ghost use Rattle.bk_conflicts.specs.SceneOf.{CanRunOn};

use anyhow::{Result, bail};
use bk_conflicts::{Plan, Planner};
use bk_frames::Feed;
use bk_ledger::Batches;
use bk_pool::{ExecFault, Gate, Hints, Outcome, execute, execute_with};
use bk_rules::State;
use std::alloc::Global;
use std::sync::{Arc, Wait};
use std::thread::Threads;

const MOST: usize = 1 << 31;

// The plan of the transactions of a feed by this planner, with these likely slots, and the opening accounts.
fn planned_by(
    alloc: Global,
    feed: &Feed,
    planner: &mut Planner,
    near: &[u32],
) -> Result<(Plan, State)>
    ensures { IfOk result (λ r. CanRunOn r.0 r.1) }
{
    let Batches { txs, .. } = Batches::of(alloc, feed)?;
    let mut state = State::new(alloc, feed.version(), feed.genesis())?;
    state.prepare(alloc, &txs)?;
    if txs.len() >= MOST || state.ids().len() >= MOST {
        bail!("too many");
    }
    let plan = planner.plan(alloc, state.version(), state.ids(), txs, near)?;
    Ok((plan, state))
}

/// The plan of the transactions of a feed, and the opening accounts.
pub(crate) fn planned(alloc: Global, feed: &Feed) -> Result<(Plan, State)>
    ensures { IfOk result (λ r. CanRunOn r.0 r.1) }
{
    planned_by(alloc, feed, &mut Planner::new(alloc), &[])
}

/// The same with a plan that threads can share.
pub(crate) fn prepared(alloc: Global, feed: &Feed) -> Result<(Arc<Plan>, State)>
    ensures { IfOk result (λ r. CanRunOn (arc_value r.0) r.1) }
{
    let (plan, state) = planned(alloc, feed)?;
    Ok((Arc::new(alloc, plan)?, state))
}

// What an execution gave, which has to be something.
fn whole<T>(ran: Result<T, ExecFault>) -> Result<T> {
    match ran {
        Ok(given) => Ok(given),
        Err(ExecFault::OutOfMemory) => bail!("out of memory"),
        Err(ExecFault::Unfinished(place)) => bail!("place {place} is not done"),
    }
}

/// What this many workers make of the transactions of a feed.
pub(crate) fn executed<R: Threads + Wait + Sync, G: Gate + Sync>(
    rt: &R,
    alloc: Global,
    feed: &Feed,
    workers: usize,
    gate: &G,
) -> Result<Outcome> {
    let (plan, state) = prepared(alloc, feed)?;
    whole(execute(rt, alloc, &plan, state, workers.clamp(1, 64), gate))
}

/// What one worker for each end makes of them.
pub(crate) fn executed_by<R, G, H>(
    rt: &R,
    alloc: Global,
    feed: &Feed,
    gate: &G,
    ends: Vec<H>,
) -> Result<Outcome>
where
    R: Threads + Wait + Sync,
    G: Gate + Sync,
    H: Hints + Send + Drop,
{
    if ends.is_empty() || ends.len() > 64 {
        bail!("1 to 64 workers");
    }
    let (plan, state) = prepared(alloc, feed)?;
    whole(execute_with(rt, alloc, &plan, state, gate, ends))
}
