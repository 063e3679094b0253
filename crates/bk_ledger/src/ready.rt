//! Slices that are planned before it is their turn.

ghost use Rattle.std.specs.Prelude.{◌≡◌, ◌^◌, ◌<◌, ◌≤◌, true, map, length, IfOk};
ghost use Rattle.bk_base.specs.declared.version.Version.TheVariants.{One, Two};
ghost use Rattle.bk_rules.specs.Ledger.{are_covered};
ghost use Rattle.bk_rules.specs.Part.{are_held};
ghost use Rattle.bk_ledger.specs.private.Slices.{IsNextFrom, IsPlannedOn, IsReady, counts_of, is_plannable, txs_of};
ghost use Rattle.bk_ledger.specs.Touched.{AreTouched};

use crate::batches::Batches;
use crate::held::holds_all;
use crate::touched::Touched;
use bk_base::Version;
use bk_conflicts::{Plan, Planner};
use bk_rules::{Ids, State};
use bk_tx::Tx;
use std::alloc::{AllocError, Global};
use std::sync::Arc;

/// Batches that follow each other, and the plan of their transactions over the slots that they touch.
#[derive(Drop)]
pub(crate) struct Ready {
    /// How many transactions each batch holds, `None` where it is void.
    pub(crate) counts: Vec<Option<u16>>,
    /// The indexes of the plan's slots among all.
    pub(crate) list: Vec<u32>,
    /// The plan of the transactions of all of them.
    pub(crate) plan: Arc<Plan>,
}

/// The slice whose turn is next.
#[derive(Drop)]
pub(crate) enum Next {
    /// One that was not planned: in version Two its transactions declare accounts without a slot.
    Read(Batches),
    /// One to be executed as it is.
    Ready(Ready),
}

impl Next {
    /// Whether the slice is planned, or can be: each account that needs a slot has one.
    pub(crate) fn is_plannable(&self, state: &State) -> bool
        ensures { result ≡ is_plannable state.now.version state.now.slots self.now }
    {
        match self {
            Next::Read(batches) => cover_all(state, &batches.txs),
            Next::Ready(_) => true,
        }
    }

    /// The slice as it is to be executed.
    pub(crate) fn into_ready(
        self,
        alloc: Global,
        version: Version,
        ids: &Ids,
    ) -> Result<Ready, AllocError>
        requires planned { IsPlannedOn version ids.now self }
        requires plannable { is_plannable version ids.now self ≡ true }
        requires few { length (txs_of self) < 2 ^ 31 }
        requires few_slots { length ids.now < 2 ^ 31 }
        ensures { IfOk result (IsReady version ids.now (counts_of self) (txs_of self)) }
    {
        match self {
            Next::Read(batches) => batches.planned(alloc, version, ids),
            Next::Ready(ready) => Ok(ready),
        }
    }
}

// Whether each account that transactions declare has a slot, if it needs one.
fn cover_all(state: &State, txs: &[Option<Tx>]) -> bool
    ensures { result ≡ are_covered state.now.version state.now.slots txs.now }
{
    txs.iter().all(|tx| state.covers(tx.as_ref()))
}

impl Batches {
    /// Plans the transactions over all slots; each account that needs a slot has one. It is for a slice whose own slots
    /// are not enough. That comes only where the look-up misses a slot, which it never does, but no contract says so.
    pub(crate) fn planned(
        self,
        alloc: Global,
        version: Version,
        ids: &Ids,
    ) -> Result<Ready, AllocError>
        requires covered { are_covered version ids.now self.txs.items ≡ true }
        requires few { length self.txs.items < 2 ^ 31 }
        requires few_slots { length ids.now < 2 ^ 31 }
        ensures { IfOk result (IsReady version ids.now self.counts.items self.txs.items) }
    {
        let all = Touched::all(alloc, ids)?;
        let mut planner = Planner::new(alloc);
        self.planned_over(alloc, &mut planner, version, ids, all)
    }

    // Plans them over slots that are enough.
    fn planned_over(
        self,
        alloc: Global,
        planner: &mut Planner,
        version: Version,
        ids: &Ids,
        touched: Touched,
    ) -> Result<Ready, AllocError>
        requires touched { AreTouched ids.now touched }
        requires held { are_held version ids.now touched.ids self.txs.items ≡ true }
        requires few { length self.txs.items < 2 ^ 31 }
        ensures { IfOk result (IsReady version ids.now self.counts.items self.txs.items) }
    {
        let Batches { counts, txs, near } = self;
        let Touched { list, ids } = touched;
        let plan = planner.plan(alloc, version, &ids, txs, &near)?;
        let plan = Arc::new(alloc, plan)?;
        Ok(Ready { counts, list, plan })
    }
}

/// Plans a slice, if each account that it declares has a slot among these.
pub(crate) fn plan_ahead(
    alloc: Global,
    planner: &mut Planner,
    batches: Batches,
    version: Version,
    ids: &Ids,
) -> Result<Next, AllocError>
    requires few { length batches.txs.items < 2 ^ 31 }
    ensures { IfOk result (IsNextFrom batches version ids.now) }
{
    match version {
        Version::One => plan_first(alloc, planner, batches, ids),
        Version::Two => hold_first(alloc, planner, batches, ids),
    }
}

// The same in version One, where any transactions have a plan: afterwards its words say whether its slots are enough.
fn plan_first(
    alloc: Global,
    planner: &mut Planner,
    batches: Batches,
    ids: &Ids,
) -> Result<Next, AllocError>
    requires few { length batches.txs.items < 2 ^ 31 }
    ensures { IfOk result (IsNextFrom batches One ids.now) }
{
    let Batches { counts, txs, near } = batches;
    let mut near = near;
    let touched = Touched::near(alloc, ids, &mut near)?;
    let plan = planner.plan(alloc, Version::One, &touched.ids, txs, &near)?;
    let list = touched.list;
    if holds_all(&plan, ids) {
        let plan = Arc::new(alloc, plan)?;
        return Ok(Next::Ready(Ready { counts, list, plan }));
    }
    // It never comes to this, as the look-up misses no slot; but no contract says so.
    let txs = plan.into_txs();
    Ok(Next::Read(Batches { counts, txs, near }))
}

// The same in version Two, where a plan has a slot of each account that is declared.
fn hold_first(
    alloc: Global,
    planner: &mut Planner,
    batches: Batches,
    ids: &Ids,
) -> Result<Next, AllocError>
    requires few { length batches.txs.items < 2 ^ 31 }
    ensures { IfOk result (IsNextFrom batches Two ids.now) }
{
    let version = Version::Two;
    let mut batches = batches;
    let touched = Touched::near(alloc, ids, &mut batches.near)?;
    if touched.ids.hold(version, ids, &batches.txs, &batches.near) {
        let ready = batches.planned_over(alloc, planner, version, ids, touched)?;
        return Ok(Next::Ready(ready));
    }
    Ok(Next::Read(batches))
}
