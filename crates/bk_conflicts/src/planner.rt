//! Plans made one after another, in lists that are kept.

ghost use Rattle.std.specs.Prelude.{◌≡◌, ◌^◌, ◌<◌, true, length, IfOk};
ghost use Rattle.bk_rules.specs.Ledger.{are_covered};
ghost use Rattle.bk_conflicts.specs.Plan.{IsPlan};

use crate::edges::{Kept, lists_of, new_kept};
use crate::plan::Plan;
use bk_base::Version;
use bk_rules::Ids;
use bk_tx::Tx;
use std::alloc::{AllocError, Global};

/// Makes plans one after another. It keeps the memory that making one takes beside the plan, as much as the largest
/// took; no plan depends on those before it, nor on a call that failed.
#[derive(Drop)]
pub struct Planner {
    kept: Kept,
}

impl Planner {
    /// It takes no memory yet.
    pub fn new(alloc: Global) -> Planner {
        Planner {
            kept: new_kept(alloc),
        }
    }

    /// The same plan as `Plan::make`, with likely slots of the accounts that the transactions declare, in their order, as
    /// `Ids::push_likely` lists them. The plan is the same whatever they are: each that is right saves a look-up.
    pub fn plan(
        &mut self,
        alloc: Global,
        version: Version,
        ids: &Ids,
        txs: Vec<Option<Tx>>,
        near: &[u32],
    ) -> Result<Plan, AllocError>
        requires covered { are_covered version ids.now txs.items ≡ true }
        requires few { length txs.items < 2 ^ 31 }
        requires few_slots { length ids.now < 2 ^ 31 }
        ensures version { IfOk result (λ p. p.version ≡ version) }
        ensures ids { IfOk result (λ p. p.ids ≡ ids.now) }
        ensures txs { IfOk result (λ p. p.txs ≡ txs.items) }
        ensures plan { IfOk result IsPlan }
    {
        let lists = lists_of(alloc, version, ids, &txs, near, &mut self.kept)?;
        Plan::of_lists(alloc, version, ids, txs, lists)
    }
}
