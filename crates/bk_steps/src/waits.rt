//! How many places each place still waits for.

ghost use Rattle.std.specs.Prelude.{◌≡◌, ℕ, ◌+◌, ◌<◌, ◌≤◌, length, IfOk, slice_index};
ghost use Rattle.bk_conflicts.specs.Scene.{times};
ghost use Rattle.bk_conflicts.specs.Plan.{before_of};

use bk_conflicts::Plan;
use std::alloc::{AllocError, Global};

// The counts of a plan of which nothing is done.
pub(crate) fn waits_of(alloc: Global, plan: &Plan) -> Result<Vec<u32>, AllocError>
    ensures long { IfOk result (λ waits. length waits.items ≡ length plan.now.txs) }
    ensures each { IfOk result (λ waits. (q : ℕ) → q < length plan.now.txs
        → slice_index waits.items q ≡ before_of plan.now q) }
{
    let mut waits = Vec::with_capacity(alloc, plan.len())?;
    for place in 0..plan.len() {
        waits.push(plan.before(place as u32))?;
    }
    Ok(waits)
}

// Counts one less for each of these places.
pub(crate) fn release(waits: &mut [u32], after: &[u32])
    requires { (q : ℕ) → times q after.now ≤ slice_index waits.old q }
    ensures long { length waits.new ≡ length waits.old }
    ensures less { (q : ℕ) → slice_index waits.old q
        ≡ times q after.now + slice_index waits.new q }
{
    for k in 0..after.len() {
        waits[after[k] as usize] -= 1;
    }
}
