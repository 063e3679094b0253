//! The stages of places.

ghost use Rattle.std.specs.Prelude.{◌≡◌, ◌==◌, ◌&&◌, length, replicate, IfOk, nat_lt, slice_index, slice_index_or};
ghost use Rattle.bk_steps.specs.private.Machine.{is_waiting};
ghost use Rattle.bk_steps.specs.declared.stage.Stage.TheVariants.{Waiting};

use bk_rules::Receipt;
use std::alloc::{AllocError, Global};

/// The stage of a place.
#[derive(Clone, Copy, Debug, PartialEq, Eq)]
pub enum Stage {
    /// Nobody has taken it.
    Waiting,
    /// This worker holds it.
    Held(u64),
    /// It is done, with this receipt.
    Done(Receipt),
}

// The same stage, n times.
pub(crate) fn stages_of(alloc: Global, stage: Stage, n: usize) -> Result<Vec<Stage>, AllocError>
    ensures { IfOk result (λ v. v.items ≡ replicate n stage) }
{
    Ok(vec![in alloc; stage; n]?)
}

// Whether the place is waiting.
fn is_waiting(stage: Stage) -> bool
    ensures { result ≡ is_waiting stage }
{
    match stage {
        Stage::Waiting => true,
        _ => false,
    }
}

// Whether there is such a place, it is waiting, and nothing that it waits for is left.
pub(crate) fn is_ready(stages: &[Stage], waits: &[u32], place: u64) -> bool
    requires { length waits.now ≡ length stages.now }
    ensures { result ≡ (nat_lt place (length stages.now)
        && (is_waiting (slice_index_or stages.now place Waiting)
        && (slice_index waits.now place == 0))) }
{
    let place = place as usize;
    place < stages.len() && (is_waiting(stages[place]) && waits[place] == 0)
}
