//! What a schedule gives.

ghost use Rattle.std.specs.Prelude.{◌≡◌, ◌^◌, ◌<◌, length, map, IfOk, IfErr};
ghost use Rattle.bk_steps.specs.private.Schedule.{IsFirstLeft};
ghost use Rattle.bk_steps.specs.declared.stage.Stage.TheVariants.{Done};
ghost use Rattle.bk_steps.specs.declared.outcome.ScheduleFault.TheVariants.{OutOfMemory};

use crate::stage::Stage;
use bk_base::Refused;
use bk_rules::{PackedReceipt, State};
use std::alloc::{AllocError, Global};

/// The accounts after all places, and the receipt of each.
#[derive(Drop)]
pub struct Outcome {
    /// The accounts.
    pub state: State,
    /// A receipt for each place, in the order of the places.
    pub receipts: Vec<PackedReceipt>,
}

/// Why a list of events gives no outcome.
#[derive(Clone, Copy, Debug, PartialEq, Eq)]
pub enum ScheduleFault {
    /// The event at this index, from 0, is refused, and each before it is allowed.
    Refused {
        /// The index of the event.
        index: usize,
        /// Why it is refused.
        code: Refused,
    },
    /// All events are allowed, and after them this place is not done, but each before it is.
    Unfinished(u32),
    /// Memory was refused.
    OutOfMemory,
}

impl From<AllocError> for ScheduleFault {
    ghost from_gives = { λ _ e. e ≡ OutOfMemory };

    fn from(_refused: AllocError) -> ScheduleFault {
        ScheduleFault::OutOfMemory
    }
}

// The receipts of the places, or the least of them that is not done.
pub(crate) fn receipts_of(
    alloc: Global,
    stages: &[Stage],
) -> Result<Vec<PackedReceipt>, ScheduleFault>
    requires { length stages.now < 2 ^ 31 }
    ensures done { IfOk result (λ receipts. map (λ r. Done r) receipts.items ≡ stages.now) }
    ensures left { IfErr result (λ fault. IsFirstLeft stages.now fault) }
{
    let mut receipts = Vec::with_capacity(alloc, stages.len())?;
    for place in 0..stages.len() {
        let Stage::Done(receipt) = stages[place] else {
            return Err(ScheduleFault::Unfinished(place as u32));
        };
        if receipts.push(PackedReceipt::of(receipt)).is_err() {
            return Err(ScheduleFault::OutOfMemory);
        }
    }
    Ok(receipts)
}
