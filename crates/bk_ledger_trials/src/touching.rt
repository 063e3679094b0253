//! Which slots of a ledger are touched, against what was worked out by hand.

ghost use Rattle.std.specs.Prelude.{◌≡◌};
ghost use Rattle.bk_base.specs.Numbers.{is_ascending};

use anyhow::{Result, bail};
use bk_ledger::Touched;
use bk_rules::Ids;
use bk_trial_kit::Tally;
use std::alloc::Global;

const SLOTS: usize = 200;

// Indexes on both sides of each border of a word of 64 marks, one of them twice, and one that is no slot.
const NEAR: [u32; 9] = [128, 5, 64, u32::MAX, 63, 5, 127, 199, 0];

// Their slots.
const FOUND: [u32; 7] = [0, 5, 63, 64, 127, 128, 199];

// The ids of these, which are as their indexes.
const IDS: [u64; 7] = [0, 5, 63, 64, 127, 128, 199];

// The index of each among those.
const RANKS: [u32; 9] = [5, 1, 3, u32::MAX, 2, 1, 4, 6, 0];

// Whether each id is below the one after it.
fn ascends(list: &[u64]) -> bool
    ensures { result ≡ is_ascending list.now }
{
    list.is_sorted_by(|a, b| a < b)
}

// The ids of all slots: 0 to 199.
fn ids_of_slots(alloc: Global) -> Result<Ids> {
    let mut list = Vec::new(alloc);
    for id in 0..SLOTS as u64 {
        list.push(id)?;
    }
    if !ascends(&list) {
        bail!("the ids do not ascend");
    }
    Ok(Ids::new(alloc, list)?)
}

fn are_ranked(alloc: Global) -> Result<bool> {
    let ids = ids_of_slots(alloc)?;
    let mut near = NEAR;
    let touched = Touched::near(alloc, &ids, &mut near)?;
    Ok(
        touched.list.as_slice() == FOUND.as_slice()
            && touched.ids.as_slice() == IDS.as_slice()
            && near == RANKS,
    )
}

fn is_none_touched(alloc: Global) -> Result<bool> {
    let ids = ids_of_slots(alloc)?;
    let touched = Touched::near(alloc, &ids, &mut [])?;
    Ok(touched.list.is_empty() && touched.ids.is_empty())
}

fn are_all_touched(alloc: Global) -> Result<bool> {
    let ids = ids_of_slots(alloc)?;
    if ids.len() != SLOTS {
        return Ok(false);
    }
    let touched = Touched::all(alloc, &ids)?;
    Ok(touched.list.len() == SLOTS && touched.ids.as_slice() == ids.as_slice())
}

/// Compares the slots that are found, and their ranks.
pub(crate) fn try_touching<R: AllocGlobal + Eprint>(rt: &R, tally: &mut Tally) {
    let alloc = rt.alloc();
    tally.note(
        rt,
        "slots and their ranks",
        are_ranked(alloc).unwrap_or(false),
    );
    tally.note(rt, "no slot", is_none_touched(alloc).unwrap_or(false));
    tally.note(rt, "all slots", are_all_touched(alloc).unwrap_or(false));
}
