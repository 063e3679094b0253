//! Checks certificates that break each set of rules, alone and together, and offers certificates and batches to tables of
//! evidence, where ids and digests that are handed in collide: no bytes are known that would do that in a feed.
//!
//! What each has to give was worked out by hand or is found by a plain slow body of this program, so it shows whether the
//! definitions say what is meant. What failed is named on standard error. The last line is `N passed, M failed`.
#![tactic(auto)]

mod batch_offers;
mod certs;
mod checks;
mod judging;
mod members;
mod offers;

use crate::batch_offers::try_batch_offers;
use crate::checks::try_checks;
use crate::judging::try_judging;
use crate::offers::try_offers;
use anyhow::Result;
use bk_trial_kit::Tally;
use std::thread::Threads;

fn run_all<R>(rt: &R, tally: &mut Tally)
where
    R: AllocGlobal + Eprint + Threads + Sync,
{
    try_checks(rt, tally);
    try_judging(rt, tally);
    try_offers(rt, tally);
    try_batch_offers(rt, tally);
}

fn main(rt: HostRuntime) -> Result<()> {
    let mut tally = Tally::new();
    run_all(&rt, &mut tally);
    tally.report(&rt)
}
