//! Executes chosen lists of transactions: with wrong and lost hints, lost holds, workers that wait for each other and
//! lists of events, and looks at plans and at the words of banks between the steps of workers. Most of this no clause
//! promises.
//!
//! What each has to give was computed by hand. What failed is named on standard error. The last line is
//! `N passed, M failed`.
#![tactic(auto)]

mod cases;
mod executing;
mod hostile;
mod lost;
mod machines;
mod meeting;
mod passes;
mod schedules;
mod touching;
mod waits;
mod words;

use crate::hostile::try_hints;
use crate::lost::try_lost;
use crate::machines::try_machines;
use crate::meeting::try_meetings;
use crate::passes::try_passes;
use crate::schedules::try_schedules;
use crate::touching::try_touching;
use crate::waits::try_waits;
use crate::words::try_words;
use anyhow::Result;
use bk_trial_kit::Tally;
use std::sync::Wait;
use std::thread::Threads;

fn run_all<R>(rt: &R, tally: &mut Tally)
where
    R: AllocGlobal + Eprint + Threads + Wait + Sync,
{
    try_hints(rt, tally);
    try_meetings(rt, tally);
    try_waits(rt, tally);
    try_lost(rt, tally);
    try_words(rt, tally);
    try_passes(rt, tally);
    try_schedules(rt, tally);
    try_machines(rt, tally);
    try_touching(rt, tally);
}

fn main(rt: HostRuntime) -> Result<()> {
    let mut tally = Tally::new();
    run_all(&rt, &mut tally);
    tally.report(&rt)
}
