//! Follows feeds that chosen scripts make: in pieces, with ends between them, past faults and twins, by several workers, and
//! over sources and sinks that give little, fail and keep count; and compares what comes of them with what was worked out
//! by hand.
//!
//! The digests were worked out by another program. What failed is named on standard error. The last line is
//! `N passed, M failed`.
#![tactic(auto)]

mod agreeing;
mod between;
mod counting;
mod ended;
mod faults;
mod feeds;
mod going_on;
mod groups;
mod made;
mod meeting;
mod pieces;
mod standing;
mod stopped;
mod story;
mod twins;

use crate::agreeing::try_agreeing;
use crate::between::try_between;
use crate::counting::try_counting;
use crate::going_on::try_going_on;
use crate::groups::try_groups;
use crate::meeting::try_meetings;
use crate::pieces::try_pieces;
use crate::standing::try_standing;
use crate::twins::try_twins;
use anyhow::Result;
use bk_trial_kit::Tally;
use std::sync::Wait;
use std::thread::Threads;

fn run_all<R>(rt: &R) -> Result<Tally>
where
    R: AllocGlobal + Eprint + Threads + Wait + Sync,
{
    let mut tally = Tally::new();
    try_pieces(rt, &mut tally)?;
    try_going_on(rt, &mut tally)?;
    try_standing(rt, &mut tally)?;
    try_twins(rt, &mut tally)?;
    try_groups(rt, &mut tally)?;
    try_meetings(rt, &mut tally)?;
    try_between(rt, &mut tally)?;
    try_agreeing(rt, &mut tally);
    try_counting(rt, &mut tally)?;
    Ok(tally)
}

fn main(rt: HostRuntime) -> Result<()> {
    let tally = run_all(&rt)?;
    tally.report(&rt)
}
