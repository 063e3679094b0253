//! A feed in pieces of several sizes, among them empty ones, and a feed that ends at each of its bytes.

use crate::ended::{replayed, replays, report};
use crate::faults::{begun_at, cut_at};
use crate::feeds::{BOTH, REPORTS, TWO_COMMITS, TWO_COMMITS_DIGEST, TWO_COMMITS_ENDS};
use crate::made::{has_digest, made};
use crate::story::{Step, follows};
use anyhow::Result;
use bk_results::Fault;
use bk_trial_kit::{Tally, part};
use std::sync::Wait;
use std::thread::Threads;

const SIZES: [usize; 5] = [1, 2, 7, 64, 4_096];

fn try_sizes<R>(rt: &R, feed: &[u8], sizes: &[usize], tally: &mut Tally)
where
    R: AllocGlobal + Eprint + Threads + Wait + Sync,
{
    for size in sizes {
        let story = [Step::TakesIn(feed, *size), Step::ReportsLines(8, BOTH)];
        let is_right = follows(rt, 2, &story);
        tally.note(rt, "empty pieces between others", is_right);
    }
}

// ---- feeds that are cut

// The report of the feed that ends here, if there is one: how many frames it has, and its other lines.
fn lines_at(rows: &[(usize, u64, &'static str)], kept: usize) -> Option<(u64, &'static str)> {
    for (end, frames, lines) in rows {
        if *end == kept {
            return Some((*frames, *lines));
        }
    }
    None
}

// Whether a replay of a feed has this fault.
fn replay_fails<R>(rt: &R, feed: &[u8], fault: &Fault) -> bool
where
    R: AllocGlobal + Threads + Wait + Sync,
{
    let ended = replayed(rt, feed, 2);
    ended.is_fault(fault)
}

// Whether a feed that ends early has this fault, which its other bytes do not mend.
fn stays_cut<'x, R>(rt: &R, front: &'x [u8], rest: &'x [u8], fault: &'x Fault) -> bool
where
    R: AllocGlobal + Threads + Wait + Sync,
{
    let story = [
        Step::Takes(front),
        Step::Ends(fault),
        Step::Refuses(rest, fault),
        Step::Ends(fault),
    ];
    follows(rt, 2, &story) && replay_fails(rt, front, fault)
}

// Whether a feed is reported where it ends, and again after its other bytes.
fn goes_on<'x, R>(
    rt: &R,
    front: &'x [u8],
    rest: &'x [u8],
    (frames, lines): (u64, &'x str),
) -> Result<bool>
where
    R: AllocGlobal + Threads + Wait + Sync,
{
    let story = [
        Step::Takes(front),
        Step::ReportsLines(frames, lines),
        Step::Takes(rest),
        Step::ReportsLines(8, BOTH),
    ];
    let text = report(rt.alloc(), frames, lines)?;
    Ok(follows(rt, 2, &story) && replays(rt, front, 2, text.as_bytes()))
}

fn ends_well<R>(rt: &R, feed: &[u8], kept: usize) -> Result<bool>
where
    R: AllocGlobal + Threads + Wait + Sync,
{
    let (front, rest) = (part(feed, 0, kept), part(feed, kept, feed.len()));
    match lines_at(&REPORTS, kept) {
        Some(row) => goes_on(rt, front, rest, row),
        None => {
            // The fault names the frame that is not whole, or where the genesis is not there.
            let fault = cut_at(begun_at(&TWO_COMMITS_ENDS, kept));
            Ok(stays_cut(rt, front, rest, &fault))
        }
    }
}

// Each length of the feed, from none of its bytes to all.
fn try_cuts<R>(rt: &R, feed: &[u8], tally: &mut Tally)
where
    R: AllocGlobal + Eprint + Threads + Wait + Sync,
{
    for kept in 0..feed.len().saturating_add(1) {
        tally.judge(rt, "a feed that ends early", ends_well(rt, feed, kept));
    }
}

/// Pieces of several sizes, and each length of the feed of two commits.
pub(crate) fn try_pieces<R>(rt: &R, tally: &mut Tally) -> Result<()>
where
    R: AllocGlobal + Eprint + Threads + Wait + Sync,
{
    let feed = made(rt.alloc(), TWO_COMMITS)?;
    let is_right = has_digest(&feed, TWO_COMMITS_DIGEST);
    tally.note(rt, "the feed of two commits", is_right);
    try_sizes(rt, &feed, &SIZES, tally);
    try_cuts(rt, &feed, tally);
    Ok(())
}
