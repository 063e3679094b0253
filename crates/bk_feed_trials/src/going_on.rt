//! Followers that settle after each byte and end after each frame, and go on.

use crate::ended::report;
use crate::feeds::{BOTH, FIRST, REPEATED, REPEATED_LINES, REPORTS, TWO_COMMITS};
use crate::made::made;
use crate::story::{Step, follows};
use anyhow::Result;
use bk_trial_kit::{Tally, part, with_frames};
use std::sync::Wait;
use std::thread::Threads;

// ---- ends

// Each frame from the genesis on comes byte by byte, and then the feed is reported. A story is lent wherever it is written
// to: a function that owns it drops it at each of its exits.
fn put_reports<'a>(
    story: &mut Vec<Step<'a>>,
    feed: &'a [u8],
    rows: &'a [(usize, u64, &'a str)],
) -> Result<()> {
    let mut start = 0usize;
    for (end, frames, lines) in rows {
        story.push(Step::TakesEach(part(feed, start, *end)))?;
        story.push(Step::ReportsLines(*frames, lines))?;
        start = *end;
    }
    Ok(())
}

fn reports_each_frame<R>(rt: &R, feed: &[u8]) -> Result<bool>
where
    R: AllocGlobal + Threads + Wait + Sync,
{
    let mut story = Vec::new(rt.alloc());
    put_reports(&mut story, feed, &REPORTS)?;
    Ok(follows(rt, 2, &story))
}

// Whether the feed is reported before its last frame, and after it.
fn goes_on_after_end<R>(rt: &R, feed: &[u8], workers: u8) -> bool
where
    R: AllocGlobal + Threads + Wait + Sync,
{
    let story = [
        Step::Takes(part(feed, 0, 532)),
        Step::ReportsLines(7, FIRST),
        Step::Takes(part(feed, 532, 625)),
        Step::ReportsLines(8, BOTH),
    ];
    follows(rt, workers, &story)
}

// ---- settling

// How many places are settled at an offset.
fn settled_at(steps: &[(usize, u32)], end: usize) -> u32 {
    for (at, places) in steps {
        if *at == end {
            return *places;
        }
    }
    0
}

// Each byte is settled, with these steps.
fn put_bytes<'a>(story: &mut Vec<Step<'a>>, feed: &'a [u8], steps: &[(usize, u32)]) -> Result<()> {
    let (mut end, mut places) = (0usize, 0u32);
    for byte in feed.chunks(1) {
        end = end.saturating_add(1);
        let step = settled_at(steps, end);
        places = places.saturating_add(step);
        story.push(Step::Takes(byte))?;
        story.push(Step::Settles(step as usize))?;
        story.push(Step::HasReceipts(places))?;
    }
    Ok(())
}

// Whether these steps are settled, where it settles after each byte, and this report is written.
fn settles<'x, R>(rt: &R, feed: &'x [u8], steps: &[(usize, u32)], wanted: &'x str) -> Result<bool>
where
    R: AllocGlobal + Threads + Wait + Sync,
{
    let mut story = Vec::new(rt.alloc());
    put_bytes(&mut story, feed, steps)?;
    story.push(Step::Reports(wanted.as_bytes()))?;
    Ok(follows(rt, 2, &story))
}

// The same with the frames in another order.
fn settles_turned<R>(
    rt: &R,
    feed: &[u8],
    order: &[usize],
    steps: &[(usize, u32)],
    wanted: &str,
) -> Result<bool>
where
    R: AllocGlobal + Threads + Wait + Sync,
{
    let turned = with_frames(rt.alloc(), feed, order)?;
    Ok(turned.len() == 625 && settles(rt, &turned, steps, wanted)?)
}

// Round 2 makes the first payment a part of the order, and round 4 the second.
const IN_ORDER: [(usize, u32); 2] = [(407, 1), (625, 1)];

// The certificates and then the second batch: the order stops at the first, which comes last.
const REVERSED: [usize; 6] = [7, 6, 5, 4, 3, 2];

// The second batch last.
const LATE: [usize; 6] = [7, 2, 6, 5, 4, 3];

fn try_orders<R>(rt: &R, feed: &[u8], tally: &mut Tally) -> Result<()>
where
    R: AllocGlobal + Eprint + Threads + Wait + Sync,
{
    let text = report(rt.alloc(), 8, BOTH)?;
    let wanted = text.as_str();
    let is_right = settles(rt, feed, &IN_ORDER, wanted);
    tally.judge(rt, "settling after each byte", is_right);
    let is_right = settles_turned(rt, feed, &REVERSED, &[(625, 2)], wanted);
    tally.judge(rt, "settling frames in reverse", is_right);
    let is_right = settles_turned(rt, feed, &LATE, &[(564, 1), (625, 1)], wanted);
    tally.judge(rt, "settling before the last batch", is_right);
    Ok(())
}

// The frames end at 42, 99, 160, 253, 346, 471 and 564. Round 2 commits round 1 with its payment.
fn settles_once<R>(rt: &R, feed: &[u8]) -> Result<bool>
where
    R: AllocGlobal + Threads + Wait + Sync,
{
    let wanted = report(rt.alloc(), 7, REPEATED_LINES)?;
    Ok(feed.len() == 564 && settles(rt, feed, &[(346, 1)], wanted.as_str())?)
}

fn try_repeated<R>(rt: &R, tally: &mut Tally) -> Result<()>
where
    R: AllocGlobal + Eprint + Threads + Wait + Sync,
{
    let feed = made(rt.alloc(), REPEATED)?;
    tally.judge(rt, "a batch that is named twice", settles_once(rt, &feed));
    Ok(())
}

fn try_ends<R>(rt: &R, feed: &[u8], workers: &[u8], tally: &mut Tally)
where
    R: AllocGlobal + Eprint + Threads + Wait + Sync,
{
    let is_right = reports_each_frame(rt, feed);
    tally.judge(rt, "an end after each frame", is_right);
    for count in workers {
        let is_right = goes_on_after_end(rt, feed, *count);
        tally.note(rt, "a feed that goes on after its end", is_right);
    }
}

fn try_made<R>(rt: &R, tally: &mut Tally) -> Result<()>
where
    R: AllocGlobal + Eprint + Threads + Wait + Sync,
{
    let feed = made(rt.alloc(), TWO_COMMITS)?;
    try_ends(rt, &feed, &[1, 2, 64], tally);
    try_orders(rt, &feed, tally)
}

/// Ends after each frame, and settling after each byte.
pub(crate) fn try_going_on<R>(rt: &R, tally: &mut Tally) -> Result<()>
where
    R: AllocGlobal + Eprint + Threads + Wait + Sync,
{
    try_made(rt, tally)?;
    try_repeated(rt, tally)
}
