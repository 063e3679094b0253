//! Faults of a feed and of a sink, which every later call gives again.

use crate::ended::settings;
use crate::faults::broken;
use crate::feeds::TWO_COMMITS;
use crate::made::made;
use crate::stopped::is_refused;
use crate::story::{Step, follows};
use anyhow::Result;
use bk_follow::Follower;
use bk_frames::{Counted, FaultCode};
use bk_pool::Open;
use bk_results::Fault;
use bk_trial_kit::{Device, Tally, Writer, part};
use std::sync::Wait;
use std::thread::Threads;

// How many bytes of the feed of two commits come, and what comes then. Its last byte is the first that shows the fault,
// of this frame and this code. A length shows it when its four bytes are there.
const TAILS: [(usize, &[u8], u64, FaultCode); 20] = [
    (0, b"X", 0, FaultCode::Magic),
    (0, b"BKF3", 0, FaultCode::Magic),
    (3, b"3", 0, FaultCode::Magic),
    (4, b"\x02", 4, FaultCode::Committee),
    (4, b"\x03", 4, FaultCode::Committee),
    (4, b"\x04", 4, FaultCode::Committee),
    (42, b"\x01", 42, FaultCode::Genesis),
    (42, b"\x03", 42, FaultCode::Genesis),
    (99, b"\x02", 99, FaultCode::Extra),
    (407, b"\x05", 407, FaultCode::Kind),
    (532, b"\x00", 532, FaultCode::Kind),
    (532, b"\x01", 532, FaultCode::Extra),
    (532, b"\x02", 532, FaultCode::Extra),
    (532, b"\xc8", 532, FaultCode::Kind),
    (533, b"\x02\x00\x00\x58", 532, FaultCode::Length),
    (533, b"\xff\x00\x00\x58", 532, FaultCode::Length),
    (625, b"\x00", 625, FaultCode::Kind),
    (625, b"\x05", 625, FaultCode::Kind),
    (625, b"\x03\x01\x00\x00\x01", 625, FaultCode::Length),
    (625, b"\x04\xff\xff\xff\xff", 625, FaultCode::Length),
];

// Whether, after the bytes before a tail, which come at once and are settled, or come one by one, the tail is taken byte by
// byte up to its last one, which is refused, and so are the bytes that would have been right.
fn stands<'x, R>(
    rt: &R,
    (front, tail, rest): (&'x [u8], &'x [u8], &'x [u8]),
    settles: bool,
    fault: &'x Fault,
) -> bool
where
    R: AllocGlobal + Threads + Wait + Sync,
{
    let last = tail.len().saturating_sub(1);
    let first = if settles {
        Step::Takes(front)
    } else {
        Step::TakesEach(front)
    };
    let second = if settles {
        Step::Settles(places_at(front.len()))
    } else {
        Step::Takes(b"")
    };
    let story = [
        first,
        second,
        Step::TakesEach(part(tail, 0, last)),
        Step::Takes(b""),
        Step::Refuses(part(tail, last, tail.len()), fault),
        Step::Refuses(rest, fault),
        Step::Stands(fault),
    ];
    follows(rt, 2, &story)
}

// How many places a settle executes after so many bytes of the feed.
fn places_at(kept: usize) -> usize {
    if kept < 407 {
        return 0;
    }
    if kept < 625 {
        return 1;
    }
    2
}

fn note_tail<R>(rt: &R, kept: usize, is_right: bool, tally: &mut Tally) -> Result<()>
where
    R: AllocGlobal + Eprint,
{
    let what = format!(in rt.alloc(); "a fault after {kept} bytes")?;
    tally.note(rt, what.as_str(), is_right);
    Ok(())
}

fn try_tail<R>(
    rt: &R,
    feed: &[u8],
    (kept, tail): (usize, &[u8]),
    fault: &Fault,
    tally: &mut Tally,
) -> Result<()>
where
    R: AllocGlobal + Eprint + Threads + Wait + Sync,
{
    let pieces = (part(feed, 0, kept), tail, part(feed, kept, feed.len()));
    let is_right = stands(rt, pieces, false, fault);
    note_tail(rt, kept, is_right, tally)?;
    let is_right = stands(rt, pieces, true, fault);
    note_tail(rt, kept, is_right, tally)
}

fn try_tails<R>(
    rt: &R,
    feed: &[u8],
    tails: &[(usize, &[u8], u64, FaultCode)],
    tally: &mut Tally,
) -> Result<()>
where
    R: AllocGlobal + Eprint + Threads + Wait + Sync,
{
    for (kept, tail, offset, code) in tails {
        let fault = broken(*offset, *code);
        try_tail(rt, feed, (*kept, tail), &fault, tally)?;
    }
    Ok(())
}

// ---- sinks

// Whether a report cannot be written to a sink that fails at once, and every later call gives that again.
fn fails_to_write<R>(rt: &R, follower: &mut Follower, feed: &[u8]) -> bool
where
    R: AllocGlobal + Threads + Wait + Sync,
{
    let is_taken = follower.feed(rt, feed).is_ok();
    let mut sink = Counted::new(Writer::new(rt.alloc(), Device::lost_after(0, 1)));
    let fault = Fault::Write { written: 0 };
    let end = follower.finish(rt, &Open, &mut sink);
    is_taken && end == Err(fault) && is_refused(rt, follower, &fault)
}

fn keeps_failure<R>(rt: &R, feed: &[u8]) -> bool
where
    R: AllocGlobal + Threads + Wait + Sync,
{
    let mut follower = Follower::new(rt.alloc(), settings(2));
    let is_right = fails_to_write(rt, &mut follower, feed);
    follower.discard();
    is_right
}

/// Faults at the beginning of a feed, in the midst of it and at its end, and a sink that fails.
pub(crate) fn try_standing<R>(rt: &R, tally: &mut Tally) -> Result<()>
where
    R: AllocGlobal + Eprint + Threads + Wait + Sync,
{
    let feed = made(rt.alloc(), TWO_COMMITS)?;
    let is_right = keeps_failure(rt, &feed);
    tally.note(rt, "a sink that fails at once", is_right);
    try_tails(rt, &feed, &TAILS, tally)
}
