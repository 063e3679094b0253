//! Stories of a Follower: what it is given and asked, step by step, and what has to come of it.

use crate::ended::{finished, report, settings};
use crate::stopped::{ends_in_fault, is_refused, is_stopped, refuses, settles_nothing};
use bk_follow::Follower;
use bk_pool::Open;
use bk_results::Fault;
use std::sync::Wait;
use std::thread::Threads;

/// What a Follower is given or asked, and what has to come of it.
#[derive(Clone, Copy)]
pub(crate) enum Step<'a> {
    /// It takes a piece.
    Takes(&'a [u8]),
    /// It takes these bytes one by one.
    TakesEach(&'a [u8]),
    /// It takes these bytes in pieces of this size, and empty ones around them change nothing.
    TakesIn(&'a [u8], usize),
    /// It refuses a piece with this fault.
    Refuses(&'a [u8], &'a Fault),
    /// It settles so many places.
    Settles(usize),
    /// It settles nothing, with this fault.
    SettlesNot(&'a Fault),
    /// There is a receipt just for the places before this one.
    HasReceipts(u32),
    /// If its feed ends here, it has this report, however often it is ended.
    Reports(&'a [u8]),
    /// The same of a report of one member, with so many frames and these lines.
    ReportsLines(u64, &'a str),
    /// If its feed ends here, it has this fault, and nothing is written.
    Ends(&'a Fault),
    /// Every call but `feed` gives these twins, however often. The feed has no fault.
    Stops(&'a Fault),
    /// Every call gives this fault, however often.
    Stands(&'a Fault),
}

fn takes<R>(rt: &R, follower: &mut Follower, piece: &[u8]) -> bool
where
    R: Threads + Sync,
{
    follower.feed(rt, piece).is_ok()
}

fn takes_each<R>(rt: &R, follower: &mut Follower, bytes: &[u8]) -> bool
where
    R: Threads + Sync,
{
    for byte in bytes.chunks(1) {
        if !takes(rt, follower, byte) {
            return false;
        }
    }
    true
}

// Whether an empty piece is taken, and leaves the offset as it was.
fn is_nothing<R>(rt: &R, follower: &mut Follower) -> bool
where
    R: Threads + Sync,
{
    let offset = follower.offset();
    takes(rt, follower, b"") && takes(rt, follower, b"") && follower.offset() == offset
}

fn takes_in<R>(rt: &R, follower: &mut Follower, bytes: &[u8], size: usize) -> bool
where
    R: Threads + Sync,
{
    if !is_nothing(rt, follower) {
        return false;
    }
    for piece in bytes.chunks(size.max(1)) {
        if !takes(rt, follower, piece) || !is_nothing(rt, follower) {
            return false;
        }
    }
    true
}

fn has_receipts(follower: &Follower, places: u32) -> bool {
    let last = places.saturating_sub(1);
    let has_last = match follower.receipt(last) {
        Ok(found) => found.is_some() == (places > 0),
        Err(_) => false,
    };
    let has_no_more = match follower.receipt(places) {
        Ok(found) => found.is_none(),
        Err(_) => false,
    };
    has_last && has_no_more
}

fn reports_once<R>(rt: &R, follower: &mut Follower, wanted: &[u8]) -> bool
where
    R: AllocGlobal + Threads + Wait + Sync,
{
    let ended = finished(rt, follower);
    ended.is_report(wanted)
}

fn reports<R>(rt: &R, follower: &mut Follower, wanted: &[u8]) -> bool
where
    R: AllocGlobal + Threads + Wait + Sync,
{
    reports_once(rt, follower, wanted) && reports_once(rt, follower, wanted)
}

fn reports_lines<R>(rt: &R, follower: &mut Follower, frames: u64, lines: &str) -> bool
where
    R: AllocGlobal + Threads + Wait + Sync,
{
    match report(rt.alloc(), frames, lines) {
        Ok(text) => reports(rt, follower, text.as_bytes()),
        Err(_) => false,
    }
}

fn stops<R>(rt: &R, follower: &mut Follower, twins: &Fault) -> bool
where
    R: AllocGlobal + Threads + Wait + Sync,
{
    is_stopped(rt, follower, twins) && is_stopped(rt, follower, twins) && follower.fault().is_none()
}

fn passes<R>(rt: &R, follower: &mut Follower, step: &Step<'_>) -> bool
where
    R: AllocGlobal + Threads + Wait + Sync,
{
    match step {
        Step::Takes(piece) => takes(rt, follower, piece),
        Step::TakesEach(bytes) => takes_each(rt, follower, bytes),
        Step::TakesIn(bytes, size) => takes_in(rt, follower, bytes, *size),
        Step::Refuses(piece, fault) => refuses(rt, follower, piece, fault),
        Step::Settles(places) => follower.settle(rt, &Open).ok() == Some(*places),
        Step::SettlesNot(fault) => settles_nothing(rt, follower, fault),
        Step::HasReceipts(places) => has_receipts(follower, *places),
        Step::Reports(text) => reports(rt, follower, text),
        Step::ReportsLines(frames, lines) => reports_lines(rt, follower, *frames, lines),
        Step::Ends(fault) => ends_in_fault(rt, follower, fault),
        Step::Stops(twins) => stops(rt, follower, twins),
        Step::Stands(fault) => is_refused(rt, follower, fault),
    }
}

fn passes_all<R>(rt: &R, follower: &mut Follower, story: &[Step<'_>]) -> bool
where
    R: AllocGlobal + Threads + Wait + Sync,
{
    for step in story {
        if !passes(rt, follower, step) {
            return false;
        }
    }
    true
}

/// Whether a Follower with so many workers does all of this. It is owned here alone.
pub(crate) fn follows<R>(rt: &R, workers: u8, story: &[Step<'_>]) -> bool
where
    R: AllocGlobal + Threads + Wait + Sync,
{
    let mut follower = Follower::new(rt.alloc(), settings(workers));
    let is_right = passes_all(rt, &mut follower, story);
    follower.discard();
    is_right
}
