//! A feed of many groups of frames: while some are judged, others are pulled, and others kept.

use crate::ended::{replayed, replays, report};
use crate::faults::{broken, cut_at};
use crate::feeds::{BOTH, TWO_COMMITS, TWO_COMMITS_ENDS};
use crate::made::made;
use crate::story::{Step, follows};
use anyhow::Result;
use bk_frames::FaultCode;
use bk_results::Fault;
use bk_trial_kit::{Tally, frame, part};
use std::alloc::Global;
use std::sync::Wait;
use std::thread::Threads;

// The header of a batch of 30,000 bytes.
const HEADER: &[u8] = b"\x04\x00\x00\x75\x30";

const REST: usize = 29_998;

// Where the frames after the genesis begin, and how many there are.
const OPENED_END: usize = 99;

const LATER: u16 = 6;

// How many batches there are after the genesis, and again after each later frame.
const BATCHES: u16 = 40;

// The committee, the genesis, the later frames and all batches.
const FRAMES: u64 = 288;

// All batches, and the 625 bytes of the feed of two commits.
const LENGTH: usize = 8_402_025;

// Where the last batch begins, and batch 200, which follows the frame that ends at 532.
const LAST: u64 = 8_372_020;

const MIDDLE: usize = 6_001_532;

// Batches that no certificate names, each with its number first.
fn put_batches(alloc: Global, feed: &mut Vec<u8>, first: u16) -> Result<()> {
    let rest = vec![in alloc; 255u8; REST]?;
    for number in first..first.saturating_add(BATCHES) {
        feed.extend_from_slice(HEADER)?;
        feed.extend_from_slice(&number.to_be_bytes())?;
        feed.extend_from_slice(&rest)?;
    }
    Ok(())
}

// The feed of two commits, with batches after its genesis and after each later frame.
fn put_feed(alloc: Global, feed: &mut Vec<u8>) -> Result<()> {
    let narrow = made(alloc, TWO_COMMITS)?;
    feed.extend_from_slice(part(&narrow, 0, OPENED_END))?;
    put_batches(alloc, feed, 0)?;
    for later in 1..=LATER {
        let index = later.saturating_add(1) as usize;
        feed.extend_from_slice(frame(&narrow, &TWO_COMMITS_ENDS, index))?;
        put_batches(alloc, feed, later.saturating_mul(BATCHES))?;
    }
    Ok(())
}

fn wide_feed(alloc: Global) -> Result<Vec<u8>> {
    let mut feed = Vec::new(alloc);
    put_feed(alloc, &mut feed)?;
    Ok(feed)
}

// The feed, where batch 200 is a frame of no kind.
fn spoilt(alloc: Global, feed: &[u8]) -> Result<Vec<u8>> {
    let mut bad = Vec::from_slice(alloc, part(feed, 0, MIDDLE))?;
    bad.push(9)?;
    bad.extend_from_slice(part(feed, MIDDLE.saturating_add(1), feed.len()))?;
    Ok(bad)
}

fn is_refused<R>(rt: &R, feed: &[u8], fault: &Fault) -> bool
where
    R: AllocGlobal + Threads + Wait + Sync,
{
    let ended = replayed(rt, feed, 2);
    ended.is_fault(fault)
}

fn is_spoilt<R>(rt: &R, feed: &[u8]) -> Result<bool>
where
    R: AllocGlobal + Threads + Wait + Sync,
{
    let bad = spoilt(rt.alloc(), feed)?;
    Ok(is_refused(rt, &bad, &broken(MIDDLE as u64, FaultCode::Kind)))
}

/// The feed by one worker and by two, in pieces, cut short, and with a fault far behind.
pub(crate) fn try_groups<R>(rt: &R, tally: &mut Tally) -> Result<()>
where
    R: AllocGlobal + Eprint + Threads + Wait + Sync,
{
    let feed = wide_feed(rt.alloc())?;
    let text = report(rt.alloc(), FRAMES, BOTH)?;
    tally.note(rt, "the feed of many groups", feed.len() == LENGTH);
    for workers in [1u8, 2] {
        let is_right = replays(rt, &feed, workers, text.as_bytes());
        tally.note(rt, "many groups replayed", is_right);
    }
    let story = [
        Step::TakesIn(&feed, 1_000_000),
        Step::ReportsLines(FRAMES, BOTH),
    ];
    let is_right = follows(rt, 2, &story);
    tally.note(rt, "many groups in pieces", is_right);
    let front = part(&feed, 0, LENGTH.saturating_sub(1));
    let is_right = is_refused(rt, front, &cut_at(LAST));
    tally.note(rt, "many groups, the last cut short", is_right);
    let is_right = is_spoilt(rt, &feed);
    tally.judge(rt, "many groups with a fault", is_right);
    Ok(())
}
