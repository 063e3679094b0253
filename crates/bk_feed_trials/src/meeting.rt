//! Workers that are inside two places at once.

use crate::ended::settings;
use crate::made::made;
use anyhow::Result;
use bk_follow::{Follower, replay};
use bk_frames::Counted;
use bk_pool::Gate;
use bk_results::Status;
use bk_trial_kit::Tally;
use std::alloc::Global;
use std::fmt::Write;
use std::sync::Wait;
use std::sync::atomic::{AtomicU64, Ordering};
use std::thread;
use std::thread::Threads;

// So many payments between accounts of their own. Threads are started for this many.
const PAYMENTS: u64 = 2_048;

const ACCOUNTS: u64 = 4_096;

// How often a worker looks for another one before it goes on alone.
const LOOKS: u64 = 2_000_000;

// A gate at which the first place waits until another one is entered, which only another worker can do.
#[derive(Drop)]
struct Meeting<'a> {
    entered: &'a AtomicU64,
    met: &'a AtomicU64,
    left: &'a AtomicU64,
}

impl<'a> Gate for Meeting<'a> {
    fn inside(&self, _place: u32) {
        if self.entered.fetch_add(1, Ordering::SeqCst) > 0 {
            return;
        }
        for _ in 0..LOOKS {
            if self.entered.load(Ordering::SeqCst) > 1 {
                self.met.fetch_add(1, Ordering::SeqCst);
                return;
            }
            thread::yield_now();
        }
    }

    fn left(&self, _place: u32) {
        self.left.fetch_add(1, Ordering::SeqCst);
    }
}

// The accounts of a payment.
fn pair(k: u64) -> (u64, u64) {
    let to = k.saturating_add(1).saturating_mul(2);
    (to.saturating_sub(1), to)
}

fn put_accounts(script: &mut String) -> Result<()> {
    for id in 1..=ACCOUNTS {
        write!(script, "account {id} 10\n")?;
    }
    Ok(())
}

fn put_payments(script: &mut String) -> Result<()> {
    for k in 0..PAYMENTS {
        let (from, to) = pair(k);
        write!(script, "pay {from} {to} 10 0\n")?;
    }
    Ok(())
}

// Each odd account pays all that it has to the next one. The script is lent wherever it is written to: a function that owns
// it drops it at each of its exits.
fn put_script(script: &mut String) -> Result<()> {
    script.push_str("members 1\n")?;
    put_accounts(script)?;
    script.push_str("batch b\n")?;
    put_payments(script)?;
    script.push_str("cert a 1 0 b - 0\ncert b 2 0 - a 0\n")?;
    Ok(())
}

fn apart(alloc: Global) -> Result<Vec<u8>> {
    let mut script = String::new(alloc);
    put_script(&mut script)?;
    made(alloc, script.as_str())
}

fn put_receipts(text: &mut String) -> Result<()> {
    for k in 0..PAYMENTS {
        write!(text, "tx {k} 0 10\n")?;
    }
    Ok(())
}

fn put_balances(text: &mut String) -> Result<()> {
    for k in 0..PAYMENTS {
        let (from, to) = pair(k);
        write!(text, "account {from} 0 1\naccount {to} 20 0\n")?;
    }
    Ok(())
}

fn put_report(text: &mut String) -> Result<()> {
    text.push_str("members 1 faulty 0 quorum 1\nframes 5\nanchor 1 0\ncert 1 0\nbatch 0 2048\n")?;
    put_receipts(text)?;
    put_balances(text)?;
    text.push_str(
        "money 40960\nstate 2954e5391f078a2a8c4d4b3063061a8a4b1313c6ce097a28a7d7c08107166923\n",
    )?;
    Ok(())
}

fn report_of(alloc: Global) -> Result<String> {
    let mut text = String::new(alloc);
    put_report(&mut text)?;
    Ok(text)
}

// Whether two workers met, and all left.
fn have_met(gate: &Meeting<'_>) -> bool {
    gate.entered.load(Ordering::SeqCst) == PAYMENTS
        && gate.met.load(Ordering::SeqCst) == 1
        && gate.left.load(Ordering::SeqCst) == PAYMENTS
}

// Whether workers meet in a replay, which writes this.
fn replay_meets<R>(rt: &R, feed: &[u8], wanted: &str, gate: &Meeting<'_>) -> bool
where
    R: AllocGlobal + Threads + Wait + Sync,
{
    let alloc: Global = rt.alloc();
    let mut sink = Counted::new(Vec::new(alloc));
    let end = replay(
        rt,
        alloc,
        &mut Counted::new(feed),
        &mut sink,
        settings(2),
        gate,
    );
    let text = sink.into_inner();
    end.ok() == Some(Status::Whole) && text.as_slice() == wanted.as_bytes() && have_met(gate)
}

// Whether they meet where a Follower settles.
fn settle_meets<R>(rt: &R, feed: &[u8], gate: &Meeting<'_>) -> bool
where
    R: AllocGlobal + Threads + Wait + Sync,
{
    let mut follower = Follower::new(rt.alloc(), settings(2));
    let is_taken = follower.feed(rt, feed).is_ok();
    let settled = follower.settle(rt, gate).ok();
    follower.discard();
    is_taken && settled == Some(PAYMENTS as usize) && have_met(gate)
}

// One of both, at a gate of its own.
fn meets<R>(rt: &R, feed: &[u8], wanted: Option<&str>) -> bool
where
    R: AllocGlobal + Threads + Wait + Sync,
{
    let entered = AtomicU64::new(0);
    let met = AtomicU64::new(0);
    let left = AtomicU64::new(0);
    let gate = Meeting {
        entered: &entered,
        met: &met,
        left: &left,
    };
    match wanted {
        Some(text) => replay_meets(rt, feed, text, &gate),
        None => settle_meets(rt, feed, &gate),
    }
}

fn try_feed<R>(rt: &R, feed: &[u8], tally: &mut Tally) -> Result<()>
where
    R: AllocGlobal + Eprint + Threads + Wait + Sync,
{
    let wanted = report_of(rt.alloc())?;
    let is_right = meets(rt, feed, Some(wanted.as_str()));
    tally.note(rt, "workers that overlap in a replay", is_right);
    let is_right = meets(rt, feed, None);
    tally.note(
        rt,
        "workers that overlap where a Follower settles",
        is_right,
    );
    Ok(())
}

/// Two workers inside their places at once, in a replay and where a Follower settles.
pub(crate) fn try_meetings<R>(rt: &R, tally: &mut Tally) -> Result<()>
where
    R: AllocGlobal + Eprint + Threads + Wait + Sync,
{
    let feed = apart(rt.alloc())?;
    try_feed(rt, &feed, tally)
}
