//! Workers that are inside two places at once.

use crate::cases::{Name, VERSIONS, case_of, feed_named, gives_case};
use crate::executing::{executed, executed_by};
use anyhow::Result;
use bk_frames::Feed;
use bk_pool::{Gate, Hints, Outcome};
use bk_trial_kit::Tally;
use std::alloc::Global;
use std::sync::Wait;
use std::sync::atomic::{AtomicU64, Ordering};
use std::thread;
use std::thread::Threads;

// Two places were entered: 1 for place 0, and 1 + 256 for place 1.
const BOTH: u64 = 258;

// How often a worker looks for the other one before it goes on alone.
const LOOKS: u64 = 2_000_000;

// A gate in which each of two places waits until the other is inside too.
#[derive(Drop)]
struct Meeting<'a> {
    inside: &'a AtomicU64,
    met: &'a AtomicU64,
    left: &'a AtomicU64,
}

// What a place adds to a count.
fn share_of(place: u32) -> u64 {
    1 + u64::from(place) * 256
}

impl<'a> Gate for Meeting<'a> {
    fn inside(&self, place: u32) {
        self.inside.fetch_add(share_of(place), Ordering::SeqCst);
        for _ in 0..LOOKS {
            if self.inside.load(Ordering::SeqCst) == BOTH {
                self.met.fetch_add(1, Ordering::SeqCst);
                return;
            }
            thread::yield_now();
        }
    }

    fn left(&self, place: u32) {
        self.left.fetch_add(share_of(place), Ordering::SeqCst);
    }
}

// Gives a number that is no place, then a place, then ends.
#[derive(Drop)]
struct Second {
    place: u32,
    turn: u32,
}

impl Hints for Second {
    fn put(&mut self, _place: u32) {}

    fn take(&mut self) -> Option<u32> {
        self.turn = self.turn.saturating_add(1);
        match self.turn {
            1 => Some(u32::MAX),
            2 => Some(self.place),
            _ => None,
        }
    }

    fn dealt(&mut self, _place: u32) {}
}

fn two_ends(alloc: Global) -> Result<Vec<Second>> {
    let mut ends = Vec::new(alloc);
    for place in 0..2u32 {
        ends.push(Second { place, turn: 0 })?;
    }
    Ok(ends)
}

// Executes both with this gate: by the pool's own hints, or by ends whose first hint gives no hold. A worker that
// stopped at that hint would leave its place to the calling thread, which cannot be inside both.
fn executed_both<R>(
    rt: &R,
    alloc: Global,
    feed: &Feed,
    gate: &Meeting<'_>,
    has_bad_hint: bool,
) -> Result<Outcome>
where
    R: Threads + Wait + Sync,
{
    if has_bad_hint {
        executed_by(rt, alloc, feed, gate, two_ends(alloc)?)
    } else {
        executed(rt, alloc, feed, 2, gate)
    }
}

fn pay_both<R>(
    rt: &R,
    alloc: Global,
    feed: &Feed,
    gate: &Meeting<'_>,
    has_bad_hint: bool,
) -> Result<bool>
where
    R: Threads + Wait + Sync,
{
    let outcome = executed_both(rt, alloc, feed, gate, has_bad_hint)?;
    gives_case(alloc, &outcome, &case_of(feed.version(), Name::Apart))
}

// Whether both workers met, and left.
fn both_meet<R>(rt: &R, alloc: Global, feed: &Feed, has_bad_hint: bool) -> Result<bool>
where
    R: Threads + Wait + Sync,
{
    let inside = AtomicU64::new(0);
    let met = AtomicU64::new(0);
    let left = AtomicU64::new(0);
    let gate = Meeting {
        inside: &inside,
        met: &met,
        left: &left,
    };
    let are_right = pay_both(rt, alloc, feed, &gate, has_bad_hint)?;
    let have_met = met.load(Ordering::SeqCst) == 2;
    let have_left = left.load(Ordering::SeqCst) == BOTH;
    Ok(are_right && have_met && have_left)
}

const HINTS: &[(bool, &str)] = &[
    (false, "workers that overlap"),
    (true, "workers that go on after a hint that gives none"),
];

fn try_both<R>(rt: &R, feed: &Feed, tally: &mut Tally)
where
    R: AllocGlobal + Eprint + Threads + Wait + Sync,
{
    for (has_bad_hint, what) in HINTS {
        let is_right = both_meet(rt, rt.alloc(), feed, *has_bad_hint);
        tally.judge(rt, what, is_right);
    }
}

/// Two workers at payments that have no account in common wait for each other, each inside its place.
pub(crate) fn try_meetings<R>(rt: &R, tally: &mut Tally)
where
    R: AllocGlobal + Eprint + Threads + Wait + Sync,
{
    for version in VERSIONS {
        match feed_named(rt.alloc(), *version, Name::Apart) {
            Ok(feed) => try_both(rt, &feed, tally),
            Err(_) => tally.miss(rt),
        }
    }
}
