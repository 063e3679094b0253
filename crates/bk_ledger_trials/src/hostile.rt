//! Hints of every bad kind. What an execution gives does not change.

use crate::cases::{Case, NAMES, Name, case_of, feed_of_case, gives_case};
use crate::executing::{executed, executed_by};
use anyhow::Result;
use bk_base::Version;
use bk_frames::Feed;
use bk_pool::{Hints, Open};
use bk_trial_kit::Tally;
use std::alloc::Global;
use std::sync::Wait;
use std::sync::atomic::{AtomicU64, Ordering};
use std::thread::Threads;

const WORKERS: &[u64] = &[1, 2, 64];

// How many hints in a row may give no hold.
const IDLE_HINTS: u64 = 1_000_000;

// What an end does with hints.
#[derive(Clone, Copy, PartialEq, Eq)]
enum Habit {
    LosesAll,
    LosesEverySecond,
    GivesTwice,
    PutsNoPlaceBetween,
    EndsAtOnce,
    // Places from 7 down, put or not.
    InventsPlaces,
    // The first place alone.
    GivesFirst,
    // The first place for ever.
    NeverEnds,
}

const HABITS: &[Habit] = &[
    Habit::LosesAll,
    Habit::LosesEverySecond,
    Habit::GivesTwice,
    Habit::PutsNoPlaceBetween,
    Habit::EndsAtOnce,
    Habit::InventsPlaces,
    Habit::GivesFirst,
];

// An end of this habit. It counts the hints that it gives and those that are dealt with.
#[derive(Drop)]
struct End<'a> {
    habit: Habit,
    places: Vec<u32>,
    turn: u64,
    taken: &'a AtomicU64,
    dealt: &'a AtomicU64,
}

impl<'a> End<'a> {
    fn keep(&mut self, place: u32) {
        // A hint that finds no memory is one more that is lost.
        let _ = self.places.push(place);
    }

    fn next(&mut self) -> Option<u32> {
        self.turn = self.turn.wrapping_add(1);
        match self.habit {
            Habit::EndsAtOnce => None,
            Habit::NeverEnds => Some(0),
            Habit::PutsNoPlaceBetween => {
                if self.turn % 2 == 1 && !self.places.is_empty() {
                    return Some(u32::MAX);
                }
                self.places.pop()
            }
            _ => self.places.pop(),
        }
    }
}

impl<'a> Hints for End<'a> {
    fn put(&mut self, place: u32) {
        self.turn = self.turn.wrapping_add(1);
        match self.habit {
            Habit::LosesAll | Habit::InventsPlaces | Habit::GivesFirst => {}
            Habit::LosesEverySecond => {
                if self.turn % 2 == 0 {
                    self.keep(place);
                }
            }
            Habit::GivesTwice => {
                self.keep(place);
                self.keep(place);
            }
            _ => self.keep(place),
        }
    }

    fn take(&mut self) -> Option<u32> {
        let hint = self.next();
        if hint.is_some() {
            self.taken.fetch_add(1, Ordering::SeqCst);
        }
        hint
    }

    fn dealt(&mut self, _place: u32) {
        self.dealt.fetch_add(1, Ordering::SeqCst);
    }
}

// The places that an end begins with.
fn first_places(alloc: Global, habit: Habit) -> Result<Vec<u32>> {
    let mut places = Vec::new(alloc);
    if habit == Habit::GivesFirst {
        places.push(0)?;
    }
    if habit == Habit::InventsPlaces {
        for place in 0..8u32 {
            places.push(place)?;
        }
    }
    Ok(places)
}

fn ends_of<'a>(
    alloc: Global,
    habits: &[Habit],
    workers: u64,
    taken: &'a AtomicU64,
    dealt: &'a AtomicU64,
) -> Result<Vec<End<'a>>> {
    let mut ends = Vec::new(alloc);
    let mut habit = Habit::EndsAtOnce;
    for worker in 0..workers {
        habit = habits.get(worker as usize).copied().unwrap_or(habit);
        let places = first_places(alloc, habit)?;
        ends.push(End {
            habit,
            places,
            turn: 0,
            taken,
            dealt,
        })?;
    }
    Ok(ends)
}

// Whether a list is executed by these ends as it has to be.
fn is_given_by<R>(
    rt: &R,
    alloc: Global,
    case: &Case,
    feed: &Feed,
    ends: Vec<End<'_>>,
) -> Result<bool>
where
    R: Threads + Wait + Sync,
{
    let outcome = executed_by(rt, alloc, feed, &Open, ends)?;
    gives_case(alloc, &outcome, case)
}

// How many hints were taken by ends of these habits, the last of which is that of all further ends, if the execution
// gave what it has to, and each hint was dealt with.
fn taken_by<R>(
    rt: &R,
    alloc: Global,
    case: &Case,
    feed: &Feed,
    habits: &[Habit],
    workers: u64,
) -> Result<Option<u64>>
where
    R: Threads + Wait + Sync,
{
    let taken = AtomicU64::new(0);
    let dealt = AtomicU64::new(0);
    let ends = ends_of(alloc, habits, workers, &taken, &dealt)?;
    let is_right = is_given_by(rt, alloc, case, feed, ends)?;
    let hints = taken.load(Ordering::SeqCst);
    if is_right && hints == dealt.load(Ordering::SeqCst) {
        return Ok(Some(hints));
    }
    Ok(None)
}

fn try_habit<R>(rt: &R, case: &Case, feed: &Feed, habit: Habit, workers: u64, tally: &mut Tally)
where
    R: AllocGlobal + Eprint + Threads + Wait + Sync,
{
    let found = taken_by(rt, rt.alloc(), case, feed, &[habit], workers).unwrap_or(None);
    tally.note(rt, "bad hints", found.is_some());
}

// Executes a list with each number of ends of each habit.
fn try_habits<R>(rt: &R, case: &Case, feed: &Feed, tally: &mut Tally)
where
    R: AllocGlobal + Eprint + Threads + Wait + Sync,
{
    for habit in HABITS {
        for workers in WORKERS {
            try_habit(rt, case, feed, *habit, *workers, tally);
        }
    }
}

fn is_given<R>(rt: &R, alloc: Global, case: &Case, feed: &Feed, workers: usize) -> Result<bool>
where
    R: Threads + Wait + Sync,
{
    let outcome = executed(rt, alloc, feed, workers, &Open)?;
    gives_case(alloc, &outcome, case)
}

// Executes a list with the pool's own hints.
fn try_own<R>(rt: &R, case: &Case, feed: &Feed, tally: &mut Tally)
where
    R: AllocGlobal + Eprint + Threads + Wait + Sync,
{
    for workers in [1usize, 2, 64] {
        let is_right = is_given(rt, rt.alloc(), case, feed, workers);
        tally.judge(rt, "a list with a known outcome", is_right);
    }
}

// Hints without end: each worker gives up after a million that gave no hold, and one of them had the first place.
fn try_endless<R>(
    rt: &R,
    case: &Case,
    feed: &Feed,
    habits: &[Habit],
    workers: u64,
    wanted: u64,
    tally: &mut Tally,
)
where
    R: AllocGlobal + Eprint + Threads + Wait + Sync,
{
    let found = taken_by(rt, rt.alloc(), case, feed, habits, workers).unwrap_or(None);
    tally.note(rt, "hints without end", found == Some(wanted));
}

// One worker, two, and one of 64 have hints without end.
fn try_all_endless<R>(rt: &R, case: &Case, feed: &Feed, tally: &mut Tally)
where
    R: AllocGlobal + Eprint + Threads + Wait + Sync,
{
    let all = [Habit::NeverEnds];
    let first = [Habit::NeverEnds, Habit::EndsAtOnce];
    try_endless(rt, case, feed, &all, 1, 1 + IDLE_HINTS, tally);
    try_endless(rt, case, feed, &all, 2, 1 + 2 * IDLE_HINTS, tally);
    try_endless(rt, case, feed, &first, 64, 1 + IDLE_HINTS, tally);
}

// A list by all kinds of hints.
fn try_feed<R>(rt: &R, case: &Case, feed: &Feed, tally: &mut Tally)
where
    R: AllocGlobal + Eprint + Threads + Wait + Sync,
{
    try_own(rt, case, feed, tally);
    try_habits(rt, case, feed, tally);
}

// A list by all kinds of hints, or by hints without end.
fn try_case<R>(rt: &R, version: Version, case: &Case, is_endless: bool, tally: &mut Tally)
where
    R: AllocGlobal + Eprint + Threads + Wait + Sync,
{
    match feed_of_case(rt.alloc(), version, case) {
        Ok(feed) if is_endless => try_all_endless(rt, case, &feed, tally),
        Ok(feed) => try_feed(rt, case, &feed, tally),
        Err(_) => tally.miss(rt),
    }
}

fn try_cases<R>(rt: &R, version: Version, tally: &mut Tally)
where
    R: AllocGlobal + Eprint + Threads + Wait + Sync,
{
    for name in NAMES {
        try_case(rt, version, &case_of(version, *name), false, tally);
    }
}

/// Lists with known outcomes, by the pool's own hints and by bad ones.
pub(crate) fn try_hints<R>(rt: &R, tally: &mut Tally)
where
    R: AllocGlobal + Eprint + Threads + Wait + Sync,
{
    try_cases(rt, Version::One, tally);
    try_cases(rt, Version::Two, tally);
    let four = case_of(Version::Two, Name::FourConflicts);
    try_case(rt, Version::Two, &four, true, tally);
}
