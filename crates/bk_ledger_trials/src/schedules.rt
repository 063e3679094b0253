//! Lists of events of two payments in conflict, against what was worked out by hand.

use crate::cases::{Case, Name, VERSIONS, case_of, feed_of_case, gives_case};
use crate::executing::planned;
use anyhow::Result;
use bk_base::{Refused, Version};
use bk_frames::Feed;
use bk_steps::{Event, Outcome, ScheduleFault, run_schedule};
use bk_trial_kit::Tally;
use std::alloc::Global;

// How many events do both places, and how many of them the first one.
const BOTH: usize = 22;

const FIRST: usize = 12;

// Which worker does the first place, and which one the second.
const WORKERS: &[(u64, u64)] = &[(0, 0), (0, 1), (1, 0), (1, 1)];

// What two workers come to by these events.
fn scheduled(
    alloc: Global,
    feed: &Feed,
    events: &[Event],
) -> Result<Result<Outcome, ScheduleFault>> {
    let (plan, state) = planned(alloc, feed)?;
    Ok(run_schedule(alloc, plan, state, 2, events))
}

fn has_fault(alloc: Global, feed: &Feed, events: &[Event], wanted: ScheduleFault) -> Result<bool> {
    let found = scheduled(alloc, feed, events)?;
    Ok(found.err() == Some(wanted))
}

// Whether they come to what the transactions give one at a time.
fn is_whole(alloc: Global, case: &Case, feed: &Feed, events: &[Event]) -> Result<bool> {
    match scheduled(alloc, feed, events)? {
        Ok(outcome) => gives_case(alloc, &outcome, case),
        Err(_) => Ok(false),
    }
}

// ---- lists

// A worker does a place that has these words, of which it may write those.
fn push_place(
    events: &mut Vec<Event>,
    worker: u64,
    place: u64,
    words: &[u64],
    writable: &[u64],
) -> Result<()> {
    events.push(claim(worker, place))?;
    for word in words {
        events.push(read(worker, *word))?;
    }
    for word in writable {
        events.push(write(worker, *word))?;
    }
    events.push(Event::Finish { worker })?;
    Ok(())
}

// Both places, the first by one worker and the second by another.
fn whole(alloc: Global, first: u64, second: u64) -> Result<Vec<Event>> {
    let mut events = Vec::new(alloc);
    push_place(&mut events, first, 0, &[0, 1, 2, 3, 4, 5], &[0, 1, 4, 5])?;
    push_place(&mut events, second, 1, &[0, 1, 2, 3], &[0, 1, 2, 3])?;
    Ok(events)
}

// ---- trials

fn is_whole_by(alloc: Global, case: &Case, feed: &Feed, first: u64, second: u64) -> Result<bool> {
    let events = whole(alloc, first, second)?;
    is_whole(alloc, case, feed, &events)
}

fn try_whole<R>(rt: &R, case: &Case, feed: &Feed, tally: &mut Tally)
where
    R: AllocGlobal + Eprint,
{
    for (first, second) in WORKERS {
        let is_right = is_whole_by(rt.alloc(), case, feed, *first, *second);
        tally.judge(rt, "a whole list of events", is_right);
    }
}

// A list that ends too early leaves a place undone.
fn try_beginnings<R>(rt: &R, feed: &Feed, events: &[Event], tally: &mut Tally)
where
    R: AllocGlobal + Eprint,
{
    for count in 0..BOTH {
        let place = if count < FIRST { 0 } else { 1 };
        let begun = events.get(..count).unwrap_or(&[]);
        let wanted = ScheduleFault::Unfinished(place);
        let is_right = has_fault(rt.alloc(), feed, begun, wanted);
        tally.judge(rt, "a list that ends too early", is_right);
    }
}

// The list of one worker with one event more at an index, and why that is refused.
type Refusal = (usize, Event, Refused);

// Puts these events with one more at an index.
fn push_changed(
    changed: &mut Vec<Event>,
    events: &[Event],
    index: usize,
    event: Event,
) -> Result<()> {
    changed.extend_from_slice(events.get(..index).unwrap_or(&[]))?;
    changed.push(event)?;
    changed.extend_from_slice(events.get(index..).unwrap_or(&[]))?;
    Ok(())
}

// The list of one worker with one event more at an index.
fn with_one_more(alloc: Global, index: usize, event: Event) -> Result<Vec<Event>> {
    let events = whole(alloc, 0, 0)?;
    let mut changed = Vec::new(alloc);
    push_changed(&mut changed, &events, index, event)?;
    Ok(changed)
}

fn is_refused(alloc: Global, feed: &Feed, refusal: Refusal) -> Result<bool> {
    let (index, event, code) = refusal;
    let events = with_one_more(alloc, index, event)?;
    has_fault(alloc, feed, &events, ScheduleFault::Refused { index, code })
}

pub(crate) fn claim(worker: u64, place: u64) -> Event {
    Event::Claim { worker, place }
}

pub(crate) fn read(worker: u64, word: u64) -> Event {
    Event::Read { worker, word }
}

pub(crate) fn write(worker: u64, word: u64) -> Event {
    Event::Write { worker, word }
}

// Of the first place, words 0 to 5 are read by events 1 to 6, and four of them are written by 7 to 10.
fn refusals() -> [Refusal; 17] {
    let finish = Event::Finish { worker: 0 };
    [
        (0, finish, Refused::NotHolder),
        (0, read(0, 0), Refused::NotHolder),
        (0, claim(2, 0), Refused::NotIdle),
        (0, claim(0, 7), Refused::NotReady),
        (0, claim(0, 1), Refused::NotReady),
        (1, claim(0, 1), Refused::NotIdle),
        (1, claim(1, 1), Refused::NotReady),
        (1, read(0, 99), Refused::NotDeclared),
        (1, write(0, 0), Refused::OutOfTurn),
        (1, write(0, 2), Refused::NotDeclared),
        (1, finish, Refused::OutOfTurn),
        (7, write(0, 2), Refused::NotDeclared),
        (8, read(0, 1), Refused::OutOfTurn),
        (8, write(0, 0), Refused::OutOfTurn),
        (8, finish, Refused::OutOfTurn),
        (11, claim(1, 1), Refused::NotReady),
        (BOTH, claim(0, 0), Refused::NotReady),
    ]
}

fn try_refused<R>(rt: &R, feed: &Feed, refusals: &[Refusal], tally: &mut Tally)
where
    R: AllocGlobal + Eprint,
{
    for refusal in refusals {
        let is_right = is_refused(rt.alloc(), feed, *refusal);
        tally.judge(rt, "an event that is refused", is_right);
    }
}

// The first of two wrong events is reported, also of a worker other than the first.
fn try_first_refused<R>(rt: &R, feed: &Feed, tally: &mut Tally)
where
    R: AllocGlobal + Eprint,
{
    let events = [claim(1, 0), read(1, 99), read(1, 99)];
    let wanted = ScheduleFault::Refused {
        index: 1,
        code: Refused::NotDeclared,
    };
    let is_right = has_fault(rt.alloc(), feed, &events, wanted);
    tally.judge(rt, "the first of two events that are refused", is_right);
}

fn try_feed<R>(rt: &R, case: &Case, feed: &Feed, events: &[Event], tally: &mut Tally)
where
    R: AllocGlobal + Eprint,
{
    try_whole(rt, case, feed, tally);
    try_refused(rt, feed, &refusals(), tally);
    try_first_refused(rt, feed, tally);
    try_beginnings(rt, feed, events, tally);
}

fn try_events<R>(rt: &R, version: Version, events: &[Event], tally: &mut Tally)
where
    R: AllocGlobal + Eprint,
{
    let case = case_of(version, Name::GuardThenPayment);
    match feed_of_case(rt.alloc(), version, &case) {
        Ok(feed) => try_feed(rt, &case, &feed, events, tally),
        Err(_) => tally.miss(rt),
    }
}

/// Lists of events of two workers, in both versions.
pub(crate) fn try_schedules<R>(rt: &R, tally: &mut Tally)
where
    R: AllocGlobal + Eprint,
{
    for version in VERSIONS {
        match whole(rt.alloc(), 0, 1) {
            Ok(events) => try_events(rt, *version, &events, tally),
            Err(_) => tally.miss(rt),
        }
    }
}
