//! Machines of two workers at two payments in conflict, one event after another, against what was worked out by hand.

use crate::cases::{Name, VERSIONS, feed_named};
use crate::executing::planned;
use crate::schedules::{claim, read, write};
use anyhow::Result;
use bk_base::Refused;
use bk_frames::Feed;
use bk_steps::{Event, Machine};
use bk_trial_kit::Tally;
use std::alloc::Global;

// An event, and the value that is read or written, or why the event is refused. Then nothing has changed.
type Turn = (Event, Result<Option<u64>, Refused>);

// Claims of three workers, of which the last is none.
fn claims() -> [Turn; 9] {
    [
        (claim(2, 0), Err(Refused::NotIdle)),
        (claim(0, 7), Err(Refused::NotReady)),
        (claim(0, 1), Err(Refused::NotReady)),
        (claim(0, 0), Ok(None)),
        (claim(0, 1), Err(Refused::NotIdle)),
        (claim(0, 7), Err(Refused::NotIdle)),
        (claim(1, 0), Err(Refused::NotReady)),
        (claim(1, 1), Err(Refused::NotReady)),
        (claim(u64::MAX, u64::MAX), Err(Refused::NotIdle)),
    ]
}

// Worker 0 reads the six words of place 0, one of them twice.
fn reads() -> [Turn; 13] {
    [
        (read(0, 0), Err(Refused::NotHolder)),
        (claim(0, 0), Ok(None)),
        (read(1, 0), Err(Refused::NotHolder)),
        (read(2, 0), Err(Refused::NotHolder)),
        (read(0, 99), Err(Refused::NotDeclared)),
        (read(0, 6), Err(Refused::NotDeclared)),
        (read(0, 0), Ok(Some(100))),
        (read(0, 1), Ok(Some(0))),
        (read(0, 2), Ok(Some(50))),
        (read(0, 3), Ok(Some(0))),
        (read(0, 4), Ok(Some(10))),
        (read(0, 5), Ok(Some(0))),
        (read(0, 0), Ok(Some(100))),
    ]
}

// What follows these reads: account 1 pays 10.
fn writes() -> [Turn; 4] {
    let finish = Event::Finish { worker: 0 };
    [
        (write(0, 2), Err(Refused::NotDeclared)),
        (write(0, 0), Ok(Some(90))),
        (read(0, 0), Err(Refused::OutOfTurn)),
        (finish, Err(Refused::OutOfTurn)),
    ]
}

fn try_turns<R: Eprint>(rt: &R, machine: &mut Machine, turns: &[Turn], tally: &mut Tally) {
    for (event, wanted) in turns {
        let found = machine.step(*event);
        tally.note(rt, "an event of a machine", found == *wanted);
    }
}

fn machine_of(alloc: Global, feed: &Feed) -> Result<Machine> {
    let (plan, state) = planned(alloc, feed)?;
    Ok(Machine::new(alloc, plan, state, 2)?)
}

fn try_claims<R>(rt: &R, feed: &Feed, tally: &mut Tally)
where
    R: AllocGlobal + Eprint,
{
    match machine_of(rt.alloc(), feed) {
        Ok(mut machine) => try_turns(rt, &mut machine, &claims(), tally),
        Err(_) => tally.miss(rt),
    }
}

fn try_reads_and_writes<R: Eprint>(rt: &R, machine: &mut Machine, tally: &mut Tally) {
    try_turns(rt, machine, &reads(), tally);
    try_turns(rt, machine, &writes(), tally);
}

fn try_words<R>(rt: &R, feed: &Feed, tally: &mut Tally)
where
    R: AllocGlobal + Eprint,
{
    match machine_of(rt.alloc(), feed) {
        Ok(mut machine) => try_reads_and_writes(rt, &mut machine, tally),
        Err(_) => tally.miss(rt),
    }
}

fn try_feed<R>(rt: &R, feed: &Feed, tally: &mut Tally)
where
    R: AllocGlobal + Eprint,
{
    try_claims(rt, feed, tally);
    try_words(rt, feed, tally);
}

/// Machines of both versions, which give the same, since each account is there.
pub(crate) fn try_machines<R>(rt: &R, tally: &mut Tally)
where
    R: AllocGlobal + Eprint,
{
    for version in VERSIONS {
        match feed_named(rt.alloc(), *version, Name::GuardThenPayment) {
            Ok(feed) => try_feed(rt, &feed, tally),
            Err(_) => tally.miss(rt),
        }
    }
}
