//! Jobs over the files of an example in memory, with devices that move few bytes a call, or fail.

use crate::applying::is_applied_well;
use crate::devices::{Devices, Given, all_few, all_good, feed_alone, job_with, run_by};
use crate::example::Example;
use crate::failing::{Input, Tried, reads_fail_well, writes_fail_well};
use crate::proofs::is_tight;
use anyhow::Result;
use bk_base::Workers;
use bk_cli::{Job, parse_line};
use bk_trial_kit::{Device, Tally, ends_of};
use std::fs;
use std::rt::Files;
use std::sync::Wait;
use std::thread::Threads;
use std::time::Clock;

// How many bytes a call moves at most.
const FEW: [usize; 6] = [1, 3, 7, 40, 50, 64];

// ---- few bytes a call

// Whether a job prints what its example has to, by devices that do not fail, and move few bytes a call.
fn moves_few<R>(rt: &R, example: &Example<'_>, job: &Job, given: Given<'_>) -> Result<bool>
where
    R: AllocGlobal + Clock + Files + Threads + Wait + Sync,
{
    let wanted = fs::read(rt, example.wanted)?;
    for most in FEW {
        let found = job_with(rt, job, given, all_few(most));
        if found.status != example.status || !found.has_printed(&wanted, example.writes_both()) {
            return Ok(false);
        }
    }
    Ok(true)
}

// ---- devices that fail

// Whether each read of one of the files fails well.
fn file_fails_well<R>(rt: &R, tried: Tried<'_>, is_second: bool, is_feed: bool) -> Result<bool>
where
    R: AllocGlobal + Clock + Threads + Wait + Sync,
{
    let Given { feed, second } = tried.given;
    let bytes = if is_second { second } else { feed };
    let ends = ends_of(rt.alloc(), bytes)?;
    let input = Input {
        is_second,
        length: bytes.len(),
        ends: if is_feed { Some(&ends) } else { None },
    };
    reads_fail_well(rt, tried, input)
}

// Whether each read of each file fails well.
fn files_fail_well<R>(rt: &R, example: &Example<'_>, tried: Tried<'_>) -> Result<bool>
where
    R: AllocGlobal + Clock + Threads + Wait + Sync,
{
    if !file_fails_well(rt, tried, false, example.reads_feed())? {
        return Ok(false);
    }
    if tried.job.second_file().is_none() {
        return Ok(true);
    }
    file_fails_well(rt, tried, true, example.command == "compare")
}

// Whether a job that gets an answer ends well with each read and each write failing in turn.
fn fails_well<R>(rt: &R, example: &Example<'_>, job: &Job, given: Given<'_>) -> Result<bool>
where
    R: AllocGlobal + Clock + Threads + Wait + Sync,
{
    let whole = job_with(rt, job, given, all_good(usize::MAX));
    let tried = Tried {
        job,
        given,
        whole: &whole,
    };
    Ok(writes_fail_well(rt, tried) && files_fail_well(rt, example, tried)?)
}

// Whether a job has the fault of a read that fails, and not that of the file, where it reads one file and the first read
// fails.
fn fails_at_once<R>(rt: &R, example: &Example<'_>, job: &Job, given: Given<'_>) -> bool
where
    R: AllocGlobal + Clock + Threads + Wait + Sync,
{
    let devices = Devices {
        feed: Device::lost_after(0, 40),
        ..all_few(40)
    };
    let found = job_with(rt, job, given, devices);
    let line = if example.reads_feed() {
        "feed fault 8 at 0\n"
    } else {
        "read failed\n"
    };
    let is_fault = found.status == 4 && found.err.as_slice() == line.as_bytes();
    job.second_file().is_some() || is_fault && found.out.is_empty()
}

// ---- jobs of examples

// What the commands alone have whose answers are good.
fn try_command<R>(
    rt: &R,
    example: &Example<'_>,
    job: &Job,
    bytes: &[u8],
    tally: &mut Tally,
) -> Result<()>
where
    R: AllocGlobal + Clock + Files + Eprint + Threads + Wait + Sync,
{
    if example.status == 0 && example.command == "check-proof" {
        let is_right = is_tight(rt, job, bytes)?;
        example.note(rt, "a proof that is changed", is_right, tally);
    }
    if example.status == 0 && example.command == "apply" {
        let report = fs::read(rt, example.wanted)?;
        let is_right = is_applied_well(rt, bytes, &report)?;
        example.note(rt, "the fault of apply", is_right, tally);
    }
    Ok(())
}

// Runs the job of an example by devices that move few bytes a call.
fn try_few<R>(
    rt: &R,
    example: &Example<'_>,
    job: &Job,
    given: Given<'_>,
    tally: &mut Tally,
) -> Result<()>
where
    R: AllocGlobal + Clock + Files + Eprint + Threads + Wait + Sync,
{
    if !example.has_notes() && example.is_steady() {
        let is_right = moves_few(rt, example, job, given)?;
        example.note(rt, "few bytes a call", is_right, tally);
    }
    Ok(())
}

// Runs the job of an example by devices that move few bytes a call, and by those that fail.
fn try_job<R>(
    rt: &R,
    example: &Example<'_>,
    job: &Job,
    given: Given<'_>,
    tally: &mut Tally,
) -> Result<()>
where
    R: AllocGlobal + Clock + Files + Eprint + Threads + Wait + Sync,
{
    try_few(rt, example, job, given, tally)?;
    let is_right = if example.is_answered() {
        fails_well(rt, example, job, given)?
    } else {
        fails_at_once(rt, example, job, given)
    };
    example.note(rt, "a device that fails", is_right, tally);
    Ok(())
}

// The bytes of a file of a job, none where it has none.
fn bytes_of<R: AllocGlobal + Files>(rt: &R, path: Option<&str>) -> Result<Vec<u8>> {
    let Some(path) = path else {
        return Ok(Vec::new(rt.alloc()));
    };
    Ok(fs::read(rt, path)?)
}

// The same of a job that is known.
fn try_parsed<R>(rt: &R, example: &Example<'_>, job: &Job, tally: &mut Tally) -> Result<()>
where
    R: AllocGlobal + Clock + Files + Eprint + Threads + Wait + Sync,
{
    let Ok(feed) = bytes_of(rt, job.file()) else {
        return Ok(());
    };
    let Ok(second) = bytes_of(rt, job.second_file()) else {
        return Ok(());
    };
    let given = Given {
        feed: &feed,
        second: &second,
    };
    try_job(rt, example, job, given, tally)?;
    try_command(rt, example, job, given.feed, tally)
}

/// Runs the job of an example by devices that move few bytes a call, or fail; unless its words are refused, or a file is
/// absent.
pub(crate) fn try_words<R>(rt: &R, example: &Example<'_>, tally: &mut Tally) -> Result<()>
where
    R: AllocGlobal + Clock + Files + Eprint + Threads + Wait + Sync,
{
    match parse_line(rt.alloc(), &example.words) {
        Ok(line) => try_parsed(rt, example, &line.job, tally),
        Err(_) => Ok(()),
    }
}

fn try_run_by_one<R>(rt: &R, example: &Example<'_>, feed: &[u8], tally: &mut Tally) -> Result<()>
where
    R: AllocGlobal + Clock + Files + Eprint + Threads + Wait + Sync,
{
    let job = run_by(Workers::one());
    try_few(rt, example, &job, feed_alone(feed), tally)
}

/// Runs a feed by two workers, with these devices, and by one, with those that do not fail.
pub(crate) fn try_run<R>(
    rt: &R,
    example: &Example<'_>,
    feed: &[u8],
    tally: &mut Tally,
) -> Result<()>
where
    R: AllocGlobal + Clock + Files + Eprint + Threads + Wait + Sync,
{
    try_run_by_one(rt, example, feed, tally)?;
    let job = run_by(Workers::two());
    try_job(rt, example, &job, feed_alone(feed), tally)
}

// ---- offsets that were worked out by hand

// Whether a run names `offset` as where the frame begins that it cannot read, where a read fails after `reads` others of 40
// bytes.
fn is_unread_at<R>(rt: &R, feed: &[u8], reads: usize, offset: &str) -> Result<bool>
where
    R: AllocGlobal + Clock + Threads + Wait + Sync,
{
    let line = format!(in rt.alloc(); "feed fault 8 at {offset}\n")?;
    let devices = Devices {
        feed: Device::lost_after(reads, 40),
        ..all_good(40)
    };
    let found = job_with(rt, &run_by(Workers::two()), feed_alone(feed), devices);
    Ok(found.status == 4 && found.out.is_empty() && found.err.as_slice() == line.as_bytes())
}

// Whether this line of the table holds: a feed, and where the frame begins that cannot be read at each of its reads.
fn is_line_right<R>(rt: &R, line: &str) -> Result<bool>
where
    R: AllocGlobal + Clock + Files + Threads + Wait + Sync,
{
    let (name, offsets) = line.split_once(' ').unwrap_or((line, ""));
    let feed = fs::read(rt, name)?;
    let mut reads = 0usize;
    for offset in offsets.split(' ') {
        if !is_unread_at(rt, &feed, reads, offset)? {
            return Ok(false);
        }
        reads = reads.saturating_add(1);
    }
    Ok(reads > 0)
}

/// Whether each feed of the table `unread` is unread where the table says it.
pub(crate) fn unread_is_right<R>(rt: &R, table: &str) -> Result<bool>
where
    R: AllocGlobal + Clock + Files + Threads + Wait + Sync,
{
    for line in table.lines() {
        if !is_line_right(rt, line)? {
            return Ok(false);
        }
    }
    Ok(true)
}
