//! Each read and each write of a job fails in turn: for good, or once, after which the device works again.

use crate::cutting::frame_at;
use crate::devices::{Devices, Given, all_good, job_with};
use crate::outcome::Outcome;
use anyhow::Result;
use bk_cli::Job;
use bk_trial_kit::Device;
use std::alloc::Global;
use std::sync::Wait;
use std::thread::Threads;
use std::time::Clock;

// More calls than any example makes.
const MOST_CALLS: usize = 1_000_000;

// How many bytes a call reads at most, and how long the file is at most that is read so.
const READ_SIZES: [(usize, usize); 4] = [
    (1, 300),
    (3, 300),
    (40, usize::MAX),
    (usize::MAX, usize::MAX),
];

// How many bytes a call writes at most, and how long the answer is at most that is written so.
const WRITE_SIZES: [(usize, usize); 7] = [
    (3, 80),
    (9, 100),
    (64, 100),
    (7, 300),
    (20, 300),
    (97, usize::MAX),
    (usize::MAX, usize::MAX),
];

// A longer answer is written in several pieces.
const ONE_PIECE: usize = 65_536;

/// A job, what it reads, and what it has to leave where no device fails.
#[derive(Clone, Copy)]
pub(crate) struct Tried<'a> {
    pub(crate) job: &'a Job,
    pub(crate) given: Given<'a>,
    pub(crate) whole: &'a Outcome,
}

impl Tried<'_> {
    fn is_followed(&self) -> bool {
        matches!(self.job, Job::Follow { .. })
    }

    // Whether `count` bytes may be out after `writes` writes of `most` bytes: all that these can take, if all is one piece.
    fn may_be_out(&self, count: usize, writes: usize, most: usize) -> bool {
        let taken = writes.saturating_mul(most);
        if self.is_followed() || self.whole.out.len() > ONE_PIECE || most == usize::MAX {
            return count <= taken;
        }
        count == taken
    }
}

/// A file that a job reads, the first or the second. Of a feed it is known where its frames end.
#[derive(Clone, Copy)]
pub(crate) struct Input<'a> {
    pub(crate) is_second: bool,
    pub(crate) length: usize,
    pub(crate) ends: Option<&'a [usize]>,
}

impl Input<'_> {
    // The devices of a job that reads this file so.
    fn devices(&self, device: Device) -> Devices {
        let good = all_good(device.most());
        if self.is_second {
            return Devices {
                second: device,
                ..good
            };
        }
        Devices {
            feed: device,
            ..good
        }
    }

    // Whether `reads` reads of at most `most` bytes find the end.
    fn is_read_by(&self, reads: usize, most: usize) -> bool {
        reads > 0 && reads.saturating_sub(1).saturating_mul(most) >= self.length
    }

    // The fault of a read that fails after `reads` others: that of a feed says where the frame begins that is not whole.
    fn fault_after(&self, alloc: Global, reads: usize, most: usize) -> Result<String> {
        let Some(ends) = self.ends else {
            return Ok(String::from_str(alloc, "read failed\n")?);
        };
        let count = reads.saturating_mul(most).min(self.length);
        let begin = frame_at(ends, count);
        Ok(format!(in alloc; "feed fault 8 at {begin}\n")?)
    }
}

// ---- reads

// What a job comes to of which a read fails.
#[derive(Clone, Copy)]
enum Reading {
    Whole,
    Unread,
    Wrong,
}

// Whether this is the fault of a failed read, and nothing is written; of a feed that is followed, no more than the first
// rows are.
fn is_unread(tried: Tried<'_>, found: &Outcome, line: &str) -> bool {
    let is_ahead = tried.is_followed() && tried.whole.out.starts_with(&found.out);
    found.status == 4
        && found.err.as_slice() == line.as_bytes()
        && (found.out.is_empty() || is_ahead)
}

fn judge_reading(tried: Tried<'_>, found: &Outcome, line: &str) -> Reading {
    if found.is_same(tried.whole) {
        return Reading::Whole;
    }
    if is_unread(tried, found, line) {
        return Reading::Unread;
    }
    Reading::Wrong
}

// Whether a job leaves this with these devices too.
fn leaves<R>(rt: &R, tried: Tried<'_>, devices: Devices, wanted: &Outcome) -> bool
where
    R: AllocGlobal + Clock + Threads + Wait + Sync,
{
    let found = job_with(rt, tried.job, tried.given, devices);
    found.is_same(wanted)
}

// Whether a read that fails once leaves the same as one that fails for good. Of two feeds that are compared the first one's
// fault is reported, also where the other cannot be read either.
fn is_lost_so<R>(
    rt: &R,
    tried: Tried<'_>,
    input: Input<'_>,
    (reads, most): (usize, usize),
    lost: &Outcome,
) -> bool
where
    R: AllocGlobal + Clock + Threads + Wait + Sync,
{
    let once = input.devices(Device::failing_once(reads, most));
    if !leaves(rt, tried, once, lost) {
        return false;
    }
    let is_compared = matches!(tried.job, Job::Compare { .. });
    if input.is_second || !is_compared || lost.is_same(tried.whole) {
        return true;
    }
    let both = Devices {
        second: Device::lost_after(0, most),
        ..input.devices(Device::lost_after(reads, most))
    };
    leaves(rt, tried, both, lost)
}

// What a job comes to where a read fails after `reads` others.
fn reading_of<R>(
    rt: &R,
    tried: Tried<'_>,
    input: Input<'_>,
    (reads, most): (usize, usize),
) -> Result<Reading>
where
    R: AllocGlobal + Clock + Threads + Wait + Sync,
{
    let line = input.fault_after(rt.alloc(), reads, most)?;
    let devices = input.devices(Device::lost_after(reads, most));
    let lost = job_with(rt, tried.job, tried.given, devices);
    if !is_lost_so(rt, tried, input, (reads, most), &lost) {
        return Ok(Reading::Wrong);
    }
    Ok(judge_reading(tried, &lost, &line))
}

// Whether each read of a file, of at most `most` bytes, fails well. A feed is read to its end, and not after it.
fn each_read_fails<R>(rt: &R, tried: Tried<'_>, input: Input<'_>, most: usize) -> Result<bool>
where
    R: AllocGlobal + Clock + Threads + Wait + Sync,
{
    for reads in 0..MOST_CALLS {
        let is_read = input.is_read_by(reads, most);
        match reading_of(rt, tried, input, (reads, most))? {
            Reading::Wrong => return Ok(false),
            Reading::Whole => return Ok(reads > 0 && (is_read || input.ends.is_none())),
            Reading::Unread => {}
        }
        if is_read {
            return Ok(false);
        }
    }
    Ok(false)
}

/// Whether a failed read of a file gives its fault and writes nothing before it, whichever read it is, for good or once; and
/// one of them fails.
pub(crate) fn reads_fail_well<R>(rt: &R, tried: Tried<'_>, input: Input<'_>) -> Result<bool>
where
    R: AllocGlobal + Clock + Threads + Wait + Sync,
{
    for (most, longest) in READ_SIZES {
        if input.length <= longest && !each_read_fails(rt, tried, input, most)? {
            return Ok(false);
        }
    }
    Ok(true)
}

// ---- writes

// What a job comes to of which a write fails: the first bytes of its answer alone are out, and how many.
#[derive(Clone, Copy)]
enum Writing {
    Whole,
    Begun(usize),
    Wrong,
}

fn judge_writing(tried: Tried<'_>, found: &Outcome) -> Writing {
    if found.is_same(tried.whole) {
        return Writing::Whole;
    }
    let is_fault = found.status == 4 && found.err.as_slice() == b"write failed\n".as_slice();
    let count = found.out.len();
    if is_fault && count < tried.whole.out.len() && tried.whole.out.starts_with(&found.out) {
        return Writing::Begun(count);
    }
    Writing::Wrong
}

fn writing_by(device: Device) -> Devices {
    Devices {
        out: device,
        ..all_good(usize::MAX)
    }
}

// What a job comes to where a write fails after `writes` others, for good or once: the same.
fn writing_of<R>(rt: &R, tried: Tried<'_>, writes: usize, most: usize) -> Writing
where
    R: AllocGlobal + Clock + Threads + Wait + Sync,
{
    let devices = writing_by(Device::lost_after(writes, most));
    let lost = job_with(rt, tried.job, tried.given, devices);
    let once = writing_by(Device::failing_once(writes, most));
    if !leaves(rt, tried, once, &lost) {
        return Writing::Wrong;
    }
    judge_writing(tried, &lost)
}

/// How many calls an answer takes of a sink that takes at most `most` bytes a call. Before, each call fails in turn, for good
/// or once, and leaves the first bytes of the answer alone, more of them the more calls there were. None where one of them
/// does not fail well.
pub(crate) fn calls_of<R>(rt: &R, tried: Tried<'_>, most: usize) -> Option<usize>
where
    R: AllocGlobal + Clock + Threads + Wait + Sync,
{
    let mut before = 0usize;
    for writes in 0..MOST_CALLS {
        let count = match writing_of(rt, tried, writes, most) {
            Writing::Whole => return Some(writes),
            Writing::Wrong => return None,
            Writing::Begun(count) => count,
        };
        let is_more = writes == 0 || before < count;
        if !is_more || !tried.may_be_out(count, writes, most) {
            return None;
        }
        before = count;
    }
    None
}

// Whether a job fails that writes to a sink which takes no byte, unless there is nothing to write.
fn nothing_is_taken<R>(rt: &R, tried: Tried<'_>) -> bool
where
    R: AllocGlobal + Clock + Threads + Wait + Sync,
{
    let found = job_with(rt, tried.job, tried.given, writing_by(Device::good(0)));
    match judge_writing(tried, &found) {
        Writing::Whole => tried.whole.out.is_empty(),
        Writing::Begun(count) => count == 0,
        Writing::Wrong => false,
    }
}

/// Whether a failed write leaves exactly the first bytes of the answer, whichever write it is, for good or once; and one of
/// them fails, unless there is nothing to write.
pub(crate) fn writes_fail_well<R>(rt: &R, tried: Tried<'_>) -> bool
where
    R: AllocGlobal + Clock + Threads + Wait + Sync,
{
    let length = tried.whole.out.len();
    for (most, longest) in WRITE_SIZES {
        if length > longest {
            continue;
        }
        match calls_of(rt, tried, most) {
            Some(calls) if calls > 0 || length == 0 => {}
            _ => return false,
        }
    }
    nothing_is_taken(rt, tried)
}
