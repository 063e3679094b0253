//! Devices that move few bytes a call, and fail.

use crate::outcome::Outcome;
use bk_base::Workers;
use bk_cli::Job;
use bk_frames::Counted;
use bk_jobs::{Watch, run_watched};
use bk_order::HashKey;
use bk_pool::Open;
use bk_trial_kit::{Device, Reader, Writer};
use std::alloc::Global;
use std::sync::Wait;
use std::thread::Threads;
use std::time::Clock;

/// The bytes that a job reads: those of a feed, and those of a second file.
#[derive(Clone, Copy)]
pub(crate) struct Given<'a> {
    pub(crate) feed: &'a [u8],
    pub(crate) second: &'a [u8],
}

/// How the devices of a job work.
#[derive(Clone, Copy)]
pub(crate) struct Devices {
    pub(crate) feed: Device,
    pub(crate) second: Device,
    pub(crate) out: Device,
}

/// Devices that do not fail, sources of at most this many bytes a call.
pub(crate) fn all_good(read_size: usize) -> Devices {
    Devices {
        feed: Device::good(read_size),
        second: Device::good(read_size),
        out: Device::good(usize::MAX),
    }
}

/// Devices that do not fail, and move at most this many bytes a call.
pub(crate) fn all_few(most: usize) -> Devices {
    Devices {
        feed: Device::good(most),
        second: Device::good(most),
        out: Device::good(most),
    }
}

/// What a job leaves with these devices.
pub(crate) fn job_with<R>(rt: &R, job: &Job, given: Given<'_>, devices: Devices) -> Outcome
where
    R: AllocGlobal + Clock + Threads + Wait + Sync,
{
    let alloc: Global = rt.alloc();
    let mut source = Counted::new(Reader::new(given.feed, devices.feed));
    let mut second = Counted::new(Reader::new(given.second, devices.second));
    let mut out = Counted::new(Writer::new(alloc, devices.out));
    let mut err = Counted::new(Vec::new(alloc));
    let watch = Watch {
        watcher: &Open,
        verbose: false,
        strict: false,
        key: HashKey::fixed(),
    };
    let exit = run_watched(
        rt,
        job,
        &watch,
        &mut source,
        &mut second,
        &mut out,
        &mut err,
    );
    Outcome {
        status: exit.number(),
        out: out.into_inner().into_bytes(),
        err: err.into_inner(),
    }
}

/// A feed alone.
pub(crate) fn feed_alone(feed: &[u8]) -> Given<'_> {
    Given { feed, second: b"" }
}

/// A run by this number of workers.
pub(crate) fn run_by(workers: Workers) -> Job {
    Job::Run {
        workers,
        file: None,
    }
}
