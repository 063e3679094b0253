//! `apply` over devices of which one call fails, and then works again: the fault that it returns says more than the line of
//! it does, how many bytes are out, and no other call fails.

use crate::cutting::frame_at;
use anyhow::Result;
use bk_apply::apply;
use bk_frames::{Counted, FaultCode, FeedFault, Sink, Source};
use bk_results::Fault;
use bk_trial_kit::{Device, Reader, Writer, ends_of};
use std::alloc::Global;
use std::thread::Threads;

// How many bytes a call reads at most.
const READ: usize = 3;

// What `apply` leaves, and how many calls of its devices failed.
#[derive(Drop)]
struct Applied {
    fault: Option<Fault>,
    failures: u64,
    out: Vec<u8>,
}

impl Applied {
    fn is_whole(&self, report: &[u8]) -> bool {
        self.fault.is_none() && self.failures == 0 && self.out.as_slice() == report
    }

    // Whether the frame that begins here could not be read.
    fn is_unread(&self, begin: usize) -> bool {
        let fault = Fault::Feed(FeedFault {
            offset: begin as u64,
            code: FaultCode::Read,
        });
        self.fault == Some(fault) && self.failures == 1 && self.out.is_empty()
    }

    // Whether exactly the first `count` bytes of a report are out.
    fn is_begun(&self, report: &[u8], count: usize) -> bool {
        let fault = Fault::Write {
            written: count as u64,
        };
        self.fault == Some(fault)
            && self.failures == 1
            && self.out.len() == count
            && report.starts_with(&self.out)
    }
}

fn apply_with<R: AllocGlobal + Threads + Sync>(
    rt: &R,
    feed: &[u8],
    reader: Device,
    writer: Device,
) -> Applied {
    let alloc: Global = rt.alloc();
    let mut source = Counted::new(Reader::new(feed, reader));
    let mut sink = Counted::new(Writer::new(alloc, writer));
    let fault = apply(rt, alloc, &mut source, &mut sink).err();
    let failures = source.failures().saturating_add(sink.failures());
    Applied {
        fault,
        failures,
        out: sink.into_inner().into_bytes(),
    }
}

// Whether no call fails that comes after these.
fn is_whole_after<R: AllocGlobal + Threads + Sync>(
    rt: &R,
    feed: &[u8],
    reads: usize,
    writes: usize,
    report: &[u8],
) -> bool {
    let reader = Device::failing_once(reads, READ);
    let found = apply_with(rt, feed, reader, Device::failing_once(writes, 1));
    found.is_whole(report)
}

fn is_unread_after<R: AllocGlobal + Threads + Sync>(
    rt: &R,
    feed: &[u8],
    reads: usize,
    begin: usize,
) -> bool {
    let reader = Device::failing_once(reads, READ);
    let found = apply_with(rt, feed, reader, Device::good(1));
    found.is_unread(begin)
}

fn is_begun_after<R: AllocGlobal + Threads + Sync>(
    rt: &R,
    feed: &[u8],
    writes: usize,
    report: &[u8],
) -> bool {
    let writer = Device::failing_once(writes, 1);
    let found = apply_with(rt, feed, Device::good(READ), writer);
    found.is_begun(report, writes)
}

// Whether each of these reads fails well.
fn reads_fail<R: AllocGlobal + Threads + Sync>(
    rt: &R,
    feed: &[u8],
    ends: &[usize],
    reads: usize,
) -> bool {
    for read in 0..reads {
        let begin = frame_at(ends, read.saturating_mul(READ).min(feed.len()));
        if !is_unread_after(rt, feed, read, begin) {
            return false;
        }
    }
    true
}

fn writes_fail<R: AllocGlobal + Threads + Sync>(rt: &R, feed: &[u8], report: &[u8]) -> bool {
    for write in 0..report.len() {
        if !is_begun_after(rt, feed, write, report) {
            return false;
        }
    }
    true
}

/// Whether each read and each write of a report that fails once is the fault of `apply`, and the first bytes are out.
pub(crate) fn is_applied_well<R>(rt: &R, feed: &[u8], report: &[u8]) -> Result<bool>
where
    R: AllocGlobal + Threads + Sync,
{
    let ends = ends_of(rt.alloc(), feed)?;
    // The read that finds the end comes last.
    let reads = feed.len().div_ceil(READ).saturating_add(1);
    Ok(
        reads_fail(rt, feed, &ends, reads)
            && writes_fail(rt, feed, report)
            && is_whole_after(rt, feed, reads, report.len(), report),
    )
}
