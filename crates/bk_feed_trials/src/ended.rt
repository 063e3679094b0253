//! How a feed ends.

use anyhow::Result;
use bk_base::Workers;
use bk_follow::{Follower, Settings, replay};
use bk_frames::Counted;
use bk_order::HashKey;
use bk_pool::Open;
use bk_results::{Fault, Status};
use std::alloc::Global;
use std::sync::Wait;
use std::thread::Threads;

/// What the end of a feed gives, and what is written of it.
#[derive(Drop)]
pub(crate) struct Ended {
    pub(crate) end: Result<Status, Fault>,
    pub(crate) text: Vec<u8>,
}

impl Ended {
    /// Whether it is a whole report, just this.
    pub(crate) fn is_report(&self, wanted: &[u8]) -> bool {
        self.end == Ok(Status::Whole) && self.text.as_slice() == wanted
    }

    /// Whether it is this fault, and nothing is written.
    pub(crate) fn is_fault(&self, fault: &Fault) -> bool {
        self.end == Err(*fault) && self.text.is_empty()
    }
}

/// So many workers, one where there cannot be as many.
pub(crate) fn settings(workers: u8) -> Settings {
    Settings {
        workers: Workers::new(workers).unwrap_or(Workers::one()),
        key: HashKey::fixed(),
    }
}

/// Ends the feed of a Follower here.
pub(crate) fn finished<R>(rt: &R, follower: &mut Follower) -> Ended
where
    R: AllocGlobal + Threads + Wait + Sync,
{
    let alloc: Global = rt.alloc();
    let mut sink = Counted::new(Vec::new(alloc));
    let end = follower.finish(rt, &Open, &mut sink);
    let text = sink.into_inner();
    Ended { end, text }
}

/// Replays a feed.
pub(crate) fn replayed<R>(rt: &R, feed: &[u8], workers: u8) -> Ended
where
    R: AllocGlobal + Threads + Wait + Sync,
{
    let alloc: Global = rt.alloc();
    let mut source = Counted::new(feed);
    let mut sink = Counted::new(Vec::new(alloc));
    let end = replay(rt, alloc, &mut source, &mut sink, settings(workers), &Open);
    let text = sink.into_inner();
    Ended { end, text }
}

/// Whether a replay of a feed has just this report.
pub(crate) fn replays<R>(rt: &R, feed: &[u8], workers: u8, wanted: &[u8]) -> bool
where
    R: AllocGlobal + Threads + Wait + Sync,
{
    let ended = replayed(rt, feed, workers);
    ended.is_report(wanted)
}

/// The report of one member's feed.
pub(crate) fn report(alloc: Global, frames: u64, lines: &str) -> Result<String> {
    Ok(format!(in alloc; "members 1 faulty 0 quorum 1\nframes {frames}\n{lines}")?)
}
