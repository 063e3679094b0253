//! Sources that keep count of what they are asked for: at most 65,536 bytes at once, and all bytes to the end.

use crate::ended::settings;
use crate::feeds::{NOTHING, ONE_COMMIT};
use crate::made::made;
use anyhow::Result;
use bk_compare::compare_with_gaps;
use bk_follow::replay;
use bk_frames::Counted;
use bk_pool::Open;
use bk_results::{Agreed, Status};
use bk_trial_kit::{Device, Reader, Tally, part};
use std::alloc::Global;
use std::sync::Wait;
use std::thread::Threads;

// No source is asked for more than this at once.
const MOST: usize = 65_536;

// How many bytes a source gives a call: all that it is asked for, many, and few.
const STEPS: [usize; 3] = [1_000_000, 60_000, 999];

// The bytes 0xff of the batch, whose digest is named in round 1. It is void: its first transaction would have 65,535
// bytes, and so would each of 65,534 more.
const BATCH: usize = 200_000;

const WIDE: &str =
    "members 1\naccount 1 100\naccount 2 50\ncert a 1 0 2b48f79297030f8a1bbbdfc58f6607b5ce7a8c5c6624cbe0a1a6a8ecb76d0db4 - 0\ncert b 2 0 - a 0\n";

const REPORT: &str =
    "members 1 faulty 0 quorum 1\nframes 5\nanchor 1 0\ncert 1 0\nbatch 0 void\naccount 1 100 0\naccount 2 50 0\nmoney 150\nstate 58adcc856b347f0dd4813ad33cdb8253d78a0cd40d3f41ac066bce24d28a8a5d\n";

fn put_batch(alloc: Global, feed: &mut Vec<u8>) -> Result<()> {
    feed.extend_from_slice(b"\x04\x00\x03\x0d\x40")?;
    let batch = vec![in alloc; 255u8; BATCH]?;
    feed.extend_from_slice(&batch)?;
    Ok(())
}

// The first certificate, the batch, and the second certificate.
fn wide(alloc: Global) -> Result<Vec<u8>> {
    let narrow = made(alloc, WIDE)?;
    let mut feed = Vec::from_slice(alloc, part(&narrow, 0, 192))?;
    put_batch(alloc, &mut feed)?;
    feed.extend_from_slice(part(&narrow, 192, 285))?;
    Ok(feed)
}

// Whether the source was read to its end, and little at a time.
fn is_little(source: Counted<Reader<'_>>) -> bool {
    let reader = source.into_inner();
    reader.most_asked() <= MOST && reader.left() == 0
}

fn replays_little<R>(rt: &R, feed: &[u8], most: usize) -> bool
where
    R: AllocGlobal + Threads + Wait + Sync,
{
    let alloc: Global = rt.alloc();
    let mut source = Counted::new(Reader::new(feed, Device::good(most)));
    let mut sink = Counted::new(Vec::new(alloc));
    let end = replay(rt, alloc, &mut source, &mut sink, settings(2), &Open);
    let text = sink.into_inner();
    let is_little = is_little(source);
    is_little && end.ok() == Some(Status::Whole) && text.as_slice() == REPORT.as_bytes()
}

fn agreed(certs: usize, places: usize) -> Agreed {
    Agreed { certs, places }
}

fn compares_little<R>(rt: &R, one: &[u8], other: &[u8], most: usize, wanted: Agreed) -> bool
where
    R: AllocGlobal + Threads + Wait + Sync,
{
    let mut first = Counted::new(Reader::new(one, Device::good(most)));
    let mut second = Counted::new(Reader::new(other, Device::good(most)));
    let compared = compare_with_gaps(
        rt,
        rt.alloc(),
        &mut first,
        &mut second,
        settings(2),
        &Open,
        false,
    );
    let first = is_little(first);
    let second = is_little(second);
    let agrees = match compared {
        Ok(it) => it.agreed == wanted,
        Err(_) => false,
    };
    first && second && agrees
}

fn try_wide<R>(rt: &R, wide: &[u8], tally: &mut Tally)
where
    R: AllocGlobal + Eprint + Threads + Wait + Sync,
{
    for most in STEPS {
        let is_right = replays_little(rt, wide, most);
        tally.note(rt, "a replay of a wide batch", is_right);
    }
}

// Two feeds in pieces of each of these sizes.
fn try_pair<R>(rt: &R, (one, other): (&[u8], &[u8]), agreed: Agreed, tally: &mut Tally)
where
    R: AllocGlobal + Eprint + Threads + Wait + Sync,
{
    for most in STEPS {
        let is_right = compares_little(rt, one, other, most, agreed);
        tally.note(rt, "two feeds in pieces", is_right);
    }
}

// The void batch holds no place, and a feed of no certificates has an order that begins each other one.
fn try_pairs<R>(rt: &R, wide: &[u8], tally: &mut Tally) -> Result<()>
where
    R: AllocGlobal + Eprint + Threads + Wait + Sync,
{
    let none = made(rt.alloc(), NOTHING)?;
    try_pair(rt, (wide, wide), agreed(1, 0), tally);
    try_pair(rt, (wide, &none), agreed(0, 0), tally);
    try_pair(rt, (&none, wide), agreed(0, 0), tally);
    let feed = made(rt.alloc(), ONE_COMMIT)?;
    try_pair(rt, (&feed, &feed), agreed(1, 1), tally);
    Ok(())
}

/// Replays and comparisons of a feed with a batch of 200,000 bytes.
pub(crate) fn try_counting<R>(rt: &R, tally: &mut Tally) -> Result<()>
where
    R: AllocGlobal + Eprint + Threads + Wait + Sync,
{
    let wide = wide(rt.alloc())?;
    let is_long = wide.len() == 99 + 93 + 200_005 + 93;
    tally.note(rt, "the length of a wide feed", is_long);
    try_wide(rt, &wide, tally);
    try_pairs(rt, &wide, tally)
}
