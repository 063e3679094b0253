//! Feeds that are cut into pieces: the frames that their headers say, the fault of a feed that ends too early, and for
//! broken bytes the fault that reading them has.

use anyhow::Result;
use bk_base::Kind;
use bk_frames::{Counted, Cutter, FaultCode, Feed, FeedFault};
use bk_trial_kit::{ends_of, frame};
use std::alloc::Global;

// How many bytes the pieces of a feed have.
const SIZES: [usize; 6] = [1, 2, 3, 7, 64, 4_096];

// The bits of a byte.
const BITS: [u8; 8] = [1, 2, 4, 8, 16, 32, 64, 128];

/// Where the frame begins that is read once `count` bytes were read: 0 in the magic, the end after all frames.
pub(crate) fn frame_at(ends: &[usize], count: usize) -> usize {
    let mut begin = 0usize;
    for end in ends {
        if *end <= count {
            begin = *end;
        }
    }
    begin
}

// All frames of these bytes in pieces of `size`, or the fault.
fn cut_into(
    cutter: &mut Cutter,
    frames: &mut Vec<(Kind, Vec<u8>)>,
    bytes: &[u8],
    size: usize,
) -> Result<(), FeedFault> {
    for piece in bytes.chunks(size.max(1)) {
        cutter.feed_into(piece, frames)?;
    }
    cutter.end()
}

fn is_frame(bytes: &[u8], found: Option<&(Kind, Vec<u8>)>) -> bool {
    match (bytes.split_first(), found) {
        (Some((kind, rest)), Some((found, payload))) => {
            *found as u8 == *kind && rest.get(4..) == Some(payload.as_slice())
        }
        _ => false,
    }
}

// Whether these are the frames of a feed.
fn are_frames(feed: &[u8], ends: &[usize], frames: &[(Kind, Vec<u8>)]) -> bool {
    for index in 0..frames.len() {
        if !is_frame(frame(feed, ends, index), frames.get(index)) {
            return false;
        }
    }
    frames.len().saturating_add(1) == ends.len()
}

// Whether a cutter gives the frames of a feed that end here.
fn gives_these(alloc: Global, feed: &[u8], ends: &[usize], size: usize) -> bool {
    let mut cutter = Cutter::new(alloc);
    let mut frames = Vec::new(alloc);
    let is_cut = cut_into(&mut cutter, &mut frames, feed, size).is_ok();
    is_cut && cutter.offset() == feed.len() as u64 && are_frames(feed, ends, &frames)
}

// Whether a cutter gives the frames of a feed, which its headers say.
fn gives_frames(alloc: Global, feed: &[u8], size: usize) -> Result<bool> {
    let ends = ends_of(alloc, feed)?;
    Ok(gives_these(alloc, feed, &ends, size))
}

// Whether a cutter gives this fault.
fn gives_fault(alloc: Global, fault: FeedFault, bytes: &[u8], size: usize) -> bool {
    let mut cutter = Cutter::new(alloc);
    let mut frames = Vec::new(alloc);
    cut_into(&mut cutter, &mut frames, bytes, size).err() == Some(fault)
}

// Whether a good feed is cut into its frames.
fn is_cut(alloc: Global, feed: &[u8], sizes: &[usize]) -> Result<bool> {
    for size in sizes {
        if !gives_frames(alloc, feed, *size)? {
            return Ok(false);
        }
    }
    Ok(true)
}

// Whether the first bytes of a good feed are cut into frames, or are too short where they end in a frame or before the
// second one.
fn is_begun(alloc: Global, feed: &[u8], ends: &[usize], kept: usize, size: usize) -> Result<bool> {
    let begun = feed.get(..kept).unwrap_or(&[]);
    if ends.get(2..).unwrap_or(&[]).contains(&kept) {
        return gives_frames(alloc, begun, size);
    }
    let fault = FeedFault {
        offset: frame_at(ends, kept) as u64,
        code: FaultCode::Truncated,
    };
    Ok(gives_fault(alloc, fault, begun, size))
}

// The fault that reading bytes has.
fn fault_of(alloc: Global, bytes: &[u8]) -> Option<FeedFault> {
    Feed::read(alloc, &mut Counted::new(bytes)).err()
}

// Whether pieces of each of these sizes give this fault.
fn has_fault(alloc: Global, fault: FeedFault, bytes: &[u8], sizes: &[usize]) -> bool {
    for size in sizes {
        if !gives_fault(alloc, fault, bytes, *size) {
            return false;
        }
    }
    fault.code != FaultCode::Memory
}

// Whether bytes are cut into the frames that their headers say, or have the fault that reading them has.
fn is_same(alloc: Global, bytes: &[u8], sizes: &[usize]) -> Result<bool> {
    match fault_of(alloc, bytes) {
        Some(fault) => Ok(has_fault(alloc, fault, bytes, sizes)),
        None => is_cut(alloc, bytes, sizes),
    }
}

// Whether a feed that is cut short at every seventeenth byte is cut so.
fn are_begun(alloc: Global, feed: &[u8], ends: &[usize]) -> Result<bool> {
    for kept in 0..feed.len() {
        if kept % 17 == 0 && !is_begun(alloc, feed, ends, kept, 7)? {
            return Ok(false);
        }
    }
    Ok(true)
}

fn is_begun_each(alloc: Global, feed: &[u8]) -> Result<bool> {
    let ends = ends_of(alloc, feed)?;
    are_begun(alloc, feed, &ends)
}

// Whether a feed with a bit turned is cut so.
fn is_same_turned(alloc: Global, feed: &[u8], index: usize, bit: u8) -> Result<bool> {
    let mut broken = Vec::from_slice(alloc, feed)?;
    if let Some(byte) = broken.get_mut(index) {
        *byte ^= bit;
    }
    is_same(alloc, &broken, &[1, 4_096])
}

// The same in every thirteenth of its first 208 bytes.
fn is_same_broken(alloc: Global, feed: &[u8]) -> Result<bool> {
    for turned in 0..16usize {
        let bit = BITS.get(turned % 8).copied().unwrap_or(1);
        if !is_same_turned(alloc, feed, turned.saturating_mul(13), bit)? {
            return Ok(false);
        }
    }
    Ok(true)
}

/// Whether a feed has no fault, and is cut into its frames in pieces of each size; so too where it ends too early, and where
/// a bit is turned, with the fault that reading has.
pub(crate) fn is_cut_well(alloc: Global, feed: &[u8]) -> Result<bool> {
    Ok(
        fault_of(alloc, feed).is_none()
            && is_cut(alloc, feed, &SIZES)?
            && is_begun_each(alloc, feed)?
            && is_same_broken(alloc, feed)?,
    )
}
