//! Large frames in small pieces: a quadratic cutter would not end.

use crate::made::EMPTY_LEDGER;
use anyhow::Result;
use bk_base::Kind;
use bk_frames::Cutter;
use bk_trial_kit::Tally;
use std::alloc::Global;

// A cutter that got an empty ledger and the head of a batch frame of this length.
fn begun(alloc: Global, length: u32) -> Result<Option<Cutter>> {
    let mut cutter = Cutter::new(alloc);
    let first = cutter.feed(EMPTY_LEDGER)?.len();
    let head = cutter.feed(b"\x04")?.len();
    let rest = cutter.feed(&length.to_be_bytes())?.len();
    if (first, head, rest) == (2, 0, 0) {
        return Ok(Some(cutter));
    }
    Ok(None)
}

// Whether these are one frame, a batch of this length whose last byte is 8.
fn is_batch(frames: &[(Kind, Vec<u8>)], length: u32) -> bool {
    match frames {
        [(Kind::Batch, payload)] => {
            payload.len() == length as usize && payload.last() == Some(&8)
        }
        _ => false,
    }
}

// Whether so many equal pieces give one batch frame at the last.
fn gives_batch(alloc: Global, length: u32, piece: &[u8], pieces: u32) -> Result<bool> {
    let Some(mut cutter) = begun(alloc, length)? else {
        return Ok(false);
    };
    for _ in 1..pieces {
        if !cutter.feed(piece)?.is_empty() {
            return Ok(false);
        }
    }
    let frames = cutter.feed(piece)?;
    let end = 51 + 5 + u64::from(length);
    Ok(is_batch(&frames, length) && cutter.end().is_ok() && cutter.offset() == end)
}

// A piece of empty batch frames.
fn empty_batches(alloc: Global, count: u32) -> Result<Vec<u8>> {
    let mut piece = Vec::from_slice(alloc, EMPTY_LEDGER)?;
    for _ in 0..count {
        piece.extend_from_slice(b"\x04\x00\x00\x00\x00")?;
    }
    Ok(piece)
}

// How many frames are in a piece of 200,000 empty batches.
fn frames_of_many(alloc: Global) -> Result<usize> {
    let piece = empty_batches(alloc, 200_000)?;
    let mut cutter = Cutter::new(alloc);
    Ok(cutter.feed(&piece)?.len())
}

/// All of them.
pub(crate) fn try_large_frames<R: AllocGlobal + Eprint>(rt: &R, tally: &mut Tally) -> Result<()> {
    let is_right = gives_batch(rt.alloc(), 1 << 20, b"\x08", 1 << 20)?;
    tally.note(rt, "a frame byte by byte", is_right);
    let piece = b"\x07\x07\x07\x07\x07\x07\x07\x07\x07\x07\x07\x07\x07\x07\x07\x08";
    let is_right = gives_batch(rt.alloc(), 1 << 24, piece, 1 << 20)?;
    tally.note(rt, "the largest frame in small pieces", is_right);
    let count = frames_of_many(rt.alloc())?;
    tally.note(rt, "many frames in one piece", count == 200_002);
    Ok(())
}
