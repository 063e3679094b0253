//! The frames of a feed, judged on many threads.

ghost use Rattle.std.specs.Prelude.{◌≡◌, ◌<◌, IfOk};
ghost use Rattle.std.specs.List.{AllZip, flat_map};
ghost use Rattle.bk_frames.specs.Cutting.{frames_in};
ghost use Rattle.bk_certcheck.specs.Frames.{IsFound};

use crate::finding::{Found, find_each};
use bk_base::Kind;
use bk_committee::Committee;
use rayon::prelude::*;
use std::alloc::{AllocError, Global};
use std::thread::Threads;

// Frames are cut into about this many parts at most, which are judged side by side.
const PARTS: usize = 32;

// A part has at least this many frames, as many as there are lanes.
const FEWEST: usize = 8;

// But frames that have about this many bytes are worth a thread each.
const LONG: usize = 65_536;

// How many frames a part has.
fn part_len(frames: &[(Kind, Vec<u8>)]) -> usize
    ensures { 0 < result }
{
    let mut bytes = 0usize;
    for frame in frames {
        bytes = bytes.saturating_add(frame.1.len());
    }
    let fewest = if bytes / LONG < frames.len() {
        FEWEST
    } else {
        1
    };
    fewest.max(frames.len() / PARTS)
}

// The frames in parts of so many consecutive ones; the last may have fewer.
fn parts_of(
    alloc: Global,
    frames: &[(Kind, Vec<u8>)],
    len: usize,
) -> Result<Vec<&[(Kind, Vec<u8>)]>, AllocError>
    requires { 0 < len }
    ensures { IfOk result (λ parts. flat_map (λ p. p.now) parts.items ≡ frames.now) }
{
    let mut parts = Vec::new(alloc);
    let mut rest = frames;
    while !rest.is_empty() {
        let (part, later) = rest.split_at(len.min(rest.len()));
        parts.push(part)?;
        rest = later;
    }
    Ok(parts)
}

// What is found of each part, on as many threads as there are processors.
fn find_parts(
    rt: &(impl Threads + Sync),
    alloc: Global,
    committee: &Committee,
    parts: &[&[(Kind, Vec<u8>)]],
) -> Result<Vec<Vec<Found>>, AllocError>
    ensures { IfOk result (λ founds. AllZip
        (λ part found. AllZip (IsFound committee.now) (frames_in part.now) found.items)
        parts.now founds.items) }
{
    let found = parts
        .par_iter()
        .with_min_len(1)
        .map(
            |part: &&[(Kind, Vec<u8>)]| -> Result<Vec<Found>, AllocError>
                ensures { IfOk result (λ out. AllZip (IsFound committee.entry.now)
                    (frames_in part.now.now) out.items) }
            { find_each(alloc, committee, *part) },
        )
        .collect::<Result<Vec<Vec<Found>>, AllocError>>(rt, alloc)?;
    found
}

// What is found of all parts, after one another.
fn joined(alloc: Global, parts: Vec<Vec<Found>>) -> Result<Vec<Found>, AllocError>
    ensures { IfOk result (λ out. out.items ≡ flat_map (λ part. part.items) parts.items) }
{
    let mut out = Vec::new(alloc);
    for mut part in parts {
        out.append(&mut part)?;
    }
    Ok(out)
}

/// What is found of each frame, in their order, on as many threads as there are processors; few frames are judged on
/// the calling one. Certificates are judged by this committee. It fails only where memory runs out. O(n) in all bytes
/// together.
pub fn find_all(
    rt: &(impl Threads + Sync),
    alloc: Global,
    committee: &Committee,
    frames: &[(Kind, Vec<u8>)],
) -> Result<Vec<Found>, AllocError>
    ensures { IfOk result
        (λ out. AllZip (IsFound committee.now) (frames_in frames.now) out.items) }
{
    let parts = parts_of(alloc, frames, part_len(frames))?;
    let found = find_parts(rt, alloc, committee, &parts)?;
    let out = joined(alloc, found)?;
    Ok(out)
}
