//! The bytes of feeds, cut by the lengths in the headers of their frames.

ghost use Rattle.std.specs.Prelude.{◌≡◌, ◌-◌, ◌≤◌, [], length, take, drop};

use std::alloc::{AllocError, Global};

/// The bytes between two offsets; none where there are not as many.
pub fn part(bytes: &[u8], from: usize, to: usize) -> &[u8]
    ensures inside { from ≤ to → to ≤ length bytes.now
        → result.now ≡ take (to - from) (drop from bytes.now) }
{
    bytes.get(from..to).unwrap_or(&[])
}

// Where the frame that begins here ends, if it begins in the feed.
fn end_of(feed: &[u8], begin: usize) -> Option<usize> {
    let [_, a, b, c, d] = feed.get(begin..)?.first_chunk::<5>()?;
    let length = u32::from_be_bytes([*a, *b, *c, *d]) as usize;
    Some(begin.saturating_add(5).saturating_add(length))
}

// The list is lent: a function that owns it drops it at each of its exits.
fn put_ends(ends: &mut Vec<usize>, feed: &[u8]) -> Result<(), AllocError> {
    let mut end = 4usize;
    ends.push(end)?;
    for _ in 0..feed.len() {
        match end_of(feed, end) {
            Some(next) => end = next,
            None => break,
        }
        ends.push(end)?;
    }
    Ok(())
}

/// Where the magic and each frame after it end, by the lengths in the headers. The end of a frame that is cut short is past
/// the feed's.
pub fn ends_of(alloc: Global, feed: &[u8]) -> Result<Vec<usize>, AllocError> {
    let mut ends = Vec::new(alloc);
    put_ends(&mut ends, feed)?;
    Ok(ends)
}

/// The bytes of a frame: 0 is the committee, and 1 the genesis.
pub fn frame<'a>(feed: &'a [u8], ends: &[usize], index: usize) -> &'a [u8] {
    let first = ends.get(index).copied().unwrap_or(0);
    let last = ends.get(index.saturating_add(1)).copied().unwrap_or(0);
    part(feed, first, last)
}

fn put_frames(
    made: &mut Vec<u8>,
    feed: &[u8],
    ends: &[usize],
    order: &[usize],
) -> Result<(), AllocError> {
    for index in order {
        made.extend_from_slice(frame(feed, ends, *index))?;
    }
    Ok(())
}

/// The magic, the committee and the genesis of a feed, and then these of its frames.
pub fn with_frames(alloc: Global, feed: &[u8], order: &[usize]) -> Result<Vec<u8>, AllocError> {
    let ends = ends_of(alloc, feed)?;
    let head = ends.get(2).copied().unwrap_or(0);
    let mut made = Vec::from_slice(alloc, part(feed, 0, head))?;
    put_frames(&mut made, feed, &ends, order)?;
    Ok(made)
}
