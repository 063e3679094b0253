//! A feed that is pulled in groups of frames, each large enough to be judged at once.

ghost use Rattle.std.specs.Prelude.{◌<◌, ◌≤◌, length};
ghost use Rattle.bk_frames.specs.Device.{CanBeUsed};
ghost use Rattle.bk_frames.specs.declared.pulling.TheConstants.{PIECE};
ghost use Rattle.bk_follow.specs.private.Gathering.{CanPull, HasPulledGroup};

use bk_base::Kind;
use bk_frames::{Cutter, FeedFault, Source, pull_frames};

// How many bytes a group has at least and at most, and how many frames at least: enough for a thread of its own.
const LEAST: usize = 1 << 20;

const MOST: usize = 1 << 25;

const FRAMES: usize = 24;

// Whether this many bytes and frames are worth judging.
fn are_enough(bytes: usize, frames: usize) -> bool {
    MOST <= bytes || LEAST <= bytes && FRAMES <= frames
}

/// Pulls pieces of a feed until their frames are worth judging, and puts these behind those of `frames`. Returns
/// whether the end of the source was reached.
///
/// The error is that of `pull_frames`.
pub(crate) fn pull_group<S: Source>(
    source: &mut S,
    piece: &mut [u8],
    cutter: &mut Cutter,
    frames: &mut Vec<(Kind, Vec<u8>)>,
) -> Result<bool, FeedFault>
    requires sound { CanBeUsed (S.state source.old) }
    requires some { 0 < length piece.old }
    requires few { length piece.old ≤ PIECE }
    requires pulled { CanPull (S.state source.old) frames.old.items cutter.old }
    ensures { HasPulledGroup result (S.state source.old) (S.state source.new)
        frames.old.items frames.new.items cutter.old cutter.new }
{
    let mut bytes: usize = 0;
    'pieces: loop {
        let count = pull_frames(source, piece, cutter, frames)?;
        if count == 0 {
            return Ok(true);
        }
        // The sum says when to judge, and no more.
        bytes = bytes.saturating_add(count);
        if are_enough(bytes, frames.len()) {
            return Ok(false);
        }
    }
}
