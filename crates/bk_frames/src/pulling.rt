//! A feed that is pulled from a source, a piece at a time.

ghost use Rattle.std.specs.Prelude.{◌≡◌, ℕ, ◌<◌, ◌≤◌, ◌++◌, List, length, IfOk, IfErr, OnOk, Some};
ghost use Rattle.bk_frames.specs.declared.fault.FaultCode.TheVariants as code;
ghost use Rattle.bk_base.specs.declared.version.Version.{Version};
ghost use Rattle.bk_frames.specs.Device.{Device, CanBeUsed, Ends, ends_of, IsWhole};
ghost use Rattle.bk_base.specs.Feed.{Frame};
ghost use Rattle.bk_frames.specs.Cutting.{CutsInto, frames_in};
ghost use Rattle.bk_frames.specs.Pulling.{Gave, Refuses};
ghost use Rattle.bk_frames.specs.Reading.{AreFront, IsPulled, Pulls, room_of};

use crate::cutter::Cutter;
use crate::device::Source;
use crate::fault::{FaultCode, FeedFault};
use bk_base::Kind;
use std::alloc::{AllocError, AllocFailed};

/// A source is asked for at most this many bytes at once. The number is none of the format's.
pub const PIECE: usize = 65_536;

impl From<AllocError> for FaultCode {
    ghost from_gives = { λ _ e. e ≡ code.Memory };

    fn from(_e: AllocError) -> FaultCode {
        FaultCode::Memory
    }
}

impl<T: Drop> From<AllocFailed<T>> for FaultCode {
    ghost from_gives = { λ _ e. e ≡ code.Memory };

    fn from(_e: AllocFailed<T>) -> FaultCode {
        FaultCode::Memory
    }
}

/// Pulls the next piece of a feed, of at most the bytes that `piece` has room for, and puts the frames that end inside
/// it behind those of `frames`. Returns how many bytes came: 0 at the end of the source.
///
/// The error is the first fault of the bytes so far, `Read` where the source failed, or `Memory` where memory ran out,
/// with the offset of the frame that has it or that was being read. With an error `frames` has the whole frames before
/// that one.
pub fn pull_frames<S: Source>(
    source: &mut S,
    piece: &mut [u8],
    cutter: &mut Cutter,
    frames: &mut Vec<(Kind, Vec<u8>)>,
) -> Result<usize, FeedFault>
    requires sound { CanBeUsed (S.state source.old) }
    requires some { 0 < length piece.old }
    requires few { length piece.old ≤ PIECE }
    requires pulled { (start : Device) × (bytes : List ℕ) × (before : List Frame)
        × IsPulled start (S.state source.old) bytes before cutter.old }
    ensures cuts { OnOk result ((came : List ℕ) × CutsInto cutter.old came
        frames.old.items frames.new.items cutter.new) }
    ensures pulls { IfOk result (λ n. (start : Device) (bytes : List ℕ) (taken : List Frame)
        → IsPulled start (S.state source.old) bytes
        (taken ++ frames_in frames.old.items) cutter.old
        → Pulls start (S.state source.new) bytes
        (taken ++ frames_in frames.new.items) cutter.new n) }
    ensures all { IfOk result (λ n. n ≡ 0 → (start : Device) (bytes : List ℕ) (before : List Frame)
        → IsPulled start (S.state source.old) bytes before cutter.old
        → Ends 0 start (S.state source.old) → IsWhole start (S.state source.new) bytes) }
    ensures ends { IfOk result (λ n. Ends (ends_of n 1) (S.state source.old) (S.state source.new)) }
    ensures few { IfOk result (λ n. n ≤ PIECE) }
    ensures nearer { IfOk result (λ n. 0 < n → room_of cutter.new < room_of cutter.old) }
    ensures refused { IfErr result (λ f. (start : Device) (bytes : List ℕ) (before : List Frame)
        → IsPulled start (S.state source.old) bytes before cutter.old
        → Refuses f start (S.state source.new)) }
    ensures before { IfErr result (λ f. (start : Device) (bytes : List ℕ) (taken : List Frame)
        → IsPulled start (S.state source.old) bytes
        (taken ++ frames_in frames.old.items) cutter.old
        → Gave start (S.state source.new) (λ given. AreFront given f.offset cutter.new.version
        (taken ++ frames_in frames.new.items))) }
    ensures version { (v : Version) → cutter.old.version ≡ Some v → cutter.new.version ≡ Some v }
{
    let offset = cutter.offset();
    match source.pull(piece) {
        Ok(count) => {
            cutter.feed_into(&piece[..count], frames)?;
            Ok(count)
        }
        Err(_) => {
            let code = FaultCode::Read;
            Err(FeedFault { offset, code })
        }
    }
}
