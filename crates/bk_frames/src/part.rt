//! What is being read of a feed that comes in pieces: the magic, or a frame.

ghost use Rattle.std.specs.Prelude.{◌≡◌, ◌≢◌, ℕ, ◌+◌, ◌<◌, ◌≤◌, [], ◌∷◌, ◌++◌, length, take, drop, vec_len, IfOk, IfErr, IfSome, OnOk, OnErr, MatchOption, Some, None};
ghost use Rattle.std.specs.Int.{w32, from_be_bytes};
ghost use Rattle.bk_frames.specs.declared.fault.FaultCode.TheVariants as code;
ghost use Rattle.bk_base.specs.Feed.{frame_of};
ghost use Rattle.bk_base.specs.Numbers.{IsBytes};
ghost use Rattle.bk_frames.specs.Pulling.{ByCode};
ghost use Rattle.bk_frames.specs.Cutting.{Cuts, IsBegun, fault_at};
ghost use Rattle.bk_frames.specs.private.Parts.{IsPart, IsShort, IsInFrame, kept_of, cut_of, len_of};

use crate::fault::FaultCode;
use crate::judging::{judge, kind_at, length_fits};
use bk_base::{Kind, MAGIC, Version, version_of};
use std::alloc::{AllocError, Global};
use std::mem;

// What is being read. The head is the magic, or a frame's kind and length.
#[derive(Debug, Drop)]
pub(crate) struct Part {
    // The version, once the magic is whole.
    pub(crate) version: Option<Version>,
    // The index of the frame.
    pub(crate) index: usize,
    // Its offset, 0 for the magic.
    pub(crate) offset: u64,
    pub(crate) head: [u8; 5],
    // How many bytes of the head are there.
    pub(crate) filled: usize,
    pub(crate) payload: Vec<u8>,
}

// The length that a whole head states.
fn length_in(head: &[u8; 5]) -> u32
    ensures number { result ≡ from_be_bytes w32 (drop 1 head.now) }
    ensures five { length head.now ≡ 5 }
    ensures bytes { IsBytes head.now }
{
    let [_, a, b, c, d] = *head;
    u32::from_be_bytes([a, b, c, d])
}

// Takes one byte of the magic.
pub(crate) fn take_magic(part: &mut Part, byte: u8) -> Result<(), FaultCode>
    requires part { IsPart part.old }
    requires start { part.old.version ≡ None }
    ensures part { OnOk result (IsPart part.new × IsShort part.new) }
    ensures cuts { OnOk result (Cuts (cut_of part.old) (byte ∷ []) [] (cut_of part.new)) }
    ensures place { OnErr result ((part.new.offset ≡ part.old.offset)
        × (part.new.version ≡ part.old.version)) }
    ensures err { IfErr result (λ e. (e ≡ code.Magic)
        × (fault_at part.old.version part.old.index part.old.offset
        (kept_of part.old ++ byte ∷ []) ≡ Some code.Magic)) }
{
    if part.filled < 3 {
        if byte != MAGIC[part.filled] {
            return Err(FaultCode::Magic);
        }
        part.head[part.filled] = byte;
        part.filled += 1;
        return Ok(());
    }
    let Some(version) = version_of(byte) else {
        return Err(FaultCode::Magic);
    };
    part.version = Some(version);
    part.offset = 4;
    part.filled = 0;
    Ok(())
}

// Takes one byte of a frame's kind and length.
pub(crate) fn take_head(part: &mut Part, byte: u8) -> Result<(), FaultCode>
    requires part { IsPart part.old }
    requires frame { IsInFrame part.old }
    requires head { part.old.filled < 5 }
    ensures part { OnOk result (IsPart part.new) }
    ensures cuts { OnOk result (Cuts (cut_of part.old) (byte ∷ []) [] (cut_of part.new)) }
    ensures place { OnErr result ((part.new.offset ≡ part.old.offset)
        × (part.new.version ≡ part.old.version)) }
    ensures err { IfErr result (λ e. (e ≢ code.Truncated) × ByCode e ⊥ ⊥
        (fault_at part.old.version part.old.index part.old.offset (kept_of part.old ++ byte ∷ [])
        ≡ Some e)) }
{
    part.head[part.filled] = byte;
    part.filled += 1;
    if part.filled == 1 {
        kind_at(part.index, byte)?;
    }
    if part.filled == 5 && !length_fits(part.offset, length_in(&part.head)) {
        return Err(FaultCode::Length);
    }
    Ok(())
}

// Makes room for `count` bytes more of a payload that has `len` in the end: at least as much again as has come.
fn make_room(payload: &mut Vec<u8>, len: usize, count: usize) -> Result<(), AllocError>
    requires { vec_len payload.old + count ≤ len }
    ensures { payload.new.items ≡ payload.old.items }
{
    let have = payload.len();
    if payload.capacity() - have < count {
        payload.reserve_exact(count.max(have.min(len - have)))?;
    }
    Ok(())
}

// Takes what the piece has of the payload, and returns how many bytes that is.
pub(crate) fn take_payload(part: &mut Part, piece: &[u8]) -> Result<usize, AllocError>
    requires part { IsPart part.old }
    requires frame { IsInFrame part.old }
    requires full { part.old.filled ≡ 5 }
    requires short { IsShort part.old }
    requires more { 0 < length piece.now }
    ensures place { (part.new.offset ≡ part.old.offset) × (part.new.version ≡ part.old.version) }
    ensures count { IfOk result (λ n. (0 < n) × (n ≤ length piece.now)) }
    ensures part { OnOk result (IsPart part.new) }
    ensures cuts { IfOk result (λ n. Cuts (cut_of part.old) (take n piece.now) []
        (cut_of part.new)) }
    ensures begun { OnErr result (IsBegun (cut_of part.old)) }
{
    let len = length_in(&part.head) as usize;
    let count = (len - part.payload.len()).min(piece.len());
    make_room(&mut part.payload, len, count)?;
    part.payload.extend_from_slice(&piece[..count])?;
    Ok(count)
}

// The version of the feed, where a frame is whole.
pub(crate) fn whole_frame(part: &Part) -> Option<Version>
    requires { IsPart part.now }
    ensures whole { MatchOption result (IsShort part.now) (λ v. (part.now.version ≡ Some v)
        × (part.now.filled ≡ 5) × (length part.now.payload.items ≡ len_of part.now)) }
    ensures begun { IfSome result (λ _. IsBegun (cut_of part.now)) }
{
    if part.filled == 5 && part.payload.len() == length_in(&part.head) as usize {
        part.version
    } else {
        None
    }
}

// Judges the payload of a whole frame, hands the frame out, and begins the next.
pub(crate) fn take_frame(
    alloc: Global,
    part: &mut Part,
    version: Version,
) -> Result<(Kind, Vec<u8>), FaultCode>
    requires part { IsPart part.old }
    requires frame { part.old.version ≡ Some version }
    requires whole { (part.old.filled ≡ 5) × (length part.old.payload.items ≡ len_of part.old) }
    requires begun { IsBegun (cut_of part.old) }
    ensures part { OnOk result (IsPart part.new) }
    ensures next { OnOk result (part.new.filled ≡ 0) }
    ensures cuts { IfOk result (λ f. Cuts (cut_of part.old) [] (frame_of f.0 f.1.items ∷ [])
        (cut_of part.new)) }
    ensures place { OnErr result ((part.new.offset ≡ part.old.offset)
        × (part.new.version ≡ part.old.version)) }
    ensures err { IfErr result (λ e. (e ≢ code.Truncated) × ByCode e ⊥ (IsBegun (cut_of part.old))
        (fault_at part.old.version part.old.index part.old.offset (kept_of part.old) ≡ Some e)) }
{
    let len = u64::from(length_in(&part.head));
    let kind = kind_at(part.index, part.head[0])?;
    let mut rows = Vec::new(alloc);
    judge(alloc, version, part.index, &part.payload, &mut rows)?;
    let payload = mem::replace(&mut part.payload, Vec::new(alloc));
    part.index += 1;
    part.offset += 5 + len;
    part.filled = 0;
    Ok((kind, payload))
}
