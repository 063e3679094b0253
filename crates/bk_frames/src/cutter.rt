ghost use Rattle.std.specs.Prelude.{◌≡◌, ◌≢◌, ℕ, ◌+◌, ◌<◌, ◌≤◌, [], ◌∷◌, ◌++◌, length, take, IfOk, IfErr, IfSome, OnOk, OnErr, Some, None, Err, map};
ghost use Rattle.bk_frames.specs.Cutting.{Cut, fresh, Cuts, CutsInto, IsOpen, RefusesInto, RefusesPiece, EndsShort, frames_in};
ghost use Rattle.bk_frames.specs.private.Parts.{IsPart, IsShort, FailsSoon, cut_of};

use crate::fault::{FaultCode, FeedFault};
use crate::part::{Part, take_frame, take_head, take_magic, take_payload, whole_frame};
use bk_base::{Kind, Version};
use std::alloc::Global;
use std::marker::Model;

// Takes what the piece begins with, and returns how many bytes that is.
fn advance(part: &mut Part, piece: &[u8]) -> Result<usize, FaultCode>
    requires part { IsPart part.old }
    requires short { IsShort part.old }
    requires more { 0 < length piece.now }
    ensures place { OnErr result ((part.new.offset ≡ part.old.offset)
        × (part.new.version ≡ part.old.version)) }
    ensures count { IfOk result (λ n. (0 < n) × (n ≤ length piece.now)) }
    ensures part { OnOk result (IsPart part.new) }
    ensures cuts { IfOk result (λ n. Cuts (cut_of part.old) (take n piece.now) []
        (cut_of part.new)) }
    ensures err { IfErr result (λ e. FailsSoon (cut_of part.old) piece.now e) }
{
    if part.version.is_none() {
        take_magic(part, piece[0])?;
        return Ok(1);
    }
    if part.filled < 5 {
        take_head(part, piece[0])?;
        return Ok(1);
    }
    Ok(take_payload(part, piece)?)
}

// Cuts a piece, and puts the frames that end inside it behind those of `out`.
fn cut(
    alloc: Global,
    part: &mut Part,
    piece: &[u8],
    out: &mut Vec<(Kind, Vec<u8>)>,
) -> Result<(), FaultCode>
    requires part { IsPart part.old }
    requires short { IsShort part.old }
    ensures part { OnOk result (IsPart part.new × IsShort part.new) }
    ensures cuts { OnOk result (CutsInto (cut_of part.old) piece.now
        out.old.items out.new.items (cut_of part.new)) }
    ensures refused { IfErr result (λ e. RefusesInto (cut_of part.old) piece.now
        out.old.items out.new.items part.new.version
        (record { offset = part.new.offset; code = e })) }
{
    let mut at = 0;
    while at < piece.len() {
        at += advance(part, &piece[at..])?;
        if let Some(version) = whole_frame(part) {
            out.reserve(1)?;
            out.push(take_frame(alloc, part, version)?)?;
        }
    }
    Ok(())
}

/// Cuts a feed into its frames, in whatever pieces it comes. Memory follows the bytes that came.
///
/// Contracts see it as a `Cut`: the version, once the magic is whole; the index, the offset and the bytes so far of
/// what is being read; and the fault that every later call returns.
#[derive(Debug, Drop)]
pub struct Cutter {
    alloc: Global,
    part: Part,
    fault: Option<FeedFault>,
}

impl Model for Cutter {
    ghost use Rattle.std.specs.Prelude.{◌≡◌, None};
    ghost use Rattle.bk_frames.specs.Cutting.{Cut};
    ghost use Rattle.bk_frames.specs.private.Parts.{IsPart, IsShort, kept_of};

    ghost Value = { Cut };

    ghost view = { λ c. record { version = c.part.version; index = c.part.index; offset = c.part.offset; kept = kept_of c.part; fault = c.fault } };

    ghost invariant = { λ c. c.fault ≡ None → IsPart c.part × IsShort c.part };
}

impl Cutter {
    /// Before the first byte. Takes no memory.
    pub fn new(alloc: Global) -> Cutter
        ensures { result ≡ fresh }
    {
        let part = Part {
            version: None,
            index: 0,
            offset: 0,
            head: [0; 5],
            filled: 0,
            payload: Vec::new(alloc),
        };
        Cutter {
            alloc,
            part,
            fault: None,
        }
    }

    /// Takes the next piece, and puts the frames that end inside it behind those of `frames`. O(n) over all pieces
    /// together.
    ///
    /// A fault comes with the first byte that shows it; each later call returns it again. Bytes that are only cut short
    /// are no fault here. With a fault `frames` has the whole frames before it.
    pub fn feed_into(
        &mut self,
        piece: &[u8],
        frames: &mut Vec<(Kind, Vec<u8>)>,
    ) -> Result<(), FeedFault>
        ensures cuts { OnOk result (CutsInto self.old piece.now
            frames.old.items frames.new.items self.new) }
        ensures open { OnOk result ((self.old.fault ≡ None) × (self.new.fault ≡ None)
            × IsOpen self.new) }
        ensures again { IfSome self.old.fault (λ f. (result ≡ Err f) × (self.new ≡ self.old)) }
        ensures stays { IfErr result (λ f. self.new.fault ≡ Some f) }
        ensures refused { IfErr result (λ f. self.old.fault ≡ None
            → RefusesPiece self.old piece.now f) }
        ensures before { IfErr result (λ f. self.old.fault ≡ None → RefusesInto self.old piece.now
            frames.old.items frames.new.items self.new.version f) }
        ensures none_again { IfSome self.old.fault (λ _. frames.new.items ≡ frames.old.items) }
    {
        if let Some(fault) = self.fault {
            return Err(fault);
        }
        match cut(self.alloc, &mut self.part, piece, frames) {
            Ok(()) => Ok(()),
            Err(code) => {
                let fault = FeedFault {
                    offset: self.part.offset,
                    code,
                };
                self.fault = Some(fault);
                Err(fault)
            }
        }
    }

    /// Takes the next piece, and hands out the frames that end inside it, as [`Cutter::feed_into`] does.
    ///
    /// No frame is handed out with a fault.
    pub fn feed(&mut self, piece: &[u8]) -> Result<Vec<(Kind, Vec<u8>)>, FeedFault>
        ensures cuts { IfOk result (λ out. Cuts self.old piece.now (frames_in out.items) self.new) }
        ensures open { OnOk result ((self.old.fault ≡ None) × (self.new.fault ≡ None)
            × IsOpen self.new) }
        ensures again { IfSome self.old.fault (λ f. (result ≡ Err f) × (self.new ≡ self.old)) }
        ensures stays { IfErr result (λ f. self.new.fault ≡ Some f) }
        ensures refused { IfErr result (λ f. self.old.fault ≡ None
            → RefusesPiece self.old piece.now f) }
    {
        let mut frames = Vec::new(self.alloc);
        self.feed_into(piece, &mut frames)?;
        Ok(frames)
    }

    /// Whether the feed may end here: `Truncated` where it is cut short, and a fault that `feed` returned again.
    pub fn end(&self) -> Result<(), FeedFault>
        ensures ok { OnOk result ((self.now.fault ≡ None) × (self.now.kept ≡ [])
            × (2 ≤ self.now.index)) }
        ensures again { IfSome self.now.fault (λ f. result ≡ Err f) }
        ensures cut_short { self.now.fault ≡ None → IfErr result (λ f. EndsShort self.now f) }
    {
        if let Some(fault) = self.fault {
            return Err(fault);
        }
        let cut_short = FeedFault {
            offset: self.part.offset,
            code: FaultCode::Truncated,
        };
        if self.part.filled > 0 {
            return Err(cut_short);
        }
        if self.part.index < 2 {
            return Err(cut_short);
        }
        Ok(())
    }

    /// The offset of the frame that is being read, 0 while that is the magic.
    pub fn offset(&self) -> u64
        ensures { result ≡ self.now.offset }
    {
        self.part.offset
    }

    /// The version of the feed, `None` until the magic is whole.
    pub fn version(&self) -> Option<Version>
        ensures { result ≡ self.now.version }
    {
        self.part.version
    }
}
