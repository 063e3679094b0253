//! Frames that are listed, group by group.

ghost use Rattle.std.specs.Prelude.{◌≡◌, ◌+◌, ◌<◌, ◌≤◌, ◌^◌, ◌++◌, [], ℕ, List, length, take, OnOk, IfOk, IfErr, None};
ghost use Rattle.std.specs.List.{flat_map};
ghost use Rattle.bk_frames.specs.Cutting.{frames_in};
ghost use Rattle.bk_frames.specs.Device.{CanBeUsed, Works, Fails, Receives};
ghost use Rattle.bk_base.specs.Feed.{Frame, frame_text};
ghost use Rattle.bk_frames.specs.Writing.{Writes};
ghost use Rattle.bk_committee.specs.Payload.{committee_of};
ghost use Rattle.bk_listing.specs.private.FrameRow.{GoesOn, HasListed, ListsMore, MoreFails, OpensBy, PushFails};

use crate::forged::{first_forged, or_later};
use crate::lines::{Place, put_lines};
use crate::rows::{all_rows, count_rejected};
use bk_base::{Kind, Version};
use bk_committee::Committee;
use bk_frames::{Sink, push_all};
use bk_results::{Fault, WrongTag};
use std::alloc::{AllocError, Global};
use std::thread::Threads;

/// What is known of the frames that were listed.
#[derive(Drop)]
pub(crate) struct Lister {
    alloc: Global,
    /// The committee, once frame 0 came.
    committee: Option<Committee>,
    /// Where the next frame stands.
    pub(crate) place: Place,
    /// How many of the frames that were listed are rejected.
    pub(crate) rejected: u64,
    /// The first of them that is rejected for its tags, and whose tag is wrong.
    pub(crate) forged: Option<WrongTag>,
    /// How many bytes of text are out.
    written: u64,
}

// The committee of frame 0, which the cutter has judged.
fn committee_of(alloc: Global, version: Version, payload: &[u8]) -> Result<Committee, AllocError>
    ensures { IfOk result (λ committee. committee ≡ committee_of version payload.now) }
{
    match Committee::parse(alloc, version, payload) {
        Ok(committee) => Ok(committee),
        Err(_) => Err(AllocError),
    }
}

impl Lister {
    /// Before the first frame. Takes no memory.
    pub(crate) fn new(alloc: Global) -> Lister
        ensures listed { (version : Version) → HasListed version [] [] result }
        ensures written { result.written ≡ 0 }
    {
        Lister {
            alloc,
            committee: None,
            place: Place {
                index: 0,
                offset: 4,
            },
            rejected: 0,
            forged: None,
            written: 0,
        }
    }

    // Reads the committee of the first of these frames, where it is not known yet.
    fn open(&mut self, version: Version, frames: &[(Kind, Vec<u8>)]) -> Result<(), AllocError>
        ensures opens { OnOk result (OpensBy version (frames_in frames.now)
            self.old.committee self.new.committee) }
        ensures place { self.new.place ≡ self.old.place }
        ensures rejected { self.new.rejected ≡ self.old.rejected }
        ensures forged { self.new.forged ≡ self.old.forged }
        ensures written { self.new.written ≡ self.old.written }
    {
        if self.committee.is_some() {
            return Ok(());
        }
        let Some(first) = frames.first() else {
            return Ok(());
        };
        self.committee = Some(committee_of(self.alloc, version, &first.1)?);
        Ok(())
    }

    // The lines of the frames that follow those that were listed.
    fn lines_of(
        &mut self,
        rt: &(impl Threads + Sync),
        version: Version,
        frames: &[(Kind, Vec<u8>)],
    ) -> Result<Vec<u8>, AllocError>
        requires few { self.old.rejected ≤ self.old.place.index }
        requires index { self.old.place.index + length frames.now < 2 ^ 64 }
        requires offset { self.old.place.offset
            + length (flat_map frame_text (frames_in frames.now)) < 2 ^ 64 }
        ensures listed { IfOk result (λ lines. GoesOn version (frames_in frames.now)
            self.old self.new lines.items) }
        ensures written { self.new.written ≡ self.old.written }
    {
        let mut text = Vec::new(self.alloc);
        self.open(version, frames)?;
        let Some(committee) = &self.committee else {
            return Ok(text);
        };
        let rows = all_rows(rt, self.alloc, committee, frames)?;
        let found = first_forged(committee, frames, &rows);
        self.forged = or_later(self.forged, self.place.index, found);
        put_lines(&mut text, &mut self.place, committee, frames, &rows)?;
        self.rejected += count_rejected(&rows) as u64;
        Ok(text)
    }

    // Lets lines go out.
    fn push<K: Sink>(&mut self, sink: &mut K, lines: &[u8]) -> Result<(), Fault>
        requires sound { CanBeUsed (K.state sink.old) }
        ensures pushed { OnOk result (Writes lines.now (K.state sink.old) (K.state sink.new)
            × (self.new.written ≡ self.old.written + length lines.now)) }
        ensures committee { self.new.committee ≡ self.old.committee }
        ensures place { self.new.place ≡ self.old.place }
        ensures rejected { self.new.rejected ≡ self.old.rejected }
        ensures forged { self.new.forged ≡ self.old.forged }
        ensures fault { IfErr result (λ f. PushFails f self.old.written lines.now
            (K.state sink.old) (K.state sink.new)) }
    {
        // This always holds: a feed has fewer than 2^32 bytes, and five of them at least make a line of some hundred.
        let Some(written) = self.written.checked_add(lines.len() as u64) else {
            return Err(Fault::Memory);
        };
        match push_all(sink, lines) {
            Ok(()) => {
                self.written = written;
                Ok(())
            }
            Err(fault) => {
                let written = self.written + fault.written;
                Err(Fault::Write { written })
            }
        }
    }

    /// Lists the frames that follow those that were listed.
    pub(crate) fn list<K: Sink>(
        &mut self,
        rt: &(impl Threads + Sync),
        sink: &mut K,
        version: Version,
        frames: &[(Kind, Vec<u8>)],
    ) -> Result<(), Fault>
        requires sound { CanBeUsed (K.state sink.old) }
        requires few { self.old.rejected ≤ self.old.place.index }
        requires index { self.old.place.index + length frames.now < 2 ^ 64 }
        requires offset { self.old.place.offset
            + length (flat_map frame_text (frames_in frames.now)) < 2 ^ 64 }
        ensures listed { OnOk result (ListsMore version (frames_in frames.now) self.old self.new
            (K.state sink.old) (K.state sink.new)) }
        ensures fault { IfErr result (λ f. MoreFails f version (frames_in frames.now) self.old
            (K.state sink.old) (K.state sink.new)) }
    {
        let lines = self.lines_of(rt, version, frames)?;
        self.push(sink, &lines)?;
        Ok(())
    }
}
