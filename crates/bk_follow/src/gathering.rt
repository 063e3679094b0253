//! What a feed has come to, and how its bytes are taken one group of frames after another.

ghost use Rattle.std.specs.Prelude.{◌≡◌, ◌<◌, ◌≤◌, [], ℕ, List, length, OnOk, IfOk, IfErr, IsTrue, false};
ghost use Rattle.bk_frames.specs.Device.{Device, CanBeUsed, Ends};
ghost use Rattle.bk_frames.specs.Reading.{room_of};
ghost use Rattle.bk_frames.specs.declared.pulling.TheConstants.{PIECE};
ghost use Rattle.bk_base.specs.Feed.{Frame};
ghost use Rattle.bk_follow.specs.Follower.{FeedFails, HasCome, StaysSettled, Takes, unfed};
ghost use Rattle.bk_follow.specs.Replaying.{ReadFails};
ghost use Rattle.bk_follow.specs.private.Gathering.{HasPulled, HasPulledAll};
ghost use Rattle.bk_follow.specs.private.Parts.{followed};

use crate::fault::Fault;
use crate::opening::{Opened, take};
use crate::pulling::pull_group;
use bk_frames::{Cutter, Source};
use bk_order::HashKey;
use std::alloc::Global;
use std::thread::Threads;

/// What a feed has come to: its bytes are cut, and their whole frames taken.
#[derive(Drop)]
pub(crate) struct Inbox {
    pub(crate) cutter: Cutter,
    pub(crate) opened: Opened,
}

impl Inbox {
    /// Before the first byte. Takes no memory.
    pub(crate) fn new(alloc: Global, key: HashKey) -> Inbox
        ensures { followed result.cutter result.opened ≡ unfed }
    {
        let cutter = Cutter::new(alloc);
        let opened = Opened {
            key,
            committee: None,
            book: None,
        };
        Inbox { cutter, opened }
    }

    /// Takes the next piece of the feed.
    pub(crate) fn feed(
        &mut self,
        rt: &(impl Threads + Sync),
        alloc: Global,
        piece: &[u8],
    ) -> Result<(), Fault>
        requires come { (bytes : List ℕ) × (frames : List Frame)
            × HasCome bytes frames (followed self.old.cutter self.old.opened) }
        ensures takes { OnOk result (Takes (followed self.old.cutter self.old.opened) piece.now
            (followed self.new.cutter self.new.opened)) }
        ensures stays { OnOk result (StaysSettled self.old.opened.book self.new.opened.book) }
        ensures fault { IfErr result
            (λ f. FeedFails (followed self.old.cutter self.old.opened) piece.now f) }
    {
        let frames = self.cutter.feed(piece)?;
        let version = self.cutter.version();
        take(rt, alloc, version, &mut self.opened, frames)?;
        Ok(())
    }

    /// Pulls the next group of frames, and takes it. Returns whether the end of the source was reached.
    pub(crate) fn pull<R: Threads + Sync, S: Source>(
        &mut self,
        rt: &R,
        alloc: Global,
        source: &mut S,
        piece: &mut [u8],
    ) -> Result<bool, Fault>
        requires sound { CanBeUsed (S.state source.old) }
        requires some { 0 < length piece.old }
        requires few { length piece.old ≤ PIECE }
        requires come { (start : Device) × HasPulled start (S.state source.old) [] self.old }
        ensures come { OnOk result ((start : Device)
            → HasPulled start (S.state source.old) [] self.old
            → HasPulled start (S.state source.new) [] self.new) }
        ensures goes_on { IfOk result (λ end. end ≡ false
            → Ends 0 (S.state source.old) (S.state source.new)) }
        ensures all { IfOk result (λ end. IsTrue end → (start : Device)
            → HasPulled start (S.state source.old) [] self.old
            → Ends 0 start (S.state source.old)
            → HasPulledAll start (S.state source.new) [] self.new) }
        ensures nearer { IfOk result (λ end. end ≡ false
            → room_of self.new.cutter < room_of self.old.cutter) }
        ensures stays { OnOk result (StaysSettled self.old.opened.book self.new.opened.book) }
        ensures fault { IfErr result (λ f. (start : Device)
            → HasPulled start (S.state source.old) [] self.old
            → ReadFails f start (S.state source.new)) }
    {
        let mut frames = Vec::new(alloc);
        let end = pull_group(source, piece, &mut self.cutter, &mut frames)?;
        let version = self.cutter.version();
        take(rt, alloc, version, &mut self.opened, frames)?;
        Ok(end)
    }
}
