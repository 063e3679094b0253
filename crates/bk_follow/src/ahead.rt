//! A feed whose book is open: some frames are judged, while those after them are pulled and those before them taken.

ghost use Rattle.std.specs.Prelude.{◌≡◌, ◌<◌, ◌≤◌, ℕ, List, length, OnOk, IfOk, IfErr, IsTrue, false};
ghost use Rattle.bk_base.specs.Feed.{Frame};
ghost use Rattle.bk_frames.specs.Device.{Device, CanBeUsed, Ends};
ghost use Rattle.bk_frames.specs.Reading.{room_of};
ghost use Rattle.bk_frames.specs.declared.pulling.TheConstants.{PIECE};
ghost use Rattle.bk_follow.specs.Replaying.{ReadFails};
ghost use Rattle.bk_follow.specs.Follower.{StaysSettled};
ghost use Rattle.bk_follow.specs.private.Ahead.{CanTakeJudged, HasPulledAhead, IsOpenFor, TakesJudged, frames_ahead};
ghost use Rattle.bk_follow.specs.private.Gathering.{CanPull, HasGathered, HasPulledAll, HasPulledGroup, TakesAll};

use crate::fault::Fault;
use crate::gathering::Inbox;
use crate::opening::Opened;
use crate::pulling::pull_group;
use bk_base::Kind;
use bk_frames::{Cutter, FeedFault, Source};
use bk_order::{Ahead, JudgedFrames};
use std::alloc::{AllocError, Global};
use std::thread::{Threads, join_mut};

// Takes frames that were judged, if there are any.
fn take_judged(opened: &mut Opened, judged: Option<JudgedFrames>) -> Result<(), AllocError>
    requires come { CanTakeJudged judged opened.old }
    ensures takes { OnOk result (TakesJudged judged opened.old opened.new) }
    ensures stays { OnOk result (StaysSettled opened.old.book opened.new.book) }
{
    let Some(judged) = judged else {
        return Ok(());
    };
    let Some(book) = &mut opened.book else {
        unreachable!()
    };
    book.take_judged(judged)?;
    Ok(())
}

// Takes frames that were judged. Beside that, it pulls the next ones.
fn take_beside<R: Threads + Sync, S: Source>(
    rt: &R,
    judged: &mut Option<JudgedFrames>,
    opened: &mut Opened,
    source: &mut S,
    piece: &mut [u8],
    cutter: &mut Cutter,
    frames: &mut Vec<(Kind, Vec<u8>)>,
) -> (Result<(), AllocError>, Result<bool, FeedFault>)
    requires come { CanTakeJudged judged.old opened.old }
    requires sound { CanBeUsed (S.state source.old) }
    requires some { 0 < length piece.old }
    requires few { length piece.old ≤ PIECE }
    requires pulled { CanPull (S.state source.old) frames.old.items cutter.old }
    ensures took { OnOk result.0 (TakesJudged judged.old opened.old opened.new
        × StaysSettled opened.old.book opened.new.book) }
    ensures pulled { HasPulledGroup result.1 (S.state source.old) (S.state source.new)
        frames.old.items frames.new.items cutter.old cutter.new }
{
    join_mut(
        rt,
        &mut || -> Result<(), AllocError>
            requires { CanTakeJudged judged.now opened.now }
            ensures { OnOk result (TakesJudged judged.entry.now opened.entry.now opened.exit.now
                × StaysSettled opened.entry.now.book opened.exit.now.book) }
        {
            take_judged(opened, judged.take())?;
            Ok(())
        },
        &mut || -> Result<bool, FeedFault>
            requires { CanBeUsed (S.state source.now) × (0 < length piece.now)
                × (length piece.now ≤ PIECE)
                × CanPull (S.state source.now) frames.now.items cutter.now }
            ensures { HasPulledGroup result (S.state source.entry.now) (S.state source.exit.now)
                frames.entry.now.items frames.exit.now.items cutter.entry.now cutter.exit.now }
        { pull_group(source, piece, cutter, frames) },
    )
}

impl Inbox {
    /// Pulls the next group of frames, which is judged from then on. Beside that it takes the first that is judged, where
    /// enough are. Returns whether the end of the source was reached.
    ///
    /// A fault of the bytes comes before memory that runs out beside it.
    pub(crate) fn pull_ahead<R: Threads + Sync, S: Source>(
        &mut self,
        rt: &R,
        alloc: Global,
        source: &mut S,
        piece: &mut [u8],
        ahead: &mut Ahead,
    ) -> Result<bool, Fault>
        requires sound { CanBeUsed (S.state source.old) }
        requires some { 0 < length piece.old }
        requires few { length piece.old ≤ PIECE }
        requires come { (start : Device)
            × HasPulledAhead start (S.state source.old) ahead.old self.old }
        ensures come { OnOk result ((start : Device)
            → HasPulledAhead start (S.state source.old) ahead.old self.old
            → HasPulledAhead start (S.state source.new) ahead.new self.new) }
        ensures goes_on { IfOk result (λ end. end ≡ false
            → Ends 0 (S.state source.old) (S.state source.new)) }
        ensures all { IfOk result (λ end. IsTrue end → (start : Device)
            → HasPulledAhead start (S.state source.old) ahead.old self.old
            → Ends 0 start (S.state source.old)
            → HasPulledAll start (S.state source.new) (frames_ahead ahead.new) self.new) }
        ensures nearer { IfOk result (λ end. end ≡ false
            → room_of self.new.cutter < room_of self.old.cutter) }
        ensures stays { OnOk result (StaysSettled self.old.opened.book self.new.opened.book) }
        ensures fault { IfErr result (λ f. (start : Device)
            → HasPulledAhead start (S.state source.old) ahead.old self.old
            → ReadFails f start (S.state source.new)) }
    {
        let mut judged = ahead.pop_full(rt)?;
        let mut frames = Vec::new(alloc);
        let Inbox { cutter, opened } = self;
        let (took, pulled) = take_beside(
            rt,
            &mut judged,
            opened,
            source,
            piece,
            cutter,
            &mut frames,
        );
        let end = pulled?;
        took?;
        ahead.push(rt, frames)?;
        Ok(end)
    }

    /// Takes all frames that are judged.
    pub(crate) fn take_ahead(
        &mut self,
        rt: &impl Threads,
        ahead: &mut Ahead,
    ) -> Result<(), AllocError>
        requires come { (bytes : List ℕ) × (taken : List Frame)
            × HasGathered bytes taken (frames_ahead ahead.old) self.old
            × IsOpenFor ahead.old.committee self.old.opened }
        ensures takes { OnOk result (TakesAll (frames_ahead ahead.old) self.old self.new) }
        ensures stays { OnOk result (StaysSettled self.old.opened.book self.new.opened.book) }
    {
        'groups: loop {
            match ahead.pop(rt)? {
                Some(judged) => take_judged(&mut self.opened, Some(judged))?,
                None => return Ok(()),
            }
        }
    }
}
