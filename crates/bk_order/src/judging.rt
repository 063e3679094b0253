//! Frames that are judged before anything of them is kept.

ghost use Rattle.std.specs.Prelude.{◌≡◌, IfOk};
ghost use Rattle.bk_frames.specs.Cutting.{frames_in};

use bk_base::Kind;
use bk_certcheck::{Found, find_all, find_each};
use bk_committee::Committee;
use std::alloc::{AllocError, Global};
use std::marker::Model;
use std::snapshot::Snapshot;
use std::thread::Threads;

/// Frames that were judged. Contracts see the frames and the committee that they were judged by.
#[derive(Drop)]
pub struct JudgedFrames {
    pub(crate) committee: Snapshot<Committee>,
    pub(crate) frames: Vec<(Kind, Vec<u8>)>,
    pub(crate) found: Vec<Found>,
}

impl Model for JudgedFrames {
    ghost use Rattle.std.specs.List.{AllZip};
    ghost use Rattle.bk_frames.specs.Cutting.{frames_in};
    ghost use Rattle.bk_certcheck.specs.Frames.{IsFound};
    ghost use Rattle.bk_order.specs.Ahead.{JudgedValue};

    ghost Value = { JudgedValue };

    ghost view = { λ j. record { committee = j.committee.value; frames = frames_in j.frames.items } };

    ghost invariant = { λ j. AllZip (IsFound j.committee.value)
        (frames_in j.frames.items) j.found.items };
}

/// Judges frames on as many threads as there are processors.
pub(crate) fn judge_all(
    rt: &(impl Threads + Sync),
    alloc: Global,
    committee: &Committee,
    frames: Vec<(Kind, Vec<u8>)>,
) -> Result<JudgedFrames, AllocError>
    ensures committee { IfOk result (λ j. j.committee ≡ committee.now) }
    ensures frames { IfOk result (λ j. j.frames ≡ frames_in frames.items) }
{
    let found = find_all(rt, alloc, committee, &frames)?;
    let committee = Snapshot::of(committee);
    Ok(JudgedFrames {
        committee,
        frames,
        found,
    })
}

/// Judges frames on the calling thread.
pub(crate) fn judge_each(
    alloc: Global,
    committee: &Committee,
    frames: Vec<(Kind, Vec<u8>)>,
) -> Result<JudgedFrames, AllocError>
    ensures committee { IfOk result (λ j. j.committee ≡ committee.now) }
    ensures frames { IfOk result (λ j. j.frames ≡ frames_in frames.items) }
{
    let found = find_each(alloc, committee, &frames)?;
    let committee = Snapshot::of(committee);
    Ok(JudgedFrames {
        committee,
        frames,
        found,
    })
}
