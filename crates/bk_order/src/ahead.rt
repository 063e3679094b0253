//! Groups of frames that are judged ahead, each in a thread of its own.

ghost use Rattle.std.specs.Prelude.{◌≡◌, ◌<◌, ◌≤◌, ◌++◌, ◌∷◌, [], length, OnOk, IfOk, MatchOption};
ghost use Rattle.std.specs.Arc.{arc_value};
ghost use Rattle.bk_frames.specs.Cutting.{frames_in};
ghost use Rattle.bk_order.specs.private.Ahead.{judged_of};

use crate::judging::{JudgedFrames, judge_each};
use bk_base::Kind;
use bk_committee::Committee;
use std::alloc::{AllocError, Global};
use std::marker::Model;
use std::snapshot::Snapshot;
use std::sync::Arc;
use std::thread;
use std::thread::{Promise, PromisedHandle, Threads};

// As many groups are judged at once as there are processors, but no fewer and no more than this.
const FEWEST: usize = 2;

const MOST: usize = 16;

// What a thread judges. It has no bytes.
#[derive(Drop)]
pub(crate) struct FramesOf {
    pub committee: Snapshot<Committee>,
    pub frames: Snapshot<Vec<(Kind, Vec<u8>)>>,
}

impl Promise<Result<JudgedFrames, AllocError>> for FramesOf {
    ghost use Rattle.std.specs.Prelude.{◌≡◌, IfOk};
    ghost use Rattle.bk_order.specs.private.Ahead.{judged_of};

    ghost kept_by = { λ of r. IfOk r (λ j. j ≡ judged_of of) };
}

// A group that a thread judges, or that was judged because none could be started.
#[derive(Drop)]
pub(crate) enum Work {
    There(PromisedHandle<Result<JudgedFrames, AllocError>, FramesOf>),
    Here(JudgedFrames),
}

// A group of frames that is judged.
#[derive(Drop)]
pub(crate) struct Group {
    pub of: FramesOf,
    pub work: Work,
}

impl Model for Group {
    ghost use Rattle.bk_order.specs.Ahead.{JudgedValue};
    ghost use Rattle.bk_order.specs.private.Ahead.{judged_of};
    ghost use Rattle.bk_order.specs.private.Works.{IsWorkOf};

    ghost Value = { JudgedValue };

    ghost view = { λ g. judged_of g.of };

    ghost invariant = { λ g. IsWorkOf g.of g.work };
}

/// Groups of frames that are judged ahead, in the order of the feed. Contracts see the frames of each, the committee
/// that they are judged by, and how many groups are judged before the first is taken.
///
/// A group has a thread of its own, which is joined by the call that takes the group out, and otherwise by `wait`. Where
/// a value of this type is dropped, its threads run on.
#[derive(Drop)]
pub struct Ahead {
    alloc: Global,
    committee: Arc<Committee>,
    most: usize,
    groups: Vec<Group>,
}

impl Model for Ahead {
    ghost use Rattle.std.specs.Prelude.{◌≡◌, ◌≤◌, map};
    ghost use Rattle.std.specs.List.{All};
    ghost use Rattle.std.specs.Arc.{arc_value};
    ghost use Rattle.bk_order.specs.Ahead.{AheadValue};

    ghost Value = { AheadValue };

    ghost view = { λ a. record { committee = arc_value a.committee; most = a.most; groups = map (λ g. g.frames) a.groups.items } };

    ghost invariant = { λ a. (1 ≤ a.most)
        × All (λ g. g.committee ≡ arc_value a.committee) a.groups.items };
}

fn frames_of(committee: &Committee, frames: &Vec<(Kind, Vec<u8>)>) -> FramesOf
    ensures committee { result.committee.value ≡ committee.now }
    ensures frames { result.frames.value ≡ frames.now }
{
    FramesOf {
        committee: Snapshot::of(committee),
        frames: Snapshot::of(frames),
    }
}

// Judges a group on the thread that calls it.
fn judge_group(
    alloc: Global,
    committee: Arc<Committee>,
    frames: Vec<(Kind, Vec<u8>)>,
) -> Result<JudgedFrames, AllocError>
    ensures committee { IfOk result (λ j. j.committee ≡ arc_value committee) }
    ensures frames { IfOk result (λ j. j.frames ≡ frames_in frames.items) }
{
    judge_each(alloc, &committee, frames)
}

// Starts a thread that judges a group; where none can be started, the group is judged here.
fn begin(
    rt: &impl Threads,
    alloc: Global,
    committee: &Arc<Committee>,
    frames: Vec<(Kind, Vec<u8>)>,
) -> Result<Group, AllocError>
    ensures committee { IfOk result (λ g. g.committee ≡ arc_value committee.now) }
    ensures frames { IfOk result (λ g. g.frames ≡ frames_in frames.items) }
{
    let of = frames_of(committee, &frames);
    let promise = frames_of(committee, &frames);
    let theirs = Arc::try_clone(committee)?;
    let work = match thread::spawn_with(rt, promise, move || judge_group(alloc, theirs, frames)) {
        Ok(handle) => Work::There(handle),
        Err(refused) => Work::Here((refused.value)()?),
    };
    Ok(Group { of, work })
}

impl Group {
    // Waits until the group is judged.
    fn end(self, rt: &impl Threads) -> Result<JudgedFrames, AllocError>
        ensures { IfOk result (λ j. j ≡ self) }
    {
        let Group { of: _, work } = self;
        match work {
            Work::There(handle) => handle.join(rt),
            Work::Here(judged) => Ok(judged),
        }
    }
}

impl Ahead {
    /// No group is judged.
    pub fn new(rt: &impl Threads, alloc: Global, committee: &Committee) -> Result<Ahead, AllocError>
        ensures committee { IfOk result (λ a. a.committee ≡ committee.now) }
        ensures none { IfOk result (λ a. a.groups ≡ []) }
    {
        let most = match thread::available_parallelism(rt) {
            Ok(count) => count.get().clamp(FEWEST, MOST),
            Err(_) => FEWEST,
        };
        let committee = Arc::new(alloc, committee.try_clone(alloc)?)?;
        Ok(Ahead {
            alloc,
            committee,
            most,
            groups: Vec::new(alloc),
        })
    }

    /// Judges the next frames, as a group behind the others. An `Err` comes only where memory runs out, and no thread
    /// is started then.
    pub fn push(
        &mut self,
        rt: &impl Threads,
        frames: Vec<(Kind, Vec<u8>)>,
    ) -> Result<(), AllocError>
        ensures committee { self.new.committee ≡ self.old.committee }
        ensures most { self.new.most ≡ self.old.most }
        ensures pushed { OnOk result
            (self.new.groups ≡ self.old.groups ++ frames_in frames.items ∷ []) }
    {
        // Before the thread starts, so that each is in the list that joins it.
        self.groups.reserve(1)?;
        let group = begin(rt, self.alloc, &self.committee, frames)?;
        self.groups.push_reserved(group);
        Ok(())
    }

    /// Takes the first group out, once it is judged; `None` where there is none.
    pub fn pop(&mut self, rt: &impl Threads) -> Result<Option<JudgedFrames>, AllocError>
        ensures committee { self.new.committee ≡ self.old.committee }
        ensures most { self.new.most ≡ self.old.most }
        ensures by { IfOk result (λ found. MatchOption found (self.new ≡ self.old)
            (λ j. j.committee ≡ self.old.committee)) }
        ensures popped { IfOk result (λ found. MatchOption found (self.old.groups ≡ [])
            (λ j. self.old.groups ≡ j.frames ∷ self.new.groups)) }
    {
        if self.groups.is_empty() {
            return Ok(None);
        }
        let judged = self.groups.remove(0).end(rt)?;
        Ok(Some(judged))
    }

    /// Takes the first group out, once it is judged, where as many are judged as there are processors, from 2 to 16;
    /// `None` where there are fewer.
    pub fn pop_full(&mut self, rt: &impl Threads) -> Result<Option<JudgedFrames>, AllocError>
        ensures committee { self.new.committee ≡ self.old.committee }
        ensures most { self.new.most ≡ self.old.most }
        ensures by { IfOk result (λ found. MatchOption found (self.new ≡ self.old)
            (λ j. j.committee ≡ self.old.committee)) }
        ensures popped { IfOk result (λ found. MatchOption found (self.new.groups ≡ self.old.groups)
            (λ j. self.old.groups ≡ j.frames ∷ self.new.groups)) }
        ensures full { IfOk result (λ found. MatchOption found
            (length self.old.groups < self.old.most)
            (λ _. self.old.most ≤ length self.old.groups)) }
    {
        if self.groups.len() < self.most {
            return Ok(None);
        }
        let found = self.pop(rt)?;
        Ok(found)
    }

    /// Waits for the threads, and drops what they found.
    pub fn wait(self, rt: &impl Threads) {
        let Ahead {
            alloc: _,
            committee: _,
            most: _,
            groups,
        } = self;
        for group in groups {
            drop(group.end(rt));
        }
    }
}
