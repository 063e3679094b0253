ghost use Rattle.std.specs.Prelude.{◌≡◌, ◌<◌, ◌≤◌, [], length, true, false, None, OnOk, IfOk, IfErr, IsTrue};
ghost use Rattle.bk_answer.specs.Answers.{AnswerFailsBy, IsAnswered};
ghost use Rattle.bk_answer.specs.RunReport.{IsReportOf};
ghost use Rattle.bk_frames.specs.Device.{CanBeUsed, Device, Ends, Works, GaveAll};
ghost use Rattle.bk_follow.specs.Follower.{StaysSettled, broken, unfed};
ghost use Rattle.bk_results.specs.Devices.{devices};
ghost use Rattle.bk_follow.specs.Replaying.{ReadFails, AllHasCome};
ghost use Rattle.bk_follow.specs.private.Ahead.{HasBook, HasPulledAhead, IsOpenFor};
ghost use Rattle.bk_follow.specs.private.Gathering.{HasPulled, HasPulledAll};
ghost use Rattle.bk_follow.specs.private.Parts.{followed};
ghost use Rattle.bk_frames.specs.declared.pulling.TheConstants.{PIECE};

use crate::answering::answer_by_ledger;
use crate::fault::Fault;
use crate::follower::{Follower, latch};
use crate::gathering::Inbox;
use crate::opening::Opened;
use crate::settings::Settings;
use bk_answer::Report;
use bk_frames::{Sink, Source};
use bk_order::Ahead;
use bk_pool::Gate;
use bk_results::Status;
use std::alloc::{AllocError, Global};
use std::sync::Wait;
use std::thread::Threads;

// Takes a feed until its book is open. Returns whether its end was reached before.
fn pull_opening<R: Threads + Sync, S: Source>(
    rt: &R,
    alloc: Global,
    source: &mut S,
    piece: &mut [u8],
    gathered: &mut Inbox,
) -> Result<bool, Fault>
    requires sound { CanBeUsed (S.state source.old) }
    requires some { 0 < length piece.old }
    requires few { length piece.old ≤ PIECE }
    requires first { followed gathered.old.cutter gathered.old.opened ≡ unfed }
    ensures come { OnOk result (HasPulled (S.state source.old) (S.state source.new)
        [] gathered.new) }
    ensures open { IfOk result (λ end. end ≡ false → HasBook gathered.new.opened
        × Ends 0 (S.state source.old) (S.state source.new)) }
    ensures all { IfOk result (λ end. IsTrue end
        → HasPulledAll (S.state source.old) (S.state source.new) [] gathered.new) }
    ensures stays { OnOk result (StaysSettled gathered.old.opened.book gathered.new.opened.book) }
    ensures fault { IfErr result (λ f. ReadFails f (S.state source.old) (S.state source.new)) }
{
    // The label names the loop for its proof.
    'groups: loop {
        if gathered.pull(rt, alloc, source, piece)? {
            return Ok(true);
        }
        if gathered.opened.book.is_some() {
            return Ok(false);
        }
    }
}

// Of the book that is open nothing is judged ahead yet.
fn ahead_of(rt: &impl Threads, alloc: Global, opened: &Opened) -> Result<Ahead, AllocError>
    requires open { HasBook opened.now }
    ensures open { IfOk result (λ a. IsOpenFor a.committee opened.now) }
    ensures none { IfOk result (λ a. a.groups ≡ []) }
{
    let Some(book) = &opened.book else {
        unreachable!()
    };
    let ahead = Ahead::new(rt, alloc, book.intake.committee())?;
    Ok(ahead)
}

// Takes what is left of a feed whose book is open.
fn pull_rest<R: Threads + Sync, S: Source>(
    rt: &R,
    alloc: Global,
    source: &mut S,
    piece: &mut [u8],
    gathered: &mut Inbox,
    ahead: &mut Ahead,
) -> Result<(), Fault>
    requires sound { CanBeUsed (S.state source.old) }
    requires some { 0 < length piece.old }
    requires few { length piece.old ≤ PIECE }
    requires come { (start : Device)
        × HasPulledAhead start (S.state source.old) ahead.old gathered.old }
    ensures all { OnOk result ((start : Device)
        → HasPulledAhead start (S.state source.old) ahead.old gathered.old
        → Ends 0 start (S.state source.old) → Works start (S.state source.new)
        × HasPulledAll start (S.state source.new) [] gathered.new) }
    ensures stays { OnOk result (StaysSettled gathered.old.opened.book gathered.new.opened.book) }
    ensures fault { IfErr result (λ f. (start : Device)
        → HasPulledAhead start (S.state source.old) ahead.old gathered.old
        → ReadFails f start (S.state source.new)) }
{
    'groups: loop {
        if gathered.pull_ahead(rt, alloc, source, piece, ahead)? {
            gathered.take_ahead(rt, ahead)?;
            return Ok(());
        }
    }
}

// Takes all that a source has.
fn pull_all<R: Threads + Sync, S: Source>(
    rt: &R,
    alloc: Global,
    source: &mut S,
    piece: &mut [u8],
    gathered: &mut Inbox,
) -> Result<(), Fault>
    requires sound { CanBeUsed (S.state source.old) }
    requires some { 0 < length piece.old }
    requires few { length piece.old ≤ PIECE }
    requires first { followed gathered.old.cutter gathered.old.opened ≡ unfed }
    ensures works { OnOk result (Works (S.state source.old) (S.state source.new)) }
    ensures all { OnOk result (HasPulledAll (S.state source.old) (S.state source.new)
        [] gathered.new) }
    ensures stays { OnOk result (StaysSettled gathered.old.opened.book gathered.new.opened.book) }
    ensures fault { IfErr result (λ f. ReadFails f (S.state source.old) (S.state source.new)) }
{
    if pull_opening(rt, alloc, source, piece, gathered)? {
        return Ok(());
    }
    let mut ahead = ahead_of(rt, alloc, &gathered.opened)?;
    let pulled = pull_rest(rt, alloc, source, piece, gathered, &mut ahead);
    ahead.wait(rt);
    pulled?;
    Ok(())
}

impl Follower {
    /// Follows all that a source has, where nothing has come before, and settles nothing of it. The piece is room for its
    /// bytes.
    ///
    /// A fault is returned again by every later call.
    pub fn follow<R: Threads + Sync, S: Source>(
        &mut self,
        rt: &R,
        source: &mut S,
        piece: &mut [u8],
    ) -> Result<(), Fault>
        requires sound { CanBeUsed (S.state source.old) }
        requires some { 0 < length piece.old }
        requires few { length piece.old ≤ PIECE }
        requires first { self.old ≡ unfed }
        ensures works { OnOk result (Works (S.state source.old) (S.state source.new)
            × (self.new.fault ≡ None)) }
        ensures come { OnOk result (GaveAll (S.state source.old) (S.state source.new)
            (λ bytes. AllHasCome bytes self.new)) }
        ensures stays { OnOk result (StaysSettled self.old.book self.new.book) }
        ensures broken { IfErr result (λ f. self.new ≡ broken f) }
        ensures fault { IfErr result (λ f. ReadFails f (S.state source.old) (S.state source.new)) }
    {
        match pull_all(rt, self.alloc, source, piece, &mut self.gathered) {
            Ok(()) => Ok(()),
            Err(fault) => Err(latch(self.alloc, &mut self.gathered, &mut self.fault, fault)),
        }
    }
}

/// Reads a feed, finds its committed order, executes the order's batches by threads as the settings say, and writes
/// the report of the run.
///
/// However many workers there are, and however they run, the report is the one that the definitions read off the feed's
/// frames as a set and the transactions one at a time. The whole feed is read before anything is written, and with
/// every fault but `Write` nothing is written.
pub fn replay<R: Threads + Wait + Sync, S: Source, K: Sink, G: Gate + Sync>(
    rt: &R,
    alloc: Global,
    source: &mut S,
    sink: &mut K,
    settings: Settings,
    gate: &G,
) -> Result<Status, Fault>
    requires source { CanBeUsed (S.state source.old) }
    requires sink { CanBeUsed (K.state sink.old) }
    ensures report { IfOk result (λ status. IsAnswered IsReportOf status
        (devices (S.state source.old) (K.state sink.old))
        (devices (S.state source.new) (K.state sink.new))) }
    ensures fault { IfErr result (λ f. AnswerFailsBy IsReportOf true f
        (devices (S.state source.old) (K.state sink.old))
        (devices (S.state source.new) (K.state sink.new))) }
{
    answer_by_ledger(rt, alloc, source, sink, settings, gate, &Report)
}
