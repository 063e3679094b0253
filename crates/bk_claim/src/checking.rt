//! The verdict on a claim, from the bytes of a feed to the text.

ghost use Rattle.std.specs.Prelude.{◌≡◌, ℕ, List, true, false, None, IfOk, IfErr, OnOk};
ghost use Rattle.bk_claim.specs.Claims.{AllWork, ClaimFailsBy, GaveEnough, OfBoth, ShowsVerdict, VerdictIsOut, claim_devices, good};
ghost use Rattle.bk_claim.specs.private.Judging.{HoldFailsBy, JudgeFailsBy, ShownIsOut};
ghost use Rattle.bk_answer.specs.Flaws.{IsFlaw};
ghost use Rattle.bk_answer.specs.RunReport.{IsReport};
ghost use Rattle.bk_frames.specs.Device.{CanBeUsed, Works, GaveAll};
ghost use Rattle.bk_results.specs.Devices.{devices};

use crate::comparing::compare_claim;
use crate::verdict::{ClaimStop, Verdict};
use crate::wording::found_text;
use bk_answer::{Ended, Judged, Report};
use bk_follow::{Settings, answer_by_ledger};
use bk_frames::{Counted, Sink, Source, push_all};
use bk_pool::Gate;
use bk_results::{Fault, Status};
use std::alloc::Global;
use std::sync::Wait;
use std::thread::Threads;

// Holds the report of a feed in memory, and what keeps the feed from counting whole, where this is asked for.
fn hold_report<R: Threads + Wait + Sync, S: Source, G: Gate + Sync>(
    rt: &R,
    alloc: Global,
    feed: &mut S,
    settings: Settings,
    gate: &G,
    strict: bool,
) -> Result<(Vec<u8>, Ended<Status>), Fault>
    requires feed { CanBeUsed (S.state feed.old) }
    ensures report { IfOk result (λ r. GaveAll (S.state feed.old) (S.state feed.new)
        (λ bytes. IsReport bytes r.0.items r.1.end)) }
    ensures flaw { IfOk result (λ r. strict ≡ true → GaveAll (S.state feed.old) (S.state feed.new)
        (λ bytes. IsFlaw bytes r.1.flaw)) }
    ensures unasked { IfOk result (λ r. strict ≡ false → r.1.flaw ≡ None) }
    ensures works { OnOk result (Works (S.state feed.old) (S.state feed.new)) }
    ensures fault { IfErr result (λ f. HoldFailsBy f (S.state feed.old) (S.state feed.new)) }
{
    let mut held = Counted::new(Vec::new(alloc));
    let asked = Judged {
        answer: &Report,
        strict,
        last: false,
    };
    match answer_by_ledger(rt, alloc, feed, &mut held, settings, gate, &asked) {
        Ok(ended) => Ok((held.into_inner(), ended)),
        // Memory takes all that there is room for.
        Err(Fault::Write { .. }) => Err(Fault::Memory),
        Err(fault) => Err(fault),
    }
}

// The verdict on a claim that is the report.
fn good(status: Status) -> Verdict
    ensures { (right : List ℕ) → ShowsVerdict right right status result good }
{
    match status {
        Status::Whole => Verdict::Good,
        Status::Missing => Verdict::Short,
    }
}

// Writes the verdict on a claim beside the report.
fn judge<S: Source, K: Sink>(
    alloc: Global,
    right: &[u8],
    status: Status,
    claimed: &mut S,
    sink: &mut K,
) -> Result<Verdict, ClaimStop>
    requires claimed { CanBeUsed (S.state claimed.old) }
    requires sink { CanBeUsed (K.state sink.old) }
    ensures given { IfOk result (λ v. GaveEnough (S.state claimed.old) (S.state claimed.new)
        (ShownIsOut right.now status v (K.state sink.old) (K.state sink.new))) }
    ensures works { OnOk result (Works (S.state claimed.old) (S.state claimed.new)
        × Works (K.state sink.old) (K.state sink.new)) }
    ensures stop { IfErr result (λ e. JudgeFailsBy right.now status e
        (devices (S.state claimed.old) (K.state sink.old))
        (devices (S.state claimed.new) (K.state sink.new))) }
{
    match compare_claim(alloc, right, claimed)? {
        Some(found) => {
            let text = found_text(alloc, right, &found)?;
            push_all(sink, &text)?;
            Ok(Verdict::Differs)
        }
        None => {
            push_all(sink, b"report good\n")?;
            Ok(good(status))
        }
    }
}

/// Reads a feed, executes the batches of its order, and compares its report byte for byte with what is claimed to be the report. Writes the verdict: `report good`; or `report differs at line N`, and what
/// both have there.
///
/// The feed's report is held in memory. The claim is not: it is read in pieces, and no further than to the first line
/// that differs or that is shown. Nothing is read of it before the feed is found to have a report. The whole verdict is
/// known before anything is written, and with every stop but `Run(Fault::Write)` nothing is written. Where it is asked for,
/// what keeps the feed from counting whole comes with the verdict.
pub fn check_report<R: Threads + Wait + Sync, S1: Source, S2: Source, K: Sink, G: Gate + Sync>(
    rt: &R,
    alloc: Global,
    feed: &mut S1,
    claimed: &mut S2,
    sink: &mut K,
    settings: Settings,
    gate: &G,
    strict: bool,
) -> Result<Ended<Verdict>, ClaimStop>
    requires feed { CanBeUsed (S1.state feed.old) }
    requires claimed { CanBeUsed (S2.state claimed.old) }
    requires sink { CanBeUsed (K.state sink.old) }
    ensures verdict { IfOk result (λ v. OfBoth
        (claim_devices (S1.state feed.old) (S2.state claimed.old) (K.state sink.old))
        (claim_devices (S1.state feed.new) (S2.state claimed.new) (K.state sink.new))
        (VerdictIsOut v.end (K.state sink.old) (K.state sink.new))) }
    ensures flaw { IfOk result (λ v. strict ≡ true → GaveAll (S1.state feed.old) (S1.state feed.new)
        (λ bytes. IsFlaw bytes v.flaw)) }
    ensures unasked { IfOk result (λ v. strict ≡ false → v.flaw ≡ None) }
    ensures work { OnOk result (AllWork
        (claim_devices (S1.state feed.old) (S2.state claimed.old) (K.state sink.old))
        (claim_devices (S1.state feed.new) (S2.state claimed.new) (K.state sink.new))) }
    ensures stop { IfErr result (λ e. ClaimFailsBy e
        (claim_devices (S1.state feed.old) (S2.state claimed.old) (K.state sink.old))
        (claim_devices (S1.state feed.new) (S2.state claimed.new) (K.state sink.new))) }
{
    let (right, ended) = hold_report(rt, alloc, feed, settings, gate, strict)?;
    match judge(alloc, &right, ended.end, claimed, sink) {
        Ok(verdict) => Ok(Ended {
            end: verdict,
            flaw: ended.flaw,
        }),
        Err(stop) => Err(stop),
    }
}
