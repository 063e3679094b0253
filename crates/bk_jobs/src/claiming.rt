//! The job that checks whether a text is the report of a feed.

ghost use Rattle.std.specs.Prelude.{◌≡◌};
ghost use Rattle.bk_frames.specs.Device.{CanBeUsed};
ghost use Rattle.bk_jobs.specs.Jobs.{ClaimEnds};
ghost use Rattle.bk_jobs.specs.Reports.{exit_by_verdict, fault_by_stop};
ghost use Rattle.bk_jobs.specs.Sources.{job_devices};

use crate::job_end::{Engine, JobEnd};
use bk_claim::{ClaimStop, Verdict, check_report};
use bk_cli::{Exit, JobFault};
use bk_frames::{Sink, Source};
use bk_pool::Gate;
use bk_script::ScriptFault;
use std::sync::Wait;
use std::thread::Threads;

// The exit after a verdict.
fn exit_by(verdict: Verdict) -> Exit
    ensures { result ≡ exit_by_verdict verdict }
{
    match verdict {
        Verdict::Good => Exit::Whole,
        Verdict::Short => Exit::Missing,
        Verdict::Differs => Exit::No,
    }
}

// The fault of a check that came to no verdict.
fn fault_of(stop: ClaimStop) -> JobFault
    ensures { result ≡ fault_by_stop stop }
{
    match stop {
        ClaimStop::Run(fault) => JobFault::Replay(fault),
        ClaimStop::Unread => JobFault::Text(ScriptFault::Read),
    }
}

/// Writes the verdict on whether a text is the report of a feed. The text is read once the feed's report is made.
pub(crate) fn check_claim<R, G: Gate + Sync, S1: Source, S2: Source, O: Sink>(
    rt: &R,
    engine: &Engine<'_, G>,
    feed: &mut S1,
    claimed: &mut S2,
    out: &mut O,
) -> Result<JobEnd, JobFault>
where
    R: Threads + Wait + Sync + AllocGlobal,
    requires feed { CanBeUsed (S1.state feed.old) }
    requires claimed { CanBeUsed (S2.state claimed.old) }
    requires out { CanBeUsed (O.state out.old) }
    ensures { ClaimEnds engine.now.terms.strict result
        (job_devices (S1.state feed.old) (S2.state claimed.old) (O.state out.old))
        (job_devices (S1.state feed.new) (S2.state claimed.new) (O.state out.new)) }
{
    let Engine { terms, gate, .. } = *engine;
    let settings = engine.settings();
    match check_report(
        rt,
        rt.alloc(),
        feed,
        claimed,
        out,
        settings,
        gate,
        terms.strict,
    ) {
        Ok(ended) => Ok(JobEnd::with(exit_by(ended.end), ended.flaw)),
        Err(stop) => Err(fault_of(stop)),
    }
}
