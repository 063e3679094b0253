//! Writes the answer of a job.

ghost use Rattle.std.specs.Prelude.{◌≡◌};
ghost use Rattle.bk_frames.specs.Device.{CanBeUsed};
ghost use Rattle.bk_jobs.specs.Jobs.{JobEnds};
ghost use Rattle.bk_jobs.specs.Sources.{job_devices};

use crate::chaining::check_links;
use crate::claiming::check_claim;
use crate::comparing::compare_feeds;
use crate::feeds::{apply_all, by_ledger, diagnose, draw_rounds, show};
use crate::following::{follow, follow_some};
use crate::job_end::{Engine, JobEnd};
use crate::listing::list;
use crate::picking::pick;
use crate::queries::reply;
use crate::scheduling::schedule;
use crate::texts::{check, make_feed};
use bk_answer::{AtOnce, Report};
use bk_cli::{Job, JobFault};
use bk_frames::{Sink, Source};
use bk_pool::Gate;
use bk_summary::Summarize;
use std::sync::Wait;
use std::thread::Threads;
use std::time::Clock;

/// Writes the answer of a job.
pub(crate) fn answer<R, G: Gate + Sync, S1: Source, S2: Source, O: Sink>(
    rt: &R,
    job: &Job,
    engine: &Engine<'_, G>,
    first: &mut S1,
    second: &mut S2,
    out: &mut O,
) -> Result<JobEnd, JobFault>
where
    R: AllocGlobal + Clock + Threads + Wait + Sync,
    requires first { CanBeUsed (S1.state first.old) }
    requires second { CanBeUsed (S2.state second.old) }
    requires out { CanBeUsed (O.state out.old) }
    ensures { JobEnds job.now engine.now.terms.strict result
        (job_devices (S1.state first.old) (S2.state second.old) (O.state out.old))
        (job_devices (S1.state first.new) (S2.state second.new) (O.state out.new)) }
{
    match job {
        Job::Run { .. } => by_ledger(rt, engine, first, out, &Report),
        Job::Make { .. } => make_feed(rt, first, out),
        Job::CheckProof { root, account, .. } => check(rt, root.as_bytes(), *account, first, out),
        Job::Ask { asked, .. } => reply(rt, engine, asked, first, out),
        Job::CheckReport { .. } => check_claim(rt, engine, first, second, out),
        Job::Frames { .. } => list(rt, first, out),
        Job::Summary { .. } => {
            let summary = AtOnce { answer: &Summarize };
            by_ledger(rt, engine, first, out, &summary)
        }
        Job::Dag { window, .. } => draw_rounds(rt, engine.terms, *window, first, out),
        Job::Apply { .. } => apply_all(rt, first, out),
        Job::Schedule { workers, .. } => schedule(rt, *workers, first, second, out),
        Job::Compare { .. } => compare_feeds(rt, engine, first, second, out),
        Job::Show { shown, .. } => show(rt, engine, *shown, first, out),
        Job::Pick { shown, .. } => pick(rt, engine, *shown, first, second, out),
        Job::Follow {
            shown,
            accounts: None,
            wait,
            ..
        } => follow(rt, engine, *shown, *wait, first, out),
        Job::Follow {
            shown,
            accounts: Some(_),
            wait,
            ..
        } => follow_some(rt, engine, *shown, *wait, first, second, out),
        Job::Diagnose { sought, .. } => diagnose(rt, engine.terms, *sought, first, out),
        Job::CheckChain { .. } => check_links(rt, first, out),
    }
}
