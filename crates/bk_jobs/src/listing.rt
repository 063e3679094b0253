//! The job that lists the frames of a feed.

ghost use Rattle.std.specs.Prelude.{◌≡◌};
ghost use Rattle.bk_frames.specs.Device.{CanBeUsed};
ghost use Rattle.bk_results.specs.Devices.{devices};
ghost use Rattle.bk_jobs.specs.Jobs.{ListingEnds, flaw_by_rejected, listed_end};

use crate::job_end::JobEnd;
use bk_cli::{Exit, JobFault, Remarks};
use bk_frames::{Sink, Source};
use bk_listing::{Listed, list_frames};
use bk_results::Flaw;
use std::thread::Threads;

// That this number of frames is rejected, where some are.
fn flaw_of(rejected: u64) -> Option<Flaw>
    ensures { result ≡ flaw_by_rejected rejected }
{
    if rejected == 0 {
        return None;
    }
    Some(Flaw::Rejected { frames: rejected })
}

// The end of a list of frames.
fn end_of(listed: &Listed) -> JobEnd
    ensures { result ≡ listed_end listed.now }
{
    JobEnd {
        exit: Exit::Whole,
        absent: None,
        remarks: Remarks {
            first: None,
            second: None,
            forged: listed.forged,
        },
        flaw: flaw_of(listed.rejected),
    }
}

/// Writes a line for each frame, and finds how many are rejected, and whose tag is wrong of the first that is rejected for
/// its tags.
pub(crate) fn list<R: Threads + Sync + AllocGlobal, S: Source, O: Sink>(
    rt: &R,
    source: &mut S,
    out: &mut O,
) -> Result<JobEnd, JobFault>
    requires source { CanBeUsed (S.state source.old) }
    requires out { CanBeUsed (O.state out.old) }
    ensures { ListingEnds result (devices (S.state source.old) (O.state out.old))
        (devices (S.state source.new) (O.state out.new)) }
{
    match list_frames(rt, rt.alloc(), source, out) {
        Ok(listed) => Ok(end_of(&listed)),
        Err(fault) => Err(JobFault::Replay(fault)),
    }
}
