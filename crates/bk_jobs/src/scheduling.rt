//! Jobs that execute a feed by a list of events.

ghost use Rattle.std.specs.Prelude.{◌≡◌, slice_index_or};
ghost use Rattle.bk_frames.specs.Device.{CanBeUsed};
ghost use Rattle.bk_jobs.specs.Jobs.{ScheduleEnds};
ghost use Rattle.bk_jobs.specs.Schedules.{fault_at};
ghost use Rattle.bk_jobs.specs.Sources.{job_devices};

use crate::job_end::JobEnd;
use bk_apply::{ScheduleStop, apply_schedule};
use bk_base::Workers;
use bk_cli::{Exit, JobFault, ListFault};
use bk_frames::{Sink, Source};
use bk_results::Fault;
use bk_script::read_events;
use bk_steps::ScheduleFault;

// The line of the event at an index, which is that of one; 0 where it is not.
fn line_at(lines: &[u32], index: usize) -> u32
    ensures { result ≡ slice_index_or lines.now index 0 }
{
    match lines.get(index) {
        Some(line) => *line,
        None => 0,
    }
}

// The fault of the job: an event is named by its line.
fn fault_at(stop: ScheduleStop, lines: &[u32]) -> JobFault
    ensures { result ≡ fault_at stop lines.now }
{
    match stop {
        ScheduleStop::Fault(fault) => JobFault::Replay(fault),
        ScheduleStop::Schedule(ScheduleFault::Refused { index, code }) => {
            let line = line_at(lines, index);
            JobFault::Events(ListFault::Refused { line, code })
        }
        ScheduleStop::Schedule(ScheduleFault::Unfinished(place)) => {
            JobFault::Events(ListFault::Unfinished { place })
        }
        ScheduleStop::Schedule(ScheduleFault::OutOfMemory) => JobFault::Replay(Fault::Memory),
    }
}

/// Writes the apply report of a feed, executed by a list of events, which is read and judged before the feed is.
pub(crate) fn schedule<R: AllocGlobal, S1: Source, S2: Source, O: Sink>(
    rt: &R,
    workers: Workers,
    feed: &mut S1,
    events: &mut S2,
    out: &mut O,
) -> Result<JobEnd, JobFault>
    requires feed { CanBeUsed (S1.state feed.old) }
    requires events { CanBeUsed (S2.state events.old) }
    requires out { CanBeUsed (O.state out.old) }
    ensures { ScheduleEnds workers result
        (job_devices (S1.state feed.old) (S2.state events.old) (O.state out.old))
        (job_devices (S1.state feed.new) (S2.state events.new) (O.state out.new)) }
{
    let listed = match read_events(rt.alloc(), events) {
        Ok(listed) => listed,
        Err(fault) => return Err(JobFault::Events(ListFault::Unread(fault))),
    };
    match apply_schedule(rt.alloc(), feed, out, workers.number(), &listed.list) {
        Ok(()) => Ok(JobEnd::with(Exit::Whole, None)),
        Err(stop) => Err(fault_at(stop, &listed.lines)),
    }
}
