//! The job that checks whether lines are the links of a chain.

ghost use Rattle.std.specs.Prelude.{◌≡◌};
ghost use Rattle.bk_frames.specs.Device.{CanBeUsed};
ghost use Rattle.bk_results.specs.Devices.{devices};
ghost use Rattle.bk_jobs.specs.Jobs.{ChainEnds};
ghost use Rattle.bk_jobs.specs.Views.{exit_by_chain, fault_by_chain};

use crate::job_end::JobEnd;
use bk_chain::{ChainEnd, ChainFault, check_chain};
use bk_cli::{Exit, JobFault};
use bk_frames::{Sink, Source};
use bk_script::ScriptFault;

// The exit after a verdict.
fn exit_by(end: ChainEnd) -> Exit
    ensures { result ≡ exit_by_chain end }
{
    match end {
        ChainEnd::Whole => Exit::Whole,
        ChainEnd::Short => Exit::Missing,
        ChainEnd::Broken => Exit::No,
    }
}

// The fault of a check that came to no verdict.
fn fault_of(fault: ChainFault) -> JobFault
    ensures { result ≡ fault_by_chain fault }
{
    match fault {
        ChainFault::Links { line } => JobFault::Links { line },
        ChainFault::Read => JobFault::Text(ScriptFault::Read),
        ChainFault::Write { written } => JobFault::Text(ScriptFault::Write { written }),
        ChainFault::Memory => JobFault::Text(ScriptFault::Memory),
    }
}

/// Writes the verdict on whether the lines are the links of a chain.
pub(crate) fn check_links<R: AllocGlobal, S: Source, O: Sink>(
    rt: &R,
    source: &mut S,
    out: &mut O,
) -> Result<JobEnd, JobFault>
    requires source { CanBeUsed (S.state source.old) }
    requires out { CanBeUsed (O.state out.old) }
    ensures { ChainEnds result (devices (S.state source.old) (O.state out.old))
        (devices (S.state source.new) (O.state out.new)) }
{
    match check_chain(rt.alloc(), source, out) {
        Ok(end) => Ok(JobEnd::with(exit_by(end), None)),
        Err(fault) => Err(fault_of(fault)),
    }
}
