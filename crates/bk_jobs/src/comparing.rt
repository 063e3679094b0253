//! The job that compares two feeds.

ghost use Rattle.std.specs.Prelude.{◌≡◌};
ghost use Rattle.bk_frames.specs.Device.{CanBeUsed};
ghost use Rattle.bk_jobs.specs.Comparisons.{agree_text, compared_end, or_flaw};
ghost use Rattle.bk_jobs.specs.Jobs.{CompareEnds};
ghost use Rattle.bk_jobs.specs.Sources.{job_devices};

use crate::job_end::{Engine, JobEnd};
use bk_cli::{Exit, JobFault, Piece, Remarks, ShortLine, short_line};
use bk_compare::{Compared, compare_with_gaps};
use bk_frames::{Sink, Source, push_all};
use bk_pool::Gate;
use bk_results::{Agreed, Fault, Flaw};
use std::sync::Wait;
use std::thread::Threads;

// The line of how far two feeds agree.
fn agree_line(agreed: Agreed) -> ShortLine
    ensures { result.items ≡ agree_text agreed }
{
    short_line(
        b"",
        &[
            Piece::Text(b"agree"),
            Piece::Number(agreed.certs as u64),
            Piece::Number(agreed.places as u64),
        ],
    )
}

// The first flaw, else the second.
fn first_of(first: Option<Flaw>, second: Option<Flaw>) -> Option<Flaw>
    ensures { result ≡ or_flaw first second }
{
    match first {
        Some(flaw) => Some(flaw),
        None => second,
    }
}

// The end of a comparison of two feeds that agree.
fn end_of(compared: &Compared) -> JobEnd
    ensures { result ≡ compared_end compared.now }
{
    JobEnd {
        exit: Exit::Whole,
        absent: None,
        remarks: Remarks {
            first: compared.first,
            second: compared.second,
            forged: None,
        },
        flaw: first_of(compared.first_flaw, compared.second_flaw),
    }
}

/// Writes how far the feeds of two sources agree. The second is read once the first was followed to its end.
pub(crate) fn compare_feeds<R, G: Gate + Sync, S1: Source, S2: Source, O: Sink>(
    rt: &R,
    engine: &Engine<'_, G>,
    first: &mut S1,
    second: &mut S2,
    out: &mut O,
) -> Result<JobEnd, JobFault>
where
    R: Threads + Wait + Sync + AllocGlobal,
    requires first { CanBeUsed (S1.state first.old) }
    requires second { CanBeUsed (S2.state second.old) }
    requires out { CanBeUsed (O.state out.old) }
    ensures { CompareEnds engine.now.terms.strict result
        (job_devices (S1.state first.old) (S2.state second.old) (O.state out.old))
        (job_devices (S1.state first.new) (S2.state second.new) (O.state out.new)) }
{
    let Engine { terms, gate, .. } = *engine;
    let settings = engine.settings();
    let strict = terms.strict;
    let compared = match compare_with_gaps(rt, rt.alloc(), first, second, settings, gate, strict) {
        Ok(compared) => compared,
        Err(stop) => return Err(JobFault::Compared(stop)),
    };
    match push_all(out, agree_line(compared.agreed).as_slice()) {
        Ok(()) => Ok(end_of(&compared)),
        Err(fault) => Err(JobFault::Replay(Fault::from(fault))),
    }
}
