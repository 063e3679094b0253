//! Queries of a feed.

ghost use Rattle.std.specs.Prelude.{◌≡◌};
ghost use Rattle.bk_frames.specs.Device.{CanBeUsed};
ghost use Rattle.bk_results.specs.Devices.{devices};
ghost use Rattle.bk_jobs.specs.Jobs.{QueryEnds, absent_by, absent_of, exit_by_reply, reply_end};

use crate::job_end::{Engine, JobEnd};
use bk_answer::Ended;
use bk_ask::{Replied, ask};
use bk_cli::{Exit, JobFault, Remarks};
use bk_digest::Digest32;
use bk_frames::{Sink, Source};
use bk_pool::Gate;
use bk_results::{Query, Reply};
use std::sync::Wait;
use std::thread::Threads;

// What a query asks for, as absent, of an order that stops at this missing batch. An order and its anchors never are, and a
// digest is right or wrong.
fn absent(asked: &Query, missing: Option<Digest32>) -> Option<JobFault>
    ensures { result ≡ absent_of asked.now missing }
{
    match *asked {
        Query::Order | Query::State { .. } | Query::Anchors => None,
        Query::Account { id } => Some(JobFault::AbsentAccount { id, missing }),
        Query::Receipt { place } => Some(JobFault::AbsentPlace { place, missing }),
        Query::Proof { id } => Some(JobFault::AbsentAccount { id, missing }),
        Query::Statement { id } => Some(JobFault::AbsentAccount { id, missing }),
    }
}

// What is absent by a reply.
fn absent_in(asked: &Query, reply: Reply, missing: Option<Digest32>) -> Option<JobFault>
    ensures { result ≡ absent_by asked.now reply missing }
{
    match reply {
        Reply::Absent => absent(asked, missing),
        Reply::Found | Reply::Short | Reply::Wrong => None,
    }
}

// The exit after a reply.
fn exit_by(reply: Reply) -> Exit
    ensures { result ≡ exit_by_reply reply }
{
    match reply {
        Reply::Found => Exit::Whole,
        Reply::Short => Exit::Missing,
        Reply::Wrong | Reply::Absent => Exit::No,
    }
}

// The end of a query by its reply.
fn end_by(asked: &Query, ended: &Ended<Replied>) -> JobEnd
    ensures { result ≡ reply_end asked.now ended.now.end.reply ended.now.end.missing ended.now.flaw }
{
    let replied = ended.end;
    JobEnd {
        exit: exit_by(replied.reply),
        absent: absent_in(asked, replied.reply, replied.missing),
        remarks: Remarks {
            first: replied.missing,
            second: None,
            forged: None,
        },
        flaw: ended.flaw,
    }
}

/// Writes the reply to a query.
pub(crate) fn reply<R, G: Gate + Sync, S: Source, O: Sink>(
    rt: &R,
    engine: &Engine<'_, G>,
    asked: &Query,
    source: &mut S,
    out: &mut O,
) -> Result<JobEnd, JobFault>
where
    R: Threads + Wait + Sync + AllocGlobal,
    requires source { CanBeUsed (S.state source.old) }
    requires out { CanBeUsed (O.state out.old) }
    ensures { QueryEnds asked.now engine.now.terms.strict result
        (devices (S.state source.old) (O.state out.old))
        (devices (S.state source.new) (O.state out.new)) }
{
    let Engine { terms, gate, .. } = *engine;
    let settings = engine.settings();
    match ask(
        rt,
        rt.alloc(),
        source,
        out,
        *asked,
        settings,
        gate,
        terms.strict,
    ) {
        Ok(ended) => Ok(end_by(asked, &ended)),
        Err(fault) => Err(JobFault::Replay(fault)),
    }
}
