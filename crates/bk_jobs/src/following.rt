//! Jobs that follow a feed, and write the rows of a table as they become final.

ghost use Rattle.std.specs.Prelude.{◌≡◌, true, None};
ghost use Rattle.bk_frames.specs.Device.{CanBeUsed};
ghost use Rattle.bk_results.specs.Devices.{devices};
ghost use Rattle.bk_jobs.specs.Endings.{followed_end};
ghost use Rattle.bk_jobs.specs.Jobs.{FollowEnds, TailEnds};
ghost use Rattle.bk_jobs.specs.Sources.{job_devices};
ghost use Rattle.bk_jobs.specs.Views.{table_text};

use crate::job_end::{Engine, JobEnd};
use crate::picking::fault_of;
use bk_answer::Ended;
use bk_cli::{Exit, JobFault, Table};
use bk_frames::{Sink, Source};
use bk_pool::Gate;
use bk_results::{Fault, Status};
use bk_tables::{Accounts, PaymentRows, PostingRows, read_accounts};
use bk_tail::tail_table;
use std::sync::Wait;
use std::thread::Threads;
use std::time::Clock;

// The end of a job whose feed was followed to its end, or why it was not.
fn end_of(followed: Result<Ended<Status>, Fault>) -> Result<JobEnd, JobFault>
    ensures { result ≡ followed_end followed }
{
    match followed {
        Ok(ended) => Ok(JobEnd::with(Exit::at(ended.end), ended.flaw)),
        Err(fault) => Err(JobFault::Replay(fault)),
    }
}

// Writes the rows of a table as they become final, those that have one of these accounts alone, where there is a list.
fn follow_table<R, G: Gate + Sync, S: Source, O: Sink>(
    rt: &R,
    engine: &Engine<'_, G>,
    shown: Table,
    wait: bool,
    source: &mut S,
    accounts: Option<Accounts>,
    out: &mut O,
) -> Result<JobEnd, JobFault>
where
    R: AllocGlobal + Clock + Threads + Wait + Sync,
    requires source { CanBeUsed (S.state source.old) }
    requires out { CanBeUsed (O.state out.old) }
    ensures { TailEnds (table_text shown accounts) wait engine.now.terms.strict result
        (devices (S.state source.old) (O.state out.old))
        (devices (S.state source.new) (O.state out.new)) }
{
    let settings = engine.settings();
    let strict = engine.terms.strict;
    let Engine { gate, .. } = *engine;
    match shown {
        Table::Transactions => end_of(tail_table::<R, S, O, G, PaymentRows>(
            rt,
            rt.alloc(),
            source,
            out,
            settings,
            gate,
            &accounts,
            strict,
            wait,
        )),
        Table::Postings => end_of(tail_table::<R, S, O, G, PostingRows>(
            rt,
            rt.alloc(),
            source,
            out,
            settings,
            gate,
            &accounts,
            strict,
            wait,
        )),
    }
}

/// Writes the rows of a table as they become final. Where it is waited for, the feed has no end.
pub(crate) fn follow<R, G: Gate + Sync, S: Source, O: Sink>(
    rt: &R,
    engine: &Engine<'_, G>,
    shown: Table,
    wait: bool,
    source: &mut S,
    out: &mut O,
) -> Result<JobEnd, JobFault>
where
    R: AllocGlobal + Clock + Threads + Wait + Sync,
    requires source { CanBeUsed (S.state source.old) }
    requires out { CanBeUsed (O.state out.old) }
    ensures { TailEnds (table_text shown None) wait engine.now.terms.strict result
        (devices (S.state source.old) (O.state out.old))
        (devices (S.state source.new) (O.state out.new)) }
{
    follow_table(rt, engine, shown, wait, source, None, out)
}

/// Writes the rows of a table that have an account of a list as they become final. The list is read and judged before the
/// feed is. Where it is waited for, the feed has no end.
pub(crate) fn follow_some<R, G: Gate + Sync, S1: Source, S2: Source, O: Sink>(
    rt: &R,
    engine: &Engine<'_, G>,
    shown: Table,
    wait: bool,
    feed: &mut S1,
    list: &mut S2,
    out: &mut O,
) -> Result<JobEnd, JobFault>
where
    R: AllocGlobal + Clock + Threads + Wait + Sync,
    requires feed { CanBeUsed (S1.state feed.old) }
    requires list { CanBeUsed (S2.state list.old) }
    requires out { CanBeUsed (O.state out.old) }
    ensures { FollowEnds shown true wait engine.now.terms.strict result
        (job_devices (S1.state feed.old) (S2.state list.old) (O.state out.old))
        (job_devices (S1.state feed.new) (S2.state list.new) (O.state out.new)) }
{
    match read_accounts(rt.alloc(), list) {
        Ok(accounts) => follow_table(rt, engine, shown, wait, feed, Some(accounts), out),
        Err(fault) => Err(fault_of(fault)),
    }
}
