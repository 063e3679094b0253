//! The job that shows the rows of some accounts.

ghost use Rattle.std.specs.Prelude.{◌≡◌, true, Some};
ghost use Rattle.bk_frames.specs.Device.{CanBeUsed};
ghost use Rattle.bk_results.specs.Devices.{devices};
ghost use Rattle.bk_cli.specs.Exits.{exit_at};
ghost use Rattle.bk_jobs.specs.Jobs.{FeedEnds, PickEnds};
ghost use Rattle.bk_jobs.specs.Sources.{job_devices};
ghost use Rattle.bk_jobs.specs.Views.{fault_by_list, table_text};

use crate::feeds::by_ledger;
use crate::job_end::{Engine, JobEnd};
use bk_cli::{JobFault, Table};
use bk_frames::{Sink, Source};
use bk_pool::Gate;
use bk_results::LinesFault;
use bk_script::ScriptFault;
use bk_tables::{Accounts, Postings, Transactions, read_accounts};
use std::sync::Wait;
use std::thread::Threads;

/// The fault of a list of accounts.
pub(crate) fn fault_of(fault: LinesFault) -> JobFault
    ensures { result ≡ fault_by_list fault }
{
    match fault {
        LinesFault::Line { line } => JobFault::Accounts { line },
        LinesFault::Read => JobFault::Text(ScriptFault::Read),
        LinesFault::Memory => JobFault::Text(ScriptFault::Memory),
    }
}

// Writes the rows of a table that have one of these accounts.
fn pick_of<R, G: Gate + Sync, S: Source, O: Sink>(
    rt: &R,
    engine: &Engine<'_, G>,
    shown: Table,
    source: &mut S,
    accounts: Accounts,
    out: &mut O,
) -> Result<JobEnd, JobFault>
where
    R: Threads + Wait + Sync + AllocGlobal,
    requires source { CanBeUsed (S.state source.old) }
    requires out { CanBeUsed (O.state out.old) }
    ensures { FeedEnds (table_text shown (Some accounts)) exit_at true engine.now.terms.strict result
        (devices (S.state source.old) (O.state out.old))
        (devices (S.state source.new) (O.state out.new)) }
{
    let accounts = Some(accounts);
    match shown {
        Table::Transactions => {
            let rows = Transactions { accounts };
            by_ledger(rt, engine, source, out, &rows)
        }
        Table::Postings => {
            let rows = Postings { accounts };
            by_ledger(rt, engine, source, out, &rows)
        }
    }
}

/// Writes the rows of a table that have an account of a list, which is read and judged before the feed is.
pub(crate) fn pick<R, G: Gate + Sync, S1: Source, S2: Source, O: Sink>(
    rt: &R,
    engine: &Engine<'_, G>,
    shown: Table,
    feed: &mut S1,
    list: &mut S2,
    out: &mut O,
) -> Result<JobEnd, JobFault>
where
    R: Threads + Wait + Sync + AllocGlobal,
    requires feed { CanBeUsed (S1.state feed.old) }
    requires list { CanBeUsed (S2.state list.old) }
    requires out { CanBeUsed (O.state out.old) }
    ensures { PickEnds shown engine.now.terms.strict result
        (job_devices (S1.state feed.old) (S2.state list.old) (O.state out.old))
        (job_devices (S1.state feed.new) (S2.state list.new) (O.state out.new)) }
{
    match read_accounts(rt.alloc(), list) {
        Ok(accounts) => pick_of(rt, engine, shown, feed, accounts, out),
        Err(fault) => Err(fault_of(fault)),
    }
}
