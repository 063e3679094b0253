//! The report of a feed.

ghost use Rattle.std.specs.Prelude.{◌≡◌, IfOk};
ghost use Rattle.bk_answer.specs.Answers.{IsMadeOf};
ghost use Rattle.bk_answer.specs.RunReport.{IsReportOf};
ghost use Rattle.bk_answer.specs.Values.{closed_value};
ghost use Rattle.bk_answer.specs.private.Shown.{IsShownOf, shown_text};
ghost use Rattle.bk_base.specs.Feed.{FeedValue};
ghost use Rattle.bk_frames.specs.Device.{CanBeUsed};
ghost use Rattle.bk_report.specs.Pages.{Written, blank};

use crate::answer::Answer;
use crate::closed::Closed;
use bk_base::Row;
use bk_cert::CertRef;
use bk_frames::{Sink, WriteFault};
use bk_report::{Page, Parts, Sheets, leaves_of, sheets_for, write_run};
use bk_results::{Fault, Status};
use std::alloc::{AllocError, Global};
use std::thread::Threads;

// What a report shows beside what was made of its feed.
#[derive(Drop)]
struct Shown {
    waiting: Vec<CertRef>,
    rows: Vec<Row>,
    // The balances of the rows, added up.
    total: u64,
    // The leaves of their tree.
    leaves: Vec<[u8; 24]>,
}

// Finds what waits and the accounts.
fn find_shown(alloc: Global, closed: &Closed<'_>) -> Result<Shown, AllocError>
    ensures { IfOk result (IsShownOf (closed_value closed.now)) }
{
    let ledger = closed.ledger;
    let waiting = closed.order.waiting()?;
    let rows = ledger.state().rows(alloc)?;
    let leaves = leaves_of(alloc, &rows)?;
    let total = ledger.state().total();
    Ok(Shown {
        waiting,
        rows,
        total,
        leaves,
    })
}

// Writes the report of what was taken and executed.
fn write_shown<R: Threads + Sync, K: Sink>(
    rt: &R,
    sink: &mut K,
    page: &mut Page,
    sheets: &mut Option<Sheets>,
    closed: &Closed<'_>,
    shown: &Shown,
) -> Result<(), WriteFault>
    requires sound { CanBeUsed (K.state sink.old) }
    requires closed { (feed : FeedValue) × IsMadeOf (closed_value closed.now) feed }
    requires shown { IsShownOf (closed_value closed.now) shown.now }
    requires blank { page.old ≡ blank }
    ensures { Written result (K.state sink.old) (K.state sink.new)
        (shown_text (closed_value closed.now) shown.now) }
{
    let Closed { order, ledger } = *closed;
    let intake = order.intake;
    let parts = Parts {
        committee: intake.committee(),
        frames: intake.next(),
        rejected: intake.rejected(),
        waiting: &shown.waiting,
        anchors: intake.anchors(),
        order: intake.order(),
        counts: ledger.counts(),
        missing: intake.missing(),
        receipts: ledger.receipts(),
        rows: &shown.rows,
        total: shown.total,
        leaves: &shown.leaves,
    };
    write_run(rt, sink, page, sheets, &parts)
}

/// The report of a run. It ends with whether a batch of the order is missing.
#[derive(Clone, Copy)]
pub struct Report;

impl Answer for Report {
    type End = Status;

    ghost can_ask = { λ _. Unit {0} };

    ghost text = { λ _. IsReportOf };

    fn write<R: Threads + Sync, K: Sink>(
        &self,
        rt: &R,
        alloc: Global,
        closed: &Closed<'_>,
        sink: &mut K,
    ) -> Result<Status, Fault> {
        let shown = find_shown(alloc, closed)?;
        let lines = closed.ledger.receipts().len();
        let lines = lines.saturating_add(shown.rows.len());
        let mut page = Page::new(alloc)?;
        let mut sheets = sheets_for(alloc, lines)?;
        write_shown(rt, sink, &mut page, &mut sheets, closed, &shown)?;
        Ok(closed.order.reach())
    }
}
