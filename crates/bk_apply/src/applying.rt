ghost use Rattle.std.specs.Prelude.{◌≡◌, ◌^◌, ◌<◌, length, vec_len, OnOk, IfErr};
ghost use Rattle.bk_frames.specs.Device.{CanBeUsed, Works, GaveAll};
ghost use Rattle.bk_base.specs.Genesis.{total_of};
ghost use Rattle.bk_apply.specs.Answers.{FailsBy, ReportIsOut};
ghost use Rattle.bk_results.specs.Devices.{devices};
ghost use Rattle.bk_report.specs.Report.{lines_of};
ghost use Rattle.bk_report.specs.Lines.{text_of};
ghost use Rattle.bk_report.specs.Pages.{Written, blank};

use bk_frames::{Feed, Sink, Source, WriteFault};
use bk_ledger::{Ledger, Summary};
use bk_report::{Line, Page, put_accounts, put_batches, put_receipts};
use bk_results::Fault;
use std::alloc::Global;
use std::thread::Threads;

/// Writes the report of a feed, a page at a time.
pub(crate) fn write_report<K: Sink>(
    sink: &mut K,
    page: &mut Page,
    summary: &Summary,
) -> Result<(), WriteFault>
    requires sound { CanBeUsed (K.state sink.old) }
    requires few { (vec_len summary.now.counts < 2 ^ 32) × (vec_len summary.now.receipts < 2 ^ 32)
        × (length summary.now.rows.items < 2 ^ 32) }
    requires total { summary.now.total ≡ total_of summary.now.rows.items }
    requires blank { page.old ≡ blank }
    ensures { Written result (K.state sink.old) (K.state sink.new)
        (text_of (lines_of summary.now.counts.items summary.now.receipts.items
        summary.now.rows.items)) }
{
    put_batches(sink, page, &summary.counts);
    put_receipts(sink, page, &summary.receipts);
    put_accounts(sink, page, &summary.rows);
    let total = summary.total;
    page.put(sink, Line::Money { total });
    page.end(sink)
}

/// Reads a feed, executes its batches in feed order and writes the apply report. While some batches are executed, one other
/// thread reads the next.
///
/// A fault of the feed is that of [`bk_frames::Feed::read`]. With every fault but `Write` nothing is written.
pub fn apply<R: Threads + Sync, S: Source, K: Sink>(
    rt: &R,
    alloc: Global,
    source: &mut S,
    sink: &mut K,
) -> Result<(), Fault>
    requires source { CanBeUsed (S.state source.old) }
    requires sink { CanBeUsed (K.state sink.old) }
    ensures report { OnOk result (GaveAll (S.state source.old) (S.state source.new)
        (ReportIsOut (K.state sink.old) (K.state sink.new))) }
    ensures sound { OnOk result (Works (S.state source.old) (S.state source.new)
        × Works (K.state sink.old) (K.state sink.new)) }
    ensures fault { IfErr result (λ e. FailsBy e (devices (S.state source.old) (K.state sink.old))
        (devices (S.state source.new) (K.state sink.new))) }
{
    let feed = Feed::read(alloc, source)?;
    let ledger = Ledger::of(rt, alloc, &feed)?;
    let summary = ledger.summary(alloc)?;
    let mut page = Page::new(alloc)?;
    write_report(sink, &mut page, &summary)?;
    Ok(())
}
