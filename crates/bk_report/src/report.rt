//! The report of a run.

ghost use Rattle.std.specs.Prelude.{◌≡◌, ◌+◌, ◌*◌, ◌^◌, ◌<◌, ◌++◌, ◌∷◌, [], length};
ghost use Rattle.std.specs.Option.{option_copied};
ghost use Rattle.bk_frames.specs.Device.{CanBeUsed};
ghost use Rattle.bk_base.specs.Genesis.{total_of};
ghost use Rattle.bk_digest.specs.Tree.{root_of};
ghost use Rattle.bk_report.specs.Leaves.{leaves_of};
ghost use Rattle.bk_report.specs.Lines.{text_of};
ghost use Rattle.bk_report.specs.RunLines.{members_line, head_lines, missing_lines, order_lines, batches_lines};
ghost use Rattle.bk_report.specs.RunLines.{ledger_lines, rows_lines};
ghost use Rattle.bk_report.specs.declared.line.Line.TheVariants.{Money, State};
ghost use Rattle.std.specs.Thread.{IsSync};
ghost use Rattle.bk_report.specs.Pages.{IsReady, Puts, Written, blank, desk};
ghost use Rattle.bk_report.specs.Parts.{AreFew};

use crate::groups::{
    put_accounts, put_anchors, put_batches, put_certs, put_receipts, put_rejects, put_waiting,
};
use crate::line::Line;
use crate::page::Page;
use crate::sheets::{Sheets, put_sheets};
use bk_base::Row;
use bk_cert::CertRef;
use bk_committee::Committee;
use bk_digest::{Digest32, tree_root_with};
use bk_frames::{Sink, WriteFault};
use bk_order::Reject;
use bk_rules::PackedReceipt;
use std::thread::{Threads, join_mut};

/// What the report of a run shows.
#[derive(Clone, Copy)]
pub struct Parts<'a> {
    pub committee: &'a Committee,
    /// How many frames the feed has.
    pub frames: u64,
    pub rejected: &'a [Reject],
    pub waiting: &'a [CertRef],
    pub anchors: &'a [CertRef],
    pub order: &'a [CertRef],
    /// How many transactions each batch of the order holds, `None` where it is void.
    pub counts: &'a [Option<u16>],
    /// The digest of the batch at which the order stops.
    pub missing: Option<&'a Digest32>,
    pub receipts: &'a [PackedReceipt],
    /// The accounts after the transactions.
    pub rows: &'a [Row],
    /// Their balances, added up.
    pub total: u64,
    /// The leaves of their tree.
    pub leaves: &'a [[u8; 24]],
}

// The line of a committee's sizes.
fn members_line(committee: &Committee) -> Line
    ensures { result ≡ members_line committee.now }
{
    Line::Members {
        members: committee.n() as u8,
        faulty: committee.f(),
        quorum: committee.quorum(),
    }
}

// Puts the sizes of the committee and the number of frames.
fn put_head<K: Sink>(sink: &mut K, page: &mut Page, committee: &Committee, frames: u64)
    requires { IsReady (desk page.old (K.state sink.old)) }
    ensures { Puts (desk page.old (K.state sink.old)) (desk page.new (K.state sink.new)) 192
        (text_of (head_lines committee.now frames)) }
{
    page.put(sink, members_line(committee));
    page.put(sink, Line::Frames { count: frames });
}

// Puts what is rejected, what waits, the anchors and the order.
fn put_order<K: Sink>(sink: &mut K, page: &mut Page, parts: &Parts)
    requires { IsReady (desk page.old (K.state sink.old)) }
    ensures { Puts (desk page.old (K.state sink.old)) (desk page.new (K.state sink.new))
        (96 * (length parts.now.rejected.now + length parts.now.waiting.now
        + length parts.now.anchors.now + length parts.now.order.now))
        (text_of (order_lines parts.now.rejected.now parts.now.waiting.now
        parts.now.anchors.now parts.now.order.now)) }
{
    put_rejects(sink, page, parts.rejected);
    put_waiting(sink, page, parts.waiting);
    put_anchors(sink, page, parts.anchors);
    put_certs(sink, page, parts.order);
}

// Puts the digest of a batch that is missing.
fn put_missing<K: Sink>(sink: &mut K, page: &mut Page, missing: Option<&Digest32>)
    requires { IsReady (desk page.old (K.state sink.old)) }
    ensures { Puts (desk page.old (K.state sink.old)) (desk page.new (K.state sink.new)) 96
        (text_of (missing_lines (option_copied missing.entry))) }
{
    if let Some(digest) = missing {
        page.put(sink, Line::Missing { digest: *digest });
    }
}

// Puts the batches, and the digest of the one that is missing.
fn put_payloads<K: Sink>(
    sink: &mut K,
    page: &mut Page,
    counts: &[Option<u16>],
    missing: Option<&Digest32>,
)
    requires ready { IsReady (desk page.old (K.state sink.old)) }
    requires few { length counts.now < 2 ^ 32 }
    ensures { Puts (desk page.old (K.state sink.old)) (desk page.new (K.state sink.new))
        (96 * length counts.now + 96)
        (text_of (batches_lines counts.now (option_copied missing.entry))) }
{
    put_batches(sink, page, counts);
    put_missing(sink, page, missing);
}

// Puts the transactions and the accounts, on several threads where there are sheets.
fn put_rows<R: Threads + Sync, K: Sink>(
    rt: &R,
    sink: &mut K,
    page: &mut Page,
    sheets: &mut Option<Sheets>,
    parts: &Parts,
)
    requires ready { IsReady (desk page.old (K.state sink.old)) }
    requires receipts { length parts.now.receipts.now < 2 ^ 32 }
    requires rows { length parts.now.rows.now < 2 ^ 32 }
    ensures { Puts (desk page.old (K.state sink.old)) (desk page.new (K.state sink.new)) (2 ^ 44)
        (text_of (rows_lines parts.now.receipts.now parts.now.rows.now)) }
{
    if let Some(sheets) = sheets {
        return put_sheets(rt, sink, page, sheets, parts.receipts, parts.rows);
    }
    put_receipts(sink, page, parts.receipts);
    put_accounts(sink, page, parts.rows);
}

// Puts the money and the digest of the state.
fn put_ending<K: Sink>(sink: &mut K, page: &mut Page, total: u64, state: Digest32)
    requires { IsReady (desk page.old (K.state sink.old)) }
    ensures { Puts (desk page.old (K.state sink.old)) (desk page.new (K.state sink.new)) 192
        (text_of (Money total ∷ State state ∷ [])) }
{
    page.put(sink, Line::Money { total });
    page.put(sink, Line::State { digest: state });
}

// Puts the transactions and the accounts, and finds the digest of the state in a thread of its own.
fn put_beside<R: Threads + Sync, K: Sink>(
    rt: &R,
    sink: &mut K,
    page: &mut Page,
    sheets: &mut Option<Sheets>,
    parts: &Parts,
) -> Digest32
    requires ready { IsReady (desk page.old (K.state sink.old)) }
    requires receipts { length parts.now.receipts.now < 2 ^ 32 }
    requires rows { length parts.now.rows.now < 2 ^ 32 }
    ensures state { result ≡ root_of parts.now.leaves.now }
    ensures put { Puts (desk page.old (K.state sink.old)) (desk page.new (K.state sink.new))
        (2 ^ 44) (text_of (rows_lines parts.now.receipts.now parts.now.rows.now)) }
{
    let leaves = parts.leaves;
    let (state, ()) = join_mut(
        rt,
        &mut || -> Digest32
            requires { IsSync R.row }
            ensures { result ≡ root_of leaves.entry.now }
        { tree_root_with(rt, leaves) },
        &mut ||
            requires { IsSync R.row × IsReady (desk page.now (K.state sink.now))
                × (length parts.now.receipts.now < 2 ^ 32)
                × (length parts.now.rows.now < 2 ^ 32) }
            ensures { Puts (desk page.entry.now (K.state sink.entry.now))
                (desk page.exit.now (K.state sink.exit.now)) (2 ^ 44)
                (text_of (rows_lines parts.entry.now.receipts.now parts.entry.now.rows.now)) }
        { put_rows(rt, sink, page, sheets, parts) },
    );
    state
}

// Puts the transactions and the accounts, and then the money and the digest of the state.
fn put_ledger<R: Threads + Sync, K: Sink>(
    rt: &R,
    sink: &mut K,
    page: &mut Page,
    sheets: &mut Option<Sheets>,
    parts: &Parts,
)
    requires ready { IsReady (desk page.old (K.state sink.old)) }
    requires few { AreFew parts.now }
    requires total { parts.now.total ≡ total_of parts.now.rows.now }
    requires leaves { parts.now.leaves.now ≡ leaves_of parts.now.rows.now }
    ensures { Puts (desk page.old (K.state sink.old)) (desk page.new (K.state sink.new)) (2 ^ 45)
        (text_of (ledger_lines parts.now.receipts.now parts.now.rows.now)) }
{
    let state = put_beside(rt, sink, page, sheets, parts);
    put_ending(sink, page, parts.total, state);
}

/// Writes the report of a run, a page at a time. O(n).
///
/// With sheets, up to four threads at once make the lines of the transactions and of the accounts. A thread that cannot
/// be started is done without.
pub fn write_run<R: Threads + Sync, K: Sink>(
    rt: &R,
    sink: &mut K,
    page: &mut Page,
    sheets: &mut Option<Sheets>,
    parts: &Parts,
) -> Result<(), WriteFault>
    requires sound { CanBeUsed (K.state sink.old) }
    requires few { AreFew parts.now }
    requires total { parts.now.total ≡ total_of parts.now.rows.now }
    requires leaves { parts.now.leaves.now ≡ leaves_of parts.now.rows.now }
    requires blank { page.old ≡ blank }
    ensures { Written result (K.state sink.old) (K.state sink.new)
        (text_of (head_lines parts.now.committee.now parts.now.frames
        ++ order_lines parts.now.rejected.now parts.now.waiting.now
        parts.now.anchors.now parts.now.order.now
        ++ batches_lines parts.now.counts.now (option_copied parts.now.missing)
        ++ ledger_lines parts.now.receipts.now parts.now.rows.now)) }
{
    put_head(sink, page, parts.committee, parts.frames);
    put_order(sink, page, parts);
    put_payloads(sink, page, parts.counts, parts.missing);
    put_ledger(rt, sink, page, sheets, parts);
    page.end(sink)
}
