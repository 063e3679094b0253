//! The groups of a report's lines, each put after the one before it.

ghost use Rattle.std.specs.Prelude.{◌≡◌, ◌*◌, ◌^◌, ◌<◌, length};
ghost use Rattle.bk_report.specs.Lines.{text_of};
ghost use Rattle.bk_report.specs.Report.{batch_line, batch_lines, tx_lines, account_lines};
ghost use Rattle.bk_report.specs.RunLines.{reject_lines, waiting_lines, anchor_lines, cert_lines};
ghost use Rattle.bk_report.specs.Pages.{IsReady, Puts, desk};

use crate::line::Line;
use crate::page::Page;
use bk_base::Row;
use bk_cert::CertRef;
use bk_frames::Sink;
use bk_order::Reject;
use bk_rules::{PackedReceipt, Receipt};

/// Puts a line for each rejected certificate.
pub(crate) fn put_rejects<K: Sink>(sink: &mut K, page: &mut Page, rejected: &[Reject])
    requires { IsReady (desk page.old (K.state sink.old)) }
    ensures { Puts (desk page.old (K.state sink.old)) (desk page.new (K.state sink.new))
        (96 * length rejected.now) (text_of (reject_lines rejected.now)) }
{
    for reject in rejected {
        let frame = reject.frame;
        let rule = reject.rule;
        page.put(sink, Line::Reject { frame, rule });
    }
}

/// Puts a line for each certificate that waits.
pub(crate) fn put_waiting<K: Sink>(sink: &mut K, page: &mut Page, waiting: &[CertRef])
    requires { IsReady (desk page.old (K.state sink.old)) }
    ensures { Puts (desk page.old (K.state sink.old)) (desk page.new (K.state sink.new))
        (96 * length waiting.now) (text_of (waiting_lines waiting.now)) }
{
    for place in waiting {
        let CertRef { round, author } = *place;
        page.put(sink, Line::Waiting { round, author });
    }
}

/// Puts a line for each committed anchor.
pub(crate) fn put_anchors<K: Sink>(sink: &mut K, page: &mut Page, anchors: &[CertRef])
    requires { IsReady (desk page.old (K.state sink.old)) }
    ensures { Puts (desk page.old (K.state sink.old)) (desk page.new (K.state sink.new))
        (96 * length anchors.now) (text_of (anchor_lines anchors.now)) }
{
    for place in anchors {
        let CertRef { round, author } = *place;
        page.put(sink, Line::Anchor { round, author });
    }
}

/// Puts a line for each ordered certificate.
pub(crate) fn put_certs<K: Sink>(sink: &mut K, page: &mut Page, order: &[CertRef])
    requires { IsReady (desk page.old (K.state sink.old)) }
    ensures { Puts (desk page.old (K.state sink.old)) (desk page.new (K.state sink.new))
        (96 * length order.now) (text_of (cert_lines order.now)) }
{
    for place in order {
        let CertRef { round, author } = *place;
        page.put(sink, Line::Cert { round, author });
    }
}

// The line of a batch.
fn batch_line(index: u32, count: Option<u16>) -> Line
    ensures { result ≡ batch_line index count }
{
    match count {
        Some(count) => Line::Batch { index, count },
        None => Line::VoidBatch { index },
    }
}

/// Puts a line for each batch, of how many transactions it holds.
pub fn put_batches<K: Sink>(sink: &mut K, page: &mut Page, counts: &[Option<u16>])
    requires ready { IsReady (desk page.old (K.state sink.old)) }
    requires few { length counts.now < 2 ^ 32 }
    ensures { Puts (desk page.old (K.state sink.old)) (desk page.new (K.state sink.new))
        (96 * length counts.now) (text_of (batch_lines 0 counts.now)) }
{
    for (index, count) in counts.iter().enumerate() {
        page.put(sink, batch_line(index as u32, *count));
    }
}

/// Puts a line for each transaction.
pub fn put_receipts<K: Sink>(sink: &mut K, page: &mut Page, receipts: &[PackedReceipt])
    requires ready { IsReady (desk page.old (K.state sink.old)) }
    requires few { length receipts.now < 2 ^ 32 }
    ensures { Puts (desk page.old (K.state sink.old)) (desk page.new (K.state sink.new))
        (96 * length receipts.now) (text_of (tx_lines 0 receipts.now)) }
{
    for (index, packed) in receipts.iter().enumerate() {
        let Receipt { status, moved } = packed.receipt();
        let place = index as u32;
        page.put(
            sink,
            Line::Tx {
                place,
                status,
                moved,
            },
        );
    }
}

/// Puts a line for each account.
pub fn put_accounts<K: Sink>(sink: &mut K, page: &mut Page, rows: &[Row])
    requires { IsReady (desk page.old (K.state sink.old)) }
    ensures { Puts (desk page.old (K.state sink.old)) (desk page.new (K.state sink.new))
        (96 * length rows.now) (text_of (account_lines rows.now)) }
{
    for row in rows {
        let Row { id, balance, seq } = *row;
        page.put(sink, Line::Account { id, balance, seq });
    }
}
