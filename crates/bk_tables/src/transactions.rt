//! The payments of an order, as what a feed answers.

ghost use Rattle.std.specs.Prelude.{◌≡◌, ◌+◌, ◌-◌, ◌*◌, ◌≤◌, ◌<◌, ◌^◌, IsSome, drop, length, map, take, false};
ghost use Rattle.bk_report.specs.Pages.{IsReady, Puts, desk};
ghost use Rattle.bk_tx.specs.Batches.{count_in, transactions_in, transactions_of};
ghost use Rattle.bk_tables.specs.Kinds.{payments};
ghost use Rattle.bk_tables.specs.Payments.{payments_text, rows_from, rows_in};
ghost use Rattle.bk_tables.specs.Tables.{IsPaymentTable};
ghost use Rattle.bk_tables.specs.private.KindLaws.{no_payments, payments_short, payments_table};

use crate::accounts::Accounts;
use crate::payment::At;
use crate::rows::put_place;
use crate::sheet::{Sheet, sheet_after};
use crate::table::{TableRows, write_whole};
use crate::texts::next_text;
use bk_answer::{Answer, Closed};
use bk_base::Fields;
use bk_frames::{Sink, WriteFault};
use bk_ledger::Ledger;
use bk_order::Intake;
use bk_results::{Fault, Status};
use bk_rules::PackedReceipt;
use bk_tx::Tx;
use std::alloc::{AllocError, Global};
use std::marker::Model;
use std::thread::Threads;

// The header, a row.
const HEADER: &[u8] = b"place,batch,item,kind,from,seq,to,amount,guard,min,keep,status,paid\n";

// Puts the rows of a batch that holds this many transactions. Its first one is at this place.
fn put_batch<K: Sink>(
    sink: &mut K,
    sheet: &mut Sheet,
    accounts: &Option<Accounts>,
    payload: &[u8],
    batch: u32,
    place: usize,
    receipts: &[PackedReceipt],
)
    requires ready { IsReady (desk sheet.old.page (K.state sink.old)) }
    requires grammar { IsSome (count_in payload.now) }
    requires inside { place + length (transactions_in payload.now) ≤ length receipts.now }
    requires few { length receipts.now < 2 ^ 32 }
    ensures { Puts (desk sheet.old.page (K.state sink.old)) (desk sheet.new.page (K.state sink.new))
        (1800 * length (transactions_in payload.now)) (payments_text accounts.now
        (rows_in receipts.now batch place (transactions_in payload.now))) }
{
    let mut texts = Fields::new(payload);
    let Some(count) = texts.u16() else {
        return;
    };
    for index in 0..usize::from(count) {
        let Some(text) = next_text(&mut texts) else {
            return;
        };
        let at = At {
            place: (place + index) as u32,
            batch,
            receipt: receipts[place + index].receipt(),
        };
        put_place(sink, sheet, accounts, at, Tx::decode(text).as_ref());
    }
}

// Puts the rows of the batches of an order from this one on, whose first place is this.
fn put_batches<K: Sink>(
    sink: &mut K,
    sheet: &mut Sheet,
    accounts: &Option<Accounts>,
    intake: &Intake,
    ledger: &Ledger,
    first: usize,
    start: usize,
)
    requires ready { IsReady (desk sheet.old.page (K.state sink.old)) }
    requires open { intake.now.failed ≡ false }
    requires counts { ledger.now.counts ≡ map count_in intake.now.ordered.payloads.list }
    requires receipts { length ledger.now.receipts
        ≡ length (transactions_of intake.now.ordered.payloads.list) }
    requires few { length ledger.now.receipts < 2 ^ 32 }
    requires batches { length intake.now.ordered.payloads.list < 2 ^ 32 }
    requires within { first ≤ length intake.now.ordered.payloads.list }
    requires places { start ≡ length (transactions_of
        (take first intake.now.ordered.payloads.list)) }
    ensures { Puts (desk sheet.old.page (K.state sink.old)) (desk sheet.new.page (K.state sink.new))
        (1800 * (length ledger.now.receipts - start)) (payments_text accounts.now
        (rows_from ledger.now.receipts first start (drop first intake.now.ordered.payloads.list))) }
{
    let receipts = ledger.receipts();
    let counts = ledger.counts();
    let mut place = start;
    for batch in first..counts.len() {
        if let Some(count) = counts[batch] {
            let payload = intake.payload(batch);
            put_batch(
                sink,
                sheet,
                accounts,
                payload,
                batch as u32,
                place,
                receipts,
            );
            place += usize::from(count);
        }
    }
}

/// The table of payments of an order that grows: its header, and the rows of the batches that it has so far. Contracts see
/// the page on which it is put, and how many batches and places it shows.
#[derive(Drop)]
pub struct PaymentRows {
    sheet: Sheet,
    batch: usize,
    place: usize,
}

impl Model for PaymentRows {
    ghost use Rattle.bk_tables.specs.Growing.{Shown};

    ghost Value = { Shown };

    ghost view = { λ r. record { page = r.sheet.page; batch = r.batch; place = r.place } };
}

impl TableRows for PaymentRows {
    ghost kind = { payments };

    ghost shown = { λ r. r };

    ghost holds = { λ r version genesis payloads. Unit {0} };

    fn none(alloc: Global) -> Result<PaymentRows, AllocError> {
        Ok(PaymentRows {
            sheet: sheet_after(alloc, HEADER)?,
            batch: 0,
            place: 0,
        })
    }

    fn put_more<K: Sink>(
        &mut self,
        alloc: Global,
        sink: &mut K,
        accounts: &Option<Accounts>,
        closed: &Closed<'_>,
    ) -> Result<(), Fault> {
        let _ = alloc;
        let PaymentRows {
            sheet,
            batch,
            place,
        } = self;
        let intake = closed.order.intake;
        put_batches(sink, sheet, accounts, intake, closed.ledger, *batch, *place);
        *batch = closed.ledger.counts().len();
        *place = closed.ledger.receipts().len();
        sheet.page.end_rows(sink)?;
        Ok(())
    }

    fn put_end<K: Sink>(&mut self, sink: &mut K) -> Result<(), WriteFault> {
        self.sheet.page.end(sink)
    }

    ghost no_rows = { no_payments };

    ghost short = { payments_short };

    ghost is_text = { payments_table };
}

/// The table of the payments of the order, as what a feed answers: all of them, or those that name one of some accounts. It
/// ends with whether a batch is missing.
#[derive(Drop)]
pub struct Transactions {
    /// The accounts; `None` for all payments, and then for malformed transactions too.
    pub accounts: Option<Accounts>,
}

impl Answer for Transactions {
    type End = Status;

    ghost can_ask = { λ _. Unit {0} };

    ghost text = { λ t. IsPaymentTable t.accounts };

    fn write<R: Threads + Sync, K: Sink>(
        &self,
        rt: &R,
        alloc: Global,
        closed: &Closed<'_>,
        sink: &mut K,
    ) -> Result<Status, Fault> {
        let _ = rt;
        write_whole::<PaymentRows, K>(alloc, sink, &self.accounts, closed)
    }
}
