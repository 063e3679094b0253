//! The rows of a place, written.

ghost use Rattle.std.specs.Prelude.{◌≡◌, ◌*◌, ◌≤◌, ◌∷◌, [], Some, None, length, map, option_map, unwrap_or, false};
ghost use Rattle.bk_report.specs.Pages.{IsReady, Puts, desk};
ghost use Rattle.bk_tables.specs.Payments.{asked_by, is_among, names_one, paid_by, payments_text, picks_payment, row_of, rows_at, rows_of};
ghost use Rattle.bk_tables.specs.private.Asking.{split_of};
ghost use Rattle.bk_tx.specs.declared.body.Body.TheVariants.{Pay, PayIf, Sweep};
ghost use Rattle.std.specs.Option.{option_copied};

use crate::accounts::Accounts;
use crate::payment::{Asked, At, Kind, PaymentRow, make_row};
use crate::sheet::Sheet;
use bk_frames::Sink;
use bk_rules::{Receipt, Status};
use bk_tx::{Body, Payment, Tx};

// Whether a guard is one of these accounts.
fn has_guard(accounts: &Accounts, guard: Option<u64>) -> bool
    ensures { result ≡ unwrap_or (option_map (is_among accounts.now) guard) false }
{
    match guard {
        Some(id) => accounts.has(id),
        None => false,
    }
}

// Whether a payment names one of these accounts.
fn names_one(accounts: &Accounts, asked: Option<Asked>) -> bool
    ensures { result ≡ names_one accounts.now asked }
{
    match asked {
        Some(asked) => {
            accounts.has(asked.from) || accounts.has(asked.to) || has_guard(accounts, asked.guard)
        }
        None => false,
    }
}

// Whether a row is shown.
fn picks(accounts: &Option<Accounts>, row: &PaymentRow) -> bool
    ensures { result ≡ picks_payment accounts.now row.now }
{
    match accounts {
        Some(accounts) => names_one(accounts, row.asked),
        None => true,
    }
}

// Puts a row, if it is shown.
fn put_row<K: Sink>(sink: &mut K, sheet: &mut Sheet, accounts: &Option<Accounts>, row: PaymentRow)
    requires { IsReady (desk sheet.old.page (K.state sink.old)) }
    ensures { Puts (desk sheet.old.page (K.state sink.old)) (desk sheet.new.page (K.state sink.new))
        300 (payments_text accounts.now (row ∷ [])) }
{
    if !picks(accounts, &row) {
        return;
    }
    make_row(&mut sheet.line, &row);
    sheet.page.put_text(sink, sheet.line.as_slice());
}

/// What a payment moved.
pub(crate) fn paid_by(receipt: Receipt, amount: Option<u64>) -> u64
    ensures { result ≡ paid_by receipt.status receipt.moved amount }
{
    match receipt.status {
        Status::Ok => amount.unwrap_or(receipt.moved),
        Status::Malformed
        | Status::Undeclared
        | Status::Unknown
        | Status::Stale
        | Status::Guard
        | Status::Funds => 0,
    }
}

// The row of a payment.
fn row_of(at: At, item: u8, asked: Asked) -> PaymentRow
    ensures { result ≡ row_of at item asked }
{
    let paid = paid_by(at.receipt, asked.amount);
    PaymentRow {
        place: at.place,
        batch: at.batch,
        item,
        asked: Some(asked),
        status: at.receipt.status,
        paid,
    }
}

// A payment of a split.
fn split_of(from: u64, seq: u64, payment: Payment) -> Asked
    ensures { result ≡ split_of from seq payment }
{
    Asked {
        kind: Kind::Split,
        from,
        seq,
        to: payment.to,
        amount: Some(payment.amount),
        guard: None,
        min: None,
        keep: None,
    }
}

// Puts the rows of the payments of a split.
fn put_split<K: Sink>(
    sink: &mut K,
    sheet: &mut Sheet,
    accounts: &Option<Accounts>,
    at: At,
    from: u64,
    seq: u64,
    payments: &[Payment],
)
    requires ready { IsReady (desk sheet.old.page (K.state sink.old)) }
    requires few { length payments.now ≤ 6 }
    ensures { Puts (desk sheet.old.page (K.state sink.old)) (desk sheet.new.page (K.state sink.new))
        1800 (payments_text accounts.now (rows_of at 0 (map (split_of from seq) payments.now))) }
{
    for (item, payment) in payments.iter().enumerate() {
        let row = row_of(at, item as u8, split_of(from, seq, *payment));
        put_row(sink, sheet, accounts, row);
    }
}

// What a payment of a `pay` asks for.
fn pay_of(from: u64, seq: u64, to: u64, amount: u64) -> Asked
    ensures { asked_by from seq (Pay to amount) ≡ result ∷ [] }
{
    Asked {
        kind: Kind::Pay,
        from,
        seq,
        to,
        amount: Some(amount),
        guard: None,
        min: None,
        keep: None,
    }
}

// The same of a `payif`.
fn pay_if_of(from: u64, seq: u64, to: u64, amount: u64, guard: u64, min: u64) -> Asked
    ensures { asked_by from seq (PayIf to amount guard min) ≡ result ∷ [] }
{
    Asked {
        kind: Kind::PayIf,
        from,
        seq,
        to,
        amount: Some(amount),
        guard: Some(guard),
        min: Some(min),
        keep: None,
    }
}

// The same of a sweep.
fn sweep_of(from: u64, seq: u64, to: u64, keep: u64) -> Asked
    ensures { asked_by from seq (Sweep to keep) ≡ result ∷ [] }
{
    Asked {
        kind: Kind::Sweep,
        from,
        seq,
        to,
        amount: None,
        guard: None,
        min: None,
        keep: Some(keep),
    }
}

// Puts the rows of a transaction.
fn put_tx<K: Sink>(sink: &mut K, sheet: &mut Sheet, accounts: &Option<Accounts>, at: At, tx: &Tx)
    requires { IsReady (desk sheet.old.page (K.state sink.old)) }
    ensures { Puts (desk sheet.old.page (K.state sink.old)) (desk sheet.new.page (K.state sink.new))
        1800 (payments_text accounts.now (rows_at at (Some tx.now))) }
{
    let (from, seq) = (tx.from(), tx.seq());
    let asked = match tx.body() {
        Body::Pay { to, amount } => pay_of(from, seq, *to, *amount),
        Body::PayIf {
            to,
            amount,
            guard,
            min,
        } => pay_if_of(from, seq, *to, *amount, *guard, *min),
        Body::Sweep { to, keep } => sweep_of(from, seq, *to, *keep),
        Body::Split { payments } => {
            let payments = payments.as_slice();
            return put_split(sink, sheet, accounts, at, from, seq, payments);
        }
    };
    put_row(sink, sheet, accounts, row_of(at, 0, asked));
}

// The row of a malformed transaction.
fn malformed_row(at: At) -> PaymentRow
    ensures { rows_at at None ≡ result ∷ [] }
{
    PaymentRow {
        place: at.place,
        batch: at.batch,
        item: 0,
        asked: None,
        status: at.receipt.status,
        paid: 0,
    }
}

/// Puts the rows of a place that are shown.
pub(crate) fn put_place<K: Sink>(
    sink: &mut K,
    sheet: &mut Sheet,
    accounts: &Option<Accounts>,
    at: At,
    tx: Option<&Tx>,
)
    requires { IsReady (desk sheet.old.page (K.state sink.old)) }
    ensures { Puts (desk sheet.old.page (K.state sink.old)) (desk sheet.new.page (K.state sink.new))
        1800 (payments_text accounts.now (rows_at at (option_copied tx.entry))) }
{
    match tx {
        Some(tx) => put_tx(sink, sheet, accounts, at, tx),
        None => put_row(sink, sheet, accounts, malformed_row(at)),
    }
}
