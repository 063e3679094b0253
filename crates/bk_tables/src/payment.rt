//! What a payment asks for and what became of it, as a row.

ghost use Rattle.std.specs.Prelude.{◌≡◌, ◌+◌, ◌≤◌, ◌∷◌, ◌++◌, [], Some, length};
ghost use Rattle.bk_tables.specs.Csv.{row_text};
ghost use Rattle.bk_tables.specs.Payments.{asked_fields, kind_word, payment_fields};
ghost use Rattle.bk_tables.specs.private.Commas.{commas};

use crate::line::Line;
use bk_rules::{Receipt, Status};

/// What kind of transaction a payment is of.
#[derive(Clone, Copy, Debug, PartialEq, Eq)]
pub enum Kind {
    Pay,
    PayIf,
    Sweep,
    Split,
}

/// A payment as the bytes of its transaction have it.
#[derive(Clone, Copy, Debug, PartialEq, Eq)]
pub struct Asked {
    pub kind: Kind,
    /// The sender.
    pub from: u64,
    /// The sequence number at which the transaction counts.
    pub seq: u64,
    /// The receiver.
    pub to: u64,
    /// What it asks for; `None` of a sweep.
    pub amount: Option<u64>,
    /// The guard of a `payif`.
    pub guard: Option<u64>,
    /// The least balance of the guard of a `payif`.
    pub min: Option<u64>,
    /// What the sender of a sweep keeps.
    pub keep: Option<u64>,
}

/// A payment of an executed place, or a malformed transaction.
#[derive(Clone, Copy, Debug, PartialEq, Eq)]
pub struct PaymentRow {
    /// The place of the transaction.
    pub place: u32,
    /// The index of its batch in the order.
    pub batch: u32,
    /// The index of the payment in its transaction.
    pub item: u8,
    /// What it asks for; `None` of a malformed transaction.
    pub asked: Option<Asked>,
    /// What became of the transaction.
    pub status: Status,
    /// What the payment moved.
    pub paid: u64,
}

/// Where a transaction is in the order, and what became of it.
#[derive(Clone, Copy)]
pub(crate) struct At {
    pub place: u32,
    /// The index of its batch.
    pub batch: u32,
    pub receipt: Receipt,
}

// Puts the word of a kind and a comma.
fn put_kind(line: &mut Line, kind: Kind)
    requires { length line.old + 6 ≤ 512 }
    ensures text { line.new ≡ line.old ++ (kind_word kind ++ 44 ∷ []) }
    ensures size { length line.new ≤ length line.old + 6 }
{
    match kind {
        Kind::Pay => line.put(b"pay,"),
        Kind::PayIf => line.put(b"payif,"),
        Kind::Sweep => line.put(b"sweep,"),
        Kind::Split => line.put(b"split,"),
    }
}

// Puts what a payment asks for.
fn put_payment(line: &mut Line, asked: &Asked)
    requires { length line.old + 160 ≤ 512 }
    ensures text { line.new ≡ line.old ++ commas (asked_fields (Some asked.now)) }
    ensures size { length line.new ≤ length line.old + 160 }
{
    let Asked {
        kind,
        from,
        seq,
        to,
        amount,
        guard,
        min,
        keep,
    } = *asked;
    put_kind(line, kind);
    line.put_number(from, b',');
    line.put_number(seq, b',');
    line.put_number(to, b',');
    line.put_optional(amount, b',');
    line.put_optional(guard, b',');
    line.put_optional(min, b',');
    line.put_optional(keep, b',');
}

// Puts the fields from `kind` to `keep`.
fn put_asked(line: &mut Line, asked: Option<Asked>)
    requires { length line.old + 160 ≤ 512 }
    ensures text { line.new ≡ line.old ++ commas (asked_fields asked) }
    ensures size { length line.new ≤ length line.old + 160 }
{
    match asked {
        Some(asked) => put_payment(line, &asked),
        None => line.put(b"malformed,,,,,,,,"),
    }
}

/// Makes a row.
pub(crate) fn make_row(line: &mut Line, row: &PaymentRow)
    ensures text { line.new ≡ row_text (payment_fields row.now) }
    ensures size { length line.new ≤ 280 }
{
    let PaymentRow {
        place,
        batch,
        item,
        asked,
        status,
        paid,
    } = *row;
    line.clear();
    line.put_number(u64::from(place), b',');
    line.put_number(u64::from(batch), b',');
    line.put_number(u64::from(item), b',');
    put_asked(line, asked);
    line.put_number(u64::from(status.number()), b',');
    line.put_number(paid, b'\n');
}
