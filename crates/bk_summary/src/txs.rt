//! How many transactions there are of each status.

ghost use Rattle.std.specs.Prelude.{◌≡◌, ◌==◌};
ghost use Rattle.bk_rules.specs.Numbers.{number_of};
ghost use Rattle.bk_summary.specs.Summary.{receipts_by, tx_counts};

use crate::summary::TxCounts;
use bk_rules::{PackedReceipt, Status};

// How many receipts have a status.
fn receipts_by(status: Status, receipts: &[PackedReceipt]) -> u64
    ensures { result ≡ receipts_by status receipts.now }
{
    let number = status.number();
    let count = receipts
        .iter()
        .filter(
            |packed: &&PackedReceipt| -> bool
                ensures { result ≡ (number_of packed.now.now.status == number) }
            { packed.receipt().status.number() == number },
        )
        .count();
    count as u64
}

/// How many there are of each.
pub(crate) fn tx_counts(receipts: &[PackedReceipt]) -> TxCounts
    ensures { result ≡ tx_counts receipts.now }
{
    TxCounts {
        all: receipts.len() as u64,
        good: receipts_by(Status::Ok, receipts),
        malformed: receipts_by(Status::Malformed, receipts),
        undeclared: receipts_by(Status::Undeclared, receipts),
        unknown: receipts_by(Status::Unknown, receipts),
        stale: receipts_by(Status::Stale, receipts),
        guard: receipts_by(Status::Guard, receipts),
        funds: receipts_by(Status::Funds, receipts),
    }
}
