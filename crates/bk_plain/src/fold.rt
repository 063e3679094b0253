//! A list of transactions, one at a time.

ghost use Rattle.std.specs.Prelude.{◌≡◌, IfOk};
ghost use Rattle.bk_rules.specs.Fold.{state_after, receipts_of};

use crate::outcome::{Outcome, outcome_of};
use crate::unfit::Unfit;
use bk_base::{Row, Version};
use bk_rules::PackedReceipt;
use bk_tx::Tx;
use std::alloc::Global;

/// The receipts of a list of transactions, and the rows after it.
#[derive(Debug, Drop)]
pub struct Folded {
    /// The receipt of each, in order.
    pub receipts: Vec<PackedReceipt>,
    /// The rows after all of them, by ascending id.
    pub after: Vec<Row>,
}

/// What transactions do on these rows, one after another.
pub fn fold_of(
    alloc: Global,
    version: Version,
    txs: &[Option<Tx>],
    rows: &[Row],
) -> Result<Folded, Unfit>
    ensures receipts { IfOk result (λ f. f.receipts.items ≡ receipts_of version txs.now rows.now) }
    ensures after { IfOk result (λ f. f.after.items ≡ state_after version txs.now rows.now) }
{
    let mut before = Vec::from_slice(alloc, rows)?;
    let mut receipts = Vec::new(alloc);
    for tx in txs {
        let Outcome { receipt, after } = outcome_of(alloc, version, tx.as_ref(), &before)?;
        receipts.push(PackedReceipt::of(receipt))?;
        before = after;
    }
    let after = before;
    Ok(Folded { receipts, after })
}
