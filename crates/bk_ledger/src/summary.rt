//! What a report says of a ledger.

use bk_base::Row;
use bk_rules::PackedReceipt;

/// What batches gave, with the accounts as rows.
#[derive(Drop)]
pub struct Summary {
    /// How many transactions each batch holds, `None` where it is void.
    pub counts: Vec<Option<u16>>,
    /// What became of each transaction.
    pub receipts: Vec<PackedReceipt>,
    /// The accounts after them.
    pub rows: Vec<Row>,
    /// Their balances, added up.
    pub total: u64,
}
