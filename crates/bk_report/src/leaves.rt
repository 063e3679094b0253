//! The tree of all accounts.

ghost use Rattle.std.specs.Prelude.{◌≡◌, IfOk};
ghost use Rattle.bk_report.specs.Leaves.{leaves_of};

use bk_base::Row;
use bk_rules::{Account, account_leaf};
use std::alloc::{AllocError, Global};

/// The leaves of accounts, in their order. O(n).
pub fn leaves_of(alloc: Global, rows: &[Row]) -> Result<Vec<[u8; 24]>, AllocError>
    ensures { IfOk result (λ leaves. leaves.items ≡ leaves_of rows.now) }
{
    let mut leaves = Vec::with_capacity(alloc, rows.len())?;
    for row in rows {
        let Row { id, balance, seq } = *row;
        leaves.push(account_leaf(id, Account { balance, seq }))?;
    }
    Ok(leaves)
}
