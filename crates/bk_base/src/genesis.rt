//! The payload of frame 1: the opening accounts.

ghost use Rattle.std.specs.Prelude.{◌≡◌, ◌<◌, ◌^◌, ◌++◌, IfOk, IfNone, nat_lt, option_map};
ghost use Rattle.std.specs.List.{list_all};
ghost use Rattle.bk_base.specs.Genesis.{ids_of, total_of, are_accounts, row_at, rows_of};
ghost use Rattle.bk_base.specs.Numbers.{list_at, is_ascending};

use crate::fields::Fields;
use crate::limits::MOST_ACCOUNTS;
use std::alloc::{AllocError, Global};

/// An account as it is at the opening, or at any later moment.
#[derive(Clone, Copy, Debug, PartialEq, Eq)]
pub struct Row {
    /// The account's number.
    pub id: u64,
    /// What it holds, in the smallest unit of money.
    pub balance: u64,
    /// How many transactions of its own have counted.
    pub seq: u64,
}

// The next row.
#[tactic(auto, unfolding(crate::specs::Genesis::row_at))]
fn read_row(fields: &mut Fields) -> Option<Row>
    ensures { option_map (λ r. (r, fields.new)) result ≡ row_at fields.old }
{
    let id = fields.u64()?;
    let balance = fields.u64()?;
    let seq = fields.u64()?;
    Some(Row { id, balance, seq })
}

// The next `count` rows.
fn read_rows(alloc: Global, count: u32, fields: &mut Fields) -> Result<Option<Vec<Row>>, AllocError>
    ensures { IfOk result (λ r. option_map
        (λ v. (v.items, fields.new)) r ≡ list_at row_at count fields.old) }
{
    let mut rows = Vec::new(alloc);
    for _ in 0..count {
        match read_row(fields) {
            Some(row) => rows.push(row)?,
            None => return Ok(None),
        }
    }
    Ok(Some(rows))
}

// Whether each id is below the next.
fn ids_ascend(rows: &[Row]) -> bool
    ensures { result ≡ is_ascending (ids_of rows.now) }
{
    for i in 1..rows.len() {
        if rows[i - 1].id >= rows[i].id {
            return false;
        }
    }
    true
}

// Whether the balances add up to at most 2^63 - 1.
fn total_fits(rows: &[Row]) -> bool
    ensures { result ≡ nat_lt (total_of rows.now) (2 ^ 63) }
{
    let mut left: u64 = (1 << 63) - 1;
    for row in rows {
        if row.balance > left {
            return false;
        }
        left -= row.balance;
    }
    true
}

// Whether each sequence number is below 2^63.
fn are_young(rows: &[Row]) -> bool
    ensures { result ≡ list_all (λ r. nat_lt r.seq (2 ^ 63)) rows.now }
{
    rows.iter().all(|r| r.seq < 1 << 63)
}

// Whether rows are accounts.
fn rows_are_accounts(rows: &[Row]) -> bool
    ensures { result ≡ are_accounts rows.now }
{
    ids_ascend(rows) && are_young(rows) && total_fits(rows)
}

/// The opening accounts that the payload of a genesis holds, `None` where it is the payload of none. O(n).
#[tactic(auto, unfolding(crate::specs::Genesis::rows_of))]
pub fn read_genesis(alloc: Global, payload: &[u8]) -> Result<Option<Vec<Row>>, AllocError>
    ensures { IfOk result (λ r. option_map (λ v. v.items) r ≡ rows_of payload.now) }
{
    let mut fields = Fields::new(payload);
    let Some(count) = fields.u32() else {
        return Ok(None);
    };
    if count > MOST_ACCOUNTS {
        return Ok(None);
    }
    let Some(rows) = read_rows(alloc, count, &mut fields)? else {
        return Ok(None);
    };
    if fields.rest().is_empty() && rows_are_accounts(&rows) {
        Ok(Some(rows))
    } else {
        Ok(None)
    }
}
