//! Changes of accounts, one after another, in a list of rows.

ghost use Rattle.std.specs.Prelude.{◌≡◌, ◌+◌, ◌++◌, map, IfOk, OnOk};
ghost use Rattle.bk_rules.specs.Rule.{new_account};
ghost use Rattle.bk_rules.specs.Rows.{changed, row_of, rows_after};
ghost use Rattle.bk_plain.specs.Changes.{meant};

use crate::unfit::Unfit;
use bk_base::Row;
use bk_rules::Account;
use bk_tx::Payment;
use std::alloc::Global;

/// A change of one account.
#[derive(Clone, Copy, Debug, PartialEq, Eq)]
pub enum Change {
    /// The account pays this much, and its sequence number counts up.
    Send { id: u64, paid: u64 },
    /// The receiver gets the amount.
    Receive { payment: Payment },
}

// Whose account it is.
fn id_of(change: Change) -> u64
    ensures { result ≡ (meant change).id }
{
    match change {
        Change::Send { id, .. } => id,
        Change::Receive { payment } => payment.to,
    }
}

// The sum of two numbers, if eight bytes hold it.
fn sum(a: u64, b: u64) -> Result<u64, Unfit>
    ensures { IfOk result (λ sum. sum ≡ a + b) }
{
    match a.checked_add(b) {
        Some(sum) => Ok(sum),
        None => Err(Unfit::TooLarge),
    }
}

// What the change makes of an account.
fn made(change: Change, account: Account) -> Result<Account, Unfit>
    ensures { IfOk result (λ a. a ≡ (meant change).makes account) }
{
    match change {
        Change::Send { paid, .. } => {
            let balance = account.balance.saturating_sub(paid);
            let seq = sum(account.seq, 1)?;
            Ok(Account { balance, seq })
        }
        Change::Receive { payment } => {
            let balance = sum(account.balance, payment.amount)?;
            let seq = account.seq;
            Ok(Account { balance, seq })
        }
    }
}

// The row of a changed account.
fn row_made(change: Change, account: Account) -> Result<Row, Unfit>
    ensures { IfOk result (λ row. row ≡ row_of (meant change).id ((meant change).makes account)) }
{
    let Account { balance, seq } = made(change, account)?;
    let id = id_of(change);
    Ok(Row { id, balance, seq })
}

// The row of an account that comes to be.
fn row_of_new(change: Change) -> Result<Row, Unfit>
    ensures { IfOk result (λ row. row ≡ row_of (meant change).id
        ((meant change).makes new_account)) }
{
    row_made(change, Account { balance: 0, seq: 0 })
}

// Adds the rows as one change leaves them.
fn push_changed(after: &mut Vec<Row>, change: Change, rows: &[Row]) -> Result<(), Unfit>
    ensures { OnOk result (after.new.items ≡ after.old.items ++ changed (meant change) rows.now) }
{
    let Some((row, rest)) = rows.split_first() else {
        after.push(row_of_new(change)?)?;
        return Ok(());
    };
    let Row { id, balance, seq } = *row;
    if id == id_of(change) {
        after.push(row_made(change, Account { balance, seq })?)?;
        after.extend_from_slice(rest)?;
        Ok(())
    } else if id_of(change) < id {
        after.push(row_of_new(change)?)?;
        after.extend_from_slice(rows)?;
        Ok(())
    } else {
        after.push(*row)?;
        push_changed(after, change, rest)
    }
}

/// The rows after these changes, one after another. O(n) for each.
pub fn rows_after(alloc: Global, changes: &[Change], rows: &[Row]) -> Result<Vec<Row>, Unfit>
    ensures { IfOk result (λ after. after.items ≡ rows_after (map meant changes.now) rows.now) }
{
    let mut before = Vec::from_slice(alloc, rows)?;
    for change in changes {
        let mut after = Vec::new(alloc);
        push_changed(&mut after, *change, &before)?;
        before = after;
    }
    Ok(before)
}
