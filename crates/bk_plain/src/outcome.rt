//! What one transaction does on the rows before it.

ghost use Rattle.std.specs.Prelude.{◌≡◌, ◌∷◌, map, IfOk};
ghost use Rattle.std.specs.Option.{option_copied};
ghost use Rattle.bk_rules.specs.Rule.{changes_of, moved_by, receive, send, sum_of};
ghost use Rattle.bk_rules.specs.Rows.{account_at, outcome_of, rows_after};
ghost use Rattle.bk_plain.specs.Changes.{meant};

use crate::asked::sum_of;
use crate::change::{Change, rows_after};
use crate::status::{payments_on, status_of};
use crate::unfit::Unfit;
use bk_base::{Row, Version};
use bk_rules::{Receipt, Status};
use bk_tx::{Payment, Tx};
use std::alloc::Global;

/// The receipt of a transaction, and the rows after it.
#[derive(Debug, Drop)]
pub struct Outcome {
    /// What became of it.
    pub receipt: Receipt,
    /// The rows after it, by ascending id.
    pub after: Vec<Row>,
}

// The sum of payments, if eight bytes hold it.
fn paid_by(payments: &[Payment]) -> Result<u64, Unfit>
    ensures { IfOk result (λ paid. paid ≡ sum_of payments.now) }
{
    match sum_of(payments) {
        Some(paid) => Ok(paid),
        None => Err(Unfit::TooLarge),
    }
}

// The sender's change, and then that of each receiver.
fn paying(alloc: Global, from: u64, payments: &[Payment]) -> Result<Vec<Change>, Unfit>
    ensures { IfOk result (λ changes. map meant changes.items
        ≡ send from (sum_of payments.now) ∷ map receive payments.now) }
{
    let paid = paid_by(payments)?;
    let mut changes = Vec::from_slice(alloc, &[Change::Send { id: from, paid }])?;
    for payment in payments {
        changes.push(Change::Receive { payment: *payment })?;
    }
    Ok(changes)
}

/// The changes that follow from a status, one after another.
pub fn changes_of(
    alloc: Global,
    status: Status,
    rows: &[Row],
    tx: &Tx,
) -> Result<Vec<Change>, Unfit>
    ensures { IfOk result (λ changes. map meant changes.items
        ≡ changes_of status (account_at rows.now) tx.now) }
{
    match status {
        Status::Ok => {
            let payments = payments_on(alloc, rows, tx)?;
            paying(alloc, tx.from(), &payments)
        }
        Status::Guard | Status::Funds => {
            let changes = Vec::from_slice(
                alloc,
                &[Change::Send {
                    id: tx.from(),
                    paid: 0,
                }],
            )?;
            Ok(changes)
        }
        Status::Malformed | Status::Undeclared | Status::Unknown | Status::Stale => {
            Ok(Vec::new(alloc))
        }
    }
}

// The money that is moved.
fn moved_by(alloc: Global, status: Status, rows: &[Row], tx: &Tx) -> Result<u64, Unfit>
    ensures { IfOk result (λ moved. moved ≡ moved_by status (account_at rows.now) tx.now) }
{
    match status {
        Status::Ok => {
            let payments = payments_on(alloc, rows, tx)?;
            paid_by(&payments)
        }
        Status::Malformed
        | Status::Undeclared
        | Status::Unknown
        | Status::Stale
        | Status::Guard
        | Status::Funds => Ok(0),
    }
}

// What follows from a status.
fn settled(alloc: Global, status: Status, rows: &[Row], tx: &Tx) -> Result<Outcome, Unfit>
    ensures receipt { IfOk result (λ o. o.receipt ≡ record {
      status = status;
      moved = moved_by status (account_at rows.now) tx.now;
    }) }
    ensures after { IfOk result (λ o. o.after.items
        ≡ rows_after (changes_of status (account_at rows.now) tx.now) rows.now) }
{
    let moved = moved_by(alloc, status, rows, tx)?;
    let changes = changes_of(alloc, status, rows, tx)?;
    let after = rows_after(alloc, &changes, rows)?;
    let receipt = Receipt { status, moved };
    Ok(Outcome { receipt, after })
}

/// What a transaction does on these rows, or bytes that are none: its receipt, and the rows after it.
pub fn outcome_of(
    alloc: Global,
    version: Version,
    tx: Option<&Tx>,
    rows: &[Row],
) -> Result<Outcome, Unfit>
    ensures receipt { IfOk result (λ o. o.receipt
        ≡ (outcome_of version (option_copied tx.entry) rows.now).receipt) }
    ensures after { IfOk result (λ o. o.after.items
        ≡ (outcome_of version (option_copied tx.entry) rows.now).after) }
{
    match tx {
        None => {
            let after = Vec::from_slice(alloc, rows)?;
            let receipt = Receipt {
                status: Status::Malformed,
                moved: 0,
            };
            Ok(Outcome { receipt, after })
        }
        Some(tx) => {
            let status = status_of(alloc, version, rows, tx)?;
            settled(alloc, status, rows, tx)
        }
    }
}
