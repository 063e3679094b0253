//! The batches of an order, as what a feed answers.

ghost use Rattle.std.specs.Prelude.{◌≡◌, ◌≤◌, false, length, IfOk};
ghost use Rattle.bk_commit.specs.Ordering.{IsCommitted};
ghost use Rattle.bk_tx.specs.Batches.{count_in};
ghost use Rattle.bk_tables.specs.Tables.{IsBatchTable};
ghost use Rattle.bk_tables.specs.private.Rows.{AreRowsOf, IsTakenOf, row_with, rows_with};

use crate::naming::{Named, firsts_of};
use crate::placing::placed_by;
use crate::text::batches_text;
use bk_answer::{ClosedOrder, OrderAnswer};
use bk_cert::CertRef;
use bk_digest::Digest32;
use bk_order::Intake;
use bk_results::Status;
use bk_rounds::Rounds;
use bk_tx::read_batch;
use std::alloc::{AllocError, Global};

/// A batch of the order.
#[derive(Clone, Copy, Debug, PartialEq, Eq)]
pub struct BatchRow {
    /// SHA-256 of its payload.
    pub digest: Digest32,
    /// The first certificate of the order that names it.
    pub cert: CertRef,
    /// The round of the committed anchor with which that certificate was ordered.
    pub anchor: u32,
    /// How many transactions it holds, `None` where it is void.
    pub count: Option<u16>,
}

// How many transactions a batch holds.
fn count_in(alloc: Global, payload: &[u8]) -> Result<Option<u16>, AllocError>
    ensures { IfOk result (λ count. count ≡ count_in payload.now) }
{
    match read_batch(alloc, payload)? {
        Some(slices) => Ok(Some(slices.len() as u16)),
        None => Ok(None),
    }
}

// The row of a batch.
fn row_of(alloc: Global, named: Named, payload: &[u8]) -> Result<BatchRow, AllocError>
    ensures { IfOk result (λ row. row ≡ row_with named payload.now) }
{
    let count = count_in(alloc, payload)?;
    Ok(BatchRow {
        digest: named.digest,
        cert: named.by.cert,
        anchor: named.by.anchor,
        count,
    })
}

// The rows of the batches that these name, up to the first that is missing.
fn rows_of(alloc: Global, intake: &Intake, named: &[Named]) -> Result<Vec<BatchRow>, AllocError>
    requires open { intake.now.failed ≡ false }
    requires many { length intake.now.ordered.payloads.list ≤ length named.now }
    ensures { IfOk result (λ rows.
        rows.items ≡ rows_with named.now intake.now.ordered.payloads.list) }
{
    let mut rows = Vec::with_capacity(alloc, intake.batches())?;
    for index in 0..intake.batches() {
        let row = row_of(alloc, named[index], intake.payload(index))?;
        rows.push(row)?;
    }
    Ok(rows)
}

// The rows of all batches of an order.
fn all_rows(alloc: Global, rounds: &Rounds, intake: &Intake) -> Result<Vec<BatchRow>, AllocError>
    requires open { intake.now.failed ≡ false }
    requires committed { IsCommitted rounds.now.sizes rounds.now.held intake.now.ordered.anchors }
    requires taken { IsTakenOf rounds.now intake.now.ordered }
    ensures { IfOk result (λ rows. AreRowsOf rounds.now intake.now.ordered rows.items) }
{
    let placed = placed_by(alloc, rounds, intake.anchors())?;
    let named = firsts_of(alloc, intake.stored().key(), rounds, &placed)?;
    rows_of(alloc, intake, named.as_slice())
}

/// The table of the batches of the order, as what a feed answers. It ends with whether a batch is missing.
#[derive(Clone, Copy)]
pub struct Batches;

impl OrderAnswer for Batches {
    type End = Status;

    ghost can_ask = { λ _. Unit {0} };

    ghost text = { λ _. IsBatchTable };

    fn text(
        &self,
        alloc: Global,
        order: &ClosedOrder<'_>,
    ) -> Result<(Status, Vec<u8>), AllocError> {
        let rounds = order.rounds();
        rounds.sound();
        let rows = all_rows(alloc, rounds, order.intake)?;
        let text = batches_text(alloc, &rows)?;
        Ok((order.reach(), text))
    }
}
