//! The columns of the picture.

ghost use Rattle.std.specs.Prelude.{◌≡◌, ◌+◌, ◌<◌, ◌≤◌, ◌↔◌, ℕ, List, IfOk, length, Contains};
ghost use Rattle.bk_cert.specs.declared.place.CertRef.{CertRef};
ghost use Rattle.bk_rounds.specs.Members.{Has};
ghost use Rattle.bk_committee.specs.Sizes.{members};
ghost use Rattle.bk_picture.specs.Picture.{AreCellsOf, AreColumnsOf, HoldSame, IsColumnOf, at_place, graph_with, ring_at};
ghost use Rattle.bk_picture.specs.private.Marks.{AreMarks, IsMark};

use crate::cells::{cell_of, circle_of};
use crate::picture::{Cell, Column};
use bk_cert::CertRef;
use bk_evidence::Held;
use bk_rounds::{Members, Rounds};
use bk_views::AnchorRow;
use std::alloc::{AllocError, Global};

// The row of a round.
fn ring_at(rows: &[AnchorRow], round: u32) -> Option<AnchorRow>
    ensures { result ≡ ring_at rows.now round }
{
    if round % 2 == 1 {
        rows.get((round / 2) as usize).copied()
    } else {
        None
    }
}

// The cells of a round, where these of its members are in the order.
fn cells_of(
    alloc: Global,
    rounds: &Rounds,
    held: &Held,
    marks: Members,
    from: u32,
    round: u32,
) -> Result<Vec<Cell>, AllocError>
    requires first { 1 ≤ from }
    requires same { HoldSame held.now rounds.now.held }
    ensures { IfOk result (λ cells. (anchors order : List CertRef) → IsMark order round marks
        → AreCellsOf (graph_with rounds.now.sizes rounds.now.held anchors order) from round
        cells.items) }
{
    let members = rounds.members();
    let mut cells = Vec::with_capacity(alloc, usize::from(members))?;
    for author in 0..members {
        let place = CertRef { round, author };
        let circle = circle_of(rounds, held, marks, place);
        cells.push(cell_of(rounds, held, from, place, circle))?;
    }
    Ok(cells)
}

// The column of a round, where these of its members are in the order.
fn column_of(
    alloc: Global,
    rounds: &Rounds,
    held: &Held,
    rows: &[AnchorRow],
    marks: Members,
    from: u32,
    round: u32,
) -> Result<Column, AllocError>
    requires first { 1 ≤ from }
    requires same { HoldSame held.now rounds.now.held }
    ensures { IfOk result (λ column. (anchors order : List CertRef) → IsMark order round marks
        → IsColumnOf (graph_with rounds.now.sizes rounds.now.held anchors order) rows.now from
        round column) }
{
    let cells = cells_of(alloc, rounds, held, marks, from, round)?;
    Ok(Column {
        round,
        ring: ring_at(rows, round),
        cells,
    })
}

/// The columns of all rounds of a picture, where these are the rows of its anchors and these of the members of each
/// round are in the order.
pub(crate) fn columns_of(
    alloc: Global,
    rounds: &Rounds,
    held: &Held,
    rows: &[AnchorRow],
    marks: &[Members],
    from: u32,
    count: u32,
) -> Result<Vec<Column>, AllocError>
    requires first { (1 ≤ from) × (from ≤ 1000000) }
    requires few { count ≤ 1000 }
    requires sized { length marks.now ≡ count }
    requires same { HoldSame held.now rounds.now.held }
    ensures { IfOk result (λ columns. (anchors order : List CertRef)
        → AreMarks order from count marks.now
        → AreColumnsOf (graph_with rounds.now.sizes rounds.now.held anchors order) rows.now from
        count columns.items) }
{
    let mut columns = Vec::with_capacity(alloc, count as usize)?;
    for k in 0..count {
        let mark = marks[k as usize];
        let column = column_of(alloc, rounds, held, rows, mark, from, from + k)?;
        columns.push(column)?;
    }
    Ok(columns)
}
