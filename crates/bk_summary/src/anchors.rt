//! How many anchors are committed, skipped or open.

ghost use Rattle.std.specs.Prelude.{◌≡◌, IfOk};
ghost use Rattle.bk_commit.specs.Ordering.{IsCommitted};
ghost use Rattle.bk_summary.specs.Summary.{anchor_counts, is_committed, is_open, is_skipped, rows_by};
ghost use Rattle.bk_summary.specs.private.Sums.{CountsAnchors};

use crate::summary::AnchorCounts;
use bk_order::Intake;
use bk_rounds::Rounds;
use bk_views::{AnchorRow, AnchorState, anchor_rows};
use std::alloc::{AllocError, Global};

// Whether the anchor of a row in this state is committed.
fn is_committed(state: AnchorState) -> bool
    ensures { result ≡ is_committed state }
{
    match state {
        AnchorState::Voted | AnchorState::Linked => true,
        AnchorState::Skipped | AnchorState::Open => false,
    }
}

fn committed_in(rows: &[AnchorRow]) -> usize
    ensures { result ≡ rows_by is_committed rows.now }
{
    rows.iter()
        .filter(
            |row: &&AnchorRow| -> bool
                ensures { result ≡ is_committed row.now.now.state }
            { is_committed(row.state) },
        )
        .count()
}

fn skipped_in(rows: &[AnchorRow]) -> usize
    ensures { result ≡ rows_by is_skipped rows.now }
{
    rows.iter()
        .filter(
            |row: &&AnchorRow| -> bool
                ensures { result ≡ is_skipped row.now.now.state }
            { row.state == AnchorState::Skipped },
        )
        .count()
}

fn open_in(rows: &[AnchorRow]) -> usize
    ensures { result ≡ rows_by is_open rows.now }
{
    rows.iter()
        .filter(
            |row: &&AnchorRow| -> bool
                ensures { result ≡ is_open row.now.now.state }
            { row.state == AnchorState::Open },
        )
        .count()
}

/// How many anchors of the odd rounds up to the top are committed, skipped or open.
pub(crate) fn anchor_counts(
    alloc: Global,
    rounds: &Rounds,
    intake: &Intake,
) -> Result<AnchorCounts, AllocError>
    requires { IsCommitted rounds.now.sizes rounds.now.held intake.now.ordered.anchors }
    ensures { IfOk result (CountsAnchors rounds.now intake.now) }
{
    let rows = anchor_rows(alloc, rounds, intake.anchors())?;
    Ok(AnchorCounts {
        committed: committed_in(&rows) as u64,
        skipped: skipped_in(&rows) as u64,
        left_open: open_in(&rows) as u64,
    })
}
