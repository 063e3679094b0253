//! The summary of what was taken of a feed and executed.

ghost use Rattle.std.specs.Prelude.{◌≡◌, ◌<◌, ◌^◌, length, IfOk};
ghost use Rattle.bk_commit.specs.Ordering.{IsCommitted};
ghost use Rattle.bk_base.specs.Genesis.{total_of};
ghost use Rattle.bk_report.specs.Leaves.{state_of};
ghost use Rattle.bk_summary.specs.private.Sums.{Sums};

use crate::anchors::anchor_counts;
use crate::batches::batch_counts;
use crate::certs::{cert_counts, member_counts};
use crate::payloads::{committee_digest, genesis_digest};
use crate::summary::Summary;
use crate::txs::tx_counts;
use bk_base::Row;
use bk_cert::CertRef;
use bk_digest::{Digest32, tree_root_with};
use bk_ledger::Ledger;
use bk_order::Intake;
use bk_report::leaves_of;
use bk_rounds::Rounds;
use std::alloc::{AllocError, Global};
use std::thread::Threads;

// How many accounts there are, what they hold together, and the digest of the state.
#[derive(Clone, Copy)]
struct Ending {
    accounts: u64,
    money: u64,
    state: Digest32,
}

// How a ledger ends.
fn ending_of<R: Threads + Sync>(
    rt: &R,
    alloc: Global,
    ledger: &Ledger,
) -> Result<Ending, AllocError>
    ensures accounts { IfOk result (λ e. e.accounts ≡ length ledger.now.state.rows) }
    ensures money { IfOk result (λ e. e.money ≡ total_of ledger.now.state.rows) }
    ensures state { IfOk result (λ e. e.state ≡ state_of ledger.now.state.rows) }
{
    let rows = ledger.state().rows(alloc)?;
    let leaves = leaves_of(alloc, &rows)?;
    Ok(Ending {
        accounts: rows.len() as u64,
        money: ledger.state().total(),
        state: tree_root_with(rt, &leaves),
    })
}

/// The summary of what was taken, of the certificates that wait, of the opening accounts, and of what was executed.
pub(crate) fn summary_of<R: Threads + Sync>(
    rt: &R,
    alloc: Global,
    intake: &Intake,
    rounds: &Rounds,
    waiting: &[CertRef],
    opening: &[Row],
    ledger: &Ledger,
) -> Result<Summary, AllocError>
    requires committed { IsCommitted rounds.now.sizes rounds.now.held intake.now.ordered.anchors }
    requires few { length opening.now < 2 ^ 32 }
    ensures { IfOk result
        (Sums intake.now rounds.now waiting.now opening.now ledger.now) }
{
    let committee = intake.committee();
    let first = committee_digest(alloc, committee)?;
    let second = genesis_digest(alloc, opening)?;
    let anchors = anchor_counts(alloc, rounds, intake)?;
    let ending = ending_of(rt, alloc, ledger)?;
    let missing = intake.missing().copied();
    Ok(Summary {
        version: committee.version(),
        committee: first,
        genesis: second,
        members: member_counts(committee),
        frames: intake.next(),
        certs: cert_counts(intake, waiting),
        anchors,
        batches: batch_counts(intake.tally(), ledger.counts()),
        missing,
        txs: tx_counts(ledger.receipts()),
        accounts: ending.accounts,
        money: ending.money,
        state: ending.state,
    })
}
