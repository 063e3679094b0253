//! The link of a feed, as text.

ghost use Rattle.std.specs.Prelude.{◌≡◌, ◌++◌, ◌<◌, ◌^◌, codes, length, IfOk, string_bytes};
ghost use Rattle.bk_report.specs.Leaves.{state_of};
ghost use Rattle.bk_answer.specs.Values.{closed_value};
ghost use Rattle.bk_chain.specs.Line.{link_line};
ghost use Rattle.bk_chain.specs.Linking.{IsLinkText};
ghost use Rattle.bk_chain.specs.private.Linking.{IsLinkOfClosed};

use crate::line::push_link;
use crate::link::LinkValue;
use bk_answer::{Closed, TextAnswer};
use bk_base::Row;
use bk_digest::{Digest32, tree_root_with};
use bk_report::leaves_of;
use bk_results::Status;
use bk_summary::committee_digest;
use std::alloc::{AllocError, Global};
use std::thread::Threads;

// The digest of the state of some accounts.
fn state_digest<R: Threads + Sync>(
    rt: &R,
    alloc: Global,
    rows: &[Row],
) -> Result<Digest32, AllocError>
    ensures { IfOk result (λ d. d ≡ state_of rows.now) }
{
    let leaves = leaves_of(alloc, rows)?;
    Ok(tree_root_with(rt, &leaves))
}

// The link of a feed that was closed.
fn link_closed<R: Threads + Sync>(
    rt: &R,
    alloc: Global,
    closed: &Closed<'_>,
) -> Result<LinkValue, AllocError>
    requires rows { length closed.now.ledger.now.state.rows < 2 ^ 32 }
    requires receipts { length closed.now.ledger.now.receipts < 2 ^ 32 }
    ensures { IfOk result (IsLinkOfClosed (closed_value closed.now)) }
{
    let intake = closed.order.intake;
    let ledger = closed.ledger;
    let committee = committee_digest(alloc, intake.committee())?;
    let opening = state_digest(rt, alloc, closed.order.opening)?;
    let rows = ledger.state().rows(alloc)?;
    let closing = state_digest(rt, alloc, &rows)?;
    Ok(LinkValue {
        version: intake.committee().version(),
        committee,
        opening,
        closing,
        accounts: rows.len() as u32,
        money: ledger.state().total(),
        transactions: ledger.receipts().len() as u32,
        end: closed.order.reach(),
    })
}

// The line of a link, with its line feed.
fn text_of(alloc: Global, link: &LinkValue) -> Result<String, AllocError>
    ensures { IfOk result (λ text. string_bytes text ≡ link_line link.now ++ codes "\n") }
{
    let mut text = String::new(alloc);
    push_link(&mut text, link)?;
    text.push_str("\n")?;
    Ok(text)
}

/// The link of a feed, as what it answers: one line. It ends with whether a batch of the order is missing.
#[derive(Clone, Copy)]
pub struct Link;

impl TextAnswer for Link {
    type End = Status;

    ghost can_ask = { λ _. Unit {0} };

    ghost text = { λ _. IsLinkText };

    fn text<R: Threads + Sync>(
        &self,
        rt: &R,
        alloc: Global,
        closed: &Closed<'_>,
    ) -> Result<(Status, Vec<u8>), AllocError> {
        let link = link_closed(rt, alloc, closed)?;
        let text = text_of(alloc, &link)?;
        Ok((link.end, text.into_bytes()))
    }
}
