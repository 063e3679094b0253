//! The summary of a feed, as text.

ghost use Rattle.std.specs.Prelude.{◌≡◌, IfOk, string_bytes};
ghost use Rattle.bk_base.specs.Feed.{FeedValue};
ghost use Rattle.bk_answer.specs.Values.{closed_value};
ghost use Rattle.bk_answer.specs.Answers.{IsMadeOf};
ghost use Rattle.bk_answer.specs.RunReport.{reach_of};
ghost use Rattle.bk_summary.specs.Summarizing.{IsSummaryText};
ghost use Rattle.bk_summary.specs.Summary.{IsSummaryOf};
ghost use Rattle.bk_summary.specs.Text.{summary_text};

use crate::summary::Summary;
use crate::summing::summary_of;
use crate::text::push_summary;
use bk_answer::{Closed, TextAnswer};
use bk_results::Status;
use std::alloc::{AllocError, Global};
use std::thread::Threads;

// The text of a summary.
fn text_of(alloc: Global, summary: &Summary) -> Result<String, AllocError>
    ensures { IfOk result (λ text. string_bytes text ≡ summary_text summary.now) }
{
    let mut text = String::new(alloc);
    push_summary(&mut text, summary)?;
    Ok(text)
}

// Whether a batch is missing.
fn end_of(summary: &Summary) -> Status
    ensures { result ≡ reach_of summary.now.missing }
{
    match summary.missing {
        Some(_) => Status::Missing,
        None => Status::Whole,
    }
}

// The summary of a feed that was closed.
fn summary_closed<R: Threads + Sync>(
    rt: &R,
    alloc: Global,
    closed: &Closed<'_>,
) -> Result<Summary, AllocError>
    requires closed { (feed : FeedValue) × IsMadeOf (closed_value closed.now) feed }
    ensures { IfOk result (λ s. (feed : FeedValue) → IsMadeOf (closed_value closed.now) feed → IsSummaryOf feed s) }
{
    let order = &closed.order;
    let rounds = order.rounds();
    let waiting = order.waiting()?;
    summary_of(
        rt,
        alloc,
        order.intake,
        rounds,
        &waiting,
        order.opening,
        closed.ledger,
    )
}

/// The summary of a feed, as what it answers. It ends with whether a batch of the order is missing.
#[derive(Clone, Copy)]
pub struct Summarize;

impl TextAnswer for Summarize {
    type End = Status;

    ghost can_ask = { λ _. Unit {0} };

    ghost text = { λ _. IsSummaryText };

    fn text<R: Threads + Sync>(
        &self,
        rt: &R,
        alloc: Global,
        closed: &Closed<'_>,
    ) -> Result<(Status, Vec<u8>), AllocError> {
        let summary = summary_closed(rt, alloc, closed)?;
        let text = text_of(alloc, &summary)?;
        Ok((end_of(&summary), text.into_bytes()))
    }
}
