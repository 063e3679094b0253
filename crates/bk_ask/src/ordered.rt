//! What a feed whose order was closed replies to a query of its order alone.

ghost use Rattle.std.specs.Prelude.{◌≡◌, ◌++◌, true, OnOk, IfOk, MatchOption, string_bytes};
ghost use Rattle.bk_commit.specs.Ordering.{IsCommitted};
ghost use Rattle.bk_report.specs.Lines.{text_of};
ghost use Rattle.bk_report.specs.RunLines.{anchor_lines, cert_lines};
ghost use Rattle.bk_ask.specs.Asking.{IsRepliedOf, executes, order_text};
ghost use Rattle.bk_ask.specs.private.Replies.{ShowsRows, ShowsView};
ghost use Rattle.bk_ask.specs.private.Replies.{asked_by};

use crate::replied::Replied;
use bk_answer::{ClosedOrder, OrderAnswer};
use bk_cert::CertRef;
use bk_order::Intake;
use bk_report::{Line, push_line};
use bk_results::{Query, Reply};
use bk_rounds::Rounds;
use bk_views::{anchor_rows, push_rows};
use std::alloc::{AllocError, Global};

/// What is read off the order alone, as what a feed answers.
#[derive(Clone, Copy)]
pub(crate) enum View {
    /// The anchors and the certificates in order.
    Order,
    /// What became of the anchor of each odd round.
    Anchors,
}

/// The view that a query asks for. The others are read off what is executed.
pub(crate) fn view_of(query: &Query) -> Option<View>
    ensures { MatchOption result (executes query.now ≡ true)
        (λ v. query.now ≡ asked_by v) }
{
    match query {
        Query::Order => Some(View::Order),
        Query::Anchors => Some(View::Anchors),
        Query::Account { .. }
        | Query::Receipt { .. }
        | Query::Proof { .. }
        | Query::State { .. }
        | Query::Statement { .. } => None,
    }
}

// Adds the lines of anchors to a text.
fn push_anchors(text: &mut Vec<u8>, anchors: &[CertRef]) -> Result<(), AllocError>
    ensures { OnOk result (text.new.items
        ≡ text.old.items ++ text_of (anchor_lines anchors.now)) }
{
    for place in anchors {
        let CertRef { round, author } = *place;
        push_line(text, Line::Anchor { round, author })?;
    }
    Ok(())
}

// Adds the lines of certificates to a text.
fn push_certs(text: &mut Vec<u8>, order: &[CertRef]) -> Result<(), AllocError>
    ensures { OnOk result (text.new.items ≡ text.old.items ++ text_of (cert_lines order.now)) }
{
    for place in order {
        let CertRef { round, author } = *place;
        push_line(text, Line::Cert { round, author })?;
    }
    Ok(())
}

// The lines of the anchors and of the certificates in order.
fn order_text(alloc: Global, intake: &Intake) -> Result<Vec<u8>, AllocError>
    ensures { IfOk result (λ text. text.items ≡ order_text intake.now.ordered) }
{
    let mut text = Vec::new(alloc);
    push_anchors(&mut text, intake.anchors())?;
    push_certs(&mut text, intake.order())?;
    Ok(text)
}

// The text of the rows of the anchors.
fn anchors_text(alloc: Global, intake: &Intake, rounds: &Rounds) -> Result<String, AllocError>
    requires { IsCommitted rounds.now.sizes rounds.now.held intake.now.ordered.anchors }
    ensures { IfOk result (λ text. ShowsRows rounds.now intake.now (string_bytes text)) }
{
    let rows = anchor_rows(alloc, rounds, intake.anchors())?;
    let mut text = String::new(alloc);
    push_rows(&mut text, &rows)?;
    Ok(text)
}

// The text of a view.
fn view_text(
    alloc: Global,
    intake: &Intake,
    rounds: &Rounds,
    view: View,
) -> Result<Vec<u8>, AllocError>
    requires { IsCommitted rounds.now.sizes rounds.now.held intake.now.ordered.anchors }
    ensures { IfOk result (λ text. ShowsView view rounds.now intake.now text.items) }
{
    match view {
        View::Order => order_text(alloc, intake),
        View::Anchors => {
            let text = anchors_text(alloc, intake, rounds)?;
            Ok(text.into_bytes())
        }
    }
}

impl OrderAnswer for View {
    type End = Replied;

    ghost can_ask = { λ _. Unit {0} };

    ghost text = { λ v. IsRepliedOf (asked_by v) };

    fn text(
        &self,
        alloc: Global,
        order: &ClosedOrder<'_>,
    ) -> Result<(Replied, Vec<u8>), AllocError> {
        let rounds = order.rounds();
        let text = view_text(alloc, order.intake, rounds, *self)?;
        let missing = order.intake.missing().copied();
        let reply = Reply::Found;
        Ok((Replied { reply, missing }, text))
    }
}
