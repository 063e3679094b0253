//! What a feed that was closed replies to a query for which its batches are executed.

ghost use Rattle.std.specs.Prelude.{◌≡◌, ◌∷◌, [], true, false, None, IfOk, MatchOption, slice_get, string_bytes};
ghost use Rattle.bk_rules.specs.Rows.{account_at};
ghost use Rattle.bk_views.specs.Statement.{IsNowhere, IsStatement};
ghost use Rattle.bk_views.specs.Told.{IsRun};
ghost use Rattle.bk_ask.specs.Asking.{IsRepliedOf, Replies, ShowsAccount, ShowsReceipt, ShowsProof, executes};
ghost use Rattle.bk_report.specs.Leaves.{state_of};
ghost use Rattle.bk_report.specs.Lines.{text_of};
ghost use Rattle.bk_report.specs.declared.line.Line.TheVariants as line;
ghost use Rattle.bk_results.specs.declared.query.Query.TheVariants as asked;
ghost use Rattle.bk_results.specs.declared.query.Reply.TheVariants as reply;
ghost use Rattle.bk_report.specs.Proofs.{IsAbsent};
ghost use Rattle.bk_ask.specs.private.Replies.{course_in, ending_of};

use crate::replied::Replied;
use bk_answer::{Closed, ClosedOrder, TextAnswer};
use bk_base::Row;
use bk_digest::{Digest32, tree_root_with};
use bk_ledger::Ledger;
use bk_order::Intake;
use bk_report::{Line, leaves_of, proof_of, push_line};
use bk_results::{Query, Reply};
use bk_rules::{Account, Receipt};
use bk_views::Statement;
use std::alloc::{AllocError, Global};
use std::thread::Threads;

// ---- an account, a receipt, a proof or a digest

// The line of the account with this id, where there is one.
fn account_text(alloc: Global, ledger: &Ledger, id: u64) -> Result<Option<Vec<u8>>, AllocError>
    ensures { IfOk result (λ found. MatchOption found
        (account_at ledger.now.state.rows id ≡ None)
        (λ text. ShowsAccount ledger.now.state.rows id text.items)) }
{
    let Some(account) = ledger.state().account(id) else {
        return Ok(None);
    };
    let Account { balance, seq } = account;
    let mut text = Vec::new(alloc);
    push_line(&mut text, Line::Account { id, balance, seq })?;
    Ok(Some(text))
}

// The line of the transaction at this place, where there is one.
fn receipt_text(alloc: Global, ledger: &Ledger, place: u32) -> Result<Option<Vec<u8>>, AllocError>
    ensures { IfOk result (λ found. MatchOption found
        (slice_get ledger.now.receipts place ≡ None)
        (λ text. ShowsReceipt ledger.now.receipts place text.items)) }
{
    let Some(receipt) = ledger.receipt(place) else {
        return Ok(None);
    };
    let Receipt { status, moved } = receipt;
    let mut text = Vec::new(alloc);
    push_line(
        &mut text,
        Line::Tx {
            place,
            status,
            moved,
        },
    )?;
    Ok(Some(text))
}

// The text of the proof of the account with this id, where there is one.
fn proof_text<R: Threads + Sync>(
    rt: &R,
    alloc: Global,
    ledger: &Ledger,
    id: u64,
) -> Result<Option<Vec<u8>>, AllocError>
    ensures { IfOk result (λ found. MatchOption found (IsAbsent ledger.now.state.rows id)
        (λ text. ShowsProof ledger.now.state.rows id text.items)) }
{
    let rows = ledger.state().rows(alloc)?;
    let Some(proof) = proof_of(rt, alloc, &rows, id)? else {
        return Ok(None);
    };
    let text = proof.text(alloc)?;
    Ok(Some(text))
}

// The digest of the state.
fn state_digest<R: Threads + Sync>(
    rt: &R,
    alloc: Global,
    ledger: &Ledger,
) -> Result<Digest32, AllocError>
    ensures { IfOk result (λ digest. digest ≡ state_of ledger.now.state.rows) }
{
    let rows = ledger.state().rows(alloc)?;
    let leaves = leaves_of(alloc, &rows)?;
    Ok(tree_root_with(rt, &leaves))
}

// The line of a digest that is right.
fn good_text(alloc: Global) -> Result<Vec<u8>, AllocError>
    ensures { IfOk result (λ text. text.items ≡ text_of (line.StateGood ∷ [])) }
{
    let mut text = Vec::new(alloc);
    push_line(&mut text, Line::StateGood)?;
    Ok(text)
}

// The lines of one that is wrong, where this one is right.
fn bad_text(alloc: Global, digest: Digest32) -> Result<Vec<u8>, AllocError>
    ensures { IfOk result (λ text. text.items
        ≡ text_of (line.StateBad ∷ line.State digest ∷ [])) }
{
    let mut text = Vec::new(alloc);
    push_line(&mut text, Line::StateBad)?;
    push_line(&mut text, Line::State { digest })?;
    Ok(text)
}

// The verdict on a digest of the state, and its text.
fn verdict<R: Threads + Sync>(
    rt: &R,
    alloc: Global,
    intake: &Intake,
    ledger: &Ledger,
    opening: &[Row],
    root: Digest32,
) -> Result<(Reply, Vec<u8>), AllocError>
    ensures { IfOk result (λ v. Replies (asked.State root)
        (ending_of intake.now opening.now ledger.now) v.0 v.1.items) }
{
    let digest = state_digest(rt, alloc, ledger)?;
    if root != digest {
        return Ok((Reply::Wrong, bad_text(alloc, digest)?));
    }
    let text = good_text(alloc)?;
    match intake.missing() {
        Some(_) => Ok((Reply::Short, text)),
        None => Ok((Reply::Found, text)),
    }
}

// The reply that something was found, with its text, or that nothing was.
fn reply_with(alloc: Global, found: Option<Vec<u8>>) -> (Reply, Vec<u8>)
    ensures { MatchOption found ((result.0 ≡ reply.Absent) × (result.1.items ≡ []))
        (λ text. (result.0 ≡ reply.Found) × (result.1 ≡ text)) }
{
    match found {
        Some(text) => (Reply::Found, text),
        None => (Reply::Absent, Vec::new(alloc)),
    }
}

// The statement of the account with this id, where it is somewhere.
fn statement_of(
    alloc: Global,
    intake: &Intake,
    opening: &[Row],
    ledger: &Ledger,
    id: u64,
) -> Result<Option<String>, AllocError>
    requires open { intake.now.failed ≡ false }
    requires run { IsRun (course_in intake.now opening.now ledger.now) ledger.now.receipts }
    ensures { IfOk result (λ found. MatchOption found
        (IsNowhere (course_in intake.now opening.now ledger.now) id)
        (λ text. IsStatement (course_in intake.now opening.now ledger.now) id
        (string_bytes text))) }
{
    let mut statement = Statement::open(alloc, id, opening)?;
    for index in 0..intake.batches() {
        statement.take(alloc, intake.payload(index), ledger.receipts())?;
    }
    statement.close()
}

// The reply with it.
fn statement_reply(
    alloc: Global,
    intake: &Intake,
    opening: &[Row],
    ledger: &Ledger,
    id: u64,
) -> Result<(Reply, Vec<u8>), AllocError>
    requires open { intake.now.failed ≡ false }
    requires run { IsRun (course_in intake.now opening.now ledger.now) ledger.now.receipts }
    ensures { IfOk result (λ r. Replies (asked.Statement id)
        (ending_of intake.now opening.now ledger.now) r.0 r.1.items) }
{
    let Some(text) = statement_of(alloc, intake, opening, ledger, id)? else {
        return Ok((Reply::Absent, Vec::new(alloc)));
    };
    let bytes = text.into_bytes();
    match intake.missing() {
        Some(_) => Ok((Reply::Short, bytes)),
        None => Ok((Reply::Found, bytes)),
    }
}

// The reply of what was ordered and executed.
fn reply_of<R: Threads + Sync>(
    rt: &R,
    alloc: Global,
    intake: &Intake,
    opening: &[Row],
    ledger: &Ledger,
    query: &Query,
) -> Result<(Reply, Vec<u8>), AllocError>
    requires executes { executes query.now ≡ true }
    requires open { intake.now.failed ≡ false }
    requires run { IsRun (course_in intake.now opening.now ledger.now) ledger.now.receipts }
    ensures { IfOk result (λ r. Replies query.now (ending_of intake.now opening.now ledger.now) r.0 r.1.items) }
{
    match *query {
        Query::Account { id } => {
            let found = account_text(alloc, ledger, id)?;
            Ok(reply_with(alloc, found))
        }
        Query::Receipt { place } => {
            let found = receipt_text(alloc, ledger, place)?;
            Ok(reply_with(alloc, found))
        }
        Query::Proof { id } => {
            let found = proof_text(rt, alloc, ledger, id)?;
            Ok(reply_with(alloc, found))
        }
        Query::State { root } => verdict(rt, alloc, intake, ledger, opening, root),
        Query::Statement { id } => statement_reply(alloc, intake, opening, ledger, id),
        Query::Order | Query::Anchors => unreachable!(),
    }
}

/// A query for which the batches of the order are executed, as what a feed answers.
#[derive(Clone, Copy)]
pub(crate) struct Executed {
    pub(crate) query: Query,
}

impl TextAnswer for Executed {
    type End = Replied;

    ghost can_ask = { λ asked. executes asked.query ≡ true };

    ghost text = { λ asked. IsRepliedOf asked.query };

    fn text<R: Threads + Sync>(
        &self,
        rt: &R,
        alloc: Global,
        closed: &Closed<'_>,
    ) -> Result<(Replied, Vec<u8>), AllocError> {
        let ClosedOrder { intake, opening } = closed.order;
        let (reply, text) = reply_of(rt, alloc, intake, opening, closed.ledger, &self.query)?;
        let missing = intake.missing().copied();
        Ok((Replied { reply, missing }, text))
    }
}
