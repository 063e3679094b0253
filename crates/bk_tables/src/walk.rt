//! The batches of an order, executed one after another, and what their places do to each account.

ghost use Rattle.std.specs.Prelude.{◌≡◌, ◌+◌, ◌-◌, ◌*◌, ◌≤◌, ◌<◌, ◌^◌, true, false, IsSome, drop, length, map, take, OnOk};
ghost use Rattle.bk_report.specs.Pages.{IsReady, Puts, desk};
ghost use Rattle.bk_rules.specs.Fold.{HasRoom, state_after};
ghost use Rattle.bk_rules.specs.Ledger.{are_covered, ledger_of};
ghost use Rattle.bk_tx.specs.Batches.{count_in, transactions_in, transactions_of};
ghost use Rattle.bk_tables.specs.Postings.{postings_text};
ghost use Rattle.bk_tables.specs.private.Walking.{HasSlotsFor, walk_rows};

use crate::accounts::Accounts;
use crate::parts::put_parts;
use crate::sheet::Sheet;
use crate::texts::next_text;
use bk_base::{Fields, Version};
use bk_frames::Sink;
use bk_order::Intake;
use bk_rules::State;
use bk_tx::{Tx, push_transactions};
use std::alloc::{AllocError, Global};

// Whether transactions are worth it that slots are made for them: to make slots anew costs what all slots cost.
fn are_enough(state: &State, txs: &[Option<Tx>]) -> bool {
    txs.len() > state.slots().len() / 8
}

// Makes a slot for each account that the transactions of the batches from this one on declare.
fn make_slots(
    alloc: Global,
    state: &mut State,
    intake: &Intake,
    first: usize,
) -> Result<(), AllocError>
    requires open { intake.now.failed ≡ false }
    ensures { OnOk result (HasSlotsFor
        (transactions_of (drop first intake.now.ordered.payloads.list)) state.old state.new) }
{
    let mut txs = Vec::new(alloc);
    for index in first..intake.batches() {
        push_transactions(&mut txs, intake.payload(index))?;
        if are_enough(state, &txs) {
            state.prepare(alloc, &txs)?;
            txs.clear();
        }
    }
    state.prepare(alloc, &txs)?;
    Ok(())
}

/// Makes a slot for each account that the transactions of the batches from this one on declare, where they need it: in
/// version One they do not.
pub(crate) fn cover(
    alloc: Global,
    state: &mut State,
    intake: &Intake,
    first: usize,
) -> Result<(), AllocError>
    requires open { intake.now.failed ≡ false }
    ensures { OnOk result (HasSlotsFor
        (transactions_of (drop first intake.now.ordered.payloads.list)) state.old state.new) }
{
    match state.version() {
        Version::One => Ok(()),
        Version::Two => make_slots(alloc, state, intake, first),
    }
}

// Executes a batch, whose first place is this, and puts its rows.
fn put_batch<K: Sink>(
    sink: &mut K,
    sheet: &mut Sheet,
    accounts: &Option<Accounts>,
    state: &mut State,
    payload: &[u8],
    place: usize,
)
    requires ready { IsReady (desk sheet.old.page (K.state sink.old)) }
    requires grammar { IsSome (count_in payload.now) }
    requires covered { are_covered state.old.version state.old.slots
        (transactions_in payload.now) ≡ true }
    requires room { HasRoom state.old.version
        (length (transactions_in payload.now)) state.old.rows }
    requires few { place + length (transactions_in payload.now) < 2 ^ 32 }
    ensures put { Puts (desk sheet.old.page (K.state sink.old))
        (desk sheet.new.page (K.state sink.new))
        (1200 * length (transactions_in payload.now)) (postings_text accounts.now
        (walk_rows state.old.version place (transactions_in payload.now) state.old.rows)) }
    ensures after { state.new ≡ ledger_of state.old.version state.old.slots
        (state_after state.old.version (transactions_in payload.now) state.old.rows) }
{
    let mut texts = Fields::new(payload);
    let Some(count) = texts.u16() else {
        return;
    };
    for index in 0..usize::from(count) {
        let Some(text) = next_text(&mut texts) else {
            return;
        };
        let tx = Tx::decode(text);
        put_parts(sink, sheet, accounts, state, place + index, tx.as_ref());
    }
}

/// Executes the batches of an order from this one on, whose first place is this, and puts their rows.
pub(crate) fn put_batches<K: Sink>(
    sink: &mut K,
    sheet: &mut Sheet,
    accounts: &Option<Accounts>,
    state: &mut State,
    intake: &Intake,
    counts: &[Option<u16>],
    first: usize,
    start: usize,
)
    requires ready { IsReady (desk sheet.old.page (K.state sink.old)) }
    requires open { intake.now.failed ≡ false }
    requires counts { counts.now ≡ map count_in intake.now.ordered.payloads.list }
    requires covered { are_covered state.old.version state.old.slots
        (transactions_of (drop first intake.now.ordered.payloads.list)) ≡ true }
    requires room { HasRoom state.old.version
        (length (transactions_of (drop first intake.now.ordered.payloads.list))) state.old.rows }
    requires few { length (transactions_of intake.now.ordered.payloads.list) < 2 ^ 32 }
    requires within { first ≤ length intake.now.ordered.payloads.list }
    requires places { start ≡ length (transactions_of
        (take first intake.now.ordered.payloads.list)) }
    ensures put { Puts (desk sheet.old.page (K.state sink.old))
        (desk sheet.new.page (K.state sink.new))
        (1200 * (length (transactions_of intake.now.ordered.payloads.list) - start))
        (postings_text accounts.now (walk_rows state.old.version start
        (transactions_of (drop first intake.now.ordered.payloads.list)) state.old.rows)) }
    ensures after { state.new ≡ ledger_of state.old.version state.old.slots
        (state_after state.old.version
        (transactions_of (drop first intake.now.ordered.payloads.list)) state.old.rows) }
{
    let mut place = start;
    for batch in first..counts.len() {
        if let Some(count) = counts[batch] {
            let payload = intake.payload(batch);
            put_batch(sink, sheet, accounts, state, payload, place);
            place += usize::from(count);
        }
    }
}
