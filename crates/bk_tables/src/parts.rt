//! The rows of what a place does to each account that plays a part in it, written.

ghost use Rattle.std.specs.Prelude.{◌≡◌, ◌*◌, ◌≤◌, ◌∷◌, [], Some, None, length, map, true, IfSome};
ghost use Rattle.std.specs.Option.{option_copied};
ghost use Rattle.bk_report.specs.Pages.{IsReady, Puts, desk};
ghost use Rattle.bk_rules.specs.Fold.{HasRoom};
ghost use Rattle.bk_rules.specs.Ledger.{after_of, is_covered};
ghost use Rattle.bk_tx.specs.Spelling.{IsTransaction};
ghost use Rattle.bk_tables.specs.Postings.{picks_posting, postings_text};
ghost use Rattle.bk_tables.specs.private.Walking.{guards_by, one_or_none, played_by, played_in, played_split, receivers_by, row_by, rows_of};

use crate::accounts::Accounts;
use crate::posting::{Posting, make_row};
use crate::rows::paid_by;
use crate::sheet::Sheet;
use bk_frames::Sink;
use bk_rules::{Receipt, State};
use bk_tx::{Body, Payment, Tx};
use bk_views::{Entry, Role};

/// A place, and what became of its transaction.
#[derive(Clone, Copy)]
pub(crate) struct Spot {
    pub place: usize,
    pub receipt: Receipt,
}

/// An account that plays a part in a place, with its amount.
#[derive(Clone, Copy)]
pub(crate) struct Played {
    pub account: u64,
    pub role: Role,
    pub amount: u64,
}

// Whether a row is shown.
fn picks(accounts: &Option<Accounts>, row: &Posting) -> bool
    ensures { result ≡ picks_posting accounts.now row.now }
{
    match accounts {
        Some(accounts) => accounts.has(row.account),
        None => true,
    }
}

// The row of an account, where these are the accounts after the place.
fn row_of(state: &State, spot: Spot, played: Played) -> Posting
    ensures { result ≡ row_by spot state.now.rows played }
{
    let after = state.account(played.account);
    Posting {
        account: played.account,
        entry: Entry {
            place: spot.place,
            status: spot.receipt.status,
            role: played.role,
            amount: played.amount,
            after,
        },
    }
}

// Puts the row of an account, if it is shown.
fn put_part<K: Sink>(
    sink: &mut K,
    sheet: &mut Sheet,
    accounts: &Option<Accounts>,
    state: &State,
    spot: Spot,
    played: Played,
)
    requires { IsReady (desk sheet.old.page (K.state sink.old)) }
    ensures { Puts (desk sheet.old.page (K.state sink.old)) (desk sheet.new.page (K.state sink.new))
        150 (postings_text accounts.now (row_by spot state.now.rows played ∷ [])) }
{
    let row = row_of(state, spot, played);
    if !picks(accounts, &row) {
        return;
    }
    make_row(&mut sheet.line, &row);
    sheet.page.put_text(sink, sheet.line.as_slice());
}

// A receiver that is to get this much, or all that a sweep moved.
fn played_in(receipt: Receipt, to: u64, asked: Option<u64>) -> Played
    ensures { result ≡ played_in receipt to asked }
{
    Played {
        account: to,
        role: Role::In,
        amount: paid_by(receipt, asked),
    }
}

// Puts the rows of the receivers of a split.
fn put_split<K: Sink>(
    sink: &mut K,
    sheet: &mut Sheet,
    accounts: &Option<Accounts>,
    state: &State,
    spot: Spot,
    payments: &[Payment],
)
    requires ready { IsReady (desk sheet.old.page (K.state sink.old)) }
    requires few { length payments.now ≤ 6 }
    ensures { Puts (desk sheet.old.page (K.state sink.old)) (desk sheet.new.page (K.state sink.new))
        900 (postings_text accounts.now
        (map (row_by spot state.now.rows) (map (played_split spot.receipt) payments.now))) }
{
    for payment in payments {
        let played = played_in(spot.receipt, payment.to, Some(payment.amount));
        put_part(sink, sheet, accounts, state, spot, played);
    }
}

// Puts the rows of the receivers.
fn put_receivers<K: Sink>(
    sink: &mut K,
    sheet: &mut Sheet,
    accounts: &Option<Accounts>,
    state: &State,
    spot: Spot,
    body: &Body,
)
    requires { IsReady (desk sheet.old.page (K.state sink.old)) }
    ensures { Puts (desk sheet.old.page (K.state sink.old)) (desk sheet.new.page (K.state sink.new))
        900 (postings_text accounts.now
        (map (row_by spot state.now.rows) (receivers_by spot.receipt body.now))) }
{
    let played = match body {
        Body::Pay { to, amount } | Body::PayIf { to, amount, .. } => {
            played_in(spot.receipt, *to, Some(*amount))
        }
        Body::Sweep { to, .. } => played_in(spot.receipt, *to, None),
        Body::Split { payments } => {
            return put_split(sink, sheet, accounts, state, spot, payments.as_slice());
        }
    };
    put_part(sink, sheet, accounts, state, spot, played);
}

// The guard of a body, if it is neither the sender nor the receiver.
fn lone_guard(from: u64, body: &Body) -> Option<Played>
    ensures { guards_by from body.now ≡ one_or_none result }
{
    match *body {
        Body::PayIf { to, guard, .. } => {
            if guard == from || to == guard {
                return None;
            }
            Some(Played {
                account: guard,
                role: Role::Guard,
                amount: 0,
            })
        }
        Body::Pay { .. } | Body::Sweep { .. } | Body::Split { .. } => None,
    }
}

// Puts the row of a guard.
fn put_guard<K: Sink>(
    sink: &mut K,
    sheet: &mut Sheet,
    accounts: &Option<Accounts>,
    state: &State,
    spot: Spot,
    guard: Option<Played>,
)
    requires { IsReady (desk sheet.old.page (K.state sink.old)) }
    ensures { Puts (desk sheet.old.page (K.state sink.old)) (desk sheet.new.page (K.state sink.new))
        150 (postings_text accounts.now
        (map (row_by spot state.now.rows) (one_or_none guard))) }
{
    if let Some(played) = guard {
        put_part(sink, sheet, accounts, state, spot, played);
    }
}

// Puts the rows of a transaction.
fn put_tx<K: Sink>(
    sink: &mut K,
    sheet: &mut Sheet,
    accounts: &Option<Accounts>,
    state: &State,
    spot: Spot,
    tx: &Tx,
)
    requires { IsReady (desk sheet.old.page (K.state sink.old)) }
    ensures { Puts (desk sheet.old.page (K.state sink.old)) (desk sheet.new.page (K.state sink.new))
        1200 (postings_text accounts.now
        (map (row_by spot state.now.rows) (played_by spot.receipt tx.now))) }
{
    let played = Played {
        account: tx.from(),
        role: Role::Out,
        amount: spot.receipt.moved,
    };
    let guard = lone_guard(tx.from(), tx.body());
    put_part(sink, sheet, accounts, state, spot, played);
    put_receivers(sink, sheet, accounts, state, spot, tx.body());
    put_guard(sink, sheet, accounts, state, spot, guard);
}

/// Executes the transaction of a place, and puts the rows of it that are shown.
pub(crate) fn put_parts<K: Sink>(
    sink: &mut K,
    sheet: &mut Sheet,
    accounts: &Option<Accounts>,
    state: &mut State,
    place: usize,
    tx: Option<&Tx>,
)
    requires ready { IsReady (desk sheet.old.page (K.state sink.old)) }
    requires transaction { IfSome (option_copied tx) IsTransaction }
    requires covers { is_covered state.old.version state.old.slots (option_copied tx) ≡ true }
    requires room { HasRoom state.old.version 1 state.old.rows }
    ensures put { Puts (desk sheet.old.page (K.state sink.old))
        (desk sheet.new.page (K.state sink.new))
        1200 (postings_text accounts.now
        (rows_of place state.old.version state.old.rows (option_copied tx.entry))) }
    ensures after { state.new ≡ after_of state.old (option_copied tx.entry) }
{
    let receipt = state.apply(tx);
    if let Some(tx) = tx {
        put_tx(sink, sheet, accounts, state, Spot { place, receipt }, tx);
    }
}
