//! The part that an account plays in a transaction, and what that makes of it.

ghost use Rattle.std.specs.Prelude.{◌≡◌, ◌==◌, ◌+◌, ◌^◌, ◌<◌, unwrap_or, if◌then◌else◌};
ghost use Rattle.std.specs.List.{list_any};
ghost use Rattle.bk_tx.specs.Reading.{pays};
ghost use Rattle.bk_rules.specs.Rule.{Accounts, balance_of, moved_by, new_account, payments_on, received, sent, seq_of, sum_of};
ghost use Rattle.bk_views.specs.Statement.{amount_by, credited_by, guards, paid_to, role_in};
ghost use Rattle.bk_views.specs.declared.entry.Role.TheVariants as part;
ghost use Rattle.bk_views.specs.private.Accounts.{after_part, after_receiving, after_sending};

use crate::entry::Role;
use bk_rules::{Account, Receipt, Status};
use bk_tx::{Body, Payment, Tx};

// Whether one of these payments goes to an account.
fn is_paid(payments: &[Payment], id: u64) -> bool
    ensures { result ≡ list_any (λ p. p.to == id) payments.now }
{
    payments.iter().any(|p| p.to == id)
}

// Whether a body pays an account.
fn pays(body: &Body, id: u64) -> bool
    ensures { result ≡ pays body.now id }
{
    match body {
        Body::Pay { to, .. } | Body::PayIf { to, .. } | Body::Sweep { to, .. } => *to == id,
        Body::Split { payments } => is_paid(payments.as_slice(), id),
    }
}

// Whether an account is the guard of a body.
fn guards(body: &Body, id: u64) -> bool
    ensures { result ≡ guards body.now id }
{
    match *body {
        Body::PayIf { guard, .. } => guard == id,
        Body::Pay { .. } | Body::Sweep { .. } | Body::Split { .. } => false,
    }
}

/// The part of an account in a transaction, if it has one.
pub(crate) fn role_in(tx: &Tx, id: u64) -> Option<Role>
    ensures { result ≡ role_in tx.now id }
{
    if tx.from() == id {
        return Some(Role::Out);
    }
    if pays(tx.body(), id) {
        return Some(Role::In);
    }
    if guards(tx.body(), id) {
        Some(Role::Guard)
    } else {
        None
    }
}

// A payment's amount, if it goes to an account.
fn amount_to(id: u64, to: u64, amount: u64) -> u64
    ensures { result ≡ (if to == id then amount else 0) }
{
    if to == id { amount } else { 0 }
}

// What payments pay to an account together, where that is a number of eight bytes.
fn paid_to(id: u64, payments: &[Payment]) -> u64
    ensures { paid_to id payments.now < 2 ^ 64 → result ≡ paid_to id payments.now }
{
    let mut paid: u64 = 0;
    for payment in payments {
        paid = paid.saturating_add(amount_to(id, payment.to, payment.amount));
    }
    paid
}

// What the transaction of a receipt that counts credits to an account.
fn moved_to(tx: &Tx, moved: u64, id: u64) -> u64
    ensures { (accounts : Accounts) → moved ≡ sum_of (payments_on accounts tx.now)
        → paid_to id (payments_on accounts tx.now) < 2 ^ 64
        → result ≡ paid_to id (payments_on accounts tx.now) }
{
    match tx.body() {
        Body::Pay { to, amount } | Body::PayIf { to, amount, .. } => amount_to(id, *to, *amount),
        Body::Sweep { to, .. } => amount_to(id, *to, moved),
        Body::Split { payments } => paid_to(id, payments.as_slice()),
    }
}

// What a transaction with this receipt credits to an account.
fn credited(tx: &Tx, receipt: Receipt, id: u64) -> u64
    ensures { (accounts : Accounts) → receipt.moved ≡ moved_by receipt.status accounts tx.now
        → credited_by receipt.status accounts tx.now id < 2 ^ 64
        → result ≡ credited_by receipt.status accounts tx.now id }
{
    match receipt.status {
        Status::Ok => moved_to(tx, receipt.moved, id),
        Status::Malformed
        | Status::Undeclared
        | Status::Unknown
        | Status::Stale
        | Status::Guard
        | Status::Funds => 0,
    }
}

/// The amount of the entry of a transaction with this receipt, in which an account plays this part.
pub(crate) fn amount_of(tx: &Tx, receipt: Receipt, role: Role, id: u64) -> u64
    ensures { (accounts : Accounts) → receipt.moved ≡ moved_by receipt.status accounts tx.now
        → (role ≡ part.In → credited_by receipt.status accounts tx.now id < 2 ^ 64)
        → result ≡ amount_by role receipt.moved (credited_by receipt.status accounts tx.now id) }
{
    match role {
        Role::Out => receipt.moved,
        Role::In => credited(tx, receipt, id),
        Role::Guard => 0,
    }
}

// An account, one that comes to be where there is none.
fn or_new(account: Option<Account>) -> Account
    ensures { result ≡ unwrap_or account new_account }
{
    account.unwrap_or(Account { balance: 0, seq: 0 })
}

// The account after it sent this much. Its sequence number has room.
fn sent(account: Option<Account>, amount: u64) -> Account
    ensures { seq_of account + 1 < 2 ^ 64 → result ≡ sent amount (unwrap_or account new_account) }
{
    let Account { balance, seq } = or_new(account);
    Account {
        balance: balance.saturating_sub(amount),
        seq: seq.saturating_add(1),
    }
}

// The account after it received this much. Its balance has room.
fn received(account: Option<Account>, amount: u64) -> Account
    ensures { balance_of account + amount < 2 ^ 64
        → result ≡ received amount (unwrap_or account new_account) }
{
    let Account { balance, seq } = or_new(account);
    Account {
        balance: balance.saturating_add(amount),
        seq,
    }
}

// The account of the sender after a transaction.
fn after_sending(status: Status, moved: u64, account: Option<Account>) -> Option<Account>
    ensures { seq_of account + 1 < 2 ^ 64 → result ≡ after_sending status moved account }
{
    match status {
        Status::Ok => Some(sent(account, moved)),
        Status::Guard | Status::Funds => Some(sent(account, 0)),
        Status::Malformed | Status::Undeclared | Status::Unknown | Status::Stale => account,
    }
}

// The account of a receiver after a transaction.
fn after_receiving(status: Status, credited: u64, account: Option<Account>) -> Option<Account>
    ensures { balance_of account + credited < 2 ^ 64
        → result ≡ after_receiving status credited account }
{
    match status {
        Status::Ok => Some(received(account, credited)),
        Status::Malformed
        | Status::Undeclared
        | Status::Unknown
        | Status::Stale
        | Status::Guard
        | Status::Funds => account,
    }
}

/// The account after a transaction in which it plays a part, with this amount.
pub(crate) fn after_part(
    role: Role,
    status: Status,
    amount: u64,
    account: Option<Account>,
) -> Option<Account>
    ensures { seq_of account + 1 < 2 ^ 64
        → (role ≡ part.In → balance_of account + amount < 2 ^ 64)
        → result ≡ after_part role status amount account }
{
    match role {
        Role::Out => after_sending(status, amount, account),
        Role::In => after_receiving(status, amount, account),
        Role::Guard => account,
    }
}
