//! The status of one transaction on the rows before it.

ghost use Rattle.std.specs.Prelude.{◌≡◌, ◌==◌, ◌&&◌, not, nat_lt, IfOk, IfSome, if◌then◌else◌};
ghost use Rattle.std.specs.List.{list_all, list_any};
ghost use Rattle.bk_tx.specs.Access.{writes, declares};
ghost use Rattle.bk_tx.specs.Spelling.{receivers_of};
ghost use Rattle.bk_rules.specs.Rule.{Guard, balance_at, seq_at, sum_of, payments_on, guard_passes, is_declared, can_receive, are_known, is_known, status_of};
ghost use Rattle.bk_rules.specs.Rows.{account_at};

use crate::accounts::{account_at, balance_of, seq_of};
use crate::asked::{is_short, payments_of, receivers_of};
use bk_base::{Row, Version};
use bk_rules::Status;
use bk_tx::{Body, Declarations, Declared, Payment, Tx};
use std::alloc::{AllocError, Global};

// The declared accounts as a list.
fn listed(alloc: Global, declarations: &Declarations) -> Result<Vec<Declared>, AllocError>
    ensures { IfOk result (λ list. list.items ≡ declarations.now) }
{
    let mut list = Vec::new(alloc);
    for index in 0..declarations.len() {
        list.push(declarations.get(index))?;
    }
    Ok(list)
}

// Whether the account is declared for writing.
fn writes(declared: &[Declared], id: u64) -> bool
    ensures { result ≡ writes declared.now id }
{
    declared.iter().any(|d| d.writable && d.id == id)
}

// Whether the account is declared.
fn declares(declared: &[Declared], id: u64) -> bool
    ensures { result ≡ declares declared.now id }
{
    declared.iter().any(|d| d.id == id)
}

// ---- tests of the guard, which hold where there is none

fn guard_is_declared(declared: &[Declared], body: &Body) -> bool
    ensures { result ≡ guard_passes (λ (g : Guard). declares declared.now g.id) body.now }
{
    match body {
        Body::PayIf { guard, .. } => declares(declared, *guard),
        _ => true,
    }
}

fn guard_is_known(rows: &[Row], body: &Body) -> bool
    ensures { result ≡ guard_passes (λ (g : Guard). is_known (account_at rows.now) g.id) body.now }
{
    match body {
        Body::PayIf { guard, .. } => account_at(rows, *guard).is_some(),
        _ => true,
    }
}

fn guard_holds(rows: &[Row], body: &Body) -> bool
    ensures { result ≡ guard_passes (λ (g : Guard). not (nat_lt
        (balance_at (account_at rows.now) g.id) g.least)) body.now }
{
    match body {
        Body::PayIf { guard, min, .. } => !(balance_of(account_at(rows, *guard)) < *min),
        _ => true,
    }
}

// ---- the tests of the rule

fn all_writable(declared: &[Declared], receivers: &[u64]) -> bool
    ensures { result ≡ list_all (λ to. writes declared.now to) receivers.now }
{
    receivers.iter().all(|to| writes(declared, *to))
}

fn is_declared(alloc: Global, tx: &Tx) -> Result<bool, AllocError>
    ensures { IfOk result (λ yes. yes ≡ is_declared tx.now) }
{
    let declared = listed(alloc, tx.declared())?;
    let receivers = receivers_of(alloc, tx.body())?;
    let sender = writes(&declared, tx.from());
    let all = all_writable(&declared, &receivers);
    let guard = guard_is_declared(&declared, tx.body());
    Ok(sender && all && guard)
}

// Whether an account can be paid: in version One it has to be there.
fn can_receive(version: Version, rows: &[Row], id: u64) -> bool
    ensures { result ≡ can_receive version (account_at rows.now id) }
{
    match version {
        Version::One => account_at(rows, id).is_some(),
        Version::Two => true,
    }
}

fn all_can_receive(version: Version, rows: &[Row], receivers: &[u64]) -> bool
    ensures { result ≡ list_all (λ to. can_receive version (account_at rows.now to)) receivers.now }
{
    receivers.iter().all(|to| can_receive(version, rows, *to))
}

fn are_known(alloc: Global, version: Version, rows: &[Row], tx: &Tx) -> Result<bool, AllocError>
    ensures { IfOk result (λ yes. yes ≡ are_known version (account_at rows.now) tx.now) }
{
    let receivers = receivers_of(alloc, tx.body())?;
    let sender = account_at(rows, tx.from()).is_some();
    let all = all_can_receive(version, rows, &receivers);
    let guard = guard_is_known(rows, tx.body());
    Ok(sender && all && guard)
}

/// The payments that a transaction asks for on these rows.
pub(crate) fn payments_on(alloc: Global, rows: &[Row], tx: &Tx) -> Result<Vec<Payment>, AllocError>
    ensures { IfOk result (λ payments. payments.items ≡ payments_on (account_at rows.now) tx.now) }
{
    payments_of(alloc, balance_of(account_at(rows, tx.from())), tx.body())
}

fn is_unfunded(alloc: Global, rows: &[Row], tx: &Tx) -> Result<bool, AllocError>
    ensures { IfOk result (λ yes. yes ≡ nat_lt (balance_at (account_at rows.now) tx.now.from)
        (sum_of (payments_on (account_at rows.now) tx.now))) }
{
    let payments = payments_on(alloc, rows, tx)?;
    Ok(is_short(balance_of(account_at(rows, tx.from())), &payments))
}

// The first status that applies, by the outcome of each test.
fn first_status(
    is_declared: bool,
    are_known: bool,
    is_next: bool,
    guard_holds: bool,
    is_unfunded: bool,
) -> Status
    ensures { result ≡ (if not is_declared then Status.Undeclared
        else (if not are_known then Status.Unknown
        else (if not is_next then Status.Stale
        else (if not guard_holds then Status.Guard
        else (if is_unfunded then Status.Funds else Status.Ok))))) }
{
    if !is_declared {
        Status::Undeclared
    } else if !are_known {
        Status::Unknown
    } else if !is_next {
        Status::Stale
    } else if !guard_holds {
        Status::Guard
    } else if is_unfunded {
        Status::Funds
    } else {
        Status::Ok
    }
}

/// The status of a transaction on these rows: the first that applies. It fails only where memory runs out.
pub fn status_of(
    alloc: Global,
    version: Version,
    rows: &[Row],
    tx: &Tx,
) -> Result<Status, AllocError>
    ensures { IfOk result (λ status. status ≡ status_of version (account_at rows.now) tx.now) }
{
    let declared = is_declared(alloc, tx)?;
    let known = are_known(alloc, version, rows, tx)?;
    let next = tx.seq() == seq_of(account_at(rows, tx.from()));
    let holds = guard_holds(rows, tx.body());
    let unfunded = is_unfunded(alloc, rows, tx)?;
    Ok(first_status(declared, known, next, holds, unfunded))
}
