//! What the body of a transaction asks for.

ghost use Rattle.std.specs.Prelude.{◌≡◌, ◌≤◌, ◌^◌, [], ◌∷◌, nat_lt, IfOk, IfSome, IfNone};
ghost use Rattle.bk_tx.specs.Spelling.{payments_of, receivers_of};
ghost use Rattle.bk_rules.specs.Rule.{sum_of};

use bk_tx::{Body, Payment};
use std::alloc::{AllocError, Global};

/// Whom a body pays, in its order.
pub fn receivers_of(alloc: Global, body: &Body) -> Result<Vec<u64>, AllocError>
    ensures { IfOk result (λ to. to.items ≡ receivers_of body.now) }
{
    match body {
        Body::Pay { to, .. } => Vec::from_slice(alloc, &[*to]),
        Body::PayIf { to, .. } => Vec::from_slice(alloc, &[*to]),
        Body::Sweep { to, .. } => Vec::from_slice(alloc, &[*to]),
        Body::Split { payments } => payments.as_slice().iter().map(|p| p.to).collect(alloc),
    }
}

/// The payments that a body asks for where its sender has this balance. A sweep pays what there is above what it keeps.
pub fn payments_of(alloc: Global, balance: u64, body: &Body) -> Result<Vec<Payment>, AllocError>
    ensures { IfOk result (λ payments. payments.items ≡ payments_of balance body.now) }
{
    match body {
        Body::Pay { to, amount } => one(alloc, *to, *amount),
        Body::PayIf { to, amount, .. } => one(alloc, *to, *amount),
        Body::Sweep { to, keep } => one(alloc, *to, balance.saturating_sub(*keep)),
        Body::Split { payments } => payments.as_slice().iter().copied().collect(alloc),
    }
}

// One payment.
fn one(alloc: Global, to: u64, amount: u64) -> Result<Vec<Payment>, AllocError>
    ensures { IfOk result (λ payments. payments.items
        ≡ record { to = to; amount = amount } ∷ []) }
{
    Vec::from_slice(alloc, &[Payment { to, amount }])
}

// All that these payments pay, if eight bytes hold it.
pub(crate) fn sum_of(payments: &[Payment]) -> Option<u64>
    ensures fits { IfSome result (λ sum. sum ≡ sum_of payments.now) }
    ensures large { IfNone result (2 ^ 64 ≤ sum_of payments.now) }
{
    let mut sum = 0u64;
    for payment in payments {
        sum = sum.checked_add(payment.amount)?;
    }
    Some(sum)
}

// Whether a balance is less than these payments.
pub(crate) fn is_short(balance: u64, payments: &[Payment]) -> bool
    ensures { result ≡ nat_lt balance (sum_of payments.now) }
{
    match sum_of(payments) {
        None => true,
        Some(sum) => balance < sum,
    }
}
