//! One transaction on the accounts that it declares.

ghost use Rattle.std.specs.Prelude.{◌≡◌, ◌&&◌, ◌+◌, ◌^◌, ◌<◌, ◌≤◌, ℕ, true, None, IsTrue, IfSome, IfNone, is_some, if◌then◌else◌, nat_le, length, slice_index};
ghost use Rattle.std.specs.List.{list_all, sum_by};
ghost use Rattle.bk_base.specs.Numbers.{is_ascending};
ghost use Rattle.bk_tx.specs.Access.{declared_ids};
ghost use Rattle.bk_tx.specs.Spelling.{payments_of};
ghost use Rattle.bk_rules.specs.Rule.{balance_of, seq_of, is_declared, can_receive};
ghost use Rattle.bk_rules.specs.View.{nth, is_writable, Settles, IsEffect};
ghost use Rattle.bk_rules.specs.private.Roles.{AreAt, floor_passes, credited};

use crate::account::Account;
use crate::local::Local;
use crate::receipt::{Receipt, Status, unmoved};
use crate::roles::{FloorAt, Roles, find_roles, payments_of, writable_at};
use bk_base::Version;
use bk_tx::{Declarations, Payment, Tx};

/// What a transaction does on the accounts that it declares.
#[derive(Clone, Copy, Debug, PartialEq, Eq)]
pub struct Effect {
    /// What became of it.
    pub status: Status,
    /// The money that left the sender.
    pub moved: u64,
    /// The i-th is the i-th declared account afterwards, if that is declared for writing and is there.
    pub writes: [Option<Account>; 8],
}

// Whether all accounts at these places are there.
#[inline(always)]
fn all_there(local: &Local, places: &[usize]) -> bool
    requires { (k : ℕ) → slice_index places.now k < 8 }
    ensures { result ≡ list_all (λ k. is_some (nth local.now k)) places.now }
{
    for k in places {
        if !local.is_there(*k) {
            return false;
        }
    }
    true
}

// Whether all accounts at these places can be paid.
#[inline(always)]
fn can_receive(version: Version, local: &Local, places: &[usize]) -> bool
    requires { (k : ℕ) → slice_index places.now k < 8 }
    ensures { result ≡ list_all (λ k. can_receive version (nth local.now k)) places.now }
{
    match version {
        Version::One => all_there(local, places),
        Version::Two => true,
    }
}

// Whether the guard is there, if there is one.
#[inline(always)]
fn guard_there(local: &Local, guard: Option<FloorAt>) -> bool
    requires { IfSome guard (λ p. p.at < 8) }
    ensures { result ≡ floor_passes (λ p. is_some (nth local.now p.at)) guard }
{
    match guard {
        None => true,
        Some(p) => local.is_there(p.at),
    }
}

// Whether the sender and the guard are there, and the receivers can be paid.
#[inline(always)]
fn are_there(version: Version, local: &Local, roles: &Roles, to: &[usize]) -> bool
    requires sender { roles.now.from < 8 }
    requires receivers { (k : ℕ) → slice_index to.now k < 8 }
    requires guard { IfSome roles.now.guard (λ p. p.at < 8) }
    ensures { result ≡ (is_some (nth local.now roles.now.from)
        && list_all (λ k. can_receive version (nth local.now k)) to.now
        && floor_passes (λ p. is_some (nth local.now p.at)) roles.now.guard) }
{
    local.is_there(roles.from) && can_receive(version, local, to) && guard_there(local, roles.guard)
}

// Whether the guard has enough, if there is one.
#[inline(always)]
fn guard_holds(local: &Local, guard: Option<FloorAt>) -> bool
    requires { IfSome guard (λ p. p.at < 8) }
    ensures { result ≡ floor_passes (λ p. nat_le p.least (balance_of (nth local.now p.at))) guard }
{
    match guard {
        None => true,
        Some(p) => p.least <= local.balance(p.at),
    }
}

// What is left of a balance after all the payments, if it is enough. The sum of the amounts may be too large for a
// number of eight bytes, so each is taken away in turn.
#[inline(always)]
fn left_of(balance: u64, payments: &[Payment]) -> Option<u64>
    ensures enough { IfSome result (λ left. left + sum_by (λ p. p.amount) payments.now ≡ balance) }
    ensures short { IfNone result (balance < sum_by (λ p. p.amount) payments.now) }
{
    let mut left = balance;
    for payment in payments {
        left = left.checked_sub(payment.amount)?;
    }
    Some(left)
}

// Gives each receiver its amount.
#[inline(always)]
fn credit(local: &mut Local, payments: &[Payment], places: &[usize])
    requires same { length places.now ≡ length payments.now }
    requires inside { (k : ℕ) → slice_index places.now k < 8 }
    requires room { (k : ℕ) →
        balance_of (nth local.old k) + sum_by (λ p. p.amount) payments.now < 2 ^ 64 }
    ensures { local.new ≡ credited payments.now places.now local.old }
{
    for i in 0..payments.len() {
        local.receive(places[i], payments[i].amount);
    }
}

// Finds the status of a transaction that is declared, and does what follows from it.
#[inline(always)]
fn settle_at(
    version: Version,
    tx: &Tx,
    payments: &[Payment],
    roles: &Roles,
    local: &mut Local,
) -> Receipt
    requires ascending { IsTrue (is_ascending (declared_ids tx.now.declared)) }
    requires declared { is_declared tx.now ≡ true }
    requires found { AreAt tx.now payments.now roles.now }
    requires asked { payments.now
        ≡ payments_of (balance_of (nth local.old roles.now.from)) tx.now.body }
    requires few { length payments.now ≤ 6 }
    requires few_declared { length tx.now.declared ≤ 8 }
    requires small { (k : ℕ) → balance_of (nth local.old k) < 2 ^ 63 }
    requires room { (k : ℕ) → seq_of (nth local.old k) + 1 < 2 ^ 64 }
    ensures { Settles version tx.now local.old result local.new }
{
    let to = &roles.to[..payments.len()];
    if !are_there(version, local, roles, to) {
        return unmoved(Status::Unknown);
    }
    if tx.seq() != local.seq(roles.from) {
        return unmoved(Status::Stale);
    }
    if !guard_holds(local, roles.guard) {
        local.send(roles.from, 0);
        return unmoved(Status::Guard);
    }
    let balance = local.balance(roles.from);
    let Some(left) = left_of(balance, payments) else {
        local.send(roles.from, 0);
        return unmoved(Status::Funds);
    };
    let moved = balance - left;
    local.send(roles.from, moved);
    credit(local, payments, to);
    Receipt {
        status: Status::Ok,
        moved,
    }
}

/// Does a transaction on the accounts that it declares: the i-th of them is the i-th that is declared.
#[inline(always)]
pub fn settle(version: Version, tx: &Tx, local: &mut Local) -> Receipt
    requires small { (k : ℕ) → balance_of (nth local.old k) < 2 ^ 63 }
    requires room { (k : ℕ) → seq_of (nth local.old k) + 1 < 2 ^ 64 }
    ensures { Settles version tx.now local.old result local.new }
{
    let sender = tx.from();
    let Some(from) = writable_at(tx.declared(), sender) else {
        return unmoved(Status::Undeclared);
    };
    let mut slot = [Payment { to: 0, amount: 0 }];
    let payments = payments_of(tx.body(), local.balance(from), &mut slot);
    let mut roles = Roles {
        from,
        to: [0; 6],
        guard: None,
    };
    match find_roles(tx, payments, &mut roles) {
        None => unmoved(Status::Undeclared),
        Some(()) => settle_at(version, tx, payments, &roles, local),
    }
}

// The accounts of those that are declared for writing.
fn written(declared: &Declarations, local: &Local) -> [Option<Account>; 8]
    ensures { (k : ℕ) →
        nth result k ≡ (if is_writable declared.now k then nth local.now k else None) }
{
    let mut writes = [None; 8];
    for k in 0..declared.len() {
        if declared.get(k).writable {
            writes[k] = local.account(k);
        }
    }
    writes
}

/// Does a transaction on a view of the accounts that it declares: the i-th of the view is the i-th that is declared.
pub fn apply_local(version: Version, tx: &Tx, view: &[Option<Account>; 8]) -> Effect
    requires small { (k : ℕ) → balance_of (nth view.now k) < 2 ^ 63 }
    requires room { (k : ℕ) → seq_of (nth view.now k) + 1 < 2 ^ 64 }
    ensures { IsEffect version tx.now view.now result }
{
    let mut local = Local::of(view);
    let receipt = settle(version, tx, &mut local);
    Effect {
        status: receipt.status,
        moved: receipt.moved,
        writes: written(tx.declared(), &local),
    }
}
