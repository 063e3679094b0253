//! What a transaction asks for, and where the accounts that it names are among those that it declares.

ghost use Rattle.std.specs.Prelude.{◌≡◌, ◌&&◌, ◌==◌, ◌≤◌, true, [], ◌∷◌, IfSome, is_some, length, option_map};
ghost use Rattle.std.specs.List.{list_all, position};
ghost use Rattle.bk_tx.specs.Access.{writes, receivers_in};
ghost use Rattle.bk_tx.specs.Spelling.{payments_of, receivers_of};
ghost use Rattle.bk_rules.specs.Rule.{guard_of, is_declared};
ghost use Rattle.bk_rules.specs.private.Roles.{IsAt, AllAt, AreAt, guard_in};

use bk_tx::{Body, Declarations, Payment, Tx};

// A balance that an account has to have.
#[derive(Clone, Copy)]
pub(crate) struct Floor {
    pub id: u64,
    pub least: u64,
}

// A balance that the account at a place has to have.
#[derive(Clone, Copy)]
pub(crate) struct FloorAt {
    pub at: usize,
    pub least: u64,
}

// Where the accounts that a transaction names are among those that it declares.
#[derive(Clone, Copy)]
pub(crate) struct Roles {
    pub from: usize,
    pub to: [usize; 6],
    pub guard: Option<FloorAt>,
}

// The payments that a body asks for out of this balance. Those of a split are its own, and that of another body is put
// into the slot.
#[inline(always)]
pub(crate) fn payments_of<'a>(
    body: &'a Body,
    balance: u64,
    slot: &'a mut [Payment; 1],
) -> &'a [Payment]
    ensures asked { result.now ≡ payments_of balance body.now }
    ensures few { length result.now ≤ 6 }
{
    match body {
        Body::Pay { to, amount } => single(slot, *to, *amount),
        Body::PayIf { to, amount, .. } => single(slot, *to, *amount),
        Body::Sweep { to, keep } => single(slot, *to, balance.saturating_sub(*keep)),
        Body::Split { payments } => payments.as_slice(),
    }
}

// One payment, put into the slot.
#[inline(always)]
fn single(slot: &mut [Payment; 1], to: u64, amount: u64) -> &[Payment]
    ensures { result.now ≡ record { to = to; amount = amount } ∷ [] }
{
    *slot = [Payment { to, amount }];
    slot
}

// The guard of a body, if it has one.
#[inline(always)]
fn guard_of(body: &Body) -> Option<Floor>
    ensures { option_map guard_in result ≡ guard_of body.now }
{
    match *body {
        Body::PayIf { guard, min, .. } => Some(Floor {
            id: guard,
            least: min,
        }),
        _ => None,
    }
}

// The index of an account that is declared for writing.
#[inline(always)]
pub(crate) fn writable_at(declared: &Declarations, id: u64) -> Option<usize>
    ensures first { result ≡ position (λ d. d.writable && d.id == id) declared.now }
    ensures found { IfSome result (IsAt declared.now id) }
{
    declared.writable_at(id)
}

// The index of an account that is declared.
#[inline(always)]
pub(crate) fn declared_at(declared: &Declarations, id: u64) -> Option<usize>
    ensures first { result ≡ position (λ d. d.id == id) declared.now }
    ensures found { IfSome result (IsAt declared.now id) }
{
    declared.declared_at(id)
}

// Finds the indices of the receivers, in their order, if all are declared for writing. The array is filled where it
// lies: one that is returned would be copied right after its words were written, and the copy would wait for them.
#[inline(always)]
fn find_receivers(
    declared: &Declarations,
    payments: &[Payment],
    places: &mut [usize; 6],
) -> Option<()>
    requires few { length payments.now ≤ 6 }
    ensures known { is_some result ≡ list_all (λ p. writes declared.now p.to) payments.now }
    ensures found { IfSome result (λ _. AllAt declared.now payments.now places.new) }
{
    for i in 0..payments.len() {
        places[i] = writable_at(declared, payments[i].to)?;
    }
    Some(())
}

// Finds the indices of the accounts that a transaction names, if they are declared as they have to be. That of the
// sender is there already.
#[inline(always)]
pub(crate) fn find_roles(tx: &Tx, payments: &[Payment], roles: &mut Roles) -> Option<()>
    requires sender { IsAt tx.now.declared tx.now.from roles.old.from }
    requires writable { writes tx.now.declared tx.now.from ≡ true }
    requires receivers { receivers_in payments.now ≡ receivers_of tx.now.body }
    requires few { length payments.now ≤ 6 }
    ensures declared { is_some result ≡ is_declared tx.now }
    ensures found { IfSome result (λ _. AreAt tx.now payments.now roles.new) }
    ensures sender { roles.new.from ≡ roles.old.from }
{
    find_receivers(tx.declared(), payments, &mut roles.to)?;
    roles.guard = match guard_of(tx.body()) {
        None => None,
        Some(floor) => Some(FloorAt {
            at: declared_at(tx.declared(), floor.id)?,
            least: floor.least,
        }),
    };
    Some(())
}
