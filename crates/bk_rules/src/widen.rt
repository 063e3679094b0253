//! Slots for the accounts that transactions declare.

ghost use Rattle.std.specs.Prelude.{◌≡◌, ◌==◌, ◌||◌, ℕ, map, IfOk, OnOk, IsTrue};
ghost use Rattle.std.specs.Option.{option_copied};
ghost use Rattle.bk_base.specs.Numbers.{is_ascending};
ghost use Rattle.bk_tx.specs.Access.{declares};
ghost use Rattle.bk_rules.specs.Ledger.{has_slot, declares_in, is_declared_by};
ghost use Rattle.bk_rules.specs.private.Slots.{index_or_len, numbers_or_absent, is_grown};

use crate::account::Account;
use crate::ids::Ids;
use bk_tx::{Declarations, Tx};
use std::alloc::{AllocError, Global};

// Puts an id at the end, if it has no slot.
fn add(fresh: &mut Vec<u64>, ids: &Ids, id: u64) -> Result<(), AllocError>
    ensures { OnOk result ((i : ℕ) → is_grown ids.now fresh.new.items i
        ≡ (is_grown ids.now fresh.old.items i || id == i)) }
{
    if ids.contains(id) {
        return Ok(());
    }
    fresh.push(id)?;
    Ok(())
}

// Puts each declared id at the end that has no slot.
fn add_declared(fresh: &mut Vec<u64>, ids: &Ids, declared: &Declarations) -> Result<(), AllocError>
    ensures { OnOk result ((i : ℕ) → is_grown ids.now fresh.new.items i
        ≡ (is_grown ids.now fresh.old.items i || declares declared.now i)) }
{
    for k in 0..declared.len() {
        add(fresh, ids, declared.get(k).id)?;
    }
    Ok(())
}

// The same for a transaction, if it is one.
fn add_of(fresh: &mut Vec<u64>, ids: &Ids, tx: Option<&Tx>) -> Result<(), AllocError>
    ensures { OnOk result ((i : ℕ) → is_grown ids.now fresh.new.items i
        ≡ (is_grown ids.now fresh.old.items i || declares_in i (option_copied tx.entry))) }
{
    match tx {
        None => Ok(()),
        Some(tx) => add_declared(fresh, ids, tx.declared()),
    }
}

/// The declared ids that have no slot, some of them more than once.
pub(crate) fn missing(alloc: Global, ids: &Ids, txs: &[Option<Tx>]) -> Result<Vec<u64>, AllocError>
    ensures { IfOk result (λ fresh. (i : ℕ) → is_grown ids.now fresh.items i
        ≡ (has_slot ids.now i || is_declared_by txs.now i)) }
{
    let mut fresh = Vec::new(alloc);
    for tx in txs {
        add_of(&mut fresh, ids, tx.as_ref())?;
    }
    Ok(fresh)
}

/// The ids of a state and some more, in ascending order.
pub(crate) fn wider(ids: &Ids, more: Vec<u64>) -> Result<Vec<u64>, AllocError>
    ensures ascending { IfOk result (λ wide. IsTrue (is_ascending wide.items)) }
    ensures slots { IfOk result (λ wide. (i : ℕ) → has_slot wide.items i
        ≡ is_grown ids.now more.items i) }
{
    let mut wide = more;
    wide.sort_unstable();
    wide.extend_from_slice(ids.as_slice())?;
    // It merges two lists that ascend.
    wide.sort()?;
    wide.dedup();
    Ok(wide)
}

// The numbers at an index, or those of an absent account.
pub(crate) fn numbers_at(numbers: &[Account], index: usize) -> Account
    ensures { result ≡ numbers_or_absent numbers.now index }
{
    if index < numbers.len() {
        numbers[index]
    } else {
        Account {
            balance: 0,
            seq: u64::MAX,
        }
    }
}

/// The numbers of each id, taken over from those that had a slot.
///
/// Both lists ascend, so that each id is found after the one before it: no table is asked.
pub(crate) fn moved(
    alloc: Global,
    ids: &Ids,
    numbers: &[Account],
    wide: &[u64],
) -> Result<Vec<Account>, AllocError>
    ensures { IfOk result (λ moved.
        moved.items ≡ map (λ i. numbers_or_absent numbers.now (index_or_len ids.now i)) wide.now) }
{
    let mut moved = Vec::with_capacity(alloc, wide.len())?;
    let mut near = 0usize;
    for id in wide {
        let index = ids.index_along(*id, near);
        if index < ids.len() {
            near = index + 1;
        }
        moved.push(numbers_at(numbers, index))?;
    }
    Ok(moved)
}
