//! Transactions, one after another.

ghost use Rattle.std.specs.Prelude.{◌≡◌, true, length, IfOk, OnOk, OnErr};
ghost use Rattle.bk_rules.specs.Fold.{state_after, receipts_of, HasRoom};
ghost use Rattle.bk_rules.specs.Ledger.{ledger_of, are_covered};

use crate::account::Account;
use crate::receipt::PackedReceipt;
use crate::state::State;
use bk_tx::Tx;
use std::alloc::{AllocError, Global};

// How many transactions are looked up together: reads that depend on none before them overlap.
pub(crate) const BLOCK: usize = 512;

/// Applies transactions one after another, and returns their receipts in order. O(n) look-ups of accounts.
///
/// The memory for the receipts is reserved first, so an `Err` leaves the accounts as they were.
pub fn run_in_order(
    alloc: Global,
    state: &mut State,
    txs: &[Option<Tx>],
) -> Result<Vec<PackedReceipt>, AllocError>
    requires covers { are_covered state.old.version state.old.slots txs.now ≡ true }
    requires room { HasRoom state.old.version (length txs.now) state.old.rows }
    ensures receipts { IfOk result (λ receipts.
        receipts.items ≡ receipts_of state.old.version txs.now state.old.rows) }
    ensures after { OnOk result (state.new ≡ ledger_of state.old.version state.old.slots
        (state_after state.old.version txs.now state.old.rows)) }
    ensures unchanged { OnErr result (state.new ≡ state.old) }
{
    run_near(alloc, state, txs, &[])
}

/// The same, where likely indexes of all accounts that the transactions declare were found before, by
/// `Ids::push_likely`; none where they were not. No result depends on them.
pub fn run_near(
    alloc: Global,
    state: &mut State,
    txs: &[Option<Tx>],
    known: &[u32],
) -> Result<Vec<PackedReceipt>, AllocError>
    requires covers { are_covered state.old.version state.old.slots txs.now ≡ true }
    requires room { HasRoom state.old.version (length txs.now) state.old.rows }
    ensures receipts { IfOk result (λ receipts.
        receipts.items ≡ receipts_of state.old.version txs.now state.old.rows) }
    ensures after { OnOk result (state.new ≡ ledger_of state.old.version state.old.slots
        (state_after state.old.version txs.now state.old.rows)) }
    ensures unchanged { OnErr result (state.new ≡ state.old) }
{
    let mut receipts = Vec::with_capacity(alloc, txs.len())?;
    let mut kept = Vec::with_capacity(alloc, 1)?;
    let mut found = Vec::new(alloc);
    if known.is_empty() {
        state.ids().push_likely(&mut found, txs)?;
    }
    let mut near = either(known, &found);
    for (i, tx) in txs.iter().enumerate() {
        if i % BLOCK == 0 {
            load_block(&mut kept, state, near);
        }
        receipts.push(PackedReceipt::of(state.apply_near(tx.as_ref(), near)))?;
        near = near_from(near, count_of(tx.as_ref()));
    }
    Ok(receipts)
}

// The indexes that are known, or else those that were found.
fn either<'a>(known: &'a [u32], found: &'a [u32]) -> &'a [u32] {
    if known.is_empty() { found } else { known }
}

// Loads the ids and rows of a block whose likely indexes begin here: the thread that found them may be another. Their sum is
// kept, since a load whose value nobody keeps would not be made. Most transactions declare two accounts.
fn load_block(kept: &mut Vec<u32>, state: &State, near: &[u32]) {
    let block = match near.get(..2 * BLOCK) {
        Some(block) => block,
        None => near,
    };
    let sum = sum_of_ids(state.ids().as_slice(), block);
    let sum = sum.wrapping_add(sum_of_seqs(state.numbers(), block));
    kept.clear();
    let _ = kept.push(sum);
}

// The sum of some ids, as far as it fits.
fn sum_of_ids(ids: &[u64], near: &[u32]) -> u32 {
    let mut sum = 0u32;
    for index in near {
        if let Some(id) = ids.get(*index as usize) {
            sum = sum.wrapping_add(u32::try_from(*id & 0xffff).unwrap_or(0));
        }
    }
    sum
}

// The sum of some sequence numbers.
pub(crate) fn sum_of_seqs(numbers: &[Account], near: &[u32]) -> u32 {
    let mut sum = 0u32;
    for index in near {
        if let Some(account) = numbers.get(*index as usize) {
            sum = sum.wrapping_add(u32::try_from(account.seq & 0xffff).unwrap_or(0));
        }
    }
    sum
}

// The likely indexes from one on.
pub(crate) fn near_from(near: &[u32], at: usize) -> &[u32] {
    match near.get(at..) {
        Some(rest) => rest,
        None => near,
    }
}

// How many accounts it declares.
pub(crate) fn count_of(tx: Option<&Tx>) -> usize {
    match tx {
        Some(tx) => tx.declared().len(),
        None => 0,
    }
}
