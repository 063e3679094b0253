//! Payments by the indexes of their accounts.

ghost use Rattle.std.specs.Prelude.{◌≡◌, ◌+◌, ◌^◌, ◌<◌, ℕ, length, IfOk, OnOk, OnErr};
ghost use Rattle.bk_base.specs.declared.version.Version.TheVariants.{One};
ghost use Rattle.bk_rules.specs.Fold.{receipts_of, state_after, HasRoom};
ghost use Rattle.bk_rules.specs.Ledger.{after_of, ledger_of};
ghost use Rattle.bk_rules.specs.Ops.{AreOps, IsOpOf};
ghost use Rattle.bk_rules.specs.Rows.{outcome_of};
ghost use Rattle.bk_rules.specs.private.Paying.{amount_by, numbers_after, numbers_at, payment_status};

use crate::account::Account;
use crate::ops::Op;
use crate::receipt::{PackedReceipt, Receipt, Status, unmoved};
use crate::run::{BLOCK, near_from, sum_of_seqs};
use crate::state::State;
use bk_tx::Tx;
use std::alloc::{AllocError, Global};

// Pays an amount from the account at an index to that at another, if the sender is at this sequence number, the guard has
// enough and the sender has the amount.
#[inline(always)]
fn pay_in(
    numbers: &mut Vec<Account>,
    from: usize,
    to: usize,
    amount: u64,
    seq: u64,
    guarded: bool,
) -> Receipt
    requires from { from < length numbers.old.items }
    requires to { to < length numbers.old.items }
    requires small { (k : ℕ) → (numbers_at numbers.old.items k).balance < 2 ^ 63 }
    requires room { (numbers_at numbers.old.items from).seq + 1 < 2 ^ 64 }
    ensures status { result.status
        ≡ payment_status guarded amount seq (numbers_at numbers.old.items from) }
    ensures moved { result.moved ≡ amount_by result.status amount }
    ensures after { numbers.new.items
        ≡ numbers_after result.status from to amount numbers.old.items }
{
    let sender = numbers[from];
    if seq != sender.seq {
        return unmoved(Status::Stale);
    }
    let counted = Account {
        balance: sender.balance,
        seq: sender.seq + 1,
    };
    if !guarded {
        numbers[from] = counted;
        return unmoved(Status::Guard);
    }
    if sender.balance < amount {
        numbers[from] = counted;
        return unmoved(Status::Funds);
    }
    numbers[from] = Account {
        balance: sender.balance - amount,
        seq: counted.seq,
    };
    let receiver = numbers[to];
    numbers[to] = Account {
        balance: receiver.balance + amount,
        seq: receiver.seq,
    };
    Receipt {
        status: Status::Ok,
        moved: amount,
    }
}

impl State {
    // Applies a transaction by its op, in version One: it is read only where the op is no payment. Then the likely indexes
    // of its accounts are among these.
    pub(crate) fn apply_op(&mut self, tx: &Option<Tx>, op: Op, near: &[u32]) -> Receipt
        requires version { self.old.version ≡ One }
        requires op { IsOpOf self.old.slots tx.now op }
        requires room { HasRoom self.old.version 1 self.old.rows }
        ensures receipt { result ≡ (outcome_of self.old.version tx.now self.old.rows).receipt }
        ensures after { self.new ≡ after_of self.old tx.now }
    {
        match op {
            Op::Pay {
                from,
                to,
                amount,
                seq,
            } => pay_in(
                &mut self.numbers,
                from as usize,
                to as usize,
                amount,
                seq,
                true,
            ),
            Op::PayIf {
                from,
                to,
                guard,
                amount,
                least,
                seq,
            } => {
                let guarded = least <= self.numbers[guard as usize].balance;
                pay_in(
                    &mut self.numbers,
                    from as usize,
                    to as usize,
                    amount,
                    seq,
                    guarded,
                )
            }
            Op::Sweep {
                from,
                to,
                keep,
                seq,
            } => {
                let amount = self.numbers[from as usize].balance.saturating_sub(keep);
                pay_in(
                    &mut self.numbers,
                    from as usize,
                    to as usize,
                    amount,
                    seq,
                    true,
                )
            }
            Op::Other { at } => self.apply_near(tx.as_ref(), near_from(near, at)),
        }
    }
}

/// Applies transactions one after another, and returns their receipts in order, in version One: by the ops that
/// `Ids::push_ops` found among the ids that have a slot, with likely indexes. A transaction whose op is a payment is not
/// read.
///
/// The memory for the receipts is reserved first, so an `Err` leaves the accounts as they were.
pub fn run_ops(
    alloc: Global,
    state: &mut State,
    txs: &[Option<Tx>],
    ops: &[Op],
    known: &[u32],
) -> Result<Vec<PackedReceipt>, AllocError>
    requires version { state.old.version ≡ One }
    requires ops { AreOps state.old.slots txs.now ops.now }
    requires room { HasRoom state.old.version (length txs.now) state.old.rows }
    ensures receipts { IfOk result (λ receipts.
        receipts.items ≡ receipts_of state.old.version txs.now state.old.rows) }
    ensures after { OnOk result (state.new ≡ ledger_of state.old.version state.old.slots
        (state_after state.old.version txs.now state.old.rows)) }
    ensures unchanged { OnErr result (state.new ≡ state.old) }
{
    let mut receipts = Vec::with_capacity(alloc, txs.len())?;
    let mut kept = Vec::with_capacity(alloc, 1)?;
    for i in 0..txs.len() {
        if i % BLOCK == 0 {
            load_rows(&mut kept, state, &ops[i..], known);
        }
        receipts.push(PackedReceipt::of(state.apply_op(&txs[i], ops[i], known)))?;
    }
    Ok(receipts)
}

// Loads the rows of a block, and keeps their sum, as `look_up` does. Of a transaction that is to be read it takes those at
// the next four of the likely indexes, most of which are its own.
fn load_rows(kept: &mut Vec<u32>, state: &State, ops: &[Op], known: &[u32]) {
    let numbers = state.numbers();
    let mut sum = 0u32;
    for op in ops.iter().take(BLOCK) {
        let some = match op {
            Op::Pay { from, to, .. } | Op::Sweep { from, to, .. } => {
                sum_of_seqs(numbers, &[*from, *to])
            }
            Op::PayIf {
                from,
                to,
                guard,
                ..
            } => sum_of_seqs(numbers, &[*from, *to, *guard]),
            Op::Other { at } => match known.get(*at..at.saturating_add(4)) {
                Some(some) => sum_of_seqs(numbers, some),
                None => 0,
            },
        };
        sum = sum.wrapping_add(some);
    }
    kept.clear();
    let _ = kept.push(sum);
}
