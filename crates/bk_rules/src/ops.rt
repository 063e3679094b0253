//! Payments by the indexes of their accounts, found before they are executed.

ghost use Rattle.std.specs.Prelude.{◌≡◌, ◌+◌, ◌<◌, ◌≤◌, [], Some, true, length, slice_index, IfSome, OnOk};
ghost use Rattle.std.specs.Option.{option_copied};
ghost use Rattle.bk_tx.specs.Access.{declares, writes};
ghost use Rattle.bk_rules.specs.Ops.{AreOps, IsOpOf};

use crate::ids::Ids;
use crate::roles::{declared_at, writable_at};
use crate::run::{BLOCK, count_of, near_from};
use bk_tx::{Body, Declarations, Tx};
use std::alloc::AllocError;

/// What is known of a transaction before it is executed. Contracts say that all but `Other` say all of it: what it names is
/// declared as it has to be, and has these indexes among the ids that have a slot.
#[derive(Clone, Copy, Debug, PartialEq, Eq)]
pub enum Op {
    /// It pays.
    Pay {
        from: u32,
        to: u32,
        amount: u64,
        seq: u64,
    },
    /// It pays if the guard has enough.
    PayIf {
        from: u32,
        to: u32,
        guard: u32,
        amount: u64,
        least: u64,
        seq: u64,
    },
    /// It pays all but so much.
    Sweep {
        from: u32,
        to: u32,
        keep: u64,
        seq: u64,
    },
    /// It is to be read. The likely indexes of its accounts begin there, if there are some.
    Other {
        at: usize,
    },
}

impl Ids {
    /// Puts the op of each transaction at the end, and likely indexes of all accounts that these declare, in their order, at
    /// the end of another list. Where an index is not right, the op says nothing.
    pub fn push_ops(
        &self,
        ops: &mut Vec<Op>,
        near: &mut Vec<u32>,
        txs: &[Option<Tx>],
    ) -> Result<(), AllocError>
        requires { ops.old.items ≡ [] }
        ensures { OnOk result (AreOps self.now txs.now ops.new.items) }
    {
        ops.reserve(txs.len())?;
        let ids = self.as_slice();
        let mut at = near.len();
        for (i, tx) in txs.iter().enumerate() {
            // What is read of a block for its indexes is in the caches for its ops.
            if i % BLOCK == 0 {
                self.push_likely(near, first_of(&txs[i..]))?;
            }
            ops.push(op_of(ids, tx.as_ref(), near.as_slice(), at))?;
            at = at.saturating_add(count_of(tx.as_ref()));
        }
        Ok(())
    }
}

// Those of a block.
fn first_of(txs: &[Option<Tx>]) -> &[Option<Tx>] {
    match txs.get(..BLOCK) {
        Some(block) => block,
        None => txs,
    }
}

// The op of a transaction, the likely indexes of whose accounts begin there.
fn op_of(ids: &[u64], tx: Option<&Tx>, near: &[u32], at: usize) -> Op
    ensures { IsOpOf ids.now (option_copied tx.entry) result }
{
    let Some(tx) = tx else {
        return Op::Other { at };
    };
    match pay_of(ids, tx, near_from(near, at)) {
        Some(op) => op,
        None => Op::Other { at },
    }
}

// The op of a payment whose accounts have the first of these indexes.
fn pay_of(ids: &[u64], tx: &Tx, near: &[u32]) -> Option<Op>
    ensures { IfSome result (IsOpOf ids.now (Some tx.now)) }
{
    let declared = tx.declared();
    let seq = tx.seq();
    match *tx.body() {
        Body::Pay { to, amount } => {
            let from = index_at(ids, declared, near, tx.from())?;
            let to = index_at(ids, declared, near, to)?;
            Some(Op::Pay {
                from,
                to,
                amount,
                seq,
            })
        }
        Body::PayIf {
            to,
            amount,
            guard,
            min,
        } => {
            let from = index_at(ids, declared, near, tx.from())?;
            let to = index_at(ids, declared, near, to)?;
            let guard = read_at(ids, declared, near, guard)?;
            Some(Op::PayIf {
                from,
                to,
                guard,
                amount,
                least: min,
                seq,
            })
        }
        Body::Sweep { to, keep } => {
            let from = index_at(ids, declared, near, tx.from())?;
            let to = index_at(ids, declared, near, to)?;
            Some(Op::Sweep {
                from,
                to,
                keep,
                seq,
            })
        }
        Body::Split { .. } => None,
    }
}

// The likely index of an account that is declared for writing, if it is right.
fn index_at(ids: &[u64], declared: &Declarations, near: &[u32], id: u64) -> Option<u32>
    ensures { IfSome result (λ k. (k < length ids.now) × (id ≡ slice_index ids.now k)
        × (writes declared.now id ≡ true)) }
{
    let k = writable_at(declared, id)?;
    right_at(ids, near, k, id)
}

// The same of one that is declared, for reading or for writing.
fn read_at(ids: &[u64], declared: &Declarations, near: &[u32], id: u64) -> Option<u32>
    ensures { IfSome result (λ k. (k < length ids.now) × (id ≡ slice_index ids.now k)
        × (declares declared.now id ≡ true)) }
{
    let k = declared_at(declared, id)?;
    right_at(ids, near, k, id)
}

// One of these indexes, if the id is there.
fn right_at(ids: &[u64], near: &[u32], k: usize, id: u64) -> Option<u32>
    ensures { IfSome result (λ k. (k < length ids.now) × (id ≡ slice_index ids.now k)) }
{
    let index = *near.get(k)?;
    let found = index as usize;
    if found < ids.len() && ids[found] == id {
        return Some(index);
    }
    None
}
