//! Payments by the indexes of their accounts.
ghost use Rattle.std.specs.Prelude.{◌≡◌, ◌∷◌, []};

use crate::ids::Ids;
use crate::ops::Op;
use crate::paying::run_ops;
use crate::receipt::{PackedReceipt, Receipt, Status};
use crate::state::State;
use bk_base::{Row, Version};
use bk_tx::{Body, Declarations, Declared, Payment, Payments, Tx};
use std::mem::size_of;
use std::test::Fail;

// A payment between two accounts, the first of which is declared for writing and the second as it is said.
fn pay(from: u64, to: u64, amount: u64, seq: u64, writable: bool) -> Result<Option<Tx>, Fail> {
    let sender = Declared {
        id: from,
        writable: true,
    };
    let receiver = Declared { id: to, writable };
    let declared = if from < to {
        [sender, receiver]
    } else {
        [receiver, sender]
    };
    let declared = Declarations::new(&declared).ok_or("more than eight accounts")?;
    let body = Body::Pay { to, amount };
    let tx = Tx::new(declared, seq, from, body).ok_or("it is no transaction")?;
    Ok(Some(tx))
}

// The accounts 1, 3 and 7.
fn three_rows() -> [Row; 3]
    ensures { result ≡ record { id = 1; balance = 10; seq = 0 }
        ∷ record { id = 3; balance = 20; seq = 5 } ∷ record { id = 7; balance = 30; seq = 1 } ∷ [] }
{
    [
        Row {
            id: 1,
            balance: 10,
            seq: 0,
        },
        Row {
            id: 3,
            balance: 20,
            seq: 5,
        },
        Row {
            id: 7,
            balance: 30,
            seq: 1,
        },
    ]
}

// Payments of which the second is malformed, the fourth only reads its receiver, and the last pays an account that has no
// slot.
fn payments() -> Result<[Option<Tx>; 5], Fail> {
    Ok([
        pay(1, 7, 4, 0, true)?,
        None,
        pay(7, 3, 5, 1, true)?,
        pay(1, 3, 1, 0, false)?,
        pay(1, 9, 1, 0, true)?,
    ])
}

// The ops of these and their likely indexes, behind one that is there before.
fn ops_by(rt: &HostRuntime, ids: &Ids) -> Result<(Vec<Op>, Vec<u32>), Fail> {
    let mut ops = Vec::new(rt.alloc());
    let mut near = Vec::from_slice(rt.alloc(), &[5])?;
    ids.push_ops(&mut ops, &mut near, &payments()?)?;
    Ok((ops, near))
}

#[test]
fn ops_in_forty_bytes(rt: HostRuntime) -> Result<(), Fail> {
    assert_eq!(rt; size_of::<Op>(), 40);
    Ok(())
}

#[test]
fn payments_have_indexes(rt: HostRuntime) -> Result<(), Fail> {
    let ids = Ids::new(rt.alloc(), Vec::from_slice(rt.alloc(), &[1, 3, 7])?)?;
    let (ops, near) = ops_by(&rt, &ids)?;
    let wanted = [
        Op::Pay {
            from: 0,
            to: 2,
            amount: 4,
            seq: 0,
        },
        Op::Other { at: 3 },
        Op::Pay {
            from: 2,
            to: 1,
            amount: 5,
            seq: 1,
        },
        Op::Other { at: 5 },
        Op::Other { at: 7 },
    ];
    assert!(rt; ops.as_slice() == wanted.as_slice());
    assert!(rt; near.as_slice() == [5, 0, 2, 1, 2, 0, 1, 0, 3].as_slice());
    Ok(())
}

// A payment of which one account has no slot is no op.
#[test]
fn payments_without_slots(rt: HostRuntime) -> Result<(), Fail> {
    let ids = Ids::new(rt.alloc(), Vec::from_slice(rt.alloc(), &[1, 9])?)?;
    let (ops, _) = ops_by(&rt, &ids)?;
    let wanted = [
        Op::Other { at: 1 },
        Op::Other { at: 3 },
        Op::Other { at: 3 },
        Op::Other { at: 5 },
        Op::Pay {
            from: 0,
            to: 1,
            amount: 1,
            seq: 0,
        },
    ];
    assert!(rt; ops.as_slice() == wanted.as_slice());
    Ok(())
}

// A transaction of the account 1 or 7, which declares 1, 3 and 7, the second of them for reading.
fn of_three(from: u64, body: Body, seq: u64) -> Result<Option<Tx>, Fail> {
    let declared = [
        Declared {
            id: 1,
            writable: true,
        },
        Declared {
            id: 3,
            writable: false,
        },
        Declared {
            id: 7,
            writable: true,
        },
    ];
    let declared = Declarations::new(&declared).ok_or("more than eight accounts")?;
    let tx = Tx::new(declared, seq, from, body).ok_or("it is no transaction")?;
    Ok(Some(tx))
}

// From 1 to 7.
fn pay_if(amount: u64, guard: u64, min: u64, seq: u64) -> Result<Option<Tx>, Fail> {
    let body = Body::PayIf {
        to: 7,
        amount,
        guard,
        min,
    };
    of_three(1, body, seq)
}

// From 7 to 1.
fn sweep(keep: u64, seq: u64) -> Result<Option<Tx>, Fail> {
    of_three(7, Body::Sweep { to: 1, keep }, seq)
}

// From 1 to 7 alone.
fn split(amount: u64, seq: u64) -> Result<Option<Tx>, Fail> {
    let payments = Payments::new(&[Payment { to: 7, amount }]).ok_or("more than six payments")?;
    of_three(1, Body::Split { payments }, seq)
}

#[test]
fn conditions_and_sweeps_have_indexes(rt: HostRuntime) -> Result<(), Fail> {
    let txs = [
        pay_if(4, 3, 20, 0)?,
        sweep(5, 1)?,
        split(2, 3)?,
        pay_if(4, 9, 0, 0)?,
    ];
    let ids = Ids::new(rt.alloc(), Vec::from_slice(rt.alloc(), &[1, 3, 7])?)?;
    let mut ops = Vec::new(rt.alloc());
    let mut near = Vec::new(rt.alloc());
    ids.push_ops(&mut ops, &mut near, &txs)?;
    let wanted = [
        Op::PayIf {
            from: 0,
            to: 2,
            guard: 1,
            amount: 4,
            least: 20,
            seq: 0,
        },
        Op::Sweep {
            from: 2,
            to: 0,
            keep: 5,
            seq: 1,
        },
        Op::Other { at: 6 },
        Op::Other { at: 9 },
    ];
    assert!(rt; ops.as_slice() == wanted.as_slice());
    Ok(())
}

// Receipts of transactions that are executed by their ops, and the accounts after them.
fn by_ops(rt: &HostRuntime, txs: &[Option<Tx>]) -> Result<(Vec<PackedReceipt>, Vec<Row>), Fail> {
    let mut state = State::new(rt.alloc(), Version::One, &three_rows())?;
    let mut near = Vec::new(rt.alloc());
    let mut ops = Vec::new(rt.alloc());
    state.ids().push_ops(&mut ops, &mut near, txs)?;
    let receipts = run_ops(rt.alloc(), &mut state, txs, &ops, &near)?;
    let rows = state.rows(rt.alloc())?;
    Ok((receipts, rows))
}

fn are_receipts(receipts: &[PackedReceipt], wanted: &[(Status, u64)]) -> bool {
    if receipts.len() != wanted.len() {
        return false;
    }
    for (k, (status, moved)) in wanted.iter().enumerate() {
        let receipt = Receipt {
            status: *status,
            moved: *moved,
        };
        if receipts.get(k).map(|packed| packed.receipt()) != Some(receipt) {
            return false;
        }
    }
    true
}

fn are_rows(rows: &[Row], wanted: &[(u64, u64, u64)]) -> bool {
    if rows.len() != wanted.len() {
        return false;
    }
    for (k, (id, balance, seq)) in wanted.iter().enumerate() {
        let row = Row {
            id: *id,
            balance: *balance,
            seq: *seq,
        };
        if rows.get(k).copied() != Some(row) {
            return false;
        }
    }
    true
}

#[test]
fn conditions_and_sweeps_by_their_ops(rt: HostRuntime) -> Result<(), Fail> {
    let txs = [
        pay_if(4, 3, 20, 0)?,
        pay_if(1, 3, 21, 1)?,
        pay_if(7, 1, 6, 2)?,
        sweep(5, 1)?,
        sweep(9, 2)?,
        sweep(0, 9)?,
        split(2, 3)?,
    ];
    let (receipts, rows) = by_ops(&rt, &txs)?;
    let wanted = [
        (Status::Ok, 4),
        (Status::Guard, 0),
        (Status::Funds, 0),
        (Status::Ok, 29),
        (Status::Ok, 0),
        (Status::Stale, 0),
        (Status::Ok, 2),
    ];
    assert!(rt; are_receipts(&receipts, &wanted));
    assert!(rt; are_rows(&rows, &[(1, 33, 4), (3, 20, 5), (7, 7, 3)]));
    Ok(())
}

// What became of payments that are executed by their ops, and the accounts after them.
#[test]
fn payments_by_their_ops(rt: HostRuntime) -> Result<(), Fail> {
    let txs = [
        pay(1, 7, 4, 0, true)?,
        pay(1, 7, 4, 0, true)?,
        pay(1, 7, 7, 1, true)?,
        None,
        pay(1, 3, 6, 2, true)?,
        pay(1, 3, 1, 3, false)?,
        pay(1, 9, 0, 3, true)?,
        pay(7, 1, 34, 1, true)?,
    ];
    let (receipts, rows) = by_ops(&rt, &txs)?;
    let wanted = [
        (Status::Ok, 4),
        (Status::Stale, 0),
        (Status::Funds, 0),
        (Status::Malformed, 0),
        (Status::Ok, 6),
        (Status::Undeclared, 0),
        (Status::Unknown, 0),
        (Status::Ok, 34),
    ];
    assert!(rt; are_receipts(&receipts, &wanted));
    assert!(rt; are_rows(&rows, &[(1, 34, 3), (3, 26, 5), (7, 0, 2)]));
    Ok(())
}
