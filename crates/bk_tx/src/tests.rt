ghost use Rattle.std.specs.Prelude.{◌<◌};

use super::*;
use std::alloc::{AllocError, Global};
use std::process::Abort;
use std::test::*;

/// Account 1 pays 30 to account 2; both are declared for writing.
const PAY: [u8; 52] = [
    1, 2, // kind, count
    1, 0, 0, 0, 0, 0, 0, 0, 1, // declared
    1, 0, 0, 0, 0, 0, 0, 0, 2, // declared
    0, 0, 0, 0, 0, 0, 0, 0, // sequence number
    0, 0, 0, 0, 0, 0, 0, 1, // from
    0, 0, 0, 0, 0, 0, 0, 2, // to
    0, 0, 0, 0, 0, 0, 0, 30, // amount
];

/// Account 5 pays 1 to account 258 if account 7 has at least 9.
const PAY_IF: [u8; 77] = [
    2, 3, // kind, count
    1, 0, 0, 0, 0, 0, 0, 0, 5, // declared
    0, 0, 0, 0, 0, 0, 0, 0, 7, // declared
    1, 0, 0, 0, 0, 0, 0, 1, 2, // declared
    128, 0, 0, 0, 0, 0, 0, 6, // sequence number
    0, 0, 0, 0, 0, 0, 0, 5, // from
    0, 0, 0, 0, 0, 0, 1, 2, // to
    0, 0, 0, 0, 0, 0, 0, 1, // amount
    0, 0, 0, 0, 0, 0, 0, 7, // guard
    0, 0, 0, 0, 0, 0, 0, 9, // min
];

/// Account 1 gives account 2 all that it has above 7.
const SWEEP: [u8; 52] = [
    3, 2, // kind, count
    1, 0, 0, 0, 0, 0, 0, 0, 1, // declared
    1, 0, 0, 0, 0, 0, 0, 0, 2, // declared
    0, 0, 0, 0, 0, 0, 0, 0, // sequence number
    0, 0, 0, 0, 0, 0, 0, 1, // from
    0, 0, 0, 0, 0, 0, 0, 2, // to
    0, 0, 0, 0, 0, 0, 0, 7, // keep
];

/// Account 3 pays 5 to account 2 and 2^64 - 1 to account 4.
const SPLIT: [u8; 60] = [
    4, 1, // kind, count
    1, 0, 0, 0, 0, 0, 0, 0, 3, // declared
    0, 0, 0, 0, 0, 0, 0, 9, // sequence number
    0, 0, 0, 0, 0, 0, 0, 3, // from
    2, // count of payments
    0, 0, 0, 0, 0, 0, 0, 2, // to
    0, 0, 0, 0, 0, 0, 0, 5, // amount
    0, 0, 0, 0, 0, 0, 0, 4, // to
    255, 255, 255, 255, 255, 255, 255, 255, // amount
];

/// `PAY` with one byte changed.
fn changed(at: usize, byte: u8) -> [u8; 52] {
    let mut text = PAY;
    if let Some(it) = text.get_mut(at) {
        *it = byte;
    }
    text
}

/// `SPLIT` with one byte changed.
fn split_changed(at: usize, byte: u8) -> [u8; 60] {
    let mut text = SPLIT;
    if let Some(it) = text.get_mut(at) {
        *it = byte;
    }
    text
}

/// A split of account 1 among so many, 2, 3 and on, that get nothing.
fn splitting(alloc: Global, count: u8) -> Result<Vec<u8>, AllocError>
    requires { count < 100 }
{
    let mut text = vec![in alloc; 4]?;
    text.extend_from_slice(&PAY[1..36])?;
    text.push(count)?;
    for k in 0..count {
        text.extend_from_slice(&[0, 0, 0, 0, 0, 0, 0, k + 2])?;
        text.extend_from_slice(&[0; 8])?;
    }
    Ok(text)
}

/// A payment of account 1 with so many declared accounts, 1, 2 and on.
fn declaring(alloc: Global, count: u8) -> Result<Vec<u8>, AllocError> {
    let mut text = vec![in alloc; 1, count]?;
    for id in 1..=count {
        text.extend_from_slice(&[1, 0, 0, 0, 0, 0, 0, 0, id])?;
    }
    text.extend_from_slice(&PAY[20..])?;
    Ok(text)
}

// A transaction of these parts.
fn made(declared: &[Declared], seq: u64, from: u64, body: Body) -> Option<Tx> {
    Tx::new(Declarations::new(declared)?, seq, from, body)
}

// A split of these payments.
fn split(payments: &[Payment]) -> Option<Body> {
    Some(Body::Split {
        payments: Payments::new(payments)?,
    })
}

// A declared account.
fn account(id: u64, writable: bool) -> Declared {
    Declared { id, writable }
}

// This transaction and a copy of it are written so.
fn expect_bytes(rt: &impl Abort, alloc: Global, tx: &Tx, text: &[u8]) -> Result<(), Fail> {
    assert!(rt; tx.encode(alloc)?.as_slice() == text);
    assert!(rt; tx.copy().encode(alloc)?.as_slice() == text);
    Ok(())
}

// A transaction with one byte more or one byte less is none.
fn expect_one_length(rt: &impl Abort, alloc: Global, text: &[u8]) -> Result<(), Fail> {
    let mut other = Vec::from_slice(alloc, text)?;
    other.push(0)?;
    assert!(rt; Tx::decode(&other).is_none());
    let _ = other.pop();
    let _ = other.pop();
    assert!(rt; Tx::decode(&other).is_none());
    Ok(())
}

#[test]
fn pay_is_read(rt: HostRuntime) -> Result<(), Fail> {
    let tx = Tx::decode(&PAY).ok_or("the bytes are a payment")?;
    assert!(rt; tx.declared().ids() == [1, 2].as_slice());
    assert!(rt; tx.declared().writable_at(1) == Some(0));
    assert!(rt; tx.declared().writable_at(2) == Some(1));
    assert!(rt; tx.seq() == 0 && tx.from() == 1);
    assert!(rt; matches!(tx.body(), Body::Pay { to: 2, amount: 30 }));
    expect_bytes(&rt, rt.alloc(), &tx, &PAY)
}

#[test]
fn pay_is_made(rt: HostRuntime) -> Result<(), Fail> {
    let both = [account(1, true), account(2, true)];
    let tx = made(&both, 0, 1, Body::Pay { to: 2, amount: 30 }).ok_or("it is a payment")?;
    expect_bytes(&rt, rt.alloc(), &tx, &PAY)
}

#[test]
fn pay_if_is_read(rt: HostRuntime) -> Result<(), Fail> {
    let tx = Tx::decode(&PAY_IF).ok_or("the bytes are a payment")?;
    assert!(rt; tx.seq() == 9223372036854775814 && tx.from() == 5);
    let wanted = matches!(
        tx.body(),
        Body::PayIf {
            to: 258,
            amount: 1,
            guard: 7,
            min: 9,
        }
    );
    assert!(rt; wanted);
    expect_bytes(&rt, rt.alloc(), &tx, &PAY_IF)
}

#[test]
fn a_guard_is_declared_for_reading(rt: HostRuntime) -> Result<(), Fail> {
    let tx = Tx::decode(&PAY_IF).ok_or("the bytes are a payment")?;
    let declared = tx.declared();
    assert!(rt; declared.writable_at(258) == Some(2));
    assert!(rt; declared.writable_at(7).is_none());
    assert!(rt; declared.declared_at(7).is_some() && declared.declared_at(2).is_none());
    assert!(rt; declared.declared_at(258) == Some(2));
    Ok(())
}

#[test]
fn sweep_is_read(rt: HostRuntime) -> Result<(), Fail> {
    let tx = Tx::decode(&SWEEP).ok_or("the bytes are a sweep")?;
    assert!(rt; tx.from() == 1);
    assert!(rt; matches!(tx.body(), Body::Sweep { to: 2, keep: 7 }));
    expect_bytes(&rt, rt.alloc(), &tx, &SWEEP)
}

// What `SPLIT` pays.
const PAID: [Payment; 2] = [
    Payment { to: 2, amount: 5 },
    Payment {
        to: 4,
        amount: u64::MAX,
    },
];

#[test]
fn split_is_read(rt: HostRuntime) -> Result<(), Fail> {
    let tx = Tx::decode(&SPLIT).ok_or("the bytes are a split")?;
    let Body::Split { payments } = tx.body() else {
        return Err("the kind is that of a split".into());
    };
    assert!(rt; payments.as_slice() == PAID.as_slice());
    expect_bytes(&rt, rt.alloc(), &tx, &SPLIT)
}

#[test]
fn split_is_made(rt: HostRuntime) -> Result<(), Fail> {
    let body = split(&PAID).ok_or("two are not too many")?;
    let tx = made(&[account(3, true)], 9, 3, body).ok_or("it is a split")?;
    expect_bytes(&rt, rt.alloc(), &tx, &SPLIT)
}

#[test]
fn each_fault_of_a_sweep_is_refused(rt: HostRuntime) -> Result<(), Fail> {
    let mut to_itself = SWEEP;
    to_itself[43] = 1;
    assert!(rt; Tx::decode(&to_itself).is_none());
    expect_one_length(&rt, rt.alloc(), &SWEEP)
}

#[test]
fn each_fault_of_a_split_is_refused(rt: HostRuntime) -> Result<(), Fail> {
    let faults = [
        ("one payment counted of two", 27, 1),
        ("three counted of two", 27, 3),
        ("equal receivers", 51, 2),
        ("descending receivers", 51, 1),
        ("first receiver is sender", 35, 3),
        ("last receiver is sender", 51, 3),
    ];
    for (name, at, byte) in faults {
        assert!(rt; Tx::decode(&split_changed(at, byte)).is_none(), "{name}");
    }
    expect_one_length(&rt, rt.alloc(), &SPLIT)
}

#[test]
fn a_split_has_at_most_six_receivers(rt: HostRuntime) -> Result<(), Fail> {
    for (count, is_some) in [(0, false), (1, true), (6, true), (7, false)] {
        let text = splitting(rt.alloc(), count)?;
        assert!(rt; Tx::decode(&text).is_some() == is_some, "{count} receivers");
    }
    Ok(())
}

#[test]
fn each_fault_is_refused(rt: HostRuntime) -> Result<(), Fail> {
    let faults = [
        ("kind 0", 0, 0),
        ("kind 5", 0, 5),
        ("kind 2 with too few fields", 0, 2),
        ("mode 2", 2, 2),
        ("equal ids", 19, 1),
        ("descending ids", 10, 3),
        ("receiver is sender", 43, 1),
    ];
    for (name, at, byte) in faults {
        assert!(rt; Tx::decode(&changed(at, byte)).is_none(), "{name}");
    }
    assert!(rt; Tx::decode(&[]).is_none());
    expect_one_length(&rt, rt.alloc(), &PAY)
}

#[test]
fn at_most_eight_accounts_are_declared(rt: HostRuntime) -> Result<(), Fail> {
    for (count, is_some) in [(0, false), (1, true), (8, true), (9, false)] {
        let text = declaring(rt.alloc(), count)?;
        assert!(rt; Tx::decode(&text).is_some() == is_some, "{count} declared");
    }
    Ok(())
}

// Where the texts of this batch lie.
fn slices_of(alloc: Global, bytes: &[u8]) -> Result<Vec<Slice>, Fail> {
    Ok(read_batch(alloc, bytes)?.ok_or("it is a batch")?)
}

#[test]
fn a_batch_is_cut(rt: HostRuntime) -> Result<(), Fail> {
    let mut payload = vec![in rt.alloc(); 0, 1, 0, 52]?;
    payload.extend_from_slice(&PAY)?;
    let slice = Slice { start: 4, len: 52 };
    assert!(rt; slices_of(rt.alloc(), &payload)?.as_slice() == [slice].as_slice());
    assert!(rt; payload.len() == 56);
    assert!(rt; slice.of(&payload) == PAY.as_slice());
    Ok(())
}

#[test]
fn batches_of_short_texts(rt: HostRuntime) -> Result<(), Fail> {
    assert!(rt; slices_of(rt.alloc(), &[0, 0])?.is_empty());
    let two = [Slice { start: 4, len: 0 }, Slice { start: 6, len: 1 }];
    let slices = slices_of(rt.alloc(), &[0, 2, 0, 0, 0, 1, 9])?;
    assert!(rt; slices.as_slice() == two.as_slice());
    Ok(())
}

#[test]
fn each_fault_of_a_batch_is_refused(rt: HostRuntime) -> Result<(), Fail> {
    for bytes in [
        b"".as_slice(),
        b"\x00",
        b"\x00\x00\x09",
        b"\x00\x01",
        b"\x00\x01\x00\x02\x09",
        b"\x00\x01\x00\x01\x09\x09",
        b"\xff\xff\x00\x00",
    ] {
        assert!(rt; read_batch(rt.alloc(), bytes)?.is_none());
    }
    Ok(())
}

fn pay_two() -> Body {
    Body::Pay { to: 2, amount: 0 }
}

// Declared accounts that break a rule of the grammar make no transaction.
#[test]
fn declared_accounts_of_no_transaction(rt: HostRuntime) {
    assert!(rt; made(&[account(1, true), account(2, true)], 0, 1, pay_two()).is_some());
    assert!(rt; made(&[], 0, 1, pay_two()).is_none());
    assert!(rt; made(&[account(1, true), account(1, false)], 0, 1, pay_two()).is_none());
    assert!(rt; made(&[account(2, true), account(1, true)], 0, 1, pay_two()).is_none());
    assert!(rt; Declarations::new(&[account(1, true); 9]).is_none());
}

// Nobody pays itself.
#[test]
fn senders_of_no_transaction(rt: HostRuntime) {
    let two = [account(1, true), account(2, true)];
    assert!(rt; made(&two, 0, 2, pay_two()).is_none());
    assert!(rt; made(&two, 0, 2, Body::Sweep { to: 2, keep: 0 }).is_none());
    let own = Body::PayIf {
        to: 2,
        amount: 0,
        guard: 1,
        min: 0,
    };
    assert!(rt; made(&two, 0, 2, own).is_none());
}

// Whether this account can pay so many, where 1 and 2 are declared.
fn can_split(from: u64, payments: &[Payment]) -> Result<bool, Fail> {
    let body = split(payments).ok_or("they are not too many")?;
    Ok(made(&[account(1, true), account(2, true)], 0, from, body).is_some())
}

// Payments that no split can make.
#[test]
fn parts_of_no_split(rt: HostRuntime) -> Result<(), Fail> {
    let to_two = Payment { to: 2, amount: 9 };
    let to_three = Payment { to: 3, amount: 9 };
    assert!(rt; Payments::new(&[to_two; 7]).is_none());
    assert!(rt; !can_split(1, &[])?);
    assert!(rt; !can_split(1, &[to_two, to_two])?);
    assert!(rt; !can_split(1, &[to_three, to_two])?);
    assert!(rt; can_split(1, &[to_two, to_three])?);
    assert!(rt; !can_split(3, &[to_two, to_three])?);
    Ok(())
}

// A batch is written and read again, with its texts where they were put.
#[test]
fn a_batch_is_written(rt: HostRuntime) -> Result<(), Fail> {
    let mut texts = Vec::new(rt.alloc());
    texts.push(Vec::new(rt.alloc()))?;
    texts.push(Vec::from_slice(rt.alloc(), &[9, 8, 7])?)?;
    let bytes = write_batch(rt.alloc(), &texts)?;
    assert!(rt; bytes.as_slice() == [0, 2, 0, 0, 0, 3, 9, 8, 7].as_slice());
    let wanted = [Slice { start: 4, len: 0 }, Slice { start: 6, len: 3 }];
    assert!(rt; slices_of(rt.alloc(), &bytes)?.as_slice() == wanted.as_slice());
    Ok(())
}

// The bytes of a batch of `PAY` and a text that is no transaction.
fn pay_and_none(alloc: Global) -> Result<Vec<u8>, AllocError> {
    let mut texts = Vec::new(alloc);
    texts.push(Vec::from_slice(alloc, &PAY)?)?;
    texts.push(Vec::from_slice(alloc, &[9])?)?;
    write_batch(alloc, &texts)
}

// The transactions of a batch are put behind those of a list, and those of a void batch are not.
#[test]
fn transactions_are_pushed(rt: HostRuntime) -> Result<(), Fail> {
    let mut bytes = pay_and_none(rt.alloc())?;
    let mut txs = Vec::new(rt.alloc());
    txs.push(None)?;
    assert!(rt; push_transactions(&mut txs, &bytes)? == Some(2));
    assert!(rt; txs[1].as_ref().is_some_and(|tx| tx.from() == 1) && txs[2].is_none());
    let _ = bytes.pop();
    assert!(rt; push_transactions(&mut txs, &bytes)?.is_none() && txs.len() == 3);
    Ok(())
}
