//! The rule on a view, and the slots and accounts of a state. The examples of `bk_examples` have the rule's table.
ghost use Rattle.std.specs.Prelude.{◌≡◌, ◌∷◌, [], Some};

use crate::account::{Account, account_leaf};
use crate::ids::Ids;
use crate::receipt::{PackedReceipt, Receipt, Status};
use crate::rule::apply_local;
use crate::state::State;
use bk_base::{Row, Version};
use bk_tx::{Body, Declarations, Declared, Tx};
use std::mem::size_of;
use std::test::Fail;

fn row(id: u64, balance: u64, seq: u64) -> Row
    ensures { result ≡ record { id = id; balance = balance; seq = seq } }
{
    Row { id, balance, seq }
}

fn writing(id: u64) -> Declared {
    Declared { id, writable: true }
}

fn reading(id: u64) -> Declared {
    Declared {
        id,
        writable: false,
    }
}

fn tx(declared: &[Declared], from: u64, seq: u64, body: Body) -> Result<Option<Tx>, Fail> {
    let declared = Declarations::new(declared).ok_or("more than eight accounts")?;
    let tx = Tx::new(declared, seq, from, body).ok_or("it is no transaction")?;
    Ok(Some(tx))
}

// Declares its two accounts for writing.
fn pay(from: u64, to: u64, amount: u64, seq: u64) -> Result<Option<Tx>, Fail> {
    let body = Body::Pay { to, amount };
    tx(
        &[writing(from.min(to)), writing(from.max(to))],
        from,
        seq,
        body,
    )
}

// From 1 to 3, with 2 as its guard, which it declares for reading.
fn pay_if(amount: u64, seq: u64, min: u64) -> Result<Option<Tx>, Fail> {
    let body = Body::PayIf {
        to: 3,
        amount,
        guard: 2,
        min,
    };
    tx(&[writing(1), reading(2), writing(3)], 1, seq, body)
}

fn holding(balance: u64, seq: u64) -> Option<Account>
    ensures { result ≡ Some (record { balance = balance; seq = seq }) }
{
    Some(Account { balance, seq })
}

// What a payment does to a view of 1 and 9, of which 9 is absent: its status, and the two accounts after it.
fn effect(
    version: Version,
    tx: Option<Tx>,
) -> Result<(Status, Option<Account>, Option<Account>), Fail> {
    let view = [holding(100, 0), None, None, None, None, None, None, None];
    let tx = tx.ok_or("it is a payment")?;
    let effect = apply_local(version, &tx, &view);
    Ok((effect.status, effect.writes[0], effect.writes[1]))
}

#[test]
fn a_receiver_comes_to_be(rt: HostRuntime) -> Result<(), Fail> {
    let one = effect(Version::One, pay(1, 9, 30, 0)?)?;
    assert!(rt; one == (Status::Unknown, holding(100, 0), None));
    let two = effect(Version::Two, pay(1, 9, 30, 0)?)?;
    assert!(rt; two == (Status::Ok, holding(70, 1), holding(30, 0)));
    let short = effect(Version::Two, pay(1, 9, 200, 0)?)?;
    assert!(rt; short == (Status::Funds, holding(100, 1), None));
    Ok(())
}

// A guard is read, and no write of it is shown.
#[test]
fn a_guard_is_not_written(rt: HostRuntime) -> Result<(), Fail> {
    let view = [
        holding(100, 0),
        holding(5, 0),
        holding(0, 3),
        None,
        None,
        None,
        None,
        None,
    ];
    let guarded = pay_if(1, 0, 0)?.ok_or("it is a payment")?;
    let effect = apply_local(Version::One, &guarded, &view);
    assert!(rt; effect.writes[0] == holding(99, 1) && effect.writes[1].is_none());
    assert!(rt; effect.writes[2] == holding(1, 3));
    Ok(())
}

// The accounts 3 and 5.
fn two_rows() -> [Row; 2]
    ensures { result ≡ record { id = 3; balance = 10; seq = 0 }
        ∷ record { id = 5; balance = 7; seq = 2 } ∷ [] }
{
    [row(3, 10, 0), row(5, 7, 2)]
}

// Whether the state has these slots and, of absent accounts among them, no row.
fn has(rt: &HostRuntime, state: &State, slots: &[u64], rows: &[Row]) -> Result<bool, Fail> {
    let shown = state.rows(rt.alloc())?;
    Ok(state.slots() == slots && shown.as_slice() == rows)
}

// Makes slots for payments between 1, 5 and 9.
fn prepare(rt: &HostRuntime, state: &mut State) -> Result<(), Fail> {
    let txs = [pay(9, 1, 1, 0)?, None, pay(1, 5, 1, 0)?];
    state.prepare(rt.alloc(), &txs)?;
    Ok(())
}

// Slots are made for the accounts that are declared, and the accounts stay.
#[test]
fn slots_are_made(rt: HostRuntime) -> Result<(), Fail> {
    let mut state = State::new(rt.alloc(), Version::Two, &two_rows())?;
    prepare(&rt, &mut state)?;
    assert!(rt; has(&rt, &state, &[1, 3, 5, 9], &two_rows())?);
    Ok(())
}

#[test]
fn no_slots_are_made_in_version_one(rt: HostRuntime) -> Result<(), Fail> {
    let mut state = State::new(rt.alloc(), Version::One, &two_rows())?;
    prepare(&rt, &mut state)?;
    assert!(rt; has(&rt, &state, &[3, 5], &two_rows())?);
    Ok(())
}

// An account that has a slot and is absent shows the numbers of none.
#[test]
fn a_slot_is_no_account(rt: HostRuntime) -> Result<(), Fail> {
    let mut state = State::new(rt.alloc(), Version::Two, &two_rows())?;
    prepare(&rt, &mut state)?;
    let absent = Account {
        balance: 0,
        seq: u64::MAX,
    };
    assert!(rt; state.account(1).is_none() && state.account(5) == holding(7, 2));
    assert!(rt; state.numbers().len() == 4 && state.numbers().first().copied() == Some(absent));
    Ok(())
}

#[test]
fn covers_what_has_slots(rt: HostRuntime) -> Result<(), Fail> {
    let tx = pay(9, 1, 1, 0)?;
    let mut state = State::new(rt.alloc(), Version::Two, &two_rows())?;
    assert!(rt; state.covers(None) && !state.covers(tx.as_ref()));
    prepare(&rt, &mut state)?;
    assert!(rt; state.covers(tx.as_ref()));
    Ok(())
}

// All accounts are set by words, of which the mark makes one absent in version Two.
#[test]
fn accounts_are_set(rt: HostRuntime) -> Result<(), Fail> {
    let mut state = State::new(rt.alloc(), Version::Two, &two_rows())?;
    state.set_words(&[4, 1, 0, u64::MAX]);
    assert!(rt; has(&rt, &state, &[3, 5], &[row(3, 4, 1)])?);
    assert!(rt; state.total() == 4);
    Ok(())
}

// The same by numbers, those of an absent account too.
#[test]
fn numbers_are_set(rt: HostRuntime) -> Result<(), Fail> {
    let numbers = [
        Account { balance: 4, seq: 1 },
        Account {
            balance: 9,
            seq: u64::MAX,
        },
    ];
    let ids = Ids::new(rt.alloc(), Vec::from_slice(rt.alloc(), &[3, 5])?)?;
    let given = Vec::from_slice(rt.alloc(), &numbers)?;
    let state = State::of_numbers(Version::Two, ids, given);
    assert!(rt; has(&rt, &state, &[3, 5], &[row(3, 4, 1)])?);
    let (ids, _) = state.into_numbers();
    let given = Vec::from_slice(rt.alloc(), &numbers)?;
    let state = State::of_numbers(Version::One, ids, given);
    assert!(rt; has(&rt, &state, &[3, 5], &[row(3, 4, 1), row(5, 9, u64::MAX)])?);
    Ok(())
}

#[test]
fn the_mark_is_a_number_in_version_one(rt: HostRuntime) -> Result<(), Fail> {
    let mut state = State::new(rt.alloc(), Version::One, &two_rows())?;
    state.set_words(&[4, 1, 0, u64::MAX]);
    assert!(rt; has(&rt, &state, &[3, 5], &[row(3, 4, 1), row(5, 0, u64::MAX)])?);
    Ok(())
}

// More ids than hints have room near their slot are all found, and their neighbours are not.
#[test]
fn ids_on_one_slot(rt: HostRuntime) -> Result<(), Fail> {
    // Multiples of what takes the hash to 2^64 - 1, so that all have the first slot as their own.
    let ids = [
        118577779710499402,
        1136809240488224525,
        2155040701265949648,
        3173272162043674771,
        4191503622821399894,
        5209735083599125017,
        6227966544376850140,
        7246198005154575263,
        8264429465932300386,
        9282660926710025509,
        10300892387487750632,
        11319123848265475755,
        12337355309043200878,
        13355586769820926001,
        14373818230598651124,
        15392049691376376247,
        16410281152154101370,
        17428512612931826493,
    ];
    let found = Ids::new(rt.alloc(), Vec::from_slice(rt.alloc(), &ids)?)?;
    assert_eq!(rt; found.len(), 18);
    for (index, id) in ids.iter().enumerate() {
        assert_eq!(rt; found.index_of(*id), Some(index));
        assert_eq!(rt; found.index_of(*id ^ 1), None);
    }
    assert!(rt; Ids::new(rt.alloc(), Vec::new(rt.alloc()))?.is_empty());
    Ok(())
}

#[test]
fn leaf_and_numbers(rt: HostRuntime) -> Result<(), Fail> {
    let leaf = account_leaf(
        1,
        Account {
            balance: 258,
            seq: 3,
        },
    );
    let wanted = [
        0, 0, 0, 0, 0, 0, 0, 1, // id
        0, 0, 0, 0, 0, 0, 1, 2, // balance
        0, 0, 0, 0, 0, 0, 0, 3, // sequence number
    ];
    assert_eq!(rt; leaf, wanted);
    assert_eq!(rt; Status::Funds.number(), 6);
    assert_eq!(rt; Status::of_number(4), Some(Status::Stale));
    assert_eq!(rt; Status::of_number(7), None);
    Ok(())
}

#[test]
fn receipts_in_nine_bytes(rt: HostRuntime) -> Result<(), Fail> {
    assert_eq!(rt; size_of::<PackedReceipt>(), 9);
    for number in 0..7 {
        let status = Status::of_number(number).ok_or("seven statuses")?;
        for moved in [0, 1, 0x0102_0304_0506_0708, u64::MAX] {
            let receipt = Receipt { status, moved };
            assert_eq!(rt; PackedReceipt::of(receipt).receipt(), receipt);
        }
    }
    Ok(())
}
