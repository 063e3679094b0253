//! The transaction lines: the text that each writes into the open batch.

ghost use Rattle.std.specs.Prelude.{◌≡◌, ◌++◌, ◌∷◌, ◌&&◌, ◌<◌, ◌≤◌, ◌^◌, ◌+◌, [], OnOk, IfOk, fold, true, map, not, length, slice_index, slice_index_or, drop};
ghost use Rattle.bk_tx.specs.Access.{receivers_in};
ghost use Rattle.bk_script.specs.private.Saying.{IsSayable};
ghost use Rattle.bk_script.specs.Transactions.{declare, declared_by, text_of, at, payments_in, said_by, line_text};
ghost use Rattle.bk_script.specs.Answers.{Answers};

use crate::fault::{ScriptCode, Stop};
use crate::line::Keyword;
use crate::words::numbers;
use bk_tx::{Body, Declarations, Declared, Payment, Payments, Tx};
use std::alloc::{AllocError, Global};
use std::marker::Model;

// Puts an account among declared ones by ascending id; one that is there stays as it is.
fn declare_one(declared: &mut Vec<Declared>, id: u64, writable: bool) -> Result<(), AllocError>
    ensures { OnOk result (declared.new.items ≡ declare id writable declared.old.items) }
{
    for i in 0..declared.len() {
        let there = declared[i].id;
        if id < there {
            return Ok(declared.insert(i, Declared { id, writable })?);
        }
        if id == there {
            return Ok(());
        }
    }
    declared.push(Declared { id, writable })?;
    Ok(())
}

// Puts each receiver among declared accounts, for writing.
fn declare_receivers(declared: &mut Vec<Declared>, payments: &[Payment]) -> Result<(), AllocError>
    ensures { OnOk result (declared.new.items
        ≡ fold (λ all to. declare to true all) declared.old.items (receivers_in payments.now)) }
{
    for payment in payments {
        declare_one(declared, payment.to, true)?;
    }
    Ok(())
}

// What a transaction declares.
fn declare_all(alloc: Global, from: u64, body: &Body) -> Result<Vec<Declared>, AllocError>
    ensures { IfOk result (λ declared. declared.items ≡ declared_by from body.now) }
{
    let mut declared = Vec::new(alloc);
    declare_one(&mut declared, from, true)?;
    match body {
        Body::Pay { to, .. } | Body::Sweep { to, .. } => declare_one(&mut declared, *to, true)?,
        Body::PayIf { to, guard, .. } => {
            declare_one(&mut declared, *to, true)?;
            declare_one(&mut declared, *guard, false)?;
        }
        Body::Split { payments } => declare_receivers(&mut declared, payments.as_slice())?,
    }
    Ok(declared)
}

/// The text of a transaction.
#[tactic(auto, unfolding(crate::specs::Transactions::text_of))]
pub(crate) fn text_of(alloc: Global, from: u64, seq: u64, body: Body) -> Result<Vec<u8>, Stop>
    requires { IsSayable body }
    ensures { Answers (λ text. text.items) result (text_of from seq body) }
{
    let declared = declare_all(alloc, from, &body)?;
    let Some(declared) = Declarations::new(&declared) else {
        return Err(Stop::Code(ScriptCode::Range));
    };
    match Tx::new(declared, seq, from, body) {
        Some(tx) => Ok(tx.encode(alloc)?),
        None => Err(Stop::Code(ScriptCode::Range)),
    }
}

// A transaction as a line says it.
#[derive(Drop)]
struct Said {
    from: u64,
    seq: u64,
    body: Body,
}

impl Model for Said {
    ghost use Rattle.bk_script.specs.Transactions.{SaidValue};
    ghost use Rattle.bk_script.specs.private.Saying.{IsSayable};

    ghost Value = { SaidValue };

    ghost view = { λ s. record { from = s.from; seq = s.seq; body = s.body } };

    ghost invariant = { λ s. IsSayable s.body };
}

impl Said {
    // Its text.
    fn text(self, alloc: Global) -> Result<Vec<u8>, Stop>
        ensures { Answers (λ text. text.items) result (text_of self.from self.seq self.body) }
    {
        let Said { from, seq, body } = self;
        text_of(alloc, from, seq, body)
    }
}

// The number at a place, 0 past the end.
fn at(numbers: &[u64], i: usize) -> u64
    ensures { result ≡ at numbers.now i }
{
    match numbers.get(i) {
        Some(number) => *number,
        None => 0,
    }
}

// Receivers and amounts in turn, at most six of each.
fn payments_in(numbers: &[u64]) -> Payments
    requires { length numbers.now ≤ 12 }
    ensures { result ≡ payments_in numbers.now }
{
    let mut read = [Payment { to: 0, amount: 0 }; 6];
    let count = numbers.len() / 2;
    for i in 0..count {
        read[i] = Payment {
            to: numbers[2 * i],
            amount: numbers[2 * i + 1],
        };
    }
    Payments::new(&read[..count]).unwrap()
}

// What the numbers after this keyword say.
fn said_by(keyword: Keyword, numbers: &[u64]) -> Said
    requires { 4 ≤ length numbers.now × length numbers.now ≤ 14 }
    ensures { result ≡ said_by keyword numbers.now }
{
    let (seq, body) = match keyword {
        Keyword::Split => {
            let payments = payments_in(&numbers[numbers.len().min(2)..]);
            (at(numbers, 1), Body::Split { payments })
        }
        Keyword::PayIf => (
            at(numbers, 3),
            Body::PayIf {
                to: at(numbers, 1),
                amount: at(numbers, 2),
                guard: at(numbers, 4),
                min: at(numbers, 5),
            },
        ),
        Keyword::Sweep => (
            at(numbers, 3),
            Body::Sweep {
                to: at(numbers, 1),
                keep: at(numbers, 2),
            },
        ),
        _ => (
            at(numbers, 3),
            Body::Pay {
                to: at(numbers, 1),
                amount: at(numbers, 2),
            },
        ),
    };
    let from = at(numbers, 0);
    Said { from, seq, body }
}

/// The text of a transaction line of this kind, of the words after the first.
#[tactic(auto, unfolding(crate::specs::Transactions::line_text))]
pub(crate) fn line_text(alloc: Global, keyword: Keyword, words: &[&[u8]]) -> Result<Vec<u8>, Stop>
    requires { 4 ≤ length words.now × length words.now ≤ 14 }
    ensures { Answers (λ text. text.items) result
        (line_text keyword (map (λ w. w.now) words.now)) }
{
    let numbers = numbers(alloc, words)?;
    let said = said_by(keyword, &numbers);
    said.text(alloc)
}
