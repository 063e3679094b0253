//! Slices that are read and looked up by three threads in turn, which stay until there is none more.

ghost use Rattle.std.specs.Prelude.{◌≡◌, ◌^◌, ◌<◌, ◌≤◌, ℕ, List, map, length, IfOk, IfSome};
ghost use Rattle.rtrb.specs.Ring.{received, sent};
ghost use Rattle.bk_rules.specs.Ops.{AreOps};
ghost use Rattle.bk_ledger.specs.private.Handing.{AreLooked, AreTurns, IsLooked};

use crate::batches::Batches;
use crate::handing::{Giving, Taking, hands};
use crate::slice::{end_of, gather};
use bk_rules::{Ids, Op};
use crossbeam_utils::sync::Parker;
use rtrb::Protocol;
use std::alloc::{AllocError, Global};
use std::sync::Wait;

/// A slice that is looked up.
#[derive(Drop)]
pub(crate) struct Looked<'a, 'b> {
    /// All batches, of which it is some.
    pub(crate) payloads: &'a [&'a [u8]],
    /// The slots of the ledger, among which it was looked up.
    pub(crate) ids: &'b Ids,
    /// The index of the first batch that it is.
    pub(crate) from: usize,
    /// Those that it is.
    pub(crate) read: Batches,
    /// The ops of its transactions.
    pub(crate) ops: Vec<Op>,
}

/// Slices of the batches that the first one names, with the ops of their transactions over the slots that it names. That one
/// is none of them.
#[derive(Drop)]
pub(crate) struct LookedUp;

impl<'a, 'b> Protocol<Looked<'a, 'b>> for LookedUp {
    ghost use Rattle.bk_ledger.specs.private.Handing.{may_be_looked};

    ghost allows = { may_be_looked };
}

pub(crate) type Looking<'a, 'b> = Giving<Looked<'a, 'b>, LookedUp>;

pub(crate) type Looks<'a, 'b> = Taking<Looked<'a, 'b>, LookedUp>;

/// Where slices of these batches are handed on, looked up among these slots. None is yet.
pub(crate) fn looks<'a, 'b>(
    alloc: Global,
    payloads: &'a [&'a [u8]],
    ids: &'b Ids,
    from: &Parker,
    to: &Parker,
) -> Result<(Looking<'a, 'b>, Looks<'a, 'b>), AllocError>
    ensures gives { IfOk result (λ r.
        AreLooked (map (λ p. p.now) payloads.now) ids.now (sent r.0.giver)) }
    ensures takes { IfOk result (λ r.
        AreLooked (map (λ p. p.now) payloads.now) ids.now (received r.1.taker)) }
{
    let first = Looked {
        payloads,
        ids,
        from: 0,
        read: Batches::new(alloc),
        ops: Vec::new(alloc),
    };
    let (giving, taking) = hands(alloc, first, from, to)?;
    Ok((giving, taking))
}

/// Looks up every third slice from one on, which begins at an index, and hands them on as long as they are taken.
pub(crate) fn look_all<'a, 'b>(
    rt: &impl Wait,
    alloc: Global,
    payloads: &'a [&'a [u8]],
    ids: &'b Ids,
    least: usize,
    first: usize,
    giving: Looking<'a, 'b>,
    own: Parker,
) -> Result<(), AllocError>
    requires handed { AreLooked (map (λ p. p.now) payloads.now) ids.now (sent giving.giver) }
    requires within { first ≤ length payloads.now }
    requires fits { length payloads.now < 2 ^ 64 }
    requires least { least < 2 ^ 30 }
{
    let mut giving = giving;
    let mut from = first;
    while from < payloads.len() {
        let looked = look_next(alloc, payloads, ids, from, least)?;
        if !giving.hand_on(rt, looked, &own) {
            return Ok(());
        }
        from = third_from(payloads, from, least);
    }
    Ok(())
}

// Where the third slice after the one that begins at an index begins.
fn third_from(payloads: &[&[u8]], from: usize, least: usize) -> usize
    requires within { from ≤ length payloads.now }
    ensures within { result ≤ length payloads.now }
    ensures after { from < length payloads.now → from < result }
{
    let first = end_of(payloads, from, least);
    let second = end_of(payloads, first, least);
    end_of(payloads, second, least)
}

/// Reads the slice that begins at an index, and looks it up.
pub(crate) fn look_next<'a, 'b>(
    alloc: Global,
    payloads: &'a [&'a [u8]],
    ids: &'b Ids,
    from: usize,
    least: usize,
) -> Result<Looked<'a, 'b>, AllocError>
    requires within { from ≤ length payloads.now }
    requires least { least < 2 ^ 30 }
    ensures looked { IfOk result (IsLooked (map (λ p. p.now) payloads.now) ids.now) }
    ensures place { IfOk result (λ l. l.from ≡ from) }
    ensures named { IfOk result (λ l. (map (λ p. p.now) l.payloads.now ≡ map (λ p. p.now) payloads.now)
        × (l.ids.now ≡ ids.now)) }
{
    let read = gather(alloc, payloads, from, least)?;
    let mut near = Vec::new(alloc);
    let mut ops = Vec::new(alloc);
    // Most transactions declare two accounts.
    near.reserve(read.txs.len().saturating_mul(2))?;
    ids.push_ops(&mut ops, &mut near, &read.txs)?;
    Ok(Looked {
        payloads,
        ids,
        from,
        read: with_near(read, near),
        ops,
    })
}

// A slice, with the likely indexes of its accounts.
fn with_near(read: Batches, near: Vec<u32>) -> Batches
    ensures counts { result.counts.items ≡ read.counts.items }
    ensures txs { result.txs.items ≡ read.txs.items }
{
    let Batches { counts, txs, .. } = read;
    Batches { counts, txs, near }
}

/// The slices that three threads look up, from which they are taken in turn.
#[derive(Drop)]
pub(crate) struct Turns<'a, 'b> {
    pub(crate) first: Looks<'a, 'b>,
    pub(crate) second: Looks<'a, 'b>,
    pub(crate) third: Looks<'a, 'b>,
}

impl<'a, 'b> Turns<'a, 'b> {
    /// The next slice of the thread whose turn this is; none where no more comes.
    pub(crate) fn take_next(
        &mut self,
        rt: &impl Wait,
        turn: usize,
        own: &Parker,
    ) -> Option<Looked<'a, 'b>>
        ensures { (payloads : List (List ℕ)) (slots : List ℕ) → AreTurns payloads slots self.old
            → IfSome result (λ l. IsLooked payloads slots l × AreTurns payloads slots self.new) }
    {
        if turn == 0 {
            return self.first.take_next(rt, own);
        }
        if turn == 1 {
            return self.second.take_next(rt, own);
        }
        self.third.take_next(rt, own)
    }
}

/// The turn after one of three.
pub(crate) fn after(turn: usize) -> usize {
    match turn {
        0 => 1,
        1 => 2,
        _ => 0,
    }
}
