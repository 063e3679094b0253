//! Slices that are read, and looked up, in threads that stay until there is none more.

ghost use Rattle.std.specs.Prelude.{◌^◌, ◌<◌, ◌≤◌, map, length, IfOk};
ghost use Rattle.rtrb.specs.Ring.{received, sent};
ghost use Rattle.bk_ledger.specs.private.Handing.{AreHanded};
ghost use Rattle.bk_ledger.specs.private.Slices.{IsReadOf};

use crate::batches::Batches;
use crate::handing::{Giving, Taking, hands};
use crate::slice::{gather, look_up};
use bk_rules::Ids;
use crossbeam_utils::sync::Parker;
use rtrb::Protocol;
use std::alloc::{AllocError, Global};
use std::sync::Wait;

/// A slice that is handed on.
#[derive(Drop)]
pub(crate) struct Handed<'a> {
    /// All batches, of which it is some.
    pub(crate) payloads: &'a [&'a [u8]],
    /// Those that it is.
    pub(crate) read: Batches,
}

/// One slice after another, of the batches that the first one names. That one is none of them.
#[derive(Drop)]
pub(crate) struct InOrder;

impl<'a> Protocol<Handed<'a>> for InOrder {
    ghost use Rattle.bk_ledger.specs.private.Handing.{follows};

    ghost allows = { follows };
}

pub(crate) type Reading<'a> = Giving<Handed<'a>, InOrder>;

pub(crate) type Read<'a> = Taking<Handed<'a>, InOrder>;

/// Where slices of these batches are handed on. None is yet.
pub(crate) fn slices<'a>(
    alloc: Global,
    payloads: &'a [&'a [u8]],
    from: &Parker,
    to: &Parker,
) -> Result<(Reading<'a>, Read<'a>), AllocError>
    ensures gives { IfOk result (λ r. AreHanded (map (λ p. p.now) payloads.now) 0 (sent r.0.giver)) }
    ensures takes { IfOk result (λ r. AreHanded (map (λ p. p.now) payloads.now) 0 (received r.1.taker)) }
{
    let read = Batches::new(alloc);
    let (giving, taking) = hands(alloc, Handed { payloads, read }, from, to)?;
    Ok((giving, taking))
}

/// Reads all batches, a slice after another, and hands them on as long as they are taken; looked up too, where there are
/// ids to look them up among.
pub(crate) fn read_all<'a>(
    rt: &impl Wait,
    alloc: Global,
    payloads: &'a [&'a [u8]],
    ids: Option<&Ids>,
    least: usize,
    giving: Reading<'a>,
    own: Parker,
) -> Result<(), AllocError>
    requires handed { AreHanded (map (λ p. p.now) payloads.now) 0 (sent giving.giver) }
    requires fits { length payloads.now < 2 ^ 64 }
    requires least { least < 2 ^ 30 }
{
    let mut giving = giving;
    let mut from = 0usize;
    while from < payloads.len() {
        let read = read_next(alloc, payloads, ids, from, least)?;
        let later = from + read.counts.len();
        if !giving.hand_on(rt, Handed { payloads, read }, &own) {
            return Ok(());
        }
        from = later;
    }
    Ok(())
}

/// Reads the slice that begins at an index, and looks it up, where there are ids.
pub(crate) fn read_next(
    alloc: Global,
    payloads: &[&[u8]],
    ids: Option<&Ids>,
    from: usize,
    least: usize,
) -> Result<Batches, AllocError>
    requires within { from ≤ length payloads.now }
    requires least { least < 2 ^ 30 }
    ensures { IfOk result (λ b. IsReadOf (map (λ p. p.now) payloads.now) from
        b.counts.items b.txs.items) }
{
    let read = gather(alloc, payloads, from, least)?;
    let Some(ids) = ids else {
        return Ok(read);
    };
    let batches = look_up(read, ids)?;
    Ok(batches)
}
