//! Slices of batches: whole batches, as many as are worth executing at once.

ghost use Rattle.std.specs.Prelude.{◌≡◌, ◌^◌, ◌<◌, ◌≤◌, map, length, IfOk};
ghost use Rattle.bk_ledger.specs.private.Slices.{IsReadOf};

use crate::batches::Batches;
use bk_rules::Ids;
use std::alloc::{AllocError, Global};

/// A slice takes whole batches until it has this many transactions, so many that starting threads for them costs little
/// beside them. A batch has fewer than 65,536, so a slice has fewer than 73,728.
pub(crate) const FEWEST: usize = 8_192;

/// For how many transactions slots are made at once: half as many as there are slots, since it costs a pass over all of
/// them, but at most 524,288, which are decoded and kept for it, and at least a given number.
pub(crate) fn least_of(slots: usize, fewest: usize) -> usize
    requires { fewest < 2 ^ 30 }
    ensures { result < 2 ^ 30 }
{
    (slots / 2).min(524_288).max(fewest)
}

// How many transactions the batches of a slice say that they hold. A batch that says more than it has bytes for is
// void.
fn room_for(payloads: &[&[u8]], from: usize, least: usize) -> usize {
    let mut room = 0usize;
    for payload in payloads.iter().skip(from) {
        room = room.saturating_add(said_in(payload));
        if room >= least {
            return room;
        }
    }
    room
}

/// Whether batches say that they hold no more transactions than one slice has at least. They are not worth a thread that
/// prepares them.
pub(crate) fn are_few(payloads: &[&[u8]], least: usize) -> bool {
    room_for(payloads, 0, least.saturating_add(1)) <= least
}

// How many transactions a batch says that it holds; each takes two bytes at least.
fn said_in(payload: &[u8]) -> usize {
    match payload {
        [high, low, rest @ ..] => {
            let count = u16::from_be_bytes([*high, *low]) as usize;
            if rest.len() / 2 < count { 0 } else { count }
        }
        _ => 0,
    }
}

/// The index after the last batch of the slice that begins at an index: with that one they say that they hold so many
/// transactions, or there are no more. Whoever prepares some of the slices cuts the batches alike.
pub(crate) fn end_of(payloads: &[&[u8]], from: usize, least: usize) -> usize
    requires within { from ≤ length payloads.now }
    ensures within { result ≤ length payloads.now }
    ensures after { from < length payloads.now → from < result }
    ensures not_before { from ≤ result }
{
    let mut said = 0usize;
    for index in from..payloads.len() {
        said = said.saturating_add(said_in(payloads[index]));
        if said >= least {
            return index + 1;
        }
    }
    payloads.len()
}

/// Reads the batches of the slice that begins at an index.
pub(crate) fn gather(
    alloc: Global,
    payloads: &[&[u8]],
    from: usize,
    least: usize,
) -> Result<Batches, AllocError>
    requires within { from ≤ length payloads.now }
    requires least { least < 2 ^ 30 }
    ensures { IfOk result (λ b. IsReadOf (map (λ p. p.now) payloads.now) from
        b.counts.items b.txs.items) }
{
    let mut batches = Batches::new(alloc);
    let end = end_of(payloads, from, least);
    // Once for all of them: a list that grows is moved each time.
    batches.txs.reserve(room_for(payloads, from, least))?;
    for index in from..end {
        batches.push(payloads[index])?;
        if batches.txs.len() >= least {
            return Ok(batches);
        }
    }
    Ok(batches)
}

/// Looks up the accounts that the transactions of a slice declare.
pub(crate) fn look_up(batches: Batches, ids: &Ids) -> Result<Batches, AllocError>
    ensures counts { IfOk result (λ b. b.counts.items ≡ batches.counts.items) }
    ensures txs { IfOk result (λ b. b.txs.items ≡ batches.txs.items) }
{
    let mut batches = batches;
    // Most transactions declare two accounts.
    batches.near.reserve(batches.txs.len().saturating_mul(2))?;
    ids.push_likely(&mut batches.near, &batches.txs)?;
    Ok(batches)
}
