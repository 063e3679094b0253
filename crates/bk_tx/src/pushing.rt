//! The transactions of a batch, read into a list in one walk over its bytes.

ghost use Rattle.std.specs.Prelude.{◌≡◌, ◌+◌, ◌^◌, ◌<◌, ◌∷◌, ◌++◌, [], true, length, take, is_some, option_map, IfOk, OnOk};
ghost use Rattle.bk_base.specs.Numbers.{list_at};
ghost use Rattle.bk_tx.specs.Batches.{count_in, transactions_in};
ghost use Rattle.bk_tx.specs.Reading.{text_at, transaction_of};
ghost use Rattle.bk_tx.specs.private.Put.{IsPut};

use crate::tx::Tx;
use bk_base::Fields;
use std::alloc::AllocError;

// The text at the front, after its length.
#[tactic(auto, unfolding(crate::specs::Reading::text_at))]
fn text<'a>(fields: &mut Fields<'a>) -> Option<&'a [u8]>
    ensures { option_map (λ t. (t.now, fields.new)) result ≡ text_at fields.old }
{
    let len = fields.u16()?;
    fields.take(len as usize)
}

// Makes a transaction that is there the one that a text encodes, or none.
fn read_into(place: &mut Option<Tx>, text: &[u8])
    requires { is_some place.old ≡ true }
    ensures { place.new ≡ transaction_of text.now }
{
    let is_read = match place {
        Some(tx) => tx.read(text),
        None => false,
    };
    if !is_read {
        *place = None;
    }
}

// Puts the transaction that a text encodes at the end, or `None`. It is read where it lies in the list.
fn push_transaction(txs: &mut Vec<Option<Tx>>, text: &[u8]) -> Result<(), AllocError>
    ensures { OnOk result (txs.new.items ≡ txs.old.items ++ transaction_of text.now ∷ []) }
{
    let at = txs.len();
    txs.push(Some(Tx::blank()))?;
    read_into(&mut txs[at], text);
    Ok(())
}

// Puts the transactions of this many texts at the end, and returns whether there are as many, and no bytes after them.
fn push_texts(
    txs: &mut Vec<Option<Tx>>,
    count: usize,
    fields: &mut Fields,
) -> Result<bool, AllocError>
    ensures kept { OnOk result (take (length txs.old.items) txs.new.items ≡ txs.old.items) }
    ensures read { IfOk result (IsPut txs.old.items txs.new.items
        (list_at text_at count fields.old)) }
{
    for _ in 0..count {
        let Some(text) = text(fields) else {
            return Ok(false);
        };
        push_transaction(txs, text)?;
    }
    Ok(fields.rest().is_empty())
}

/// Puts the transactions of the batch that the bytes encode, all of the bytes, at the end, a text that encodes none as
/// `None`, and returns how many they are. Where the bytes encode no batch, it puts nothing there and returns `None`.
///
/// It reserves for no more texts than the bytes have room for, and an `Err` comes only when memory runs out: some of
/// the transactions may then be at the end.
pub fn push_transactions(txs: &mut Vec<Option<Tx>>, bytes: &[u8]) -> Result<Option<u16>, AllocError>
    ensures count { IfOk result (λ count. count ≡ count_in bytes.now) }
    ensures txs { OnOk result (txs.new.items ≡ txs.old.items ++ transactions_in bytes.now) }
    ensures few { OnOk result (length txs.new.items < length txs.old.items + 2 ^ 16) }
{
    let before = txs.len();
    let mut fields = Fields::new(bytes);
    let Some(count) = fields.u16() else {
        return Ok(None);
    };
    // Each text takes two bytes at least.
    if fields.rest().len() < 2 * count as usize {
        return Ok(None);
    }
    txs.reserve(count as usize)?;
    let is_batch = push_texts(txs, count as usize, &mut fields)?;
    if !is_batch {
        txs.truncate(before);
        return Ok(None);
    }
    Ok(Some(count))
}
