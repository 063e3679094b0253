//! The words of places, and the slots that they access.

ghost use Rattle.std.specs.Prelude.{◌≡◌, [], ◌∷◌, ◌++◌, ℕ, ◌+◌, ◌^◌, ◌<◌, List, length, All, OnOk, IfOk};
ghost use Rattle.bk_conflicts.specs.Conflicts.{declared_at};
ghost use Rattle.bk_conflicts.specs.Plan.{AreDeclared};
ghost use Rattle.bk_conflicts.specs.private.Accesses.{accesses_of, places_of};
ghost use Rattle.bk_conflicts.specs.private.Words.{words_of_slots};
ghost use Rattle.bk_conflicts.specs.private.Rows.{IsRows};

use bk_rules::Ids;
use bk_tx::{Declarations, Tx};
use std::alloc::{AllocError, Global};

/// A word that a transaction accesses. Slot `a` has the words `2 * a`, the balance, and `2 * a +
/// 1`, the sequence number of its account.
#[derive(Clone, Copy, Debug, PartialEq, Eq)]
pub struct WordRef {
    /// The word's number.
    pub word: u32,
    /// Whether the transaction may write it; else it may only read it.
    pub writable: bool,
}

// A slot that a transaction accesses, and whether it may write it.
#[derive(Clone, Copy)]
pub(crate) struct Access {
    pub(crate) slot: u32,
    pub(crate) writable: bool,
}

// The words of places: those of place q go from `start[q]` to `start[q + 1]`.
#[derive(Drop)]
pub(crate) struct WordRows {
    pub(crate) start: Vec<usize>,
    pub(crate) items: Vec<WordRef>,
}

// The words of no places, with room for so many: most transactions declare two accounts.
pub(crate) fn no_words(alloc: Global, places: usize) -> Result<WordRows, AllocError>
    requires { places < 2 ^ 31 }
    ensures { IfOk result (λ r. (r.start.items ≡ 0 ∷ []) × (r.items.items ≡ [])) }
{
    let mut start = Vec::with_capacity(alloc, places + 1)?;
    start.push(0)?;
    Ok(WordRows {
        start,
        items: Vec::with_capacity(alloc, 4 * places)?,
    })
}

// Puts the slots that a place accesses in place of others. `near` has likely slots of its accounts, if it has any.
pub(crate) fn list_accesses(
    ids: &Ids,
    txs: &[Option<Tx>],
    place: usize,
    near: &[u32],
    xs: &mut Vec<Access>,
) -> Result<(), AllocError>
    requires place { place < length txs.now }
    requires few_slots { length ids.now < 2 ^ 31 }
    ensures list { OnOk result (xs.new.items ≡ places_of ids.now txs.now place) }
    ensures declared { AreDeclared (declared_at txs.now place) }
{
    xs.clear();
    match &txs[place] {
        None => Ok(()),
        Some(tx) => push_accesses(ids, tx.declared(), near, xs),
    }
}

// Puts the slots of these accounts at the end.
fn push_accesses(
    ids: &Ids,
    declared: &Declarations,
    near: &[u32],
    xs: &mut Vec<Access>,
) -> Result<(), AllocError>
    requires { length ids.now < 2 ^ 31 }
    ensures { OnOk result (xs.new.items ≡ xs.old.items ++ accesses_of ids.now declared.now) }
{
    for k in 0..declared.len() {
        let account = declared.get(k);
        if let Some(slot) = ids.index_by(account.id, likely_at(near, k)) {
            xs.push(Access {
                slot: slot as u32,
                writable: account.writable,
            })?;
        }
    }
    Ok(())
}

// A likely slot, if one is known; else a number that is none.
fn likely_at(near: &[u32], k: usize) -> usize {
    match near.get(k) {
        Some(slot) => *slot as usize,
        None => usize::MAX,
    }
}

// The likely slots that follow those of a transaction.
pub(crate) fn likely_after<'a>(near: &'a [u32], tx: Option<&Tx>) -> &'a [u32] {
    let declared = match tx {
        None => 0,
        Some(tx) => tx.declared().len(),
    };
    match near.get(declared..) {
        Some(rest) => rest,
        None => &[],
    }
}

// Puts the words of these slots at the end.
fn push_words(items: &mut Vec<WordRef>, xs: &[Access]) -> Result<(), AllocError>
    requires { All (λ x. x.slot < 2 ^ 31) xs.now }
    ensures { OnOk result (items.new.items ≡ items.old.items ++ words_of_slots xs.now) }
{
    for x in xs {
        let word = 2 * x.slot;
        let writable = x.writable;
        let balance = WordRef { word, writable };
        let seq = WordRef {
            word: word + 1,
            writable,
        };
        items.extend_from_slice(&[balance, seq])?;
    }
    Ok(())
}

// Adds the words of one more place.
pub(crate) fn push_word_row(rows: &mut WordRows, xs: &[Access]) -> Result<(), AllocError>
    requires { All (λ x. x.slot < 2 ^ 31) xs.now }
    ensures { (f : ℕ → List WordRef) (n : ℕ) →
        IsRows f n rows.old.start.items rows.old.items.items → words_of_slots xs.now ≡ f n →
        OnOk result (IsRows f (n + 1) rows.new.start.items rows.new.items.items) }
{
    push_words(&mut rows.items, xs)?;
    let end = rows.items.len();
    rows.start.push(end)?;
    Ok(())
}
