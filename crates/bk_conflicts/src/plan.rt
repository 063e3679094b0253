//! The plan.

ghost use Rattle.std.specs.Prelude.{◌≡◌, ◌==◌, ◌+◌, ◌^◌, ◌<◌, ◌≤◌, true, length, IfOk, None, AllPairs, slice_index_or};
ghost use Rattle.std.specs.Option.{option_copied};
ghost use Rattle.bk_rules.specs.Ledger.{are_covered};
ghost use Rattle.bk_conflicts.specs.Words.{words_at};
ghost use Rattle.bk_conflicts.specs.Plan.{IsPlan, before_of, after_of};
ghost use Rattle.bk_conflicts.specs.private.Flat.{AreFlat};
ghost use Rattle.bk_conflicts.specs.private.Rows.{row_at};

use crate::edges::Lists;
use crate::planner::Planner;
use crate::words::WordRef;
use bk_base::Version;
use bk_rules::Ids;
use bk_tx::Tx;
use std::alloc::{AllocError, Global};
use std::marker::Model;

/// A plan has fewer slots than this.
pub const SLOTS_END: usize = 1 << 31;

/// The transactions of an execution, the words of each, and which of them wait for which. A place
/// is the index of a transaction.
#[derive(Drop)]
pub struct Plan {
    version: Version,
    ids: Ids,
    txs: Vec<Option<Tx>>,
    words: Vec<WordRef>,
    word_start: Vec<usize>,
    before: Vec<u32>,
    after: Vec<u32>,
    after_start: Vec<usize>,
}

impl Model for Plan {
    ghost use Rattle.bk_conflicts.specs.Plan.{PlanValue};
    ghost use Rattle.bk_conflicts.specs.private.Flat.{seen, AreFlat};

    ghost Value = { PlanValue };

    ghost view = { λ p. seen p.version p.ids p.txs.items
        p.before.items p.after_start.items p.after.items };

    ghost invariant = { λ p. AreFlat p.version p.ids p.txs.items p.word_start.items p.words.items
        p.before.items p.after_start.items p.after.items };
}

impl Plan {
    /// The plan of these transactions, of which `None` is one that is malformed. It shares the ids.
    ///
    /// In version Two each account that they declare has a slot: `State::prepare` makes them.
    pub fn make(
        alloc: Global,
        version: Version,
        ids: &Ids,
        txs: Vec<Option<Tx>>,
    ) -> Result<Plan, AllocError>
        requires covered { are_covered version ids.now txs.items ≡ true }
        requires few { length txs.items < 2 ^ 31 }
        requires few_slots { length ids.now < 2 ^ 31 }
        ensures version { IfOk result (λ p. p.version ≡ version) }
        ensures ids { IfOk result (λ p. p.ids ≡ ids.now) }
        ensures txs { IfOk result (λ p. p.txs ≡ txs.items) }
        ensures plan { IfOk result IsPlan }
    {
        Planner::new(alloc).plan(alloc, version, ids, txs, &[])
    }

    // The plan that lists hold.
    pub(crate) fn of_lists(
        alloc: Global,
        version: Version,
        ids: &Ids,
        txs: Vec<Option<Tx>>,
        lists: Lists,
    ) -> Result<Plan, AllocError>
        requires { AreFlat version ids.now txs.items lists.words.start.items
            lists.words.items.items lists.before.items lists.after.start.items
            lists.after.items.items }
        ensures version { IfOk result (λ p. p.version ≡ version) }
        ensures ids { IfOk result (λ p. p.ids ≡ ids.now) }
        ensures txs { IfOk result (λ p. p.txs ≡ txs.items) }
        ensures plan { IfOk result IsPlan }
    {
        let ids = ids.share(alloc)?;
        Ok(Plan {
            version,
            ids,
            txs,
            words: lists.words.items,
            word_start: lists.words.start,
            before: lists.before,
            after: lists.after.items,
            after_start: lists.after.start,
        })
    }

    /// The number of places.
    pub fn len(&self) -> usize
        ensures count { result ≡ length self.now.txs }
        ensures plan { IsPlan self.now }
    {
        self.txs.len()
    }

    /// Whether there are none.
    pub fn is_empty(&self) -> bool
        ensures { result ≡ (length self.now.txs == 0) }
    {
        self.txs.is_empty()
    }

    /// The rules that the transactions follow.
    pub fn version(&self) -> Version
        ensures { result ≡ self.now.version }
    {
        self.version
    }

    /// The ids that have a slot, in ascending order.
    pub fn ids(&self) -> &Ids
        ensures { result.now ≡ self.now.ids }
    {
        &self.ids
    }

    /// The same as a slice.
    pub fn accounts(&self) -> &[u64]
        ensures { result.now ≡ self.now.ids }
    {
        self.ids.as_slice()
    }

    /// The transaction of a place; nothing where it is malformed, and where there is no such place.
    pub fn tx(&self, place: u32) -> Option<&Tx>
        ensures { option_copied result ≡ slice_index_or self.now.txs place None }
    {
        match self.txs.get(place as usize) {
            Some(tx) => tx.as_ref(),
            None => None,
        }
    }

    /// Its transactions again.
    pub fn into_txs(self) -> Vec<Option<Tx>>
        ensures { result.items ≡ self.txs }
    {
        self.txs
    }

    /// The words of a place: two of each declared account that has a slot, by ascending number,
    /// each with its mode.
    pub fn words_of(&self, place: u32) -> &[WordRef]
        requires { place < length self.now.txs }
        ensures list { result.now ≡ words_at self.now.ids self.now.txs place }
        ensures ascending { AllPairs (λ x y. x.word < y.word) result.now }
        ensures few { length result.now ≤ 16 }
    {
        word_row(&self.word_start, &self.words, place as usize)
    }

    /// How many places it waits for directly.
    pub fn before(&self, place: u32) -> u32
        requires { place < length self.now.txs }
        ensures { result ≡ before_of self.now place }
    {
        self.before[place as usize]
    }

    /// The places that wait for it directly, in ascending order.
    pub fn after(&self, place: u32) -> &[u32]
        requires { place < length self.now.txs }
        ensures { result.now ≡ after_of self.now place }
    {
        row(&self.after_start, &self.after, place as usize)
    }
}

// Row `p`.
fn row<'a>(start: &[usize], items: &'a [u32], p: usize) -> &'a [u32]
    requires inside { p + 1 < length start.now }
    requires ascending { slice_index_or start.now p 0 ≤ slice_index_or start.now (p + 1) 0 }
    requires within { slice_index_or start.now (p + 1) 0 ≤ length items.now }
    ensures { result.now ≡ row_at start.now items.now p }
{
    &items[start[p]..start[p + 1]]
}

// The same for words.
fn word_row<'a>(start: &[usize], items: &'a [WordRef], p: usize) -> &'a [WordRef]
    requires inside { p + 1 < length start.now }
    requires ascending { slice_index_or start.now p 0 ≤ slice_index_or start.now (p + 1) 0 }
    requires within { slice_index_or start.now (p + 1) 0 ≤ length items.now }
    ensures { result.now ≡ row_at start.now items.now p }
{
    &items[start[p]..start[p + 1]]
}
