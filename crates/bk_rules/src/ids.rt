//! Ids by ascending order, and the index of one of them.

ghost use Rattle.std.specs.Prelude.{◌≡◌, ◌==◌, ◌<◌, ℕ, IsTrue, IfOk, length, true};
ghost use Rattle.std.specs.List.{position, list_any};
ghost use Rattle.bk_base.specs.Numbers.{is_ascending};
ghost use Rattle.bk_rules.specs.private.Slots.{index_or_len};

use crate::hints::Hints;
use crate::run::BLOCK;
use bk_tx::{Declarations, MOST_DECLARED, Tx};
use std::alloc::{AllocError, Global};
use std::marker::Model;
use std::sync::Arc;

// What holders of the same ids share.
#[derive(Debug, Drop)]
struct Table {
    ids: Vec<u64>,
    hints: Hints,
}

/// Ids in ascending order, each of which is found by a hint in most cases. Contracts see them as a list.
///
/// A copy shares them: it takes no memory but a count.
#[derive(Debug, Drop)]
pub struct Ids {
    table: Arc<Table, Global>,
}

impl Model for Ids {
    ghost use Rattle.std.specs.Prelude.{ℕ, List, IsTrue};
    ghost use Rattle.std.specs.Arc.{arc_value};
    ghost use Rattle.bk_base.specs.Numbers.{is_ascending};

    ghost Value = { List ℕ };

    ghost view = { λ i. (arc_value i.table).ids.items };

    ghost invariant = { λ i. IsTrue (is_ascending (arc_value i.table).ids.items) };
}

impl Ids {
    /// These ids. It makes the hints, O(n).
    pub fn new(alloc: Global, ids: Vec<u64>) -> Result<Ids, AllocError>
        requires { IsTrue (is_ascending ids.items) }
        ensures { IfOk result (λ i. i ≡ ids.items) }
    {
        Ids::keyed(alloc, ids, 0)
    }

    // The same, where these ids hold those of `self` and more.
    pub(crate) fn grown(&self, alloc: Global, ids: Vec<u64>) -> Result<Ids, AllocError>
        requires { IsTrue (is_ascending ids.items) }
        ensures { IfOk result (λ i. i ≡ ids.items) }
    {
        Ids::keyed(alloc, ids, self.table.hints.key())
    }

    // The same, with the key of hints of some of them, or 0.
    fn keyed(alloc: Global, ids: Vec<u64>, key: u64) -> Result<Ids, AllocError>
        requires { IsTrue (is_ascending ids.items) }
        ensures { IfOk result (λ i. i ≡ ids.items) }
    {
        let hints = Hints::new(alloc, &ids, key)?;
        let table = Arc::new(alloc, Table { ids, hints })?;
        Ok(Ids { table })
    }

    // These ids, and no hints of them.
    pub(crate) fn without_hints(alloc: Global, ids: Vec<u64>) -> Result<Ids, AllocError>
        requires { IsTrue (is_ascending ids.items) }
        ensures { IfOk result (λ i. i ≡ ids.items) }
    {
        let hints = Hints::none(alloc);
        let table = Arc::new(alloc, Table { ids, hints })?;
        Ok(Ids { table })
    }

    /// The same ids, shared: it takes no memory. Only where the count of holders is full, at 2^63, it copies them; so
    /// an `Err` comes only where memory was refused.
    pub fn share(&self, alloc: Global) -> Result<Ids, AllocError>
        ensures { IfOk result (λ i. i ≡ self.now) }
    {
        match Arc::try_clone(&self.table) {
            Ok(table) => Ok(Ids { table }),
            Err(_) => self.grown(alloc, Vec::from_slice(alloc, self.as_slice())?),
        }
    }

    /// All ids, in ascending order.
    pub fn as_slice(&self) -> &[u64]
        ensures all { result.now ≡ self.now }
        ensures ascending { IsTrue (is_ascending self.now) }
    {
        self.table.ids.as_slice()
    }

    /// How many there are.
    pub fn len(&self) -> usize
        ensures { result ≡ length self.now }
    {
        self.as_slice().len()
    }

    /// Whether there are none.
    pub fn is_empty(&self) -> bool
        ensures { result ≡ (length self.now == 0) }
    {
        self.as_slice().is_empty()
    }

    /// The index of an id, if it is there: O(1) in most cases, and O(log n) at most.
    pub fn index_of(&self, id: u64) -> Option<usize>
        ensures { result ≡ position (λ i. i == id) self.now }
    {
        index_in(self.as_slice(), &self.table.hints, id)
    }

    /// Whether the id is there: O(1) in most cases, and O(log n) at most.
    pub fn contains(&self, id: u64) -> bool
        ensures { result ≡ list_any (λ i. i == id) self.now }
    {
        self.index_of(id).is_some()
    }

    /// The index of an id, if it is there; a likely index is looked at first.
    pub fn index_by(&self, id: u64, near: usize) -> Option<usize>
        ensures { result ≡ position (λ i. i == id) self.now }
    {
        let ids = self.as_slice();
        if near < ids.len() {
            if ids[near] == id {
                return Some(near);
            }
        }
        self.index_of(id)
    }

    /// Puts a likely index of each account that the transactions declare at the end, in their order, for `index_by`.
    ///
    /// No contract says that they are right: where one is not, the look-up takes longer.
    pub fn push_likely(&self, near: &mut Vec<u32>, txs: &[Option<Tx>]) -> Result<(), AllocError> {
        let mut declared = [0; MOST_DECLARED * BLOCK];
        let mut found = [0; MOST_DECLARED * BLOCK];
        for block in txs.chunks(BLOCK) {
            let count = list_declared(&mut declared, block).min(MOST_DECLARED * BLOCK);
            let ids = &declared[..count];
            let slots = &mut found[..count];
            self.table.hints.list_slots(ids, slots);
            self.mend(slots, ids);
            near.extend_from_slice(slots)?;
        }
        Ok(())
    }

    // Searches for the ids that are not where their slots say. An id that is not there gets a number that is no index.
    fn mend(&self, near: &mut [u32], declared: &[u64]) {
        let ids = self.as_slice();
        for (index, id) in near.iter_mut().zip(declared) {
            if ids.get(*index as usize) != Some(id) {
                *index = u32::try_from(self.index_or_len(*id)).unwrap_or(u32::MAX);
            }
        }
    }

    // The index of an id, or the length where it is not there.
    pub(crate) fn index_or_len(&self, id: u64) -> usize
        ensures { result ≡ index_or_len self.now id }
    {
        match self.index_of(id) {
            Some(index) => index,
            None => self.len(),
        }
    }

    // The same, where a likely index is known.
    pub(crate) fn index_near(&self, id: u64, near: usize) -> usize
        ensures { result ≡ index_or_len self.now id }
    {
        match self.index_by(id, near) {
            Some(index) => index,
            None => self.len(),
        }
    }

    // The same, where the id is likely to be at this index or, if it is not there, to fall before what is.
    pub(crate) fn index_along(&self, id: u64, near: usize) -> usize
        ensures { result ≡ index_or_len self.now id }
    {
        let ids = self.as_slice();
        if falls_at(ids, id, near) {
            ids.len()
        } else {
            self.index_near(id, near)
        }
    }
}

// Lists the ids that all of the transactions declare, and returns how many they are.
fn list_declared(list: &mut [u64], txs: &[Option<Tx>]) -> usize {
    let mut count = 0usize;
    for tx in txs {
        if let Some(tx) = tx {
            count = put_declared(list, count, tx.declared());
        }
    }
    count
}

// Puts the declared ids into a list from an index on, and returns the index after them.
fn put_declared(list: &mut [u64], from: usize, declared: &Declarations) -> usize {
    let mut at = from;
    for id in declared.ids() {
        if let Some(place) = list.get_mut(at) {
            *place = *id;
        }
        at = at.saturating_add(1);
    }
    at
}

// Whether an id falls between the id at an index and the one before it, so that it is none of them.
fn falls_at(ids: &[u64], id: u64, index: usize) -> bool
    requires { IsTrue (is_ascending ids.now) }
    ensures { result ≡ true → index_or_len ids.now id ≡ length ids.now }
{
    if ids.len() < index {
        return false;
    }
    if index < ids.len() && ids[index] <= id {
        return false;
    }
    index == 0 || ids[index - 1] < id
}

// The index of an id, by a hint or by a binary search.
fn index_in(ids: &[u64], hints: &Hints, id: u64) -> Option<usize>
    requires { IsTrue (is_ascending ids.now) }
    ensures { result ≡ position (λ i. i == id) ids.now }
{
    match hints.guess(ids, id) {
        Some(index) => Some(index),
        None => search(ids, id),
    }
}

// The index of an id, by a binary search.
fn search(ids: &[u64], id: u64) -> Option<usize>
    requires { IsTrue (is_ascending ids.now) }
    ensures { result ≡ position (λ i. i == id) ids.now }
{
    ids.binary_search(&id).ok()
}
