//! A part of a state: the accounts of some slots alone, which are put back later.

ghost use Rattle.std.specs.Prelude.{◌≡◌, ◌==◌, ◌^◌, ◌<◌, ℕ, List, length, map, IfOk, slice_index};
ghost use Rattle.std.specs.List.{list_all, list_any};
ghost use Rattle.std.specs.Option.{option_copied};
ghost use Rattle.bk_base.specs.declared.genesis.Row.{Row};
ghost use Rattle.bk_base.specs.Genesis.{total_of};
ghost use Rattle.bk_rules.specs.Rows.{IsLedger};
ghost use Rattle.bk_rules.specs.Fold.{HasRoom};
ghost use Rattle.bk_rules.specs.Ledger.{rows_shown, slot_numbers};
ghost use Rattle.bk_rules.specs.Part.{AreIndexes, ArePutBack, HaveSlots, ids_at, part_of, is_held_id, is_held, are_held};
ghost use Rattle.bk_rules.specs.private.Slots.{numbers_or_absent, PutBelow};

use crate::account::Account;
use crate::ids::Ids;
use crate::run::{count_of, near_from};
use crate::state::{State, likely_at, put};
use crate::widen::numbers_at;
use bk_base::Version;
use bk_tx::{Declarations, Tx};
use std::alloc::{AllocError, Global};

impl Ids {
    /// The ids at these indexes, O(their number). They have no hints: one of them is found by a likely index, and else by
    /// a binary search.
    pub fn at(&self, alloc: Global, list: &[u32]) -> Result<Ids, AllocError>
        requires { AreIndexes (length self.now) list.now }
        ensures { IfOk result (λ ids. ids ≡ ids_at self.now list.now) }
    {
        let ids = ids_in(alloc, self.as_slice(), list)?;
        Ids::without_hints(alloc, ids)
    }

    /// Whether transactions see no difference between a state of these ids and one of `slots`: each account that they
    /// declare is one of these or, in version One, has no slot there.
    ///
    /// `near` has likely indexes of the declared accounts among these ids, in their order: each that is right saves a
    /// search.
    pub fn hold(&self, version: Version, slots: &Ids, txs: &[Option<Tx>], near: &[u32]) -> bool
        ensures { result ≡ are_held version slots.now self.now txs.now }
    {
        let mut at = 0usize;
        for tx in txs {
            if !holds_tx(version, slots, self, tx.as_ref(), near_from(near, at)) {
                return false;
            }
            at = at.saturating_add(count_of(tx.as_ref()));
        }
        true
    }
}

impl State {
    /// The accounts of the slots at these indexes alone, by their ids. O(their number).
    pub fn part(&self, alloc: Global, list: &[u32], ids: &Ids) -> Result<State, AllocError>
        requires indexes { AreIndexes (length self.now.slots) list.now }
        requires ids { ids.now ≡ ids_at self.now.slots list.now }
        ensures part { IfOk result (λ part. part ≡ part_of ids.now self.now) }
        ensures ledger { IfOk result (λ part. IsLedger part.rows) }
        ensures shown { IfOk result (λ part.
            rows_shown part.version part.slots (slot_numbers part) ≡ part.rows) }
    {
        let numbers = numbers_in(alloc, &self.numbers, list)?;
        let ids = ids.share(alloc)?;
        Ok(State {
            version: self.version,
            ids,
            numbers,
        })
    }

    /// Puts a part back, whose slots have these indexes: its accounts become those of the part, all others stay.
    /// O(their number), and it takes no memory.
    pub fn put_back(&mut self, list: &[u32], part: &State)
        requires indexes { AreIndexes (length self.old.slots) list.now }
        requires ids { part.now.slots ≡ ids_at self.old.slots list.now }
        requires version { part.now.version ≡ self.old.version }
        requires within { (rows : List Row) →
            ArePutBack part.now.slots part.now.rows self.old.rows rows → total_of rows < 2 ^ 63 }
        ensures version { self.new.version ≡ self.old.version }
        ensures slots { self.new.slots ≡ self.old.slots }
        ensures rows { ArePutBack part.now.slots part.now.rows self.old.rows self.new.rows }
    {
        put_all(&mut self.numbers, list, &part.numbers);
    }
}

// The ids at these indexes.
fn ids_in(alloc: Global, ids: &[u64], list: &[u32]) -> Result<Vec<u64>, AllocError>
    ensures { IfOk result (λ some. some.items ≡ map (slice_index ids.now) list.now) }
{
    let mut some = Vec::with_capacity(alloc, list.len())?;
    for index in list {
        some.push(id_at(ids, *index as usize))?;
    }
    Ok(some)
}

// The id at an index, which is one of them.
fn id_at(ids: &[u64], index: usize) -> u64
    ensures { result ≡ slice_index ids.now index }
{
    if index < ids.len() { ids[index] } else { 0 }
}

// The numbers at these indexes.
fn numbers_in(alloc: Global, numbers: &[Account], list: &[u32]) -> Result<Vec<Account>, AllocError>
    ensures { IfOk result (λ some. some.items ≡ map (numbers_or_absent numbers.now) list.now) }
{
    let mut some = Vec::with_capacity(alloc, list.len())?;
    for index in list {
        some.push(numbers_at(numbers, *index as usize))?;
    }
    Ok(some)
}

// Puts numbers at these indexes.
fn put_all(numbers: &mut [Account], list: &[u32], part: &[Account])
    requires indexes { AreIndexes (length numbers.old) list.now }
    requires same { length part.now ≡ length list.now }
    ensures { PutBelow list.now part.now numbers.old numbers.new (length list.now) }
{
    for k in 0..list.len() {
        put(numbers, list[k] as usize, part[k]);
    }
}

// Whether ids hold each account that a transaction declares, if it is one.
fn holds_tx(version: Version, slots: &Ids, ids: &Ids, tx: Option<&Tx>, near: &[u32]) -> bool
    ensures { result ≡ is_held version slots.now ids.now (option_copied tx.entry) }
{
    match tx {
        None => true,
        Some(tx) => holds_declared(version, slots, ids, tx.declared(), near),
    }
}

// Whether ids hold each of these accounts.
fn holds_declared(
    version: Version,
    slots: &Ids,
    ids: &Ids,
    declared: &Declarations,
    near: &[u32],
) -> bool
    ensures { result ≡ list_all (λ d. is_held_id version slots.now ids.now d.id) declared.now }
{
    for k in 0..declared.len() {
        if !holds_id(version, slots, ids, declared.get(k).id, likely_at(near, k)) {
            return false;
        }
    }
    true
}

// Whether ids hold an account, which has this likely index.
fn holds_id(version: Version, slots: &Ids, ids: &Ids, id: u64, near: usize) -> bool
    ensures { result ≡ is_held_id version slots.now ids.now id }
{
    let holds = has_near(ids, id, near);
    match version {
        Version::One => holds || !slots.contains(id),
        Version::Two => holds,
    }
}

// Whether an id is one of these; a likely index is looked at first.
fn has_near(ids: &Ids, id: u64, near: usize) -> bool
    ensures { result ≡ list_any (λ i. i == id) ids.now }
{
    ids.index_by(id, near).is_some()
}
