//! Who waits is woken by what is admitted.

ghost use Rattle.std.specs.Prelude.{◌≡◌, ℕ, ◌+◌, ◌<◌, ◌≤◌, [], length, Contains, true, false, OnOk, OnErr, All, vec_len, vec_capacity};
ghost use Rattle.bk_rounds.specs.private.Numbered.{IsInsideRows, IsTaken, IsEntered, IsTable, IsSettling, KeepsRows, CanWake, AreWoken, row_of, is_marked, count_unmarked, Extends};

use crate::slots::{Slot, is_ready};
use crate::weights::Weights;
use std::alloc::{AllocError, Global};
use std::collections::BTreeMap;

/// Who names one that is not admitted as a parent.
#[derive(Drop)]
pub(crate) struct Row {
    pub slots: Vec<usize>,
}

/// Who waits, in a row for each number that is waited for. Where all come in order nothing is in it.
#[derive(Drop)]
pub(crate) struct Pending {
    pub rows: BTreeMap<usize, Row>,
}

impl Pending {
    /// Nobody.
    pub fn new(alloc: Global) -> Pending
        ensures { (m : ℕ) → row_of result m ≡ [] }
    {
        Pending {
            rows: BTreeMap::new(alloc),
        }
    }

    // Takes the row of k out.
    fn take(&mut self, alloc: Global, k: usize) -> Vec<usize>
        ensures row { result.items ≡ row_of self.old k }
        ensures taken { IsTaken self.old self.new k }
    {
        match self.rows.remove(&k) {
            Some(row) => row.slots,
            None => Vec::new(alloc),
        }
    }

    // Enters k in the row of p.
    fn push(&mut self, alloc: Global, p: usize, k: usize) -> Result<(), AllocError>
        ensures ok { OnOk result (IsEntered self.old self.new p k) }
        ensures err { OnErr result ((m : ℕ) → row_of self.new m ≡ row_of self.old m) }
    {
        if let Some(row) = self.rows.get_mut(&p) {
            row.slots.push(k)?;
            return Ok(());
        }
        let mut slots = Vec::new(alloc);
        slots.push(k)?;
        self.rows.insert(p, Row { slots })?;
        Ok(())
    }
}

// Admits what is ready of these.
fn wake(
    weights: &Weights,
    slots: &[Slot],
    marks: &mut [bool],
    woken: &[usize],
    out: &mut Vec<usize>,
)
    requires can { CanWake weights.now slots.now marks.old woken.now }
    requires room { vec_len out.old + count_unmarked marks.old ≤ vec_capacity out.old }
    ensures room { vec_len out.new + count_unmarked marks.new ≤ vec_capacity out.new }
    ensures steps { vec_len out.new + count_unmarked marks.new
        ≡ vec_len out.old + count_unmarked marks.old }
    ensures woken { AreWoken weights.now slots.now marks.old marks.new woken.now
        out.old.items out.new.items }
{
    for k in woken {
        let k = *k;
        if !marks[k] && is_ready(weights, slots, marks, k) {
            marks[k] = true;
            out.push_reserved(k);
        }
    }
}

/// Admits the ones in `out`, whose marks are set, and all that this makes ready.
pub(crate) fn settle(
    alloc: Global,
    weights: &Weights,
    slots: &[Slot],
    marks: &mut [bool],
    pending: &mut Pending,
    out: &mut Vec<usize>,
)
    requires settling { IsSettling weights.now slots.now marks.old pending.old out.old.items 0 }
    requires room { vec_len out.old + count_unmarked marks.old ≤ vec_capacity out.old }
    ensures table { IsTable weights.now slots.now marks.new pending.new }
    ensures steps { vec_len out.new + count_unmarked marks.new
        ≡ vec_len out.old + count_unmarked marks.old }
    ensures more { Extends marks.old marks.new out.old.items out.new.items }
{
    let mut next = 0;
    while next < out.len() {
        let k = out[next];
        next += 1;
        let woken = pending.take(alloc, k);
        wake(weights, slots, marks, &woken, out);
    }
}

/// Writes k into the row of each parent that is not admitted. A row that names k too early harms
/// nothing.
pub(crate) fn register(
    alloc: Global,
    marks: &[bool],
    pending: &mut Pending,
    k: usize,
    parents: &[usize],
) -> Result<(), AllocError>
    requires number { k < length marks.now }
    requires parents { All (λ p. p < length marks.now) parents.now }
    requires rows { IsInsideRows (length marks.now) pending.old }
    ensures keeps { KeepsRows (length marks.now) pending.old pending.new }
    ensures all { OnOk result ((p : ℕ) → Contains parents.now p → is_marked marks.now p ≡ false
        → Contains (row_of pending.new p) k) }
{
    for p in parents {
        let p = *p;
        if !marks[p] {
            pending.push(alloc, p, k)?;
        }
    }
    Ok(())
}
