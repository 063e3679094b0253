//! A further certificate, and all that it makes admitted.

ghost use Rattle.std.specs.Prelude.{◌≡◌, ℕ, ◌+◌, ◌<◌, ◌≤◌, ◌↔◌, [], true, false, length, map, All, Contains, slice_set, vec_len, vec_capacity};
ghost use Rattle.bk_cert.specs.Place.{IsListed};
ghost use Rattle.bk_cert.specs.declared.place.CertRef.{CertRef};
ghost use Rattle.bk_rounds.specs.Members.{Has};
ghost use Rattle.bk_rounds.specs.private.Numbered.{IsTable, id_of, round_of, author_of, row_of, is_marked, count_unmarked};
ghost use Rattle.bk_rounds.specs.private.Tied.{CanTell, IsAuthorIn, IsTold, place_at};

use crate::members::Members;
use crate::slots::{Slot, is_ready};
use crate::waking::{Pending, settle};
use crate::weights::Weights;
use bk_cert::CertRef;
use bk_index::KeyedList;
use std::alloc::Global;

/// Fills the slot of number k, who waits under each of its parents that is not admitted. In `out`
/// comes what becomes admitted.
pub(crate) fn admit(
    alloc: Global,
    weights: &Weights,
    slots: &mut KeyedList<Slot>,
    marks: &mut [bool],
    pending: &mut Pending,
    k: usize,
    slot: Slot,
    out: &mut Vec<usize>,
)
    requires table { IsTable weights.now slots.old marks.old pending.old }
    requires number { (k < length slots.old) × (round_of slots.old k ≡ 0) }
    requires id { id_of slots.old k ≡ slot.id }
    requires parents { All (λ p. p < length slots.old) slot.parents.items }
    requires waits { (p : ℕ) → Contains slot.parents.items p → is_marked marks.old p ≡ false
        → Contains (row_of pending.old p) k }
    requires out { out.old.items ≡ [] }
    requires room { count_unmarked marks.old ≤ vec_capacity out.old }
    ensures table { IsTable weights.now slots.new marks.new pending.new }
    ensures slots { slots.new ≡ slice_set slots.old k slot }
    ensures stay { (i : ℕ) → is_marked marks.old i ≡ true → is_marked marks.new i ≡ true }
    ensures out { (i : ℕ) → Contains out.new.items i ↔ ((is_marked marks.new i ≡ true)
        × (is_marked marks.old i ≡ false)) }
    ensures steps { vec_len out.new + count_unmarked marks.new ≡ count_unmarked marks.old }
{
    slots.replace(k, slot);
    if is_ready(weights, slots.as_slice(), marks, k) {
        marks[k] = true;
        out.push_reserved(k);
        settle(alloc, weights, slots.as_slice(), marks, pending, out);
    }
}

/// Reports the places of these, keeps the authors of their parents, and answers the greatest round.
pub(crate) fn tell(
    slots: &[Slot],
    sets: &mut [Members],
    out: &[usize],
    answer: &mut Vec<CertRef>,
    top: u32,
) -> u32
    requires can { CanTell slots.now sets.old out.now }
    requires answer { answer.old.items ≡ [] }
    requires room { length out.now ≤ vec_capacity answer.old }
    ensures answer { answer.new.items ≡ map (place_at slots.now) out.now }
    ensures told { IsTold slots.now sets.old sets.new out.now top result }
{
    let mut highest = top;
    for k in out {
        let slot = &slots[*k];
        sets[*k] = authors_of(slots, &slot.parents);
        answer.push_reserved(CertRef {
            round: slot.round,
            author: slot.author,
        });
        highest = highest.max(slot.round);
    }
    highest
}

// The authors of these.
fn authors_of(slots: &[Slot], numbers: &[usize]) -> Members
    requires inside { All (λ p. p < length slots.now) numbers.now }
    requires few { (p : ℕ) → Contains numbers.now p → author_of slots.now p < 128 }
    ensures { (x : ℕ) → Has result x ↔ IsAuthorIn slots.now numbers.now x }
{
    let mut set = Members::none();
    for p in numbers {
        set = set.with(slots[*p].author);
    }
    set
}

/// Brings places into their order, each once.
pub(crate) fn list(places: &mut Vec<CertRef>)
    ensures listed { IsListed places.new.items }
    ensures same { (a : CertRef) → Contains places.new.items a ↔ Contains places.old.items a }
{
    places.sort_unstable();
    places.dedup();
}
