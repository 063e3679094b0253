//! The waits of a plan against the conflicts of its transactions, and its words against what they declare.

use crate::cases::{NAMES, Name, VERSIONS, feed_named};
use crate::executing::planned;
use anyhow::Result;
use bk_base::Version;
use bk_conflicts::{Plan, WordRef};
use bk_trial_kit::Tally;
use bk_tx::Tx;
use std::alloc::Global;

// The accounts of all lists.
const IDS: [u64; 9] = [1, 2, 3, 4, 5, 6, 7, 8, 9];

// Whether two transactions share an account that has a slot, at least one of them for writing.
fn are_in_conflict(plan: &Plan, first: &Tx, second: &Tx) -> bool {
    let (a, b) = (first.declared(), second.declared());
    for id in IDS {
        let is_shared = a.declared_at(id).is_some() && b.declared_at(id).is_some();
        let is_written = a.writable_at(id).is_some() || b.writable_at(id).is_some();
        if plan.ids().contains(id) && is_shared && is_written {
            return true;
        }
    }
    false
}

fn is_conflict(plan: &Plan, p: u32, q: u32) -> bool {
    match (plan.tx(p), plan.tx(q)) {
        (Some(first), Some(second)) => are_in_conflict(plan, first, second),
        _ => false,
    }
}

// The places before a given one that it has to wait for, directly or through others, as bits.
type Waits = [u64; 32];

// Adds to the waits of place `q` place `p` and its waits.
fn add_wait(waits: &mut Waits, p: u32, q: u32) {
    let all = waits.get(p as usize).copied().unwrap_or(0) | 1u64.wrapping_shl(p);
    if let Some(bits) = waits.get_mut(q as usize) {
        *bits |= all;
    }
}

// The waits by who is in conflict with whom.
fn waits_by_conflicts(plan: &Plan) -> Waits {
    let mut waits = [0; 32];
    for q in 0..32u32 {
        for p in 0..q {
            if is_conflict(plan, p, q) {
                add_wait(&mut waits, p, q);
            }
        }
    }
    waits
}

// Adds place `p` and its waits to those of the places that wait for it directly.
fn add_waits(plan: &Plan, p: u32, waits: &mut Waits) {
    if p as usize >= plan.len() {
        return;
    }
    for q in plan.after(p) {
        add_wait(waits, p, *q);
    }
}

// The waits by the plan.
fn waits_by_plan(plan: &Plan) -> Waits {
    let mut waits = [0; 32];
    for p in 0..32u32 {
        add_waits(plan, p, &mut waits);
    }
    waits
}

// Whether each place that waits for `p` directly is later and in conflict, and is listed once.
fn is_sound(plan: &Plan, p: u32) -> bool {
    if p as usize >= plan.len() {
        return true;
    }
    let mut last = p;
    for q in plan.after(p) {
        if *q <= last || !is_conflict(plan, p, *q) {
            return false;
        }
        last = *q;
    }
    true
}

// How many places have `q` among those that wait for them directly.
fn waited_for(plan: &Plan, q: u32) -> u32 {
    let mut count = 0u32;
    for p in 0..plan.len() {
        if plan.after(p as u32).contains(&q) {
            count = count.saturating_add(1);
        }
    }
    count
}

// Whether each direct wait is for a place in conflict and is counted once, and each word is declared.
fn are_sound(plan: &Plan) -> bool {
    for place in 0..plan.len() {
        let place = place as u32;
        if !is_sound(plan, place) || !are_declared(plan, place) {
            return false;
        }
        if plan.before(place) != waited_for(plan, place) {
            return false;
        }
    }
    true
}

// How many words the accounts that a transaction declares have: two each, if they have a slot.
fn words_declared(plan: &Plan, tx: &Tx) -> usize {
    let mut count = 0usize;
    for id in tx.declared().ids() {
        if plan.ids().contains(*id) {
            count = count.wrapping_add(2);
        }
    }
    count
}

// Whether a word is of an account that the transaction declares in this way.
fn is_declared(plan: &Plan, tx: &Tx, word: &WordRef) -> bool {
    let declared = tx.declared();
    match plan.accounts().get(word.word as usize / 2) {
        Some(id) => {
            declared.declared_at(*id).is_some()
                && declared.writable_at(*id).is_some() == word.writable
        }
        None => false,
    }
}

// Whether the words of a place are two of each declared account that has a slot.
fn are_declared(plan: &Plan, place: u32) -> bool {
    if place as usize >= plan.len() {
        return false;
    }
    let words = plan.words_of(place);
    let Some(tx) = plan.tx(place) else {
        return words.is_empty();
    };
    for word in words {
        if !is_declared(plan, tx, word) {
            return false;
        }
    }
    words.len() == words_declared(plan, tx)
}

// Whether the waits of a plan of at most 32 places are those of its conflicts, and its words those that are declared.
fn is_right(plan: &Plan) -> bool {
    waits_by_plan(plan) == waits_by_conflicts(plan) && are_sound(plan)
}

fn is_planned(alloc: Global, version: Version, name: Name) -> Result<bool> {
    let feed = feed_named(alloc, version, name)?;
    let (plan, _) = planned(alloc, &feed)?;
    Ok(is_right(&plan))
}

/// The plans of all lists in both versions.
pub(crate) fn try_waits<R>(rt: &R, tally: &mut Tally)
where
    R: AllocGlobal + Eprint,
{
    for version in VERSIONS {
        for name in NAMES {
            let found = is_planned(rt.alloc(), *version, *name);
            tally.judge(rt, "the waits and words of a plan", found);
        }
    }
}
