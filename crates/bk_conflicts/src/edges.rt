//! One pass over the transactions: the words of each place, and the places that it waits for
//! directly.

ghost use Rattle.std.specs.Prelude.{◌≡◌, ℕ, ◌^◌, ◌<◌, ◌≤◌, true, IsTrue, List, [], ◌∷◌, length, OnOk, IfOk, slice_index_or};
ghost use Rattle.bk_base.specs.Numbers.{is_ascending};
ghost use Rattle.bk_rules.specs.Ledger.{are_covered};
ghost use Rattle.bk_conflicts.specs.Conflicts.{declared_at};
ghost use Rattle.bk_conflicts.specs.Words.{words_at};
ghost use Rattle.bk_conflicts.specs.Plan.{AreDeclared};
ghost use Rattle.bk_conflicts.specs.private.Accesses.{places_of};
ghost use Rattle.bk_conflicts.specs.private.Flat.{AreFlat};
ghost use Rattle.bk_conflicts.specs.private.Rows.{AreCounts, IsRows};
ghost use Rattle.bk_conflicts.specs.private.Trail.{direct, Stands, IsTrail};

use crate::rows::{
    Rows, clear_rows, end_row, lengths, new_rows, refill, refill_wide, turned_round,
};
use crate::trail::{Trail, clear_trail, meet_all, new_trail};
use crate::words::{Access, WordRows, likely_after, list_accesses, no_words, push_word_row};
use bk_base::Version;
use bk_rules::Ids;
use bk_tx::Tx;
use std::alloc::{AllocError, Global};

// What a plan is made with: lists that keep their memory for the next plan.
#[derive(Drop)]
pub(crate) struct Kept {
    pub(crate) trail: Trail,
    // By place: the last place, counted from 1, in whose row it is.
    pub(crate) stamp: Vec<u32>,
    // The places that each place waits for directly.
    pub(crate) earlier: Rows,
    // By place: how often it is in these rows, until they are turned round.
    pub(crate) counts: Vec<usize>,
    // The accesses of one place.
    pub(crate) xs: Vec<Access>,
}

// The lists of a plan.
#[derive(Drop)]
pub(crate) struct Lists {
    pub(crate) words: WordRows,
    pub(crate) before: Vec<u32>,
    pub(crate) after: Rows,
}

// It takes no memory yet.
pub(crate) fn new_kept(alloc: Global) -> Kept {
    Kept {
        trail: new_trail(alloc),
        stamp: Vec::new(alloc),
        earlier: new_rows(alloc),
        counts: Vec::new(alloc),
        xs: Vec::new(alloc),
    }
}

// One pass over the places, from the first. `near` has likely slots of all declared accounts, in their order, as far as
// it goes.
fn meet_places(
    alloc: Global,
    ids: &Ids,
    txs: &[Option<Tx>],
    near: &[u32],
    kept: &mut Kept,
) -> Result<WordRows, AllocError>
    requires wide { length kept.old.trail.last.items ≡ length ids.now }
    requires ids { IsTrue (is_ascending ids.now) }
    requires few { length txs.now < 2 ^ 31 }
    requires few_slots { length ids.now < 2 ^ 31 }
    requires long { length kept.old.stamp.items ≡ length txs.now }
    requires trail { IsTrail (length ids.now) (length txs.now) kept.old.trail }
    requires stands { Stands (places_of ids.now txs.now) 0 kept.old.trail }
    requires low { (p : ℕ) → p < length kept.old.stamp.items →
        slice_index_or kept.old.stamp.items p 0 ≤ 0 }
    requires many { length kept.old.counts.items ≡ length txs.now }
    requires counted { AreCounts kept.old.counts.items kept.old.earlier.items.items }
    requires no_rows { (kept.old.earlier.start.items ≡ 0 ∷ [])
        × (kept.old.earlier.items.items ≡ []) }
    ensures words { IfOk result (λ r.
        IsRows (words_at ids.now txs.now) (length txs.now) r.start.items r.items.items) }
    ensures earlier { OnOk result (
        IsRows (direct (places_of ids.now txs.now)) (length txs.now)
        kept.new.earlier.start.items kept.new.earlier.items.items) }
    ensures many { OnOk result (length kept.new.counts.items ≡ length txs.now) }
    ensures counted { OnOk result (AreCounts kept.new.counts.items kept.new.earlier.items.items) }
    ensures declared { OnOk result ((q : ℕ) → AreDeclared (declared_at txs.now q)) }
{
    let mut words = no_words(alloc, txs.len())?;
    let mut rest = near;
    for q in 0..txs.len() {
        list_accesses(ids, txs, q, rest, &mut kept.xs)?;
        rest = likely_after(rest, txs[q].as_ref());
        let found = &mut kept.earlier.items;
        let (stamp, counts) = (&mut kept.stamp, &mut kept.counts);
        meet_all(&mut kept.trail, stamp, counts, found, q as u32, &kept.xs)?;
        end_row(&mut kept.earlier)?;
        push_word_row(&mut words, &kept.xs)?;
    }
    Ok(words)
}

// The same, whatever was kept.
fn meet(
    alloc: Global,
    ids: &Ids,
    txs: &[Option<Tx>],
    near: &[u32],
    kept: &mut Kept,
) -> Result<WordRows, AllocError>
    requires few { length txs.now < 2 ^ 31 }
    requires few_slots { length ids.now < 2 ^ 31 }
    ensures words { IfOk result (λ r.
        IsRows (words_at ids.now txs.now) (length txs.now) r.start.items r.items.items) }
    ensures earlier { OnOk result (
        IsRows (direct (places_of ids.now txs.now)) (length txs.now)
        kept.new.earlier.start.items kept.new.earlier.items.items) }
    ensures many { OnOk result (length kept.new.counts.items ≡ length txs.now) }
    ensures counted { OnOk result (AreCounts kept.new.counts.items kept.new.earlier.items.items) }
    ensures declared { OnOk result ((q : ℕ) → AreDeclared (declared_at txs.now q)) }
    ensures ids { IsTrue (is_ascending ids.now) }
{
    clear_trail(&mut kept.trail, ids.as_slice().len())?;
    refill(&mut kept.stamp, 0, txs.len())?;
    refill_wide(&mut kept.counts, 0, txs.len())?;
    clear_rows(&mut kept.earlier, txs.len())?;
    meet_places(alloc, ids, txs, near, kept)
}

// The lists of the plan of these transactions.
pub(crate) fn lists_of(
    alloc: Global,
    version: Version,
    ids: &Ids,
    txs: &[Option<Tx>],
    near: &[u32],
    kept: &mut Kept,
) -> Result<Lists, AllocError>
    requires covered { are_covered version ids.now txs.now ≡ true }
    requires few { length txs.now < 2 ^ 31 }
    requires few_slots { length ids.now < 2 ^ 31 }
    ensures { IfOk result (λ r.
        AreFlat version ids.now txs.now r.words.start.items r.words.items.items
        r.before.items r.after.start.items r.after.items.items) }
{
    // The version is named in the condition alone.
    let _ = version;
    let words = meet(alloc, ids, txs, near, kept)?;
    let earlier = &kept.earlier;
    let before = lengths(alloc, &earlier.start)?;
    let after = turned_round(alloc, &earlier.start, &earlier.items, &mut kept.counts)?;
    Ok(Lists {
        words,
        before,
        after,
    })
}
