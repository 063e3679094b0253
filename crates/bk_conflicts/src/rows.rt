//! Rows of numbers in one list, and the same rows turned round.

ghost use Rattle.std.specs.Prelude.{◌≡◌, [], ◌∷◌, ◌++◌, OnOk, ℕ, ◌+◌, ◌^◌, ◌-◌, ◌<◌, ◌≤◌, List, length, sum, take, replicate, All, IfOk, slice_index_or};
ghost use Rattle.bk_conflicts.specs.Scene.{times};
ghost use Rattle.bk_conflicts.specs.private.Rows.{laid, turned_rows, row_at, AreCounts, IsRows};

use std::alloc::{AllocError, Global};

// Rows of numbers: row q goes from `start[q]` to `start[q + 1]`.
#[derive(Drop)]
pub(crate) struct Rows {
    pub(crate) start: Vec<usize>,
    pub(crate) items: Vec<u32>,
}

// The same value, n times.
fn filled(alloc: Global, value: u32, n: usize) -> Result<Vec<u32>, AllocError>
    ensures { IfOk result (λ v. v.items ≡ replicate n value) }
{
    Ok(vec![in alloc; value; n]?)
}

// Puts the same value, n times, in place of others.
pub(crate) fn refill(xs: &mut Vec<u32>, value: u32, n: usize) -> Result<(), AllocError>
    ensures { OnOk result (xs.new.items ≡ replicate n value) }
{
    xs.clear();
    xs.resize(n, value)
}

// The same for offsets.
pub(crate) fn refill_wide(xs: &mut Vec<usize>, value: usize, n: usize) -> Result<(), AllocError>
    ensures { OnOk result (xs.new.items ≡ replicate n value) }
{
    xs.clear();
    xs.resize(n, value)
}

// Puts a copy in place of others.
fn copy_to(copy: &mut Vec<usize>, xs: &[usize]) -> Result<(), AllocError>
    ensures { OnOk result (copy.new.items ≡ xs.now) }
{
    copy.clear();
    copy.extend_from_slice(xs)?;
    Ok(())
}

// Ends a row, whose items are at the end already.
pub(crate) fn end_row(rows: &mut Rows) -> Result<(), AllocError>
    ensures same { rows.new.items ≡ rows.old.items }
    ensures row { (f : ℕ → List ℕ) (n : ℕ) (before row : List ℕ) →
        IsRows f n rows.old.start.items before → row ≡ f n →
        rows.old.items.items ≡ before ++ row →
        OnOk result (IsRows f (n + 1) rows.new.start.items rows.new.items.items) }
{
    let end = rows.items.len();
    rows.start.push(end)?;
    Ok(())
}

// No rows, and no memory yet.
pub(crate) fn new_rows(alloc: Global) -> Rows {
    Rows {
        start: Vec::new(alloc),
        items: Vec::new(alloc),
    }
}

// Takes all rows out, and makes room for the starts of so many.
pub(crate) fn clear_rows(all: &mut Rows, rows: usize) -> Result<(), AllocError>
    requires { rows < 2 ^ 31 }
    ensures { OnOk result ((all.new.start.items ≡ 0 ∷ []) × (all.new.items.items ≡ [])) }
{
    all.items.clear();
    all.start.clear();
    all.start.reserve(rows + 1)?;
    all.start.push(0)?;
    Ok(())
}

// The sum of the first `p` counts, for each `p` up to their number.
fn sums(alloc: Global, counts: &[usize]) -> Result<Vec<usize>, AllocError>
    requires { sum counts.now < 2 ^ 64 }
    ensures long { IfOk result (λ v. length v.items ≡ length counts.now + 1) }
    ensures each { IfOk result (λ v. (p : ℕ) → p ≤ length counts.now →
        slice_index_or v.items p 0 ≡ sum (take p counts.now)) }
{
    let mut starts = Vec::with_capacity(alloc, counts.len() + 1)?;
    let mut total = 0;
    starts.push(0)?;
    for &n in counts {
        total += n;
        starts.push(total)?;
    }
    Ok(starts)
}

// Puts each row's number into the rows that its items name. `cursor` says where these begin, and is written over.
fn spread(
    alloc: Global,
    start: &[usize],
    items: &[u32],
    cursor: &mut [usize],
) -> Result<Vec<u32>, AllocError>
    requires some { 0 < length start.now }
    requires width { 0 < length cursor.old }
    requires small { length start.now ≤ 2 ^ 32 }
    requires low { All (λ x. x < length cursor.old - 1) items.now }
    requires few { length items.now < 2 ^ 64 }
    requires rows { IsRows (row_at start.now items.now) (length start.now - 1) start.now items.now }
    requires room { (p : ℕ) → p < length cursor.old →
        slice_index_or cursor.old p 0
        ≡ length (laid (turned_rows start.now items.now) p) }
    requires whole { length (laid (turned_rows start.now items.now) (length cursor.old - 1))
        ≡ length items.now }
    ensures { IfOk result (λ v. v.items
        ≡ laid (turned_rows start.now items.now) (length cursor.old - 1)) }
{
    let mut after = filled(alloc, 0, items.len())?;
    for q in 0..start.len() - 1 {
        let row = &items[start[q]..start[q + 1]];
        for &s in row {
            let at = cursor[s as usize];
            after[at] = q as u32;
            cursor[s as usize] = at + 1;
        }
    }
    Ok(after)
}

// The rows turned round: row `p` lists, in ascending order, the rows that name `p`. `counts` says how often each `p` is in
// the items; it is written over.
pub(crate) fn turned_round(
    alloc: Global,
    start: &[usize],
    items: &[u32],
    counts: &mut Vec<usize>,
) -> Result<Rows, AllocError>
    requires some { 0 < length start.now }
    requires small { length start.now ≤ 2 ^ 32 }
    requires low { All (λ x. x < length counts.old.items) items.now }
    requires few { length items.now < 2 ^ 64 }
    requires rows { IsRows (row_at start.now items.now) (length start.now - 1) start.now items.now }
    requires counted { AreCounts counts.old.items items.now }
    ensures { IfOk result (λ r. IsRows (turned_rows start.now items.now)
        (length counts.old.items) r.start.items r.items.items) }
{
    let first = sums(alloc, counts)?;
    copy_to(counts, &first)?;
    let after = spread(alloc, start, items, counts)?;
    Ok(Rows {
        start: first,
        items: after,
    })
}

// How long each row is.
pub(crate) fn lengths(alloc: Global, start: &[usize]) -> Result<Vec<u32>, AllocError>
    requires some { 0 < length start.now }
    requires ascending { (q : ℕ) → q < length start.now - 1 →
        slice_index_or start.now q 0 ≤ slice_index_or start.now (q + 1) 0 }
    requires short { (q : ℕ) → q < length start.now - 1 →
        slice_index_or start.now (q + 1) 0 - slice_index_or start.now q 0 < 2 ^ 32 }
    ensures long { IfOk result (λ v. length v.items ≡ length start.now - 1) }
    ensures each { IfOk result (λ v. (q : ℕ) → q < length start.now - 1 →
        slice_index_or v.items q 0
        ≡ slice_index_or start.now (q + 1) 0 - slice_index_or start.now q 0) }
{
    let mut all = Vec::with_capacity(alloc, start.len())?;
    for q in 0..start.len() - 1 {
        all.push((start[q + 1] - start[q]) as u32)?;
    }
    Ok(all)
}
