//! The slots that transactions touch.

ghost use Rattle.std.specs.Prelude.{◌≡◌, ◌^◌, ◌<◌, true, ℕ, List, length, nat_lt, IfOk};
ghost use Rattle.std.specs.List.{list_all};
ghost use Rattle.bk_base.specs.Numbers.{is_ascending};
ghost use Rattle.bk_rules.specs.Part.{AreIndexes, ids_at};
ghost use Rattle.bk_ledger.specs.Touched.{AreTouched};

use bk_conflicts::SLOTS_END;
use bk_rules::Ids;
use std::alloc::{AllocError, Global};

/// Some slots of a ledger: those over which a slice of its batches is executed.
#[derive(Drop)]
pub struct Touched {
    /// Their indexes among all, in ascending order.
    pub list: Vec<u32>,
    /// Their ids.
    pub ids: Ids,
}

// Slots by their marks: one bit for each slot of a ledger, 64 in a word.
#[derive(Drop)]
struct Marks {
    words: Vec<u64>,
    // How many slots are marked in the words before each.
    before: Vec<u32>,
}

impl Touched {
    /// The slots at these indexes, which come in any order and more than once. Each is replaced by the index of its slot
    /// among those that are found; a number that is no index stays none. `AllocError` where memory runs out.
    ///
    /// Nothing here is believed: `Ids::hold` says whether the slots that are found are enough. O(slots / 64 + indexes).
    pub fn near(alloc: Global, ids: &Ids, near: &mut [u32]) -> Result<Touched, AllocError>
        ensures { IfOk result (AreTouched ids.now) }
    {
        let mut marks = Marks {
            words: vec![in alloc; 0u64; ids.len() / 64 + 1]?,
            before: Vec::with_capacity(alloc, ids.len() / 64 + 1)?,
        };
        marks.mark(near);
        let list = marks.listed(alloc, near.len())?;
        marks.rank(near);
        Touched::of(alloc, ids, list)
    }

    /// All slots. `AllocError` where memory runs out. O(slots).
    pub fn all(alloc: Global, ids: &Ids) -> Result<Touched, AllocError>
        requires { length ids.now < 2 ^ 31 }
        ensures touched { IfOk result (AreTouched ids.now) }
        ensures all { IfOk result (λ t. t.ids ≡ ids.now) }
    {
        let list = counted(alloc, ids.len())?;
        let ids = ids.share(alloc)?;
        Ok(Touched { list, ids })
    }

    // The slots at these indexes, which ascend; else none.
    fn of(alloc: Global, ids: &Ids, list: Vec<u32>) -> Result<Touched, AllocError>
        ensures { IfOk result (AreTouched ids.now) }
    {
        let mut list = list;
        if !are_indexes(&list, ids.len()) {
            list.clear();
        }
        let ids = ids.at(alloc, &list)?;
        Ok(Touched { list, ids })
    }
}

impl Marks {
    // Marks the slots at these indexes.
    fn mark(&mut self, near: &[u32]) {
        for index in near {
            if let Some(word) = self.words.get_mut((*index / 64) as usize) {
                *word |= 1u64.wrapping_shl(*index % 64);
            }
        }
    }

    // Lists the indexes of the marked slots, of which there are at most so many, and counts them.
    fn listed(&mut self, alloc: Global, most: usize) -> Result<Vec<u32>, AllocError> {
        let mut list = Vec::with_capacity(alloc, most)?;
        let mut first = 0u32;
        let mut count = 0u32;
        for word in &self.words {
            self.before.push(count)?;
            push_bits(&mut list, first, *word)?;
            first = first.wrapping_add(64);
            count = count.wrapping_add(word.count_ones());
        }
        Ok(list)
    }

    // Replaces each index by the number of marked slots before it.
    fn rank(&self, near: &mut [u32]) {
        for index in near.iter_mut() {
            let word = (*index / 64) as usize;
            *index = match (self.words.get(word), self.before.get(word)) {
                (Some(bits), Some(before)) => {
                    let below = 1u64.wrapping_shl(*index % 64).wrapping_sub(1);
                    before.wrapping_add((*bits & below).count_ones())
                }
                _ => u32::MAX,
            };
        }
    }
}

// Puts the numbers of the bits that are set at the end, the first bit having this one.
fn push_bits(list: &mut Vec<u32>, first: u32, bits: u64) -> Result<(), AllocError> {
    let mut left = bits;
    for _ in 0..bits.count_ones() {
        list.push(first.wrapping_add(left.trailing_zeros()))?;
        left &= left.wrapping_sub(1);
    }
    Ok(())
}

// Whether these are indexes of so many slots, each once, in ascending order. There are fewer than a plan can have.
fn are_indexes(list: &[u32], slots: usize) -> bool
    ensures indexes { result ≡ true → AreIndexes slots list.now }
    ensures few { result ≡ true → length list.now < 2 ^ 31 }
{
    list.len() < SLOTS_END && are_below(list, slots) && ascends(list)
}

// Whether each number is below the one after it.
fn ascends(list: &[u32]) -> bool
    ensures { result ≡ is_ascending list.now }
{
    list.is_sorted_by(|a, b| a < b)
}

// Whether all numbers are below this one.
fn are_below(list: &[u32], end: usize) -> bool
    ensures { result ≡ list_all (λ k. nat_lt k end) list.now }
{
    list.iter().all(|k| (*k as usize) < end)
}

// The first numbers, from 0.
pub(crate) fn counted(alloc: Global, count: usize) -> Result<Vec<u32>, AllocError>
    requires { count < 2 ^ 31 }
    ensures indexes { IfOk result (λ list. AreIndexes count list.items) }
    ensures all { IfOk result (λ list. (slots : List ℕ) → length slots ≡ count →
        ids_at slots list.items ≡ slots) }
{
    let mut list = Vec::with_capacity(alloc, count)?;
    for k in 0..count {
        list.push(k as u32)?;
    }
    Ok(list)
}
