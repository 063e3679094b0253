//! The states of workers.

ghost use Rattle.std.specs.Prelude.{◌≡◌, ◌≢◌, ◌&&◌, ◌==◌, ℕ, ◌<◌, ◌≤◌, true, false, length, replicate, IfOk, IfSome, IfNone, slice_index, slice_index_or, nat_lt, is_none, is_some, unwrap_or, Some, None};
ghost use Rattle.std.specs.List.{list_any};
ghost use Rattle.bk_steps.specs.Machine.{no_seat, no_word};

use bk_conflicts::WordRef;
use std::alloc::{AllocError, Global};

/// The state of a worker.
#[derive(Clone, Copy, Debug, PartialEq, Eq)]
pub struct Seat {
    /// The place that it holds, if it holds one.
    pub place: Option<u64>,
    /// What it read last in each word of the place, in the order of the plan.
    pub read: [Option<u64>; 16],
    /// Which words of the place it has written, in the same order.
    pub written: [bool; 16],
}

// The same seat, n times.
pub(crate) fn seats_of(alloc: Global, seat: Seat, n: usize) -> Result<Vec<Seat>, AllocError>
    ensures { IfOk result (λ v. v.items ≡ replicate n seat) }
{
    Ok(vec![in alloc; seat; n]?)
}

// A worker that holds nothing.
pub(crate) fn at_rest() -> Seat
    ensures { result.place ≡ None }
{
    Seat {
        place: None,
        read: [None; 16],
        written: [false; 16],
    }
}

// A worker that has taken a place.
pub(crate) fn seated(place: u64) -> Seat
    ensures place { result.place ≡ Some place }
    ensures read { (k : ℕ) → slice_index_or result.read k None ≡ None }
    ensures written { (k : ℕ) → slice_index_or result.written k false ≡ false }
{
    Seat {
        place: Some(place),
        read: [None; 16],
        written: [false; 16],
    }
}

// The same worker after it has read a word, the k-th of its place.
pub(crate) fn noted(seat: Seat, k: usize, value: u64) -> Seat
    requires { k < 16 }
    ensures place { result.place ≡ seat.place }
    ensures here { slice_index_or result.read k None ≡ Some value }
    ensures others { (j : ℕ) → j ≢ k
        → slice_index_or result.read j None ≡ slice_index_or seat.read j None }
    ensures written { result.written ≡ seat.written }
{
    let mut read = seat.read;
    read[k] = Some(value);
    let written = seat.written;
    Seat {
        place: seat.place,
        read,
        written,
    }
}

// The same worker after it has written a word, the k-th of its place.
pub(crate) fn marked(seat: Seat, k: usize) -> Seat
    requires { k < 16 }
    ensures place { result.place ≡ seat.place }
    ensures read { result.read ≡ seat.read }
    ensures here { slice_index_or result.written k false ≡ true }
    ensures others { (j : ℕ) → j ≢ k
        → slice_index_or result.written j false ≡ slice_index_or seat.written j false }
{
    let mut written = seat.written;
    written[k] = true;
    let read = seat.read;
    Seat {
        place: seat.place,
        read,
        written,
    }
}

// The place that a worker holds; none where there is no such worker.
pub(crate) fn place_held(seats: &[Seat], worker: u64) -> Option<u64>
    ensures { result ≡ (slice_index_or seats.now worker no_seat).place }
{
    match seats.get(worker as usize) {
        Some(seat) => seat.place,
        None => None,
    }
}

// Whether there is such a worker, and it holds nothing.
pub(crate) fn is_idle(seats: &[Seat], worker: u64) -> bool
    ensures { result ≡ (nat_lt worker (length seats.now)
        && is_none (slice_index_or seats.now worker no_seat).place) }
{
    (worker as usize) < seats.len() && seats[worker as usize].place.is_none()
}

// The index of a word among these.
pub(crate) fn index_in(words: &[WordRef], word: u64) -> Option<usize>
    ensures some { IfSome result (λ k. (k < length words.now)
        × ((slice_index_or words.now k no_word).word ≡ word)) }
    ensures none { IfNone result (list_any (λ w. w.word == word) words.now ≡ false) }
{
    for k in 0..words.len() {
        if words[k].word as u64 == word {
            return Some(k);
        }
    }
    None
}

// The index of a word among those of these that may be written.
pub(crate) fn writable_in(words: &[WordRef], word: u64) -> Option<usize>
    ensures some { IfSome result (λ k. (k < length words.now)
        × ((slice_index_or words.now k no_word).word ≡ word)
        × ((slice_index_or words.now k no_word).writable ≡ true)) }
    ensures none { IfNone result (list_any (λ w. w.writable && w.word == word) words.now ≡ false) }
{
    for k in 0..words.len() {
        if words[k].writable && words[k].word as u64 == word {
            return Some(k);
        }
    }
    None
}

// Whether the first so many words of a place were read.
pub(crate) fn has_read_all(read: &[Option<u64>; 16], count: usize) -> bool
    requires { count ≤ 16 }
    ensures all { result ≡ true → (k : ℕ) → k < count
        → is_some (slice_index_or read.now k None) ≡ true }
    ensures one { result ≡ false → (k : ℕ) × (k < count)
        × (is_some (slice_index_or read.now k None) ≡ false) }
{
    for k in 0..count {
        if read[k].is_none() {
            return false;
        }
    }
    true
}

// Whether one of the first so many words of a place was written.
pub(crate) fn has_written(written: &[bool; 16], count: usize) -> bool
    requires { count ≤ 16 }
    ensures one { result ≡ true → (k : ℕ) × (k < count)
        × (slice_index_or written.now k false ≡ true) }
    ensures none { result ≡ false → (k : ℕ) → k < count
        → slice_index_or written.now k false ≡ false }
{
    for k in 0..count {
        if written[k] {
            return true;
        }
    }
    false
}

// Whether all of these words that may be written were written.
pub(crate) fn has_written_all(words: &[WordRef], written: &[bool; 16]) -> bool
    requires { length words.now ≤ 16 }
    ensures all { result ≡ true → (k : ℕ) → k < length words.now
        → (slice_index_or words.now k no_word).writable ≡ true
        → slice_index_or written.now k false ≡ true }
    ensures one { result ≡ false → (k : ℕ) × (k < length words.now)
        × ((slice_index_or words.now k no_word).writable ≡ true)
        × (slice_index_or written.now k false ≡ false) }
{
    for k in 0..words.len() {
        if words[k].writable && !written[k] {
            return false;
        }
    }
    true
}

// What was read in each word, 0 where nothing was.
pub(crate) fn values_of(read: &[Option<u64>; 16]) -> [u64; 16]
    ensures { (k : ℕ) → k < 16
        → slice_index result k ≡ unwrap_or (slice_index_or read.now k None) 0 }
{
    let mut values = [0; 16];
    for k in 0..16 {
        values[k] = read[k].unwrap_or(0);
    }
    values
}
