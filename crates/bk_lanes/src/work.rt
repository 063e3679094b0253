// Which message is in which lane, and how far each has come.

ghost use Rattle.std.specs.Prelude.{◌≡◌, ℕ, ◌+◌, ◌-◌, ◌<◌, ◌≤◌, ◌≢◌, List, [], length, slice_index, slice_index_or};
ghost use Rattle.bk_lanes.specs.private.Lanes.{Done, HasTaken, IsWorking, block_of, next_block};

use crate::message::{Messages, message_at};
use crate::padding::{block_count, put_block};
use crate::state::{digest_of, restart};
use crate::wide::{Words, compress};
use std::simd::prelude::*;

// What the eight lanes work on: lane i has taken in its message, `index[i]`, but for the last
// `left[i]` blocks. A lane with none left is free.
#[derive(Drop)]
pub(crate) struct Work {
    index: [usize; 8],
    pub(crate) left: [usize; 8],
    state: Words,
}

// Eight free lanes.
pub(crate) fn idle() -> Work
    ensures { (i : ℕ) → i < 8 → slice_index result.left i ≡ 0 }
{
    let none = u32x8::splat(0);
    Work {
        index: [0; 8],
        left: [0; 8],
        state: Words {
            a: none,
            b: none,
            c: none,
            d: none,
            e: none,
            f: none,
            g: none,
            h: none,
        },
    }
}

// The next block of each lane that is not free.
#[inline(always)]
fn next_blocks(messages: &Messages<'_>, work: &Work) -> [[u8; 64]; 8]
    requires { (i : ℕ) → i < 8 → IsWorking messages.now work.now i }
    ensures { (i : ℕ) → i < 8 → 0 < slice_index work.now.left i → block_of i result
        ≡ next_block messages.now work.now i }
{
    let mut blocks = [[0u8; 64]; 8];
    'fill: for i in 0..8 {
        if work.left[i] > 0 {
            let message = message_at(messages, work.index[i]);
            let at = block_count(&message) - work.left[i];
            put_block(&message, at, &mut blocks[i]);
        }
    }
    blocks
}

// Counts the block that lane `lane` has taken in, and writes the digest after the last one.
#[inline(always)]
fn count_block(messages: &Messages<'_>, work: &mut Work, lane: usize, out: &mut [[u8; 32]])
    requires lane { lane < 8 }
    requires room { length out.old ≡ length messages.now.bytes.now }
    requires taken { HasTaken messages.now work.old lane 1 }
    ensures working { IsWorking messages.now work.new lane }
    ensures left { slice_index work.new.left lane ≡ slice_index work.old.left lane - 1 }
    ensures others { (i : ℕ) → i ≢ lane
        → slice_index work.new.left i ≡ slice_index work.old.left i }
    ensures index { work.new.index ≡ work.old.index }
    ensures state { work.new.state ≡ work.old.state }
    ensures done { (n : ℕ) → Done messages.now work.old out.old n
        → Done messages.now work.new out.new n }
{
    if work.left[lane] > 0 {
        work.left[lane] -= 1;
        if work.left[lane] == 0 {
            out[work.index[lane]] = digest_of(&work.state, lane);
        }
    }
}

// Takes in one block in each lane that is not free.
fn advance(messages: &Messages<'_>, work: &mut Work, out: &mut [[u8; 32]])
    requires room { length out.old ≡ length messages.now.bytes.now }
    requires working { (i : ℕ) → i < 8 → IsWorking messages.now work.old i }
    ensures working { (i : ℕ) → i < 8 → IsWorking messages.now work.new i }
    ensures left { (i : ℕ) → i < 8 → slice_index work.new.left i ≡ slice_index work.old.left i - 1 }
    ensures done { (n : ℕ) → Done messages.now work.old out.old n
        → Done messages.now work.new out.new n }
{
    let blocks = next_blocks(messages, work);
    compress(&mut work.state, &blocks);
    'count: for lane in 0..8 {
        count_block(messages, work, lane, out);
    }
}

// Takes in blocks until lane `lane` is free.
pub(crate) fn finish(messages: &Messages<'_>, work: &mut Work, lane: usize, out: &mut [[u8; 32]])
    requires lane { lane < 8 }
    requires room { length out.old ≡ length messages.now.bytes.now }
    requires working { (i : ℕ) → i < 8 → IsWorking messages.now work.old i }
    ensures working { (i : ℕ) → i < 8 → IsWorking messages.now work.new i }
    ensures free { slice_index work.new.left lane ≡ 0 }
    ensures stays { (i : ℕ) → i < 8 → slice_index work.old.left i ≡ 0
        → slice_index work.new.left i ≡ 0 }
    ensures done { (n : ℕ) → Done messages.now work.old out.old n
        → Done messages.now work.new out.new n }
{
    'rounds: for round in 0..work.left[lane] {
        advance(messages, work, out);
    }
}

// Begins message `k` in lane `lane`.
pub(crate) fn begin(messages: &Messages<'_>, work: &mut Work, lane: usize, k: usize)
    requires lane { lane < 8 }
    requires message { k < length messages.now.bytes.now }
    requires free { slice_index work.old.left lane ≡ 0 }
    requires working { (i : ℕ) → i < 8 → IsWorking messages.now work.old i }
    ensures working { (i : ℕ) → i < 8 → IsWorking messages.now work.new i }
    ensures done { (out : List (List ℕ)) → Done messages.now work.old out k
        → Done messages.now work.new out (k + 1) }
{
    work.index[lane] = k;
    work.left[lane] = block_count(&message_at(messages, k));
    work.state = restart(work.state, lane);
}

// The lane with the fewest blocks left.
pub(crate) fn least(left: &[usize; 8]) -> usize
    ensures { result < 8 }
{
    let mut lane = 0;
    'lanes: for i in 1..8 {
        if left[i] < left[lane] {
            lane = i;
        }
    }
    lane
}
