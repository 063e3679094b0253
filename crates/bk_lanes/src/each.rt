//! One block into each of many hash values, eight at a time.

ghost use Rattle.std.specs.Prelude.{◌≡◌, ℕ, ◌+◌, ◌<◌, ◌≤◌, List, [], length, slice_index, slice_index_or};
ghost use Rattle.sha2.specs.Sha256 as spec;

use crate::state::{words_from, words_in};
use crate::wide::compress;

// The hash values from `from` on, at most eight, and zeros in the free lanes.
#[inline(always)]
fn eight_states(states: &[[u32; 8]], from: usize) -> [[u32; 8]; 8]
    requires { from < length states.now }
    ensures { (i : ℕ) → i < 8 → from + i < length states.now
        → slice_index_or result i [] ≡ slice_index_or states.now (from + i) [] }
{
    let mut eight = [[0u32; 8]; 8];
    let count = (states.len() - from).min(8);
    'fill: for i in 0..count {
        eight[i] = states[from + i];
    }
    eight
}

// The blocks from `from` on, at most eight, and zeros in the free lanes.
#[inline(always)]
fn eight_blocks(blocks: &[[u8; 64]], from: usize) -> [[u8; 64]; 8]
    requires { from < length blocks.now }
    ensures { (i : ℕ) → i < 8 → from + i < length blocks.now
        → slice_index_or result i [] ≡ slice_index_or blocks.now (from + i) [] }
{
    let mut eight = [[0u8; 64]; 8];
    let count = (blocks.len() - from).min(8);
    'fill: for i in 0..count {
        eight[i] = blocks[from + i];
    }
    eight
}

// Takes a block into each hash value from `from` on, at most eight.
fn compress_from(states: &mut [[u32; 8]], blocks: &[[u8; 64]], from: usize)
    requires blocks { length blocks.now ≡ length states.old }
    requires from { from < length states.old }
    ensures room { length states.new ≡ length states.old }
    ensures these { (i : ℕ) → i < 8 → from + i < length states.old
        → slice_index_or states.new (from + i) []
        ≡ spec.compress (slice_index_or states.old (from + i) [])
        (slice_index_or blocks.now (from + i) []) }
    ensures before { (k : ℕ) → k < from → slice_index_or states.new k []
        ≡ slice_index_or states.old k [] }
    ensures after { (k : ℕ) → from + 8 ≤ k → slice_index_or states.new k []
        ≡ slice_index_or states.old k [] }
{
    let mut words = words_from(&eight_states(states, from));
    compress(&mut words, &eight_blocks(blocks, from));
    let count = (states.len() - from).min(8);
    'put: for i in 0..count {
        states[from + i] = words_in(&words, i);
    }
}

/// Takes block k into hash value k (FIPS 180-4, section 6.2.2), eight at a time.
///
/// The lanes are full but in the last group, so many hash values in one call are the fastest.
pub fn compress_each(states: &mut [[u32; 8]], blocks: &[[u8; 64]])
    requires { length blocks.now ≡ length states.old }
    ensures room { length states.new ≡ length states.old }
    ensures taken { (k : ℕ) → k < length states.old → slice_index_or states.new k []
        ≡ spec.compress (slice_index_or states.old k []) (slice_index_or blocks.now k []) }
{
    'groups: for group in 0..states.len().div_ceil(8) {
        compress_from(states, blocks, 8 * group);
    }
}
