//! The digests of rows of one length: all lanes of a group begin and end together.

ghost use Rattle.std.specs.Prelude.{◌≡◌, ℕ, ◌+◌, ◌<◌, ◌≤◌, List, [], ◌∷◌, length, map, slice_index_or};
ghost use Rattle.sha2.specs.Sha256.{digest_bytes, sha256};
ghost use Rattle.bk_lanes.specs.private.Lanes.{block_count, block_of, bytes_of, padded_block, words_of};

use crate::many::{FEW, digest_after};
use crate::message::Message;
use crate::padding::{block_count, put_block};
use crate::state::{digest_of, started};
use crate::wide::{Words, compress};

// Row `k` after the byte `first`.
#[inline(always)]
fn row_at<const N: usize>(first: u8, rows: &[[u8; N]], k: usize) -> Message<'_>
    requires { k < length rows.now }
    ensures bytes { bytes_of result ≡ first ∷ slice_index_or rows.now k [] }
    ensures sized { length (slice_index_or rows.now k []) ≡ N }
{
    Message {
        first: Some(first),
        bytes: &rows[k],
    }
}

// Block `at` of each row from `from` on, at most eight.
#[inline(always)]
fn row_blocks<const N: usize>(first: u8, rows: &[[u8; N]], from: usize, at: usize) -> [[u8; 64]; 8]
    requires from { from < length rows.now }
    requires at { at < block_count (N + 1) }
    ensures sized { (i : ℕ) → i < 8 → from + i < length rows.now
        → length (slice_index_or rows.now (from + i) []) ≡ N }
    ensures blocks { (i : ℕ) → i < 8 → from + i < length rows.now
        → block_of i result ≡ padded_block (first ∷ slice_index_or rows.now (from + i) []) at }
{
    let mut blocks = [[0u8; 64]; 8];
    let count = (rows.len() - from).min(8);
    'fill: for i in 0..count {
        put_block(&row_at(first, rows, from + i), at, &mut blocks[i]);
    }
    blocks
}

// The hash values after the last block of each row from `from` on, at most eight.
fn hashed_from<const N: usize>(first: u8, rows: &[[u8; N]], from: usize) -> Words
    requires { from < length rows.now }
    ensures { (i : ℕ) → i < 8 → from + i < length rows.now
        → digest_bytes (words_of i result) 8 ≡ sha256
        (first ∷ slice_index_or rows.now (from + i) []) }
{
    let mut state = started();
    'through: for at in 0..block_count(&row_at(first, rows, from)) {
        compress(&mut state, &row_blocks(first, rows, from, at));
    }
    state
}

// Writes the digest of each row from `from` on, at most eight.
fn rows_from<const N: usize>(first: u8, rows: &[[u8; N]], from: usize, out: &mut [[u8; 32]])
    requires room { length out.old ≡ length rows.now }
    requires from { from < length rows.now }
    ensures room { length out.new ≡ length rows.now }
    ensures these { (i : ℕ) → i < 8 → from + i < length rows.now
        → slice_index_or out.new (from + i) [] ≡ sha256
        (first ∷ slice_index_or rows.now (from + i) []) }
    ensures before { (k : ℕ) → k < from → slice_index_or out.new k []
        ≡ slice_index_or out.old k [] }
{
    let state = hashed_from(first, rows, from);
    let count = (rows.len() - from).min(8);
    'put: for i in 0..count {
        out[from + i] = digest_of(&state, i);
    }
}

// The digests, one row after the other.
fn rows_one_by_one<const N: usize>(first: u8, rows: &[[u8; N]], out: &mut [[u8; 32]])
    requires { length out.old ≡ length rows.now }
    ensures { out.new ≡ map (λ row. sha256 (first ∷ row)) rows.now }
{
    'each: for k in 0..rows.len() {
        out[k] = digest_after(first, &rows[k]);
    }
}

// The digests, in lanes.
fn rows_side_by_side<const N: usize>(first: u8, rows: &[[u8; N]], out: &mut [[u8; 32]])
    requires { length out.old ≡ length rows.now }
    ensures { out.new ≡ map (λ row. sha256 (first ∷ row)) rows.now }
{
    'groups: for group in 0..rows.len().div_ceil(8) {
        rows_from(first, rows, 8 * group, out);
    }
}

/// Writes the SHA-256 digest of `first` and then each row to that row's place in `out`: the byte
/// says what kind of row is hashed. It is faster than [`crate::tagged_each_into`], since the rows
/// have one length.
pub fn tagged_rows_into<const N: usize>(first: u8, rows: &[[u8; N]], out: &mut [[u8; 32]])
    requires { length out.old ≡ length rows.now }
    ensures { out.new ≡ map (λ row. sha256 (first ∷ row)) rows.now }
{
    if rows.len() < FEW {
        rows_one_by_one(first, rows, out);
    } else {
        rows_side_by_side(first, rows, out);
    }
}
