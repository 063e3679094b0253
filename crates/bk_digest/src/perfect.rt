// The root over a power of two of leaves, level by level in lanes.

ghost use Rattle.std.specs.Prelude.{◌≡◌, ℕ, ◌+◌, ◌*◌, ◌<◌, ◌≤◌, ◌++◌, List, [], length, map, slice_index_or, take};
ghost use Rattle.std.specs.Int.{IsPowerOfTwo};
ghost use Rattle.bk_digest.specs.Digest.{tagged_of};
ghost use Rattle.bk_digest.specs.Tree.{root_of};
ghost use Rattle.bk_digest.specs.private.Levels.{paired};

use crate::Digest32;
use crate::block::joined;
use crate::tree::{LEAF_TAG, NODE_TAG};
use bk_lanes::tagged_rows_into;

// Fewer leaves would leave lanes free.
pub(crate) const MIN_LEAVES: usize = 8;

// The hashes of the leaves are an array on the stack.
pub(crate) const MAX_LEAVES: usize = 64;

// Writes the hashes of the leaves to the front of `hashes`.
fn hash_leaves<const N: usize>(leaves: &[[u8; N]], hashes: &mut [[u8; 32]; MAX_LEAVES])
    requires { length leaves.now ≤ 64 }
    ensures { take (length leaves.now) hashes.new ≡ map (λ leaf. tagged_of 0x00 leaf) leaves.now }
{
    tagged_rows_into(LEAF_TAG, leaves, &mut hashes[..leaves.len()]);
}

// Pairs of hashes, each as one row: hashes 2i and 2i + 1 are row i.
fn pairs_of(hashes: &[[u8; 32]; MAX_LEAVES], count: usize) -> [[u8; 64]; 32]
    requires { count ≤ 32 }
    ensures room { length result ≡ 32 }
    ensures rows { (i : ℕ) → i < count → slice_index_or result i []
        ≡ slice_index_or hashes.now (2 * i) [] ++ slice_index_or hashes.now (2 * i + 1) [] }
{
    let mut pairs = [[0u8; 64]; 32];
    'pair: for i in 0..count {
        pairs[i] = joined(&hashes[2 * i], &hashes[2 * i + 1]);
    }
    pairs
}

// Writes the hashes of the level above the first `2 * count` hashes to their front.
fn hash_level(hashes: &mut [[u8; 32]; MAX_LEAVES], count: usize)
    requires { count ≤ 32 }
    ensures { take count hashes.new ≡ paired (take (2 * count) hashes.old) }
{
    let pairs = pairs_of(hashes, count);
    tagged_rows_into(NODE_TAG, &pairs[..count], &mut hashes[..count]);
}

// The root over a power of two of leaves.
pub(crate) fn perfect_root<const N: usize>(leaves: &[[u8; N]]) -> Digest32
    requires few { length leaves.now ≤ 64 }
    requires perfect { IsPowerOfTwo (length leaves.now) }
    ensures { result ≡ root_of leaves.now }
{
    let mut hashes = [[0u8; 32]; MAX_LEAVES];
    hash_leaves(leaves, &mut hashes);
    let mut count = leaves.len();
    'levels: while count > 1 {
        count /= 2;
        hash_level(&mut hashes, count);
    }
    Digest32::new(hashes[0])
}
