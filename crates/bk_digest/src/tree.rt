//! The Merkle tree hash of RFC 6962 (section 2.1) and its audit paths (section 2.1.1).
//!
//! A tree is walked by halves of the slice of its leaves, so a call goes as deep as the tree is high
//! and copies no leaf. Small perfect trees are hashed level by level, in lanes.

ghost use Rattle.std.specs.Thread.{IsSync};
ghost use Rattle.std.specs.Prelude.{◌≡◌, ◌+◌, ◌<◌, ◌≤◌, ◌++◌, ◌∷◌, ◌↔◌, length, Some, None, IfOk, OnOk, IsTrue};
ghost use Rattle.std.specs.Int.{IsPowerOfTwo};
ghost use Rattle.bk_digest.specs.Digest.{tagged_of};
ghost use Rattle.bk_digest.specs.Tree.{IsSplit, climb, node_of, path_of, root_of};

use crate::perfect::{MAX_LEAVES, MIN_LEAVES, perfect_root};
use crate::{Digest32, tagged};
use sha2::{Digest, Sha256};
use std::alloc::{AllocError, Allocator};
use std::thread::{Threads, join};

pub(crate) const LEAF_TAG: u8 = 0x00;

pub(crate) const NODE_TAG: u8 = 0x01;

// A thread costs some tens of microseconds, and this many leaves a hundred times that.
const MIN_PIECE: usize = 16_384;

// No more than twice this many threads are started.
const PIECES: usize = 64;

/// The root over a list of leaf data. Over no leaves it is SHA-256 of the empty text.
#[tactic(auto, using(crate::proofs::Roots::root_empty))]
pub fn tree_root<const N: usize>(leaves: &[[u8; N]]) -> Digest32
    ensures { result ≡ root_of leaves.now }
{
    if leaves.is_empty() {
        Digest32::of(&[])
    } else {
        subtree_root(leaves)
    }
}

/// The root that [`tree_root`] gives, from threads that hash large subtrees side by side.
///
/// At most 16,384 leaves are hashed on the calling thread.
pub fn tree_root_with<R: Threads + Sync, const N: usize>(rt: &R, leaves: &[[u8; N]]) -> Digest32
    ensures { result ≡ root_of leaves.now }
{
    if leaves.len() <= MIN_PIECE {
        return tree_root(leaves);
    }
    root_by_pieces(rt, leaves, MIN_PIECE.max(leaves.len() / PIECES))
}

/// The audit path of the leaf at place `i`: the hashes beside its way to the root, from the leaf up.
/// It fails only where memory does.
pub fn audit_path<A: Allocator, const N: usize>(
    alloc: A,
    leaves: &[[u8; N]],
    i: usize,
) -> Result<Vec<Digest32, A>, AllocError>
    requires { i < length leaves.now }
    ensures { IfOk result (λ path. path.items ≡ path_of leaves.now i) }
{
    let height = usize::BITS - (leaves.len() - 1).leading_zeros();
    let mut path = Vec::with_capacity(alloc, height as usize)?;
    push_path(&mut path, leaves, i)?;
    Ok(path)
}

/// Whether the path leads from the data of the leaf at place `i` among `size` leaves to the root.
///
/// It is false for a place that is out of range, and for a path with too few or too many hashes.
pub fn check_path(root: &Digest32, size: usize, i: usize, leaf: &[u8], path: &[Digest32]) -> bool
    ensures { IsTrue result ↔ ((i < size) × (climb (tagged_of 0x00 leaf.now) i size path.now
        ≡ Some root.now)) }
{
    i < size && climbed(leaf_hash(leaf), i, size, path) == Some(*root)
}

// The root over at least one leaf. The left half of each split is a perfect tree, so all but a few
// leaves at the end are hashed in lanes.
#[tactic(auto, using(crate::proofs::Roots::root_alone, crate::proofs::Roots::root_split))]
fn subtree_root<const N: usize>(leaves: &[[u8; N]]) -> Digest32
    requires { 0 < length leaves.now }
    ensures { result ≡ root_of leaves.now }
{
    if leaves.len() == 1 {
        return leaf_hash(&leaves[0]);
    }
    if is_in_lanes(leaves.len()) {
        return perfect_root(leaves);
    }
    let (left, right) = leaves.split_at(split_size(leaves.len()));
    node_hash(&subtree_root(left), &subtree_root(right))
}

// The root over at least one leaf, from threads that hash at most `piece` leaves each.
#[cycle(pieces)]
#[tactic(auto, using(crate::proofs::Roots::root_split))]
fn root_by_pieces<R: Threads + Sync, const N: usize>(
    rt: &R,
    leaves: &[[u8; N]],
    piece: usize,
) -> Digest32
    requires { 0 < length leaves.now }
    ensures { result ≡ root_of leaves.now }
{
    if leaves.len() <= piece || leaves.len() == 1 {
        return subtree_root(leaves);
    }
    let (left, right) = leaves.split_at(split_size(leaves.len()));
    let (left, right) = join(
        rt,
        || -> Digest32
            requires { IsSync R.row × (0 < length left.now) }
            ensures { result ≡ root_of left.entry.now }
        { root_by_pieces(rt, left, piece) },
        || -> Digest32
            requires { IsSync R.row × (0 < length right.now) }
            ensures { result ≡ root_of right.entry.now }
        { root_by_pieces(rt, right, piece) },
    );
    node_hash(&left, &right)
}

// Adds the path of the leaf at place `i` to `path`.
fn push_path<A: Allocator, const N: usize>(
    path: &mut Vec<Digest32, A>,
    leaves: &[[u8; N]],
    i: usize,
) -> Result<(), AllocError>
    requires { i < length leaves.now }
    ensures { OnOk result (path.new.items ≡ path.old.items ++ path_of leaves.now i) }
{
    if leaves.len() == 1 {
        return Ok(());
    }
    let split = split_size(leaves.len());
    let (left, right) = leaves.split_at(split);
    if i < split {
        push_path(path, left, i)?;
        path.push(subtree_root(right))?;
    } else {
        push_path(path, right, i - split)?;
        path.push(subtree_root(left))?;
    }
    Ok(())
}

// The root to which `path` leads from the hash of the leaf at place `i` among `size`.
fn climbed(leaf: Digest32, i: usize, size: usize, path: &[Digest32]) -> Option<Digest32>
    requires { i < size }
    ensures { result ≡ climb leaf i size path.now }
{
    if size == 1 {
        return if path.is_empty() { Some(leaf) } else { None };
    }
    let (sibling, rest) = path.split_last()?;
    let split = split_size(size);
    if i < split {
        let left = climbed(leaf, i, split, rest)?;
        Some(node_hash(&left, sibling))
    } else {
        let right = climbed(leaf, i - split, size - split, rest)?;
        Some(node_hash(sibling, &right))
    }
}

// The hash of a leaf.
fn leaf_hash(leaf: &[u8]) -> Digest32
    ensures { result ≡ tagged_of 0x00 leaf.now }
{
    tagged(LEAF_TAG, leaf)
}

// The hash of an inner node.
#[tactic(auto, unfolding(crate::specs::Digest::tagged_of))]
fn node_hash(left: &Digest32, right: &Digest32) -> Digest32
    ensures { result ≡ node_of left.now right.now }
{
    let mut hasher = Sha256::new();
    hasher.update([NODE_TAG]);
    hasher.update(left.as_bytes());
    hasher.update(right.as_bytes());
    Digest32::new(hasher.finalize())
}

// Whether a tree with `size` leaves is hashed level by level: it is perfect, and large enough.
fn is_in_lanes(size: usize) -> bool
    ensures { IsTrue result → (size ≤ 64) × IsPowerOfTwo size }
{
    size >= MIN_LEAVES && size <= MAX_LEAVES && size == 2 * split_size(size)
}

// How many leaves are on the left of a tree with `size` of them.
fn split_size(size: usize) -> usize
    requires { 1 < size }
    ensures { IsSplit result size }
{
    1 << (size - 1).ilog2()
}
