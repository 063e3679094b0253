//! The tree hash of RFC 6962, by depth as its definition reads, and the digest of a state.

ghost use Rattle.std.specs.Prelude.{◌≡◌, ◌^◌, ◌<◌, [], false, map, nat_le, IfOk};
ghost use Rattle.sha2.specs.Sha256.{sha256};
ghost use Rattle.bk_base.specs.Genesis.{row_text};
ghost use Rattle.bk_digest.specs.Digest.{tagged_of};
ghost use Rattle.bk_digest.specs.Tree.{node_of, root_of, root_within};

use bk_base::Row;
use bk_digest::Digest32;
use sha2::{Digest, Sha256};
use std::alloc::{AllocError, Global};

/// The leaf of an account: its id, its balance and its sequence number, eight bytes each, big-endian.
pub fn row_text(row: Row) -> [u8; 24]
    ensures { result ≡ row_text row }
{
    let mut text = [0u8; 24];
    text[..8].copy_from_slice(&row.id.to_be_bytes());
    text[8..16].copy_from_slice(&row.balance.to_be_bytes());
    text[16..].copy_from_slice(&row.seq.to_be_bytes());
    text
}

// SHA-256 of a byte 0 and the leaf.
#[tactic(auto, unfolding(bk_digest::specs::Digest::tagged_of))]
fn leaf_hash(leaf: &[u8; 24]) -> Digest32
    ensures { result ≡ tagged_of 0 leaf.now }
{
    let mut hasher = Sha256::new();
    hasher.update([0]);
    hasher.update(leaf);
    Digest32::new(hasher.finalize())
}

// SHA-256 of a byte 1, the left hash and the right one.
#[tactic(auto, unfolding(bk_digest::specs::Digest::tagged_of))]
fn node_hash(left: Digest32, right: Digest32) -> Digest32
    ensures { result ≡ node_of left right }
{
    let mut hasher = Sha256::new();
    hasher.update([1]);
    hasher.update(left.as_bytes());
    hasher.update(right.as_bytes());
    Digest32::new(hasher.finalize())
}

// Whether a tree of this depth has room for this number of leaves.
fn has_room(depth: usize, count: usize) -> bool
    ensures room { result ≡ nat_le count (2 ^ depth) }
    ensures low { (result ≡ false) → depth < 64 }
{
    depth >= 64 || count <= 1usize << depth
}

// SHA-256 of no bytes.
fn empty_hash() -> Digest32
    ensures { result ≡ sha256 [] }
{
    Digest32::new(Sha256::digest(&[]))
}

// How many leaves are on the left of a tree that is one deeper than this.
fn half_of(below: usize) -> usize
    requires { below < 64 }
    ensures { result ≡ 2 ^ below }
{
    1usize << below
}

// The root over at most 2^depth leaves.
#[tactic(auto, using(crate::proofs::Depths::root_none, crate::proofs::Depths::root_first))]
fn root_within(depth: usize, leaves: &[[u8; 24]]) -> Digest32
    ensures { result ≡ root_within depth leaves.now }
{
    if depth == 0 {
        if leaves.is_empty() {
            return empty_hash();
        }
        return leaf_hash(&leaves[0]);
    }
    let below = depth - 1;
    if has_room(below, leaves.len()) {
        return root_within(below, leaves);
    }
    let (left, right) = leaves.split_at(half_of(below));
    node_hash(root_within(below, left), root_within(below, right))
}

/// The root of the tree over these leaves (RFC 6962, section 2.1). It calls itself to a depth of as many calls as there
/// are leaves.
pub fn root_of(leaves: &[[u8; 24]]) -> Digest32
    ensures { result ≡ root_of leaves.now }
{
    root_within(leaves.len(), leaves)
}

/// The digest of a state: the root over the leaves of its rows. It fails only where memory runs out.
pub fn state_of(alloc: Global, rows: &[Row]) -> Result<Digest32, AllocError>
    ensures { IfOk result (λ digest. digest ≡ root_of (map row_text rows.now)) }
{
    let mut leaves = Vec::new(alloc);
    for row in rows {
        leaves.push(row_text(*row))?;
    }
    Ok(root_of(&leaves))
}
