//! Tags of many ids at once, each under its own key, eight side by side in the lanes of vectors.

ghost use Rattle.std.specs.Prelude.{◌≡◌, ℕ, ◌+◌, ◌<◌, ◌++◌, List, [], length, slice_index_or, take, IfOk, OnOk};
ghost use Rattle.std.specs.List.{AllZip};
ghost use Rattle.sha2.specs.Sha256.{digest_bytes, padding};
ghost use Rattle.bk_digest.specs.Mac.{hmac_of};
ghost use Rattle.bk_digest.specs.Prepared.{IsPrepared};
ghost use Rattle.bk_digest.specs.private.Tags.{IsTagOf};
ghost use Rattle.bk_digest.specs.declared.tags.ToTag.{ToTag};

use crate::block::joined;
use crate::{Digest32, MacKey};
use bk_lanes::{compress_each, digest_bytes};
use std::alloc::{AllocError, Allocator};

/// An id that is to be tagged under a prepared key.
#[derive(Clone, Copy)]
pub struct ToTag<'a> {
    pub key: &'a MacKey,
    pub id: Digest32,
}

// A tag hashes twice 64 bytes of key and 32 bytes of text. This is what follows the text in its
// block: the bit 1, zeros, and the number of bits, 768 (FIPS 180-4, section 5.1.1).
const ENDING: [u8; 32] = [
    0x80, 0, 0, 0, 0, 0, 0, 0, 0, 0, 0, 0, 0, 0, 0, 0, 0, 0, 0, 0, 0, 0, 0, 0, 0, 0, 0, 0, 0, 0, 3,
    0,
];

// The text and its ending.
#[inline(always)]
fn ended(text: &[u8; 32]) -> [u8; 64]
    ensures { result ≡ text.now ++ padding 96 }
{
    joined(text, &ENDING)
}

// The inner hash values of the keys from `from` on, at most eight.
fn inner_states(of: &[ToTag<'_>], from: usize) -> [[u32; 8]; 8]
    requires { from < length of.now }
    ensures { (i : ℕ) → i < 8 → from + i < length of.now → (d : ToTag)
        → slice_index_or result i [] ≡ (slice_index_or of.now (from + i) d).key.now.inner_state }
{
    let mut states = [[0u32; 8]; 8];
    let count = (of.len() - from).min(8);
    'fill: for i in 0..count {
        states[i] = of[from + i].key.inner_state;
    }
    states
}

// The outer hash values of the keys from `from` on, at most eight.
fn outer_states(of: &[ToTag<'_>], from: usize) -> [[u32; 8]; 8]
    requires { from < length of.now }
    ensures { (i : ℕ) → i < 8 → from + i < length of.now → (d : ToTag)
        → slice_index_or result i [] ≡ (slice_index_or of.now (from + i) d).key.now.outer_state }
{
    let mut states = [[0u32; 8]; 8];
    let count = (of.len() - from).min(8);
    'fill: for i in 0..count {
        states[i] = of[from + i].key.outer_state;
    }
    states
}

// The ids from `from` on, at most eight, as blocks.
fn id_blocks(of: &[ToTag<'_>], from: usize) -> [[u8; 64]; 8]
    requires { from < length of.now }
    ensures these { (i : ℕ) → i < 8 → from + i < length of.now → (d : ToTag)
        → slice_index_or result i [] ≡ (slice_index_or of.now (from + i) d).id ++ padding 96 }
    ensures sized { (i : ℕ) → i < 8 → from + i < length of.now → (d : ToTag)
        → length (slice_index_or of.now (from + i) d).id ≡ 32 }
{
    let mut blocks = [[0u8; 64]; 8];
    let count = (of.len() - from).min(8);
    'fill: for i in 0..count {
        blocks[i] = ended(of[from + i].id.as_bytes());
    }
    blocks
}

// The digests of the hash values, as blocks.
fn digest_blocks(states: &[[u32; 8]; 8]) -> [[u8; 64]; 8]
    ensures { (i : ℕ) → i < 8
        → slice_index_or result i [] ≡ digest_bytes (slice_index_or states.now i []) 8
        ++ padding 96 }
{
    let mut blocks = [[0u8; 64]; 8];
    'fill: for i in 0..8 {
        blocks[i] = ended(&digest_bytes(&states[i]));
    }
    blocks
}

// The hash values of the tags from `from` on, at most eight.
fn tagged_from(of: &[ToTag<'_>], from: usize) -> [[u32; 8]; 8]
    requires { from < length of.now }
    ensures { (i : ℕ) → i < 8 → from + i < length of.now → (d : ToTag)
        → IsTagOf (slice_index_or of.now (from + i) d)
        (digest_bytes (slice_index_or result i []) 8) }
{
    let mut inner = inner_states(of, from);
    compress_each(&mut inner, &id_blocks(of, from));
    let mut outer = outer_states(of, from);
    compress_each(&mut outer, &digest_blocks(&inner));
    outer
}

// Adds the tags from `from` on, at most eight, to those before.
fn push_tags<A: Allocator>(
    tags: &mut Vec<Digest32, A>,
    of: &[ToTag<'_>],
    from: usize,
) -> Result<(), AllocError>
    requires from { from < length of.now }
    requires before { AllZip IsTagOf (take from of.now) tags.old.items }
    ensures { OnOk result (AllZip IsTagOf (take (from + 8) of.now) tags.new.items) }
{
    let states = tagged_from(of, from);
    let count = (of.len() - from).min(8);
    'each: for i in 0..count {
        tags.push(Digest32::new(digest_bytes(&states[i])))?;
    }
    Ok(())
}

/// The tag of each id under its key (RFC 2104), in their order. It fails only where memory does.
/// O(n).
pub fn tags_each<A: Allocator>(alloc: A, of: &[ToTag<'_>]) -> Result<Vec<Digest32, A>, AllocError>
    ensures { IfOk result (λ tags. AllZip (λ t tag. (key : List ℕ) → IsPrepared key t.key.now
        → tag ≡ hmac_of key t.id) of.now tags.items) }
{
    let mut tags = Vec::with_capacity(alloc, of.len())?;
    'groups: for group in 0..of.len().div_ceil(8) {
        push_tags(&mut tags, of, 8 * group)?;
    }
    Ok(tags)
}
