//! HMAC with SHA-256 (RFC 2104), also under a key that is prepared once for many texts.

ghost use Rattle.std.specs.Prelude.{◌≡◌, ℕ, ◌-◌, ◌≤◌, List, ◌++◌, length, replicate};
ghost use Rattle.std.specs.Prelude.{[], slice_index_or};
ghost use Rattle.sha2.specs.Hashers.{Holds256};
ghost use Rattle.sha2.specs.Sha256.{sha256};
ghost use Rattle.bk_digest.specs.Mac.{hmac_of, key_block, padded_with};
ghost use Rattle.bk_digest.specs.Prepared.{state_after};

use crate::Digest32;
use bk_lanes::{compress_each, initial};
use sha2::{Digest, Sha256};

const INNER_PAD: u8 = 0x36;

const OUTER_PAD: u8 = 0x5c;

/// A key whose two padded blocks are hashed already, so that a tag costs only its own text.
///
/// It is of fixed size, whatever the length of the key.
#[derive(Drop)]
pub struct MacKey {
    inner: Sha256,
    outer: Sha256,
    // The hash values after the two padded blocks, for tags in lanes.
    pub(crate) inner_state: [u32; 8],
    pub(crate) outer_state: [u32; 8],
}

impl MacKey {
    ghost use Rattle.bk_digest.specs.Prepared.{IsPrepared};

    /// Prepares a key of any length.
    #[tactic(auto, unfolding(crate::specs::Prepared::IsPrepared))]
    pub fn new(key: &[u8]) -> MacKey
        ensures { IsPrepared key.now result }
    {
        let block = block_of(key);
        let states = states_of(&block);
        MacKey {
            inner: hasher_of(&block, INNER_PAD),
            outer: hasher_of(&block, OUTER_PAD),
            inner_state: states[0],
            outer_state: states[1],
        }
    }

    /// The tag of `text`: that of [`hmac`] under the key that was prepared.
    pub fn tag(&self, text: &[u8]) -> Digest32
        ensures { (key : List ℕ) → IsPrepared key self.now → result ≡ hmac_of key text.now }
    {
        tag_after(
            self.inner.clone().unwrap(),
            self.outer.clone().unwrap(),
            text,
        )
    }
}

/// HMAC-SHA-256 of `text` under a key of any length.
pub fn hmac(key: &[u8], text: &[u8]) -> Digest32
    ensures { result ≡ hmac_of key.now text.now }
{
    let block = block_of(key);
    tag_after(
        hasher_of(&block, INNER_PAD),
        hasher_of(&block, OUTER_PAD),
        text,
    )
}

// The tag of `text`, from hashers that have taken in the key under the inner and the outer pad.
fn tag_after(mut inner: Sha256, mut outer: Sha256, text: &[u8]) -> Digest32
    ensures { (a b : List ℕ) → Holds256 inner a → Holds256 outer b
        → result ≡ sha256 (b ++ sha256 (a ++ text.now)) }
{
    inner.update(text);
    outer.update(inner.finalize());
    Digest32::new(outer.finalize())
}

// The key as a block: a longer one is hashed first, and zero bytes fill it up.
#[tactic(auto, unfolding(crate::specs::Mac::key_block))]
fn block_of(key: &[u8]) -> [u8; 64]
    ensures { result ≡ key_block key.now }
{
    if key.len() > 64 {
        filled(&Sha256::digest(key))
    } else {
        filled(key)
    }
}

// The bytes, and zero bytes up to the end of the block.
fn filled(bytes: &[u8]) -> [u8; 64]
    requires { length bytes.now ≤ 64 }
    ensures { result ≡ bytes.now ++ replicate (64 - length bytes.now) 0 }
{
    let mut block = [0u8; 64];
    block[..bytes.len()].copy_from_slice(bytes);
    block
}

// Each byte of the block, exclusive-or the pad.
fn padded(block: &[u8; 64], pad: u8) -> [u8; 64]
    ensures { result ≡ padded_with pad block.now }
{
    let mut padded = *block;
    for byte in &mut padded {
        *byte ^= pad;
    }
    padded
}

// A hasher that has taken in the padded block.
fn hasher_of(block: &[u8; 64], pad: u8) -> Sha256
    ensures { Holds256 result (padded_with pad block.now) }
{
    Sha256::new_with_prefix(padded(block, pad))
}

// The hash values after the block under the inner and under the outer pad.
fn states_of(block: &[u8; 64]) -> [[u32; 8]; 2]
    ensures inner { slice_index_or result 0 [] ≡ state_after 0x36 block.now }
    ensures outer { slice_index_or result 1 [] ≡ state_after 0x5c block.now }
{
    let mut states = [initial(); 2];
    compress_each(
        &mut states,
        &[padded(block, INNER_PAD), padded(block, OUTER_PAD)],
    );
    states
}
