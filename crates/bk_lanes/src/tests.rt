//! The standard's examples, and the scalar hasher beside the lanes: messages of every length up to
//! past four blocks, in groups of every size up to past two rounds of lanes.

use crate::{compress_each, digest_bytes, digest_each, initial, tagged_each, tagged_rows_into};
use sha2::{Digest, Sha256};
use std::alloc::{AllocError, Global};
use std::process::Abort;
use std::test::Fail;

// Bytes that differ from one offset to the next.
fn sample(alloc: Global, len: usize) -> Result<Vec<u8>, AllocError> {
    let mut text = Vec::new(alloc);
    let mut state = 1u32;
    for _ in 0..len {
        state = state.wrapping_mul(1_664_525).wrapping_add(1_013_904_223);
        text.push((state >> 24) as u8)?;
    }
    Ok(text)
}

// The first `len` bytes of `text`, or all of it where there are fewer.
fn front(text: &[u8], len: usize) -> &[u8] {
    text.get(..len).unwrap_or(text)
}

// Whether the digits spell the digest.
fn is_hex(digest: &[u8; 32], digits: &str) -> bool {
    digits.len() == 64
        && (0..32usize).all(|i| u8::from_str_radix(digits.get(2 * i..2 * i + 2).unwrap_or(""), 16)
            == Ok(digest[i]))
}

// The byte that is put before each message.
const FIRST: u8 = 0x10;

// The scalar digest of that byte and the message.
fn tagged(message: &[u8]) -> [u8; 32] {
    let mut hasher = Sha256::new();
    hasher.update([FIRST]);
    hasher.update(message);
    hasher.finalize()
}

// Compares each digest with the scalar hasher's, without and with a first byte.
fn agree(alloc: Global, rt: &impl Abort, messages: &[&[u8]]) -> Result<(), AllocError> {
    let plain = digest_each(alloc, messages)?;
    let marked = tagged_each(alloc, FIRST, messages)?;
    assert!(rt; plain.len() == messages.len() && marked.len() == messages.len());
    for (k, message) in messages.iter().enumerate() {
        assert!(rt; Sha256::digest(*message) == plain[k]);
        assert!(rt; tagged(*message) == marked[k]);
    }
    Ok(())
}

// FIPS 180-4's examples for SHA-256, in two groups' worth of lanes.
#[test]
fn standard_digests(rt: HostRuntime) -> Result<(), Fail> {
    let messages: [&[u8]; 3] = [
        b"",
        b"abc",
        b"abcdbcdecdefdefgefghfghighijhijkijkljklmklmnlmnomnopnopq",
    ];
    let texts = [
        "e3b0c44298fc1c149afbf4c8996fb92427ae41e4649b934ca495991b7852b855",
        "ba7816bf8f01cfea414140de5dae2223b00361a396177a9cb410ff61f20015ad",
        "248d6a61d20638b8e5c026930c3e6039a33ce45964ff2167f6ecedd419db06c1",
    ];
    let mut group = Vec::new(rt.alloc());
    for k in 0..12usize {
        group.push(messages[k % 3])?;
    }
    let digests = digest_each(rt.alloc(), &group)?;
    assert_eq!(rt; digests.len(), 12);
    for (k, digest) in digests.iter().enumerate() {
        assert!(rt; is_hex(digest, texts[k % 3]), "{k}");
    }
    Ok(())
}

#[test]
fn every_length_in_one_group(rt: HostRuntime) -> Result<(), Fail> {
    let text = sample(rt.alloc(), 300)?;
    let mut messages = Vec::new(rt.alloc());
    for len in 0..=300 {
        messages.push(front(&text, len))?;
    }
    agree(rt.alloc(), &rt, &messages)?;
    messages.reverse();
    agree(rt.alloc(), &rt, &messages)?;
    Ok(())
}

#[test]
fn groups_of_every_size(rt: HostRuntime) -> Result<(), Fail> {
    let text = sample(rt.alloc(), 4096)?;
    for count in 0..20usize {
        let mut messages = Vec::new(rt.alloc());
        for k in 0..count {
            messages.push(front(&text, k * 37 % 211 + 64 * (k % 3)))?;
        }
        agree(rt.alloc(), &rt, &messages)?;
    }
    Ok(())
}

#[test]
fn a_long_text_among_short_ones(rt: HostRuntime) -> Result<(), Fail> {
    let text = sample(rt.alloc(), 4096)?;
    let mut messages = Vec::new(rt.alloc());
    for k in 0..40usize {
        let len = if k % 13 == 0 { 4096 } else { k };
        messages.push(front(&text, len))?;
    }
    agree(rt.alloc(), &rt, &messages)?;
    Ok(())
}

// Messages of 3 bytes, each with its padding as one block.
fn short_blocks() -> [[u8; 64]; 19] {
    let mut blocks = [[0u8; 64]; 19];
    for k in 0..19usize {
        blocks[k][0] = k as u8;
        blocks[k][3] = 0x80;
        blocks[k][63] = 24;
    }
    blocks
}

#[test]
fn blocks_in_groups_of_every_size(rt: HostRuntime) {
    let blocks = short_blocks();
    for count in 0..20usize {
        let mut states = [initial(); 19];
        compress_each(&mut states[..count], &blocks[..count]);
        for k in 0..count {
            let alone = Sha256::digest(&blocks[k][..3]);
            assert!(rt; digest_bytes(&states[k]) == alone, "{count} {k}");
        }
    }
}

#[test]
fn rows_in_groups_of_every_size(rt: HostRuntime) {
    let mut rows = [[7u8; 100]; 19];
    for k in 0..19usize {
        rows[k][99] = k as u8;
    }
    let mut out = [[0u8; 32]; 19];
    for count in 0..20usize {
        tagged_rows_into(FIRST, &rows[..count], &mut out[..count]);
        for k in 0..count {
            assert!(rt; out[k] == tagged(&rows[k]), "{count} {k}");
        }
    }
}
