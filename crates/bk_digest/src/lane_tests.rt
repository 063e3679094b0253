//! Tags and roots in lanes against Python's `hmac` and `hashlib`, and against one call each.

use crate::{Digest32, MacKey, ToTag, audit_path, hmac, tags_each, tree_root, tree_root_with};
use std::alloc::{AllocError, Global};
use std::test::Fail;

const KEYS: [&[u8]; 3] = [b"", &[7; 32], &[9; 131]];

// The SHA-256 of digests, one after the other.
fn joined(alloc: Global, digests: &[Digest32]) -> Result<Digest32, AllocError> {
    let mut bytes = Vec::new(alloc);
    for digest in digests {
        bytes.extend_from_slice(digest.as_bytes())?;
    }
    Ok(Digest32::of(&bytes))
}

// SHA-256 of the bytes 0, 1, 2 and so on, each alone, under the keys in turn.
fn numbered_ids(alloc: Global, keys: &[MacKey; 3]) -> Result<Vec<ToTag<'_>>, AllocError> {
    let mut ids = Vec::new(alloc);
    for j in 0..19usize {
        let key = &keys[j % 3];
        let id = Digest32::of(&[j as u8]);
        // The toolchain has no rule for `?` on what a push of a `ToTag` returns.
        if ids.push(ToTag { key, id }).is_err() {
            return Err(AllocError);
        }
    }
    Ok(ids)
}

fn numbered_leaves(alloc: Global, count: u64) -> Result<Vec<[u8; 24]>, AllocError> {
    let mut leaves = Vec::new(alloc);
    for j in 0..count {
        let mut leaf = [0; 24];
        leaf[..8].copy_from_slice(&j.to_be_bytes());
        leaves.push(leaf)?;
    }
    Ok(leaves)
}

#[test]
fn tags_as_python_makes_them(rt: HostRuntime) -> Result<(), Fail> {
    let keys = KEYS.map(|key| MacKey::new(key));
    let ids = numbered_ids(rt.alloc(), &keys)?;
    let tags = tags_each(rt.alloc(), &ids)?;
    let expected = Digest32::parse_hex(
        b"ff147c381ddab7a99372100d1bca1c268d9b9aaaa6d766626ef31ffb08c38053",
    );
    assert!(rt; Some(joined(rt.alloc(), &tags)?) == expected);
    Ok(())
}

#[test]
fn tags_of_every_count(rt: HostRuntime) -> Result<(), Fail> {
    let keys = KEYS.map(|key| MacKey::new(key));
    let ids = numbered_ids(rt.alloc(), &keys)?;
    for count in 0..=ids.len() {
        let tags = tags_each(rt.alloc(), &ids[..count])?;
        assert!(rt; tags.len() == count);
        for j in 0..tags.len().min(ids.len()) {
            let alone = hmac(KEYS[j % 3], ids[j].id.as_bytes());
            assert!(rt; tags[j] == alone, "{count} {j}");
        }
    }
    Ok(())
}

#[test]
fn roots_of_every_size(rt: HostRuntime) -> Result<(), Fail> {
    let leaves = numbered_leaves(rt.alloc(), 300)?;
    let mut roots = Vec::new(rt.alloc());
    for size in 0..=leaves.len() {
        roots.push(tree_root(&leaves[..size]))?;
    }
    let expected = Digest32::parse_hex(
        b"e05b5c3ba2cbe717067101a5fcfc53a0b4dc790273f110e20482c30cecafdc4e",
    );
    assert!(rt; Some(joined(rt.alloc(), &roots)?) == expected);
    assert!(rt; tree_root_with(&rt, &leaves) == tree_root(&leaves));
    Ok(())
}

#[test]
fn path_in_a_large_tree(rt: HostRuntime) -> Result<(), Fail> {
    let leaves = numbered_leaves(rt.alloc(), 300)?;
    assert!(rt; leaves.len() > 200);
    let path = audit_path(rt.alloc(), &leaves, 200)?;
    let expected = Digest32::parse_hex(
        b"1be6445e1e5eea946308a0d09dbb1c6df1d1f41c44edfe86108e206f5aee7f68",
    );
    assert!(rt; Some(joined(rt.alloc(), &path)?) == expected);
    Ok(())
}
