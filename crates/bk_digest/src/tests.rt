//! Vectors from the standards and from Python's `hashlib` and `hmac`, and what no clause says.

ghost use Rattle.std.specs.Prelude.{◌<◌};

use crate::{
    Digest32, MacKey, audit_path, check_path, climb_goes_up, hmac, own_path_leads_to_root,
    path_is_merkle_audit_path, root_is_merkle_tree_hash, tagged, tree_root, tree_root_with,
};
use std::alloc::{AllocError, Global};
use std::collections::{BTreeMap, HashMap};
use std::process::Abort;
use std::test::Fail;

const ABC: &str = "ba7816bf8f01cfea414140de5dae2223b00361a396177a9cb410ff61f20015ad";

const EMPTY: &str = "e3b0c44298fc1c149afbf4c8996fb92427ae41e4649b934ca495991b7852b855";

/// The roots of 0 to 9 leaves; leaf j is the byte j, 24 times.
const ROOTS: [&str; 10] = [
    EMPTY,
    "61126de1b795b976f3ac878f48e88fa77a87d7308ba57c7642b9e1068403a496",
    "eb6b17f965cb879d8af1300cd9c815855c803ea5ec88e485cbb751b002d1f8a3",
    "f91654968d2f49c19761a42c307d33492ec75fa820c898cce2a192d8bd444c65",
    "e7ddfcac739bc63943e5035bb9c3bbce401a9018ec2a727c49f13eb9cc61b9ac",
    "3f4fdbe879a887ec39fd958db20698cea78d88bc162d0112a198401ab5603b3c",
    "357b7adc5852e07a9b2192a01c49aaa9353900d7ce1abd159a171484860fdf4e",
    "7208ffc8da194a706ee7c3c0fed6d8267b846a4da74ccf69cbe96379f9f8792e",
    "3135a5350a26106241ccb572eddf7b42ffab94abef1430f6b05fd4312af44719",
    "be87a0d3cf9d35c5174e0a1329e22fdb5b0a765d62594cbad40ca08a0800e51d",
];

/// SHA-256 of all audit paths of such a tree, one after the other.
const PATHS: [&str; 10] = [
    EMPTY,
    EMPTY,
    "1d74e24d910f0e785b50dba8a3b98464e3ac6bc51396e3bfab7c502807fb3120",
    "32c7774661b85728ed67a27b9ae4c0665991b14d177bc2b91e69e9e4b8e2c888",
    "89a58c53237add61550ceb6170c27fb7045f5de40917b3c945134e7ce4a4af28",
    "3dfc9c975319f0922e18bac275206a24acf7150473406207d56916e50227ed07",
    "0505c1e88512cd7fe45a9d26ace6dc032783cb335460b0645a2faab79bc8d9cf",
    "f19112a931d3d436fd03b3ce74983535dae14c688666c39f27aceaecd0df2c94",
    "c517b0e650807ef73a2ddbc3abc495e3bb0a8f71eb9c933f9334b8cb2fc44396",
    "64b84ba8063328ca0b301e689b4c45e71df4993510980fb44c8a5d7967dbcbf5",
];

fn digest_of_hex(text: &str) -> Option<Digest32> {
    Digest32::parse_hex(text.as_bytes())
}

fn numbered_leaves() -> [[u8; 24]; 9] {
    [0u8, 1, 2, 3, 4, 5, 6, 7, 8].map(|j| [j; 24])
}

fn with_bit_turned(digest: &Digest32) -> Digest32 {
    let mut bytes = *digest.as_bytes();
    bytes[31] ^= 1;
    Digest32::new(bytes)
}

#[test]
fn standard_digests(rt: HostRuntime) {
    assert_eq!(rt; Some(Digest32::of(b"")), digest_of_hex(EMPTY));
    assert_eq!(rt; Some(Digest32::of(b"abc")), digest_of_hex(ABC));
    assert_eq!(rt; Some(tagged(b'a', b"bc")), digest_of_hex(ABC));
}

#[test]
fn text_of_a_digest(rt: HostRuntime) -> Result<(), Fail> {
    let digest = Digest32::of(b"abc");
    assert!(rt; digest.to_hex(rt.alloc())?.as_str() == ABC);
    assert!(rt; digest.to_string(rt.alloc())?.as_str() == ABC);
    assert!(rt; format!(in rt.alloc(); "{digest:?}")?.as_str() == ABC);
    Ok(())
}

#[test]
fn text_of_no_digest(rt: HostRuntime) -> Result<(), Fail> {
    assert!(rt; digest_of_hex(&ABC[..63]).is_none());
    let upper = ABC.to_ascii_uppercase(rt.alloc())?;
    assert!(rt; digest_of_hex(upper.as_str()).is_none());
    for last in ["g", "50"] {
        let text = format!(in rt.alloc(); "{}{last}", &ABC[..63])?;
        assert!(rt; digest_of_hex(text.as_str()).is_none(), "{text}");
    }
    Ok(())
}

#[test]
fn key_of_an_ordered_map(rt: HostRuntime) -> Result<(), Fail> {
    let (low, high) = (Digest32::new([1; 32]), Digest32::new([2; 32]));
    let mut ordered = BTreeMap::new(rt.alloc());
    ordered.insert(high, 2u8)?;
    ordered.insert(low, 1u8)?;
    assert!(rt; ordered.pop_first() == Some((low, 1u8)));
    Ok(())
}

#[test]
fn key_of_a_hashed_map(rt: HostRuntime) -> Result<(), Fail> {
    let mut hashed = HashMap::new(rt.alloc());
    hashed.insert(Digest32::new([2; 32]), 2u8)?;
    assert!(rt; hashed.contains_key(&Digest32::new([2; 32])));
    assert!(rt; !hashed.contains_key(&Digest32::new([1; 32])));
    Ok(())
}

#[test]
fn standard_tags(rt: HostRuntime) {
    let cases: [(&[u8], &[u8], &str); 3] = [
        (
            &[0x0b; 20],
            b"Hi There",
            "b0344c61d8db38535ca8afceaf0bf12b881dc200c9833da726e9376c2e32cff7",
        ),
        (
            b"Jefe",
            b"what do ya want for nothing?",
            "5bdcc146bf60754e6a042426089575c75a003f089d2739839dec58b964ec3843",
        ),
        (
            &[0xaa; 131],
            b"Test Using Larger Than Block-Size Key - Hash Key First",
            "60e431591ee0b67f0d8a26aacbf5b77f8e0bc6213728c5140546040f0ee37f54",
        ),
    ];
    for (key, text, tag) in cases {
        assert!(rt; Some(hmac(key, text)) == digest_of_hex(tag), "{tag}");
    }
}

#[test]
fn tags_of_each_key_length(rt: HostRuntime) {
    let mut bytes = [0u8; 131];
    for i in 0..131 {
        bytes[i] = i as u8;
    }
    let cases = [
        (
            0,
            "0b9a8e633b7f75bbad5fc52cde6d10b90244088e81c800d7aa2ee1a476690c61",
        ),
        (
            32,
            "fe46ecb9c5bb1c337418fc831ffb4646c00177d336f0d3cdb0714ac9555310af",
        ),
        (
            63,
            "88d34927807760b2ded74ca75a841eb5500f22e7390741cb352b3230b3182e07",
        ),
        (
            64,
            "c4efeb906138a6247191567a0e58eb1a834902f33b6e770ba8485344edca256f",
        ),
        (
            65,
            "8d7fc4b125fb15c8f424f0cdd57158679adec06d8fc350deb482b9f336eef25d",
        ),
        (
            131,
            "19fbb46b3ce494611ca270c0f0884de045a9632942c379b25d7ea95aa7e816f8",
        ),
    ];
    for (length, tag) in cases {
        assert!(rt; length <= bytes.len());
        let prepared = MacKey::new(&bytes[..length]);
        for _ in 0..2 {
            let found = prepared.tag(b"What do ya want?");
            assert!(rt; Some(found) == digest_of_hex(tag), "{length}");
        }
    }
}

// All audit paths of these leaves, one after the other.
fn paths_of(alloc: Global, leaves: &[[u8; 24]]) -> Result<Vec<u8>, AllocError> {
    let mut joined = Vec::new(alloc);
    for i in 0..leaves.len() {
        for digest in &audit_path(alloc, leaves, i)? {
            joined.extend_from_slice(digest.as_bytes())?;
        }
    }
    Ok(joined)
}

#[test]
fn roots_and_paths(rt: HostRuntime) -> Result<(), Fail> {
    let all = numbered_leaves();
    for size in 0..10 {
        let leaves = &all[..size];
        assert!(rt;
            Some(tree_root(leaves)) == digest_of_hex(ROOTS[size]),
            "{size}"
        );
        let joined = paths_of(rt.alloc(), leaves)?;
        assert!(rt;
            Some(Digest32::of(&joined)) == digest_of_hex(PATHS[size]),
            "{size}"
        );
    }
    Ok(())
}

#[test]
fn small_roots_from_threads(rt: HostRuntime) {
    let all = numbered_leaves();
    assert!(rt; tree_root_with(&rt, &all[..0]) == tree_root(&all[..0]));
    assert!(rt; tree_root_with(&rt, &all) == tree_root(&all));
}

#[test]
fn root_from_threads(rt: HostRuntime) -> Result<(), Fail> {
    let mut leaves = Vec::new(rt.alloc());
    for j in 0..40_000u64 {
        let mut leaf = [0; 24];
        leaf[..8].copy_from_slice(&j.to_be_bytes());
        leaves.push(leaf)?;
    }
    let expected = digest_of_hex(
        "8ecc02a369a4804d244f6a7b44d9e8deff63e9c13ab4cd5c379e4bc837cf8722",
    );
    assert!(rt; Some(tree_root_with(&rt, &leaves)) == expected);
    Ok(())
}

#[test]
fn good_and_bad_paths(rt: HostRuntime) -> Result<(), Fail> {
    let all = numbered_leaves();
    for size in 1..10 {
        let leaves = &all[..size];
        for i in 0..size {
            let path = audit_path(rt.alloc(), leaves, i)?;
            let root = tree_root(leaves);
            check_placed(&rt, &root, size, i, &leaves[i], &path);
            check_turned(&rt, &root, size, i, &leaves[i], path)?;
        }
    }
    Ok(())
}

// The path is good, and it is bad at each other place, for another leaf and another root.
fn check_placed<R: Abort>(
    rt: &R,
    root: &Digest32,
    size: usize,
    i: usize,
    leaf: &[u8; 24],
    path: &[Digest32],
)
    requires { size < 10 }
{
    assert!(rt;
        !check_path(&with_bit_turned(root), size, i, leaf, path),
        "{size} {i}"
    );
    assert!(rt; !check_path(root, size, i, &[9; 24], path), "{size} {i}");
    for place in 0..size + 1 {
        let is_good = check_path(root, size, place, leaf, path);
        assert!(rt; is_good == (place == i), "{size} {place}");
    }
}

// The path is bad with each bit that is turned, and with a digest more or less.
fn check_turned<R: Abort>(
    rt: &R,
    root: &Digest32,
    size: usize,
    i: usize,
    leaf: &[u8; 24],
    mut path: Vec<Digest32>,
) -> Result<(), Fail> {
    for k in 0..path.len() {
        let good = path[k];
        path[k] = with_bit_turned(&good);
        assert!(rt; !check_path(root, size, i, leaf, &path), "{size} {i} {k}");
        path[k] = good;
    }
    path.push(*root)?;
    assert!(rt; !check_path(root, size, i, leaf, &path), "{size} {i}");
    path.pop();
    if path.pop().is_some() {
        assert!(rt; !check_path(root, size, i, leaf, &path), "{size} {i}");
    }
    Ok(())
}

#[test]
fn laws_are_called() {
    root_is_merkle_tree_hash();
    path_is_merkle_audit_path();
    climb_goes_up();
    own_path_leads_to_root();
}
