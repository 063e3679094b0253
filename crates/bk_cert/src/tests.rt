//! The expected digests are of Python's `hashlib` and `hmac`.

use crate::*;
use bk_base::Version;
use bk_committee::{Bad, Committee};
use bk_digest::{Digest32, hmac};
use std::alloc::{AllocError, Global};
use std::process::Abort;
use std::test::Fail;

/// Round 1 by member 0, with no batches and no parents.
const PLAIN: [u8; 8] = [0, 0, 0, 0, 1, 0, 0, 0];

/// The id of that header.
const ID: &str = "afb203aeddb54bba05c780118d206fa2d2a6dc339c542173499c03db2eb8b1c9";

/// The tags of that id by members 0, 1 and 2.
const TAGS: [&str; 3] = [
    "a5787c9e8f4c9c051a737ecb157216b890b9d7c3c50295b6eb956f36faa3a506",
    "e49058be9b8841332ef5ad08763efdfbf52273f6c49d65cd649370c2ece28933",
    "7126fe79fe69a470e50f41f73beeb3689725f99fc21f88bddab3ef7922030557",
];

/// The id of the largest header, and its tag by member 127.
const LARGEST_ID: &str = "5c1542a6ed16ca7250269dfdcc1e1c5f99b8f7f467471674f10dc7a77ae69216";

const LAST_TAG: &str = "29d0ca7f957b95ca738c26b97b3aee6b834c07c4ae89f206a81ec04c8ab8db2b";

/// A committee of this many members; the key of member i is the byte i + 1, 32 times.
fn committee_of(alloc: Global, members: u8) -> Result<Committee, Bad> {
    match payload_of(alloc, members) {
        Ok(payload) => Committee::parse(alloc, Version::One, &payload),
        Err(_) => Err(Bad::Memory),
    }
}

fn payload_of(alloc: Global, members: u8) -> Result<Vec<u8>, AllocError> {
    let mut payload = Vec::new(alloc);
    payload.push(members)?;
    for member in 0..members {
        payload.extend_from_slice(&[member + 1; 32])?;
    }
    Ok(payload)
}

/// This many digests; number j is the byte j mod 251, 32 times.
fn digests(alloc: Global, count: usize) -> Result<Vec<Digest32>, AllocError> {
    let mut made = Vec::new(alloc);
    for j in 0..count {
        made.push(Digest32::new([(j % 251) as u8; 32]))?;
    }
    Ok(made)
}

/// The header of `PLAIN`.
fn plain(rt: &impl Abort, alloc: Global) -> Header {
    Header::new(0, 1, Vec::new(alloc), Vec::new(alloc)).expect(rt, "a header")
}

/// The header of 1,000 batches and 128 parents.
fn largest(rt: &impl Abort, alloc: Global) -> Result<Header, AllocError> {
    let batches = digests(alloc, 1_000)?;
    let parents = digests(alloc, 128)?;
    Ok(Header::new(127, 0xffff_fffe, batches, parents).expect(rt, "a header"))
}

fn sealed(
    rt: &impl Abort,
    alloc: Global,
    header: Header,
    committee: &Committee,
    signers: &[u8],
) -> Result<Cert, AllocError> {
    assert!(rt;
        signers
            .iter()
            .all(|signer| (*signer as usize) < committee.n())
    );
    Cert::seal(alloc, header, committee, signers)
}

fn parsed(rt: &impl Abort, text: &str) -> Digest32 {
    Digest32::parse_hex(text.as_bytes()).expect(rt, "a digest")
}

/// The bytes of the plain header, sealed by members 0, 1 and 2 of four.
fn plain_text(rt: &impl Abort, alloc: Global) -> Result<Vec<u8>, AllocError> {
    let mut text = Vec::from_slice(alloc, &PLAIN)?;
    text.push(7)?;
    text.extend_from_slice(&[0; 15])?;
    for tag in TAGS {
        text.extend_from_slice(parsed(rt, tag).as_bytes())?;
    }
    Ok(text)
}

fn is_read(alloc: Global, bytes: &[u8]) -> Result<bool, AllocError> {
    Ok(Cert::decode(alloc, bytes)?.is_some())
}

/// The id of the header that has the bytes up to this end.
fn id_within(bytes: &[u8], end: usize) -> Option<Digest32> {
    Some(id_of_bytes(bytes.get(..end)?))
}

/// The largest header, sealed by all members of this committee.
fn full(rt: &impl Abort, alloc: Global, committee: &Committee) -> Result<Cert, AllocError> {
    let mut signers = [0u8; 128];
    for member in 0..128u8 {
        signers[member as usize] = member;
    }
    sealed(rt, alloc, largest(rt, alloc)?, committee, &signers)
}

#[test]
fn id_of_a_plain_header(rt: HostRuntime) -> Result<(), Fail> {
    let header = plain(&rt, rt.alloc());
    assert!(rt; header.header_len() == 8);
    assert!(rt; header.id() == parsed(&rt, ID) && id_of_bytes(&PLAIN) == parsed(&rt, ID));
    let text = header.header_bytes(rt.alloc())?;
    assert!(rt; text.as_slice() == PLAIN.as_slice());
    Ok(())
}

#[test]
fn three_of_four(rt: HostRuntime) -> Result<(), Fail> {
    let alloc = rt.alloc();
    let committee = committee_of(alloc, 4)?;
    let cert = sealed(&rt, alloc, plain(&rt, alloc), &committee, &[0, 1, 2])?;
    let text = cert.encode(alloc)?;
    assert!(rt; text.len() == 120);
    assert!(rt; text == plain_text(&rt, alloc)?);
    Ok(())
}

#[test]
fn plain_text_is_read(rt: HostRuntime) -> Result<(), Fail> {
    let alloc = rt.alloc();
    let text = plain_text(&rt, alloc)?;
    let cert = Cert::decode(alloc, &text)?.expect(&rt, "a certificate");
    assert!(rt; cert.mask().len() == 3 && cert.tags().len() == 3);
    assert!(rt; *cert.header() == plain(&rt, alloc));
    assert!(rt; cert.into_header() == plain(&rt, alloc));
    certificate_grammar();
    Ok(())
}

#[test]
fn one_byte_wrong(rt: HostRuntime) -> Result<(), Fail> {
    let alloc = rt.alloc();
    let mut text = plain_text(&rt, alloc)?;
    assert!(rt; text.len() == 120);
    text[8] = 0x0f;
    assert!(rt; !is_read(alloc, &text)?);
    text[8] = 7;
    text.push(0)?;
    assert!(rt; !is_read(alloc, &text)?);
    text.truncate(119);
    assert!(rt; !is_read(alloc, &text)?);
    Ok(())
}

// Each member's tag of this id is at its number.
fn expect_tags(rt: &impl Abort, committee: &Committee, tags: &[Digest32], id: Digest32) {
    assert!(rt; tags.len() == committee.n());
    for member in 0..committee.n() {
        assert!(rt; tags[member] == hmac(committee.key(member), id.as_bytes()));
    }
}

#[test]
fn tags_of_all_that_fits(rt: HostRuntime) -> Result<(), Fail> {
    let committee = committee_of(rt.alloc(), 128)?;
    let cert = full(&rt, rt.alloc(), &committee)?;
    let id = parsed(&rt, LARGEST_ID);
    assert!(rt; cert.header().id() == id);
    expect_tags(&rt, &committee, cert.tags(), id);
    assert!(rt; cert.tags().last() == Some(&parsed(&rt, LAST_TAG)));
    Ok(())
}

fn full_text(rt: &impl Abort, alloc: Global) -> Result<Vec<u8>, Fail> {
    let committee = committee_of(alloc, 128)?;
    Ok(full(rt, alloc, &committee)?.encode(alloc)?)
}

// The bytes have this digest.
fn expect_digest(rt: &impl Abort, text: &[u8], digest: &str) {
    assert!(rt; Digest32::of(text) == parsed(rt, digest));
}

#[test]
fn text_of_all_that_fits(rt: HostRuntime) -> Result<(), Fail> {
    let text = full_text(&rt, rt.alloc())?;
    let whole = "8750fca344564f6d84c74bd7f4722ce7083389a8d31e5f11a83023bf1a5baebf";
    assert!(rt; text.len() == 36_104 + 16 + 128 * 32);
    expect_digest(&rt, &text, whole);
    Ok(())
}

#[test]
fn all_that_fits_is_read(rt: HostRuntime) -> Result<(), Fail> {
    let text = full_text(&rt, rt.alloc())?;
    let read = Cert::decode(rt.alloc(), &text)?.expect(&rt, "a certificate");
    let id = id_within(&text, read.header().header_len());
    assert!(rt; id == Some(parsed(&rt, LARGEST_ID)));
    assert!(rt; read.encode(rt.alloc())? == text);
    Ok(())
}

#[test]
fn bytes_of_the_largest_header(rt: HostRuntime) -> Result<(), Fail> {
    let bytes = largest(&rt, rt.alloc())?.header_bytes(rt.alloc())?;
    assert!(rt; bytes.len() == 36_104);
    assert!(rt; id_of_bytes(&bytes) == parsed(&rt, LARGEST_ID));
    Ok(())
}

// Two batches that are equal and one parent, by an author that no committee has.
fn by_a_stranger(rt: &impl Abort, alloc: Global) -> Result<Header, AllocError> {
    let batches = Vec::from_slice(alloc, &[Digest32::new([5; 32]), Digest32::new([5; 32])])?;
    let parents = Vec::from_slice(alloc, &[Digest32::new([7; 32])])?;
    Ok(Header::new(255, 2, batches, parents).expect(rt, "a header"))
}

fn text_of_a_stranger(rt: &impl Abort, alloc: Global) -> Result<Vec<u8>, Fail> {
    let committee = committee_of(alloc, 128)?;
    let cert = sealed(rt, alloc, by_a_stranger(rt, alloc)?, &committee, &[127, 9])?;
    Ok(cert.encode(alloc)?)
}

#[test]
fn stranger_with_equal_batches(rt: HostRuntime) -> Result<(), Fail> {
    let text = text_of_a_stranger(&rt, rt.alloc())?;
    let whole = "9b81a502ea69d1514c8107e016c01fd7bff64fc204341e1be4104488c5eda070";
    expect_digest(&rt, &text, whole);
    let read = Cert::decode(rt.alloc(), &text)?.expect(&rt, "a certificate");
    assert!(rt; *read.header() == by_a_stranger(&rt, rt.alloc())?);
    assert!(rt; read.mask().len() == 2 && read.mask().has(9) && read.mask().has(127));
    assert!(rt; read.tags().len() == 2);
    Ok(())
}

#[test]
fn parts_of_a_header(rt: HostRuntime) -> Result<(), Fail> {
    let header = by_a_stranger(&rt, rt.alloc())?;
    assert!(rt; header.author() == 255 && header.round() == 2);
    assert!(rt; header.batches() == [Digest32::new([5; 32]); 2].as_slice());
    assert!(rt; header.parents() == [Digest32::new([7; 32])].as_slice());
    Ok(())
}

#[test]
fn headers_differ(rt: HostRuntime) -> Result<(), Fail> {
    let alloc = rt.alloc();
    let header = largest(&rt, alloc)?;
    assert!(rt; header == largest(&rt, alloc)?);
    assert!(rt; header != plain(&rt, alloc));
    assert!(rt; header.author() == 127 && header.round() == 0xffff_fffe);
    equal_headers();
    Ok(())
}

#[test]
fn too_many_for_a_header(rt: HostRuntime) -> Result<(), Fail> {
    let alloc = rt.alloc();
    assert!(rt; Header::new(0, 1, digests(alloc, 1_001)?, Vec::new(alloc)).is_none());
    assert!(rt; Header::new(0, 1, Vec::new(alloc), digests(alloc, 129)?).is_none());
    Ok(())
}

// Whether bytes are read that begin so, go on with this many digests of zeros, and end with nobody's seal.
fn is_read_with(
    alloc: Global,
    head: &[u8],
    digests: usize,
    tail: &[u8],
) -> Result<bool, AllocError> {
    let mut text = Vec::from_slice(alloc, head)?;
    for _ in 0..digests {
        text.extend_from_slice(&[0; 32])?;
    }
    text.extend_from_slice(tail)?;
    is_read(alloc, &text)
}

#[test]
fn too_many_in_bytes(rt: HostRuntime) -> Result<(), Fail> {
    // 1,001 batches and no parents, and one batch fewer
    assert!(rt; !is_read_with(rt.alloc(), &[0, 0, 0, 0, 1, 3, 0xe9], 1_001, &[0; 17])?);
    assert!(rt; is_read_with(rt.alloc(), &[0, 0, 0, 0, 1, 3, 0xe8], 1_000, &[0; 17])?);
    // no batches and 129 parents
    assert!(rt; !is_read_with(rt.alloc(), &[0, 0, 0, 0, 1, 0, 0, 129], 129, &[0; 16])?);
    Ok(())
}

// The plain header, sealed by these members of ten.
fn sealed_by(rt: &impl Abort, alloc: Global, signers: &[u8]) -> Result<Cert, Fail> {
    let committee = committee_of(alloc, 10)?;
    Ok(sealed(rt, alloc, plain(rt, alloc), &committee, signers)?)
}

#[test]
fn named_in_any_order(rt: HostRuntime) -> Result<(), Fail> {
    let cert = sealed_by(&rt, rt.alloc(), &[9, 3, 9, 1, 3])?;
    let other = sealed_by(&rt, rt.alloc(), &[1, 3, 9])?;
    assert!(rt; *cert.mask() == *other.mask());
    assert!(rt; cert.tags() == other.tags());
    Ok(())
}

#[test]
fn sealed_by_nobody(rt: HostRuntime) -> Result<(), Fail> {
    let alloc = rt.alloc();
    let committee = committee_of(alloc, 1)?;
    let cert = sealed(&rt, alloc, plain(&rt, alloc), &committee, &[])?;
    assert!(rt; cert.mask().is_empty());
    let text = cert.encode(alloc)?;
    assert!(rt; text.len() == 24 && is_read(alloc, &text)?);
    Ok(())
}

#[test]
fn masks(rt: HostRuntime) -> Result<(), Fail> {
    let mut mask = Mask::of(&[127, 0]);
    assert!(rt; mask.as_bytes()[0] == 1 && mask.as_bytes()[15] == 0x80);
    mask.insert(9);
    assert!(rt; mask.has(9) && !mask.has(8) && !mask.has(255));
    assert!(rt; mask.len() == 3);
    let mut bytes = [0u8; 16];
    bytes[0] = 1;
    bytes[1] = 2;
    bytes[15] = 0x80;
    assert!(rt; mask == Mask::new(bytes));
    Ok(())
}

#[test]
fn copied_header(rt: HostRuntime) -> Result<(), Fail> {
    let alloc = rt.alloc();
    let header = Header::new(3, 2, digests(alloc, 4)?, digests(alloc, 3)?).expect(&rt, "a header");
    let copy = header.try_clone(alloc)?;
    assert!(rt; copy == header);
    assert!(rt; copy.id() == header.id());
    Ok(())
}
