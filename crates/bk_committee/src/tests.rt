use crate::{Bad, Committee, committee_grammar, leaders_in_turn, quorums_meet};
use bk_base::Version;
use bk_digest::{Digest32, hmac};
use std::alloc::{AllocError, Global};
use std::process::Abort;
use std::test::Fail;

/// A payload of this many members; the key of member j is the byte j, 32 times.
fn payload_of(alloc: Global, members: u8) -> Result<Vec<u8>, AllocError> {
    let mut payload = Vec::new(alloc);
    payload.push(members)?;
    for member in 0..members {
        payload.extend_from_slice(&[member; 32])?;
    }
    Ok(payload)
}

fn committee_of(alloc: Global, members: u8) -> Result<Committee, Bad> {
    match payload_of(alloc, members) {
        Ok(payload) => Committee::parse(alloc, Version::One, &payload),
        Err(_) => Err(Bad::Memory),
    }
}

/// The payload of version Two with these weights; the key of member j is the byte j, 32 times.
fn weighted_payload(alloc: Global, weights: &[u32]) -> Result<Vec<u8>, AllocError> {
    let mut payload = payload_of(alloc, weights.len().min(255) as u8)?;
    for weight in weights {
        payload.extend_from_slice(&weight.to_be_bytes())?;
    }
    Ok(payload)
}

fn weighted(alloc: Global, weights: &[u32]) -> Result<Committee, Bad> {
    match weighted_payload(alloc, weights) {
        Ok(payload) => Committee::parse(alloc, Version::Two, &payload),
        Err(_) => Err(Bad::Memory),
    }
}

fn expect_bad(rt: &impl Abort, alloc: Global, payload: &[u8], number: u8) {
    expect_bad_of(rt, alloc, Version::One, payload, number);
}

fn expect_bad_of(rt: &impl Abort, alloc: Global, version: Version, payload: &[u8], number: u8) {
    match Committee::parse(alloc, version, payload) {
        Ok(_) => panic!(rt; "read, where {number} was expected"),
        Err(bad) => assert!(rt; bad as u8 == number, "{bad:?}"),
    }
}

#[test]
fn refused_payloads(rt: HostRuntime) {
    let one = [1u8; 34];
    let rows: [(&[u8], u8); 7] = [
        (&[], 2),
        (&[0], 1),
        (&[0x81], 1),
        (&[0xff; 33], 1),
        (&one[..1], 2),
        (&one[..32], 2),
        (&one[..34], 2),
    ];
    for (payload, number) in rows {
        expect_bad(&rt, rt.alloc(), payload, number);
    }
    assert!(rt; Bad::Memory as u8 == 3);
}

#[test]
fn committee_of_one(rt: HostRuntime) -> Result<(), Fail> {
    let committee = Committee::parse(rt.alloc(), Version::One, &[1; 33])?;
    assert!(rt; committee.n() == 1);
    assert!(rt; *committee.key(0) == [1; 32]);
    Ok(())
}

#[test]
fn quorums(rt: HostRuntime) -> Result<(), Fail> {
    let rows: [(u8, u64, u64); 7] = [
        (1, 0, 1),
        (2, 0, 2),
        (3, 0, 3),
        (4, 1, 3),
        (5, 1, 4),
        (7, 2, 5),
        (128, 42, 86),
    ];
    for (members, faulty, quorum) in rows {
        let committee = committee_of(rt.alloc(), members)?;
        assert!(rt; committee.n() == members as usize);
        assert!(rt; committee.f() == faulty && committee.quorum() == quorum);
    }
    quorums_meet();
    Ok(())
}

// Four members that weigh 5, 1, 1 and 1: all weigh 8, so that 2 may be faulty and a quorum weighs 6.
#[test]
fn weights(rt: HostRuntime) -> Result<(), Fail> {
    let committee = weighted(rt.alloc(), &[5, 1, 1, 1])?;
    assert!(rt; committee.version() == Version::Two && committee.n() == 4);
    assert!(rt; committee.f() == 2 && committee.quorum() == 6);
    assert!(rt; committee.weight(0) == 5 && committee.weight(3) == 1);
    assert!(rt; committee.leader(3) == Some(1));
    Ok(())
}

#[test]
fn copied_weights(rt: HostRuntime) -> Result<(), Fail> {
    let copy = weighted(rt.alloc(), &[5, 1, 1, 1])?.try_clone(rt.alloc())?;
    assert!(rt; copy.version() == Version::Two && copy.quorum() == 6);
    assert!(rt; copy.weights() == [5, 1, 1, 1].as_slice());
    assert!(rt; copy.n() == 4 && *copy.key(2) == [2; 32]);
    Ok(())
}

#[test]
fn weights_in_version_one(rt: HostRuntime) -> Result<(), Fail> {
    let committee = committee_of(rt.alloc(), 4)?;
    assert!(rt; committee.weights() == [1, 1, 1, 1].as_slice());
    assert!(rt; committee.n() == 4 && committee.weight(2) == 1);
    Ok(())
}

// 128 members of the greatest weight weigh 549,755,813,760 together.
#[test]
fn heaviest_committee(rt: HostRuntime) -> Result<(), Fail> {
    let committee = weighted(rt.alloc(), &[u32::MAX; 128])?;
    assert!(rt; committee.f() == 183_251_937_919);
    assert!(rt; committee.quorum() == 366_503_875_841);
    Ok(())
}

#[test]
fn refused_payloads_with_weights(rt: HostRuntime) {
    let mut payload = [0u8; 73];
    payload[0] = 2;
    payload[68] = 1;
    let rows: [(&[u8], u8); 6] = [
        (&payload, 4),
        (&payload[..72], 2),
        (&payload[..65], 2),
        (&[], 2),
        (&[0], 1),
        (&[0x81], 1),
    ];
    for (text, number) in rows {
        expect_bad_of(&rt, rt.alloc(), Version::Two, text, number);
    }
    expect_bad(&rt, rt.alloc(), &payload, 2);
}

#[test]
fn leaders_of_four(rt: HostRuntime) -> Result<(), Fail> {
    let committee = committee_of(rt.alloc(), 4)?;
    let rows: [(u32, u8); 6] = [(1, 0), (3, 1), (5, 2), (7, 3), (9, 0), (u32::MAX, 3)];
    for (round, leader) in rows {
        assert!(rt; committee.leader(round) == Some(leader), "{round}");
    }
    assert!(rt; committee.leader(0).is_none() && committee.leader(2).is_none());
    leaders_in_turn();
    Ok(())
}

// The member has this byte thirty-two times as its key, and tags texts under it.
fn expect_key(rt: &impl Abort, committee: &Committee, member: u8) {
    let index = member as usize;
    assert!(rt; index < committee.n());
    assert!(rt; *committee.key(index) == [member; 32]);
    let tag = committee.mac(index).tag(b"Porslynk");
    assert!(rt; tag == hmac(committee.key(index), b"Porslynk"));
}

#[test]
fn keys_and_tags(rt: HostRuntime) -> Result<(), Fail> {
    let committee = committee_of(rt.alloc(), 128)?;
    for member in 0..128u8 {
        expect_key(&rt, &committee, member);
    }
    Ok(())
}

// The digest is of Python's `hmac`.
#[test]
fn tag_by_member_two(rt: HostRuntime) -> Result<(), Fail> {
    let committee = committee_of(rt.alloc(), 128)?;
    assert!(rt; committee.n() == 128);
    let expected = Digest32::parse_hex(
        b"c9507c91261b02ac8ecc8af73730be393bfbaa9a724d2f87b73f404222801244",
    );
    assert!(rt; Some(committee.mac(2).tag(b"Porslynk")) == expected);
    committee_grammar();
    Ok(())
}
