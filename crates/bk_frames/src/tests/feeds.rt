use super::{EMPTY_LEDGER, expect_fault, offset_of_cut, read};
use crate::FaultCode;
use bk_base::{Kind, Version, read_genesis};
use std::alloc::{AllocError, Global};
use std::process::Abort;
use std::test::Fail;

fn opening(alloc: Global, genesis: &[u8]) -> Result<Vec<u8>, AllocError> {
    let mut bytes = Vec::from_slice(alloc, &EMPTY_LEDGER[..42])?;
    bytes.extend_from_slice(b"\x02\x00\x00\x00")?;
    bytes.push(u8::try_from(genesis.len()).unwrap_or(0))?;
    bytes.extend_from_slice(genesis)?;
    Ok(bytes)
}

#[test]
fn reads_an_empty_ledger(rt: HostRuntime) -> Result<(), Fail> {
    let feed = read(rt.alloc(), EMPTY_LEDGER.as_slice())?;
    assert!(rt; feed.len() == 2 && feed.version() == Version::One);
    assert!(rt; feed.frame(1) == (Kind::Genesis, [0u8, 0, 0, 0].as_slice()));
    assert!(rt; feed.genesis().is_empty());
    Ok(())
}

#[test]
fn reports_each_cut_of_the_shortest_feed(rt: HostRuntime) {
    let whole = EMPTY_LEDGER.as_slice();
    for kept in 0..51usize {
        let offset = offset_of_cut(kept);
        expect_fault(
            &rt,
            rt.alloc(),
            &whole[..kept],
            offset,
            FaultCode::Truncated,
        );
    }
}

#[test]
fn reports_a_fault_of_the_magic(rt: HostRuntime) {
    for magic in [b"BKF9".as_slice(), b"BKF0", b"BKF3", b"BL"] {
        expect_fault(&rt, rt.alloc(), magic, 0, FaultCode::Magic);
    }
    expect_fault(&rt, rt.alloc(), b"BKF2", 4, FaultCode::Truncated);
}

// A feed that ends in these bytes, after the magic.
fn expect_fault_at_once(
    rt: &impl Abort,
    alloc: Global,
    head: &[u8],
    code: FaultCode,
) -> Result<(), Fail> {
    let mut bytes = Vec::from_slice(alloc, b"BKF1")?;
    bytes.extend_from_slice(head)?;
    expect_fault(rt, alloc, &bytes, 4, code);
    Ok(())
}

#[test]
fn reports_a_fault_of_the_first_frame(rt: HostRuntime) -> Result<(), Fail> {
    let heads: [(&[u8], FaultCode); 7] = [
        (b"\x00", FaultCode::Kind),
        (b"\x05", FaultCode::Kind),
        (b"\x03", FaultCode::Committee),
        (b"\x01\x01\x00\x00\x01", FaultCode::Length),
        (b"\x01\x01\x00\x00\x00", FaultCode::Truncated),
        (b"\x01\x00\x00\x00\x00", FaultCode::Committee),
        (b"\x01\x00\x00\x00\x01\x00", FaultCode::Committee),
    ];
    for (head, code) in heads {
        expect_fault_at_once(&rt, rt.alloc(), head, code)?;
    }
    Ok(())
}

#[test]
fn reports_a_fault_after_the_genesis(rt: HostRuntime) -> Result<(), Fail> {
    let alloc = rt.alloc();
    let tail: [(&[u8], u64, FaultCode); 6] = [
        (b"\x01", 51, FaultCode::Extra),
        (b"\x02", 51, FaultCode::Extra),
        (b"\x03\x00\x00", 51, FaultCode::Truncated),
        (b"\x04\x01\x00\x00\x01", 51, FaultCode::Length),
        (b"\x04\x01\x00\x00\x00", 51, FaultCode::Truncated),
        (b"\x03\x00\x00\x00\x00\x01", 56, FaultCode::Extra),
    ];
    for (more, offset, code) in tail {
        let mut bytes = Vec::from_slice(alloc, EMPTY_LEDGER.as_slice())?;
        bytes.extend_from_slice(more)?;
        expect_fault(&rt, alloc, &bytes, offset, code);
    }
    Ok(())
}

#[test]
fn reports_a_second_frame_of_another_kind(rt: HostRuntime) -> Result<(), Fail> {
    let alloc = rt.alloc();
    let mut second = Vec::from_slice(alloc, &EMPTY_LEDGER[..42])?;
    second.push(4)?;
    expect_fault(&rt, alloc, &second, 42, FaultCode::Genesis);
    Ok(())
}

// A feed with this magic, this committee and no account.
fn with_committee(alloc: Global, magic: &[u8], committee: &[u8]) -> Result<Vec<u8>, AllocError> {
    let mut bytes = Vec::from_slice(alloc, magic)?;
    bytes.extend_from_slice(b"\x01\x00\x00\x00")?;
    bytes.push(u8::try_from(committee.len()).unwrap_or(0))?;
    bytes.extend_from_slice(committee)?;
    bytes.extend_from_slice(b"\x02\x00\x00\x00\x04\x00\x00\x00\x00")?;
    Ok(bytes)
}

// A committee of two members, whose weights are these bytes.
fn two_members(alloc: Global, weights: &[u8]) -> Result<Vec<u8>, AllocError> {
    let mut committee = Vec::from_slice(alloc, b"\x02")?;
    committee.resize(65, 7)?;
    committee.extend_from_slice(weights)?;
    Ok(committee)
}

const WEIGHTS: &[u8; 8] = b"\x00\x00\x00\x01\xff\xff\xff\xff";

#[test]
fn reads_weights_in_version_two(rt: HostRuntime) -> Result<(), Fail> {
    let alloc = rt.alloc();
    let committee = two_members(alloc, WEIGHTS.as_slice())?;
    let feed = read(alloc, &with_committee(alloc, b"BKF2", &committee)?)?;
    assert!(rt; feed.version() == Version::Two);
    assert!(rt; feed.frame(0).1 == committee.as_slice());
    Ok(())
}

fn expect_no_committee(
    rt: &impl Abort,
    alloc: Global,
    magic: &[u8],
    weights: &[u8],
) -> Result<(), Fail> {
    let bytes = with_committee(alloc, magic, &two_members(alloc, weights)?)?;
    expect_fault(rt, alloc, &bytes, 4, FaultCode::Committee);
    Ok(())
}

#[test]
fn refuses_wrong_weights(rt: HostRuntime) -> Result<(), Fail> {
    // A weight of 0, keys without weights, a byte too few and one too many.
    for weights in [
        b"\x00\x00\x00\x01\x00\x00\x00\x00".as_slice(),
        b"",
        b"\x00\x00\x00\x01\xff\xff\xff",
        b"\x00\x00\x00\x01\xff\xff\xff\xff\x00",
    ] {
        expect_no_committee(&rt, rt.alloc(), b"BKF2", weights)?;
    }
    // Weights are nothing that version One knows.
    expect_no_committee(&rt, rt.alloc(), b"BKF1", WEIGHTS.as_slice())
}

#[test]
fn reads_the_payload_of_a_genesis(rt: HostRuntime) -> Result<(), Fail> {
    let alloc = rt.alloc();
    assert!(rt; read_genesis(alloc, b"\x00\x00\x00\x00")?.is_some());
    assert!(rt; read_genesis(alloc, b"\x00\x00\x00\x01")?.is_none());
    Ok(())
}

fn genesis(alloc: Global, rows: &[(u64, u64, u64)]) -> Result<Vec<u8>, AllocError> {
    let mut payload = Vec::new(alloc);
    payload.extend_from_slice(&u32::try_from(rows.len()).unwrap_or(0).to_be_bytes())?;
    for (id, balance, seq) in rows {
        payload.extend_from_slice(&id.to_be_bytes())?;
        payload.extend_from_slice(&balance.to_be_bytes())?;
        payload.extend_from_slice(&seq.to_be_bytes())?;
    }
    opening(alloc, &payload)
}

const HALF: u64 = 1 << 63;

#[test]
fn reads_opening_accounts(rt: HostRuntime) -> Result<(), Fail> {
    let alloc = rt.alloc();
    let good: [[(u64, u64, u64); 2]; 2] = [
        [(1, HALF - 2, HALF - 1), (2, 1, 0)],
        [(0, 0, 0), (u64::MAX, HALF - 1, 0)],
    ];
    for rows in good {
        let feed = read(alloc, &genesis(alloc, &rows)?)?;
        let accounts = feed.genesis();
        assert_eq!(rt; accounts.len(), 2);
        let (id, balance, seq) = rows[1];
        assert!(rt;
            accounts[1].id == id && accounts[1].balance == balance && accounts[1].seq == seq
        );
    }
    Ok(())
}

#[test]
fn judges_opening_accounts(rt: HostRuntime) -> Result<(), Fail> {
    let alloc = rt.alloc();
    let bad: [[(u64, u64, u64); 2]; 5] = [
        [(1, HALF - 1, 0), (2, 1, 0)],
        [(1, 0, HALF), (2, 0, 0)],
        [(2, 0, 0), (2, 0, 0)],
        [(2, 0, 0), (1, 0, 0)],
        [(1, u64::MAX, 0), (2, 1, 0)],
    ];
    for rows in bad {
        expect_fault(&rt, alloc, &genesis(alloc, &rows)?, 42, FaultCode::Genesis);
    }
    Ok(())
}

#[test]
fn judges_the_count_of_opening_accounts(rt: HostRuntime) -> Result<(), Fail> {
    let alloc = rt.alloc();
    // A row too few, a byte too many, and a count that no payload can hold.
    for payload in [
        b"\x00\x00\x00\x01".as_slice(),
        b"\x00\x00\x00\x00\x00",
        b"\x00\x09\x27\xc1",
    ] {
        expect_fault(
            &rt,
            alloc,
            &opening(alloc, payload)?,
            42,
            FaultCode::Genesis,
        );
    }
    Ok(())
}
