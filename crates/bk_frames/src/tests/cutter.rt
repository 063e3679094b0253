use super::{EMPTY_LEDGER, offset_of_cut, read};
use crate::{Cutter, FaultCode, Feed, FeedFault};
use bk_base::{Kind, Version};
use std::alloc::{AllocError, Global};
use std::process::Abort;
use std::test::Fail;

// The frames that a cutter hands out for these bytes in pieces of `size`, or their fault.
fn cut(alloc: Global, bytes: &[u8], size: usize) -> Result<Vec<(Kind, Vec<u8>)>, FeedFault> {
    let mut cutter = Cutter::new(alloc);
    let mut out = Vec::new(alloc);
    for piece in bytes.chunks(size.max(1)) {
        let mut frames = cutter.feed(piece)?;
        out.append(&mut frames).map_err(|_| FeedFault {
            offset: 0,
            code: FaultCode::Memory,
        })?;
    }
    cutter.end()?;
    Ok(out)
}

fn has_frames(feed: &Feed, frames: &[(Kind, Vec<u8>)]) -> bool {
    if feed.len() != frames.len() {
        return false;
    }
    for (i, (kind, payload)) in frames.iter().enumerate() {
        let (expected, text) = feed.frame(i);
        if expected != *kind || text != payload.as_slice() {
            return false;
        }
    }
    true
}

// A cutter has to say of these bytes what a feed that is read whole says.
fn expect_as_read(rt: &impl Abort, alloc: Global, bytes: &[u8], size: usize) {
    match (read(alloc, bytes), cut(alloc, bytes, size)) {
        (Ok(feed), Ok(frames)) => assert!(rt; has_frames(&feed, &frames)),
        (Err(fault), Err(found)) => assert!(rt; fault == found),
        _ => panic!(rt; "a feed for one and a fault for the other"),
    }
}

// The empty ledger and then a certificate, an empty batch and a batch.
fn five_frames(alloc: Global) -> Result<Vec<u8>, AllocError> {
    let mut bytes = Vec::from_slice(alloc, EMPTY_LEDGER.as_slice())?;
    bytes.extend_from_slice(b"\x03\x00\x00\x00\x03abc")?;
    bytes.extend_from_slice(b"\x04\x00\x00\x00\x00")?;
    bytes.extend_from_slice(b"\x04\x00\x00\x00\x46")?;
    bytes.resize(51 + 8 + 5 + 5 + 70, 9)?;
    Ok(bytes)
}

#[test]
fn cuts_as_a_feed_is_read(rt: HostRuntime) -> Result<(), Fail> {
    let alloc = rt.alloc();
    let whole = five_frames(alloc)?;
    for size in [1, 2, 3, 7, 64, 4096] {
        for kept in 0..=whole.len() {
            expect_as_read(&rt, alloc, &whole[..kept], size);
        }
        // Each byte of the first 60 made wrong in turn.
        for i in 0..60usize {
            let mut wrong = Vec::from_slice(alloc, &whole)?;
            if let Some(byte) = wrong.get_mut(i) {
                *byte ^= 0x11;
            }
            expect_as_read(&rt, alloc, &wrong, size);
        }
    }
    Ok(())
}

// What a cutter says once it has the first `kept` bytes of the shortest feed.
fn expect_within(rt: &impl Abort, cutter: &Cutter, kept: usize) {
    let offset = offset_of_cut(kept);
    let code = FaultCode::Truncated;
    assert_eq!(rt; cutter.offset(), offset);
    assert!(rt; cutter.version().is_some() == (kept > 3));
    assert!(rt; cutter.end() == Err(FeedFault { offset, code }));
}

#[test]
fn cuts_the_shortest_feed(rt: HostRuntime) -> Result<(), Fail> {
    let whole = EMPTY_LEDGER.as_slice();
    for kept in 0..51usize {
        let mut cutter = Cutter::new(rt.alloc());
        let count = cutter.feed(&whole[..kept])?.len();
        assert!(rt; count == if kept < 42 { 0 } else { 1 });
        expect_within(&rt, &cutter, kept);
        // It goes on after `end`, and after an empty piece.
        assert!(rt; cutter.feed(b"")?.is_empty());
        assert!(rt; cutter.feed(&whole[kept..])?.len() + count == 2);
        assert!(rt; cutter.end().is_ok() && cutter.offset() == 51);
    }
    Ok(())
}

#[test]
fn names_the_version_with_the_magic(rt: HostRuntime) -> Result<(), Fail> {
    for (magic, version) in [(b"BKF1", Version::One), (b"BKF2", Version::Two)] {
        let mut cutter = Cutter::new(rt.alloc());
        cutter.feed(&magic[..3])?;
        assert!(rt; cutter.version().is_none());
        cutter.feed(&magic[3..])?;
        assert!(rt; cutter.version() == Some(version));
    }
    Ok(())
}

// A cutter that has these bytes returns no frame, but this fault.
fn expect_refused(rt: &impl Abort, cutter: &mut Cutter, bytes: &[u8], fault: FeedFault) {
    assert!(rt; cutter.feed(bytes).err() == Some(fault));
}

#[test]
fn reports_a_fault_with_its_first_byte(rt: HostRuntime) {
    let fault = FeedFault {
        offset: 4,
        code: FaultCode::Committee,
    };
    let mut cutter = Cutter::new(rt.alloc());
    for piece in [b"BKF1\x03".as_slice(), b"", b"BKF1"] {
        expect_refused(&rt, &mut cutter, piece, fault);
    }
    assert!(rt; cutter.end() == Err(fault));
}

#[test]
fn reports_a_fault_of_the_magic(rt: HostRuntime) {
    let fault = FeedFault {
        offset: 0,
        code: FaultCode::Magic,
    };
    expect_refused(&rt, &mut Cutter::new(rt.alloc()), b"BKF9", fault);
}

#[test]
fn hands_out_no_frame_with_a_fault(rt: HostRuntime) -> Result<(), Fail> {
    let mut bytes = five_frames(rt.alloc())?;
    bytes.push(1)?;
    let fault = FeedFault {
        offset: 139,
        code: FaultCode::Extra,
    };
    expect_refused(&rt, &mut Cutter::new(rt.alloc()), &bytes, fault);
    Ok(())
}

#[test]
fn keeps_the_frames_before_a_fault(rt: HostRuntime) -> Result<(), Fail> {
    let mut bytes = Vec::from_slice(rt.alloc(), EMPTY_LEDGER.as_slice())?;
    bytes.push(9)?;
    let mut frames = Vec::new(rt.alloc());
    let found = Cutter::new(rt.alloc()).feed_into(&bytes, &mut frames);
    let offset = 51;
    let code = FaultCode::Kind;
    assert!(rt; found == Err(FeedFault { offset, code }) && frames.len() == 2);
    Ok(())
}

#[test]
fn reports_a_length_before_its_payload(rt: HostRuntime) -> Result<(), Fail> {
    let fault = FeedFault {
        offset: 51,
        code: FaultCode::Length,
    };
    let mut cutter = Cutter::new(rt.alloc());
    assert!(rt; cutter.feed(EMPTY_LEDGER.as_slice())?.len() == 2);
    assert!(rt; cutter.feed(b"\x04\x01\x00\x00")?.is_empty());
    expect_refused(&rt, &mut cutter, b"\x01", fault);
    Ok(())
}

#[test]
fn cuts_the_longest_frame_byte_by_byte(rt: HostRuntime) -> Result<(), Fail> {
    let mut cutter = Cutter::new(rt.alloc());
    cutter.feed(EMPTY_LEDGER.as_slice())?;
    cutter.feed(b"\x04\x01\x00\x00\x00")?;
    for _ in 1..16_777_216u32 {
        assert!(rt; cutter.feed(b"a")?.is_empty());
    }
    let frames = cutter.feed(b"a")?;
    assert!(rt; frames.len() == 1 && frames[0].1.len() == 16_777_216);
    assert!(rt; cutter.end().is_ok());
    Ok(())
}
