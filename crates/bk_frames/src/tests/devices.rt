use super::{EMPTY_LEDGER, Reader, offset_of_cut, read};
use crate::{
    Counted, FaultCode, Feed, FeedFault, Fuse, Sink, Source, WriteFault, push_all, write_frame,
};
use bk_base::Kind;
use std::alloc::{AllocError, Global};
use std::io;
use std::io::{Read, Write};
use std::process::Abort;
use std::test::Fail;

// How many calls it takes to read the empty ledger, when each gives one byte: one for each of its bytes, and one for the
// end.
const NEEDED: u64 = 51 + 1;

// The fault of a reading that has only this many calls.
fn fault_after(calls: u64) -> FeedFault {
    let offset = if calls < 51 {
        offset_of_cut(calls as usize)
    } else {
        51
    };
    FeedFault {
        offset,
        code: FaultCode::Read,
    }
}

// The empty ledger is read with as many calls as that takes, and with fewer the fault is the one call that fails.
fn expect_read(rt: &impl Abort, read: &Result<Feed, FeedFault>, calls: u64) {
    match read {
        Ok(feed) => assert!(rt;
            calls >= NEEDED && feed.len() == 2,
            "read with {calls} calls"
        ),
        Err(fault) => {
            assert!(rt;
                calls < NEEDED && *fault == fault_after(calls),
                "{fault:?} with {calls} calls"
            );
        }
    }
}

fn reader(calls: u32) -> Reader<'static> {
    Reader {
        rest: EMPTY_LEDGER.as_slice(),
        most: 1,
        calls,
    }
}

#[test]
fn reports_a_failed_read(rt: HostRuntime) {
    for calls in 0..100u32 {
        let mut source = Counted::new(reader(calls));
        let read = Feed::read(rt.alloc(), &mut source);
        expect_read(&rt, &read, u64::from(calls));
        assert_eq!(rt; source.failures(), u64::from(read.is_err()));
    }
}

#[test]
fn reports_each_call_that_a_fuse_fails(rt: HostRuntime) {
    for k in 0..100u64 {
        let mut source = Fuse::new(Counted::new(reader(1000)), k);
        let read = Feed::read(rt.alloc(), &mut source);
        expect_read(&rt, &read, k);
        assert_eq!(rt; source.failures(), u64::from(read.is_err()));
        assert_eq!(rt; source.into_inner().failures(), 0);
    }
}

#[test]
fn goes_on_after_a_fuse_has_failed(rt: HostRuntime) -> Result<(), Fail> {
    let mut sink = Fuse::new(Counted::new(Vec::new(rt.alloc())), 1);
    push_all(&mut sink, b"ab")?;
    assert!(rt; push_all(&mut sink, b"cd") == Err(WriteFault { written: 0 }));
    push_all(&mut sink, b"ef")?;
    assert!(rt; sink.failures() == 1);
    assert!(rt; sink.into_inner().into_inner().as_slice() == b"abef".as_slice());
    Ok(())
}

// Takes at most `most` bytes a call, none after `calls` calls.
#[derive(Drop)]
struct Writer {
    held: Vec<u8>,
    most: usize,
    calls: u32,
}

impl Write for Writer {
    fn write(&mut self, buf: &[u8]) -> io::Result<usize> {
        if self.calls == 0 {
            return Ok(0);
        }
        self.calls -= 1;
        let count = buf.len().min(self.most);
        self.held.extend_from_slice(&buf[..count])?;
        Ok(count)
    }

    fn flush(&mut self) -> io::Result<()> {
        Ok(())
    }
}

#[test]
fn writes_what_it_reads(rt: HostRuntime) -> Result<(), Fail> {
    let whole = EMPTY_LEDGER.as_slice();
    let mut sink = Counted::new(Vec::new(rt.alloc()));
    push_all(&mut sink, b"BKF1")?;
    write_frame(&mut sink, Kind::Committee, &whole[9..42])?;
    write_frame(&mut sink, Kind::Genesis, &whole[47..51])?;
    assert!(rt; sink.into_inner().as_slice() == whole);
    Ok(())
}

#[test]
fn reports_what_was_written_before_a_fault(rt: HostRuntime) {
    let whole = EMPTY_LEDGER.as_slice();
    for calls in 0..9u32 {
        let writer = Writer {
            held: Vec::new(rt.alloc()),
            most: 1,
            calls,
        };
        let mut sink = Counted::new(writer);
        let written = u64::from(calls);
        assert!(rt;
            write_frame(&mut sink, Kind::Genesis, &whole[47..51]) == Err(WriteFault { written })
        );
        assert!(rt; sink.failures() == 1);
        assert!(rt; sink.into_inner().held.as_slice() == &whole[42..42 + calls as usize]);
    }
}

// Gives at most `most` bytes a call, and keeps what it was asked for.
#[derive(Drop)]
struct Asked<'a> {
    rest: &'a [u8],
    most: usize,
    // How many calls there were.
    calls: u64,
    // The most bytes that a call had room for.
    room: usize,
    // How many calls found no byte left.
    at_end: u64,
}

impl Read for Asked<'_> {
    fn read(&mut self, buf: &mut [u8]) -> io::Result<usize> {
        let count = self.rest.len().min(self.most).min(buf.len());
        for i in 0..count {
            buf[i] = self.rest[i];
        }
        self.rest = &self.rest[count..];
        self.calls = self.calls.saturating_add(1);
        self.room = self.room.max(buf.len());
        if count == 0 {
            self.at_end = self.at_end.saturating_add(1);
        }
        Ok(count)
    }
}

// What reading a feed of these bytes, at most `most` a call, asked of its source.
fn ask(alloc: Global, bytes: &[u8], most: usize) -> Asked<'_> {
    let mut source = Counted::new(Asked {
        rest: bytes,
        most,
        calls: 0,
        room: 0,
        at_end: 0,
    });
    let _ = Feed::read(alloc, &mut source);
    source.into_inner()
}

// A feed that ends in a batch of 200,000 bytes, which the payload of no call may take at once.
fn with_a_long_batch(alloc: Global) -> Result<Vec<u8>, AllocError> {
    let mut bytes = Vec::from_slice(alloc, EMPTY_LEDGER.as_slice())?;
    bytes.extend_from_slice(b"\x04\x00\x03\x0d\x40")?;
    bytes.resize(51 + 5 + 200_000, 0)?;
    Ok(bytes)
}

#[test]
fn asks_a_source_no_more_than_it_needs(rt: HostRuntime) -> Result<(), Fail> {
    let bytes = with_a_long_batch(rt.alloc())?;
    assert!(rt; read(rt.alloc(), &bytes)?.len() == 3);
    // 200,056 bytes in pieces, and then the end.
    for (most, pieces) in [(1_000_000, 4), (65_536, 4), (512, 391)] {
        let asked = ask(rt.alloc(), &bytes, most);
        assert_eq!(rt; asked.calls, pieces + 1);
        assert!(rt; asked.room == 65_536 && asked.at_end == 1);
    }
    Ok(())
}

#[test]
fn asks_a_source_once_at_its_end(rt: HostRuntime) -> Result<(), Fail> {
    let bytes = with_a_long_batch(rt.alloc())?;
    for kept in 0..60usize {
        assert!(rt; ask(rt.alloc(), &bytes[..kept.min(bytes.len())], 1000).at_end == 1);
    }
    Ok(())
}

#[test]
fn reports_a_write_of_no_byte(rt: HostRuntime) -> Result<(), Fail> {
    let writer = Writer {
        held: Vec::new(rt.alloc()),
        most: 1000,
        calls: 0,
    };
    let mut sink = Counted::new(writer);
    assert!(rt; push_all(&mut sink, b"a") == Err(WriteFault { written: 0 }));
    assert_eq!(rt; sink.failures(), 1);
    push_all(&mut sink, b"")?;
    assert_eq!(rt; sink.failures(), 1);
    Ok(())
}
