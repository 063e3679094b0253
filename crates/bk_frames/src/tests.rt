//! Feeds made by hand, readers and writers that fail, and what the tests share.

use crate::{Counted, FaultCode, Feed, FeedFault};
use std::alloc::{AllocError, Global};
use std::io;
use std::io::{ErrorKind, Read};
use std::process::Abort;

mod cutter;
mod devices;
mod feeds;
mod fields;

// One member with the key 0x01 thirty-two times, and no account.
const EMPTY_LEDGER: &[u8; 51] =
    b"BKF1\x01\x00\x00\x00\x21\x01\x01\x01\x01\x01\x01\x01\x01\x01\x01\x01\x01\x01\x01\x01\x01\x01\x01\x01\x01\x01\x01\x01\x01\x01\x01\x01\x01\x01\x01\x01\x01\x01\x02\x00\x00\x00\x04\x00\x00\x00\x00";

// Gives at most `most` bytes a call, and fails the call after `calls` good ones.
#[derive(Drop)]
struct Reader<'a> {
    rest: &'a [u8],
    most: usize,
    calls: u32,
}

impl Read for Reader<'_> {
    fn read(&mut self, buf: &mut [u8]) -> io::Result<usize> {
        if self.calls == 0 {
            return Err(io::Error::from(ErrorKind::Other));
        }
        self.calls -= 1;
        let count = self.rest.len().min(self.most).min(buf.len());
        for i in 0..count {
            buf[i] = self.rest[i];
        }
        self.rest = &self.rest[count..];
        Ok(count)
    }
}

// Reads a feed that comes in pieces of 7 bytes.
fn read(alloc: Global, bytes: &[u8]) -> Result<Feed, FeedFault> {
    let reader = Reader {
        rest: bytes,
        most: 7,
        calls: 1_000_000,
    };
    Feed::read(alloc, &mut Counted::new(reader))
}

// The offset of the fault of the empty ledger's first `kept` bytes: that of the frame in which they end.
fn offset_of_cut(kept: usize) -> u64 {
    if kept < 4 {
        0
    } else {
        if kept < 42 { 4 } else { 42 }
    }
}

fn expect_fault(rt: &impl Abort, alloc: Global, bytes: &[u8], offset: u64, code: FaultCode) {
    match read(alloc, bytes) {
        Ok(_) => panic!(rt; "read, where {code:?} was expected"),
        Err(fault) => {
            assert!(rt; fault.code == code, "{fault:?}");
            assert!(rt; fault.offset == offset, "{fault:?}");
        }
    }
}
