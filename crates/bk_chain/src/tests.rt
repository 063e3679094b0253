//! Texts of links written by hand, and what is printed for them.

use crate::{ChainEnd, ChainFault, MOST_LINKS, check_chain};
use bk_frames::{Counted, Fuse};
use std::alloc::{AllocError, Global};
use std::process::Abort;
use std::test::Fail;

mod faults;
mod verdicts;

// A digest in hexadecimal digits: of all zeros, all ones, all twos and all threes.
const ZEROS: &str = "0000000000000000000000000000000000000000000000000000000000000000";

const ONES: &str = "1111111111111111111111111111111111111111111111111111111111111111";

const TWOS: &str = "2222222222222222222222222222222222222222222222222222222222222222";

const THREES: &str = "abababababababababababababababababababababababababababababababab";

// A line of version 1 from one state to another, without its line feed.
fn line(alloc: Global, from: &str, to: &str, rest: &str) -> Result<String, AllocError> {
    let mut text = String::new(alloc);
    write!(
        text,
        "link version 1 committee {ZEROS} opening {from} closing {to}{rest}"
    )?;
    Ok(text)
}

// What a check prints of a text, and how it ends.
fn check(alloc: Global, text: &[u8]) -> (Result<ChainEnd, ChainFault>, Vec<u8>) {
    let mut sink = Counted::new(Vec::new(alloc));
    let end = check_chain(alloc, &mut Counted::new(text), &mut sink);
    (end, sink.into_inner())
}

fn expect(rt: &impl Abort, alloc: Global, text: &str, end: ChainEnd, shown: &str) {
    let (found, out) = check(alloc, text.as_bytes());
    assert!(rt; found == Ok(end), "{found:?}");
    assert!(rt; out.as_slice() == shown.as_bytes());
}

fn expect_fault(rt: &impl Abort, alloc: Global, text: &[u8], line: u32) {
    let (found, out) = check(alloc, text);
    assert!(rt; found == Err(ChainFault::Links { line }), "{found:?}");
    assert!(rt; out.is_empty());
}
