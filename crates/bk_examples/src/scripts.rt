//! Scripts of all kinds of lines.

use crate::made::{EMPTY_LEDGER, made, makes, makes_empty_ledger};
use bk_trial_kit::Tally;
use std::alloc::Global;

// A batch of `pay 1 2 30 0`.
const ONE_PAYMENT: &[u8] =
    b"\x04\x00\x00\x00\x38\x00\x01\x00\x34\x01\x02\x01\x00\x00\x00\x00\x00\x00\x00\x01\x01\x00\x00\x00\x00\x00\x00\x00\x02\x00\x00\x00\x00\x00\x00\x00\x00\x00\x00\x00\x00\x00\x00\x00\x01\x00\x00\x00\x00\x00\x00\x00\x02\x00\x00\x00\x00\x00\x00\x00\x1e";

// The shortest scripts.
const EMPTY: [&str; 2] = ["members 1", "#\n\nversion 1\nmembers 1\n# end"];

const EVERY_KIND: &str =
    "# all kinds of lines\nversion 2\nmembers 4 5,1,1,4294967295\naccount 9 9223372036854775657\naccount 1 100\naccount 2 50 7\nbatch b1\npay 9 1 30 0\npayif 1 2 10 0 9 5\n\npayif 1 2 10 1 2 5\n# within a batch\nsweep 2 1 7 0\nsplit 1 2 3 1 9 2\nraw -\nraw 00ff\nbatch b2\ncert h1 0 200 b2,250a2763312602770d5899dd8ac048868898b62049c3ea8088ad0202fa831326,b2 - 127,0,0\ncert h2 4294967295 3 abababababababababababababababababababababababababababababababab h1,cdcdcdcdcdcdcdcdcdcdcdcdcdcdcdcdcdcdcdcdcdcdcdcdcdcdcdcdcdcdcdcd -\nagain h1 1";

// The digest of the feed of every kind of line, which has 1,063 bytes.
const DIGEST: &str = "945b1e3f06f248d4c96fca3fe0fae50b6c1c12c8a4f8411236b31bd2ad2f5661";

// Whether a script makes the empty ledger and one payment after it.
fn makes_payment(alloc: Global, text: &[u8]) -> bool {
    match made(alloc, text) {
        Ok(feed) => feed.strip_prefix(EMPTY_LEDGER) == Some(ONE_PAYMENT),
        Err(_) => false,
    }
}

fn try_small<R: AllocGlobal + Eprint>(rt: &R, tally: &mut Tally) {
    for text in EMPTY {
        let is_right = makes_empty_ledger(rt.alloc(), text.as_bytes());
        tally.note(rt, text, is_right);
    }
    let is_right = makes_payment(rt.alloc(), b"members 1\nbatch b\npay 1 2 30 0");
    tally.note(rt, "the script of one payment", is_right);
    let is_right = makes(rt.alloc(), EVERY_KIND, DIGEST);
    tally.note(rt, "the script of every kind of line", is_right);
}

/// All of them.
pub(crate) fn try_scripts<R: AllocGlobal + Eprint>(rt: &R, tally: &mut Tally) {
    try_small(rt, tally);
}
