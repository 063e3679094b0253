//! What a script makes.

use bk_digest::Digest32;
use bk_frames::Counted;
use bk_script::{ScriptCode, ScriptFault, make};
use std::alloc::Global;

/// The feed with one member, whose key is 0x01 thirty-two times, and no account.
pub(crate) const EMPTY_LEDGER: &[u8] =
    b"BKF1\x01\x00\x00\x00\x21\x01\x01\x01\x01\x01\x01\x01\x01\x01\x01\x01\x01\x01\x01\x01\x01\x01\x01\x01\x01\x01\x01\x01\x01\x01\x01\x01\x01\x01\x01\x01\x01\x01\x02\x00\x00\x00\x04\x00\x00\x00\x00";

/// The feed of a script, or its fault.
pub(crate) fn made(alloc: Global, text: &[u8]) -> Result<Vec<u8>, ScriptFault> {
    let mut sink = Counted::new(Vec::new(alloc));
    make(alloc, &mut Counted::new(text), &mut sink)?;
    Ok(sink.into_inner())
}

/// Whether a script makes the feed of [`EMPTY_LEDGER`].
pub(crate) fn makes_empty_ledger(alloc: Global, text: &[u8]) -> bool {
    match made(alloc, text) {
        Ok(feed) => feed.as_slice() == EMPTY_LEDGER,
        Err(_) => false,
    }
}

/// Whether the feed that a script makes has this digest.
pub(crate) fn makes(alloc: Global, text: &str, digest: &str) -> bool {
    match made(alloc, text.as_bytes()) {
        Ok(feed) => Digest32::parse_hex(digest.as_bytes()) == Some(Digest32::of(&feed)),
        Err(_) => false,
    }
}

/// Whether a script has this fault, and nothing is written.
pub(crate) fn has_fault(alloc: Global, text: &[u8], line: u64, code: ScriptCode) -> bool {
    let mut sink = Counted::new(Vec::new(alloc));
    let fault = make(alloc, &mut Counted::new(text), &mut sink).err();
    let out = sink.into_inner();
    fault == Some(ScriptFault::Script { line, code }) && out.is_empty()
}
