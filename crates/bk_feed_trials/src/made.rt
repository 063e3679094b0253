//! Feeds that scripts make.

use anyhow::{Result, bail};
use bk_digest::Digest32;
use bk_frames::Counted;
use bk_script::make;
use std::alloc::Global;

/// The feed of a script.
pub(crate) fn made(alloc: Global, script: &str) -> Result<Vec<u8>> {
    let mut sink = Counted::new(Vec::new(alloc));
    match make(alloc, &mut Counted::new(script.as_bytes()), &mut sink) {
        Ok(()) => Ok(sink.into_inner()),
        Err(_) => bail!("a script has a fault"),
    }
}

/// Whether the digest of these bytes is this.
pub(crate) fn has_digest(bytes: &[u8], digest: &str) -> bool {
    Digest32::parse_hex(digest.as_bytes()) == Some(Digest32::of(bytes))
}
