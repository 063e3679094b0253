//! Digests and headers at the end of a text.

ghost use Rattle.std.specs.Prelude.{◌≡◌, ◌++◌, OnOk};
ghost use Rattle.std.specs.List.{concat};
ghost use Rattle.bk_cert.specs.Spelling.{header_text};

use crate::header::Header;
use bk_digest::Digest32;
use std::alloc::AllocError;

/// Writes the digests at the end.
pub fn put_digests(out: &mut Vec<u8>, digests: &[Digest32]) -> Result<(), AllocError>
    ensures { OnOk result (out.new.items ≡ out.old.items ++ concat digests.now) }
{
    for digest in digests {
        out.extend_from_slice(digest.as_bytes())?;
    }
    Ok(())
}

/// Writes the header at the end.
pub fn put_header(out: &mut Vec<u8>, header: &Header) -> Result<(), AllocError>
    ensures { OnOk result (out.new.items ≡ out.old.items ++ header_text header.now) }
{
    out.extend_from_slice(&header.opening())?;
    put_digests(out, header.batches())?;
    out.push(header.parents().len() as u8)?;
    put_digests(out, header.parents())
}
