//! Digests in their order, each once.

ghost use Rattle.std.specs.Prelude.{◌≡◌, length, take, OnOk, OnErr};
ghost use Rattle.bk_flatten.specs.private.Listing.{with_digest, with_digests};

use bk_digest::Digest32;
use bk_index::KeyedList;
use std::alloc::AllocError;

// Adds a digest, unless it is there. Where memory runs out nothing changes.
fn add(digests: &mut KeyedList<Digest32>, digest: Digest32) -> Result<(), AllocError>
    ensures ok { OnOk result (digests.new ≡ with_digest digests.old digest) }
    ensures err { OnErr result (digests.new ≡ digests.old) }
{
    let _ = digests.first_of(digest)?;
    Ok(())
}

/// Adds each of these digests, unless it is there. Where memory runs out nothing changes: what was
/// added is taken out again.
pub(crate) fn add_all(
    digests: &mut KeyedList<Digest32>,
    named: &[Digest32],
) -> Result<(), AllocError>
    ensures ok { OnOk result (digests.new ≡ with_digests digests.old named.now) }
    ensures err { OnErr result (digests.new ≡ digests.old) }
{
    let len = digests.len();
    for digest in named {
        if let Err(error) = add(digests, *digest) {
            cut(digests, len);
            return Err(error);
        }
    }
    Ok(())
}

// Takes out all but the first `len` digests.
fn cut(digests: &mut KeyedList<Digest32>, len: usize)
    ensures { digests.new ≡ take len digests.old }
{
    while digests.len() > len {
        digests.drop_last();
    }
}
