//! Faults of feeds.

use anyhow::{Result, bail};
use bk_digest::Digest32;
use bk_frames::{FaultCode, FeedFault};
use bk_results::Fault;

fn digest(hex: &str) -> Result<Digest32> {
    match Digest32::parse_hex(hex.as_bytes()) {
        Some(digest) => Ok(digest),
        None => bail!("no digest"),
    }
}

/// Twins of a round and an author, by their ids.
pub(crate) fn twins(round: u32, author: u8, (first, second): (&str, &str)) -> Result<Fault> {
    Ok(Fault::Equivocation {
        round,
        author,
        first: digest(first)?,
        second: digest(second)?,
    })
}

/// A fault of a feed.
pub(crate) fn broken(offset: u64, code: FaultCode) -> Fault {
    Fault::Feed(FeedFault { offset, code })
}

/// The fault of a feed that ends in its frame at an offset.
pub(crate) fn cut_at(offset: u64) -> Fault {
    broken(offset, FaultCode::Truncated)
}

/// Where the frame begins that is being read at an offset, of a feed whose magic and frames end there.
pub(crate) fn begun_at(ends: &[usize], offset: usize) -> u64 {
    let mut begun = 0usize;
    for end in ends {
        if *end <= offset {
            begun = *end;
        }
    }
    begun as u64
}
