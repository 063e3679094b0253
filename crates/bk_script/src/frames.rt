//! The bytes of a feed, put together.

ghost use Rattle.std.specs.Prelude.{◌≡◌, ◌++◌, ◌<◌, ◌≤◌, ◌^◌, length, OnOk, IfOk};
ghost use Rattle.bk_base.specs.Genesis.{genesis_text};
ghost use Rattle.bk_base.specs.Feed.{frame_of, frame_text};
ghost use Rattle.bk_script.specs.Feeds.{feed_text};

use crate::accounts::Accounts;
use crate::sealing::members_payload;
use bk_base::{Kind, Version};
use std::alloc::{AllocError, Global};

/// Writes a frame at the end.
pub(crate) fn put_frame(out: &mut Vec<u8>, kind: Kind, payload: &[u8]) -> Result<(), AllocError>
    requires { length payload.now < 2 ^ 32 }
    ensures { OnOk result (out.new.items
        ≡ out.old.items ++ frame_text (frame_of kind payload.now)) }
{
    out.push(kind as u8)?;
    out.extend_from_slice(&(payload.len() as u32).to_be_bytes())?;
    out.extend_from_slice(payload)
}

// The payload of genesis.
fn genesis_payload(alloc: Global, accounts: &Accounts) -> Result<Vec<u8>, AllocError>
    ensures text { IfOk result (λ payload. payload.items ≡ genesis_text accounts.now) }
    ensures few { length accounts.now < 2 ^ 24 }
{
    let count = accounts.len();
    let mut payload = Vec::with_capacity(alloc, 4 + 24 * count)?;
    payload.extend_from_slice(&(count as u32).to_be_bytes())?;
    accounts.put_rows(&mut payload)?;
    Ok(payload)
}

/// A feed: its magic, the committee, the genesis, and the bytes of the frames after them.
pub(crate) fn feed_bytes(
    alloc: Global,
    version: Version,
    weights: &[u32],
    accounts: &Accounts,
    body: &[u8],
) -> Result<Vec<u8>, AllocError>
    requires { length weights.now ≤ 128 }
    ensures { IfOk result (λ feed. feed.items
        ≡ feed_text version weights.now accounts.now body.now) }
{
    let magic = match version {
        Version::One => *b"BKF1",
        Version::Two => *b"BKF2",
    };
    let mut feed = Vec::from_slice(alloc, &magic)?;
    put_frame(
        &mut feed,
        Kind::Committee,
        &members_payload(alloc, version, weights)?,
    )?;
    put_frame(&mut feed, Kind::Genesis, &genesis_payload(alloc, accounts)?)?;
    feed.extend_from_slice(body)?;
    Ok(feed)
}
