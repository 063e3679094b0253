//! The limits of a feed.

/// The most members that a committee may have.
pub const MOST_MEMBERS: u8 = 128;

/// The most accounts that a genesis may hold.
pub const MOST_ACCOUNTS: u32 = 600_000;

/// The most bytes that a payload may have.
pub const MOST_PAYLOAD: u32 = 16_777_216;

/// The most bytes that a feed may have.
pub const MOST_FEED: u64 = 4_294_967_295;
