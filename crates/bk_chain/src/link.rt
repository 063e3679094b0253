//! What a line of `link` says.

use bk_base::Version;
use bk_digest::Digest32;
use bk_results::Status;

/// A feed as a link of a chain.
#[derive(Clone, Copy, Debug, PartialEq, Eq)]
pub struct LinkValue {
    pub version: Version,
    /// SHA-256 of the committee's payload.
    pub committee: Digest32,
    /// The digest of the state of the opening accounts.
    pub opening: Digest32,
    /// The digest of the state at the end.
    pub closing: Digest32,
    /// How many accounts there are at the end.
    pub accounts: u32,
    /// What they hold together, below 2^63.
    pub money: u64,
    /// How many places were executed.
    pub transactions: u32,
    /// Whether a batch of the order is missing.
    pub end: Status,
}
