//! What a summary says.

use bk_base::Version;
use bk_digest::Digest32;

/// A summary of a feed that nothing stops.
#[derive(Clone, Copy, Debug, PartialEq, Eq)]
pub struct Summary {
    pub version: Version,
    /// SHA-256 of the committee's payload.
    pub committee: Digest32,
    /// SHA-256 of the payload of the opening accounts.
    pub genesis: Digest32,
    pub members: MemberCounts,
    /// How many frames there are, with those of the committee and the genesis.
    pub frames: u64,
    pub certs: CertCounts,
    pub anchors: AnchorCounts,
    pub batches: BatchCounts,
    /// The digest of the first batch of the order that is missing, if one is.
    pub missing: Option<Digest32>,
    pub txs: TxCounts,
    /// How many accounts there are at the end.
    pub accounts: u64,
    /// What they hold together.
    pub money: u64,
    /// The digest of the state at the end.
    pub state: Digest32,
}

/// The sizes of a committee.
#[derive(Clone, Copy, Debug, PartialEq, Eq)]
pub struct MemberCounts {
    pub members: u64,
    /// How much weight may be faulty.
    pub faulty: u64,
    /// How much weight is a quorum.
    pub quorum: u64,
}

/// How many certificates there are.
#[derive(Clone, Copy, Debug, PartialEq, Eq)]
pub struct CertCounts {
    /// Frames of certificates.
    pub all: u64,
    /// Those that break a rule.
    pub rejected: u64,
    /// Those that break none, and whose id came before.
    pub repeated: u64,
    /// Those that wait for a parent.
    pub waiting: u64,
    /// Those in the order.
    pub ordered: u64,
}

/// How many odd rounds there are up to the last with an admitted certificate, by what became of their anchors.
#[derive(Clone, Copy, Debug, PartialEq, Eq)]
pub struct AnchorCounts {
    /// Voted or linked.
    pub committed: u64,
    pub skipped: u64,
    pub left_open: u64,
}

/// How many batches there are.
#[derive(Clone, Copy, Debug, PartialEq, Eq)]
pub struct BatchCounts {
    /// Frames of batches.
    pub all: u64,
    /// Those whose digest came before.
    pub repeated: u64,
    /// Those of the order.
    pub ordered: u64,
    /// Those of the order that are not of the grammar.
    pub void: u64,
    /// Digests of batches that the order does not have.
    pub unordered: u64,
}

/// How many transactions were executed, by their status.
#[derive(Clone, Copy, Debug, PartialEq, Eq)]
pub struct TxCounts {
    pub all: u64,
    pub good: u64,
    pub malformed: u64,
    pub undeclared: u64,
    pub unknown: u64,
    pub stale: u64,
    pub guard: u64,
    pub funds: u64,
}
