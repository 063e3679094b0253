use bk_digest::Digest32;

/// What keeps a feed from counting whole. Of those that hold the first is meant.
#[derive(Clone, Copy, Debug, PartialEq, Eq)]
pub enum Flaw {
    /// The order stops at this batch, which the feed does not hold.
    Missing {
        /// The digest of the batch.
        digest: Digest32,
    },
    /// Frames of certificates break a rule.
    Rejected {
        /// How many, 1 or more.
        frames: u64,
    },
    /// Good certificates wait.
    Waiting {
        /// How many, 1 or more.
        certs: u64,
    },
    /// No certificate is ordered.
    NothingOrdered,
}
