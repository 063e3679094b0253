use bk_digest::Digest32;

/// What can be asked of a feed.
#[derive(Clone, Copy, Debug, PartialEq, Eq)]
pub enum Query {
    /// The committed anchors, oldest first, and the certificates in order.
    Order,
    /// The account of this id after the transactions of the order.
    Account { id: u64 },
    /// What became of the transaction at this place of the order.
    Receipt { place: u32 },
    /// A proof that the account of this id is in the state after the transactions of the order.
    Proof { id: u64 },
    /// Whether this is the digest of the state after the transactions of the order.
    State { root: Digest32 },
    /// What became of the anchor of each odd round up to the greatest round of an admitted certificate.
    Anchors,
    /// What the transactions of the order do to the account of this id, one line each, between its opening and its
    /// closing balance.
    Statement { id: u64 },
}

/// Whether a feed has what was asked for.
#[derive(Clone, Copy, Debug, PartialEq, Eq)]
pub enum Reply {
    /// It has, and the text is written. The digest of a state is right; of this and of a statement, no batch of the
    /// order is missing.
    Found,
    /// The digest of a state is right, or there is a statement, and the order stops at a missing batch. The text is
    /// written.
    Short,
    /// The digest of a state is wrong. The text is written.
    Wrong,
    /// It has no such account or place, and nothing is written.
    Absent,
}
