/// The last round that a certificate may be of.
pub const MOST_ROUND: u32 = 1_000_000;

/// A local rule of certificates. The numbers are those that a report prints; the rules are tested in this order.
#[derive(Clone, Copy, Debug, PartialEq, Eq)]
pub enum Rule {
    /// The bytes are a certificate.
    Shape = 0,
    /// The author is a member.
    Author = 1,
    /// The round is 1 to 1,000,000.
    Round = 2,
    /// In round 1 there is no parent. In a later round there are at most as many as members, and at least as many as
    /// a quorum in version One, or one in version Two.
    Parents = 3,
    /// The ids of the parents ascend.
    ParentOrder = 4,
    /// Each signer is a member.
    Signer = 5,
    /// The signers weigh a quorum.
    Quorum = 6,
    /// Each tag is its signer's tag of the id.
    Tag = 7,
}
