/// What a frame holds.
#[derive(Clone, Copy, Debug, PartialEq, Eq)]
pub enum Kind {
    /// The members and their keys: frame 0 and no other.
    Committee = 1,
    /// The opening accounts: frame 1 and no other.
    Genesis = 2,
    /// A certificate.
    Certificate = 3,
    /// A batch of transactions.
    Batch = 4,
}
