//! The place of a certificate.

/// A certificate by its place: its round and its author. Places are in this order.
#[derive(Clone, Copy, Debug, PartialEq, Eq, PartialOrd, Ord)]
pub struct CertRef {
    /// The round, from 1.
    pub round: u32,
    /// The number of the member who made it.
    pub author: u8,
}
