//! The evidence that a member made two headers for one round.

use bk_digest::Digest32;

/// Two headers of one round and author with different ids: of all that are held, those of the least
/// round and author, with the two least ids.
#[derive(Clone, Copy, Debug, PartialEq, Eq)]
pub struct Evidence {
    /// The round, from 1.
    pub round: u32,
    /// The number of the member who made both.
    pub author: u8,
    /// The least id.
    pub first: Digest32,
    /// The least of the other ids.
    pub second: Digest32,
}

/// The collision and the evidence that one table of all certificates of two tables would have.
#[derive(Clone, Copy, Debug, PartialEq, Eq)]
pub struct Together {
    /// The least id under which there are two headers; `None` where each id has one header.
    pub collision: Option<Digest32>,
    /// The evidence of the least round and author that has two ids; `None` where each has one.
    pub evidence: Option<Evidence>,
}
