//! What an offer of a certificate answers.

use bk_digest::Digest32;

/// What an offer of a certificate answers.
#[derive(Clone, Copy, Debug, PartialEq, Eq)]
pub enum Offer {
    /// Neither its id nor its place was held.
    New,
    /// This header was held under this id: nothing changes.
    Repeat,
    /// Its id was not held, but other ids of its round and author were: the least of them.
    Twin(Digest32),
    /// Other headers alone were held under this id.
    Collision,
}
