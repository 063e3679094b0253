//! A certificate that is rejected.

use bk_certcheck::Rule;
use bk_digest::Digest32;

/// The frame of a certificate that is not good, and the least rule that it breaks.
#[derive(Clone, Copy, Debug, PartialEq, Eq)]
pub struct Reject {
    /// The number of the frame: the committee is frame 0 and the genesis frame 1.
    pub frame: u64,
    /// The rule.
    pub rule: Rule,
    /// The id of the certificate: SHA-256 of the byte 0x10 and its header. `None` where the bytes are no certificate.
    pub id: Option<Digest32>,
}
