use bk_digest::Digest32;
use bk_results::Reply;

/// What a feed replied to a query.
#[derive(Clone, Copy)]
pub struct Replied {
    /// Whether it has what was asked for.
    pub reply: Reply,
    /// The digest of the missing batch at which the order stops; `None` where it stops at none.
    pub missing: Option<Digest32>,
}
