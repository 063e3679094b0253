use bk_digest::Digest32;
use bk_results::{Agreed, Flaw};

/// How far two feeds agree, the first missing batches of their orders, and what keeps the feeds from counting whole.
#[derive(Clone, Copy)]
pub struct Compared {
    /// How far they agree.
    pub agreed: Agreed,
    /// The digest of the first missing batch of the order of the first feed; `None` where none is missing.
    pub first: Option<Digest32>,
    /// That of the second.
    pub second: Option<Digest32>,
    /// What keeps the first feed from counting whole; `None` where nothing does, and where it was not asked for.
    pub first_flaw: Option<Flaw>,
    /// What keeps the second.
    pub second_flaw: Option<Flaw>,
}
