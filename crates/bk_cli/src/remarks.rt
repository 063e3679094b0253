//! What a job remarks beside its answer.

ghost use Rattle.std.specs.Prelude.{◌≡◌};
ghost use Rattle.bk_cli.specs.Explanations.{no_remarks};

use bk_digest::Digest32;
use bk_results::WrongTag;

/// What a job remarks beside its answer.
#[derive(Clone, Copy)]
pub struct Remarks {
    /// The digest of the missing batch at which the order of the first feed stops; `None` where it stops at none.
    pub first: Option<Digest32>,
    /// That of the second feed, where a job has one.
    pub second: Option<Digest32>,
    /// Whose tag is wrong of the first certificate that is rejected for its tags.
    pub forged: Option<WrongTag>,
}

impl Remarks {
    /// There is nothing to remark.
    pub fn none() -> Remarks
        ensures { result ≡ no_remarks }
    {
        Remarks {
            first: None,
            second: None,
            forged: None,
        }
    }
}
