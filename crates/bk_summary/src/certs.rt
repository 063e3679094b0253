//! How many certificates there are.

ghost use Rattle.std.specs.Prelude.{◌≡◌, length};
ghost use Rattle.bk_committee.specs.Payload.{sizes_of};
ghost use Rattle.bk_summary.specs.Summary.{member_counts};
ghost use Rattle.bk_summary.specs.private.Sums.{certs_of};

use crate::summary::{CertCounts, MemberCounts};
use bk_cert::CertRef;
use bk_committee::Committee;
use bk_order::Intake;

/// The sizes of a committee.
pub(crate) fn member_counts(committee: &Committee) -> MemberCounts
    ensures { result ≡ member_counts (sizes_of committee.now) }
{
    MemberCounts {
        members: committee.n() as u64,
        faulty: committee.f(),
        quorum: committee.quorum(),
    }
}

/// How many certificates there are, where these wait.
pub(crate) fn cert_counts(intake: &Intake, waiting: &[CertRef]) -> CertCounts
    ensures { result ≡ certs_of intake.now.kept.tally (length intake.now.kept.rejected)
        (length waiting.now) (length intake.now.ordered.order) }
{
    let tally = intake.tally();
    CertCounts {
        all: tally.certs,
        rejected: intake.rejected().len() as u64,
        repeated: tally.good.all.saturating_sub(tally.good.names),
        waiting: waiting.len() as u64,
        ordered: intake.order().len() as u64,
    }
}
